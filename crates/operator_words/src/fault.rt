// Why words are no call.
use thiserror::Error;

/// Why words are no call of the operator.
#[derive(Clone, Copy, Debug, Drop, PartialEq, Eq, Error)]
pub enum WordFault {
    /// No call has these words.
    #[error("no call has these words")]
    Usage,
    /// Memory ran out while they were read. [`words_to_call`](crate::words_to_call) takes none.
    #[error("out of memory")]
    OutOfMemory,
}
