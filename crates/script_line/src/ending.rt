// How a run ends.

/// Why a run of a script ended.
#[derive(Clone, Copy, Debug, PartialEq, Eq)]
pub enum ScriptEnd {
    /// The input has no more lines, and each line has run.
    Done,
    /// This line, counted from 1, is none.
    BadLine(u64),
    /// A read failed.
    ReadFault,
    /// A write or a flush failed, or a write took nothing.
    WriteFault,
    /// There is no memory for what a line prints.
    OutOfMemory,
}
