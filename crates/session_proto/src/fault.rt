// Why bytes are no value.
ghost use Rattle.std.specs.Prelude.{◌≡◌};
ghost use Rattle.session_proto.specs.declared.fault.ReadError.TheVariants.{OutOfMemory};

use std::alloc::{AllocError, AllocFailed};

/// What is wrong with bytes that are to be frames.
#[derive(Clone, Copy, Debug, PartialEq, Eq)]
pub enum Fault {
    /// The length is 0 or above the side's greatest, or it is not that of the bytes which are to be one frame.
    BadLengthField,
    /// The side has no such kind.
    BadKind,
    /// The kind has no such body: a length or a field that is not one of its own.
    BadBody,
}

/// Why no value was read.
#[derive(Clone, Copy, Debug, PartialEq, Eq)]
pub enum ReadError {
    /// A growth was refused. The bytes may be a value.
    OutOfMemory,
    /// The bytes are no value.
    Fault(Fault),
}

impl From<AllocError> for ReadError {
    ghost from_gives = { λ _ e. e ≡ OutOfMemory };

    fn from(_refused: AllocError) -> ReadError {
        ReadError::OutOfMemory
    }
}

impl<T: Drop> From<AllocFailed<T>> for ReadError {
    ghost from_gives = { λ _ e. e ≡ OutOfMemory };

    fn from(_refused: AllocFailed<T>) -> ReadError {
        ReadError::OutOfMemory
    }
}
