// Why a call got no reply.
ghost use Rattle.std.specs.Prelude.{◌≡◌, Some, codes};
ghost use Rattle.operator_asking.specs.Fault.{text_of};
ghost use Rattle.operator_asking.specs.declared.fault.AskFault.TheVariants.{Socket, Frame, OutOfMemory};

use std::alloc::AllocError;
use std::error::Error;
use std::fmt;

/// Why a call got no reply.
#[derive(Clone, Copy, Debug, PartialEq, Eq)]
pub enum AskFault {
    /// A write, a flush or a read failed, or a write took nothing. The call may have been made.
    Socket,
    /// The call was sent whole, and what came back begins with a fault, or ends before a whole frame.
    Frame,
    /// A growth was refused. Nothing was sent, or the call was sent whole and it may have been made.
    OutOfMemory,
}

impl fmt::Display for AskFault {
    ghost output = { λ fault. Some (text_of fault) };

    fn fmt<W: fmt::Write>(&self, f: &mut fmt::Formatter<W>) -> fmt::Result {
        match self {
            AskFault::Socket => write!(f, "the connection failed"),
            AskFault::Frame => write!(f, "no frame of a reply came"),
            AskFault::OutOfMemory => write!(f, "out of memory"),
        }
    }
}

impl Error for AskFault {}

impl From<AllocError> for AskFault {
    ghost from_gives = { λ _ fault. fault ≡ OutOfMemory };

    fn from(_refused: AllocError) -> AskFault {
        AskFault::OutOfMemory
    }
}
