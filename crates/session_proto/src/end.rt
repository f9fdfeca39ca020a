// How a session ends.
ghost use Rattle.std.specs.Prelude.{◌≡◌};
ghost use Rattle.session_proto.specs.Served.{leave_of};

use plain::{Answer, Why};

/// Why a session ended: the first of these causes that came.
#[derive(Clone, Copy, Debug, PartialEq, Eq)]
pub enum EndCause {
    /// The input ended between two frames.
    Ended,
    /// A read failed.
    ReadFault,
    /// A write failed, or took nothing.
    WriteFault,
    /// What came begins with a fault, or the input ended inside a frame.
    BadFrame,
    /// As many frames were answered as the session may have.
    FrameLimit,
    /// The asker's host has ended.
    Closed,
    /// A growth was refused for what came or for what was to be sent.
    OutOfMemory,
}

impl EndCause {
    /// The cause that the session's Leave tells. There is no Leave where the host has ended, or memory was wanting.
    pub fn leave(self) -> Option<Why>
        ensures { result ≡ leave_of self }
    {
        match self {
            EndCause::Ended => Some(Why::Ended),
            EndCause::ReadFault => Some(Why::ReadFault),
            EndCause::WriteFault => Some(Why::WriteFault),
            EndCause::BadFrame => Some(Why::BadFrame),
            EndCause::FrameLimit => Some(Why::FrameLimit),
            EndCause::Closed | EndCause::OutOfMemory => None,
        }
    }
}

/// How a session ended, and what it came to.
#[derive(Debug, Drop)]
pub struct SessionEnd {
    /// Why it ended.
    pub why: EndCause,
    /// How many frames' calls were asked, the one that found the host ended too. The session's own Leave is not counted.
    pub calls: u32,
    /// How many bytes were written.
    pub written: u64,
    /// What the session's own Leave was answered, which is not written. None where it made none, or the Leave found the host
    /// ended.
    pub left: Option<Answer>,
}
