// How the run of a call ends.
ghost use Rattle.std.specs.Prelude.{◌≡◌};
ghost use Rattle.operator_asking.specs.Ending.{end_of, fault_end, status_of};

use crate::fault::AskFault;
use host_calls::{OperatorCall, RingReply};
use plain::Answer;

/// How the run of a call ends.
#[derive(Clone, Copy, Debug, PartialEq, Eq)]
pub enum CallEnd {
    /// The host did it: it accepted the call, or it has ended after Stop.
    Done,
    /// The host did not do it: it refused the call, cannot do it yet, or has ended after another call than Stop.
    Refused,
    /// The connection failed. The call may have been made.
    Socket,
    /// What came back is no reply. The call may have been made.
    Frame,
    /// A write of the answer's text failed.
    WriteFault,
    /// There was no memory. The call may have been made.
    OutOfMemory,
}

/// The exit status of an end.
pub fn status(end: CallEnd) -> u8
    ensures { result ≡ status_of end }
{
    match end {
        CallEnd::Done => 0,
        CallEnd::Refused => 1,
        CallEnd::Socket | CallEnd::Frame => 3,
        CallEnd::WriteFault => 4,
        CallEnd::OutOfMemory => 5,
    }
}

/// The end when the reply to a call is printed.
pub fn end_at(call: OperatorCall, reply: &RingReply) -> CallEnd
    ensures { result ≡ end_of call reply.now }
{
    match reply {
        RingReply::Answer(Answer::Accepted(_)) => CallEnd::Done,
        RingReply::Answer(Answer::Refused(_)) => CallEnd::Refused,
        RingReply::Answer(Answer::NotYet(_)) => CallEnd::Refused,
        RingReply::Closed => {
            if call == OperatorCall::Stop {
                CallEnd::Done
            } else {
                CallEnd::Refused
            }
        }
    }
}

impl From<AskFault> for CallEnd {
    ghost from_gives = { λ fault end. end ≡ fault_end fault };

    fn from(fault: AskFault) -> CallEnd {
        end_at_fault(fault)
    }
}

// The end if a call got no reply.
fn end_at_fault(fault: AskFault) -> CallEnd
    ensures { result ≡ fault_end fault }
{
    match fault {
        AskFault::Socket => CallEnd::Socket,
        AskFault::Frame => CallEnd::Frame,
        AskFault::OutOfMemory => CallEnd::OutOfMemory,
    }
}
