// Which replies may go to a seat.
ghost use Rattle.host_calls.specs.Frames.{HasFrame};
ghost use Rattle.host_core.specs.Rules.{IsForClients};

use host_calls::RingReply;
use rtrb::Protocol;

/// The rule of a client's replies: Closed, or a final answer that has a frame. A device's replies have no rule (`AnyItems`).
#[derive(Clone, Copy)]
pub struct ClientReplies;

impl Protocol<RingReply> for ClientReplies {
    ghost allows = { λ _ reply. IsForClients reply };
}

/// The rule of the operator's replies: each has a frame.
#[derive(Clone, Copy)]
pub struct OperatorReplies;

impl Protocol<RingReply> for OperatorReplies {
    ghost allows = { λ _ reply. HasFrame reply };
}
