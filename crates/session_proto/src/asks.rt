// Who answers the calls of a session.
ghost use Rattle.std.specs.Prelude.{Result, Ok};
ghost use Rattle.plain.specs.declared.answer.Answer.{Answer};
ghost use Rattle.host_calls.specs.declared.client.ClientCall.{ClientCall};
ghost use Rattle.host_calls.specs.declared.ring.Closed.{Closed};
ghost use Rattle.host_calls.specs.Frames.{AnswerHasFrame};

use host_calls::{ClientCall, Closed};
use plain::Answer;
use std::alloc::Global;

/// One who answers a client's calls: a keeper on this thread, or a seat of a host.
pub trait Asks {
    /// Which answers a call may get, and what becomes of the asker then.
    ghost asks: { Self → ClientCall → Result Answer Closed → Self → Type 0 };

    /// Asks a call.
    ///
    /// # Errors
    ///
    /// The host has ended, and the call was not answered.
    fn ask(&mut self, alloc: Global, call: ClientCall) -> Result<Answer, Closed>
        ensures { asks self.old call result self.new };

    /// Each answer has a frame of the host, so it can be sent.
    ghost have_frames: { (old new : Self) (call : ClientCall) (answer : Answer) → asks old call (Ok answer) new
        → AnswerHasFrame answer };
}
