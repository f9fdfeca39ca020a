// A keeper that notes what a session asks of it.
ghost use Rattle.std.specs.Prelude.{IfOk};
ghost use Rattle.host_calls.specs.Frames.{AnswerHasFrame};

use history::Keeper;
use host_calls::{ClientCall, Closed};
use plain::{Answer, Why};
use session_proto::Asks;
use session_solo::Solo;
use std::alloc::Global;

/// Asks a keeper, and notes what it is asked.
#[derive(Drop)]
pub struct Heard {
    pub solo: Solo,
    /// How many calls were asked.
    pub asked: u32,
    /// How many of them were a Leave, and the cause of the last.
    pub leaves: u32,
    pub why: Option<Why>,
    /// The call that finds the host ended, counted from 1, or 0 for none.
    pub closes_at: u32,
}

impl Heard {
    /// Of a keeper; the call of this number finds the host ended.
    pub fn of(keeper: Keeper, closes_at: u32) -> Heard {
        Heard {
            solo: Solo(keeper),
            asked: 0,
            leaves: 0,
            why: None,
            closes_at,
        }
    }
}

impl Asks for Heard {
    ghost asks = { λ _ _ result _. IfOk result AnswerHasFrame };

    fn ask(&mut self, alloc: Global, call: ClientCall) -> Result<Answer, Closed> {
        self.asked = self.asked.wrapping_add(1);
        if let ClientCall::Leave { why } = &call {
            self.leaves = self.leaves.wrapping_add(1);
            self.why = Some(*why);
        }
        if self.asked == self.closes_at {
            return Err(Closed);
        }
        self.solo.ask(alloc, call)
    }

    ghost have_frames = { λ _ _ _ _ asked. asked };
}
