// Calls one after the other, and the laws of Undo and Redo.
ghost use Rattle.std.specs.Prelude.{◌≡◌, ◌+◌, ◌-◌, ◌≤◌, ◌<◌, IfOk, IfErr, length, take};
ghost use Rattle.plain.specs.Keeper.{State, machine_of, called};
ghost use Rattle.plain.specs.Headline.{MayRun};
ghost use Rattle.history.specs.Turns.{KeptRun};

use crate::keeper::Keeper;
use change_record::push_within;
use dispatch_core::Answer;
use plain::Call;
use std::alloc::Global;

/// A run that stopped for want of memory, before the answer list could grow.
#[derive(Drop)]
pub struct RunStop {
    /// The answers of the calls that were made.
    pub answers: Vec<Answer>,
    /// How many calls were made.
    pub made: usize,
}

impl Keeper {
    /// Answers some calls, one after the other.
    ///
    /// # Errors
    ///
    /// There is no memory for one more answer; then the next call was not made.
    pub fn run(&mut self, alloc: Global, calls: &[Call]) -> Result<Vec<Answer>, RunStop>
        ensures ok { IfOk result (λ answers. MayRun self.old.state calls.now answers.items self.new.state) }
        ensures err { IfErr result (λ stop. MayRun self.old.state (take stop.made calls.now) stop.answers.items self.new.state) }
        ensures turns { IfOk result (λ answers. KeptRun self.old calls.now answers.items self.new) }
        ensures stop_turns { IfErr result (λ stop. KeptRun self.old (take stop.made calls.now) stop.answers.items self.new) }
        ensures before { IfErr result (λ stop. stop.made < length calls.now) }
    {
        let mut answers = Vec::new(alloc);
        for (made, call) in calls.iter().enumerate() {
            match answers.reserve(1) {
                Ok(()) => {}
                Err(_) => return Err(RunStop { answers, made }),
            }
            push_within(&mut answers, self.call(alloc, call));
        }
        Ok(answers)
    }
}
