// The calls of the operator.
ghost use Rattle.std.specs.Prelude.{◌≡◌};
ghost use Rattle.host_calls.specs.Asked.{operator_call};

use plain::{Call, Step};
use sector_core::Scheduler;

/// What the operator asks.
#[derive(Clone, Copy, Debug, PartialEq, Eq)]
pub enum OperatorCall {
    /// A group comes under its parent.
    GroupMake {
        /// The group that it comes under, 0 to 31; 0 is the root.
        parent: u8,
        /// Its weight, 1 to 1000.
        weight: u16,
    },
    /// A group goes.
    GroupDrop {
        /// Its number, 1 to 31.
        group: u8,
    },
    /// A group gets another weight.
    SetWeight {
        /// Its number, 1 to 31.
        group: u8,
        /// The weight, 1 to 1000.
        weight: u16,
    },
    /// From now on submits wait.
    Freeze,
    /// Submits wait no longer.
    Thaw,
    /// A frozen host without a request gets this scheduler.
    Switch {
        /// The scheduler.
        scheduler: Scheduler,
    },
    /// The queue in service grows older.
    Tick,
    /// From now on no step is taken, and steps can be undone and redone.
    Hold,
    /// Steps are taken again.
    Release,
    /// The last `k` steps that stand are undone.
    Undo {
        /// How many.
        k: u32,
    },
    /// The next `k` steps that were undone are redone.
    Redo {
        /// How many.
        k: u32,
    },
    /// The host ends.
    Stop,
}

impl OperatorCall {
    /// The keeper's call, or none for Stop, which asks nothing of the keeper.
    pub fn into_call(self) -> Option<Call>
        ensures { result ≡ operator_call self }
    {
        match self {
            OperatorCall::GroupMake { parent, weight } => {
                Some(Call::Do(Step::GroupMake { parent, weight }))
            }
            OperatorCall::GroupDrop { group } => Some(Call::Do(Step::GroupDrop { group })),
            OperatorCall::SetWeight { group, weight } => {
                Some(Call::Do(Step::SetWeight { group, weight }))
            }
            OperatorCall::Freeze => Some(Call::Do(Step::Freeze)),
            OperatorCall::Thaw => Some(Call::Do(Step::Thaw)),
            OperatorCall::Switch { scheduler } => Some(Call::Do(Step::Switch { scheduler })),
            OperatorCall::Tick => Some(Call::Do(Step::Tick)),
            OperatorCall::Hold => Some(Call::Hold),
            OperatorCall::Release => Some(Call::Release),
            OperatorCall::Undo { k } => Some(Call::Undo { k }),
            OperatorCall::Redo { k } => Some(Call::Redo { k }),
            OperatorCall::Stop => None,
        }
    }
}
