// The calls of a keeper.
ghost use Rattle.std.specs.Prelude.{◌≡◌};
ghost use Rattle.plain.specs.Device.{device_step};

use crate::Step;
use sector_core::Outcome;

/// What a keeper is asked.
#[derive(Drop)]
pub enum Call {
    /// A step of the machine.
    Do(Step),
    /// From now on no step is taken, and steps can be undone and redone.
    Hold,
    /// Steps are taken again.
    Release,
    /// The last `k` steps that stand are undone.
    Undo { k: u32 },
    /// The next `k` steps that were undone are redone.
    Redo { k: u32 },
}

/// What a device asks for.
#[derive(Drop)]
pub enum DeviceCall {
    /// Work: of the requests in flight that no other device took last, the one that was issued first. It is no step.
    Take {
        /// The number of the device's own seat.
        worker: u8,
    },
    /// The request in flight under the tag with this issue has ended so.
    Finish {
        /// Its tag.
        tag: u8,
        /// The serial of its dispatch.
        issue: u64,
        /// How it ended.
        outcome: Outcome,
    },
    /// The request is given back.
    Requeue {
        /// Its tag.
        tag: u8,
        /// The serial of its dispatch.
        issue: u64,
    },
}

impl DeviceCall {
    /// The step of the machine that it asks for; a Take asks for none.
    pub fn into_step(self) -> Option<Step>
        ensures { result ≡ device_step self }
    {
        match self {
            DeviceCall::Take { .. } => None,
            DeviceCall::Finish {
                tag,
                issue,
                outcome,
            } => Some(Step::Finish {
                tag,
                issue,
                outcome,
            }),
            DeviceCall::Requeue { tag, issue } => Some(Step::Requeue { tag, issue }),
        }
    }
}

/// A step that was accepted, with its serial.
#[derive(Drop)]
pub struct Stamped {
    /// Its serial.
    pub serial: u64,
    /// The step.
    pub step: Step,
}
