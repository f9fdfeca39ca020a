// The steps of the machine.
ghost use Rattle.std.specs.Prelude.{◌≡◌};

use bytes::Bytes;
use sector_core::{Class, Op, Outcome, Range, Scheduler};
use std::alloc::AllocError;

/// Why a session leaves.
#[derive(Clone, Copy, Debug, PartialEq, Eq)]
pub enum Why {
    /// Its client has said so, or has sent all that it had to.
    Ended,
    /// Its client could not be read.
    ReadFault,
    /// Its client could not be written to.
    WriteFault,
    /// Its client has sent what is no call.
    BadFrame,
    /// Its client has made as many calls as it may.
    FrameLimit,
}

/// A step: what a client, the dispatcher, a device or the operator does to the machine.
#[derive(Drop)]
pub enum Step {
    /// A session begins at a seat.
    Attach {
        seat: u8,
        group: u8,
        prio: u8,
        class: Class,
    },
    /// A session submits a bio.
    Submit {
        seat: u8,
        session: u64,
        op: Op,
        range: Range,
        payload: Bytes,
    },
    /// A session takes its first completed bio.
    Reap {
        seat: u8,
        session: u64,
    },
    /// A session leaves its seat, which is free once no request of it is left.
    Leave {
        seat: u8,
        why: Why,
    },
    /// The next request is sent to the device.
    Dispatch,
    /// The device has finished a request.
    Finish {
        tag: u8,
        issue: u64,
        outcome: Outcome,
    },
    /// The device gives a request back.
    Requeue {
        tag: u8,
        issue: u64,
    },
    /// A group comes under its parent.
    GroupMake {
        parent: u8,
        weight: u16,
    },
    /// A group goes.
    GroupDrop {
        group: u8,
    },
    /// A group gets another weight, from its next stamping on.
    SetWeight {
        group: u8,
        weight: u16,
    },
    /// From now on submits wait.
    Freeze,
    /// Submits wait no longer.
    Thaw,
    /// A frozen host without a request gets this scheduler.
    Switch {
        scheduler: Scheduler,
    },
    /// The queue in service grows older.
    Tick,
}

// Written out, and not derived: a copy that asks each number of each variant for its own takes a fifth of the proof of this crate.
impl Clone for Step {
    ghost is_clone = { λ step copy. copy ≡ step };

    fn clone(&self) -> Result<Step, AllocError> {
        Ok(match *self {
            Step::Attach {
                seat,
                group,
                prio,
                class,
            } => Step::Attach {
                seat,
                group,
                prio,
                class,
            },
            Step::Submit {
                seat,
                session,
                op,
                range,
                ref payload,
            } => Step::Submit {
                seat,
                session,
                op,
                range,
                payload: payload.clone()?,
            },
            Step::Reap { seat, session } => Step::Reap { seat, session },
            Step::Leave { seat, why } => Step::Leave { seat, why },
            Step::Dispatch => Step::Dispatch,
            Step::Finish {
                tag,
                issue,
                ref outcome,
            } => Step::Finish {
                tag,
                issue,
                outcome: outcome.clone()?,
            },
            Step::Requeue { tag, issue } => Step::Requeue { tag, issue },
            Step::GroupMake { parent, weight } => Step::GroupMake { parent, weight },
            Step::GroupDrop { group } => Step::GroupDrop { group },
            Step::SetWeight { group, weight } => Step::SetWeight { group, weight },
            Step::Freeze => Step::Freeze,
            Step::Thaw => Step::Thaw,
            Step::Switch { scheduler } => Step::Switch { scheduler },
            Step::Tick => Step::Tick,
        })
    }
}
