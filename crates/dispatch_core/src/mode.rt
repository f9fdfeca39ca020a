// The steps of the operator that touch one place: freeze, thaw and tick.
ghost use Rattle.std.specs.Prelude.{◌≡◌, ◌+◌, ◌≤◌, IfOk, length};
ghost use Rattle.change_record.specs.Trail.{KeepsTrail};
ghost use Rattle.plain.specs.Steps.Freeze.{freeze};
ghost use Rattle.plain.specs.Steps.Thaw.{thaw};
ghost use Rattle.plain.specs.Steps.Tick.{tick};
ghost use Rattle.plain.specs.Step.{of_sizes};
ghost use Rattle.dispatch_core.specs.Relation.{Answers, Leaves};
ghost use Rattle.dispatch_core.specs.WellFormed.{WellFormed};

use crate::{Answer, Code, Reply, Sizes};
use change_record::{Change, Parts, Tape};
use plain::InService;
use sector_core::OutOfMemory;

/// From now on submits wait.
pub fn run_freeze(
    sizes: Sizes,
    parts: &mut Parts,
    tape: &mut Tape,
    serial: u64,
    room: bool,
) -> Result<Answer, OutOfMemory>
    requires { WellFormed (of_sizes sizes) serial parts.old.tables }
    ensures answers { Answers (λ m. freeze m room) parts.old.tables result parts.new.tables }
    ensures leaves { IfOk result (λ answer. Leaves (of_sizes sizes) serial 1 0 answer parts.old.tables tape.old.current parts.new.tables tape.new.current tape.new.spare) }
    ensures trail { KeepsTrail tape.old.current parts.old.tables tape.new.current parts.new.tables }
    ensures steps { tape.new.steps ≡ tape.old.steps }
{
    if parts.frozen() {
        return Ok(Answer::Refused(Code::AlreadyFrozen));
    }
    if !room {
        return Ok(Answer::Refused(Code::HistoryFull));
    }
    tape.reserve(1)?;
    set_frozen(parts, tape, true);
    Ok(Answer::Accepted(Reply::Done))
}

/// Submits wait no longer.
pub fn run_thaw(
    sizes: Sizes,
    parts: &mut Parts,
    tape: &mut Tape,
    serial: u64,
    room: bool,
) -> Result<Answer, OutOfMemory>
    requires { WellFormed (of_sizes sizes) serial parts.old.tables }
    ensures answers { Answers (λ m. thaw m room) parts.old.tables result parts.new.tables }
    ensures leaves { IfOk result (λ answer. Leaves (of_sizes sizes) serial 1 0 answer parts.old.tables tape.old.current parts.new.tables tape.new.current tape.new.spare) }
    ensures trail { KeepsTrail tape.old.current parts.old.tables tape.new.current parts.new.tables }
    ensures steps { tape.new.steps ≡ tape.old.steps }
{
    if !parts.frozen() {
        return Ok(Answer::Refused(Code::NotFrozen));
    }
    if !room {
        return Ok(Answer::Refused(Code::HistoryFull));
    }
    tape.reserve(1)?;
    set_frozen(parts, tape, false);
    Ok(Answer::Accepted(Reply::Done))
}

// Whether submits wait is this; the rest of the mode stays.
fn set_frozen(parts: &mut Parts, tape: &mut Tape, frozen: bool)
    requires { 1 ≤ tape.old.room }
    ensures tables { parts.new.tables ≡ record parts.old.tables { frozen = frozen } }
    ensures trail { KeepsTrail tape.old.current parts.old.tables tape.new.current parts.new.tables }
    ensures steps { tape.new.steps ≡ tape.old.steps }
    ensures count { length tape.new.current ≡ length tape.old.current + 1 }
    ensures spare { tape.new.spare ≡ tape.old.spare }
{
    let mode = Change::Mode {
        scheduler: parts.scheduler(),
        frozen,
        served: parts.served(),
    };
    tape.exchange(parts, mode);
}

/// The queue in service is one tick older.
pub fn run_tick(
    sizes: Sizes,
    parts: &mut Parts,
    tape: &mut Tape,
    serial: u64,
    room: bool,
) -> Result<Answer, OutOfMemory>
    requires { WellFormed (of_sizes sizes) serial parts.old.tables }
    ensures answers { Answers (λ m. tick m room) parts.old.tables result parts.new.tables }
    ensures leaves { IfOk result (λ answer. Leaves (of_sizes sizes) serial 1 0 answer parts.old.tables tape.old.current parts.new.tables tape.new.current tape.new.spare) }
    ensures trail { KeepsTrail tape.old.current parts.old.tables tape.new.current parts.new.tables }
    ensures steps { tape.new.steps ≡ tape.old.steps }
{
    let Some(slot) = parts.slot() else {
        return Ok(Answer::Refused(Code::NoneInService));
    };
    if !room {
        return Ok(Answer::Refused(Code::HistoryFull));
    }
    tape.reserve(1)?;
    let older = InService {
        age: slot.age + 1,
        ..slot
    };
    tape.exchange(parts, Change::Serving { slot: Some(older) });
    Ok(Answer::Accepted(Reply::Done))
}
