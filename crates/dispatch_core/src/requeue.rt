// Requeue: the device gives a request back.
ghost use Rattle.std.specs.Prelude.{◌≡◌, IfOk};
ghost use Rattle.change_record.specs.Trail.{KeepsTrail};
ghost use Rattle.plain.specs.Steps.Requeue.{requeue};
ghost use Rattle.plain.specs.Step.{of_sizes};
ghost use Rattle.dispatch_core.specs.Relation.{Answers, Leaves};
ghost use Rattle.dispatch_core.specs.WellFormed.{WellFormed};

use crate::{Answer, Code, Reply, Sizes};
use change_record::{Change, Parts, Tape};
use process_queue::Link;
use sector_core::OutOfMemory;

/// The request goes to the end of the dispatch list.
pub fn run_requeue(
    sizes: Sizes,
    parts: &mut Parts,
    tape: &mut Tape,
    serial: u64,
    room: bool,
    tag: u8,
    issue: u64,
) -> Result<Answer, OutOfMemory>
    requires { WellFormed (of_sizes sizes) serial parts.old.tables }
    ensures answers { Answers (λ m. requeue (of_sizes sizes) m room tag issue) parts.old.tables result parts.new.tables }
    ensures leaves { IfOk result (λ answer. Leaves (of_sizes sizes) serial 2 0 answer parts.old.tables tape.old.current parts.new.tables tape.new.current tape.new.spare) }
    ensures trail { KeepsTrail tape.old.current parts.old.tables tape.new.current parts.new.tables }
    ensures steps { tape.new.steps ≡ tape.old.steps }
{
    if tag >= sizes.tags {
        return Ok(Answer::Refused(Code::BadTag));
    }
    let Some(borne) = parts.tags().get(tag) else {
        return Ok(Answer::Refused(Code::NotInFlight));
    };
    if borne.issue != issue {
        return Ok(Answer::Refused(Code::NotInFlight));
    }
    if !room {
        return Ok(Answer::Refused(Code::HistoryFull));
    }
    tape.reserve(2)?;
    tape.exchange(parts, Change::Tag { tag, issue: None });
    tape.exchange(
        parts,
        Change::Requeued {
            slot: borne.slot,
            link: Some(Link { seat: 0, serial }),
        },
    );
    Ok(Answer::Accepted(Reply::Requeued))
}
