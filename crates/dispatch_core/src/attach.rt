// Attach: a session begins at a seat.
ghost use Rattle.std.specs.Prelude.{◌≡◌, ◌+◌, ◌<◌, ◌≤◌, ◌^◌, [], IfOk, false, Some, length, slice_set};
ghost use Rattle.change_record.specs.Trail.{KeepsTrail};
ghost use Rattle.plain.specs.Steps.Attach.{attach, prio_weight};
ghost use Rattle.plain.specs.Step.{of_sizes};
ghost use Rattle.dispatch_core.specs.Relation.{Answers, Leaves};
ghost use Rattle.dispatch_core.specs.WellFormed.{WellFormed};

use crate::entering::{enter, stands};
use crate::{Answer, Code, Reply, Sizes};
use change_record::{Change, Parts, Tape};
use plain::{SEATS, Seat};
use sector_core::{Class, OutOfMemory};

/// The session is named by the step's serial; its entity is new in its group, of the class that is asked for, with a weight by its priority.
pub fn run_attach(
    sizes: Sizes,
    parts: &mut Parts,
    tape: &mut Tape,
    serial: u64,
    room: bool,
    seat: u8,
    group: u8,
    prio: u8,
    class: Class,
) -> Result<Answer, OutOfMemory>
    requires { WellFormed (of_sizes sizes) serial parts.old.tables }
    ensures answers { Answers (λ m. attach (of_sizes sizes) m serial room seat group prio class) parts.old.tables result parts.new.tables }
    ensures leaves { IfOk result (λ answer. Leaves (of_sizes sizes) serial 6 0 answer parts.old.tables tape.old.current parts.new.tables tape.new.current tape.new.spare) }
    ensures trail { KeepsTrail tape.old.current parts.old.tables tape.new.current parts.new.tables }
    ensures steps { tape.new.steps ≡ tape.old.steps }
{
    if seat >= SEATS {
        return Ok(Answer::Refused(Code::BadSeat));
    }
    if parts.seat(seat).is_some() {
        return Ok(Answer::Refused(Code::SeatTaken));
    }
    if !stands(parts, group) {
        return Ok(Answer::Refused(Code::NoGroup));
    }
    if prio > 7 {
        return Ok(Answer::Refused(Code::BadPrio));
    }
    if !room {
        return Ok(Answer::Refused(Code::HistoryFull));
    }
    tape.reserve(6)?;
    enter(sizes, parts, tape, seat, group, class, weight_of(prio));
    sit(sizes, parts, tape, serial, seat, prio);
    Ok(Answer::Accepted(Reply::Attached { session: serial }))
}

// The weight of a session, by its priority.
fn weight_of(prio: u8) -> u32
    requires { prio ≤ 7 }
    ensures value { result ≡ prio_weight prio }
    ensures some { 1 ≤ result }
    ensures few { result ≤ 1000 }
{
    (8 - u32::from(prio)) * 10
}

// The session's entry at its seat, the head of its queue, and its first budget.
fn sit(sizes: Sizes, parts: &mut Parts, tape: &mut Tape, serial: u64, seat: u8, prio: u8)
    requires { 3 ≤ tape.old.room }
    ensures tables { parts.new.tables ≡ record parts.old.tables {
      seats = slice_set parts.old.tables.seats seat (Some (record { session = serial; prio = prio; unreaped = 0; leaving = false }));
      heads = slice_set parts.old.tables.heads seat 0;
      budgets = slice_set parts.old.tables.budgets seat sizes.first_budget;
    } }
    ensures trail { KeepsTrail tape.old.current parts.old.tables tape.new.current parts.new.tables }
    ensures steps { tape.new.steps ≡ tape.old.steps }
    ensures count { length tape.new.current ≡ length tape.old.current + 3 }
    ensures spare { tape.new.spare ≡ tape.old.spare }
{
    let entry = Seat {
        session: serial,
        prio,
        unreaped: 0,
        leaving: false,
    };
    tape.exchange(
        parts,
        Change::SeatEntry {
            seat,
            entry: Some(entry),
        },
    );
    tape.exchange(parts, Change::Head { seat, head: 0 });
    tape.exchange(
        parts,
        Change::Budget {
            entity: seat,
            budget: sizes.first_budget,
        },
    );
}
