// Reap: the first completed bio of a session is handed out.
ghost use Rattle.std.specs.Prelude.{◌≡◌, ◌+◌, ◌-◌, ◌≤◌, IfOk, MatchResult, OnOk, unwrap_or, None, Some, drop, length, slice_set};
ghost use Rattle.change_record.specs.Trail.{KeepsTrail};
ghost use Rattle.change_record.specs.Machine.{meaning, outbox_at};
ghost use Rattle.sector_core.specs.declared.bio.BioResult.TheVariants.{Written};
ghost use Rattle.plain.specs.Steps.Reap.{reap};
ghost use Rattle.plain.specs.Sessions.{with_unreaped};
ghost use Rattle.plain.specs.Step.{of_sizes};
ghost use Rattle.dispatch_core.specs.Ready.{MayReap};
ghost use Rattle.dispatch_core.specs.Relation.{Answers, Declines, Leaves};
ghost use Rattle.dispatch_core.specs.WellFormed.{WellFormed};

use crate::slots::outbox_slots;
use crate::{Answer, Cause, Code, Reply, Sizes};
use change_record::{Change, Outbox, Parts, Tape};
use plain::{SEATS, Seat};
use sector_core::{BioFields, BioResult, OutOfMemory, Slot};

/// The session's bios come in the order in which they were completed.
pub fn run_reap(
    sizes: Sizes,
    parts: &mut Parts,
    tape: &mut Tape,
    serial: u64,
    room: bool,
    seat: u8,
    session: u64,
) -> Result<Answer, OutOfMemory>
    requires { WellFormed (of_sizes sizes) serial parts.old.tables }
    ensures answers { Answers (λ m. reap m room seat session) parts.old.tables result parts.new.tables }
    ensures leaves { IfOk result (λ answer. Leaves (of_sizes sizes) serial 3 0 answer parts.old.tables tape.old.current parts.new.tables tape.new.current tape.new.spare) }
    ensures trail { KeepsTrail tape.old.current parts.old.tables tape.new.current parts.new.tables }
    ensures steps { tape.new.steps ≡ tape.old.steps }
{
    let (entry, place) = match found_bio(sizes, parts, serial, room, seat, session) {
        Ok(found) => found,
        Err(answer) => return Ok(answer),
    };
    let Some(bio) = parts.pool().bio(place) else {
        unreachable!()
    };
    let number = bio.serial;
    let result = result_of_bio(bio)?;
    tape.reserve(3)?;
    take_out(parts, tape, seat, entry, place)?;
    Ok(Answer::Accepted(Reply::Completed {
        bio: number,
        result,
    }))
}

// The seat's entry and the slot of the bio that is handed out, or the answer where none is.
fn found_bio(
    sizes: Sizes,
    parts: &Parts,
    serial: u64,
    room: bool,
    seat: u8,
    session: u64,
) -> Result<(Seat, Slot), Answer>
    requires { WellFormed (of_sizes sizes) serial parts.now.tables }
    ensures { MatchResult result (λ found. MayReap parts.now.tables room seat session found.0 found.1)
        (λ answer. Declines (meaning parts.now.tables) answer (reap (meaning parts.now.tables) room seat session)) }
{
    if seat >= SEATS {
        return Err(Answer::Refused(Code::BadSeat));
    }
    let Some(entry) = parts.seat(seat) else {
        return Err(Answer::Refused(Code::NoSession));
    };
    if entry.leaving {
        return Err(Answer::Refused(Code::NoSession));
    }
    if entry.session != session {
        return Err(Answer::Refused(Code::StaleSession));
    }
    if entry.unreaped == 0 {
        return Err(Answer::Refused(Code::NothingOwed));
    }
    let Some(place) = outbox_slots(parts, seat).first().copied() else {
        return Err(Answer::NotYet(Cause::NotCompleted));
    };
    if !room {
        return Err(Answer::Refused(Code::HistoryFull));
    }
    Ok((entry, place))
}

// What became of a completed bio.
fn result_of_bio(bio: &BioFields) -> Result<BioResult, OutOfMemory>
    ensures { IfOk result (λ copy. copy ≡ unwrap_or bio.now.result Written) }
{
    match &bio.result {
        Some(result) => Ok(result.clone()?),
        None => Ok(BioResult::Written),
    }
}

// Takes the first bio out of the outbox and out of its slot.
fn take_out(
    parts: &mut Parts,
    tape: &mut Tape,
    seat: u8,
    entry: Seat,
    place: Slot,
) -> Result<(), OutOfMemory>
    requires room { 3 ≤ tape.old.room }
    requires some { 1 ≤ entry.unreaped }
    requires waits { 1 ≤ length (outbox_at parts.old.tables.outboxes seat) }
    ensures tables { OnOk result (parts.new.tables ≡ record parts.old.tables {
      outboxes = slice_set parts.old.tables.outboxes seat (record { items = drop 1 (outbox_at parts.old.tables.outboxes seat) });
      bios = slice_set parts.old.tables.bios place None;
      seats = slice_set parts.old.tables.seats seat (Some (with_unreaped (entry.unreaped - 1) entry));
    }) }
    ensures trail { KeepsTrail tape.old.current parts.old.tables tape.new.current parts.new.tables }
    ensures steps { tape.new.steps ≡ tape.old.steps }
    ensures count { OnOk result (length tape.new.current ≡ length tape.old.current + 3) }
    ensures spare { tape.new.spare ≡ tape.old.spare }
{
    let slots = outbox_slots(parts, seat);
    let (_, rest) = slots.split_at(1);
    let outbox = Outbox::joined(tape.allocator(), rest, &[])?;
    let entry = Seat {
        unreaped: entry.unreaped - 1,
        ..entry
    };
    tape.exchange(parts, Change::OutboxWhole { seat, outbox });
    tape.exchange(
        parts,
        Change::BioSlot {
            slot: place,
            bio: None,
        },
    );
    tape.exchange(
        parts,
        Change::SeatEntry {
            seat,
            entry: Some(entry),
        },
    );
    Ok(())
}
