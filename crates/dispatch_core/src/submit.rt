// Submit: a bio joins a queued request of its seat, or becomes a request of its own at the end of the queue.
ghost use Rattle.std.specs.Prelude.{length, ◌≡◌, ◌+◌, ◌≤◌, ◌↔◌, [], IfOk, IsTrue, if◌then◌else◌};
ghost use Rattle.change_record.specs.Trail.{KeepsTrail};
ghost use Rattle.change_record.specs.Machine.{meaning};
ghost use Rattle.plain.specs.Steps.Submit.{submit, payload_length, merge_in};
ghost use Rattle.plain.specs.Entities.{is_bfq};
ghost use Rattle.plain.specs.Step.{of_sizes};
ghost use Rattle.dispatch_core.specs.Counts.{submit_exchanges};
ghost use Rattle.dispatch_core.specs.Relation.{Answers, Leaves};
ghost use Rattle.dispatch_core.specs.WellFormed.{WellFormed};

use crate::submit_alone::submit_new;
use crate::submit_joining::submit_joined;
use crate::{Answer, Cause, Code, Sizes};
use bytes::Bytes;
use change_record::{Parts, Tape};
use plain::{BIO_SECTORS, SEATS, SECTOR_BYTES, SESSION_BIOS};
use sector_core::{Op, OutOfMemory, Range};

/// The bio is named by the step's serial; a store has 512 bytes for each sector, a fetch or a discard none.
pub fn run_submit(
    sizes: Sizes,
    parts: &mut Parts,
    tape: &mut Tape,
    serial: u64,
    room: bool,
    seat: u8,
    session: u64,
    op: Op,
    range: Range,
    payload: &Bytes,
) -> Result<Answer, OutOfMemory>
    requires well { WellFormed (of_sizes sizes) serial parts.old.tables }
    requires idle { tape.old.current ≡ [] }
    ensures answers { Answers (λ m. submit (of_sizes sizes) m serial room seat session op range payload.now) parts.old.tables result parts.new.tables }
    ensures leaves { IfOk result (λ answer. Leaves (of_sizes sizes) serial (submit_exchanges (merge_in (meaning parts.old.tables) seat session op range)) (if is_bfq parts.old.tables.scheduler then 5 else 0) answer parts.old.tables tape.old.current parts.new.tables tape.new.current tape.new.spare) }
    ensures trail { KeepsTrail tape.old.current parts.old.tables tape.new.current parts.new.tables }
    ensures steps { tape.new.steps ≡ tape.old.steps }
{
    if seat >= SEATS {
        return Ok(Answer::Refused(Code::BadSeat));
    }
    let Some(entry) = parts.seat(seat) else {
        return Ok(Answer::Refused(Code::NoSession));
    };
    if entry.leaving {
        return Ok(Answer::Refused(Code::NoSession));
    }
    if entry.session != session {
        return Ok(Answer::Refused(Code::StaleSession));
    }
    if range.count == 0 || range.count > BIO_SECTORS {
        return Ok(Answer::Refused(Code::BadCount));
    }
    if payload.len() != payload_len(op, range.count) {
        return Ok(Answer::Refused(Code::BadLength));
    }
    if !is_within(range, sizes.sectors) {
        return Ok(Answer::Refused(Code::OutOfRange));
    }
    if parts.frozen() {
        return Ok(Answer::NotYet(Cause::Frozen));
    }
    if entry.unreaped >= SESSION_BIOS {
        return Ok(Answer::Refused(Code::TooManyBios));
    }
    let Some(place) = parts.pool().free_bio(seat) else {
        unreachable!()
    };
    match parts
        .queues()
        .merge_place(parts.pool(), seat, session, op, range)
    {
        Some(found) => return submit_joined(
            sizes, parts, tape, serial, room, seat, entry, place, found, session, op, range,
            payload,
        ),
        None => return submit_new(
            sizes, parts, tape, serial, room, seat, entry, place, session, op, range, payload,
        ),
    }
}

// How many bytes the payload of a bio has.
fn payload_len(op: Op, count: u32) -> usize
    requires { count ≤ 64 }
    ensures { result ≡ payload_length op count }
{
    match op {
        Op::Fetch | Op::Discard => 0,
        Op::Store => SECTOR_BYTES * count as usize,
    }
}

// Whether a range ends within the image.
fn is_within(range: Range, sectors: u64) -> bool
    ensures { IsTrue result ↔ (range.start + range.count ≤ sectors) }
{
    range.start <= sectors && u64::from(range.count) <= sectors - range.start
}
