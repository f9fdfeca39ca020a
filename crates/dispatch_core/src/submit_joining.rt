// A bio that joins a queued request.
ghost use Rattle.std.specs.Prelude.{length, ◌≡◌, ◌+◌, ◌<◌, ◌≤◌, IfOk, Some, slice_set};
ghost use Rattle.process_queue.specs.Merge.{merge_place};
ghost use Rattle.process_queue.specs.Queue.{queue_slots};
ghost use Rattle.change_record.specs.Trail.{KeepsTrail};
ghost use Rattle.change_record.specs.Machine.{meaning};
ghost use Rattle.plain.specs.Steps.Submit.{submit, merge_in};
ghost use Rattle.plain.specs.Sessions.{with_unreaped};
ghost use Rattle.plain.specs.Step.{of_sizes};
ghost use Rattle.dispatch_core.specs.Changes.{joined_request};
ghost use Rattle.dispatch_core.specs.Counts.{submit_exchanges};
ghost use Rattle.dispatch_core.specs.Ready.{MaySubmit};
ghost use Rattle.dispatch_core.specs.Relation.{Answers, Leaves};
ghost use Rattle.dispatch_core.specs.WellFormed.{WellFormed};

use crate::slots::list_joined;
use crate::submit_alone::boxed_bio;
use crate::{Answer, Code, Reply, Sizes};
use bytes::Bytes;
use change_record::{Change, Parts, Tape};
use plain::Seat;
use process_queue::Place;
use request_pool::{Request, RequestFields};
use sector_core::{Bio, Op, OutOfMemory, Range, Slot};

/// The end of Submit where the bio joins a request: that one keeps its place in the queue, and no other is needed.
pub fn submit_joined(
    sizes: Sizes,
    parts: &mut Parts,
    tape: &mut Tape,
    serial: u64,
    room: bool,
    seat: u8,
    entry: Seat,
    place: Slot,
    found: Place,
    session: u64,
    op: Op,
    range: Range,
    payload: &Bytes,
) -> Result<Answer, OutOfMemory>
    requires well { WellFormed (of_sizes sizes) serial parts.old.tables }
    requires may { MaySubmit (of_sizes sizes) parts.old.tables seat entry place session op range payload.now }
    requires joins { merge_place parts.old.tables.requests parts.old.tables.bios (queue_slots seat parts.old.tables.links) session op range ≡ Some found }
    ensures answers { Answers (λ m. submit (of_sizes sizes) m serial room seat session op range payload.now) parts.old.tables result parts.new.tables }
    ensures leaves { IfOk result (λ answer. Leaves (of_sizes sizes) serial (submit_exchanges (merge_in (meaning parts.old.tables) seat session op range)) 0 answer parts.old.tables tape.old.current parts.new.tables tape.new.current tape.new.spare) }
    ensures trail { KeepsTrail tape.old.current parts.old.tables tape.new.current parts.new.tables }
    ensures steps { tape.new.steps ≡ tape.old.steps }
{
    if !room {
        return Ok(Answer::Refused(Code::HistoryFull));
    }
    let Some(request) = parts.pool().request(found.slot) else {
        unreachable!()
    };
    let request = tape.boxed(with_slot(request, place, found.front))?;
    let bio = boxed_bio(tape, serial, range, payload)?;
    tape.reserve(3)?;
    put_bio(parts, tape, seat, entry, found.slot, place, request, bio);
    Ok(Answer::Accepted(Reply::Queued { bio: serial }))
}

// A request with the slot of one more bio, at the front or at the end.
fn with_slot(request: &RequestFields, place: Slot, front: bool) -> RequestFields
    requires { length request.now.bios.items < 32 }
    ensures { result ≡ joined_request front place request.now }
{
    let slots = request.bios.as_slice();
    let bios = if front {
        list_joined(&[place], slots)
    } else {
        list_joined(slots, &[place])
    };
    RequestFields {
        session: request.session,
        op: request.op,
        bios,
    }
}

// Puts the bio into its slot, and the request that it has joined into its own.
fn put_bio(
    parts: &mut Parts,
    tape: &mut Tape,
    seat: u8,
    entry: Seat,
    slot: Slot,
    place: Slot,
    request: Request,
    bio: Bio,
)
    requires room { 3 ≤ tape.old.room }
    requires few { entry.unreaped < 32 }
    ensures tables { parts.new.tables ≡ record parts.old.tables {
      bios = slice_set parts.old.tables.bios place (Some bio);
      requests = slice_set parts.old.tables.requests slot (Some request);
      seats = slice_set parts.old.tables.seats seat (Some (with_unreaped (entry.unreaped + 1) entry));
    } }
    ensures trail { KeepsTrail tape.old.current parts.old.tables tape.new.current parts.new.tables }
    ensures steps { tape.new.steps ≡ tape.old.steps }
    ensures count { length tape.new.current ≡ length tape.old.current + 3 }
    ensures spare { tape.new.spare ≡ tape.old.spare }
{
    let entry = Seat {
        unreaped: entry.unreaped + 1,
        ..entry
    };
    tape.exchange(
        parts,
        Change::BioSlot {
            slot: place,
            bio: Some(bio),
        },
    );
    tape.exchange(
        parts,
        Change::RequestSlot {
            slot,
            request: Some(request),
        },
    );
    tape.exchange(
        parts,
        Change::SeatEntry {
            seat,
            entry: Some(entry),
        },
    );
}
