// A bio that becomes a request of its own.
ghost use Rattle.std.specs.Prelude.{length, ◌≡◌, ◌+◌, ◌<◌, ◌≤◌, [], ◌∷◌, IfOk, MatchResult, None, Some, ◌&&◌, slice_set, if◌then◌else◌};
ghost use Rattle.process_queue.specs.Merge.{merge_place};
ghost use Rattle.plain.specs.Lists.{is_empty};
ghost use Rattle.process_queue.specs.Queue.{queue_slots};
ghost use Rattle.change_record.specs.Trail.{KeepsTrail};
ghost use Rattle.change_record.specs.Machine.{bfq_of, meaning};
ghost use Rattle.plain.specs.Rules.{activate};
ghost use Rattle.bfq_select.specs.Service.{IsSized, IsBounded, OnlyServes};
ghost use Rattle.plain.specs.Steps.Submit.{submit, merge_in};
ghost use Rattle.plain.specs.Entities.{is_bfq};
ghost use Rattle.plain.specs.Sessions.{with_unreaped};
ghost use Rattle.plain.specs.Step.{of_sizes};
ghost use Rattle.dispatch_core.specs.Counts.{submit_exchanges};
ghost use Rattle.dispatch_core.specs.Ready.{MaySubmit};
ghost use Rattle.dispatch_core.specs.Relation.{Answers, Leaves};
ghost use Rattle.dispatch_core.specs.WellFormed.{WellFormed};

use crate::{Answer, Cause, Code, Reply, Sizes};
use arrayvec::ArrayVec;
use bfq_select::{VtimeFull, activate};
use bytes::Bytes;
use change_record::{Change, Parts, Tape};
use plain::Seat;
use process_queue::Link;
use request_pool::{Request, RequestFields};
use sector_core::{Bio, BioFields, Op, OutOfMemory, Range, Scheduler, Slot};

/// The end of Submit where the bio joins no request: it needs one that is free, which goes to the end of the queue.
pub fn submit_new(
    sizes: Sizes,
    parts: &mut Parts,
    tape: &mut Tape,
    serial: u64,
    room: bool,
    seat: u8,
    entry: Seat,
    place: Slot,
    session: u64,
    op: Op,
    range: Range,
    payload: &Bytes,
) -> Result<Answer, OutOfMemory>
    requires well { WellFormed (of_sizes sizes) serial parts.old.tables }
    requires may { MaySubmit (of_sizes sizes) parts.old.tables seat entry place session op range payload.now }
    requires idle { tape.old.current ≡ [] }
    requires alone { merge_place parts.old.tables.requests parts.old.tables.bios (queue_slots seat parts.old.tables.links) session op range ≡ None }
    ensures answers { Answers (λ m. submit (of_sizes sizes) m serial room seat session op range payload.now) parts.old.tables result parts.new.tables }
    ensures leaves { IfOk result (λ answer. Leaves (of_sizes sizes) serial (submit_exchanges (merge_in (meaning parts.old.tables) seat session op range)) (if is_bfq parts.old.tables.scheduler then 5 else 0) answer parts.old.tables tape.old.current parts.new.tables tape.new.current tape.new.spare) }
    ensures trail { KeepsTrail tape.old.current parts.old.tables tape.new.current parts.new.tables }
    ensures steps { tape.new.steps ≡ tape.old.steps }
{
    let Some(slot) = parts.pool().free_request() else {
        return Ok(Answer::NotYet(Cause::RequestsFull));
    };
    if !room {
        return Ok(Answer::Refused(Code::HistoryFull));
    }
    let bio = boxed_bio(tape, serial, range, payload)?;
    let request = tape.boxed(request_of(session, op, place))?;
    tape.reserve(9)?;
    let wakes = is_woken(parts, seat);
    insert(parts, tape, seat, entry, slot, place, request, bio);
    match wake(parts, tape, seat, wakes) {
        Ok(()) => return Ok(Answer::Accepted(Reply::Queued { bio: serial })),
        Err(_) => {
            tape.abandon(parts);
            return Ok(Answer::Refused(Code::VtimeFull));
        }
    }
}

// Whether the scheduler is bfq.
fn is_bfq(scheduler: Scheduler) -> bool
    ensures { result ≡ is_bfq scheduler }
{
    match scheduler {
        Scheduler::Plain => false,
        Scheduler::Bfq => true,
    }
}

// Whether a new request in a queue wakes its session's entity: under bfq, where the queue is empty.
fn is_woken(parts: &Parts, seat: u8) -> bool
    ensures { result ≡ (is_bfq parts.now.tables.scheduler && is_empty (queue_slots seat parts.now.tables.links)) }
{
    is_bfq(parts.scheduler()) && parts.queues().is_empty(seat)
}

// Activates the session's entity, where its queue was empty.
fn wake(parts: &mut Parts, tape: &mut Tape, seat: u8, wakes: bool) -> Result<(), VtimeFull>
    requires seat { seat < 16 }
    requires room { 5 ≤ tape.old.room }
    requires sized { IsSized parts.old.tables }
    requires bounded { IsBounded (bfq_of parts.old.tables) }
    ensures made { MatchResult result (λ _. (if wakes then activate seat (bfq_of parts.old.tables) else Some (bfq_of parts.old.tables)) ≡ Some (bfq_of parts.new.tables)) (λ _. (if wakes then activate seat (bfq_of parts.old.tables) else Some (bfq_of parts.old.tables)) ≡ None) }
    ensures sized { IsSized parts.new.tables }
    ensures bounded { IsBounded (bfq_of parts.new.tables) }
    ensures others { OnlyServes parts.old.tables parts.new.tables }
    ensures trail { KeepsTrail tape.old.current parts.old.tables tape.new.current parts.new.tables }
    ensures steps { tape.new.steps ≡ tape.old.steps }
    ensures spare { tape.new.spare ≡ tape.old.spare }
    ensures some { length tape.old.current ≤ length tape.new.current }
    ensures few { length tape.new.current ≤ length tape.old.current + (if wakes then 5 else 0) }
{
    if wakes {
        return activate(parts, tape, seat);
    }
    Ok(())
}

/// A bio that is not completed, in a box; its bytes are shared.
pub fn boxed_bio(
    tape: &Tape,
    serial: u64,
    range: Range,
    payload: &Bytes,
) -> Result<Bio, OutOfMemory>
    ensures { IfOk result (λ bio. bio ≡ record { serial = serial; range = range; payload = payload.now; result = None }) }
{
    tape.boxed(BioFields {
        serial,
        range,
        payload: payload.clone()?,
        result: None,
    })
}

// A request of one bio, by its slot.
fn request_of(session: u64, op: Op, place: Slot) -> RequestFields
    ensures { result ≡ record { session = session; op = op; bios = record { items = place ∷ [] } } }
{
    let mut bios = ArrayVec::new();
    bios.push(place);
    RequestFields { session, op, bios }
}

// Puts the bio and its request into their slots, and the request at the end of the seat's queue.
fn insert(
    parts: &mut Parts,
    tape: &mut Tape,
    seat: u8,
    entry: Seat,
    slot: Slot,
    place: Slot,
    request: Request,
    bio: Bio,
)
    requires room { 4 ≤ tape.old.room }
    requires few { entry.unreaped < 32 }
    ensures tables { parts.new.tables ≡ record parts.old.tables {
      bios = slice_set parts.old.tables.bios place (Some bio);
      requests = slice_set parts.old.tables.requests slot (Some request);
      links = slice_set parts.old.tables.links slot (Some (record { seat = seat; serial = bio.serial }));
      seats = slice_set parts.old.tables.seats seat (Some (with_unreaped (entry.unreaped + 1) entry));
    } }
    ensures trail { KeepsTrail tape.old.current parts.old.tables tape.new.current parts.new.tables }
    ensures steps { tape.new.steps ≡ tape.old.steps }
    ensures count { length tape.new.current ≡ length tape.old.current + 4 }
    ensures left { tape.old.room ≤ tape.new.room + 4 }
    ensures spare { tape.new.spare ≡ tape.old.spare }
{
    let serial = bio.serial;
    let entry = Seat {
        unreaped: entry.unreaped + 1,
        ..entry
    };
    tape.exchange(
        parts,
        Change::BioSlot {
            slot: place,
            bio: Some(bio),
        },
    );
    tape.exchange(
        parts,
        Change::RequestSlot {
            slot,
            request: Some(request),
        },
    );
    tape.exchange(
        parts,
        Change::QueueLink {
            slot,
            link: Some(Link { seat, serial }),
        },
    );
    tape.exchange(
        parts,
        Change::SeatEntry {
            seat,
            entry: Some(entry),
        },
    );
}
