// Dispatch under bfq: one queue is in service at a time, with a budget.
ghost use Rattle.std.specs.Prelude.{◌≡◌, ◌+◌, ◌≤◌, ◌<◌, IfOk, OnOk, OnErr, MatchResult, Some, None, [], length, slice_set};
ghost use Rattle.sector_core.specs.Table.{IsFirstFree};
ghost use Rattle.plain.specs.declared.seat.InService.{InService as ServiceSlot};
ghost use Rattle.change_record.specs.Trail.{KeepsTrail};
ghost use Rattle.change_record.specs.Machine.{bfq_of, meaning};
ghost use Rattle.bfq_select.specs.Service.{OnlyServes};
ghost use Rattle.plain.specs.Tests.{accepted_if};
ghost use Rattle.plain.specs.Steps.Dispatch.{sent_by_bfq, sent_in, sent_next, with_budget_in, with_selected, next_size, next_request};
ghost use Rattle.plain.specs.Step.{of_sizes};
ghost use Rattle.plain_laws.specs.Whole.{AreWhole};
ghost use Rattle.dispatch_core.specs.Changes.{sent_next_tables};
ghost use Rattle.dispatch_core.specs.Ranges.{HasFewSectors};
ghost use Rattle.dispatch_core.specs.Relation.{Answers, Leaves};
ghost use Rattle.dispatch_core.specs.WellFormed.{WellFormed};

use crate::dispatch::range_of_request;
use crate::{Answer, Code, Reply, Sizes};
use bfq_select::{Expiry, VtimeFull, charge, expire, select};
use change_record::{Change, Parts, Tape};
use plain::InService;
use sector_core::{OutOfMemory, Slot};
use tag_set::Issue;

// The exchanges of a Dispatch at most: three of the request (its link, its tag and the queue's head), and 31 of the rules: a queue
// expires, one is selected, is charged and expires, each on a path of five entities.
const MOST_EXCHANGES: usize = 34;

/// Scheduler bfq: of the queue in service the next request is sent.
pub fn send_by_bfq(
    sizes: Sizes,
    parts: &mut Parts,
    tape: &mut Tape,
    serial: u64,
    room: bool,
    tag: u8,
) -> Result<Answer, OutOfMemory>
    requires well { WellFormed (of_sizes sizes) serial parts.old.tables }
    requires whole { AreWhole (meaning parts.old.tables) }
    requires idle { tape.old.current ≡ [] }
    requires free { IsFirstFree parts.old.tables.tags tag }
    ensures answers { Answers (λ m. accepted_if room m (sent_by_bfq (of_sizes sizes) m serial tag)) parts.old.tables result parts.new.tables }
    ensures leaves { IfOk result (λ answer. Leaves (of_sizes sizes) serial 3 31 answer parts.old.tables tape.old.current parts.new.tables tape.new.current tape.new.spare) }
    ensures trail { KeepsTrail tape.old.current parts.old.tables tape.new.current parts.new.tables }
    ensures steps { tape.new.steps ≡ tape.old.steps }
{
    if !room {
        return Ok(Answer::Refused(Code::HistoryFull));
    }
    tape.reserve(MOST_EXCHANGES)?;
    match serve(sizes, parts, tape, serial, tag) {
        Ok(reply) => return Ok(Answer::Accepted(reply)),
        Err(_) => {
            tape.abandon(parts);
            return Ok(Answer::Refused(Code::VtimeFull));
        }
    }
}

// A queue that may be in service no longer expires; where none is in service now one is selected; and its next request is sent.
fn serve(
    sizes: Sizes,
    parts: &mut Parts,
    tape: &mut Tape,
    serial: u64,
    tag: u8,
) -> Result<Reply, VtimeFull>
    requires well { WellFormed (of_sizes sizes) serial parts.old.tables }
    requires whole { AreWhole (meaning parts.old.tables) }
    requires free { IsFirstFree parts.old.tables.tags tag }
    requires room { 34 ≤ tape.old.room }
    ensures made { MatchResult result (λ reply. sent_by_bfq (of_sizes sizes) (meaning parts.old.tables) serial tag ≡ Some (meaning parts.new.tables, reply)) (λ _. sent_by_bfq (of_sizes sizes) (meaning parts.old.tables) serial tag ≡ None) }
    ensures well { OnOk result (WellFormed (of_sizes sizes) (serial + 1) parts.new.tables) }
    ensures trail { KeepsTrail tape.old.current parts.old.tables tape.new.current parts.new.tables }
    ensures steps { tape.new.steps ≡ tape.old.steps }
    ensures spare { tape.new.spare ≡ tape.old.spare }
    ensures least { OnOk result (length tape.old.current + 3 ≤ length tape.new.current) }
    ensures most { OnOk result (length tape.new.current ≤ length tape.old.current + 34) }
{
    make_room(sizes, parts, tape, serial)?;
    if parts.slot().is_none() {
        select(parts, tape);
    }
    let Some(slot) = parts.slot() else {
        return Err(VtimeFull);
    };
    send_next(sizes, parts, tape, serial, tag, slot)
}

// The queue in service expires where it has been so for too many ticks, or its budget has no room for its next request.
fn make_room(sizes: Sizes, parts: &mut Parts, tape: &mut Tape, serial: u64) -> Result<(), VtimeFull>
    requires well { WellFormed (of_sizes sizes) serial parts.old.tables }
    requires whole { AreWhole (meaning parts.old.tables) }
    requires room { 7 ≤ tape.old.room }
    ensures made { MatchResult result (λ _. with_budget_in (of_sizes sizes) (meaning parts.old.tables) parts.old.tables.in_service ≡ Some (bfq_of parts.new.tables)) (λ _. with_budget_in (of_sizes sizes) (meaning parts.old.tables) parts.old.tables.in_service ≡ None) }
    ensures well { OnOk result (WellFormed (of_sizes sizes) serial parts.new.tables) }
    ensures others { OnlyServes parts.old.tables parts.new.tables }
    ensures fits { OnOk result ((slot : ServiceSlot) → parts.new.tables.in_service ≡ Some slot → slot.service + next_size (meaning parts.old.tables) slot.seat ≤ (bfq_of parts.new.tables).budget slot.seat) }
    ensures trail { KeepsTrail tape.old.current parts.old.tables tape.new.current parts.new.tables }
    ensures steps { tape.new.steps ≡ tape.old.steps }
    ensures room { tape.old.room ≤ tape.new.room + 7 }
    ensures spare { tape.new.spare ≡ tape.old.spare }
    ensures some { length tape.old.current ≤ length tape.new.current }
    ensures few { length tape.new.current ≤ length tape.old.current + 7 }
{
    let Some(slot) = parts.slot() else {
        return Ok(());
    };
    let size = next_size(parts, slot.seat);
    let queued = !parts.queues().is_empty(slot.seat);
    if slot.age >= u64::from(sizes.timeout) {
        expire(parts, tape, Expiry::Timeout, sizes.max_budget, queued)?;
    } else if slot.service + size > parts.budget(slot.seat) {
        expire(parts, tape, Expiry::Exhaustion, sizes.max_budget, queued)?;
    }
    Ok(())
}

// How many sectors the next request of a queue has.
fn next_size(parts: &Parts, seat: u8) -> u32
    requires few { HasFewSectors parts.now.tables.bios }
    ensures size { result ≡ next_size (meaning parts.now.tables) seat }
    ensures small { result ≤ 2048 }
{
    let Some(slot) = parts.queues().next(parts.pool(), seat, parts.head(seat)) else {
        return 0;
    };
    let Some(request) = parts.pool().request(slot) else {
        return 0;
    };
    range_of_request(parts.pool(), request).count
}

// The next request of the queue in service is charged and sent, and the queue expires where it is empty now.
fn send_next(
    sizes: Sizes,
    parts: &mut Parts,
    tape: &mut Tape,
    serial: u64,
    tag: u8,
    slot: InService,
) -> Result<Reply, VtimeFull>
    requires well { WellFormed (of_sizes sizes) serial parts.old.tables }
    requires whole { AreWhole (meaning parts.old.tables) }
    requires free { IsFirstFree parts.old.tables.tags tag }
    requires serves { parts.old.tables.in_service ≡ Some slot }
    requires fits { slot.service + next_size (meaning parts.old.tables) slot.seat ≤ (bfq_of parts.old.tables).budget slot.seat }
    requires room { 16 ≤ tape.old.room }
    ensures made { MatchResult result (λ reply. sent_in (of_sizes sizes) (meaning parts.old.tables) serial tag (bfq_of parts.old.tables) ≡ Some (meaning parts.new.tables, reply)) (λ _. sent_in (of_sizes sizes) (meaning parts.old.tables) serial tag (bfq_of parts.old.tables) ≡ None) }
    ensures well { OnOk result (WellFormed (of_sizes sizes) (serial + 1) parts.new.tables) }
    ensures trail { KeepsTrail tape.old.current parts.old.tables tape.new.current parts.new.tables }
    ensures steps { tape.new.steps ≡ tape.old.steps }
    ensures spare { tape.new.spare ≡ tape.old.spare }
    ensures least { OnOk result (length tape.old.current + 3 ≤ length tape.new.current) }
    ensures most { OnOk result (length tape.new.current ≤ length tape.old.current + 16) }
{
    let seat = slot.seat;
    let Some(place) = parts.queues().next(parts.pool(), seat, parts.head(seat)) else {
        return Err(VtimeFull);
    };
    let Some(request) = parts.pool().request(place) else {
        return Err(VtimeFull);
    };
    let op = request.op;
    let range = range_of_request(parts.pool(), request);
    charge(parts, tape, range.count)?;
    let head = range.start + u64::from(range.count);
    take_out(parts, tape, serial, seat, place, tag, head);
    if parts.queues().is_empty(seat) {
        expire(parts, tape, Expiry::Emptying, sizes.max_budget, false)?;
    }
    Ok(Reply::Issued {
        tag,
        issue: serial,
        op,
        range,
    })
}

// A request leaves its queue, and its tag bears it; the queue's head is its end.
fn take_out(
    parts: &mut Parts,
    tape: &mut Tape,
    serial: u64,
    seat: u8,
    place: Slot,
    tag: u8,
    head: u64,
)
    requires { 3 ≤ tape.old.room }
    ensures tables { parts.new.tables ≡ sent_next_tables parts.old.tables serial seat place tag head }
    ensures trail { KeepsTrail tape.old.current parts.old.tables tape.new.current parts.new.tables }
    ensures steps { tape.new.steps ≡ tape.old.steps }
    ensures count { length tape.new.current ≡ length tape.old.current + 3 }
    ensures room { tape.old.room ≤ tape.new.room + 3 }
    ensures spare { tape.new.spare ≡ tape.old.spare }
{
    tape.exchange(
        parts,
        Change::QueueLink {
            slot: place,
            link: None,
        },
    );
    tape.exchange(
        parts,
        Change::Tag {
            tag,
            issue: Some(Issue {
                issue: serial,
                slot: place,
            }),
        },
    );
    tape.exchange(parts, Change::Head { seat, head });
}
