// Dispatch: the next request is sent to the device under the lowest free tag.
ghost use Rattle.std.specs.Prelude.{◌≡◌, ◌+◌, ◌≤◌, IfOk, Some, []};
ghost use Rattle.sector_core.specs.Table.{IsFirstFree};
ghost use Rattle.process_queue.specs.Queue.{first_slot};
ghost use Rattle.soft_queue.specs.Turn.{next_seat};
ghost use Rattle.dispatch_core.specs.Ranges.{start_at, count_at, first_start, total_count, HasFewSectors};
ghost use Rattle.change_record.specs.Trail.{KeepsTrail};
ghost use Rattle.change_record.specs.Machine.{meaning};
ghost use Rattle.plain.specs.declared.step.Step.TheVariants.{Dispatch};
ghost use Rattle.plain.specs.Steps.Dispatch.{dispatch, sent};
ghost use Rattle.plain.specs.Step.{of_sizes};
ghost use Rattle.plain_laws.specs.Whole.{AreWhole};
ghost use Rattle.dispatch_core.specs.Counts.{dispatch_exchanges, rule_exchanges};
ghost use Rattle.dispatch_core.specs.Relation.{Answers, Leaves};
ghost use Rattle.dispatch_core.specs.WellFormed.{WellFormed};

use crate::dispatch_by_bfq::send_by_bfq;
use crate::{Answer, Code, Reply, Sizes};
use change_record::{Change, Parts, Tape};
use request_pool::{RequestFields, RequestPool};
use sector_core::{OutOfMemory, Range, Scheduler, Slot};
use tag_set::Issue;

/// The request is sent under the lowest free tag: the first of the dispatch list, or else the one that the scheduler chooses.
pub fn run_dispatch(
    sizes: Sizes,
    parts: &mut Parts,
    tape: &mut Tape,
    serial: u64,
    room: bool,
) -> Result<Answer, OutOfMemory>
    requires well { WellFormed (of_sizes sizes) serial parts.old.tables }
    requires whole { AreWhole (meaning parts.old.tables) }
    requires idle { tape.old.current ≡ [] }
    ensures answers { Answers (λ m. dispatch (of_sizes sizes) m serial room) parts.old.tables result parts.new.tables }
    ensures leaves { IfOk result (λ answer. Leaves (of_sizes sizes) serial (dispatch_exchanges (meaning parts.old.tables).requeued) (rule_exchanges (meaning parts.old.tables) Dispatch) answer parts.old.tables tape.old.current parts.new.tables tape.new.current tape.new.spare) }
    ensures trail { KeepsTrail tape.old.current parts.old.tables tape.new.current parts.new.tables }
    ensures steps { tape.new.steps ≡ tape.old.steps }
{
    if let Some(slot) = parts.requeued().first(0) {
        return send_again(sizes, parts, tape, serial, room, slot);
    }
    let Some(seat) = soft_queue::pick(parts.queues(), parts.served()) else {
        return Ok(Answer::Refused(Code::NothingQueued));
    };
    let Some(tag) = parts.tags().lowest_free() else {
        return Ok(Answer::Refused(Code::NoTag));
    };
    match parts.scheduler() {
        Scheduler::Plain => return send_first(sizes, parts, tape, serial, room, seat, tag),
        Scheduler::Bfq => return send_by_bfq(sizes, parts, tape, serial, room, tag),
    }
}

// The first of the dispatch list goes before all others, at no cost.
fn send_again(
    sizes: Sizes,
    parts: &mut Parts,
    tape: &mut Tape,
    serial: u64,
    room: bool,
    slot: Slot,
) -> Result<Answer, OutOfMemory>
    requires well { WellFormed (of_sizes sizes) serial parts.old.tables }
    requires first { first_slot 0 parts.old.tables.requeued ≡ Some slot }
    ensures answers { Answers (λ m. dispatch (of_sizes sizes) m serial room) parts.old.tables result parts.new.tables }
    ensures leaves { IfOk result (λ answer. Leaves (of_sizes sizes) serial 2 0 answer parts.old.tables tape.old.current parts.new.tables tape.new.current tape.new.spare) }
    ensures trail { KeepsTrail tape.old.current parts.old.tables tape.new.current parts.new.tables }
    ensures steps { tape.new.steps ≡ tape.old.steps }
{
    let Some(tag) = parts.tags().lowest_free() else {
        return Ok(Answer::Refused(Code::NoTag));
    };
    if !room {
        return Ok(Answer::Refused(Code::HistoryFull));
    }
    let Some(request) = parts.pool().request(slot) else {
        unreachable!()
    };
    let op = request.op;
    let range = range_of_request(parts.pool(), request);
    tape.reserve(2)?;
    tape.exchange(parts, Change::Requeued { slot, link: None });
    tape.exchange(
        parts,
        Change::Tag {
            tag,
            issue: Some(Issue {
                issue: serial,
                slot,
            }),
        },
    );
    Ok(Answer::Accepted(Reply::Issued {
        tag,
        issue: serial,
        op,
        range,
    }))
}

// Scheduler none: of the next queue in turn the earliest request is sent.
fn send_first(
    sizes: Sizes,
    parts: &mut Parts,
    tape: &mut Tape,
    serial: u64,
    room: bool,
    seat: u8,
    tag: u8,
) -> Result<Answer, OutOfMemory>
    requires well { WellFormed (of_sizes sizes) serial parts.old.tables }
    requires next { next_seat parts.old.tables.served parts.old.tables.links ≡ Some seat }
    requires free { IsFirstFree parts.old.tables.tags tag }
    ensures answers { Answers (λ m. sent m serial room seat tag (m.queue seat)) parts.old.tables result parts.new.tables }
    ensures leaves { IfOk result (λ answer. Leaves (of_sizes sizes) serial 3 0 answer parts.old.tables tape.old.current parts.new.tables tape.new.current tape.new.spare) }
    ensures trail { KeepsTrail tape.old.current parts.old.tables tape.new.current parts.new.tables }
    ensures steps { tape.new.steps ≡ tape.old.steps }
{
    if !room {
        return Ok(Answer::Refused(Code::HistoryFull));
    }
    let Some(slot) = parts.queues().first(seat) else {
        unreachable!()
    };
    let Some(request) = parts.pool().request(slot) else {
        unreachable!()
    };
    let op = request.op;
    let range = range_of_request(parts.pool(), request);
    tape.reserve(3)?;
    tape.exchange(parts, Change::QueueLink { slot, link: None });
    tape.exchange(
        parts,
        Change::Tag {
            tag,
            issue: Some(Issue {
                issue: serial,
                slot,
            }),
        },
    );
    let mode = Change::Mode {
        scheduler: parts.scheduler(),
        frozen: parts.frozen(),
        served: seat,
    };
    tape.exchange(parts, mode);
    Ok(Answer::Accepted(Reply::Issued {
        tag,
        issue: serial,
        op,
        range,
    }))
}

/// The sectors of a request, from its first bio to its last.
pub fn range_of_request(pool: &RequestPool, request: &RequestFields) -> Range
    ensures start { result.start ≡ first_start pool.now.bios request.now.bios.items }
    ensures count { HasFewSectors pool.now.bios → result.count ≡ total_count pool.now.bios request.now.bios.items }
    ensures small { HasFewSectors pool.now.bios → result.count ≤ 2048 }
{
    let slots = request.bios.as_slice();
    let start = match slots.first() {
        Some(slot) => start_of(pool, *slot),
        None => 0,
    };
    let mut count: u32 = 0;
    for slot in slots {
        count = count.saturating_add(count_of(pool, *slot));
    }
    Range { start, count }
}

// The first sector of the bio in a slot.
fn start_of(pool: &RequestPool, slot: Slot) -> u64
    ensures { result ≡ start_at pool.now.bios slot }
{
    match pool.bio(slot) {
        Some(bio) => bio.range.start,
        None => 0,
    }
}

/// How many sectors the bio in a slot has, if one is there.
pub fn count_of(pool: &RequestPool, slot: Slot) -> u32
    ensures { result ≡ count_at pool.now.bios slot }
{
    match pool.bio(slot) {
        Some(bio) => bio.range.count,
        None => 0,
    }
}
