// Finish: every bio of the request gets its result and goes to its session's outbox.
ghost use Rattle.std.specs.Prelude.{◌≡◌, ◌+◌, ◌≤◌, ◌<◌, ◌++◌, ◌≢◌, ℕ, IfOk, MatchOption, MatchResult, OnOk, IfSome, IsSome, None, Some, length, slice_set, slice_index_or, if◌then◌else◌};
ghost use Rattle.change_record.specs.Machine.{meaning, outbox_at};
ghost use Rattle.plain.specs.declared.seat.Seat.{Seat};
ghost use Rattle.change_record.specs.Trail.{KeepsTrail};
ghost use Rattle.plain.specs.declared.answer.Answer.TheVariants.{Refused};
ghost use Rattle.plain.specs.Steps.Finish.{finish, effect_of, fits};
ghost use Rattle.plain.specs.Step.{of_sizes};
ghost use Rattle.dispatch_core.specs.Changes.{ended_tables};
ghost use Rattle.dispatch_core.specs.Counts.{finish_exchanges, blocks_put, is_of_leaver};
ghost use Rattle.dispatch_core.specs.Ranges.{total_count};
ghost use Rattle.dispatch_core.specs.Ready.{IsReady, MayFinish};
ghost use Rattle.dispatch_core.specs.Relation.{Answers, Leaves};
ghost use Rattle.dispatch_core.specs.WellFormed.{at, WellFormed};

use crate::complete::{complete, drop_all};
use crate::dispatch::range_of_request;
use crate::leave::owe_fewer;
use crate::slots::{list_from, outbox_slots};
use crate::{Answer, Code, Reply, Sizes};
use change_record::{Change, Outbox, Parts, Tape};
use sector_core::{Effect, Op, OutOfMemory, Outcome, Slot};
use std::alloc::Global;

/// A fetch needs all its bytes or a failure, a store or a discard needs to be stored; the issue tells one use of a tag from the next.
pub fn run_finish(
    alloc: Global,
    sizes: Sizes,
    parts: &mut Parts,
    tape: &mut Tape,
    serial: u64,
    room: bool,
    tag: u8,
    issue: u64,
    outcome: &Outcome,
) -> Result<Answer, OutOfMemory>
    requires { WellFormed (of_sizes sizes) serial parts.old.tables }
    ensures answers { Answers (λ m. finish (of_sizes sizes) m room tag issue outcome.now) parts.old.tables result parts.new.tables }
    ensures leaves { IfOk result (λ answer. Leaves (of_sizes sizes) serial (finish_exchanges outcome.now ((meaning parts.old.tables).flight tag)) (if is_of_leaver (meaning parts.old.tables) ((meaning parts.old.tables).flight tag) then 2 else 0) answer parts.old.tables tape.old.current parts.new.tables tape.new.current tape.new.spare) }
    ensures trail { KeepsTrail tape.old.current parts.old.tables tape.new.current parts.new.tables }
    ensures steps { tape.new.steps ≡ tape.old.steps }
{
    let (slot, seat, size) = match found_request(sizes, parts, serial, room, tag, issue, outcome) {
        Ok(found) => found,
        Err(code) => return Ok(Answer::Refused(code)),
    };
    let Some(request) = parts.pool().request(slot) else {
        unreachable!()
    };
    let slots = list_from(request.bios.as_slice());
    let slots = slots.as_slice();
    let bios = slots.len() as u32;
    let effect = effect_of(outcome, request.op)?;
    tape.reserve(size as usize + slots.len() + 5)?;
    end_request(alloc, parts, tape, tag, slot, seat, slots, effect)?;
    Ok(Answer::Accepted(Reply::Finished { bios }))
}

// The slot of the request that ends, its session's seat and its sectors, or why it is refused.
fn found_request(
    sizes: Sizes,
    parts: &Parts,
    serial: u64,
    room: bool,
    tag: u8,
    issue: u64,
    outcome: &Outcome,
) -> Result<(Slot, u8, u32), Code>
    requires { WellFormed (of_sizes sizes) serial parts.now.tables }
    ensures { MatchResult result (λ found. MayFinish (of_sizes sizes) parts.now.tables room tag issue outcome.now found.0 found.1 found.2)
        (λ code. finish (of_sizes sizes) (meaning parts.now.tables) room tag issue outcome.now ≡ (meaning parts.now.tables, Refused code)) }
{
    if tag >= sizes.tags {
        return Err(Code::BadTag);
    }
    let Some(borne) = parts.tags().get(tag) else {
        return Err(Code::NotInFlight);
    };
    if borne.issue != issue {
        return Err(Code::NotInFlight);
    }
    let Some(request) = parts.pool().request(borne.slot) else {
        unreachable!()
    };
    let size = range_of_request(parts.pool(), request).count;
    if !fits_outcome(request.op, size, outcome) {
        return Err(Code::BadOutcome);
    }
    if !room {
        return Err(Code::HistoryFull);
    }
    let Some(seat) = seat_of(parts, request.session) else {
        unreachable!()
    };
    Ok((borne.slot, seat, size))
}

// The bios of a request get their results and go to the seat's outbox, or are dropped where its session leaves.
fn end_request(
    alloc: Global,
    parts: &mut Parts,
    tape: &mut Tape,
    tag: u8,
    slot: Slot,
    seat: u8,
    slots: &[Slot],
    effect: Effect,
) -> Result<(), OutOfMemory>
    requires ready { IsReady parts.old.tables.bios slots.now effect }
    requires room { total_count parts.old.tables.bios slots.now + length slots.now + 5 ≤ tape.old.room }
    requires fits { length (outbox_at parts.old.tables.outboxes seat) + length slots.now ≤ 32 }
    requires sits { IsSome (at parts.old.tables.seats seat) }
    requires few { length slots.now ≤ 32 }
    ensures tables { OnOk result (IfSome (at parts.old.tables.seats seat) (λ entry. parts.new.tables ≡ ended_tables parts.old.tables tag slot seat entry slots.now effect)) }
    ensures trail { KeepsTrail tape.old.current parts.old.tables tape.new.current parts.new.tables }
    ensures steps { tape.new.steps ≡ tape.old.steps }
    ensures least { OnOk result (length tape.old.current + (length slots.now + blocks_put effect (total_count parts.old.tables.bios slots.now) + 3) ≤ length tape.new.current) }
    ensures most { OnOk result (IfSome (at parts.old.tables.seats seat) (λ entry. length tape.new.current
        ≤ length tape.old.current + (length slots.now + blocks_put effect (total_count parts.old.tables.bios slots.now) + 3 + (if entry.leaving then 2 else 0)))) }
    ensures spare { tape.new.spare ≡ tape.old.spare }
{
    let Some(entry) = parts.seat(seat) else {
        unreachable!()
    };
    if entry.leaving {
        drop_all(parts, tape, slots, &effect)?;
        free_request(parts, tape, tag, slot);
        owe_fewer(parts, tape, seat, entry, slots.len() as u8);
        return Ok(());
    }
    complete(alloc, parts, tape, slots, effect)?;
    deliver(parts, tape, tag, slot, seat, slots)?;
    Ok(())
}

// Whether the outcome is one of the operation and the size in sectors.
fn fits_outcome(op: Op, size: u32, outcome: &Outcome) -> bool
    ensures { result ≡ fits op size outcome.now }
{
    match (op, outcome) {
        (Op::Fetch, Outcome::Fetched(bytes)) => bytes.len() as u64 == 512 * u64::from(size),
        (Op::Fetch, Outcome::Failed(_)) => true,
        (Op::Fetch, Outcome::Stored) => false,
        (Op::Store, Outcome::Stored) => true,
        (Op::Store, Outcome::Fetched(_)) => false,
        (Op::Store, Outcome::Failed(_)) => false,
        (Op::Discard, Outcome::Stored) => true,
        (Op::Discard, Outcome::Fetched(_)) => false,
        (Op::Discard, Outcome::Failed(_)) => false,
    }
}

// What the outcome does to a request of the operation; its bytes are shared.
fn effect_of(outcome: &Outcome, op: Op) -> Result<Effect, OutOfMemory>
    ensures { IfOk result (λ effect. effect ≡ effect_of outcome.now op) }
{
    match outcome {
        Outcome::Fetched(bytes) => Ok(Effect::Reads(bytes.clone()?)),
        Outcome::Stored => match op {
            // No outcome of a fetch is Stored, so nothing is written then.
            Op::Fetch => Ok(Effect::Writes),
            Op::Store => Ok(Effect::Writes),
            Op::Discard => Ok(Effect::Clears),
        },
        Outcome::Failed(kind) => Ok(Effect::Fails(*kind)),
    }
}

// The seat of a session.
fn seat_of(parts: &Parts, session: u64) -> Option<u8>
    ensures { MatchOption result
        ((k : ℕ) (s : Seat) → k < 16 → slice_index_or parts.now.tables.seats k None ≡ Some s → s.session ≢ session)
        (λ seat. (seat < 16) × (entry : Seat) × (slice_index_or parts.now.tables.seats seat None ≡ Some entry) × (entry.session ≡ session)) }
{
    for seat in 0..16u8 {
        if let Some(entry) = parts.seat(seat) {
            if entry.session == session {
                return Some(seat);
            }
        }
    }
    None
}

// Frees the request's slot and its tag, and puts its bios at the end of the seat's outbox.
fn deliver(
    parts: &mut Parts,
    tape: &mut Tape,
    tag: u8,
    slot: Slot,
    seat: u8,
    slots: &[Slot],
) -> Result<(), OutOfMemory>
    requires room { 3 ≤ tape.old.room }
    requires fits { length (outbox_at parts.old.tables.outboxes seat) + length slots.now ≤ 32 }
    ensures tables { OnOk result (parts.new.tables ≡ record parts.old.tables {
      requests = slice_set parts.old.tables.requests slot None;
      tags = slice_set parts.old.tables.tags tag None;
      outboxes = slice_set parts.old.tables.outboxes seat (record { items = outbox_at parts.old.tables.outboxes seat ++ slots.now });
    }) }
    ensures trail { KeepsTrail tape.old.current parts.old.tables tape.new.current parts.new.tables }
    ensures steps { tape.new.steps ≡ tape.old.steps }
    ensures count { OnOk result (length tape.new.current ≡ length tape.old.current + 3) }
    ensures spare { tape.new.spare ≡ tape.old.spare }
{
    let outbox = Outbox::joined(tape.allocator(), outbox_slots(parts, seat), slots)?;
    free_request(parts, tape, tag, slot);
    tape.exchange(parts, Change::OutboxWhole { seat, outbox });
    Ok(())
}

// Frees a request's slot and its tag.
fn free_request(parts: &mut Parts, tape: &mut Tape, tag: u8, slot: Slot)
    requires room { 2 ≤ tape.old.room }
    ensures tables { parts.new.tables ≡ record parts.old.tables {
      requests = slice_set parts.old.tables.requests slot None;
      tags = slice_set parts.old.tables.tags tag None;
    } }
    ensures trail { KeepsTrail tape.old.current parts.old.tables tape.new.current parts.new.tables }
    ensures steps { tape.new.steps ≡ tape.old.steps }
    ensures count { length tape.new.current ≡ length tape.old.current + 2 }
    ensures room { tape.old.room ≤ tape.new.room + 2 }
    ensures spare { tape.new.spare ≡ tape.old.spare }
{
    tape.exchange(
        parts,
        Change::RequestSlot {
            slot,
            request: None,
        },
    );
    tape.exchange(parts, Change::Tag { tag, issue: None });
}
