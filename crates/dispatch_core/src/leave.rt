// Leave: a session leaves its seat, which is free once no request of it is left.
ghost use Rattle.std.specs.Prelude.{◌≡◌, ◌+◌, ◌≤◌, [], IfOk, Some, length, slice_set};
ghost use Rattle.change_record.specs.Machine.{meaning};
ghost use Rattle.change_record.specs.Trail.{KeepsTrail};
ghost use Rattle.plain.specs.Steps.Leave.{leave};
ghost use Rattle.plain.specs.Step.{of_sizes};
ghost use Rattle.dispatch_core.specs.Changes.{fewer_tables, gone_tables, without_bios};
ghost use Rattle.dispatch_core.specs.WellFormed.{at, WellFormed};
ghost use Rattle.dispatch_core.specs.Relation.{Answers, Leaves};

use crate::slots::{list_from, outbox_slots};
use crate::{Answer, Code, Reply, Sizes};
use change_record::{Change, MemberPlace, Outbox, Parts, Tape};
use plain::{SEATS, Seat};
use sector_core::{OutOfMemory, Slot};

/// The outbox is dropped; queued requests still run, and their completions are dropped.
pub fn run_leave(
    sizes: Sizes,
    parts: &mut Parts,
    tape: &mut Tape,
    serial: u64,
    room: bool,
    seat: u8,
) -> Result<Answer, OutOfMemory>
    requires { WellFormed (of_sizes sizes) serial parts.old.tables }
    ensures answers { Answers (λ m. leave (of_sizes sizes) m room seat) parts.old.tables result parts.new.tables }
    ensures leaves { IfOk result (λ answer. Leaves (of_sizes sizes) serial (length ((meaning parts.old.tables).outbox seat) + 2) 2 answer parts.old.tables tape.old.current parts.new.tables tape.new.current tape.new.spare) }
    ensures trail { KeepsTrail tape.old.current parts.old.tables tape.new.current parts.new.tables }
    ensures steps { tape.new.steps ≡ tape.old.steps }
{
    if seat >= SEATS {
        return Ok(Answer::Refused(Code::BadSeat));
    }
    let Some(entry) = parts.seat(seat) else {
        return Ok(Answer::Refused(Code::NoSession));
    };
    if entry.leaving {
        return Ok(Answer::Refused(Code::NoSession));
    }
    if !room {
        return Ok(Answer::Refused(Code::HistoryFull));
    }
    let slots = list_from(outbox_slots(parts, seat));
    let slots = slots.as_slice();
    let count = slots.len();
    tape.reserve(count + 4)?;
    drop_bios(parts, tape, slots);
    clear_outbox(parts, tape, seat);
    owe_fewer(parts, tape, seat, entry, count as u8);
    Ok(Answer::Accepted(Reply::Left))
}

// The bios in these slots go.
fn drop_bios(parts: &mut Parts, tape: &mut Tape, slots: &[Slot])
    requires { length slots.now ≤ tape.old.room }
    ensures tables { parts.new.tables ≡ record parts.old.tables { bios = without_bios parts.old.tables.bios slots.now } }
    ensures trail { KeepsTrail tape.old.current parts.old.tables tape.new.current parts.new.tables }
    ensures steps { tape.new.steps ≡ tape.old.steps }
    ensures count { length tape.new.current ≡ length tape.old.current + length slots.now }
    ensures room { tape.old.room ≤ tape.new.room + length slots.now }
    ensures spare { tape.new.spare ≡ tape.old.spare }
{
    for slot in slots {
        tape.exchange(
            parts,
            Change::BioSlot {
                slot: *slot,
                bio: None,
            },
        );
    }
}

// The seat's outbox is empty.
fn clear_outbox(parts: &mut Parts, tape: &mut Tape, seat: u8)
    requires { 1 ≤ tape.old.room }
    ensures tables { parts.new.tables ≡ record parts.old.tables { outboxes = slice_set parts.old.tables.outboxes seat (record { items = [] }) } }
    ensures trail { KeepsTrail tape.old.current parts.old.tables tape.new.current parts.new.tables }
    ensures steps { tape.new.steps ≡ tape.old.steps }
    ensures count { length tape.new.current ≡ length tape.old.current + 1 }
    ensures room { tape.old.room ≤ tape.new.room + 1 }
    ensures spare { tape.new.spare ≡ tape.old.spare }
{
    let outbox = Outbox::empty(tape.allocator());
    tape.exchange(parts, Change::OutboxWhole { seat, outbox });
}

/// So many bios of a session that leaves are dropped; with the last of them its seat is free, and its entity gone.
pub fn owe_fewer(parts: &mut Parts, tape: &mut Tape, seat: u8, entry: Seat, count: u8)
    requires room { 3 ≤ tape.old.room }
    requires sits { at parts.old.tables.seats seat ≡ Some entry }
    ensures tables { parts.new.tables ≡ fewer_tables parts.old.tables seat entry count }
    ensures trail { KeepsTrail tape.old.current parts.old.tables tape.new.current parts.new.tables }
    ensures steps { tape.new.steps ≡ tape.old.steps }
    ensures least { length tape.old.current + 1 ≤ length tape.new.current }
    ensures most { length tape.new.current ≤ length tape.old.current + 3 }
    ensures spare { tape.new.spare ≡ tape.old.spare }
{
    if entry.unreaped <= count {
        go(parts, tape, seat);
        return;
    }
    let entry = Seat {
        unreaped: entry.unreaped - count,
        leaving: true,
        ..entry
    };
    tape.exchange(
        parts,
        Change::SeatEntry {
            seat,
            entry: Some(entry),
        },
    );
}

// The seat is free, and its entity in no group any more.
fn go(parts: &mut Parts, tape: &mut Tape, seat: u8)
    requires { 3 ≤ tape.old.room }
    ensures tables { parts.new.tables ≡ gone_tables parts.old.tables seat }
    ensures trail { KeepsTrail tape.old.current parts.old.tables tape.new.current parts.new.tables }
    ensures steps { tape.new.steps ≡ tape.old.steps }
    ensures count { length tape.new.current ≡ length tape.old.current + 3 }
    ensures spare { tape.new.spare ≡ tape.old.spare }
{
    let group = parts.groups().parent(seat).unwrap_or(0);
    tape.exchange(parts, Change::SeatEntry { seat, entry: None });
    tape.exchange(
        parts,
        Change::TreeMember {
            group,
            entity: seat,
            member: MemberPlace::of(None),
        },
    );
    tape.exchange(
        parts,
        Change::GroupEntry {
            entity: seat,
            group: None,
        },
    );
}
