// Lists of the slots of bios: a seat's outbox, a request's bios.
ghost use Rattle.std.specs.Prelude.{◌≡◌, ◌≤◌, ◌+◌, ◌++◌, length};
ghost use Rattle.change_record.specs.Machine.{outbox_at};

use arrayvec::ArrayVec;
use change_record::Parts;
use sector_core::Slot;

/// The slots of the completed bios of a seat, the first to be reaped first.
pub fn outbox_slots(parts: &Parts, seat: u8) -> &[Slot]
    ensures slots { result.now ≡ outbox_at parts.now.tables.outboxes seat }
    ensures few { length result.now ≤ 32 }
{
    match parts.outbox(seat) {
        Some(outbox) => return outbox.as_slice(),
        None => return &[],
    }
}

/// A list of these slots.
pub fn list_from(slots: &[Slot]) -> ArrayVec<Slot, 32>
    requires { length slots.now ≤ 32 }
    ensures { result.items ≡ slots.now }
{
    let mut list = ArrayVec::new();
    match list.try_extend_from_slice(slots) {
        Ok(()) => {}
        Err(_) => unreachable!(),
    }
    list
}

/// A list of these slots, and then those.
pub fn list_joined(slots: &[Slot], others: &[Slot]) -> ArrayVec<Slot, 32>
    requires { length slots.now + length others.now ≤ 32 }
    ensures { result.items ≡ slots.now ++ others.now }
{
    let mut list = list_from(slots);
    match list.try_extend_from_slice(others) {
        Ok(()) => {}
        Err(_) => unreachable!(),
    }
    list
}
