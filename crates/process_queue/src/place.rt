// Places of a queue: whether an entry comes after another one, and the slot at a place.
ghost use Rattle.std.specs.Prelude.{◌≡◌};
ghost use Rattle.process_queue.specs.Queue.{is_after, nth_slot};

use crate::ProcessQueue;
use sector_core::Slot;

// Whether an entry comes after another one, if there is one: by its serial, and of equal serials by its slot.
pub(crate) fn is_after(last: Option<(u64, Slot)>, entry: (u64, Slot)) -> bool
    ensures { result ≡ is_after last entry }
{
    match last {
        Some(seen) => seen.0 < entry.0 || (seen.0 == entry.0 && seen.1 < entry.1),
        None => true,
    }
}

impl ProcessQueue {
    /// The slot at a place of a seat's queue, in order of insertion.
    pub fn nth(&self, seat: u8, place: usize) -> Option<Slot>
        ensures { result ≡ nth_slot seat self.now place }
    {
        let mut at = self.first(seat);
        for _seen in 0..place {
            let Some(slot) = at else {
                return None;
            };
            at = self.behind(slot);
        }
        at
    }
}
