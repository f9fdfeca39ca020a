#![tactic(auto)]
//! The software queues of the seats, each a list of request slots in order of insertion.
//!
//! | call | rule that it meets |
//! |---|---|
//! | [`ProcessQueue::link`] | puts a slot into a seat's queue, under the serial of its insertion |
//! | [`ProcessQueue::unlink`] | takes a slot out of its queue |
//! | [`ProcessQueue::first`] | the earliest inserted slot of a seat's queue |
//! | [`ProcessQueue::nth`] | the slot at a place of a seat's queue |
//! | [`ProcessQueue::is_empty`] | whether a seat's queue has no slot |
//! | [`ProcessQueue::are_empty`] | whether no queue has a slot |
//! | [`ProcessQueue::merge_place`] | which request of a seat's queue a bio joins, and at which end |
//! | [`ProcessQueue::next`] | which request of a seat's queue is served next, in the order of sectors from a head on |
//!
//! A slot is in one queue at most. A queue is the slots that are linked to its seat, in the order of their serials. They are
//! linked both ways, and the ends of each queue are known; so a call walks over no slot of another queue.

ghost use Rattle.std.specs.Prelude.{◌≡◌, ◌+◌, ◌<◌, ◌≤◌, None, Some, IfOk, length, replicate, slice_get, slice_index_or, slice_set, ℕ};
ghost use Rattle.process_queue.specs.Queue.{first_slot, queue_slots};
ghost use Rattle.plain.specs.Lists.{is_empty};

mod idle;
mod links;
mod merge;
mod next;
mod place;

use linked_rows::{ALONE, Ends, NOBODY, Sides, ends_at, side_at};
use links::{fewer, link_free, unlink_at};
pub use merge::Place;
pub use plain::Shape;
use sector_core::{OutOfMemory, Slot, empty_table};
use std::alloc::Global;
use std::marker::Model;

// How many seats a `u8` numbers.
const SEATS: usize = 256;

/// A slot's place in a queue.
#[derive(Clone, Copy, Debug, PartialEq, Eq)]
pub struct Link {
    /// The seat whose queue it is.
    pub seat: u8,
    /// The serial of the step that inserted it.
    pub serial: u64,
}

/// The queues of all seats over one pool of slots.
#[derive(Drop)]
pub struct ProcessQueue {
    links: Vec<Option<Link>>,
    // Each slot's neighbours in its queue.
    sides: Vec<Sides>,
    // Each seat's first and last slot.
    ends: Vec<Ends>,
    // How many slots are in queues.
    queued: usize,
}

impl Model for ProcessQueue {
    ghost use Rattle.std.specs.Prelude.{List, Option};
    ghost use Rattle.process_queue.specs.declared.Link.{Link};
    ghost use Rattle.process_queue.specs.Links.{IsQueues};

    ghost Value = { List (Option Link) };

    ghost view = { λ q. q.links.items };

    // each queue is linked both ways, its ends are known, and the slots in queues are counted
    ghost invariant = { λ q. IsQueues q.links.items q.sides.items q.ends.items q.queued };
}

impl ProcessQueue {
    /// Empty queues over `slots` slots.
    pub fn new(alloc: Global, slots: u16) -> Result<ProcessQueue, OutOfMemory>
        ensures { IfOk result (λ queue. queue ≡ replicate slots None) }
    {
        Ok(ProcessQueue {
            links: empty_table(alloc, usize::from(slots))?,
            sides: vec![in alloc; ALONE; usize::from(slots)]?,
            ends: vec![in alloc; NOBODY; SEATS]?,
            queued: 0,
        })
    }

    /// Where a slot is linked, if it is.
    pub fn get(&self, slot: Slot) -> Option<Link>
        ensures { result ≡ slice_index_or self.now slot None }
    {
        match self.links.get(usize::from(slot)) {
            Some(link) => *link,
            None => None,
        }
    }

    /// Links a slot to a seat's queue under a serial, and hands back where it was linked.
    /// Where there is no such slot nothing happens, and the new link comes back.
    pub fn link(&mut self, slot: Slot, seat: u8, serial: u64) -> Option<Link>
        ensures new { self.new ≡ slice_set self.old slot (Some (record { seat = seat; serial = serial })) }
        ensures old { result ≡ slice_index_or self.old slot (Some (record { seat = seat; serial = serial })) }
    {
        let link = Link { seat, serial };
        if usize::from(slot) >= self.slots() {
            return Some(link);
        }
        let old = self.unlink(slot);
        link_free(
            self.links.as_mut_slice(),
            self.sides.as_mut_slice(),
            self.ends.as_mut_slice(),
            slot,
            link,
        );
        self.queued += 1;
        old
    }

    /// Takes a slot out of its queue, and hands back where it was linked.
    pub fn unlink(&mut self, slot: Slot) -> Option<Link>
        ensures new { self.new ≡ slice_set self.old slot None }
        ensures old { result ≡ slice_index_or self.old slot None }
    {
        let old = unlink_at(
            self.links.as_mut_slice(),
            self.sides.as_mut_slice(),
            self.ends.as_mut_slice(),
            slot,
        );
        self.queued = fewer(self.queued, old);
        old
    }

    // How many slots there are.
    fn slots(&self) -> usize
        ensures { result ≡ length self.now }
    {
        self.links.len()
    }

    // The slot behind another one in its queue.
    fn behind(&self, slot: Slot) -> Option<Slot>
        ensures { (seat k : ℕ) → seat < 256 → slice_get (queue_slots seat self.now) k ≡ Some slot → result ≡ slice_get (queue_slots seat self.now) (k + 1) }
    {
        side_at(self.sides.as_slice(), slot).after
    }

    /// The earliest inserted slot of a seat's queue.
    pub fn first(&self, seat: u8) -> Option<Slot>
        ensures { result ≡ first_slot seat self.now }
    {
        ends_at(self.ends.as_slice(), seat).first
    }

    /// Whether a seat's queue has no slot.
    pub fn is_empty(&self, seat: u8) -> bool
        ensures { result ≡ is_empty (queue_slots seat self.now) }
    {
        self.first(seat).is_none()
    }
}
