// The next request: of a seat's queue the one to be served next, in the order of sectors from the queue's head on.
ghost use Rattle.std.specs.Prelude.{◌≡◌};
ghost use Rattle.process_queue.specs.Queue.{queue_slots};
ghost use Rattle.process_queue.specs.Merge.{shape_at};
ghost use Rattle.process_queue.specs.Next.{next_slot};
ghost use Rattle.plain.specs.Next.{start_of};
ghost use Rattle.process_queue.specs.Nearest.{candidate, nearest, slot_of, sooner};

use crate::ProcessQueue;
use crate::merge::shape_of;
use request_pool::RequestPool;
use sector_core::Slot;

// Where the request in a slot starts, if there is one.
fn start_at(pool: &RequestPool, slot: Slot) -> Option<u64>
    ensures { result ≡ start_of (shape_at pool.now.requests pool.now.bios) slot }
{
    match pool.request(slot) {
        Some(request) => Some(shape_of(pool, request).start),
        None => None,
    }
}

// A start and its slot, if the start is at or after sector `from`.
fn candidate(from: u64, start: Option<u64>, slot: Slot) -> Option<(u64, Slot)>
    ensures { result ≡ candidate from start slot }
{
    match start {
        Some(start) => {
            if from <= start {
                Some((start, slot))
            } else {
                None
            }
        }
        None => None,
    }
}

// Of two starts the lesser, and of equal ones the first.
fn sooner(found: Option<(u64, Slot)>, other: Option<(u64, Slot)>) -> Option<(u64, Slot)>
    ensures { result ≡ sooner found other }
{
    match (found, other) {
        (Some(found), Some(other)) => {
            if other.0 < found.0 {
                Some(other)
            } else {
                Some(found)
            }
        }
        (Some(found), None) => Some(found),
        (None, other) => other,
    }
}

// The slot of the first start, else that of the second.
fn slot_of(ahead: Option<(u64, Slot)>, least: Option<(u64, Slot)>) -> Option<Slot>
    ensures { result ≡ slot_of ahead least }
{
    match ahead {
        Some(found) => Some(found.1),
        None => match least {
            Some(found) => Some(found.1),
            None => None,
        },
    }
}

impl ProcessQueue {
    // The first request of a seat's queue with the least start at or after the head, and the first one with the least start.
    fn nearest(
        &self,
        pool: &RequestPool,
        seat: u8,
        head: u64,
    ) -> (Option<(u64, Slot)>, Option<(u64, Slot)>)
        ensures ahead { result.0 ≡ nearest (shape_at pool.now.requests pool.now.bios) head (queue_slots seat self.now) }
        ensures least { result.1 ≡ nearest (shape_at pool.now.requests pool.now.bios) 0 (queue_slots seat self.now) }
    {
        let mut ahead: Option<(u64, Slot)> = None;
        let mut least: Option<(u64, Slot)> = None;
        let mut at = self.first(seat);
        // A queue has no more slots than there are.
        for _seen in 0..self.slots() {
            let Some(slot) = at else {
                return (ahead, least);
            };
            let start = start_at(pool, slot);
            ahead = sooner(ahead, candidate(head, start, slot));
            least = sooner(least, candidate(0, start, slot));
            at = self.behind(slot);
        }
        (ahead, least)
    }

    /// The request of a seat's queue to be served next: of its requests the one with the least start at or after the
    /// head, else the one with the least start; of equal starts the earlier inserted.
    pub fn next(&self, pool: &RequestPool, seat: u8, head: u64) -> Option<Slot>
        ensures { result ≡ next_slot pool.now.requests pool.now.bios (queue_slots seat self.now) head }
    {
        let (ahead, least) = self.nearest(pool, seat, head);
        slot_of(ahead, least)
    }
}
