// Merging: a bio joins an adjacent queued request of its queue, before any scheduler is asked.
ghost use Rattle.std.specs.Prelude.{◌≡◌, ◌+◌, ◌^◌, ◌<◌, ◌==◌};
ghost use Rattle.process_queue.specs.Queue.{queue_slots};
ghost use Rattle.process_queue.specs.Merge.{bios_at, merge_place, place_of, shape_at};
ghost use Rattle.plain.specs.Merge.{first_merge, has_room, joins, joins_at, may_join, same_op, shape_of};

use crate::ProcessQueue;
use plain::Shape;
use request_pool::{RequestFields, RequestPool};
use sector_core::{Op, Range, Slot};

// How many sectors a request has at most.
const REQUEST_SECTORS: u64 = 256;

// How many bios a request has at most.
const REQUEST_BIOS: usize = 32;

/// Where a bio joins a queued request.
#[derive(Clone, Copy, Debug, PartialEq, Eq)]
pub struct Place {
    /// The slot of the request.
    pub slot: Slot,
    /// Whether the bio goes to its front, and not to its end.
    pub front: bool,
}

// How many sectors a range has, as a wide number.
fn sectors(range: Range) -> u64
    ensures same { result ≡ range.count }
    ensures small { result < 2 ^ 32 }
{
    u64::from(range.count)
}

// What a merge asks of a request, read from the last of its bios to the first.
pub(crate) fn shape_of(pool: &RequestPool, request: &RequestFields) -> Shape
    ensures { result ≡ shape_of request.now.session request.now.op (bios_at pool.now.bios request.now.bios.items) }
{
    let slots = request.bios.as_slice();
    let mut start = 0;
    let mut size = 0;
    let mut bios = 0;
    for i in (0..slots.len()).rev() {
        if let Some(bio) = pool.bio(slots[i]) {
            start = bio.range.start;
            size += sectors(bio.range);
            bios += 1;
        }
    }
    Shape {
        session: request.session,
        op: request.op,
        start,
        size,
        bios,
    }
}

// Whether two bios ask for the same.
fn same_op(a: Op, b: Op) -> bool
    ensures { result ≡ same_op a b }
{
    match (a, b) {
        (Op::Fetch, Op::Fetch) | (Op::Store, Op::Store) | (Op::Discard, Op::Discard) => true,
        _ => false,
    }
}

// Whether a request has room for some sectors more, in one bio.
fn has_room(shape: Shape, range: Range) -> bool
    ensures { result ≡ has_room range shape }
{
    let size = shape.size.saturating_add(sectors(range));
    size <= REQUEST_SECTORS && shape.bios < REQUEST_BIOS
}

// Whether a request takes a bio at all, wherever it lies.
fn may_join(shape: Shape, session: u64, op: Op, range: Range) -> bool
    ensures { result ≡ may_join session op range shape }
{
    shape.session == session && same_op(shape.op, op) && has_room(shape, range)
}

// Whether `size` sectors from `start` on end before sector `next`.
fn meets(start: u64, size: u64, next: u64) -> bool
    ensures { result ≡ (start + size == next) }
{
    start <= next && next - start == size
}

// Whether a bio joins a request at its front, or at its end.
fn joins(shape: Shape, front: bool, session: u64, op: Op, range: Range) -> bool
    ensures { result ≡ joins front session op range shape }
{
    if !may_join(shape, session, op, range) {
        return false;
    }
    if front {
        meets(range.start, sectors(range), shape.start)
    } else {
        meets(shape.start, shape.size, range.start)
    }
}

// Whether a bio joins the request in a slot, if there is one.
fn joins_at(pool: &RequestPool, slot: Slot, front: bool, session: u64, op: Op, range: Range) -> bool
    ensures { result ≡ joins_at (shape_at pool.now.requests pool.now.bios) front session op range slot }
{
    match pool.request(slot) {
        Some(request) => joins(shape_of(pool, request), front, session, op, range),
        None => false,
    }
}

impl ProcessQueue {
    // Where a bio joins the first request of a seat's queue that it can join at its front, or at its end.
    fn first_merge(
        &self,
        pool: &RequestPool,
        seat: u8,
        front: bool,
        session: u64,
        op: Op,
        range: Range,
    ) -> Option<Place>
        ensures { result ≡ place_of (first_merge (shape_at pool.now.requests pool.now.bios) (queue_slots seat self.now) front session op range) }
    {
        let mut at = self.first(seat);
        // A queue has no more slots than there are.
        for _seen in 0..self.slots() {
            let Some(slot) = at else {
                return None;
            };
            if joins_at(pool, slot, front, session, op, range) {
                return Some(Place { slot, front });
            }
            at = self.behind(slot);
        }
        None
    }

    /// Where a bio joins a request of a seat's queue: of the requests of its session and operation with room for it,
    /// the first that ends where the bio starts, else the first that starts where the bio ends.
    pub fn merge_place(
        &self,
        pool: &RequestPool,
        seat: u8,
        session: u64,
        op: Op,
        range: Range,
    ) -> Option<Place>
        ensures { result ≡ merge_place pool.now.requests pool.now.bios (queue_slots seat self.now) session op range }
    {
        match self.first_merge(pool, seat, false, session, op, range) {
            Some(place) => Some(place),
            None => self.first_merge(pool, seat, true, session, op, range),
        }
    }
}
