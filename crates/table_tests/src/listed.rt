// The queues beside a plain table of links, and the children of groups beside a plain table of parents, after each of a list of
// acts that is the same each time.
use arrayvec::ArrayVec;
use boxed::Boxed;
use bytes::Bytes;
use group_tree::GroupTree;
use process_queue::{Link, ProcessQueue};
use request_pool::{RequestFields, RequestPool};
use sector_core::{BioFields, Op, Range, Slot};
use std::alloc::Global;
use std::test::Fail;

// How many slots there are. Two more numbers are linked and unlinked, which have no slot.
const SLOTS: u16 = 12;

// Two seats of clients, the greatest one that there can be, and one that gets nothing.
const SEATS: [u8; 4] = [0, 1, 255, 7];

// Before all starts, amid them, and after them.
const HEADS: [u64; 4] = [0, 3, 6, 11];

// For each slot its link.
type Plain = [Option<Link>; 12];

// A seat's slots in order.
type Queue = [Option<Slot>; 12];

// What is asked of the queues, or was done last.
#[derive(Clone, Copy, Debug, PartialEq, Eq)]
enum Asked {
    Done(Slot, Option<Link>),
    First(u8),
    IsEmpty(u8),
    Nth(u8, usize),
    Next(u8, u64),
    AreEmpty,
}

// The number behind another one in a list without end.
fn after(number: u64) -> u64 {
    number
        .wrapping_mul(6_364_136_223_846_793_005)
        .wrapping_add(1_442_695_040_888_963_407)
}

// What a number does: a slot is linked so, or taken out. Serials are few, so that many are equal.
fn act(number: u64) -> (Slot, Option<Link>) {
    let slot = ((number >> 33) % 14) as Slot;
    let seat = match (number >> 42) % 3 {
        0 => 0,
        1 => 1,
        _ => 255,
    };
    let serial = (number >> 50) % 6;
    if (number >> 58) % 3 == 0 {
        (slot, None)
    } else {
        (slot, Some(Link { seat, serial }))
    }
}

// Where the request in a slot starts. Each third slot has none, and some starts are equal.
fn start_of(slot: Slot) -> Option<u64> {
    if slot % 3 == 2 {
        None
    } else {
        Some(u64::from(slot) % 5 * 2)
    }
}

fn request(slot: Slot) -> RequestFields {
    let mut bios = ArrayVec::new();
    let _ = bios.try_push(slot);
    RequestFields {
        session: 1,
        op: Op::Fetch,
        bios,
    }
}

fn bio(start: u64) -> BioFields {
    BioFields {
        serial: 1,
        range: Range { start, count: 1 },
        payload: Bytes::new(),
        result: None,
    }
}

fn pool(alloc: Global) -> Result<RequestPool, Fail> {
    let mut pool = RequestPool::new(alloc, SLOTS)?;
    for slot in 0..SLOTS {
        if let Some(start) = start_of(slot) {
            let bio = Boxed::new(alloc, bio(start))?;
            let request = Boxed::new(alloc, request(slot))?;
            let _none = pool.exchange_bio(slot, Some(bio));
            let _none = pool.exchange_request(slot, Some(request));
        }
    }
    Ok(pool)
}

// The act on the plain table; past its end the new link comes back.
fn plain_act(plain: &mut Plain, slot: Slot, link: Option<Link>) -> Option<Link> {
    match plain.get_mut(usize::from(slot)) {
        Some(place) => {
            let old = *place;
            *place = link;
            old
        },
        None => link,
    }
}

// How many slots of a seat come before this one: by serial, and of equal serials by slot.
fn place_of(plain: &Plain, slot: Slot, link: Link) -> usize {
    let mut place: usize = 0;
    for other in 0..SLOTS {
        if let Some(Some(it)) = plain.get(usize::from(other)) {
            let is_before = it.serial < link.serial || (it.serial == link.serial && other < slot);
            if it.seat == link.seat && is_before {
                place = place.saturating_add(1);
            }
        }
    }
    place
}

fn plain_queue(plain: &Plain, seat: u8) -> Queue {
    let mut queue = [None; 12];
    for slot in 0..SLOTS {
        if let Some(Some(link)) = plain.get(usize::from(slot)) {
            if link.seat == seat {
                if let Some(it) = queue.get_mut(place_of(plain, slot, *link)) {
                    *it = Some(slot);
                }
            }
        }
    }
    queue
}

fn plain_nth(queue: &Queue, place: usize) -> Option<Slot> {
    match queue.get(place) {
        Some(slot) => *slot,
        None => None,
    }
}

// Of a queue's requests the first with the least start at or after a sector.
fn plain_least(queue: &Queue, from: u64) -> Option<Slot> {
    let mut found: Option<(u64, Slot)> = None;
    for slot in queue.iter().flatten() {
        if let Some(start) = start_of(*slot) {
            let is_less = match found {
                Some(other) => start < other.0,
                None => true,
            };
            if start >= from && is_less {
                found = Some((start, *slot));
            }
        }
    }
    match found {
        Some(first) => Some(first.1),
        None => None,
    }
}

fn plain_next(queue: &Queue, head: u64) -> Option<Slot> {
    match plain_least(queue, head) {
        Some(slot) => Some(slot),
        None => plain_least(queue, 0),
    }
}

// What is answered otherwise than by the plain queue of a seat, if anything is.
fn differs_at(queues: &ProcessQueue, pool: &RequestPool, queue: &Queue, seat: u8) -> Option<Asked> {
    if queues.first(seat) != plain_nth(queue, 0) {
        return Some(Asked::First(seat));
    }
    if queues.is_empty(seat) != plain_nth(queue, 0).is_none() {
        return Some(Asked::IsEmpty(seat));
    }
    for place in 0..13 {
        if queues.nth(seat, place) != plain_nth(queue, place) {
            return Some(Asked::Nth(seat, place));
        }
    }
    for head in HEADS {
        if queues.next(pool, seat, head) != plain_next(queue, head) {
            return Some(Asked::Next(seat, head));
        }
    }
    None
}

// The same of all seats, after an act on both sides.
fn differs(
    queues: &mut ProcessQueue,
    pool: &RequestPool,
    plain: &mut Plain,
    act: (Slot, Option<Link>),
) -> Option<Asked> {
    let (slot, link) = act;
    let old = match link {
        Some(link) => queues.link(slot, link.seat, link.serial),
        None => queues.unlink(slot),
    };
    if old != plain_act(plain, slot, link) {
        return Some(Asked::Done(slot, link));
    }
    for seat in SEATS {
        let found = differs_at(queues, pool, &plain_queue(plain, seat), seat);
        if found.is_some() {
            return found;
        }
    }
    if queues.are_empty() && plain.iter().any(|link| link.is_some()) {
        return Some(Asked::AreEmpty);
    }
    None
}

// The first difference after any of a thousand acts, and after which one, if there is one.
#[test]
fn queues_are_the_plain_ones(rt: HostRuntime) -> Result<(), Fail> {
    let pool = pool(rt.alloc())?;
    let mut queues = ProcessQueue::new(rt.alloc(), SLOTS)?;
    let mut plain = [None; 12];
    let mut number = 1;
    for round in 0..1000 {
        number = after(number);
        let found = differs(&mut queues, &pool, &mut plain, act(number));
        assert_eq!(rt; (round, found), (round, None));
    }
    // All are taken out, from the first one on.
    for slot in 0..SLOTS {
        let found = differs(&mut queues, &pool, &mut plain, (slot, None));
        assert_eq!(rt; (slot, found), (slot, None));
    }
    assert!(rt; queues.are_empty());
    Ok(())
}

// The group that an entity comes into: one under the root, the root, one of a number that no group has, or none.
fn group(number: u64) -> Option<u8> {
    match (number >> 42) % 6 {
        0 => Some(0),
        1 => Some(1),
        2 => Some(31),
        3 => Some(32),
        4 => Some(200),
        _ => None,
    }
}

// Whether a group has this child.
fn has_child(parents: &[Option<u8>; 48], group: u8, child: u8) -> bool {
    match parents.get(usize::from(child)) {
        Some(parent) => *parent == Some(group),
        None => false,
    }
}

// The group whose first child is wrong, if there is one.
fn wrong_group(tree: &GroupTree, parents: &[Option<u8>; 48]) -> Option<u8> {
    for group in 0..32 {
        let is_right = match tree.first_child(group) {
            Some(child) => has_child(parents, group, child),
            None => !parents.iter().any(|parent| *parent == Some(group)),
        };
        if !is_right {
            return Some(group);
        }
    }
    None
}

// Each entity is put on both sides, and entity 48 and 49, which are not there.
#[test]
fn children_are_the_plain_ones(rt: HostRuntime) {
    let mut tree = GroupTree::new();
    let mut parents = [None; 48];
    let mut number = 1;
    for round in 0..1000 {
        number = after(number);
        let entity = ((number >> 33) % 50) as u8;
        let group = group(number);
        let _old = tree.exchange_group(entity, group);
        if let Some(parent) = parents.get_mut(usize::from(entity)) {
            *parent = group;
        }
        assert_eq!(rt; (round, wrong_group(&tree, &parents)), (round, None));
    }
    // The children of the group of the greatest number go out one after another.
    for _child in 0..48 {
        let Some(child) = tree.first_child(31) else {
            return;
        };
        if let Some(parent) = parents.get_mut(usize::from(child)) {
            *parent = None;
        }
        let _old = tree.exchange_group(child, None);
        assert_eq!(rt; wrong_group(&tree, &parents), None);
    }
    assert_eq!(rt; tree.first_child(31), None);
}
