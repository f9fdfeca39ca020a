// What no clause says: that queues can be made while memory is left. The rules of merges and of the next request at numbers,
// taken from their words.
use arrayvec::ArrayVec;
use boxed::Boxed;
use bytes::Bytes;
use process_queue::{Link, Place, ProcessQueue};
use request_pool::{RequestFields, RequestPool};
use sector_core::{BioFields, Op, Range, Slot};
use std::alloc::Global;
use std::process::Abort;
use std::test::Fail;

// What is done with the queues and the pool, together with what comes of it.
#[derive(Clone, Copy, Debug, PartialEq, Eq)]
enum Told {
    // A slot is linked so, or taken out: the link that came back.
    Link(Slot, Option<Link>, Option<Link>),
    // The link of a slot.
    Linked(Slot, Option<Link>),
    // The first slots of the seats 0 and 1.
    Firsts(Option<Slot>, Option<Slot>),
    IsEmpty(u8, bool),
    // At a place of a seat.
    Nth(u8, usize, Option<Slot>),
    // A request of session 1 comes into a slot of the pool, and its bios into the slots of bios from the second on.
    Put(Slot, Slot, Bios),
    // At a seat, for a bio of a session with this range.
    Merge(u8, u64, Op, Range, Option<Place>),
    // At a seat, from this sector on.
    Next(u8, u64, Option<Slot>),
    TooManyBios,
}

// Bios that touch: one of `count` sectors from `start` on, and `more` of `each`.
#[derive(Clone, Copy, Debug, PartialEq, Eq)]
struct Bios {
    start: u64,
    count: u32,
    more: u16,
    each: u32,
}

#[derive(Drop)]
struct Tables {
    pool: RequestPool,
    queues: ProcessQueue,
}

fn bio(range: Range) -> BioFields {
    BioFields {
        serial: 1,
        range,
        payload: Bytes::new(),
        result: None,
    }
}

// Puts a request in a slot of the pool, with its bios in the slots of bios from `from` on. Tells whether they fit.
fn put(
    alloc: Global,
    pool: &mut RequestPool,
    slot: Slot,
    from: Slot,
    all: Bios,
) -> Result<bool, Fail> {
    let mut bios = ArrayVec::new();
    let mut range = Range {
        start: all.start,
        count: all.count,
    };
    for place in from..=from.saturating_add(all.more) {
        let bio = Boxed::new(alloc, bio(range))?;
        let _none = pool.exchange_bio(place, Some(bio));
        if bios.try_push(place).is_err() {
            return Ok(false);
        }
        range = Range {
            start: range.start.saturating_add(u64::from(range.count)),
            count: all.each,
        };
    }
    let request = RequestFields {
        session: 1,
        op: Op::Fetch,
        bios,
    };
    let boxed = Boxed::new(alloc, request)?;
    let _old = pool.exchange_request(slot, Some(boxed));
    Ok(true)
}

// Does that again, and tells what came of it.
fn again(alloc: Global, tables: &mut Tables, told: Told) -> Result<Told, Fail> {
    let queues = &mut tables.queues;
    let came = match told {
        Told::Link(slot, new, _) => {
            let old = match new {
                Some(link) => queues.link(slot, link.seat, link.serial),
                None => queues.unlink(slot),
            };
            Told::Link(slot, new, old)
        }
        Told::Linked(slot, _) => Told::Linked(slot, queues.get(slot)),
        Told::Firsts(..) => Told::Firsts(queues.first(0), queues.first(1)),
        Told::IsEmpty(seat, _) => Told::IsEmpty(seat, queues.is_empty(seat)),
        Told::Nth(seat, place, _) => Told::Nth(seat, place, queues.nth(seat, place)),
        Told::Put(slot, from, bios) => {
            if put(alloc, &mut tables.pool, slot, from, bios)? {
                told
            } else {
                Told::TooManyBios
            }
        }
        Told::TooManyBios => Told::TooManyBios,
        Told::Merge(seat, session, op, bio, _) => {
            let place = queues.merge_place(&tables.pool, seat, session, op, bio);
            Told::Merge(seat, session, op, bio, place)
        }
        Told::Next(seat, head, _) => Told::Next(seat, head, queues.next(&tables.pool, seat, head)),
    };
    Ok(came)
}

// All of that comes again in this order, where tables of so many slots are new.
fn expect(rt: &(impl Abort + AllocGlobal), slots: u16, all: &[Told]) -> Result<(), Fail> {
    let mut tables = Tables {
        pool: RequestPool::new(rt.alloc(), slots)?,
        queues: ProcessQueue::new(rt.alloc(), slots)?,
    };
    for told in all {
        assert_eq!(rt; again(rt.alloc(), &mut tables, *told)?, *told);
    }
    Ok(())
}

fn link(seat: u8, serial: u64) -> Option<Link> {
    Some(Link { seat, serial })
}

// Slots are put where they are to be linked, or taken out.
#[test]
fn queues(rt: HostRuntime) -> Result<(), Fail> {
    let all = [
        Told::IsEmpty(0, true),
        Told::Firsts(None, None),
        // Seat 0 has slot 3, inserted first, and slot 1; seat 1 has slot 0.
        Told::Link(3, link(0, 5), None),
        Told::Firsts(Some(3), None),
        Told::IsEmpty(0, false),
        Told::Link(1, link(0, 7), None),
        Told::Firsts(Some(3), None),
        Told::IsEmpty(0, false),
        Told::Link(0, link(1, 6), None),
        Told::Firsts(Some(3), Some(0)),
        Told::IsEmpty(0, false),
        // Of two slots with one serial the lower one is first.
        Told::Link(2, link(0, 5), None),
        Told::Firsts(Some(2), Some(0)),
        Told::IsEmpty(0, false),
        Told::Link(2, None, link(0, 5)),
        Told::Firsts(Some(3), Some(0)),
        Told::IsEmpty(0, false),
        Told::Link(3, None, link(0, 5)),
        Told::Firsts(Some(1), Some(0)),
        Told::IsEmpty(0, false),
        // Slot 4 is not there.
        Told::Link(4, link(2, 8), link(2, 8)),
        Told::Firsts(Some(1), Some(0)),
        Told::IsEmpty(0, false),
        Told::Linked(1, link(0, 7)),
        Told::IsEmpty(2, true),
    ];
    expect(&rt, 4, &all)
}

// Seat 0 has slot 4, then slots 1 and 3 of one serial, then slot 0; seat 1 has slots 5 and 2.
#[test]
fn places(rt: HostRuntime) -> Result<(), Fail> {
    let all = [
        Told::Nth(0, 0, None),
        Told::Link(0, link(0, 9), None),
        Told::Link(1, link(0, 7), None),
        Told::Link(2, link(1, 8), None),
        Told::Link(3, link(0, 7), None),
        Told::Link(4, link(0, 5), None),
        Told::Link(5, link(1, 6), None),
        Told::Nth(0, 0, Some(4)),
        Told::Nth(0, 1, Some(1)),
        Told::Nth(0, 2, Some(3)),
        Told::Nth(0, 3, Some(0)),
        Told::Nth(0, 4, None),
        Told::Nth(0, usize::MAX, None),
        Told::Nth(1, 0, Some(5)),
        Told::Nth(1, 1, Some(2)),
        Told::Nth(1, 2, None),
        Told::Nth(2, 0, None),
    ];
    expect(&rt, 6, &all)
}

// A request of one bio.
fn one(start: u64, count: u32) -> Bios {
    Bios {
        start,
        count,
        more: 0,
        each: 0,
    }
}

// A request of bios of one sector.
fn single(start: u64, bios: u16) -> Bios {
    Bios {
        start,
        count: 1,
        more: bios.saturating_sub(1),
        each: 1,
    }
}

fn place(slot: Slot, front: bool) -> Option<Place> {
    Some(Place { slot, front })
}

// The bio that is to be merged.
const BIO: Range = Range {
    start: 1000,
    count: 8,
};

// Of session 1, seat 0, and a bio from sector 1000 on; then another session, operation or seat, or another bio.
#[test]
fn merges(rt: HostRuntime) -> Result<(), Fail> {
    let split = Bios {
        start: 990,
        count: 4,
        more: 1,
        each: 6,
    };
    let inside = Range {
        start: 1001,
        count: 6,
    };
    let all = [
        // A slot in the queue with no request takes no bio.
        Told::Link(7, link(0, 1), None),
        Told::Merge(0, 1, Op::Fetch, BIO, None),
        // Slot 5 starts where the bio ends. Slot 4 was inserted later and ends where the bio starts.
        Told::Put(5, 0, one(1008, 4)),
        Told::Link(5, link(0, 2), None),
        Told::Merge(0, 1, Op::Fetch, BIO, place(5, true)),
        Told::Put(4, 1, split),
        Told::Link(4, link(0, 9), None),
        Told::Merge(0, 1, Op::Fetch, BIO, place(4, false)),
        // Slot 6 does so too, and was inserted before slot 4.
        Told::Put(6, 3, one(999, 1)),
        Told::Link(6, link(0, 7), None),
        Told::Merge(0, 1, Op::Fetch, BIO, place(6, false)),
        Told::Merge(0, 2, Op::Fetch, BIO, None),
        Told::Merge(0, 1, Op::Store, BIO, None),
        Told::Merge(0, 1, Op::Discard, BIO, None),
        Told::Merge(1, 1, Op::Fetch, BIO, None),
        // It touches no request.
        Told::Merge(0, 1, Op::Fetch, inside, None),
    ];
    expect(&rt, 8, &all)
}

#[test]
fn full_requests(rt: HostRuntime) -> Result<(), Fail> {
    let all = [
        Told::Put(4, 0, one(999, 1)),
        Told::Link(4, link(0, 9), None),
        Told::Link(6, link(0, 7), None),
        // With the bio slot 6 would have 256 sectors, and then 257.
        Told::Put(6, 32, one(752, 248)),
        Told::Merge(0, 1, Op::Fetch, BIO, place(6, false)),
        Told::Put(6, 32, one(751, 249)),
        Told::Merge(0, 1, Op::Fetch, BIO, place(4, false)),
        // With the bio slot 6 would have 32 bios, and then 33.
        Told::Put(6, 32, single(969, 31)),
        Told::Merge(0, 1, Op::Fetch, BIO, place(6, false)),
        Told::Put(6, 32, single(968, 32)),
        Told::Merge(0, 1, Op::Fetch, BIO, place(4, false)),
    ];
    expect(&rt, 8, &all)
}

#[test]
fn next_requests(rt: HostRuntime) -> Result<(), Fail> {
    let split = Bios {
        start: 50,
        count: 4,
        more: 1,
        each: 4,
    };
    let all = [
        Told::Next(0, 0, None),
        // Seat 0 has slots 1, 4 and 2, in this order. Seat 1 has slot 0, and slot 7, which has no request.
        Told::Put(1, 0, one(100, 8)),
        Told::Put(4, 1, split),
        Told::Put(2, 3, one(10, 1)),
        Told::Put(0, 4, one(60, 8)),
        Told::Link(1, link(0, 5), None),
        Told::Link(4, link(0, 6), None),
        Told::Link(2, link(0, 7), None),
        Told::Link(0, link(1, 8), None),
        Told::Link(7, link(1, 1), None),
        Told::Next(0, 0, Some(2)),
        Told::Next(0, 10, Some(2)),
        Told::Next(0, 11, Some(4)),
        Told::Next(0, 58, Some(1)),
        Told::Next(0, 101, Some(2)),
        Told::Next(1, 0, Some(0)),
        Told::Next(1, 61, Some(0)),
        // Slot 3 starts where slot 4 does, inserted later; slot 6 does so too, inserted earlier.
        Told::Put(3, 5, one(50, 8)),
        Told::Link(3, link(0, 9), None),
        Told::Next(0, 11, Some(4)),
        Told::Put(6, 6, one(50, 2)),
        Told::Link(6, link(0, 4), None),
        Told::Next(0, 11, Some(6)),
        // A queue whose slots have no request.
        Told::Link(0, None, link(1, 8)),
        Told::Next(1, 0, None),
    ];
    expect(&rt, 8, &all)
}
