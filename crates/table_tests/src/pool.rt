// What no clause says: that a pool can be made while memory is left. And slots that are taken and freed out of order, where a
// look for the first free one begins behind none.
use arrayvec::ArrayVec;
use boxed::Boxed;
use bytes::Bytes;
use request_pool::{Request, RequestFields, RequestPool};
use sector_core::{Bio, BioFields, Op, Range, Slot};
use std::alloc::Global;
use std::process::Abort;
use std::test::Fail;

// What is done with a pool, together with what comes of it. A request is told by its session, and a bio by its serial.
#[derive(Clone, Copy, Debug, PartialEq, Eq)]
enum Told {
    FreeRequest(Option<Slot>),
    Request(Slot, Option<u64>),
    // A request comes into a slot: what came back.
    PutRequest(Slot, u64, Option<u64>),
    TakeRequest(Slot, Option<u64>),
    // The request of the first slot is taken out and put into the second: what came back there.
    MoveRequest(Slot, Slot, Option<u64>),
    // For a seat.
    FreeBio(u8, Option<Slot>),
    Bio(Slot, Option<u64>),
    // Bios of one serial come into the slots from the first up to the second, which gets none: how many came back.
    PutBios(Slot, Slot, u64, u32),
    TakeBio(Slot, Option<u64>),
    NoSuchSeat,
}

fn request_of(alloc: Global, session: u64) -> Result<Request, Fail> {
    let request = RequestFields {
        session,
        op: Op::Fetch,
        bios: ArrayVec::new(),
    };
    Ok(Boxed::new(alloc, request)?)
}

fn fetch(alloc: Global, serial: u64) -> Result<Bio, Fail> {
    let bio = BioFields {
        serial,
        range: Range { start: 0, count: 1 },
        payload: Bytes::new(),
        result: None,
    };
    Ok(Boxed::new(alloc, bio)?)
}

fn session_of(request: Option<&RequestFields>) -> Option<u64> {
    match request {
        Some(request) => Some(request.session),
        None => None,
    }
}

fn serial_of(bio: Option<&BioFields>) -> Option<u64> {
    match bio {
        Some(bio) => Some(bio.serial),
        None => None,
    }
}

fn session_in(request: &Option<Request>) -> Option<u64> {
    match request {
        Some(request) => Some(request.session),
        None => None,
    }
}

fn serial_in(bio: &Option<Bio>) -> Option<u64> {
    match bio {
        Some(bio) => Some(bio.serial),
        None => None,
    }
}

// Puts bios into these slots, and tells how many came back.
fn put_bios(
    alloc: Global,
    pool: &mut RequestPool,
    slots: (Slot, Slot),
    serial: u64,
) -> Result<u32, Fail> {
    let mut back = 0u32;
    for slot in slots.0..slots.1 {
        let bio = fetch(alloc, serial)?;
        if pool.exchange_bio(slot, Some(bio)).is_some() {
            back = back.saturating_add(1);
        }
    }
    Ok(back)
}

// Does that again, and tells what came of it.
fn again(alloc: Global, pool: &mut RequestPool, told: Told) -> Result<Told, Fail> {
    let came = match told {
        Told::FreeRequest(_) => Told::FreeRequest(pool.free_request()),
        Told::Request(slot, _) => Told::Request(slot, session_of(pool.request(slot))),
        Told::PutRequest(slot, session, _) => {
            let request = request_of(alloc, session)?;
            let old = pool.exchange_request(slot, Some(request));
            Told::PutRequest(slot, session, session_in(&old))
        }
        Told::TakeRequest(slot, _) => {
            let old = pool.exchange_request(slot, None);
            Told::TakeRequest(slot, session_in(&old))
        }
        Told::MoveRequest(from, to, _) => {
            let taken = pool.exchange_request(from, None);
            let old = pool.exchange_request(to, taken);
            Told::MoveRequest(from, to, session_in(&old))
        }
        Told::FreeBio(seat, _) if seat < 16 => Told::FreeBio(seat, pool.free_bio(seat)),
        Told::FreeBio(..) | Told::NoSuchSeat => Told::NoSuchSeat,
        Told::Bio(slot, _) => Told::Bio(slot, serial_of(pool.bio(slot))),
        Told::PutBios(from, end, serial, _) => {
            let back = put_bios(alloc, pool, (from, end), serial)?;
            Told::PutBios(from, end, serial, back)
        }
        Told::TakeBio(slot, _) => {
            let old = pool.exchange_bio(slot, None);
            Told::TakeBio(slot, serial_in(&old))
        }
    };
    Ok(came)
}

// All of that comes again at a new pool of so many requests, in this order.
fn expect(rt: &(impl Abort + AllocGlobal), requests: u16, all: &[Told]) -> Result<(), Fail> {
    let mut pool = RequestPool::new(rt.alloc(), requests)?;
    for told in all {
        assert_eq!(rt; again(rt.alloc(), &mut pool, *told)?, *told);
    }
    Ok(())
}

#[test]
fn requests(rt: HostRuntime) -> Result<(), Fail> {
    let all = [
        Told::FreeRequest(Some(0)),
        Told::PutRequest(0, 1, None),
        Told::Request(0, Some(1)),
        Told::Request(1, None),
        Told::FreeRequest(Some(1)),
        // Where there is no such slot the argument comes back.
        Told::MoveRequest(0, 2, Some(1)),
        Told::Request(2, None),
        Told::FreeRequest(Some(0)),
    ];
    expect(&rt, 2, &all)
}

#[test]
fn bios(rt: HostRuntime) -> Result<(), Fail> {
    let all = [
        // Seat 3 has the slots from 96 on.
        Told::FreeBio(3, Some(96)),
        Told::PutBios(96, 97, 2, 0),
        Told::Bio(96, Some(2)),
        Told::FreeBio(3, Some(97)),
        Told::FreeBio(4, Some(128)),
        // All 32 slots of a seat are taken.
        Told::PutBios(97, 128, 3, 0),
        Told::FreeBio(3, None),
        Told::TakeBio(127, Some(3)),
        Told::FreeBio(3, Some(127)),
    ];
    expect(&rt, 1, &all)
}

// Whatever the order, the first free slot is found: one below another that is free, and one behind all that are taken.
#[test]
fn first_free_requests(rt: HostRuntime) -> Result<(), Fail> {
    let all = [
        Told::PutRequest(0, 1, None),
        Told::PutRequest(1, 2, None),
        Told::PutRequest(2, 3, None),
        Told::FreeRequest(Some(3)),
        Told::TakeRequest(1, Some(2)),
        Told::FreeRequest(Some(1)),
        Told::TakeRequest(0, Some(1)),
        Told::FreeRequest(Some(0)),
        // Slot 1 is still free.
        Told::PutRequest(0, 4, None),
        Told::FreeRequest(Some(1)),
        Told::PutRequest(1, 5, None),
        Told::FreeRequest(Some(3)),
        Told::PutRequest(3, 6, None),
        Told::FreeRequest(None),
        // There is no slot 4.
        Told::PutRequest(4, 7, Some(7)),
        Told::FreeRequest(None),
        Told::TakeRequest(4, None),
        Told::FreeRequest(None),
        // A slot that is taken gets another request.
        Told::PutRequest(3, 8, Some(6)),
        Told::FreeRequest(None),
        Told::TakeRequest(2, Some(3)),
        Told::FreeRequest(Some(2)),
        Told::TakeRequest(0, Some(4)),
        Told::FreeRequest(Some(0)),
        Told::PutRequest(2, 9, None),
        Told::FreeRequest(Some(0)),
        Told::MoveRequest(3, 0, None),
        Told::FreeRequest(Some(3)),
    ];
    expect(&rt, 4, &all)
}

// The same of the bios of two seats: neither changes what is free of the other.
#[test]
fn first_free_bios(rt: HostRuntime) -> Result<(), Fail> {
    let all = [
        Told::PutBios(0, 32, 1, 0),
        Told::FreeBio(0, None),
        Told::FreeBio(1, Some(32)),
        Told::TakeBio(5, Some(1)),
        Told::FreeBio(0, Some(5)),
        Told::PutBios(32, 40, 2, 0),
        Told::FreeBio(1, Some(40)),
        Told::TakeBio(33, Some(2)),
        Told::FreeBio(1, Some(33)),
        Told::FreeBio(0, Some(5)),
        Told::TakeBio(0, Some(1)),
        Told::FreeBio(0, Some(0)),
        Told::PutBios(5, 6, 3, 0),
        Told::FreeBio(0, Some(0)),
        Told::PutBios(0, 1, 3, 0),
        Told::FreeBio(0, None),
        Told::PutBios(33, 64, 4, 6),
        Told::FreeBio(1, None),
        // The last slot of one seat is beside the first of the next.
        Told::TakeBio(31, Some(1)),
        Told::FreeBio(0, Some(31)),
        Told::FreeBio(1, None),
        Told::TakeBio(32, Some(2)),
        Told::FreeBio(0, Some(31)),
        Told::FreeBio(1, Some(32)),
        // A slot that is free is freed again.
        Told::TakeBio(32, None),
        Told::FreeBio(1, Some(32)),
    ];
    expect(&rt, 1, &all)
}

// The last seat, and a slot behind all.
#[test]
fn first_free_bios_of_the_last_seat(rt: HostRuntime) -> Result<(), Fail> {
    let all = [
        Told::FreeBio(15, Some(480)),
        Told::PutBios(480, 511, 1, 0),
        Told::FreeBio(15, Some(511)),
        // There is no slot 512.
        Told::PutBios(511, 513, 2, 1),
        Told::FreeBio(15, None),
        Told::TakeBio(512, None),
        Told::FreeBio(15, None),
        Told::TakeBio(500, Some(1)),
        Told::TakeBio(490, Some(1)),
        Told::FreeBio(15, Some(490)),
        Told::PutBios(490, 491, 3, 0),
        Told::FreeBio(15, Some(500)),
        Told::FreeBio(0, Some(0)),
    ];
    expect(&rt, 1, &all)
}

// The seat whose first free bio is wrong where this one has two bios and no other has any, if there is one.
fn wrong_seat(pool: &RequestPool, taken: u8) -> Option<u8> {
    for seat in 0..16 {
        let first = if seat == taken { 2 } else { 0 };
        if pool.free_bio(seat) != Some(u16::from(seat) * 32 + first) {
            return Some(seat);
        }
    }
    None
}

// Bios of one seat leave those of each other one as they are.
#[test]
fn bios_of_each_seat(rt: HostRuntime) -> Result<(), Fail> {
    for seat in 0..16u8 {
        let mut pool = RequestPool::new(rt.alloc(), 1)?;
        let from = u16::from(seat) * 32;
        let _none = put_bios(rt.alloc(), &mut pool, (from, from + 2), 1)?;
        assert_eq!(rt; (seat, wrong_seat(&pool, seat)), (seat, None));
    }
    Ok(())
}
