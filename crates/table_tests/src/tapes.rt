// The exchanges in examples: the rules are proved, and these say what they mean, and that a call succeeds while memory is left.
ghost use Rattle.std.specs.Prelude.{◌≡◌, ◌∷◌, [], IfOk, OnOk, false};

use bytes::Bytes;
use change_record::{Change, Making, Parts, Tape};
use plain::Seat;
use process_queue::Link;
use sector_core::{Block, Scheduler, Slot};
use std::alloc::Global;
use std::process::Abort;
use std::test::Fail;

const MAKING: Making = Making {
    requests: 4,
    tags: 2,
    scheduler: Scheduler::Bfq,
    first_budget: 1024,
    max_budget: 4096,
    first_vtime: 7,
};

// The tables before the first exchange. This and the three that follow have no clauses, so that no test carries what is promised.
fn opened(alloc: Global) -> Result<Parts, Fail> {
    Ok(Parts::new(alloc, MAKING)?)
}

// Turns a change.
fn turned(parts: &mut Parts, change: &mut Change) -> Result<(), Fail> {
    parts.turn(change)?;
    Ok(())
}

// A block of letters A.
fn letters(alloc: Global) -> Result<Block, Fail> {
    Ok(Block::new(alloc, Bytes::from_static(&[65; 512]))?)
}

// It comes to sector 5.
fn storing(alloc: Global) -> Result<Change, Fail> {
    Ok(Change::Sector {
        sector: 5,
        block: Some(letters(alloc)?),
    })
}

// A block of letters A stands at sector 5.
fn is_stored(parts: &Parts) -> bool {
    match parts.overlay().get(5) {
        Some(block) => block.as_slice() == [65; 512].as_slice(),
        None => false,
    }
}

// What a change of sector 5 has: whether that is a block of letters A, or None for another change.
fn stores(change: &Change) -> Option<bool> {
    match change {
        Change::Sector {
            sector: 5,
            block: Some(block),
        } => Some(block.as_slice() == [65; 512].as_slice()),
        Change::Sector {
            sector: 5,
            block: None,
        } => Some(false),
        _ => None,
    }
}

// The scheduler, whether frozen, and the seat that was served last, as a change has them.
fn mode(change: &Change) -> Option<(Scheduler, bool, u8)> {
    match change {
        Change::Mode {
            scheduler,
            frozen,
            served,
        } => Some((*scheduler, *frozen, *served)),
        _ => None,
    }
}

// The round robin has served this seat last.
fn serving(seat: u8) -> Change
    ensures { result ≡ Change.Mode Scheduler.Bfq false seat }
{
    Change::Mode {
        scheduler: Scheduler::Bfq,
        frozen: false,
        served: seat,
    }
}

// What is done with the tables and a change, together with what comes of it.
#[derive(Clone, Copy, Debug, PartialEq, Eq)]
enum Told {
    // The change is turned.
    Turn,
    // How many exchanges were made.
    Turns(u64),
    // A block stands at the sector.
    Stands(u64, bool),
    // A block of letters A stands at sector 5.
    IsStored(bool),
    // What the change has, as `stores` and `mode` tell it.
    Stores(Option<bool>),
    Has(Option<(Scheduler, bool, u8)>),
    Mode(Scheduler, bool, u8),
    FreeRequest(Option<Slot>),
    FreeBio(Option<Slot>),
    LowestFree(Option<u8>),
    // No slot waits at seat 0 in the queues, and in the dispatch list.
    IsEmpty(bool, bool),
    FirstRequeued(Option<Slot>),
    Seat(u8, Option<Seat>),
    // How many bios the outbox of the seat has.
    Outbox(u8, Option<usize>),
    NoMemory,
}

// Does that again, and tells what came of it.
fn again(parts: &mut Parts, change: &mut Change, told: Told) -> Told {
    match told {
        Told::Turn => match parts.turn(change) {
            Ok(()) => Told::Turn,
            Err(_) => Told::NoMemory,
        },
        Told::Turns(_) => Told::Turns(parts.turns()),
        Told::Stands(sector, _) => Told::Stands(sector, parts.overlay().get(sector).is_some()),
        Told::IsStored(_) => Told::IsStored(is_stored(parts)),
        Told::Stores(_) => Told::Stores(stores(change)),
        Told::Has(_) => Told::Has(mode(change)),
        Told::Mode(..) => Told::Mode(parts.scheduler(), parts.frozen(), parts.served()),
        Told::FreeRequest(_) => Told::FreeRequest(parts.pool().free_request()),
        Told::FreeBio(_) => Told::FreeBio(parts.pool().free_bio(15)),
        Told::LowestFree(_) => Told::LowestFree(parts.tags().lowest_free()),
        Told::IsEmpty(..) => Told::IsEmpty(
            parts.queues().is_empty(0),
            parts.requeued().is_empty(0),
        ),
        Told::FirstRequeued(_) => Told::FirstRequeued(parts.requeued().first(0)),
        Told::Seat(seat, _) => Told::Seat(seat, parts.seat(seat)),
        Told::Outbox(seat, _) => Told::Outbox(seat, outbox_len(parts, seat)),
        Told::NoMemory => Told::NoMemory,
    }
}

fn outbox_len(parts: &Parts, seat: u8) -> Option<usize> {
    match parts.outbox(seat) {
        Some(outbox) => Some(outbox.as_slice().len()),
        None => None,
    }
}

// What came first that is not what is told, beside that.
fn difference(parts: &mut Parts, change: &mut Change, all: &[Told]) -> Option<(Told, Told)> {
    for told in all {
        let came = again(parts, change, *told);
        if came != *told {
            return Some((came, *told));
        }
    }
    None
}

// All of that comes again at new tables and this change, in this order.
fn expect(rt: &(impl Abort + AllocGlobal), change: &mut Change, all: &[Told]) -> Result<(), Fail> {
    let mut parts = opened(rt.alloc())?;
    assert_eq!(rt; difference(&mut parts, change, all), None);
    Ok(())
}

#[test]
fn new_tables(rt: HostRuntime) -> Result<(), Fail> {
    let all = [
        Told::Turns(0),
        // The tables are not frozen. Seat 15 counts as served, so that seat 0 is the first.
        Told::Mode(Scheduler::Bfq, false, 15),
        Told::Stands(0, false),
        Told::FreeRequest(Some(0)),
        // Seat 15 has the last slots.
        Told::FreeBio(Some(480)),
        Told::LowestFree(Some(0)),
        Told::IsEmpty(true, true),
        Told::Seat(0, None),
        // There are 16 seats.
        Told::Outbox(15, Some(0)),
        Told::Outbox(16, None),
    ];
    let mut change = storing(rt.alloc())?;
    expect(&rt, &mut change, &all)
}

// The block goes in, and the change has what stood there: none. Turned again, the block comes back.
#[test]
fn a_turn_and_back(rt: HostRuntime) -> Result<(), Fail> {
    let all = [
        Told::Turn,
        Told::IsStored(true),
        Told::Stores(Some(false)),
        Told::Turns(1),
        Told::Turn,
        Told::Stands(5, false),
        Told::Stores(Some(true)),
        Told::Turns(2),
    ];
    let mut change = storing(rt.alloc())?;
    expect(&rt, &mut change, &all)
}

// The three parts of the mode are one place, and what stood there is in the change then.
#[test]
fn a_mode_and_back(rt: HostRuntime) -> Result<(), Fail> {
    let mut change = Change::Mode {
        scheduler: Scheduler::Plain,
        frozen: true,
        served: 4,
    };
    let all = [
        Told::Turn,
        Told::Mode(Scheduler::Plain, true, 4),
        Told::Has(Some((Scheduler::Bfq, false, 15))),
        Told::Turn,
        Told::Mode(Scheduler::Bfq, false, 15),
        Told::Turns(2),
    ];
    expect(&rt, &mut change, &all)
}

// The dispatch list has links of its own.
#[test]
fn a_link_of_the_dispatch_list(rt: HostRuntime) -> Result<(), Fail> {
    let mut change = Change::Requeued {
        slot: 2,
        link: Some(Link { seat: 0, serial: 5 }),
    };
    let all = [
        Told::Turn,
        Told::FirstRequeued(Some(2)),
        Told::IsEmpty(true, false),
        Told::Turn,
        Told::IsEmpty(true, true),
    ];
    expect(&rt, &mut change, &all)
}

// The seat that was served last, and how many exchanges were made.
fn seen(parts: &Parts) -> (u8, u64) {
    (parts.served(), parts.turns())
}

// A tape with one list of two changes of the seat.
fn two_changes(alloc: Global) -> Result<Tape, Fail>
    ensures { IfOk result (λ tape. tape.steps ≡ (Change.Mode Scheduler.Bfq false 7 ∷ Change.Mode Scheduler.Bfq false 9 ∷ []) ∷ []) }
{
    let mut tape = Tape::new(alloc);
    tape.reserve(2)?;
    tape.push(serving(7));
    tape.push(serving(9));
    tape.close();
    Ok(tape)
}

// A list of two changes of the seat: its size, and what is seen when it was turned forth, and then back.
fn forth_and_back(alloc: Global) -> Result<(usize, (u8, u64), (u8, u64)), Fail> {
    let mut parts = opened(alloc)?;
    let mut tape = two_changes(alloc)?;
    let size = tape.size(0);
    tape.forth(&mut parts, 0)?;
    let forth = seen(&parts);
    tape.back(&mut parts, 0);
    Ok((size, forth, seen(&parts)))
}

// A step that stores a block: whether it stands then, and how many lists the tape has.
fn block_stored(alloc: Global) -> Result<(bool, usize), Fail> {
    let mut parts = opened(alloc)?;
    let mut tape = Tape::new(alloc);
    tape.reserve(1)?;
    let stored = Change::Sector {
        sector: 5,
        block: Some(letters(alloc)?),
    };
    tape.try_exchange(&mut parts, stored)?;
    tape.close();
    Ok((is_stored(&parts), tape.len()))
}

// A step that serves this seat.
fn serve(tape: &mut Tape, parts: &mut Parts, seat: u8) -> Result<(), Fail>
    ensures { OnOk result (tape.new.current ≡ []) }
{
    tape.reserve(1)?;
    tape.exchange(parts, serving(seat));
    tape.close();
    Ok(())
}

// The last list takes the place of the first, and is dropped then. How many lists the tape has before, between and after.
fn drop_lists(tape: &mut Tape) -> [usize; 3]
    requires { tape.old.current ≡ [] }
{
    let before = tape.len();
    if before > 0 {
        tape.keep_last(0);
    }
    let between = tape.len();
    if between > 0 {
        tape.drop_last();
    }
    [before, between, tape.len()]
}

// How many lists the tape has at first, after two steps, when the second has taken the place of the first, and when that is
// dropped; and the seat that was served last, which stays.
fn lists_dropped(alloc: Global) -> Result<([usize; 4], u8), Fail> {
    let mut parts = opened(alloc)?;
    let mut tape = Tape::new(alloc);
    let first = tape.len();
    serve(&mut tape, &mut parts, 3)?;
    serve(&mut tape, &mut parts, 7)?;
    let [both, last, none] = drop_lists(&mut tape);
    Ok(([first, both, last, none], parts.served()))
}

// A step of two exchanges that is given up: the seat that was served last before that, and after it, and how many lists the
// tape has.
fn given_up(alloc: Global) -> Result<(u8, u8, usize), Fail> {
    let mut parts = opened(alloc)?;
    let mut tape = Tape::new(alloc);
    tape.reserve(3)?;
    tape.exchange(&mut parts, serving(4));
    tape.exchange(&mut parts, serving(9));
    let before = parts.served();
    tape.abandon(&mut parts);
    Ok((before, parts.served(), tape.len()))
}

// A tape that gave up a step of no change.
fn given_up_at_once(alloc: Global, parts: &mut Parts) -> Result<Tape, Fail> {
    let mut tape = Tape::new(alloc);
    tape.reserve(3)?;
    tape.abandon(parts);
    Ok(tape)
}

// A list of this change alone.
fn add(tape: &mut Tape, change: Change) -> Result<(), Fail> {
    tape.reserve(1)?;
    tape.push(change);
    tape.close();
    Ok(())
}

// A change that has been turned is added alone: the seat that was served last, and the size of the first list.
fn added(alloc: Global) -> Result<(u8, Option<usize>), Fail> {
    let mut parts = opened(alloc)?;
    let mut tape = given_up_at_once(alloc, &mut parts)?;
    let mut change = serving(6);
    turned(&mut parts, &mut change)?;
    add(&mut tape, change)?;
    Ok((parts.served(), size_of_first(&tape)))
}

fn size_of_first(tape: &Tape) -> Option<usize> {
    if tape.len() > 0 {
        Some(tape.size(0))
    } else {
        None
    }
}

// What the lists above come to.
#[derive(Clone, Copy, Debug, PartialEq, Eq)]
enum Listed {
    ForthAndBack(usize, (u8, u64), (u8, u64)),
    Stored(bool, usize),
    Dropped([usize; 4], u8),
    GivenUp(u8, u8, usize),
    Added(u8, Option<usize>),
}

// Makes the tape and the lists again, and tells what they came to.
fn made(alloc: Global, told: Listed) -> Result<Listed, Fail> {
    match told {
        Listed::ForthAndBack(..) => {
            let (size, forth, back) = forth_and_back(alloc)?;
            Ok(Listed::ForthAndBack(size, forth, back))
        }
        Listed::Stored(..) => {
            let (stands, lists) = block_stored(alloc)?;
            Ok(Listed::Stored(stands, lists))
        }
        Listed::Dropped(..) => {
            let (lists, served) = lists_dropped(alloc)?;
            Ok(Listed::Dropped(lists, served))
        }
        Listed::GivenUp(..) => {
            let (before, after, lists) = given_up(alloc)?;
            Ok(Listed::GivenUp(before, after, lists))
        }
        Listed::Added(..) => {
            let (served, size) = added(alloc)?;
            Ok(Listed::Added(served, size))
        }
    }
}

#[test]
fn steps(rt: HostRuntime) -> Result<(), Fail> {
    for told in [
        // Back it goes in reverse order: 7 comes back first, and then 15.
        Listed::ForthAndBack(2, (9, 2), (15, 4)),
        Listed::Stored(true, 1),
        Listed::Dropped([0, 2, 1, 0], 7),
        // The seat that was served before the step is there again.
        Listed::GivenUp(9, 15, 0),
        Listed::Added(6, Some(1)),
    ] {
        assert_eq!(rt; made(rt.alloc(), told)?, told);
    }
    Ok(())
}
