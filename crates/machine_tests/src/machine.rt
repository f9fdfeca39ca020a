// The machine in examples: its steps are proved, and these say what they mean, and that a call succeeds while memory is left.
use crate::host::{Host, Place};
use bytes::Bytes;
use dispatch_core::{Code, EntityView, SectorView, Step};
use sector_core::{Class, Op, Outcome, Range, Scheduler};
use std::alloc::Global;
use std::process::Abort;
use std::test::Fail;

const ONE: Range = Range { start: 5, count: 1 };

// What is done, in short: the first session sits at seat 0, and group 1 is made.
#[derive(Clone, Copy, Debug, PartialEq, Eq)]
enum Act {
    Attach,
    Store,
    Fetch(Range),
    Dispatch,
    Finish(u64),
    Reap,
    MakeGroup,
    WeighGroup(u16),
    DropGroup,
}

fn step_of(act: Act) -> Step {
    match act {
        Act::Attach => Step::Attach {
            seat: 0,
            group: 0,
            prio: 4,
            class: Class::BestEffort,
        },
        Act::Store => submit(Op::Store, ONE, Bytes::from_static(&[65; 512])),
        Act::Fetch(range) => submit(Op::Fetch, range, Bytes::new()),
        Act::Dispatch => Step::Dispatch,
        Act::Finish(issue) => Step::Finish {
            tag: 0,
            issue,
            outcome: Outcome::Stored,
        },
        Act::Reap => Step::Reap {
            seat: 0,
            session: 1,
        },
        Act::MakeGroup => Step::GroupMake {
            parent: 0,
            weight: 100,
        },
        Act::WeighGroup(weight) => Step::SetWeight { group: 1, weight },
        Act::DropGroup => Step::GroupDrop { group: 1 },
    }
}

fn submit(op: Op, range: Range, payload: Bytes) -> Step {
    Step::Submit {
        seat: 0,
        session: 1,
        op,
        range,
        payload,
    }
}

fn is_stored(host: &Host) -> bool {
    match host.view().sector(5) {
        SectorView::Outside => false,
        SectorView::Base => false,
        SectorView::Stored(_) => true,
    }
}

fn in_numbers(entity: EntityView) -> (u32, u32, u32) {
    (entity.weight, entity.budget, entity.service)
}

// What is done with a machine, or seen of it, together with what comes of it.
#[derive(Clone, Copy, Debug, PartialEq, Eq)]
enum Told {
    // The answer of a step.
    Step(Act, u64),
    // How many exchanges were made, and how many steps the line has.
    Turns(u64),
    Steps(u32),
    // Whether a request is in flight, whether the block is stored, and the length of the outbox.
    Store(bool, bool, usize),
    // Of group 1: the virtual time of its best-effort class, and the weight in effect, the budget and the service of its entity.
    Group(Option<u64>, Option<(u32, u32, u32)>),
    Scheduler(Scheduler),
    // At a place of a seat.
    Request(u8, usize, Place),
}

// Does that again, and tells what came of it.
fn again(host: &mut Host, alloc: Global, told: Told) -> Told {
    match told {
        Told::Step(act, _) => Told::Step(act, host.applied(alloc, step_of(act))),
        Told::Turns(_) => Told::Turns(host.turns()),
        Told::Steps(_) => Told::Steps(host.steps()),
        Told::Store(..) => {
            let is_in_flight = host.view().in_flight(0).is_some();
            Told::Store(is_in_flight, is_stored(host), host.view().outbox_len(0))
        }
        Told::Group(..) => {
            let entity = host.view().entity(17).map(in_numbers);
            Told::Group(host.view().vtime(1, Class::BestEffort), entity)
        }
        Told::Scheduler(_) => Told::Scheduler(host.view().scheduler()),
        Told::Request(seat, place, _) => Told::Request(seat, place, host.place(seat, place)),
    }
}

// All of that comes again at a new machine over 8 sectors, in this order.
fn expect(rt: &(impl Abort + AllocGlobal), all: &[Told]) -> Result<(), Fail> {
    let mut host = Host::new(rt.alloc(), 8)?;
    for told in all {
        assert_eq!(rt; again(&mut host, rt.alloc(), *told), *told);
    }
    Ok(())
}

// A block is stored, step by step. The lists have 6, 5, 10, 5 and 3 exchanges: the submit activates one entity, and the
// dispatch selects it (2), charges it (2) and lets it expire for emptying (3).
#[test]
fn store_of_a_block(rt: HostRuntime) -> Result<(), Fail> {
    let all = [
        Told::Turns(0),
        Told::Step(Act::Attach, 1),
        Told::Turns(6),
        Told::Store(false, false, 0),
        Told::Step(Act::Store, 2),
        Told::Turns(11),
        Told::Store(false, false, 0),
        Told::Step(Act::Dispatch, 3),
        Told::Turns(21),
        Told::Store(true, false, 0),
        Told::Step(Act::Finish(3), 1),
        Told::Turns(26),
        Told::Store(false, true, 1),
        Told::Step(Act::Reap, 2),
        Told::Turns(29),
        Told::Store(false, true, 0),
        Told::Steps(5),
    ];
    expect(&rt, &all)
}

// A refused step adds no list and makes no exchange.
#[test]
fn refused_step(rt: HostRuntime) -> Result<(), Fail> {
    let idle = 100 + u64::from(Code::NothingQueued.number());
    expect(
        &rt,
        &[
            Told::Step(Act::Dispatch, idle),
            Told::Steps(0),
            Told::Turns(0),
        ],
    )
}

// Attaches, turned back and forth: how many exchanges were made before and after, by the host and by its view, how many each
// of the three makes, and whether the block was the image's while it was turned back.
fn attached(alloc: Global) -> Result<([u64; 3], [u64; 3], bool), Fail> {
    let mut host = Host::new(alloc, 8)?;
    let before = host.turns();
    let (_reply, exchanges, is_base) = host.turned(alloc, step_of(Act::Attach), 5)?;
    let turns = [before, host.turns(), host.view().turns()];
    Ok((turns, exchanges, is_base))
}

// A step is turned back, and forth again; each makes its six exchanges.
#[test]
fn attach_back_and_forth(rt: HostRuntime) -> Result<(), Fail> {
    assert_eq!(rt; attached(rt.alloc())?, ([0, 18, 18], [6; 3], true));
    Ok(())
}

// A group is made, gets another weight, which is pending, and goes: 4, 1 and 2 exchanges.
#[test]
fn group_made_and_dropped(rt: HostRuntime) -> Result<(), Fail> {
    let fresh = Some((100, 4096, 0));
    let all = [
        Told::Scheduler(Scheduler::Bfq),
        Told::Group(None, None),
        Told::Step(Act::MakeGroup, 0),
        Told::Turns(4),
        Told::Group(Some(0), fresh),
        Told::Step(Act::WeighGroup(200), 0),
        Told::Turns(5),
        Told::Group(Some(0), fresh),
        Told::Step(Act::DropGroup, 0),
        Told::Turns(7),
        Told::Group(None, None),
    ];
    expect(&rt, &all)
}

// A request that is queued, of one bio.
fn queued(range: Range) -> Place {
    Place::Queued { range, bios: 1 }
}

// Two requests that do not touch stand in a queue, the one submitted first in front.
#[test]
fn places_of_a_queue(rt: HostRuntime) -> Result<(), Fail> {
    let start = Range { start: 0, count: 2 };
    let all = [
        Told::Request(0, 0, Place::Free),
        Told::Request(16, 0, Place::Free),
        Told::Step(Act::Attach, 1),
        Told::Step(Act::Fetch(ONE), 2),
        Told::Step(Act::Fetch(start), 3),
        Told::Request(0, 0, queued(ONE)),
        Told::Request(0, 1, queued(start)),
        Told::Request(0, 2, Place::Past),
    ];
    expect(&rt, &all)
}
