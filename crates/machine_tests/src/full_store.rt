// Requests as long as one can be: 32 stores or discards of 8 sectors, merged, dispatched and finished, each step turned back and forth.
use crate::host::{Host, Place};
use bytes::Bytes;
use dispatch_core::{Reply, SectorView, Step};
use sector_core::{Class, Op, Outcome, Range};
use std::alloc::Global;
use std::process::Abort;
use std::test::Fail;

// The sectors of all of them.
const WHOLE: Range = Range {
    start: 0,
    count: 256,
};

// Only the Finish changes the overlay, so once a step is turned back the last of these sectors is the image's.
const LAST: u64 = 255;

// What the last sector has: none where it is the image's, or else each byte of it.
fn last_byte(host: &Host) -> Option<u8> {
    match host.view().sector(LAST) {
        SectorView::Outside => None,
        SectorView::Base => None,
        SectorView::Stored(block) => {
            let bytes = block.as_slice();
            let (first, others) = bytes.split_first()?;
            others
                .iter()
                .all(|byte: &u8| *byte == *first)
                .then_some(*first)
        }
    }
}

// A step of this test. A store or a discard is named by the serial that it gets, so the first is 2.
#[derive(Clone, Copy, Debug, PartialEq, Eq)]
enum Act {
    Attach,
    Submit(Op, u64),
    Dispatch,
    Finish,
}

// What a step was answered.
#[derive(Clone, Copy, Debug, PartialEq, Eq)]
enum Came {
    Attached(u64),
    Queued(u64),
    Issued(u8, u64, Op, Range),
    Finished(u32),
    Other,
}

// What is done with the machine, or seen of it, together with what comes of it.
#[derive(Clone, Copy, Debug, PartialEq, Eq)]
enum Told {
    // A step, turned back and forth: its answer, the exchanges that each of the three makes, and whether the last sector was
    // the image's while it was turned back.
    Step(Act, Came, [u64; 3], bool),
    // At a place of seat 0.
    Request(usize, Place),
    LastByte(Option<u8>),
    // How many steps the line has, and how many exchanges were made.
    Made(u32, u64),
}

fn step_of(act: Act) -> Step {
    match act {
        Act::Attach => Step::Attach {
            seat: 0,
            group: 0,
            prio: 4,
            class: Class::BestEffort,
        },
        Act::Submit(op, serial) => Step::Submit {
            seat: 0,
            session: 1,
            op,
            range: Range {
                start: serial.wrapping_sub(2).wrapping_mul(8),
                count: 8,
            },
            payload: match op {
                Op::Store => Bytes::from_static(&[9; 4096]),
                Op::Fetch | Op::Discard => Bytes::new(),
            },
        },
        Act::Dispatch => Step::Dispatch,
        Act::Finish => Step::Finish {
            tag: 0,
            issue: 34,
            outcome: Outcome::Stored,
        },
    }
}

fn reply_of(reply: &Reply) -> Came {
    match reply {
        Reply::Attached { session } => Came::Attached(*session),
        Reply::Queued { bio } => Came::Queued(*bio),
        Reply::Issued {
            tag,
            issue,
            op,
            range,
        } => Came::Issued(*tag, *issue, *op, *range),
        Reply::Finished { bios } => Came::Finished(*bios),
        _ => Came::Other,
    }
}

// Does that again, and tells what came of it.
fn again(host: &mut Host, alloc: Global, told: Told) -> Result<Told, Fail> {
    match told {
        Told::Step(act, ..) => {
            let (reply, exchanges, is_base) = host.turned(alloc, step_of(act), LAST)?;
            Ok(Told::Step(act, reply_of(&reply), exchanges, is_base))
        }
        Told::Request(place, _) => Ok(Told::Request(place, host.place(0, place))),
        Told::LastByte(_) => Ok(Told::LastByte(last_byte(host))),
        Told::Made(..) => Ok(Told::Made(host.steps(), host.turns())),
    }
}

// All of that comes again, in this order.
fn expect(rt: &(impl Abort + AllocGlobal), host: &mut Host, all: &[Told]) -> Result<(), Fail> {
    for told in all {
        assert_eq!(rt; again(host, rt.alloc(), *told)?, *told);
    }
    Ok(())
}

// The first bio begins a request and activates an entity, and the others join it. The request is sent to the device: its entity is
// selected (2), charged (2), and expires (3). The Finish has a block for each sector, the bios, and then the request, the tag and the
// outbox.
fn steps_of_a_full_request(rt: &(impl Abort + AllocGlobal), op: Op, last: u8) -> Result<(), Fail> {
    let mut host = Host::new(rt.alloc(), 1024)?;
    let attach = Told::Step(Act::Attach, Came::Attached(1), [6; 3], true);
    expect(rt, &mut host, &[attach])?;
    for serial in 2..34 {
        let exchanges = if serial == 2 { 5 } else { 3 };
        let submit = Told::Step(
            Act::Submit(op, serial),
            Came::Queued(serial),
            [exchanges; 3],
            true,
        );
        expect(rt, &mut host, &[submit, Told::Request(1, Place::Past)])?;
    }
    let full = Place::Queued {
        range: WHOLE,
        bios: 32,
    };
    let issued = Came::Issued(0, 34, op, WHOLE);
    let all = [
        Told::Request(0, full),
        Told::Step(Act::Dispatch, issued, [10; 3], true),
        Told::Step(Act::Finish, Came::Finished(32), [256 + 32 + 3; 3], true),
        Told::LastByte(Some(last)),
        // 6, 5, 31 times 3, 10 and 291 exchanges, each made three times.
        Told::Made(35, 1215),
    ];
    expect(rt, &mut host, &all)
}

#[test]
fn steps_of_a_full_store(rt: HostRuntime) -> Result<(), Fail> {
    steps_of_a_full_request(&rt, Op::Store, 9)
}

#[test]
fn steps_of_a_full_discard(rt: HostRuntime) -> Result<(), Fail> {
    steps_of_a_full_request(&rt, Op::Discard, 0)
}
