// Calls of all kinds of seat, the journal's entries, and the work that devices take.
use crate::opening::usual;
use bytes::Bytes;
use host_calls::SeatName;
use host_rings::{Book, take_work};
use plain::{Answer, Call, Reply, Step};
use sector_core::{Class, Op, Range};
use std::alloc::Global;
use std::test::Fail;

// What is asked.
#[derive(Clone, Copy, Debug)]
enum Act {
    // The client of seat 0 sits down in the root group.
    Attach,
    // It reads this sector, in session 1.
    Read(u64),
    // The core sends a request.
    Dispatch,
    // Device 1 gives a request back.
    Requeue(u8, u64),
    Hold,
    Release,
    Undo(u32),
    // The device of this number asks for work, where the three devices took these last.
    Take(usize, [Option<u64>; 3]),
    // The entry of this number is looked at.
    Entry(usize),
}

use Act::{Attach, Dispatch, Entry, Hold, Read, Release, Requeue, Take, Undo};

// A book before its first call.
fn opened(alloc: Global) -> Result<Book, Fail> {
    Ok(Book::new(alloc, usual()?, 64)?)
}

fn read(sector: u64) -> Call {
    Call::Do(Step::Submit {
        seat: 0,
        session: 1,
        op: Op::Fetch,
        range: Range {
            start: sector,
            count: 1,
        },
        payload: Bytes::new(),
    })
}

// The name of who makes a call, and the call, if it is one.
fn asked(act: Act) -> Option<(SeatName, Call)> {
    match act {
        Attach => {
            let attach = Step::Attach {
                seat: 0,
                group: 0,
                prio: 4,
                class: Class::BestEffort,
            };
            Some((SeatName::Client(0), Call::Do(attach)))
        }
        Read(sector) => Some((SeatName::Client(0), read(sector))),
        Dispatch => Some((SeatName::Core, Call::Do(Step::Dispatch))),
        Requeue(tag, issue) => Some((SeatName::Device(1), Call::Do(Step::Requeue { tag, issue }))),
        Hold => Some((SeatName::Operator, Call::Hold)),
        Release => Some((SeatName::Operator, Call::Release)),
        Undo(k) => Some((SeatName::Operator, Call::Undo { k })),
        Take(..) | Entry(_) => None,
    }
}

// The number of what was accepted, or of a refusal after 100, or of a wait after 200.
fn told(answer: &Answer) -> u64 {
    match answer {
        Answer::Accepted(Reply::Attached { session }) => *session,
        Answer::Accepted(Reply::Queued { bio }) => *bio,
        Answer::Accepted(Reply::Issued { tag, issue, .. }) => work_of(*tag, *issue),
        Answer::Accepted(Reply::Moved { cursor, length }) => {
            u64::from(*cursor) * 10 + u64::from(*length)
        }
        Answer::Accepted(_) => 0,
        Answer::Refused(code) => 100 + u64::from(code.number()),
        Answer::NotYet(cause) => 200 + u64::from(cause.number()),
    }
}

// A request in flight, by its tag and its issue.
fn work_of(tag: u8, issue: u64) -> u64 {
    issue.wrapping_add(1000 * u64::from(tag))
}

// Whose an entry is, times 10, and a digit for its call: 10 and a client's number, 20 and a device's, 30 the operator, 40 the core.
fn entry_of(book: &Book, at: usize) -> u64 {
    let Some((name, call)) = book.entry(at) else {
        return 0;
    };
    let whose = match name {
        SeatName::Client(number) => 10 + u64::from(number),
        SeatName::Device(number) => 20 + u64::from(number),
        SeatName::Operator => 30,
        SeatName::Core => 40,
    };
    let what = match call {
        Call::Do(Step::Attach { .. }) => 1,
        Call::Do(Step::Submit { .. }) => 2,
        Call::Do(Step::Dispatch) => 3,
        Call::Do(Step::Requeue { .. }) => 4,
        Call::Do(_) => 5,
        Call::Hold => 6,
        Call::Release => 7,
        Call::Undo { .. } => 8,
        Call::Redo { .. } => 9,
    };
    whose * 10 + what
}

// What an act comes to: an answer's number, the work's tag times 1000 and its issue, or an entry.
fn answered(book: &mut Book, alloc: Global, act: Act) -> u64 {
    if let Some((name, call)) = asked(act) {
        return told(&book.judge(alloc, name, &call));
    }
    match act {
        Take(own, lasts) => match take_work(&book.view().machine(), &lasts, own) {
            Some(work) => work_of(work.tag, work.issue),
            None => 0,
        },
        Entry(at) => entry_of(book, at),
        _ => 999,
    }
}

// The number of the first act that comes to something else, with that; none if there is none.
fn first_other(alloc: Global, acts: &[(Act, u64)]) -> Result<Option<(usize, u64)>, Fail> {
    let mut book = opened(alloc)?;
    for (number, (act, wanted)) in acts.iter().enumerate() {
        let got = answered(&mut book, alloc, *act);
        if got != *wanted {
            return Ok(Some((number, got)));
        }
    }
    Ok(None)
}

const NONE: [Option<u64>; 3] = [None, None, None];

// Two requests are in flight; the first is sent again, under its old tag and a later issue.
const TAKES: [(Act, u64); 20] = [
    (Take(0, NONE), 0),
    (Attach, 1),
    (Read(0), 2),
    (Read(8), 3),
    (Dispatch, 4),
    (Dispatch, 1005),
    (Take(0, NONE), 4),
    (Take(1, [Some(4), None, None]), 1005),
    (Take(0, [Some(4), Some(5), None]), 4),
    (Take(1, [Some(4), Some(5), None]), 1005),
    (Take(2, [Some(4), Some(5), None]), 0),
    (Take(0, [Some(5), None, None]), 4),
    (Requeue(0, 4), 0),
    (Take(0, [Some(4), None, None]), 1005),
    (Dispatch, 7),
    (Take(0, NONE), 1005),
    (Take(0, [Some(4), Some(5), None]), 7),
    (Hold, 77),
    (Undo(2), 57),
    // The first is in flight again as it was, and still its device's own.
    (Take(1, [Some(4), None, None]), 1005),
];

// Calls that are refused or wait make no entry.
const ENTRIES: [(Act, u64); 15] = [
    (Entry(0), 0),
    (Attach, 1),
    (Attach, 102),
    (Dispatch, 117),
    (Read(0), 2),
    (Dispatch, 3),
    (Requeue(0, 2), 120),
    (Requeue(0, 3), 0),
    (Hold, 44),
    (Read(8), 241),
    (Undo(1), 34),
    (Release, 0),
    (Entry(0), 101),
    (Entry(2), 403),
    (Entry(3), 214),
];

#[test]
fn work_of_least_issue(rt: HostRuntime) -> Result<(), Fail> {
    assert_eq!(rt; first_other(rt.alloc(), &TAKES)?, None);
    Ok(())
}

#[test]
fn entries_and_their_names(rt: HostRuntime) -> Result<(), Fail> {
    assert_eq!(rt; first_other(rt.alloc(), &ENTRIES)?, None);
    Ok(())
}
