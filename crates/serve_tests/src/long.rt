// Over a keeper itself, and frames that are longer than a piece.
use crate::run::{checked, front};
use bytes::Bytes;
use failing_io::{Narrow, Pieces};
use history::{Call, ClientCall, Closed, Keeper};
use plain::{Answer, Reply, Step};
use sector_core::{Class, ConfigDraft, Op, Outcome, Range};
use session_proto::{Asks, EndCause, serve};
use session_solo::Solo;
use std::alloc::Global;
use std::test::Fail;

// The frame of an Attach in the root, of priority 4, and that of Attached 1.
const ATTACH: [u8; 7] = [0, 0, 0, 3, 1, 0, 4];

const ATTACHED: [u8; 13] = [0, 0, 0, 9, 0x81, 0, 0, 0, 0, 0, 0, 0, 1];

// The bytes of 64 sectors.
const MOST_BYTES: usize = 32_768;

fn opened(alloc: Global) -> Result<Solo, Fail> {
    Ok(Solo(Keeper::new(alloc, checked(ConfigDraft::default())?, 1024)?))
}

// A keeper with a read of 64 sectors that is completed, as bio 2 of session 1.
fn completed(alloc: Global) -> Result<Solo, Fail> {
    let mut solo = opened(alloc)?;
    let attach = ClientCall::Attach {
        group: 0,
        prio: 4,
        class: Class::BestEffort,
    };
    let read = ClientCall::Submit {
        session: 1,
        op: Op::Fetch,
        range: Range {
            start: 8,
            count: 64,
        },
        payload: Bytes::new(),
    };
    let outcome = Outcome::Fetched(Bytes::from_vec(vec![in alloc; 7u8; MOST_BYTES]?)?);
    let finish = Step::Finish {
        tag: 0,
        issue: 3,
        outcome,
    };
    solo.0.call(alloc, &attach.of_seat(0));
    solo.0.call(alloc, &read.of_seat(0));
    solo.0.call(alloc, &Call::Do(Step::Dispatch));
    solo.0.call(alloc, &Call::Do(finish));
    Ok(solo)
}

// What a session over a keeper came to: what it wrote, why it ended, how many calls it asked, and how many the keeper accepted.
#[derive(Drop)]
struct Written {
    bytes: Vec<u8>,
    why: EndCause,
    calls: u32,
    accepted: usize,
}

// A session of these bytes, over a new keeper or over the one with a completed read.
fn session_over(alloc: Global, bytes: &[u8], is_completed: bool) -> Result<Written, Fail> {
    let mut solo = if is_completed {
        completed(alloc)?
    } else {
        opened(alloc)?
    };
    let mut writer = Narrow::new(alloc, 65_536);
    let mut reader = Pieces::of(bytes, 4096);
    let end = serve(alloc, &mut reader, &mut writer, &mut solo, 1_048_576);
    Ok(Written {
        bytes: writer.taken,
        why: end.why,
        calls: end.calls,
        accepted: solo.0.journal_len(),
    })
}

// What a call is answered: the session of an Attach, and 100 more than the number of a refusal.
fn told(answer: &Result<Answer, Closed>) -> u64 {
    match answer {
        Ok(Answer::Accepted(Reply::Attached { session })) => *session,
        Ok(Answer::Refused(code)) => 100 + u64::from(code.number()),
        _ => 99,
    }
}

// A Reap of a session 7, an Attach, and the Reap again.
fn asked(alloc: Global) -> Result<(u64, u64, u64), Fail> {
    let mut solo = opened(alloc)?;
    let first = told(&solo.ask(alloc, ClientCall::Reap { session: 7 }));
    let second = told(&solo.ask(
        alloc,
        ClientCall::Attach {
            group: 0,
            prio: 4,
            class: Class::BestEffort,
        },
    ));
    let third = told(&solo.ask(alloc, ClientCall::Reap { session: 7 }));
    Ok((first, second, third))
}

// A keeper is asked at seat 0: no session sits there (NoSession), then another than 7 (StaleSession).
#[test]
fn keeper_is_asked(rt: HostRuntime) -> Result<(), Fail> {
    assert_eq!(rt; asked(rt.alloc())?, (103, 1, 104));
    Ok(())
}

#[test]
fn keeper_is_served(rt: HostRuntime) -> Result<(), Fail> {
    let came = session_over(rt.alloc(), &ATTACH, false)?;
    assert_eq!(rt; came.bytes.as_slice(), ATTACHED.as_slice());
    assert_eq!(rt;
        (came.why, came.calls, came.accepted),
        (EndCause::Ended, 1, 2)
    );
    Ok(())
}

// The frames of an Attach and of a store of 64 sectors, which has 32,787 bytes behind its length.
fn store(alloc: Global) -> Result<Vec<u8>, Fail> {
    let mut bytes = Vec::new(alloc);
    bytes.extend_from_slice(&ATTACH)?;
    bytes.extend_from_slice(&[0, 0, 0x80, 0x13, 3])?;
    bytes.extend_from_slice(&[0, 0, 0, 0, 0, 0, 0, 1, 0, 0, 0, 0, 0, 0, 0, 8, 0, 64])?;
    bytes.extend_from_slice(vec![in alloc; 7u8; MOST_BYTES]?.as_slice())?;
    Ok(bytes)
}

// The bytes, but for the first 13.
fn behind(bytes: &[u8]) -> &[u8] {
    match bytes.get(13..) {
        Some(behind) => behind,
        None => &[],
    }
}

#[test]
fn longest_call(rt: HostRuntime) -> Result<(), Fail> {
    let came = session_over(rt.alloc(), store(rt.alloc())?.as_slice(), false)?;
    // Queued 2.
    let queued = [0, 0, 0, 9, 0x82, 0, 0, 0, 0, 0, 0, 0, 2].as_slice();
    assert_eq!(rt; behind(came.bytes.as_slice()), queued);
    assert_eq!(rt;
        (came.why, came.calls, came.accepted),
        (EndCause::Ended, 2, 3)
    );
    Ok(())
}

// The longest answer: 32,777 bytes behind its length, a kind, the bio, and the bytes of 64 sectors.
#[test]
fn longest_answer(rt: HostRuntime) -> Result<(), Fail> {
    let reap = [0, 0, 0, 9, 4, 0, 0, 0, 0, 0, 0, 0, 1].as_slice();
    let came = session_over(rt.alloc(), reap, true)?;
    let start = [0, 0, 0x80, 9, 0x83, 0, 0, 0, 0, 0, 0, 0, 2].as_slice();
    assert_eq!(rt; front(came.bytes.as_slice(), 13), start);
    let read = behind(came.bytes.as_slice());
    assert_eq!(rt;
        (read.len(), read.iter().all(|byte| *byte == 7)),
        (MOST_BYTES, true)
    );
    Ok(())
}
