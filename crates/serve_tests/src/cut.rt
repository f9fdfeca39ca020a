// One session, cut and broken at each of its bytes.
use crate::run::{Outcome, Setup, front, plain, session};
use plain::Why;
use session_proto::EndCause;
use std::test::Fail;

// Attach in the root, of priority 4; a fetch of sectors 4 and 5 by session 1; its Reap; and its Leave.
const CALLS: &[u8] = &[
    0, 0, 0, 3, 1, 0, 4, //
    0, 0, 0, 19, 2, 0, 0, 0, 0, 0, 0, 0, 1, 0, 0, 0, 0, 0, 0, 0, 4, 0, 2, //
    0, 0, 0, 9, 4, 0, 0, 0, 0, 0, 0, 0, 1, //
    0, 0, 0, 1, 5,
];

// Attached 1, Queued 2, NotYet 44, and Left.
const ANSWERS: &[u8] = &[
    0, 0, 0, 9, 0x81, 0, 0, 0, 0, 0, 0, 0, 1, //
    0, 0, 0, 9, 0x82, 0, 0, 0, 0, 0, 0, 0, 2, //
    0, 0, 0, 2, 0xe1, 44, //
    0, 0, 0, 1, 0x86,
];

// How many calls are whole in so many bytes, and how many bytes of answers belong to them.
fn answered(bytes: usize) -> (u32, usize) {
    match bytes {
        0..=6 => (0, 0),
        7..=29 => (1, 13),
        30..=42 => (2, 26),
        43..=47 => (3, 32),
        _ => (4, 37),
    }
}

// What each session has in common: so many calls, so many bytes written, and one Leave that tells this. If the client has left by
// itself, or has not attached, that Leave is refused (3).
fn common(came: &Outcome, (why, tells): (EndCause, Why), calls: u32, written: usize) -> bool {
    let is_seated = calls > 0 && calls < 4;
    came.why == why
        && came.calls == calls
        && came.written == written as u64
        && came.left == if is_seated { 0 } else { 3 }
        && came.asked == calls.wrapping_add(1)
        && came.cause == Some(tells)
}

// The session leaves by itself, and so there are two Leaves.
#[test]
fn pieces_of_each_length(rt: HostRuntime) -> Result<(), Fail> {
    for step in 1..49usize {
        let setup = Setup { step, ..plain() };
        let (came, out) = session(rt.alloc(), CALLS, &setup)?;
        assert_eq!(rt; out.as_slice(), ANSWERS);
        assert!(rt;
            common(&came, (EndCause::Ended, Why::Ended), 4, 37),
            "{came:?}"
        );
        assert_eq!(rt; came.leaves, 2);
    }
    Ok(())
}

#[test]
fn read_fails_before_each_byte(rt: HostRuntime) -> Result<(), Fail> {
    for at in 0..49usize {
        let setup = Setup {
            fails_at: at + 1,
            ..plain()
        };
        let (came, out) = session(rt.alloc(), CALLS, &setup)?;
        let (calls, written) = answered(at);
        assert_eq!(rt; out.as_slice(), front(ANSWERS, written));
        assert!(rt;
            common(&came, (EndCause::ReadFault, Why::ReadFault), calls, written),
            "{came:?}"
        );
    }
    Ok(())
}

// A call whose answer can't be written was asked all the same, and nothing more is read: byte by byte, that is one read for each byte
// up to the end of its frame.
#[test]
fn write_fails_after_each_byte(rt: HostRuntime) -> Result<(), Fail> {
    for room in 0..37usize {
        let setup = Setup { room, ..plain() };
        let (came, out) = session(rt.alloc(), CALLS, &setup)?;
        let (calls, reads) = match room {
            0..=12 => (1, 7),
            13..=25 => (2, 30),
            26..=31 => (3, 43),
            _ => (4, 48),
        };
        assert_eq!(rt; out.as_slice(), front(ANSWERS, room));
        assert!(rt;
            common(&came, (EndCause::WriteFault, Why::WriteFault), calls, room),
            "{came:?}"
        );
        assert_eq!(rt; came.reads, reads);
    }
    Ok(())
}

// One write fails, or takes nothing, and the next would do: it is not made. A write takes two bytes, and the last of an answer the
// rest of it; so the four answers take 7, 7, 3 and 3 writes.
#[test]
fn one_write_fails(rt: HostRuntime) -> Result<(), Fail> {
    for write in 1..21usize {
        for is_silent in [false, true] {
            let setup = Setup {
                write_fails_at: write,
                is_silent,
                ..plain()
            };
            let (came, out) = session(rt.alloc(), CALLS, &setup)?;
            let (calls, written) = match write {
                1..=7 => (1, 2 * write - 2),
                8..=14 => (2, 2 * write - 3),
                15..=17 => (3, 2 * write - 4),
                _ => (4, 2 * write - 4),
            };
            assert_eq!(rt; out.as_slice(), front(ANSWERS, written));
            assert!(rt;
                common(
                    &came,
                    (EndCause::WriteFault, Why::WriteFault),
                    calls,
                    written
                ),
                "{came:?}"
            );
        }
    }
    Ok(())
}

// As many calls as may be are asked, however the bytes come.
#[test]
fn each_limit(rt: HostRuntime) -> Result<(), Fail> {
    for (limit, written) in [(0, 0), (1, 13), (2, 26), (3, 32), (4, 37)] {
        for step in [1, 48] {
            let setup = Setup {
                limit,
                step,
                ..plain()
            };
            let (came, out) = session(rt.alloc(), CALLS, &setup)?;
            assert_eq!(rt; out.as_slice(), front(ANSWERS, written));
            assert!(rt;
                common(
                    &came,
                    (EndCause::FrameLimit, Why::FrameLimit),
                    limit,
                    written
                ),
                "{came:?}"
            );
        }
    }
    Ok(())
}

// The end of the input after each byte: Ended between two frames, BadFrame inside one.
#[test]
fn ends_after_each_byte(rt: HostRuntime) -> Result<(), Fail> {
    for at in 0..49usize {
        let (came, out) = session(rt.alloc(), front(CALLS, at), &plain())?;
        let why = match at {
            0 | 7 | 30 | 43 | 48 => (EndCause::Ended, Why::Ended),
            _ => (EndCause::BadFrame, Why::BadFrame),
        };
        let (calls, written) = answered(at);
        assert_eq!(rt; out.as_slice(), front(ANSWERS, written));
        assert!(rt; common(&came, why, calls, written), "{came:?}");
    }
    Ok(())
}
