// Sessions of a few bytes, and what comes of each.
use crate::run::{LIMIT, Setup, front, plain, session};
use plain::Why;
use session_proto::EndCause;
use std::test::Fail;

// The frame of an Attach in the root, of priority 4.
const ATTACH: &[u8] = &[0, 0, 0, 3, 1, 0, 4];

// The same, and a length of 0 behind it.
const ATTACH_AND_FAULT: &[u8] = &[0, 0, 0, 3, 1, 0, 4, 0, 0, 0, 0];

// The frame of Attached 1.
const ATTACHED: &[u8] = &[0, 0, 0, 9, 0x81, 0, 0, 0, 0, 0, 0, 0, 1];

// The Attach, and a discard of sectors 4 and 5 by session 1.
const OF_ONE: &[u8] = &[
    0, 0, 0, 3, 1, 0, 4, //
    0, 0, 0, 19, 6, 0, 0, 0, 0, 0, 0, 0, 1, 0, 0, 0, 0, 0, 0, 0, 4, 0, 2,
];

// The same behind the frame that says version 2.
const OF_TWO: &[u8] = &[
    0, 0, 0, 2, 7, 2, //
    0, 0, 0, 3, 1, 0, 4, //
    0, 0, 0, 19, 6, 0, 0, 0, 0, 0, 0, 0, 1, 0, 0, 0, 0, 0, 0, 0, 4, 0, 2,
];

// Attached 1, and Queued 2.
const ANSWERS: &[u8] = &[
    0, 0, 0, 9, 0x81, 0, 0, 0, 0, 0, 0, 0, 1, //
    0, 0, 0, 9, 0x82, 0, 0, 0, 0, 0, 0, 0, 2,
];

// Each row: what comes, and how many frames may be answered; why it ends, and what its Leave tells; how many calls were asked, what
// is written, the answer of the Leave, and how many calls the keeper accepted. The bytes come one by one, and in greater pieces.
// Of the bad ones: a length above the greatest, a kind of the operator, a body too short, and frames that break off.
#[test]
fn what_comes_of_bytes(rt: HostRuntime) -> Result<(), Fail> {
    let none = [].as_slice();
    let (ended, bad, limited) = (EndCause::Ended, EndCause::BadFrame, EndCause::FrameLimit);
    for (bytes, limit, (why, tells), calls, out, left, accepted) in [
        (ATTACH, LIMIT, (ended, Why::Ended), 1, ATTACHED, 0, 2),
        (
            ATTACH_AND_FAULT,
            LIMIT,
            (bad, Why::BadFrame),
            1,
            ATTACHED,
            0,
            2,
        ),
        (none, LIMIT, (ended, Why::Ended), 0, none, 3, 0),
        (
            [0, 0, 128, 20].as_slice(),
            LIMIT,
            (bad, Why::BadFrame),
            0,
            none,
            3,
            0,
        ),
        (
            [0, 0, 0, 1, 20].as_slice(),
            LIMIT,
            (bad, Why::BadFrame),
            0,
            none,
            3,
            0,
        ),
        (
            [0, 0, 0, 2, 5, 0].as_slice(),
            LIMIT,
            (bad, Why::BadFrame),
            0,
            none,
            3,
            0,
        ),
        (
            [0, 0, 0].as_slice(),
            LIMIT,
            (bad, Why::BadFrame),
            0,
            none,
            3,
            0,
        ),
        (
            [0, 0, 2].as_slice(),
            LIMIT,
            (bad, Why::BadFrame),
            0,
            none,
            3,
            0,
        ),
        (
            [0, 0, 128].as_slice(),
            LIMIT,
            (bad, Why::BadFrame),
            0,
            none,
            3,
            0,
        ),
        (ATTACH, 1, (limited, Why::FrameLimit), 1, ATTACHED, 0, 2),
        (
            ATTACH_AND_FAULT,
            1,
            (limited, Why::FrameLimit),
            1,
            ATTACHED,
            0,
            2,
        ),
        (ATTACH, 0, (limited, Why::FrameLimit), 0, none, 3, 0),
    ] {
        for step in [1, 4, 7, 8, 4096] {
            let setup = Setup {
                step,
                limit,
                ..plain()
            };
            let (came, written) = session(rt.alloc(), bytes, &setup)?;
            assert_eq!(rt; written.as_slice(), out);
            assert_eq!(rt; came.written, out.len() as u64);
            assert_eq!(rt;
                (came.why, came.calls, came.left, came.accepted),
                (why, calls, left, accepted)
            );
            assert_eq!(rt;
                (came.leaves, came.cause, came.asked),
                (1, Some(tells), calls + 1)
            );
        }
    }
    Ok(())
}

// Each row: what comes, and how many frames may be answered; why it ends, and what its Leave tells; how many calls were asked, how
// much is written, the answer of the Leave, and how many calls the keeper accepted. The frame that says the version is no call, and
// the limit does not count it.
#[test]
fn what_comes_of_two_versions(rt: HostRuntime) -> Result<(), Fail> {
    let (ended, bad, limited) = (EndCause::Ended, EndCause::BadFrame, EndCause::FrameLimit);
    for (bytes, limit, (why, tells), calls, written, left, accepted) in [
        (OF_TWO, LIMIT, (ended, Why::Ended), 2, 26, 0, 3),
        (OF_ONE, LIMIT, (bad, Why::BadFrame), 1, 13, 0, 2),
        (OF_TWO, 2, (limited, Why::FrameLimit), 2, 26, 0, 3),
        (OF_TWO, 1, (limited, Why::FrameLimit), 1, 13, 0, 2),
        (OF_TWO, 0, (limited, Why::FrameLimit), 0, 0, 3, 0),
        (front(OF_TWO, 6), LIMIT, (ended, Why::Ended), 0, 0, 3, 0),
        (front(OF_TWO, 5), LIMIT, (bad, Why::BadFrame), 0, 0, 3, 0),
        (front(OF_TWO, 9), LIMIT, (bad, Why::BadFrame), 0, 0, 3, 0),
    ] {
        for step in [1, 4, 6, 7, 4096] {
            let setup = Setup {
                step,
                limit,
                ..plain()
            };
            let (came, out) = session(rt.alloc(), bytes, &setup)?;
            assert_eq!(rt; out.as_slice(), front(ANSWERS, written));
            assert_eq!(rt;
                (came.why, came.calls, came.left, came.accepted),
                (why, calls, left, accepted)
            );
            assert_eq!(rt;
                (came.leaves, came.cause, came.asked),
                (1, Some(tells), calls + 1)
            );
        }
    }
    Ok(())
}

// Each row: what comes, and how much is written, the answer of the Leave, and how many calls the keeper accepted. All end with a bad
// frame but the last two, which attach by a class in version 2.
#[test]
fn what_says_a_version(rt: HostRuntime) -> Result<(), Fail> {
    let (ended, bad) = (EndCause::Ended, EndCause::BadFrame);
    for (bytes, why, written, left, accepted) in [
        ([0, 0, 0, 1, 7].as_slice(), bad, 0, 3, 0),
        ([0, 0, 0, 2, 7, 1].as_slice(), bad, 0, 3, 0),
        ([0, 0, 0, 3, 7, 2, 0].as_slice(), bad, 0, 3, 0),
        ([0, 0, 0, 4, 8, 0, 7, 1].as_slice(), bad, 0, 3, 0),
        (
            [0, 0, 0, 3, 1, 0, 4, 0, 0, 0, 2, 7, 2].as_slice(),
            bad,
            13,
            0,
            2,
        ),
        (
            [0, 0, 0, 2, 7, 2, 0, 0, 0, 2, 7, 2].as_slice(),
            bad,
            0,
            3,
            0,
        ),
        (
            [0, 0, 0, 2, 7, 2, 0, 0, 0, 4, 8, 0, 4, 2].as_slice(),
            bad,
            0,
            3,
            0,
        ),
        (
            [0, 0, 0, 2, 7, 2, 0, 0, 0, 4, 8, 0, 7, 1].as_slice(),
            ended,
            13,
            0,
            2,
        ),
        (
            [0, 0, 0, 2, 7, 2, 0, 0, 0, 4, 8, 0, 4, 3].as_slice(),
            ended,
            13,
            0,
            2,
        ),
    ] {
        for step in [1, 4, 6, 4096] {
            let setup = Setup { step, ..plain() };
            let (came, out) = session(rt.alloc(), bytes, &setup)?;
            assert_eq!(rt; out.as_slice(), front(ATTACHED, written));
            assert_eq!(rt;
                (came.why, came.left, came.accepted, came.leaves),
                (why, left, accepted, 1)
            );
        }
    }
    Ok(())
}

// Nothing is read where no frame may be answered, and no byte more once as many were; nor once a fault has come.
#[test]
fn reads_no_further(rt: HostRuntime) -> Result<(), Fail> {
    for (limit, step, reads) in [
        (0, 1, 0),
        (1, 1, 7),
        (2, 1, 11),
        (1, 7, 1),
        (2, 7, 2),
        (2, 11, 1),
        (1, 13, 1),
    ] {
        let setup = Setup {
            limit,
            step,
            ..plain()
        };
        let (came, _) = session(rt.alloc(), &[0, 0, 0, 3, 1, 0, 4, 0, 0, 0, 0, 0, 0], &setup)?;
        assert_eq!(rt; came.reads, reads);
    }
    Ok(())
}

// Each row: how much the writer takes, and whether it then takes nothing. The session is gone, whatever its client got to know.
#[test]
fn writes_that_fail(rt: HostRuntime) -> Result<(), Fail> {
    for (room, is_silent, out) in [
        (3, false, [0, 0, 0].as_slice()),
        (0, false, [].as_slice()),
        (0, true, [].as_slice()),
        (3, true, [0, 0, 0].as_slice()),
    ] {
        let setup = Setup {
            room,
            is_silent,
            ..plain()
        };
        let (came, written) = session(rt.alloc(), ATTACH, &setup)?;
        assert_eq!(rt; written.as_slice(), out);
        assert_eq!(rt; came.written, out.len() as u64);
        assert_eq!(rt;
            (came.why, came.calls, came.left, came.accepted),
            (EndCause::WriteFault, 1, 0, 2)
        );
        assert_eq!(rt;
            (came.leaves, came.cause, came.asked),
            (1, Some(Why::WriteFault), 2)
        );
    }
    Ok(())
}

// Each row: whether a session sits at the seat, whether the host is held, how many calls its history holds, and the call that finds
// it ended; what is written, why the session ends, the answer of the Leave, the Leaves asked and the calls accepted. Refused 2 is
// SeatTaken, 33 HistoryFull, NotYet 41 Held: where the Leave is not accepted the session stands.
#[test]
fn seats_and_hosts(rt: HostRuntime) -> Result<(), Fail> {
    for (is_seated, is_held, history, closes_at, out, why, left, leaves, accepted) in [
        (
            true,
            false,
            9,
            0,
            [0, 0, 0, 2, 0xe0, 2].as_slice(),
            EndCause::Ended,
            0,
            1,
            2,
        ),
        (
            true,
            true,
            9,
            0,
            [0, 0, 0, 2, 0xe1, 41].as_slice(),
            EndCause::Ended,
            41,
            1,
            2,
        ),
        (
            false,
            true,
            9,
            0,
            [0, 0, 0, 2, 0xe1, 41].as_slice(),
            EndCause::Ended,
            41,
            1,
            1,
        ),
        (false, false, 1, 0, ATTACHED, EndCause::Ended, 33, 1, 1),
        (
            false,
            false,
            9,
            1,
            [].as_slice(),
            EndCause::Closed,
            99,
            0,
            0,
        ),
        (false, false, 9, 2, ATTACHED, EndCause::Ended, 99, 1, 1),
    ] {
        let setup = Setup {
            is_seated,
            is_held,
            history,
            closes_at,
            ..plain()
        };
        let (came, written) = session(rt.alloc(), ATTACH, &setup)?;
        assert_eq!(rt; written.as_slice(), out);
        assert_eq!(rt; (came.why, came.calls, came.left), (why, 1, left));
        assert_eq!(rt; (came.leaves, came.accepted), (leaves, accepted));
        assert_eq!(rt; (came.written, came.asked), (out.len() as u64, leaves + 1));
    }
    Ok(())
}
