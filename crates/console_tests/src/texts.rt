// The printed texts, at a keeper that counts its calls.
use crate::full::Full;
use base_image::ZeroImage;
use bytes::Bytes;
use host_calls::{RingReply, put_ring_reply};
use host_console::{Teller, put_answer, run_keeper};
use plain::{Answer, Cause, Code, Reply, Work};
use script_line::ScriptEnd;
use sector_core::{BioResult, FailKind, Op, Range};
use std::alloc::Global;
use std::test::Fail;

const AT_FOUR: Range = Range { start: 4, count: 2 };

const AT_FIVE: Range = Range { start: 5, count: 1 };

const TAKEN: Work = Work {
    tag: 0,
    issue: 3,
    op: Op::Fetch,
    range: AT_FOUR,
};

fn accepted(reply: Reply) -> Answer {
    Answer::Accepted(reply)
}

fn issued(tag: u8, issue: u64, op: Op, range: Range) -> Answer {
    Answer::Accepted(Reply::Issued {
        tag,
        issue,
        op,
        range,
    })
}

fn completed(bio: u64, what: BioResult) -> Answer {
    Answer::Accepted(Reply::Completed { bio, result: what })
}

// The answer's text after what stands there.
fn text_after(alloc: Global, answer: &Answer) -> Result<Vec<u8>, Fail> {
    let mut out = b"> ".to_vec(alloc)?;
    put_answer(answer, &mut out)?;
    Ok(out)
}

// The first sector has zeros, and the second the letter A.
fn two_sectors(alloc: Global) -> Result<BioResult, Fail> {
    let mut read = vec![in alloc; 0u8; 512]?;
    read.extend_from_slice(&[65; 512])?;
    Ok(BioResult::Read(Bytes::from_vec(read)?))
}

// Each answer's text comes after what stands there.
#[test]
fn answers(rt: HostRuntime) -> Result<(), Fail> {
    let read = two_sectors(rt.alloc())?;
    for (answer, text) in [
        (accepted(Reply::Attached { session: 1 }), "> attached 1"),
        (
            accepted(Reply::Queued { bio: u64::MAX }),
            "> queued 18446744073709551615",
        ),
        (accepted(Reply::Left), "> left"),
        (issued(0, 7, Op::Fetch, AT_FOUR), "> issued 0 7 fetch 4 2"),
        (issued(63, 3, Op::Store, AT_FIVE), "> issued 63 3 store 5 1"),
        (
            issued(1, 5, Op::Discard, AT_FIVE),
            "> issued 1 5 discard 5 1",
        ),
        (accepted(Reply::Finished { bios: 32 }), "> finished 32"),
        (accepted(Reply::Requeued), "> requeued"),
        (accepted(Reply::Group { number: 31 }), "> group 31"),
        (accepted(Reply::Done), "> done"),
        (
            accepted(Reply::Moved {
                cursor: 11,
                length: 12,
            }),
            "> moved 11 12",
        ),
        (accepted(Reply::Taken(TAKEN)), "> taken 0 3 fetch 4 2"),
        (completed(6, read), "> completed 6 read 00 41"),
        (completed(2, BioResult::Written), "> completed 2 written"),
        (
            completed(3, BioResult::Discarded),
            "> completed 3 discarded",
        ),
        (
            completed(2, BioResult::IoError(FailKind::Short)),
            "> completed 2 error short",
        ),
        (
            completed(2, BioResult::IoError(FailKind::Fault)),
            "> completed 2 error fault",
        ),
        (Answer::Refused(Code::BadSeat), "> refused 1"),
        (Answer::Refused(Code::HistoryFull), "> refused 33"),
        (Answer::NotYet(Cause::Held), "> notyet 41"),
        (Answer::NotYet(Cause::NotCompleted), "> notyet 44"),
    ] {
        let out = text_after(rt.alloc(), &answer)?;
        assert_eq!(rt; out.as_slice(), text.as_bytes(), "{text}");
    }
    Ok(())
}

// What a seat is answered, after what stands there.
#[test]
fn replies(rt: HostRuntime) -> Result<(), Fail> {
    let attached = accepted(Reply::Attached { session: 1 });
    for (reply, text) in [
        (RingReply::Answer(attached), "> attached 1"),
        (
            RingReply::Answer(Answer::Refused(Code::BadSeat)),
            "> refused 1",
        ),
        (RingReply::Closed, "> closed"),
    ] {
        let mut out = b"> ".to_vec(rt.alloc())?;
        put_ring_reply(&reply, &mut out)?;
        assert_eq!(rt; out.as_slice(), text.as_bytes(), "{text}");
    }
    Ok(())
}

// Each form of a line, at a keeper that is held, has a full history and 8 sectors; the last line is bad.
const SCRIPT: &[u8] = b"attach 0 0 4
attach 0 0 4 rt
read 0 1 4 2
write 0 1 5 1 65
write 0 1 5 64 65
write 0 1 5 65 65
reap 0 1
leave 0
dispatch
finish 0 3 stored
finish 0 3 fill 65
finish 0 3 short
finish 0 3 fault
work 0 3
requeue 0 3
hold
release
undo 0
undo 1
redo 0
redo 4294967295
group 0 200
drop 1
weight 1 1000
freeze
thaw
switch none
switch bfq
tick
sector 7
sector 8
queue 0
queue 255
vtime 0
vtime 1
vtime 255
vtime 0 rt
vtime 0 be
vtime 1 idle
vtime 255 be
entity 0
entity 255
class 0
class 16
class 255
line
lines
";

const TEXT: &[u8] = b"notyet 41
notyet 41
notyet 41
notyet 41
notyet 41
notyet 41
notyet 41
notyet 41
notyet 41
notyet 41
notyet 41
notyet 41
notyet 41
notyet 41
notyet 41
refused 29
refused 33
refused 30
refused 31
refused 30
refused 32
notyet 41
notyet 41
notyet 41
notyet 41
notyet 41
notyet 41
notyet 41
notyet 41
sector 7 base
sector 8 none
queue none
queue none
vtime 0 7
vtime 1 none
vtime 255 none
vtime 0 rt 7
vtime 0 be 7
vtime 1 idle none
vtime 255 be none
entity 0 none
entity 255 none
class 0 none
class 16 none
class 255 none
line 0 0 0
bad line 47
";

// How the run of these lines ends, what it writes, and how many calls the keeper got.
fn run(alloc: Global) -> (ScriptEnd, Vec<u8>, u64) {
    let mut teller = Teller {
        keeper: Full {
            sectors: 8,
            calls: 0,
        },
        image: ZeroImage::new(8),
        payload: None,
    };
    let mut written = Vec::new(alloc);
    let mut script = SCRIPT;
    let end = run_keeper(alloc, &mut script, &mut written, &mut teller);
    (end, written, teller.keeper.calls)
}

#[test]
fn each_line_prints_one(rt: HostRuntime) {
    let (end, written, calls) = run(rt.alloc());
    assert_eq!(rt; written.as_slice(), TEXT);
    assert_eq!(rt; (end, calls), (ScriptEnd::BadLine(47), 29));
}
