// Calls asked over memory, of an example of a side.

use crate::letter::Letter;
use failing_io::{Narrow, Pieces};
use operator_asking::{AskFault, ask};
use std::alloc::Global;
use std::test::Fail;

// What is written for the call 5.
const CALL: &[u8] = &[0, 0, 0, 1, 5];

// The answer 7.
const ANSWER: &[u8] = &[0, 0, 0, 1, 7];

const SOCKET: Result<Letter, AskFault> = Err(AskFault::Socket);

const FRAME: Result<Letter, AskFault> = Err(AskFault::Frame);

// Asks the call 5. Gives what is answered, and how many reads were made.
fn asked(
    alloc: Global,
    mut reader: Pieces<'_>,
    mut writer: Narrow,
) -> (Result<Letter, AskFault>, usize) {
    let answer = ask(alloc, &mut reader, &mut writer, &Letter(5));
    (answer, reader.calls)
}

#[test]
fn example_of_the_page(rt: HostRuntime) {
    let alloc = rt.alloc();
    let mut reader = ANSWER;
    let mut writer = Narrow::new(alloc, 5);
    let answer: Result<Letter, AskFault> = ask(alloc, &mut reader, &mut writer, &Letter(5));
    assert_eq!(rt; answer, Ok(Letter(7)));
    assert_eq!(rt; (writer.taken.as_slice(), writer.flushed), (CALL, 5));
}

// A frame is 32,791 bytes at most; what comes behind the first one is not looked at, be it a frame or a fault.
#[test]
fn first_frame_is_the_reply(rt: HostRuntime) {
    let alloc = rt.alloc();
    for (come, answer) in [
        ([0, 0, 0, 1, 7, 0, 0, 0, 1, 8].as_slice(), Ok(Letter(7))),
        ([0, 0, 0, 1, 7, 0, 0, 0, 0].as_slice(), Ok(Letter(7))),
        ([0, 0, 0, 0, 7].as_slice(), FRAME),
        ([0, 0, 0, 2, 7, 7].as_slice(), FRAME),
        ([0, 0, 128, 20].as_slice(), FRAME),
        ([].as_slice(), FRAME),
    ] {
        for step in 1..11 {
            let (got, _) = asked(alloc, Pieces::of(come, step), Narrow::new(alloc, 5));
            assert_eq!(rt; got, answer, "{come:?} by {step}");
        }
    }
}

// Byte by byte no read is made after the frame, which has 5 bytes.
#[test]
fn reads_no_further(rt: HostRuntime) {
    let alloc = rt.alloc();
    let reader = Pieces::of(&[0, 0, 0, 1, 7, 0, 0, 0, 1, 8], 1);
    let got = asked(alloc, reader, Narrow::new(alloc, 5));
    assert_eq!(rt; got, (Ok(Letter(7)), 5));
}

// Nothing is read where a write fails, with an error or by taking nothing.
#[test]
fn writes_that_fail(rt: HostRuntime) {
    let alloc = rt.alloc();
    for at in 0..5usize {
        for is_silent in [false, true] {
            let mut writer = Narrow::new(alloc, at);
            writer.is_silent = is_silent;
            let got = asked(alloc, Pieces::of(ANSWER, 1), writer);
            assert_eq!(rt; got, (SOCKET, 0), "room for {at}");
        }
    }
}

// A read that fails at each byte, and an end before each byte.
#[test]
fn reads_that_fail(rt: HostRuntime) {
    let alloc = rt.alloc();
    for at in 0..5usize {
        let mut reader = Pieces::of(ANSWER, 1);
        reader.fails_at = at + 1;
        let (got, _) = asked(alloc, reader, Narrow::new(alloc, 5));
        assert_eq!(rt; got, SOCKET, "read {at}");
        let (front, _) = ANSWER.split_at(at);
        let (got, _) = asked(alloc, Pieces::of(front, 1), Narrow::new(alloc, 5));
        assert_eq!(rt; got, FRAME, "an end after {at}");
    }
}

#[test]
fn flush_that_fails(rt: HostRuntime) {
    let alloc = rt.alloc();
    let mut writer = Narrow::new(alloc, 5);
    writer.is_stuck = true;
    let got = asked(alloc, Pieces::of(ANSWER, 5), writer);
    assert_eq!(rt; got, (SOCKET, 0));
}

#[test]
fn faults_in_words(rt: HostRuntime) -> Result<(), Fail> {
    for (fault, text) in [
        (AskFault::Socket, "the connection failed"),
        (AskFault::Frame, "no frame of a reply came"),
        (AskFault::OutOfMemory, "out of memory"),
    ] {
        let shown = format!(in rt.alloc(); "{fault}")?;
        assert_eq!(rt; shown.as_str(), text);
    }
    Ok(())
}
