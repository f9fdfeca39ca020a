// Calls of the operator, asked over memory. The bytes are those of the frames in docs/FORMATS.md.
use super::told::bytes_of;
use failing_io::{Narrow, Pieces};
use host_calls::{OperatorCall, put_ring_reply};
use operator_asking::{AskFault, CallEnd, ask_host, run_call, status};
use std::alloc::Global;
use std::test::Fail;

// Undo 2, and Moved 3 of 5.
const UNDO: &[u8] = &[0, 0, 0, 5, 0x1a, 0, 0, 0, 2];

const MOVED: &[u8] = &[0, 0, 0, 9, 0x93, 0, 0, 0, 3, 0, 0, 0, 5];

const CALL: OperatorCall = OperatorCall::Undo { k: 2 };

// Gives the bytes one by one; the read `fails_at`, counted from 1, fails.
fn reader(bytes: &[u8], fails_at: usize) -> Pieces<'_> {
    Pieces {
        bytes,
        step: 1,
        calls: 0,
        fails_at,
    }
}

// What is told of the answer to Undo 2, what was written, and how much of it was flushed.
fn undone(alloc: Global) -> Result<(Vec<u8>, Vec<u8>, usize), Fail> {
    let mut to = Narrow::new(alloc, 4096);
    let mut text = Vec::new(alloc);
    let Ok(reply) = ask_host(alloc, &mut reader(MOVED, 0), &mut to, CALL) else {
        return Err(Fail::from("a reply"));
    };
    put_ring_reply(&reply, &mut text)?;
    Ok((text, to.taken, to.flushed))
}

#[test]
fn undo_is_answered(rt: HostRuntime) -> Result<(), Fail> {
    let (text, written, flushed) = undone(rt.alloc())?;
    assert_eq!(rt;
        (text.as_slice(), written.as_slice(), flushed),
        (b"moved 3 5".as_slice(), UNDO, UNDO.len())
    );
    Ok(())
}

// The fault of the call where a read or a write fails, or none where it is answered.
fn fault(alloc: Global, bytes: &[u8], fails_at: usize, room: usize) -> Option<AskFault> {
    let mut from = reader(bytes, fails_at);
    ask_host(alloc, &mut from, &mut Narrow::new(alloc, room), CALL).err()
}

#[test]
fn fails_at_each_byte(rt: HostRuntime) {
    let alloc = rt.alloc();
    for room in 0..9usize {
        assert_eq!(rt;
            fault(alloc, MOVED, 0, room),
            Some(AskFault::Socket),
            "room for {room}"
        );
    }
    for at in 1..14usize {
        assert_eq!(rt;
            fault(alloc, MOVED, at, 9),
            Some(AskFault::Socket),
            "read {at}"
        );
    }
    for at in 0..13usize {
        let (front, _) = MOVED.split_at(at);
        assert_eq!(rt;
            fault(alloc, front, 0, 9),
            Some(AskFault::Frame),
            "an end after {at}"
        );
    }
    assert_eq!(rt; fault(alloc, MOVED, 0, 9), None);
}

// How the run of a call ends, and what it printed into so much room.
fn run(alloc: Global, bytes: &[u8], call: OperatorCall, room: usize) -> (CallEnd, Vec<u8>) {
    let mut output = Narrow::new(alloc, room);
    let end = run_call(
        alloc,
        &mut reader(bytes, 0),
        &mut Narrow::new(alloc, 9),
        &mut output,
        call,
    );
    (end, output.taken)
}

// The operator's call, U for Undo 2 and S for Stop; the bytes that are read; and the end, its status and what is printed, where / ends
// a line.
const ENDS: &str = "\
U|00000009 93 00000003 00000005|Done 0 moved 3 5/
U|00000002 e0 14|Refused 1 refused 20/
U|00000002 e1 29|Refused 1 notyet 41/
U|00000001 9f|Refused 1 closed/
S|00000001 9f|Done 0 closed/
S|00000001 92|Done 0 done/
S|00000002 e0 22|Refused 1 refused 34/
U|00000001 14|Frame 3 
U|000000|Frame 3 ";

// Whether a call ends as its line says.
fn ends_so(alloc: Global, line: &str) -> Result<bool, Fail> {
    let mut fields = line.split('|');
    let (Some(asked), Some(bytes), Some(wanted)) = (fields.next(), fields.next(), fields.next())
    else {
        return Ok(false);
    };
    let call = if asked == "U" {
        CALL
    } else {
        OperatorCall::Stop
    };
    let (end, printed) = run(alloc, &bytes_of(alloc, bytes)?, call, 4096);
    let mut told = format!(in alloc; "{end:?} {} ", status(end))?;
    for byte in printed {
        told.push(if byte == b'\n' { '/' } else { byte as char })?;
    }
    Ok(told.as_str() == wanted)
}

#[test]
fn ends_by_what_was_answered(rt: HostRuntime) -> Result<(), Fail> {
    for line in ENDS.lines() {
        assert!(rt; ends_so(rt.alloc(), line)?, "{line}");
    }
    Ok(())
}

#[test]
fn print_that_fails_at_each_byte(rt: HostRuntime) {
    for room in 0..10usize {
        let (ended, printed) = run(rt.alloc(), MOVED, CALL, room);
        assert_eq!(rt; ended, CallEnd::WriteFault);
        assert_eq!(rt; printed.len(), room);
    }
    assert_eq!(rt; status(CallEnd::WriteFault), 4);
    assert_eq!(rt; status(CallEnd::Socket), 3);
    assert_eq!(rt; status(CallEnd::OutOfMemory), 5);
}
