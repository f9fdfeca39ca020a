// Calls and names as text.

use checksum::{crc32, put_sum};
use host_calls::SeatName;
use plain::{Call, Step};
use script_host::put_step;
use sector_core::{Op, Outcome, Range};
use std::io::{self, Write};

/// Appends a call as a line of a script. For bytes that are not all alike, which no line can spell, it appends how many they are and
/// their sum in hexadecimal. It fails only for want of memory.
pub fn put_call(call: &Call, out: &mut Vec<u8>) -> io::Result<()> {
    match call {
        Call::Do(step) => put_step_with_sum(step, out),
        Call::Hold => write!(out, "hold"),
        Call::Release => write!(out, "release"),
        Call::Undo { k } => write!(out, "undo {k}"),
        Call::Redo { k } => write!(out, "redo {k}"),
    }
}

// Appends a step.
fn put_step_with_sum(step: &Step, out: &mut Vec<u8>) -> io::Result<()> {
    match step {
        Step::Submit {
            seat,
            session,
            op: Op::Store,
            range: Range { start, count },
            payload,
        } if !are_alike(payload.as_slice()) => {
            write!(out, "write {seat} {session} {start} {count} ")?;
            put_bytes(payload.as_slice(), out)
        }
        Step::Finish {
            tag,
            issue,
            outcome: Outcome::Fetched(bytes),
        } if !are_alike(bytes.as_slice()) => {
            write!(out, "finish {tag} {issue} fill ")?;
            put_bytes(bytes.as_slice(), out)
        }
        _ => put_step(step, out),
    }
}

// How many bytes they are, and their sum.
fn put_bytes(bytes: &[u8], out: &mut Vec<u8>) -> io::Result<()> {
    let count = bytes.len();
    write!(out, "<{count} bytes, crc32 ")?;
    put_sum(crc32(bytes), out)?;
    write!(out, ">")
}

// Whether all bytes are the same one.
fn are_alike(bytes: &[u8]) -> bool {
    match bytes.split_first() {
        Some((first, others)) => others.iter().all(|byte: &u8| *byte == *first),
        None => true,
    }
}

/// Appends the name of a seat. It fails only for want of memory.
pub fn put_name(name: SeatName, out: &mut Vec<u8>) -> io::Result<()> {
    match name {
        SeatName::Client(seat) => write!(out, "client{seat}"),
        SeatName::Device(worker) => write!(out, "device{worker}"),
        SeatName::Operator => write!(out, "operator"),
        SeatName::Core => write!(out, "core"),
    }
}
