// A line played: its call is staged, the core takes a turn, and what came is collected.
use crate::seated::{Host, stage};
use host_calls::{RingReply, SeatName, put_ring_reply};
use host_rings::TurnReport;
use plain::{Answer, Reply};
use std::alloc::{AllocError, Global};

/// Plays a line. Gives the line that is printed.
pub fn played(alloc: Global, host: &mut Host, text: &[u8]) -> Result<String, AllocError> {
    let mut out = Vec::new(alloc);
    if let Some(call) = text.strip_prefix(b"stage ") {
        let word: &[u8] = if stage(alloc, host, call)? {
            b"staged"
        } else {
            b"full"
        };
        out.extend_from_slice(word)?;
        return text_of(out);
    }
    if !stage(alloc, host, text)? {
        out.extend_from_slice(b"full ")?;
    }
    let report = host.core.turn(alloc);
    tell(alloc, &mut out, report)?;
    let mut before: &[u8] = b": ";
    for reply in collected(alloc, host)? {
        note_work(host, &reply);
        out.extend_from_slice(before)?;
        put_reply(&mut out, &reply)?;
        before = b"; ";
    }
    text_of(out)
}

fn text_of(out: Vec<u8>) -> Result<String, AllocError> {
    match String::from_utf8(out) {
        Ok(line) => Ok(line),
        Err(_) => Err(AllocError),
    }
}

// A reply of each seat that plays, if there is one: of the clients, of the devices, of the operator.
fn collected(alloc: Global, host: &mut Host) -> Result<Vec<RingReply>, AllocError> {
    let mut replies = Vec::new(alloc);
    for (caller, plays) in host.callers.iter_mut().zip(host.callers_play) {
        if plays {
            note(&mut replies, caller.collect())?;
        }
    }
    for (device, plays) in host.devices.iter_mut().zip(host.devices_play) {
        if plays {
            note(&mut replies, device.collect())?;
        }
    }
    note(&mut replies, host.operator.collect())?;
    Ok(replies)
}

fn note(replies: &mut Vec<RingReply>, reply: Option<RingReply>) -> Result<(), AllocError> {
    match reply {
        Some(reply) => Ok(replies.push(reply)?),
        None => Ok(()),
    }
}

// Notes how many sectors the work has that a device has taken.
fn note_work(host: &mut Host, reply: &RingReply) {
    if let RingReply::Answer(Answer::Accepted(Reply::Taken(work))) = reply {
        host.sectors = work.range.count;
    }
}

fn put_reply(out: &mut Vec<u8>, reply: &RingReply) -> Result<(), AllocError> {
    match put_ring_reply(reply, out) {
        Ok(()) => Ok(()),
        Err(_) => Err(AllocError),
    }
}

// Whom a turn answered, whether it dispatched, and whether the core has ended.
fn tell(alloc: Global, out: &mut Vec<u8>, report: TurnReport) -> Result<(), AllocError> {
    out.extend_from_slice(whom(alloc, report.answered)?.as_bytes())?;
    if report.dispatched {
        out.extend_from_slice(b" dispatched")?;
    }
    if report.ended {
        out.extend_from_slice(b" ended")?;
    }
    Ok(())
}

fn whom(alloc: Global, answered: Option<SeatName>) -> Result<String, AllocError> {
    match answered {
        None => format!(in alloc; "nobody"),
        Some(SeatName::Client(number)) => format!(in alloc; "client {number}"),
        Some(SeatName::Device(number)) => format!(in alloc; "device {number}"),
        Some(SeatName::Operator) => format!(in alloc; "operator"),
        Some(SeatName::Core) => format!(in alloc; "core"),
    }
}
