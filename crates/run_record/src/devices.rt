// The entries of devices.
ghost use Rattle.std.specs.Prelude.{◌≡◌, ℕ, ◌≤◌, ◌++◌, List, length, OnOk};
ghost use Rattle.session_proto.specs.Reading.{Gives};
ghost use Rattle.session_proto.specs.Fields.{Reads};
ghost use Rattle.session_proto.specs.Kinds.{read_by};
ghost use Rattle.session_proto.specs.Host.{fail_number, fail_of_number};
ghost use Rattle.run_record.specs.Entry.{OutcomeFits, flight_bytes, finish_body, flight_at, stored_at, fetched_at, failed_at, requeue_at, device_kinds};

use crate::entry::Entry;
use bytes::Bytes;
use sector_core::{FailKind, Outcome};
use session_proto::fields::{BAD_BODY, ended, named, put_u8, put_u64, u8_of, u64_of};
use session_proto::{Fault, ReadError};
use std::alloc::{AllocError, Global};

// The bytes of 256 sectors, the most that a request has.
const MOST_BYTES: usize = 131_072;

/// Appends what a device said of a request.
pub fn put_finish(
    out: &mut Vec<u8>,
    tag: u8,
    issue: u64,
    outcome: &Outcome,
) -> Result<(), AllocError>
    ensures { OnOk result (out.new.items ≡ out.old.items ++ finish_body tag issue outcome.now) }
{
    match outcome {
        Outcome::Stored => {
            out.push(0x21)?;
            put_flight(out, tag, issue)
        }
        Outcome::Fetched(bytes) => {
            out.push(0x22)?;
            put_flight(out, tag, issue)?;
            out.extend_from_slice(bytes)
        }
        Outcome::Failed(kind) => {
            out.push(0x23)?;
            put_flight(out, tag, issue)?;
            put_u8(out, number_of(*kind))
        }
    }
}

/// Appends a tag and an issue.
#[tactic(auto, unfolding(crate::specs::Entry::flight_bytes))]
pub fn put_flight(out: &mut Vec<u8>, tag: u8, issue: u64) -> Result<(), AllocError>
    ensures { OnOk result (out.new.items ≡ out.old.items ++ flight_bytes tag issue) }
{
    put_u8(out, tag)?;
    put_u64(out, issue)
}

/// The entry of the device of a number, by the bytes of its call.
pub fn device_entry(alloc: Global, worker: u8, body: &[u8]) -> Result<Entry, ReadError>
    ensures { Gives result (read_by (device_kinds worker) body.now) }
{
    let Some((kind, fields)) = body.split_first() else {
        return Err(ReadError::Fault(Fault::BadKind));
    };
    match *kind {
        0x21 => stored_of(worker, fields),
        0x22 => fetched_of(alloc, worker, fields),
        0x23 => failed_of(worker, fields),
        0x24 => requeue_of(worker, fields),
        _ => Err(ReadError::Fault(Fault::BadKind)),
    }
}

// A tag and an issue, and what follows them.
#[tactic(auto, unfolding(crate::specs::Entry::flight_at))]
fn flight_of(fields: &[u8]) -> Result<(u8, u64, &[u8]), ReadError>
    ensures { Reads (λ x. (x.0, x.1, x.2.now)) result (flight_at fields.now) }
{
    let (tag, fields) = u8_of(fields)?;
    let (issue, fields) = u64_of(fields)?;
    Ok((tag, issue, fields))
}

#[tactic(auto, unfolding(crate::specs::Entry::stored_at))]
fn stored_of(worker: u8, fields: &[u8]) -> Result<Entry, ReadError>
    ensures { Gives result (stored_at worker fields.now) }
{
    let (tag, issue, fields) = flight_of(fields)?;
    let outcome = Outcome::Stored;
    let entry = Entry::Finish {
        worker,
        tag,
        issue,
        outcome,
    };
    ended(entry, fields)
}

#[tactic(auto, unfolding(crate::specs::Entry::fetched_at))]
fn fetched_of(alloc: Global, worker: u8, fields: &[u8]) -> Result<Entry, ReadError>
    ensures { Gives result (fetched_at worker fields.now) }
{
    let (tag, issue, bytes) = flight_of(fields)?;
    if bytes.len() > MOST_BYTES {
        return Err(BAD_BODY);
    }
    let outcome = Outcome::Fetched(Bytes::copy_from_slice(alloc, bytes)?);
    Ok(Entry::Finish {
        worker,
        tag,
        issue,
        outcome,
    })
}

#[tactic(auto, unfolding(crate::specs::Entry::failed_at))]
fn failed_of(worker: u8, fields: &[u8]) -> Result<Entry, ReadError>
    ensures { Gives result (failed_at worker fields.now) }
{
    let (tag, issue, fields) = flight_of(fields)?;
    let (number, fields) = u8_of(fields)?;
    let kind = named(fail_of(number))?;
    let outcome = Outcome::Failed(kind);
    let entry = Entry::Finish {
        worker,
        tag,
        issue,
        outcome,
    };
    ended(entry, fields)
}

#[tactic(auto, unfolding(crate::specs::Entry::requeue_at))]
fn requeue_of(worker: u8, fields: &[u8]) -> Result<Entry, ReadError>
    ensures { Gives result (requeue_at worker fields.now) }
{
    let (tag, issue, fields) = flight_of(fields)?;
    ended(Entry::Requeue { worker, tag, issue }, fields)
}

fn number_of(kind: FailKind) -> u8
    ensures { result ≡ fail_number kind }
{
    match kind {
        FailKind::Short => 1,
        FailKind::Fault => 2,
    }
}

#[tactic(auto, unfolding(session_proto::specs::Host::fail_of_number))]
fn fail_of(number: u8) -> Option<FailKind>
    ensures { result ≡ fail_of_number number }
{
    match number {
        1 => Some(FailKind::Short),
        2 => Some(FailKind::Fault),
        _ => None,
    }
}
