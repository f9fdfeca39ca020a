// An entry of a record.
ghost use Rattle.std.specs.Prelude.{◌≡◌, ◌<◌, ◌++◌, OnOk};
ghost use Rattle.std.proofs.Common.{rules};
ghost use Rattle.session_proto.specs.Reading.{Gives};
ghost use Rattle.run_record.specs.Entry.{entry_body, who_number, call_body, EntryFits, CallFits, WhoFits, entry_at, entry_of_who, operator_entry_at, is_stop, core_kinds};
ghost use Rattle.session_proto.specs.Kinds.{read_by};
ghost use Rattle.run_record.specs.EntryLaws.{entry_in_limits, entry_again, entry_spelled};

use crate::devices::{device_entry, put_finish, put_flight};
use crate::seats::{put_leave, seat_entry};
use host_calls::OperatorCall;
use plain::Why;
use sector_core::Outcome;
use session_proto::fields::{BAD_BODY, ended};
use session_proto::{Client, Fault, Operator, ReadError, Side, Version};
use std::alloc::{AllocError, Global};

/// An entry of a record: an accepted call, and whose it is. Of the host's journal each entry has one spelling, and so one of these.
#[derive(Drop)]
pub enum Entry {
    /// A client's call that has a frame on its socket, in version 2.
    Client {
        /// Its seat, 0 to 15.
        seat: u8,
        /// The call.
        call: Client,
    },
    /// A Leave for another cause than that the client has ended.
    Leave {
        /// The client's seat, 0 to 15.
        seat: u8,
        /// The cause.
        why: Why,
    },
    /// A device's Finish.
    Finish {
        /// The device's number, 0 to 3.
        worker: u8,
        /// The tag.
        tag: u8,
        /// The issue.
        issue: u64,
        /// What the device said.
        outcome: Outcome,
    },
    /// A device's Requeue.
    Requeue {
        /// The device's number, 0 to 3.
        worker: u8,
        /// The tag.
        tag: u8,
        /// The issue.
        issue: u64,
    },
    /// A call of the operator, but for Stop.
    Operator(Operator),
    /// A Dispatch of the host's core.
    Dispatch,
}

impl Side for Entry {
    ghost MOST = { 131083 };

    ghost body = { entry_body };

    ghost fits = { λ _. EntryFits };

    ghost body_at = { λ _. entry_at };

    ghost few = { Prim.search rules };

    ghost in_limits = { λ _. entry_in_limits };

    ghost again = { λ _. entry_again };

    ghost spelled = { λ _. entry_spelled };

    // That of a Finish with the bytes of 256 sectors.
    const MOST: u32 = 131_083;

    fn put_body(&self, _version: Version, out: &mut Vec<u8>) -> Result<(), AllocError> {
        out.push(who_of(self))?;
        put_call(out, self)
    }

    fn read_body(alloc: Global, _version: Version, bytes: &[u8]) -> Result<Entry, ReadError> {
        let Some((who, body)) = bytes.split_first() else {
            return Err(ReadError::Fault(Fault::BadKind));
        };
        entry_of(alloc, *who, body)
    }
}

// Whose it is, as a number.
fn who_of(entry: &Entry) -> u8
    requires { WhoFits entry.now }
    ensures { result ≡ who_number entry.now }
{
    match entry {
        Entry::Client { seat, .. } => *seat,
        Entry::Leave { seat, .. } => *seat,
        Entry::Finish { worker, .. } => 0x40 + *worker,
        Entry::Requeue { worker, .. } => 0x40 + *worker,
        Entry::Operator(_) => 0x80,
        Entry::Dispatch => 0xc0,
    }
}

// Appends the call of an entry.
fn put_call(out: &mut Vec<u8>, entry: &Entry) -> Result<(), AllocError>
    requires { CallFits entry.now }
    ensures { OnOk result (out.new.items ≡ out.old.items ++ call_body entry.now) }
{
    match entry {
        Entry::Client { call, .. } => call.put_body(Version::Two, out),
        Entry::Leave { why, .. } => put_leave(out, *why),
        Entry::Finish {
            tag,
            issue,
            outcome,
            ..
        } => put_finish(out, *tag, *issue, outcome),
        Entry::Requeue { tag, issue, .. } => {
            out.push(0x24)?;
            put_flight(out, *tag, *issue)
        }
        Entry::Operator(call) => call.put_body(Version::One, out),
        Entry::Dispatch => {
            out.push(0x31)?;
            Ok(())
        }
    }
}

// The entry of whom a number names, by the bytes of its call.
fn entry_of(alloc: Global, who: u8, body: &[u8]) -> Result<Entry, ReadError>
    ensures { Gives result (entry_of_who who body.now) }
{
    if who < 16 {
        return seat_entry(alloc, who, body);
    }
    if who >= 0x40 && who < 0x44 {
        return device_entry(alloc, who - 0x40, body);
    }
    if who == 0x80 {
        return operator_entry(alloc, body);
    }
    if who == 0xc0 {
        return core_entry(body);
    }
    Err(BAD_BODY)
}

// The operator's entry.
#[tactic(auto, unfolding(crate::specs::Entry::operator_entry_at))]
fn operator_entry(alloc: Global, body: &[u8]) -> Result<Entry, ReadError>
    ensures { Gives result (operator_entry_at body.now) }
{
    let call = Operator::read_body(alloc, Version::One, body)?;
    if is_stop(call.0) {
        return Err(ReadError::Fault(Fault::BadKind));
    }
    Ok(Entry::Operator(call))
}

// Whether the operator ends the host, which is no call of the keeper.
fn is_stop(call: OperatorCall) -> bool
    ensures { result ≡ is_stop call }
{
    match call {
        OperatorCall::Stop => true,
        _ => false,
    }
}

// The core's entry.
fn core_entry(body: &[u8]) -> Result<Entry, ReadError>
    ensures { Gives result (read_by core_kinds body.now) }
{
    let Some((kind, fields)) = body.split_first() else {
        return Err(ReadError::Fault(Fault::BadKind));
    };
    match *kind {
        0x31 => ended(Entry::Dispatch, fields),
        _ => Err(ReadError::Fault(Fault::BadKind)),
    }
}
