// What a client sends.
ghost use Rattle.std.specs.Prelude.{◌≡◌, ◌++◌, OnOk};
ghost use Rattle.std.proofs.Common.{rules};
ghost use Rattle.session_proto.specs.Reading.{Gives};
ghost use Rattle.session_proto.specs.Kinds.{read_by};
ghost use Rattle.session_proto.specs.Client.{client_body, class_bytes, class_of_number, ClientFits, client_kinds, client_at, attach_at, class_attach_at, fetch_at, store_at, discard_at, reap_at};
ghost use Rattle.host_calls.specs.declared.client.ClientCall.TheVariants.{Attach};
ghost use Rattle.session_proto.specs.declared.version.Version.TheVariants.{One, Two};
ghost use Rattle.session_proto.specs.ClientLaws.{client_in_limits, client_again, client_spelled};

use super::fault::{Fault, ReadError};
use super::fields::{BAD_BODY, ended, named, put_u8, put_u64, u8_of, u64_of};
use super::side::Side;
use super::span::{put_span, span_of};
use super::version::Version;
use bytes::Bytes;
use host_calls::ClientCall;
use plain::Why;
use sector_core::{Class, Op};
use std::alloc::{AllocError, Global};

// The bytes of 64 sectors.
const MOST_PAYLOAD: usize = 32_768;

/// The side of clients: a call that a client sends.
///
/// A fetch or a discard with a payload has no frame, nor has a payload of more than 64 sectors, or a count of sectors above 65,535.
/// Nor has a Leave for another cause than that the client has ended. In version 1 a discard has none, nor an Attach of another class
/// than best effort.
#[derive(Debug, Drop)]
pub struct Client(pub ClientCall);

impl Side for Client {
    ghost MOST = { 32787 };

    ghost body = { λ c. client_body c.0 };

    ghost fits = { λ n c. ClientFits n c.0 };

    ghost body_at = { client_at };

    ghost few = { Prim.search rules };

    ghost in_limits = { client_in_limits };

    ghost again = { client_again };

    ghost spelled = { client_spelled };

    // That of a store of 64 sectors.
    const MOST: u32 = 32_787;

    fn put_body(&self, version: Version, out: &mut Vec<u8>) -> Result<(), AllocError> {
        put_call(out, version, &self.0)
    }

    #[tactic(auto, unfolding(crate::specs::Client::client_at))]
    fn read_body(alloc: Global, version: Version, bytes: &[u8]) -> Result<Client, ReadError> {
        Ok(Client(call_of(alloc, version, bytes)?))
    }
}

// Appends the body of a call that has a frame in a version; it is the same in each.
fn put_call(out: &mut Vec<u8>, _version: Version, call: &ClientCall) -> Result<(), AllocError>
    requires { ClientFits _version call.now }
    ensures { OnOk result (out.new.items ≡ out.old.items ++ client_body call.now) }
{
    match call {
        ClientCall::Attach { group, prio, class } => put_attach(out, *group, *prio, *class)?,
        ClientCall::Submit {
            session,
            op: Op::Fetch,
            range,
            ..
        } => {
            out.push(0x02)?;
            put_span(out, *session, *range)?;
        }
        ClientCall::Submit {
            session,
            op: Op::Store,
            range,
            payload,
        } => {
            out.push(0x03)?;
            put_span(out, *session, *range)?;
            out.extend_from_slice(payload)?;
        }
        ClientCall::Submit {
            session,
            op: Op::Discard,
            range,
            ..
        } => {
            out.push(0x06)?;
            put_span(out, *session, *range)?;
        }
        ClientCall::Reap { session } => {
            out.push(0x04)?;
            put_u64(out, *session)?;
        }
        ClientCall::Leave { .. } => out.push(0x05)?,
    }
    Ok(())
}

// Appends the body of an Attach: one of best effort does not say its class.
fn put_attach(out: &mut Vec<u8>, group: u8, prio: u8, class: Class) -> Result<(), AllocError>
    ensures { OnOk result (out.new.items ≡ out.old.items ++ client_body (Attach group prio class)) }
{
    match class {
        Class::RealTime => {
            out.push(0x08)?;
            put_class(out, group, prio, 1)
        }
        Class::BestEffort => {
            out.push(0x01)?;
            put_u8(out, group)?;
            put_u8(out, prio)
        }
        Class::Idle => {
            out.push(0x08)?;
            put_class(out, group, prio, 3)
        }
    }
}

// Appends the fields of an Attach that says its class, by the class's number.
#[tactic(auto, unfolding(crate::specs::Client::class_bytes))]
fn put_class(out: &mut Vec<u8>, group: u8, prio: u8, number: u8) -> Result<(), AllocError>
    ensures { OnOk result (out.new.items ≡ out.old.items ++ class_bytes group prio number) }
{
    put_u8(out, group)?;
    put_u8(out, prio)?;
    put_u8(out, number)
}

// The call that a body says, by its kind in a version.
fn call_of(alloc: Global, version: Version, bytes: &[u8]) -> Result<ClientCall, ReadError>
    ensures { Gives result (read_by (client_kinds version) bytes.now) }
{
    match version {
        Version::One => call_of_one(alloc, bytes),
        Version::Two => call_of_two(alloc, bytes),
    }
}

// The call that a body of version 1 says.
fn call_of_one(alloc: Global, bytes: &[u8]) -> Result<ClientCall, ReadError>
    ensures { Gives result (read_by (client_kinds One) bytes.now) }
{
    let Some((kind, fields)) = bytes.split_first() else {
        return Err(ReadError::Fault(Fault::BadKind));
    };
    match *kind {
        0x01 => attach_of(fields),
        0x02 => fetch_of(fields),
        0x03 => store_of(alloc, fields),
        0x04 => reap_of(fields),
        0x05 => ended(ClientCall::Leave { why: Why::Ended }, fields),
        _ => Err(ReadError::Fault(Fault::BadKind)),
    }
}

// The call that a body of version 2 says: two kinds more.
fn call_of_two(alloc: Global, bytes: &[u8]) -> Result<ClientCall, ReadError>
    ensures { Gives result (read_by (client_kinds Two) bytes.now) }
{
    match bytes {
        [0x06, fields @ ..] => discard_of(fields),
        [0x08, fields @ ..] => class_attach_of(fields),
        _ => call_of_one(alloc, bytes),
    }
}

// The readers of kinds: each reads its kind's fields, to the end of the body.

#[tactic(auto, unfolding(crate::specs::Client::attach_at))]
fn attach_of(fields: &[u8]) -> Result<ClientCall, ReadError>
    ensures { Gives result (attach_at fields.now) }
{
    let (group, fields) = u8_of(fields)?;
    let (prio, fields) = u8_of(fields)?;
    let class = Class::BestEffort;
    ended(ClientCall::Attach { group, prio, class }, fields)
}

#[tactic(auto, unfolding(crate::specs::Client::class_attach_at))]
fn class_attach_of(fields: &[u8]) -> Result<ClientCall, ReadError>
    ensures { Gives result (class_attach_at fields.now) }
{
    let (group, fields) = u8_of(fields)?;
    let (prio, fields) = u8_of(fields)?;
    let (number, fields) = u8_of(fields)?;
    let class = named(class_of(number))?;
    let call = ClientCall::Attach { group, prio, class };
    ended(call, fields)
}

#[tactic(auto, unfolding(crate::specs::Client::class_of_number))]
fn class_of(number: u8) -> Option<Class>
    ensures { result ≡ class_of_number number }
{
    match number {
        1 => Some(Class::RealTime),
        3 => Some(Class::Idle),
        _ => None,
    }
}

#[tactic(auto, unfolding(crate::specs::Client::discard_at))]
fn discard_of(fields: &[u8]) -> Result<ClientCall, ReadError>
    ensures { Gives result (discard_at fields.now) }
{
    let (session, range, fields) = span_of(fields)?;
    let call = ClientCall::Submit {
        session,
        op: Op::Discard,
        range,
        payload: Bytes::new(),
    };
    ended(call, fields)
}

#[tactic(auto, unfolding(crate::specs::Client::fetch_at))]
fn fetch_of(fields: &[u8]) -> Result<ClientCall, ReadError>
    ensures { Gives result (fetch_at fields.now) }
{
    let (session, range, fields) = span_of(fields)?;
    let call = ClientCall::Submit {
        session,
        op: Op::Fetch,
        range,
        payload: Bytes::new(),
    };
    ended(call, fields)
}

#[tactic(auto, unfolding(crate::specs::Client::store_at))]
fn store_of(alloc: Global, fields: &[u8]) -> Result<ClientCall, ReadError>
    ensures { Gives result (store_at fields.now) }
{
    let (session, range, payload) = span_of(fields)?;
    if payload.len() > MOST_PAYLOAD {
        return Err(BAD_BODY);
    }
    Ok(ClientCall::Submit {
        session,
        op: Op::Store,
        range,
        payload: Bytes::copy_from_slice(alloc, payload)?,
    })
}

#[tactic(auto, unfolding(crate::specs::Client::reap_at))]
fn reap_of(fields: &[u8]) -> Result<ClientCall, ReadError>
    ensures { Gives result (reap_at fields.now) }
{
    let (session, fields) = u64_of(fields)?;
    ended(ClientCall::Reap { session }, fields)
}
