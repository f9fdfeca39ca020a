// The entries of clients.
ghost use Rattle.std.specs.Prelude.{◌≡◌, ◌∷◌, ◌++◌, OnOk};
ghost use Rattle.std.specs.Int.{w8};
ghost use Rattle.session_proto.specs.Reading.{Gives};
ghost use Rattle.session_proto.specs.Fields.{big_endian};
ghost use Rattle.run_record.specs.Entry.{why_number, why_of_number, leave_at, client_entry_at, seat_at};

use crate::entry::Entry;
use plain::Why;
use session_proto::fields::{ended, named, put_u8, u8_of};
use session_proto::{Client, Fault, ReadError, Side, Version};
use std::alloc::{AllocError, Global};

/// Appends a Leave with its cause.
pub fn put_leave(out: &mut Vec<u8>, why: Why) -> Result<(), AllocError>
    ensures { OnOk result (out.new.items ≡ out.old.items ++ 0x09 ∷ big_endian w8 (why_number why)) }
{
    out.push(0x09)?;
    put_u8(out, number_of_why(why))
}

/// The entry of the client at a seat, by the bytes of its call.
pub fn seat_entry(alloc: Global, seat: u8, body: &[u8]) -> Result<Entry, ReadError>
    ensures { Gives result (seat_at seat body.now) }
{
    let Some((kind, fields)) = body.split_first() else {
        return Err(ReadError::Fault(Fault::BadKind));
    };
    match *kind {
        0x09 => leave_of(seat, fields),
        _ => client_entry(alloc, seat, body),
    }
}

// A call as on the client's socket, in version 2.
#[tactic(auto, unfolding(crate::specs::Entry::client_entry_at))]
fn client_entry(alloc: Global, seat: u8, body: &[u8]) -> Result<Entry, ReadError>
    ensures { Gives result (client_entry_at seat body.now) }
{
    let call = Client::read_body(alloc, Version::Two, body)?;
    Ok(Entry::Client { seat, call })
}

#[tactic(auto, unfolding(crate::specs::Entry::leave_at))]
fn leave_of(seat: u8, fields: &[u8]) -> Result<Entry, ReadError>
    ensures { Gives result (leave_at seat fields.now) }
{
    let (number, fields) = u8_of(fields)?;
    let why = named(why_of(number))?;
    ended(Entry::Leave { seat, why }, fields)
}

fn number_of_why(why: Why) -> u8
    ensures { result ≡ why_number why }
{
    match why {
        Why::Ended => 1,
        Why::ReadFault => 2,
        Why::WriteFault => 3,
        Why::BadFrame => 4,
        Why::FrameLimit => 5,
    }
}

#[tactic(auto, unfolding(crate::specs::Entry::why_of_number))]
fn why_of(number: u8) -> Option<Why>
    ensures { result ≡ why_of_number number }
{
    match number {
        2 => Some(Why::ReadFault),
        3 => Some(Why::WriteFault),
        4 => Some(Why::BadFrame),
        5 => Some(Why::FrameLimit),
        _ => None,
    }
}
