// Requests without names.
ghost use Rattle.std.specs.Prelude.{◌≡◌, ◌++◌, drop, OnOk};
ghost use Rattle.std.specs.List.{flat_map};
ghost use Rattle.dispatch_core.specs.Running.{plain_of};
ghost use Rattle.host_console.specs.State.{again_text, bios_text, next_text, owned_text, request_text, waiting_text};

use super::bios::put_bio;
use crate::requests::{MOST_BIOS, op_word, put_owner, seat_of};
use dispatch_core::{Listed, View};
use sector_core::BioFields;
use std::io::{self, Write};

/// Appends a request after one space. It fails only for want of memory.
pub fn put_waiting(request: &Listed<'_>, out: &mut Vec<u8>) -> io::Result<()>
    ensures { OnOk result (out.new.items ≡ out.old.items ++ waiting_text request.now) }
{
    write!(out, " ")?;
    put_request(request, out)
}

/// Appends a request with the seat of its session after one space. It fails only for want of memory.
pub fn put_again(view: &View<'_>, request: &Listed<'_>, out: &mut Vec<u8>) -> io::Result<()>
    ensures { OnOk result (out.new.items ≡ out.old.items ++ again_text (plain_of view.now) request.now) }
{
    write!(out, " ")?;
    put_owned(view, request, out)
}

/// Appends a request with the seat of its session. It fails only for want of memory.
pub fn put_owned(view: &View<'_>, request: &Listed<'_>, out: &mut Vec<u8>) -> io::Result<()>
    ensures { OnOk result (out.new.items ≡ out.old.items ++ owned_text (plain_of view.now) request.now) }
{
    put_owner(seat_of(view, request.session()), out)?;
    put_request(request, out)
}

// Appends a request: what it does, and its bios.
fn put_request(request: &Listed<'_>, out: &mut Vec<u8>) -> io::Result<()>
    ensures { OnOk result (out.new.items ≡ out.old.items ++ request_text request.now) }
{
    let op = op_word(request.op());
    write!(out, "{op}")?;
    put_bios(request, out)
}

// Appends the bios of a request, in the order of their sectors.
fn put_bios(request: &Listed<'_>, out: &mut Vec<u8>) -> io::Result<()>
    ensures { OnOk result (out.new.items ≡ out.old.items ++ bios_text request.now.bios) }
{
    match request.bio(0) {
        Some(bio) => {
            write!(out, ":")?;
            put_bio(bio, out)?;
        }
        None => return Ok(()),
    }
    put_others(request, out)
}

// Appends the bios of a request but for the first.
fn put_others(request: &Listed<'_>, out: &mut Vec<u8>) -> io::Result<()>
    ensures { OnOk result (out.new.items ≡ out.old.items ++ flat_map next_text (drop 1 request.now.bios)) }
{
    for place in 1..MOST_BIOS {
        match request.bio(place) {
            Some(bio) => put_next(bio, out)?,
            None => return Ok(()),
        }
    }
    Ok(())
}

// Appends a bio after a comma.
fn put_next(bio: &BioFields, out: &mut Vec<u8>) -> io::Result<()>
    ensures { OnOk result (out.new.items ≡ out.old.items ++ next_text bio.now) }
{
    write!(out, ",")?;
    put_bio(bio, out)
}
