// Who sits at a seat, and what waits there to be reaped.
ghost use Rattle.std.specs.Prelude.{◌≡◌, ◌++◌, OnOk};
ghost use Rattle.std.specs.List.{flat_map};
ghost use Rattle.plain.specs.Rules.{group_of};
ghost use Rattle.dispatch_core.specs.Running.{plain_of};
ghost use Rattle.host_console.specs.Views.{presence_text, sitting_text, seat_look, result_text, completed_text, outbox_look};

use dispatch_core::View;
use plain::Seat;
use sector_core::{BioFields, BioResult, FailKind};
use std::io::{self, Write};

/// No outbox has more bios.
pub const MOST_BIOS: usize = 32;

/// Appends who sits at a seat. It fails only for want of memory.
pub fn put_seat(view: &View<'_>, seat: u8, out: &mut Vec<u8>) -> io::Result<()>
    ensures { OnOk result (out.new.items ≡ out.old.items ++ seat_look (plain_of view.now) seat) }
{
    match view.seat(seat) {
        Some(entry) => put_sitting(seat, entry, group_of(view, seat), view.head(seat), out),
        None => write!(out, "seat {seat} none"),
    }
}

/// The group of the session at a seat.
pub fn group_of(view: &View<'_>, seat: u8) -> u8
    ensures { result ≡ group_of (plain_of view.now).bfq seat }
{
    view.parent(seat).unwrap_or(0)
}

// Appends a session at its seat.
fn put_sitting(seat: u8, entry: Seat, group: u8, head: u64, out: &mut Vec<u8>) -> io::Result<()>
    ensures { OnOk result (out.new.items ≡ out.old.items ++ sitting_text seat entry group head) }
{
    let Seat {
        session,
        prio,
        unreaped,
        leaving,
    } = entry;
    let word = presence(leaving);
    write!(
        out,
        "seat {seat} {session} {group} {prio} {unreaped} {head} {word}"
    )
}

/// Whether a session is there or leaves.
pub fn presence(leaving: bool) -> &'static str
    ensures { result.now ≡ presence_text leaving }
{
    if leaving { "leaving" } else { "here" }
}

/// Appends the completed bios of a seat, the first to be reaped first. It fails only for want of memory.
pub fn put_outbox(view: &View<'_>, seat: u8, out: &mut Vec<u8>) -> io::Result<()>
    ensures { OnOk result (out.new.items ≡ out.old.items ++ outbox_look (plain_of view.now) seat) }
{
    match view.seat(seat) {
        Some(_) => {
            write!(out, "outbox {seat}")?;
            put_completed(view, seat, out)
        }
        None => write!(out, "outbox {seat} none"),
    }
}

// Appends each completed bio of a seat.
fn put_completed(view: &View<'_>, seat: u8, out: &mut Vec<u8>) -> io::Result<()>
    ensures { OnOk result (out.new.items ≡ out.old.items ++ flat_map completed_text ((plain_of view.now).outbox seat)) }
{
    for place in 0..MOST_BIOS {
        match view.completed(seat, place) {
            Some(bio) => put_bio(bio, out)?,
            None => return Ok(()),
        }
    }
    Ok(())
}

// Appends a completed bio after one space.
fn put_bio(bio: &BioFields, out: &mut Vec<u8>) -> io::Result<()>
    ensures { OnOk result (out.new.items ≡ out.old.items ++ completed_text bio.now) }
{
    let serial = bio.serial;
    let word = result_word(bio);
    write!(out, " {serial}:{word}")
}

/// What became of a bio.
pub fn result_word(bio: &BioFields) -> &'static str
    ensures { result.now ≡ result_text bio.now.result }
{
    match &bio.result {
        None => "open",
        Some(BioResult::Read(_)) => "read",
        Some(BioResult::Written) => "written",
        Some(BioResult::Discarded) => "discarded",
        Some(BioResult::IoError(FailKind::Short)) => "short",
        Some(BioResult::IoError(FailKind::Fault)) => "fault",
    }
}
