// Seats with their queues and outboxes, without names.
ghost use Rattle.std.specs.Prelude.{◌≡◌, ◌++◌, ℕ, OnOk, codes};
ghost use Rattle.std.specs.List.{flat_map};
ghost use Rattle.plain.specs.Lists.{seats};
ghost use Rattle.dispatch_core.specs.Running.{plain_of, IsFor};
ghost use Rattle.host_console.specs.State.{done_text, sitting_text, taken_text, waiting_text};

use super::bios::put_done;
use super::requests::put_waiting;
use crate::requests::MOST_REQUESTS;
use crate::seats::{MOST_BIOS, group_of, presence};
use dispatch_core::View;
use plain::Seat;
use std::io::{self, Write};

// Seats are numbered from 0.
const SEATS: u8 = 16;

/// Appends the seats at which somebody sits, by their numbers. It fails only for want of memory.
pub fn put_seats(view: &View<'_>, out: &mut Vec<u8>) -> io::Result<()>
    requires sound { (n : ℕ) × IsFor n view.now }
    ensures { OnOk result (out.new.items ≡ out.old.items ++ flat_map (taken_text (plain_of view.now)) seats) }
{
    for seat in 0..SEATS {
        put_seat(view, seat, out)?;
    }
    Ok(())
}

// Appends a seat with its queue and its outbox, if somebody sits there.
fn put_seat(view: &View<'_>, seat: u8, out: &mut Vec<u8>) -> io::Result<()>
    requires sound { (n : ℕ) × IsFor n view.now }
    ensures { OnOk result (out.new.items ≡ out.old.items ++ taken_text (plain_of view.now) seat) }
{
    let Some(entry) = view.seat(seat) else {
        return Ok(());
    };
    put_sitting(seat, entry, group_of(view, seat), view.head(seat), out)?;
    write!(out, " queue")?;
    put_queue(view, seat, out)?;
    write!(out, " outbox")?;
    put_outbox(view, seat, out)
}

// Appends a session by its seat.
fn put_sitting(seat: u8, entry: Seat, group: u8, head: u64, out: &mut Vec<u8>) -> io::Result<()>
    ensures { OnOk result (out.new.items ≡ out.old.items ++ sitting_text seat entry group head) }
{
    let Seat {
        prio,
        unreaped,
        leaving,
        ..
    } = entry;
    let word = presence(leaving);
    write!(out, " seat {seat} {group} {prio} {unreaped} {head} {word}")
}

// Appends each request of a seat's queue, in order of insertion.
fn put_queue(view: &View<'_>, seat: u8, out: &mut Vec<u8>) -> io::Result<()>
    requires sound { (n : ℕ) × IsFor n view.now }
    ensures { OnOk result (out.new.items ≡ out.old.items ++ flat_map waiting_text ((plain_of view.now).queue seat)) }
{
    for place in 0..MOST_REQUESTS {
        match view.queued(seat, place) {
            Some(request) => put_waiting(&request, out)?,
            None => return Ok(()),
        }
    }
    Ok(())
}

// Appends each completed bio of a seat, the first to be reaped first.
fn put_outbox(view: &View<'_>, seat: u8, out: &mut Vec<u8>) -> io::Result<()>
    ensures { OnOk result (out.new.items ≡ out.old.items ++ flat_map done_text ((plain_of view.now).outbox seat)) }
{
    for place in 0..MOST_BIOS {
        match view.completed(seat, place) {
            Some(bio) => put_done(bio, out)?,
            None => return Ok(()),
        }
    }
    Ok(())
}
