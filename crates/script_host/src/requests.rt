// The requests of queues and of the dispatch list.
ghost use Rattle.std.specs.Prelude.{◌≡◌, [], ◌∷◌, ◌++◌, ℕ, drop, OnOk};
ghost use Rattle.std.specs.List.{flat_map};
ghost use Rattle.dispatch_core.specs.Running.{plain_of, IsFor};
ghost use Rattle.plain.specs.Requests.{range_of};
ghost use Rattle.plain.specs.Steps.Finish.{seat_of};
ghost use Rattle.host_console.specs.Views.{op_text, next_text, bios_text, listed_text, queued_text, queue_look, owner_text, owned_text, again_text, requeued_look};

use dispatch_core::{Listed, View};
use sector_core::{BioFields, Op};
use std::io::{self, Write};

/// No request has more bios.
pub const MOST_BIOS: usize = 32;

/// No list has as many requests.
pub const MOST_REQUESTS: usize = 65536;

/// Appends the requests of a seat's queue, in order of insertion. It fails only for want of memory.
pub fn put_queue(view: &View<'_>, seat: u8, out: &mut Vec<u8>) -> io::Result<()>
    requires sound { (n : ℕ) × IsFor n view.now }
    ensures { OnOk result (out.new.items ≡ out.old.items ++ queue_look (plain_of view.now) seat) }
{
    match view.seat(seat) {
        Some(_) => {
            write!(out, "queue {seat}")?;
            put_queued(view, seat, out)
        }
        None => write!(out, "queue {seat} none"),
    }
}

// Appends each request of a seat's queue.
fn put_queued(view: &View<'_>, seat: u8, out: &mut Vec<u8>) -> io::Result<()>
    requires sound { (n : ℕ) × IsFor n view.now }
    ensures { OnOk result (out.new.items ≡ out.old.items ++ flat_map queued_text ((plain_of view.now).queue seat)) }
{
    for place in 0..MOST_REQUESTS {
        match view.queued(seat, place) {
            Some(request) => put_item(&request, out)?,
            None => return Ok(()),
        }
    }
    Ok(())
}

// Appends a request after one space.
fn put_item(request: &Listed<'_>, out: &mut Vec<u8>) -> io::Result<()>
    ensures { OnOk result (out.new.items ≡ out.old.items ++ queued_text request.now) }
{
    write!(out, " ")?;
    put_request(request, out)
}

/// Appends the requests of the dispatch list, the first to be sent first. It fails only for want of memory.
pub fn put_requeued(view: &View<'_>, out: &mut Vec<u8>) -> io::Result<()>
    requires sound { (n : ℕ) × IsFor n view.now }
    ensures { OnOk result (out.new.items ≡ out.old.items ++ requeued_look (plain_of view.now)) }
{
    write!(out, "requeued")?;
    put_list(view, out)
}

// Appends each request of the dispatch list.
fn put_list(view: &View<'_>, out: &mut Vec<u8>) -> io::Result<()>
    requires sound { (n : ℕ) × IsFor n view.now }
    ensures { OnOk result (out.new.items ≡ out.old.items ++ flat_map (again_text (plain_of view.now)) (plain_of view.now).requeued) }
{
    for place in 0..MOST_REQUESTS {
        match view.requeued(place) {
            Some(request) => put_again(view, &request, out)?,
            None => return Ok(()),
        }
    }
    Ok(())
}

// Appends a request with the seat of its session, after one space.
fn put_again(view: &View<'_>, request: &Listed<'_>, out: &mut Vec<u8>) -> io::Result<()>
    ensures { OnOk result (out.new.items ≡ out.old.items ++ again_text (plain_of view.now) request.now) }
{
    write!(out, " ")?;
    put_owned(view, request, out)
}

/// Appends a request with the seat of its session. It fails only for want of memory.
pub fn put_owned(view: &View<'_>, request: &Listed<'_>, out: &mut Vec<u8>) -> io::Result<()>
    ensures { OnOk result (out.new.items ≡ out.old.items ++ owned_text (plain_of view.now) request.now) }
{
    put_owner(seat_of(view, request.session()), out)?;
    put_request(request, out)
}

/// Appends the seat of a session, if it has one, and a colon. It fails only for want of memory.
pub fn put_owner(owner: Option<u8>, out: &mut Vec<u8>) -> io::Result<()>
    ensures { OnOk result (out.new.items ≡ out.old.items ++ (owner_text owner ++ 58 ∷ [])) }
{
    match owner {
        Some(seat) => write!(out, "{seat}:"),
        None => write!(out, "-:"),
    }
}

/// The seat of a session.
pub fn seat_of(view: &View<'_>, session: u64) -> Option<u8>
    ensures { result ≡ seat_of (plain_of view.now) session }
{
    for seat in 0..16u8 {
        if let Some(entry) = view.seat(seat) {
            if entry.session == session {
                return Some(seat);
            }
        }
    }
    None
}

// Appends a request.
fn put_request(request: &Listed<'_>, out: &mut Vec<u8>) -> io::Result<()>
    ensures { OnOk result (out.new.items ≡ out.old.items ++ listed_text request.now) }
{
    let op = op_word(request.op());
    let start = start_of(request);
    let size = request.size();
    write!(out, "{op}:{start}+{size}")?;
    put_bios(request, out)
}

// The first sector of a request.
fn start_of(request: &Listed<'_>) -> u64
    ensures { result ≡ (range_of request.now.bios).start }
{
    match request.bio(0) {
        Some(bio) => bio.range.start,
        None => 0,
    }
}

/// The word for what a request does.
pub fn op_word(op: Op) -> &'static str
    ensures { result.now ≡ op_text op }
{
    match op {
        Op::Fetch => "fetch",
        Op::Store => "store",
        Op::Discard => "discard",
    }
}

// Appends the serials of a request's bios, in the order of their sectors.
fn put_bios(request: &Listed<'_>, out: &mut Vec<u8>) -> io::Result<()>
    ensures { OnOk result (out.new.items ≡ out.old.items ++ bios_text request.now.bios) }
{
    match request.bio(0) {
        Some(bio) => {
            let serial = bio.serial;
            write!(out, ":{serial}")?;
        }
        None => return Ok(()),
    }
    put_others(request, out)
}

// Appends the serials of a request's bios but for the first.
fn put_others(request: &Listed<'_>, out: &mut Vec<u8>) -> io::Result<()>
    ensures { OnOk result (out.new.items ≡ out.old.items ++ flat_map next_text (drop 1 request.now.bios)) }
{
    for place in 1..MOST_BIOS {
        match request.bio(place) {
            Some(bio) => put_next(bio, out)?,
            None => return Ok(()),
        }
    }
    Ok(())
}

// Appends the serial of a bio after a comma.
fn put_next(bio: &BioFields, out: &mut Vec<u8>) -> io::Result<()>
    ensures { OnOk result (out.new.items ≡ out.old.items ++ next_text bio.now) }
{
    let serial = bio.serial;
    write!(out, ",{serial}")
}
