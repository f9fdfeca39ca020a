// The texts of queries.
ghost use Rattle.std.specs.Prelude.{◌≡◌, ◌∷◌, ◌++◌, OnOk};
ghost use Rattle.host_console.specs.Printed.{sector_text, shown_text, request_text, queue_text, cursor_text, group_text, group_class_text, known_text, class_of_text};
ghost use Rattle.host_console.specs.Texts.{state_text, class_text, entity_text};

use crate::Shows;
use plain::{EntityView, RequestView, SectorView, State};
use sector_core::{Class, Range};
use sector_text::put_hex;
use std::io::{self, Write};

// More requests than any queue has.
const MOST_REQUESTS: usize = 65536;

/// Appends what a sector has. It fails only for want of memory.
pub fn put_sector<K: Shows>(keeper: &K, number: u64, out: &mut Vec<u8>) -> io::Result<()>
    ensures { OnOk result (out.new.items ≡ out.old.items ++ sector_text (K.state keeper.now) number) }
{
    put_content(number, keeper.sector(number), out)
}

// Appends a sector with its content.
fn put_content(number: u64, content: SectorView<'_>, out: &mut Vec<u8>) -> io::Result<()>
    ensures { OnOk result (out.new.items ≡ out.old.items ++ shown_text number content.entry) }
{
    match content {
        SectorView::Outside => write!(out, "sector {number} none"),
        SectorView::Base => write!(out, "sector {number} base"),
        SectorView::Stored(block) => {
            write!(out, "sector {number} overlay ")?;
            put_hex(out, block.as_slice())?;
            Ok(())
        }
    }
}

/// Appends the queued requests of a seat, in order of insertion. It fails only for want of memory.
pub fn put_queue<K: Shows>(keeper: &K, seat: u8, out: &mut Vec<u8>) -> io::Result<()>
    ensures { OnOk result (out.new.items ≡ out.old.items ++ queue_text (K.state keeper.now) seat) }
{
    write!(out, "queue")?;
    for place in 0..MOST_REQUESTS {
        match keeper.request(seat, place) {
            RequestView::Free => return write!(out, " none"),
            RequestView::Past => return Ok(()),
            RequestView::Queued { range, bios } => put_request(range, bios, out)?,
        }
    }
    Ok(())
}

// A space, and then a request.
fn put_request(range: Range, bios: u32, out: &mut Vec<u8>) -> io::Result<()>
    ensures { OnOk result (out.new.items ≡ out.old.items ++ (32 ∷ request_text range bios)) }
{
    let Range { start, count } = range;
    write!(out, " {start}+{count}x{bios}")
}

/// Appends where the line stands, and the last serial. It fails only for want of memory.
pub fn put_cursor<K: Shows>(keeper: &K, out: &mut Vec<u8>) -> io::Result<()>
    ensures { OnOk result (out.new.items ≡ out.old.items ++ cursor_text (K.state keeper.now)) }
{
    let cursor = keeper.cursor();
    let length = keeper.length();
    let serial = keeper.last_serial();
    write!(out, "line {cursor} {length} {serial}")
}

/// Appends the best effort time of a group. It fails only for want of memory.
pub fn put_vtime<K: Shows>(keeper: &K, group: u8, out: &mut Vec<u8>) -> io::Result<()>
    ensures { OnOk result (out.new.items ≡ out.old.items ++ group_text (K.state keeper.now) group) }
{
    match keeper.vtime(group, Class::BestEffort) {
        Some(vtime) => write!(out, "vtime {group} {vtime}"),
        None => write!(out, "vtime {group} none"),
    }
}

/// Appends the virtual time of a class of a group. It fails only for want of memory.
pub fn put_class_vtime<K: Shows>(
    keeper: &K,
    group: u8,
    class: Class,
    out: &mut Vec<u8>,
) -> io::Result<()>
    ensures { OnOk result (out.new.items ≡ out.old.items ++ group_class_text (K.state keeper.now) group class) }
{
    let name = class_name(class);
    match keeper.vtime(group, class) {
        Some(vtime) => write!(out, "vtime {group} {name} {vtime}"),
        None => write!(out, "vtime {group} {name} none"),
    }
}

/// Appends what is known of an entity. It fails only for want of memory.
pub fn put_entity<K: Shows>(keeper: &K, number: u8, out: &mut Vec<u8>) -> io::Result<()>
    ensures { OnOk result (out.new.items ≡ out.old.items ++ known_text (K.state keeper.now) number) }
{
    put_known(number, keeper.entity(number), out)
}

/// Appends the class of an entity. It fails only for want of memory.
pub fn put_class<K: Shows>(keeper: &K, number: u8, out: &mut Vec<u8>) -> io::Result<()>
    ensures { OnOk result (out.new.items ≡ out.old.items ++ class_of_text (K.state keeper.now) number) }
{
    match keeper.entity(number) {
        Some(view) => {
            let name = class_name(view.class);
            write!(out, "class {number} {name}")
        }
        None => write!(out, "class {number} none"),
    }
}

/// Appends an entity with what is known of it. It fails only for want of memory.
pub fn put_known(number: u8, known: Option<EntityView>, out: &mut Vec<u8>) -> io::Result<()>
    ensures { OnOk result (out.new.items ≡ out.old.items ++ entity_text number known) }
{
    match known {
        Some(view) => {
            let EntityView {
                state,
                start,
                finish,
                weight,
                budget,
                service,
                ..
            } = view;
            let name = state_name(state);
            write!(
                out,
                "entity {number} {name} {start} {finish} {weight} {budget} {service}"
            )
        }
        None => write!(out, "entity {number} none"),
    }
}

// The word for a state.
fn state_name(state: State) -> &'static str
    ensures { result.now ≡ state_text state }
{
    match state {
        State::Idle => "idle",
        State::Active => "active",
        State::Serving => "serving",
    }
}

// The name of a class.
fn class_name(class: Class) -> &'static str
    ensures { result.now ≡ class_text class }
{
    match class {
        Class::RealTime => "rt",
        Class::BestEffort => "be",
        Class::Idle => "idle",
    }
}
