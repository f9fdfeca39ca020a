// The groups with their members, the queue in service, and what is stored.
ghost use Rattle.std.specs.Prelude.{◌≡◌, ◌+◌, ◌∷◌, ◌++◌, true, codes, Option, OnOk};
ghost use Rattle.std.specs.Fmt.{decimal};
ghost use Rattle.plain.specs.Rules.{stands};
ghost use Rattle.sector_core.specs.declared.range.Range.{Range as RangeOf};
ghost use Rattle.std.specs.List.{flat_map};
ghost use Rattle.plain.specs.Lists.{numbers};
ghost use Rattle.dispatch_core.specs.Running.{plain_of};
ghost use Rattle.plain.specs.Steps.GroupDrop.{is_in};
ghost use Rattle.plain.specs.Runs.{IsNextRun};
ghost use Rattle.host_console.specs.Texts.{state_text};
ghost use Rattle.host_console.specs.Views.{service_look, other_class_text, known_text, member_text, parent_text, tree_look, stored_look};

use dispatch_core::{EntityView, View};
use plain::{InService, State};
use sector_core::{Class, Entity, Range};
use std::io::{self, Write};

/// Entities are numbered from 0: 16 seats and 32 groups.
pub const ENTITIES: u8 = 48;

/// Appends the queue in service. It fails only for want of memory.
pub fn put_service(view: &View<'_>, out: &mut Vec<u8>) -> io::Result<()>
    ensures { OnOk result (out.new.items ≡ out.old.items ++ service_look (plain_of view.now)) }
{
    match view.in_service() {
        Some(slot) => {
            let InService { seat, service, age } = slot;
            let budget = view.budget(seat);
            write!(out, "service {seat} {service} {age} {budget}")
        }
        None => write!(out, "service none"),
    }
}

/// Appends a group with its members, by their numbers. It fails only for want of memory.
pub fn put_tree(view: &View<'_>, group: u8, out: &mut Vec<u8>) -> io::Result<()>
    ensures { OnOk result (out.new.items ≡ out.old.items ++ tree_look (plain_of view.now) group) }
{
    let Some(vtime) = view.vtime(group, Class::BestEffort) else {
        return write!(out, "tree {group} none");
    };
    put_head(group, parent_of(view, group), vtime, out)?;
    put_members(view, group, out)
}

/// The group that a group is in.
pub fn parent_of(view: &View<'_>, group: u8) -> Option<u8>
    ensures { stands (plain_of view.now).bfq group ≡ true → result ≡ (plain_of view.now).bfq.parent (16 + group) }
{
    // A group that stands has a number up to 31.
    if group >= 32 {
        return None;
    }
    view.parent(16 + group)
}

// Appends a group with the one that it is in, and its best effort time.
fn put_head(group: u8, parent: Option<u8>, vtime: u64, out: &mut Vec<u8>) -> io::Result<()>
    ensures { OnOk result (out.new.items ≡ out.old.items ++ (codes "tree " ++ (decimal group ++ 32 ∷ (parent_text parent ++ 32 ∷ decimal vtime)))) }
{
    match parent {
        Some(parent) => write!(out, "tree {group} {parent} {vtime}"),
        None => write!(out, "tree {group} - {vtime}"),
    }
}

// Appends the members of a group, by their numbers.
fn put_members(view: &View<'_>, group: u8, out: &mut Vec<u8>) -> io::Result<()>
    ensures { OnOk result (out.new.items ≡ out.old.items ++ flat_map (member_text (plain_of view.now) group) (numbers 0 48)) }
{
    for entity in 0..ENTITIES {
        put_member(view, group, entity, out)?;
    }
    Ok(())
}

// Appends an entity if it is in the group.
fn put_member(view: &View<'_>, group: u8, entity: Entity, out: &mut Vec<u8>) -> io::Result<()>
    ensures { OnOk result (out.new.items ≡ out.old.items ++ member_text (plain_of view.now) group entity) }
{
    if !is_in(group, view.parent(entity)) {
        return Ok(());
    }
    match view.entity(entity) {
        Some(known) => put_known(entity, known, view.pending(entity), out),
        None => Ok(()),
    }
}

/// Whether the group is this one.
pub fn is_in(group: u8, parent: Option<u8>) -> bool
    ensures { result ≡ is_in group parent }
{
    match parent {
        Some(parent) => parent == group,
        None => false,
    }
}

// Appends an entity after one space.
fn put_known(entity: Entity, known: EntityView, pending: u32, out: &mut Vec<u8>) -> io::Result<()>
    ensures { OnOk result (out.new.items ≡ out.old.items ++ known_text entity known pending) }
{
    let EntityView {
        class,
        state,
        start,
        finish,
        weight,
        ..
    } = known;
    let word = state_word(state);
    let end = other_class(class);
    write!(
        out,
        " {entity}:{word}:{start}:{finish}:{weight}:{pending}{end}"
    )
}

/// The class of a member after a colon, if it is not best effort.
pub fn other_class(class: Class) -> &'static str
    ensures { result.now ≡ other_class_text class }
{
    match class {
        Class::RealTime => ":rt",
        Class::BestEffort => "",
        Class::Idle => ":idle",
    }
}

/// The word for a state.
pub fn state_word(state: State) -> &'static str
    ensures { result.now ≡ state_text state }
{
    match state {
        State::Idle => "idle",
        State::Active => "active",
        State::Serving => "serving",
    }
}

/// Appends the next run of stored sectors. It fails only for want of memory.
pub fn put_stored(view: &View<'_>, from: u64, out: &mut Vec<u8>) -> io::Result<()>
    ensures { OnOk result ((run : Option RangeOf) × IsNextRun (plain_of view.now).overlay from 65536 run × (out.new.items ≡ out.old.items ++ stored_look run)) }
{
    match view.stored(from) {
        Some(Range { start, count }) => write!(out, "stored {start}+{count}"),
        None => write!(out, "stored none"),
    }
}
