// The queue in service, and groups with their members, each with all that is known of it.
ghost use Rattle.std.specs.Prelude.{◌≡◌, ◌∷◌, ◌++◌, MatchOption, OnOk, Option, codes, false};
ghost use Rattle.std.specs.List.{flat_map};
ghost use Rattle.std.specs.Fmt.{decimal};
ghost use Rattle.plain.specs.Lists.{numbers};
ghost use Rattle.plain.specs.Rules.{stands};
ghost use Rattle.plain.specs.declared.seat.InService.{InService as InServiceOf};
ghost use Rattle.dispatch_core.specs.Running.{plain_of};
ghost use Rattle.host_console.specs.Views.{parent_text};
ghost use Rattle.script_host.specs.Times.{HasTimes};
ghost use Rattle.host_console.specs.State.{group_text, known_text, member_text, served_text};

use crate::entities::{ENTITIES, is_in, other_class, parent_of, state_word};
use dispatch_core::{EntityView, View};
use plain::InService;
use sector_core::{Class, Entity};
use std::io::{self, Write};

// Groups are numbered from 0.
const GROUPS: u8 = 32;

/// The virtual times of a group.
#[derive(Clone, Copy)]
pub struct Times {
    /// That of real time.
    pub real_time: u64,
    /// That of best effort.
    pub best_effort: u64,
    /// That of the idle class.
    pub idle: u64,
}

/// Appends the queue in service. It fails only for want of memory.
pub fn put_served(slot: Option<InService>, out: &mut Vec<u8>) -> io::Result<()>
    ensures { OnOk result (out.new.items ≡ out.old.items ++ served_text slot) }
{
    match slot {
        Some(InService { seat, service, age }) => write!(out, " service {seat} {service} {age}"),
        None => write!(out, " service none"),
    }
}

/// Appends the groups that stand, by their numbers, each with its members. It fails only for want of memory.
pub fn put_groups(view: &View<'_>, out: &mut Vec<u8>) -> io::Result<()>
    ensures { OnOk result (out.new.items ≡ out.old.items ++ flat_map (group_text (plain_of view.now)) (numbers 0 32)) }
{
    for group in 0..GROUPS {
        put_group(view, group, out)?;
    }
    Ok(())
}

// Appends a group with its members, if it stands.
fn put_group(view: &View<'_>, group: u8, out: &mut Vec<u8>) -> io::Result<()>
    ensures { OnOk result (out.new.items ≡ out.old.items ++ group_text (plain_of view.now) group) }
{
    let Some(times) = times_of(view, group) else {
        return Ok(());
    };
    put_times(group, parent_of(view, group), times, out)?;
    put_members(view, group, out)
}

// The virtual times of a group, if it stands.
fn times_of(view: &View<'_>, group: u8) -> Option<Times>
    ensures { MatchOption result (stands (plain_of view.now).bfq group ≡ false) (λ times. HasTimes (plain_of view.now).bfq group times) }
{
    Some(Times {
        real_time: view.vtime(group, Class::RealTime)?,
        best_effort: view.vtime(group, Class::BestEffort)?,
        idle: view.vtime(group, Class::Idle)?,
    })
}

// Appends a group with the one that it is in, and its virtual times.
fn put_times(group: u8, parent: Option<u8>, times: Times, out: &mut Vec<u8>) -> io::Result<()>
    ensures { OnOk result (out.new.items ≡ out.old.items ++ (codes " tree " ++ (decimal group ++ 32 ∷ (parent_text parent ++ 32 ∷ (decimal times.real_time ++ 32 ∷ (decimal times.best_effort ++ 32 ∷ decimal times.idle)))))) }
{
    let Times {
        real_time,
        best_effort,
        idle,
    } = times;
    match parent {
        Some(parent) => write!(
            out,
            " tree {group} {parent} {real_time} {best_effort} {idle}"
        ),
        None => write!(out, " tree {group} - {real_time} {best_effort} {idle}"),
    }
}

// Appends the members of a group, by their numbers.
fn put_members(view: &View<'_>, group: u8, out: &mut Vec<u8>) -> io::Result<()>
    ensures { OnOk result (out.new.items ≡ out.old.items ++ flat_map (member_text (plain_of view.now) group) (numbers 0 48)) }
{
    for entity in 0..ENTITIES {
        put_member(view, group, entity, out)?;
    }
    Ok(())
}

// Appends an entity if it is in the group.
fn put_member(view: &View<'_>, group: u8, entity: Entity, out: &mut Vec<u8>) -> io::Result<()>
    ensures { OnOk result (out.new.items ≡ out.old.items ++ member_text (plain_of view.now) group entity) }
{
    if !is_in(group, view.parent(entity)) {
        return Ok(());
    }
    match view.entity(entity) {
        Some(known) => put_known(entity, known, view.pending(entity), out),
        None => Ok(()),
    }
}

// Appends an entity after one space.
fn put_known(entity: Entity, known: EntityView, pending: u32, out: &mut Vec<u8>) -> io::Result<()>
    ensures { OnOk result (out.new.items ≡ out.old.items ++ known_text entity known pending) }
{
    let EntityView {
        class,
        state,
        start,
        finish,
        weight,
        budget,
        ..
    } = known;
    let word = state_word(state);
    let end = other_class(class);
    write!(
        out,
        " {entity}:{word}:{start}:{finish}:{weight}:{pending}:{budget}{end}"
    )
}
