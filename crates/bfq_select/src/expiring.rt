// How the entities of a path leave the service.
ghost use Rattle.std.specs.Prelude.{◌≡◌, ◌≤◌, MatchResult, Some, None, length};
ghost use Rattle.change_record.specs.Machine.{bfq_of};
ghost use Rattle.plain.specs.Rules.{along, budget_after, expire_one, is_backlogged};
ghost use Rattle.bfq_select.specs.Service.{IsSized, IsBounded};
ghost use Rattle.bfq_select.specs.Course.{Exchanges};

use crate::places::set_member;
use crate::reading::{class_in, group_of, member_in};
use crate::stamping::{TOP, delta, stamp};
use crate::{Expiry, VtimeFull};
use change_record::{Parts, Tape};
use plain::{LEAST_BUDGET, Member, SEATS, State};
use sector_core::Entity;

// The new budget of a session that leaves the service.
pub fn budget_after(cause: Expiry, budget: u32, service: u32, most: u32) -> u32
    requires budget { budget ≤ 65536 }
    ensures { result ≡ budget_after cause budget service most }
{
    match cause {
        Expiry::Exhaustion => (4 * budget).min(most),
        Expiry::Timeout => (2 * budget).min(most),
        Expiry::Emptying => service.max(LEAST_BUDGET),
    }
}

// Whether there is more to serve: a session's queue is not empty, or a group has an active child.
fn is_backlogged(parts: &Parts, queued: bool, entity: Entity) -> bool
    ensures { result ≡ is_backlogged queued entity (bfq_of parts.now.tables) }
{
    if entity < SEATS {
        queued
    } else {
        class_in(parts, entity - SEATS).is_some()
    }
}

// An entity leaves the service at the finish of what it was really served: it waits again, or it is idle.
pub fn expire_one(
    parts: &mut Parts,
    tape: &mut Tape,
    service: u32,
    queued: bool,
    entity: Entity,
) -> Result<(), VtimeFull>
    requires room { 1 ≤ tape.old.room }
    requires sized { IsSized parts.old.tables }
    requires bounded { IsBounded (bfq_of parts.old.tables) }
    ensures made { MatchResult result (λ _. expire_one service queued entity (bfq_of parts.old.tables) ≡ Some (bfq_of parts.new.tables)) (λ _. expire_one service queued entity (bfq_of parts.old.tables) ≡ None) }
    ensures sized { IsSized parts.new.tables }
    ensures bounded { IsBounded (bfq_of parts.new.tables) }
    ensures course { Exchanges 1 parts.old.tables tape.old parts.new.tables tape.new }
{
    let group = group_of(parts, entity);
    let member = member_in(parts, group, entity);
    let finish = member.start + delta(service, u64::from(member.weight));
    if finish > TOP {
        return Err(VtimeFull);
    }
    if is_backlogged(parts, queued, entity) {
        match stamp(parts, tape, finish, entity) {
            Ok(()) => return Ok(()),
            Err(full) => return Err(full),
        }
    }
    let rested = Member {
        state: State::Idle,
        start: finish,
        finish,
        ..member
    };
    set_member(parts, tape, group, entity, rested);
    Ok(())
}

// Each entity of a path, the leaf first.
pub fn expire_path(
    parts: &mut Parts,
    tape: &mut Tape,
    service: u32,
    queued: bool,
    path: &[Entity],
) -> Result<(), VtimeFull>
    requires room { length path.now ≤ tape.old.room }
    requires sized { IsSized parts.old.tables }
    requires bounded { IsBounded (bfq_of parts.old.tables) }
    ensures made { MatchResult result (λ _. along (expire_one service queued) path.now (bfq_of parts.old.tables) ≡ Some (bfq_of parts.new.tables)) (λ _. along (expire_one service queued) path.now (bfq_of parts.old.tables) ≡ None) }
    ensures sized { IsSized parts.new.tables }
    ensures bounded { IsBounded (bfq_of parts.new.tables) }
    ensures course { Exchanges (length path.now) parts.old.tables tape.old parts.new.tables tape.new }
{
    for entity in path {
        expire_one(parts, tape, service, queued, *entity)?;
    }
    Ok(())
}
