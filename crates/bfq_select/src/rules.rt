// The four rules, as `dispatch_core` calls them.
ghost use Rattle.std.specs.Prelude.{◌≡◌, ◌+◌, ◌≤◌, ◌<◌, MatchResult, Some, None, length};
ghost use Rattle.plain.specs.declared.seat.InService.{InService as Slot};
ghost use Rattle.change_record.specs.Trail.{KeepsTrail};
ghost use Rattle.change_record.specs.Machine.{bfq_of};
ghost use Rattle.plain.specs.Rules.{activate, select, charge, expire};
ghost use Rattle.bfq_select.specs.Service.{IsSized, IsBounded, OnlyServes};

use crate::activating::activate_path;
use crate::charging::charge_path;
use crate::expiring::{budget_after, expire_path};
use crate::places::{set_budget, set_slot};
use crate::reading::class_in;
use crate::selecting::{jump, serve};
use crate::{Expiry, VtimeFull};
use change_record::{Parts, Tape};
use plain::{InService, SEATS};

/// A session's queue has a request now: its entity waits to be served, and so does each group above it that was idle.
///
/// # Errors
///
/// A time would be greater than 2^62. What has been exchanged is on the tape, and leads back.
pub fn activate(parts: &mut Parts, tape: &mut Tape, seat: u8) -> Result<(), VtimeFull>
    requires seat { seat < 16 }
    requires room { 5 ≤ tape.old.room }
    requires sized { IsSized parts.old.tables }
    requires bounded { IsBounded (bfq_of parts.old.tables) }
    ensures made { MatchResult result (λ _. activate seat (bfq_of parts.old.tables) ≡ Some (bfq_of parts.new.tables)) (λ _. activate seat (bfq_of parts.old.tables) ≡ None) }
    ensures sized { IsSized parts.new.tables }
    ensures bounded { IsBounded (bfq_of parts.new.tables) }
    ensures others { OnlyServes parts.old.tables parts.new.tables }
    ensures trail { KeepsTrail tape.old.current parts.old.tables tape.new.current parts.new.tables }
    ensures steps { tape.new.steps ≡ tape.old.steps }
    ensures room { tape.old.room ≤ tape.new.room + 5 }
    ensures spare { tape.new.spare ≡ tape.old.spare }
    ensures some { length tape.old.current ≤ length tape.new.current }
    ensures few { length tape.new.current ≤ length tape.old.current + 5 }
{
    let path = parts.groups().path(seat);
    match activate_path(parts, tape, path.as_slice()) {
        Ok(()) => return Ok(()),
        Err(full) => return Err(full),
    }
}

/// A queue is taken into service: at each level from the root down the entity that the pick names, in the highest class with an active
/// one.
pub fn select(parts: &mut Parts, tape: &mut Tape)
    requires room { 11 ≤ tape.old.room }
    requires sized { IsSized parts.old.tables }
    requires bounded { IsBounded (bfq_of parts.old.tables) }
    ensures made { bfq_of parts.new.tables ≡ select (bfq_of parts.old.tables) }
    ensures sized { IsSized parts.new.tables }
    ensures bounded { IsBounded (bfq_of parts.new.tables) }
    ensures others { OnlyServes parts.old.tables parts.new.tables }
    ensures trail { KeepsTrail tape.old.current parts.old.tables tape.new.current parts.new.tables }
    ensures steps { tape.new.steps ≡ tape.old.steps }
    ensures room { tape.old.room ≤ tape.new.room + 11 }
    ensures spare { tape.new.spare ≡ tape.old.spare }
    ensures some { length tape.old.current ≤ length tape.new.current }
    ensures few { length tape.new.current ≤ length tape.old.current + 11 }
{
    let mut group: u8 = 0;
    for _level in 0..5u8 {
        let Some(class) = class_in(parts, group) else {
            return;
        };
        let Some(entity) = jump(parts, tape, group, class) else {
            return;
        };
        serve(parts, tape, group, entity);
        if entity < SEATS {
            let taken = InService {
                seat: entity,
                service: 0,
                age: 0,
            };
            set_slot(parts, tape, Some(taken));
            return;
        }
        group = entity - SEATS;
    }
}

/// The queue in service has been sent some sectors more.
///
/// # Errors
///
/// A time would be greater than 2^62, or no queue is in service. What has been exchanged is on the tape, and leads back.
pub fn charge(parts: &mut Parts, tape: &mut Tape, sectors: u32) -> Result<(), VtimeFull>
    requires room { 6 ≤ tape.old.room }
    requires sized { IsSized parts.old.tables }
    requires bounded { IsBounded (bfq_of parts.old.tables) }
    requires fits { (slot : Slot) → parts.old.tables.in_service ≡ Some slot → slot.service + sectors ≤ (bfq_of parts.old.tables).budget slot.seat }
    ensures made { MatchResult result (λ _. charge sectors (bfq_of parts.old.tables) ≡ Some (bfq_of parts.new.tables)) (λ _. charge sectors (bfq_of parts.old.tables) ≡ None) }
    ensures sized { IsSized parts.new.tables }
    ensures bounded { IsBounded (bfq_of parts.new.tables) }
    ensures others { OnlyServes parts.old.tables parts.new.tables }
    ensures trail { KeepsTrail tape.old.current parts.old.tables tape.new.current parts.new.tables }
    ensures steps { tape.new.steps ≡ tape.old.steps }
    ensures room { tape.old.room ≤ tape.new.room + 6 }
    ensures spare { tape.new.spare ≡ tape.old.spare }
    ensures some { length tape.old.current ≤ length tape.new.current }
    ensures few { length tape.new.current ≤ length tape.old.current + 6 }
{
    let Some(slot) = parts.slot() else {
        return Err(VtimeFull);
    };
    let path = parts.groups().path(slot.seat);
    let served = InService {
        seat: slot.seat,
        service: slot.service + sectors,
        age: slot.age,
    };
    set_slot(parts, tape, Some(served));
    match charge_path(parts, tape, sectors, path.as_slice()) {
        Ok(()) => return Ok(()),
        Err(full) => return Err(full),
    }
}

/// The queue in service leaves it. `most` is the greatest budget, and `queued` tells whether its queue has a request.
///
/// # Errors
///
/// A time would be greater than 2^62, or no queue is in service. What has been exchanged is on the tape, and leads back.
pub fn expire(
    parts: &mut Parts,
    tape: &mut Tape,
    cause: Expiry,
    most: u32,
    queued: bool,
) -> Result<(), VtimeFull>
    requires room { 7 ≤ tape.old.room }
    requires least { 256 ≤ most }
    requires most { most ≤ 65536 }
    requires sized { IsSized parts.old.tables }
    requires bounded { IsBounded (bfq_of parts.old.tables) }
    ensures made { MatchResult result (λ _. expire cause most queued (bfq_of parts.old.tables) ≡ Some (bfq_of parts.new.tables)) (λ _. expire cause most queued (bfq_of parts.old.tables) ≡ None) }
    ensures sized { IsSized parts.new.tables }
    ensures bounded { IsBounded (bfq_of parts.new.tables) }
    ensures others { OnlyServes parts.old.tables parts.new.tables }
    ensures trail { KeepsTrail tape.old.current parts.old.tables tape.new.current parts.new.tables }
    ensures steps { tape.new.steps ≡ tape.old.steps }
    ensures room { tape.old.room ≤ tape.new.room + 7 }
    ensures spare { tape.new.spare ≡ tape.old.spare }
    ensures some { length tape.old.current ≤ length tape.new.current }
    ensures few { length tape.new.current ≤ length tape.old.current + 7 }
{
    let Some(slot) = parts.slot() else {
        return Err(VtimeFull);
    };
    let path = parts.groups().path(slot.seat);
    let budget = budget_after(cause, parts.budget(slot.seat), slot.service, most);
    set_budget(parts, tape, slot.seat, budget);
    set_slot(parts, tape, None);
    match expire_path(parts, tape, slot.service, queued, path.as_slice()) {
        Ok(()) => return Ok(()),
        Err(full) => return Err(full),
    }
}
