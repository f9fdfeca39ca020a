// What a service costs in virtual time, and how an entity gets its start and its finish.
ghost use Rattle.std.specs.Prelude.{◌≡◌, ◌*◌, ◌≤◌, ◌^◌, MatchResult, Some, None};
ghost use Rattle.change_record.specs.Machine.{bfq_of};
ghost use Rattle.plain.specs.Rules.{delta, stamp};
ghost use Rattle.bfq_select.specs.Service.{IsSized, IsBounded};
ghost use Rattle.bfq_select.specs.Course.{Exchanges};

use crate::VtimeFull;
use crate::places::set_member;
use crate::reading::{group_of, member_in};
use change_record::{Parts, Tape};
use plain::{Member, State};
use sector_core::Entity;

// No time is greater.
pub const TOP: u64 = 1 << 62;

// The virtual time that the service of some sectors takes at a weight; for weight 0, which no entity has, it is 0.
pub fn delta(sectors: u32, weight: u64) -> u64
    ensures value { result ≡ delta sectors weight }
    ensures small { result ≤ sectors * 2 ^ 22 }
{
    if weight == 0 {
        0
    } else {
        (u64::from(sectors) << 22) / weight
    }
}

// An entity gets its pending weight, this start, and the finish that its budget gives, and waits to be picked.
pub fn stamp(
    parts: &mut Parts,
    tape: &mut Tape,
    start: u64,
    entity: Entity,
) -> Result<(), VtimeFull>
    requires room { 1 ≤ tape.old.room }
    requires sized { IsSized parts.old.tables }
    requires bounded { IsBounded (bfq_of parts.old.tables) }
    requires start { start ≤ 2 ^ 62 }
    ensures made { MatchResult result (λ _. stamp start entity (bfq_of parts.old.tables) ≡ Some (bfq_of parts.new.tables)) (λ _. stamp start entity (bfq_of parts.old.tables) ≡ None) }
    ensures sized { IsSized parts.new.tables }
    ensures bounded { IsBounded (bfq_of parts.new.tables) }
    ensures course { Exchanges 1 parts.old.tables tape.old parts.new.tables tape.new }
{
    let weight = parts.pending(entity);
    let finish = start + delta(parts.budget(entity), u64::from(weight));
    if finish > TOP {
        return Err(VtimeFull);
    }
    let group = group_of(parts, entity);
    let stamped = Member {
        state: State::Active,
        start,
        finish,
        weight,
        ..member_in(parts, group, entity)
    };
    set_member(parts, tape, group, entity, stamped);
    Ok(())
}
