// What the service of some sectors does to the virtual times on a path.
ghost use Rattle.std.specs.Prelude.{◌≡◌, ◌≤◌, MatchResult, Some, None, length};
ghost use Rattle.change_record.specs.Machine.{bfq_of};
ghost use Rattle.plain.specs.Rules.{along, charge_one};
ghost use Rattle.bfq_select.specs.Service.{IsSized, IsBounded};
ghost use Rattle.bfq_select.specs.Course.{Exchanges};

use crate::VtimeFull;
use crate::places::set_vtime;
use crate::reading::{group_of, member_in, vtime_of, weight_sum_of};
use crate::stamping::{TOP, delta};
use change_record::{Parts, Tape};
use sector_core::Entity;

// The virtual time of an entity's class in its group rises by its share of the sum of weights, as it was before.
pub fn charge_one(
    parts: &mut Parts,
    tape: &mut Tape,
    sectors: u32,
    entity: Entity,
) -> Result<(), VtimeFull>
    requires room { 1 ≤ tape.old.room }
    requires sized { IsSized parts.old.tables }
    requires bounded { IsBounded (bfq_of parts.old.tables) }
    ensures made { MatchResult result (λ _. charge_one sectors entity (bfq_of parts.old.tables) ≡ Some (bfq_of parts.new.tables)) (λ _. charge_one sectors entity (bfq_of parts.old.tables) ≡ None) }
    ensures sized { IsSized parts.new.tables }
    ensures bounded { IsBounded (bfq_of parts.new.tables) }
    ensures course { Exchanges 1 parts.old.tables tape.old parts.new.tables tape.new }
{
    let group = group_of(parts, entity);
    let class = member_in(parts, group, entity).class;
    let risen = vtime_of(parts, group, class) + delta(sectors, weight_sum_of(parts, group, class));
    if risen > TOP {
        return Err(VtimeFull);
    }
    set_vtime(parts, tape, group, class, risen);
    Ok(())
}

// Each entity of a path, the leaf first.
pub fn charge_path(
    parts: &mut Parts,
    tape: &mut Tape,
    sectors: u32,
    path: &[Entity],
) -> Result<(), VtimeFull>
    requires room { length path.now ≤ tape.old.room }
    requires sized { IsSized parts.old.tables }
    requires bounded { IsBounded (bfq_of parts.old.tables) }
    ensures made { MatchResult result (λ _. along (charge_one sectors) path.now (bfq_of parts.old.tables) ≡ Some (bfq_of parts.new.tables)) (λ _. along (charge_one sectors) path.now (bfq_of parts.old.tables) ≡ None) }
    ensures sized { IsSized parts.new.tables }
    ensures bounded { IsBounded (bfq_of parts.new.tables) }
    ensures course { Exchanges (length path.now) parts.old.tables tape.old parts.new.tables tape.new }
{
    for entity in path {
        charge_one(parts, tape, sectors, *entity)?;
    }
    Ok(())
}
