// From an entity upwards to the first that is not idle.
ghost use Rattle.std.specs.Prelude.{◌≡◌, ◌≤◌, MatchResult, Some, None, length};
ghost use Rattle.change_record.specs.Machine.{bfq_of};
ghost use Rattle.plain.specs.Rules.{activate_path};
ghost use Rattle.bfq_select.specs.Service.{IsSized, IsBounded};
ghost use Rattle.bfq_select.specs.Course.{Exchanges};

use crate::VtimeFull;
use crate::reading::{group_of, is_idle, member_in, vtime_of};
use crate::stamping::stamp;
use change_record::{Parts, Tape};
use sector_core::Entity;

// Each entity of a path, the leaf first, until one is not idle: it starts at the later of its last finish and the virtual time of its class.
pub fn activate_path(parts: &mut Parts, tape: &mut Tape, path: &[Entity]) -> Result<(), VtimeFull>
    requires room { length path.now ≤ tape.old.room }
    requires sized { IsSized parts.old.tables }
    requires bounded { IsBounded (bfq_of parts.old.tables) }
    ensures made { MatchResult result (λ _. activate_path path.now (bfq_of parts.old.tables) ≡ Some (bfq_of parts.new.tables)) (λ _. activate_path path.now (bfq_of parts.old.tables) ≡ None) }
    ensures sized { IsSized parts.new.tables }
    ensures bounded { IsBounded (bfq_of parts.new.tables) }
    ensures course { Exchanges (length path.now) parts.old.tables tape.old parts.new.tables tape.new }
{
    for entity in path {
        let group = group_of(parts, *entity);
        let member = member_in(parts, group, *entity);
        if !is_idle(member) {
            return Ok(());
        }
        let start = vtime_of(parts, group, member.class).max(member.finish);
        stamp(parts, tape, start, *entity)?;
    }
    Ok(())
}
