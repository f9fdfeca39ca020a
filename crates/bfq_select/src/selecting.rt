// The choice in one class of a group.
ghost use Rattle.std.specs.Prelude.{◌≡◌, ◌≤◌, ◌<◌, IfSome};
ghost use Rattle.change_record.specs.Machine.{bfq_of};
ghost use Rattle.plain.specs.Rules.{jumped, picked, in_service};
ghost use Rattle.bfq_select.specs.Service.{IsSized, IsBounded};
ghost use Rattle.bfq_select.specs.Course.{Exchanges};

use crate::places::{set_member, set_vtime};
use crate::reading::{least_start_of, member_in, picked};
use change_record::{Parts, Tape};
use plain::{Member, State};
use sector_core::{Class, Entity};

// If nobody in a class of a group is eligible, its virtual time becomes the least start of those that are active. The entity that
// is picked then comes back: it is asked for again only if the virtual time has changed.
pub fn jump(parts: &mut Parts, tape: &mut Tape, group: u8, class: Class) -> Option<Entity>
    requires room { 1 ≤ tape.old.room }
    requires sized { IsSized parts.old.tables }
    requires bounded { IsBounded (bfq_of parts.old.tables) }
    requires group { group < 32 }
    ensures made { bfq_of parts.new.tables ≡ jumped group class (bfq_of parts.old.tables) }
    ensures picked { result ≡ picked (bfq_of parts.new.tables) group class }
    ensures within { IfSome result (λ entity. entity < 48) }
    ensures sized { IsSized parts.new.tables }
    ensures bounded { IsBounded (bfq_of parts.new.tables) }
    ensures course { Exchanges 1 parts.old.tables tape.old parts.new.tables tape.new }
{
    let entity = picked(parts, group, class);
    if entity.is_some() {
        return entity;
    }
    let Some(start) = least_start_of(parts, group, class) else {
        return entity;
    };
    set_vtime(parts, tape, group, class, start);
    picked(parts, group, class)
}

// An entity of a group is in service.
pub fn serve(parts: &mut Parts, tape: &mut Tape, group: u8, entity: Entity)
    requires room { 1 ≤ tape.old.room }
    requires sized { IsSized parts.old.tables }
    requires bounded { IsBounded (bfq_of parts.old.tables) }
    requires group { group < 32 }
    ensures made { bfq_of parts.new.tables ≡ in_service group entity (bfq_of parts.old.tables) }
    ensures sized { IsSized parts.new.tables }
    ensures bounded { IsBounded (bfq_of parts.new.tables) }
    ensures course { Exchanges 1 parts.old.tables tape.old parts.new.tables tape.new }
{
    let member = member_in(parts, group, entity);
    let serving = Member {
        state: State::Serving,
        ..member
    };
    set_member(parts, tape, group, entity, serving);
}
