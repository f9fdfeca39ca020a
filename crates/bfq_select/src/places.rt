// The four places that the rules change, each by one exchange.
ghost use Rattle.std.specs.Prelude.{◌≡◌, ◌≤◌, ◌<◌, ◌^◌, Some};
ghost use Rattle.plain.specs.declared.seat.InService.{InService as Slot};
ghost use Rattle.change_record.specs.Machine.{bfq_of};
ghost use Rattle.plain.specs.Machine.{put};
ghost use Rattle.plain.specs.Rules.{put_member, put_vtime};
ghost use Rattle.bfq_select.specs.Service.{IsSized, IsBounded};
ghost use Rattle.bfq_select.specs.Course.{Exchanges};

use crate::reading::vtimes_of;
use change_record::{Change, MemberPlace, Parts, Tape};
use plain::{InService, Member};
use sector_core::{Class, Entity};

// This at an entity's place in a group.
pub fn set_member(parts: &mut Parts, tape: &mut Tape, group: u8, entity: Entity, member: Member)
    requires room { 1 ≤ tape.old.room }
    requires sized { IsSized parts.old.tables }
    requires group { group < 32 }
    ensures made { bfq_of parts.new.tables ≡ put_member group entity member (bfq_of parts.old.tables) }
    ensures sized { IsSized parts.new.tables }
    ensures bounded { IsBounded (bfq_of parts.old.tables) → member.start ≤ 2 ^ 62 → member.finish ≤ 2 ^ 62 → IsBounded (bfq_of parts.new.tables) }
    ensures course { Exchanges 1 parts.old.tables tape.old parts.new.tables tape.new }
{
    tape.exchange(
        parts,
        Change::TreeMember {
            group,
            entity,
            member: MemberPlace::of(Some(member)),
        },
    );
}

// This as the virtual time of a class of a group.
pub fn set_vtime(parts: &mut Parts, tape: &mut Tape, group: u8, class: Class, vtime: u64)
    requires room { 1 ≤ tape.old.room }
    requires sized { IsSized parts.old.tables }
    requires group { group < 32 }
    ensures made { bfq_of parts.new.tables ≡ put_vtime group class vtime (bfq_of parts.old.tables) }
    ensures sized { IsSized parts.new.tables }
    ensures bounded { IsBounded (bfq_of parts.old.tables) → vtime ≤ 2 ^ 62 → IsBounded (bfq_of parts.new.tables) }
    ensures course { Exchanges 1 parts.old.tables tape.old parts.new.tables tape.new }
{
    let vtimes = vtimes_of(parts, group).with(class, vtime);
    tape.exchange(parts, Change::Vtime { group, vtimes });
}

// This as an entity's budget.
pub fn set_budget(parts: &mut Parts, tape: &mut Tape, entity: Entity, budget: u32)
    requires room { 1 ≤ tape.old.room }
    requires sized { IsSized parts.old.tables }
    requires entity { entity < 48 }
    ensures made { bfq_of parts.new.tables ≡ record (bfq_of parts.old.tables) { budget = put (bfq_of parts.old.tables).budget entity budget } }
    ensures sized { IsSized parts.new.tables }
    ensures bounded { IsBounded (bfq_of parts.old.tables) → 256 ≤ budget → budget ≤ 65536 → IsBounded (bfq_of parts.new.tables) }
    ensures course { Exchanges 1 parts.old.tables tape.old parts.new.tables tape.new }
{
    tape.exchange(parts, Change::Budget { entity, budget });
}

// This as the queue in service.
pub fn set_slot(parts: &mut Parts, tape: &mut Tape, slot: Option<InService>)
    requires room { 1 ≤ tape.old.room }
    requires sized { IsSized parts.old.tables }
    ensures made { bfq_of parts.new.tables ≡ record (bfq_of parts.old.tables) { in_service = slot } }
    ensures sized { ((served : Slot) → slot ≡ Some served → served.seat < 16) → IsSized parts.new.tables }
    ensures bounded { IsBounded (bfq_of parts.old.tables) → ((served : Slot) → slot ≡ Some served → served.service ≤ 65536) → IsBounded (bfq_of parts.new.tables) }
    ensures course { Exchanges 1 parts.old.tables tape.old parts.new.tables tape.new }
{
    tape.exchange(parts, Change::Serving { slot });
}
