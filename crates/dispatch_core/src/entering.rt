// Groups and their entities: whether a group stands, and a new entity in one.
ghost use Rattle.std.specs.Prelude.{◌≡◌, ◌+◌, ◌≤◌, length};
ghost use Rattle.change_record.specs.Trail.{KeepsTrail};
ghost use Rattle.change_record.specs.Machine.{bfq_of};
ghost use Rattle.plain.specs.Rules.{stands};
ghost use Rattle.plain.specs.Step.{of_sizes};
ghost use Rattle.plain.specs.Looks.{service_of};
ghost use Rattle.dispatch_core.specs.Changes.{entered};

use crate::Sizes;
use change_record::{Change, MemberPlace, Parts, Tape};
use plain::{GROUPS, Member, SEATS, State};
use sector_core::{Class, Entity};

/// Whether a group stands: the root does always.
pub fn stands(parts: &Parts, group: u8) -> bool
    ensures { result ≡ stands (bfq_of parts.now.tables) group }
{
    if group == 0 {
        return true;
    }
    if group >= GROUPS {
        return false;
    }
    parts.groups().parent(SEATS + group).is_some()
}

/// Puts a new entity of a class and a weight into a group: idle, with its times at the first virtual time.
pub fn enter(
    sizes: Sizes,
    parts: &mut Parts,
    tape: &mut Tape,
    entity: Entity,
    group: u8,
    class: Class,
    weight: u32,
)
    requires { 3 ≤ tape.old.room }
    ensures tables { parts.new.tables ≡ entered (of_sizes sizes) parts.old.tables entity group class weight }
    ensures trail { KeepsTrail tape.old.current parts.old.tables tape.new.current parts.new.tables }
    ensures steps { tape.new.steps ≡ tape.old.steps }
    ensures count { length tape.new.current ≡ length tape.old.current + 3 }
    ensures room { tape.old.room ≤ tape.new.room + 3 }
    ensures spare { tape.new.spare ≡ tape.old.spare }
{
    let member = Member {
        class,
        state: State::Idle,
        start: sizes.first_vtime,
        finish: sizes.first_vtime,
        weight,
    };
    tape.exchange(
        parts,
        Change::GroupEntry {
            entity,
            group: Some(group),
        },
    );
    tape.exchange(
        parts,
        Change::TreeMember {
            group,
            entity,
            member: MemberPlace::of(Some(member)),
        },
    );
    tape.exchange(parts, Change::Pending { entity, weight });
}

/// The sectors that were sent for an entity of this state since it was selected.
pub fn service_of(parts: &Parts, state: State) -> u32
    ensures { result ≡ service_of state (bfq_of parts.now.tables) }
{
    match state {
        State::Idle => 0,
        State::Active => 0,
        State::Serving => match parts.slot() {
            Some(slot) => slot.service,
            None => 0,
        },
    }
}
