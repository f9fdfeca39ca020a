// What the rules read of entities and groups.
ghost use Rattle.std.specs.Prelude.{◌≡◌, ◌<◌, ◌≤◌, ◌^◌, IfSome};
ghost use Rattle.change_record.specs.Machine.{bfq_of};
ghost use Rattle.plain.specs.Rules.{class_in, group_of, member_in, service_in, vtime_of, wsum, picked, is_idle};
ghost use Rattle.plain.specs.Members.{least_start};
ghost use Rattle.bfq_select.specs.Service.{IsSized, IsBounded};

use change_record::Parts;
use plain::{Member, State, Vtimes};
use sector_core::{Class, Entity};

// What is known of an entity that is no member.
const ABSENT: Member = Member {
    class: Class::BestEffort,
    state: State::Idle,
    start: 0,
    finish: 0,
    weight: 0,
};

// The group that an entity is in.
pub fn group_of(parts: &Parts, entity: Entity) -> u8
    requires { IsSized parts.now.tables }
    ensures value { result ≡ group_of (bfq_of parts.now.tables) entity }
    ensures within { result < 32 }
{
    match parts.groups().parent(entity) {
        Some(group) => return group,
        None => return 0,
    }
}

/// What a group knows of an entity: of one that it has not, an idle member with its times and its weight at 0.
pub fn member_in(parts: &Parts, group: u8, entity: Entity) -> Member
    ensures value { result ≡ member_in (bfq_of parts.now.tables) group entity }
    ensures start { IsBounded (bfq_of parts.now.tables) → result.start ≤ 2 ^ 62 }
    ensures finish { IsBounded (bfq_of parts.now.tables) → result.finish ≤ 2 ^ 62 }
{
    let Some(tree) = parts.tree(group) else {
        return ABSENT;
    };
    match tree.member(entity) {
        Some(member) => return member,
        None => return ABSENT,
    }
}

// The virtual times of a group.
pub fn vtimes_of(parts: &Parts, group: u8) -> Vtimes
    ensures { result ≡ ((bfq_of parts.now.tables).service group).vtimes }
{
    match parts.tree(group) {
        Some(tree) => return tree.vtimes(),
        None => return Vtimes::same(0),
    }
}

/// The virtual time of a class of a group; 0 for a group that there is not.
pub fn vtime_of(parts: &Parts, group: u8, class: Class) -> u64
    ensures value { result ≡ vtime_of (bfq_of parts.now.tables) group class }
    ensures small { IsBounded (bfq_of parts.now.tables) → result ≤ 2 ^ 62 }
{
    vtimes_of(parts, group).of(class)
}

// The highest class of a group with an active entity, if one is active.
pub fn class_in(parts: &Parts, group: u8) -> Option<Class>
    ensures { result ≡ class_in (bfq_of parts.now.tables) group }
{
    match parts.tree(group) {
        Some(tree) => return tree.first_class(),
        None => return None,
    }
}

// The sum of the weights in a class of a group, at its virtual time.
pub fn weight_sum_of(parts: &Parts, group: u8, class: Class) -> u64
    ensures { result ≡ wsum (bfq_of parts.now.tables) group class }
{
    match parts.tree(group) {
        Some(tree) => return tree.weight_sum(class, tree.vtime(class)),
        None => return 0,
    }
}

// The entity that is picked in a class of a group, if one is eligible.
pub fn picked(parts: &Parts, group: u8, class: Class) -> Option<Entity>
    ensures value { result ≡ picked (bfq_of parts.now.tables) group class }
    ensures within { IfSome result (λ entity. entity < 48) }
{
    match parts.tree(group) {
        Some(tree) => return tree.pick(class, tree.vtime(class)),
        None => return None,
    }
}

// The least start of the active entities in a class of a group, if one is active.
pub fn least_start_of(parts: &Parts, group: u8, class: Class) -> Option<u64>
    ensures value { result ≡ least_start (service_in (bfq_of parts.now.tables) group class).members }
    ensures small { IsBounded (bfq_of parts.now.tables) → IfSome result (λ start. start ≤ 2 ^ 62) }
{
    match parts.tree(group) {
        Some(tree) => return tree.least_start(class),
        None => return None,
    }
}

// Whether a member has nothing to send.
pub fn is_idle(member: Member) -> bool
    ensures { result ≡ is_idle member.state }
{
    match member.state {
        State::Idle => true,
        State::Active => false,
        State::Serving => false,
    }
}
