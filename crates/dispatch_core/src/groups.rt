// The steps of groups: they are made, dropped and given weights.
ghost use Rattle.std.specs.Prelude.{◌≡◌, ◌+◌, ◌≤◌, ◌<◌, IfOk, IfSome, length};
ghost use Rattle.change_record.specs.Trail.{KeepsTrail};
ghost use Rattle.change_record.specs.Machine.{bfq_of};
ghost use Rattle.plain.specs.Steps.GroupMake.{group_make, free_group};
ghost use Rattle.plain.specs.Steps.GroupDrop.{group_drop, is_used};
ghost use Rattle.plain.specs.Steps.SetWeight.{set_weight};
ghost use Rattle.plain.specs.Entities.{is_weight};
ghost use Rattle.plain.specs.Step.{of_sizes};
ghost use Rattle.dispatch_core.specs.Relation.{Answers, Leaves};
ghost use Rattle.dispatch_core.specs.WellFormed.{WellFormed};

use crate::entering::{enter, stands};
use crate::{Answer, Code, Reply, Sizes};
use change_record::{Change, MemberPlace, Parts, Tape};
use group_tree::MOST_LEVELS;
use plain::{SEATS, Vtimes};
use sector_core::{Class, OutOfMemory};

/// The group gets the lowest number that is free.
pub fn run_group_make(
    sizes: Sizes,
    parts: &mut Parts,
    tape: &mut Tape,
    serial: u64,
    room: bool,
    parent: u8,
    weight: u16,
) -> Result<Answer, OutOfMemory>
    requires { WellFormed (of_sizes sizes) serial parts.old.tables }
    ensures answers { Answers (λ m. group_make (of_sizes sizes) m room parent weight) parts.old.tables result parts.new.tables }
    ensures leaves { IfOk result (λ answer. Leaves (of_sizes sizes) serial 4 0 answer parts.old.tables tape.old.current parts.new.tables tape.new.current tape.new.spare) }
    ensures trail { KeepsTrail tape.old.current parts.old.tables tape.new.current parts.new.tables }
    ensures steps { tape.new.steps ≡ tape.old.steps }
{
    if !stands(parts, parent) {
        return Ok(Answer::Refused(Code::NoGroup));
    }
    if !is_weight(weight) {
        return Ok(Answer::Refused(Code::BadWeight));
    }
    if parts.groups().depth(parent) >= MOST_LEVELS {
        return Ok(Answer::Refused(Code::TooDeep));
    }
    let Some(group) = free_group(parts) else {
        return Ok(Answer::Refused(Code::GroupsFull));
    };
    if !room {
        return Ok(Answer::Refused(Code::HistoryFull));
    }
    tape.reserve(4)?;
    enter(
        sizes,
        parts,
        tape,
        SEATS + group,
        parent,
        Class::BestEffort,
        u32::from(weight),
    );
    tape.exchange(
        parts,
        Change::Vtime {
            group,
            vtimes: Vtimes::same(sizes.first_vtime),
        },
    );
    Ok(Answer::Accepted(Reply::Group { number: group }))
}

/// A group goes in which there is no entity.
pub fn run_group_drop(
    sizes: Sizes,
    parts: &mut Parts,
    tape: &mut Tape,
    serial: u64,
    room: bool,
    group: u8,
) -> Result<Answer, OutOfMemory>
    requires { WellFormed (of_sizes sizes) serial parts.old.tables }
    ensures answers { Answers (λ m. group_drop m room group) parts.old.tables result parts.new.tables }
    ensures leaves { IfOk result (λ answer. Leaves (of_sizes sizes) serial 2 0 answer parts.old.tables tape.old.current parts.new.tables tape.new.current tape.new.spare) }
    ensures trail { KeepsTrail tape.old.current parts.old.tables tape.new.current parts.new.tables }
    ensures steps { tape.new.steps ≡ tape.old.steps }
{
    if !stands(parts, group) {
        return Ok(Answer::Refused(Code::NoGroup));
    }
    // The root always stands.
    if group == 0 {
        return Ok(Answer::Refused(Code::RootGroup));
    }
    if is_used(parts, group) {
        return Ok(Answer::Refused(Code::GroupInUse));
    }
    if !room {
        return Ok(Answer::Refused(Code::HistoryFull));
    }
    tape.reserve(2)?;
    let entity = SEATS + group;
    let parent = match parts.groups().parent(entity) {
        Some(parent) => parent,
        None => 0,
    };
    tape.exchange(
        parts,
        Change::TreeMember {
            group: parent,
            entity,
            member: MemberPlace::of(None),
        },
    );
    tape.exchange(
        parts,
        Change::GroupEntry {
            entity,
            group: None,
        },
    );
    Ok(Answer::Accepted(Reply::Done))
}

/// The weight is pending until the group is stamped next.
pub fn run_set_weight(
    sizes: Sizes,
    parts: &mut Parts,
    tape: &mut Tape,
    serial: u64,
    room: bool,
    group: u8,
    weight: u16,
) -> Result<Answer, OutOfMemory>
    requires { WellFormed (of_sizes sizes) serial parts.old.tables }
    ensures answers { Answers (λ m. set_weight m room group weight) parts.old.tables result parts.new.tables }
    ensures leaves { IfOk result (λ answer. Leaves (of_sizes sizes) serial 1 0 answer parts.old.tables tape.old.current parts.new.tables tape.new.current tape.new.spare) }
    ensures trail { KeepsTrail tape.old.current parts.old.tables tape.new.current parts.new.tables }
    ensures steps { tape.new.steps ≡ tape.old.steps }
{
    if !stands(parts, group) {
        return Ok(Answer::Refused(Code::NoGroup));
    }
    if group == 0 {
        return Ok(Answer::Refused(Code::RootGroup));
    }
    if !is_weight(weight) {
        return Ok(Answer::Refused(Code::BadWeight));
    }
    if !room {
        return Ok(Answer::Refused(Code::HistoryFull));
    }
    tape.reserve(1)?;
    tape.exchange(
        parts,
        Change::Pending {
            entity: SEATS + group,
            weight: u32::from(weight),
        },
    );
    Ok(Answer::Accepted(Reply::Done))
}

// Whether a weight is 1 to 1000.
fn is_weight(weight: u16) -> bool
    ensures { result ≡ is_weight weight }
{
    weight >= 1 && weight <= 1000
}

// The lowest number of a group that does not stand.
fn free_group(parts: &Parts) -> Option<u8>
    ensures value { result ≡ free_group (bfq_of parts.now.tables) }
    ensures within { IfSome result (λ group. group < 32) }
{
    for group in 1..32u8 {
        if !stands(parts, group) {
            return Some(group);
        }
    }
    None
}

// Whether an entity is in a group that there can be.
fn is_used(parts: &Parts, group: u8) -> bool
    requires places { length parts.now.tables.parents ≡ 48 }
    requires below { group < 32 }
    ensures { result ≡ is_used (bfq_of parts.now.tables) group }
{
    parts.groups().first_child(group).is_some()
}
