// The trees of a group beside a plain list of its members, after each of a list of changes that is the same each time.
use crate::compared::{ENTITIES, Numbers, VTIMES, next_member};
use class_trees::ClassTrees;
use plain::{Member, State};
use sector_core::{Class, Entity};

// The highest first.
const CLASSES: [Class; 3] = [Class::RealTime, Class::BestEffort, Class::Idle];

// A member, or none, under each number.
type Plain = [Option<Member>; 48];

// What is asked of the trees and of the plain list, together with what comes of it.
#[derive(Clone, Copy, Debug, PartialEq, Eq)]
enum Told {
    // What an exchange under a number hands back.
    Old(Entity, Option<Member>),
    // What stands under a number.
    Stands(Entity, Option<Member>),
    FirstClass(Option<Class>),
    LeastStart(Class, Option<u64>),
    // At a virtual time.
    Pick(Class, u64, Option<Entity>),
    Sum(Class, u64, u64),
}

// A difference: after which change, and what the trees tell beside what the plain list does.
type Difference = (u32, Told, Told);

// What has been met at least once.
#[derive(Clone, Copy, Debug, PartialEq, Eq)]
struct Met {
    // All 48 places have a member, and after that none has.
    full: bool,
    empty: bool,
    // A member that is there gets a higher class, or a lower one, in each state.
    higher: [bool; 3],
    lower: [bool; 3],
    // A member comes in the place of one of another class.
    replaced: bool,
    // The first class is each of the three, and none.
    first: [bool; 3],
    none_active: bool,
    // A member of a lower class would be picked if there were one class alone.
    behind: bool,
}

const NOTHING_MET: Met = Met {
    full: false,
    empty: false,
    higher: [false; 3],
    lower: [false; 3],
    replaced: false,
    first: [false; 3],
    none_active: false,
    behind: false,
};

const ALL_MET: Met = Met {
    full: true,
    empty: true,
    higher: [true; 3],
    lower: [true; 3],
    replaced: true,
    first: [true; 3],
    none_active: true,
    behind: true,
};

// The place of a class in their order, and of a state among the three.

fn rank(class: Class) -> usize {
    match class {
        Class::RealTime => 0,
        Class::BestEffort => 1,
        Class::Idle => 2,
    }
}

fn place(state: State) -> usize {
    match state {
        State::Idle => 0,
        State::Active => 1,
        State::Serving => 2,
    }
}

fn mark(met: &mut [bool; 3], place: usize) {
    if let Some(is_met) = met.get_mut(place) {
        *is_met = true;
    }
}

// The plain list.

fn at(members: &Plain, entity: Entity) -> Option<Member> {
    match members.get(usize::from(entity)) {
        Some(member) => *member,
        None => None,
    }
}

fn put(members: &mut Plain, entity: Entity, new: Option<Member>) {
    if let Some(member) = members.get_mut(usize::from(entity)) {
        *member = new;
    }
}

fn count_members(members: &Plain) -> u8 {
    let mut count: u8 = 0;
    for entity in 0..ENTITIES {
        if at(members, entity).is_some() {
            count = count.wrapping_add(1);
        }
    }
    count
}

// The members without those of the other classes.
fn only(members: &Plain, class: Class) -> Plain {
    let mut of_class = *members;
    for entity in 0..ENTITIES {
        if let Some(member) = at(members, entity) {
            if member.class != class {
                put(&mut of_class, entity, None);
            }
        }
    }
    of_class
}

// The active one that has started and has the least finish: the first of those, in the order of numbers.
fn pick_of(members: &Plain, vtime: u64) -> Option<Entity> {
    let mut picked: Option<(Entity, u64)> = None;
    for entity in 0..ENTITIES {
        if let Some(member) = at(members, entity) {
            let is_eligible = member.state == State::Active && member.start <= vtime;
            let is_sooner = match picked {
                Some((_, finish)) => member.finish < finish,
                None => true,
            };
            if is_eligible && is_sooner {
                picked = Some((entity, member.finish));
            }
        }
    }
    match picked {
        Some((entity, _)) => Some(entity),
        None => None,
    }
}

fn least_start_of(members: &Plain) -> Option<u64> {
    let mut least: Option<u64> = None;
    for entity in 0..ENTITIES {
        if let Some(member) = at(members, entity) {
            if member.state == State::Active {
                least = match least {
                    Some(other) => Some(other.min(member.start)),
                    None => Some(member.start),
                };
            }
        }
    }
    least
}

// An idle member counts until its finish is reached.
fn sum_of(members: &Plain, vtime: u64) -> u64 {
    let mut sum: u64 = 0;
    for entity in 0..ENTITIES {
        if let Some(member) = at(members, entity) {
            if member.state != State::Idle || member.finish > vtime {
                sum = sum.wrapping_add(u64::from(member.weight));
            }
        }
    }
    sum
}

fn first_class_of(members: &Plain) -> Option<Class> {
    for class in CLASSES {
        if least_start_of(&only(members, class)).is_some() {
            return Some(class);
        }
    }
    None
}

// The list of changes.

fn class_of(number: u64) -> Class {
    match number {
        0 => Class::RealTime,
        1 => Class::BestEffort,
        _ => Class::Idle,
    }
}

// The next entity from a number on that is a member, or that is none.
fn next_entity(members: &Plain, first: Entity, is_member: bool) -> Entity {
    for step in 0..ENTITIES {
        let entity = first.wrapping_add(step) % ENTITIES;
        if at(members, entity).is_some() == is_member {
            return entity;
        }
    }
    first
}

// One exchange: mostly inserts while the group grows, and removals while it shrinks. One in four is a change of the class of
// a member that is there.
fn next_change(members: &Plain, numbers: &mut Numbers, grows: bool) -> (Entity, Option<Member>) {
    let first = numbers.below(48) as Entity;
    let kind = numbers.below(8);
    let class = class_of(numbers.below(3));
    let new = Some(Member {
        class,
        ..next_member(numbers)
    });
    if kind < 2 {
        let entity = next_entity(members, first, true);
        return match at(members, entity) {
            Some(member) => (entity, Some(Member { class, ..member })),
            None => (entity, None),
        };
    }
    // One in eight goes the other way, and may meet a place of either kind.
    match (kind == 2, grows) {
        (true, true) => (first, None),
        (true, false) => (first, new),
        (false, true) => (next_entity(members, first, false), new),
        (false, false) => (next_entity(members, first, true), None),
    }
}

// What of a change is to be met.
fn meet_change(met: &mut Met, old: Option<Member>, new: Option<Member>) {
    let (Some(old), Some(new)) = (old, new) else {
        return;
    };
    if old.class == new.class {
        return;
    }
    let same = Member {
        class: old.class,
        ..new
    };
    if same != old {
        met.replaced = true;
    } else if rank(new.class) < rank(old.class) {
        mark(&mut met.higher, place(new.state));
    } else {
        mark(&mut met.lower, place(new.state));
    }
}

// What of the members is to be met.
fn meet(met: &mut Met, members: &Plain) {
    let count = count_members(members);
    met.empty = met.empty || (met.full && count == 0);
    met.full = met.full || count == ENTITIES;
    let Some(class) = first_class_of(members) else {
        met.none_active = true;
        return;
    };
    mark(&mut met.first, rank(class));
    if let Some(entity) = pick_of(members, u64::MAX) {
        if let Some(member) = at(members, entity) {
            met.behind = met.behind || member.class != class;
        }
    }
}

// Two answers to one question, if they are not the same.
fn apart(own: Told, plain: Told) -> Option<(Told, Told)> {
    if own == plain {
        None
    } else {
        Some((own, plain))
    }
}

// What the two say of a class, if it is not the same.
fn class_difference(trees: &ClassTrees, members: &Plain, class: Class) -> Option<(Told, Told)> {
    let members = only(members, class);
    let own = Told::LeastStart(class, trees.least_start(class));
    let found = apart(own, Told::LeastStart(class, least_start_of(&members)));
    if found.is_some() {
        return found;
    }
    for vtime in VTIMES {
        let own = Told::Pick(class, vtime, trees.pick(class, vtime));
        let found = apart(own, Told::Pick(class, vtime, pick_of(&members, vtime)));
        if found.is_some() {
            return found;
        }
        let own = Told::Sum(class, vtime, trees.weight_sum(class, vtime));
        let found = apart(own, Told::Sum(class, vtime, sum_of(&members, vtime)));
        if found.is_some() {
            return found;
        }
    }
    None
}

// What the two say of the group, if it is not the same.
fn difference(trees: &ClassTrees, members: &Plain) -> Option<(Told, Told)> {
    for entity in 0..ENTITIES {
        let own = Told::Stands(entity, trees.member(entity));
        let found = apart(own, Told::Stands(entity, at(members, entity)));
        if found.is_some() {
            return found;
        }
    }
    for class in CLASSES {
        let found = class_difference(trees, members, class);
        if found.is_some() {
            return found;
        }
    }
    let own = Told::FirstClass(trees.first_class());
    apart(own, Told::FirstClass(first_class_of(members)))
}

// The first difference after any of 2,000 changes, if there is one, and what was met. The group grows until it has all 48
// members, then shrinks until it has none, and so on.
fn compared() -> (Option<Difference>, Met) {
    let mut numbers = Numbers::new();
    let mut trees = ClassTrees::new(0);
    let mut members: Plain = [None; 48];
    let mut met = NOTHING_MET;
    let mut grows = true;
    for round in 0..2000 {
        let (entity, new) = next_change(&members, &mut numbers, grows);
        let old = at(&members, entity);
        meet_change(&mut met, old, new);
        put(&mut members, entity, new);
        let own = Told::Old(entity, trees.exchange(entity, new));
        let found = apart(own, Told::Old(entity, old)).or(difference(&trees, &members));
        if let Some((own, plain)) = found {
            return (Some((round, own, plain)), met);
        }
        meet(&mut met, &members);
        let count = count_members(&members);
        grows = (grows && count < ENTITIES) || count == 0;
    }
    (None, met)
}

#[test]
fn answers_are_those_of_the_list(rt: HostRuntime) {
    assert_eq!(rt; compared(), (None, ALL_MET));
}
