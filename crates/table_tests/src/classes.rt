// What no clause says: each call of the trees of a group once, and the rules at listed members. The numbers are worked out by hand.
use Class::{BestEffort, Idle, RealTime};
use class_trees::ClassTrees;
use plain::{Member, State, Vtimes};
use sector_core::{Class, Entity};
use std::process::Abort;

// It waits.
const FIRST: Member = Member {
    class: RealTime,
    state: State::Active,
    start: 10,
    finish: 30,
    weight: 2,
};

// It waits too, and ends sooner.
const SECOND: Member = Member {
    class: BestEffort,
    state: State::Active,
    start: 10,
    finish: 20,
    weight: 5,
};

// So does it, and it ends soonest.
const THIRD: Member = Member {
    class: Idle,
    state: State::Active,
    start: 5,
    finish: 6,
    weight: 1,
};

// Members 3, 7 and 20, each of another class.
fn three() -> ClassTrees {
    let mut trees = ClassTrees::new(5);
    let _ = trees.exchange(3, Some(FIRST));
    let _ = trees.exchange(7, Some(SECOND));
    let _ = trees.exchange(20, Some(THIRD));
    trees
}

// What is done with the trees, together with what comes of it.
#[derive(Clone, Copy, Debug, PartialEq, Eq)]
enum Told {
    // At a virtual time.
    Pick(Class, u64, Option<Entity>),
    Sum(Class, u64, u64),
    LeastStart(Class, Option<u64>),
    FirstClass(Option<Class>),
    Vtime(Class, u64),
    Vtimes(Vtimes),
    // Other virtual times, and those before.
    SetVtimes(Vtimes, Vtimes),
    // A member comes under a number, or goes: what came back.
    Exchange(Entity, Option<Member>, Option<Member>),
    // What stands under a number.
    Stands(Entity, Option<Member>),
}

// Does that again, and tells what came of it.
fn again(trees: &mut ClassTrees, told: Told) -> Told {
    match told {
        Told::Pick(class, vtime, _) => Told::Pick(class, vtime, trees.pick(class, vtime)),
        Told::Sum(class, vtime, _) => Told::Sum(class, vtime, trees.weight_sum(class, vtime)),
        Told::LeastStart(class, _) => Told::LeastStart(class, trees.least_start(class)),
        Told::FirstClass(_) => Told::FirstClass(trees.first_class()),
        Told::Vtime(class, _) => Told::Vtime(class, trees.vtime(class)),
        Told::Vtimes(_) => Told::Vtimes(trees.vtimes()),
        Told::SetVtimes(vtimes, _) => Told::SetVtimes(vtimes, trees.exchange_vtimes(vtimes)),
        Told::Exchange(entity, new, _) => Told::Exchange(entity, new, trees.exchange(entity, new)),
        Told::Stands(entity, _) => Told::Stands(entity, trees.member(entity)),
    }
}

// All of that comes again, in this order.
fn expect(rt: &impl Abort, trees: ClassTrees, all: &[Told]) {
    let mut trees = trees;
    for told in all {
        assert_eq!(rt; again(&mut trees, *told), *told);
    }
}

// Each question is asked of one class alone, and the first class is the highest, whatever the times are.
#[test]
fn each_class_has_answers_of_its_own(rt: HostRuntime) {
    let all = [
        Told::Pick(RealTime, 9, None),
        Told::Pick(RealTime, 10, Some(3)),
        Told::Pick(BestEffort, 10, Some(7)),
        Told::Pick(Idle, 4, None),
        Told::Pick(Idle, 10, Some(20)),
        Told::LeastStart(RealTime, Some(10)),
        Told::LeastStart(BestEffort, Some(10)),
        Told::LeastStart(Idle, Some(5)),
        Told::Sum(RealTime, 10, 2),
        Told::Sum(BestEffort, 10, 5),
        Told::Sum(Idle, 10, 1),
        Told::FirstClass(Some(RealTime)),
        Told::Stands(3, Some(FIRST)),
        Told::Stands(7, Some(SECOND)),
        Told::Stands(20, Some(THIRD)),
        Told::Stands(21, None),
    ];
    expect(&rt, three(), &all);
}

// Member 3 comes to the class of member 7, which ends sooner. Then they go, one after the other.
#[test]
fn a_member_changes_its_class(rt: HostRuntime) {
    let moved = Some(Member {
        class: BestEffort,
        ..FIRST
    });
    let all = [
        Told::Exchange(3, moved, Some(FIRST)),
        Told::Stands(3, moved),
        Told::Pick(RealTime, 10, None),
        Told::LeastStart(RealTime, None),
        Told::Sum(RealTime, 10, 0),
        Told::Pick(BestEffort, 10, Some(7)),
        Told::Sum(BestEffort, 10, 7),
        Told::FirstClass(Some(BestEffort)),
        Told::Exchange(7, None, Some(SECOND)),
        Told::Pick(BestEffort, 10, Some(3)),
        Told::Sum(BestEffort, 10, 2),
        Told::Exchange(3, None, moved),
        Told::Stands(3, None),
        Told::LeastStart(BestEffort, None),
        Told::FirstClass(Some(Idle)),
    ];
    expect(&rt, three(), &all);
}

// A member that is served or has nothing to send makes no class the first. An idle one counts until its finish is reached.
#[test]
fn the_first_class_has_an_active_member(rt: HostRuntime) {
    let rested = Some(Member {
        state: State::Idle,
        ..THIRD
    });
    let served = Some(Member {
        state: State::Serving,
        ..FIRST
    });
    let all = [
        Told::FirstClass(None),
        Told::Exchange(20, rested, None),
        Told::FirstClass(None),
        Told::Sum(Idle, 5, 1),
        Told::Sum(Idle, 6, 0),
        Told::Exchange(3, served, None),
        Told::FirstClass(None),
        Told::Pick(RealTime, 10, None),
        Told::Sum(RealTime, 30, 2),
        Told::Exchange(20, Some(THIRD), rested),
        Told::FirstClass(Some(Idle)),
        Told::Exchange(7, Some(SECOND), None),
        Told::FirstClass(Some(BestEffort)),
        Told::Exchange(3, Some(FIRST), served),
        Told::FirstClass(Some(RealTime)),
        // Entity 48 is not there.
        Told::Exchange(48, rested, rested),
        Told::Stands(48, None),
        Told::Sum(Idle, 5, 1),
    ];
    expect(&rt, ClassTrees::new(5), &all);
}

// The times are those of the classes alone: no member and no first class depends on them.
#[test]
fn times(rt: HostRuntime) {
    let others = Vtimes {
        real_time: 11,
        best_effort: 12,
        idle: 13,
    };
    let risen = Vtimes {
        real_time: 11,
        best_effort: 40,
        idle: 13,
    };
    assert_eq!(rt; others.with(BestEffort, 40), risen);
    assert_eq!(rt; risen.of(BestEffort), 40);
    let all = [
        Told::Vtimes(Vtimes::same(5)),
        Told::Vtime(RealTime, 5),
        Told::SetVtimes(others, Vtimes::same(5)),
        Told::Vtime(RealTime, 11),
        Told::Vtime(BestEffort, 12),
        Told::Vtime(Idle, 13),
        Told::SetVtimes(others.with(BestEffort, 40), others),
        Told::Vtimes(risen),
        Told::Stands(7, Some(SECOND)),
        Told::FirstClass(Some(RealTime)),
    ];
    expect(&rt, three(), &all);
}
