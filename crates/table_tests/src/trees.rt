// What no clause says: each call once, and the rules at listed members. The numbers are worked out by hand.
use plain::{Member, State};
use sector_core::Class;
use service_tree::ServiceTree;
use std::process::Abort;

fn member(state: State, start: u64, finish: u64, weight: u32) -> Member {
    Member {
        class: Class::BestEffort,
        state,
        start,
        finish,
        weight,
    }
}

// Members 3 and 7 of one start and one finish, and member 20, which starts later and ends sooner.
fn three() -> ServiceTree {
    let mut tree = ServiceTree::new(5);
    let _ = tree.insert(7, member(State::Active, 10, 30, 5));
    let _ = tree.insert(3, member(State::Active, 10, 30, 2));
    let _ = tree.insert(20, member(State::Active, 11, 20, 1));
    tree
}

// What is done with a tree, together with what comes of it.
#[derive(Clone, Copy, Debug, PartialEq, Eq)]
enum Told {
    Pick(u64, Option<u8>),
    LeastStart(Option<u64>),
    Vtime(u64),
    // At a virtual time.
    Sum(u64, u64),
    // Another virtual time, and the one before.
    SetVtime(u64, u64),
    // A member comes under a number, or goes: what came back.
    Insert(u8, Member, Option<Member>),
    Exchange(u8, Option<Member>, Option<Member>),
    Remove(u8, Option<Member>),
    // What stands under a number.
    Stands(u8, Option<Member>),
}

// Does that again, and tells what came of it.
fn again(tree: &mut ServiceTree, told: Told) -> Told {
    match told {
        Told::Pick(vtime, _) => Told::Pick(vtime, tree.pick(vtime)),
        Told::LeastStart(_) => Told::LeastStart(tree.least_start()),
        Told::Vtime(_) => Told::Vtime(tree.vtime()),
        Told::Sum(vtime, _) => Told::Sum(vtime, tree.weight_sum(vtime)),
        Told::SetVtime(vtime, _) => Told::SetVtime(vtime, tree.exchange_vtime(vtime)),
        Told::Insert(entity, new, _) => Told::Insert(entity, new, tree.insert(entity, new)),
        Told::Exchange(entity, new, _) => Told::Exchange(entity, new, tree.exchange(entity, new)),
        Told::Remove(entity, _) => Told::Remove(entity, tree.remove(entity)),
        Told::Stands(entity, _) => Told::Stands(entity, tree.get(entity)),
    }
}

// All of that comes again, in this order.
fn expect(rt: &impl Abort, tree: ServiceTree, all: &[Told]) {
    let mut tree = tree;
    for told in all {
        assert_eq!(rt; again(&mut tree, *told), *told);
    }
}

// A start just above the virtual time is not eligible. Of two equal finishes the lower number is first.
#[test]
fn picks_the_least_finish_of_the_eligible(rt: HostRuntime) {
    let all = [
        Told::Pick(9, None),
        Told::Pick(10, Some(3)),
        Told::Pick(11, Some(20)),
        Told::LeastStart(Some(10)),
    ];
    expect(&rt, three(), &all);
}

#[test]
fn picks_active_members_alone(rt: HostRuntime) {
    let all = [
        Told::Insert(0, member(State::Serving, 1, 2, 9), None),
        Told::Insert(47, member(State::Idle, 1, 2, 9), None),
        Told::Pick(u64::MAX, None),
        Told::LeastStart(None),
    ];
    expect(&rt, ServiceTree::new(5), &all);
}

// Members are put under numbers, or taken out. After each: what stands there, the pick at 10, and the least start.
#[test]
fn changes(rt: HostRuntime) {
    let third = Some(member(State::Active, 10, 30, 2));
    let seventh = Some(member(State::Active, 10, 30, 5));
    let later = Some(member(State::Active, 12, 31, 5));
    let all = [
        Told::Remove(3, third),
        Told::Stands(3, None),
        Told::Pick(10, Some(7)),
        Told::LeastStart(Some(10)),
        Told::Exchange(7, later, seventh),
        Told::Stands(7, later),
        Told::Pick(10, None),
        Told::LeastStart(Some(11)),
        // Entity 48 is not there.
        Told::Exchange(48, later, later),
        Told::Stands(48, None),
        Told::Pick(10, None),
        Told::LeastStart(Some(11)),
        Told::Remove(48, None),
        Told::Stands(48, None),
        Told::Pick(10, None),
        Told::LeastStart(Some(11)),
    ];
    expect(&rt, three(), &all);
}

// An idle member counts until its finish is reached; an active one and one in service always do. After each insert: the
// sums at 49 and at 50.
#[test]
fn sums(rt: HostRuntime) {
    let all = [
        Told::SetVtime(6, 5),
        Told::Vtime(6),
        Told::Sum(0, 0),
        Told::Insert(4, member(State::Idle, 40, 50, 3), None),
        Told::Sum(49, 3),
        Told::Sum(50, 0),
        Told::Insert(5, member(State::Active, 10, 20, 20), None),
        Told::Sum(49, 23),
        Told::Sum(50, 20),
        Told::Insert(6, member(State::Serving, 10, 20, 100), None),
        Told::Sum(49, 123),
        Told::Sum(50, 120),
        Told::Vtime(6),
    ];
    expect(&rt, ServiceTree::new(5), &all);
}
