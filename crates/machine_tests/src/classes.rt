// The class of a session, as its Attach says it, and as the machine shows it.
use crate::host::checked;
use dispatch_core::{Answer, EntityView, Why};
use history::{Call, ClientCall, Keeper};
use sector_core::{Class, ConfigDraft};
use std::alloc::Global;
use std::process::Abort;
use std::test::Fail;

// The seat at which the sessions sit, one after the other, and the number of its entity.
const SEAT: u8 = 3;

// What is asked of the keeper.
#[derive(Clone, Copy, Debug, PartialEq, Eq)]
enum Ask {
    Attach(Class),
    Leave,
    Hold,
    Undo(u32),
    Redo(u32),
    Release,
}

// A keeper before its first call.
fn opened(alloc: Global) -> Result<Keeper, Fail> {
    Ok(Keeper::new(alloc, checked(ConfigDraft::default())?, 8)?)
}

fn call_of(ask: Ask) -> Call {
    match ask {
        Ask::Attach(class) => attach(class).of_seat(SEAT),
        Ask::Leave => ClientCall::Leave { why: Why::Ended }.of_seat(SEAT),
        Ask::Hold => Call::Hold,
        Ask::Undo(k) => Call::Undo { k },
        Ask::Redo(k) => Call::Redo { k },
        Ask::Release => Call::Release,
    }
}

fn attach(class: Class) -> ClientCall {
    ClientCall::Attach {
        group: 0,
        prio: 4,
        class,
    }
}

// Asks that, and tells the class of the seat's entity then, if it has one. The call is accepted.
fn class_then(keeper: &mut Keeper, alloc: Global, ask: Ask) -> Result<Option<Class>, Fail> {
    let Answer::Accepted(_) = keeper.call(alloc, &call_of(ask)) else {
        return Err(Fail::from("the call is accepted"));
    };
    Ok(keeper.view().machine().entity(SEAT).map(class_of))
}

fn class_of(entity: EntityView) -> Class {
    entity.class
}

// A new keeper is asked so, one call after the other, and each time the seat's entity has this class then.
fn expect(rt: &(impl Abort + AllocGlobal), all: &[(Ask, Option<Class>)]) -> Result<(), Fail> {
    let mut keeper = opened(rt.alloc())?;
    for (ask, class) in all {
        assert_eq!(rt;
            class_then(&mut keeper, rt.alloc(), *ask)?,
            *class,
            "{ask:?}"
        );
    }
    Ok(())
}

#[test]
fn each_class_is_shown(rt: HostRuntime) -> Result<(), Fail> {
    for class in [Class::RealTime, Class::BestEffort, Class::Idle] {
        expect(&rt, &[(Ask::Attach(class), Some(class))])?;
    }
    Ok(())
}

// A session of real time leaves, and one of the idle class comes to its seat. An undo gives back what was, and a redo what came.
#[test]
fn another_class_undone_and_redone(rt: HostRuntime) -> Result<(), Fail> {
    let all = [
        (Ask::Attach(Class::RealTime), Some(Class::RealTime)),
        (Ask::Leave, None),
        (Ask::Attach(Class::Idle), Some(Class::Idle)),
        (Ask::Hold, Some(Class::Idle)),
        (Ask::Undo(1), None),
        (Ask::Undo(1), Some(Class::RealTime)),
        (Ask::Redo(2), Some(Class::Idle)),
        (Ask::Undo(2), Some(Class::RealTime)),
        (Ask::Undo(1), None),
        (Ask::Release, None),
        // Another future.
        (Ask::Attach(Class::BestEffort), Some(Class::BestEffort)),
    ];
    expect(&rt, &all)
}
