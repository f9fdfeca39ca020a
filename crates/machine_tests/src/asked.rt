// The calls of clients and of the operator, asked of a keeper.
use crate::host::checked;
use bytes::Bytes;
use dispatch_core::{Answer, Reply, Step, Why};
use history::{Call, ClientCall, Keeper, OperatorCall};
use sector_core::{Class, ConfigDraft, Op, Range, Scheduler};
use std::alloc::Global;
use std::process::Abort;
use std::test::Fail;

const TWO: Range = Range { start: 4, count: 2 };

// A keeper before its first call.
fn opened(alloc: Global) -> Result<Keeper, Fail> {
    Ok(Keeper::new(alloc, checked(ConfigDraft::default())?, 8)?)
}

// The number of what was accepted, or of a refusal after 100, or of a wait after 200.
fn told(answer: &Answer) -> u64 {
    match answer {
        Answer::Accepted(Reply::Attached { session }) => *session,
        Answer::Accepted(Reply::Queued { bio }) => *bio,
        Answer::Accepted(Reply::Group { number }) => u64::from(*number),
        Answer::Accepted(Reply::Moved { cursor, length }) => {
            u64::from(*cursor) * 10 + u64::from(*length)
        }
        Answer::Accepted(_) => 0,
        Answer::Refused(code) => 100 + u64::from(code.number()),
        Answer::NotYet(cause) => 200 + u64::from(cause.number()),
    }
}

// A client's call, in short.
#[derive(Clone, Copy, Debug)]
enum Ask {
    // Sits down in the root group, with this priority.
    Attach(u8),
    // Stores two sectors in this session, and the same with one byte too few.
    Store(u64),
    StoreShort(u64),
    // Discards two sectors in this session, with bytes as a store has them.
    DiscardOfBytes(u64),
    // Reaps in this session.
    Reap(u64),
    Leave,
}

fn call_of(alloc: Global, ask: Ask) -> Result<ClientCall, Fail> {
    Ok(match ask {
        Ask::Attach(prio) => ClientCall::Attach {
            group: 0,
            prio,
            class: Class::BestEffort,
        },
        Ask::Store(session) => store(alloc, session)?,
        Ask::StoreShort(session) => { submit(session, Op::Store, Bytes::from_static(&[65; 1023])) }
        Ask::DiscardOfBytes(session) => {
            submit(session, Op::Discard, Bytes::from_static(&[0; 1024]))
        }
        Ask::Reap(session) => ClientCall::Reap { session },
        Ask::Leave => ClientCall::Leave { why: Why::Ended },
    })
}

fn store(alloc: Global, session: u64) -> Result<ClientCall, Fail> {
    let payload = Bytes::from_vec(vec![in alloc; 65u8; 1024]?)?;
    Ok(submit(session, Op::Store, payload))
}

fn submit(session: u64, op: Op, payload: Bytes) -> ClientCall {
    ClientCall::Submit {
        session,
        op,
        range: TWO,
        payload,
    }
}

fn client(keeper: &mut Keeper, alloc: Global, seat: u8, ask: Ask) -> Result<u64, Fail> {
    Ok(told(&keeper.call(alloc, &call_of(alloc, ask)?.of_seat(seat))))
}

// Clients at these seats ask a new keeper so, one after the other, and each is answered so.
fn clients(rt: &(impl Abort + AllocGlobal), all: &[(u8, Ask, u64)]) -> Result<(), Fail> {
    let mut keeper = opened(rt.alloc())?;
    for (seat, ask, answer) in all {
        assert_eq!(rt;
            client(&mut keeper, rt.alloc(), *seat, *ask)?,
            *answer,
            "{seat} {ask:?}"
        );
    }
    Ok(())
}

#[test]
fn clients_at_their_seats(rt: HostRuntime) -> Result<(), Fail> {
    let all = [
        (5, Ask::Attach(8), 108),
        (5, Ask::Attach(7), 1),
        (2, Ask::Reap(1), 103),
        (5, Ask::Leave, 0),
    ];
    clients(&rt, &all)
}

#[test]
fn client_stores(rt: HostRuntime) -> Result<(), Fail> {
    let all = [
        (0, Ask::Attach(4), 1),
        (0, Ask::Store(2), 104),
        (0, Ask::StoreShort(1), 113),
        (0, Ask::DiscardOfBytes(1), 113),
        (0, Ask::Store(1), 2),
        (0, Ask::Reap(1), 244),
    ];
    clients(&rt, &all)
}

// The payload of a store is that of its call.
#[test]
fn payload_in_the_call(rt: HostRuntime) -> Result<(), Fail> {
    match store(rt.alloc(), 9)?.of_seat(15) {
        Call::Do(
            Step::Submit {
                seat: 15,
                session: 9,
                op: Op::Store,
                range: TWO,
                payload,
            },
        ) => assert_eq!(rt; payload.as_slice(), [65u8; 1024].as_slice()),
        _ => return Err(Fail::from("a store")),
    }
    Ok(())
}

// Stop is 300.
fn operator(keeper: &mut Keeper, alloc: Global, call: OperatorCall) -> u64 {
    match call.into_call() {
        Some(call) => told(&keeper.call(alloc, &call)),
        None => 300,
    }
}

// The operator asks a new keeper so, one call after the other, and each is answered so.
fn operators(rt: &(impl Abort + AllocGlobal), all: &[(OperatorCall, u64)]) -> Result<(), Fail> {
    let mut keeper = opened(rt.alloc())?;
    for (call, answer) in all {
        assert_eq!(rt;
            operator(&mut keeper, rt.alloc(), *call),
            *answer,
            "{call:?}"
        );
    }
    Ok(())
}

#[test]
fn operator_makes_a_group(rt: HostRuntime) -> Result<(), Fail> {
    let make = OperatorCall::GroupMake {
        parent: 0,
        weight: 1000,
    };
    let weigh = OperatorCall::SetWeight {
        group: 1,
        weight: 1001,
    };
    let drop = OperatorCall::GroupDrop { group: 1 };
    operators(&rt, &[(make, 1), (weigh, 107), (drop, 0), (drop, 105)])
}

#[test]
fn operator_freezes_and_switches(rt: HostRuntime) -> Result<(), Fail> {
    let switch = OperatorCall::Switch {
        scheduler: Scheduler::Plain,
    };
    let all = [
        (switch, 123),
        (OperatorCall::Freeze, 0),
        (switch, 0),
        (OperatorCall::Thaw, 0),
        (OperatorCall::Tick, 126),
    ];
    operators(&rt, &all)
}

#[test]
fn operator_rewinds(rt: HostRuntime) -> Result<(), Fail> {
    let all = [
        (OperatorCall::Freeze, 0),
        (OperatorCall::Hold, 11),
        (OperatorCall::Thaw, 241),
        (OperatorCall::Undo { k: 1 }, 1),
        (OperatorCall::Redo { k: 1 }, 11),
        (OperatorCall::Release, 0),
        (OperatorCall::Stop, 300),
    ];
    operators(&rt, &all)
}

// Calls are compared by their fields.
#[test]
fn operators_calls_compared(rt: HostRuntime) {
    assert_eq!(rt; OperatorCall::Undo { k: 2 }, OperatorCall::Undo { k: 2 });
    assert!(rt; OperatorCall::Undo { k: 2 } != OperatorCall::Undo { k: 3 });
    assert!(rt; OperatorCall::Undo { k: 2 } != OperatorCall::Redo { k: 2 });
    assert!(rt; OperatorCall::Stop != OperatorCall::Hold);
}
