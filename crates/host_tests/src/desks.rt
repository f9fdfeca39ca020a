// A seat and its desk, in one thread.
ghost use Rattle.host_core.specs.Seats.{SameSeat, SameDesk};

use host_calls::{ClientCall, OperatorCall, RingReply, SeatName};
use host_core::{Asked, Bell, ClientReplies, Desk, Seat, Staged, open_seat};
use plain::{Answer, Call, Cause, Code, DeviceCall, Reply, Step, Work};
use rtrb::AnyItems;
use sector_core::{Op, Range};
use std::alloc::Global;
use std::sync::Wait;
use std::test::Fail;

type Caller = Seat<ClientCall, ClientReplies>;

type CallerDesk = Desk<ClientCall, ClientReplies>;

// Seat 3 and its desk.
fn opened(alloc: Global) -> Result<(Caller, CallerDesk), Fail> {
    let core = Bell::new(alloc)?;
    Ok(open_seat(alloc, &core, 3, 0)?)
}

// The session of a Reap.
fn session_of(call: &ClientCall) -> u64 {
    match call {
        ClientCall::Reap { session } => *session,
        _ => 99,
    }
}

// The seat and the session of a Reap that waits, or 99 and 99 if none does.
fn waiting(desk: &CallerDesk) -> (u8, u64) {
    match desk.waiting() {
        Some(Asked::Ask(Call::Do(Step::Reap { seat, session }))) => (*seat, *session),
        _ => (99, 99),
    }
}

// The number of a refusal, 98 for Closed, 97 for another answer, and 99 for no reply.
fn told(reply: Option<RingReply>) -> u8 {
    match reply {
        Some(RingReply::Answer(Answer::Refused(code))) => code.number(),
        Some(RingReply::Answer(_)) => 97,
        Some(RingReply::Closed) => 98,
        None => 99,
    }
}

// Stages Reaps of the sessions from 1 to the one before the end, and gives the session of the one that is handed back, if one is.
fn stage(seat: &mut Caller, end: u64) -> Option<u64> {
    for session in 1..end {
        if let Err(back) = seat.stage(ClientCall::Reap { session }) {
            return Some(session_of(&back));
        }
    }
    None
}

// What waits after a take, and again after a second one; then it is refused, and what waits after one more take.
fn taken(alloc: Global) -> Result<[(u8, u64); 3], Fail> {
    let (mut seat, mut desk) = opened(alloc)?;
    stage(&mut seat, 3);
    desk.take();
    let first = waiting(&desk);
    desk.take();
    let again = waiting(&desk);
    answer(&mut desk);
    desk.take();
    Ok([first, again, waiting(&desk)])
}

// Refuses the call that waits, if one does.
fn answer(desk: &mut CallerDesk)
    ensures { SameDesk desk.old desk.new }
{
    if desk.waiting().is_some() && !desk.is_closed() {
        desk.answer(Answer::Refused(Code::NoSession));
    }
}

#[test]
fn one_call_waits(rt: HostRuntime) -> Result<(), Fail> {
    assert_eq!(rt; taken(rt.alloc())?, [(3, 1), (3, 1), (3, 2)]);
    Ok(())
}

// The fifth call comes back.
#[test]
fn four_places(rt: HostRuntime) -> Result<(), Fail> {
    let (mut seat, _desk) = opened(rt.alloc())?;
    assert_eq!(rt; stage(&mut seat, 9), Some(5));
    Ok(())
}

// Four calls are staged. Three are answered, and no reply is collected: the fourth waits in its ring, as one place of four is left for
// replies. Then one reply is collected.
fn held_back(alloc: Global) -> Result<((u8, u64), (u8, u64)), Fail> {
    let (mut seat, mut desk) = opened(alloc)?;
    stage(&mut seat, 5);
    for _ in 0..3 {
        desk.take();
        answer(&mut desk);
    }
    desk.take();
    let before = waiting(&desk);
    seat.collect();
    desk.take();
    Ok((before, waiting(&desk)))
}

#[test]
fn two_places_for_replies(rt: HostRuntime) -> Result<(), Fail> {
    assert_eq!(rt; held_back(rt.alloc())?, ((99, 99), (3, 4)));
    Ok(())
}

// One call is answered, and one waits; then the core ends, and one call more is staged. What is collected then, what waits, and what
// an ask gives.
fn ended<R: Wait>(rt: &R, alloc: Global) -> Result<([u8; 4], (u8, u64), bool), Fail> {
    let (mut seat, mut desk) = opened(alloc)?;
    stage(&mut seat, 3);
    desk.take();
    answer(&mut desk);
    desk.take();
    if !desk.is_closed() {
        desk.close();
    }
    stage(&mut seat, 2);
    desk.take();
    let replies = [
        told(seat.collect()),
        told(seat.collect()),
        told(seat.collect()),
        told(seat.collect()),
    ];
    let last = if seat.is_closed() {
        seat.ask(rt, ClientCall::Reap { session: 7 }).is_err()
    } else {
        false
    };
    Ok((replies, waiting(&desk), last))
}

// Closed is the last reply: the call that waits gets no other, and none more is taken.
#[test]
fn closed_is_last(rt: HostRuntime) -> Result<(), Fail> {
    assert_eq!(rt; ended(&rt, rt.alloc())?, ([3, 98, 99, 99], (3, 2), true));
    Ok(())
}

// What is asked at seat 2: 1 for a step that is due, 2 for the end, 10 and the number of a device that asks for work, 0 for another.
fn asked(asked: &Asked) -> u8 {
    match asked {
        Asked::Ask(Call::Do(step)) => due(step),
        Asked::Ask(_) => 0,
        Asked::Take { worker } => 10 + (*worker).min(9),
        Asked::Stop => 2,
    }
}

fn due(step: &Step) -> u8 {
    match step {
        Step::Reap { seat, session } => u8::from(*seat == 2 && *session == 9),
        Step::Requeue { tag, issue } => u8::from(*tag == 4 && *issue == 9),
        Step::Freeze => 1,
        _ => 0,
    }
}

// The same of a call of each kind. These have no clauses, so that a test carries numbers alone.
fn by_client(call: ClientCall) -> u8 {
    asked(&call.asked(2))
}

fn by_device(call: DeviceCall) -> u8 {
    asked(&call.asked(2))
}

fn by_operator(call: OperatorCall) -> u8 {
    asked(&call.asked(2))
}

#[test]
fn each_kind_of_seat(rt: HostRuntime) {
    let found = [
        by_client(ClientCall::Reap { session: 9 }),
        by_device(DeviceCall::Requeue { tag: 4, issue: 9 }),
        by_device(DeviceCall::Take { worker: 3 }),
        by_operator(OperatorCall::Freeze),
        by_operator(OperatorCall::Stop),
    ];
    assert_eq!(rt; found, [1, 1, 13, 1, 2]);
    let names = [
        ClientCall::name(2),
        DeviceCall::name(2),
        OperatorCall::name(2),
    ];
    let wanted = [SeatName::Client(2), SeatName::Device(2), SeatName::Operator];
    assert_eq!(rt; names, wanted);
}

// Work of this issue under tag 2.
fn work(issue: u64) -> Answer {
    let range = Range { start: 0, count: 1 };
    Answer::Accepted(Reply::Taken(Work {
        tag: 2,
        issue,
        op: Op::Fetch,
        range,
    }))
}

// The issue that a device's desk handed out last: before the first answer, and after each of these, which are collected.
fn handed_out(alloc: Global, answers: [Answer; 4]) -> Result<[Option<u64>; 5], Fail> {
    let core = Bell::new(alloc)?;
    let (mut seat, mut desk) = open_seat::<DeviceCall, AnyItems>(alloc, &core, 1, 0)?;
    let mut lasts = [desk.last(); 5];
    for (number, answer) in answers.into_iter().enumerate() {
        if seat.stage(DeviceCall::Take { worker: 1 }).is_err() {
            return Err(Fail::from("the ring is full"));
        }
        desk.take();
        if desk.waiting().is_some() && !desk.is_closed() {
            desk.answer(answer);
        }
        seat.collect();
        lasts[number + 1] = desk.last();
    }
    Ok(lasts)
}

// What was taken last stays so until other work is taken.
#[test]
fn last_work_handed_out(rt: HostRuntime) -> Result<(), Fail> {
    let answers = [
        work(3),
        Answer::NotYet(Cause::NothingToTake),
        work(9),
        Answer::Refused(Code::BadWorker),
    ];
    let lasts = [None, Some(3), Some(3), Some(9), Some(9)];
    assert_eq!(rt; handed_out(rt.alloc(), answers)?, lasts);
    Ok(())
}

// Three calls are staged. Two are taken and answered, and one reply is collected.
fn worked(seat: &mut Caller, desk: &mut CallerDesk)
    ensures seat { SameSeat seat.old seat.new }
    ensures desk { SameDesk desk.old desk.new }
{
    for session in 1..4 {
        let _staged = seat.stage(ClientCall::Reap { session });
    }
    for _ in 0..2u8 {
        desk.take();
        answer(desk);
    }
    let _first = seat.collect();
}

// How many calls are left then, and how many replies were not collected.
fn settled(alloc: Global) -> Result<(usize, usize), Fail> {
    let core = Bell::new(alloc)?;
    let (mut seat, mut desk) = open_seat::<ClientCall, ClientReplies>(alloc, &core, 3, 0)?;
    worked(&mut seat, &mut desk);
    let settled = desk.settle(seat.finish());
    Ok((settled.left, settled.uncollected))
}

#[test]
fn one_call_and_one_reply_are_left(rt: HostRuntime) -> Result<(), Fail> {
    assert_eq!(rt; settled(rt.alloc())?, (1, 1));
    Ok(())
}
