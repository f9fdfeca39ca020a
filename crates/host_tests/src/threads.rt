// A core that sleeps, and its seats, each in a thread of its own.
ghost use Rattle.std.specs.Prelude.{◌≡◌, ◌<◌, ◌+◌, length, true, false};
ghost use Rattle.host_core.specs.Opening.{IsIdle};
ghost use Rattle.host_core.specs.Seats.{staged, collected, is_closed};

use crate::opening::opened;
use crate::workers::last_client;
use host_calls::{ClientCall, OperatorCall, RingReply};
use host_rings::{Caller, Core, OperatorSeat};
use sector_core::Class;
use std::alloc::Global;
use std::sync::Wait;
use std::test::Fail;
use std::thread::{self, Threads};

// So often a client gives its processor away before it collects. A core that has nothing to do sleeps long before that.
const YIELDS: u32 = 100_000;

fn attach() -> ClientCall {
    ClientCall::Attach {
        group: 0,
        prio: 4,
        class: Class::BestEffort,
    }
}

// Waits until another thread that has nothing to do is likely to sleep.
pub fn pause() {
    for _ in 0..YIELDS {
        thread::yield_now();
    }
}

// Stages four calls, of which three find places for their answers; waits until the core is likely to sleep; and then collects all four.
fn collect_late<R: Wait>(rt: &R, mut seat: Caller) {
    for _ in 0..4u8 {
        let _staged = seat.stage(attach());
    }
    pause();
    let mut collected = 0u8;
    for _ in rt.forever() {
        if seat.collect().is_some() {
            collected = collected.wrapping_add(1);
        }
        if collected == 4 {
            return;
        }
        thread::yield_now();
    }
}

// A core that sleeps until a reply is collected, and then the end. Gives whether the operator hears of it.
fn woken<R: Threads + Sync + Wait>(rt: &R, alloc: Global) -> Result<bool, Fail> {
    let (mut core, mut callers, _devices, mut operator) = opened(alloc, 1)?;
    let seat = callers.swap_remove(0);
    let (_core, has_ended) = thread::join(
        rt,
        move || -> Core {
            core.run(rt, alloc);
            core
        },
        move || -> bool
            requires { IsIdle operator }
        {
            collect_late(rt, seat);
            operator.ask(rt, OperatorCall::Stop).is_err()
        },
    );
    Ok(has_ended)
}

// A core that waits for a place is woken when a reply is collected.
#[test]
fn a_collected_reply_wakes_the_core(rt: HostRuntime) -> Result<(), Fail> {
    assert_eq!(rt; woken(&rt, rt.alloc())?, true);
    Ok(())
}

// Collects a reply that is to come. Gives whether it is an answer.
fn collect<R: Wait>(rt: &R, seat: &mut Caller) -> bool
    requires open { is_closed seat.old ≡ false }
    requires owed { length (collected seat.old) < length (staged seat.old) }
    ensures open { result ≡ true → is_closed seat.new ≡ false }
    ensures collected { length (collected seat.new) ≡ length (collected seat.old) + 1 }
    ensures staged { staged seat.new ≡ staged seat.old }
{
    matches!(seat.collect_waiting(rt), RingReply::Answer(_))
}

// Stages four calls while the core sleeps, and collects the four replies. Between, it waits until the core sleeps again, if it is to. Gives
// whether all are answers.
pub fn ask_four<R: Wait>(rt: &R, seat: &mut Caller, sleeps_between: bool) -> bool
    requires { IsIdle seat.old }
{
    pause();
    seat.stage_both_waiting(rt, attach(), attach());
    seat.stage_both_waiting(rt, attach(), attach());
    if sleeps_between {
        pause();
    }
    collect(rt, seat) && collect(rt, seat) && collect(rt, seat) && collect(rt, seat)
}

// A core, and a client that asks four calls at once. Gives whether all are answered.
fn asked_at_once<R: Threads + Sync + Wait>(
    rt: &R,
    alloc: Global,
    sleeps_between: bool,
) -> Result<bool, Fail> {
    let (mut core, mut callers, _devices, mut operator) = opened(alloc, 1)?;
    let mut seat = last_client(&mut callers)?;
    let (_core, are_answered) = thread::join(
        rt,
        move || -> Core {
            core.run(rt, alloc);
            core
        },
        move || -> bool
            requires { IsIdle operator × IsIdle seat }
        {
            let are_answered = ask_four(rt, &mut seat, sleeps_between);
            let _ended = operator.ask(rt, OperatorCall::Stop);
            are_answered
        },
    );
    Ok(are_answered)
}

// Three of four calls find places for their replies. Who waits for them is woken all the same, and so is the core, for the fourth.
#[test]
fn four_calls_at_once_are_answered(rt: HostRuntime) -> Result<(), Fail> {
    for sleeps_between in [false, true] {
        assert_eq!(rt;
            asked_at_once(&rt, rt.alloc(), sleeps_between)?,
            true,
            "{sleeps_between}"
        );
    }
    Ok(())
}

// A client whose first call waits while the host is held, with another one behind it. Gives whether it hears the end.
fn kept_waiting<R: Threads + Sync + Wait>(
    rt: &R,
    mut seat: Caller,
    mut operator: OperatorSeat,
) -> bool
    requires { IsIdle seat × IsIdle operator }
{
    let Ok(_held) = operator.ask(rt, OperatorCall::Hold) else {
        return false;
    };
    seat.stage_both_waiting(rt, attach(), attach());
    let (is_answered, _ended) = thread::join(
        rt,
        move || -> bool
            requires { (is_closed seat ≡ false) × (length (collected seat) < length (staged seat)) }
        { collect(rt, &mut seat) },
        move || -> bool
            requires { is_closed operator ≡ false → length (staged operator) ≡ length (collected operator) }
        {
            pause();
            operator.ask(rt, OperatorCall::Stop).is_err()
        },
    );
    !is_answered
}

// The same, at a core of its own.
fn stopped_while_held<R: Threads + Sync + Wait>(rt: &R, alloc: Global) -> Result<bool, Fail> {
    let (mut core, mut callers, _devices, operator) = opened(alloc, 1)?;
    let seat = last_client(&mut callers)?;
    let (_core, is_closed) = thread::join(
        rt,
        move || -> Core {
            core.run(rt, alloc);
            core
        },
        move || -> bool
            requires { IsIdle seat × IsIdle operator }
        { kept_waiting(rt, seat, operator) },
    );
    Ok(is_closed)
}

// Behind the end no reply comes that would ring, so the end rings whatever stands in the ring.
#[test]
fn the_end_wakes_who_has_two_calls(rt: HostRuntime) -> Result<(), Fail> {
    assert_eq!(rt; stopped_while_held(&rt, rt.alloc())?, true);
    Ok(())
}
