// A seat and its desk, in two threads.
ghost use Rattle.std.specs.Prelude.{◌≡◌, length};
ghost use Rattle.host_core.specs.Seats.{staged, collected};

use crate::threads::{ask_four, pause};
use host_calls::{ClientCall, RingReply};
use host_core::{Bell, ClientReplies, Desk, Patience, Seat, open_seat};
use plain::{Answer, Code};
use std::alloc::Global;
use std::sync::Wait;
use std::test::Fail;
use std::thread::{self, Threads};

// How many calls are made.
const CALLS: u64 = 1000;

// Refuses so many calls, and then says that the core has ended. After so many looks that found none it sleeps.
fn refuse_all<R: Wait>(
    rt: &R,
    mut desk: Desk<ClientCall, ClientReplies>,
    bell: &Bell,
    calls: u64,
    looks: u32,
) {
    let mut refused = 0u64;
    let mut patience = Patience::new(looks);
    for _ in rt.forever() {
        desk.take();
        if desk.is_closed() || refused == calls {
            break;
        }
        if desk.waiting().is_some() {
            desk.answer(Answer::Refused(Code::NoSession));
            refused = refused.wrapping_add(1);
            patience.found();
        } else {
            patience.rest(rt, bell);
        }
    }
    if !desk.is_closed() {
        desk.close();
    }
}

// How many of the calls were refused, and whether the next found the core ended.
fn ask_all<R: Wait>(rt: &R, mut seat: Seat<ClientCall, ClientReplies>) -> (u64, bool)
    requires { length (staged seat) ≡ length (collected seat) }
{
    let mut refused = 0u64;
    for session in 0..CALLS {
        if let Ok(Answer::Refused(Code::NoSession)) = seat.ask(rt, ClientCall::Reap { session }) {
            refused = refused.wrapping_add(1);
        }
    }
    (
        refused,
        seat.ask(rt, ClientCall::Reap { session: 0 }).is_err(),
    )
}

// All calls, in two threads that look so often before they sleep.
fn asked<R: Threads + Wait + Copy + Drop + Send + 'static>(
    rt: R,
    alloc: Global,
    looks: u32,
) -> Result<(u64, bool), Fail> {
    let core = Bell::new(alloc)?;
    let bell = core.shared()?;
    let (seat, desk) = open_seat::<ClientCall, ClientReplies>(alloc, &core, 0, looks)?;
    let host = thread::spawn(&rt, move || refuse_all(&rt, desk, &bell, CALLS, looks))?;
    let result = ask_all(&rt, seat);
    let _ = host.join(&rt);
    Ok(result)
}

// No ring is lost: whoever sleeps is woken. With no look each wait is a sleep.
#[test]
fn each_call_is_answered(rt: HostRuntime) -> Result<(), Fail> {
    for looks in [0, 1, 100] {
        assert_eq!(rt; asked(rt, rt.alloc(), looks)?, (CALLS, true));
    }
    Ok(())
}

// Four calls at once, made by who sleeps when the first of them is answered. Gives whether all are answered.
fn asked_asleep<R: Threads + Wait + Copy + Drop + Send + 'static>(
    rt: R,
    alloc: Global,
) -> Result<bool, Fail> {
    let core = Bell::new(alloc)?;
    let bell = core.shared()?;
    let (mut seat, desk) = open_seat::<ClientCall, ClientReplies>(alloc, &core, 0, 0)?;
    let host = thread::spawn(&rt, move || {
        // The calls are there, and with no look who made them sleeps soon.
        bell.rest(&rt, true);
        pause();
        refuse_all(&rt, desk, &bell, 4, 0);
    })?;
    let are_answered = ask_four(&rt, &mut seat, false);
    let _ = host.join(&rt);
    Ok(are_answered)
}

// Behind the third answer the fourth call waits for a place. Who sleeps is woken there.
#[test]
fn a_seat_without_a_place_is_woken(rt: HostRuntime) -> Result<(), Fail> {
    assert_eq!(rt; asked_asleep(rt, rt.alloc())?, true);
    Ok(())
}
