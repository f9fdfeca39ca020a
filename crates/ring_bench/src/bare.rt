// One seat and its desk, with no keeper behind it: what the rings and the bells take.
ghost use Rattle.std.specs.Prelude.{◌≡◌, length};
ghost use Rattle.host_core.specs.Seats.{staged, collected};

use host_calls::ClientCall;
use host_core::{Bell, ClientReplies, Desk, LOOKS, Patience, Seat, open_seat};
use plain::{Answer, Code};
use std::alloc::Global;
use std::sync::Wait;
use std::thread::{self, Threads};

/// How many calls were answered, of so many at a seat whose desk refuses each; none if there is no memory for it.
pub fn bare_calls<R: Threads + Wait + Copy + Drop + Send + 'static>(
    rt: R,
    alloc: Global,
    calls: u64,
) -> Option<u64> {
    let core = Bell::new(alloc).ok()?;
    let bell = core.shared().ok()?;
    let (seat, desk) = open_seat::<ClientCall, ClientReplies>(alloc, &core, 0, LOOKS).ok()?;
    let refusing = thread::spawn(&rt, move || refuse_all(&rt, desk, &bell, calls)).ok()?;
    let answered = ask_all(&rt, seat, calls);
    refusing.join(&rt);
    Some(answered)
}

// Refuses so many calls.
fn refuse_all<R: Wait>(rt: &R, mut desk: Desk<ClientCall, ClientReplies>, bell: &Bell, calls: u64) {
    let mut refused = 0u64;
    let mut patience = Patience::new(LOOKS);
    for _ in rt.forever() {
        desk.take();
        if desk.is_closed() || refused == calls {
            return;
        }
        if desk.waiting().is_some() {
            desk.answer(Answer::Refused(Code::NoSession));
            refused = refused.wrapping_add(1);
            patience.found();
        } else {
            patience.rest(rt, bell);
        }
    }
}

// How many of the calls were answered.
fn ask_all<R: Wait>(rt: &R, mut seat: Seat<ClientCall, ClientReplies>, calls: u64) -> u64
    requires { length (staged seat) ≡ length (collected seat) }
{
    let mut answered = 0u64;
    for session in 0..calls {
        if seat.ask(rt, ClientCall::Reap { session }).is_ok() {
            answered = answered.wrapping_add(1);
        }
    }
    answered
}
