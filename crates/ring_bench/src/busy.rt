// Clients that ask at once, with two devices at work, each in a thread of its own.
ghost use Rattle.std.specs.Prelude.{◌≡◌, length, false, IfSome};
ghost use Rattle.host_core.specs.Seats.{staged, collected};
ghost use Rattle.host_core.specs.Opening.{IsIdle, AreIdle};

use crate::opening::opened;
use crate::rounds::{run, stop};
use bytes::Bytes;
use host_calls::{ClientCall, RingReply};
use host_core::Seat;
use host_rings::{Caller, DeviceSeat};
use plain::{Answer, DeviceCall, Reply, Work};
use rtrb::Protocol;
use sector_core::{Class, Op, Outcome, Range};
use std::alloc::Global;
use std::sync::Wait;
use std::thread::{self, Threads};

// So many calls a history holds.
const HISTORY: u64 = 16_000_000;

/// What a client asks again and again.
#[derive(Clone, Copy, Debug, PartialEq, Eq)]
pub enum Round {
    /// A Reap of no session, which is refused at once.
    Refused,
    /// A read of a sector, and then its result.
    Read,
}

/// How many rounds were answered, of so many by each of so many clients at once; none if there is no memory for them.
pub fn many_clients<R: Threads + Wait + Copy + Drop + Send + 'static>(
    rt: R,
    alloc: Global,
    clients: u64,
    rounds: u64,
    round: Round,
) -> Option<u64> {
    let (core, callers, devices, operator) = opened(alloc, HISTORY)?;
    let running = thread::spawn(&rt, move || run(&rt, alloc, core)).ok()?;
    start_devices(rt, alloc, devices)?;
    let answered = ask_at_once(rt, alloc, callers, clients, rounds, round)?;
    let _operator = stop(&rt, operator);
    let _core = running.join(&rt);
    Some(answered)
}

// Each device works until the core has ended, and nobody joins it.
fn start_devices<R: Threads + Wait + Copy + Drop + Send + 'static>(
    rt: R,
    alloc: Global,
    mut devices: Vec<DeviceSeat>,
) -> Option<()>
    requires { AreIdle devices.items }
{
    for number in [1u8, 0] {
        if let Some(seat) = last_device(&mut devices) {
            let _working = thread::spawn(
                &rt,
                move || -> ()
                    requires { IsIdle seat }
                { serve(&rt, alloc, seat, number) },
            )
            .ok()?;
        }
    }
    Some(())
}

// How many rounds of the clients were answered.
fn ask_at_once<R: Threads + Wait + Copy + Drop + Send + 'static>(
    rt: R,
    alloc: Global,
    mut callers: Vec<Caller>,
    clients: u64,
    rounds: u64,
    round: Round,
) -> Option<u64>
    requires { AreIdle callers.items }
{
    let mut asking = Vec::new(alloc);
    for number in 0..clients {
        if let Some(seat) = last_caller(&mut callers) {
            let handle = thread::spawn(
                &rt,
                move || -> u64
                    requires { IsIdle seat }
                { ask_rounds(&rt, seat, number, rounds, round) },
            )
            .ok()?;
            asking.push(handle).ok()?;
        }
    }
    let mut answered = 0u64;
    for handle in asking {
        answered = answered.wrapping_add(handle.join(&rt));
    }
    Some(answered)
}

pub fn last_caller(callers: &mut Vec<Caller>) -> Option<Caller>
    requires { AreIdle callers.old.items }
    ensures rest { AreIdle callers.new.items }
    ensures seat { IfSome result (λ s. IsIdle s) }
{
    callers.pop()
}

fn last_device(devices: &mut Vec<DeviceSeat>) -> Option<DeviceSeat>
    requires { AreIdle devices.old.items }
    ensures rest { AreIdle devices.new.items }
    ensures seat { IfSome result (λ s. IsIdle s) }
{
    devices.pop()
}

// A device: it takes work and finishes it, each sector all zeros, until the core has ended.
fn serve<R: Wait>(rt: &R, alloc: Global, mut seat: DeviceSeat, worker: u8)
    requires { IsIdle seat }
{
    for _ in rt.forever() {
        let Some(taken) = ask_again(rt, &mut seat, DeviceCall::Take { worker }) else {
            return;
        };
        if let Some(call) = finish_of(alloc, &taken) {
            let Some(_finished) = ask_again(rt, &mut seat, call) else {
                return;
            };
        }
    }
    unreachable!()
}

// What is answered at a seat where each call before has a reply; nothing if the host has ended.
fn ask_again<R: Wait, C: Drop, P: Protocol<RingReply>>(
    rt: &R,
    seat: &mut Seat<C, P>,
    call: C,
) -> Option<Answer>
    requires { length (staged seat.old) ≡ length (collected seat.old) }
    ensures { IfSome result (λ _. length (staged seat.new) ≡ length (collected seat.new)) }
{
    seat.ask(rt, call).ok()
}

// How work ends; none if none was taken, or there is no memory for its bytes.
fn finish_of(alloc: Global, taken: &Answer) -> Option<DeviceCall> {
    match taken {
        Answer::Accepted(Reply::Taken(work)) => finished(alloc, work),
        _ => None,
    }
}

fn finished(alloc: Global, work: &Work) -> Option<DeviceCall> {
    let zeros = vec![in alloc; 0u8; 512 * work.range.count as usize].ok()?;
    let bytes = Bytes::from_vec(zeros).ok()?;
    Some(DeviceCall::Finish {
        tag: work.tag,
        issue: work.issue,
        outcome: Outcome::Fetched(bytes),
    })
}

// A client: how many of its rounds were answered. Its sector is apart from those of all others.
fn ask_rounds<R: Wait>(rt: &R, mut seat: Caller, number: u64, rounds: u64, round: Round) -> u64
    requires { IsIdle seat }
{
    let Some(attached) = ask_again(
        rt,
        &mut seat,
        ClientCall::Attach {
            group: 0,
            prio: 4,
            class: Class::BestEffort,
        },
    ) else {
        return 0;
    };
    let session = session_of(&attached);
    let mut answered = 0u64;
    for _ in 0..rounds {
        if round == Round::Read {
            let Some(_queued) = ask_again(rt, &mut seat, read_of(session, number)) else {
                return answered;
            };
        }
        let reaped = if round == Round::Read { session } else { 0 };
        let Some(_reaped) = ask_again(rt, &mut seat, ClientCall::Reap { session: reaped }) else {
            return answered;
        };
        answered = answered.wrapping_add(1);
    }
    answered
}

fn session_of(attached: &Answer) -> u64 {
    match attached {
        Answer::Accepted(Reply::Attached { session }) => *session,
        _ => 0,
    }
}

fn read_of(session: u64, number: u64) -> ClientCall {
    ClientCall::Submit {
        session,
        op: Op::Fetch,
        range: Range {
            start: number.wrapping_mul(4),
            count: 1,
        },
        payload: Bytes::new(),
    }
}
