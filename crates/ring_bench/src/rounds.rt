// A core, four clients and the operator, each in a thread of its own; then every end is settled.
ghost use Rattle.std.specs.Prelude.{IfSome};
ghost use Rattle.std.specs.Thread.{IsSync};
ghost use Rattle.host_core.specs.Seats.{SameSeat};
ghost use Rattle.host_core.specs.Cores.{SameSeats};
ghost use Rattle.host_core.specs.Opening.{IsIdle};
ghost use Rattle.ring_bench.specs.Rounds.{AreFresh, AreFreshOf, AreSame, IsFreshOf};

use crate::opening::opened;
use crate::settling::settle_all;
use host_calls::{ClientCall, OperatorCall};
use host_rings::{Caller, Core, OperatorSeat};
use plain::Answer;
use sector_core::Class;
use std::alloc::Global;
use std::sync::Wait;
use std::thread::{self, Threads};

/// What came of it all.
#[derive(Clone, Copy, Debug, PartialEq, Eq)]
pub struct Tally {
    /// How many calls of clients were answered.
    pub answered: u64,
    /// How many of those were accepted.
    pub accepted: u64,
    /// How many calls were staged and not taken.
    pub left: usize,
    /// How many replies were given and not collected.
    pub uncollected: usize,
    /// Whether the operator heard of the end.
    pub has_ended: bool,
    /// Of the first ten entries of the journal, how many are a client's, and how many another's.
    pub entries: (u64, u64),
}

// A seat that has asked, with how many answers it heard, and how many of those accepted.
#[derive(Drop)]
pub struct Asked {
    pub seat: Caller,
    pub answered: u64,
    pub accepted: u64,
}

// Asks again and again to sit down.
fn ask_all<R: Wait>(rt: &R, mut seat: Caller, asks: u64) -> Asked
    requires { IsIdle seat }
    ensures { SameSeat seat result.seat }
{
    let mut answered = 0u64;
    let mut accepted = 0u64;
    for _ in 0..asks {
        if let Ok(answer) = seat.ask(
            rt,
            ClientCall::Attach {
                group: 0,
                prio: 4,
                class: Class::BestEffort,
            },
        ) {
            answered = answered.wrapping_add(1);
            if was_accepted(&answer) {
                accepted = accepted.wrapping_add(1);
            }
        }
    }
    Asked {
        seat,
        answered,
        accepted,
    }
}

fn was_accepted(answer: &Answer) -> bool {
    matches!(answer, Answer::Accepted(_))
}

// Two seats ask at once.
fn ask_two<R: Threads + Sync + Wait>(
    rt: &R,
    first: Caller,
    second: Caller,
    asks: u64,
) -> (Asked, Asked)
    requires { IsIdle first × IsIdle second }
    ensures { SameSeat first result.0.seat × SameSeat second result.1.seat }
{
    thread::join(
        rt,
        move || -> Asked
            requires { IsIdle first }
            ensures { SameSeat first result.seat }
        { ask_all(rt, first, asks) },
        move || -> Asked
            requires { IsIdle second }
            ensures { SameSeat second result.seat }
        { ask_all(rt, second, asks) },
    )
}

/// Runs a core to its end.
pub fn run<R: Wait>(rt: &R, alloc: Global, mut core: Core) -> Core
    ensures { SameSeats core result }
{
    core.run(rt, alloc);
    core
}

/// Asks for the end. Gives the seat, and whether the operator hears of it.
pub fn stop<R: Wait>(rt: &R, mut seat: OperatorSeat) -> (OperatorSeat, bool)
    requires { IsIdle seat }
    ensures { SameSeat seat result.0 }
{
    let has_ended = seat.ask(rt, OperatorCall::Stop).is_err();
    (seat, has_ended)
}

// Four seats to which nothing has come, and the operator's.
#[derive(Drop)]
struct Fresh {
    first: Caller,
    second: Caller,
    third: Caller,
    fourth: Caller,
    operator: OperatorSeat,
    asks: u64,
}

// The same after their work; and whether the operator heard of the end.
#[derive(Drop)]
pub struct Done {
    pub first: (Asked, Asked),
    pub second: (Asked, Asked),
    pub operator: OperatorSeat,
    pub has_ended: bool,
}

// Four seats ask at once, and then the operator asks for the end.
fn ask_four<R: Threads + Sync + Wait>(rt: &R, seats: Fresh) -> Done
    requires { AreFresh seats }
    ensures { AreSame seats result }
{
    let Fresh {
        first,
        second,
        third,
        fourth,
        operator,
        asks,
    } = seats;
    let (first, second) = thread::join(
        rt,
        move || -> (Asked, Asked)
            requires { IsSync R.row × IsIdle first × IsIdle second }
            ensures { SameSeat first result.0.seat × SameSeat second result.1.seat }
        { ask_two(rt, first, second, asks) },
        move || -> (Asked, Asked)
            requires { IsSync R.row × IsIdle third × IsIdle fourth }
            ensures { SameSeat third result.0.seat × SameSeat fourth result.1.seat }
        { ask_two(rt, third, fourth, asks) },
    );
    let (operator, has_ended) = stop(rt, operator);
    Done {
        first,
        second,
        operator,
        has_ended,
    }
}

// A core and its seats at work, each in a thread of its own.
fn work<R: Threads + Sync + Wait>(rt: &R, alloc: Global, core: Core, seats: Fresh) -> (Core, Done)
    requires { AreFresh seats }
    ensures { SameSeats core result.0 × AreSame seats result.1 }
{
    thread::join(
        rt,
        move || -> Core
            ensures { SameSeats core result }
        { run(rt, alloc, core) },
        move || -> Done
            requires { IsSync R.row × AreFresh seats }
            ensures { AreSame seats result }
        { ask_four(rt, seats) },
    )
}

// A seat to which nothing has come, the last of these.
fn last_of(core: &Core, callers: &mut Vec<Caller>) -> Option<Caller>
    requires { AreFreshOf core.now callers.old.items }
    ensures rest { AreFreshOf core.now callers.new.items }
    ensures seat { IfSome result (λ s. IsFreshOf core.now s) }
{
    callers.pop()
}

/// What comes of it if four clients ask at once so often, each again and again for a seat in the root group, on a host whose history
/// holds so many calls; none if there is no memory for it.
pub fn four_clients<R: Threads + Sync + Wait>(
    rt: &R,
    alloc: Global,
    asks: u64,
    history: u64,
) -> Option<Tally> {
    let (core, mut callers, devices, operator) = opened(alloc, history)?;
    let first = last_of(&core, &mut callers)?;
    let second = last_of(&core, &mut callers)?;
    let third = last_of(&core, &mut callers)?;
    let fourth = last_of(&core, &mut callers)?;
    let seats = Fresh {
        first,
        second,
        third,
        fourth,
        operator,
        asks,
    };
    let (core, done) = work(rt, alloc, core, seats);
    Some(settle_all(core, done, callers, devices))
}
