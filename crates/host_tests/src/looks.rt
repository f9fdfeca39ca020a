// A core that is looked at, from a thread of its own.
ghost use Rattle.host_core.specs.Opening.{IsIdle};

use crate::opening::opened;
use host_calls::OperatorCall;
use host_looks::{LookDesk, LookSeat, open_looks};
use host_rings::{Book, Core};
use script_host::Host;
use script_line::Line;
use std::alloc::Global;
use std::sync::Wait;
use std::test::Fail;
use std::thread::{self, Threads};

// So often who looks gives its processor away before it asks. A core that has nothing to do sleeps long before that.
const YIELDS: u32 = 100_000;

// Whether a look tells this.
fn tells<R: Wait>(rt: &R, seat: &mut LookSeat, wanted: &[u8]) -> bool {
    match seat.ask(rt, Line::Cursor) {
        Some(told) => told.text.as_slice() == wanted,
        None => false,
    }
}

// Runs a core, and tells who looks. Gives how often it was about to sleep.
fn run_looked_at<R: Wait>(rt: &R, alloc: Global, mut core: Core, mut desk: LookDesk) -> u64 {
    let mut rests = 0u64;
    core.run_watched(rt, alloc, |book: &Book, is_resting: bool| {
        if is_resting {
            rests = rests.wrapping_add(1);
        }
        desk.serve(alloc, &Host { keeper: book });
    });
    rests
}

// Looks twice at a core that sleeps, at a step and at its end, and once more. Gives what was told as it should, and how often the core was
// about to sleep.
fn looked_at<R: Threads + Sync + Wait>(rt: &R, alloc: Global) -> Result<([bool; 4], u64), Fail> {
    let (core, _callers, _devices, mut operator) = opened(alloc, 1)?;
    let (mut seat, desk) = open_looks(alloc, core.bell()?)?;
    let (rests, told) = thread::join(
        rt,
        move || -> u64 { run_looked_at(rt, alloc, core, desk) },
        move || -> [bool; 4]
            requires { IsIdle operator }
        {
            for _ in 0..YIELDS {
                thread::yield_now();
            }
            let first = tells(rt, &mut seat, b"line 0 0 0\n");
            let again = tells(rt, &mut seat, b"line 0 0 0\n");
            let is_frozen = operator.ask(rt, OperatorCall::Freeze).is_ok();
            let later = is_frozen && tells(rt, &mut seat, b"line 1 1 1\n");
            let is_ended = operator.ask(rt, OperatorCall::Stop).is_err();
            // The last turn is shown too, and one look may be told of it.
            let _ = seat.ask(rt, Line::Cursor);
            let last = is_ended && seat.ask(rt, Line::Cursor).is_none();
            [first, again, later, last]
        },
    );
    Ok((told, rests))
}

// A look wakes the core, and tells of the turn that was made last. Once the core has ended nothing is told.
#[test]
fn a_look_wakes_the_core(rt: HostRuntime) -> Result<(), Fail> {
    let (told, rests) = looked_at(&rt, rt.alloc())?;
    assert_eq!(rt; told, [true, true, true, true]);
    // It slept before the first look.
    assert!(rt; rests > 0);
    Ok(())
}
