// A held host with a call that waits.
use crate::busy::last_caller;
use crate::opening::opened;
use crate::rounds::run;
use host_calls::{ClientCall, OperatorCall};
use sector_core::Class;
use std::alloc::Global;
use std::io::Input;
use std::sync::Wait;
use std::thread::{self, Threads};

/// A core in a thread of its own, held, with a client's call that waits, until standard input ends. Gives how many lines that had; none
/// if there is no memory.
pub fn held_until_input_ends<R: Threads + Wait + Input + Copy + Drop + Send + 'static>(
    rt: R,
    alloc: Global,
) -> Option<u64> {
    let (core, mut callers, _devices, mut operator) = opened(alloc, 100)?;
    let running = thread::spawn(&rt, move || run(&rt, alloc, core)).ok()?;
    let Ok(_held) = operator.ask(&rt, OperatorCall::Hold) else {
        return None;
    };
    let mut seat = last_caller(&mut callers)?;
    let _staged = seat.stage(ClientCall::Attach {
        group: 0,
        prio: 4,
        class: Class::BestEffort,
    });
    let mut lines = 0u64;
    for _ in rt.lines(alloc) {
        lines = lines.wrapping_add(1);
    }
    let _ended = operator.ask(&rt, OperatorCall::Stop);
    let _core = running.join(&rt);
    Some(lines)
}
