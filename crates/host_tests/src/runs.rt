// A core that runs to its end, and how many workers a host may have.
use crate::opening::{opened, usual};
use host_calls::{ClientCall, OperatorCall};
use host_rings::{Book, HostFault, host, view};
use sector_core::Class;
use std::alloc::Global;
use std::sync::Wait;
use std::test::Fail;

// How many entries a journal has, of the first ten.
fn entries(book: &Book) -> u64 {
    let mut count = 0u64;
    for at in 0..10usize {
        if book.entry(at).is_some() {
            count = count.wrapping_add(1);
        }
    }
    count
}

// How often a run shows its journal, how many entries it has then, added up, and how many steps the keeper has at the end. Three clients
// sit down, and the operator asks for the end.
fn shown<R: Wait>(rt: &R, alloc: Global) -> Result<(u64, u64, u32), Fail> {
    let (mut core, mut callers, _devices, mut operator) = opened(alloc, 1)?;
    for caller in callers.iter_mut().take(3) {
        let _staged = caller.stage(ClientCall::Attach {
            group: 0,
            prio: 4,
            class: Class::BestEffort,
        });
    }
    let _staged = operator.stage(OperatorCall::Stop);
    let mut times = 0u64;
    let mut sum = 0u64;
    core.run_watched(rt, alloc, |book, _| {
        times = times.wrapping_add(1);
        sum = sum.wrapping_add(entries(book));
    });
    Ok((times, sum, view(&core).length()))
}

// After each turn, the last too: 1, 2, 3 and 3 entries.
#[test]
fn a_run_shows_its_journal_after_each_turn(rt: HostRuntime) -> Result<(), Fail> {
    assert_eq!(rt; shown(&rt, rt.alloc())?, (4, 9, 3));
    Ok(())
}

// Whether a host with so many workers is refused for them.
fn is_bad(alloc: Global, workers: u8) -> Result<bool, Fail> {
    match host(alloc, usual()?, 64, workers) {
        Ok(_) => Ok(false),
        Err(HostFault::BadWorkers) => Ok(true),
        Err(HostFault::OutOfMemory) => Err(Fail::from("memory for a host")),
    }
}

#[test]
fn one_to_four_workers(rt: HostRuntime) -> Result<(), Fail> {
    for workers in 0..6u8 {
        assert_eq!(rt; is_bad(rt.alloc(), workers)?, workers == 0 || workers == 5);
    }
    Ok(())
}
