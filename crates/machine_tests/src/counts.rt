// The most exchanges that a dispatch and a switch make, counted as they are made, undone and redone. No step may have more than 512.
use crate::host::Host;
use bytes::Bytes;
use dispatch_core::Step;
use sector_core::{Class, Op, Range, Scheduler};
use std::alloc::Global;
use std::process::Abort;
use std::test::Fail;

// How many exchanges a step makes that is accepted: the same each time.
fn counted(host: &mut Host, alloc: Global, step: Step) -> Result<u64, Fail> {
    let (_reply, exchanges, _is_base) = host.turned(alloc, step, 0)?;
    match exchanges {
        [made, undone, redone] if made == undone && undone == redone => Ok(made),
        _ => Err(Fail::from("a step makes as many exchanges each time")),
    }
}

fn attach(seat: u8, group: u8, class: Class) -> Step {
    // The weight of priority 5 is 30.
    Step::Attach {
        seat,
        group,
        prio: 5,
        class,
    }
}

fn group_make(parent: u8) -> Step {
    Step::GroupMake {
        parent,
        weight: 100,
    }
}

// A read of 64 sectors, far from the others. The session began by step 5.
fn fetch(start: u64) -> Step {
    Step::Submit {
        seat: 0,
        session: 5,
        op: Op::Fetch,
        range: Range { start, count: 64 },
        payload: Bytes::new(),
    }
}

// A session under four groups. Two of its reads are sent, and then its time is up. Each share of 64 sectors was rounded down alone,
// but not that of 128: 2 times 2684354 and 5368709 at weight 100, 2 times 8947848 and 17895697 at weight 30. So each virtual time has
// to jump.
#[test]
fn most_of_a_dispatch(rt: HostRuntime) -> Result<(), Fail> {
    for class in [Class::RealTime, Class::BestEffort, Class::Idle] {
        let mut host = Host::new(rt.alloc(), 1024)?;
        for parent in 0..4u8 {
            assert_eq!(rt; counted(&mut host, rt.alloc(), group_make(parent))?, 4);
        }
        assert_eq!(rt; counted(&mut host, rt.alloc(), attach(0, 4, class))?, 6);
        // A request of its own makes 4, and the first activates the five entities of the path.
        for (start, exchanges) in [(0, 9), (200, 4), (400, 4)] {
            assert_eq!(rt; counted(&mut host, rt.alloc(), fetch(start))?, exchanges);
        }
        // A link, a tag and the head; five members and the slot are selected; the slot and five times are charged.
        assert_eq!(rt; counted(&mut host, rt.alloc(), Step::Dispatch)?, 3 + 6 + 6);
        assert_eq!(rt; counted(&mut host, rt.alloc(), Step::Dispatch)?, 3 + 6);
        for _tick in 0..8u8 {
            assert_eq!(rt; counted(&mut host, rt.alloc(), Step::Tick)?, 1);
        }
        // It expires: five members, the budget and the slot. It is selected again, with five jumps. It expires once more, as nothing is
        // queued now.
        assert_eq!(rt;
            counted(&mut host, rt.alloc(), Step::Dispatch)?,
            3 + 7 + 11 + 6 + 7
        );
    }
    Ok(())
}

// With 16 sessions, of all classes, and 31 groups: the mode and 16 heads, and then the times of 32 groups, those of 47 entities, and
// 16 budgets.
#[test]
fn most_of_a_switch(rt: HostRuntime) -> Result<(), Fail> {
    let mut host = Host::new(rt.alloc(), 8)?;
    for _group in 0..31u8 {
        assert_eq!(rt; counted(&mut host, rt.alloc(), group_make(0))?, 4);
    }
    for seat in 0..16u8 {
        let class = match seat % 3 {
            0 => Class::RealTime,
            1 => Class::BestEffort,
            _ => Class::Idle,
        };
        assert_eq!(rt;
            counted(&mut host, rt.alloc(), attach(seat, seat, class))?,
            6
        );
    }
    assert_eq!(rt; counted(&mut host, rt.alloc(), Step::Freeze)?, 1);
    let scheduler = Scheduler::Plain;
    assert_eq!(rt;
        counted(&mut host, rt.alloc(), Step::Switch { scheduler })?,
        17
    );
    let scheduler = Scheduler::Bfq;
    assert_eq!(rt;
        counted(&mut host, rt.alloc(), Step::Switch { scheduler })?,
        17 + 32 + 47 + 16
    );
    Ok(())
}
