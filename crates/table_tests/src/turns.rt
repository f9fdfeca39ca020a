// The turn in examples: the rule is proved, and these say what it means.
use process_queue::{Link, ProcessQueue};
use soft_queue::pick;
use std::test::Fail;

// What is done with the queues, together with what comes of it.
#[derive(Clone, Copy, Debug, PartialEq, Eq)]
enum Told {
    // After the seat that was served last: the seat whose turn it is.
    Pick(u8, Option<u8>),
    // The slot waits at the seat: the link that comes back.
    Wait(u16, u8, u64, Option<Link>),
    // The slot waits no more: whether a link comes back.
    Leave(u16, bool),
}

// Does that again, and tells what came of it.
fn again(queues: &mut ProcessQueue, told: Told) -> Told {
    match told {
        Told::Pick(last, _) => Told::Pick(last, pick(queues, last)),
        Told::Wait(slot, seat, serial, _) => {
            Told::Wait(slot, seat, serial, queues.link(slot, seat, serial))
        }
        Told::Leave(slot, _) => Told::Leave(slot, queues.unlink(slot).is_some()),
    }
}

#[test]
fn turn(rt: HostRuntime) -> Result<(), Fail> {
    let mut queues = ProcessQueue::new(rt.alloc(), 4)?;
    for told in [
        Told::Pick(15, None),
        // Seats 0, 2 and 15 wait.
        Told::Wait(0, 2, 3, None),
        Told::Wait(1, 15, 4, None),
        Told::Wait(2, 0, 5, None),
        Told::Pick(15, Some(0)),
        Told::Pick(0, Some(2)),
        Told::Pick(1, Some(2)),
        Told::Pick(2, Some(15)),
        Told::Pick(14, Some(15)),
        // Seat 2 waits alone: the seat that was served last is tried last.
        Told::Leave(1, true),
        Told::Leave(2, true),
        Told::Pick(2, Some(2)),
    ] {
        assert_eq!(rt; again(&mut queues, told), told);
    }
    Ok(())
}
