// A seat settled with its core, in one thread.
ghost use Rattle.host_core.specs.Seats.{SameSeat};
ghost use Rattle.host_core.specs.Cores.{SameSeats};

use crate::opening::opened;
use bytes::Bytes;
use host_calls::{ClientCall, OperatorCall};
use host_rings::{Caller, Core, SeatEnd, Settled, settle};
use plain::DeviceCall;
use sector_core::{Class, Op, Range};
use std::alloc::Global;
use std::test::Fail;

// A read of one sector, in session 1.
fn read(sector: u64) -> ClientCall {
    ClientCall::Submit {
        session: 1,
        op: Op::Fetch,
        range: Range {
            start: sector,
            count: 1,
        },
        payload: Bytes::new(),
    }
}

fn stage_all(seat: &mut Caller)
    ensures { SameSeat seat.old seat.new }
{
    let _first = seat.stage(ClientCall::Attach {
        group: 0,
        prio: 4,
        class: Class::BestEffort,
    });
    let _second = seat.stage(read(0));
    let _third = seat.stage(read(9));
}

fn take_turns(alloc: Global, core: &mut Core, turns: u8)
    ensures { SameSeats core.old core.new }
{
    for _ in 0..turns {
        let _report = core.turn(alloc);
    }
}

fn collect_all(seat: &mut Caller, collects: u8)
    ensures { SameSeat seat.old seat.new }
{
    for _ in 0..collects {
        let _reply = seat.collect();
    }
}

// What is left of client 0, which sat down and asked for two reads, after so many turns and so many collected replies.
fn left(alloc: Global, turns: u8, collects: u8) -> Result<Option<Settled>, Fail> {
    let (mut core, mut callers, _devices, _operator) = opened(alloc, 1)?;
    let mut seat = callers.swap_remove(0);
    stage_all(&mut seat);
    take_turns(alloc, &mut core, turns);
    collect_all(&mut seat, collects);
    Ok(settle(SeatEnd::Caller(seat.finish()), &mut core.finish()).ok())
}

// What is left of device 0, which asked for the work of another, after so many turns.
fn left_of_device(alloc: Global, turns: u8) -> Result<Option<Settled>, Fail> {
    let (mut core, _callers, mut devices, _operator) = opened(alloc, 1)?;
    let mut seat = devices.swap_remove(0);
    let _staged = seat.stage(DeviceCall::Take { worker: 1 });
    take_turns(alloc, &mut core, turns);
    Ok(settle(SeatEnd::Device(seat.finish()), &mut core.finish()).ok())
}

// What is left of the operator's seat, which asked for the end, after so many turns.
fn left_of_operator(alloc: Global, turns: u8) -> Result<Option<Settled>, Fail> {
    let (mut core, _callers, _devices, mut seat) = opened(alloc, 1)?;
    let _staged = seat.stage(OperatorCall::Stop);
    take_turns(alloc, &mut core, turns);
    Ok(settle(SeatEnd::Operator(seat.finish()), &mut core.finish()).ok())
}

#[test]
fn one_call_and_one_reply_are_left(rt: HostRuntime) -> Result<(), Fail> {
    for (turns, collects, left_over, uncollected) in [
        (2, 1, 1, 1),
        (0, 0, 3, 0),
        (9, 2, 0, 1),
        (3, 9, 0, 0),
    ] {
        assert_eq!(rt;
            left(rt.alloc(), turns, collects)?,
            Some(Settled {
                left: left_over,
                uncollected
            })
        );
    }
    Ok(())
}

#[test]
fn each_kind_of_seat_is_settled(rt: HostRuntime) -> Result<(), Fail> {
    for (turns, left, uncollected) in [(0, 1, 0), (1, 0, 1), (3, 0, 1)] {
        let both = Some(Settled { left, uncollected });
        assert_eq!(rt; left_of_device(rt.alloc(), turns)?, both);
        assert_eq!(rt; left_of_operator(rt.alloc(), turns)?, both);
    }
    Ok(())
}
