// All seats of a host, settled with its core.
ghost use Rattle.std.specs.Prelude.{IfSome};
ghost use Rattle.host_core.specs.Cores.{SameSeats};
ghost use Rattle.host_core.specs.Settling.{AreCallersOf, AreDevicesOf, IsCallerOf, IsDeviceOf, IsOperatorOf, core_of};
ghost use Rattle.ring_bench.specs.Rounds.{AreOf};

use crate::rounds::{Asked, Done, Tally};
use host_calls::SeatName;
use host_rings::{Caller, Core, CoreEnd, DeviceSeat, OperatorSeat, SeatEnd, Settled, settle};

// Settles a client's seat with its core.
fn settle_one(core: &mut CoreEnd, tally: &mut Tally, asked: Asked)
    requires { IsCallerOf (core_of core.old) asked.seat }
    ensures { SameSeats (core_of core.old) (core_of core.new) }
{
    tally.answered = tally.answered.wrapping_add(asked.answered);
    tally.accepted = tally.accepted.wrapping_add(asked.accepted);
    if let Ok(settled) = settle(SeatEnd::Caller(asked.seat.finish()), core) {
        add(tally, settled);
    }
}

fn settle_operator(core: &mut CoreEnd, tally: &mut Tally, seat: OperatorSeat)
    requires { IsOperatorOf (core_of core.old) seat }
    ensures { SameSeats (core_of core.old) (core_of core.new) }
{
    if let Ok(settled) = settle(SeatEnd::Operator(seat.finish()), core) {
        add(tally, settled);
    }
}

fn settle_device(core: &mut CoreEnd, tally: &mut Tally, seat: DeviceSeat)
    requires { IsDeviceOf (core_of core.old) seat }
    ensures { SameSeats (core_of core.old) (core_of core.new) }
{
    if let Ok(settled) = settle(SeatEnd::Device(seat.finish()), core) {
        add(tally, settled);
    }
}

fn add(tally: &mut Tally, settled: Settled) {
    tally.left = tally.left.saturating_add(settled.left);
    tally.uncollected = tally.uncollected.saturating_add(settled.uncollected);
}

// The clients that asked nothing.
fn settle_callers(core: &mut CoreEnd, tally: &mut Tally, mut callers: Vec<Caller>)
    requires { AreCallersOf (core_of core.old) callers.items }
    ensures { SameSeats (core_of core.old) (core_of core.new) }
{
    for _ in 0..callers.len() {
        if let Some(seat) = last_caller(core, &mut callers) {
            settle_one(
                core,
                tally,
                Asked {
                    seat,
                    answered: 0,
                    accepted: 0,
                },
            );
        }
    }
}

// The devices, which had no work.
fn settle_devices(core: &mut CoreEnd, tally: &mut Tally, mut devices: Vec<DeviceSeat>)
    requires { AreDevicesOf (core_of core.old) devices.items }
    ensures { SameSeats (core_of core.old) (core_of core.new) }
{
    for _ in 0..devices.len() {
        if let Some(seat) = last_device(core, &mut devices) {
            settle_device(core, tally, seat);
        }
    }
}

fn last_caller(core: &CoreEnd, callers: &mut Vec<Caller>) -> Option<Caller>
    requires { AreCallersOf (core_of core.now) callers.old.items }
    ensures rest { AreCallersOf (core_of core.now) callers.new.items }
    ensures seat { IfSome result (λ s. IsCallerOf (core_of core.now) s) }
{
    callers.pop()
}

fn last_device(core: &CoreEnd, devices: &mut Vec<DeviceSeat>) -> Option<DeviceSeat>
    requires { AreDevicesOf (core_of core.now) devices.old.items }
    ensures rest { AreDevicesOf (core_of core.now) devices.new.items }
    ensures seat { IfSome result (λ s. IsDeviceOf (core_of core.now) s) }
{
    devices.pop()
}

// How many of the first ten entries of the journal are a client's, and how many another's.
fn whose(core: &Core) -> (u64, u64) {
    let mut clients = 0u64;
    let mut others = 0u64;
    for at in 0..10usize {
        match core.entry(at) {
            Some((SeatName::Client(_), _)) => clients = clients.wrapping_add(1),
            Some(_) => others = others.wrapping_add(1),
            None => {}
        }
    }
    (clients, others)
}

/// Settles all seats with their core: those that have asked, and the others.
pub fn settle_all(core: Core, done: Done, callers: Vec<Caller>, devices: Vec<DeviceSeat>) -> Tally
    requires done { AreOf core done }
    requires callers { AreCallersOf core callers.items }
    requires devices { AreDevicesOf core devices.items }
{
    let entries = whose(&core);
    let mut end = core.finish();
    let mut tally = Tally {
        answered: 0,
        accepted: 0,
        left: 0,
        uncollected: 0,
        has_ended: done.has_ended,
        entries,
    };
    settle_one(&mut end, &mut tally, done.first.0);
    settle_one(&mut end, &mut tally, done.first.1);
    settle_one(&mut end, &mut tally, done.second.0);
    settle_one(&mut end, &mut tally, done.second.1);
    settle_operator(&mut end, &mut tally, done.operator);
    settle_callers(&mut end, &mut tally, callers);
    settle_devices(&mut end, &mut tally, devices);
    tally
}
