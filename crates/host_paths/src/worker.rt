// The rounds of a worker.
ghost use Rattle.std.specs.Prelude.{◌≡◌, ◌-◌, ◌^◌, ◌<◌, [], ◌∷◌, ◌++◌, true, false, None};
ghost use Rattle.host_core.specs.Seats.{seat_number, staged, collected, is_closed, closed_by, SameSeat};
ghost use Rattle.host_paths.specs.declared.worker.Round.TheVariants.{Ended};
ghost use Rattle.host_paths.specs.Working.{HasDone, HasAsked, HasTold, read_of, IsOpen, IsOwed, IsFinish, IsAlone, IsRound, IsLeft, IsReplied, IsGoing, IsWhy, IfEnded, IsEndOf, Stands};

use crate::pauses::{FIRST, linger, sleep};
use base_image::Image;
use device_engine::work_once;
use host_calls::{Closed, RingReply};
use host_core::Seat;
use plain::{Answer, Code, DeviceCall, Reply, Work};
use rtrb::AnyItems;
use std::alloc::Global;
use std::sync::Wait;
use std::time::Clock;

// A device's seat.
type DeviceSeat = Seat<DeviceCall, AnyItems>;

/// Why a worker ended.
#[derive(Clone, Copy, Debug, PartialEq, Eq)]
pub enum WorkerEnd {
    /// The host has ended.
    Closed,
    /// The image has counted as many faults as it can.
    Faults,
    /// The history is full, and so no work ever ends.
    HistoryFull,
}

// How a round ended.
#[derive(Clone, Copy)]
pub enum Round {
    // Its work was told and the next asked for, which may be done at once.
    Told,
    // The same, but the next is to wait: there was no memory for what was told.
    Pauses,
    // The next is to be asked for after a pause: memory was wanting, or the image was busy.
    Waits,
    Ended(WorkerEnd),
}

/// Takes work, does it and tells how it ended, again and again. Behind a Finish it asks for the next work at once, so that it is woken once for
/// both. It requires that the host has not ended and no call of the seat is open. A call may be open when it ends: where a Finish
/// was told that the host has ended, or that the history is full, the call that asks for more work has no reply.
///
/// Before it does its work it lingers for so many microseconds. So a device can be as slow as one likes, and no rule reads a time.
pub fn run_worker<R: Wait + Clock, I: Image>(
    rt: &R,
    alloc: Global,
    seat: &mut DeviceSeat,
    image: &mut I,
    delay: u32,
) -> WorkerEnd
    requires { IsOpen seat.old }
    ensures seat { SameSeat seat.old seat.new }
    ensures works { HasDone None seat.old (read_of I.disk I.log image.old) seat.new (read_of I.disk I.log image.new) }
    ensures why { IsWhy result seat.new (I.disk image.new) }
{
    if is_worn(image) {
        return WorkerEnd::Faults;
    }
    ask(rt, seat);
    go_round(rt, alloc, seat, image, delay)
}

// Rounds, one after the other, until it ends.
fn go_round<R: Wait + Clock, I: Image>(
    rt: &R,
    alloc: Global,
    seat: &mut DeviceSeat,
    image: &mut I,
    delay: u32,
) -> WorkerEnd
    requires owed { IsOwed seat.old }
    requires countable { (I.disk image.old).faults < 2 ^ 64 - 1 }
    ensures seat { SameSeat seat.old seat.new }
    ensures rounds { IsRound (seat_number seat.old) (Ended result) seat.old (read_of I.disk I.log image.old) seat.new (read_of I.disk I.log image.new) }
    ensures why { IsWhy result seat.new (I.disk image.new) }
{
    let mut pause = FIRST;
    for _ in rt.forever() {
        match work(rt, alloc, seat, image, delay) {
            Round::Told => pause = FIRST,
            Round::Pauses => pause = sleep(rt, pause),
            Round::Waits => {
                pause = sleep(rt, pause);
                // Not before: meanwhile another worker may take what there is.
                ask(rt, seat);
            }
            Round::Ended(end) => return end,
        }
    }
    unreachable!()
}

// Whether the image has counted as many faults as it can.
fn is_worn<I: Image>(image: &I) -> bool
    ensures worn { result ≡ true → (I.disk image.now).faults ≡ 2 ^ 64 - 1 }
    ensures countable { result ≡ false → (I.disk image.now).faults < 2 ^ 64 - 1 }
{
    image.faults() == u64::MAX
}

// Asks for work.
fn ask<R: Wait>(rt: &R, seat: &mut DeviceSeat)
    requires open { IsOpen seat.old }
    ensures seat { SameSeat seat.old seat.new }
    ensures asked { HasAsked (seat_number seat.old) (staged seat.old) seat.new }
    ensures collected { collected seat.new ≡ collected seat.old }
    ensures owed { IsOwed seat.new }
{
    let worker = seat.number();
    seat.stage_waiting(rt, DeviceCall::Take { worker });
}

// One round: work that was asked for comes, is done and told.
fn work<R: Wait + Clock, I: Image>(
    rt: &R,
    alloc: Global,
    seat: &mut DeviceSeat,
    image: &mut I,
    delay: u32,
) -> Round
    requires owed { IsOwed seat.old }
    requires countable { (I.disk image.old).faults < 2 ^ 64 - 1 }
    ensures seat { SameSeat seat.old seat.new }
    ensures round { IsRound (seat_number seat.old) result seat.old (read_of I.disk I.log image.old) seat.new (read_of I.disk I.log image.new) }
    ensures stands { Stands result seat.new }
    ensures countable { IsGoing result → (I.disk image.new).faults < 2 ^ 64 - 1 }
    ensures why { IfEnded result (λ end. IsWhy end seat.new (I.disk image.new)) }
{
    match reply(rt, seat) {
        RingReply::Answer(Answer::Accepted(Reply::Taken(work))) => {
            linger(rt, delay);
            done(rt, alloc, seat, image, &work)
        }
        RingReply::Answer(_) => Round::Waits,
        RingReply::Closed => Round::Ended(WorkerEnd::Closed),
    }
}

// Waits for the reply to the one call that has none.
fn reply<R: Wait>(rt: &R, seat: &mut DeviceSeat) -> RingReply
    requires owed { IsOwed seat.old }
    ensures seat { SameSeat seat.old seat.new }
    ensures made { (staged seat.new ≡ staged seat.old) × (collected seat.new ≡ collected seat.old ++ result ∷ []) }
    ensures closed { is_closed seat.new ≡ closed_by false result }
    ensures open { is_closed seat.new ≡ false → IsOpen seat.new }
{
    seat.collect_waiting(rt)
}

// Does work that was taken, and tells how it ended.
fn done<R: Wait, I: Image>(
    rt: &R,
    alloc: Global,
    seat: &mut DeviceSeat,
    image: &mut I,
    work: &Work,
) -> Round
    requires open { IsOpen seat.old }
    requires countable { (I.disk image.old).faults < 2 ^ 64 - 1 }
    ensures seat { SameSeat seat.old seat.new }
    ensures told { HasTold (seat_number seat.old) result work.now seat.old (read_of I.disk I.log image.old) seat.new (read_of I.disk I.log image.new) }
    ensures stands { Stands result seat.new }
    ensures countable { IsGoing result → (I.disk image.new).faults < 2 ^ 64 - 1 }
    ensures why { IfEnded result (λ end. IsWhy end seat.new (I.disk image.new)) }
{
    match work_once(alloc, image, work) {
        Ok(call) => {
            if may_ask(image, &call) {
                tell(rt, seat, call)
            } else {
                tell_alone(rt, seat, image, call)
            }
        }
        Err(_) => Round::Waits,
    }
}

// Whether more work may be asked for beside this call. An image that has met a busy read waits first, and one that can count no fault more
// is not read again: the work is for another worker.
fn may_ask<I: Image>(image: &I, call: &DeviceCall) -> bool
    ensures finish { result ≡ true → IsFinish call.now }
    ensures countable { result ≡ true → (I.disk image.now).faults < 2 ^ 64 - 1 }
{
    matches!(call, DeviceCall::Finish { .. }) && !is_worn(image)
}

// Tells how work ended, and asks for the next.
fn tell<R: Wait>(rt: &R, seat: &mut DeviceSeat, call: DeviceCall) -> Round
    requires open { IsOpen seat.old }
    requires finish { IsFinish call }
    ensures seat { SameSeat seat.old seat.new }
    ensures asked { IsLeft result (seat_number seat.old) (staged seat.old ++ call ∷ []) seat.new }
    ensures replied { IsReplied seat.old seat.new }
    ensures stands { Stands result seat.new }
    ensures why { IfEnded result (λ end. IsEndOf end seat.new) }
{
    let worker = seat.number();
    seat.stage_both_waiting(rt, call, DeviceCall::Take { worker });
    match seat.collect_waiting(rt) {
        RingReply::Closed => Round::Ended(WorkerEnd::Closed),
        RingReply::Answer(Answer::Refused(Code::HistoryFull)) => {
            Round::Ended(WorkerEnd::HistoryFull)
        }
        RingReply::Answer(Answer::Refused(Code::OutOfMemory)) => Round::Pauses,
        RingReply::Answer(_) => Round::Told,
    }
}

// Tells how work ended, and asks for no more.
fn tell_alone<R: Wait, I: Image>(
    rt: &R,
    seat: &mut DeviceSeat,
    image: &I,
    call: DeviceCall,
) -> Round
    requires open { IsOpen seat.old }
    ensures seat { SameSeat seat.old seat.new }
    ensures staged { staged seat.new ≡ staged seat.old ++ call ∷ [] }
    ensures replied { IsReplied seat.old seat.new }
    ensures waits { IsAlone result }
    ensures stands { Stands result seat.new }
    ensures countable { IsGoing result → (I.disk image.now).faults < 2 ^ 64 - 1 }
    ensures why { IfEnded result (λ end. IsWhy end seat.new (I.disk image.now)) }
{
    match seat.ask(rt, call) {
        Ok(Answer::Refused(Code::HistoryFull)) => Round::Ended(WorkerEnd::HistoryFull),
        Ok(_) => {
            if is_worn(image) {
                Round::Ended(WorkerEnd::Faults)
            } else {
                Round::Waits
            }
        }
        Err(Closed) => Round::Ended(WorkerEnd::Closed),
    }
}
