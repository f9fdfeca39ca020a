// The connections of the operator's path, one after the other.
ghost use Rattle.std.specs.Prelude.{◌≡◌, ◌+◌, ◌≤◌, [], ◌∷◌, length, true, false};
ghost use Rattle.byte_writing.specs.Written.{IsWritten};
ghost use Rattle.host_calls.specs.declared.ring.RingReply.TheVariants.{Closed as Closing};
ghost use Rattle.host_core.specs.Opening.{IsIdle};
ghost use Rattle.host_paths.specs.Operating.{IsBetween, Asks, HasAsked, IsOperated, frames_of};
ghost use Rattle.host_core.specs.Seats.{SameSeat, is_closed, staged};

use crate::clients::FRAME_LIMIT;
use crate::threads::breathe;
use byte_writing::write_whole;
use host_calls::{OperatorCall, RingReply};
use host_core::OperatorSeat;
use session_proto::{Feeder, Host, Operator, Version, encode};
use std::alloc::Global;
use std::io::{Read, Write};
use std::os::unix::net::{UnixListener, UnixStream};
use std::sync::Wait;
use std::time::Clock;

// A read takes at most this many bytes.
const PIECE_BYTES: usize = 4096;

/// Serves the operator at a path, one connection after the other, until the host has ended. Gives the connection on which he is still to
/// be told so.
pub fn serve_operators<R: Wait + Clock>(
    rt: &R,
    alloc: Global,
    listener: &UnixListener,
    mut seat: OperatorSeat,
) -> UnixStream
    requires { IsIdle seat }
{
    for _ in rt.forever() {
        match listener.accept() {
            Ok((stream, _)) => {
                serve_operator(
                    rt,
                    alloc,
                    &mut &stream,
                    &mut &stream,
                    &mut seat,
                    FRAME_LIMIT,
                );
                if seat.is_closed() {
                    return stream;
                }
            }
            Err(_) => breathe(rt),
        }
    }
    unreachable!()
}

/// Tells the operator that the host has ended. Gives whether all of that was written: if he has gone away, he does not want to know.
pub fn tell_closed<W: Write>(alloc: Global, writer: &mut W) -> bool
    ensures told { IsWritten (W.contents writer.old) (W.contents writer.new) (frames_of (Closing ∷ [])) result }
{
    let Ok(closed) = encode(alloc, Version::One, &Host(RingReply::Closed)) else {
        return false;
    };
    write_whole(writer, closed.as_slice())
}

/// Serves one connection of the operator: reads his frames, asks their calls one after the other, and writes each answer before the next
/// call is asked. At most so many frames are answered.
///
/// It ends as a client's session does: at the end of the input, at a read or a write that fails, at a fault, at the limit, if the host has
/// ended, or for want of memory. That the host has ended is not written here. It makes no call of its own. It asks that each call of the
/// seat was answered, if the host has not ended.
pub fn serve_operator<T: Wait, R: Read, W: Write>(
    rt: &T,
    alloc: Global,
    reader: &mut R,
    writer: &mut W,
    seat: &mut OperatorSeat,
    frame_limit: u32,
)
    requires { IsBetween seat.old }
    ensures seat { SameSeat seat.old seat.new }
    ensures between { IsBetween seat.new }
    ensures operated { IsOperated (R.remaining reader.old) (R.remaining reader.new) (W.contents writer.old) (W.contents writer.new) seat.old seat.new }
    ensures few { length (staged seat.new) ≤ length (staged seat.old) + frame_limit }
{
    let mut feeder = Feeder::<Operator>::new(alloc);
    let mut piece = [0u8; PIECE_BYTES];
    let mut left = frame_limit;
    for _ in rt.forever() {
        // The limit comes first: at it nothing more is read.
        if left == 0 {
            return;
        }
        let Ok(count) = reader.read(&mut piece) else {
            return;
        };
        let Ok(fed) = feeder.feed(alloc, &piece[..count]) else {
            return;
        };
        let fault = fed.fault;
        if !answer_all(rt, alloc, writer, seat, fed.values, &mut left) {
            return;
        }
        // Of a fault, and of the end of the input, it is known once the calls before it are answered.
        if fault.is_some() {
            return;
        }
        if count == 0 {
            return;
        }
    }
}

// Asks calls one after the other, as many as are left of the limit, and writes their answers. Whether the connection goes on.
fn answer_all<T: Wait, W: Write>(
    rt: &T,
    alloc: Global,
    writer: &mut W,
    seat: &mut OperatorSeat,
    calls: Vec<Operator>,
    left: &mut u32,
) -> bool
    requires { IsBetween seat.old }
    ensures seat { SameSeat seat.old seat.new }
    ensures between { IsBetween seat.new }
    ensures asked { HasAsked seat.old seat.new (W.contents writer.old) (W.contents writer.new) calls.items result }
    ensures few { length (staged seat.new) ≤ length (staged seat.old) + left.old }
    ensures counted { result ≡ true → length (staged seat.new) + left.new ≡ length (staged seat.old) + left.old }
{
    for call in calls {
        if *left == 0 {
            return false;
        }
        if !answer(rt, alloc, writer, seat, call.0) {
            return false;
        }
        *left -= 1;
    }
    true
}

// Asks a call, and writes its answer. Whether the connection goes on.
fn answer<T: Wait, W: Write>(
    rt: &T,
    alloc: Global,
    writer: &mut W,
    seat: &mut OperatorSeat,
    call: OperatorCall,
) -> bool
    requires { IsBetween seat.old }
    ensures seat { SameSeat seat.old seat.new }
    ensures between { IsBetween seat.new }
    ensures asked { is_closed seat.old ≡ false → Asks call seat.old seat.new }
    ensures one { HasAsked seat.old seat.new (W.contents writer.old) (W.contents writer.new) (record { 0 = call } ∷ []) result }
{
    let Ok(answer) = seat.ask(rt, call) else {
        return false;
    };
    let Ok(frame) = encode(alloc, Version::One, &Host(RingReply::Answer(answer))) else {
        return false;
    };
    write_whole(writer, frame.as_slice())
}
