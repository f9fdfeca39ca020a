// A seat and its desk, made together.
ghost use Rattle.std.specs.Prelude.{IfOk};
ghost use Rattle.host_core.specs.Seats.{IsFresh};

use crate::bell::Bell;
use crate::desk::Desk;
use crate::patience::Patience;
use crate::seat::Seat;
use host_calls::RingReply;
use rtrb::{Protocol, RingBuffer};
use std::alloc::{AllocError, Global};

// How many calls, and how many replies, a ring holds.
const PLACES: usize = 4;

/// Makes the seat of a number and the core's side of it. The seat rings the core's bell. Who sits there looks so often at most
/// for a reply before it sleeps.
///
/// # Errors
///
/// A growth was refused.
pub fn open_seat<C: Drop, P: Protocol<RingReply>>(
    alloc: Global,
    core: &Bell,
    number: u8,
    looks: u32,
) -> Result<(Seat<C, P>, Desk<C, P>), AllocError>
    ensures { IfOk result (λ r. IsFresh r.0 r.1 number) }
{
    let own = Bell::new(alloc)?;
    let bell = own.shared()?;
    let core = core.shared()?;
    let (calls_in, calls_out) = RingBuffer::new(alloc, PLACES)?;
    let (replies_in, replies_out) = RingBuffer::with_protocol::<Global, P>(alloc, PLACES)?;
    let seat = Seat {
        calls: calls_in,
        replies: replies_out,
        core,
        own,
        patience: Patience::new(looks),
        number,
        closed: false,
    };
    let desk = Desk {
        calls: calls_out,
        replies: replies_in,
        bell,
        number,
        waiting: None,
        last: None,
        closed: false,
    };
    Ok((seat, desk))
}
