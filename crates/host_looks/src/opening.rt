// A seat for looks and its desk, made together.
ghost use Rattle.std.specs.Prelude.{IfOk};
ghost use Rattle.host_looks.specs.Looking.{IsFresh};

use crate::desk::LookDesk;
use crate::seat::LookSeat;
use crate::told::Queries;
use host_core::Bell;
use rtrb::RingBuffer;
use std::alloc::{AllocError, Global};

// One query is asked at a time.
const PLACES: usize = 1;

/// Makes the seat of who looks, and the core's side of it. The seat rings the core's bell.
///
/// # Errors
///
/// A growth was refused.
pub fn open_looks(alloc: Global, core: Bell) -> Result<(LookSeat, LookDesk), AllocError>
    ensures { IfOk result (λ r. IsFresh r.0 r.1) }
{
    let own = Bell::new(alloc)?;
    let bell = own.shared()?;
    let (lines_in, lines_out) = RingBuffer::with_protocol::<Global, Queries>(alloc, PLACES)?;
    let (replies_in, replies_out) = RingBuffer::new(alloc, PLACES)?;
    let seat = LookSeat {
        lines: lines_in,
        replies: replies_out,
        core,
        own,
    };
    let desk = LookDesk {
        lines: lines_out,
        replies: replies_in,
        bell,
    };
    Ok((seat, desk))
}
