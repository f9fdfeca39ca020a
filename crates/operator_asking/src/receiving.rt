// The frame of a reply, received.
ghost use Rattle.session_proto.specs.declared.version.Version.TheVariants.{One};
ghost use Rattle.operator_asking.specs.Asked.{Receives};

use crate::fault::AskFault;
use session_proto::{Feeder, Side};
use std::alloc::Global;
use std::io::Read;

// A read takes at most this many bytes. A reply to an operator has fewer.
const PIECE_BYTES: usize = 4096;

/// Reads until the first frame is whole, and gives its value. What came behind that frame in the same piece is dropped.
///
/// # Errors
///
/// `Socket`: a read failed. `Frame`: the bytes begin with a fault, or end before a whole frame. `OutOfMemory`.
pub fn receive<H: Side, R: Read>(alloc: Global, reader: &mut R) -> Result<H, AskFault>
    ensures { Receives H.body (H.fits One) (H.body_at One) H.MOST (R.remaining reader.old) (R.remaining reader.new) result }
{
    let mut feeder = Feeder::<H>::new(alloc);
    let mut piece = [0u8; PIECE_BYTES];
    'pieces: loop {
        let count = match reader.read(&mut piece) {
            Ok(count) => count,
            Err(_) => return Err(AskFault::Socket),
        };
        if count == 0 {
            return Err(AskFault::Frame);
        }
        let fed = feeder.feed(alloc, &piece[..count])?;
        let fault = fed.fault;
        match fed.values.into_iter().next() {
            Some(reply) => return Ok(reply),
            None => {
                if fault.is_some() {
                    return Err(AskFault::Frame);
                }
            }
        }
    }
}
