// A call and its reply.
ghost use Rattle.session_proto.specs.Frame.{framed};
ghost use Rattle.session_proto.specs.declared.version.Version.TheVariants.{One};
ghost use Rattle.operator_asking.specs.Asked.{Ends};

use crate::fault::AskFault;
use crate::receiving::receive;
use crate::writing::write_flushed;
use session_proto::{Side, Version, encode};
use std::alloc::Global;
use std::io::{Read, Write};

/// Writes the frame of the call whole, flushes the writer, and reads the first frame of what comes back.
///
/// Nothing is read once it is known what the bytes begin with. What came behind the reply's frame in the same piece is dropped.
///
/// # Errors
///
/// [`AskFault`] has them. Each failed write, flush or read counts, an interrupted one too: none is made again.
pub fn ask<C: Side, H: Side, R: Read, W: Write>(
    alloc: Global,
    reader: &mut R,
    writer: &mut W,
    call: &C,
) -> Result<H, AskFault>
    requires { C.fits One call.now }
    ensures { Ends H.body (H.fits One) (H.body_at One) H.MOST (R.remaining reader.old) (R.remaining reader.new)
        (W.contents writer.old) (W.contents writer.new) (framed (C.body call.now)) result }
{
    let frame = encode(alloc, Version::One, call)?;
    if !write_flushed(writer, frame.as_slice()) {
        return Err(AskFault::Socket);
    }
    receive(alloc, reader)
}
