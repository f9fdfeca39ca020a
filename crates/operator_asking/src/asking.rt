// A call of the operator and its reply.
ghost use Rattle.session_proto.specs.Operator.{OperatorFits};
ghost use Rattle.operator_asking.specs.Run.{Asks};

use crate::fault::AskFault;
use crate::one_call::ask;
use host_calls::{OperatorCall, RingReply};
use session_proto::{Host, Operator};
use std::alloc::Global;
use std::io::{Read, Write};

/// Writes the frame of the call whole, flushes the writer, and reads the first frame of what comes back.
///
/// What came behind the reply's frame in the same piece is dropped.
///
/// # Errors
///
/// [`AskFault`] has them.
pub fn ask_host<R: Read, W: Write>(
    alloc: Global,
    reader: &mut R,
    writer: &mut W,
    call: OperatorCall,
) -> Result<RingReply, AskFault>
    ensures { Asks (R.remaining reader.old) (R.remaining reader.new) (W.contents writer.old) (W.contents writer.new) call result }
{
    let reply: Host = ask(alloc, reader, writer, &Operator(call))?;
    Ok(reply.0)
}
