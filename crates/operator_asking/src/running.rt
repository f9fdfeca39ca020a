// A call run: asked, and its answer printed.
ghost use Rattle.std.specs.Prelude.{◌≡◌, IfOk};
ghost use Rattle.operator_asking.specs.Run.{IsRun, line_of};

use crate::asking::ask_host;
use crate::ending::{CallEnd, end_at};
use crate::writing::write_flushed;
use host_calls::{OperatorCall, RingReply, put_ring_reply};
use sector_core::OutOfMemory;
use std::alloc::Global;
use std::io::{Read, Write};

/// Asks the call, and prints the text of its reply as one line to the output, which is flushed. Without a reply nothing is printed.
pub fn run_call<R: Read, W: Write, O: Write>(
    alloc: Global,
    reader: &mut R,
    writer: &mut W,
    output: &mut O,
    call: OperatorCall,
) -> CallEnd
    ensures { IsRun (R.remaining reader.old) (R.remaining reader.new) (W.contents writer.old) (W.contents writer.new)
        (O.contents output.old) (O.contents output.new) call result }
{
    let reply = match ask_host(alloc, reader, writer, call) {
        Ok(reply) => reply,
        Err(fault) => return CallEnd::from(fault),
    };
    let line = match line(alloc, &reply) {
        Ok(line) => line,
        Err(_) => return CallEnd::OutOfMemory,
    };
    if !write_flushed(output, line.as_slice()) {
        return CallEnd::WriteFault;
    }
    end_at(call, &reply)
}

// The line that is printed for a reply.
fn line(alloc: Global, reply: &RingReply) -> Result<Vec<u8>, OutOfMemory>
    ensures { IfOk result (λ line. line.items ≡ line_of reply.now) }
{
    let mut out = Vec::new(alloc);
    put_ring_reply(reply, &mut out)?;
    out.push(b'\n')?;
    Ok(out)
}
