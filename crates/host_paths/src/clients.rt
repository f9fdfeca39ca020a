// The connections of a client's path, one after the other.
ghost use Rattle.std.specs.Prelude.{◌≤◌};
ghost use Rattle.host_core.specs.Opening.{IsIdle};
ghost use Rattle.session_proto.specs.Served.{IsServed};

use crate::asker::SeatAsker;
use crate::threads::breathe;
use host_core::Caller;
use session_proto::{Asks, SessionEnd, serve};
use std::alloc::Global;
use std::io::{Read, Write};
use std::os::unix::net::UnixListener;
use std::sync::Wait;
use std::time::Clock;

/// So many frames of a connection are answered at most.
pub const FRAME_LIMIT: u32 = 1_048_576;

/// Serves one connection of a client, as a session: at most 1,048,576 of its frames are answered.
pub fn serve_client<R: Read, W: Write, A: Asks>(
    alloc: Global,
    reader: &mut R,
    writer: &mut W,
    asker: &mut A,
) -> SessionEnd
    ensures served { IsServed A.asks 1048576 (R.remaining reader.old) (R.remaining reader.new) (W.contents writer.old)
        (W.contents writer.new) asker.old asker.new result }
    ensures within { result.calls ≤ 1048576 }
{
    serve(alloc, reader, writer, asker, FRAME_LIMIT)
}

/// Serves the clients that come to a path, until the host has ended. Each leaves the seat before the next is met, if the history
/// has room for it and there is memory.
pub fn serve_clients<R: Wait + Clock>(rt: &R, alloc: Global, listener: &UnixListener, seat: Caller)
    requires { IsIdle seat }
{
    let mut asker = SeatAsker::new(rt, seat);
    for _ in rt.forever() {
        match listener.accept() {
            Ok((stream, _)) => {
                serve_client(alloc, &mut &stream, &mut &stream, &mut asker);
            }
            Err(_) => breathe(rt),
        }
        if asker.is_closed() {
            return;
        }
    }
}
