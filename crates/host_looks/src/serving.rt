// The connections of the inspector's path, one after the other.

use crate::inspector::Inspector;
use crate::seat::LookSeat;
use crate::visit::Visit;
use script_line::run_lines;
use std::alloc::Global;
use std::os::unix::net::{UnixListener, UnixStream};
use std::sync::Wait;
use std::time::{Clock, Duration};
use std::{io, thread};

// How long the path waits after a connection that could not be met, in milliseconds. The cause may last, as too many open files do.
const BREATH: u64 = 10;

/// Serves those who look, one connection after the other, until the core has ended.
pub fn serve_looks<R: Wait + Clock>(
    rt: &R,
    alloc: Global,
    listener: &UnixListener,
    seat: LookSeat,
) {
    let mut inspector = Inspector { rt, seat };
    let mut next = None;
    for _ in rt.forever() {
        match met(listener, next) {
            Ok(stream) => next = serve_one(rt, alloc, listener, &stream, &mut inspector),
            Err(_) => {
                next = None;
                thread::sleep(rt, Duration::from_millis(BREATH));
            }
        }
        if inspector.seat.is_ended() {
            return;
        }
    }
}

// Who was met already, or who comes next.
fn met(listener: &UnixListener, already: Option<UnixStream>) -> io::Result<UnixStream> {
    match already {
        Some(stream) => Ok(stream),
        None => {
            listener.set_nonblocking(false)?;
            let (stream, _) = listener.accept()?;
            Ok(stream)
        }
    }
}

// Serves one connection. Gives who was met meanwhile.
fn serve_one<R: Wait + Clock>(
    rt: &R,
    alloc: Global,
    listener: &UnixListener,
    stream: &UnixStream,
    inspector: &mut Inspector<'_, R>,
) -> Option<UnixStream> {
    // Else it would wait for the next one.
    if listener.set_nonblocking(true).is_err() {
        return None;
    }
    let Ok(mut visit) = Visit::new(rt, alloc, listener, stream) else {
        return None;
    };
    let mut writer = stream;
    run_lines(alloc, &mut visit, &mut writer, inspector);
    visit.next()
}
