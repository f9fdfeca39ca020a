// The thread of a host's core, and that of who looks at it.

use crate::book::Book;
use crate::opening::Core;
use crate::watcher::Watcher;
use host_looks::{LookDesk, open_looks, serve_looks};
use host_paths::ServeEnd;
use std::alloc::Global;
use std::io::{Eprint, Write};
use std::os::unix::net::UnixListener;
use std::sync::Wait;
use std::thread::{self, JoinHandle, Threads};
use std::time::Clock;

/// Starts the core. It tells once that nine tenths of its history are used, and once that it is full. Between two turns it records what
/// is new, if there is a record, and tells who looks what he asks.
///
/// # Errors
///
/// The thread cannot be started.
pub fn start_core<
    R: Threads + Wait + Eprint + Copy + Drop + Send + 'static,
    W: Write + Drop + Send + 'static,
>(
    rt: R,
    alloc: Global,
    mut core: Core,
    mut watcher: Watcher<W>,
) -> Result<JoinHandle<()>, ServeEnd> {
    let running = thread::spawn(&rt, move || {
        core.run_watched(&rt, alloc, |book: &Book, is_resting: bool| {
            watcher.watch(&rt, alloc, book, is_resting)
        });
        // What the last turns brought is on file before the host ends.
        watcher.watch(&rt, alloc, core.book(), true);
    });
    match running {
        Ok(running) => Ok(running),
        Err(_) => Err(ServeEnd::Socket),
    }
}

/// Starts the thread of who looks at the core, if there is a path for it. Gives the core's side of it.
///
/// # Errors
///
/// The thread cannot be started, or there is no memory.
pub fn start_looks<R: Threads + Wait + Clock + Copy + Drop + Send + 'static>(
    rt: R,
    alloc: Global,
    core: &Core,
    listener: Option<UnixListener>,
) -> Result<Option<LookDesk>, ServeEnd> {
    let Some(listener) = listener else {
        return Ok(None);
    };
    let Ok(bell) = core.bell() else {
        return Err(ServeEnd::OutOfMemory);
    };
    let Ok((seat, desk)) = open_looks(alloc, bell) else {
        return Err(ServeEnd::OutOfMemory);
    };
    match thread::spawn(&rt, move || serve_looks(&rt, alloc, &listener, seat)) {
        Ok(_) => Ok(Some(desk)),
        Err(_) => Err(ServeEnd::Socket),
    }
}
