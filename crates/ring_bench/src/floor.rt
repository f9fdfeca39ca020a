// The floor of a host that serves: its sockets, threads, rings, bells and frames, with a core that answers each call at once by its kind.
use crate::answering::answer_all;
use host_calls::ClientCall;
use host_core::{Bell, ClientReplies, Desk, LOOKS, open_seat};
use host_paths::{Doors, ServeEnd, open_doors, remove_all, start_client};
use script_line::number;
use std::alloc::Global;
use std::io;
use std::net::Net;
use std::os::unix::net::UnixListener;
use std::rt::Files;
use std::sync::Wait;
use std::thread::{self, Threads};
use std::time::Clock;

/// Serves clients in the folder that the words name, until standard input ends, and then removes the sockets. Says what came of it.
pub fn serve_floor<R>(rt: R, words: &[String]) -> io::Result<&'static str>
where
    R: AllocGlobal + Input + Files + Threads + Wait + Net + Clock,
    R: Copy + Drop + Send + 'static,
{
    let (Some(dir), Some(clients), Some(kind)) = (words.get(2), words.get(3), words.get(4)) else {
        return Ok("ring_bench floor DIR CLIENTS read|write");
    };
    let clients = number(clients.as_bytes()).unwrap_or(1).min(16) as u8;
    let mut made = Vec::new(rt.alloc());
    let served = match open_doors(
        &rt,
        rt.alloc(),
        dir.as_str(),
        clients,
        false,
        &mut made,
        &mut None,
    ) {
        Ok(doors) => serve(rt, rt.alloc(), doors, kind.as_str() == "write"),
        Err(end) => Err(end),
    };
    if served.is_ok() {
        for line in rt.lines(rt.alloc()) {
            line?;
        }
    }
    remove_all(&rt, made.as_slice());
    match served {
        Ok(()) => Ok("ended"),
        Err(ServeEnd::OutOfMemory) => Ok("memory: none"),
        Err(_) => Ok("socket: failed"),
    }
}

// Starts the core, and a thread for each path.
fn serve<R: Threads + Wait + Net + Clock + Copy + Drop + Send + 'static>(
    rt: R,
    alloc: Global,
    doors: Doors,
    writes: bool,
) -> Result<(), ServeEnd> {
    let (Ok(bell), Ok(mut desks)) = (Bell::new(alloc), Vec::with_capacity(alloc, 16)) else {
        return Err(ServeEnd::OutOfMemory);
    };
    let mut number = 0u8;
    for listener in doors.clients {
        start_seat(rt, alloc, &bell, number, listener, &mut desks)?;
        number = number.wrapping_add(1);
    }
    match thread::spawn(&rt, move || answer_all(&rt, &bell, desks, writes)) {
        Ok(_) => Ok(()),
        Err(_) => Err(ServeEnd::Socket),
    }
}

// Opens a seat, and starts the thread of its path.
fn start_seat<R: Threads + Wait + Clock + Copy + Drop + Send + 'static>(
    rt: R,
    alloc: Global,
    bell: &Bell,
    number: u8,
    listener: UnixListener,
    desks: &mut Vec<Desk<ClientCall, ClientReplies>>,
) -> Result<(), ServeEnd> {
    let Ok((seat, desk)) = open_seat::<ClientCall, ClientReplies>(alloc, bell, number, LOOKS) else {
        return Err(ServeEnd::OutOfMemory);
    };
    if desks.push(desk).is_err() {
        return Err(ServeEnd::OutOfMemory);
    }
    start_client(rt, alloc, seat, listener)
}
