// The threads of a host's seats.
ghost use Rattle.host_core.specs.Opening.{IsIdle, AreIdle};

use crate::ServeEnd;
use crate::clients::serve_clients;
use crate::doors::Doors;
use crate::operator::serve_operators;
use crate::places::{last_caller, last_device};
use crate::worker::run_worker;
use base_image::Image;
use host_core::{Caller, DeviceSeat, OperatorSeat};
use std::alloc::Global;
use std::os::unix::net::{UnixListener, UnixStream};
use std::sync::Wait;
use std::thread::{self, JoinHandle, Threads};
use std::time::{Clock, Duration};

/// How long a path waits after a connection that could not be met, in milliseconds. The cause may last, as too many open files do.
const BREATH: u64 = 10;

/// Waits a little.
pub fn breathe(clock: &impl Clock) {
    thread::sleep(clock, Duration::from_millis(BREATH));
}

/// Starts a worker for each image, at the device's seat of its number. Each request takes it so many microseconds at least.
///
/// # Errors
///
/// A thread cannot be started.
pub fn start_workers<
    R: Threads + Wait + Clock + Copy + Drop + Send + 'static,
    I: Image + Drop + Send + 'static,
>(
    rt: R,
    alloc: Global,
    mut devices: Vec<DeviceSeat>,
    mut images: Vec<I>,
    delay: u32,
) -> Result<(), ServeEnd>
    requires { AreIdle devices.items }
{
    for _ in 0..images.len() {
        let (Some(mut seat), Some(mut image)) = (last_device(&mut devices), images.pop()) else {
            break;
        };
        let working = thread::spawn(
            &rt,
            move || -> ()
                requires { IsIdle seat }
            {
                run_worker(&rt, alloc, &mut seat, &mut image, delay);
            },
        );
        if working.is_err() {
            return Err(ServeEnd::Socket);
        }
    }
    Ok(())
}

/// Starts the threads of all paths: the clients', each at the seat of its number, and the operator's. At the other seats nobody sits. Once
/// the operator has stopped the host, his thread gives the connection on which he is to be told so.
///
/// # Errors
///
/// A thread cannot be started.
pub fn start_paths<R: Threads + Wait + Clock + Copy + Drop + Send + 'static>(
    rt: R,
    alloc: Global,
    doors: Doors,
    callers: Vec<Caller>,
    operator: OperatorSeat,
) -> Result<JoinHandle<UnixStream>, ServeEnd>
    requires callers { AreIdle callers.items }
    requires operator { IsIdle operator }
{
    start_clients(rt, alloc, callers, doors.clients)?;
    start_operator(rt, alloc, doors.operator, operator)
}

// Starts a thread for each client's path.
fn start_clients<R: Threads + Wait + Clock + Copy + Drop + Send + 'static>(
    rt: R,
    alloc: Global,
    mut callers: Vec<Caller>,
    mut listeners: Vec<UnixListener>,
) -> Result<(), ServeEnd>
    requires { AreIdle callers.items }
{
    for _ in 0..callers.len() {
        let Some(seat) = last_caller(&mut callers) else {
            break;
        };
        // The seats that are left have lower numbers. So this one has a path if more paths are left than seats.
        if callers.len() >= listeners.len() {
            continue;
        }
        let Some(listener) = listeners.pop() else {
            break;
        };
        start_client(rt, alloc, seat, listener)?;
    }
    Ok(())
}

/// Starts a thread for one client's path, at this seat, to which nothing has come.
///
/// # Errors
///
/// The thread cannot be started.
pub fn start_client<R: Threads + Wait + Clock + Copy + Drop + Send + 'static>(
    rt: R,
    alloc: Global,
    seat: Caller,
    listener: UnixListener,
) -> Result<(), ServeEnd>
    requires { IsIdle seat }
{
    let serving = thread::spawn(
        &rt,
        move || -> ()
            requires { IsIdle seat }
        { serve_clients(&rt, alloc, &listener, seat) },
    );
    match serving {
        Ok(_) => Ok(()),
        Err(_) => Err(ServeEnd::Socket),
    }
}

// Starts the operator's thread.
fn start_operator<R: Threads + Wait + Clock + Copy + Drop + Send + 'static>(
    rt: R,
    alloc: Global,
    listener: UnixListener,
    seat: OperatorSeat,
) -> Result<JoinHandle<UnixStream>, ServeEnd>
    requires { IsIdle seat }
{
    let serving = thread::spawn(
        &rt,
        move || -> UnixStream
            requires { IsIdle seat }
        { serve_operators(&rt, alloc, &listener, seat) },
    );
    match serving {
        Ok(serving) => Ok(serving),
        Err(_) => Err(ServeEnd::Socket),
    }
}
