// A host that is served.
ghost use Rattle.std.specs.Prelude.{◌≡◌, ◌≤◌, length, slice_get, IfOk, IfSome};
ghost use Rattle.dispatch_core.specs.Running.{sizes_of};
ghost use Rattle.plain.specs.Step.{of_sizes};
ghost use Rattle.host_core.specs.Cores.{pages};
ghost use Rattle.host_core.specs.Opening.{ArePaired, AreIdle, IsIdle};

use crate::opening::{Core, HostFault, host};
use crate::recording::{drop_record, open_record};
use crate::running::{start_core, start_looks};
use crate::warning::Warning;
use crate::watcher::Watcher;
use base_image::Image;
use host_core::{Caller, DeviceSeat, OperatorSeat};
use host_paths::{
    DoorFault, Doors, ServeEnd, open_doors, remove_all, start_paths, start_workers, tell_closed,
};
use run_record::Header;
use run_recording::Recorder;
use sector_core::Config;
use std::alloc::Global;
use std::io::{self, Eprint, Write};
use std::net::Net;
use std::os::unix::net::UnixStream;
use std::rt::Files;
use std::sync::Wait;
use std::thread::{JoinHandle, Threads};
use std::time::Clock;

/// Where a host serves, and how many clients.
#[derive(Clone, Copy)]
pub struct ServeOptions<'a> {
    /// The folder of the sockets.
    pub dir: &'a str,
    /// How many clients have a path, 1 to 16.
    pub clients: u8,
    /// How long each request takes a worker at least, in microseconds.
    pub delay: u32,
}

/// Who sees a host that serves, beside its clients and its operator.
#[derive(Clone, Copy)]
pub struct Watching<'a> {
    /// Whether there is a path for looks.
    pub inspect: bool,
    /// The file of the record, if one is to be made.
    pub record: Option<&'a str>,
}

/// Serves a host over the images, one worker for each, and nobody sees it but its clients and its operator. See [`run_host`].
pub fn run_server<
    R: Threads + Wait + Net + Files + Clock + Eprint + Copy + Drop + Send + 'static,
    I: Image + Drop + Send + 'static,
>(
    rt: R,
    alloc: Global,
    config: Config,
    images: Vec<I>,
    options: ServeOptions<'_>,
    fault: &mut Option<DoorFault>,
) -> ServeEnd
    requires workers { 1 ≤ length images.items × length images.items ≤ 4 }
    requires clients { 1 ≤ options.clients × options.clients ≤ 16 }
{
    let ServeOptions { dir, clients, .. } = options;
    let mut made = Vec::new(alloc);
    let served = match open_doors(&rt, alloc, dir, clients, false, &mut made, fault) {
        Ok(doors) => serve_at(
            rt,
            alloc,
            config,
            images,
            doors,
            options,
            None::<Recorder<Vec<u8>>>,
        ),
        Err(end) => Err(end),
    };
    end_at(&rt, alloc, made, served)
}

/// Serves a host over the images, one worker for each. The images are to tell one number of sectors; the host has as many as the first
/// tells. Once the operator has stopped the host, the files of its sockets are removed, and then he is told: so he may start another host
/// in the same folder. Threads that still meet a peer are left to the end of the process. If a path cannot be had `fault` tells why.
///
/// A record is made once the sockets are there. It has the journal's entries, in order, also at the end. Of a host that does not come to
/// serve none is left.
///
/// On standard error it says when it serves, once when nine tenths of the history are used, once when it is full, and once that the record
/// has failed and ends.
///
/// # Errors
///
/// The file of the record is there (`AlreadyExists`), or cannot be made. Then nothing was served, and the sockets are removed.
pub fn run_host<
    R: Threads + Wait + Net + Files + Clock + Eprint + Copy + Drop + Send + 'static,
    I: Image + Drop + Send + 'static,
>(
    rt: R,
    alloc: Global,
    config: Config,
    images: Vec<I>,
    options: ServeOptions<'_>,
    watching: Watching<'_>,
    fault: &mut Option<DoorFault>,
) -> io::Result<ServeEnd>
where
    R::File: Write + Drop + Send + 'static,
    requires workers { 1 ≤ length images.items × length images.items ≤ 4 }
    requires clients { 1 ≤ options.clients × options.clients ≤ 16 }
{
    let ServeOptions { dir, clients, .. } = options;
    let inspect = watching.inspect;
    let mut made = Vec::new(alloc);
    let served = match open_doors(&rt, alloc, dir, clients, inspect, &mut made, fault) {
        Err(end) => Err(end),
        Ok(doors) => {
            let recorder = match watching.record {
                None => None,
                Some(path) => {
                    let sectors = images[0].sectors();
                    let header = Header { config, sectors };
                    match open_record(&rt, alloc, path, &header) {
                        Ok(recorder) => Some(recorder),
                        Err(error) => {
                            remove_all(&rt, made.as_slice());
                            return Err(error);
                        }
                    }
                }
            };
            let served = serve_at(rt, alloc, config, images, doors, options, recorder);
            if let (Err(_), Some(path)) = (&served, watching.record) {
                drop_record(&rt, path);
            }
            served
        }
    };
    Ok(end_at(&rt, alloc, made, served))
}

// The end of a host: its files are removed, and then the operator is told, if he waits for it.
fn end_at(
    rt: &impl Files,
    alloc: Global,
    made: Vec<String>,
    served: Result<UnixStream, ServeEnd>,
) -> ServeEnd {
    remove_all(rt, made.as_slice());
    match served {
        Ok(stream) => {
            tell_closed(alloc, &mut &stream);
            ServeEnd::Stopped
        }
        Err(end) => end,
    }
}

// Waits for the operator's thread of a host, and then for the core's. Gives the connection on which he is to be told that the host has
// ended.
fn serve_at<
    R: Threads + Wait + Clock + Eprint + Copy + Drop + Send + 'static,
    I: Image + Drop + Send + 'static,
    W: Write + Drop + Send + 'static,
>(
    rt: R,
    alloc: Global,
    config: Config,
    images: Vec<I>,
    doors: Doors,
    options: ServeOptions<'_>,
    recorder: Option<Recorder<W>>,
) -> Result<UnixStream, ServeEnd>
    requires { length images.items ≤ 4 }
{
    let workers = images.len();
    let ServeOptions {
        dir,
        clients,
        delay,
    } = options;
    let Started { operator, core } = start_host(rt, alloc, config, images, delay, doors, recorder)?;
    let _ = eprintln!(rt; "serving {dir}, {clients} clients, {workers} workers");
    let stream = operator.join(&rt);
    core.join(&rt);
    Ok(stream)
}

// The threads of a host that are waited for.
struct Started {
    operator: JoinHandle<UnixStream>,
    core: JoinHandle<()>,
}

// Makes the host, and starts its threads.
fn start_host<
    R: Threads + Wait + Clock + Eprint + Copy + Drop + Send + 'static,
    I: Image + Drop + Send + 'static,
    W: Write + Drop + Send + 'static,
>(
    rt: R,
    alloc: Global,
    config: Config,
    images: Vec<I>,
    delay: u32,
    mut doors: Doors,
    recorder: Option<Recorder<W>>,
) -> Result<Started, ServeEnd>
    requires { length images.items ≤ 4 }
{
    let Ok((core, callers, devices, operator)) = host_over(alloc, config, images.as_slice()) else {
        return Err(ServeEnd::OutOfMemory);
    };
    let looks = start_looks(rt, alloc, &core, doors.inspect.take())?;
    let watcher = Watcher {
        warning: Warning::new(config.history_max),
        recorder,
        looks,
    };
    let core = start_core(rt, alloc, core, watcher)?;
    start_workers(rt, alloc, devices, images, delay)?;
    let operator = start_paths(rt, alloc, doors, callers, operator)?;
    Ok(Started { operator, core })
}

// A host over the images, which has as many sectors as the first of them tells, and one worker for each.
fn host_over<I: Image>(
    alloc: Global,
    config: Config,
    images: &[I],
) -> Result<(Core, Vec<Caller>, Vec<DeviceSeat>, OperatorSeat), HostFault>
    requires { length images.now ≤ 4 }
    ensures sectors { IfOk result (λ r. IfSome (slice_get images.now 0)
        (λ image. (pages r.0).limits ≡ of_sizes (sizes_of config (I.disk image).sectors))) }
    ensures workers { IfOk result (λ r. ArePaired (length images.now) r.0 r.1.items r.2.items r.3) }
    ensures idle { IfOk result (λ r. AreIdle r.1.items × AreIdle r.2.items × IsIdle r.3) }
{
    let Some(image) = images.first() else {
        return Err(HostFault::BadWorkers);
    };
    host(alloc, config, image.sectors(), images.len() as u8)
}
