// A host served over sockets.
ghost use Rattle.std.specs.Prelude.{◌≡◌, ◌≤◌, ◌↔◌, nat_lt, IsErr, IsSome, IfOk, length};
ghost use Rattle.std.specs.List.{list_all};
ghost use Rattle.sector_core.specs.Config.{fault_of};
ghost use Rattle.bfqhost.specs.Serving.{IsServeStatus, IsRefusedServe, IsEndStatus, serve_status_of, runs_fit, HaveBad};

use crate::faults::{DONE, Field, bad_field, no_image, no_memory, no_record, no_socket};
use bad_sectors::BadSectors;
use base_image::{FileImage, file_images};
use host_rings::{DoorFault, ServeEnd, ServeOptions, Watching, run_host};
use sector_core::{Config, ConfigDraft, ConfigFault, Range};
use std::alloc::{AllocError, Global};
use std::fs::File;
use std::io::{self, ErrorKind};
use std::net::Net;
use std::rt::Files;
use std::sync::Wait;
use std::thread::Threads;
use std::time::Clock;

// A host has 1 to 4 workers.
const MOST_WORKERS: u64 = 4;

// And 1 to 16 clients that have a path.
const MOST_CLIENTS: u64 = 16;

// A request takes a worker a second at most, in microseconds. A host that is stopped waits for none.
const MOST_DELAY: u64 = 1_000_000;

// So few runs of bad sectors are looked through at each read.
const MOST_RUNS: usize = 16;

/// What a host is to serve, as the words of the command line have it.
#[derive(Clone, Copy)]
pub struct Serving<'a> {
    /// The file that is the image.
    pub image: &'a str,
    /// The folder of the sockets.
    pub dir: &'a str,
    /// How many clients have a path; not yet checked.
    pub clients: u64,
    /// How many workers the device has; not yet checked.
    pub workers: u64,
    /// How long each request takes a worker at least, in microseconds; not yet checked.
    pub delay: u64,
    /// The runs of sectors that are bad; not yet checked.
    pub bad: &'a [Range],
    /// Whether there is a path for looks.
    pub inspect: bool,
    /// The file of the record, if one is to be made.
    pub record: Option<&'a str>,
}

/// Serves a host over the image in a file, where the configuration is within its limits and then the image can be had. Gives the status.
/// At a terminal a fault is told to a person, too.
pub fn serve<R>(rt: &R, draft: ConfigDraft, serving: Serving<'_>, at_terminal: bool) -> u8
where
    R: Files<File = File> + AllocGlobal + Eprint,
    R: Threads + Wait + Net + Clock + Copy + Drop + Send + 'static,
    ensures { IsServeStatus draft serving.entry.clients serving.entry.workers serving.entry.delay serving.entry.bad.now result }
{
    let config = match checked_fields(draft, &serving) {
        Ok(config) => config,
        Err(field) => return bad_field(rt, field, at_terminal),
    };
    let options = ServeOptions {
        dir: serving.dir,
        clients: serving.clients as u8,
        delay: serving.delay as u32,
    };
    let watching = Watching {
        inspect: serving.inspect,
        record: serving.record,
    };
    let device = Device {
        image: serving.image,
        workers: serving.workers as u8,
        bad: serving.bad,
    };
    over_file(rt, config, device, options, watching, at_terminal)
}

// The configuration, or the first field that is out of its limits.
fn checked_fields(draft: ConfigDraft, serving: &Serving<'_>) -> Result<Config, Field>
    ensures refused { IsRefusedServe draft serving.now.clients serving.now.workers serving.now.delay serving.now.bad.now → IsErr result }
    ensures workers { IfOk result (λ _. 1 ≤ serving.now.workers × serving.now.workers ≤ 4) }
    ensures clients { IfOk result (λ _. 1 ≤ serving.now.clients × serving.now.clients ≤ 16) }
    ensures delay { IfOk result (λ _. serving.now.delay ≤ 1000000) }
{
    let config = match checked(draft) {
        Ok(config) => config,
        Err(fault) => return Err(Field::Config(fault)),
    };
    if serving.workers == 0 || serving.workers > MOST_WORKERS {
        return Err(Field::Workers);
    }
    if serving.clients == 0 || serving.clients > MOST_CLIENTS {
        return Err(Field::Clients);
    }
    if serving.delay > MOST_DELAY {
        return Err(Field::Delay);
    }
    if !runs_fit(serving.bad) {
        return Err(Field::Bad);
    }
    Ok(config)
}

// Whether there are so few runs of sectors, and each has one.
fn runs_fit(runs: &[Range]) -> bool
    ensures { result ≡ runs_fit runs.now }
{
    runs.len() <= MOST_RUNS && have_sectors(runs)
}

// Whether each run has a sector.
fn have_sectors(runs: &[Range]) -> bool
    ensures { result ≡ list_all (λ run. nat_lt 0 run.count) runs.now }
{
    for run in runs {
        if run.count == 0 {
            return false;
        }
    }
    true
}

// The device of a host: its image, how many workers it has, and its bad sectors.
#[derive(Clone, Copy)]
struct Device<'a> {
    image: &'a str,
    workers: u8,
    bad: &'a [Range],
}

// The configuration, if no field is out of its limits. Of what is then known of its numbers nothing is said here, as nobody needs it.
fn checked(draft: ConfigDraft) -> Result<Config, ConfigFault>
    ensures { IsErr result ↔ IsSome (fault_of draft) }
{
    Config::check(draft)
}

// The image in the file of a device for each of its workers, with the bad sectors.
fn device_images(
    rt: &impl Files<File = File>,
    alloc: Global,
    device: Device<'_>,
) -> io::Result<Vec<BadSectors<FileImage>>>
    ensures many { IfOk result (λ images. length images.items ≡ device.entry.workers) }
    ensures bad { IfOk result (λ images. HaveBad device.entry.bad.now images.items) }
{
    let files = file_images(rt, alloc, device.image, device.workers)?;
    Ok(with_bad(alloc, files, device.bad)?)
}

// Each image, of which the sectors of these runs are bad.
fn with_bad(
    alloc: Global,
    files: Vec<FileImage>,
    bad: &[Range],
) -> Result<Vec<BadSectors<FileImage>>, AllocError>
    ensures many { IfOk result (λ images. length images.items ≡ length files.items) }
    ensures bad { IfOk result (λ images. HaveBad bad.now images.items) }
{
    let mut images = Vec::new(alloc);
    for file in files {
        let mut runs = Vec::new(alloc);
        runs.extend_from_slice(bad)?;
        images.push(BadSectors::new(file, runs))?;
    }
    Ok(images)
}

// Serves the host over the image in a file.
fn over_file<R>(
    rt: &R,
    config: Config,
    device: Device<'_>,
    options: ServeOptions<'_>,
    watching: Watching<'_>,
    at_terminal: bool,
) -> u8
where
    R: Files<File = File> + AllocGlobal + Eprint,
    R: Threads + Wait + Net + Clock + Copy + Drop + Send + 'static,
    requires workers { 1 ≤ device.workers × device.workers ≤ 4 }
    requires clients { 1 ≤ options.clients × options.clients ≤ 16 }
    ensures { IsEndStatus result }
{
    let mut fault = None;
    let image = device.image;
    match device_images(rt, rt.alloc(), device) {
        Ok(images) => {
            let alloc = rt.alloc();
            match run_host(*rt, alloc, config, images, options, watching, &mut fault) {
                Ok(end) => status(rt, end, options.dir, fault, at_terminal),
                Err(error) => no_record(rt, watching.record.unwrap_or(""), error, at_terminal),
            }
        }
        Err(error) if error.kind() == ErrorKind::OutOfMemory => no_memory(rt),
        Err(error) => no_image(rt, image, error, at_terminal),
    }
}

// The status of an end, which is told where the host was not stopped.
fn status(
    rt: &impl Eprint,
    end: ServeEnd,
    dir: &str,
    fault: Option<DoorFault>,
    at_terminal: bool,
) -> u8
    ensures { result ≡ serve_status_of end }
{
    match end {
        ServeEnd::Stopped => DONE,
        ServeEnd::Socket => no_socket(rt, dir, fault, at_terminal),
        ServeEnd::OutOfMemory => no_memory(rt),
    }
}
