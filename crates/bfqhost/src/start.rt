// From the words of the command line to the status.
ghost use Rattle.std.specs.Prelude.{◌≡◌, ◌≤◌, ◌<◌, ◌^◌, ◌↔◌, None, IsSome, is_some};
ghost use Rattle.sector_core.specs.Config.{fault_of};
ghost use Rattle.script_line.specs.declared.ending.ScriptEnd.{ScriptEnd};
ghost use Rattle.bfqhost.specs.Status.{status_of, IsRefused, IsSimStatus, IsStatus};

use crate::faults::{
    BAD_LINE, DONE, Field, NO_MEMORY, READ_FAULT, WRITE_FAULT, bad_field, bad_words, no_image,
    no_memory,
};
use crate::payload::payload_of;
use crate::replaying::{Replaying, replay};
use crate::serving::{Serving, serve};
use base_image::{Image, ZeroImage, file_image};
use bytes::Bytes;
use host_options::{Request, WordFault, help_text, reason_of, request_of, version_line};
use run_replay::Asked;
use script_host::run_script_over;
use script_line::ScriptEnd;
use sector_core::{Config, ConfigDraft};
use std::env;
use std::fs::File;
use std::io::{self, BufWriter, ErrorKind, Write};
use std::net::Net;
use std::rt::{Env, Files};
use std::sync::Wait;
use std::thread::Threads;
use std::time::Clock;

// The most sectors of a device of zeros.
const MOST_SECTORS: u64 = 65_536;

/// Standard output is written in pieces of this size.
pub const OUTPUT_BYTES: usize = 65_536;

// The files that a run of a script names.
#[derive(Clone, Copy)]
struct Named<'a> {
    // The image of the device.
    image: Option<&'a str>,
    // The file whose bytes a write may take.
    payload: Option<&'a str>,
}

/// Does what the words ask for, and gives the status. At a terminal a fault is told to a person, too.
pub fn start<R>(rt: &R, at_terminal: bool) -> u8
where
    R: Env + Files<File = File> + AllocGlobal + Input + Print + Eprint,
    R: Threads + Wait + Net + Clock + Copy + Drop + Send + 'static,
{
    let words = match words_of(rt) {
        Ok(words) => words,
        Err(WordFault::Usage) => return bad_words(rt, at_terminal.then_some("a word is no text")),
        Err(WordFault::OutOfMemory) => return no_memory(rt),
    };
    match request_of(rt.alloc(), words.as_slice()) {
        Ok(Request::Help) => print(rt, help_text()),
        Ok(Request::Version) => print(rt, version_line()),
        Ok(
            Request::Sim {
                draft,
                sectors,
                image,
                payload,
            },
        ) => {
            let files = Named {
                image: text_in(&image),
                payload: text_in(&payload),
            };
            sim(rt, draft, sectors, files, at_terminal)
        }
        Ok(
            Request::Serve {
                draft,
                image,
                dir,
                clients,
                workers,
                delay,
                bad,
                inspect,
                record,
            },
        ) => {
            let serving = Serving {
                image: image.as_str(),
                dir: dir.as_str(),
                clients,
                workers,
                delay,
                bad: bad.as_slice(),
                inspect,
                record: text_in(&record),
            };
            serve(rt, draft, serving, at_terminal)
        }
        Ok(
            Request::Replay {
                file,
                image,
                payload,
                history,
                to,
                list,
            },
        ) => {
            let replaying = Replaying {
                file: file.as_str(),
                image: text_in(&image),
                payload: text_in(&payload),
                asked: Asked { history, to, list },
            };
            replay(rt, replaying, at_terminal)
        }
        Err(WordFault::Usage) if at_terminal => match reason_of(rt.alloc(), words.as_slice()) {
            Ok(why) => bad_words(rt, Some(why.as_str())),
            Err(_) => bad_words(rt, None),
        },
        Err(WordFault::Usage) => bad_words(rt, None),
        Err(WordFault::OutOfMemory) => no_memory(rt),
    }
}

// The text of an option that may not be given.
fn text_in(option: &Option<String>) -> Option<&str> {
    match option {
        Some(text) => Some(text.as_str()),
        None => None,
    }
}

// The words of the command line, each of which must be a text.
fn words_of(rt: &(impl Env + AllocGlobal)) -> Result<Vec<String>, WordFault> {
    let given = match env::args(rt) {
        Ok(given) => given,
        Err(error) if error.kind() == ErrorKind::OutOfMemory => return Err(WordFault::OutOfMemory),
        Err(_) => return Err(WordFault::Usage),
    };
    match given.collect(rt.alloc()) {
        Ok(words) => Ok(words),
        Err(_) => Err(WordFault::OutOfMemory),
    }
}

fn print(rt: &impl Print, text: &str) -> u8 {
    match write_flushed(rt, text) {
        Ok(()) => DONE,
        Err(_) => WRITE_FAULT,
    }
}

fn write_flushed(rt: &impl Print, text: &str) -> io::Result<()> {
    let mut output = io::writer(rt);
    output.write_all(text.as_bytes())?;
    output.flush()
}

// Runs the script, where the configuration is within its limits, then the image can be had: the file that is named,
// or sectors of zeros, where they are not too many; and then the payload can be had, where one is named.
fn sim(
    rt: &(impl Files<File = File> + AllocGlobal + Input + Print + Eprint),
    draft: ConfigDraft,
    sectors: u64,
    files: Named<'_>,
    at_terminal: bool,
) -> u8
    ensures field { IsSimStatus draft sectors (is_some files.entry.image) (is_some files.entry.payload) result }
    ensures status { IsStatus result }
{
    match (Config::check(draft), files.image) {
        (Err(fault), _) => bad_field(rt, Field::Config(fault), at_terminal),
        (Ok(config), Some(path)) => over_file(rt, config, path, files.payload, at_terminal),
        (Ok(config), None) if sectors <= MOST_SECTORS => simulate(
            rt,
            config,
            ZeroImage::new(sectors),
            files.payload,
            at_terminal,
        ),
        (Ok(_), None) => bad_field(rt, Field::Sectors, at_terminal),
    }
}

// Runs the script over the image in a file.
fn over_file(
    rt: &(impl Files<File = File> + AllocGlobal + Input + Print + Eprint),
    config: Config,
    path: &str,
    payload: Option<&str>,
    at_terminal: bool,
) -> u8
    ensures { IsStatus result }
{
    match file_image(rt, path) {
        Ok(image) => simulate(rt, config, image, payload, at_terminal),
        Err(error) if error.kind() == ErrorKind::OutOfMemory => no_memory(rt),
        Err(error) => no_image(rt, path, error, at_terminal),
    }
}

// Runs the script over the image and the payload that is named, if one is.
fn simulate<I: Image + Drop>(
    rt: &(impl Files<File = File> + AllocGlobal + Input + Print + Eprint),
    config: Config,
    image: I,
    payload: Option<&str>,
    at_terminal: bool,
) -> u8
    requires { (I.disk image).faults < 2 ^ 63 }
    ensures status { IsStatus result }
    ensures few { payload.entry ≡ None → result ≤ NO_MEMORY }
{
    match payload_of(rt, payload, at_terminal) {
        Ok(payload) => run(rt, config, image, payload),
        Err(status) => status,
    }
}

// Runs the script over the image and the payload, from standard input to standard output.
fn run<I: Image + Drop>(
    rt: &(impl AllocGlobal + Input + Print + Eprint),
    config: Config,
    image: I,
    payload: Option<Bytes>,
) -> u8
    requires { (I.disk image).faults < 2 ^ 63 }
    ensures status { (end : ScriptEnd) × (result ≡ status_of end) }
    ensures few { result ≤ NO_MEMORY }
{
    let mut output = match BufWriter::with_capacity(rt.alloc(), OUTPUT_BYTES, io::writer(rt)) {
        Ok(output) => output,
        Err(_) => return no_memory(rt),
    };
    let end = run_script_over(
        rt.alloc(),
        config,
        &mut rt.reader(),
        &mut output,
        image,
        payload,
    );
    status(rt, end)
}

/// The status of the end of a script.
pub fn status(rt: &impl Eprint, end: ScriptEnd) -> u8
    ensures { result ≡ status_of end }
{
    match end {
        ScriptEnd::Done => DONE,
        ScriptEnd::BadLine(_) => BAD_LINE,
        ScriptEnd::ReadFault => READ_FAULT,
        ScriptEnd::WriteFault => WRITE_FAULT,
        ScriptEnd::OutOfMemory => no_memory(rt),
    }
}
