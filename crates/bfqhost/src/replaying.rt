// A record replayed, and then a script run or its entries listed.
ghost use Rattle.std.specs.Prelude.{◌≡◌, ◌<◌, ◌^◌};
ghost use Rattle.script_line.specs.declared.ending.ScriptEnd.{ScriptEnd};
ghost use Rattle.bfqhost.specs.Status.{status_of, IsStatus};

use crate::faults::{Field, bad_entry, bad_field, no_image, no_memory, other_image, unread_record};
use crate::payload::payload_of;
use crate::start::{OUTPUT_BYTES, status};
use base_image::{Image, ZeroImage, file_image};
use bytes::Bytes;
use host_rings::Book;
use run_replay::{Asked, ReplayFault, Replayed, load};
use script_host::run_script_at;
use script_line::ScriptEnd;
use sector_core::ConfigFault;
use std::fs::File;
use std::io::{self, BufWriter, ErrorKind, Write};
use std::rt::Files;

// No record that was read has as many sectors.
const TOO_MANY_SECTORS: u64 = 1 << 55;

/// What is to be replayed, as the words of the command line have it.
#[derive(Clone, Copy)]
pub struct Replaying<'a> {
    /// The file of the record.
    pub file: &'a str,
    /// The file that is the image of the script's device.
    pub image: Option<&'a str>,
    /// The file whose bytes a write of the script may take.
    pub payload: Option<&'a str>,
    /// The history, the end and the lines that are asked for.
    pub asked: Asked,
}

/// Replays a record, which is judged whole first, and then runs the script of standard input on its keeper, or lists its entries. Gives the
/// status. At a terminal a fault is told to a person, too.
pub fn replay(
    rt: &(impl Files<File = File> + AllocGlobal + Input + Print + Eprint),
    replaying: Replaying<'_>,
    at_terminal: bool,
) -> u8
    ensures { IsStatus result }
{
    let Replaying {
        file,
        asked,
        image,
        ..
    } = replaying;
    let loaded = match File::open(rt, file) {
        Ok(mut reader) => load(rt.alloc(), &mut reader, asked),
        Err(error) if error.kind() == ErrorKind::OutOfMemory => Err(ReplayFault::OutOfMemory),
        Err(_) => Err(ReplayFault::Unread),
    };
    let replayed = match loaded {
        Ok(replayed) => replayed,
        Err(fault) => return bad_record(rt, file, fault, at_terminal),
    };
    if replayed.is_torn {
        let entries = replayed.entries;
        let _ = eprintln!(rt; "record: torn behind entry {entries}");
    }
    let sectors = replayed.header.sectors;
    match image {
        Some(path) => over_file(rt, replayed, replaying, path, at_terminal),
        None if sectors < TOO_MANY_SECTORS => {
            finish(
                rt,
                replayed,
                replaying,
                ZeroImage::new(sectors),
                at_terminal,
            )
        }
        None => bad_entry(rt, 0, at_terminal),
    }
}

// Tells why a record is not replayed.
fn bad_record(rt: &impl Eprint, file: &str, fault: ReplayFault, at_terminal: bool) -> u8
    ensures { IsStatus result }
{
    match fault {
        ReplayFault::Unread => unread_record(rt, file, at_terminal),
        ReplayFault::BadEntry(number) => bad_entry(rt, number, at_terminal),
        ReplayFault::History => bad_field(rt, Field::Config(ConfigFault::HistoryMax), at_terminal),
        ReplayFault::OutOfMemory => no_memory(rt),
    }
}

// Ends a replay over the image in a file, which must have the record's sectors.
fn over_file(
    rt: &(impl Files<File = File> + AllocGlobal + Input + Print + Eprint),
    replayed: Replayed,
    replaying: Replaying<'_>,
    path: &str,
    at_terminal: bool,
) -> u8
    ensures { IsStatus result }
{
    let sectors = replayed.header.sectors;
    match file_image(rt, path) {
        Ok(image) => {
            if image.sectors() == sectors {
                finish(rt, replayed, replaying, image, at_terminal)
            } else {
                other_image(rt, path, sectors, at_terminal)
            }
        }
        Err(error) if error.kind() == ErrorKind::OutOfMemory => no_memory(rt),
        Err(error) => no_image(rt, path, error, at_terminal),
    }
}

// Prints the lines of a record's entries, or runs the script of standard input on its keeper, over an image; if the payload can be had,
// where one is named.
fn finish<I: Image + Drop>(
    rt: &(impl Files<File = File> + AllocGlobal + Input + Print + Eprint),
    replayed: Replayed,
    replaying: Replaying<'_>,
    image: I,
    at_terminal: bool,
) -> u8
    requires { (I.disk image).faults < 2 ^ 63 }
    ensures { IsStatus result }
{
    let payload = match payload_of(rt, replaying.payload, at_terminal) {
        Ok(payload) => payload,
        Err(status) => return status,
    };
    if replaying.asked.list {
        return print_lines(rt, replayed.lines.as_slice());
    }
    run_over(rt, replayed.book, image, payload)
}

// Prints the lines of a record's entries.
fn print_lines(rt: &(impl Print + Eprint), lines: &[u8]) -> u8
    ensures { (end : ScriptEnd) × (result ≡ status_of end) }
{
    let end = match io::writer(rt).write_all(lines) {
        Ok(()) => ScriptEnd::Done,
        Err(_) => ScriptEnd::WriteFault,
    };
    status(rt, end)
}

// Runs the script of standard input on the keeper of a record, over an image and a payload.
fn run_over<I: Image + Drop>(
    rt: &(impl AllocGlobal + Input + Print + Eprint),
    book: Book,
    image: I,
    payload: Option<Bytes>,
) -> u8
    requires { (I.disk image).faults < 2 ^ 63 }
    ensures { (end : ScriptEnd) × (result ≡ status_of end) }
{
    let mut output = match BufWriter::with_capacity(rt.alloc(), OUTPUT_BYTES, io::writer(rt)) {
        Ok(output) => output,
        Err(_) => return no_memory(rt),
    };
    let keeper = book.into_keeper();
    let end = run_script_at(
        rt.alloc(),
        keeper,
        &mut rt.reader(),
        &mut output,
        image,
        payload,
    );
    status(rt, end)
}
