// The statuses, and what is said on standard error: of each fault one line for a program, and at a terminal a second one for a person.
ghost use Rattle.std.specs.Prelude.{◌≡◌};

use host_rings::{Door, DoorFault};
use sector_core::ConfigFault;
use std::fmt;
use std::io::{self, ErrorKind};

/// The end of the input, or the operator's stop.
pub const DONE: u8 = 0;

/// A bad line.
pub const BAD_LINE: u8 = 2;

/// A read of standard input failed.
pub const READ_FAULT: u8 = 3;

/// A write to standard output failed.
pub const WRITE_FAULT: u8 = 4;

/// No memory.
pub const NO_MEMORY: u8 = 5;

/// Bad words, configuration, image, payload, or record that is to be replayed.
pub const REFUSED: u8 = 6;

/// A socket, a thread or the file of a record cannot be had.
pub const NO_SOCKET: u8 = 7;

/// A field that is out of its limits.
#[derive(Clone, Copy)]
pub enum Field {
    /// One of the configuration.
    Config(ConfigFault),
    /// The sectors of a device of zeros.
    Sectors,
    /// The workers of a host that is to serve.
    Workers,
    /// Its clients.
    Clients,
    /// How long a request takes one of its workers.
    Delay,
    /// The runs of its bad sectors.
    Bad,
}

impl Field {
    // The option that gives the field, and its limits.
    fn limits(self) -> &'static str {
        match self {
            Field::Config(ConfigFault::NrRequests) => "--nr-requests is 1 to 256",
            Field::Config(ConfigFault::Tags) => "--tags is 1 to 64",
            Field::Config(ConfigFault::MaxBudget) => "--max-budget is 256 to 65536",
            Field::Config(ConfigFault::FirstBudget) => "--first-budget is 256 to --max-budget",
            Field::Config(ConfigFault::Timeout) => "--timeout is 1 to 1000",
            Field::Config(ConfigFault::HistoryMax) => "--history is 1 to 16777216",
            Field::Config(ConfigFault::FirstVtime) => "--first-vtime is 0 to 4611686018427387904",
            Field::Sectors => "--sectors is 0 to 65536",
            Field::Workers => "--workers is 1 to 4",
            Field::Clients => "--clients is 1 to 16",
            Field::Delay => "--delay is 0 to 1000000",
            Field::Bad => "--bad has at most 16 runs, each of a sector at least",
        }
    }
}

impl fmt::Display for Field {
    fn fmt<W: fmt::Write>(&self, f: &mut fmt::Formatter<W>) -> fmt::Result {
        match self {
            Field::Config(fault) => write!(f, "{fault}"),
            Field::Sectors => write!(f, "sectors"),
            Field::Workers => write!(f, "workers"),
            Field::Clients => write!(f, "clients"),
            Field::Delay => write!(f, "delay"),
            Field::Bad => write!(f, "bad"),
        }
    }
}

/// Says that the words ask for nothing, and to a person why.
pub fn bad_words(rt: &impl Eprint, why: Option<&str>) -> u8
    ensures { result ≡ REFUSED }
{
    let _ = rt.eprintln("words: refused");
    if let Some(why) = why {
        let _ = eprintln!(rt; "{why}; see bfqhost --help");
    }
    REFUSED
}

/// Says that this field is out of its limits, and to a person which these are.
pub fn bad_field(rt: &impl Eprint, field: Field, at_terminal: bool) -> u8
    ensures { result ≡ REFUSED }
{
    let _ = eprintln!(rt; "config: {field}");
    if at_terminal {
        let limits = field.limits();
        let _ = eprintln!(rt; "{limits}; see bfqhost --help");
    }
    REFUSED
}

/// Says that the image cannot be had, and to a person why.
pub fn no_image(rt: &impl Eprint, path: &str, error: io::Error, at_terminal: bool) -> u8
    ensures { result ≡ REFUSED }
{
    let _ = rt.eprintln("image: cannot be read");
    if at_terminal {
        let _ = match (error.kind(), error.raw_os_error()) {
            (ErrorKind::InvalidInput, None) => {
                eprintln!(rt; "{path}: neither a regular file nor a block device")
            }
            (ErrorKind::InvalidData, None) => eprintln!(rt;
                "{path}: its size has changed meanwhile"
            ),
            _ => eprintln!(rt; "{path}: {error}"),
        };
    }
    REFUSED
}

/// Says that the payload cannot be had, and to a person why.
pub fn no_payload(rt: &impl Eprint, path: &str, error: io::Error, at_terminal: bool) -> u8
    ensures { result ≡ REFUSED }
{
    let _ = rt.eprintln("payload: cannot be read");
    if at_terminal {
        let _ = match (error.kind(), error.raw_os_error()) {
            (ErrorKind::InvalidInput, None) => eprintln!(rt; "{path}: no regular file"),
            (ErrorKind::FileTooLarge, None) => eprintln!(rt; "{path}: longer than 64 MiB"),
            _ => eprintln!(rt; "{path}: {error}"),
        };
    }
    REFUSED
}

/// Says that the image is not that of a record, and to a person how many sectors that has.
pub fn other_image(rt: &impl Eprint, path: &str, sectors: u64, at_terminal: bool) -> u8
    ensures { result ≡ REFUSED }
{
    let _ = rt.eprintln("image: cannot be read");
    if at_terminal {
        let _ = eprintln!(rt; "{path}: not of {sectors} sectors, as the record has it");
    }
    REFUSED
}

/// Says that the file of a record cannot be made, and to a person why.
pub fn no_record(rt: &impl Eprint, path: &str, error: io::Error, at_terminal: bool) -> u8
    ensures { result ≡ NO_SOCKET }
{
    let _ = match error.kind() {
        ErrorKind::AlreadyExists => rt.eprintln("record: exists"),
        _ => rt.eprintln("record: failed"),
    };
    if at_terminal {
        let _ = eprintln!(rt; "{path}: {error}");
    }
    NO_SOCKET
}

/// Says that a record cannot be read, and to a person which.
pub fn unread_record(rt: &impl Eprint, path: &str, at_terminal: bool) -> u8
    ensures { result ≡ REFUSED }
{
    let _ = rt.eprintln("record: cannot be read");
    if at_terminal {
        let _ = eprintln!(rt; "{path}: no file that can be read");
    }
    REFUSED
}

/// Says which entry of a record is none, or has a call that is not accepted; and to a person what that means.
pub fn bad_entry(rt: &impl Eprint, number: u64, at_terminal: bool) -> u8
    ensures { result ≡ REFUSED }
{
    let _ = eprintln!(rt; "record: bad entry {number}");
    if at_terminal {
        let _ = match number {
            0 => rt.eprintln("the first line is none of a record"),
            _ => rt.eprintln("it is no entry, or its call is not accepted there"),
        };
    }
    REFUSED
}

/// Says that there is no memory.
pub fn no_memory(rt: &impl Eprint) -> u8
    ensures { result ≡ NO_MEMORY }
{
    let _ = rt.eprintln("memory: none");
    NO_MEMORY
}

/// Says that a socket or a thread cannot be had, and to a person which and why.
pub fn no_socket(rt: &impl Eprint, dir: &str, fault: Option<DoorFault>, at_terminal: bool) -> u8
    ensures { result ≡ NO_SOCKET }
{
    let _ = rt.eprintln("socket: failed");
    if at_terminal {
        say_why(rt, dir, fault);
    }
    NO_SOCKET
}

// Why a socket or a thread cannot be had.
fn say_why(rt: &impl Eprint, dir: &str, fault: Option<DoorFault>) {
    let Some(DoorFault { door, error }) = fault else {
        let _ = rt.eprintln("the system gives no further thread");
        return;
    };
    if dir.is_empty() {
        let _ = rt.eprintln("--dir names no folder");
        return;
    }
    let _ = match door {
        Door::Operator => eprint!(rt; "{dir}/operator: "),
        Door::Client(number) => eprint!(rt; "{dir}/client{number}: "),
        Door::Inspect => eprint!(rt; "{dir}/inspect: "),
    };
    let _ = match (error.kind(), error.raw_os_error()) {
        (ErrorKind::AddrInUse, None) => rt.eprintln("another host serves there"),
        (ErrorKind::AlreadyExists, None) => rt.eprintln("a file that is no socket stands there"),
        _ => rt.eprintln(error),
    };
}
