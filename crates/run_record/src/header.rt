// The first line of a record.
ghost use Rattle.std.specs.Prelude.{◌≡◌, ◌<◌, ◌^◌, ◌++◌, IfOk, OnOk};
ghost use Rattle.run_record.specs.Header.{scheduler_name, first_half, second_half, header_text};

use sector_core::{Config, ConfigDraft, Scheduler};
use std::alloc::Global;
use std::io::{self, Write};

/// A line that is longer is none of a record's, in bytes and with its end.
pub const MOST_HEADER: usize = 256;

// An image has fewer sectors than this: a byte's place in it fits 64 bits.
const TOO_MANY_SECTORS: u64 = 1 << 55;

/// What the host of a record was made for.
#[derive(Clone, Copy)]
pub struct Header {
    /// Its configuration.
    pub config: Config,
    /// The sectors of its image.
    pub sectors: u64,
}

/// Why a line is no first line of a record.
#[derive(Clone, Copy, Debug, PartialEq, Eq)]
pub enum HeaderFault {
    /// It is none, or a field is out of its limits.
    Bad,
    /// There is no memory to compare it.
    OutOfMemory,
}

/// Appends the first line of a record. It fails only for want of memory.
pub fn put_header(header: &Header, out: &mut Vec<u8>) -> io::Result<()>
    ensures { OnOk result (out.new.items ≡ out.old.items ++ header_text header.now.config header.now.sectors) }
{
    put_first(header.config, out)?;
    put_second(header.config, header.sectors, out)
}

// Appends the first half of the line.
fn put_first(config: Config, out: &mut Vec<u8>) -> io::Result<()>
    ensures { OnOk result (out.new.items ≡ out.old.items ++ first_half config) }
{
    let name = name_of(config.scheduler);
    let Config {
        nr_requests,
        tags,
        first_budget,
        max_budget,
        ..
    } = config;
    write!(
        out,
        "bfqhost record 1 {name} {nr_requests} {tags} {first_budget} {max_budget}"
    )
}

// Appends the second half of the line, and its end.
fn put_second(config: Config, sectors: u64, out: &mut Vec<u8>) -> io::Result<()>
    ensures { OnOk result (out.new.items ≡ out.old.items ++ second_half config sectors) }
{
    let Config {
        timeout,
        history_max,
        first_vtime,
        ..
    } = config;
    write!(out, " {timeout} {history_max} {first_vtime} {sectors}\n")
}

fn name_of(scheduler: Scheduler) -> &'static str
    ensures { result.now ≡ scheduler_name scheduler }
{
    match scheduler {
        Scheduler::Plain => "none",
        Scheduler::Bfq => "bfq",
    }
}

/// Reads the first line of a record, with its end.
///
/// # Errors
///
/// The line is none, or there is no memory to compare it.
pub fn read_header(alloc: Global, line: &[u8]) -> Result<Header, HeaderFault>
    ensures text { IfOk result (λ h. line.now ≡ header_text h.config h.sectors) }
    ensures few { IfOk result (λ h. h.sectors < 2 ^ 55) }
{
    let Some(header) = fields_of(line) else {
        return Err(HeaderFault::Bad);
    };
    // Whatever was read is spelled again: so a number with a zero before it, or a space too many, is no spelling of it.
    let mut again = Vec::new(alloc);
    if put_header(&header, &mut again).is_err() {
        return Err(HeaderFault::OutOfMemory);
    }
    if again.as_slice() != line || header.sectors >= TOO_MANY_SECTORS {
        return Err(HeaderFault::Bad);
    }
    Ok(header)
}

// The fields of a line, if it has them within their limits.
fn fields_of(line: &[u8]) -> Option<Header> {
    let text = str::from_utf8(line).ok()?;
    let mut words = text.trim_ascii_end().split(' ').skip(3);
    let scheduler = match words.next()? {
        "none" => Scheduler::Plain,
        "bfq" => Scheduler::Bfq,
        _ => return None,
    };
    let draft = ConfigDraft {
        scheduler,
        nr_requests: words.next()?.parse().ok()?,
        tags: words.next()?.parse().ok()?,
        first_budget: words.next()?.parse().ok()?,
        max_budget: words.next()?.parse().ok()?,
        timeout: words.next()?.parse().ok()?,
        history_max: words.next()?.parse().ok()?,
        first_vtime: words.next()?.parse().ok()?,
    };
    let sectors = words.next()?.parse().ok()?;
    let config = Config::check(draft).ok()?;
    Some(Header { config, sectors })
}
