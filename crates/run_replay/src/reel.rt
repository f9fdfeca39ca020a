// The pieces of a record's file.
ghost use Rattle.std.specs.Prelude.{◌≡◌, ℕ, ◌≤◌, ◌<◌, ◌^◌, ◌↔◌, [], length, is_some, unwrap_or, IfOk, IfSome, IsFalse, MatchOption};
ghost use Rattle.dispatch_core.specs.Running.{sizes_of};
ghost use Rattle.run_replay.specs.Replaying.{HasRead, Opens, Goes, IsOver};

use run_record::{Entry, Header, HeaderFault, MOST_HEADER, read_header};
use sector_core::{Config, ConfigDraft};
use session_proto::Feeder;
use std::alloc::Global;
use std::io::Read;

// A read takes at most this many bytes.
const PIECE_BYTES: usize = 4096;

/// What is asked of a replay.
#[derive(Clone, Copy)]
pub struct Asked {
    /// How many calls the history is to hold; as many as that of the record, if nothing is asked.
    pub history: Option<u64>,
    /// The number of the entry before which it stops, from 1; none are left out, if nothing is asked.
    pub to: Option<u64>,
    /// Whether each entry before that one is to have a line of text.
    pub list: bool,
}

/// Why a record is not replayed.
#[derive(Clone, Copy, Debug, PartialEq, Eq)]
pub enum ReplayFault {
    /// The file cannot be read.
    Unread,
    /// The entry of this number, from 1, is none, or its call is not accepted; 0 is the first line.
    BadEntry(u64),
    /// The history is to hold fewer calls than are made, or its number is out of its limits.
    History,
    /// There is no memory.
    OutOfMemory,
}

/// A record, as far as it was read.
#[derive(Drop)]
pub struct Reel {
    /// What its host was made for.
    pub header: Header,
    feeder: Feeder<Entry>,
}

/// The entries of a piece.
#[derive(Drop)]
pub struct Batch {
    /// Those that are whole with it, in order.
    pub entries: Vec<Entry>,
    /// Whether what stands behind them is none.
    pub is_bad: bool,
}

impl Reel {
    /// Reads the first line, and the entries that are whole in the piece that has its end.
    ///
    /// # Errors
    ///
    /// The file cannot be read, the line is none, or there is no memory.
    pub fn open<R: Read>(alloc: Global, reader: &mut R) -> Result<(Reel, Batch), ReplayFault>
        ensures opens { IfOk result (λ r. Opens (R.remaining reader.old) (R.remaining reader.new) r.0 r.1.entries.items r.1.is_bad) }
        ensures few { IfOk result (λ r. r.0.header.sectors < 2 ^ 55) }
    {
        let mut piece = [0u8; PIECE_BYTES];
        let mut held = Vec::new(alloc);
        // Each read but the last brings a byte, and a line of more bytes is none.
        for _ in 0..=MOST_HEADER {
            if let Some(size) = line_length(held.as_slice()) {
                return Reel::behind(alloc, held.as_slice(), size);
            }
            if held.len() > MOST_HEADER {
                break;
            }
            let Ok(count) = reader.read(&mut piece) else {
                return Err(ReplayFault::Unread);
            };
            if count == 0 {
                break;
            }
            if held.extend_from_slice(&piece[..count]).is_err() {
                return Err(ReplayFault::OutOfMemory);
            }
        }
        Err(ReplayFault::BadEntry(0))
    }

    // The record whose first line has so many bytes of those that were read.
    fn behind(alloc: Global, held: &[u8], size: usize) -> Result<(Reel, Batch), ReplayFault>
        requires { size ≤ length held.now }
        ensures read { IfOk result (λ r. HasRead r.0 held.now r.1.entries.items) }
        ensures bad { IfOk result (λ r. r.1.is_bad ≡ is_some r.0.feeder.fault) }
        ensures few { IfOk result (λ r. r.0.header.sectors < 2 ^ 55) }
    {
        if size > MOST_HEADER {
            return Err(ReplayFault::BadEntry(0));
        }
        let (line, rest) = held.split_at(size);
        let header = match read_header(alloc, line) {
            Ok(header) => header,
            Err(HeaderFault::Bad) => return Err(ReplayFault::BadEntry(0)),
            Err(HeaderFault::OutOfMemory) => return Err(ReplayFault::OutOfMemory),
        };
        let mut feeder = Feeder::new(alloc);
        let Ok(fed) = feeder.feed(alloc, rest) else {
            return Err(ReplayFault::OutOfMemory);
        };
        let batch = Batch {
            entries: fed.values,
            is_bad: fed.fault.is_some(),
        };
        Ok((Reel { header, feeder }, batch))
    }

    /// The next entries, which are whole with one more piece of the file; none at its end.
    ///
    /// # Errors
    ///
    /// The file cannot be read, or there is no memory.
    pub fn next<R: Read>(
        &mut self,
        alloc: Global,
        reader: &mut R,
    ) -> Result<Option<Batch>, ReplayFault>
        ensures goes { IfOk result (λ o. MatchOption o (IsOver (R.remaining reader.old) (R.remaining reader.new) self.old self.new)
            (λ batch. Goes (R.remaining reader.old) (R.remaining reader.new) self.old self.new batch.entries.items batch.is_bad)) }
        ensures header { self.new.header ≡ self.old.header }
    {
        let mut piece = [0u8; PIECE_BYTES];
        let Ok(count) = reader.read(&mut piece) else {
            return Err(ReplayFault::Unread);
        };
        if count == 0 {
            return Ok(None);
        }
        match self.feeder.feed(alloc, &piece[..count]) {
            Ok(fed) => Ok(Some(Batch {
                entries: fed.values,
                is_bad: fed.fault.is_some(),
            })),
            Err(_) => Err(ReplayFault::OutOfMemory),
        }
    }

    /// Whether the file ends inside of an entry.
    pub fn is_torn(&self) -> bool
        ensures { IsFalse result ↔ self.now.feeder.bytes ≡ [] }
    {
        !self.feeder.is_between()
    }
}

// How many bytes the first line has, with its end, if its end is there.
fn line_length(bytes: &[u8]) -> Option<usize>
    ensures { IfSome result (λ n. n ≤ length bytes.now) }
{
    for place in 0..bytes.len() {
        if bytes[place] == b'\n' {
            return Some(place + 1);
        }
    }
    None
}

/// The configuration of a record with room for as many calls as are asked for.
///
/// # Errors
///
/// The number is out of its limits.
pub fn config_of(config: Config, history: Option<u64>) -> Result<Config, ReplayFault>
    ensures same { IfOk result (λ made. (sectors : ℕ) → sizes_of made sectors ≡ sizes_of config sectors) }
    ensures history { IfOk result (λ made. made.history_max ≡ unwrap_or history config.history_max) }
{
    let draft = ConfigDraft {
        scheduler: config.scheduler,
        nr_requests: u64::from(config.nr_requests),
        tags: u64::from(config.tags),
        first_budget: u64::from(config.first_budget),
        max_budget: u64::from(config.max_budget),
        timeout: u64::from(config.timeout),
        history_max: history.unwrap_or(u64::from(config.history_max)),
        first_vtime: config.first_vtime,
    };
    match Config::check(draft) {
        Ok(config) => Ok(config),
        Err(_) => Err(ReplayFault::History),
    }
}
