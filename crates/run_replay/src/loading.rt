// A record replayed.
ghost use Rattle.std.specs.Prelude.{◌≡◌, ◌<◌, ◌^◌, [], ◌∷◌, ◌++◌, false, length, map, take, IfOk, OnOk, Some};
ghost use Rattle.std.specs.Io.KnownBytes.{Consumes, IsAtEnd};
ghost use Rattle.run_record.specs.Naming.{parts_of};
ghost use Rattle.plain.specs.Step.{of_sizes};
ghost use Rattle.dispatch_core.specs.Running.{sizes_of};
ghost use Rattle.run_replay.specs.Replaying.{before, whose, IsReplayOf};

use crate::listing::put_entry;
use crate::reel::{Asked, Batch, Reel, ReplayFault, config_of};
use host_calls::SeatName;
use host_rings::Book;
use plain::{Answer, Call, Code};
use run_record::{Entry, Header};
use sector_core::Config;
use std::alloc::Global;
use std::io::Read;

/// The keeper of a record.
#[derive(Drop)]
pub struct Replayed {
    /// The keeper, with the names of its journal's entries.
    pub book: Book,
    /// What the record's host was made for.
    pub header: Header,
    /// How many whole entries the record has.
    pub entries: u64,
    /// Whether the file ends inside of the entry behind them.
    pub is_torn: bool,
    /// The lines of the entries, if they are asked for.
    pub lines: Vec<u8>,
}

/// Replays a record: makes the calls of its entries on a new keeper, each of which must be accepted. If the keeper is to stop before an
/// entry, it is that of the calls before it; those behind it are judged all the same.
///
/// # Errors
///
/// [`ReplayFault`] has them.
pub fn load<R: Read>(alloc: Global, reader: &mut R, asked: Asked) -> Result<Replayed, ReplayFault>
    ensures { IfOk result (λ r. (bytes : _) × Consumes (R.remaining reader.old) (R.remaining reader.new) bytes
        × IsAtEnd (R.remaining reader.new) × IsReplayOf bytes asked r) }
{
    let (mut reel, batch) = Reel::open(alloc, reader)?;
    let config = config_of(reel.header.config, asked.history)?;
    let Ok(mut book) = Book::new(alloc, config, reel.header.sectors) else {
        return Err(ReplayFault::OutOfMemory);
    };
    let mut lines = Vec::new(alloc);
    make_all(alloc, &mut book, batch, &mut lines, asked)?;
    // Each turn takes one more piece of the file.
    for _ in 0..u64::MAX {
        match reel.next(alloc, reader)? {
            Some(batch) => make_all(alloc, &mut book, batch, &mut lines, asked)?,
            None => {
                let entries = book.view().journal_len();
                // Its host has refused each call behind its own history.
                if entries > reel.header.config.history_max as usize {
                    let first = u64::from(reel.header.config.history_max).saturating_add(1);
                    return Err(ReplayFault::BadEntry(first));
                }
                let book = kept(alloc, book, config, reel.header.sectors, asked.to)?;
                return Ok(Replayed {
                    book,
                    header: reel.header,
                    entries: entries as u64,
                    is_torn: reel.is_torn(),
                    lines,
                });
            }
        }
    }
    // No file has as many pieces.
    Err(ReplayFault::Unread)
}

// The keeper of the calls before an entry: the one that is there, if none is left out; else a new one, on which they are made again.
fn kept(
    alloc: Global,
    book: Book,
    config: Config,
    sectors: u64,
    to: Option<u64>,
) -> Result<Book, ReplayFault>
    requires few { sectors < 2 ^ 55 }
    requires limits { book.limits ≡ of_sizes (sizes_of config sectors) }
    requires most { book.most ≡ config.history_max }
    ensures entries { IfOk result (λ kept. kept.entries ≡ before to book.entries) }
    ensures limits { IfOk result (λ kept. kept.limits ≡ book.limits) }
    ensures most { IfOk result (λ kept. kept.most ≡ book.most) }
{
    let Some(to) = to else {
        return Ok(book);
    };
    let count = to.saturating_sub(1);
    let Ok(mut front) = Book::new(alloc, config, sectors) else {
        return Err(ReplayFault::OutOfMemory);
    };
    for at in 0..count as usize {
        let Some((name, call)) = book.entry(at) else {
            return Ok(front);
        };
        make_again(alloc, &mut front, name, call, at as u64)?;
    }
    Ok(front)
}

// Makes a call that was accepted once, and so is accepted again unless memory is wanting.
fn make_again(
    alloc: Global,
    book: &mut Book,
    name: SeatName,
    call: &Call,
    number: u64,
) -> Result<(), ReplayFault>
    ensures made { OnOk result (book.new.entries ≡ book.old.entries ++ record { name = name; call = call.now } ∷ []) }
    ensures limits { book.new.limits ≡ book.old.limits }
    ensures most { book.new.most ≡ book.old.most }
{
    let _answer = make(alloc, book, name, call, number, false)?;
    Ok(())
}

// Makes the calls of a piece's entries, one after the other.
fn make_all(
    alloc: Global,
    book: &mut Book,
    batch: Batch,
    lines: &mut Vec<u8>,
    asked: Asked,
) -> Result<(), ReplayFault>
    ensures made { OnOk result (map whose book.new.entries ≡ map whose book.old.entries ++ map parts_of batch.entries.items) }
    ensures good { OnOk result (batch.is_bad ≡ false) }
    ensures limits { book.new.limits ≡ book.old.limits }
    ensures most { book.new.most ≡ book.old.most }
{
    for entry in batch.entries {
        make_entry(alloc, book, entry, lines, asked)?;
    }
    if batch.is_bad {
        return Err(ReplayFault::BadEntry(next_number(book)));
    }
    Ok(())
}

// The number of the entry that would be the next one. No journal has as many as numbers are.
fn next_number(book: &Book) -> u64 {
    (book.view().journal_len() as u64).saturating_add(1)
}

// Makes the call of an entry, and appends its line, if it is to have one.
fn make_entry(
    alloc: Global,
    book: &mut Book,
    entry: Entry,
    lines: &mut Vec<u8>,
    asked: Asked,
) -> Result<(), ReplayFault>
    ensures made { OnOk result (map whose book.new.entries ≡ map whose book.old.entries ++ parts_of entry ∷ []) }
    ensures limits { book.new.limits ≡ book.old.limits }
    ensures most { book.new.most ≡ book.old.most }
{
    let number = next_number(book);
    let (name, call) = parts(entry, number)?;
    let is_other_history = asked.history.is_some();
    let answer = make(alloc, book, name, &call, number, is_other_history)?;
    let is_before = match asked.to {
        Some(to) => number < to,
        None => true,
    };
    if asked.list && is_before && put_entry(book, number, name, &call, &answer, lines).is_err() {
        return Err(ReplayFault::OutOfMemory);
    }
    Ok(())
}

// Whose entry it is, and the call; an entry that was read has them.
fn parts(entry: Entry, number: u64) -> Result<(SeatName, Call), ReplayFault>
    ensures { IfOk result (λ r. parts_of entry ≡ Some r) }
{
    match entry.into_parts() {
        Some(parts) => Ok(parts),
        None => Err(ReplayFault::BadEntry(number)),
    }
}

// Makes a call of the entry of a number, which must be accepted. With another history than the record's own, a full one is told as such.
fn make(
    alloc: Global,
    book: &mut Book,
    name: SeatName,
    call: &Call,
    number: u64,
    is_other_history: bool,
) -> Result<Answer, ReplayFault>
    ensures made { OnOk result (book.new.entries ≡ book.old.entries ++ record { name = name; call = call.now } ∷ []) }
    ensures limits { book.new.limits ≡ book.old.limits }
    ensures most { book.new.most ≡ book.old.most }
{
    let answer = book.judge(alloc, name, call);
    match &answer {
        Answer::Accepted(_) => Ok(answer),
        Answer::Refused(Code::OutOfMemory) => Err(ReplayFault::OutOfMemory),
        Answer::Refused(Code::HistoryFull) if is_other_history => Err(ReplayFault::History),
        Answer::Refused(_) | Answer::NotYet(_) => Err(ReplayFault::BadEntry(number)),
    }
}
