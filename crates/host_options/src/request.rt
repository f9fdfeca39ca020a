// What the words of the command line ask for.
use crate::command::bfqhost;
use crate::reason::Reason;
use clap::ArgMatches;
use clap::error::ErrorKind;
use script_line::number;
use sector_core::{ConfigDraft, Range, Scheduler};
use std::alloc::{AllocError, Global};

/// What the words ask for.
#[derive(Debug, Drop, PartialEq, Eq)]
pub enum Request {
    /// Print the help.
    Help,
    /// Print the version.
    Version,
    /// Run a script.
    Sim {
        /// The configuration as it was given, its numbers not yet checked.
        draft: ConfigDraft,
        /// How many sectors of zeros the device has, where no image is named; not yet checked.
        sectors: u64,
        /// The file that is the image of the device, where one is named.
        image: Option<String>,
        /// The file whose bytes a write of the script may take, where one is named.
        payload: Option<String>,
    },
    /// Serve clients and the operator over sockets.
    Serve {
        /// The configuration as it was given, its numbers not yet checked.
        draft: ConfigDraft,
        /// The file that is the image of the device.
        image: String,
        /// The folder of the sockets.
        dir: String,
        /// How many clients have a path; not yet checked.
        clients: u64,
        /// How many workers the device has; not yet checked.
        workers: u64,
        /// How long each request takes a worker at least, in microseconds; not yet checked.
        delay: u64,
        /// The runs of sectors that are bad; not yet checked.
        bad: Vec<Range>,
        /// Whether there is a path for looks.
        inspect: bool,
        /// The file of the record, if one is to be made.
        record: Option<String>,
    },
    /// Replay a record, and then run a script or list its entries.
    Replay {
        /// The file of the record.
        file: String,
        /// The file that is the image of the device, where one is named.
        image: Option<String>,
        /// The file whose bytes a write of the script may take, where one is named.
        payload: Option<String>,
        /// How many calls the history is to hold, where that is given; not yet checked.
        history: Option<u64>,
        /// The number of the entry before which it stops, where one is given.
        to: Option<u64>,
        /// Whether the entries are listed, in place of a script.
        list: bool,
    },
}

/// Why the words ask for nothing.
#[derive(Clone, Copy, Debug, PartialEq, Eq)]
pub enum WordFault {
    /// They are not words of the command.
    Usage,
    /// Memory ran out while they were read.
    OutOfMemory,
}

/// What the words ask for. The first is the name of the program.
pub fn request_of(alloc: Global, words: &[String]) -> Result<Request, WordFault> {
    match read(alloc, words) {
        Ok(request) => Ok(request),
        Err(reason) => Err(reason.fault()),
    }
}

/// What a person is told of words that ask for nothing: which of them it was, in one line with no end.
///
/// # Errors
///
/// There is no memory for the text.
pub fn reason_of(alloc: Global, words: &[String]) -> Result<String, AllocError> {
    match read(alloc, words) {
        Ok(_) => Ok(String::new(alloc)),
        Err(reason) => reason.text(alloc),
    }
}

// What the words ask for, or why they ask for nothing.
fn read<'a>(alloc: Global, words: &'a [String]) -> Result<Request, Reason<'a>> {
    // It may not stand beside other words, which `clap` would let pass.
    if words.len() == 2 && words[1].as_str() == "--version" {
        return Ok(Request::Version);
    }
    let Ok(command) = bfqhost(alloc) else {
        return Err(Reason::OutOfMemory);
    };
    match command.try_get_matches_from(words) {
        Ok(found) => found_in(alloc, words, &found),
        Err(error) if error.kind() == ErrorKind::DisplayHelp => Ok(Request::Help),
        Err(error) => Err(Reason::Grammar(error)),
    }
}

// What the options that were found ask for.
fn found_in<'a>(
    alloc: Global,
    words: &[String],
    found: &ArgMatches<'a>,
) -> Result<Request, Reason<'a>> {
    // Nothing may stand after the options, so no word ends them.
    if words.iter().any(|word| word.as_str() == "--") {
        return Err(Reason::Unexpected("--"));
    }
    if let Some(options) = found.subcommand_matches("sim") {
        return sim(alloc, options);
    }
    if let Some(options) = found.subcommand_matches("serve") {
        return serve(alloc, options);
    }
    match found.subcommand_matches("replay") {
        Some(options) => replay(alloc, options),
        None => Err(Reason::Unexpected("words")),
    }
}

// The configuration that the options ask for.
fn draft_of<'a>(options: &ArgMatches<'a>) -> Result<ConfigDraft, Reason<'a>> {
    let usual = ConfigDraft::default();
    Ok(ConfigDraft {
        scheduler: scheduler_or(options, usual.scheduler)?,
        nr_requests: number_or(options, "nr-requests", usual.nr_requests)?,
        tags: number_or(options, "tags", usual.tags)?,
        first_budget: number_or(options, "first-budget", usual.first_budget)?,
        max_budget: number_or(options, "max-budget", usual.max_budget)?,
        timeout: number_or(options, "timeout", usual.timeout)?,
        history_max: number_or(options, "history", usual.history_max)?,
        first_vtime: number_or(options, "first-vtime", usual.first_vtime)?,
    })
}

fn sim<'a>(alloc: Global, options: &ArgMatches<'a>) -> Result<Request, Reason<'a>> {
    let draft = draft_of(options)?;
    let sectors = number_or(options, "sectors", 1024)?;
    let image = text_of(alloc, options, "image")?;
    let payload = text_of(alloc, options, "payload")?;
    Ok(Request::Sim {
        draft,
        sectors,
        image,
        payload,
    })
}

// A server needs an image and a folder.
fn serve<'a>(alloc: Global, options: &ArgMatches<'a>) -> Result<Request, Reason<'a>> {
    let draft = draft_of(options)?;
    let clients = number_or(options, "clients", 4)?;
    let workers = number_or(options, "workers", 2)?;
    let delay = number_or(options, "delay", 0)?;
    let bad = bad_of(alloc, options)?;
    let image = text_of(alloc, options, "image")?.ok_or(Reason::Missing("image"))?;
    let dir = text_of(alloc, options, "dir")?.ok_or(Reason::Missing("dir"))?;
    let inspect = !options.get_flag("no-inspect");
    let record = text_of(alloc, options, "record")?;
    Ok(Request::Serve {
        draft,
        image,
        dir,
        clients,
        workers,
        delay,
        bad,
        inspect,
        record,
    })
}

// The runs of sectors that are bad, none where none are named.
fn bad_of<'a>(alloc: Global, options: &ArgMatches<'a>) -> Result<Vec<Range>, Reason<'a>> {
    let mut bad = Vec::new(alloc);
    let Some(text) = options.get_str("bad") else {
        return Ok(bad);
    };
    for part in text.split(',') {
        let Some(range) = run_of(part) else {
            return Err(Reason::NoRuns(text));
        };
        if bad.push(range).is_err() {
            return Err(Reason::OutOfMemory);
        }
    }
    Ok(bad)
}

// A run of sectors, by its first one and how many they are.
fn run_of(text: &str) -> Option<Range> {
    let (start, count) = text.split_once('+')?;
    let start = number(start.as_bytes())?;
    let count = u32::try_from(number(count.as_bytes())?).ok()?;
    Some(Range { start, count })
}

// A replay needs a record.
fn replay<'a>(alloc: Global, options: &ArgMatches<'a>) -> Result<Request, Reason<'a>> {
    let history = number_of(options, "history")?;
    let to = number_of(options, "to")?;
    let image = text_of(alloc, options, "image")?;
    let payload = text_of(alloc, options, "payload")?;
    let file = text_of(alloc, options, "file")?.ok_or(Reason::NoRecord)?;
    let list = options.get_flag("list");
    Ok(Request::Replay {
        file,
        image,
        payload,
        history,
        to,
        list,
    })
}

// The text of an option, where it is given.
fn text_of<'a>(
    alloc: Global,
    options: &ArgMatches<'a>,
    name: &str,
) -> Result<Option<String>, Reason<'a>> {
    match options.get_str(name) {
        Some(text) => match String::from_str(alloc, text) {
            Ok(text) => Ok(Some(text)),
            Err(_) => Err(Reason::OutOfMemory),
        },
        None => Ok(None),
    }
}

// The scheduler that is named, or this one where none is named.
fn scheduler_or<'a>(options: &ArgMatches<'a>, usual: Scheduler) -> Result<Scheduler, Reason<'a>> {
    match options.get_str("scheduler") {
        Some("none") => Ok(Scheduler::Plain),
        Some("bfq") => Ok(Scheduler::Bfq),
        Some(text) => Err(Reason::NoScheduler(text)),
        None => Ok(usual),
    }
}

// The number of an option, or this one where the option is not given.
fn number_or<'a>(options: &ArgMatches<'a>, name: &'a str, usual: u64) -> Result<u64, Reason<'a>> {
    Ok(number_of(options, name)?.unwrap_or(usual))
}

// The number of an option, where it is given.
fn number_of<'a>(options: &ArgMatches<'a>, name: &'a str) -> Result<Option<u64>, Reason<'a>> {
    match options.get_str(name) {
        Some(text) => match number(text.as_bytes()) {
            Some(number) => Ok(Some(number)),
            None => Err(Reason::NoNumber(name, text)),
        },
        None => Ok(None),
    }
}
