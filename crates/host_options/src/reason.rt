// Why words ask for nothing, as a person is told it.
use crate::request::WordFault;
use clap::Error;
use clap::error::ErrorKind;
use std::alloc::{AllocError, Global};

/// Why the words ask for nothing. The texts are words of the command line.
#[derive(Drop)]
pub enum Reason<'a> {
    /// Memory ran out while they were read.
    OutOfMemory,
    /// The command's grammar does not have them.
    Grammar(Error),
    /// This word stands where none may.
    Unexpected(&'a str),
    /// An option, and what is given as its number.
    NoNumber(&'a str, &'a str),
    /// What is given as runs of sectors.
    NoRuns(&'a str),
    /// What is given as the scheduler.
    NoScheduler(&'a str),
    /// An option that `serve` needs.
    Missing(&'a str),
    /// No record is named for `replay`.
    NoRecord,
}

impl<'a> Reason<'a> {
    /// What a program is told: want of memory, or bad words.
    pub fn fault(&self) -> WordFault {
        match self {
            Reason::OutOfMemory => WordFault::OutOfMemory,
            Reason::Grammar(error) if error.kind() == ErrorKind::OutOfMemory => {
                WordFault::OutOfMemory
            }
            _ => WordFault::Usage,
        }
    }

    /// What a person is told, in one line with no end.
    pub fn text(&self, alloc: Global) -> Result<String, AllocError> {
        match self {
            Reason::OutOfMemory => String::from_str(alloc, "no memory"),
            Reason::Grammar(error) => grammar_text(alloc, error),
            Reason::Unexpected(word) => format!(in alloc; "unexpected {word}"),
            Reason::NoNumber(option, text) => {
                format!(in alloc; "--{option} takes a whole number below 2^64, and not {text}")
            }
            Reason::NoRuns(text) => {
                format!(in alloc;
                    "--bad takes START+COUNT, or several of these with commas between, and not {text}"
                )
            }
            Reason::NoScheduler(text) => {
                format!(in alloc; "--scheduler is bfq or none, and not {text}")
            }
            Reason::Missing(option) => format!(in alloc; "serve needs --{option}"),
            Reason::NoRecord => String::from_str(alloc, "replay needs a record"),
        }
    }
}

/// What a person is told of an error of `clap`: the first line of what it says, or, if a word is one too many, that word.
pub fn grammar_text(alloc: Global, error: &Error) -> Result<String, AllocError> {
    let said = format!(in alloc; "{error}")?;
    let line = said.as_str().lines().next().unwrap_or("");
    let line = line.strip_prefix("error: ").unwrap_or(line);
    match error.kind() {
        ErrorKind::UnknownArgument | ErrorKind::InvalidSubcommand => {
            let word = quoted(line);
            format!(in alloc; "unexpected {word}")
        }
        ErrorKind::MissingSubcommand => String::from_str(
            alloc,
            "neither sim, serve nor replay is named",
        ),
        _ => String::from_str(alloc, line),
    }
}

// What stands between the first and the last quote, or all if there are no two.
fn quoted(line: &str) -> &str {
    let Some((_, rest)) = line.split_once('\'') else {
        return line;
    };
    match rest.rsplit_once('\'') {
        Some((word, _)) => word,
        None => line,
    }
}
