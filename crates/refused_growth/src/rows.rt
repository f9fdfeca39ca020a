// A row by its name.
use crate::calls::make_calls;
use crate::devices::work_row;
use crate::hosts::{host_row, turn_row};
use crate::looks::look_row;
use crate::options::{Setting, setting_of};
use crate::prepared::{Prepared, prepare};
use crate::records::record_row;
use crate::runs::run_calls;
use crate::sessions::{feed_operator_row, feed_row, serve_row};
use crate::verdict::{Met, Mode, Verdict};
use crate::words::words_row;
use session_proto::Version;
use std::alloc::Global;
use std::io::Read;

/// What a row's script has printed, if it has one, and how it ended.
#[derive(Drop)]
pub struct Ended {
    pub text: Option<Vec<u8>>,
    pub verdict: Verdict,
}

/// Runs the row that these words name, of which the first is the program's own name.
pub fn run_row<R: Read>(alloc: Global, reader: &mut R, words: &[String]) -> Ended {
    let [_, row, mode, options @ ..] = words else {
        return without_text(Verdict::BadWords);
    };
    let Some(mode) = mode_of(mode.as_bytes()) else {
        return without_text(Verdict::BadWords);
    };
    let Some(made) = made_of(row.as_bytes()) else {
        return without_text(short_row(alloc, mode, row.as_bytes()));
    };
    match setting_of(options) {
        Some(setting) => script_row(alloc, reader, mode, setting, made),
        None => without_text(Verdict::BadWords),
    }
}

// What is made of the calls of a script.
#[derive(Clone, Copy, Debug, PartialEq, Eq)]
enum Made {
    Calls,
    Run,
    Nothing,
}

fn made_of(row: &[u8]) -> Option<Made> {
    if row == b"calls".as_slice() {
        Some(Made::Calls)
    } else if row == b"run".as_slice() {
        Some(Made::Run)
    } else if row == b"ready".as_slice() {
        Some(Made::Nothing)
    } else {
        None
    }
}

fn without_text(verdict: Verdict) -> Ended {
    Ended {
        text: None,
        verdict,
    }
}

fn mode_of(word: &[u8]) -> Option<Mode> {
    if word == b"once".as_slice() {
        Some(Mode::Once)
    } else if word == b"always".as_slice() {
        Some(Mode::Always)
    } else {
        None
    }
}

// A row with a script.
fn script_row<R: Read>(
    alloc: Global,
    reader: &mut R,
    mode: Mode,
    setting: Setting,
    made: Made,
) -> Ended {
    let Setting { config, sectors } = setting;
    let mut found = match prepare(alloc, reader, config, sectors) {
        Ok(found) => found,
        Err(verdict) => return without_text(verdict),
    };
    let verdict = match made {
        Made::Calls => make_calls(alloc, mode, config.history_max, &mut found),
        Made::Run => run_calls(alloc, mode, &mut found),
        Made::Nothing => Verdict::Kept(Met::new()),
    };
    let Prepared { text, .. } = found;
    Ended {
        text: Some(text),
        verdict,
    }
}

// A row without one.
fn short_row(alloc: Global, mode: Mode, row: &[u8]) -> Verdict {
    if row == b"host".as_slice() {
        host_row(alloc, mode)
    } else if row == b"turn".as_slice() {
        turn_row(alloc, mode)
    } else if row == b"work".as_slice() {
        work_row(alloc, mode)
    } else if row == b"serve".as_slice() {
        serve_row(alloc, mode)
    } else if row == b"feed".as_slice() {
        feed_row(alloc, mode, Version::One)
    } else if row == b"feed2".as_slice() {
        feed_row(alloc, mode, Version::Two)
    } else if row == b"operator".as_slice() {
        feed_operator_row(alloc, mode)
    } else if row == b"record".as_slice() {
        record_row(alloc, mode)
    } else if row == b"look".as_slice() {
        look_row(alloc, mode)
    } else if row == b"words".as_slice() {
        words_row()
    } else if row == b"nothing".as_slice() {
        Verdict::Kept(Met::new())
    } else {
        Verdict::BadWords
    }
}
