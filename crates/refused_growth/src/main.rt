#![tactic(auto)]
//! Calls while memory is refused: what they answer then, and what they leave.
//!
//! `tests/refused.py` runs this program with `tests/refuse_nth.c` before it, which refuses the Nth request for memory. It is proved as any
//! program is, but what it tells is a test: no contract says that memory is found, or that it was wanting where a call answers so.
//!
//! | row | what is made while memory is refused |
//! |---|---|
//! | `calls MODE OPTIONS` | the calls of the script on standard input, one after the other, and then an Undo of all steps |
//! | `run MODE OPTIONS` | the same calls by `Keeper::run` |
//! | `ready MODE OPTIONS` | nothing, behind all that stands before the two rows above |
//! | `host MODE` | a host with 16 seats of clients and two of devices |
//! | `turn MODE` | turns of a host: a client, a device and the operator |
//! | `work MODE` | work of a device: a fetch, and a store |
//! | `serve MODE` | a session over a keeper, on one thread |
//! | `feed MODE`, `feed2 MODE` | a client's stream of four pieces, of version 1 and of version 2 |
//! | `operator MODE` | a stream of the operator, of three pieces |
//! | `record MODE` | turns of a host, each recorded behind it |
//! | `look MODE` | looks at a host, and a script of looks |
//! | `words MODE` | each command of the operator, read from its words |
//! | `nothing MODE` | nothing |
//!
//! The mode is `once` if one request alone is refused. Then a call that finds no memory is made again, and must be accepted. It is `always`
//! if each request from some one on is refused. The options are those of `bfqhost sim`.
//!
//! Nothing that compares takes memory. All that stands before a row is made first: keepers, hosts, calls, and what each call is answered
//! and leaves with ample memory. The last line is one of these.
//!
//! | line | status | |
//! |---|---|---|
//! | `no memory before the row` | 0 | a refusal came before the row began |
//! | `kept` | 0 | no call found memory wanting |
//! | `kept without memory` | 0 | one did, or in the mode `always` some did |
//! | `kept half way` | 0 | so did a Redo, behind its first step |
//! | `broken at N: PROMISE: WHAT` | 1 | a promise was broken, at the call of this number, or at 0; the last part is what was changed |
//! | `bad words` | 2 | there is no such row, or its script has a bad line |
//!
//! Before it stands what the script has printed.

mod calls;
mod devices;
mod digest;
mod hosts;
mod looks;
mod options;
mod prepared;
mod recorder;
mod records;
mod rows;
mod runs;
mod seen;
mod sessions;
mod told;
mod verdict;
mod words;

use rows::{Ended, run_row};
use std::env;
use std::io::{self, Write};
use std::process::ExitCode;
use std::rt::Env;
use verdict::{Broken, Met, Verdict};

fn main(rt: HostRuntime) -> ExitCode {
    let Ended { text, verdict } = match words_of(&rt) {
        Some(words) => run_row(rt.alloc(), &mut rt.reader(), words.as_slice()),
        None => Ended {
            text: None,
            verdict: Verdict::Unprepared,
        },
    };
    if let Some(text) = &text {
        print(&rt, text.as_slice());
    }
    ExitCode::from(tell(&rt, verdict))
}

// The words of the command line, or none if there is no memory for them.
fn words_of(rt: &(impl Env + AllocGlobal)) -> Option<Vec<String>> {
    let Ok(given) = env::args(rt) else {
        return None;
    };
    given.collect(rt.alloc()).ok()
}

// Prints the last line, and gives the status.
fn tell(rt: &impl Print, verdict: Verdict) -> u8 {
    match verdict {
        Verdict::Unprepared => {
            print(rt, b"no memory before the row\n");
            0
        }
        Verdict::Kept(met) => {
            print(rt, kept(met));
            0
        }
        Verdict::Broken(fault, at) => {
            tell_broken(rt, fault, at);
            1
        }
        Verdict::BadWords => {
            print(rt, b"bad words\n");
            2
        }
    }
}

fn kept(met: Met) -> &'static [u8] {
    if met.is_half_way {
        b"kept half way\n"
    } else if met.lacking > 0 {
        b"kept without memory\n"
    } else {
        b"kept\n"
    }
}

fn tell_broken(rt: &impl Print, fault: Broken, at: usize) {
    print(rt, b"broken at ");
    print(rt, &digits(at));
    print(rt, b": ");
    print(rt, fault.promise.as_bytes());
    if !fault.by.is_empty() {
        print(rt, b": ");
        print(rt, fault.by.as_bytes());
    }
    print(rt, b"\n");
}

// The last four digits of a number. No memory is taken for them.
fn digits(number: usize) -> [u8; 4] {
    [
        digit(number / 1000),
        digit(number / 100),
        digit(number / 10),
        digit(number),
    ]
}

fn digit(number: usize) -> u8 {
    b'0' + (number % 10) as u8
}

// What cannot be written is seen to be missing.
fn print(rt: &impl Print, bytes: &[u8]) {
    let _ = io::writer(rt).write_all(bytes);
}
