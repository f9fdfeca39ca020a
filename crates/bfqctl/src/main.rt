#![tactic(auto)]
//! `bfqctl`: one call of the operator, made to a host that serves, or a look at it, and its answer printed.
//!
//! | module | what it has |
//! |---|---|
//! | `words` | the words of the command line: `clap` reads the options, `operator_words` the call |
//! | `help` | what `--help` prints |
//! | `looking` | a look over a connection |
//! | `start` | from the words to the status |
//!
//! ```text
//! bfqctl --socket DIR/operator undo 2
//! bfqctl --socket DIR/operator show flight
//! ```
//!
//! | status | | standard output | standard error |
//! |---|---|---|---|
//! | 0 | the call was accepted, or the host has ended after `stop`, or it tells the look | the answer's text | |
//! | 1 | it was refused, it cannot be done yet, the host has ended after another call, or it does not know the look | the answer's text | |
//! | 2 | bad words | | `words: refused` |
//! | 3 | the connection failed | | `socket: failed` |
//! | 3 | what came back is no reply | | `frame: bad` |
//! | 4 | a write to standard output failed | | |
//! | 5 | no memory | | `memory: none` |
//!
//! If standard error is a terminal a second line says more: which word or path it was, or what the number of a refusal means.

mod help;
mod looking;
mod start;
mod words;

use start::start;
use std::io::IsTerminal;
use std::process::ExitCode;

fn main(rt: HostRuntime) -> ExitCode {
    ExitCode::from(start(&rt, rt.stderr().is_terminal()))
}
