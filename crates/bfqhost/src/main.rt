#![tactic(auto)]
//! `bfqhost`: a block I/O host whose every step can be undone, run from a script (`script_host`), served over sockets
//! (`host_rings`), or replayed from a record (`run_replay`).
//!
//! ```text
//! bfqhost sim < SCRIPT
//! bfqhost sim --image FILE < SCRIPT
//! bfqhost sim --payload FILE < SCRIPT
//! bfqhost serve --image FILE --dir DIR
//! bfqhost replay RECORD < SCRIPT
//! ```
//!
//! | status | |
//! |---|---|
//! | 0 | the input has no more lines, or the operator has stopped the host |
//! | 2 | a bad line; its number stands last on standard output |
//! | 3 | a read of standard input failed |
//! | 4 | a write to standard output failed |
//! | 5 | no memory |
//! | 6 | bad words, configuration, image, payload, or record that is to be replayed; standard output is empty |
//! | 7 | a socket, a thread or the file of a record cannot be had |
//!
//! Of each fault one line is told. If standard error is a terminal a second line says more of it.

mod faults;
mod payload;
mod replaying;
mod serving;
mod start;

use start::start;
use std::io::IsTerminal;
use std::process::ExitCode;

fn main(rt: HostRuntime) -> ExitCode {
    ExitCode::from(start(&rt, rt.stderr().is_terminal()))
}
