#![tactic(auto)]
//! The seats of a host: a script played on them in one thread, and asks of clients, each in a thread of its own, whose time can be
//! measured.
//!
//! | words | what is done, and what is printed |
//! |---|---|
//! | `ASKS` | four clients ask so often for a seat, the core is stopped, and every end is settled: how many calls were answered, how many accepted, how many were left, how many replies not collected; of the first ten entries of the journal how many are a client's, and how many another's; and whether the operator heard of the end |
//! | `ROUNDS CLIENTS` | so many clients, up to 16, make so many calls that are refused at once: how many were answered |
//! | `ROUNDS CLIENTS 1` | each reads a sector so often, with two devices at work: how many reads were answered |
//! | `CALLS 0` | so many calls go over the rings of one seat, with no keeper behind it: how many were answered |
//! | `0` | a held host with a call that waits, until standard input ends: how many lines that had |
//! | `play WORKERS` | the script on standard input, over a host with so many workers, a line for each of its lines |
//! | `floor DIR CLIENTS read\|write` | so many clients are served at sockets in a folder, until standard input ends; then the sockets are removed |
//!
//! A first word that is no number, and none, stand for 25. Up to 1,000 asks the four clients' host has a history of 100 calls,
//! which refused calls do not fill, and else one of a million.
//!
//! The floor has the sockets, threads, rings, bells and frames of `bfqhost serve`, with a core that answers each call at once by its kind
//! alone: a Reap by a read of 8 sectors, or by a write. There is no machine and no image behind it, so it is what a host could cost at
//! least.
//!
//! ```text
//! ring_bench               // 100 4 0 18 4 0 true
//! ring_bench 1000 16       // 16000
//! ```
//!
//! # A script
//!
//! The host has 1,024 sectors, two workers if nothing else is said, and an image that is all zeros. Each line is a call that a seat stages; its seat is known by
//! its kind. Then the core takes one turn, and each seat that plays collects a reply, if there is one. A client or a device plays from
//! its first call on, the operator always.
//!
//! | line | call |
//! |---|---|
//! | `attach SEAT GROUP PRIO`, `attach SEAT GROUP PRIO CLASS`, `read SEAT SESSION START COUNT`, `write SEAT SESSION START COUNT BYTE`, `reap SEAT SESSION`, `leave SEAT` | a client's |
//! | `take WORKER`, `requeue TAG ISSUE`, `finish TAG ISSUE stored\|short\|fault\|fill BYTE` | a device's; `fill` is as long as the work that was taken last |
//! | `device N` | none: the device's calls that follow are those of this one, where they were those of device 1 |
//! | `hold`, `release`, `undo K`, `redo K`, `freeze`, `thaw`, `switch NAME`, `group PARENT WEIGHT`, `drop GROUP`, `weight GROUP WEIGHT`, `tick`, `stop` | the operator's |
//! | `turn`, and any other line | none |
//! | `stage` and one of these | the same, but the core takes no turn, and nothing is collected |
//!
//! For each line one is printed: `full` if there was no place for the call; whom the turn answered, or `nobody`; `dispatched` if it
//! dispatched; `ended` if the core has ended; and after a colon what was collected. Behind `stage` it is `staged` or `full`.
//!
//! ```text
//! attach 3 0 4           // client 3: attached 1
//! read 3 1 0 1           // client 3 dispatched: queued 2
//! take 0                 // device 1: refused 35
//! ```

mod answering;
mod bare;
mod busy;
mod floor;
mod held;
mod opening;
mod play;
mod rounds;
mod seated;
mod settling;

use bare::bare_calls;
use busy::{Round, many_clients};
use floor::serve_floor;
use held::held_until_input_ends;
use play::played;
use rounds::four_clients;
use script_line::number;
use seated::opened;
use std::rt::Env;
use std::sync::Wait;
use std::thread::Threads;
use std::{env, io};

// How many calls the history of the four clients' host holds, and up to how many asks each it is the short one.
const HISTORY: u64 = 1_000_000;

const SHORT_HISTORY: u64 = 100;

const FEW_ASKS: u64 = 1_000;

fn main(rt: HostRuntime) -> io::Result<()> {
    let words = words_of(&rt)?;
    let kind = match words.get(1) {
        Some(word) => word.as_str(),
        None => "",
    };
    if kind == "play" {
        return play_all(rt, number_at(words.as_slice(), 2).unwrap_or(2));
    }
    if kind == "floor" {
        return println!(rt; "{}", serve_floor(rt, words.as_slice())?);
    }
    let rounds = number_at(words.as_slice(), 1).unwrap_or(25);
    let done = match (rounds, number_at(words.as_slice(), 2)) {
        (0, None) => held_until_input_ends(rt, rt.alloc()),
        (_, None) => return tell_four(&rt, rounds),
        (_, Some(0)) => bare_calls(rt, rt.alloc(), rounds),
        (_, Some(clients)) => {
            let round = match words.get(3) {
                None => Round::Refused,
                Some(_) => Round::Read,
            };
            many_clients(rt, rt.alloc(), clients, rounds, round)
        }
    };
    match done {
        Some(count) => println!(rt; "{count}"),
        None => println!(rt; "no memory"),
    }
}

// Has four clients ask so often, and tells what came of it.
fn tell_four<R>(rt: &R, rounds: u64) -> io::Result<()>
where
    R: AllocGlobal + Print + Threads + Sync + Wait,
{
    match four_clients(rt, rt.alloc(), rounds, history_for(rounds)) {
        Some(all) => {
            println!(rt;
                "{} {} {} {} {} {} {}",
                all.answered,
                all.accepted,
                all.left,
                all.uncollected,
                all.entries.0,
                all.entries.1,
                all.has_ended
            )
        }
        None => println!(rt; "no memory"),
    }
}

fn history_for(asks: u64) -> u64 {
    if asks <= FEW_ASKS {
        SHORT_HISTORY
    } else {
        HISTORY
    }
}

// A number of workers that no host may have is told as want of memory is.
fn play_all(rt: HostRuntime, workers: u64) -> io::Result<()> {
    let mut host = opened(rt.alloc(), u8::try_from(workers).unwrap_or(0))?;
    for line in rt.lines(rt.alloc()) {
        let text = played(rt.alloc(), &mut host, line?.as_bytes())?;
        println!(rt; "{text}")?;
    }
    Ok(())
}

// The words of the command.
fn words_of(rt: &(impl Env + AllocGlobal)) -> io::Result<Vec<String>> {
    let mut words = Vec::new(rt.alloc());
    for word in env::args(rt)? {
        words.push(word)?;
    }
    Ok(words)
}

// The number that a word says.
fn number_at(words: &[String], at: usize) -> Option<u64> {
    number(words.get(at)?.as_bytes())
}
