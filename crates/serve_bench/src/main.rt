#![tactic(auto)]
//! Frames and sessions over memory: one session served or one stream fed again and again, so that the time of it can be measured; and
//! frames read and written, and streams fed, so that what comes of them can be compared.
//!
//! | words | what is done, and what is printed |
//! |---|---|
//! | `FRAMES ROUNDS` | a session of so many Reap frames is served so many times: how many calls were asked in all, and how many bytes were written |
//! | `feed SIZE ROUNDS` | a stream is fed so many times in pieces of so many bytes, 1 or more: how many values came in all |
//! | `frames` | for each line of standard input what is read: `SIDE DIGITS`, where the side is `client`, `client2`, `operator` or `host` |
//!
//! Of a frame the value is printed, with ` of another frame` behind it if it has another, or the fault. It is read by version 2 if the
//! side is `client2`, and else by version 1. Digits with a `/` between are a stream in pieces, where that of a `client` says its version
//! itself. Of each piece are printed the values that it brings, the fault, a point if the feeder stands between two frames then, and a
//! `/`. A stream is of another side than `client2`. Of any other line `no side` is printed.
//!
//! Each Reap is of a session that does not sit there, so it is refused (4) and leaves nothing in the history. The stream is 32 KiB of the
//! operator's shortest frames, which have five bytes, so a piece of 32,768 bytes is all of it. Words that are no numbers are passed over;
//! where numbers are missing it is one session of 1,000 frames, or the stream once in pieces of 4,096 bytes.
//!
//! ```text
//! serve_bench 10 2            // 22 146
//! serve_bench feed 4096 2     // 13106
//! serve_bench frames
//! operator 00000005 1a 00000002         // Operator(Undo { k: 2 })
//! operator 00000005 1a/00000002/00      // /Operator(Undo { k: 2 }) .//
//! ```

mod feeding;
mod frames;
mod sessions;

use feeding::values_of_rounds;
use frames::told;
use script_line::number;
use sessions::{Served, serve_rounds};
use std::rt::Env;
use std::{env, io};

fn main(rt: HostRuntime) -> io::Result<()> {
    if has(&rt, "frames")? {
        return tell_frames(rt);
    }
    let words = numbers(&rt)?;
    let size = words.first().copied();
    let rounds = words.get(1).copied().unwrap_or(1);
    if has(&rt, "feed")? {
        let count = values_of_rounds(rt.alloc(), size.unwrap_or(4096), rounds)?;
        return println!(rt; "{count}");
    }
    let Served { calls, written } = serve_rounds(rt.alloc(), size.unwrap_or(1000), rounds)?;
    println!(rt; "{calls} {written}")
}

// Whether there is this word.
fn has(rt: &(impl Env + AllocGlobal), word: &str) -> io::Result<bool> {
    for found in env::args(rt)? {
        if found.as_str() == word {
            return Ok(true);
        }
    }
    Ok(false)
}

fn tell_frames(rt: HostRuntime) -> io::Result<()> {
    for line in rt.lines(rt.alloc()) {
        let text = told(rt.alloc(), line?.as_str())?;
        println!(rt; "{text}")?;
    }
    Ok(())
}

// The words that are numbers, in their order.
fn numbers(rt: &(impl Env + AllocGlobal)) -> io::Result<Vec<u64>> {
    let mut found = Vec::new(rt.alloc());
    for word in env::args(rt)? {
        if let Some(value) = number(word.as_bytes()) {
            found.push(value)?;
        }
    }
    Ok(found)
}
