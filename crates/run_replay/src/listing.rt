// The line of an entry.

use crate::text::{put_call, put_name};
use host_calls::{SeatName, put_answer};
use host_rings::Book;
use plain::{Answer, Call};
use std::io::{self, Write};

/// Appends the line of an entry whose call was made last: its number, the serial of its step, or a stroke if it makes none, whose it is, its
/// call as a line of a script, and behind an arrow its answer. It fails only for want of memory.
pub fn put_entry(
    book: &Book,
    number: u64,
    name: SeatName,
    call: &Call,
    answer: &Answer,
    line: &mut Vec<u8>,
) -> io::Result<()> {
    match call {
        Call::Do(_) => {
            let serial = book.view().last_serial();
            write!(line, "{number} {serial} ")?;
        }
        Call::Hold | Call::Release | Call::Undo { .. } | Call::Redo { .. } => {
            write!(line, "{number} - ")?;
        }
    }
    put_name(name, line)?;
    write!(line, " ")?;
    put_call(call, line)?;
    write!(line, " -> ")?;
    put_answer(answer, line)?;
    write!(line, "\n")
}
