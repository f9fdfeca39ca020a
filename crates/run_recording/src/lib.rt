#![tactic(auto)]
//! The entries of a core's journal, written as a record: a frame for each, in order.
//!
//! | call | rule that it meets |
//! |---|---|
//! | `put_entry` | the entry's frame is written; or only a front of it, which is told |
//! | `put_rest` | the frames of all entries from a number on are written; or those before another one, and a front of that one's |
//! | `Recorder` | after each look at a journal its record has all of its entries; or it has ended, and nothing is written any more |
//!
//! Whoever keeps the journal is only looked at.

mod putting;
mod recorder;

pub use putting::{put_entry, put_rest};
pub use recorder::Recorder;
