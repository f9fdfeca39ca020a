#![tactic(auto)]
//! Bytes written one piece after another, as far as a writer takes them.
//!
//! | call | rule that it meets |
//! |---|---|
//! | `write_front` | appends a front of the bytes, and tells how many: all of them, unless a write fails or takes nothing |
//! | `write_whole` | appends all of the bytes; or a front of them that is not all, and tells so |
//!
//! No write is made again after one that failed.

mod front;
mod whole;

pub use front::write_front;
pub use whole::write_whole;
