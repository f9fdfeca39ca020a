#![tactic(auto)]
//! The operator's calls, read from the words of a command line.
//!
//! | call | rule that it meets |
//! |---|---|
//! | [`words_to_call`] | the one call that has these words, or that they are the words of none |
//! | [`one_call`] | two calls that have the same words are equal |
//!
//! A call's words are its name and then what it is given, a word for each. Its numbers are in decimal, with no sign and no
//! leading zero, and within their types. So each call has one list of words, and any other words are no call.
//! `specs/Words` has the words of each.
//!
//! ```text
//! words_to_call(&["undo", "2"])            // Ok(OperatorCall::Undo { k: 2 })
//! words_to_call(&["undo", "02"])           // Err(WordFault::Usage)
//! words_to_call(&["undo", "2", "3"])       // Err(WordFault::Usage)
//! words_to_call(&["set-weight", "1", "7"]) // Ok(OperatorCall::SetWeight { group: 1, weight: 7 })
//! ```

mod fault;
mod fitted;
mod law;
mod named;
mod read;

pub use fault::WordFault;
pub use law::one_call;
pub use read::words_to_call;
