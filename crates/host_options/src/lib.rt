#![tactic(auto)]
//! The words of the command `bfqhost`, read.
//!
//! | call | what it answers |
//! |---|---|
//! | `request_of` | help; the version; or a run of a script, a server or a record, with a configuration and numbers that are still to be checked, and files |
//! | `reason_of` | what a person is told of words that ask for nothing |
//! | `grammar_text` | what a person is told of an error of `clap` |
//! | `help_text` | what `--help` prints |
//! | `version_line` | what `--version` prints |
//! | `meaning_of` | the number, the name and the sentence of a refusal or a cause, as the help has them |
//!
//! The scheduler is `bfq` or `none`, and `bfq` where none is named. A number is in decimal and below 2^64, with no
//! sign and no leading zero. Whether it is within its limits is not asked here: `Config::check` of `sector_core`
//! decides that.
//!
//! ```text
//! bfqhost sim --scheduler none --tags 8 --sectors=64
//! bfqhost sim --first-budget 512
//! bfqhost sim --image disk.img
//! bfqhost serve --image disk.img --dir /run/bfq --clients 2
//! bfqhost replay run.record --list
//! ```

mod command;
mod help;
mod reason;
mod request;

pub use help::{help_text, meaning_of, version_line};
pub use reason::grammar_text;
pub use request::{Request, WordFault, reason_of, request_of};
