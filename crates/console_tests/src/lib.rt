#![tactic(auto)]
//! Tests of the crates that a script and the words of the command line go through. It has no item but these.
//!
//! | module | what it tests |
//! |---|---|
//! | `spelling` | `script_line`: each form of a line, lines that are none, and numbers |
//! | `lines` | `script_line`: the ends of a run, at a console that counts |
//! | `texts` | `host_calls`, `host_console`: the printed texts, at a keeper that counts |
//! | `words` | `host_options`: the words of the command line, and the help |
//! | `operator` | `operator_words`: the words of the operator's calls, and words of none |
//! | `ends` | a host's keeper run from a script, where its input or its output fails |
//! | `device_work` | the same over images that are busy, fail or end early |
//! | `payload` | a host's keeper run from a script over a payload, whose bytes writes take |
//! | `calls` | `history`: calls made one after the other, with no script |
//! | `classes` | scripts of sessions of each class at a host |
//!
//! What a script prints at a host is compared by the rows of `tests/scripts` at the top of the repository, which the built
//! program runs.

#[cfg(test)]
mod calls;
#[cfg(test)]
mod classes;
#[cfg(test)]
mod device_work;
#[cfg(test)]
mod ends;
#[cfg(test)]
mod fakes;
#[cfg(test)]
mod full;
#[cfg(test)]
mod host;
#[cfg(test)]
mod lines;
#[cfg(test)]
mod operator;
#[cfg(test)]
mod payload;
#[cfg(test)]
mod spelling;
#[cfg(test)]
mod texts;
#[cfg(test)]
mod words;
