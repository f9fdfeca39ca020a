#![tactic(auto)]
//! Tests of client sessions over bytes, and nothing else.
//!
//! | tests | what they compare |
//! |---|---|
//! | `rows` | what comes of a session's bytes over a keeper, in both versions: what is written, how it ends, and its Leave |
//! | `cut` | one session in pieces of each length; with a read that fails before each byte, a write that fails after each, one write that fails, an end after each byte, and each limit |
//! | `long` | the keeper asked by itself, and the longest call and the longest answer |
//!
//! Tested are the sessions of `session_proto`, and `session_solo`. `heard` has a keeper that notes what it is asked, and `run` a session
//! over it.

#[cfg(test)]
mod cut;
#[cfg(test)]
mod heard;
#[cfg(test)]
mod long;
#[cfg(test)]
mod rows;
#[cfg(test)]
mod run;
