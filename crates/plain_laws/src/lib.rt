#![tactic(auto)]
//! Laws of the plain machine and of its keeper, each on an empty body: no code and no table is named.
//!
//! `Requests` has what holds of each request, `Owed` what a seat's running counter counts, `Whole` what every request is,
//! `Times` that no virtual time falls, and `Undone` what Undo and Redo leave.
//!
//! | law | what it says |
//! |---|---|
//! | [`unreaped_is_owed`] | the law of the seats' running counters: the bios queued, in the dispatch list, in flight and in the outbox |
//! | [`requests_are_whole`], [`requests_stay_whole`] | the law of requests: 1 to 32 adjacent bios, at most 256 sectors |
//! | [`vtimes_never_fall`] | the law of virtual times: no group's falls, but at a switch of the scheduler |
//! | [`two_undos_are_one`], [`redo_gives_back`] | the laws of Undo and Redo |
//!
//! What holds on the machine of every keeper is proved by one walk over the steps (`proofs/Leads`), and what the rules of BFQ keep by
//! another one (`proofs/Rules`).

mod laws;

pub use laws::{
    redo_gives_back, requests_are_whole, requests_stay_whole, two_undos_are_one, unreaped_is_owed,
    vtimes_never_fall,
};
