#![tactic(auto)]
//! Looks at a host that serves: a query goes to the core, and what it prints comes back.
//!
//! | call | rule that it meets |
//! |---|---|
//! | [`open_looks`] | a seat and its desk over two rings of their own, to which nothing has come |
//! | [`LookDesk::serve`] | at most one query is taken; what is told of it is its text at the keeper that stands there, which is not changed |
//! | [`LookSeat::ask`] | one query goes out, and what was told of it comes back |
//! | [`reply_to`] | what a query prints at a keeper |
//! | [`Inspector`] | the console of who looks: a line that is a query prints what the seat is told next, and no other line runs |
//! | [`serve_looks`] | the connections of the inspector's path, one after the other |
//!
//! It knows no keeper: what can be looked at says so by a trait (`Shows` of `host_console`). The core serves its desk between two turns. So
//! each text is that of the keeper after the turn that was made last. It never waits for who looks: a ring that is empty costs it one load.
//!
//! No connection keeps the others out: one that for a second asks nothing or takes nothing is closed, and one that has been met for half a
//! second is closed if another one waits.
//!
//! ```text
//! let (mut seat, mut desk) = open_looks(alloc, core.bell()?)?;
//! core.run_watched(rt, alloc, |book, _| { desk.serve(alloc, &Host { keeper: book }); });    // on the core's thread
//! seat.ask(rt, Line::Cursor)                                                               // on another one: "line 3 3 3\n"
//! ```

mod desk;
mod inspector;
mod opening;
mod same;
mod seat;
mod serving;
mod told;
mod visit;

pub use desk::LookDesk;
pub use inspector::Inspector;
pub use opening::open_looks;
pub use seat::LookSeat;
pub use serving::serve_looks;
pub use told::{Queries, Told, reply_to};
