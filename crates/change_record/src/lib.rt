#![tactic(auto)]
//! The tables of the host, and the tape of exchanges by which every step is undone and redone.
//!
//! | call | rule that it meets |
//! |---|---|
//! | [`Parts::turn`] | the exchange of one place: the new value goes in, the old one stays in its stead |
//! | [`Parts::turns`] | how many exchanges were made |
//! | [`MemberPlace::of`], [`Outbox::joined`] | a place of a group's tree, and a seat's outbox, as narrow as an exchange needs them |
//! | [`Tape::reserve`] | room for some pushes, which then take no memory |
//! | [`Tape::boxed`] | a box for a request or a bio, from the memory that the tape grows in |
//! | [`Tape::push`] | one more exchange of the step under way |
//! | [`Tape::back`] | turns a step's exchanges in reverse order; it cannot fail |
//! | [`Tape::forth`] | turns a step's exchanges in order again |
//! | [`turned_twice`], [`back_leads_forth`] | the laws of exchanges, each on an empty body |
//!
//! The tables change by `turn` alone. An exchange turned twice leaves the tables as they were, at every point
//! between two others. An exchange on a place that is not there does nothing.
//!
//! What the tables mean is in `specs/Machine.antt`: the plain machine that one reads off them.

mod change;
mod laws;
mod member_place;
mod outbox;
mod parts;
mod room;
mod tape;
mod turns;

pub use change::{Change, Making};
pub use laws::{back_leads_forth, turned_twice};
pub use member_place::MemberPlace;
pub use outbox::Outbox;
pub use parts::Parts;
pub use plain::{Expiry, InService, Seat};
pub use room::push_within;
pub use tape::Tape;
