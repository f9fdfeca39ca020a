#![tactic(auto)]
//! The four rules of BFQ: who is served next, for how long, and what a service costs in virtual time.
//!
//! | call | rule that it meets |
//! |---|---|
//! | [`activate`] | a session waits to be served, and so does each group above it that was idle |
//! | [`select`] | at each level from the root down the pick of the highest class that waits is taken into service |
//! | [`charge`] | on the path of the queue in service the virtual time of each entity's class rises by what it was sent |
//! | [`expire`] | the queue in service leaves it with a new budget, and its path at the finish of what it was served |
//! | [`member_in`] | what a group's trees know of an entity; the rules read it |
//! | [`vtime_of`] | the virtual time of a class of a group; the rules read it |
//!
//! The rules stand in `Rules.antt` of `change_record`, beside the plain machine that they speak of: a call makes the
//! exchanges that lead there, through the tape. An exchange on one place is made by its setter alone, whose clauses
//! speak of the plain machine already.
//! A time never passes 2^62: a rule that would make a greater one is refused, and what it has exchanged leads back.

mod activating;
mod charging;
mod expiring;
mod places;
mod reading;
mod refused;
mod rules;
mod selecting;
mod stamping;

pub use plain::Expiry;
pub use reading::{member_in, vtime_of};
pub use refused::VtimeFull;
pub use rules::{activate, charge, expire, select};
