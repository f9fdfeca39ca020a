#![tactic(auto)]
//! A record read: the calls of its entries are made on a new keeper, one after the other.
//!
//! | call | rule that it meets |
//! |---|---|
//! | [`load`] | the keeper is that of the calls of the record's entries, each of which was accepted, as far as is asked; the file was read to its end |
//! | [`put_call`] | appends a call as a line of a script, with a sum of bytes that no line can spell |
//!
//! A record is judged whole: an entry behind the one at which the keeper is to stop is judged too.

mod laws;
mod listing;
mod loading;
mod reel;
mod text;

pub use laws::{more_room, record_is_replayed};
pub use loading::{Replayed, load};
pub use reel::{Asked, ReplayFault};
pub use text::put_call;
