#![tactic(auto)]
//! The keeper: a machine whose every step can be undone and redone exactly.
//!
//! | call | what it promises |
//! |---|---|
//! | [`Keeper::new`] | the plain keeper before its first call |
//! | [`Keeper::call`] | the answer and the keeper are those of the plain keeper's call, or memory was wanting where that accepts, and nothing has changed; Undo never wants memory; an accepted Undo or Redo makes exactly as many exchanges as the lists of its steps are long |
//! | [`Keeper::run`] | the calls one after the other; where an answer finds no memory, the calls made until then |
//! | [`Keeper::view`] | the keeper as it is |
//! | [`Keeper::journal_len`] | the keeper is what its accepted calls, one after the other, make of a new one |
//! | [`Keeper::entry`] | the accepted call of a number |
//! | [`KeeperView::machine`] | the fold of the plain steps over the steps that stand |
//! | [`KeeperView::stamped`] | the step at a place of the line, with its serial |
//! | [`KeeperView::cursor`], [`KeeperView::length`], [`KeeperView::last_serial`], [`KeeperView::held`] | that field |
//!
//! A step is kept once, as an entry of the journal; the line holds the places of its steps there.
//!
//! The exchanges of each step stay on a tape. An undo makes them backwards, which leaves what undoes the undo; so nothing
//! is copied and nothing is computed again.

mod keeper;
mod moves;
mod place;
mod roll;
mod run;

pub use host_calls::{ClientCall, Closed, OperatorCall, RingReply, SeatName};
pub use keeper::{Keeper, KeeperView};
pub use place::StampedStep;
pub use plain::{Call, DeviceCall, Stamped};
pub use run::RunStop;
