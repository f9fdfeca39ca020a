#![tactic(auto)]
//! The machine: every step applied in place, by exchanges alone.
//!
//! [`Machine::apply`] takes a step, and [`Machine::view`] looks. Each step has a file: it decides first, by what the tables say and in the
//! order of the plain step's tests, then reserves room on the tape, and then makes its exchanges, which cannot fail.
//!
//! | file | what it has |
//! |---|---|
//! | `machine` | the machine, a step applied, back and forth along the tape |
//! | `attach`, `leave`, `reap` | sessions; `entering` has a new entity in its group, and `groups` the steps of groups |
//! | `submit` | what a Submit is refused for; `submit_joining` the bio that joins a request, `submit_alone` the one that becomes a request |
//! | `dispatch` | the dispatch list and the round robin; `dispatch_by_bfq` the next request of the queue in service |
//! | `finish`, `requeue` | what a device gives back; `complete` has the results of bios and what is stored |
//! | `mode`, `switch` | Freeze, Thaw and Tick; another scheduler |
//! | `fields`, `listed` | what a look sees; `slots` has lists of slots |
//!
//! `specs/Relation` says what each step is proved to do, `specs/WellFormed` what joins the tables, and `specs/Changes` the tables after a step.

mod attach;
mod complete;
mod dispatch;
mod dispatch_by_bfq;
mod entering;
mod fields;
mod finish;
mod groups;
mod leave;
mod listed;
mod machine;
mod mode;
mod reap;
mod requeue;
mod slots;
mod submit;
mod submit_alone;
mod submit_joining;
mod switch;

pub use listed::{Flying, Listed};
pub use machine::{Machine, View};
pub use plain::{
    Answer, Cause, Code, EntityView, Reply, RequestView, SectorView, Sizes, Step, Why, Work,
};
