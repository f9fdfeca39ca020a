#![tactic(auto)]
//! The words that the whole host speaks: sectors, blocks, bios, and a configuration within its limits.
//!
//! | call | rule that it meets |
//! |---|---|
//! | `Config::check` | every number within its limits, or the first that is not, in a fixed order |
//! | `Range::end` | the sector after the range |
//! | `Block::new` | a block has exactly 512 bytes |
//! | `Block::zeros` | 512 zeros |

mod bio;
mod block;
mod class;
mod config;
mod memory;
mod range;
mod table;

pub use bio::{Bio, BioFields, BioResult, Effect, Entity, FailKind, Op, Outcome, Slot};
pub use block::{Block, SECTOR_BYTES};
pub use class::Class;
pub use config::{Config, ConfigDraft, ConfigFault, Scheduler};
pub use memory::OutOfMemory;
pub use range::Range;
pub use table::{empty_table, first_free};
