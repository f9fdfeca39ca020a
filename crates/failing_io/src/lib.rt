#![tactic(auto)]
//! A reader and a writer over memory that fail where a test wants it.
//!
//! | type | what it tells of its bytes |
//! |---|---|
//! | [`Pieces`] | the bytes that it has left to give |
//! | [`Narrow`] | the bytes that it took |

mod reading;
mod writing;

pub use reading::Pieces;
pub use writing::Narrow;
