#![tactic(auto)]
//! Tests of the machine, of its keeper and of its device work, and nothing else.
//!
//! They stand apart from the crates that they test, since a crate with tests is proved once without and once with them.
//!
//! | tests | of the crate | what they compare |
//! |---|---|---|
//! | `machine`, `full_store` | `dispatch_core`, below a keeper | the answers of steps, what is read of the machine then, and how many exchanges were made |
//! | `counts` | `dispatch_core`, below a keeper | the most exchanges of a dispatch and of a switch |
//! | `keeper` | `history` | calls of the operator, where the line stands after each, and a history that is full |
//! | `classes` | `history` | the class of a session as it is attached, undone and redone |
//! | `asked` | `host_calls` | what clients at their seats and the operator are answered |
//! | `device` | `device_engine` | what a fetch and a store of images that give little, end early or fail are answered |
//!
//! `host` has the keeper whose steps the tests make and turn back and forth, and `scripted` the image of which a test says
//! how it is read.

#[cfg(test)]
mod asked;
#[cfg(test)]
mod classes;
#[cfg(test)]
mod counts;
#[cfg(test)]
mod device;
#[cfg(test)]
mod full_store;
#[cfg(test)]
mod host;
#[cfg(test)]
mod keeper;
#[cfg(test)]
mod machine;
#[cfg(test)]
mod scripted;
