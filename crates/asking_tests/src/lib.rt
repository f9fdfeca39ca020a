#![tactic(auto)]
//! Tests of `operator_asking`: a call that is asked over a connection, and its reply.
//!
//! They stand apart from the crate that they test, since a crate with tests is proved once without and once with them.
//!
//! | tests | what they compare |
//! |---|---|
//! | `letters` | a call and its reply of an example of a side, whose values are one byte |
//! | `operator` | calls of the operator, and what is printed for their answers |
//!
//! Readers and writers are those of `failing_io`, over memory. `tests/bfqctl.py` at the top of the repository runs the operator's program
//! over sockets, and `tests/frames.py` compares the frames and streams of all sides. `told` has bytes by their digits.

#[cfg(test)]
mod letter;
#[cfg(test)]
mod letters;
#[cfg(test)]
mod operator;
#[cfg(test)]
mod told;
