#![tactic(auto)]
//! What follows from the definitions of classes alone, for tables and laws: no function, and lemmas in `proofs/`.
//!
//! `Highest` has the members of a class among those of a group and the first class with an active one, `Times` the virtual times of
//! the classes, one by one.
