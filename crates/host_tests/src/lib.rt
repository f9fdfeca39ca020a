#![tactic(auto)]
//! Tests of a host: of its core, its journal and its seats, of a device's worker, and of a host that serves over real sockets in a new
//! folder; and nothing else.
//!
//! | tests | what they compare |
//! |---|---|
//! | `book` | what calls of all kinds of seat are answered by the journal, whose entries there are, and which work a device takes |
//! | `desks` | which calls are taken and when, what comes back, and what is asked at the seats of each kind |
//! | `asking` | a seat and its desk in two threads, which look and sleep |
//! | `looks` | a look wakes a core that sleeps, tells of its last turn, and of nothing once it has ended |
//! | `operators` | a connection of the operator ends at its limit of frames, and what is behind it is not asked |
//! | `paths` | how often a client's path leaves: once for each connection, as whoever keeps the journal counts it |
//! | `runs` | how often a core that runs shows its journal, and how many workers a host may have |
//! | `settling` | what is left of a seat that ends before all is answered and collected |
//! | `threads` | a core that sleeps is woken from another thread |
//! | `workers` | what a client reads if a worker does the device's work in a thread of its own, from images whose first read fails or not |
//! | `failing` | what a client hears whichever read of the image fails, busy or for good |
//! | `served` | two clients at once over two images, each with a worker; the operator goes a step back and forth, freezes and stops, by the asking of his command |
//!
//! `opening` has the usual configuration and the hosts of `looks`, `operators`, `runs`, `settling` and `threads`; `gate` the images of `served`,
//! and `peer` its clients. What a core answers to each call of each kind of seat, whom it answers and when it dispatches is compared by
//! the scripts of `tests/rings`, which the program of `ring_bench` plays; clients in threads of their own are compared by the same
//! program.

#[cfg(test)]
mod asking;
#[cfg(test)]
mod book;
#[cfg(test)]
mod desks;
#[cfg(test)]
mod failing;
#[cfg(test)]
mod gate;
#[cfg(test)]
mod looks;
#[cfg(test)]
mod opening;
#[cfg(test)]
mod operators;
#[cfg(test)]
mod paths;
#[cfg(test)]
mod peer;
#[cfg(test)]
mod runs;
#[cfg(test)]
mod served;
#[cfg(test)]
mod settling;
#[cfg(test)]
mod threads;
#[cfg(test)]
mod workers;
