// What is answered at a seat.
ghost use Rattle.std.specs.Prelude.{Some, codes};

use plain::Answer;
use std::error::Error;
use std::fmt;

/// What a seat of the host is answered.
#[derive(Debug, Drop)]
pub enum RingReply {
    /// The keeper's answer to the seat's call.
    Answer(Answer),
    /// The host has ended. It is the seat's last reply, and its call, if one waited, gets no other.
    Closed,
}

/// The host has ended, and the call was not answered.
#[derive(Clone, Copy, Debug, PartialEq, Eq)]
pub struct Closed;

impl fmt::Display for Closed {
    ghost output = { λ _. Some (codes "the host has ended") };

    fn fmt<W: fmt::Write>(&self, f: &mut fmt::Formatter<W>) -> fmt::Result {
        write!(f, "the host has ended")
    }
}

impl Error for Closed {}
