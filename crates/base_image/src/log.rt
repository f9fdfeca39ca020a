// The reads of an image, which proofs alone know.
ghost use Rattle.std.specs.Prelude.{◌≡◌, List, [], ◌∷◌};
ghost use Rattle.std.specs.Borrow.{ftrue};
ghost use Rattle.base_image.specs.declared.read.LoggedRead.{LoggedRead};

use crate::read::LoggedRead;
use std::marker::Model;

/// The reads that were made of an image. It takes no memory, and its calls do nothing when the program runs: clauses read `reads`,
/// the latest first.
#[derive(Drop)]
pub struct ReadLog {
    pub ghost reads: { List LoggedRead },
}

impl Model for ReadLog {
    ghost also_owns = { λ _. ftrue };
}

// It owns nothing.
unsafe impl Send for ReadLog {}

impl ReadLog {
    /// The log of an image that was not read yet.
    pub fn new() -> ReadLog
        ensures { result.reads ≡ [] }
    {
        ReadLog {}
    }

    /// The log once this read was made too.
    #[inline(always)]
    pub fn then(&self, _read: &LoggedRead) -> ReadLog
        ensures { result.reads ≡ _read.now ∷ self.now.reads }
    {
        ReadLog {}
    }
}
