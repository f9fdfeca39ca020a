// A writer that fails.
ghost use Rattle.std.specs.Prelude.{Some};

use std::alloc::Global;
use std::io::{self, ErrorKind, Write};

/// Takes at most `step` bytes a call, `room` in all, and then fails, or takes nothing if it `is_silent`. So it does at the call
/// `fails_at` too, and after that call it takes again.
#[derive(Drop)]
pub struct Narrow {
    /// The bytes that it took.
    pub taken: Vec<u8>,
    /// The greatest number of bytes that it takes at a call. With 0 it takes one.
    pub step: usize,
    /// How many bytes it takes in all.
    pub room: usize,
    /// Whether it takes nothing in place of failing.
    pub is_silent: bool,
    /// How many calls were made.
    pub calls: usize,
    /// The call that fails, counted from 1, or 0 for none.
    pub fails_at: usize,
    /// Whether a flush fails.
    pub is_stuck: bool,
    /// How many bytes were taken before the last flush that did not fail.
    pub flushed: usize,
}

impl Narrow {
    /// A writer that takes two bytes a call, and fails once it has taken so many.
    pub fn new(alloc: Global, room: usize) -> Narrow {
        Narrow {
            taken: Vec::new(alloc),
            step: 2,
            room,
            is_silent: false,
            calls: 0,
            fails_at: 0,
            is_stuck: false,
            flushed: 0,
        }
    }
}

impl Write for Narrow {
    ghost contents = { λ w. Some w.taken.items };

    fn write(&mut self, buf: &[u8]) -> io::Result<usize> {
        self.calls = self.calls.wrapping_add(1);
        let left = self.room.saturating_sub(self.taken.len());
        if left == 0 || self.calls == self.fails_at {
            if self.is_silent {
                return Ok(0);
            }
            return Err(ErrorKind::Interrupted.into());
        }
        let n = self.step.max(1).min(buf.len()).min(left);
        let (front, _) = buf.split_at(n);
        match self.taken.extend_from_slice(front) {
            Ok(()) => Ok(n),
            Err(_) => Err(ErrorKind::OutOfMemory.into()),
        }
    }

    fn flush(&mut self) -> io::Result<()> {
        if self.is_stuck {
            return Err(ErrorKind::Other.into());
        }
        self.flushed = self.taken.len();
        Ok(())
    }
}
