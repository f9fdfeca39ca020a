// A reader that fails.
ghost use Rattle.std.specs.Prelude.{Some};

use std::io::{self, ErrorKind, Read};

/// Gives at most `step` bytes a call, and fails at the call `fails_at`, counted from 1.
#[derive(Drop)]
pub struct Pieces<'a> {
    /// The bytes that it has left to give.
    pub bytes: &'a [u8],
    /// The greatest number of bytes that it gives at a call. With 0 it gives one.
    pub step: usize,
    /// How many calls were made.
    pub calls: usize,
    /// The call that fails, or 0 for none.
    pub fails_at: usize,
}

impl Pieces<'_> {
    /// A reader of these bytes, at most so many a call, that never fails.
    pub fn of(bytes: &[u8], step: usize) -> Pieces<'_> {
        Pieces {
            bytes,
            step,
            calls: 0,
            fails_at: 0,
        }
    }
}

impl Read for Pieces<'_> {
    ghost remaining = { λ r. Some r.bytes.now };

    fn read(&mut self, buf: &mut [u8]) -> io::Result<usize> {
        self.calls = self.calls.wrapping_add(1);
        if self.calls == self.fails_at {
            return Err(ErrorKind::Interrupted.into());
        }
        let n = self.step.max(1).min(buf.len()).min(self.bytes.len());
        let (front, rest) = self.bytes.split_at(n);
        buf[..n].copy_from_slice(front);
        self.bytes = rest;
        Ok(n)
    }
}
