// A console, a reader and a writer that fail where a test wants it.
ghost use Rattle.std.specs.Prelude.{◌≡◌, ◌++◌, ◌∷◌, [], Some, codes};
ghost use Rattle.std.specs.Fmt.{decimal};

use script_line::{Console, Line};
use sector_core::OutOfMemory;
use std::alloc::Global;
use std::io::{self, ErrorKind, Read, Write};

// Prints how often it was called, and has no memory at the call `refused`.
#[derive(Drop)]
pub struct Counter {
    pub calls: u64,
    pub refused: u64,
}

impl Console for Counter {
    ghost prints = { λ before line text after. text ≡ codes "call " ++ (decimal after.calls ++ 10 ∷ []) };

    fn runs(&self, _line: &Line) -> bool {
        true
    }

    fn run(&mut self, alloc: Global, _line: Line, out: &mut Vec<u8>) -> Result<(), OutOfMemory> {
        if self.calls.wrapping_add(1) == self.refused {
            return Err(OutOfMemory);
        }
        self.calls = self.calls.wrapping_add(1);
        let calls = self.calls;
        let text = format!(in alloc; "call {calls}\n")?;
        out.extend_from_slice(text.as_bytes())?;
        Ok(())
    }
}

// Gives at most `step` bytes a call, and an error of this kind at the call `fails_at`.
#[derive(Drop)]
pub struct Pieces<'a> {
    pub bytes: &'a [u8],
    pub step: usize,
    pub calls: u64,
    pub fails_at: u64,
    pub kind: ErrorKind,
}

impl Read for Pieces<'_> {
    ghost remaining = { λ r. Some r.bytes.now };

    fn read(&mut self, buf: &mut [u8]) -> io::Result<usize> {
        self.calls = self.calls.wrapping_add(1);
        if self.calls == self.fails_at {
            return Err(self.kind.into());
        }
        let n = self.step.max(1).min(buf.len()).min(self.bytes.len());
        let (front, rest) = self.bytes.split_at(n);
        buf[..n].copy_from_slice(front);
        self.bytes = rest;
        Ok(n)
    }
}

// Takes at most `step` bytes a call, `room` in all, and then fails or takes nothing. Its flush at the call `flush_fails_at` fails.
#[derive(Drop)]
pub struct Narrow {
    pub taken: Vec<u8>,
    pub step: usize,
    pub room: usize,
    pub is_silent: bool,
    pub flushes: u64,
    pub flush_fails_at: u64,
    // How many bytes were taken before the last flush that did not fail.
    pub flushed: usize,
}

impl Write for Narrow {
    ghost contents = { λ w. Some w.taken.items };

    fn write(&mut self, buf: &[u8]) -> io::Result<usize> {
        let left = self.room.saturating_sub(self.taken.len());
        if left == 0 {
            if self.is_silent {
                return Ok(0);
            }
            return Err(ErrorKind::Other.into());
        }
        let n = self.step.max(1).min(buf.len()).min(left);
        let (front, _) = buf.split_at(n);
        match self.taken.extend_from_slice(front) {
            Ok(()) => Ok(n),
            Err(_) => Err(ErrorKind::OutOfMemory.into()),
        }
    }

    fn flush(&mut self) -> io::Result<()> {
        self.flushes = self.flushes.wrapping_add(1);
        if self.flushes == self.flush_fails_at {
            return Err(ErrorKind::Other.into());
        }
        self.flushed = self.taken.len();
        Ok(())
    }
}
