// The console of who looks.
ghost use Rattle.std.specs.Prelude.{◌≡◌, IsFalse};
ghost use Rattle.script_line.specs.Script.{IsStrange};
ghost use Rattle.script_line.specs.Query.{is_query};
ghost use Rattle.host_looks.specs.Telling.{Prints};

use crate::seat::LookSeat;
use script_line::{Console, Line, is_query};
use sector_core::OutOfMemory;
use std::alloc::Global;
use std::marker::Model;
use std::sync::Wait;

/// Runs the lines of who looks: each asks at the seat what it prints.
#[derive(Drop)]
pub struct Inspector<'a, R: Wait> {
    /// What it waits by.
    pub rt: &'a R,
    /// The seat.
    pub seat: LookSeat,
}

// Its lines change nothing.
impl<'a, R: Wait> Model for Inspector<'a, R> {
    ghost Value = { Unit {0} };

    ghost view = { λ _. tt };
}

impl<'a, R: Wait> Console for Inspector<'a, R> {
    ghost prints = { λ _ line text _. Prints line text };

    fn runs(&self, line: &Line) -> bool
        ensures query { result ≡ is_query line.now }
        ensures strange { IsFalse result → IsStrange (λ (_ : Unit {0}) l text (_ : Unit {0}). Prints l text) self.now line.now }
    {
        is_query(line)
    }

    fn run(&mut self, _alloc: Global, line: Line, out: &mut Vec<u8>) -> Result<(), OutOfMemory> {
        // No such line is asked to run.
        if !is_query(&line) {
            return Err(OutOfMemory);
        }
        let Some(told) = self.seat.ask(self.rt, line) else {
            return Err(OutOfMemory);
        };
        out.extend_from_slice(told.text.as_slice())?;
        Ok(())
    }
}
