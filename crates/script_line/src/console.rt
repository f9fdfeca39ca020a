// What runs lines.
ghost use Rattle.std.specs.Prelude.{◌≡◌, ℕ, List, ◌++◌, OnOk, OnErr, IsFalse};
ghost use Rattle.script_line.specs.declared.line.Line.{Line};
ghost use Rattle.script_line.specs.Script.{IsStrange, MayHaveRun};

use super::line::Line;
use sector_core::OutOfMemory;
use std::alloc::Global;

/// Where the lines of a script run.
pub trait Console {
    /// What the line may print at a console, with its last byte 0A, and what the console is then.
    ghost prints: { Self → Line → List ℕ → Self → Type 0 };

    /// Whether the line runs here, as the console is now. If not it is a bad one, and may print nothing.
    fn runs(&self, line: &Line) -> bool
        ensures { IsFalse result → IsStrange prints self.now line.now };

    /// Runs the line, and appends what it prints.
    /// Where there is no memory the line is not run, or it is run and what it prints is lost.
    fn run(&mut self, alloc: Global, line: Line, out: &mut Vec<u8>) -> Result<(), OutOfMemory>
        ensures ok { OnOk result ((text : List ℕ) × (out.new.items ≡ out.old.items ++ text) × prints self.old line text self.new) }
        ensures err { OnErr result (MayHaveRun prints self.old line self.new) };
}
