// One line run.
ghost use Rattle.std.specs.Prelude.{◌↔◌, IsTrue};
ghost use Rattle.script_line.specs.Script.{IsSilent};
ghost use Rattle.script_line.specs.Steps.{HasRun};

use super::console::Console;
use super::read::line_of;
use std::alloc::Global;

/// How a line ran.
#[derive(Clone, Copy)]
pub enum Ran {
    /// What it prints is there.
    Printed,
    /// It is no line that runs.
    Bad,
    /// There was no memory.
    NoMemory,
}

/// Runs a line; what it prints is then in `text`, alone.
pub fn run_line<C: Console>(alloc: Global, line: &[u8], console: &mut C, text: &mut Vec<u8>) -> Ran
    ensures { HasRun C.prints line.now console.old text.new.items console.new result }
{
    text.clear();
    if is_silent(line) {
        return Ran::Printed;
    }
    let Some(found) = line_of(line) else {
        return Ran::Bad;
    };
    if !console.runs(&found) {
        return Ran::Bad;
    }
    match console.run(alloc, found, text) {
        Ok(()) => Ran::Printed,
        Err(_) => Ran::NoMemory,
    }
}

// An empty line or a comment.
fn is_silent(line: &[u8]) -> bool
    ensures { IsTrue result ↔ IsSilent line.now }
{
    match line.first() {
        Some(first) => *first == b'#',
        None => true,
    }
}
