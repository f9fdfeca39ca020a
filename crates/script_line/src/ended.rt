// A line that is there whole.
ghost use Rattle.std.specs.Prelude.{◌≡◌, ℕ, ◌+◌, ◌<◌, ◌≤◌, List, [], length, MatchOption, IfSome, IfNone};
ghost use Rattle.std.specs.Io.KnownBytes.{IsAtEnd};
ghost use Rattle.script_line.specs.Script.{Known, IsWhole, IsEnd};
ghost use Rattle.script_line.specs.Steps.{SoFar, OneMore, IsLineEnd, IsLastEnd};

use super::bad::bad_line;
use super::console::Console;
use super::ending::ScriptEnd;
use super::held::{Held, MOST_BYTES, MOST_LINES};
use super::run_line::{Ran, run_line};
use byte_writing::write_whole;
use std::alloc::Global;
use std::io::Write;

/// Runs the line that has begun, and writes what it prints.
pub fn end_line<W: Write, C: Console>(
    alloc: Global,
    writer: &mut W,
    console: &mut C,
    held: &mut Held,
) -> Option<ScriptEnd>
    requires { held.old.count < MOST_LINES }
    ensures ran { (r0 r1 w0 : Known) (c0 : C) (after : List ℕ)
        → SoFar C.prints r0 r1 w0 (W.contents writer.old) c0 console.old held.old.count held.old.begun.items after
        → IsWhole r1 held.old.begun.items after
        → MatchOption result
        (OneMore C.prints r0 r1 w0 (W.contents writer.new) c0 console.new held.new.count held.old.begun.items after)
        (λ why. IsEnd C.prints r0 r1 w0 (W.contents writer.new) c0 console.new why) }
    ensures cause { IfSome result IsLineEnd }
    ensures count { IfNone result (held.new.count ≡ held.old.count + 1) }
    ensures begun { IfNone result (held.new.begun.items ≡ []) }
    ensures short { length held.old.begun.items ≤ MOST_BYTES }
{
    let line = held.begun.as_slice();
    match run_line(alloc, line, console, &mut held.text) {
        Ran::Printed => {
            if !write_whole(writer, held.text.as_slice()) {
                return Some(ScriptEnd::WriteFault);
            }
            held.begun.clear();
            held.count += 1;
            None
        }
        Ran::Bad => Some(bad_line(alloc, writer, held.count)),
        Ran::NoMemory => Some(ScriptEnd::OutOfMemory),
    }
}

/// Runs a last line without its 0A, where there is one.
pub fn last_line<W: Write, C: Console>(
    alloc: Global,
    writer: &mut W,
    console: &mut C,
    held: &mut Held,
) -> ScriptEnd
    requires { 0 < length held.old.begun.items → held.old.count < MOST_LINES }
    ensures ended { (r0 r1 w0 : Known) (c0 : C)
        → SoFar C.prints r0 r1 w0 (W.contents writer.old) c0 console.old held.old.count held.old.begun.items []
        → IsAtEnd r1
        → IsEnd C.prints r0 r1 w0 (W.contents writer.new) c0 console.new result }
    ensures cause { IsLastEnd result }
{
    if held.begun.is_empty() {
        return ScriptEnd::Done;
    }
    match end_line(alloc, writer, console, held) {
        Some(end) => end,
        None => ScriptEnd::Done,
    }
}
