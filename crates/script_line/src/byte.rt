// The bytes of a script, up to a 0A at once.
ghost use Rattle.std.specs.Prelude.{◌≡◌, ℕ, ◌+◌, ◌*◌, ◌≤◌, List, [], ◌∷◌, ◌++◌, length, MatchOption, IfNone};
ghost use Rattle.script_line.specs.Script.{Known, HasNoEnd, IsEnd};
ghost use Rattle.script_line.specs.Steps.{SoFar};

use super::bad::bad_line;
use super::console::Console;
use super::ended::end_line;
use super::ending::ScriptEnd;
use super::held::{Held, MOST_LINES};
use memchr::memchr;
use std::alloc::Global;
use std::io::Write;

/// Takes the bytes of a piece in turn.
pub fn take_piece<W: Write, C: Console>(
    alloc: Global,
    piece: &[u8],
    writer: &mut W,
    console: &mut C,
    held: &mut Held,
) -> Option<ScriptEnd>
    requires { held.old.count ≤ MOST_LINES }
    ensures taken { (r0 r1 w0 : Known) (c0 : C)
        → SoFar C.prints r0 r1 w0 (W.contents writer.old) c0 console.old held.old.count held.old.begun.items piece.now
        → MatchOption result
        (SoFar C.prints r0 r1 w0 (W.contents writer.new) c0 console.new held.new.count held.new.begun.items [])
        (λ why. IsEnd C.prints r0 r1 w0 (W.contents writer.new) c0 console.new why) }
    ensures few { IfNone result (held.new.count ≤ MOST_LINES) }
    ensures grows { IfNone result (held.old.count * 300 + length held.old.begun.items + length piece.now
        ≤ held.new.count * 300 + length held.new.begun.items) }
{
    let mut rest = piece;
    while !rest.is_empty() {
        // A byte after the most lines that a script has is one of a line too many.
        if held.count == MOST_LINES {
            return Some(bad_line(alloc, writer, held.count));
        }
        let (front, after) = cut_line(rest);
        // Where not all of it fits, nothing is appended: the line is too long.
        if held.begun.try_extend_from_slice(front).is_err() {
            return Some(bad_line(alloc, writer, held.count));
        }
        // The piece ends inside the line, whose other bytes the next piece brings.
        let Some(after) = after else {
            return None;
        };
        if let Some(end) = end_line(alloc, writer, console, held) {
            return Some(end);
        }
        rest = after;
    }
    None
}

// What stands before the first 0A and, if there is one, what stands after it.
fn cut_line(bytes: &[u8]) -> (&[u8], Option<&[u8]>)
    ensures front { HasNoEnd result.0.now }
    ensures whole { MatchOption result.1 (bytes.now ≡ result.0.now) (λ after. bytes.now ≡ result.0.now ++ (10 ∷ after.now)) }
{
    match memchr(b'\n', bytes) {
        Some(at) => (&bytes[..at], Some(&bytes[at + 1..])),
        None => (bytes, None),
    }
}
