// The text of a bad line.
ghost use Rattle.std.specs.Prelude.{◌+◌, ◌≤◌};
ghost use Rattle.script_line.specs.Steps.{IsBadEnd};

use super::ending::ScriptEnd;
use super::held::MOST_LINES;
use byte_writing::write_whole;
use std::alloc::Global;
use std::io::Write;

/// Writes that the line after `count` lines is bad.
pub fn bad_line<W: Write>(alloc: Global, writer: &mut W, count: u64) -> ScriptEnd
    requires { count ≤ MOST_LINES }
    ensures { IsBadEnd (W.contents writer.old) (W.contents writer.new) (count + 1) result }
{
    let number = count + 1;
    match format!(in alloc; "bad line {number}\n") {
        Ok(text) => {
            if write_whole(writer, text.as_bytes()) {
                ScriptEnd::BadLine(number)
            } else {
                ScriptEnd::WriteFault
            }
        }
        Err(_) => ScriptEnd::OutOfMemory,
    }
}
