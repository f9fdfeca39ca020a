// A whole script.
ghost use Rattle.std.specs.Prelude.{IfErr};
ghost use Rattle.std.specs.Io.{ReadsAtMost};
ghost use Rattle.std.specs.Io.KnownBytes.{Keeps, ReadConsumes};
ghost use Rattle.script_line.specs.Script.{IsEnd};
ghost use Rattle.script_line.specs.Steps.{IsReadEnd};

use super::byte::take_piece;
use super::console::Console;
use super::ended::last_line;
use super::ending::ScriptEnd;
use super::held::Held;
use arrayvec::ArrayVec;
use std::alloc::Global;
use std::io::{Read, Write};

/// Runs the lines of the reader in turn, and writes what each prints before the next runs.
/// The writer is flushed before each read and at the end, so that what was answered is out before the host waits.
/// A flush that fails is a write fault, whatever else ended the run, and no line runs after it.
pub fn run_lines<R: Read, W: Write, C: Console>(
    alloc: Global,
    reader: &mut R,
    writer: &mut W,
    console: &mut C,
) -> ScriptEnd
    ensures { IsEnd C.prints (R.remaining reader.old) (R.remaining reader.new)
        (W.contents writer.old) (W.contents writer.new) console.old console.new result }
{
    let end = run_all(alloc, reader, writer, console);
    match writer.flush() {
        Ok(()) => end,
        Err(_) => ScriptEnd::WriteFault,
    }
}

// Runs the lines, up to their end, which is not flushed yet.
fn run_all<R: Read, W: Write, C: Console>(
    alloc: Global,
    reader: &mut R,
    writer: &mut W,
    console: &mut C,
) -> ScriptEnd
    ensures { IsEnd C.prints (R.remaining reader.old) (R.remaining reader.new)
        (W.contents writer.old) (W.contents writer.new) console.old console.new result }
{
    let mut held = Held {
        count: 0,
        begun: ArrayVec::new(),
        text: Vec::new(alloc),
    };
    let mut piece = [0u8; 4096];
    loop {
        let count = match read_flushed(reader, writer, &mut piece) {
            Ok(count) => count,
            Err(end) => return end,
        };
        if count == 0 {
            return last_line(alloc, writer, console, &mut held);
        }
        if let Some(end) = take_piece(alloc, &piece[..count], writer, console, &mut held) {
            return end;
        }
    }
}

// Flushes the writer, and then reads a piece. No other function reads, since a read may wait for who waits for an answer.
fn read_flushed<R: Read, W: Write>(
    reader: &mut R,
    writer: &mut W,
    piece: &mut [u8],
) -> Result<usize, ScriptEnd>
    ensures bound { ReadsAtMost result piece.new }
    ensures read { ReadConsumes (R.remaining reader.old) (R.remaining reader.new) result piece.new }
    ensures kept { Keeps (W.contents writer.old) (W.contents writer.new) }
    ensures cause { IfErr result IsReadEnd }
{
    if writer.flush().is_err() {
        return Err(ScriptEnd::WriteFault);
    }
    reader.read(piece).map_err(|_| ScriptEnd::ReadFault)
}
