// A script run at a keeper.
ghost use Rattle.script_line.specs.Script.{IsEnd};
ghost use Rattle.host_console.specs.Printed.{Prints};

use crate::{Keeps, Teller};
use base_image::Image;
use script_line::{ScriptEnd, run_lines};
use std::alloc::Global;
use std::io::{Read, Write};

/// Runs the lines of the reader in turn at the keeper over its image, and writes what each prints before the next runs.
/// The writer is flushed before each read and at the end; a flush that fails is a write fault.
pub fn run_keeper<R: Read, W: Write, K: Keeps, I: Image>(
    alloc: Global,
    reader: &mut R,
    writer: &mut W,
    teller: &mut Teller<K, I>,
) -> ScriptEnd
    ensures { IsEnd Prints (R.remaining reader.old) (R.remaining reader.new)
        (W.contents writer.old) (W.contents writer.new) teller.old teller.new result }
{
    run_lines(alloc, reader, writer, teller)
}
