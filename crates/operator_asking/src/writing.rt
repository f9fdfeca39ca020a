// Bytes written whole, and flushed.
ghost use Rattle.operator_asking.specs.Asked.{IsFlushed};

use byte_writing::write_whole;
use std::io::Write;

/// Writes all of the bytes and flushes the writer, or tells that a write failed or took nothing, or that the flush failed.
pub fn write_flushed<W: Write>(writer: &mut W, bytes: &[u8]) -> bool
    ensures { IsFlushed (W.contents writer.old) (W.contents writer.new) bytes.now result }
{
    write_whole(writer, bytes) && writer.flush().is_ok()
}
