// Bytes written whole.
ghost use Rattle.byte_writing.specs.Written.{IsWritten};

use super::front::write_front;
use std::io::Write;

/// Writes all of the bytes, or tells that a write failed or took nothing.
pub fn write_whole<W: Write>(writer: &mut W, bytes: &[u8]) -> bool
    ensures { IsWritten (W.contents writer.old) (W.contents writer.new) bytes.now result }
{
    let written = write_front(writer, bytes);
    written == bytes.len()
}
