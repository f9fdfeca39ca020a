// Bytes written as far as they can be.
ghost use Rattle.std.specs.Prelude.{◌≤◌, length, take};
ghost use Rattle.std.specs.Io.KnownBytes.{Appends};

use std::io::Write;

/// Writes the bytes, until a write fails or takes nothing. Gives how many were written.
pub fn write_front<W: Write>(writer: &mut W, bytes: &[u8]) -> usize
    ensures wrote { Appends (W.contents writer.old) (W.contents writer.new) (take result bytes.now) }
    ensures few { result ≤ length bytes.now }
{
    let mut written = 0usize;
    while written < bytes.len() {
        let (_, left) = bytes.split_at(written);
        match writer.write(left) {
            Ok(count) => {
                // A writer that takes nothing would be asked for ever.
                if count == 0 {
                    return written;
                }
                written += count;
            }
            Err(_) => return written,
        }
    }
    written
}
