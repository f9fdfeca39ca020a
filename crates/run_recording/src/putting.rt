// Entries written.
ghost use Rattle.std.specs.Prelude.{◌≡◌, ◌≤◌, length, IsTrue, IsFalse};
ghost use Rattle.run_recording.specs.Recorded.{IsPut, HasRecorded, HasStopped};

use byte_writing::write_whole;
use host_calls::SeatName;
use host_core::Judges;
use plain::Call;
use run_record::Entry;
use session_proto::{Version, encode};
use std::alloc::Global;
use std::io::Write;

/// Writes the frame of a call under the name of its seat. Tells whether it was written whole. It may not be if a write fails or takes
/// nothing, for want of memory, or if there is no such entry.
pub fn put_entry<W: Write>(alloc: Global, writer: &mut W, name: SeatName, call: &Call) -> bool
    ensures { IsPut (W.contents writer.old) (W.contents writer.new) name call.now result }
{
    let Ok(Some(entry)) = Entry::of(name, call) else {
        return false;
    };
    match encode(alloc, Version::One, &entry) {
        Ok(frame) => write_whole(writer, frame.as_slice()),
        Err(_) => false,
    }
}

/// Writes the frames of the journal's entries from the number `next` on, which is then the number of the first that was not written
/// whole. Tells whether all were.
pub fn put_rest<W: Write, B: Judges>(
    alloc: Global,
    writer: &mut W,
    book: &B,
    next: &mut usize,
) -> bool
    ensures all { IsTrue result → next.old ≤ length (B.pages book.now).entries → HasRecorded (W.contents writer.old) (W.contents writer.new) (B.pages book.now).entries next.old next.new
        × (next.new ≡ length (B.pages book.now).entries) }
    ensures cut { IsFalse result → next.old ≤ length (B.pages book.now).entries → HasStopped (W.contents writer.old) (W.contents writer.new) (B.pages book.now).entries next.old next.new }
{
    loop {
        let Some((name, call)) = book.entry(*next) else {
            return true;
        };
        // No journal has as many entries as numbers are.
        let Some(after) = next.checked_add(1) else {
            return false;
        };
        if !put_entry(alloc, writer, name, call) {
            return false;
        }
        *next = after;
    }
}
