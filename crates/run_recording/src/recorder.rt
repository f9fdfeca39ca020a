// A record that grows with a journal.
ghost use Rattle.std.specs.Prelude.{◌≡◌, ◌≤◌, length, true, false, IfSome};
ghost use Rattle.std.specs.Io.KnownBytes.{Appends};
ghost use Rattle.run_record.specs.Header.{header_text};
ghost use Rattle.run_recording.specs.Recorded.{WritesNew};

use crate::putting::put_rest;
use byte_writing::write_whole;
use host_core::Judges;
use run_record::{Header, put_header};
use std::alloc::Global;
use std::io::Write;

/// Writes a record as a journal grows, until a write fails.
#[derive(Drop)]
pub struct Recorder<W: Write> {
    /// Where it is written.
    pub writer: W,
    /// The number of the entry that is to be written next.
    pub next: usize,
    /// Whether nothing is written any more.
    pub has_ended: bool,
}

impl<W: Write + Drop> Recorder<W> {
    /// A record of which the first line is written. None if it cannot be written whole, or for want of memory.
    pub fn new(alloc: Global, mut writer: W, header: &Header) -> Option<Recorder<W>>
        ensures line { IfSome result (λ r. Appends (W.contents writer) (W.contents r.writer) (header_text header.now.config header.now.sectors)) }
        ensures start { IfSome result (λ r. (r.next ≡ 0) × (r.has_ended ≡ false)) }
    {
        let mut line = Vec::new(alloc);
        if put_header(header, &mut line).is_err() || !write_whole(&mut writer, line.as_slice()) {
            return None;
        }
        Some(Recorder {
            writer,
            next: 0,
            has_ended: false,
        })
    }

    /// Writes what is new in the journal, and if nothing more is to come for a while, flushes it. Tells whether the record ends with
    /// this: after a write or a flush that fails nothing is written any more.
    pub fn look<B: Judges>(&mut self, alloc: Global, book: &B, is_resting: bool) -> bool
        ensures still { self.old.has_ended ≡ true → (W.contents self.new.writer ≡ W.contents self.old.writer) × (self.new.has_ended ≡ true) × (result ≡ false) }
        ensures new { self.old.has_ended ≡ false → self.old.next ≤ length (B.pages book.now).entries
            → WritesNew (W.contents self.old.writer) (W.contents self.new.writer) (B.pages book.now).entries self.old.next self.new.next self.new.has_ended }
        ensures ends { self.old.has_ended ≡ false → result ≡ self.new.has_ended }
    {
        if self.has_ended {
            return false;
        }
        if !put_rest(alloc, &mut self.writer, book, &mut self.next) {
            self.has_ended = true;
        } else if is_resting {
            self.has_ended = self.writer.flush().is_err();
        }
        self.has_ended
    }
}
