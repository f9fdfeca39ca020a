// What sees the journal of a host after each turn.
ghost use Rattle.host_rings.specs.Watched.{state_of, Watches, Records};

use crate::book::Book;
use crate::warning::Warning;
use host_looks::LookDesk;
use run_recording::Recorder;
use script_host::Host;
use std::alloc::Global;
use std::io::{Eprint, Write};

/// Whoever sees the journal after each turn: it warns of a history that is nearly full, records, and tells who looks.
#[derive(Drop)]
pub struct Watcher<W: Write + Drop> {
    /// The warning.
    pub warning: Warning,
    /// The record, if there is one.
    pub recorder: Option<Recorder<W>>,
    /// Where looks are asked for, if they are.
    pub looks: Option<LookDesk>,
}

impl<W: Write + Drop> Watcher<W> {
    /// Sees the journal once. What is new in it is written to the record, and what it tells of a look is the text of the keeper as it is
    /// there. If the record ends with this, it says so.
    pub fn watch(&mut self, rt: &impl Eprint, alloc: Global, book: &Book, is_resting: bool)
        ensures looks { Watches (state_of book.now) self.old.looks self.new.looks }
        ensures record { Records W.contents book.now.entries self.old.recorder self.new.recorder }
    {
        self.warning.look(rt, book);
        if let Some(recorder) = &mut self.recorder {
            if recorder.look(alloc, book, is_resting) {
                let _ = rt.eprintln("record: failed");
            }
        }
        if let Some(desk) = &mut self.looks {
            desk.serve(alloc, &Host { keeper: book });
        }
    }
}
