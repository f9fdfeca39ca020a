// The journal, the line of steps, and the machine of those before the cursor.
ghost use Rattle.std.specs.Prelude.{◌≡◌, ◌+◌, ◌-◌, ◌<◌, ◌≤◌, ◌^◌, ◌%◌, slice_get, slice_index_or, [], ◌∷◌, ◌++◌, IfOk, OnOk, OnErr, length, IsTrue};
ghost use Rattle.std.specs.Option.{option_copied};
ghost use Rattle.dispatch_core.specs.Running.{plain_of, sizes_of, IsFor};
ghost use Rattle.change_record.specs.Tape.{TakesBack};
ghost use Rattle.history.specs.Roll.{plain_at, SameLine, LengthsAfter, MayStep};

use crate::place::{Place, StampedStep, copy_of, enter, made_ready, reserved, stamped_in};
use change_record::{Tape, push_within};
use dispatch_core::{Answer, Code, Machine, Step};
use plain::Call;
use sector_core::{Config, OutOfMemory};
use std::alloc::Global;
use std::marker::Model;

/// The journal, the line as places of it, the cursor, the last serial, the machine and the tape.
#[derive(Drop)]
pub struct Roll {
    journal: Vec<Call>,
    line: Vec<Place>,
    cursor: usize,
    last: u64,
    machine: Machine,
    tape: Tape,
}

impl Model for Roll {
    ghost use Rattle.std.specs.Prelude.{◌-◌, map, length, vec_len, vec_capacity};
    ghost use Rattle.history.specs.Places.{steps_in};
    ghost use Rattle.history.specs.Line.{IsRoll};
    ghost use Rattle.history.specs.Roll.{Line};

    ghost Value = { Line };

    ghost view = { λ r. record {
      sizes = r.machine.sizes;
      steps = steps_in r.journal.items r.line.items;
      cursor = r.cursor;
      last = r.last;
      lengths = map length r.tape.steps;
      turns = r.machine.turns;
      journal = r.journal.items;
      spare = vec_capacity r.journal - vec_len r.journal;
    } };

    ghost invariant = { λ r. IsRoll r.journal.items r.line.items r.cursor r.last r.machine.sizes r.machine.tables r.tape.steps r.tape.current };
}

impl Roll {
    /// An empty journal and line, and a machine before its first step.
    pub fn new(alloc: Global, config: Config, sectors: u64) -> Result<Roll, OutOfMemory>
        requires { sectors < 2 ^ 55 }
        ensures sizes { IfOk result (λ r. r.sizes ≡ sizes_of config sectors) }
        ensures steps { IfOk result (λ r. r.steps ≡ []) }
        ensures cursor { IfOk result (λ r. r.cursor ≡ 0) }
        ensures last { IfOk result (λ r. r.last ≡ 0) }
        ensures lengths { IfOk result (λ r. r.lengths ≡ []) }
        ensures turns { IfOk result (λ r. r.turns ≡ 0) }
        ensures journal { IfOk result (λ r. r.journal ≡ []) }
    {
        let machine = Machine::new(alloc, config, sectors)?;
        Ok(Roll {
            journal: Vec::new(alloc),
            line: Vec::new(alloc),
            cursor: 0,
            last: 0,
            machine,
            tape: Tape::new(alloc),
        })
    }

    /// The machine.
    pub fn machine(&self) -> &Machine
        ensures plain { plain_of result.now ≡ plain_at self.now }
        ensures well { IsFor (self.now.last + 1) result.now }
        ensures sizes { result.now.sizes ≡ self.now.sizes }
        ensures turns { result.now.turns ≡ self.now.turns }
    {
        &self.machine
    }

    /// How many steps stand.
    pub fn cursor(&self) -> usize
        ensures cursor { result ≡ self.now.cursor }
        ensures within { result ≤ length self.now.steps }
    {
        self.cursor
    }

    /// How many steps the line has.
    pub fn length(&self) -> usize
        ensures steps { result ≡ length self.now.steps }
        ensures lists { result ≡ length self.now.lengths }
    {
        self.line.len()
    }

    /// The step at a place of the line, from 0, with its serial.
    pub fn stamped(&self, place: usize) -> Option<StampedStep<'_>>
        ensures { result ≡ slice_get self.now.steps place }
    {
        match self.line.get(place) {
            Some(at) => Some(stamped_in(&self.journal, *at)),
            None => None,
        }
    }

    /// The last serial that was given.
    pub fn last(&self) -> u64
        ensures { result ≡ self.now.last }
    {
        self.last
    }

    /// How many entries the journal has.
    pub fn journal_len(&self) -> usize
        ensures { result ≡ length self.now.journal }
    {
        self.journal.len()
    }

    /// The entry of the journal at a number, from 0.
    pub fn entry(&self, at: usize) -> Option<&Call>
        ensures { option_copied result ≡ slice_get self.now.journal at }
    {
        self.journal.get(at)
    }

    /// Makes room in the journal for one entry, and for one more for each of so many steps.
    pub fn reserve(&mut self, steps: usize) -> bool
        requires { steps < 2 ^ 40 }
        ensures same { SameLine self.old self.new }
        ensures lengths { self.new.lengths ≡ self.old.lengths }
        ensures turns { self.new.turns ≡ self.old.turns }
        ensures room { IsTrue result → steps + 1 ≤ self.new.spare }
        ensures spare { self.old.spare ≤ self.new.spare }
    {
        reserved(&mut self.journal, steps)
    }

    /// Appends an entry to the journal, which has room for it.
    pub fn note(&mut self, call: Call)
        requires { 1 ≤ self.old.spare }
        ensures sizes { self.new.sizes ≡ self.old.sizes }
        ensures steps { self.new.steps ≡ self.old.steps }
        ensures cursor { self.new.cursor ≡ self.old.cursor }
        ensures last { self.new.last ≡ self.old.last }
        ensures lengths { self.new.lengths ≡ self.old.lengths }
        ensures turns { self.new.turns ≡ self.old.turns }
        ensures journal { self.new.journal ≡ self.old.journal ++ call ∷ [] }
        ensures spare { self.old.spare ≤ self.new.spare + 1 }
    {
        push_within(&mut self.journal, call);
    }

    /// Applies a step under the next serial; accepted, it cuts the line at the cursor and is its last step.
    pub fn step(&mut self, alloc: Global, room: bool, step: &Step) -> Answer
        requires reserved { self.old.cursor ≤ self.old.spare }
        requires few { length self.old.journal < 2 ^ 32 }
        requires steps { length self.old.steps ≤ length self.old.journal }
        requires serials { self.old.last ≤ length self.old.journal }
        requires room { IsTrue room → length self.old.journal + 1 < 2 ^ 32 }
        ensures may { MayStep self.old room step.now result self.new }
        ensures lengths { LengthsAfter self.old step.now result self.new }
        ensures reserved { self.new.cursor ≤ self.new.spare }
    {
        let ready = made_ready(&mut self.journal, &mut self.line, self.cursor);
        let serial = self.last + 1;
        match self
            .machine
            .apply(alloc, serial, room, step, &mut self.tape)
        {
            Answer::Refused(code) => return Answer::Refused(code),
            Answer::NotYet(cause) => return Answer::NotYet(cause),
            // Only now is the step copied: a call that is refused or waits makes no copy.
            Answer::Accepted(reply) => match copy_of(ready, step) {
                Some(copy) => {
                    self.tape.keep_last(self.cursor);
                    enter(&mut self.journal, &mut self.line, self.cursor, serial, copy);
                    self.cursor += 1;
                    self.last = serial;
                    return Answer::Accepted(reply);
                }
                // Want of memory is an answer only where the plain step accepts: so the step was made, and is turned back.
                None => {
                    let at = self.tape.len() - 1;
                    self.machine.back(&mut self.tape, at);
                    self.tape.drop_last();
                    // A call drops what is left over: so no way out proves the drop of each part anew.
                    drop(reply);
                    return Answer::Refused(Code::OutOfMemory);
                }
            },
        }
    }

    /// Undoes the last step that stands.
    pub fn undo(&mut self)
        requires { 0 < self.old.cursor }
        ensures sizes { self.new.sizes ≡ self.old.sizes }
        ensures steps { self.new.steps ≡ self.old.steps }
        ensures cursor { self.new.cursor ≡ self.old.cursor - 1 }
        ensures last { self.new.last ≡ self.old.last }
        ensures lengths { self.new.lengths ≡ self.old.lengths }
        ensures turns { self.new.turns % 2 ^ 64 ≡ (self.old.turns + slice_index_or self.old.lengths (self.old.cursor - 1) 0) % 2 ^ 64 }
        ensures journal { self.new.journal ≡ self.old.journal }
        ensures spare { self.new.spare ≡ self.old.spare }
    {
        let at = self.cursor - 1;
        self.machine.back(&mut self.tape, at);
        self.cursor = at;
    }

    /// Redoes the next step that was undone.
    ///
    /// # Errors
    ///
    /// Where there is no memory for a block nothing has changed.
    pub fn redo(&mut self) -> Result<(), OutOfMemory>
        requires { self.old.cursor < length self.old.steps }
        ensures sizes { self.new.sizes ≡ self.old.sizes }
        ensures steps { self.new.steps ≡ self.old.steps }
        ensures cursor { OnOk result (self.new.cursor ≡ self.old.cursor + 1) }
        ensures err { OnErr result (self.new.cursor ≡ self.old.cursor) }
        ensures last { self.new.last ≡ self.old.last }
        ensures lengths { self.new.lengths ≡ self.old.lengths }
        ensures turns { OnOk result (self.new.turns % 2 ^ 64 ≡ (self.old.turns + slice_index_or self.old.lengths self.old.cursor 0) % 2 ^ 64) }
        ensures turned_back { OnErr result (TakesBack self.old.turns (slice_index_or self.old.lengths self.old.cursor 0) self.new.turns) }
        ensures journal { self.new.journal ≡ self.old.journal }
        ensures spare { self.new.spare ≡ self.old.spare }
    {
        match self.machine.forth(&mut self.tape, self.cursor) {
            Ok(()) => {
                self.cursor += 1;
                return Ok(());
            }
            Err(refused) => return Err(refused),
        }
    }
}
