// The tape, flat: the changes of all steps one after the other, and where each step ends.
ghost use Rattle.std.specs.Prelude.{◌≡◌, ◌+◌, ◌≤◌, ◌<◌, ◌%◌, ◌^◌, [], ◌∷◌, ◌++◌, IfOk, IsOk, OnOk, OnErr, length, slice_set, slice_index, slice_range, take, drop, vec_len, ◌-◌};
ghost use Rattle.change_record.specs.Exchange.{after, left_by, AddsBlock, FitsIn, IsPut, FitBack, FitForth, ArePuts, back_tables, back_left, forth_tables, forth_left};
ghost use Rattle.change_record.specs.Trail.{KeepsTrail};
ghost use Rattle.change_record.specs.Tape.{step_at, begin_of, AreEnds, spliced, TakesBack};

use crate::turns::{turn_back, turn_fitting, turn_forth};
use crate::{Change, Parts, push_within};
use boxed::Boxed;
use sector_core::OutOfMemory;
use std::alloc::Global;
use std::marker::Model;

/// The change lists of all steps of a line, and of the step under way.
pub struct Tape {
    changes: Vec<Change>,
    ends: Vec<usize>,
}

// Written out, and not derived: so who drops one, in whatever crate, calls this, and proves no drop of each part anew.
impl Drop for Tape {
    fn drop(self) {
        let Tape {
            changes: _,
            ends: _,
        } = self;
    }
}

impl Model for Tape {
    ghost use Rattle.std.specs.Prelude.{◌-◌, length, vec_len, vec_capacity};
    ghost use Rattle.change_record.specs.Tape.{Record, pieces, rest_of, AreEnds};

    ghost Value = { Record };

    ghost view = { λ t. record {
      steps = pieces 0 t.ends.items t.changes.items;
      current = rest_of 0 t.ends.items t.changes.items;
      room = vec_capacity t.changes - vec_len t.changes;
      spare = vec_capacity t.ends - vec_len t.ends;
    } };

    ghost invariant = { λ t. AreEnds 0 t.ends.items (length t.changes.items) };
}

impl Tape {
    /// An empty tape.
    pub fn new(alloc: Global) -> Tape
        ensures steps { result.steps ≡ [] }
        ensures current { result.current ≡ [] }
    {
        Tape {
            changes: Vec::new(alloc),
            ends: Vec::new(alloc),
        }
    }

    /// Where what goes into the tables gets its memory.
    pub fn allocator(&self) -> Global {
        *self.changes.allocator()
    }

    /// A box for a value that goes into the tables.
    ///
    /// # Errors
    ///
    /// There is no memory for it.
    pub fn boxed<T: Drop>(&self, value: T) -> Result<Boxed<T>, OutOfMemory>
        ensures { IfOk result (λ boxed. boxed ≡ value) }
    {
        Ok(Boxed::new(self.allocator(), value)?)
    }

    /// How many steps it holds.
    pub fn len(&self) -> usize
        ensures { result ≡ length self.now.steps }
    {
        self.ends.len()
    }

    /// Makes room for the changes and the end of a step of at most `count` changes.
    ///
    /// # Errors
    ///
    /// There is no memory for it; then the steps are as they were, and no room is lost.
    pub fn reserve(&mut self, count: usize) -> Result<(), OutOfMemory>
        ensures steps { self.new.steps ≡ self.old.steps }
        ensures current { self.new.current ≡ self.old.current }
        ensures room { OnOk result (count ≤ self.new.room) }
        ensures spare { OnOk result (1 ≤ self.new.spare) }
        ensures kept_room { self.old.room ≤ self.new.room }
        ensures kept_spare { self.old.spare ≤ self.new.spare }
        ensures enough { count ≤ self.old.room → 1 ≤ self.old.spare → IsOk result }
    {
        self.changes.reserve(count)?;
        self.ends.reserve(1)?;
        Ok(())
    }

    /// Adds a change, which has been turned, to the step under way.
    pub fn push(&mut self, change: Change)
        requires { 1 ≤ self.old.room }
        ensures steps { self.new.steps ≡ self.old.steps }
        ensures current { self.new.current ≡ self.old.current ++ change ∷ [] }
        ensures room { self.old.room ≤ self.new.room + 1 }
        ensures spare { self.new.spare ≡ self.old.spare }
    {
        push_within(&mut self.changes, change);
    }

    /// Makes one exchange of the step under way, and adds what it leaves.
    ///
    /// # Errors
    ///
    /// It refuses only where it would add a block to the overlay and there is no memory; then nothing has changed.
    pub fn try_exchange(&mut self, parts: &mut Parts, change: Change) -> Result<(), OutOfMemory>
        requires room { 1 ≤ self.old.room }
        requires puts { IsPut change }
        ensures tables { OnOk result (parts.new.tables ≡ after parts.old.tables change) }
        ensures err { OnErr result (parts.new.tables ≡ parts.old.tables) }
        ensures adds { OnErr result (AddsBlock parts.old.tables change) }
        ensures recorded { OnOk result (self.new.current ≡ self.old.current ++ left_by parts.old.tables change ∷ []) }
        ensures kept { OnErr result (self.new.current ≡ self.old.current) }
        ensures turns { OnOk result (parts.new.turns ≡ (parts.old.turns + 1) % 2 ^ 64) }
        ensures no_turn { OnErr result (parts.new.turns ≡ parts.old.turns) }
        ensures trail { KeepsTrail self.old.current parts.old.tables self.new.current parts.new.tables }
        ensures steps { self.new.steps ≡ self.old.steps }
        ensures room { self.old.room ≤ self.new.room + 1 }
        ensures spare { self.new.spare ≡ self.old.spare }
    {
        let mut change = change;
        match parts.turn(&mut change) {
            Ok(()) => {
                self.push(change);
                return Ok(());
            }
            Err(refused) => return Err(refused),
        }
    }

    /// Makes one exchange of the step under way that adds no block, which cannot be refused.
    pub fn exchange(&mut self, parts: &mut Parts, change: Change)
        requires room { 1 ≤ self.old.room }
        requires puts { IsPut change }
        requires fits { FitsIn parts.old.tables change }
        ensures tables { parts.new.tables ≡ after parts.old.tables change }
        ensures recorded { self.new.current ≡ self.old.current ++ left_by parts.old.tables change ∷ [] }
        ensures turns { parts.new.turns ≡ (parts.old.turns + 1) % 2 ^ 64 }
        ensures trail { KeepsTrail self.old.current parts.old.tables self.new.current parts.new.tables }
        ensures steps { self.new.steps ≡ self.old.steps }
        ensures room { self.old.room ≤ self.new.room + 1 }
        ensures spare { self.new.spare ≡ self.old.spare }
    {
        let mut change = change;
        turn_fitting(parts, &mut change);
        self.push(change);
    }

    /// Ends the step under way.
    pub fn close(&mut self)
        requires { 1 ≤ self.old.spare }
        ensures steps { self.new.steps ≡ self.old.steps ++ self.old.current ∷ [] }
        ensures current { self.new.current ≡ [] }
    {
        let end = self.changes.len();
        push_within(&mut self.ends, end);
    }

    /// Drops the steps from a number on, but for the last one, which takes that number.
    pub fn keep_last(&mut self, at: usize)
        requires there { at < length self.old.steps }
        requires idle { self.old.current ≡ [] }
        ensures steps { self.new.steps ≡ take at self.old.steps ++ step_at self.old.steps (length self.old.steps - 1) ∷ [] }
        ensures current { self.new.current ≡ [] }
    {
        let count = self.ends.len();
        let len = self.changes.len();
        let (start, _) = span_at(self.ends.as_slice(), at, len);
        let (from, _) = span_at(self.ends.as_slice(), count - 1, len);
        drop_between(&mut self.changes, start, from);
        let end = self.changes.len();
        self.ends[at] = end;
        self.ends.truncate(at + 1);
    }

    /// Drops the last step.
    pub fn drop_last(&mut self)
        requires there { 0 < length self.old.steps }
        requires idle { self.old.current ≡ [] }
        ensures steps { self.new.steps ≡ take (length self.old.steps - 1) self.old.steps }
        ensures current { self.new.current ≡ [] }
    {
        let count = self.ends.len();
        let len = self.changes.len();
        let (from, _) = span_at(self.ends.as_slice(), count - 1, len);
        self.changes.truncate(from);
        self.ends.truncate(count - 1);
    }

    /// How many changes the step at a number has.
    pub fn size(&self, at: usize) -> usize
        requires { at < length self.now.steps }
        ensures { result ≡ length (step_at self.now.steps at) }
    {
        let (start, end) = span_at(self.ends.as_slice(), at, self.changes.len());
        end - start
    }

    /// Turns the step under way back, and takes it off the tape.
    pub fn abandon(&mut self, parts: &mut Parts)
        requires { FitBack self.old.current parts.old.tables }
        ensures steps { self.new.steps ≡ self.old.steps }
        ensures current { self.new.current ≡ [] }
        ensures tables { parts.new.tables ≡ back_tables self.old.current parts.old.tables }
        ensures turns { parts.new.turns % 2 ^ 64 ≡ (parts.old.turns + length self.old.current) % 2 ^ 64 }
    {
        let end = self.changes.len();
        let start = last_end(self.ends.as_slice(), end);
        span_back(parts, self.changes.as_mut_slice(), start, end);
        self.changes.truncate(start);
    }

    /// Turns the step at a number back: all its changes, the last one first. It takes no memory.
    pub fn back(&mut self, parts: &mut Parts, at: usize)
        requires there { at < length self.old.steps }
        requires fits { FitBack (step_at self.old.steps at) parts.old.tables }
        ensures tables { parts.new.tables ≡ back_tables (step_at self.old.steps at) parts.old.tables }
        ensures turns { parts.new.turns % 2 ^ 64 ≡ (parts.old.turns + length (step_at self.old.steps at)) % 2 ^ 64 }
        ensures steps { self.new.steps ≡ slice_set self.old.steps at (back_left (step_at self.old.steps at) parts.old.tables) }
        ensures current { self.new.current ≡ self.old.current }
    {
        let (start, end) = span_at(self.ends.as_slice(), at, self.changes.len());
        span_back(parts, self.changes.as_mut_slice(), start, end);
    }

    /// Turns the step at a number forth again: all its changes, the first one first.
    ///
    /// # Errors
    ///
    /// Where there is no memory for a block, what was turned is turned back, and nothing has changed.
    pub fn forth(&mut self, parts: &mut Parts, at: usize) -> Result<(), OutOfMemory>
        requires there { at < length self.old.steps }
        requires puts { ArePuts (step_at self.old.steps at) }
        ensures tables { OnOk result (parts.new.tables ≡ forth_tables (step_at self.old.steps at) parts.old.tables) }
        ensures turns { OnOk result (parts.new.turns % 2 ^ 64 ≡ (parts.old.turns + length (step_at self.old.steps at)) % 2 ^ 64) }
        ensures steps { OnOk result (self.new.steps ≡ slice_set self.old.steps at (forth_left (step_at self.old.steps at) parts.old.tables)) }
        ensures current { self.new.current ≡ self.old.current }
        ensures err { OnErr result (parts.new.tables ≡ parts.old.tables) }
        ensures turned_back { OnErr result (TakesBack parts.old.turns (length (step_at self.old.steps at)) parts.new.turns) }
        ensures kept { OnErr result (self.new.steps ≡ self.old.steps) }
        ensures fits { FitForth (step_at self.old.steps at) parts.old.tables → IsOk result }
    {
        let (start, end) = span_at(self.ends.as_slice(), at, self.changes.len());
        match span_forth(parts, self.changes.as_mut_slice(), start, end) {
            Ok(()) => return Ok(()),
            Err(refused) => return Err(refused),
        }
    }
}

// Takes out the changes from `start` to before `from`.
fn drop_between(changes: &mut Vec<Change>, start: usize, from: usize)
    requires ordered { start ≤ from }
    requires within { from ≤ vec_len changes.old }
    ensures { changes.new.items ≡ take start changes.old.items ++ drop from changes.old.items }
{
    let count = from - start;
    let keep = changes.len() - count;
    let tail = &mut changes[start..];
    tail.rotate_left(count);
    changes.truncate(keep);
}

// Where the piece with this number begins, and where it ends, in a list of `len` elements.
fn span_at(ends: &[usize], at: usize, len: usize) -> (usize, usize)
    requires there { at < length ends.now }
    requires rising { AreEnds 0 ends.now len }
    ensures start { result.0 ≡ begin_of 0 ends.now at }
    ensures end { result.1 ≡ slice_index ends.now at }
    ensures ordered { result.0 ≤ result.1 }
    ensures within { result.1 ≤ len }
{
    let end = ends[at];
    if at == 0 {
        return (0, end);
    }
    (ends[at - 1], end)
}

// Where the rest after the last piece begins, in a list of `len` elements.
fn last_end(ends: &[usize], len: usize) -> usize
    requires { AreEnds 0 ends.now len }
    ensures start { result ≡ begin_of 0 ends.now (length ends.now) }
    ensures within { result ≤ len }
{
    let count = ends.len();
    if count == 0 {
        return 0;
    }
    ends[count - 1]
}

// Turns a part of the changes back.
fn span_back(parts: &mut Parts, changes: &mut [Change], start: usize, end: usize)
    requires ordered { start ≤ end }
    requires within { end ≤ length changes.old }
    requires fits { FitBack (slice_range changes.old start end) parts.old.tables }
    ensures tables { parts.new.tables ≡ back_tables (slice_range changes.old start end) parts.old.tables }
    ensures turns { parts.new.turns % 2 ^ 64 ≡ (parts.old.turns + (end - start)) % 2 ^ 64 }
    ensures changes { changes.new ≡ spliced start end changes.old (back_left (slice_range changes.old start end) parts.old.tables) }
{
    turn_back(parts, &mut changes[start..end]);
}

// Turns a part of the changes forth.
fn span_forth(
    parts: &mut Parts,
    changes: &mut [Change],
    start: usize,
    end: usize,
) -> Result<(), OutOfMemory>
    requires ordered { start ≤ end }
    requires within { end ≤ length changes.old }
    requires puts { ArePuts (slice_range changes.old start end) }
    ensures tables { OnOk result (parts.new.tables ≡ forth_tables (slice_range changes.old start end) parts.old.tables) }
    ensures turns { OnOk result (parts.new.turns % 2 ^ 64 ≡ (parts.old.turns + (end - start)) % 2 ^ 64) }
    ensures changes { OnOk result (changes.new ≡ spliced start end changes.old (forth_left (slice_range changes.old start end) parts.old.tables)) }
    ensures err { OnErr result (parts.new.tables ≡ parts.old.tables) }
    ensures turned_back { OnErr result (TakesBack parts.old.turns (end - start) parts.new.turns) }
    ensures kept { OnErr result (changes.new ≡ changes.old) }
    ensures fits { FitForth (slice_range changes.old start end) parts.old.tables → IsOk result }
{
    match turn_forth(parts, &mut changes[start..end]) {
        Ok(()) => return Ok(()),
        Err(refused) => return Err(refused),
    }
}
