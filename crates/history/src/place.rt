// Where the steps of the line stand in the journal.
ghost use Rattle.std.specs.Prelude.{◌≡◌, ◌+◌, ◌≤◌, ◌<◌, ◌^◌, [], ◌∷◌, ◌++◌, IfSome, IsTrue, length, take, vec_len, vec_capacity};
ghost use Rattle.std.specs.List.{All};
ghost use Rattle.plain.specs.declared.call.Call.TheVariants.{Do as DoStep};
ghost use Rattle.history.specs.Places.{stamped_in, steps_in, IsPlaced};

use change_record::push_within;
use dispatch_core::Step;
use plain::Call;
use std::marker::Model;
use std::mem::size_of;

/// A place of the line: the serial of its step, and the number of the journal's entry that is this step.
// A history holds fewer than 2^32 calls, so 32 bits are enough for both.
#[derive(Clone, Copy)]
pub struct Place {
    pub serial: u32,
    pub entry: u32,
}

// The line holds one for each step that stands, beside the journal's entry of that step.
const _: () = prove!(size_of::<Place>() <= 8);

/// A step of the line, with its serial.
#[derive(Drop)]
pub struct StampedStep<'a> {
    serial: u64,
    step: &'a Step,
}

impl<'a> Model for StampedStep<'a> {
    ghost use Rattle.plain.specs.declared.call.Stamped.{Stamped};

    ghost Value = { Stamped };

    ghost view = { λ s. record { serial = s.serial; step = s.step.now } };
}

impl<'a> StampedStep<'a> {
    /// Its serial.
    pub fn serial(&self) -> u64
        ensures { result ≡ self.now.serial }
    {
        self.serial
    }

    /// The step.
    pub fn step(&self) -> &'a Step
        ensures { result.now ≡ self.now.step }
    {
        self.step
    }
}

/// The step at a place, with its serial.
pub fn stamped_in<'a>(journal: &'a Vec<Call>, place: Place) -> StampedStep<'a>
    requires { IsPlaced journal.now.items place }
    ensures { result ≡ stamped_in journal.now.items place }
{
    match &journal[place.entry as usize] {
        Call::Do(step) => StampedStep {
            serial: u64::from(place.serial),
            step,
        },
        // No place is that of another call.
        _ => unreachable!(),
    }
}

/// Makes room in the journal for one entry, and for one more for each of so many steps.
pub fn reserved(journal: &mut Vec<Call>, steps: usize) -> bool
    requires { steps < 2 ^ 40 }
    ensures items { journal.new.items ≡ journal.old.items }
    ensures len { vec_len journal.new ≡ vec_len journal.old }
    ensures room { IsTrue result → vec_len journal.new + (steps + 1) ≤ vec_capacity journal.new }
    ensures capacity { vec_capacity journal.old ≤ vec_capacity journal.new }
{
    match journal.reserve(steps + 1) {
        Ok(()) => true,
        Err(_) => false,
    }
}

/// Makes room for a step: in the line, and in the journal for it and for an entry for each step that would stand.
pub fn made_ready(journal: &mut Vec<Call>, line: &mut Vec<Place>, cursor: usize) -> bool
    requires { cursor < 2 ^ 32 }
    ensures items { journal.new.items ≡ journal.old.items }
    ensures len { vec_len journal.new ≡ vec_len journal.old }
    ensures places { line.new.items ≡ line.old.items }
    ensures room { IsTrue result → vec_len journal.new + (cursor + 2) ≤ vec_capacity journal.new }
    ensures line_room { IsTrue result → vec_len line.new < vec_capacity line.new }
    ensures capacity { vec_capacity journal.old ≤ vec_capacity journal.new }
{
    if !reserved(journal, cursor + 1) {
        return false;
    }
    match line.reserve(1) {
        Ok(()) => true,
        Err(_) => false,
    }
}

/// A copy of a step for the journal, if there is room for it.
pub fn copy_of(ready: bool, step: &Step) -> Option<Step>
    ensures copy { IfSome result (λ copy. copy ≡ step.now) }
    ensures ready { IfSome result (λ copy. IsTrue ready) }
{
    if !ready {
        return None;
    }
    match step.clone() {
        Ok(copy) => Some(copy),
        Err(_) => None,
    }
}

/// Drops the places from the cursor on, and adds a step: it is the journal's next entry, and the last of the line.
pub fn enter(journal: &mut Vec<Call>, line: &mut Vec<Place>, cursor: usize, serial: u64, step: Step)
    requires placed { All (IsPlaced journal.old.items) line.old.items }
    requires within { cursor ≤ length line.old.items }
    requires few { length journal.old.items < 2 ^ 32 }
    requires small { serial < 2 ^ 32 }
    requires room { vec_len journal.old < vec_capacity journal.old }
    requires line_room { cursor < vec_capacity line.old }
    ensures entries { journal.new.items ≡ journal.old.items ++ DoStep step ∷ [] }
    ensures steps { steps_in journal.new.items line.new.items ≡ take cursor (steps_in journal.old.items line.old.items) ++ record { serial = serial; step = step } ∷ [] }
    ensures placed { All (IsPlaced journal.new.items) line.new.items }
    ensures len { vec_len journal.new ≡ vec_len journal.old + 1 }
    ensures capacity { vec_capacity journal.old ≤ vec_capacity journal.new }
{
    let entry = journal.len() as u32;
    line.truncate(cursor);
    push_within(
        line,
        Place {
            serial: serial as u32,
            entry,
        },
    );
    push_within(journal, Call::Do(step));
}
