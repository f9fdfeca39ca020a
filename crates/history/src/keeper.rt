// The keeper.
ghost use Rattle.std.specs.Prelude.{◌≡◌, ◌+◌, ◌≤◌, ◌<◌, ◌^◌, nat_lt, [], IfOk, length, slice_get};
ghost use Rattle.std.specs.Option.{option_copied};
ghost use Rattle.plain.specs.Step.{of_sizes};
ghost use Rattle.plain.specs.Keeper.{opened, machine_of};
ghost use Rattle.plain.specs.Headline.{MayCall, replay};
ghost use Rattle.plain.specs.declared.call.Call.TheVariants.{Do as DoStep, Hold as HoldAll, Release as ReleaseAll, Undo as UndoSteps, Redo as RedoSteps};
ghost use Rattle.plain.specs.declared.answer.Answer.TheVariants.{Accepted};
ghost use Rattle.plain.specs.declared.answer.Reply.TheVariants.{Moved};
ghost use Rattle.dispatch_core.specs.Running.{plain_of, sizes_of, IsFor};
ghost use Rattle.history.specs.Turns.{Turns};

use crate::moves::{redo_steps, undo_steps};
use crate::place::StampedStep;
use crate::roll::Roll;
use dispatch_core::{Answer, Cause, Code, Reply, Step, View};
use plain::Call;
use sector_core::{Config, OutOfMemory};
use std::alloc::Global;
use std::marker::Model;

/// A machine that can be held, undone and redone, and the journal of its accepted calls.
pub struct Keeper {
    roll: Roll,
    held: bool,
    most: u32,
}

// Written out, and not derived: so who drops one, in whatever crate, calls this, and proves no drop of each part anew.
impl Drop for Keeper {
    fn drop(self) {
        let Keeper {
            roll: _,
            held: _,
            most: _,
        } = self;
    }
}

impl Model for Keeper {
    ghost use Rattle.history.specs.Keeping.{state_of, IsKeeper};
    ghost use Rattle.history.specs.Kept.{Kept};

    ghost Value = { Kept };

    ghost view = { λ k. record {
      state = state_of k.roll k.held k.most;
      lengths = k.roll.lengths;
      turns = k.roll.turns;
    } };

    ghost invariant = { λ k. IsKeeper k.roll k.held k.most };
}

impl Keeper {
    /// A keeper before its first call, over an image of `sectors` sectors.
    ///
    /// # Errors
    ///
    /// There is no memory for its machine.
    pub fn new(alloc: Global, config: Config, sectors: u64) -> Result<Keeper, OutOfMemory>
        requires { sectors < 2 ^ 55 }
        ensures opened { IfOk result (λ k. k.state ≡ opened (of_sizes (sizes_of config sectors)) config.history_max) }
        ensures lengths { IfOk result (λ k. k.lengths ≡ []) }
        ensures turns { IfOk result (λ k. k.turns ≡ 0) }
    {
        let roll = Roll::new(alloc, config, sectors)?;
        Ok(Keeper {
            roll,
            held: false,
            most: config.history_max,
        })
    }

    /// Answers a call; a call that is not accepted changes nothing.
    pub fn call(&mut self, alloc: Global, call: &Call) -> Answer
        ensures may { MayCall self.old.state call.now result self.new.state }
        ensures turns { Turns self.old call.now result self.new }
    {
        match call {
            Call::Do(step) => return self.take_step(alloc, step),
            Call::Hold => return self.hold(),
            Call::Release => return self.release(),
            Call::Undo { k } => return self.undo(*k),
            Call::Redo { k } => return self.redo(*k),
        }
    }

    /// What can be seen of it.
    pub fn view(&self) -> KeeperView<'_>
        ensures { result ≡ self.now }
    {
        KeeperView { keeper: self }
    }

    /// How many calls were accepted. The keeper is what comes of these calls, one after the other, on a new one.
    pub fn journal_len(&self) -> usize
        ensures len { result ≡ length self.now.state.journal }
        ensures few { result ≤ self.now.state.most }
        ensures replay { self.now.state ≡ replay self.now.state.limits self.now.state.most self.now.state.journal }
    {
        self.roll.journal_len()
    }

    /// The accepted call of a number, from 0.
    pub fn entry(&self, at: usize) -> Option<&Call>
        ensures { option_copied result ≡ slice_get self.now.state.journal at }
    {
        self.roll.entry(at)
    }

    fn take_step(&mut self, alloc: Global, step: &Step) -> Answer
        ensures may { MayCall self.old.state (DoStep step.now) result self.new.state }
        ensures turns { Turns self.old (DoStep step.now) result self.new }
    {
        if self.held {
            return Answer::NotYet(Cause::Held);
        }
        let room = has_room(&self.roll, self.most);
        return self.roll.step(alloc, room, step);
    }

    fn hold(&mut self) -> Answer
        ensures may { MayCall self.old.state HoldAll result self.new.state }
        ensures turns { Turns self.old HoldAll result self.new }
    {
        if self.held {
            return Answer::Refused(Code::AlreadyHeld);
        }
        if !has_room(&self.roll, self.most) {
            return Answer::Refused(Code::HistoryFull);
        }
        let standing = self.roll.cursor();
        if !self.roll.reserve(standing) {
            return Answer::Refused(Code::OutOfMemory);
        }
        self.roll.note(Call::Hold);
        self.held = true;
        return moved(&self.roll);
    }

    fn release(&mut self) -> Answer
        ensures may { MayCall self.old.state ReleaseAll result self.new.state }
        ensures turns { Turns self.old ReleaseAll result self.new }
    {
        if !self.held {
            return Answer::Refused(Code::NotHeld);
        }
        if !has_room(&self.roll, self.most) {
            return Answer::Refused(Code::HistoryFull);
        }
        let standing = self.roll.cursor();
        if !self.roll.reserve(standing) {
            return Answer::Refused(Code::OutOfMemory);
        }
        self.roll.note(Call::Release);
        self.held = false;
        return Answer::Accepted(Reply::Done);
    }

    fn undo(&mut self, k: u32) -> Answer
        ensures may { MayCall self.old.state (UndoSteps k) result self.new.state }
        ensures turns { Turns self.old (UndoSteps k) result self.new }
    {
        if !self.held {
            return Answer::Refused(Code::NotHeld);
        }
        if k == 0 {
            return Answer::Refused(Code::ZeroCount);
        }
        if self.roll.cursor() < k as usize {
            return Answer::Refused(Code::NothingToUndo);
        }
        if !has_room(&self.roll, self.most) {
            return Answer::Refused(Code::HistoryFull);
        }
        undo_steps(&mut self.roll, k as usize);
        self.roll.note(Call::Undo { k });
        return moved(&self.roll);
    }

    fn redo(&mut self, k: u32) -> Answer
        ensures may { MayCall self.old.state (RedoSteps k) result self.new.state }
        ensures turns { Turns self.old (RedoSteps k) result self.new }
    {
        if !self.held {
            return Answer::Refused(Code::NotHeld);
        }
        if k == 0 {
            return Answer::Refused(Code::ZeroCount);
        }
        let end = self.roll.cursor() + k as usize;
        if self.roll.length() < end {
            return Answer::Refused(Code::NothingToRedo);
        }
        if !has_room(&self.roll, self.most) {
            return Answer::Refused(Code::HistoryFull);
        }
        if !self.roll.reserve(end) {
            return Answer::Refused(Code::OutOfMemory);
        }
        match redo_steps(&mut self.roll, k as usize) {
            Ok(()) => {}
            Err(_) => return Answer::Refused(Code::OutOfMemory),
        }
        self.roll.note(Call::Redo { k });
        return moved(&self.roll);
    }
}

// Whether the journal may hold one more entry.
fn has_room(roll: &Roll, most: u32) -> bool
    ensures { result ≡ nat_lt (length roll.now.journal) most }
{
    roll.journal_len() < most as usize
}

// What an accepted Hold, Undo or Redo answers.
fn moved(roll: &Roll) -> Answer
    requires { length roll.now.steps < 2 ^ 32 }
    ensures { result ≡ Accepted (Moved roll.now.cursor (length roll.now.steps)) }
{
    Answer::Accepted(Reply::Moved {
        cursor: roll.cursor() as u32,
        length: roll.length() as u32,
    })
}

/// A look at a keeper.
#[derive(Drop)]
pub struct KeeperView<'a> {
    keeper: &'a Keeper,
}

impl<'a> Model for KeeperView<'a> {
    ghost use Rattle.history.specs.Kept.{Kept};

    ghost Value = { Kept };

    ghost view = { λ v. v.keeper.now };
}

impl<'a> KeeperView<'a> {
    /// The machine.
    pub fn machine(&self) -> View<'a>
        ensures shown { plain_of result ≡ machine_of self.now.state }
        ensures sizes { of_sizes result.sizes ≡ self.now.state.limits }
        ensures well { IsFor (self.now.state.last + 1) result }
        ensures turns { result.turns ≡ self.now.turns }
    {
        let keeper = self.keeper;
        keeper.roll.machine().view()
    }

    /// How many steps stand.
    pub fn cursor(&self) -> u32
        ensures cursor { result ≡ self.now.state.cursor }
        ensures within { result ≤ length self.now.state.line }
    {
        let keeper = self.keeper;
        keeper.roll.cursor() as u32
    }

    /// How many steps the line has.
    pub fn length(&self) -> u32
        ensures length { result ≡ length self.now.state.line }
        ensures few { result ≤ self.now.state.most }
        ensures lists { result ≡ length self.now.lengths }
    {
        let keeper = self.keeper;
        keeper.roll.length() as u32
    }

    /// The last serial that was given.
    pub fn last_serial(&self) -> u64
        ensures last { result ≡ self.now.state.last }
        ensures few { result ≤ self.now.state.most }
    {
        let keeper = self.keeper;
        keeper.roll.last()
    }

    /// The step at a place of the line, from 0, with its serial.
    pub fn stamped(&self, place: u32) -> Option<StampedStep<'a>>
        ensures { result ≡ slice_get self.now.state.line place }
    {
        let keeper = self.keeper;
        keeper.roll.stamped(place as usize)
    }

    /// How many calls were accepted.
    pub fn journal_len(&self) -> usize
        ensures { result ≡ length self.now.state.journal }
    {
        let keeper = self.keeper;
        keeper.journal_len()
    }

    /// Whether the host is held.
    pub fn held(&self) -> bool
        ensures { result ≡ self.now.state.held }
    {
        let keeper = self.keeper;
        keeper.held
    }
}
