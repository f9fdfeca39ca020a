// Several undos and redos, one after the other.
ghost use Rattle.std.specs.Prelude.{◌≡◌, ◌+◌, ◌-◌, ◌≤◌, OnOk, OnErr, length};
ghost use Rattle.change_record.specs.Tape.{TakesBack};
ghost use Rattle.history.specs.Turns.{changes_of, MakesTurns};

use crate::roll::Roll;
use sector_core::OutOfMemory;

// Undoes so many of the last steps that stand.
pub fn undo_steps(roll: &mut Roll, count: usize)
    requires { count ≤ roll.old.cursor }
    ensures sizes { roll.new.sizes ≡ roll.old.sizes }
    ensures steps { roll.new.steps ≡ roll.old.steps }
    ensures cursor { roll.new.cursor ≡ roll.old.cursor - count }
    ensures last { roll.new.last ≡ roll.old.last }
    ensures lengths { roll.new.lengths ≡ roll.old.lengths }
    ensures turns { MakesTurns roll.old.turns (changes_of roll.old.lengths (roll.old.cursor - count) count) roll.new.turns }
    ensures journal { roll.new.journal ≡ roll.old.journal }
    ensures spare { roll.new.spare ≡ roll.old.spare }
{
    for _ in 0..count {
        roll.undo();
    }
}

// Redoes so many of the steps after the cursor; where there is no memory for one, those before it are undone again.
pub fn redo_steps(roll: &mut Roll, count: usize) -> Result<(), OutOfMemory>
    requires { roll.old.cursor + count ≤ length roll.old.steps }
    ensures sizes { roll.new.sizes ≡ roll.old.sizes }
    ensures steps { roll.new.steps ≡ roll.old.steps }
    ensures cursor { OnOk result (roll.new.cursor ≡ roll.old.cursor + count) }
    ensures err { OnErr result (roll.new.cursor ≡ roll.old.cursor) }
    ensures last { roll.new.last ≡ roll.old.last }
    ensures lengths { roll.new.lengths ≡ roll.old.lengths }
    ensures turns { OnOk result (MakesTurns roll.old.turns (changes_of roll.old.lengths roll.old.cursor count) roll.new.turns) }
    ensures turned_back { OnErr result (TakesBack roll.old.turns (changes_of roll.old.lengths roll.old.cursor count) roll.new.turns) }
    ensures journal { roll.new.journal ≡ roll.old.journal }
    ensures spare { roll.new.spare ≡ roll.old.spare }
{
    for done in 0..count {
        match roll.redo() {
            Ok(()) => {}
            Err(refused) => {
                undo_steps(roll, done);
                return Err(refused);
            }
        }
    }
    Ok(())
}
