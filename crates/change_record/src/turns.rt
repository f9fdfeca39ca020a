// Lists of exchanges, turned in order and in reverse order.
ghost use Rattle.std.specs.Prelude.{◌≡◌, ◌+◌, ◌%◌, ◌^◌, IsOk, OnOk, OnErr, length};
ghost use Rattle.change_record.specs.Exchange.{after, left_by, FitsIn, FitBack, FitForth, ArePuts, back_tables, back_left, forth_tables, forth_left};
ghost use Rattle.change_record.specs.Tape.{TakesBack};

use crate::{Change, Parts};
use sector_core::OutOfMemory;

// An exchange that adds no block cannot be refused.
pub fn turn_fitting(parts: &mut Parts, change: &mut Change)
    requires { FitsIn parts.old.tables change.old }
    ensures tables { parts.new.tables ≡ after parts.old.tables change.old }
    ensures left { change.new ≡ left_by parts.old.tables change.old }
    ensures turns { parts.new.turns ≡ (parts.old.turns + 1) % 2 ^ 64 }
{
    let _ = parts.turn(change);
}

// Turns all changes, the last one first.
pub fn turn_back(parts: &mut Parts, changes: &mut [Change])
    requires { FitBack changes.old parts.old.tables }
    ensures tables { parts.new.tables ≡ back_tables changes.old parts.old.tables }
    ensures left { changes.new ≡ back_left changes.old parts.old.tables }
    ensures turns { parts.new.turns % 2 ^ 64 ≡ (parts.old.turns + length changes.old) % 2 ^ 64 }
{
    let mut i = changes.len();
    while i > 0 {
        i -= 1;
        turn_fitting(parts, &mut changes[i]);
    }
}

// Turns all changes, the first one first; where one is refused, those before it are turned back.
pub fn turn_forth(parts: &mut Parts, changes: &mut [Change]) -> Result<(), OutOfMemory>
    requires { ArePuts changes.old }
    ensures tables { OnOk result (parts.new.tables ≡ forth_tables changes.old parts.old.tables) }
    ensures left { OnOk result (changes.new ≡ forth_left changes.old parts.old.tables) }
    ensures turns { OnOk result (parts.new.turns % 2 ^ 64 ≡ (parts.old.turns + length changes.old) % 2 ^ 64) }
    ensures err { OnErr result (parts.new.tables ≡ parts.old.tables) }
    ensures turned_back { OnErr result (TakesBack parts.old.turns (length changes.old) parts.new.turns) }
    ensures handed_back { OnErr result (changes.new ≡ changes.old) }
    ensures fits { FitForth changes.old parts.old.tables → IsOk result }
{
    for i in 0..changes.len() {
        match parts.turn(&mut changes[i]) {
            Ok(()) => {}
            Err(refused) => {
                turn_back(parts, &mut changes[..i]);
                return Err(refused);
            }
        }
    }
    Ok(())
}
