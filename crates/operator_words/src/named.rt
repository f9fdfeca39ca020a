// Calls from the words after their names.
ghost use Rattle.std.specs.Prelude.{[], ◌∷◌, codes};
ghost use Rattle.operator_words.specs.Reading.{Reads};

use super::fitted::{byte, count, weight};
use host_calls::OperatorCall;
use sector_core::Scheduler;

/// `group-make PARENT WEIGHT`
pub fn group_make(parent: &[u8], given: &[u8]) -> Option<OperatorCall>
    ensures { Reads (codes "group-make" ∷ parent.now ∷ given.now ∷ []) result }
{
    let parent = byte(parent)?;
    let weight = weight(given)?;
    Some(OperatorCall::GroupMake { parent, weight })
}

/// `group-drop GROUP`
pub fn group_drop(group: &[u8]) -> Option<OperatorCall>
    ensures { Reads (codes "group-drop" ∷ group.now ∷ []) result }
{
    let group = byte(group)?;
    Some(OperatorCall::GroupDrop { group })
}

/// `set-weight GROUP WEIGHT`
pub fn set_weight(group: &[u8], given: &[u8]) -> Option<OperatorCall>
    ensures { Reads (codes "set-weight" ∷ group.now ∷ given.now ∷ []) result }
{
    let group = byte(group)?;
    let weight = weight(given)?;
    Some(OperatorCall::SetWeight { group, weight })
}

/// `switch NAME`
pub fn switch(name: &[u8]) -> Option<OperatorCall>
    ensures { Reads (codes "switch" ∷ name.now ∷ []) result }
{
    if name == b"none".as_slice() {
        Some(OperatorCall::Switch {
            scheduler: Scheduler::Plain,
        })
    } else if name == b"bfq".as_slice() {
        Some(OperatorCall::Switch {
            scheduler: Scheduler::Bfq,
        })
    } else {
        None
    }
}

/// `undo K`
pub fn undo(k: &[u8]) -> Option<OperatorCall>
    ensures { Reads (codes "undo" ∷ k.now ∷ []) result }
{
    let k = count(k)?;
    Some(OperatorCall::Undo { k })
}

/// `redo K`
pub fn redo(k: &[u8]) -> Option<OperatorCall>
    ensures { Reads (codes "redo" ∷ k.now ∷ []) result }
{
    let k = count(k)?;
    Some(OperatorCall::Redo { k })
}
