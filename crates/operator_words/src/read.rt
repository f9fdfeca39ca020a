// The call that words spell.
ghost use Rattle.std.specs.Prelude.{◌≡◌, [], ◌∷◌, map, Ok, IfOk, IfErr};
ghost use Rattle.operator_words.specs.Reading.{Reads};
ghost use Rattle.operator_words.specs.Words.{words_of, Fits};

use super::fault::WordFault;
use super::named::{group_drop, group_make, redo, set_weight, switch, undo};
use host_calls::OperatorCall;

/// The call that has these words: its name, and then what it is given. It takes no memory, so the only fault is
/// [`WordFault::Usage`].
pub fn words_to_call(words: &[&str]) -> Result<OperatorCall, WordFault>
    ensures found { IfOk result (λ call. Fits call × (map (λ word. word.now) words.now ≡ words_of call)) }
    ensures only { (call : OperatorCall) → Fits call → map (λ word. word.now) words.now ≡ words_of call
        → result ≡ Ok call }
    ensures usage { IfErr result (λ fault. (fault ≡ WordFault.Usage) × ((call : OperatorCall) → Fits call
        → map (λ word. word.now) words.now ≡ words_of call → ⊥)) }
{
    match call_of(words) {
        Some(call) => Ok(call),
        None => Err(WordFault::Usage),
    }
}

// The call that has these words. Each call has one to three.
fn call_of(words: &[&str]) -> Option<OperatorCall>
    ensures { Reads (map (λ word. word.now) words.now) result }
{
    match words {
        [name] => with_none(name.as_bytes()),
        [name, first] => with_one(name.as_bytes(), first.as_bytes()),
        [name, first, second] => with_two(name.as_bytes(), first.as_bytes(), second.as_bytes()),
        _ => None,
    }
}

// The call that is a name alone.
fn with_none(name: &[u8]) -> Option<OperatorCall>
    ensures { Reads (name.now ∷ []) result }
{
    if name == b"freeze".as_slice() {
        Some(OperatorCall::Freeze)
    } else if name == b"thaw".as_slice() {
        Some(OperatorCall::Thaw)
    } else if name == b"tick".as_slice() {
        Some(OperatorCall::Tick)
    } else if name == b"hold".as_slice() {
        Some(OperatorCall::Hold)
    } else if name == b"release".as_slice() {
        Some(OperatorCall::Release)
    } else if name == b"stop".as_slice() {
        Some(OperatorCall::Stop)
    } else {
        None
    }
}

// The call that is a name and one word.
fn with_one(name: &[u8], first: &[u8]) -> Option<OperatorCall>
    ensures { Reads (name.now ∷ first.now ∷ []) result }
{
    if name == b"group-drop".as_slice() {
        group_drop(first)
    } else if name == b"switch".as_slice() {
        switch(first)
    } else if name == b"undo".as_slice() {
        undo(first)
    } else if name == b"redo".as_slice() {
        redo(first)
    } else {
        None
    }
}

// The call that is a name and two words.
fn with_two(name: &[u8], first: &[u8], second: &[u8]) -> Option<OperatorCall>
    ensures { Reads (name.now ∷ first.now ∷ second.now ∷ []) result }
{
    if name == b"group-make".as_slice() {
        group_make(first, second)
    } else if name == b"set-weight".as_slice() {
        set_weight(first, second)
    } else {
        None
    }
}
