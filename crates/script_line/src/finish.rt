// The line `finish TAG ISSUE ENDING`.
ghost use Rattle.std.specs.Prelude.{◌≡◌, ℕ, ◌++◌, MatchOption, codes};
ghost use Rattle.script_line.specs.Words.{IsTail};
ghost use Rattle.script_line.specs.Line.{spelled, ended, Fits, EndingFits};

use super::fields::{number_field, number_fields};
use super::line::{Ending, Line};

/// The line whose word is `finish`, from what stands after that word.
pub fn finish(text: &[u8]) -> Option<Line>
    ensures { MatchOption result
        ((l : Line) → Fits l → spelled l ≡ codes "finish" ++ text.now → ⊥)
        (λ l. Fits l × (spelled l ≡ codes "finish" ++ text.now)) }
{
    let (tag, rest) = match number_field(text) {
        Some(found) => found,
        None => return None,
    };
    let (issue, last) = match number_field(rest) {
        Some(found) => found,
        None => return None,
    };
    let ending = match ending_of(last) {
        Some(found) => found,
        None => return None,
    };
    match u8::try_from(tag) {
        Ok(tag) => Some(Line::Finish { tag, issue, ending }),
        Err(_) => None,
    }
}

// How it ended: what stands after the two numbers.
fn ending_of(text: &[u8]) -> Option<Ending>
    requires { IsTail text.now }
    ensures { MatchOption result
        ((e : Ending) → EndingFits e → text.now ≡ ended e → ⊥)
        (λ e. EndingFits e × (text.now ≡ ended e)) }
{
    if text == b" stored".as_slice() {
        Some(Ending::Stored)
    } else if text == b" short".as_slice() {
        Some(Ending::Short)
    } else if text == b" fault".as_slice() {
        Some(Ending::Fault)
    } else {
        fill(text)
    }
}

// ` fill` and a byte.
fn fill(text: &[u8]) -> Option<Ending>
    ensures { MatchOption result
        ((byte : ℕ) → EndingFits (Ending.Fill byte) → text.now ≡ ended (Ending.Fill byte) → ⊥)
        (λ e. EndingFits e × (text.now ≡ ended e)) }
{
    if text.len() < 5 {
        return None;
    }
    let (word, rest) = text.split_at(5);
    if word != b" fill".as_slice() {
        return None;
    }
    let (byte, end) = match number_field(rest) {
        Some(found) => found,
        None => return None,
    };
    if !end.is_empty() {
        return None;
    }
    match u8::try_from(byte) {
        Ok(byte) => Some(Ending::Fill(byte)),
        Err(_) => None,
    }
}
