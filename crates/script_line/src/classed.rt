// Lines that end in the name of a class: a word, numbers, and that name.
ghost use Rattle.std.specs.Prelude.{◌≡◌, ℕ, List, ◌++◌, IfSome, IfNone, MatchOption};
ghost use Rattle.sector_core.specs.declared.class.Class.{Class};
ghost use Rattle.script_line.specs.declared.line.Line.{Line};
ghost use Rattle.script_line.specs.Words.{IsTail, AreNumbers, class_named};
ghost use Rattle.script_line.specs.Line.{Fits};
ghost use Rattle.script_line.specs.Plain.{IsClassed, ReadsClass};

use super::fields::number_fields;
use super::fitted::{class_attach, class_vtime};
use super::line::Line;
use sector_core::Class;

/// The line that is this word and, after it, this text, which ends in the name of a class.
pub fn classed(word: &[u8], text: &[u8]) -> Option<Line>
    requires { IsTail text.now }
    ensures { MatchOption result
        ((l : Line) → Fits l → IsClassed word.now text.now l → ⊥)
        (λ l. Fits l × IsClassed word.now text.now l) }
{
    let (front, class) = match class_end(text) {
        Some(found) => found,
        None => return None,
    };
    match number_fields(front) {
        Some(given) => class_line(word, given.as_slice(), class),
        None => None,
    }
}

// What stands before the name of a class, and that class.
fn class_end(text: &[u8]) -> Option<(&[u8], Class)>
    ensures found { IfSome result (λ f. text.now ≡ f.0.now ++ class_named f.1) }
    ensures none { IfNone result ((front : List ℕ) (class : Class) → text.now ≡ front ++ class_named class → ⊥) }
{
    if let Some(front) = before(text, b" rt") {
        Some((front, Class::RealTime))
    } else if let Some(front) = before(text, b" be") {
        Some((front, Class::BestEffort))
    } else if let Some(front) = before(text, b" idle") {
        Some((front, Class::Idle))
    } else {
        None
    }
}

// What stands before this end of the text.
fn before<'a>(text: &'a [u8], end: &[u8]) -> Option<&'a [u8]>
    ensures found { IfSome result (λ front. text.now ≡ front.now ++ end.now) }
    ensures none { IfNone result ((front : List ℕ) → text.now ≡ front ++ end.now → ⊥) }
{
    text.strip_suffix(end)
}

// The line that is this word, these numbers and this class.
fn class_line(word: &[u8], given: &[u64], class: Class) -> Option<Line>
    requires { AreNumbers given.now }
    ensures { ReadsClass word.now given.now class result }
{
    match given {
        [group] if word == b"vtime".as_slice() => class_vtime(*group, class),
        [seat, group, prio] if word == b"attach".as_slice() => {
            class_attach(*seat, *group, *prio, class)
        }
        _ => None,
    }
}
