// The line `show ..`: a word, and at most one number.
ghost use Rattle.std.specs.Prelude.{◌≡◌, ℕ, [], ◌∷◌, ◌++◌, MatchOption, codes};
ghost use Rattle.script_line.specs.Words.{AreNumbers};
ghost use Rattle.script_line.specs.Line.{spelled, Fits};
ghost use Rattle.script_line.specs.Look.{ReadsLook, LookFitsOrNone};

use super::fields::{cut, number_fields};
use super::line::Line;
use super::look::Look;

/// The line whose word is `show`, from what stands after that word.
pub fn show(text: &[u8]) -> Option<Line>
    ensures { MatchOption result
        ((l : Line) → Fits l → spelled l ≡ codes "show" ++ text.now → ⊥)
        (λ l. Fits l × (spelled l ≡ codes "show" ++ text.now)) }
{
    let (space, after) = text.split_first()?;
    if *space != b' ' {
        return None;
    }
    let (word, rest) = cut(after);
    let given = match number_fields(rest) {
        Some(found) => found,
        None => return None,
    };
    match look_of(word, given.as_slice()) {
        Some(look) => Some(Line::Show { look }),
        None => None,
    }
}

// What this word and these numbers show.
fn look_of(word: &[u8], given: &[u64]) -> Option<Look>
    requires { AreNumbers given.now }
    ensures { ReadsLook word.now given.now result }
{
    match given {
        [] => look_with_none(word),
        [a] => look_with_one(word, *a),
        _ => None,
    }
}

fn look_with_none(word: &[u8]) -> Option<Look>
    ensures { ReadsLook word.now [] result }
{
    if word == b"requeued".as_slice() {
        Some(Look::Requeued)
    } else if word == b"flight".as_slice() {
        Some(Look::Flight)
    } else if word == b"service".as_slice() {
        Some(Look::Service)
    } else if word == b"host".as_slice() {
        Some(Look::Host)
    } else if word == b"state".as_slice() {
        Some(Look::State)
    } else {
        None
    }
}

fn look_with_one(word: &[u8], a: u64) -> Option<Look>
    ensures { ReadsLook word.now (a ∷ []) result }
{
    if word == b"seat".as_slice() {
        seat(a)
    } else if word == b"outbox".as_slice() {
        outbox(a)
    } else if word == b"queue".as_slice() {
        queue(a)
    } else if word == b"tree".as_slice() {
        tree(a)
    } else if word == b"stored".as_slice() {
        Some(Look::Stored { from: a })
    } else if word == b"step".as_slice() {
        step(a)
    } else {
        None
    }
}

// `seat SEAT`
fn seat(seat: u64) -> Option<Look>
    ensures { LookFitsOrNone (Look.Seat seat) result }
{
    match u8::try_from(seat) {
        Ok(seat) => Some(Look::Seat { seat }),
        Err(_) => None,
    }
}

// `outbox SEAT`
fn outbox(seat: u64) -> Option<Look>
    ensures { LookFitsOrNone (Look.Outbox seat) result }
{
    match u8::try_from(seat) {
        Ok(seat) => Some(Look::Outbox { seat }),
        Err(_) => None,
    }
}

// `queue SEAT`
fn queue(seat: u64) -> Option<Look>
    ensures { LookFitsOrNone (Look.Queue seat) result }
{
    match u8::try_from(seat) {
        Ok(seat) => Some(Look::Queue { seat }),
        Err(_) => None,
    }
}

// `tree GROUP`
fn tree(group: u64) -> Option<Look>
    ensures { LookFitsOrNone (Look.Tree group) result }
{
    match u8::try_from(group) {
        Ok(group) => Some(Look::Tree { group }),
        Err(_) => None,
    }
}

// `step K`
fn step(k: u64) -> Option<Look>
    ensures { LookFitsOrNone (Look.Step k) result }
{
    match u32::try_from(k) {
        Ok(k) => Some(Look::Step { k }),
        Err(_) => None,
    }
}
