// Lines that are a word and then numbers, by how many numbers there are.
ghost use Rattle.std.specs.Prelude.{ℕ, [], ◌∷◌};
ghost use Rattle.script_line.specs.Words.{AreNumbers};
ghost use Rattle.script_line.specs.Plain.{Reads};

use super::fitted::{
    attach, class_of, discard, drop_group, entity, group, leave, queue, read, reap, redo, requeue,
    undo, vtime, weight, work, write,
};
use super::line::Line;

/// The line that is this word and these numbers.
pub fn plain_line(word: &[u8], given: &[u64]) -> Option<Line>
    requires { AreNumbers given.now }
    ensures { Reads word.now given.now result }
{
    match given {
        [] => with_none(word),
        [a] => with_one(word, *a),
        [a, b] => with_two(word, *a, *b),
        [a, b, c] => with_three(word, *a, *b, *c),
        [a, b, c, d] => with_four(word, *a, *b, *c, *d),
        [a, b, c, d, e] => with_five(word, *a, *b, *c, *d, *e),
        _ => None,
    }
}

fn with_none(word: &[u8]) -> Option<Line>
    ensures { Reads word.now [] result }
{
    if word == b"dispatch".as_slice() {
        Some(Line::Dispatch)
    } else if word == b"hold".as_slice() {
        Some(Line::Hold)
    } else if word == b"release".as_slice() {
        Some(Line::Release)
    } else if word == b"line".as_slice() {
        Some(Line::Cursor)
    } else if word == b"freeze".as_slice() {
        Some(Line::Freeze)
    } else if word == b"thaw".as_slice() {
        Some(Line::Thaw)
    } else if word == b"tick".as_slice() {
        Some(Line::Tick)
    } else {
        None
    }
}

fn with_one(word: &[u8], a: u64) -> Option<Line>
    ensures { Reads word.now (a ∷ []) result }
{
    if word == b"undo".as_slice() {
        undo(a)
    } else if word == b"redo".as_slice() {
        redo(a)
    } else if word == b"sector".as_slice() {
        Some(Line::Sector { number: a })
    } else if word == b"queue".as_slice() {
        queue(a)
    } else if word == b"drop".as_slice() {
        drop_group(a)
    } else if word == b"vtime".as_slice() {
        vtime(a)
    } else if word == b"entity".as_slice() {
        entity(a)
    } else if word == b"leave".as_slice() {
        leave(a)
    } else if word == b"class".as_slice() {
        class_of(a)
    } else {
        None
    }
}

fn with_two(word: &[u8], a: u64, b: u64) -> Option<Line>
    ensures { Reads word.now (a ∷ b ∷ []) result }
{
    if word == b"reap".as_slice() {
        reap(a, b)
    } else if word == b"group".as_slice() {
        group(a, b)
    } else if word == b"weight".as_slice() {
        weight(a, b)
    } else if word == b"work".as_slice() {
        work(a, b)
    } else if word == b"requeue".as_slice() {
        requeue(a, b)
    } else {
        None
    }
}

fn with_three(word: &[u8], a: u64, b: u64, c: u64) -> Option<Line>
    ensures { Reads word.now (a ∷ b ∷ c ∷ []) result }
{
    if word == b"attach".as_slice() {
        attach(a, b, c)
    } else {
        None
    }
}

fn with_four(word: &[u8], a: u64, b: u64, c: u64, d: u64) -> Option<Line>
    ensures { Reads word.now (a ∷ b ∷ c ∷ d ∷ []) result }
{
    if word == b"read".as_slice() {
        read(a, b, c, d)
    } else if word == b"discard".as_slice() {
        discard(a, b, c, d)
    } else {
        None
    }
}

fn with_five(word: &[u8], a: u64, b: u64, c: u64, d: u64, e: u64) -> Option<Line>
    ensures { Reads word.now (a ∷ b ∷ c ∷ d ∷ e ∷ []) result }
{
    if word == b"write".as_slice() {
        write(a, b, c, d, e)
    } else {
        None
    }
}
