// A line read.
ghost use Rattle.std.specs.Prelude.{◌≡◌, IfSome, IfNone};
ghost use Rattle.script_line.specs.Line.{spelled, Fits};

use super::fields::{cut, number_fields};
use super::finish::finish;
use super::line::Line;
use super::plain::plain_line;
use super::show::show;
use super::sourced::marked;
use super::switch::switch;

/// The line that the text spells: its words joined by one space, its numbers in decimal and within their types.
pub fn line_of(text: &[u8]) -> Option<Line>
    ensures found { IfSome result (λ l. Fits l × (text.now ≡ spelled l)) }
    ensures none { IfNone result ((l : Line) → Fits l → text.now ≡ spelled l → ⊥) }
{
    let (word, rest) = cut(text);
    if word == b"finish".as_slice() {
        return finish(rest);
    }
    if word == b"switch".as_slice() {
        return switch(rest);
    }
    if word == b"show".as_slice() {
        return show(rest);
    }
    match number_fields(rest) {
        Some(given) => plain_line(word, given.as_slice()),
        None => marked(word, rest),
    }
}
