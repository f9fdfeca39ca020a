// The line `write SEAT SESSION START COUNT @SECTOR`.
ghost use Rattle.std.specs.Prelude.{◌≡◌, ℕ, ◌<◌, ◌^◌, ◌++◌, IfSome, IfNone, MatchOption, codes};
ghost use Rattle.script_line.specs.Words.{IsTail, at_sector};
ghost use Rattle.script_line.specs.Line.{Fits};
ghost use Rattle.script_line.specs.Plain.{IsMarked, IsSourced};
ghost use Rattle.script_line.specs.declared.line.Line.{Line};

use super::classed::classed;
use super::decimal::number;
use super::fields::number_field;
use super::fitted::write_from;
use super::line::Line;

/// The line that is this word and, after it, this text, which ends in the name of a class or at a sector of the payload.
pub fn marked(word: &[u8], text: &[u8]) -> Option<Line>
    requires { IsTail text.now }
    ensures { MatchOption result
        ((l : Line) → Fits l → IsMarked word.now text.now l → ⊥)
        (λ l. Fits l × IsMarked word.now text.now l) }
{
    if word == b"write".as_slice() {
        sourced(text)
    } else {
        classed(word, text)
    }
}

// The line whose word is `write` and which ends at a sector of the payload, from what stands after that word.
fn sourced(text: &[u8]) -> Option<Line>
    ensures { MatchOption result
        ((l : Line) → Fits l → IsSourced text.now l → ⊥)
        (λ l. Fits l × IsSourced text.now l) }
{
    let (seat, after_seat) = number_field(text)?;
    let (session, after_session) = number_field(after_seat)?;
    let (start, after_start) = number_field(after_session)?;
    let (count, last) = number_field(after_start)?;
    let from = sector_field(last)?;
    write_from(seat, session, start, count, from)
}

// ` @` and a number.
fn sector_field(text: &[u8]) -> Option<u64>
    ensures fits { IfSome result (λ n. n < 2 ^ 64) }
    ensures found { IfSome result (λ n. text.now ≡ at_sector n) }
    ensures none { IfNone result ((n : ℕ) → n < 2 ^ 64 → text.now ≡ at_sector n → ⊥) }
{
    let word = text.strip_prefix(b" @")?;
    number(word)
}
