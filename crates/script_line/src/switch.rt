// The line `switch SCHEDULER`.
ghost use Rattle.std.specs.Prelude.{◌≡◌, ◌++◌, MatchOption, codes};
ghost use Rattle.script_line.specs.Line.{spelled, Fits};

use super::line::Line;
use sector_core::Scheduler;

/// The line whose word is `switch`, from what stands after that word.
pub fn switch(text: &[u8]) -> Option<Line>
    ensures { MatchOption result
        ((l : Line) → Fits l → spelled l ≡ codes "switch" ++ text.now → ⊥)
        (λ l. Fits l × (spelled l ≡ codes "switch" ++ text.now)) }
{
    if text == b" none".as_slice() {
        Some(Line::Switch {
            scheduler: Scheduler::Plain,
        })
    } else if text == b" bfq".as_slice() {
        Some(Line::Switch {
            scheduler: Scheduler::Bfq,
        })
    } else {
        None
    }
}
