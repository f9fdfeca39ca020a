// A round over the seats.
ghost use Rattle.std.specs.Prelude.{◌<◌, ◌≤◌, length};
ghost use Rattle.host_core.specs.Desks.{rows};
ghost use Rattle.host_core.specs.Same.{SameDesks};
ghost use Rattle.host_core.specs.Visits.{AllReady};
ghost use Rattle.host_core.specs.Rounds.{RoundOver};

use crate::desks::Desks;
use crate::judges::Judges;
use crate::visit::Came;
use std::alloc::Global;

// Visits each seat once, from one on, up to the first at which somebody is answered or asks for the end. Gives its place, and what
// came there.
pub(crate) fn visit_all<B: Judges>(
    alloc: Global,
    book: &mut B,
    desks: &mut Desks,
    lasts: &[Option<u64>],
    from: usize,
) -> Option<(usize, Came)>
    requires ready { AllReady (rows desks.old) }
    requires within { from ≤ length (rows desks.old) }
    ensures round { RoundOver lasts.now 0 (length (rows desks.old)) (B.pages book.old) (rows desks.old) (B.pages book.new) (rows desks.new) result }
    ensures desks { SameDesks desks.old desks.new }
{
    let count = desks.len();
    if let Some(came) = visit_range(alloc, book, desks, lasts, from, count) {
        return Some(came);
    }
    visit_range(alloc, book, desks, lasts, 0, from)
}

// Visits the seats at these places.
fn visit_range<B: Judges>(
    alloc: Global,
    book: &mut B,
    desks: &mut Desks,
    lasts: &[Option<u64>],
    from: usize,
    upto: usize,
) -> Option<(usize, Came)>
    requires ready { AllReady (rows desks.old) }
    requires within { upto ≤ length (rows desks.old) }
    requires ordered { from ≤ upto }
    ensures round { RoundOver lasts.now from upto (B.pages book.old) (rows desks.old) (B.pages book.new) (rows desks.new) result }
    ensures desks { SameDesks desks.old desks.new }
{
    for place in from..upto {
        if let Some(came) = desks.visit(alloc, book, lasts, place) {
            return Some((place, came));
        }
    }
    None
}
