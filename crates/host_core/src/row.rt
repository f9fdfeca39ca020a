// A visit of one seat of a row of seats of one kind.
ghost use Rattle.std.specs.Prelude.{◌≡◌, ◌<◌, ℕ, map, vec_len};
ghost use Rattle.host_core.specs.Seats.{row_of};
ghost use Rattle.host_core.specs.Same.{SameEach};
ghost use Rattle.host_core.specs.Visits.{AllReady, Changes, MayTell};
ghost use Rattle.host_core.specs.Visited.{VisitsSeat};

use crate::asked::Staged;
use crate::desk::Desk;
use crate::judges::Judges;
use crate::visit::{Came, visit_seat};
use host_calls::RingReply;
use rtrb::Protocol;
use std::alloc::Global;

// Visits the seat at a place of a row.
pub(crate) fn visit_row<B: Judges, C: Staged, P: Protocol<RingReply>>(
    alloc: Global,
    book: &mut B,
    desks: &mut Vec<Desk<C, P>>,
    place: usize,
    lasts: &[Option<u64>],
) -> Option<Came>
    requires within { place < vec_len desks.old }
    requires ready { AllReady (map (row_of C.asked_by C.named) desks.old.items) }
    requires rule { (n : ℕ) → MayTell (C.named n) P.allows }
    ensures visited { Changes place (λ r s. VisitsSeat result lasts.now (B.pages book.old) r (B.pages book.new) s)
        (map (row_of C.asked_by C.named) desks.old.items) (map (row_of C.asked_by C.named) desks.new.items) }
    ensures desks { SameEach desks.old.items desks.new.items }
    ensures len { vec_len desks.new ≡ vec_len desks.old }
{
    visit_seat(alloc, book, &mut desks[place], lasts)
}
