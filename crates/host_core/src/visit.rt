// A visit of one seat.
ghost use Rattle.std.specs.Prelude.{◌≡◌};
ghost use Rattle.host_core.specs.Seats.{row_of, SameDesk};
ghost use Rattle.host_core.specs.Judging.{is_kept};
ghost use Rattle.host_core.specs.Visits.{IsReady, MayTell};
ghost use Rattle.host_core.specs.Visited.{VisitsSeat};

use crate::asked::Staged;
use crate::desk::Desk;
use crate::judges::Judges;
use crate::judging::judge_asked;
use host_calls::{RingReply, SeatName};
use plain::Answer;
use rtrb::Protocol;
use std::alloc::Global;

/// What a visit came to.
#[derive(Clone, Copy)]
pub enum Came {
    /// The seat of this name was answered.
    Answered(SeatName),
    /// The operator asks for the end.
    Stopped,
}

// Tries the call that waits at a desk, or else the next one of its ring, and answers it if it is not to wait.
pub(crate) fn visit_seat<B: Judges, C: Staged, P: Protocol<RingReply>>(
    alloc: Global,
    book: &mut B,
    desk: &mut Desk<C, P>,
    lasts: &[Option<u64>],
) -> Option<Came>
    requires ready { IsReady (row_of C.asked_by C.named desk.old) }
    requires rule { MayTell (row_of C.asked_by C.named desk.old).name P.allows }
    ensures visited { VisitsSeat result lasts.now (B.pages book.old) (row_of C.asked_by C.named desk.old)
        (B.pages book.new) (row_of C.asked_by C.named desk.new) }
    ensures desk { SameDesk desk.old desk.new }
{
    desk.take();
    let name = desk.name();
    let answer = match desk.waiting() {
        None => return None,
        Some(asked) => match judge_asked(alloc, book, name, asked, lasts) {
            None => return Some(Came::Stopped),
            Some(answer) => answer,
        },
    };
    if keeps(name, &answer) {
        return None;
    }
    desk.answer(answer);
    Some(Came::Answered(name))
}

// Whether a call that gets this answer waits on. The operator's does not.
fn keeps(name: SeatName, answer: &Answer) -> bool
    ensures { result ≡ is_kept name answer.now }
{
    match answer {
        Answer::Accepted(_) | Answer::Refused(_) => false,
        Answer::NotYet(_) => name != SeatName::Operator,
    }
}
