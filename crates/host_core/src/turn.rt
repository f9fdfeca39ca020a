// A turn.
ghost use Rattle.std.specs.Prelude.{◌≡◌, ◌<◌, length, true, false};
ghost use Rattle.host_core.specs.Desks.{rows, lasts};
ghost use Rattle.host_core.specs.Same.{SameDesks};
ghost use Rattle.host_core.specs.Visits.{AllReady};
ghost use Rattle.host_core.specs.Turns.{is_accepted, is_starved, Dispatches, IsTurn, IsLastTurn};

use crate::desks::Desks;
use crate::judges::Judges;
use crate::round::visit_all;
use crate::visit::Came;
use host_calls::SeatName;
use plain::{Answer, Call, Code, Step};
use std::alloc::Global;

/// What a turn did.
#[derive(Clone, Copy)]
pub struct TurnReport {
    /// Whose call was answered, if one was.
    pub answered: Option<SeatName>,
    /// Whether a request was dispatched.
    pub dispatched: bool,
    /// Whether the core has ended.
    pub ended: bool,
}

/// What a turn did, and what who takes the next one has to know.
#[derive(Clone, Copy)]
pub struct Turned {
    /// What it did.
    pub report: TurnReport,
    /// Whether a Dispatch found no memory. Another may find some, though nothing has come to the seats.
    pub starved: bool,
}

/// Visits each seat once, from the place `next` on, up to the first that is answered; then it tries one Dispatch. If the operator asks
/// for the end, each seat hears it, and nothing is dispatched. `next` is then the place after that of the seat that was answered.
pub fn take_turn<B: Judges>(
    alloc: Global,
    book: &mut B,
    desks: &mut Desks,
    next: &mut usize,
) -> Turned
    requires ready { AllReady (rows desks.old) }
    requires within { next.old < length (rows desks.old) }
    ensures turn { result.report.ended ≡ false
        → (t : IsTurn (lasts desks.old) (B.pages book.old) (rows desks.old) (B.pages book.new) (rows desks.new) result.report.answered result.report.dispatched)
        × (result.starved ≡ is_starved t.dispatch.answer) }
    ensures last { result.report.ended ≡ true
        → IsLastTurn (B.pages book.old) (rows desks.old) (B.pages book.new) (rows desks.new) result.report.answered result.report.dispatched }
    ensures ready { result.report.ended ≡ false → AllReady (rows desks.new) }
    ensures within { next.new < length (rows desks.new) }
    ensures desks { SameDesks desks.old desks.new }
{
    let lasts = desks.lasts();
    match visit_all(alloc, book, desks, lasts.as_slice(), *next) {
        None => dispatch(alloc, book, None),
        Some((place, Came::Answered(name))) => {
            *next = place_after(place, desks.len());
            dispatch(alloc, book, Some(name))
        }
        Some((_, Came::Stopped)) => {
            desks.close();
            Turned {
                report: TurnReport {
                    answered: Some(SeatName::Operator),
                    dispatched: false,
                    ended: true,
                },
                starved: false,
            }
        }
    }
}

// The place after this one, in a circle of so many.
fn place_after(place: usize, count: usize) -> usize
    requires { place < count }
    ensures { result < count }
{
    if place + 1 < count { place + 1 } else { 0 }
}

// Tries one Dispatch in a turn in which this seat was answered, if one was. If it is accepted it is the next entry, under the core's
// own name.
fn dispatch<B: Judges>(alloc: Global, book: &mut B, answered: Option<SeatName>) -> Turned
    ensures dispatch { (d : Dispatches (B.pages book.old) (B.pages book.new) result.report.dispatched) × (result.starved ≡ is_starved d.answer) }
    ensures answered { result.report.answered ≡ answered }
    ensures ended { result.report.ended ≡ false }
{
    let answer = book.judge(alloc, SeatName::Core, &Call::Do(Step::Dispatch));
    Turned {
        report: TurnReport {
            answered,
            dispatched: was_accepted(&answer),
            ended: false,
        },
        starved: was_starved(&answer),
    }
}

fn was_accepted(answer: &Answer) -> bool
    ensures { result ≡ is_accepted answer.now }
{
    match answer {
        Answer::Accepted(_) => true,
        Answer::Refused(_) | Answer::NotYet(_) => false,
    }
}

fn was_starved(answer: &Answer) -> bool
    ensures { result ≡ is_starved answer.now }
{
    match answer {
        Answer::Refused(code) => *code == Code::OutOfMemory,
        Answer::Accepted(_) | Answer::NotYet(_) => false,
    }
}
