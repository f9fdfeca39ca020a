#![tactic(auto)]
//! The round robin over the software queues, as the scheduler `none` runs it.
//!
//! | call | rule that it meets |
//! |---|---|
//! | [`pick`] | the first seat after the last one whose queue is not empty |

ghost use Rattle.std.specs.Prelude.{◌≡◌, ◌≤◌, ◌-◌};
ghost use Rattle.std.specs.List.{find};
ghost use Rattle.soft_queue.specs.Turn.{next_seat, is_waiting};
ghost use Rattle.plain.specs.Lists.{numbers};

use process_queue::ProcessQueue;

/// The first seat with a queued request, tried in turn from the one after `last_seat`, and that one last.
pub fn pick(queues: &ProcessQueue, last_seat: u8) -> Option<u8>
    ensures { result ≡ next_seat last_seat queues.now }
{
    // A host that has nothing to send asks again and again, so this is told by one walk and not by one for each seat.
    if queues.are_empty() {
        return None;
    }
    let after = if last_seat < 16 { last_seat + 1 } else { 16 };
    match first_waiting(queues, after, 16) {
        Some(seat) => Some(seat),
        None => first_waiting(queues, 0, after),
    }
}

// The first seat from `from` up to `end` with a queued request.
#[tactic(auto, using(crate::proofs::Numbers::walk))]
fn first_waiting(queues: &ProcessQueue, from: u8, end: u8) -> Option<u8>
    requires { from ≤ end }
    ensures { result ≡ find (λ seat. is_waiting queues.now seat) (numbers from (end - from)) }
{
    for seat in from..end {
        if !queues.is_empty(seat) {
            return Some(seat);
        }
    }
    None
}
