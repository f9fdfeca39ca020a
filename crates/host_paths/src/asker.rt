// A seat that is asked on this thread.
ghost use Rattle.std.specs.Prelude.{◌≡◌};
ghost use Rattle.host_core.specs.Seats.{is_closed};
ghost use Rattle.host_paths.specs.Asking.{AsksSeat, IsBetween};
ghost use Rattle.host_paths.specs.AskingLaws.{seat_frames};

use host_calls::{ClientCall, Closed};
use host_core::{ClientReplies, Seat};
use plain::Answer;
use session_proto::Asks;
use std::alloc::Global;
use std::sync::Wait;

/// A client's seat, asked on this thread.
#[derive(Drop)]
pub struct SeatAsker<'a, R: Wait> {
    rt: &'a R,
    /// The seat.
    pub seat: Seat<ClientCall, ClientReplies>,
    ghost between: { IsBetween seat },
}

impl<'a, R: Wait> SeatAsker<'a, R> {
    /// An asker of the seat. It asks that each call of the seat was answered, if the host has not ended.
    pub fn new(rt: &'a R, seat: Seat<ClientCall, ClientReplies>) -> SeatAsker<'a, R>
        requires { IsBetween seat }
        ensures { result.seat ≡ seat }
    {
        SeatAsker { rt, seat }
    }

    /// Whether the seat has heard that the host has ended. Then each call finds it ended.
    pub fn is_closed(&self) -> bool
        ensures { result ≡ is_closed self.now.seat }
    {
        self.seat.is_closed()
    }
}

impl<'a, R: Wait> Asks for SeatAsker<'a, R> {
    ghost asks = { λ a call result b. AsksSeat a.seat call result b.seat };

    fn ask(&mut self, _alloc: Global, call: ClientCall) -> Result<Answer, Closed> {
        ask_at(self.rt, &mut self.seat, call)
    }

    ghost have_frames = { λ old new call answer asked. seat_frames old.seat new.seat call answer asked };
}

// Stages one call at a seat, and collects one reply there.
fn ask_at<R: Wait>(
    rt: &R,
    seat: &mut Seat<ClientCall, ClientReplies>,
    call: ClientCall,
) -> Result<Answer, Closed>
    requires { IsBetween seat.old }
    ensures asked { AsksSeat seat.old call result seat.new }
    ensures between { IsBetween seat.new }
{
    seat.ask(rt, call)
}
