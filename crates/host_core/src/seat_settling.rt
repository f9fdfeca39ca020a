// A seat that has ended its work, and what is left of it at its desk.
ghost use Rattle.std.specs.Prelude.{◌≡◌, map};
ghost use Rattle.host_core.specs.Seats.{seat_number, staged, collected, row_of, SameDesk, AreBeside};
ghost use Rattle.host_core.specs.SeatSettling.{seat_of, AreSettled};

use crate::asked::Staged;
use crate::desk::Desk;
use crate::seat::Seat;
use host_calls::RingReply;
use rtrb::Protocol;

/// A seat that has ended its work: it stages and collects nothing any more.
#[derive(Drop)]
pub struct FinishedSeat<C, P: Protocol<RingReply>> {
    pub(crate) seat: Seat<C, P>,
}

/// What is left where a seat and its desk have ended their work.
#[derive(Clone, Copy, Debug, PartialEq, Eq)]
pub struct Settled {
    /// How many calls were staged and not taken.
    pub left: usize,
    /// How many replies were given and not collected.
    pub uncollected: usize,
}

impl<C: Drop, P: Protocol<RingReply>> Seat<C, P> {
    /// Ends its work.
    pub fn finish(self) -> FinishedSeat<C, P>
        ensures { seat_of result ≡ self }
    {
        FinishedSeat { seat: self }
    }
}

impl<C: Drop, P: Protocol<RingReply>> FinishedSeat<C, P> {
    /// The number of the seat, among those of its kind.
    pub fn number(&self) -> u8
        ensures { result ≡ seat_number (seat_of self.now) }
    {
        self.seat.number
    }
}

impl<C: Staged, P: Protocol<RingReply>> Desk<C, P> {
    /// Settles a desk with its seat, both on one thread. The calls that were staged are those that were taken and those that are left; the
    /// replies that were given are those that were collected and the rest.
    pub fn settle(&mut self, end: FinishedSeat<C, P>) -> Settled
        requires { AreBeside (seat_of end) self.old }
        ensures settled { AreSettled (map (C.asked_by (seat_number (seat_of end))) (staged (seat_of end))) (collected (seat_of end))
            (row_of C.asked_by C.named self.old) result.left result.uncollected }
        ensures row { row_of C.asked_by C.named self.new ≡ row_of C.asked_by C.named self.old }
        ensures desk { SameDesk self.old self.new }
    {
        let FinishedSeat { mut seat } = end;
        let left = self.calls.slots_beside(&mut seat.calls);
        let uncollected = seat.replies.slots_beside(&mut self.replies);
        Settled { left, uncollected }
    }
}
