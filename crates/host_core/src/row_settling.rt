// A seat that has ended its work, settled with its desk.
ghost use Rattle.std.specs.Prelude.{◌≡◌, map, vec_len};
ghost use Rattle.host_core.specs.Seats.{seat_number, staged, collected, row_of};
ghost use Rattle.host_core.specs.SeatSettling.{seat_of};
ghost use Rattle.host_core.specs.Same.{SameEach};
ghost use Rattle.host_core.specs.RowSettling.{IsSeatedIn, IsSettled};

use crate::asked::Staged;
use crate::desk::Desk;
use crate::desks::Desks;
use crate::seat_rules::{ClientReplies, OperatorReplies};
use crate::seat_settling::{FinishedSeat, Settled};
use host_calls::{ClientCall, OperatorCall, RingReply};
use plain::DeviceCall;
use rtrb::{AnyItems, Protocol};

/// A seat of a host that has ended its work, by its kind.
#[derive(Drop)]
pub enum SeatEnd {
    /// A client's.
    Caller(FinishedSeat<ClientCall, ClientReplies>),
    /// A device's.
    Device(FinishedSeat<DeviceCall, AnyItems>),
    /// The operator's.
    Operator(FinishedSeat<OperatorCall, OperatorReplies>),
}

impl Desks {
    ghost use Rattle.host_core.specs.Desks.{rows};
    ghost use Rattle.host_core.specs.Same.{SameDesks};
    ghost use Rattle.host_core.specs.RowSettling.{IsSeated, name_of, staged_calls, collected_replies};

    /// Settles a seat with its desk, both on one thread: how many of its calls were not taken, and how many replies it did not collect.
    pub fn settle(&mut self, end: SeatEnd) -> Settled
        requires { IsSeated end self.old }
        ensures settled { IsSettled (rows self.old) (name_of end) (staged_calls end) (collected_replies end) result.left result.uncollected }
        ensures rows { rows self.new ≡ rows self.old }
        ensures desks { SameDesks self.old self.new }
    {
        match end {
            SeatEnd::Caller(end) => settle_row(&mut self.callers, end),
            SeatEnd::Device(end) => settle_row(&mut self.devices, end),
            SeatEnd::Operator(end) => self.operator.settle(end),
        }
    }
}

fn settle_row<C: Staged, P: Protocol<RingReply>>(
    desks: &mut Vec<Desk<C, P>>,
    end: FinishedSeat<C, P>,
) -> Settled
    requires { IsSeatedIn (seat_of end) desks.old.items }
    ensures settled { IsSettled (map (row_of C.asked_by C.named) desks.old.items) (C.named (seat_number (seat_of end)))
        (map (C.asked_by (seat_number (seat_of end))) (staged (seat_of end))) (collected (seat_of end)) result.left result.uncollected }
    ensures rows { map (row_of C.asked_by C.named) desks.new.items ≡ map (row_of C.asked_by C.named) desks.old.items }
    ensures desks { SameEach desks.old.items desks.new.items }
    ensures len { vec_len desks.new ≡ vec_len desks.old }
{
    let number = usize::from(end.number());
    desks[number].settle(end)
}
