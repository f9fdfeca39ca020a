// The desks of a core and the seats of its clients, devices and operator, made together.
ghost use Rattle.std.specs.Prelude.{◌≤◌, IfOk};
ghost use Rattle.host_core.specs.RowOpening.{AreFresh};

use crate::bell::Bell;
use crate::desk::Desk;
use crate::desks::Desks;
use crate::seat::Seat;
use crate::seat_opening::open_seat;
use crate::seat_rules::{ClientReplies, OperatorReplies};
use host_calls::{ClientCall, OperatorCall, RingReply};
use plain::DeviceCall;
use rtrb::{AnyItems, Protocol};
use std::alloc::{AllocError, Global};

/// The seats of a host, on the side of who asks.
#[derive(Drop)]
pub struct Seats {
    /// The clients' seats, by their numbers.
    pub callers: Vec<Seat<ClientCall, ClientReplies>>,
    /// The devices' seats, by their numbers.
    pub devices: Vec<Seat<DeviceCall, AnyItems>>,
    /// The operator's seat.
    pub operator: Seat<OperatorCall, OperatorReplies>,
}

impl Desks {
    ghost use Rattle.host_core.specs.Desks.{rows};
    ghost use Rattle.host_core.specs.Opened.{AreOpened, ArePairs};

    /// Makes the seats of so many clients and devices and of the operator, and their desks. Each seat rings the core's bell. Who sits
    /// there looks so often for a reply before it sleeps: at a client's seat or the operator's, and at a device's.
    ///
    /// # Errors
    ///
    /// A growth was refused.
    pub fn open(
        alloc: Global,
        core: &Bell,
        callers: u8,
        devices: u8,
        looks: u32,
        device_looks: u32,
    ) -> Result<(Desks, Seats), AllocError>
        requires callers { callers ≤ 16 }
        requires devices { devices ≤ 4 }
        ensures rows { IfOk result (λ r. AreOpened callers devices (rows r.0)) }
        ensures pairs { IfOk result (λ r. ArePairs callers devices r.0 r.1) }
    {
        let (caller_seats, caller_desks) = open_row(alloc, core, callers, looks)?;
        let (device_seats, device_desks) = open_row(alloc, core, devices, device_looks)?;
        let (operator_seat, operator_desk) = open_seat(alloc, core, 0, looks)?;
        let desks = Desks {
            callers: caller_desks,
            devices: device_desks,
            operator: operator_desk,
        };
        let seats = Seats {
            callers: caller_seats,
            devices: device_seats,
            operator: operator_seat,
        };
        Ok((desks, seats))
    }
}

// The seats of one kind, and their desks, by their numbers.
fn open_row<C: Drop, P: Protocol<RingReply>>(
    alloc: Global,
    core: &Bell,
    count: u8,
    looks: u32,
) -> Result<(Vec<Seat<C, P>>, Vec<Desk<C, P>>), AllocError>
    ensures { IfOk result (λ r. AreFresh count r.0.items r.1.items) }
{
    let mut seats = Vec::new(alloc);
    let mut desks = Vec::new(alloc);
    for number in 0..count {
        let (seat, desk) = open_seat(alloc, core, number, looks)?;
        seats.push(seat)?;
        desks.push(desk)?;
    }
    Ok((seats, desks))
}
