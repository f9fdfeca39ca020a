// A core and its seats, made together.
ghost use Rattle.std.specs.Prelude.{◌≡◌, ◌≤◌, [], IfOk, false};
ghost use Rattle.host_core.specs.Opened.{AreOpened};
ghost use Rattle.host_core.specs.Cores.{keeper, seats_of, has_ended};
ghost use Rattle.host_core.specs.Opening.{ArePaired, IsIdle, AreIdle};
ghost use Rattle.host_core.specs.Settling.{AreCallersOf, AreDevicesOf, IsOperatorOf};

use crate::bell::Bell;
use crate::desks::Desks;
use crate::judges::Judges;
use crate::patience::{DEVICE_LOOKS, LOOKS};
use crate::seat::Seat;
use crate::seat_rules::{ClientReplies, OperatorReplies};
use crate::turns::Core;
use host_calls::{ClientCall, OperatorCall};
use plain::DeviceCall;
use rtrb::AnyItems;
use std::alloc::{AllocError, Global};

/// A client's seat.
pub type Caller = Seat<ClientCall, ClientReplies>;

/// A device's seat.
pub type DeviceSeat = Seat<DeviceCall, AnyItems>;

/// The operator's seat.
pub type OperatorSeat = Seat<OperatorCall, OperatorReplies>;

// How many clients a host has.
const CALLERS: u8 = 16;

/// Makes a core over a journal without entries, the seats of 16 clients, one of each of `workers` devices, and the operator's. Nothing
/// has come to them.
///
/// # Errors
///
/// There is no memory for the seats.
pub fn open_core<B: Judges + Drop>(
    alloc: Global,
    book: B,
    workers: u8,
) -> Result<(Core<B>, Vec<Caller>, Vec<DeviceSeat>, OperatorSeat), AllocError>
    requires entries { (B.pages book).entries ≡ [] }
    requires workers { workers ≤ 4 }
    ensures seats { IfOk result (λ r. AreOpened 16 workers (seats_of r.0)) }
    ensures journal { IfOk result (λ r. (keeper r.0 ≡ book) × (has_ended r.0 ≡ false)) }
    ensures idle { IfOk result (λ r. AreIdle r.1.items × AreIdle r.2.items × IsIdle r.3) }
    ensures pairs { IfOk result (λ r. ArePaired workers r.0 r.1.items r.2.items r.3) }
    ensures seated { IfOk result (λ r. AreCallersOf r.0 r.1.items × AreDevicesOf r.0 r.2.items × IsOperatorOf r.0 r.3) }
{
    let bell = Bell::new(alloc)?;
    let (desks, seats) = Desks::open(alloc, &bell, CALLERS, workers, LOOKS, DEVICE_LOOKS)?;
    let core = Core {
        book,
        desks,
        next: 0,
        ended: false,
        starved: false,
        bell,
    };
    Ok((core, seats.callers, seats.devices, seats.operator))
}
