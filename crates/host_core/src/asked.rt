// What is asked at the seats of each kind.
ghost use Rattle.std.specs.Prelude.{◌≡◌, ℕ};
ghost use Rattle.host_calls.specs.declared.seat.SeatName.{SeatName as SeatNames};
ghost use Rattle.host_calls.specs.declared.seat.SeatName.TheVariants as name;
ghost use Rattle.host_core.specs.Asked.{client_asked, device_asked, operator_asked};
ghost use Rattle.host_core.specs.AskedLaws.{client_asks, device_asks, operator_asks};
ghost use Rattle.host_core.specs.Kinds.{IsOfKind};
ghost use Rattle.host_core.specs.declared.asked.Asked.{Asked as Askings};

use host_calls::{ClientCall, OperatorCall, SeatName};
use plain::{Call, DeviceCall, Step};

/// What a seat asks of the core, with its number put in.
#[derive(Drop)]
pub enum Asked {
    /// A call of the keeper.
    Ask(Call),
    /// Work for the device of this number.
    Take {
        /// The number that the device gave.
        worker: u8,
    },
    /// The end of the core.
    Stop,
}

/// What is staged at the seats of one kind.
pub trait Staged: Drop {
    /// The call, with the number of its seat put in.
    ghost asked_by: { ℕ → Self → Askings };

    /// Whose the seat of a number is.
    ghost named: { ℕ → SeatNames };

    /// The call, with the number of its seat put in.
    fn asked(self, seat: u8) -> Asked
        ensures { result ≡ asked_by seat self };

    /// Whose the seat of this number is.
    fn name(seat: u8) -> SeatName
        ensures { result ≡ named seat };

    /// It is a call for seats of such a name. So only the operator ends the core, and only a device takes work.
    ghost asks: { (seat : ℕ) (call : Self) → IsOfKind (named seat) (asked_by seat call) };
}

impl Staged for ClientCall {
    ghost asked_by = { client_asked };

    ghost named = { name.Client };

    fn asked(self, seat: u8) -> Asked {
        asked_by_client(self, seat)
    }

    fn name(seat: u8) -> SeatName {
        SeatName::Client(seat)
    }

    ghost asks = { client_asks };
}

impl Staged for DeviceCall {
    ghost asked_by = { device_asked };

    ghost named = { name.Device };

    fn asked(self, _seat: u8) -> Asked {
        asked_by_device(self)
    }

    fn name(seat: u8) -> SeatName {
        device_of(seat)
    }

    ghost asks = { device_asks };
}

impl Staged for OperatorCall {
    ghost asked_by = { operator_asked };

    ghost named = { λ _. name.Operator };

    fn asked(self, _seat: u8) -> Asked {
        asked_by_operator(self)
    }

    fn name(_seat: u8) -> SeatName {
        SeatName::Operator
    }

    ghost asks = { operator_asks };
}

fn asked_by_client(call: ClientCall, seat: u8) -> Asked
    ensures { result ≡ client_asked seat call }
{
    Asked::Ask(call.of_seat(seat))
}

// A device says its number itself, whatever its seat's is.
fn asked_by_device(call: DeviceCall) -> Asked
    ensures { (seat : ℕ) → result ≡ device_asked seat call }
{
    match call {
        DeviceCall::Take { worker } => Asked::Take { worker },
        DeviceCall::Finish {
            tag,
            issue,
            outcome,
        } => Asked::Ask(Call::Do(Step::Finish {
            tag,
            issue,
            outcome,
        })),
        DeviceCall::Requeue { tag, issue } => Asked::Ask(Call::Do(Step::Requeue { tag, issue })),
    }
}

fn device_of(seat: u8) -> SeatName
    ensures { result ≡ name.Device seat }
{
    SeatName::Device(seat)
}

fn asked_by_operator(call: OperatorCall) -> Asked
    ensures { (seat : ℕ) → result ≡ operator_asked seat call }
{
    match call.into_call() {
        Some(call) => Asked::Ask(call),
        None => Asked::Stop,
    }
}
