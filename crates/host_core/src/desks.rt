// All desks of a core.
ghost use Rattle.std.specs.Prelude.{◌≤◌, vec_len};

use crate::desk::Desk;
use crate::seat_rules::{ClientReplies, OperatorReplies};
use host_calls::{ClientCall, OperatorCall};
use plain::DeviceCall;
use rtrb::AnyItems;

/// The desks of a core: at most 16 clients', at most 4 devices', and the operator's.
pub struct Desks {
    pub(crate) callers: Vec<Desk<ClientCall, ClientReplies>>,
    pub(crate) devices: Vec<Desk<DeviceCall, AnyItems>>,
    pub(crate) operator: Desk<OperatorCall, OperatorReplies>,
    ghost callers_few: { vec_len callers ≤ 16 },
    ghost devices_few: { vec_len devices ≤ 4 },
}

// Written out, and not derived: so who drops one, in whatever crate, calls this, and proves no drop of each part anew.
impl Drop for Desks {
    fn drop(self) {
        let Desks {
            callers: _,
            devices: _,
            operator: _,
        } = self;
    }
}
