// A host over 64 sectors.
ghost use Rattle.std.specs.Prelude.{IfSome};
ghost use Rattle.host_core.specs.Opening.{IsIdle, AreIdle};
ghost use Rattle.host_core.specs.Settling.{AreCallersOf, AreDevicesOf, IsOperatorOf};

use host_rings::{Caller, Core, DeviceSeat, OperatorSeat, host};
use sector_core::{Config, ConfigDraft};
use std::alloc::Global;

// How many workers it has.
const WORKERS: u8 = 2;

// The usual configuration, but with a history of so many calls; none if so many are no history. This has no clauses, so that nothing
// carries the limits of its numbers.
fn checked(history: u64) -> Option<Config> {
    let mut draft = ConfigDraft::default();
    draft.history_max = history;
    match Config::check(draft) {
        Ok(config) => Some(config),
        Err(_) => None,
    }
}

/// A host and its seats, with a history of so many calls; none if there is no memory for it, or so many are no history.
pub fn opened(
    alloc: Global,
    history: u64,
) -> Option<(Core, Vec<Caller>, Vec<DeviceSeat>, OperatorSeat)>
    ensures idle { IfSome result (λ r. AreIdle r.1.items × AreIdle r.2.items × IsIdle r.3) }
    ensures seated { IfSome result (λ r. AreCallersOf r.0 r.1.items × AreDevicesOf r.0 r.2.items × IsOperatorOf r.0 r.3) }
{
    match host(alloc, checked(history)?, 64, WORKERS) {
        Ok(made) => Some(made),
        Err(_) => None,
    }
}
