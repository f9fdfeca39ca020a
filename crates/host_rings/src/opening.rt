// A host: a core over the keeper of a new machine, and its seats.
ghost use Rattle.std.specs.Prelude.{◌≡◌, ◌<◌, ◌^◌, [], IfOk, IfErr, false};
ghost use Rattle.dispatch_core.specs.Running.{sizes_of};
ghost use Rattle.plain.specs.Step.{of_sizes};
ghost use Rattle.host_core.specs.Opened.{AreOpened};
ghost use Rattle.host_core.specs.Cores.{pages, seats_of, has_ended};
ghost use Rattle.host_core.specs.Opening.{ArePaired, IsIdle, AreIdle};
ghost use Rattle.host_core.specs.Settling.{AreCallersOf, AreDevicesOf, IsOperatorOf};
ghost use Rattle.host_rings.specs.Workers.{are_bad_workers, is_bad_workers};

use crate::book::Book;
use host_core::{Caller, DeviceSeat, OperatorSeat, open_core};
use sector_core::Config;
use std::alloc::Global;
use thiserror::Error;

/// The core of a host: its machine with the journal, and the desks of all seats.
pub type Core = host_core::Core<Book>;

/// A core that has ended its work.
pub type CoreEnd = host_core::CoreEnd<Book>;

// How many workers a host may have at most.
const MOST_WORKERS: u8 = 4;

/// Why there is no host.
#[derive(Clone, Copy, Debug, PartialEq, Eq, Error)]
pub enum HostFault {
    /// There are no workers, or more than 4.
    #[error("a host has 1 to 4 workers")]
    BadWorkers,
    /// There is no memory for it.
    #[error("no memory")]
    OutOfMemory,
}

/// Makes a host over an image of `sectors` sectors: its core, the seats of 16 clients, one of each of `workers` devices, and the
/// operator's. Nothing has come to them.
///
/// # Errors
///
/// There are no workers, or more than 4; or there is no memory for the host.
pub fn host(
    alloc: Global,
    config: Config,
    sectors: u64,
    workers: u8,
) -> Result<(Core, Vec<Caller>, Vec<DeviceSeat>, OperatorSeat), HostFault>
    requires { sectors < 2 ^ 55 }
    ensures workers { IfErr result (λ why. is_bad_workers why ≡ are_bad_workers workers) }
    ensures few { IfOk result (λ r. are_bad_workers workers ≡ false) }
    ensures seats { IfOk result (λ r. AreOpened 16 workers (seats_of r.0)) }
    ensures journal { IfOk result (λ r. ((pages r.0).entries ≡ []) × ((pages r.0).limits ≡ of_sizes (sizes_of config sectors))
        × ((pages r.0).most ≡ config.history_max) × (has_ended r.0 ≡ false)) }
    ensures idle { IfOk result (λ r. AreIdle r.1.items × AreIdle r.2.items × IsIdle r.3) }
    ensures pairs { IfOk result (λ r. ArePaired workers r.0 r.1.items r.2.items r.3) }
    ensures seated { IfOk result (λ r. AreCallersOf r.0 r.1.items × AreDevicesOf r.0 r.2.items × IsOperatorOf r.0 r.3) }
{
    if workers == 0 || workers > MOST_WORKERS {
        return Err(HostFault::BadWorkers);
    }
    let Ok(book) = Book::new(alloc, config, sectors) else {
        return Err(HostFault::OutOfMemory);
    };
    match open_core(alloc, book, workers) {
        Ok(made) => Ok(made),
        Err(_) => Err(HostFault::OutOfMemory),
    }
}
