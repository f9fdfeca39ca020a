// The hosts under test.
ghost use Rattle.std.specs.Prelude.{IfOk};
ghost use Rattle.host_core.specs.Opening.{IsIdle, AreIdle, ArePaired};
ghost use Rattle.host_core.specs.Settling.{AreCallersOf, AreDevicesOf, IsOperatorOf};

use host_rings::{Caller, Core, DeviceSeat, OperatorSeat, host};
use sector_core::{Config, ConfigDraft};
use std::alloc::Global;
use std::test::Fail;

// The usual configuration. This has no clauses, so that nothing carries the limits of its numbers.
// A match costs a proof less than `?`, which makes a text of the fault.
pub fn usual() -> Result<Config, Fail> {
    match Config::check(ConfigDraft::default()) {
        Ok(config) => Ok(config),
        Err(_) => Err(Fail::from("a configuration within its limits")),
    }
}

// A host of 64 sectors with so many workers, and its seats. Of what it promises stands here what its tests need.
pub fn opened(
    alloc: Global,
    workers: u8,
) -> Result<(Core, Vec<Caller>, Vec<DeviceSeat>, OperatorSeat), Fail>
    ensures idle { IfOk result (λ r. AreIdle r.1.items × AreIdle r.2.items × IsIdle r.3) }
    ensures pairs { IfOk result (λ r. ArePaired workers r.0 r.1.items r.2.items r.3) }
    ensures seated { IfOk result (λ r. AreCallersOf r.0 r.1.items × AreDevicesOf r.0 r.2.items × IsOperatorOf r.0 r.3) }
{
    match host(alloc, usual()?, 64, workers) {
        Ok(made) => Ok(made),
        Err(_) => Err(Fail::from("a host")),
    }
}
