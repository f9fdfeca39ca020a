// The seats of a host, given out from the last.
ghost use Rattle.std.specs.Prelude.{◌≡◌, ◌++◌, [], IfSome, IsNone};
ghost use Rattle.std.specs.Option.{option_to_list};
ghost use Rattle.host_core.specs.Opening.{IsIdle, AreIdle};

use host_core::{Caller, DeviceSeat};

/// The last client's seat, to which nothing has come.
pub fn last_caller(callers: &mut Vec<Caller>) -> Option<Caller>
    requires { AreIdle callers.old.items }
    ensures rest { AreIdle callers.new.items }
    ensures last { callers.old.items ≡ callers.new.items ++ option_to_list result }
    ensures found { IsNone result → callers.old.items ≡ [] }
    ensures seat { IfSome result (λ s. IsIdle s) }
{
    callers.pop()
}

/// The last device's seat, to which nothing has come.
pub fn last_device(devices: &mut Vec<DeviceSeat>) -> Option<DeviceSeat>
    requires { AreIdle devices.old.items }
    ensures rest { AreIdle devices.new.items }
    ensures last { devices.old.items ≡ devices.new.items ++ option_to_list result }
    ensures found { IsNone result → devices.old.items ≡ [] }
    ensures seat { IfSome result (λ s. IsIdle s) }
{
    devices.pop()
}
