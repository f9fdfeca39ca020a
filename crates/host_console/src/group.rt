// The steps of the lines about groups.
ghost use Rattle.std.specs.Prelude.{◌≡◌};

use plain::Step;

/// The step of a `group` line.
pub fn make(parent: u8, weight: u16) -> Step
    ensures { result ≡ Step.GroupMake parent weight }
{
    Step::GroupMake { parent, weight }
}

/// The step of a `drop` line.
pub fn unmake(group: u8) -> Step
    ensures { result ≡ Step.GroupDrop group }
{
    Step::GroupDrop { group }
}

/// The step of a `weight` line.
pub fn weigh(group: u8, weight: u16) -> Step
    ensures { result ≡ Step.SetWeight group weight }
{
    Step::SetWeight { group, weight }
}
