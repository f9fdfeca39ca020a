// The steps of the lines that begin or end a session, give a request back, and stop, switch or age what runs.
ghost use Rattle.std.specs.Prelude.{◌≡◌};

use plain::{Step, Why};
use sector_core::{Class, Scheduler};

/// The step of an `attach` line.
pub fn attach(seat: u8, group: u8, prio: u8, class: Class) -> Step
    ensures { result ≡ Step.Attach seat group prio class }
{
    Step::Attach {
        seat,
        group,
        prio,
        class,
    }
}

/// The step of a `leave` line: the client has said so.
pub fn leave(seat: u8) -> Step
    ensures { result ≡ Step.Leave seat Why.Ended }
{
    Step::Leave {
        seat,
        why: Why::Ended,
    }
}

/// The step of a `requeue` line.
pub fn requeue(tag: u8, issue: u64) -> Step
    ensures { result ≡ Step.Requeue tag issue }
{
    Step::Requeue { tag, issue }
}

/// The step of a `freeze` line.
pub fn freeze() -> Step
    ensures { result ≡ Step.Freeze }
{
    Step::Freeze
}

/// The step of a `thaw` line.
pub fn thaw() -> Step
    ensures { result ≡ Step.Thaw }
{
    Step::Thaw
}

/// The step of a `switch` line.
pub fn switch(scheduler: Scheduler) -> Step
    ensures { result ≡ Step.Switch scheduler }
{
    Step::Switch { scheduler }
}

/// The step of a `tick` line.
pub fn tick() -> Step
    ensures { result ≡ Step.Tick }
{
    Step::Tick
}
