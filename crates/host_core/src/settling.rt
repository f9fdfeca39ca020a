// A core and a seat that have ended their work.
ghost use Rattle.std.specs.Prelude.{◌≡◌, IfOk, IsOk};
ghost use Rattle.host_core.specs.RowSettling.{name_of, staged_calls, collected_replies, IsSettled};
ghost use Rattle.host_core.specs.Cores.{keeper, pages, seats_of, has_ended, SameSeats};
ghost use Rattle.host_core.specs.Settling.{core_of, AreOfOneHost, IsFirst};

use crate::judges::Judges;
use crate::row_settling::SeatEnd;
use crate::seat_settling::Settled;
use crate::turns::Core;
use thiserror::Error;

/// A core that has ended its work: it takes no turn any more.
#[derive(Drop)]
pub struct CoreEnd<B: Judges> {
    pub(crate) core: Core<B>,
}

/// What is left of a seat could not be told. It never comes, since both ends are at hand.
#[derive(Clone, Copy, Debug, Error)]
#[error("what is left of the seat is not known")]
pub struct NotSettled;

impl<B: Judges> Core<B> {
    /// Ends its work.
    pub fn finish(self) -> CoreEnd<B>
        ensures { core_of result ≡ self }
    {
        CoreEnd { core: self }
    }
}

impl<B: Judges> CoreEnd<B> {
    /// The core, to look at.
    pub fn core(&self) -> &Core<B>
        ensures { result.now ≡ core_of self.now }
    {
        &self.core
    }
}

/// Settles a seat with the core of its host, both on one thread: how many calls it staged that were not taken, and how many replies it
/// did not collect. The core's end may settle its other seats after that.
///
/// # Errors
///
/// There are none.
pub fn settle<B: Judges>(end: SeatEnd, core: &mut CoreEnd<B>) -> Result<Settled, NotSettled>
    requires { AreOfOneHost end (core_of core.old) }
    ensures settles { IsOk result }
    ensures settled { IfOk result (λ s. IsSettled (seats_of (core_of core.old)) (name_of end) (staged_calls end) (collected_replies end)
        s.left s.uncollected) }
    ensures first { ∥ IsFirst (pages (core_of core.new)) (core_of core.new) end ∥₁ }
    ensures keeper { keeper (core_of core.new) ≡ keeper (core_of core.old) }
    ensures rows { seats_of (core_of core.new) ≡ seats_of (core_of core.old) }
    ensures ended { has_ended (core_of core.new) ≡ has_ended (core_of core.old) }
    ensures seats { SameSeats (core_of core.old) (core_of core.new) }
{
    Ok(core.core.desks.settle(end))
}
