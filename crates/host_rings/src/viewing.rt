// What is seen of the core of a host.
ghost use Rattle.std.specs.Prelude.{◌≡◌, true, false};
ghost use Rattle.plain.specs.Headline.{replay};
ghost use Rattle.host_core.specs.Journal.{calls_of};
ghost use Rattle.host_core.specs.Visits.{AllReady};
ghost use Rattle.host_core.specs.Cores.{pages, seats_of, has_ended};
ghost use Rattle.host_core.specs.Names.{AreNamed};
ghost use Rattle.host_core.specs.Keeping.{AreKept, AreShut, AreSingle};

use crate::opening::Core;
use history::KeeperView;

/// What can be seen of the keeper. It is what comes of the entries' calls, one after the other, and each of these is accepted. Whenever
/// a core is seen, what was taken at each seat and answered there fits its journal.
pub fn view(core: &Core) -> KeeperView<'_>
    ensures state { result.state ≡ replay (pages core.now).limits (pages core.now).most (calls_of (pages core.now).entries) }
    ensures journal { result.state.journal ≡ calls_of (pages core.now).entries }
    ensures kept { ∥ AreKept (pages core.now) (seats_of core.now) ∥₁ }
    ensures single { AreSingle (seats_of core.now) }
    ensures named { AreNamed (seats_of core.now) }
    ensures ready { has_ended core.now ≡ false → AllReady (seats_of core.now) }
    ensures shut { has_ended core.now ≡ true → AreShut (seats_of core.now) }
{
    core.book().view()
}
