// The core at work: it takes turns until it has ended, and sleeps while there is nothing to do.

use crate::judges::Judges;
use crate::patience::{IDLE_TURNS, Patience};
use crate::turns::Core;
use std::alloc::Global;
use std::sync::Wait;
use std::thread;

impl<B: Judges> Core<B> {
    ghost use Rattle.std.specs.Prelude.{◌≡◌, ℕ, true};
    ghost use Rattle.host_core.specs.Cores.{pages, seats_of, has_ended, SameSeats};
    ghost use Rattle.host_core.specs.Keeping.{AreKept, AreShut};
    ghost use Rattle.host_core.specs.Running.{AreTurns};

    /// Takes turns until the operator has asked for the end. If a turn answered nobody and dispatched nothing, nothing changes until a
    /// seat rings; so after some of them the core sleeps. If a Dispatch found no memory, it tries again instead.
    pub fn run<R: Wait>(&mut self, rt: &R, alloc: Global)
        ensures turns { (n : ℕ) × AreTurns n self.old self.new }
        ensures ended { has_ended self.new ≡ true }
        ensures kept { ∥ AreKept (pages self.new) (seats_of self.new) ∥₁ }
        ensures shut { AreShut (seats_of self.new) }
        ensures desks { SameSeats self.old self.new }
    {
        self.run_watched(rt, alloc, |_, _| {})
    }

    /// The same, and shows whoever keeps the journal after each turn. It says if the core is about to sleep: then nothing changes until a
    /// bell rings.
    pub fn run_watched<R: Wait, W: FnMut(&B, bool)>(&mut self, rt: &R, alloc: Global, mut watch: W)
        requires { W.IsAlwaysCallable watch }
        ensures turns { (n : ℕ) × AreTurns n self.old self.new }
        ensures ended { has_ended self.new ≡ true }
        ensures kept { ∥ AreKept (pages self.new) (seats_of self.new) ∥₁ }
        ensures shut { AreShut (seats_of self.new) }
        ensures desks { SameSeats self.old self.new }
    {
        let mut patience = Patience::new(IDLE_TURNS);
        for _ in rt.forever() {
            let report = self.turn(alloc);
            let did_nothing = !report.ended && report.answered.is_none() && !report.dispatched;
            let is_idle = did_nothing && !self.starved;
            watch(&self.book, is_idle && patience.is_over());
            if report.ended {
                return;
            }
            if is_idle {
                patience.rest(rt, &self.bell);
            } else if did_nothing {
                // No bell tells when there is memory again.
                thread::yield_now();
            } else {
                patience.found();
            }
        }
        unreachable!()
    }
}
