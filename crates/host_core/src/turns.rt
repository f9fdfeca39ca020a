// The core of a host, and its turns.
ghost use Rattle.std.specs.Prelude.{◌≡◌, ◌<◌, length, true, false};
ghost use Rattle.host_core.specs.Desks.{rows};
ghost use Rattle.host_core.specs.Visits.{AllReady};
ghost use Rattle.host_core.specs.Names.{AreNamed};
ghost use Rattle.host_core.specs.Keeping.{AreKept, AreShut, AreSingle};

use crate::bell::Bell;
use crate::desks::Desks;
use crate::judges::Judges;
use crate::turn::{TurnReport, Turned, take_turn};
use host_calls::SeatName;
use plain::Call;
use std::alloc::{AllocError, Global};

/// The core of a host: whoever keeps its journal, and the desks of all seats.
pub struct Core<B: Judges> {
    pub(crate) book: B,
    pub(crate) desks: Desks,
    pub(crate) next: usize,
    pub(crate) ended: bool,
    pub(crate) starved: bool,
    pub(crate) bell: Bell,
    ghost kept: { ∥ AreKept (B.pages book) (rows desks) ∥₁ },
    ghost named: { AreNamed (rows desks) },
    ghost ready: { ended ≡ false → AllReady (rows desks) },
    ghost shut: { ended ≡ true → AreShut (rows desks) },
    ghost within: { next < length (rows desks) },
}

// Written out, and not derived: so who drops one, in whatever crate, calls this, and proves no drop of each part anew.
impl<B: Judges + Drop> Drop for Core<B> {
    fn drop(self) {
        let Core {
            book: _,
            desks: _,
            next: _,
            ended: _,
            starved: _,
            bell: _,
        } = self;
    }
}

impl<B: Judges> Core<B> {
    ghost use Rattle.std.specs.Prelude.{None, slice_get};
    ghost use Rattle.std.specs.Option.{option_map};
    ghost use Rattle.host_core.specs.Journal.{shown_entry};
    ghost use Rattle.host_core.specs.Turns.{is_starved, IsTurn, IsLastTurn};
    ghost use Rattle.host_core.specs.Cores.{keeper, pages, seats_of, last_works, has_ended, is_starving, SameSeats};

    /// Visits the seats, from the one after that which was answered last, up to the first that is answered; then it tries one Dispatch.
    /// If the operator asks for the end, every seat hears it, and from then on nothing changes.
    pub fn turn(&mut self, alloc: Global) -> TurnReport
        ensures turn { has_ended self.old ≡ false → has_ended self.new ≡ false
            → (t : IsTurn (last_works self.old) (pages self.old) (seats_of self.old) (pages self.new) (seats_of self.new) result.answered result.dispatched)
            × (is_starving self.new ≡ is_starved t.dispatch.answer) }
        ensures last { has_ended self.old ≡ false → has_ended self.new ≡ true
            → IsLastTurn (pages self.old) (seats_of self.old) (pages self.new) (seats_of self.new) result.answered result.dispatched }
        ensures stays { has_ended self.old ≡ true → (self.new ≡ self.old) × (result.answered ≡ None) × (result.dispatched ≡ false) }
        ensures ended { result.ended ≡ has_ended self.new }
        ensures kept { ∥ AreKept (pages self.new) (seats_of self.new) ∥₁ }
        ensures ready { has_ended self.new ≡ false → AllReady (seats_of self.new) }
        ensures shut { has_ended self.new ≡ true → AreShut (seats_of self.new) }
        ensures desks { SameSeats self.old self.new }
    {
        if self.ended {
            return TurnReport {
                answered: None,
                dispatched: false,
                ended: true,
            };
        }
        let Turned { report, starved } = take_turn(
            alloc,
            &mut self.book,
            &mut self.desks,
            &mut self.next,
        );
        self.ended = report.ended;
        self.starved = starved;
        report
    }

    /// Whoever keeps the journal, to look at. Whenever a core is seen, what was taken at each seat and answered there fits its journal.
    pub fn book(&self) -> &B
        ensures keeper { result.now ≡ keeper self.now }
        ensures kept { ∥ AreKept (pages self.now) (seats_of self.now) ∥₁ }
        ensures single { AreSingle (seats_of self.now) }
        ensures named { AreNamed (seats_of self.now) }
        ensures ready { has_ended self.now ≡ false → AllReady (seats_of self.now) }
        ensures shut { has_ended self.now ≡ true → AreShut (seats_of self.now) }
    {
        &self.book
    }

    /// The bell on which the core sleeps. Who rings it has the core take a turn, and so look at what it watches.
    ///
    /// # Errors
    ///
    /// It is shared too often to count.
    pub fn bell(&self) -> Result<Bell, AllocError> {
        self.bell.shared()
    }

    /// The journal's entry of a number, from 0: whose it is, and the call.
    pub fn entry(&self, at: usize) -> Option<(SeatName, &Call)>
        ensures { option_map shown_entry result ≡ slice_get (pages self.now).entries at }
    {
        self.book.entry(at)
    }
}
