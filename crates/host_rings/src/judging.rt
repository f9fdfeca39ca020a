// A book as the core of a host knows it, and as one who looks does.
ghost use Rattle.host_rings.specs.Watched.{state_of};

use crate::book::Book;
use history::KeeperView;
use host_calls::SeatName;
use host_core::Judges;
use plain::{Answer, Call};
use script_host::Seen;
use std::alloc::Global;

impl Judges for Book {
    ghost pages = { λ book. book };

    fn judge(&mut self, alloc: Global, name: SeatName, call: &Call) -> Answer {
        Book::judge(self, alloc, name, call)
    }

    fn take(&self, lasts: &[Option<u64>], own: u8, worker: u8) -> Answer {
        Book::take(self, lasts, own, worker)
    }

    fn entry(&self, at: usize) -> Option<(SeatName, &Call)> {
        Book::entry(self, at)
    }
}

impl Seen for Book {
    ghost kept = { λ book. state_of book };

    fn look(&self) -> KeeperView<'_> {
        self.view()
    }
}
