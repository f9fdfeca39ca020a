// The seats of all kinds in one row.

use crate::desks::Desks;
use crate::judges::Judges;
use crate::row::visit_row;
use crate::visit::{Came, visit_seat};
use arrayvec::ArrayVec;
use host_calls::{clients_are_answered, operator_is_answered};
use std::alloc::Global;

impl Desks {
    ghost use Rattle.std.specs.Prelude.{◌≡◌, ◌<◌, length};
    ghost use Rattle.host_core.specs.Desks.{rows, lasts};
    ghost use Rattle.host_core.specs.Same.{SameDesks};
    ghost use Rattle.host_core.specs.Visits.{AllReady, Changes};
    ghost use Rattle.host_core.specs.Visited.{VisitsSeat};

    /// How many seats there are.
    pub fn len(&self) -> usize
        ensures { result ≡ length (rows self.now) }
    {
        self.callers.len() + self.devices.len() + 1
    }

    /// The issue that each device took last, by its number.
    pub fn lasts(&self) -> ArrayVec<Option<u64>, 4>
        ensures { result.items ≡ lasts self.now }
    {
        let mut lasts = ArrayVec::new();
        for number in 0..self.devices.len() {
            lasts.push(self.devices[number].last());
        }
        lasts
    }

    /// Visits the seat at a place: it tries the call that waits there, or else the next one, and answers it if it is not to wait. The
    /// clients stand first, then the devices, then the operator. `lasts` has the issue that each device took last, by its number.
    pub fn visit<B: Judges>(
        &mut self,
        alloc: Global,
        book: &mut B,
        lasts: &[Option<u64>],
        place: usize,
    ) -> Option<Came>
        requires ready { AllReady (rows self.old) }
        requires within { place < length (rows self.old) }
        ensures visited { Changes place (λ r s. VisitsSeat result lasts.now (B.pages book.old) r (B.pages book.new) s) (rows self.old) (rows self.new) }
        ensures desks { SameDesks self.old self.new }
    {
        // What the core answers has a frame: laws of the machine of every keeper, which change nothing.
        clients_are_answered();
        operator_is_answered();
        let callers = self.callers.len();
        if place < callers {
            return visit_row(alloc, book, &mut self.callers, place, lasts);
        }
        let number = place - callers;
        if number < self.devices.len() {
            return visit_row(alloc, book, &mut self.devices, number, lasts);
        }
        visit_seat(alloc, book, &mut self.operator, lasts)
    }
}
