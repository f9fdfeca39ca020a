// What a core asks of whoever keeps its journal.
ghost use Rattle.std.specs.Prelude.{◌≡◌, slice_get};
ghost use Rattle.std.specs.Option.{option_map};
ghost use Rattle.plain.specs.Headline.{replay};
ghost use Rattle.host_core.specs.Journal.{Pages, Allows, calls_of, entered_by, shown_entry};
ghost use Rattle.host_core.specs.Takes.{TakeRule};

use host_calls::SeatName;
use plain::{Answer, Call};
use std::alloc::Global;

/// Whoever keeps a core's journal, and answers by it.
pub trait Judges {
    /// What it was made for, and the journal.
    ghost pages: { Self → Pages };

    /// Answers a call of a seat. If it is accepted it is the journal's next entry, under that name.
    fn judge(&mut self, alloc: Global, name: SeatName, call: &Call) -> Answer
        ensures allows { Allows (pages self.old).limits (pages self.old).most (calls_of (pages self.old).entries) call.now result }
        ensures entries { (pages self.new).entries ≡ entered_by (pages self.old).entries name call.now result }
        ensures limits { (pages self.new).limits ≡ (pages self.old).limits }
        ensures most { (pages self.new).most ≡ (pages self.old).most };

    /// What the device of number `own` is answered to a Take, in which it says that its number is `worker`. `lasts` has the issue that
    /// each device took last, by its number.
    fn take(&self, lasts: &[Option<u64>], own: u8, worker: u8) -> Answer
        ensures { TakeRule (replay (pages self.now).limits (pages self.now).most (calls_of (pages self.now).entries)) own worker lasts.now result };

    /// The entry of a number, from 0: whose it is, and the call.
    fn entry(&self, at: usize) -> Option<(SeatName, &Call)>
        ensures { option_map shown_entry result ≡ slice_get (pages self.now).entries at };
}
