// The keeper and the names of its journal's entries.
ghost use Rattle.std.specs.Prelude.{◌≡◌, ◌<◌, ◌^◌, [], IfOk, slice_get};
ghost use Rattle.std.specs.Option.{option_map};
ghost use Rattle.plain.specs.Step.{of_sizes};
ghost use Rattle.dispatch_core.specs.Running.{sizes_of};
ghost use Rattle.plain.specs.Headline.{replay};
ghost use Rattle.host_core.specs.Journal.{Allows, calls_of, entered_by, shown_entry};

use change_record::push_within;
use history::{Keeper, KeeperView};
use host_calls::SeatName;
use plain::{Answer, Call};
use sector_core::{Config, OutOfMemory};
use std::alloc::Global;
use std::marker::Model;

/// A keeper, and the name of each entry of its journal.
#[derive(Drop)]
pub struct Book {
    keeper: Keeper,
    names: Vec<SeatName>,
}

impl Model for Book {
    ghost use Rattle.std.specs.Prelude.{vec_len, vec_capacity};
    ghost use Rattle.host_core.specs.Journal.{Pages};
    ghost use Rattle.host_rings.specs.Names.{IsBook, entries};

    ghost Value = { Pages };

    ghost view = { λ b. record {
      limits = b.keeper.state.limits;
      most = b.keeper.state.most;
      entries = entries b.names.items b.keeper.state.journal;
    } };

    ghost invariant = { λ b. IsBook b.keeper.state b.names.items (vec_len b.names) (vec_capacity b.names) };
}

impl Book {
    /// A keeper before its first call, with room for the names of all calls that its history holds, over an image of `sectors`
    /// sectors.
    ///
    /// # Errors
    ///
    /// There is no memory for its machine or for the names.
    pub fn new(alloc: Global, config: Config, sectors: u64) -> Result<Book, OutOfMemory>
        requires { sectors < 2 ^ 55 }
        ensures limits { IfOk result (λ b. b.limits ≡ of_sizes (sizes_of config sectors)) }
        ensures most { IfOk result (λ b. b.most ≡ config.history_max) }
        ensures entries { IfOk result (λ b. b.entries ≡ []) }
    {
        let keeper = Keeper::new(alloc, config, sectors)?;
        let _replayed = keeper.journal_len();
        let names = Vec::with_capacity(alloc, config.history_max as usize)?;
        Ok(Book { keeper, names })
    }

    /// Answers a call of a seat. If it is accepted it is the journal's next entry, under that name.
    pub fn judge(&mut self, alloc: Global, name: SeatName, call: &Call) -> Answer
        ensures allows { Allows self.old.limits self.old.most (calls_of self.old.entries) call.now result }
        ensures entries { self.new.entries ≡ entered_by self.old.entries name call.now result }
        ensures limits { self.new.limits ≡ self.old.limits }
        ensures most { self.new.most ≡ self.old.most }
    {
        let answer = self.keeper.call(alloc, call);
        let _replayed = self.keeper.journal_len();
        match &answer {
            Answer::Accepted(_) => push_within(&mut self.names, name),
            Answer::Refused(_) => {}
            Answer::NotYet(_) => {}
        }
        answer
    }

    /// What can be seen of the keeper. It is what comes of the entries' calls, one after the other.
    pub fn view(&self) -> KeeperView<'_>
        ensures state { result.state ≡ replay self.now.limits self.now.most (calls_of self.now.entries) }
        ensures limits { result.state.limits ≡ self.now.limits }
        ensures journal { result.state.journal ≡ calls_of self.now.entries }
    {
        let _replayed = self.keeper.journal_len();
        self.keeper.view()
    }

    /// The keeper alone.
    pub fn into_keeper(self) -> Keeper
        ensures { result.state ≡ replay self.limits self.most (calls_of self.entries) }
    {
        let _replayed = self.keeper.journal_len();
        self.keeper
    }

    /// The entry of a number, from 0: whose it is, and the call.
    pub fn entry(&self, at: usize) -> Option<(SeatName, &Call)>
        ensures { option_map shown_entry result ≡ slice_get self.now.entries at }
    {
        let Some(call) = self.keeper.entry(at) else {
            return None;
        };
        Some((self.names[at], call))
    }
}
