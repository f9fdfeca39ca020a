// The laws of exchanges.
ghost use Rattle.change_record.specs.declared.change.Change.{Change as AnyChange};
ghost use Rattle.change_record.specs.Tables.{Tables};
ghost use Rattle.change_record.specs.Laws.{TurnedTwice, ForthAgain};
ghost use Rattle.std.specs.Prelude.{List};

/// An exchange that is turned twice leaves the tables and the exchange as they were. The body is empty: the contract is
/// the law.
pub fn turned_twice()
    ensures { (t : Tables) (c : AnyChange) → TurnedTwice t c }
{}

/// A list that is turned back and then forth leaves the tables and the list as they were, and so does one that is turned
/// forth and then back. The body is empty: the contract is the law.
pub fn back_leads_forth()
    ensures { (t : Tables) (cs : List AnyChange) → ForthAgain t cs }
{}
