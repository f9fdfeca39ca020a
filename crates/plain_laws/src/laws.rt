// Laws of the keeper, and of the machine of every keeper.
ghost use Rattle.plain_laws.specs.Owed.{UnreapedIsOwed};
ghost use Rattle.plain_laws.specs.Whole.{KeepsWhole, RequestsAreWhole};
ghost use Rattle.plain_laws.specs.Times.{KeepsVtimes};
ghost use Rattle.plain_laws.specs.Undone.{TwoUndosAreOne, RedoGivesBack};
ghost use Rattle.plain.specs.Keeper.{State};
ghost use Rattle.plain.specs.Opening.{Limits};
ghost use Rattle.plain.specs.Machine.{Plain};
ghost use Rattle.plain.specs.declared.call.Call.{Call};
ghost use Rattle.std.specs.Prelude.{ℕ, List};

/// On the machine of every keeper that a journal makes, the counter `unreaped` of a seat is the number of bios that its
/// session has queued, in the dispatch list, in flight, and completed but not yet reaped; so it is while the session leaves.
/// The body is empty: the contract is the law.
pub fn unreaped_is_owed()
    ensures { (l : Limits) (most : ℕ) (journal : List Call) → UnreapedIsOwed l most journal }
{}

/// A step leaves every request with 1 to 32 bios and at most 256 sectors, each bio from where the one before it ends, where
/// all were so before. The body is empty: the contract is the law.
pub fn requests_stay_whole()
    ensures { (l : Limits) (m : Plain) → KeepsWhole l m }
{}

/// So every request is on the machine of every keeper that a journal makes. The body is empty: the contract is the law.
pub fn requests_are_whole()
    ensures { (l : Limits) (most : ℕ) (journal : List Call) → RequestsAreWhole l most journal }
{}

/// B-WF2Q+: virtual time is monotonic. No step but a switch of the scheduler makes a virtual time of a group less that
/// stands before and after it. The body is empty: the contract is the law.
pub fn vtimes_never_fall()
    ensures { (l : Limits) (m : Plain) → KeepsVtimes l m }
{}

/// Two Undos are one: of a keeper that accepts an Undo of `first` steps and then one of `second` steps, an Undo of all
/// of them is accepted, and leaves the same machine, line and cursor. The body is empty: the contract is the law.
pub fn two_undos_are_one(first: u32, second: u32)
    ensures { (k : State) → TwoUndosAreOne k first second }
{}

/// A Redo gives back what an Undo took away: the machine, the line and the cursor are those from before. The body is
/// empty: the contract is the law.
pub fn redo_gives_back(count: u32)
    ensures { (k : State) → RedoGivesBack k count }
{}
