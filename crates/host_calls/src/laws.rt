// Laws of the machine of every keeper, and of its answers.
ghost use Rattle.std.specs.Prelude.{ℕ, List};
ghost use Rattle.plain.specs.Opening.{Limits};
ghost use Rattle.plain.specs.declared.call.Call.{Call};
ghost use Rattle.host_calls.specs.Lengths.{EachBlockIsFull, EachPayloadFits, EachResultFits};
ghost use Rattle.host_calls.specs.Answered.{CallsAreAnswered, ClientsAreAnswered, OperatorIsAnswered};
ghost use Rattle.host_calls.specs.Sessions.{SessionsSitApart, RequestsHaveSeats};
ghost use Rattle.host_calls.specs.Results.{OutboxesHaveResults, ReapsTellResults};
ghost use Rattle.host_calls.specs.Places.{EachBioHasOnePlace};
ghost use Rattle.host_calls.specs.Bounds.{TimesAreBounded, AgesAreBounded, GroupsHaveTheGreatestBudget};

/// On the machine of every keeper that a journal makes, each block of the overlay has 512 bytes. The body is empty: the
/// contract is the law.
pub fn blocks_are_full()
    ensures { (l : Limits) (most : ℕ) (journal : List Call) → EachBlockIsFull l most journal }
{}

/// There each bio that is queued, in the dispatch list or in flight has 1 to 64 sectors, and a payload of 512 bytes for each
/// of them where it is a store, and of none where it is a fetch or a discard. The body is empty: the contract is the law.
pub fn payloads_fit()
    ensures { (l : Limits) (most : ℕ) (journal : List Call) → EachPayloadFits l most journal }
{}

/// There each bio in an outbox has 1 to 64 sectors and a result, and where it was read, 512 bytes for each of them. The body
/// is empty: the contract is the law.
pub fn results_fit()
    ensures { (l : Limits) (most : ℕ) (journal : List Call) → EachResultFits l most journal }
{}

/// Whatever the keeper of a journal is asked, it answers with the reply of that call, where a bio was read with 512 bytes for
/// each of 1 to 64 sectors; or it refuses; or it tells why the call has to wait, which none but a step ever has to. The
/// body is empty: the contract is the law.
pub fn calls_are_answered()
    ensures { (l : Limits) (most : ℕ) (journal : List Call) → CallsAreAnswered l most journal }
{}

/// Whatever a client asks of the keeper of a journal, the answer has a frame of the host: it is a refusal, or that it is not
/// yet time, or Attached, Queued, Completed or Left. The body is empty: the contract is the law.
pub fn clients_are_answered()
    ensures { (l : Limits) (most : ℕ) (journal : List Call) → ClientsAreAnswered l most journal }
{}

/// Whatever the operator asks of the keeper of a journal, the answer has a frame of the host: it is a refusal, or that the
/// host is held, or Group, Done or Moved. The body is empty: the contract is the law.
pub fn operator_is_answered()
    ensures { (l : Limits) (most : ℕ) (journal : List Call) → OperatorIsAnswered l most journal }
{}

/// On the machine of every keeper that a journal makes, sessions sit at the seats 0 to 15 alone, and no two seats have one
/// session. The body is empty: the contract is the law.
pub fn sessions_sit_apart()
    ensures { (l : Limits) (most : ℕ) (journal : List Call) → SessionsSitApart l most journal }
{}

/// There each request that is queued, in the dispatch list or in flight is of a session that sits at exactly one of these
/// seats. The body is empty: the contract is the law.
pub fn requests_have_seats()
    ensures { (l : Limits) (most : ℕ) (journal : List Call) → RequestsHaveSeats l most journal }
{}

/// There each bio in an outbox has a result, and no bio that is queued, in the dispatch list or in flight has one. The
/// body is empty: the contract is the law.
pub fn outboxes_have_results()
    ensures { (l : Limits) (most : ℕ) (journal : List Call) → OutboxesHaveResults l most journal }
{}

/// Whatever a client reaps from the keeper of a journal, it is told the serial and the result of the first bio in its outbox.
/// The body is empty: the contract is the law.
pub fn reaps_tell_results()
    ensures { (l : Limits) (most : ℕ) (journal : List Call) → ReapsTellResults l most journal }
{}

/// On the machine of every keeper that a journal makes, no bio stands in two places, be it in a queue, in the dispatch
/// list, in flight or in an outbox, and nothing stands at a seat or under a tag that there is not. The body is empty: the
/// contract is the law.
pub fn bios_have_one_place()
    ensures { (l : Limits) (most : ℕ) (journal : List Call) → EachBioHasOnePlace l most journal }
{}

/// On the machine of every keeper that a journal makes, no virtual time, no start and no finish is above 2^62, where the
/// first virtual time is not. The body is empty: the contract is the law.
pub fn times_are_bounded()
    ensures { (l : Limits) (most : ℕ) (journal : List Call) → TimesAreBounded l most journal }
{}

/// There the queue in service, if one is, is that of a seat, and has been in service for no more ticks than the last serial
/// that the keeper gave. The body is empty: the contract is the law.
pub fn ages_are_bounded()
    ensures { (l : Limits) (most : ℕ) (journal : List Call) → AgesAreBounded l most journal }
{}

/// There each group has the greatest budget. The body is empty: the contract is the law.
pub fn groups_have_the_greatest_budget()
    ensures { (l : Limits) (most : ℕ) (journal : List Call) → GroupsHaveTheGreatestBudget l most journal }
{}
