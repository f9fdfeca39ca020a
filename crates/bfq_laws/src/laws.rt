// Laws of BFQ on the machine of every keeper.
ghost use Rattle.bfq_laws.specs.Busy.{BusySessionsWaitOrAreServed};
ghost use Rattle.bfq_laws.specs.Found.{EachDispatchFindsARequest};
ghost use Rattle.bfq_laws.specs.Budgets.{BudgetsAreEnough, ServiceIsWithinBudget};
ghost use Rattle.bfq_laws.specs.Weights.{WeightsArePositive};
ghost use Rattle.bfq_laws.specs.Sums.{SumsArePositive};
ghost use Rattle.bfq_laws.specs.Members.{EntitiesAreMembers};
ghost use Rattle.bfq_laws.specs.Queues.{QueuesAreOfTheirSessions};
ghost use Rattle.bfq_laws.specs.Served.{ThePathIsServed};
ghost use Rattle.bfq_laws.specs.Seats.{TakenSeatsAreInGroups};
ghost use Rattle.bfq_laws.specs.Order.{ClassesAreInOrder};
ghost use Rattle.plain.specs.Opening.{Limits};
ghost use Rattle.plain.specs.declared.call.Call.{Call};
ghost use Rattle.std.specs.Prelude.{ℕ, List};

/// On the machine of every keeper that a journal makes, each entity has a budget of 256 sectors or more, where the first
/// budget and the greatest one are so. The body is empty: the contract is the law.
pub fn budgets_are_enough()
    ensures { (l : Limits) (most : ℕ) (journal : List Call) → BudgetsAreEnough l most journal }
{}

/// There the queue in service, if one is, is that of a seat that is taken, and it has been sent no more sectors than its
/// budget. The body is empty: the contract is the law.
pub fn service_is_within_budget()
    ensures { (l : Limits) (most : ℕ) (journal : List Call) → ServiceIsWithinBudget l most journal }
{}

/// B-WF2Q+: the entity of a session waits or is served exactly where, under BFQ, its queue is not empty, on the machine
/// of every keeper that a journal makes; and the queue in service, if one is, is not empty. The body is empty: the
/// contract is the law.
pub fn busy_sessions_wait_or_are_served()
    ensures { (l : Limits) (most : ℕ) (journal : List Call) → BusySessionsWaitOrAreServed l most journal }
{}

/// There, under BFQ, where a queue is not empty, a dispatch finds a queue in service or selects one, and that queue has a
/// next request; but where the expiry before it is refused, for a time that would be too great. The body is empty: the
/// contract is the law.
pub fn dispatch_finds_a_request()
    ensures { (l : Limits) (most : ℕ) (journal : List Call) → EachDispatchFindsARequest l most journal }
{}

/// On the machine of every keeper that a journal makes no weight is 0, be it pending or in effect. The body is empty: the
/// contract is the law.
pub fn weights_are_positive()
    ensures { (l : Limits) (most : ℕ) (journal : List Call) → WeightsArePositive l most journal }
{}

/// There, under BFQ, the sum of the weights is not 0 in the class of each entity on the path of the queue in service, in its group.
/// Nor is it if a dispatch has a queue in service, before it charges. The body is empty: the contract is the law.
pub fn sums_are_positive()
    ensures { (l : Limits) (most : ℕ) (journal : List Call) → SumsArePositive l most journal }
{}

/// On the machine of every keeper that a journal makes, the trees of a group have just the entities that are in it.
/// The body is empty: the contract is the law.
pub fn entities_are_members()
    ensures { (l : Limits) (most : ℕ) (journal : List Call) → EntitiesAreMembers l most journal }
{}

/// On the machine of every keeper that a journal makes, each request in the queue of a seat is of the session that sits
/// there. The body is empty: the contract is the law.
pub fn queues_are_of_their_sessions()
    ensures { (l : Limits) (most : ℕ) (journal : List Call) → QueuesAreOfTheirSessions l most journal }
{}

/// On the machine of every keeper that a journal makes, an entity is in service exactly where it is on the path of the queue
/// in service: the entity of its session, or that of a group above it. The body is empty: the contract is the law.
pub fn serving_is_the_path()
    ensures { (l : Limits) (most : ℕ) (journal : List Call) → ThePathIsServed l most journal }
{}

/// On the machine of every keeper that a journal makes, the entity of a seat is in a group exactly where a session sits
/// there. The body is empty: the contract is the law.
pub fn seats_are_in_groups()
    ensures { (l : Limits) (most : ℕ) (journal : List Call) → TakenSeatsAreInGroups l most journal }
{}

/// On the machine of every keeper that a journal makes a dispatch under BFQ selects nobody while a sibling of a higher class waits.
/// That holds of the session, and of each group above it. The body is empty: the contract is the law.
pub fn classes_are_in_order()
    ensures { (l : Limits) (most : ℕ) (journal : List Call) → ClassesAreInOrder l most journal }
{}
