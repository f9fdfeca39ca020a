#![tactic(auto)]
//! Laws of the machine under BFQ: what holds after every run, whatever its calls were.
//!
//! `specs/` has what the laws say: `Budgets` has budgets, and the service that is within them; `Busy` who waits or is served;
//! `Found` what a dispatch finds; `Weights` has weights, and `Sums` their sums; `Members` which entities a group's tree has;
//! `Queues` whose requests a queue has; `Served` who is in service; `Seats` which seats' entities are in a group; `Order` in which order
//! classes are served.
//!
//! | call | rule that it meets |
//! |---|---|
//! | [`budgets_are_enough`] | no entity's budget is under 256 sectors, the most that a request has |
//! | [`service_is_within_budget`] | the queue in service has been sent no more sectors than its budget |
//! | [`busy_sessions_wait_or_are_served`] | a session's entity waits or is served exactly where, under BFQ, its queue is not empty |
//! | [`dispatch_finds_a_request`] | where a queue is not empty, a queue is in service or is selected, and has a next request |
//! | [`weights_are_positive`] | no weight is 0, be it pending or in effect |
//! | [`sums_are_positive`] | for each entity on the path of the queue in service the sum of weights of its class in its group is not 0 |
//! | [`entities_are_members`] | a group's tree has just the entities that are in the group |
//! | [`queues_are_of_their_sessions`] | each request in a seat's queue is of the session that sits there |
//! | [`serving_is_the_path`] | an entity is in service exactly where it is on the path of the queue in service |
//! | [`seats_are_in_groups`] | a seat's entity is in a group exactly where a session sits there |
//! | [`classes_are_in_order`] | nobody is selected while a sibling of a higher class waits |

mod laws;

pub use laws::{
    budgets_are_enough, busy_sessions_wait_or_are_served, classes_are_in_order,
    dispatch_finds_a_request, entities_are_members, queues_are_of_their_sessions,
    seats_are_in_groups, service_is_within_budget, serving_is_the_path, sums_are_positive,
    weights_are_positive,
};
