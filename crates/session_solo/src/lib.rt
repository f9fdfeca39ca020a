#![tactic(auto)]
//! A keeper on this thread, as the asker of a client's session.
//!
//! | call | rule that it meets |
//! |---|---|
//! | [`Solo::ask`](session_proto::Asks::ask) | the keeper's answer to the call, made at seat 0, and the keeper after it; that answer has a frame of the host |
//!
//! It serves one client, on the thread that calls. Nothing waits in it: what has to wait is answered NotYet, and the client
//! asks again. So a machine can be served, stopped between two sessions, looked at, and stepped back and forth.
//!
//! ```text
//! let mut solo = Solo(Keeper::new(alloc, config, 1024)?);
//! let class = Class::BestEffort;
//! solo.ask(alloc, ClientCall::Attach { group: 0, prio: 4, class })   // Ok(Accepted(Attached { session: 1 }))
//! solo.ask(alloc, ClientCall::Reap { session: 7 })                   // Ok(Refused(StaleSession))
//! ```

mod solo;

pub use solo::Solo;
