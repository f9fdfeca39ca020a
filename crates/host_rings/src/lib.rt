#![tactic(auto)]
//! A host's core over its machine, and the seats of its clients, its devices and its operator; and a host that serves these over sockets.
//!
//! | call | rule that it meets |
//! |---|---|
//! | [`host`] | a core and its seats, to which nothing has come; so many workers as it may have |
//! | [`view`] | the keeper is what comes of the entries' calls, one after the other; the accounts of all seats fit them |
//! | [`Book::new`] | no entries yet |
//! | [`Book::judge`] | the answer is one that the keeper of the journal may give; an accepted call is the next entry, under its seat's name |
//! | [`Book::take`] | the rule of Take: not while the host is held, not under another device's number, then the device's next work |
//! | [`Book::view`] | the keeper is what comes of the entries' calls, one after the other |
//! | [`Book::entry`] | the entry of a number, from 0 |
//! | [`take_work`] | the least issue in flight that is not the last one that another device took, or none |
//!
//! [`Core`] is that of `host_core` over the [`Book`]: a keeper, and for each entry of its journal the name of the seat whose call it
//! was.
//!
//! Each device works at one request at a time, the one that it took last. A device that asks again gets the same request again, if
//! that is still in flight and none that is free was issued before it. What a device took last stays its own also when it has ended:
//! an undo can put it in flight again.
//!
//! ```text
//! let mut book = Book::new(alloc, config, 64)?;
//! book.judge(alloc, SeatName::Operator, &Call::Hold)    // Accepted(Moved { cursor: 0, length: 0 })
//! book.judge(alloc, SeatName::Operator, &Call::Hold)    // Refused(AlreadyHeld)
//! book.entry(0)                                         // Some((Operator, Hold))
//! book.entry(1)                                         // None
//!
//! let (mut core, mut callers, devices, operator) = host(alloc, config, 64, 2)?;
//! let class = Class::BestEffort;
//! callers[0].stage(ClientCall::Attach { group: 0, prio: 4, class })    // Ok(())
//! core.turn(alloc)                                                     // answered: Some(Client(0)), dispatched: false, ended: false
//! callers[0].collect()                                                 // Some(Answer(Accepted(Attached { session: 1 })))
//! ```
//!
//! # A host that serves
//!
//! [`run_host`] ends once the operator has stopped the host; if a socket, a thread or memory is wanting, it says which. No clause
//! says that: none can name what a socket or a thread does. The calls that it puts together have theirs.
//!
//! The core has a thread, and so has each path and each device (`host_paths`). Between them stand the rings of the seats alone. If there
//! is a path for looks, its thread asks at a seat of its own (`host_looks`), and the core tells between two turns what is asked there.
//!
//! ```text
//! let options = ServeOptions { dir: "/run/bfq", clients: 4, delay: 0 };
//! let watching = Watching { inspect: true, record: None };
//! run_host(rt, alloc, config, images, options, watching, &mut fault)                     // Ok(Stopped), after the operator's Stop
//! run_server(rt, alloc, config, images, options, &mut fault)                             // the same, with no path for looks
//! ```

mod book;
mod judging;
mod opening;
mod recording;
mod running;
mod server;
mod takes;
mod taking;
mod viewing;
mod warning;
mod watcher;

pub use book::Book;
pub use host_core::{
    Caller, DeviceSeat, NotSettled, OperatorSeat, SeatEnd, Settled, TurnReport, settle,
};
pub use host_paths::{Door, DoorFault, ServeEnd};
pub use opening::{Core, CoreEnd, HostFault, host};
pub use server::{ServeOptions, Watching, run_host, run_server};
pub use takes::take_work;
pub use viewing::view;
