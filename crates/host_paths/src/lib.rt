#![tactic(auto)]
//! The paths at which a host meets its clients and its operator, the workers of its devices, and the threads of its seats.
//!
//! | call | what it does |
//! |---|---|
//! | [`open_doors`], [`remove_all`] | the sockets of a folder, each with a note of its file, and their end |
//! | [`start_workers`] | a thread for each image, at the device's seat of its number |
//! | [`start_paths`] | the threads of all paths: the clients', each at the seat of its number, and the operator's |
//! | [`start_client`] | the thread of one client's path |
//! | [`serve_client`] | a connection of a client is a session of at most 1,048,576 frames |
//! | [`serve_operator`] | each call of the operator is asked at his seat, and is answered before the next is asked |
//! | [`tell_closed`] | the operator is told that the host has ended |
//! | [`SeatAsker::ask`](session_proto::Asks::ask) | one call staged at the seat and one reply collected there; an answer has a frame of the host, and is no NotYet; once the host has ended nothing is staged |
//! | [`run_worker`] | each call asks for work under the seat's own number, or tells what the image gave for the work taken last |
//!
//! Of sockets and threads there is no contract but that a seat can go on: no clause can name what they do. The calls that they put
//! together have theirs. [`SeatAsker`] is a client's seat as the asker of a session. The host's core runs on another thread: a call that
//! cannot be answered yet waits there, and so the client waits.
//!
//! Each path has a thread, which owns a seat and meets one connection after the other. So has each device.
//! A client's path takes both versions of a client's frames: each connection says its own.
//!
//! | path | who is met there |
//! |---|---|
//! | `DIR/client0` to `DIR/client15` | a client, at the seat of that number |
//! | `DIR/operator` | the operator |
//! | `DIR/inspect` | who looks, by a thread of `host_rings` |
//!
//! A worker takes the work of its device's seat, does it from an image, and tells how it ended. It ends if the host has ended, if its image
//! can count no more faults, or if the history is full, as then no work ever ends. Where memory was wanting, and after a busy read, it
//! sleeps before it goes on. No rule reads a time.
//!
//! ```text
//! let doors = open_doors(&rt, alloc, "/run/bfq", 4, false, &mut made, &mut fault)?;    // five sockets, and the paths of their files in `made`
//! let serving = start_paths(rt, alloc, doors, callers, operator)?;
//! serving.join(&rt)                                                    // the connection of the operator, after his Stop
//!
//! let mut asker = SeatAsker::new(rt, seat);
//! let class = Class::BestEffort;
//! asker.ask(alloc, ClientCall::Attach { group: 0, prio: 4, class })    // Ok(Accepted(Attached { session: 1 }))
//! asker.is_closed()                                                    // false, until the core has said that it has ended
//! ```

mod asker;
mod clients;
mod doors;
mod end;
mod operator;
mod pauses;
mod places;
mod threads;
mod worker;

pub use asker::SeatAsker;
pub use clients::serve_client;
pub use doors::{Door, DoorFault, Doors, open_doors, remove_all};
pub use end::ServeEnd;
pub use operator::{serve_operator, tell_closed};
pub use threads::{start_client, start_paths, start_workers};
pub use worker::{WorkerEnd, run_worker};
