#![tactic(auto)]
//! The core of a host over whoever keeps its journal, and the seats of its clients, its devices and its operator.
//!
//! | call | rule that it meets |
//! |---|---|
//! | [`open_core`] | a core and its seats, to which nothing has come |
//! | [`Core::turn`] | at most one call is answered, then one Dispatch is tried; the calls and answers of every seat fit the one journal; after the end nothing changes |
//! | [`Core::run`] | it is a number of turns, and the core has ended; `run_watched` shows whoever keeps the journal after each turn, and says if the core is about to sleep |
//! | [`Core::finish`], [`settle`] | what a seat staged is what was taken and then what is left; what it collected are the first of what it was given |
//! | [`Core::book`] | whoever keeps the journal: the accounts of all seats fit it |
//! | [`Core::bell`] | the bell on which it sleeps, for who is no seat and yet has something for it |
//! | [`Core::entry`] | the entry of a number, from 0 |
//!
//! Each seat has two rings, one for its calls and one for its replies. Between the core and the seats stands no lock: a seat may work
//! on a thread of its own.
//!
//! # The two sides of a seat
//!
//! Calls go one way and replies the other, each through a ring of four places.
//!
//! | call | rule that it meets |
//! |---|---|
//! | [`open_seat`] | a seat and its desk over two rings of their own, to which nothing has come |
//! | [`Seat::stage`] | the call is the next that was staged, or it comes back and nothing has changed |
//! | [`Seat::collect`] | the next reply, which its kind of seat allows, or none |
//! | [`Seat::ask`] | one call staged and one reply collected; after Closed nothing is staged |
//! | [`Seat::stage_waiting`], [`Seat::stage_both_waiting`] | one call, or two in this order, are the next that were staged |
//! | [`Seat::collect_waiting`] | the next reply, which its kind of seat allows |
//! | [`Desk::take`] | at most one call is taken, and it waits |
//! | [`Desk::answer`], [`Desk::close`] | one reply more; there is always a place for it |
//! | [`Desk::last`] | the issue of the work that it handed out last |
//! | [`Seat::finish`], [`Desk::settle`] | how many staged calls were not taken, and how many replies not collected |
//! | [`Staged`] | which call a kind of seat asks, with the seat's number put in, and whose the seat is |
//! | [`ClientReplies`], [`OperatorReplies`] | which replies may go to a client, and to the operator |
//!
//! A [`Seat`] is the side of who asks, and a [`Desk`] that of the host's core. Each may stand on a thread of its own. Who waits looks at
//! its ring a number of times, by its [`Patience`], and then sleeps on its [`Bell`]. A bell carries nothing: each contract is the same without
//! it. Of a seat whose next call is here already, with room for its reply,
//! only the reply to that one rings. So who asks two calls at once is woken once.
//!
//! A client's seat takes each call of a client, in whatever version of the frames it came.
//!
//! The desk takes a call only where its ring of replies has two free places. So there is always one for the answer and one for
//! Closed, and neither can fail.
//!
//! ```text
//! let core = Bell::new(alloc)?;
//! let (mut seat, mut desk) = open_seat::<ClientCall, ClientReplies>(alloc, &core, 3, 100)?;
//! seat.stage(ClientCall::Reap { session: 1 })    // Ok(())
//! desk.take();                                   // waiting is Some(Ask(Do(Reap { seat: 3, session: 1 })))
//! desk.answer(Answer::Refused(Code::NoSession));
//! seat.collect()                                 // Some(Answer(Refused(NoSession)))
//! ```
//!
//! # The account of a seat
//!
//! It has no code, and holds for any rule by which calls are answered: `specs/Account` says what an account is, and `proofs/SeatAccounts`
//! what keeps it.
//!
//! An account lists the calls of a seat that were answered, each with its answer and with how much of the journal stood before it. It
//! fits a journal if each answer is right after that much of it, no call stands before an earlier one, and the journal's entries of
//! this seat are those that its calls made.
//!
//! | what happens | the account |
//! |---|---|
//! | other seats make entries, and a call of this seat is taken | fits the longer journal |
//! | the call that waits is answered at the journal's end | has one line more, and fits |
//! | the end is told | stays, and the end is the last reply |
//! | some of the replies are collected | its first lines are those of the replies that were collected and the calls that were staged first |
//!
//! # Whoever keeps the journal
//!
//! | call | rule that it meets |
//! |---|---|
//! | [`Judges::judge`] | the answer is one that the keeper of the journal may give; an accepted call is the next entry, under its seat's name |
//! | [`Judges::take`] | the rule of Take: not while the host is held, not under another device's number, then the device's next work |
//! | [`Judges::entry`] | the entry of a number, from 0 |
//!
//! So the core and its seats are proved over these rules and the laws of answers, and not over the machine's code. Each device works
//! at one request at a time, the one that it took last. What a device took last stays its own also when it has ended: an undo can put
//! it in flight again.
//!
//! # Modules
//!
//! | modules | what they have |
//! |---|---|
//! | `seat`, `desk`, `asked`, `seat_rules`, `bell`, `patience`, `seat_opening`, `seat_settling` | the two sides of a seat, whatever its kind |
//! | `judges` | what a core asks of whoever keeps its journal |
//! | `desks`, `places`, `row_opening`, `closing`, `row_settling` | the desks of all seats in one row: the clients, then the devices, then the operator; how the row is opened, closed and settled |
//! | `judging`, `visit`, `row` | a visit of one seat. A client or a device is answered only what is final: a call that is not yet right to answer waits at its seat. The operator is told at once, and can be told that it is not yet time only while the host is held. Only the operator can ask for the end |
//! | `round`, `turn` | a turn: one round over the seats, and then one Dispatch. The round begins at the seat after the one that was answered last, and visits each seat once, up to the first that is answered. So where nobody is answered, each call that waits is not yet right to answer |
//! | `turns`, `running`, `opening`, `settling` | the core |
//!
//! ```text
//! let (mut core, mut callers, devices, operator) = open_core(alloc, book, 2)?;
//! let class = Class::BestEffort;
//! callers[0].stage(ClientCall::Attach { group: 0, prio: 4, class })    // Ok(())
//! core.turn(alloc)                                                     // answered: Some(Client(0)), dispatched: false, ended: false
//! callers[0].collect()                                                 // Some(Answer(Accepted(Attached { session: 1 })))
//! ```

mod asked;
mod bell;
mod closing;
mod desk;
mod desks;
mod judges;
mod judging;
mod opening;
mod patience;
mod places;
mod round;
mod row;
mod row_opening;
mod row_settling;
mod running;
mod seat;
mod seat_opening;
mod seat_rules;
mod seat_settling;
mod settling;
mod turn;
mod turns;
mod visit;

pub use asked::{Asked, Staged};
pub use bell::Bell;
pub use desk::Desk;
pub use judges::Judges;
pub use opening::{Caller, DeviceSeat, OperatorSeat, open_core};
pub use patience::{DEVICE_LOOKS, IDLE_TURNS, LOOKS, Patience};
pub use row_settling::SeatEnd;
pub use seat::Seat;
pub use seat_opening::open_seat;
pub use seat_rules::{ClientReplies, OperatorReplies};
pub use seat_settling::{FinishedSeat, Settled};
pub use settling::{CoreEnd, NotSettled, settle};
pub use turn::TurnReport;
pub use turns::Core;
