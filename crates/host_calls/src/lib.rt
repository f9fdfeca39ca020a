#![tactic(auto)]
//! What is asked at the seats of a host, and what is answered there.
//!
//! A client's call names no seat: the host puts in the number of the seat at which it was made. The operator's calls
//! are those of the keeper and of the machine, and Stop, which ends the host. `specs/` has what they mean: `Asked` has the
//! keeper's call of each, `Frames` which answers have a frame of the host, `Kinds` which replies a client can get and
//! which the operator, and `Texts` the texts of answers: what a script prints for them, and the operator's program.
//!
//! | call | rule that it meets |
//! |---|---|
//! | [`ClientCall::of_seat`] | the keeper's call, with the seat's number put in |
//! | [`OperatorCall::into_call`] | the keeper's call, and none for Stop |
//! | [`put_answer`] | appends the text of an answer |
//! | [`put_ring_reply`] | appends the text of what a seat is answered: that of the answer, or `closed` where the host has ended |
//!
//! In a text numbers are in decimal, and each sector that was read is in hexadecimal, after one space. Only want of memory
//! makes a call that appends one fail.
//!
//! ```text
//! put_answer(&Answer::Accepted(Reply::Attached { session: 1 }), &mut out)    // attached 1
//! put_answer(&Answer::Refused(Code::BadSeat), &mut out)                      // refused 1
//! put_ring_reply(&RingReply::Closed, &mut out)                               // closed
//! ```
//!
//! # Laws
//!
//! Laws of answers, and of where requests and bios stand, on the machine of every keeper.
//!
//! `specs/` has what the laws say: `Lengths` how many bytes blocks, payloads and results have; `Answered` what a call
//! is answered; `Sessions` at which seats sessions sit, and whose the requests are; `Results` which bios have a result,
//! and who is told of it; `Places` where a bio stands; `Bounds` how great times, ages and budgets are.
//!
//! | call | rule that it meets |
//! |---|---|
//! | [`blocks_are_full`] | each stored block has the 512 bytes of a sector |
//! | [`payloads_fit`] | each bio that waits has 1 to 64 sectors, and for a store the bytes of them |
//! | [`results_fit`] | each completed bio has a result, of a read the bytes of its sectors |
//! | [`calls_are_answered`] | a call is answered by the reply of its own kind, by a refusal, or by why it has to wait |
//! | [`clients_are_answered`] | what a client is answered has a frame of the host, of a client's kind |
//! | [`operator_is_answered`] | what the operator is answered has one, of the operator's kind |
//! | [`sessions_sit_apart`] | no two seats have one session |
//! | [`requests_have_seats`] | the session of each request sits at exactly one seat |
//! | [`outboxes_have_results`] | the bios in outboxes have a result, and no others |
//! | [`reaps_tell_results`] | a reap tells the result of the first bio in the outbox |
//! | [`bios_have_one_place`] | no bio stands in two places |
//! | [`times_are_bounded`] | no time is above 2^62 |
//! | [`ages_are_bounded`] | the queue in service is no older than the last serial |
//! | [`groups_have_the_greatest_budget`] | a group's budget is always the greatest one |

mod answer;
mod client;
mod laws;
mod operator;
mod ring;
mod ring_text;
mod seat;
mod words;

pub use answer::put_answer;
pub use client::ClientCall;
pub use laws::{
    ages_are_bounded, bios_have_one_place, blocks_are_full, calls_are_answered,
    clients_are_answered, groups_have_the_greatest_budget, operator_is_answered,
    outboxes_have_results, payloads_fit, reaps_tell_results, requests_have_seats, results_fit,
    sessions_sit_apart, times_are_bounded,
};
pub use operator::OperatorCall;
pub use ring::{Closed, RingReply};
pub use ring_text::put_ring_reply;
pub use seat::SeatName;
