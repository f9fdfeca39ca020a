#![tactic(auto)]
//! The host's protocol: values in a stream of bytes, each in a frame; what clients, the operator and the host send, in two versions;
//! and a client's session over bytes.
//!
//! # Frames
//!
//! A frame is four bytes of length, the most significant first, and a body.
//!
//! | call | rule that it meets |
//! |---|---|
//! | [`Side`] | what a side of a protocol gives: the body of each value, which values fit a [`Version`], what a body says in it, the greatest length |
//! | [`encode`] | the frame of a value in a version |
//! | [`decode`] | the value whose frame in a version the bytes are, or the fault |
//! | [`Feeder::new`] | a feeder of version 1, to which no byte has come |
//! | [`Feeder::feed`] | the values of the frames that are whole with this piece, and the fault after them, however the bytes are cut |
//! | [`Feeder::is_between`] | whether the bytes so far end where a frame ends |
//! | [`one_frame`] | in a version a value has at most one frame, no two values share one, and none is a proper prefix of another |
//! | [`one_reading`] | a stream is cut into frames in one way |
//!
//! No kind of value is known to these: kinds are those of the type that is a [`Side`]. The body of a value is the same in each version
//! in which it has a frame.
//!
//! ```text
//! // Of a side where a number is kind 02, in two bytes:
//! encode(alloc, Version::One, &Some(Ok(7))) // Ok of 00 00 00 03 02 00 07
//! feeder.feed(alloc, &[0, 0, 0, 3, 2])      // Ok(Fed { values: [], fault: None })
//! feeder.feed(alloc, &[0, 7, 0, 0, 0, 0])   // Ok(Fed { values: [Some(Ok(7))], fault: Some(BadLengthField) })
//! feeder.feed(alloc, &[])                   // Ok(Fed { values: [], fault: Some(BadLengthField) })
//! ```
//!
//! # The sides
//!
//! | type or law | rule that it meets |
//! |---|---|
//! | [`Client`] | a `ClientCall` is sent as the bytes of its kind, and these are read as it alone |
//! | [`Operator`] | so it is with an `OperatorCall` |
//! | [`Host`] | so it is with a `RingReply` that has a frame |
//! | [`sides_are_apart`] | no two sides have a kind in common, in either version |
//! | [`ClientFeeder::feed`] | the calls of a client's stream, of the version that its first frame says, however the bytes are cut |
//! | [`streams_of_version_one`] | a client's stream that does not begin with a frame of kind 07 is read as by version 1, whole |
//! | [`streams_of_version_two`] | one that begins with `00000002 07 02` is read as by version 2 from behind that on |
//!
//! Each type is a [`Side`]: [`encode`], [`decode`] and [`Feeder`] make and read its frames. Each is a struct around its value.
//! Versions differ in what a client sends, and in nothing else.
//!
//! A body is a byte of kind and the fields behind it, nothing more. A number has its most significant byte first. Sizes of
//! fields are in bytes. Lengths are those of the body: they count the kind, and not the four bytes of length in front.
//!
//! | kind | version | `ClientCall` | fields | length |
//! |---|---|---|---|---|
//! | 01 | 1, 2 | Attach, of best effort | group 1, priority 1 | 3 |
//! | 02 | 1, 2 | Submit, a fetch | session 8, first sector 8, count of sectors 2 | 19 |
//! | 03 | 1, 2 | Submit, a store | session 8, first sector 8, count of sectors 2, payload 0 to 32,768 | 19 to 32,787 |
//! | 04 | 1, 2 | Reap | session 8 | 9 |
//! | 05 | 1, 2 | Leave, with Ended | none | 1 |
//! | 06 | 2 | Submit, a discard | session 8, first sector 8, count of sectors 2 | 19 |
//! | 07 | | none: as a stream's first frame it says that the stream is of version 2 | version 1: 2 | 2 |
//! | 08 | 2 | Attach, of another class | group 1, priority 1, class 1: 1 for real time, 3 for idle | 4 |
//!
//! Kind 07 is no value: [`ClientFeeder`] alone knows it, and anywhere but at a stream's beginning it is `BadKind`.
//!
//! | kind | `OperatorCall` | fields | length |
//! |---|---|---|---|
//! | 11 | GroupMake | parent 1, weight 2 | 4 |
//! | 12 | GroupDrop | group 1 | 2 |
//! | 13 | SetWeight | group 1, weight 2 | 4 |
//! | 14, 15 | Freeze, Thaw | none | 1 |
//! | 16 | Switch | scheduler 1: 0 for none, 1 for bfq | 2 |
//! | 17, 18, 19 | Tick, Hold, Release | none | 1 |
//! | 1a, 1b | Undo, Redo | steps 4 | 5 |
//! | 1c | Stop | none | 1 |
//!
//! | kind | `RingReply` | fields | length |
//! |---|---|---|---|
//! | 81 | Attached | session 8 | 9 |
//! | 82 | Queued | bio 8 | 9 |
//! | 83 | Completed, read | bio 8, the bytes of 1 to 64 sectors, 512 for each | 521 to 32,777 |
//! | 84 | Completed, written | bio 8 | 9 |
//! | 85 | Completed, error | bio 8, failure 1: 1 for short, 2 for fault | 10 |
//! | 86 | Left | none | 1 |
//! | 87 | Completed, discarded | bio 8 | 9 |
//! | 91 | Group | number 1 | 2 |
//! | 92 | Done | none | 1 |
//! | 93 | Moved | cursor 4, length of the line 4 | 9 |
//! | 9f | Closed | none | 1 |
//! | e0 | Refused | code 1: 1 to 35 | 2 |
//! | e1 | NotYet | cause 1: 41 to 45 | 2 |
//!
//! No byte and a kind that the side does not have are `BadKind`. Another length than the kind's is `BadBody`, and so is a named field with
//! another value. A store whose payload does not fit its count is a value: the machine refuses the call. Replies to the
//! dispatcher and to devices have no frame.
//!
//! ```text
//! let class = Class::BestEffort;
//! let (one, two) = (Version::One, Version::Two);
//! encode(alloc, one, &Client(ClientCall::Attach { group: 0, prio: 4, class }))   // Ok of 00 00 00 03 01 00 04
//! encode(alloc, one, &Operator(OperatorCall::Undo { k: 2 }))         // Ok of 00 00 00 05 1a 00 00 00 02
//! decode::<Host>(alloc, one, &[0, 0, 0, 2, 0xe0, 20])                // Ok(Host(Answer(Refused(NotInFlight))))
//! decode::<Host>(alloc, one, &[0, 0, 0, 2, 0xe0, 36])                // Err(Fault(BadBody))
//! decode::<Host>(alloc, one, &[0, 0, 0, 1, 5])                       // Err(Fault(BadKind))
//! decode::<Client>(alloc, two, &[0, 0, 0, 4, 8, 0, 7, 1])            // Ok(Client(Attach { group: 0, prio: 7, class: RealTime }))
//! decode::<Client>(alloc, one, &[0, 0, 0, 4, 8, 0, 7, 1])            // Err(Fault(BadKind))
//! ClientFeeder::new(alloc).feed(alloc, &[0, 0, 0, 2, 7, 2, 0, 0, 0, 1, 5])
//!     // Ok(Fed { values: [Client(Leave { why: Ended })], fault: None })
//! ```
//!
//! A further kind is an arm in `put_body`, an arm beside those that read with a reader for its fields, and in `specs/` a row of
//! the side's kinds with two lemmas: that what it spells is read again, and that nothing else is.
//!
//! # A client's session
//!
//! Its frames are read, in the version that the first one says, its calls asked, and the answers' frames written.
//!
//! | call | rule that it meets |
//! |---|---|
//! | [`Asks`] | who answers: its answers are those of its own relation, and each has a frame of the host |
//! | [`serve`] | the calls are those of the first frames of the bytes read, what is written is their answers' frames, and at the end there is at most one Leave |
//! | [`EndCause::leave`] | for what cause the session leaves its seat, and none where it makes no Leave |
//!
//! No thread and no handle is known here. The reader and the writer may be the two directions of a socket, or bytes in memory.
//! Of a socket the bytes are not known, so there the rules speak of the calls and of the counts alone. The asker may be a keeper on
//! this thread, or a seat of a host whose core runs on another.
//!
//! A session ends at the first of these. Each but the last two is followed by one Leave, which tells the cause. The limit is looked
//! at before the next read, and before a fault that has come.
//!
//! | [`EndCause`] | when |
//! |---|---|
//! | `Ended` | the input ends between two frames |
//! | `ReadFault` | a read fails, an interrupted one too |
//! | `WriteFault` | a write fails, or takes nothing; then only a proper front of the last frame is written |
//! | `BadFrame` | the bytes after the last whole frame begin with a fault, or the input ends inside a frame |
//! | `FrameLimit` | as many frames were answered as the session may have |
//! | `Closed` | the asker's host has ended |
//! | `OutOfMemory` | there was no memory for a piece of input or for an answer's frame |
//!
//! ```text
//! // 00 00 00 03 01 00 04 comes, an Attach, and then the end; asked is a new keeper, at seat 0:
//! serve(alloc, &mut reader, &mut writer, &mut asker, 1_048_576)
//!     // SessionEnd { why: Ended, calls: 1, written: 13, left: Some(Accepted(Left)) },
//!     // and 00 00 00 09 81 00 00 00 00 00 00 00 01 is written: Attached 1
//! ```

mod answer_frames;
mod answering;
mod asks;
mod client;
mod client_feeder;
mod decoding;
mod encoding;
mod end;
mod fault;
mod feeder;
pub mod fields;
mod frame_laws;
mod host;
mod laws;
mod next;
mod opening;
mod operator;
mod serving;
mod side;
mod span;
mod split;
mod version;

pub use asks::Asks;
pub use client::Client;
pub use client_feeder::ClientFeeder;
pub use decoding::decode;
pub use encoding::encode;
pub use end::{EndCause, SessionEnd};
pub use fault::{Fault, ReadError};
pub use feeder::{Fed, Feeder};
pub use frame_laws::{one_frame, one_reading};
pub use host::Host;
pub use laws::{sides_are_apart, streams_of_version_one, streams_of_version_two};
pub use operator::Operator;
pub use serving::serve;
pub use side::Side;
pub use version::Version;
