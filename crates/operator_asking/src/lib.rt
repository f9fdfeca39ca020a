#![tactic(auto)]
//! A call of the operator, asked over a connection to the host, and its answer printed.
//!
//! | call | rule that it meets |
//! |---|---|
//! | [`ask_host`] | a reply only if the call's frame was written whole, and the bytes read begin with the reply's frame |
//! | [`run_call`] | the call is asked, the text of its reply is printed as a line, and how it ends says what was answered |
//! | [`status`] | the exit status of each end |
//! | [`ask`] | a call and a reply of any two sides: a reply only if the call's frame was written whole, and the bytes read begin with the reply's frame |
//! | [`write_flushed`] | all of the bytes are written, or only a front of them |
//!
//! `session_proto` has the frames, and `host_calls` the texts. What calls and replies are is said to [`ask`] by two sides of a
//! protocol. No thread and no handle is known here: the reader and the writer may be the two directions of a socket, or bytes in
//! memory.
//!
//! Three things can go wrong, and [`AskFault`] names them. At `Socket` the connection failed, and the call may have been
//! made or not. At `Frame` the call was sent, and what came back is no reply. At `OutOfMemory` either nothing was sent, or
//! the call was, and there was no memory for what came back.
//!
//! ```text
//! // 00 00 00 09 93 00 00 00 03 00 00 00 05 comes:
//! ask_host(alloc, &mut reader, &mut writer, OperatorCall::Undo { k: 2 })
//!     // Ok(Answer(Accepted(Moved { cursor: 3, length: 5 }))), and 00 00 00 05 1a 00 00 00 02 is written
//! run_call(alloc, &mut reader, &mut writer, &mut output, OperatorCall::Undo { k: 2 })
//!     // CallEnd::Done, and "moved 3 5\n" is printed
//! // Of two sides whose values are one byte, each in a frame 00 00 00 01 BYTE; what came is 00 00 00 01 07:
//! ask(alloc, &mut reader, &mut writer, &Letter(5))   // Ok(Letter(7)), and 00 00 00 01 05 is written
//! ```

mod asking;
mod ending;
mod fault;
mod one_call;
mod receiving;
mod running;
mod writing;

pub use asking::ask_host;
pub use ending::{CallEnd, status};
pub use fault::AskFault;
pub use one_call::ask;
pub use running::run_call;
pub use writing::write_flushed;
