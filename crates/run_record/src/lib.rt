#![tactic(auto)]
//! A run of a host on file: a line that says what the host was made for, and then the entries of its journal, each in a frame.
//!
//! An [`Entry`] is a [`Side`](session_proto::Side) with one version of its own. A body is a byte of whose entry it is, and then the call's.
//!
//! | first byte | whose | kinds of the call |
//! |---|---|---|
//! | 00 to 0f | the client at that seat | those of [`Client`](session_proto::Client) in version 2, 01 to 06 and 08; 09, a Leave for another cause than the client's end |
//! | 40 to 43 | the device of number 0 to 3 | 21 to 23, a Finish; 24, a Requeue |
//! | 80 | the operator | those of [`Operator`](session_proto::Operator) but for Stop |
//! | c0 | the core | 31, a Dispatch |

mod devices;
mod entry;
mod header;
mod laws;
mod naming;
mod seats;

pub use entry::Entry;
pub use header::{Header, HeaderFault, MOST_HEADER, put_header, read_header};
pub use laws::one_header;
