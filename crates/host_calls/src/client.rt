// The calls of clients.
ghost use Rattle.std.specs.Prelude.{◌≡◌};
ghost use Rattle.host_calls.specs.Asked.{client_call};

use bytes::Bytes;
use plain::{Call, Step, Why};
use sector_core::{Class, Op, Range};

/// What a client asks. The number of its seat is no part of it: the host puts it in.
#[derive(Debug, Drop)]
pub enum ClientCall {
    /// A session begins at the seat.
    Attach {
        /// The group of its entity, 0 to 31.
        group: u8,
        /// Its priority, 0 for the first to 7 for the last.
        prio: u8,
        /// Its class.
        class: Class,
    },
    /// The session submits a bio.
    Submit {
        /// The session, named by the serial of its attach.
        session: u64,
        /// Whether sectors are read or written.
        op: Op,
        /// Which ones, 1 to 64.
        range: Range,
        /// For a store 512 bytes for each sector, for a fetch none.
        payload: Bytes,
    },
    /// The session takes its first completed bio.
    Reap {
        /// The session, named by the serial of its attach.
        session: u64,
    },
    /// The session leaves the seat.
    Leave {
        /// Why it does.
        why: Why,
    },
}

impl ClientCall {
    /// The keeper's call, with the number of the seat at which it was made, 0 to 15. A payload moves into it and is not
    /// copied.
    pub fn of_seat(self, seat: u8) -> Call
        ensures { result ≡ client_call seat self }
    {
        match self {
            ClientCall::Attach { group, prio, class } => Call::Do(Step::Attach {
                seat,
                group,
                prio,
                class,
            }),
            ClientCall::Submit {
                session,
                op,
                range,
                payload,
            } => Call::Do(Step::Submit {
                seat,
                session,
                op,
                range,
                payload,
            }),
            ClientCall::Reap { session } => Call::Do(Step::Reap { seat, session }),
            ClientCall::Leave { why } => Call::Do(Step::Leave { seat, why }),
        }
    }
}
