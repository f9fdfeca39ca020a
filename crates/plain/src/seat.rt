// Who sits at a seat, and the queue in service.

/// Who sits at a client's seat.
#[derive(Clone, Copy, Debug, PartialEq, Eq)]
pub struct Seat {
    /// The session: the serial of its attach.
    pub session: u64,
    /// Its priority, 0 to 7.
    pub prio: u8,
    /// How many of its bios are submitted and not yet reaped or dropped, at most 32.
    pub unreaped: u8,
    /// Whether it is leaving: it makes no more calls, and some of its requests are not yet completed.
    pub leaving: bool,
}

/// The queue in service.
#[derive(Clone, Copy)]
pub struct InService {
    /// Its seat.
    pub seat: u8,
    /// The sectors that were sent since it was selected.
    pub service: u32,
    /// The ticks since it was selected.
    pub age: u64,
}

/// Why the queue in service leaves it. The rules of BFQ, which stand beside the tables, name it.
#[derive(Clone, Copy, Debug, PartialEq, Eq)]
pub enum Expiry {
    /// The next request is greater than what is left of the budget.
    Exhaustion,
    /// The queue has been in service for too many ticks.
    Timeout,
    /// The queue has no request left.
    Emptying,
}
