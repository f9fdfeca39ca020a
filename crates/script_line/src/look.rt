// What a query `show` can ask for.

/// What a line `show` is to show.
#[derive(Clone, Copy, PartialEq, Eq)]
pub enum Look {
    /// `show seat SEAT`
    Seat { seat: u8 },
    /// `show outbox SEAT`
    Outbox { seat: u8 },
    /// `show queue SEAT`
    Queue { seat: u8 },
    /// `show requeued`
    Requeued,
    /// `show flight`
    Flight,
    /// `show service`
    Service,
    /// `show tree GROUP`
    Tree { group: u8 },
    /// `show host`
    Host,
    /// `show state`
    State,
    /// `show stored FROM`
    Stored { from: u64 },
    /// `show step K`
    Step { k: u32 },
}
