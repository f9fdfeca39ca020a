// The names of seats.

/// Whose an accepted call is: the name under which the host's journal has it.
#[derive(Clone, Copy, Debug, PartialEq, Eq)]
pub enum SeatName {
    /// The client at this seat, 0 to 15.
    Client(u8),
    /// The device worker of this number, 0 to 3.
    Device(u8),
    /// The operator.
    Operator,
    /// Nobody: a Dispatch that the host's core made by itself.
    Core,
}
