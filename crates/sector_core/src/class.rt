// The class of an entity.

/// The class in which an entity competes with its siblings: a higher class goes before a lower one, whatever the times are (bfq).
#[derive(Clone, Copy, Debug, PartialEq, Eq)]
pub enum Class {
    /// Goes before all others.
    RealTime,
    /// The usual class, and that of every group.
    BestEffort,
    /// Goes if no other waits.
    Idle,
}
