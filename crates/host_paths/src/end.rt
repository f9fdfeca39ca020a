// How a server ends.

/// How a server ended.
#[derive(Clone, Copy, Debug, PartialEq, Eq)]
pub enum ServeEnd {
    /// The operator has stopped the host.
    Stopped,
    /// A path cannot be had, or a thread cannot be started.
    Socket,
    /// There is no memory for the host or its sockets.
    OutOfMemory,
}
