// The versions of the protocol.

/// A version of what is sent. Only what a client sends differs: version 2 has discards, and an Attach that says its class.
#[derive(Clone, Copy, Debug, PartialEq, Eq)]
pub enum Version {
    /// That of every stream that does not say another.
    One,
    /// That of a client's stream whose first frame says so.
    Two,
}
