// Why a rule is refused.

/// A rule would make a time greater than 2^62.
#[derive(Clone, Copy, Debug, PartialEq, Eq)]
pub struct VtimeFull;
