// What a merge asks of a request.
use sector_core::Op;

/// What a merge asks of a request.
#[derive(Clone, Copy, Debug, PartialEq, Eq)]
pub struct Shape {
    /// The session of its bios.
    pub session: u64,
    /// What its bios ask for.
    pub op: Op,
    /// The first sector of its first bio.
    pub start: u64,
    /// How many sectors its bios have together.
    pub size: u64,
    /// How many bios it has.
    pub bios: usize,
}
