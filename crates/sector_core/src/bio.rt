// Bios, and what becomes of them.
use crate::Range;
use boxed::Boxed;
use bytes::Bytes;

/// The number of a slot in a fixed table.
pub type Slot = u16;

/// The number of an entity: 0 to 15 is the session at that seat, 16 + g is group g.
pub type Entity = u8;

/// What a bio asks for.
#[derive(Clone, Copy, Debug, PartialEq, Eq)]
pub enum Op {
    /// Read sectors.
    Fetch,
    /// Write sectors.
    Store,
    /// Forget what sectors have: they read as zeros then.
    Discard,
}

/// How a device can fail a read.
#[derive(Clone, Copy, Debug, PartialEq, Eq)]
pub enum FailKind {
    /// The image ended before the range.
    Short,
    /// The device reported a fault.
    Fault,
}

/// What the client gets back for a bio.
#[derive(Clone, Debug, Drop)]
pub enum BioResult {
    /// The bytes that were read, 512 for each sector.
    Read(Bytes),
    /// The sectors are written.
    Written,
    /// The sectors are discarded, and read as zeros.
    Discarded,
    /// The device failed.
    IoError(FailKind),
}

/// What the device says of a request.
#[derive(Clone, Debug, Drop)]
pub enum Outcome {
    /// The image's bytes of the request's range.
    Fetched(Bytes),
    /// A store or a discard is done.
    Stored,
    /// A fetch failed.
    Failed(FailKind),
}

/// What an outcome does to the sectors and the bios of its request, by the request's operation.
#[derive(Debug, Drop)]
pub enum Effect {
    /// The bios get the bytes that were read: the image's, from the first sector of the request on.
    Reads(Bytes),
    /// The sectors get the payloads of the bios.
    Writes,
    /// The sectors get zeros.
    Clears,
    /// The bios fail.
    Fails(FailKind),
}

/// One request of a client, one word wide: its fields stand in a box of their own. In contracts it is its fields.
pub type Bio = Boxed<BioFields>;

/// What a bio has: a serial, a range, the bytes of a store, and its result once it is completed.
#[derive(Debug, Drop)]
pub struct BioFields {
    /// The serial of the step that submitted it.
    pub serial: u64,
    /// Its sectors, 1 to 64 of them.
    pub range: Range,
    /// The bytes to store, 512 for each sector; none for a fetch or a discard.
    pub payload: Bytes,
    /// What became of it, once it is completed.
    pub result: Option<BioResult>,
}
