// The numbers of the machine.

/// How many seats there are; the entities from 0 on are those of the seats.
pub const SEATS: u8 = 16;

/// How many groups there are at most, the root among them; behind those of the seats come the entities of the groups.
pub const GROUPS: u8 = 32;

/// How many entities there are at most.
pub const ENTITIES: u8 = 48;

/// How many sectors a bio has at most.
pub const BIO_SECTORS: u32 = 64;

/// How many bios of a session may be submitted and not yet reaped.
pub const SESSION_BIOS: u8 = 32;

/// How many bytes a sector has.
pub const SECTOR_BYTES: usize = 512;

/// The least budget in sectors.
pub const LEAST_BUDGET: u32 = 256;
