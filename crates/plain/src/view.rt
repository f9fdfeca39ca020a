// What a look at a machine shows.
use crate::State;
use sector_core::{Block, Class, Range};

/// The content of a sector.
pub enum SectorView<'a> {
    /// There is no such sector.
    Outside,
    /// Nothing has been stored or discarded there: it is the image's.
    Base,
    /// The overlay's block.
    Stored(&'a Block),
}

/// What stands at a place of a seat's queue.
#[derive(Clone, Copy)]
pub enum RequestView {
    /// Nobody sits at the seat, or there is no such seat.
    Free,
    /// The queue has fewer requests.
    Past,
    /// A queued request: its sectors, and how many bios it has.
    Queued { range: Range, bios: u32 },
}

/// What is known of an entity: a session's or a group's.
#[derive(Clone, Copy)]
pub struct EntityView {
    /// Its class.
    pub class: Class,
    /// Whether it waits for service, is served, or neither.
    pub state: State,
    /// Its start, a virtual time.
    pub start: u64,
    /// Its finish, a virtual time.
    pub finish: u64,
    /// Its weight in effect.
    pub weight: u32,
    /// Its budget in sectors.
    pub budget: u32,
    /// The sectors sent for it since it was selected, where it is in service; else 0.
    pub service: u32,
}
