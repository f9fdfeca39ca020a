// What a machine was made for.
use sector_core::Scheduler;

/// The sizes of a machine, which no step changes.
#[derive(Clone, Copy)]
pub struct Sizes {
    /// The sectors of its image.
    pub sectors: u64,
    /// How many requests may be queued, in the dispatch list or in flight.
    pub requests: u16,
    /// How many tags the device has.
    pub tags: u8,
    /// The scheduler that it begins with.
    pub scheduler: Scheduler,
    /// The budget of a new queue in sectors.
    pub first_budget: u32,
    /// The greatest budget in sectors.
    pub max_budget: u32,
    /// The tick at which a queue in service is due to expire: with as many it is over.
    pub timeout: u32,
    /// The virtual time at which every group starts.
    pub first_vtime: u64,
}
