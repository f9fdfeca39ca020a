// One exchange on one place.
use crate::{MemberPlace, Outbox};
use plain::{InService, Seat, Vtimes};
use process_queue::Link;
use request_pool::Request;
use sector_core::{Bio, Block, Entity, Scheduler, Slot};
use std::mem::size_of;
use tag_set::Issue;

/// What the tables of a machine are made for.
#[derive(Clone, Copy)]
pub struct Making {
    /// How many requests may be queued, in the dispatch list or in flight.
    pub requests: u16,
    /// How many tags the device has.
    pub tags: u8,
    /// The scheduler that the host starts with.
    pub scheduler: Scheduler,
    /// The budget of a new queue in sectors.
    pub first_budget: u32,
    /// The greatest budget in sectors; a group's is always that.
    pub max_budget: u32,
    /// The virtual time at which every group starts.
    pub first_vtime: u64,
}

/// An exchange: a place of the tables, and the value that is to stand there, or after a turn the one that stood there.
///
/// A block, a request and a bio are one word wide: what goes from the tape to the tables and back is that word.
#[derive(Drop)]
pub enum Change {
    /// The overlay at a sector.
    Sector {
        sector: u64,
        block: Option<Block>,
    },
    /// A slot of the requests.
    RequestSlot {
        slot: Slot,
        request: Option<Request>,
    },
    /// A slot of the bios.
    BioSlot {
        slot: Slot,
        bio: Option<Bio>,
    },
    /// What a tag bears.
    Tag {
        tag: u8,
        issue: Option<Issue>,
    },
    /// Where a slot is queued.
    QueueLink {
        slot: Slot,
        link: Option<Link>,
    },
    /// A seat's outbox, whole.
    OutboxWhole {
        seat: u8,
        outbox: Outbox,
    },
    /// A seat's entry.
    SeatEntry {
        seat: u8,
        entry: Option<Seat>,
    },
    /// Where a slot stands in the dispatch list, if it does.
    Requeued {
        slot: Slot,
        link: Option<Link>,
    },
    /// The scheduler, whether submits wait, and the seat that the round robin served last.
    Mode {
        scheduler: Scheduler,
        frozen: bool,
        served: u8,
    },
    /// The head of a seat's queue, a sector.
    Head {
        seat: u8,
        head: u64,
    },
    /// What a group knows of an entity.
    TreeMember {
        group: u8,
        entity: Entity,
        member: MemberPlace,
    },
    /// The virtual times of a group, one of each class.
    Vtime {
        group: u8,
        vtimes: Vtimes,
    },
    /// The group that an entity is in.
    GroupEntry {
        entity: Entity,
        group: Option<u8>,
    },
    /// The pending weight of an entity.
    Pending {
        entity: Entity,
        weight: u32,
    },
    /// The budget of an entity in sectors.
    Budget {
        entity: Entity,
        budget: u32,
    },
    /// The queue in service, if one is.
    Serving {
        slot: Option<InService>,
    },
}

// A tape has some four of them for each call, and never drops one of a step that stands or waits.
const _: () = prove!(size_of::<Change>() <= 32);
