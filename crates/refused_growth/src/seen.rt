// All that can be read of a keeper, without taking memory for it.
use crate::digest::Digest;
use crate::told::{add_numbers, add_step, add_work, class_number, scheduler_number};
use dispatch_core::{Flying, Listed, View};
use history::KeeperView;
use plain::{EntityView, RequestView, SectorView, State};
use sector_core::{BioFields, Class};

const SEATS: u8 = 16;

const GROUPS: u8 = 32;

const ENTITIES: u8 = 48;

// No list of a machine has more requests, and no request or outbox more bios.
const MOST_REQUESTS: usize = 256;

const MOST_BIOS: usize = 32;

/// What each reader of a keeper's view tells; that of a machine, but for how many exchanges were made.
#[derive(Clone, Copy, Debug, PartialEq, Eq)]
pub struct Seen {
    /// How many steps stand, how many the line has, the last serial, and how many calls were accepted.
    pub cursor: u32,
    pub length: u32,
    pub last: u64,
    pub entries: usize,
    /// Whether the host is held.
    pub held: bool,
    /// The steps of the line.
    pub line: Digest,
    /// Seats with their queues and heads, the dispatch list, what is in flight, outboxes, and what is stored.
    pub queues: Digest,
    pub requeued: Digest,
    pub flight: Digest,
    pub outboxes: Digest,
    pub overlay: Digest,
    /// Groups and entities with their times, weights and budgets; the scheduler.
    pub entities: Digest,
    pub modes: Digest,
}

/// Reads all of a keeper.
pub fn look_at(view: &KeeperView<'_>) -> Seen {
    let machine = view.machine();
    Seen {
        cursor: view.cursor(),
        length: view.length(),
        last: view.last_serial(),
        entries: view.journal_len(),
        held: view.held(),
        line: line_of(view),
        queues: queues_of(&machine),
        requeued: requeued_of(&machine),
        flight: flight_of(&machine),
        outboxes: outboxes_of(&machine),
        overlay: overlay_of(&machine),
        entities: entities_of(&machine),
        modes: modes_of(&machine),
    }
}

/// The first of two looks' fields that differ, or none.
pub fn difference(one: &Seen, other: &Seen) -> Option<&'static str> {
    if one.line != other.line || one.length != other.length {
        Some("the line")
    } else if one.cursor != other.cursor || one.last != other.last || one.held != other.held {
        Some("the cursor, the last serial or the hold")
    } else if one.entries != other.entries {
        Some("the journal")
    } else if one.queues != other.queues || one.requeued != other.requeued {
        Some("a queue or the dispatch list")
    } else if one.flight != other.flight {
        Some("what is in flight")
    } else if one.outboxes != other.outboxes {
        Some("an outbox")
    } else if one.overlay != other.overlay {
        Some("what is stored")
    } else if one.entities != other.entities || one.modes != other.modes {
        Some("an entity, a group or the scheduler")
    } else {
        None
    }
}

fn line_of(view: &KeeperView<'_>) -> Digest {
    let mut digest = Digest::new();
    for place in 0..view.length() {
        if let Some(stamped) = view.stamped(place) {
            digest.add(stamped.serial());
            add_step(&mut digest, stamped.step());
        }
    }
    digest
}

// Who sits where, where the head is, and what is queued there.
fn queues_of(machine: &View<'_>) -> Digest {
    let mut digest = Digest::new();
    for seat in 0..SEATS {
        digest.add(machine.head(seat));
        if let Some(who) = machine.seat(seat) {
            let leaving = u64::from(who.leaving);
            add_numbers(
                &mut digest,
                &[
                    who.session,
                    u64::from(who.prio),
                    u64::from(who.unreaped),
                    leaving,
                ],
            );
        }
        add_queue(&mut digest, machine, seat);
    }
    digest
}

fn add_queue(to: &mut Digest, machine: &View<'_>, seat: u8) {
    for place in 0..MOST_REQUESTS {
        let Some(request) = machine.queued(seat, place) else {
            break;
        };
        add_request(to, &request);
        add_place(to, machine.request(seat, place));
    }
    to.add(u64::from(seat));
}

// What stands at a place of a queue.
fn add_place(to: &mut Digest, place: RequestView) {
    match place {
        RequestView::Free => to.add(1),
        RequestView::Past => to.add(2),
        RequestView::Queued { range, bios } => {
            to.add_range(range);
            to.add(u64::from(bios));
        }
    }
}

fn add_request(to: &mut Digest, request: &Listed<'_>) {
    to.add(request.session());
    to.add_op(request.op());
    to.add(request.size());
    for place in 0..MOST_BIOS {
        let Some(bio) = request.bio(place) else {
            break;
        };
        add_bio(to, bio);
    }
}

fn add_bio(to: &mut Digest, bio: &BioFields) {
    to.add(bio.serial);
    to.add_range(bio.range);
    to.add_bytes(bio.payload.as_slice());
    match &bio.result {
        Some(result) => to.add_result(result),
        None => to.add(0),
    }
}

fn requeued_of(machine: &View<'_>) -> Digest {
    let mut digest = Digest::new();
    for place in 0..MOST_REQUESTS {
        let Some(request) = machine.requeued(place) else {
            break;
        };
        add_request(&mut digest, &request);
    }
    digest
}

fn flight_of(machine: &View<'_>) -> Digest {
    let mut digest = Digest::new();
    for tag in 0..machine.tags() {
        if let Some(work) = machine.in_flight(tag) {
            add_work(&mut digest, work);
        }
        match machine.flight(tag) {
            Some(flying) => add_flying(&mut digest, &flying),
            None => digest.add(0),
        }
    }
    digest
}

fn add_flying(to: &mut Digest, flying: &Flying<'_>) {
    to.add(flying.issue());
    add_request(to, flying.request());
}

fn outboxes_of(machine: &View<'_>) -> Digest {
    let mut digest = Digest::new();
    for seat in 0..SEATS {
        digest.add(machine.outbox_len(seat) as u64);
        for place in 0..MOST_BIOS {
            let Some(bio) = machine.completed(seat, place) else {
                break;
            };
            add_bio(&mut digest, bio);
        }
    }
    digest
}

// Each stored sector with its bytes. Two stored sectors have no more than one gap before each, so each turn of the loop takes one run.
fn overlay_of(machine: &View<'_>) -> Digest {
    let mut digest = Digest::new();
    let mut from = 0;
    for _ in 0..u32::MAX {
        let Some(run) = machine.stored(from) else {
            break;
        };
        digest.add_range(run);
        for place in 0..run.count {
            add_sector(
                &mut digest,
                machine,
                run.start.wrapping_add(u64::from(place)),
            );
        }
        from = run.start.wrapping_add(u64::from(run.count));
    }
    digest
}

fn add_sector(to: &mut Digest, machine: &View<'_>, number: u64) {
    match machine.sector(number) {
        SectorView::Outside => to.add(1),
        SectorView::Base => to.add(2),
        SectorView::Stored(block) => to.add_bytes(block.as_slice()),
    }
}

fn entities_of(machine: &View<'_>) -> Digest {
    let mut digest = Digest::new();
    for group in 0..GROUPS {
        for class in [Class::RealTime, Class::BestEffort, Class::Idle] {
            if let Some(vtime) = machine.vtime(group, class) {
                add_numbers(&mut digest, &[u64::from(group), class_number(class), vtime]);
            }
        }
    }
    for number in 0..ENTITIES {
        digest.add(u64::from(machine.pending(number)));
        digest.add(u64::from(machine.budget(number)));
        if let (Some(group), Some(entity)) = (machine.parent(number), machine.entity(number)) {
            add_numbers(&mut digest, &[u64::from(number), u64::from(group)]);
            add_entity(&mut digest, entity);
        }
    }
    digest
}

fn add_entity(to: &mut Digest, entity: EntityView) {
    let state = match entity.state {
        State::Idle => 0,
        State::Active => 1,
        State::Serving => 2,
    };
    add_numbers(
        to,
        &[
            class_number(entity.class),
            state,
            entity.start,
            entity.finish,
            u64::from(entity.weight),
            u64::from(entity.budget),
            u64::from(entity.service),
        ],
    );
}

fn modes_of(machine: &View<'_>) -> Digest {
    let mut digest = Digest::new();
    digest.add(scheduler_number(machine.scheduler()));
    digest.add(u64::from(machine.frozen()));
    digest.add(u64::from(machine.served()));
    if let Some(slot) = machine.in_service() {
        add_numbers(
            &mut digest,
            &[u64::from(slot.seat), u64::from(slot.service), slot.age],
        );
    }
    digest
}
