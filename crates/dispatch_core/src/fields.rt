// What stands in a machine, field by field.
ghost use Rattle.std.specs.Prelude.{◌≡◌, ℕ, ◌<◌, ◌≤◌, ◌^◌, length, slice_get};
ghost use Rattle.std.specs.Option.{option_copied};
ghost use Rattle.plain.specs.Runs.{IsNextRun};
ghost use Rattle.dispatch_core.specs.Running.{plain_of, IsFor};
ghost use Rattle.change_record.specs.Machine.{whole_at};

use crate::listed::{Flying, Listed, nth_bio};
use crate::machine::View;
use crate::slots::outbox_slots;
use plain::{InService, Seat};
use sector_core::{BioFields, Entity, Range, Slot};

// No longer run is told at once.
const MOST_STORED: u32 = 65536;

impl<'a> View<'a> {
    /// Who sits at a seat.
    pub fn seat(&self, seat: u8) -> Option<Seat>
        ensures { result ≡ (plain_of self.now).seat seat }
    {
        let machine = self.machine;
        machine.parts.seat(seat)
    }

    /// Where the head of a seat's queue is, a sector.
    pub fn head(&self, seat: u8) -> u64
        ensures { result ≡ (plain_of self.now).head seat }
    {
        let machine = self.machine;
        machine.parts.head(seat)
    }

    /// The seat that the round robin served last.
    pub fn served(&self) -> u8
        ensures { result ≡ (plain_of self.now).served }
    {
        let machine = self.machine;
        machine.parts.served()
    }

    /// The group that an entity is in.
    pub fn parent(&self, entity: Entity) -> Option<u8>
        ensures { result ≡ (plain_of self.now).bfq.parent entity }
    {
        let machine = self.machine;
        machine.parts.groups().parent(entity)
    }

    /// The weight that an entity gets when it is stamped next.
    pub fn pending(&self, entity: Entity) -> u32
        ensures { result ≡ (plain_of self.now).bfq.pending entity }
    {
        let machine = self.machine;
        machine.parts.pending(entity)
    }

    /// The budget of an entity, in sectors.
    pub fn budget(&self, entity: Entity) -> u32
        ensures { result ≡ (plain_of self.now).bfq.budget entity }
    {
        let machine = self.machine;
        machine.parts.budget(entity)
    }

    /// The queue in service, if one is.
    pub fn in_service(&self) -> Option<InService>
        ensures { result ≡ (plain_of self.now).bfq.in_service }
    {
        let machine = self.machine;
        machine.parts.slot()
    }

    /// The request at a place of a seat's queue, in order of insertion.
    pub fn queued(&self, seat: u8, place: usize) -> Option<Listed<'a>>
        ensures request { (n : ℕ) → IsFor n self.now → result ≡ slice_get ((plain_of self.now).queue seat) place }
        ensures few { (n : ℕ) → IsFor n self.now → length ((plain_of self.now).queue seat) < 2 ^ 16 }
    {
        let machine = self.machine;
        let slot = machine.parts.queues().nth(seat, place)?;
        self.listed(slot)
    }

    /// The request at a place of the dispatch list, the first to be sent first.
    pub fn requeued(&self, place: usize) -> Option<Listed<'a>>
        ensures request { (n : ℕ) → IsFor n self.now → result ≡ slice_get (plain_of self.now).requeued place }
        ensures few { (n : ℕ) → IsFor n self.now → length (plain_of self.now).requeued < 2 ^ 16 }
    {
        let machine = self.machine;
        let slot = machine.parts.requeued().nth(0, place)?;
        self.listed(slot)
    }

    /// What a tag bears.
    pub fn flight(&self, tag: u8) -> Option<Flying<'a>>
        ensures { result ≡ (plain_of self.now).flight tag }
    {
        let machine = self.machine;
        let issue = machine.parts.tags().get(tag)?;
        let request = self.listed(issue.slot)?;
        Some(Flying {
            issue: issue.issue,
            request,
        })
    }

    /// The least stored sector from one on, and how many follow it without a gap, itself among them, at most 65,536.
    pub fn stored(&self, from: u64) -> Option<Range>
        ensures { IsNextRun (plain_of self.now).overlay from 65536 result }
    {
        let machine = self.machine;
        machine.parts.overlay().next_run(from, MOST_STORED)
    }

    /// The completed bio at a place of a seat's outbox, the first to be reaped first.
    pub fn completed(&self, seat: u8, place: usize) -> Option<&'a BioFields>
        ensures bio { option_copied result ≡ slice_get ((plain_of self.now).outbox seat) place }
        ensures few { length ((plain_of self.now).outbox seat) ≤ 32 }
    {
        let machine = self.machine;
        nth_bio(
            machine.parts.pool(),
            outbox_slots(&machine.parts, seat),
            place,
        )
    }

    // The request in a slot.
    fn listed(&self, slot: Slot) -> Option<Listed<'a>>
        ensures { result ≡ whole_at self.now.tables.requests self.now.tables.bios slot }
    {
        let machine = self.machine;
        let pool = machine.parts.pool();
        let request = pool.request(slot)?;
        Some(Listed { pool, request })
    }
}
