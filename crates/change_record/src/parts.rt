// All tables of the host.
ghost use Rattle.std.specs.Prelude.{◌≡◌, ◌+◌, ◌%◌, ◌^◌, None, IfOk, IsOk, OnOk, OnErr, IfSome, IsSome, MatchOption, ◌++◌, replicate, slice_index_or, slice_get, slice_set, []};
ghost use Rattle.std.specs.Option.{option_copied};
ghost use Rattle.change_record.specs.Tables.{empty_tables};
ghost use Rattle.plain.specs.Opening.{empty_service};
ghost use Rattle.std.specs.FinMap as map;
ghost use Rattle.overlay.specs.Blocks.{exchanged};
ghost use Rattle.change_record.specs.Exchange.{IsBesideOverlay, after, left_by, AddsBlock, FitsAt, FitsIn, tree_of};
ghost use Rattle.plain.specs.Classes.{with_member, with_vtimes};

use crate::{Change, Making, MemberPlace, Outbox};
use class_trees::ClassTrees;
use group_tree::GroupTree;
use overlay::Overlay;
use plain::{InService, Seat, Vtimes};
use process_queue::{Link, ProcessQueue};
use request_pool::{Request, RequestPool};
use sector_core::{Bio, Block, Entity, OutOfMemory, Scheduler, Slot, empty_table};
use std::alloc::Global;
use std::marker::Model;
use std::mem;
use tag_set::TagSet;

/// The overlay, the pool, the tags, the queues, the dispatch list, the outboxes, the seats, the mode of the host, and what BFQ knows
/// of entities and groups.
pub struct Parts {
    overlay: Overlay,
    pool: RequestPool,
    tags: TagSet,
    queues: ProcessQueue,
    requeued: ProcessQueue,
    outboxes: Vec<Outbox>,
    seats: Vec<Option<Seat>>,
    frozen: bool,
    served: u8,
    heads: Vec<u64>,
    trees: Vec<ClassTrees>,
    groups: GroupTree,
    weights: Vec<u32>,
    budgets: Vec<u32>,
    slot: Option<InService>,
    scheduler: Scheduler,
    turns: u64,
}

// Written out, and not derived: so who drops one, in whatever crate, calls this, and proves no drop of each part anew.
impl Drop for Parts {
    fn drop(self) {
        let Parts {
            overlay: _,
            pool: _,
            tags: _,
            queues: _,
            requeued: _,
            outboxes: _,
            seats: _,
            frozen: _,
            served: _,
            heads: _,
            trees: _,
            groups: _,
            weights: _,
            budgets: _,
            slot: _,
            scheduler: _,
            turns: _,
        } = self;
    }
}

impl Model for Parts {
    ghost use Rattle.std.specs.Coded.{codes};
    ghost use Rattle.overlay.specs.Blocks.{blocks_code};
    ghost use Rattle.change_record.specs.Tables.{Loose};

    ghost Value = { Loose };

    ghost coded = { Prim.hlevel (codes, blocks_code) };

    ghost view = { λ p. record {
      tables = record {
        overlay = p.overlay;
        requests = p.pool.requests;
        bios = p.pool.bios;
        tags = p.tags;
        links = p.queues;
        requeued = p.requeued;
        outboxes = p.outboxes.items;
        seats = p.seats.items;
        frozen = p.frozen;
        served = p.served;
        heads = p.heads.items;
        trees = p.trees.items;
        parents = p.groups;
        weights = p.weights.items;
        budgets = p.budgets.items;
        in_service = p.slot;
        scheduler = p.scheduler;
      };
      turns = p.turns;
    } };
}

impl Parts {
    /// Empty tables.
    pub fn new(alloc: Global, making: Making) -> Result<Parts, OutOfMemory>
        ensures { IfOk result (λ parts. parts ≡ record { tables = empty_tables making; turns = 0 }) }
    {
        let (pool, tags, queues, requeued) = empty_queues(alloc, making)?;
        let (outboxes, seats, heads) = empty_seats(alloc)?;
        let (trees, weights, budgets) = empty_entities(alloc, making)?;
        Ok(Parts {
            overlay: Overlay::new(alloc),
            pool,
            tags,
            queues,
            requeued,
            outboxes,
            seats,
            frozen: false,
            served: 15,
            heads,
            trees,
            groups: GroupTree::new(),
            weights,
            budgets,
            slot: None,
            scheduler: making.scheduler,
            turns: 0,
        })
    }

    /// How many exchanges were made, modulo 2^64.
    pub fn turns(&self) -> u64
        ensures { result ≡ self.now.turns }
    {
        self.turns
    }

    /// The overlay.
    pub fn overlay(&self) -> &Overlay
        ensures { result.now ≡ self.now.tables.overlay }
    {
        &self.overlay
    }

    /// The slots of requests and bios.
    pub fn pool(&self) -> &RequestPool
        ensures requests { result.now.requests ≡ self.now.tables.requests }
        ensures bios { result.now.bios ≡ self.now.tables.bios }
    {
        &self.pool
    }

    /// The tags.
    pub fn tags(&self) -> &TagSet
        ensures { result.now ≡ self.now.tables.tags }
    {
        &self.tags
    }

    /// The software queues.
    pub fn queues(&self) -> &ProcessQueue
        ensures { result.now ≡ self.now.tables.links }
    {
        &self.queues
    }

    /// The dispatch list, as the queue of number 0.
    pub fn requeued(&self) -> &ProcessQueue
        ensures { result.now ≡ self.now.tables.requeued }
    {
        &self.requeued
    }

    /// Who sits at a seat.
    pub fn seat(&self, seat: u8) -> Option<Seat>
        ensures { result ≡ slice_index_or self.now.tables.seats seat None }
    {
        match self.seats.get(usize::from(seat)) {
            Some(entry) => *entry,
            None => None,
        }
    }

    /// The outbox of a seat.
    pub fn outbox(&self, seat: u8) -> Option<&Outbox>
        ensures { option_copied result ≡ slice_get self.now.tables.outboxes seat }
    {
        self.outboxes.get(usize::from(seat))
    }

    /// Whether submits wait.
    pub fn frozen(&self) -> bool
        ensures { result ≡ self.now.tables.frozen }
    {
        self.frozen
    }

    /// The seat that the round robin served last.
    pub fn served(&self) -> u8
        ensures { result ≡ self.now.tables.served }
    {
        self.served
    }

    /// Where the head of a seat's queue is, a sector.
    pub fn head(&self, seat: u8) -> u64
        ensures { result ≡ slice_index_or self.now.tables.heads seat 0 }
    {
        match self.heads.get(usize::from(seat)) {
            Some(head) => *head,
            None => 0,
        }
    }

    /// The trees of a group.
    pub fn tree(&self, group: u8) -> Option<&ClassTrees>
        ensures { option_copied result ≡ slice_get self.now.tables.trees group }
    {
        self.trees.get(usize::from(group))
    }

    /// The groups.
    pub fn groups(&self) -> &GroupTree
        ensures { result.now ≡ self.now.tables.parents }
    {
        &self.groups
    }

    /// The pending weight of an entity.
    pub fn pending(&self, entity: Entity) -> u32
        ensures { result ≡ slice_index_or self.now.tables.weights entity 1 }
    {
        match self.weights.get(usize::from(entity)) {
            Some(weight) => *weight,
            None => 1,
        }
    }

    /// The budget of an entity in sectors.
    pub fn budget(&self, entity: Entity) -> u32
        ensures { result ≡ slice_index_or self.now.tables.budgets entity 256 }
    {
        match self.budgets.get(usize::from(entity)) {
            Some(budget) => *budget,
            None => 256,
        }
    }

    /// The queue in service, if one is.
    pub fn slot(&self) -> Option<InService>
        ensures { result ≡ self.now.tables.in_service }
    {
        self.slot
    }

    /// The scheduler.
    pub fn scheduler(&self) -> Scheduler
        ensures { result ≡ self.now.tables.scheduler }
    {
        self.scheduler
    }

    /// Puts the change's value at its place, and the value that stood there into the change.
    ///
    /// # Errors
    ///
    /// It refuses only where it would add a block to the overlay and there is no memory; then nothing has changed.
    pub fn turn(&mut self, change: &mut Change) -> Result<(), OutOfMemory>
        ensures tables { OnOk result (self.new.tables ≡ after self.old.tables change.old) }
        ensures left { OnOk result (change.new ≡ left_by self.old.tables change.old) }
        ensures turns { OnOk result (self.new.turns ≡ (self.old.turns + 1) % 2 ^ 64) }
        ensures err { OnErr result (self.new ≡ self.old) }
        ensures handed_back { OnErr result (change.new ≡ change.old) }
        ensures adds { OnErr result (AddsBlock self.old.tables change.old) }
        ensures fits { FitsIn self.old.tables change.old → IsOk result }
    {
        match change {
            Change::Sector { sector, block } => exchange_block(&mut self.overlay, *sector, block)?,
            // `turn_table` names each of them, so a new place cannot be forgotten there.
            _ => self.turn_table(change),
        }
        self.turns = self.turns.wrapping_add(1);
        Ok(())
    }

    // Turns a change of any table but the overlay. It takes no memory.
    fn turn_table(&mut self, change: &mut Change)
        requires { IsBesideOverlay change.old }
        ensures tables { self.new.tables ≡ after self.old.tables change.old }
        ensures left { change.new ≡ left_by self.old.tables change.old }
        ensures turns { self.new.turns ≡ self.old.turns }
    {
        match change {
            Change::RequestSlot { slot, request } => swap_request(&mut self.pool, *slot, request),
            Change::BioSlot { slot, bio } => swap_bio(&mut self.pool, *slot, bio),
            Change::Tag { tag, issue } => *issue = self.tags.exchange(*tag, *issue),
            Change::QueueLink { slot, link } => exchange_link(&mut self.queues, *slot, link),
            Change::OutboxWhole { seat, outbox } => swap_at(&mut self.outboxes, *seat, outbox),
            Change::SeatEntry { seat, entry } => swap_at(&mut self.seats, *seat, entry),
            Change::Requeued { slot, link } => exchange_link(&mut self.requeued, *slot, link),
            Change::Mode {
                scheduler,
                frozen,
                served,
            } => {
                mem::swap(&mut self.scheduler, scheduler);
                mem::swap(&mut self.frozen, frozen);
                mem::swap(&mut self.served, served);
            }
            Change::Head { seat, head } => swap_at(&mut self.heads, *seat, head),
            Change::TreeMember {
                group,
                entity,
                member,
            } => exchange_member(&mut self.trees, *group, *entity, member),
            Change::Vtime { group, vtimes } => exchange_vtimes(&mut self.trees, *group, vtimes),
            Change::GroupEntry { entity, group } => *group = self
                .groups
                .exchange_group(*entity, *group),
            Change::Pending { entity, weight } => swap_at(&mut self.weights, *entity, weight),
            Change::Budget { entity, budget } => swap_at(&mut self.budgets, *entity, budget),
            Change::Serving { slot } => mem::swap(&mut self.slot, slot),
            // `turn` puts blocks by itself.
            Change::Sector { .. } => {}
        }
    }
}

// Puts the block at the sector, and what stood there into its stead. Where there is no memory for it nothing changes.
fn exchange_block(
    overlay: &mut Overlay,
    sector: u64,
    block: &mut Option<Block>,
) -> Result<(), OutOfMemory>
    ensures overlay { OnOk result (overlay.new ≡ exchanged overlay.old sector block.old) }
    ensures left { OnOk result (block.new ≡ map.get overlay.old sector) }
    ensures err { OnErr result (overlay.new ≡ overlay.old) }
    ensures handed_back { OnErr result (block.new ≡ block.old) }
    ensures adds { OnErr result ((map.get overlay.old sector ≡ None) × IsSome block.old) }
    ensures fits { FitsAt overlay.old sector block.old → IsOk result }
{
    match overlay.exchange(sector, block.take()) {
        Ok(left) => {
            *block = left;
            Ok(())
        }
        Err(back) => {
            *block = back.0;
            Err(OutOfMemory)
        }
    }
}

// Puts a request, or none, at a slot, and what stood there into its stead. If there is no such slot nothing changes.
fn swap_request(pool: &mut RequestPool, slot: Slot, request: &mut Option<Request>)
    ensures pool { pool.new ≡ record pool.old { requests = slice_set pool.old.requests slot request.old } }
    ensures left { request.new ≡ slice_index_or pool.old.requests slot request.old }
{
    let given = request.take();
    *request = pool.exchange_request(slot, given);
}

// Puts a bio, or none, at a slot, and what stood there into its stead. If there is no such slot nothing changes.
fn swap_bio(pool: &mut RequestPool, slot: Slot, bio: &mut Option<Bio>)
    ensures pool { pool.new ≡ record pool.old { bios = slice_set pool.old.bios slot bio.old } }
    ensures left { bio.new ≡ slice_index_or pool.old.bios slot bio.old }
{
    let given = bio.take();
    *bio = pool.exchange_bio(slot, given);
}

// Links the slot or takes it out of its queue, and puts the link that it had in the stead of the new one.
fn exchange_link(queues: &mut ProcessQueue, slot: Slot, link: &mut Option<Link>)
    ensures queues { queues.new ≡ slice_set queues.old slot link.old }
    ensures left { link.new ≡ slice_index_or queues.old slot link.old }
{
    *link = match *link {
        Some(given) => queues.link(slot, given.seat, given.serial),
        None => queues.unlink(slot),
    };
}

// Puts a value at a place of a table, and what stood there into its stead; where there is no such place nothing changes.
fn swap_at<T>(table: &mut Vec<T>, at: u8, value: &mut T)
    ensures table { table.new.items ≡ slice_set table.old.items at value.old }
    ensures left { value.new ≡ slice_index_or table.old.items at value.old }
{
    if let Some(place) = table.get_mut(usize::from(at)) {
        mem::swap(place, value);
    }
}

// Puts a member, or none, at an entity's place in a group's tree, and what stood there into its stead.
fn exchange_member(trees: &mut Vec<ClassTrees>, group: u8, entity: Entity, member: &mut MemberPlace)
    ensures trees { trees.new.items ≡ slice_set trees.old.items group (with_member (tree_of trees.old.items group) entity member.old) }
    ensures left { member.new ≡ slice_index_or (tree_of trees.old.items group).members entity member.old }
{
    if let Some(tree) = trees.get_mut(usize::from(group)) {
        *member = MemberPlace::of(tree.exchange(entity, member.member()));
    }
}

// Puts virtual times at a group, and those that stood there into their stead.
fn exchange_vtimes(trees: &mut Vec<ClassTrees>, group: u8, vtimes: &mut Vtimes)
    ensures trees { trees.new.items ≡ slice_set trees.old.items group (with_vtimes (tree_of trees.old.items group) vtimes.old) }
    ensures left { vtimes.new ≡ (slice_index_or trees.old.items group (with_vtimes (tree_of trees.old.items group) vtimes.old)).vtimes }
{
    if let Some(tree) = trees.get_mut(usize::from(group)) {
        *vtimes = tree.exchange_vtimes(*vtimes);
    }
}

// Three groups of empty tables, so that each function has few to give back if memory is short.

// The pool, the tags, the queues and the dispatch list, without a request.
fn empty_queues(
    alloc: Global,
    making: Making,
) -> Result<(RequestPool, TagSet, ProcessQueue, ProcessQueue), OutOfMemory>
    ensures pool { IfOk result (λ made. made.0 ≡ record { requests = replicate making.requests None; bios = replicate 512 None }) }
    ensures tags { IfOk result (λ made. made.1 ≡ replicate making.tags None) }
    ensures queues { IfOk result (λ made. made.2 ≡ replicate making.requests None) }
    ensures requeued { IfOk result (λ made. made.3 ≡ replicate making.requests None) }
{
    Ok((
        RequestPool::new(alloc, making.requests)?,
        TagSet::new(alloc, making.tags)?,
        ProcessQueue::new(alloc, making.requests)?,
        ProcessQueue::new(alloc, making.requests)?,
    ))
}

// The outboxes, the seats and the heads, with nobody at a seat.
fn empty_seats(alloc: Global) -> Result<(Vec<Outbox>, Vec<Option<Seat>>, Vec<u64>), OutOfMemory>
    ensures outboxes { IfOk result (λ made. made.0.items ≡ replicate 16 (record { items = [] })) }
    ensures seats { IfOk result (λ made. made.1.items ≡ replicate 16 None) }
    ensures heads { IfOk result (λ made. made.2.items ≡ replicate 16 0) }
{
    Ok((
        empty_outboxes(alloc)?,
        empty_table(alloc, 16)?,
        table_of(alloc, 16, 0)?,
    ))
}

// The trees, the pending weights and the budgets of a machine that has served nobody yet.
fn empty_entities(
    alloc: Global,
    making: Making,
) -> Result<(Vec<ClassTrees>, Vec<u32>, Vec<u32>), OutOfMemory>
    ensures trees { IfOk result (λ made. made.0.items ≡ replicate 32 (empty_service making.first_vtime)) }
    ensures weights { IfOk result (λ made. made.1.items ≡ replicate 48 1) }
    ensures budgets { IfOk result (λ made. made.2.items ≡ replicate 16 making.first_budget ++ replicate 32 making.max_budget) }
{
    Ok((
        empty_trees(alloc, making.first_vtime)?,
        table_of(alloc, 48, 1)?,
        first_budgets(alloc, making.first_budget, making.max_budget)?,
    ))
}

// Sixteen empty outboxes.
fn empty_outboxes(alloc: Global) -> Result<Vec<Outbox>, OutOfMemory>
    ensures { IfOk result (λ boxes. boxes.items ≡ replicate 16 (record { items = [] })) }
{
    let mut boxes = Vec::with_capacity(alloc, 16)?;
    for _ in 0..16u8 {
        boxes.push(Outbox::empty(alloc))?;
    }
    Ok(boxes)
}

// So many times the same number.
fn table_of<T: Copy>(alloc: Global, count: u16, value: T) -> Result<Vec<T>, OutOfMemory>
    ensures { IfOk result (λ table. table.items ≡ replicate count value) }
{
    let mut table = Vec::with_capacity(alloc, usize::from(count))?;
    for _ in 0..count {
        table.push(value)?;
    }
    Ok(table)
}

// The budgets of the 16 seats and of the 32 groups.
fn first_budgets(alloc: Global, seats: u32, groups: u32) -> Result<Vec<u32>, OutOfMemory>
    ensures { IfOk result (λ table. table.items ≡ replicate 16 seats ++ replicate 32 groups) }
{
    let mut table = table_of(alloc, 16, seats)?;
    for _ in 0..32u8 {
        table.push(groups)?;
    }
    Ok(table)
}

// The trees of the 32 groups, without a member.
fn empty_trees(alloc: Global, vtime: u64) -> Result<Vec<ClassTrees>, OutOfMemory>
    ensures { IfOk result (λ trees. trees.items ≡ replicate 32 (empty_service vtime)) }
{
    let mut trees = Vec::with_capacity(alloc, 32)?;
    for _ in 0..32u8 {
        trees.push(ClassTrees::new(vtime))?;
    }
    Ok(trees)
}
