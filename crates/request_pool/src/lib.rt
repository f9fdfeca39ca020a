#![tactic(auto)]
//! The pool of requests and bios: two fixed tables of slots.
//!
//! | call | rule that it meets |
//! |---|---|
//! | [`RequestPool::request`], [`RequestPool::bio`] | what stands in a slot |
//! | [`RequestPool::free_request`] | the first free slot of a request |
//! | [`RequestPool::free_bio`] | the first free slot of a bio among those of a seat |
//! | [`RequestPool::exchange_request`], [`RequestPool::exchange_bio`] | put a value, or none, in one slot and hand back what stood there |
//!
//! As in blk-mq all requests are allocated when the queue is made. A slot that is not there has nothing, and an
//! exchange there does nothing.
//!
//! Each table has a bound below which no slot is free, and the bios of each seat one of their own. A look for the
//! first free slot begins there. The bounds come from the tables alone, and the exchanges keep them.

ghost use Rattle.std.specs.Prelude.{◌≡◌, ◌+◌, ◌*◌, ◌<◌, ◌≤◌, ◌==◌, ℕ, None, IfOk, IfSome, IsSome, MatchOption, cond, length, min, replicate, slice_index_or, slice_set, true, false};
ghost use Rattle.std.specs.Option.{option_copied};
ghost use Rattle.sector_core.specs.Table.{IsFirstFree, AllTaken};
ghost use Rattle.request_pool.specs.Slots.{AreTaken, seat_slots};

use arrayvec::ArrayVec;
use boxed::Boxed;
use sector_core::{Bio, BioFields, Op, OutOfMemory, Slot, empty_table};
use std::alloc::Global;
use std::marker::Model;
use std::mem;

/// How many client seats there are.
pub const SEATS: u8 = 16;

/// How many bios of a session may be submitted and not yet reaped: each seat has as many slots.
pub const BIOS_PER_SEAT: u16 = 32;

/// What is sent to the device as one, one word wide: its fields stand in a box of their own. In contracts it is its fields.
pub type Request = Boxed<RequestFields>;

/// What a request has: bios of one session and operation, each beginning where the one before ends.
#[derive(Drop)]
pub struct RequestFields {
    /// The session that submitted its bios.
    pub session: u64,
    /// What all of its bios ask for.
    pub op: Op,
    /// The slots of its bios, in the order of their sectors.
    pub bios: ArrayVec<Slot, 32>,
}

/// The slots of requests and of bios.
#[derive(Drop)]
pub struct RequestPool {
    requests: Vec<Option<Request>>,
    bios: Vec<Option<Bio>>,
    // Each request below this slot is taken.
    request_bound: usize,
    // Of each seat: so many of its first bios are taken.
    bio_bounds: [u8; 16],
}

impl Model for RequestPool {
    ghost use Rattle.request_pool.specs.Slots.{IsPool, Slots};

    ghost Value = { Slots };

    ghost view = { λ p. record { requests = p.requests.items; bios = p.bios.items } };

    ghost invariant = { λ p. IsPool p.requests.items p.bios.items p.request_bound p.bio_bounds };
}

impl RequestPool {
    /// A pool of `requests` free slots for requests, and of 32 for the bios of each seat.
    pub fn new(alloc: Global, requests: u16) -> Result<RequestPool, OutOfMemory>
        ensures { IfOk result (λ pool. pool ≡ record { requests = replicate requests None; bios = replicate 512 None }) }
    {
        Ok(RequestPool {
            requests: empty_table(alloc, usize::from(requests))?,
            bios: empty_table(alloc, 512)?,
            request_bound: 0,
            bio_bounds: [0; 16],
        })
    }

    /// The request in a slot, if there is one.
    pub fn request(&self, slot: Slot) -> Option<&RequestFields>
        ensures { option_copied result ≡ slice_index_or self.now.requests slot None }
    {
        match self.requests.get(usize::from(slot)) {
            Some(Some(request)) => Some(&**request),
            Some(None) => None,
            None => None,
        }
    }

    /// The bio in a slot, if there is one.
    pub fn bio(&self, slot: Slot) -> Option<&BioFields>
        ensures { option_copied result ≡ slice_index_or self.now.bios slot None }
    {
        match self.bios.get(usize::from(slot)) {
            Some(Some(bio)) => Some(&**bio),
            Some(None) => None,
            None => None,
        }
    }

    /// The first free slot for a request.
    pub fn free_request(&self) -> Option<Slot>
        ensures { MatchOption result (AllTaken self.now.requests) (λ slot. IsFirstFree self.now.requests slot) }
    {
        let end = self.requests.len();
        match first_free_in(self.requests.as_slice(), self.request_bound, end) {
            Some(slot) => Some(slot as u16),
            None => None,
        }
    }

    /// The first free slot for a bio of a seat: a seat has the 32 slots from `32 * seat` on.
    pub fn free_bio(&self, seat: u8) -> Option<Slot>
        requires { seat < 16 }
        ensures slot { MatchOption result (AllTaken (seat_slots seat self.now.bios))
            (λ slot. (32 * seat ≤ slot) × (slot < 32 * seat + 32) × (slice_index_or self.now.bios slot None ≡ None)) }
        ensures lowest { IfSome result (λ slot. (k : ℕ) → 32 * seat ≤ k → k < slot → IsSome (slice_index_or self.now.bios k None)) }
    {
        let start = usize::from(seat) * 32;
        let end = start + 32;
        let from = start + usize::from(self.bio_bounds[usize::from(seat)]);
        match first_free_in(self.bios.as_slice(), from, end) {
            Some(place) => Some(place as u16),
            None => None,
        }
    }

    /// Puts a request, or none, in a slot and hands back what stood there.
    pub fn exchange_request(&mut self, slot: Slot, request: Option<Request>) -> Option<Request>
        ensures new { self.new ≡ record self.old { requests = slice_set self.old.requests slot request } }
        ensures old { result ≡ slice_index_or self.old.requests slot request }
    {
        let slot = usize::from(slot);
        let taken = request.is_some();
        match self.requests.get_mut(slot) {
            Some(place) => {
                self.request_bound = bound_after(self.request_bound, slot, taken);
                mem::replace(place, request)
            }
            None => request,
        }
    }

    /// Puts a bio, or none, in a slot and hands back what stood there.
    pub fn exchange_bio(&mut self, slot: Slot, bio: Option<Bio>) -> Option<Bio>
        ensures new { self.new ≡ record self.old { bios = slice_set self.old.bios slot bio } }
        ensures old { result ≡ slice_index_or self.old.bios slot bio }
    {
        let slot = usize::from(slot);
        let taken = bio.is_some();
        match self.bios.get_mut(slot) {
            Some(place) => {
                let lowest = &mut self.bio_bounds[slot / 32];
                *lowest = bound_after(usize::from(*lowest), slot % 32, taken) as u8;
                mem::replace(place, bio)
            }
            None => bio,
        }
    }
}

// The first free slot from one on, before an end.
fn first_free_in<T>(table: &[Option<T>], from: usize, end: usize) -> Option<usize>
    requires { end ≤ length table.now }
    ensures within { IfSome result (λ slot. (from ≤ slot) × (slot < end)) }
    ensures free { IfSome result (λ slot. slice_index_or table.now slot None ≡ None) }
    ensures taken { MatchOption result (AreTaken table.now from end) (λ slot. AreTaken table.now from slot) }
{
    for slot in from..end {
        if table[slot].is_none() {
            return Some(slot);
        }
    }
    None
}

// The bound of a table, below which each slot is taken, once this slot is taken or free.
fn bound_after(bound: usize, slot: usize, taken: bool) -> usize
    requires { slot < 65536 }
    ensures taken { taken ≡ true → result ≡ cond (slot == bound) (bound + 1) bound }
    ensures free { taken ≡ false → result ≡ min slot bound }
{
    if !taken {
        slot.min(bound)
    } else if slot == bound {
        // all below it were taken before, and now it is too
        slot + 1
    } else {
        bound
    }
}
