// A request as it stands in the tables.
ghost use Rattle.std.specs.Prelude.{◌≡◌, ◌≤◌, length, slice_get};
ghost use Rattle.std.specs.Option.{option_copied};
ghost use Rattle.process_queue.specs.Merge.{bios_at};
ghost use Rattle.plain.specs.Requests.{size_of};

use crate::dispatch::count_of;
use request_pool::{RequestFields, RequestPool};
use sector_core::{BioFields, Op, Slot};
use std::marker::Model;

/// A request that stands somewhere in a machine. Its bios are in the order of their sectors.
#[derive(Drop)]
pub struct Listed<'a> {
    pub(crate) pool: &'a RequestPool,
    pub(crate) request: &'a RequestFields,
}

impl<'a> Model for Listed<'a> {
    ghost use Rattle.process_queue.specs.Merge.{bios_at};
    ghost use Rattle.plain.specs.Machine.{WholeRequest};

    ghost Value = { WholeRequest };

    ghost view = { λ l. record {
      session = l.request.now.session;
      op = l.request.now.op;
      bios = bios_at l.pool.now.bios l.request.now.bios.items;
    } };
}

impl<'a> Listed<'a> {
    /// The session that made it: the serial of its attach.
    pub fn session(&self) -> u64
        ensures { result ≡ self.now.session }
    {
        let request = self.request;
        request.session
    }

    /// Whether it reads, writes or discards.
    pub fn op(&self) -> Op
        ensures { result ≡ self.now.op }
    {
        let request = self.request;
        request.op
    }

    /// The bio at a place, counted from 0 in the order of their sectors.
    pub fn bio(&self, place: usize) -> Option<&'a BioFields>
        ensures bio { option_copied result ≡ slice_get self.now.bios place }
        ensures few { length self.now.bios ≤ 32 }
    {
        let request = self.request;
        nth_bio(self.pool, request.bios.as_slice(), place)
    }

    /// How many sectors its bios have together.
    pub fn size(&self) -> u64
        ensures { result ≡ size_of self.now.bios }
    {
        let request = self.request;
        size_of(self.pool, request.bios.as_slice())
    }
}

/// A request in flight.
#[derive(Drop)]
pub struct Flying<'a> {
    pub(crate) issue: u64,
    pub(crate) request: Listed<'a>,
}

impl<'a> Model for Flying<'a> {
    ghost use Rattle.plain.specs.Machine.{Flight};

    ghost Value = { Flight };

    ghost view = { λ f. record { issue = f.issue; request = f.request } };
}

impl<'a> Flying<'a> {
    /// Its issue: the serial of its dispatch.
    pub fn issue(&self) -> u64
        ensures { result ≡ self.now.issue }
    {
        self.issue
    }

    /// The request.
    pub fn request(&self) -> &Listed<'a>
        ensures { result.now ≡ self.now.request }
    {
        &self.request
    }
}

// How many sectors the bios in these slots have together.
fn size_of(pool: &RequestPool, slots: &[Slot]) -> u64
    requires { length slots.now ≤ 32 }
    ensures { result ≡ size_of (bios_at pool.now.bios slots.now) }
{
    let mut size = 0;
    for slot in slots {
        size += u64::from(count_of(pool, *slot));
    }
    size
}

/// The bio at a place of those in these slots.
pub fn nth_bio<'a>(pool: &'a RequestPool, slots: &[Slot], place: usize) -> Option<&'a BioFields>
    ensures { option_copied result ≡ slice_get (bios_at pool.now.bios slots.now) place }
{
    let mut left = place;
    for slot in slots {
        if let Some(bio) = pool.bio(*slot) {
            if left == 0 {
                return Some(bio);
            }
            left -= 1;
        }
    }
    None
}
