// The outbox of a seat.
ghost use Rattle.std.specs.Prelude.{◌≡◌, ◌+◌, ◌≤◌, [], ◌++◌, IfOk, length};

use sector_core::{OutOfMemory, Slot};
use std::alloc::Global;
use std::marker::Model;

/// The slots of a seat's completed bios, the first to be reaped first. It takes memory for as many as it has: an
/// outbox stands in the tape for each bio that is delivered or reaped, and seldom has many of the 32 that it may have.
#[derive(Drop)]
pub struct Outbox {
    slots: Vec<Slot>,
}

impl Model for Outbox {
    ghost use Rattle.std.specs.Prelude.{ℕ, ◌≤◌, length};
    ghost use Rattle.arrayvec.specs.ArrayVec.{ArrayVec};

    ghost Value = { ArrayVec ℕ };

    ghost view = { λ o. record { items = o.slots.items } };

    // a seat has no more bios
    ghost invariant = { λ o. length o.slots.items ≤ 32 };
}

impl Outbox {
    /// An outbox without a slot. It takes no memory.
    pub fn empty(alloc: Global) -> Outbox
        ensures { result ≡ record { items = [] } }
    {
        Outbox {
            slots: Vec::new(alloc),
        }
    }

    /// An outbox of some slots, and of others behind them.
    ///
    /// # Errors
    ///
    /// There is no memory for them.
    pub fn joined(alloc: Global, first: &[Slot], behind: &[Slot]) -> Result<Outbox, OutOfMemory>
        requires { length first.now + length behind.now ≤ 32 }
        ensures { IfOk result (λ outbox. outbox ≡ record { items = first.now ++ behind.now }) }
    {
        let mut slots = Vec::with_capacity(alloc, first.len() + behind.len())?;
        slots.extend_from_slice(first)?;
        slots.extend_from_slice(behind)?;
        Ok(Outbox { slots })
    }

    /// Its slots.
    pub fn as_slice(&self) -> &[Slot]
        ensures slots { result.now ≡ self.now.items }
        ensures few { length result.now ≤ 32 }
    {
        self.slots.as_slice()
    }
}
