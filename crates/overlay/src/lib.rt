#![tactic(auto)]
//! The overlay: what has been stored, in memory, over a read-only image.
//!
//! | call | rule that it meets |
//! |---|---|
//! | [`Overlay::get`] | the block that the map has at a sector |
//! | [`Overlay::exchange`] | puts a block or nothing at one sector and hands back what stood there |
//! | [`Overlay::next_run`] | the least stored sector from one on, and how many follow it without a gap |
//!
//! A finite map from sectors to blocks, kept in pages of eight sectors. Replacing and removing a block take no memory,
//! and adding one takes some only if its page has no other block. It may be refused, and then the block comes back
//! and nothing has changed.

mod page;
mod pages;
mod runs;

ghost use Rattle.std.specs.Prelude.{◌≡◌, ◌/◌, List, ℕ, OnErr, OnOk, IfOk, IfErr, IsNone, IsSome, IsOk, None, Some};
ghost use Rattle.std.specs.Option.{option_copied};
ghost use Rattle.std.specs.FinMap as map;
ghost use Rattle.plain.specs.Machine.{Blocks};
ghost use Rattle.overlay.specs.Blocks.{exchanged};

use page::{PAGE, Page};
use pages::{put_at, take_at};
use sector_core::{Block, OutOfMemory};
use std::alloc::Global;
use std::collections::BTreeMap;
use std::marker::Model;

/// The blocks that have been stored, by sector.
#[derive(Drop)]
pub struct Overlay {
    pub(crate) pages: BTreeMap<u64, Page>,
}

impl Model for Overlay {
    ghost use Rattle.plain.specs.Machine.{Blocks};
    ghost use Rattle.overlay.specs.Blocks.{blocks_code};

    ghost Value = { Blocks };

    ghost coded = { blocks_code };

    ghost use Rattle.overlay.specs.Pages.{blocks_of, IsNumbered};

    ghost view = { λ o. blocks_of o.pages.entries };

    ghost invariant = { λ o. IsNumbered o.pages.entries };
}

impl Overlay {
    /// An overlay with no block.
    pub fn new(alloc: Global) -> Overlay
        ensures { result ≡ map.empty }
    {
        Overlay {
            pages: BTreeMap::new(alloc),
        }
    }

    /// The block at a sector, if one has been stored there.
    pub fn get(&self, sector: u64) -> Option<&Block>
        ensures { option_copied result ≡ map.get self.now sector }
    {
        match self.pages.get(&(sector / PAGE)) {
            Some(page) => page.get((sector % PAGE) as usize),
            None => None,
        }
    }

    /// Puts a block, or none, at a sector, and hands back what stood there.
    pub fn exchange(
        &mut self,
        sector: u64,
        block: Option<Block>,
    ) -> Result<Option<Block>, (Option<Block>, OutOfMemory)>
        ensures ok { OnOk result (self.new ≡ exchanged self.old sector block) }
        ensures old { IfOk result (λ left. left ≡ map.get self.old sector) }
        ensures err { OnErr result (self.new ≡ self.old) }
        ensures handed_back { IfErr result (λ back. back.0 ≡ block) }
        // memory is taken only where a block is added
        ensures adds { OnErr result ((map.get self.old sector ≡ None) × IsSome block) }
        // and only if none of the eight sectors of its page has one
        ensures absent { OnErr result ((other : ℕ) → other / 8 ≡ sector / 8 → map.get self.old other ≡ None) }
    {
        let number = sector / PAGE;
        let at = (sector % PAGE) as usize;
        match block {
            None => return Ok(take_at(&mut self.pages, number, at)),
            Some(block) => match put_at(&mut self.pages, number, at, block) {
                Ok(left) => return Ok(left),
                Err(back) => return Err((back, OutOfMemory)),
            },
        }
    }
}
