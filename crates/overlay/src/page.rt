// A page: eight sectors one after the other, and a mask of those that have a block.
ghost use Rattle.std.specs.Prelude.{◌≡◌, ℕ, ◌+◌, ◌^◌, ◌<◌, ◌≤◌, ◌==◌, cond, IfSome, IsSome, None, Some, slice_index_or, slice_set, true, false};
ghost use Rattle.std.specs.Option.{option_copied};
ghost use Rattle.overlay.specs.Pages.{HasBlock, HasNone};

use sector_core::Block;
use std::marker::Model;

/// How many sectors a page has.
pub const PAGE: u64 = 8;

/// The blocks of eight sectors one after the other, of one of them at least.
#[derive(Drop)]
pub struct Page {
    // The bit of each place that has a block, the lowest bit that of the first place.
    mask: u8,
    blocks: [Option<Block>; 8],
}

impl Model for Page {
    ghost use Rattle.std.specs.Prelude.{ℕ, List, Option};
    ghost use Rattle.overlay.specs.Pages.{IsPage};

    ghost Value = { List (Option (List ℕ)) };

    ghost view = { λ p. p.blocks };

    ghost invariant = { λ p. IsPage p.mask p.blocks };
}

impl Page {
    /// A page with one block.
    pub fn new(at: usize, block: Block) -> Page
        requires { at < 8 }
        ensures { (k : ℕ) → slice_index_or result k None ≡ cond (k == at) (Some block) None }
    {
        let mut blocks = [None, None, None, None, None, None, None, None];
        blocks[at] = Some(block);
        Page {
            mask: bit_of(at),
            blocks,
        }
    }

    /// The block at a place, if there is one.
    pub fn get(&self, at: usize) -> Option<&Block>
        ensures { option_copied result ≡ slice_index_or self.now at None }
    {
        match self.blocks.get(at) {
            Some(place) => place.as_ref(),
            None => None,
        }
    }

    /// Puts a block at a place, and hands back what stood there.
    pub fn put(&mut self, at: usize, block: Block) -> Option<Block>
        requires { at < 8 }
        ensures new { (k : ℕ) → slice_index_or self.new k None ≡ cond (k == at) (Some block) (slice_index_or self.old k None) }
        ensures old { result ≡ slice_index_or self.old at None }
    {
        let old = self.blocks[at].replace(block);
        if old.is_none() {
            self.mask += bit_of(at);
        }
        old
    }

    /// Whether a place other than this one has a block.
    pub fn has_other(&self, at: usize) -> bool
        requires { at < 8 }
        ensures other { result ≡ true → HasBlock (slice_set self.now at None) }
        ensures only { result ≡ false → HasNone (slice_set self.now at None) }
    {
        self.mask != bit_of(at)
    }

    /// Takes out what stands at a place, where another has a block: a page is never left empty.
    pub fn take(&mut self, at: usize) -> Option<Block>
        requires at { at < 8 }
        requires other { HasBlock (slice_set self.old at None) }
        ensures new { (k : ℕ) → slice_index_or self.new k None ≡ cond (k == at) None (slice_index_or self.old k None) }
        ensures old { result ≡ slice_index_or self.old at None }
    {
        let old = self.blocks[at].take();
        if old.is_some() {
            self.mask -= bit_of(at);
        }
        old
    }

    /// The first place from one on that has a block. From the first place on there is one.
    pub fn first_from(&self, from: usize) -> Option<usize>
        ensures within { IfSome result (λ at. (from ≤ at) × (at < 8)) }
        ensures stored { IfSome result (λ at. IsSome (slice_index_or self.now at None)) }
        ensures free { (k : ℕ) → from ≤ k → IfSome result (λ at. k < at) → slice_index_or self.now k None ≡ None }
        ensures filled { from ≡ 0 → IsSome result }
    {
        for at in from..8 {
            if self.blocks[at].is_some() {
                return Some(at);
            }
        }
        None
    }

    /// How many places from one on have a block, without a gap, at most so many.
    pub fn count_from(&self, from: usize, most: u32) -> u32
        requires { from < 8 }
        ensures within { (result ≤ most) × (from + result ≤ 8) }
        ensures stored { (k : ℕ) → k < result → IsSome (slice_index_or self.now (from + k) None) }
        ensures ends { result < most → from + result < 8 → slice_index_or self.now (from + result) None ≡ None }
    {
        let most = most.min(8 - from as u32);
        for count in 0..most {
            if self.blocks[from + count as usize].is_none() {
                return count;
            }
        }
        most
    }

    /// What stands at a place of a page that is no longer needed.
    pub fn into_block(self, at: usize) -> Option<Block>
        requires { at < 8 }
        ensures { result ≡ slice_index_or self at None }
    {
        let Page {
            mask: _,
            mut blocks,
        } = self;
        blocks[at].take()
    }
}

// The bit of a place.
fn bit_of(at: usize) -> u8
    requires { at < 8 }
    ensures { result ≡ 2 ^ at }
{
    1u8 << at
}
