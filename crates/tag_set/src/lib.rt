#![tactic(auto)]
//! The device's tags, and which issue each one bears.
//!
//! | call | rule that it meets |
//! |---|---|
//! | [`TagSet::get`] | what the tag bears |
//! | [`TagSet::lowest_free`] | the least tag that bears nothing |
//! | [`TagSet::exchange`] | puts an issue, or none, at one tag and hands back what stood there |
//!
//! As in blk-mq a completion goes by its tag; here the issue beside it tells one use of a tag from the next.

ghost use Rattle.std.specs.Prelude.{◌≡◌, ◌<◌, ◌≤◌, ℕ, List, IfOk, MatchOption, length, replicate, slice_index_or, slice_set};
ghost use Rattle.sector_core.specs.Table.{IsFirstFree, AllTaken};

use sector_core::{OutOfMemory, Slot, empty_table, first_free};
use std::alloc::Global;
use std::marker::Model;
use std::mem;

/// What a tag bears while its request is at the device.
#[derive(Clone, Copy, Debug, PartialEq, Eq)]
pub struct Issue {
    /// The serial of the dispatch.
    pub issue: u64,
    /// The slot of the request.
    pub slot: Slot,
}

/// Tags `0` to `len - 1`, each free or bearing an issue.
#[derive(Drop)]
pub struct TagSet {
    issues: Vec<Option<Issue>>,
}

impl Model for TagSet {
    ghost use Rattle.std.specs.Prelude.{List, Option, length, ◌≤◌};
    ghost use Rattle.tag_set.specs.declared.Issue.{Issue};

    ghost Value = { List (Option Issue) };

    ghost view = { λ s. s.issues.items };

    // numbers of tags fit a byte
    ghost invariant = { λ s. length s.issues.items ≤ 255 };
}

impl TagSet {
    /// A set of `tags` free tags.
    pub fn new(alloc: Global, tags: u8) -> Result<TagSet, OutOfMemory>
        ensures { IfOk result (λ set. set ≡ replicate tags None) }
    {
        let issues = empty_table(alloc, usize::from(tags))?;
        Ok(TagSet { issues })
    }

    /// What the tag bears; nothing where there is no such tag.
    pub fn get(&self, tag: u8) -> Option<Issue>
        ensures { result ≡ slice_index_or self.now tag None }
    {
        match self.issues.get(usize::from(tag)) {
            Some(issue) => *issue,
            None => None,
        }
    }

    /// The least tag that bears nothing.
    pub fn lowest_free(&self) -> Option<u8>
        ensures { MatchOption result (AllTaken self.now) (λ tag. IsFirstFree self.now tag) }
    {
        match first_free(self.issues.as_slice()) {
            Some(tag) => Some(tag as u8),
            None => None,
        }
    }

    /// Puts an issue, or none, at a tag and hands back what stood there. Where there is no such tag nothing
    /// happens, and the argument comes back.
    pub fn exchange(&mut self, tag: u8, issue: Option<Issue>) -> Option<Issue>
        ensures new { self.new ≡ slice_set self.old tag issue }
        ensures old { result ≡ slice_index_or self.old tag issue }
    {
        match self.issues.get_mut(usize::from(tag)) {
            Some(place) => mem::replace(place, issue),
            None => issue,
        }
    }
}
