#![tactic(auto)]
//! The tree of groups: which group each entity is in, and the way up to the root.
//!
//! | call | rule that it meets |
//! |---|---|
//! | [`GroupTree::new`] | no entity is in a group |
//! | [`GroupTree::parent`] | the group that an entity is in |
//! | [`GroupTree::depth`] | how many levels a group is under the root |
//! | [`GroupTree::path`] | an entity and the groups above it, the nearest first |
//! | [`GroupTree::exchange_group`] | puts an entity into a group, or into none, and hands back where it was |
//! | [`GroupTree::first_child`] | an entity of a group, if it has any |
//!
//! Seat `n` is entity `n`, and group `g` from 1 on is entity `16 + g`. The root, group 0, is no entity. Groups are four
//! levels deep at most, so a path has five entities at most, and a way up that is longer is cut there. The entities of a
//! group are linked both ways, so no call walks over all entities.

ghost use Rattle.std.specs.Prelude.{◌≡◌, ◌≢◌, ◌+◌, ◌++◌, ◌<◌, ◌≤◌, ℕ, MatchOption, None, Some, length, replicate, slice_index_or, slice_set};
ghost use Rattle.plain.specs.Groups.{climb, depth, entity_of, has_entity, parent, path};

mod children;

use arrayvec::ArrayVec;
use children::{enter, leave, linked};
use linked_rows::{ALONE, Ends, NOBODY, Row, Sides, ends_at};
use sector_core::Entity;
use std::marker::Model;

/// How many levels of groups there are under the root at most.
pub const MOST_LEVELS: u8 = 4;

// How many groups there are, the root among them.
const GROUPS: u8 = 32;

/// The group of each of the 48 entities.
#[derive(Drop)]
pub struct GroupTree {
    parents: [Option<u8>; 48],
    // Each entity's neighbours among the children of its group.
    sides: [Sides; 48],
    // Each group's first and last child.
    ends: [Ends; 32],
}

impl Model for GroupTree {
    ghost use Rattle.std.specs.Prelude.{ℕ, List, Option};
    ghost use Rattle.group_tree.specs.Children.{IsGroups};

    ghost Value = { List (Option ℕ) };

    ghost view = { λ t. t.parents };

    // a place for each entity, and the children of each group are linked both ways
    ghost invariant = { λ t. IsGroups t.parents t.sides t.ends };
}

impl GroupTree {
    /// A tree where no entity is in a group.
    pub fn new() -> GroupTree
        ensures { result ≡ replicate 48 None }
    {
        GroupTree {
            parents: [None; 48],
            sides: [ALONE; 48],
            ends: [NOBODY; 32],
        }
    }

    /// The group that an entity is in; none where it is in none, or there is no such entity.
    pub fn parent(&self, entity: Entity) -> Option<u8>
        ensures { result ≡ parent self.now entity }
    {
        match self.parents.get(usize::from(entity)) {
            Some(group) => *group,
            None => None,
        }
    }

    /// Puts an entity into a group, or into none, and hands back the group that it was in.
    /// Where there is no such entity nothing happens, and the argument comes back.
    pub fn exchange_group(&mut self, entity: Entity, group: Option<u8>) -> Option<u8>
        ensures new { self.new ≡ slice_set self.old entity group }
        ensures old { result ≡ slice_index_or self.old entity group }
    {
        let places = self.places();
        if entity >= places {
            return group;
        }
        let row = Row::from(entity);
        let old = self.parents[entity as usize];
        leave(&mut self.sides, &mut self.ends, linked(old), row);
        enter(&mut self.sides, &mut self.ends, linked(group), row);
        self.parents[entity as usize] = group;
        old
    }

    // How many entities have a place.
    fn places(&self) -> u8
        ensures value { result ≡ 48 }
        ensures length { length self.now ≡ 48 }
    {
        let _ = &self.parents;
        48
    }

    /// An entity of a group; none exactly if no entity is in it.
    pub fn first_child(&self, group: u8) -> Option<Entity>
        requires { group < 32 }
        ensures { MatchOption result ((entity : ℕ) → parent self.now entity ≢ Some group) (λ entity. parent self.now entity ≡ Some group) }
    {
        match ends_at(&self.ends, group).first {
            Some(row) => Some(row as Entity),
            None => None,
        }
    }

    /// How many levels a group is under the root; the root is at level 0.
    pub fn depth(&self, group: u8) -> u8
        ensures level { result ≡ depth (parent self.now) group }
        ensures few { result ≤ 4 }
    {
        self.climb(ArrayVec::new(), Some(group)).len() as u8
    }

    /// An entity and the groups above it, the nearest first.
    pub fn path(&self, entity: Entity) -> ArrayVec<Entity, 5>
        ensures { result.items ≡ path (parent self.now) entity }
    {
        let mut path = ArrayVec::new();
        path.push(entity);
        self.climb(path, self.parent(entity))
    }

    // The path with the entities of a group and of those above it at its end.
    fn climb(&self, path: ArrayVec<Entity, 5>, group: Option<u8>) -> ArrayVec<Entity, 5>
        requires { length path.items ≤ 1 }
        ensures climbed { result.items ≡ path.items ++ climb 4 (parent self.now) group }
        ensures few { length result.items ≤ length path.items + 4 }
    {
        let mut path = path;
        let mut group = group;
        for _level in 0..MOST_LEVELS {
            let Some(found) = group else {
                return path;
            };
            if !has_entity(found) {
                return path;
            }
            let entity = entity_of(found);
            path.push(entity);
            group = self.parent(entity);
        }
        path
    }
}

// Whether a group is one under the root.
fn has_entity(group: u8) -> bool
    ensures { result ≡ has_entity group }
{
    group > 0 && group < 32
}

// The entity of a group.
fn entity_of(group: u8) -> Entity
    requires { group ≤ 31 }
    ensures { result ≡ entity_of group }
{
    16 + group
}
