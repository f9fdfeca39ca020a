#![tactic(auto)]
//! B-WF2Q+'s tree of one class of a group: its members by entity number, and its virtual time.
//!
//! | call | rule that it meets |
//! |---|---|
//! | [`ServiceTree::new`] | a tree with no member at a virtual time |
//! | [`ServiceTree::vtime`] | the virtual time |
//! | [`ServiceTree::exchange_vtime`] | sets the virtual time and hands back the old one |
//! | [`ServiceTree::get`] | what is known of an entity, if it is a member |
//! | [`ServiceTree::insert`] | puts a member under its number and hands back what stood there |
//! | [`ServiceTree::remove`] | takes a member out and hands it back |
//! | [`ServiceTree::exchange`] | puts a member, or none, under a number and hands back what stood there |
//! | [`ServiceTree::pick`] | of the eligible members the one with the least finish, on a tie the lower number |
//! | [`ServiceTree::least_start`] | the least start of the active members |
//! | [`ServiceTree::weight_sum`] | the sum of the weights that count at a virtual time |
//! | [`plain_pick`] | what `pick` answers, by the definition run as it stands: slow, to compare with |
//! | [`plain_least_start`] | likewise what `least_start` answers |
//! | [`plain_weight_sum`] | likewise what `weight_sum` answers |
//!
//! It knows nothing of groups: whose members these are, and what follows a pick, is the business of its owner.
//! Its contracts see the virtual time and a list of 48 places, one for each entity number.
//!
//! Inside, the active members stand in a balanced tree by start and the idle ones in one by finish, over one table of rows. A
//! question is a walk down one of them, and an exchange takes the old member out and puts the new one in. No call takes memory.

ghost use Rattle.std.specs.Prelude.{◌≡◌, None, Some, MatchOption, length, replicate, slice_index_or, slice_set};
ghost use Rattle.plain.specs.Members.{IsLeastStart, IsPicked, NoneActive, NoneEligible, WeighsAtMost, least_start, pick, weight_sum};

mod order;
mod slow;

use order::{Orders, serving_of};
pub use plain::{Member, State};
use sector_core::Entity;
pub use slow::{plain_least_start, plain_pick, plain_weight_sum};
use std::marker::Model;
use std::mem;

// How many entities there are: 16 sessions and 32 groups.
const ENTITIES: u8 = 48;

/// The members of one class of a group, under the numbers 0 to 47, and its virtual time.
#[derive(Drop)]
pub struct ServiceTree {
    vtime: u64,
    members: [Option<Member>; 48],
    // the active members by start and the idle ones by finish, and the weights of those in service added up
    orders: Orders,
    serving: u64,
}

impl Model for ServiceTree {
    ghost use Rattle.std.specs.Prelude.{◌≡◌, length};
    ghost use Rattle.plain.specs.Members.{Service};
    ghost use Rattle.service_tree.specs.Orders.{IsService};

    ghost Value = { Service };

    ghost view = { λ t. record { vtime = t.vtime; members = t.members } };

    // each member stands in the tree that its state asks for, and in no other; those in service are added up
    ghost invariant = { λ t. IsService t.members t.orders t.serving };
}

impl ServiceTree {
    /// A tree with no member, at a virtual time.
    pub fn new(vtime: u64) -> ServiceTree
        ensures { result ≡ record { vtime = vtime; members = replicate 48 None } }
    {
        let orders = Orders::new();
        ServiceTree {
            vtime,
            members: [None; 48],
            orders,
            serving: 0,
        }
    }

    /// The virtual time.
    pub fn vtime(&self) -> u64
        ensures { result ≡ self.now.vtime }
    {
        self.vtime
    }

    /// Sets the virtual time, and hands back the old one. The members stay.
    pub fn exchange_vtime(&mut self, vtime: u64) -> u64
        ensures new { self.new ≡ record self.old { vtime = vtime } }
        ensures old { result ≡ self.old.vtime }
    {
        mem::replace(&mut self.vtime, vtime)
    }

    // How many entities have a place.
    fn places(&self) -> u8
        ensures value { result ≡ 48 }
        ensures length { length self.now.members ≡ 48 }
    {
        let _ = &self.members;
        ENTITIES
    }

    /// What is known of an entity, if it is a member.
    pub fn get(&self, entity: Entity) -> Option<Member>
        ensures { result ≡ slice_index_or self.now.members entity None }
    {
        match self.members.get(usize::from(entity)) {
            Some(member) => *member,
            None => None,
        }
    }

    /// Puts a member, or none, under an entity's number, and hands back what stood there.
    /// Where there is no such number nothing happens, and the argument comes back.
    pub fn exchange(&mut self, entity: Entity, member: Option<Member>) -> Option<Member>
        ensures new { self.new ≡ record self.old { members = slice_set self.old.members entity member } }
        ensures old { result ≡ slice_index_or self.old.members entity member }
    {
        let places = self.places();
        if entity >= places {
            return member;
        }
        let old = self.members[entity as usize];
        self.orders.take_out(entity, old);
        self.orders.put_in(entity, member);
        self.serving = self.serving - serving_of(old) + serving_of(member);
        self.members[entity as usize] = member;
        old
    }

    /// Puts a member under its number, and hands back what stood there.
    /// Where there is no such number nothing happens, and the argument comes back.
    pub fn insert(&mut self, entity: Entity, member: Member) -> Option<Member>
        ensures new { self.new ≡ record self.old { members = slice_set self.old.members entity (Some member) } }
        ensures old { result ≡ slice_index_or self.old.members entity (Some member) }
    {
        self.exchange(entity, Some(member))
    }

    /// Takes a member out, and hands it back, if it was there.
    pub fn remove(&mut self, entity: Entity) -> Option<Member>
        ensures new { self.new ≡ record self.old { members = slice_set self.old.members entity None } }
        ensures old { result ≡ slice_index_or self.old.members entity None }
    {
        self.exchange(entity, None)
    }

    /// Of the members that are eligible at a virtual time the one with the least finish; on a tie the one with the
    /// lower number. None only where no member is eligible.
    pub fn pick(&self, vtime: u64) -> Option<Entity>
        ensures value { result ≡ pick vtime self.now.members }
        ensures picked { MatchOption result (NoneEligible vtime self.now.members) (IsPicked vtime self.now.members) }
    {
        match self.orders.pick(vtime) {
            Some(turn) => Some(turn.number),
            None => None,
        }
    }

    /// The least start of the active members. None only where no member is active.
    pub fn least_start(&self) -> Option<u64>
        ensures value { result ≡ least_start self.now.members }
        ensures least { MatchOption result (NoneActive self.now.members) (IsLeastStart self.now.members) }
    {
        self.orders.least_start()
    }

    /// The sum of the weights of the members that count at a virtual time: the active ones, those in service, and the
    /// idle ones with a finish after it.
    pub fn weight_sum(&self, vtime: u64) -> u64
        ensures value { result ≡ weight_sum vtime self.now.members }
        ensures covers { WeighsAtMost vtime self.now.members result }
    {
        self.orders.active_sum() + self.orders.idle_sum(vtime) + self.serving
    }
}
