#![tactic(auto)]
//! The trees of one group: its members in three classes in strict order, and a virtual time of each class.
//!
//! | call | rule that it meets |
//! |---|---|
//! | [`ClassTrees::new`] | no member, and each class at the same virtual time |
//! | [`ClassTrees::vtime`] | the virtual time of a class |
//! | [`ClassTrees::vtimes`] | the virtual times of all classes |
//! | [`ClassTrees::exchange_vtimes`] | sets them all and hands back the old ones |
//! | [`ClassTrees::member`] | what is known of an entity, if it is a member |
//! | [`ClassTrees::exchange`] | puts a member, or none, under a number and hands back what stood there |
//! | [`ClassTrees::pick`] | of the eligible members of a class the one with the least finish, on a tie the lower number |
//! | [`ClassTrees::least_start`] | the least start of the active members of a class |
//! | [`ClassTrees::weight_sum`] | the sum of the weights of a class that count at a virtual time |
//! | [`ClassTrees::first_class`] | the highest class that has an active member |
//!
//! Its contracts see three virtual times and one list of 48 places, one for each entity number. A member says itself in which class it
//! competes, so no entity is in two. A question about a class is asked of the same list without the members of the others.
//!
//! Inside there is a [`ServiceTree`] for each class. An exchange is made in all three: in two of them none comes in the place of
//! none, or the old member goes. No call takes memory.

ghost use Rattle.std.specs.Prelude.{◌≡◌, true, false, None, Some, MatchOption, replicate, slice_index_or, slice_set};
ghost use Rattle.plain.specs.Members.{IsLeastStart, IsPicked, NoneActive, NoneEligible, WeighsAtMost, least_start, pick, weight_sum};
ghost use Rattle.plain.specs.Classes.{HasActive, IsFirstClass, first_class, has_active, of_class, only, only_one, rank, same_times, time_of, with_time};

use plain::Member;
pub use plain::Vtimes;
use sector_core::{Class, Entity};
use service_tree::ServiceTree;
use std::marker::Model;

/// The members of one group, under the numbers 0 to 47, and the virtual time of each of its classes.
#[derive(Drop)]
pub struct ClassTrees {
    real_time: ServiceTree,
    best_effort: ServiceTree,
    idle: ServiceTree,
}

impl Model for ClassTrees {
    ghost use Rattle.plain.specs.Classes.{Classes};
    ghost use Rattle.class_trees.specs.Divided.{AreDivided, together};

    ghost Value = { Classes };

    ghost view = { λ t. together t.real_time t.best_effort t.idle };

    // each tree has the members of its class, and no other ones
    ghost invariant = { λ t. AreDivided t.real_time t.best_effort t.idle };
}

impl ClassTrees {
    /// A group with no member, each of its classes at this virtual time.
    pub fn new(first_vtime: u64) -> ClassTrees
        ensures { result ≡ record { vtimes = same_times first_vtime; members = replicate 48 None } }
    {
        let real_time = ServiceTree::new(first_vtime);
        let best_effort = ServiceTree::new(first_vtime);
        let idle = ServiceTree::new(first_vtime);
        ClassTrees {
            real_time,
            best_effort,
            idle,
        }
    }

    // The tree of a class: its virtual time, and the members without those of the others.
    fn tree(&self, class: Class) -> &ServiceTree
        ensures { result.now ≡ of_class class self.now }
    {
        match class {
            Class::RealTime => &self.real_time,
            Class::BestEffort => &self.best_effort,
            Class::Idle => &self.idle,
        }
    }

    /// The virtual time of a class.
    pub fn vtime(&self, class: Class) -> u64
        ensures { result ≡ time_of self.now.vtimes class }
    {
        self.tree(class).vtime()
    }

    /// The virtual times of all classes.
    pub fn vtimes(&self) -> Vtimes
        ensures { result ≡ self.now.vtimes }
    {
        Vtimes {
            real_time: self.real_time.vtime(),
            best_effort: self.best_effort.vtime(),
            idle: self.idle.vtime(),
        }
    }

    /// Sets the virtual times of all classes, and hands back the old ones. The members stay.
    pub fn exchange_vtimes(&mut self, vtimes: Vtimes) -> Vtimes
        ensures new { self.new ≡ record self.old { vtimes = vtimes } }
        ensures old { result ≡ self.old.vtimes }
    {
        Vtimes {
            real_time: self.real_time.exchange_vtime(vtimes.real_time),
            best_effort: self.best_effort.exchange_vtime(vtimes.best_effort),
            idle: self.idle.exchange_vtime(vtimes.idle),
        }
    }

    /// What is known of an entity, if it is a member, of whatever class.
    pub fn member(&self, entity: Entity) -> Option<Member>
        ensures { result ≡ slice_index_or self.now.members entity None }
    {
        let real_time = self.real_time.get(entity);
        let best_effort = self.best_effort.get(entity);
        let idle = self.idle.get(entity);
        real_time.or(best_effort).or(idle)
    }

    /// Puts a member, or none, under an entity's number, and hands back what stood there, of whatever class.
    /// Where there is no such number nothing happens, and the argument comes back.
    pub fn exchange(&mut self, entity: Entity, member: Option<Member>) -> Option<Member>
        ensures new { self.new ≡ record self.old { members = slice_set self.old.members entity member } }
        ensures old { result ≡ slice_index_or self.old.members entity member }
    {
        let real_time = only_one(Class::RealTime, member);
        let best_effort = only_one(Class::BestEffort, member);
        let idle = only_one(Class::Idle, member);
        let real_time = self.real_time.exchange(entity, real_time);
        let best_effort = self.best_effort.exchange(entity, best_effort);
        let idle = self.idle.exchange(entity, idle);
        real_time.or(best_effort).or(idle)
    }

    /// Of the members of a class that are eligible at a virtual time the one with the least finish; on a tie the one with
    /// the lower number. None only if no member of the class is eligible.
    pub fn pick(&self, class: Class, vtime: u64) -> Option<Entity>
        ensures value { result ≡ pick vtime (only class self.now.members) }
        ensures picked { MatchOption result (NoneEligible vtime (only class self.now.members)) (IsPicked vtime (only class self.now.members)) }
    {
        self.tree(class).pick(vtime)
    }

    /// The least start of the active members of a class. None only if no member of the class is active.
    pub fn least_start(&self, class: Class) -> Option<u64>
        ensures value { result ≡ least_start (only class self.now.members) }
        ensures least { MatchOption result (NoneActive (only class self.now.members)) (IsLeastStart (only class self.now.members)) }
    {
        self.tree(class).least_start()
    }

    /// The sum of the weights of the members of a class that count at a virtual time: the active ones, those in service,
    /// and the idle ones with a finish after it.
    pub fn weight_sum(&self, class: Class, vtime: u64) -> u64
        ensures value { result ≡ weight_sum vtime (only class self.now.members) }
        ensures covers { WeighsAtMost vtime (only class self.now.members) result }
    {
        self.tree(class).weight_sum(vtime)
    }

    // Whether a class has an active member.
    fn has_active(&self, class: Class) -> bool
        ensures value { result ≡ has_active class self.now.members }
        ensures some { result ≡ true → HasActive self.now.members class }
        ensures none { result ≡ false → NoneActive (only class self.now.members) }
    {
        match self.tree(class).least_start() {
            Some(_) => true,
            None => false,
        }
    }

    /// The highest class that has an active member. None only if no member is active.
    pub fn first_class(&self) -> Option<Class>
        ensures value { result ≡ first_class self.now.members }
        ensures first { MatchOption result (NoneActive self.now.members) (IsFirstClass self.now.members) }
    {
        if self.has_active(Class::RealTime) {
            Some(Class::RealTime)
        } else if self.has_active(Class::BestEffort) {
            Some(Class::BestEffort)
        } else if self.has_active(Class::Idle) {
            Some(Class::Idle)
        } else {
            None
        }
    }
}

// A member, if it is of this class.
fn only_one(class: Class, member: Option<Member>) -> Option<Member>
    ensures { result ≡ only_one class member }
{
    match member {
        Some(member) => {
            if rank(member.class) == rank(class) {
                Some(member)
            } else {
                None
            }
        },
        None => None,
    }
}

// The place of a class in their order, the highest first.
fn rank(class: Class) -> u8
    ensures { result ≡ rank class }
{
    match class {
        Class::RealTime => 0,
        Class::BestEffort => 1,
        Class::Idle => 2,
    }
}
