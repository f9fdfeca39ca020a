// What a group knows of an entity, in three words.
ghost use Rattle.std.specs.Prelude.{◌≡◌};

use plain::{Member, State};
use sector_core::Class;
use std::marker::Model;

/// A place of a group's tree: a member, or none. The numbers stand first, so that no gap is between them: an exchange
/// of one is no wider than one of a link.
#[derive(Drop)]
pub struct MemberPlace {
    start: u64,
    finish: u64,
    weight: u32,
    class: Class,
    state: State,
    is_taken: bool,
}

impl Model for MemberPlace {
    ghost use Rattle.std.specs.Prelude.{Option, Some, None, if◌then◌else◌};
    ghost use Rattle.plain.specs.declared.member.Member.{Member as AnyMember};

    ghost Value = { Option AnyMember };

    ghost view = { λ p. if p.is_taken then Some (record { class = p.class; state = p.state; start = p.start; finish = p.finish; weight = p.weight }) else None };
}

impl MemberPlace {
    /// The place of this member, or of none.
    pub fn of(member: Option<Member>) -> MemberPlace
        ensures { result ≡ member }
    {
        match member {
            Some(member) => MemberPlace {
                start: member.start,
                finish: member.finish,
                weight: member.weight,
                class: member.class,
                state: member.state,
                is_taken: true,
            },
            // What stands in a free place is not looked at.
            None => MemberPlace {
                start: 0,
                finish: 0,
                weight: 0,
                class: Class::Idle,
                state: State::Idle,
                is_taken: false,
            },
        }
    }

    /// The member that stands there, if one does.
    pub fn member(&self) -> Option<Member>
        ensures { result ≡ self.now }
    {
        if !self.is_taken {
            return None;
        }
        Some(Member {
            class: self.class,
            state: self.state,
            start: self.start,
            finish: self.finish,
            weight: self.weight,
        })
    }
}
