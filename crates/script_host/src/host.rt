// The keeper of the history, as a console needs it.
ghost use Rattle.std.specs.Prelude.{◌≡◌};
ghost use Rattle.plain.specs.Keeper.{State};

use crate::looks::put_look;
use history::{Keeper, KeeperView};
use host_console::{Keeps, Shows};
use plain::{Answer, Call, EntityView, RequestView, SectorView, Work};
use script_line::Look;
use sector_core::Class;
use std::alloc::Global;
use std::io;

/// A keeper, or a look at one.
pub trait Seen {
    /// The keeper as the rules see it.
    ghost kept: { Self → State };

    /// The look.
    fn look(&self) -> KeeperView<'_>
        ensures { result.state ≡ kept self.now };
}

impl Seen for Keeper {
    ghost kept = { λ keeper. keeper.state };

    fn look(&self) -> KeeperView<'_> {
        self.view()
    }
}

impl<'a, S: Seen> Seen for &'a S {
    ghost kept = { λ seen. S.kept seen.now };

    fn look(&self) -> KeeperView<'_> {
        (**self).look()
    }
}

/// A keeper that can be looked at; a script is run at one of its own.
#[derive(Drop)]
pub struct Host<S: Seen> {
    /// The keeper.
    pub keeper: S,
}

impl<S: Seen> Shows for Host<S> {
    ghost state = { λ host. S.kept host.keeper };

    fn work(&self, tag: u8, issue: u64) -> Option<Work> {
        match self.keeper.look().machine().in_flight(tag) {
            Some(work) if work.issue == issue => Some(work),
            _ => None,
        }
    }

    fn sector(&self, number: u64) -> SectorView<'_> {
        self.keeper.look().machine().sector(number)
    }

    fn request(&self, seat: u8, place: usize) -> RequestView {
        self.keeper.look().machine().request(seat, place)
    }

    fn vtime(&self, group: u8, class: Class) -> Option<u64> {
        self.keeper.look().machine().vtime(group, class)
    }

    fn entity(&self, number: u8) -> Option<EntityView> {
        self.keeper.look().machine().entity(number)
    }

    fn cursor(&self) -> u32 {
        self.keeper.look().cursor()
    }

    fn length(&self) -> u32 {
        self.keeper.look().length()
    }

    fn put_look(&self, look: Look, out: &mut Vec<u8>) -> io::Result<()> {
        put_look(&self.keeper.look(), look, out)
    }

    fn last_serial(&self) -> u64 {
        self.keeper.look().last_serial()
    }
}

impl Keeps for Host<Keeper> {
    fn call(&mut self, alloc: Global, call: &Call) -> Answer {
        self.keeper.call(alloc, call)
    }
}
