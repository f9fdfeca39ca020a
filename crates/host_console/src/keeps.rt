// What a console needs of a keeper.
ghost use Rattle.std.specs.Prelude.{◌≡◌, ◌<◌, ◌^◌, ◌++◌, List, ℕ, OnOk, length};
ghost use Rattle.plain.specs.Keeper.{State, machine_of};
ghost use Rattle.plain.specs.Headline.{MayCall};
ghost use Rattle.plain.specs.Looks.{request_view, vtime_view, entity_view};
ghost use Rattle.plain.specs.Device.{work_in_flight};
ghost use Rattle.host_console.specs.Printed.{IsContent};
ghost use Rattle.host_console.specs.Looks.{Looked};

use plain::{Answer, Call, EntityView, RequestView, SectorView, Work};
use script_line::Look;
use sector_core::Class;
use std::alloc::Global;
use std::io;

/// A keeper that can be looked at.
pub trait Shows {
    /// The keeper as the rules see it.
    ghost state: { Self → State };

    /// The request in flight under this tag with this issue, if there is one.
    fn work(&self, tag: u8, issue: u64) -> Option<Work>
        ensures { result ≡ work_in_flight (machine_of (state self.now)) tag issue };

    /// The content of a sector.
    fn sector(&self, number: u64) -> SectorView<'_>
        ensures { IsContent (state self.now) number result };

    /// What stands at a place of a seat's queue, in order of insertion; no queue has as many places as a `u16` counts.
    fn request(&self, seat: u8, place: usize) -> RequestView
        ensures view { result ≡ request_view (machine_of (state self.now)) seat place }
        ensures few { length ((machine_of (state self.now)).queue seat) < 2 ^ 16 };

    /// The virtual time of a class of a group, if the group stands.
    fn vtime(&self, group: u8, class: Class) -> Option<u64>
        ensures { result ≡ vtime_view (machine_of (state self.now)) group class };

    /// What is known of an entity, if it is in a group.
    fn entity(&self, number: u8) -> Option<EntityView>
        ensures { result ≡ entity_view (machine_of (state self.now)) number };

    /// How many steps stand.
    fn cursor(&self) -> u32
        ensures { result ≡ (state self.now).cursor };

    /// How many steps the line has.
    fn length(&self) -> u32
        ensures { result ≡ length (state self.now).line };

    /// Appends what a look shows. It fails only for want of memory.
    fn put_look(&self, look: Look, out: &mut Vec<u8>) -> io::Result<()>
        ensures { OnOk result ((shown : List ℕ) × Looked (state self.now) look shown × (out.new.items ≡ out.old.items ++ shown)) };

    /// The last serial that was given.
    fn last_serial(&self) -> u64
        ensures { result ≡ (state self.now).last };
}

/// A keeper that can be looked at, and answers calls.
pub trait Keeps: Shows {
    /// Answers a call; a call that is not accepted changes nothing.
    fn call(&mut self, alloc: Global, call: &Call) -> Answer
        ensures { MayCall (Self.state self.old) call.now result (Self.state self.new) };
}
