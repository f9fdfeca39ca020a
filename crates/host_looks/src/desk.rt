// The core's side of looks.
ghost use Rattle.std.specs.Prelude.{IsTrue, IsFalse};
ghost use Rattle.host_looks.specs.Looking.{SameDesk, Served, Idles};

use crate::told::{Queries, Told, reply_to};
use host_console::Shows;
use host_core::Bell;
use rtrb::{Consumer, Producer};
use script_line::Line;
use std::alloc::Global;

/// Where the core is asked for looks.
pub struct LookDesk {
    pub(crate) lines: Consumer<Line, Global, Queries>,
    pub(crate) replies: Producer<Option<Told>>,
    pub(crate) bell: Bell,
}

impl Drop for LookDesk {
    // The seat is rung last: so it finds that nobody is here any more.
    fn drop(self) {
        let LookDesk {
            lines,
            replies,
            bell,
        } = self;
        drop(lines);
        drop(replies);
        bell.ring();
    }
}

impl LookDesk {
    /// Tells what one query prints at this keeper, if one is asked and there is a place for the reply. Gives whether it did.
    pub fn serve<K: Shows>(&mut self, alloc: Global, keeper: &K) -> bool
        ensures desk { SameDesk self.old self.new }
        ensures served { IsTrue result → Served (K.state keeper.now) self.old self.new }
        ensures idle { IsFalse result → Idles self.old self.new }
    {
        if self.lines.is_empty() || self.replies.is_full() {
            return false;
        }
        let line = self.lines.pop_known();
        let reply = reply_to(alloc, keeper, line);
        self.replies.push_reserved(reply);
        self.bell.ring();
        true
    }
}
