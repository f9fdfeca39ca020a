// The end of all seats.
ghost use Rattle.std.specs.Prelude.{◌≡◌, List, map, vec_len};
ghost use Rattle.host_calls.specs.declared.ring.RingReply.{RingReply as Replies};
ghost use Rattle.host_calls.specs.declared.ring.RingReply.TheVariants.{Closed as Closing};
ghost use Rattle.host_core.specs.Seats.{row_of};
ghost use Rattle.host_core.specs.Closing.{AllOpen, AllClose};
ghost use Rattle.host_core.specs.Same.{SameEach};

use crate::asked::Staged;
use crate::desk::Desk;
use crate::desks::Desks;
use host_calls::RingReply;
use rtrb::Protocol;

impl Desks {
    ghost use Rattle.host_core.specs.Desks.{rows};
    ghost use Rattle.host_core.specs.Same.{SameDesks};

    /// Tells each seat that the core has ended. A call that waits gets no other reply.
    pub fn close(&mut self)
        requires open { AllOpen (rows self.old) }
        ensures closes { AllClose (rows self.old) (rows self.new) }
        ensures desks { SameDesks self.old self.new }
    {
        close_row(&mut self.callers);
        close_row(&mut self.devices);
        self.operator.close();
    }
}

fn close_row<C: Staged, P: Protocol<RingReply>>(desks: &mut Vec<Desk<C, P>>)
    requires open { AllOpen (map (row_of C.asked_by C.named) desks.old.items) }
    requires rule { (before : List Replies) → P.allows before Closing }
    ensures closes { AllClose (map (row_of C.asked_by C.named) desks.old.items) (map (row_of C.asked_by C.named) desks.new.items) }
    ensures desks { SameEach desks.old.items desks.new.items }
    ensures len { vec_len desks.new ≡ vec_len desks.old }
{
    for number in 0..desks.len() {
        desks[number].close();
    }
}
