// The core's side of a seat.
ghost use Rattle.std.specs.Prelude.{◌≡◌, ◌≢◌, ◌<◌, [], ◌∷◌, ◌++◌, length, false, true, option_to_list};
ghost use Rattle.std.specs.Option.{option_copied};
ghost use Rattle.rtrb.specs.Ring.{sent, known_free};
ghost use Rattle.host_core.specs.Rows.{Took, last_taken};

use crate::asked::{Asked, Staged};
use crate::bell::Bell;
use host_calls::{RingReply, SeatName};
use plain::{Answer, Reply};
use rtrb::{Consumer, Producer, Protocol};
use std::alloc::Global;

/// The core's side of a seat: the call that waits, if one does, and the two rings.
pub struct Desk<C, P: Protocol<RingReply>> {
    pub(crate) calls: Consumer<C>,
    pub(crate) replies: Producer<RingReply, Global, P>,
    pub(crate) bell: Bell,
    pub(crate) number: u8,
    pub(crate) waiting: Option<Asked>,
    pub(crate) last: Option<u64>,
    pub(crate) closed: bool,
    ghost room: { closed ≡ false → length (option_to_list waiting) < known_free replies },
    ghost last_is: { last ≡ last_taken (sent replies) },
}

// Written out, and not derived: so who drops one, in whatever crate, calls this, and proves no drop of each part anew.
impl<C: Drop, P: Protocol<RingReply>> Drop for Desk<C, P> {
    fn drop(self) {
        let Desk {
            calls: _,
            replies: _,
            bell: _,
            number: _,
            waiting: _,
            last: _,
            closed: _,
        } = self;
    }
}

impl<C: Staged, P: Protocol<RingReply>> Desk<C, P> {
    ghost use Rattle.host_core.specs.Seats.{replied, row_of, SameDesk};
    ghost use Rattle.host_calls.specs.declared.ring.RingReply.TheVariants.{Answer as Answered, Closed as Closing};

    /// Whose desk it is.
    pub fn name(&self) -> SeatName
        ensures { result ≡ (row_of C.asked_by C.named self.now).name }
    {
        C::name(self.number)
    }

    /// The call that was taken and is not answered yet.
    pub fn waiting(&self) -> Option<&Asked>
        ensures { option_to_list (option_copied result) ≡ (row_of C.asked_by C.named self.now).waiting }
    {
        self.waiting.as_ref()
    }

    /// The issue of the work that it handed out last, if it has handed out any.
    pub fn last(&self) -> Option<u64>
        ensures { result ≡ last_taken (row_of C.asked_by C.named self.now).replied }
    {
        self.last
    }

    /// Whether it has said that the core has ended.
    pub fn is_closed(&self) -> bool
        ensures { result ≡ (row_of C.asked_by C.named self.now).closed }
    {
        self.closed
    }

    /// Takes the next call, if none waits, one is there, and two replies more have a place.
    pub fn take(&mut self)
        ensures took { Took (row_of C.asked_by C.named self.old) (row_of C.asked_by C.named self.new) }
        ensures stays { (row_of C.asked_by C.named self.old).closed ≡ true → row_of C.asked_by C.named self.new ≡ row_of C.asked_by C.named self.old }
        ensures desk { SameDesk self.old self.new }
    {
        if self.closed || self.waiting.is_some() {
            return;
        }
        // What is known to be free stays free; only if that is too little the seat's side is looked at.
        if self.replies.cached_slots() < 2 && self.replies.slots() < 2 {
            return;
        }
        match self.calls.pop() {
            Ok(call) => self.waiting = Some(call.asked(self.number)),
            Err(_) => {}
        }
    }

    /// Answers the call that waits, and rings the seat. If its next call is here already, with room for its reply, the reply to that one
    /// rings.
    pub fn answer(&mut self, answer: Answer)
        requires open { (row_of C.asked_by C.named self.old).closed ≡ false }
        requires waits { (row_of C.asked_by C.named self.old).waiting ≢ [] }
        requires allowed { P.allows (replied self.old) (Answered answer) }
        ensures row { row_of C.asked_by C.named self.new
            ≡ record (row_of C.asked_by C.named self.old) { waiting = []; replied = replied self.old ++ Answered answer ∷ [] } }
        ensures desk { SameDesk self.old self.new }
    {
        self.waiting = None;
        if let Answer::Accepted(Reply::Taken(work)) = &answer {
            self.last = Some(work.issue);
        }
        self.replies.push_reserved(RingReply::Answer(answer));
        self.ring();
    }

    // Rings the seat. If its next call is here, with room for its reply, then who sits there waits for that reply too, and is rung once: by
    // that one.
    fn ring(&mut self)
        ensures row { row_of C.asked_by C.named self.new ≡ row_of C.asked_by C.named self.old }
        ensures desk { SameDesk self.old self.new }
    {
        if (self.replies.cached_slots() < 2 && self.replies.slots() < 2) || self.calls.is_empty() {
            self.bell.ring();
        }
    }

    /// Says that the core has ended, and rings the seat. The call that waits, if one does, gets no other reply.
    pub fn close(&mut self)
        requires open { (row_of C.asked_by C.named self.old).closed ≡ false }
        requires allowed { P.allows (replied self.old) Closing }
        ensures row { row_of C.asked_by C.named self.new
            ≡ record (row_of C.asked_by C.named self.old) { closed = true; replied = replied self.old ++ Closing ∷ [] } }
        ensures desk { SameDesk self.old self.new }
    {
        self.closed = true;
        self.replies.push_reserved(RingReply::Closed);
        self.bell.ring();
    }
}
