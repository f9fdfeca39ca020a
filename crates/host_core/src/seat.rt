// Who sits at a seat: its calls go out, its replies come in.
ghost use Rattle.std.specs.Prelude.{◌≡◌, ◌<◌, ◌+◌, [], ◌∷◌, ◌++◌, length, false, true, None, OnOk, OnErr, IfOk, IfErr, IfSome, IsErr};
ghost use Rattle.host_core.specs.Seats.{seat_number, staged, collected, is_closed, closed_by, IsFull, HasNothing, SameSeat};
ghost use Rattle.host_calls.specs.declared.ring.RingReply.TheVariants.{Answer as Answered, Closed as Closing};

use crate::bell::Bell;
use crate::patience::Patience;
use host_calls::{Closed, RingReply};
use plain::Answer;
use rtrb::{Consumer, Producer, Protocol, PushError};
use std::alloc::Global;
use std::sync::Wait;

/// A seat.
pub struct Seat<C, P: Protocol<RingReply>> {
    pub(crate) calls: Producer<C>,
    pub(crate) replies: Consumer<RingReply, Global, P>,
    pub(crate) core: Bell,
    pub(crate) own: Bell,
    pub(crate) patience: Patience,
    pub(crate) number: u8,
    pub(crate) closed: bool,
}

// Written out, and not derived: so who drops one, in whatever crate, calls this, and proves no drop of each part anew.
impl<C: Drop, P: Protocol<RingReply>> Drop for Seat<C, P> {
    fn drop(self) {
        let Seat {
            calls: _,
            replies: _,
            core: _,
            own: _,
            patience: _,
            number: _,
            closed: _,
        } = self;
    }
}

impl<C: Drop, P: Protocol<RingReply>> Seat<C, P> {
    /// Its number, among the seats of its kind.
    pub fn number(&self) -> u8
        ensures { result ≡ seat_number self.now }
    {
        self.number
    }

    /// Whether Closed was collected.
    pub fn is_closed(&self) -> bool
        ensures { result ≡ is_closed self.now }
    {
        self.closed
    }

    /// Stages a call and rings the core, or hands the call back if four calls wait to be taken.
    ///
    /// # Errors
    ///
    /// The ring is full. The call comes back.
    pub fn stage(&mut self, call: C) -> Result<(), C>
        ensures seat { SameSeat self.old self.new }
        ensures ok { OnOk result (staged self.new ≡ staged self.old ++ call ∷ []) }
        ensures full { IfErr result (λ back. (back ≡ call) × (staged self.new ≡ staged self.old) × IsFull self.new) }
        ensures collected { (collected self.new ≡ collected self.old) × (is_closed self.new ≡ is_closed self.old) }
    {
        match self.calls.push(call) {
            Ok(()) => {
                self.core.ring();
                Ok(())
            }
            Err(PushError::Full(back)) => Err(back),
        }
    }

    /// Stages a call, as soon as it has a place, and rings the core. Fewer than four may be open, as more find no places for their replies.
    pub fn stage_waiting<R: Wait>(&mut self, rt: &R, call: C)
        requires open { is_closed self.old ≡ false }
        requires few { length (staged self.old) < length (collected self.old) + 4 }
        ensures seat { SameSeat self.old self.new }
        ensures staged { staged self.new ≡ staged self.old ++ call ∷ [] }
        ensures collected { (collected self.new ≡ collected self.old) × (is_closed self.new ≡ is_closed self.old) }
    {
        self.push_waiting(rt, call);
        self.core.ring();
    }

    /// Stages two calls, each as soon as it has a place, and rings the core once, behind both. Fewer than three may be open.
    pub fn stage_both_waiting<R: Wait>(&mut self, rt: &R, first: C, second: C)
        requires open { is_closed self.old ≡ false }
        requires few { length (staged self.old) < length (collected self.old) + 3 }
        ensures seat { SameSeat self.old self.new }
        ensures staged { staged self.new ≡ staged self.old ++ first ∷ second ∷ [] }
        ensures collected { (collected self.new ≡ collected self.old) × (is_closed self.new ≡ is_closed self.old) }
    {
        self.push_waiting(rt, first);
        self.push_waiting(rt, second);
        self.core.ring();
    }

    /// Collects the next reply, if one is there, and rings the core, which may wait for the place.
    pub fn collect(&mut self) -> Option<RingReply>
        ensures seat { SameSeat self.old self.new }
        ensures some { IfSome result (λ r. (collected self.new ≡ collected self.old ++ r ∷ []) × P.allows (collected self.old) r) }
        ensures none { result ≡ None
            → (collected self.new ≡ collected self.old) × (is_closed self.new ≡ is_closed self.old) × HasNothing self.new }
        ensures closed { IfSome result (λ r. is_closed self.new ≡ closed_by (is_closed self.old) r) }
        ensures staged { staged self.new ≡ staged self.old }
    {
        let reply = self.next_reply();
        if reply.is_some() {
            self.core.ring();
        }
        reply
    }

    // The next reply, if one is there.
    fn next_reply(&mut self) -> Option<RingReply>
        ensures seat { SameSeat self.old self.new }
        ensures some { IfSome result (λ r. (collected self.new ≡ collected self.old ++ r ∷ []) × P.allows (collected self.old) r) }
        ensures none { result ≡ None
            → (collected self.new ≡ collected self.old) × (is_closed self.new ≡ is_closed self.old) × HasNothing self.new }
        ensures closed { IfSome result (λ r. is_closed self.new ≡ closed_by (is_closed self.old) r) }
        ensures staged { staged self.new ≡ staged self.old }
    {
        match self.replies.pop() {
            Ok(reply) => {
                match &reply {
                    RingReply::Closed => self.closed = true,
                    RingReply::Answer(_) => {}
                }
                Some(reply)
            }
            Err(_) => None,
        }
    }

    /// Makes one call and waits for its answer. Once Closed was collected nothing is staged.
    ///
    /// # Errors
    ///
    /// The core has ended, and the call was not answered.
    pub fn ask<R: Wait>(&mut self, rt: &R, call: C) -> Result<Answer, Closed>
        requires { is_closed self.old ≡ false → length (staged self.old) ≡ length (collected self.old) }
        ensures seat { SameSeat self.old self.new }
        ensures ok { IfOk result (λ a. (staged self.new ≡ staged self.old ++ call ∷ [])
            × (collected self.new ≡ collected self.old ++ Answered a ∷ []) × P.allows (collected self.old) (Answered a)) }
        ensures before { OnErr result (is_closed self.old ≡ true
            → (staged self.new ≡ staged self.old) × (collected self.new ≡ collected self.old)) }
        ensures closing { OnErr result (is_closed self.old ≡ false
            → (staged self.new ≡ staged self.old ++ call ∷ []) × (collected self.new ≡ collected self.old ++ Closing ∷ [])) }
        ensures open { OnOk result (is_closed self.new ≡ is_closed self.old) }
        ensures ended { OnErr result (is_closed self.new ≡ true) }
        ensures shut { is_closed self.old ≡ true → IsErr result }
    {
        if self.closed {
            return Err(Closed);
        }
        self.stage_waiting(rt, call);
        match self.collect_waiting(rt) {
            RingReply::Answer(answer) => Ok(answer),
            RingReply::Closed => Err(Closed),
        }
    }

    // Stages a call, as soon as it has a place, and rings nobody.
    fn push_waiting<R: Wait>(&mut self, rt: &R, call: C)
        ensures seat { SameSeat self.old self.new }
        ensures staged { staged self.new ≡ staged self.old ++ call ∷ [] }
        ensures collected { (collected self.new ≡ collected self.old) × (is_closed self.new ≡ is_closed self.old) }
    {
        let mut call = call;
        for _ in rt.forever() {
            match self.calls.push(call) {
                Ok(()) => return,
                Err(PushError::Full(back)) => call = back,
            }
            self.own.rest(rt, false);
        }
        unreachable!()
    }

    /// Waits for the next reply. One is to come: the core has not ended, and more calls were staged than replies collected.
    ///
    /// Where another call stands behind the one that is answered, it may wait for the reply to that one too. So who needs each reply at
    /// once asks one call after the other (`ask`).
    pub fn collect_waiting<R: Wait>(&mut self, rt: &R) -> RingReply
        requires open { is_closed self.old ≡ false }
        requires owed { length (collected self.old) < length (staged self.old) }
        ensures seat { SameSeat self.old self.new }
        ensures some { (collected self.new ≡ collected self.old ++ result ∷ []) × P.allows (collected self.old) result }
        ensures closed { is_closed self.new ≡ closed_by false result }
        ensures staged { staged self.new ≡ staged self.old }
    {
        for _ in rt.forever() {
            if let Some(reply) = self.next_reply() {
                self.patience.found();
                self.tell_of_place();
                return reply;
            }
            self.patience.rest(rt, &self.own);
        }
        unreachable!()
    }

    // Rings the core if a call is not taken yet: the core may have waited for the place that is free now.
    fn tell_of_place(&mut self)
        ensures seat { SameSeat self.old self.new }
        ensures staged { staged self.new ≡ staged self.old }
        ensures collected { (collected self.new ≡ collected self.old) × (is_closed self.new ≡ is_closed self.old) }
    {
        if self.calls.slots() < self.calls.capacity() {
            self.core.ring();
        }
    }
}
