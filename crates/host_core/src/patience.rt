// How often who waits looks before it sleeps, by what looking came to before.
use crate::bell::Bell;
use std::sync::Wait;

/// How many turns in a row may do nothing before a core sleeps. A peer's next call comes within some hundredths of a millisecond, and to be
/// woken costs as much.
pub const IDLE_TURNS: u32 = 400;

/// How often who waits at the seat of a client or of the operator looks for a reply before it sleeps.
pub const LOOKS: u32 = 2500;

/// The same at a device's seat, where the next request comes only when a client has its reply and has asked again.
pub const DEVICE_LOOKS: u32 = 5000;

// The least looks are the most divided by this.
const LEAST_PART: u32 = 32;

// Who slept looks less by this part the next time: so slowly that one late answer does not end a run of quick ones.
const LOSS_PART: u32 = 8;

// One wait of so many has the most looks, so that it is noticed when looking is worth it again. The number is odd: a client waits by turns for
// the answer to a Submit and to a Reap, and a worker for those to a Finish and to a Take, and each kind of wait is to be tried.
const TRIES: u32 = 15;

/// How often one looks before one sleeps. If what one waited for came while one looked, one looks as often the next time, or twice as often as
/// it took. If one slept, one looks an eighth less often. So who is kept waiting does not look for long, as beside other work each look takes a
/// processor from those who work. No contract depends on it.
#[derive(Clone, Copy)]
pub struct Patience {
    most: u32,
    limit: u32,
    waits: u32,
    // Of the wait that has begun: how often one has rested.
    rests: u32,
}

impl Patience {
    /// One looks so often at most, and at first.
    pub fn new(most: u32) -> Patience {
        Patience {
            most,
            limit: most,
            waits: 0,
            rests: 0,
        }
    }

    // How often one looks in this wait.
    fn looks(&self) -> u32 {
        if self.waits % TRIES == 0 {
            self.most
        } else {
            self.limit
        }
    }

    /// Whether the next rest is a sleep.
    pub fn is_over(&self) -> bool {
        self.rests >= self.looks()
    }

    /// A look has found nothing: returns at once, or sleeps until the bell is rung.
    pub fn rest<R: Wait>(&mut self, rt: &R, bell: &Bell) {
        bell.rest(rt, self.is_over());
        self.rests = self.rests.saturating_add(1);
    }

    /// A look has found something, which ends a wait if one has begun.
    pub fn found(&mut self) {
        if self.rests == 0 {
            return;
        }
        self.limit = if self.rests > self.looks() {
            (self.limit - self.limit / LOSS_PART).max(self.most / LEAST_PART)
        } else {
            self.rests.saturating_mul(2).min(self.most).max(self.limit)
        };
        self.waits = self.waits.wrapping_add(1);
        self.rests = 0;
    }
}
