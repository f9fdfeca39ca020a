// What a thread sleeps on, and what wakes it.
use std::alloc::{AllocError, Global};
use std::hint;
use std::sync::{Arc, Wait};
use std::thread::Parker;

/// A bell: who rings it wakes the one thread that sleeps on it, now or at its next sleep. So no ring between a last look and the
/// sleep is lost.
#[derive(Drop)]
pub struct Bell {
    parker: Arc<Parker, Global>,
}

impl Bell {
    /// A bell that nobody has rung.
    ///
    /// # Errors
    ///
    /// A growth was refused.
    pub fn new(alloc: Global) -> Result<Bell, AllocError> {
        let parker = Arc::new(alloc, Parker::new())?;
        Ok(Bell { parker })
    }

    /// The same bell, for who rings it.
    ///
    /// # Errors
    ///
    /// It is shared too often to count.
    pub fn shared(&self) -> Result<Bell, AllocError> {
        let parker = Arc::try_clone(&self.parker)?;
        Ok(Bell { parker })
    }

    /// Wakes who sleeps on it.
    pub fn ring(&self) {
        self.parker.unpark();
    }

    /// Returns at once, or sleeps until the bell is rung.
    pub fn rest<R: Wait>(&self, rt: &R, sleeps: bool) {
        if sleeps {
            self.parker.park(rt);
        } else {
            // No yield: on a busy machine it gives the processor to strangers for milliseconds.
            hint::spin_loop();
        }
    }
}
