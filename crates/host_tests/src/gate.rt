// Images that share a gate.
ghost use Rattle.std.specs.Prelude.{◌≡◌, None, true};

use base_image::{Image, ImageFault, LoggedRead, ReadLog};
use std::alloc::{AllocError, Global};
use std::sync::Arc;
use std::sync::atomic::{AtomicU64, Ordering};

// So often a read looks whether another has begun. Then it fails.
const MOST_TURNS: u64 = 100_000_000;

// An image of 64 sectors, each of which has its number in all of its bytes. A read at the gate waits until two have begun, at this
// image or the other. So it ends only if two devices work at once.
#[derive(Drop)]
pub struct Gated {
    begun: Arc<AtomicU64, Global>,
    faults: u64,
    last: Option<ImageFault>,
    log: ReadLog,
}

impl Gated {
    // Two images at one gate, which opens at the second read.
    pub fn two(alloc: Global) -> Result<(Gated, Gated), AllocError> {
        let begun = Arc::new(alloc, AtomicU64::new(0))?;
        let same = Arc::try_clone(&begun)?;
        Ok((Gated::new(begun), Gated::new(same)))
    }

    fn new(begun: Arc<AtomicU64, Global>) -> Gated {
        Gated {
            begun,
            faults: 0,
            last: None,
            log: ReadLog::new(),
        }
    }

    // Whether two reads have begun in time.
    fn opens(&self) -> bool {
        for _ in 0..MOST_TURNS {
            if self.begun.load(Ordering::SeqCst) >= 2 {
                return true;
            }
        }
        false
    }
}

impl Image for Gated {
    ghost disk = { λ image. record { sectors = 64; bytes = None; may_fail = true; faults = image.faults; last = image.last } };

    ghost log = { λ image. image.log.reads };

    fn sectors(&self) -> u64 {
        64
    }

    fn read_at(&mut self, offset: u64, buffer: &mut [u8]) -> Result<usize, ImageFault> {
        self.begun.fetch_add(1, Ordering::SeqCst);
        let read = if self.opens() {
            // A sector at most, so that a longer range takes several reads.
            let count = buffer.len().min(512 - (offset % 512) as usize);
            for place in 0..count {
                buffer[place] = (offset / 512 % 256) as u8;
            }
            Ok(count)
        } else {
            self.faults += 1;
            self.last = Some(ImageFault::Device);
            Err(ImageFault::Device)
        };
        self.log = self.log.then(&LoggedRead {
            offset,
            asked: buffer.len(),
            outcome: read,
        });
        read
    }

    fn faults(&self) -> u64 {
        self.faults
    }
}
