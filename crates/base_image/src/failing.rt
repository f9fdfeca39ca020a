// An image of which one read fails.
ghost use Rattle.std.specs.Prelude.{◌≡◌, ◌≢◌, ◌<◌, ◌-◌, ◌^◌, Err, None, [], length};
ghost use Rattle.base_image.specs.Image.{Reads, logged, CanBeCounted};
ghost use Rattle.base_image.specs.Kinds.{Failing, seen};

use crate::image::{Image, ImageFault};
use crate::log::ReadLog;
use crate::read::LoggedRead;
use std::marker::Model;

/// Another image, of which the read with one number fails, and no other read that would not fail there.
#[derive(Drop)]
pub struct FailingImage<I: Image> {
    inner: I,
    left: u64,
    fault: ImageFault,
    faults: u64,
    last: Option<ImageFault>,
    log: ReadLog,
}

impl<I: Image> Model for FailingImage<I> {
    ghost use Rattle.std.specs.Prelude.{◌≤◌};
    ghost use Rattle.base_image.specs.Kinds.{Failing};

    ghost Value = { Failing I };

    ghost view = { λ i. record { inner = i.inner; left = i.left; fault = i.fault; faults = i.faults; last = i.last; log = i.log.reads } };

    // its own count began at that of the image inside, and counts that one's failures too
    ghost invariant = { λ i. (I.disk i.inner).faults ≤ i.faults };
}

impl<I: Image> FailingImage<I> {
    /// The image `inner`, of which read number `k` (counted from 1, from now on) fails with `fault` and
    /// does not reach the image inside. With 0 no read fails but those that fail there.
    pub fn new(inner: I, k: u64, fault: ImageFault) -> FailingImage<I>
        ensures { result ≡ record { inner = inner; left = k; fault = fault; faults = (I.disk inner).faults; last = None; log = [] } }
    {
        let faults = inner.faults();
        FailingImage {
            inner,
            left: k,
            fault,
            faults,
            last: None,
            log: ReadLog::new(),
        }
    }
}

impl<I: Image> Image for FailingImage<I> {
    ghost disk = { λ image. seen I.disk image };

    ghost log = { λ image. image.log };

    fn sectors(&self) -> u64 {
        self.inner.sectors()
    }

    fn read_at(&mut self, offset: u64, buffer: &mut [u8]) -> Result<usize, ImageFault>
        requires countable { self.old.faults < 2 ^ 64 - 1 }
        ensures reads { Reads (seen I.disk self.old) offset buffer.new result (seen I.disk self.new) }
        ensures logged { self.new.log ≡ logged self.old.log offset (length buffer.new) result }
        ensures fails { self.old.left ≡ 1 → (result ≡ Err self.old.fault) × (self.new.inner ≡ self.old.inner) }
        ensures passes { self.old.left ≢ 1
            → Reads (I.disk self.old.inner) offset buffer.new result (I.disk self.new.inner) }
        ensures once { self.old.left ≢ 1
            → I.log self.new.inner ≡ logged (I.log self.old.inner) offset (length buffer.new) result }
        ensures left { self.new.left ≡ self.old.left - 1 }
        ensures fault { self.new.fault ≡ self.old.fault }
    {
        let fails = self.left == 1;
        self.left = self.left.saturating_sub(1);
        let read = if fails {
            Err(self.fault)
        } else {
            self.inner.read_at(offset, buffer)
        };
        self.log = self.log.then(&LoggedRead {
            offset,
            asked: buffer.len(),
            outcome: read,
        });
        if let Err(fault) = read {
            self.faults += 1;
            self.last = Some(fault);
        }
        read
    }

    fn faults(&self) -> u64 {
        self.faults
    }
}
