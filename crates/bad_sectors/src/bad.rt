// An image some sectors of which are bad.
ghost use Rattle.std.specs.Prelude.{◌≡◌, ◌<◌, ◌-◌, ◌^◌, ◌↔◌, Err, None, [], length, true, false, IsTrue};
ghost use Rattle.base_image.specs.Image.{Reads, logged, CanBeCounted};
ghost use Rattle.base_image.specs.declared.image.ImageFault.TheVariants.{Device};
ghost use Rattle.bad_sectors.specs.Bad.{Marked, marked, has_sector, touches};

use base_image::{Image, ImageFault, LoggedRead, ReadLog};
use sector_core::Range;
use std::marker::Model;

/// Another image, some sectors of which are bad: a read that touches one of them fails for good, and no other that would not fail there.
#[derive(Drop)]
pub struct BadSectors<I: Image> {
    inner: I,
    bad: Vec<Range>,
    faults: u64,
    last: Option<ImageFault>,
    log: ReadLog,
}

impl<I: Image> Model for BadSectors<I> {
    ghost use Rattle.std.specs.Prelude.{◌≤◌};
    ghost use Rattle.bad_sectors.specs.Bad.{Marked};

    ghost Value = { Marked I };

    ghost view = { λ i. record { inner = i.inner; bad = i.bad.items; faults = i.faults; last = i.last; log = i.log.reads } };

    // its own count began at that of the image inside, and counts that one's failures too
    ghost invariant = { λ i. (I.disk i.inner).faults ≤ i.faults };
}

impl<I: Image> BadSectors<I> {
    /// The image `inner`, of which the sectors of these ranges are bad from now on.
    pub fn new(inner: I, bad: Vec<Range>) -> BadSectors<I>
        ensures { result ≡ record { inner = inner; bad = bad.items; faults = (I.disk inner).faults; last = None; log = [] } }
    {
        let faults = inner.faults();
        BadSectors {
            inner,
            bad,
            faults,
            last: None,
            log: ReadLog::new(),
        }
    }
}

/// Whether `length` bytes from `offset` on have a byte of a sector of these ranges.
pub fn touch(bad: &[Range], offset: u64, length: usize) -> bool
    ensures { result ≡ touches offset length bad.now }
{
    for range in bad {
        if has_sector(range, offset, length) {
            return true;
        }
    }
    false
}

// Whether the bytes have one of a sector of this range.
fn has_sector(range: &Range, offset: u64, length: usize) -> bool
    ensures { result ≡ has_sector offset length range.now }
{
    // Byte numbers of a range may be past those that a u64 counts.
    let first = 512 * u128::from(range.start);
    let end = first + 512 * u128::from(range.count);
    let from = u128::from(offset);
    length > 0 && first < from + length as u128 && from < end
}

impl<I: Image> Image for BadSectors<I> {
    ghost disk = { λ image. marked I.disk image };

    ghost log = { λ image. image.log };

    fn sectors(&self) -> u64 {
        self.inner.sectors()
    }

    fn read_at(&mut self, offset: u64, buffer: &mut [u8]) -> Result<usize, ImageFault>
        requires countable { self.old.faults < 2 ^ 64 - 1 }
        ensures reads { Reads (marked I.disk self.old) offset buffer.new result (marked I.disk self.new) }
        ensures logged { self.new.log ≡ logged self.old.log offset (length buffer.new) result }
        ensures fails { touches offset (length buffer.new) self.old.bad ≡ true → (result ≡ Err Device) × (self.new.inner ≡ self.old.inner) }
        ensures passes { touches offset (length buffer.new) self.old.bad ≡ false
            → Reads (I.disk self.old.inner) offset buffer.new result (I.disk self.new.inner) }
        ensures once { touches offset (length buffer.new) self.old.bad ≡ false
            → I.log self.new.inner ≡ logged (I.log self.old.inner) offset (length buffer.new) result }
        ensures bad { self.new.bad ≡ self.old.bad }
    {
        let is_bad = touch(self.bad.as_slice(), offset, buffer.len());
        let read = if is_bad {
            Err(ImageFault::Device)
        } else {
            self.inner.read_at(offset, buffer)
        };
        self.log = self.log.then(&LoggedRead {
            offset,
            asked: buffer.len(),
            outcome: read,
        });
        if let Err(fault) = read {
            self.faults += 1;
            self.last = Some(fault);
        }
        read
    }

    fn faults(&self) -> u64 {
        self.faults
    }
}
