// An image of zeros.
ghost use Rattle.std.specs.Prelude.{◌≡◌, ◌<◌, ◌^◌, ◌*◌, Some, false, replicate, length};
ghost use Rattle.base_image.specs.Image.{Reads, logged, CanBeCounted};
ghost use Rattle.base_image.specs.Kinds.{fresh, unread, FillsAll};

use crate::image::{Image, ImageFault};
use crate::log::ReadLog;
use crate::read::LoggedRead;
use sector_core::SECTOR_BYTES;
use std::marker::Model;

/// An image of zeros, which takes no memory for them. No read of it fails.
#[derive(Drop)]
pub struct ZeroImage {
    sectors: u64,
    log: ReadLog,
}

impl Model for ZeroImage {
    ghost use Rattle.std.specs.Prelude.{Some, false, replicate, ◌*◌, ◌<◌, ◌^◌};
    ghost use Rattle.base_image.specs.Kinds.{Read, fresh};

    ghost Value = { Read };

    ghost view = { λ i. record { disk = fresh i.sectors (Some (replicate (512 * i.sectors) 0)) false; log = i.log.reads } };

    ghost invariant = { λ i. i.sectors < 2 ^ 55 };
}

impl ZeroImage {
    /// An image of `sectors` sectors of 512 zero bytes.
    pub fn new(sectors: u64) -> ZeroImage
        requires { sectors < 2 ^ 55 }
        ensures { result ≡ unread (fresh sectors (Some (replicate (512 * sectors) 0)) false) }
    {
        ZeroImage {
            sectors,
            log: ReadLog::new(),
        }
    }
}

impl Image for ZeroImage {
    ghost disk = { λ image. image.disk };

    ghost log = { λ image. image.log };

    fn sectors(&self) -> u64 {
        self.sectors
    }

    fn read_at(&mut self, offset: u64, buffer: &mut [u8]) -> Result<usize, ImageFault>
        ensures reads { Reads self.old.disk offset buffer.new result self.new.disk }
        ensures logged { self.new.log ≡ logged self.old.log offset (length buffer.new) result }
        ensures whole { FillsAll self.old.disk.bytes offset buffer.new result }
    {
        let left = (SECTOR_BYTES as u64 * self.sectors).saturating_sub(offset) as usize;
        let count = left.min(buffer.len());
        buffer[..count].fill(0);
        let read = Ok(count);
        self.log = self.log.then(&LoggedRead {
            offset,
            asked: buffer.len(),
            outcome: read,
        });
        read
    }

    fn faults(&self) -> u64 {
        // the fields say that no read failed
        let _ = &self.sectors;
        0
    }
}
