// An image of bytes in memory.
ghost use Rattle.std.specs.Prelude.{◌≡◌, ◌<◌, ◌^◌, Some, false, length};
ghost use Rattle.base_image.specs.Image.{Reads, logged, CanBeCounted};
ghost use Rattle.base_image.specs.Kinds.{fresh, unread, FillsAll};

use crate::image::{Image, ImageFault};
use crate::log::ReadLog;
use crate::read::LoggedRead;
use bytes::Bytes;
use std::marker::Model;

/// An image of bytes in memory. It tells as many sectors as it was told, and no read of it fails.
#[derive(Drop)]
pub struct MemoryImage {
    bytes: Bytes,
    sectors: u64,
    log: ReadLog,
}

impl Model for MemoryImage {
    ghost use Rattle.std.specs.Prelude.{Some, false, length, ◌<◌, ◌^◌};
    ghost use Rattle.base_image.specs.Kinds.{Read, fresh};

    ghost Value = { Read };

    ghost view = { λ i. record { disk = fresh i.sectors (Some i.bytes) false; log = i.log.reads } };

    ghost invariant = { λ i. (i.sectors < 2 ^ 55) × (length i.bytes < 2 ^ 63) };
}

impl MemoryImage {
    /// The image of these bytes, which tells `sectors` sectors of 512 bytes. It may tell more than it
    /// has bytes for: a read past its bytes gives none.
    pub fn new(bytes: Bytes, sectors: u64) -> MemoryImage
        requires { sectors < 2 ^ 55 }
        ensures { result ≡ unread (fresh sectors (Some bytes) false) }
    {
        // no buffer is longer than its length can be told
        let _bytes_told = bytes.len();
        MemoryImage {
            bytes,
            sectors,
            log: ReadLog::new(),
        }
    }
}

impl Image for MemoryImage {
    ghost disk = { λ image. image.disk };

    ghost log = { λ image. image.log };

    fn sectors(&self) -> u64 {
        self.sectors
    }

    fn read_at(&mut self, offset: u64, buffer: &mut [u8]) -> Result<usize, ImageFault>
        ensures reads { Reads self.old.disk offset buffer.new result self.new.disk }
        ensures logged { self.new.log ≡ logged self.old.log offset (length buffer.new) result }
        ensures whole { FillsAll self.old.disk.bytes offset buffer.new result }
    {
        let start = offset.min(self.bytes.len() as u64) as usize;
        let left = &self.bytes.as_slice()[start..];
        let count = left.len().min(buffer.len());
        buffer[..count].copy_from_slice(&left[..count]);
        let read = Ok(count);
        self.log = self.log.then(&LoggedRead {
            offset,
            asked: buffer.len(),
            outcome: read,
        });
        read
    }

    fn faults(&self) -> u64 {
        // the fields say that no read failed
        let _ = &self.sectors;
        0
    }
}
