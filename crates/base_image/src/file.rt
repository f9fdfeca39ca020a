// An image in a file.
ghost use Rattle.std.specs.Prelude.{◌≡◌, ◌<◌, ◌-◌, ◌^◌, IfOk, None, true, length};
ghost use Rattle.base_image.specs.Image.{Reads, logged, CanBeCounted, failed};
ghost use Rattle.base_image.specs.Kinds.{fresh, unread, fault_of};

use crate::image::{Image, ImageFault};
use crate::log::ReadLog;
use crate::read::LoggedRead;
use sector_core::SECTOR_BYTES;
use std::fs::File;
use std::io;
use std::io::{ErrorKind, Seek, SeekFrom};
use std::marker::Model;
use std::os::unix::fs::FileExt;

/// An image in a file or on a block device. Of its bytes no contract can speak.
#[derive(Drop)]
pub struct FileImage {
    file: File,
    sectors: u64,
    faults: u64,
    last: Option<ImageFault>,
    log: ReadLog,
}

impl Model for FileImage {
    ghost use Rattle.std.specs.Prelude.{None, true, ◌<◌, ◌^◌};
    ghost use Rattle.base_image.specs.Image.{Disk};
    ghost use Rattle.base_image.specs.Kinds.{Read};

    ghost Value = { Read };

    ghost view = { λ i. record {
      disk = record { sectors = i.sectors; bytes = None; may_fail = true; faults = i.faults; last = i.last };
      log = i.log.reads;
    } };

    ghost invariant = { λ i. i.sectors < 2 ^ 55 };
}

impl FileImage {
    /// The image in an open file: so many whole sectors of 512 bytes as the file is long now.
    ///
    /// # Errors
    ///
    /// The file is a folder, cannot be read, or its length cannot be told.
    pub fn from_file(file: File) -> io::Result<FileImage>
        ensures { IfOk result (λ image. image ≡ unread (fresh image.disk.sectors None true)) }
    {
        // a folder opens as a file does, and only a read of it fails
        file.read_at(&mut [0; 1], 0)?;
        let sectors = length_in_bytes(&file)? / SECTOR_BYTES as u64;
        Ok(FileImage {
            file,
            sectors,
            faults: 0,
            last: None,
            log: ReadLog::new(),
        })
    }

    // Counts a read that failed with this kind of error, and tells why it failed.
    fn note(&mut self, kind: ErrorKind) -> ImageFault
        requires countable { self.old.disk.faults < 2 ^ 64 - 1 }
        ensures fault { result ≡ fault_of kind }
        ensures counted { self.new ≡ record { disk = failed self.old.disk (fault_of kind); log = self.old.log } }
    {
        let fault = fault_of(kind);
        self.faults += 1;
        self.last = Some(fault);
        fault
    }
}

// A block device tells its length by its end alone.
fn length_in_bytes(mut file: &File) -> io::Result<u64> {
    let length = file.metadata()?.len();
    if length > 0 {
        return Ok(length);
    }
    file.seek(SeekFrom::End(0))
}

// Why a read failed that answered with this kind of error.
fn fault_of(kind: ErrorKind) -> ImageFault
    ensures { result ≡ fault_of kind }
{
    match kind {
        ErrorKind::Interrupted | ErrorKind::WouldBlock => ImageFault::Busy,
        _ => ImageFault::Device,
    }
}

impl Image for FileImage {
    ghost disk = { λ image. image.disk };

    ghost log = { λ image. image.log };

    fn sectors(&self) -> u64 {
        self.sectors
    }

    fn read_at(&mut self, offset: u64, buffer: &mut [u8]) -> Result<usize, ImageFault>
        requires countable { self.old.disk.faults < 2 ^ 64 - 1 }
        ensures reads { Reads self.old.disk offset buffer.new result self.new.disk }
        ensures logged { self.new.log ≡ logged self.old.log offset (length buffer.new) result }
    {
        let read = match self.file.read_at(buffer, offset) {
            Ok(count) => Ok(count),
            Err(error) => Err(self.note(error.kind())),
        };
        self.log = self.log.then(&LoggedRead {
            offset,
            asked: buffer.len(),
            outcome: read,
        });
        read
    }

    fn faults(&self) -> u64 {
        self.faults
    }
}
