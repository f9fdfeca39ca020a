// What an image offers to those who read it.
ghost use Rattle.std.specs.Prelude.{◌≡◌, ◌<◌, ◌-◌, ◌^◌, length};
ghost use Rattle.base_image.specs.Image.{Disk, Log, Reads, logged, CanBeCounted};

/// Why a read failed.
#[derive(Clone, Copy, Debug, PartialEq, Eq)]
pub enum ImageFault {
    /// The device is busy: the same read may succeed later.
    Busy,
    /// The device failed.
    Device,
}

/// An image that is read and never written, in sectors of 512 bytes.
pub trait Image {
    /// What is known of the image.
    ghost disk: { Self → Disk };

    /// The reads that were made of it.
    ghost log: { Self → Log };

    /// How many sectors it tells. It may have fewer bytes than that, and then reads end early.
    fn sectors(&self) -> u64
        ensures sectors { result ≡ (disk self.now).sectors }
        ensures few { (disk self.now).sectors < 2 ^ 55 }
        ensures counted { CanBeCounted (disk self.now).bytes };

    /// Reads bytes from `offset` (in bytes) on into the front of the buffer, and tells how many.
    /// Of a buffer that is not empty it fills nothing only at the image's end.
    ///
    /// # Errors
    ///
    /// The read failed, and that is counted.
    fn read_at(&mut self, offset: u64, buffer: &mut [u8]) -> Result<usize, ImageFault>
        requires countable { (disk self.old).faults < 2 ^ 64 - 1 }
        ensures reads { Reads (disk self.old) offset buffer.new result (disk self.new) }
        ensures logged { log self.new ≡ logged (log self.old) offset (length buffer.new) result };

    /// How many reads failed so far.
    fn faults(&self) -> u64
        ensures { result ≡ (disk self.now).faults };
}
