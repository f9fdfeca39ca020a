// A read that goes on until its range is full.
ghost use Rattle.std.specs.Prelude.{◌+◌, ◌-◌, ◌<◌, ◌^◌, length};
ghost use Rattle.device_engine.specs.Fill.{Fills, IsReadBy, Made};

use base_image::{Image, ImageFault};

/// How a read of a whole range ended.
#[derive(Clone, Copy)]
pub enum Filled {
    /// The buffer is full.
    Whole,
    /// The image ended before.
    Short,
    /// A read failed.
    Failed(ImageFault),
}

/// Reads the image's bytes from `offset` on until the buffer is full.
pub fn fill<I: Image>(image: &mut I, offset: u64, buffer: &mut [u8]) -> Filled
    requires countable { (I.disk image.old).faults < 2 ^ 64 - 1 }
    requires within { offset + length buffer.old < 2 ^ 64 }
    ensures fills { Fills (I.disk image.old) offset buffer.new result (I.disk image.new) }
    ensures reads { Made (IsReadBy offset (length buffer.new) result) (I.log image.old) (I.log image.new) }
{
    let mut at: usize = 0;
    while at < buffer.len() {
        match image.read_at(offset + at as u64, &mut buffer[at..]) {
            Ok(0) => return Filled::Short,
            Ok(count) => at += count,
            Err(fault) => return Filled::Failed(fault),
        }
    }
    Filled::Whole
}
