// The bytes of one sector.
ghost use Rattle.std.specs.Prelude.{◌≡◌, length, replicate, IfOk, List, ℕ};

use crate::OutOfMemory;
use boxed::Boxed;
use bytes::Bytes;
use std::alloc::Global;
use std::marker::Model;

/// The size of a sector in bytes (block layer: a sector has 512 bytes, whatever the device).
pub const SECTOR_BYTES: usize = 512;

/// The 512 bytes of one sector, in a box: it is one word wide. They are shared with the payload that they were cut from.
#[derive(Debug, Drop)]
pub struct Block {
    bytes: Boxed<Bytes>,
}

impl Model for Block {
    ghost Value = { List ℕ };

    ghost view = { λ b. b.bytes };

    ghost invariant = { λ b. length b.bytes ≡ 512 };
}

impl Block {
    /// The block that has these bytes.
    ///
    /// # Errors
    ///
    /// There is no memory for the box.
    pub fn new(alloc: Global, bytes: Bytes) -> Result<Block, OutOfMemory>
        requires { length bytes ≡ 512 }
        ensures { IfOk result (λ block. block ≡ bytes) }
    {
        let bytes = Boxed::new(alloc, bytes)?;
        Ok(Block { bytes })
    }

    /// The block of zeros. All such blocks share their bytes.
    ///
    /// # Errors
    ///
    /// There is no memory for the box.
    pub fn zeros(alloc: Global) -> Result<Block, OutOfMemory>
        ensures { IfOk result (λ block. block ≡ replicate 512 0) }
    {
        Block::new(alloc, Bytes::from_static(&[0; SECTOR_BYTES]))
    }

    /// Its bytes, all 512.
    pub fn as_slice(&self) -> &[u8]
        ensures bytes { result.now ≡ self.now }
        ensures size { length result.now ≡ 512 }
    {
        self.bytes.as_slice()
    }
}
