// Bytes that are all alike.
ghost use Rattle.std.specs.Prelude.{◌≡◌, ◌*◌, IfOk, replicate};
ghost use Rattle.host_console.specs.Printed.{payload_of};

use bytes::Bytes;
use sector_core::OutOfMemory;
use std::alloc::Global;

/// So many sectors of this byte.
pub fn sectors_of(alloc: Global, count: u32, byte: u8) -> Result<Bytes, OutOfMemory>
    ensures { IfOk result (λ bytes. bytes ≡ replicate (512 * count) byte) }
{
    let size = 512 * count as usize;
    let filled = vec![in alloc; byte; size]?;
    let bytes = Bytes::from_vec(filled)?;
    Ok(bytes)
}

/// The payload of a `write` line: no more than 64 sectors are filled.
pub fn payload(alloc: Global, count: u16, byte: u8) -> Result<Bytes, OutOfMemory>
    ensures { IfOk result (λ bytes. bytes ≡ payload_of count byte) }
{
    if count > 64 {
        Ok(Bytes::new())
    } else {
        sectors_of(alloc, u32::from(count), byte)
    }
}
