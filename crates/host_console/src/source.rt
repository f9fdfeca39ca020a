// The bytes that a line takes from the payload.
ghost use Rattle.std.specs.Prelude.{◌≡◌, IfOk, Some};
ghost use Rattle.host_console.specs.Payload.{brought, bytes_from, reaches, runs_over, size_of};

use bytes::Bytes;
use script_line::Line;
use sector_core::OutOfMemory;

const SECTOR_BYTES: usize = 512;

// A bio has no more sectors.
const MOST_SECTORS: u16 = 64;

/// Whether the line runs over the payload.
pub fn runs_over(payload: &Option<Bytes>, line: &Line) -> bool
    ensures { result ≡ runs_over (size_of payload.now) line.now }
{
    match (line, payload) {
        (Line::WriteFrom { count, from, .. }, Some(payload)) => {
            reaches(payload.len(), *from, *count)
        }
        (Line::WriteFrom { .. }, None) => false,
        // Each other line runs over any payload.
        _ => true,
    }
}

/// The bytes of the payload for a write of so many sectors, from this sector on, which share its memory. There are none if it has not
/// all of them.
pub fn bytes_from(
    payload: &Option<Bytes>,
    from: u64,
    count: u16,
) -> Result<Option<Bytes>, OutOfMemory>
    ensures { IfOk result (λ bytes. bytes ≡ bytes_from payload.now from count) }
{
    match payload {
        Some(payload) if reaches(payload.len(), from, count) => {
            let start = SECTOR_BYTES * from as usize;
            let end = start + SECTOR_BYTES * brought(count) as usize;
            let bytes = payload.slice(start..end)?;
            Ok(Some(bytes))
        }
        _ => Ok(None),
    }
}

// Whether a payload of so many bytes has all that a write of so many sectors asks for, from this sector on.
fn reaches(size: usize, from: u64, count: u16) -> bool
    ensures { result ≡ reaches (Some size) from count }
{
    let sectors = (size / SECTOR_BYTES) as u64;
    let brought = u64::from(brought(count));
    brought <= sectors && from <= sectors - brought
}

// For how many sectors a write brings bytes: for none if there are too many for a bio.
fn brought(count: u16) -> u16
    ensures { result ≡ brought count }
{
    if count > MOST_SECTORS { 0 } else { count }
}
