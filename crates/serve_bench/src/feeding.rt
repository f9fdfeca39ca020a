// A stream, fed in pieces.
use session_proto::{Feeder, Operator};
use std::alloc::{AllocError, Global};

// The frame of Freeze, the shortest that there is.
const FRAME: [u8; 5] = [0, 0, 0, 1, 0x14];

// As many such frames as 32 KiB hold.
const FRAMES: u64 = 6553;

/// How many values come in all, if the stream is fed so many times in pieces of this size.
pub fn values_of_rounds(alloc: Global, size: u64, rounds: u64) -> Result<u64, AllocError> {
    let stream = stream(alloc)?;
    let size = size.clamp(1, 1 << 20) as usize;
    let mut count = 0u64;
    for _ in 0..rounds {
        count = count.wrapping_add(values_of(alloc, stream.as_slice(), size)?);
    }
    Ok(count)
}

fn stream(alloc: Global) -> Result<Vec<u8>, AllocError> {
    let mut stream = Vec::new(alloc);
    for _ in 0..FRAMES {
        stream.extend_from_slice(&FRAME)?;
    }
    Ok(stream)
}

// How many values come, if the stream is fed once.
fn values_of(alloc: Global, stream: &[u8], size: usize) -> Result<u64, AllocError> {
    let mut feeder = Feeder::<Operator>::new(alloc);
    let mut rest = stream;
    let mut count = 0u64;
    // Each piece has a byte or more, so there are at most as many.
    for _ in 0..stream.len() {
        if rest.is_empty() {
            break;
        }
        let (piece, left) = rest.split_at(size.min(rest.len()));
        let fed = feeder.feed(alloc, piece)?;
        count = count.wrapping_add(fed.values.len() as u64);
        rest = left;
    }
    Ok(count)
}
