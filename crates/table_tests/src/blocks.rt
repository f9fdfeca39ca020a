// What no clause says: that a block can be added while memory is left. A block is told by its letter.
use bytes::Bytes;
use overlay::Overlay;
use sector_core::{Block, OutOfMemory};
use std::alloc::Global;
use std::test::Fail;

fn storing(alloc: Global, letter: u8) -> Result<Block, OutOfMemory> {
    if letter == b'A' {
        Block::new(alloc, Bytes::from_static(&[65; 512]))
    } else {
        Block::new(alloc, Bytes::from_static(&[66; 512]))
    }
}

// The letter that stands at each of the 512 places, or a question mark where they differ.
fn letter_of(block: &Block) -> u8 {
    for letter in [65, 66] {
        if block.as_slice() == [letter; 512].as_slice() {
            return letter;
        }
    }
    b'?'
}

fn stands(overlay: &Overlay, sector: u64) -> Option<u8> {
    match overlay.get(sector) {
        Some(block) => Some(letter_of(block)),
        None => None,
    }
}

// A block comes to a sector, or none: what comes back.
fn put(
    alloc: Global,
    overlay: &mut Overlay,
    sector: u64,
    letter: Option<u8>,
) -> Result<Option<u8>, Fail> {
    let block = match letter {
        Some(letter) => Some(storing(alloc, letter)?),
        None => None,
    };
    match overlay.exchange(sector, block) {
        Ok(Some(old)) => Ok(Some(letter_of(&old))),
        Ok(None) => Ok(None),
        Err(_) => Err(Fail::from("memory for a block")),
    }
}

// What stands and what comes back, in this order.
fn come_and_gone(alloc: Global) -> Result<[Option<u8>; 7], Fail> {
    let mut overlay = Overlay::new(alloc);
    Ok([
        stands(&overlay, 5),
        put(alloc, &mut overlay, 5, Some(b'A'))?,
        stands(&overlay, 5),
        stands(&overlay, 4),
        put(alloc, &mut overlay, 5, Some(b'B'))?,
        put(alloc, &mut overlay, 5, None)?,
        stands(&overlay, 5),
    ])
}

// The first block comes back, and then the second.
#[test]
fn blocks_come_and_go(rt: HostRuntime) -> Result<(), Fail> {
    let (a, b) = (Some(b'A'), Some(b'B'));
    let wanted = [None, None, a, None, a, b, None];
    assert_eq!(rt; come_and_gone(rt.alloc())?, wanted);
    Ok(())
}

// What comes to a sector, what comes back, and the start and the length of the next run from sector 8 on.
#[derive(Clone, Copy, Debug, PartialEq, Eq)]
struct Told(u64, Option<u8>, Option<u8>, Option<(u64, u32)>);

// Does that again, and tells what came of it.
fn again(alloc: Global, overlay: &mut Overlay, told: Told) -> Result<Told, Fail> {
    let Told(sector, letter, ..) = told;
    let old = put(alloc, overlay, sector, letter)?;
    let run = match overlay.next_run(8, 64) {
        Some(run) => Some((run.start, run.count)),
        None => None,
    };
    Ok(Told(sector, letter, old, run))
}

// Pages of eight sectors: over the border of two, at both ends of one, and up to the last sector that there can be.
#[test]
fn pages_come_and_go(rt: HostRuntime) -> Result<(), Fail> {
    let (a, b) = (Some(b'A'), Some(b'B'));
    let mut overlay = Overlay::new(rt.alloc());
    for told in [
        Told(7, a, None, None),
        Told(8, a, None, Some((8, 1))),
        Told(15, b, None, Some((8, 1))),
        Told(16, b, None, Some((8, 1))),
        Told(8, None, a, Some((15, 2))),
        Told(15, a, b, Some((15, 2))),
        // The last block of its page goes, and then there is nothing to go.
        Told(15, None, a, Some((16, 1))),
        Told(15, None, None, Some((16, 1))),
        Told(16, None, b, None),
        Told(u64::MAX, b, None, Some((u64::MAX, 1))),
        Told(15, b, None, Some((15, 1))),
        Told(7, None, a, Some((15, 1))),
    ] {
        assert_eq!(rt; again(rt.alloc(), &mut overlay, told)?, told);
    }
    Ok(())
}
