// Work of a device.
use crate::verdict::{Broken, Met, Mode, Verdict, breaks, ended};
use base_image::{Image, MemoryImage};
use bytes::Bytes;
use device_engine::work_once;
use plain::{DeviceCall, Work};
use sector_core::{Op, Outcome, Range};
use std::alloc::{AllocError, Global};

const BYTE: u8 = 0x5a;

fn work_of(op: Op) -> Work {
    Work {
        tag: 0,
        issue: 3,
        op,
        range: Range { start: 0, count: 2 },
    }
}

fn image_of(alloc: Global) -> Result<MemoryImage, AllocError> {
    let bytes = Bytes::from_vec(vec![in alloc; BYTE; 1024]?)?;
    Ok(MemoryImage::new(bytes, 2))
}

/// A store, which takes no memory, and a fetch, which is made again if it finds none.
pub fn work_row(alloc: Global, mode: Mode) -> Verdict {
    match image_of(alloc) {
        Ok(mut image) => ended(work_twice(alloc, mode, &mut image)),
        Err(_) => Verdict::Unprepared,
    }
}

fn work_twice(alloc: Global, mode: Mode, image: &mut MemoryImage) -> Result<Met, Broken> {
    let mut met = Met::new();
    match worked(alloc, image, Op::Store) {
        Some(true) => {}
        _ => return breaks("a store is done, whatever memory does", ""),
    }
    let mut made = worked(alloc, image, Op::Fetch);
    if made.is_none() {
        met.note(mode)?;
        if image.faults() != 0 {
            return breaks("work without memory fails no read", "");
        }
        made = worked(alloc, image, Op::Fetch);
    }
    match made {
        Some(true) => Ok(met),
        None if mode == Mode::Always => Ok(met),
        _ => breaks("the same work, done again, gives what the image has", ""),
    }
}

// Whether the work gives what it must, or none if there is no memory for it. The image is one that was made here, so no read of it has
// failed.
fn worked(alloc: Global, image: &mut MemoryImage, op: Op) -> Option<bool> {
    if image.faults() == u64::MAX {
        return Some(false);
    }
    match work_once(alloc, image, &work_of(op)) {
        Ok(call) => Some(is_done(&call, op)),
        Err(_) => None,
    }
}

fn is_done(call: &DeviceCall, op: Op) -> bool {
    match (call, op) {
        (
            DeviceCall::Finish {
                tag,
                issue,
                outcome,
            },
            Op::Store,
        ) => *tag == 0 && *issue == 3 && matches!(outcome, Outcome::Stored),
        (
            DeviceCall::Finish {
                tag,
                issue,
                outcome: Outcome::Fetched(bytes),
            },
            Op::Fetch,
        ) => *tag == 0 && *issue == 3 && is_all(bytes.as_slice()),
        _ => false,
    }
}

fn is_all(bytes: &[u8]) -> bool {
    for byte in bytes {
        if *byte != BYTE {
            return false;
        }
    }
    bytes.len() == 1024
}
