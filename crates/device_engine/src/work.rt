// The work of one request.
ghost use Rattle.std.specs.Prelude.{◌≡◌, ◌+◌, ◌-◌, ◌*◌, ◌<◌, ◌≤◌, ◌^◌, ◌↔◌, IsTrue, IfOk, OnErr};
ghost use Rattle.sector_core.specs.declared.bio.Op.TheVariants as op;
ghost use Rattle.plain.specs.declared.call.DeviceCall.TheVariants.{Finish, Requeue};
ghost use Rattle.device_engine.specs.Work.{Works, ReadsFor, ReadsInVain};

use super::fill::{Filled, fill};
use base_image::{Image, ImageFault};
use bytes::Bytes;
use plain::{DeviceCall, Work};
use sector_core::{FailKind, Op, OutOfMemory, Outcome, Range};
use std::alloc::Global;

// So many sectors have 2^64 bytes, one more than a u64 counts.
const TOO_MANY_SECTORS: u64 = 1 << 55;

/// Does the work of a request in flight, and gives the device's call: it ends the request or gives it back.
///
/// # Errors
///
/// There is no memory for the bytes of a fetch, whose range ends where they can be counted. No read failed then: none was made, or all bytes were read.
pub fn work_once<I: Image>(
    alloc: Global,
    image: &mut I,
    work: &Work,
) -> Result<DeviceCall, OutOfMemory>
    requires countable { (I.disk image.old).faults < 2 ^ 64 - 1 }
    ensures ok { IfOk result (λ call. Works (I.disk image.old) work.now call (I.disk image.new)) }
    ensures err { OnErr result (I.disk image.new ≡ I.disk image.old) }
    ensures reads { IfOk result (λ call. ReadsFor work.now call (I.log image.old) (I.log image.new)) }
    ensures in_vain { OnErr result (ReadsInVain work.now (I.log image.old) (I.log image.new)) }
    ensures wants { OnErr result ((work.now.op ≡ op.Fetch) × (512 * (work.now.range.start + work.now.range.count) < 2 ^ 64)) }
    ensures store { work.now.op ≡ op.Store → image.new ≡ image.old }
    ensures discard { work.now.op ≡ op.Discard → image.new ≡ image.old }
{
    match work.op {
        Op::Store => Ok(finish(work, Outcome::Stored)),
        Op::Discard => Ok(finish(work, Outcome::Stored)),
        Op::Fetch => fetch(alloc, image, work),
    }
}

// Reads the sectors of a fetch.
fn fetch<I: Image>(alloc: Global, image: &mut I, work: &Work) -> Result<DeviceCall, OutOfMemory>
    requires countable { (I.disk image.old).faults < 2 ^ 64 - 1 }
    requires fetch { work.now.op ≡ op.Fetch }
    ensures ok { IfOk result (λ call. Works (I.disk image.old) work.now call (I.disk image.new)) }
    ensures err { OnErr result (I.disk image.new ≡ I.disk image.old) }
    ensures reads { IfOk result (λ call. ReadsFor work.now call (I.log image.old) (I.log image.new)) }
    ensures in_vain { OnErr result (ReadsInVain work.now (I.log image.old) (I.log image.new)) }
    ensures wants { OnErr result (512 * (work.now.range.start + work.now.range.count) < 2 ^ 64) }
{
    if is_past_all(&work.range) {
        // An image says with its sectors that its bytes can be counted, so it ends before this range.
        let _sectors = image.sectors();
        return Ok(finish(work, Outcome::Failed(FailKind::Short)));
    }
    let mut buffer = vec![in alloc; 0u8; 512 * work.range.count as usize]?;
    match fill(image, 512 * work.range.start, buffer.as_mut_slice()) {
        Filled::Whole => {
            let bytes = Bytes::from_vec(buffer)?;
            Ok(finish(work, Outcome::Fetched(bytes)))
        }
        Filled::Short => Ok(finish(work, Outcome::Failed(FailKind::Short))),
        Filled::Failed(ImageFault::Device) => Ok(finish(work, Outcome::Failed(FailKind::Fault))),
        Filled::Failed(ImageFault::Busy) => Ok(give_back(work)),
    }
}

// Whether the range has its end, in bytes, where no u64 counts them.
fn is_past_all(range: &Range) -> bool
    ensures { IsTrue result ↔ 2 ^ 64 ≤ 512 * (range.now.start + range.now.count) }
{
    range.start >= TOO_MANY_SECTORS - u64::from(range.count)
}

// The call that ends the work so.
fn finish(work: &Work, outcome: Outcome) -> DeviceCall
    ensures { result ≡ Finish work.now.tag work.now.issue outcome }
{
    DeviceCall::Finish {
        tag: work.tag,
        issue: work.issue,
        outcome,
    }
}

// The call that gives the request back.
fn give_back(work: &Work) -> DeviceCall
    ensures { result ≡ Requeue work.now.tag work.now.issue }
{
    let Work { tag, issue, .. } = *work;
    DeviceCall::Requeue { tag, issue }
}
