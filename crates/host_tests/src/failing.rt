// A client over an image of which one read fails, whichever of them it is.
ghost use Rattle.std.specs.Thread.{IsSync};
ghost use Rattle.host_core.specs.Opening.{IsIdle};

use crate::peer::{Frame, bytes_of};
use crate::workers::{last_client, last_device, opened, run, work};
use base_image::{FailingImage, ImageFault, MemoryImage};
use bytes::Bytes;
use host_calls::OperatorCall;
use host_paths::{SeatAsker, WorkerEnd};
use host_rings::{Caller, OperatorSeat};
use session_proto::serve;
use std::alloc::{AllocError, Global};
use std::sync::Wait;
use std::test::Fail;
use std::thread::{self, Threads};
use std::time::Clock;

// The image has these bytes in ten of its 64 sectors.
const BYTES: [u8; 5120] = [7; 5120];

// A client comes, writes sector 5 and reaps, and reads it and reaps.
const ASKED: [Frame; 4] = [
    Frame(
        "00000003 01 00 04  00000213 03 0000000000000001 0000000000000005 0001",
        Some(0x41),
    ),
    Frame("00000009 04 0000000000000001", None),
    Frame("00000013 02 0000000000000001 0000000000000005 0001", None),
    Frame("00000009 04 0000000000000001", None),
];

// It reads sector 9, and reaps.
const ASKED_MORE: Frame = Frame(
    "00000013 02 0000000000000001 0000000000000009 0001  00000009 04 0000000000000001",
    None,
);

// It is attached, and its write is done.
const ANSWERED: Frame = Frame(
    "00000009 81 0000000000000001  00000009 82 0000000000000002  00000009 84 0000000000000002",
    None,
);

// How many reads of the image that makes, with three reads of sector 9.
const READS: u64 = 4;

// What the client sends.
fn asked(alloc: Global) -> Result<Vec<u8>, AllocError> {
    let mut bytes = Vec::new(alloc);
    for frame in &ASKED {
        bytes.extend_from_slice(bytes_of(alloc, *frame)?.as_slice())?;
    }
    for _ in 0..3u8 {
        bytes.extend_from_slice(bytes_of(alloc, ASKED_MORE)?.as_slice())?;
    }
    Ok(bytes)
}

// What it must hear, if the image's read of a number, from 1, fails so. A busy image is read again, which takes two steps more.
fn wanted(alloc: Global, fails: u64, fault: ImageFault) -> Result<Vec<u8>, AllocError> {
    let mut bytes = bytes_of(alloc, ANSWERED)?;
    let mut bio = 6u64;
    for read in 1..=READS {
        let is_failed = read == fails && matches!(fault, ImageFault::Device);
        put_read(&mut bytes, bio, is_failed, if read == 1 { 0x41 } else { 7 })?;
        let is_again = read == fails && matches!(fault, ImageFault::Busy);
        bio = bio.wrapping_add(if is_again { 6 } else { 4 });
    }
    Ok(bytes)
}

// Appends the answers to a read of a sector of one byte, and to its Reap.
fn put_read(bytes: &mut Vec<u8>, bio: u64, is_failed: bool, byte: u8) -> Result<(), AllocError> {
    bytes.extend_from_slice(&[0, 0, 0, 9, 0x82])?;
    bytes.extend_from_slice(&bio.to_be_bytes())?;
    if is_failed {
        bytes.extend_from_slice(&[0, 0, 0, 10, 0x85])?;
        bytes.extend_from_slice(&bio.to_be_bytes())?;
        bytes.push(2)?;
        return Ok(());
    }
    bytes.extend_from_slice(&[0, 0, 2, 9, 0x83])?;
    bytes.extend_from_slice(&bio.to_be_bytes())?;
    bytes.extend_from_slice(&[byte; 512])?;
    Ok(())
}

// What the client hears, and then the operator asks for the end.
fn heard<R: Wait>(rt: &R, alloc: Global, client: Caller, mut operator: OperatorSeat) -> Vec<u8>
    requires { IsIdle client × IsIdle operator }
{
    let mut written = Vec::new(alloc);
    if let Ok(frames) = asked(alloc) {
        let mut asker = SeatAsker::new(rt, client);
        serve(alloc, &mut frames.as_slice(), &mut written, &mut asker, 100);
    }
    let _ended = operator.ask(rt, OperatorCall::Stop);
    written
}

// A host with one worker over an image of which the read of a number fails so: what its client hears, and why the worker ends.
fn served<R: Threads + Sync + Wait + Clock>(
    rt: &R,
    alloc: Global,
    fails: u64,
    fault: ImageFault,
) -> Result<(Vec<u8>, WorkerEnd), Fail> {
    let (core, mut clients, mut devices, operator) = opened(alloc)?;
    let client = last_client(&mut clients)?;
    let device = last_device(&mut devices)?;
    let image = FailingImage::new(
        MemoryImage::new(Bytes::from_static(&BYTES), 64),
        fails,
        fault,
    );
    let (_core, found) = thread::join(
        rt,
        move || { run(rt, alloc, core) },
        move || -> (WorkerEnd, Vec<u8>)
            requires { IsSync R.row × IsIdle client × IsIdle device × IsIdle operator }
        {
            thread::join(
                rt,
                move || -> WorkerEnd
                    requires { IsIdle device }
                { work(rt, alloc, device, image) },
                move || -> Vec<u8>
                    requires { IsIdle client × IsIdle operator }
                { heard(rt, alloc, client, operator) },
            )
        },
    );
    Ok((found.1, found.0))
}

// Whichever read fails, it alone is told as failed, and the host goes on; a busy image is read again. With one past the last all are right.
#[test]
fn each_read_fails_in_turn(rt: HostRuntime) -> Result<(), Fail> {
    for fault in [ImageFault::Busy, ImageFault::Device] {
        for fails in 1..=READS.wrapping_add(1) {
            let (heard, worker) = served(&rt, rt.alloc(), fails, fault)?;
            let wanted = wanted(rt.alloc(), fails, fault)?;
            assert!(rt; heard.as_slice() == wanted.as_slice(), "{fails}");
            assert_eq!(rt; worker, WorkerEnd::Closed);
        }
    }
    Ok(())
}
