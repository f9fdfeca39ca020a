// What a fetch and a store of images that give little, end early or fail are answered.
use crate::scripted::Scripted;
use base_image::{FailingImage, Image, ImageFault, MemoryImage};
use bytes::Bytes;
use device_engine::work_once;
use plain::{DeviceCall, Work};
use sector_core::{FailKind, Op, Outcome, Range};
use std::alloc::Global;
use std::process::Abort;
use std::test::Fail;

const BYTES: [u8; 512] = [0x37; 512];

// What work under tag 3 and issue 7 is answered.
#[derive(Clone, Copy, Debug, PartialEq, Eq)]
enum Answered {
    // So many bytes, each the image's.
    Fetched(usize),
    // Other bytes than the image's.
    OtherBytes(usize),
    Stored,
    Failed(FailKind),
    GivenBack,
    // Other work is answered, or none can be done.
    OtherWork,
    NoMemory,
    TooManyFaults,
}

// What is asked of an image, together with what is answered.
#[derive(Clone, Copy, Debug, PartialEq, Eq)]
enum Told {
    // Sectors from the first on, so many.
    Work(Op, u64, u32, Answered),
    // How many reads failed, and how many a scripted image was asked for.
    Faults(u64),
    Reads(u64),
    NotCounted,
}

// Work under tag 3 and issue 7.
fn work(op: Op, start: u64, count: u32) -> Work {
    let range = Range { start, count };
    Work {
        tag: 3,
        issue: 7,
        op,
        range,
    }
}

fn fetch(start: u64, count: u32, answered: Answered) -> Told {
    Told::Work(Op::Fetch, start, count, answered)
}

// The answer, where `rest` are the image's bytes from the first sector of the work on.
fn answer_of(call: &DeviceCall, rest: &[u8]) -> Answered {
    match call {
        DeviceCall::Finish {
            tag: 3,
            issue: 7,
            outcome: Outcome::Fetched(bytes),
        } => {
            if rest.starts_with(bytes.as_slice()) {
                Answered::Fetched(bytes.as_slice().len())
            } else {
                Answered::OtherBytes(bytes.as_slice().len())
            }
        }
        DeviceCall::Finish {
            tag: 3,
            issue: 7,
            outcome: Outcome::Stored,
        } => Answered::Stored,
        DeviceCall::Finish {
            tag: 3,
            issue: 7,
            outcome: Outcome::Failed(kind),
        } => Answered::Failed(*kind),
        DeviceCall::Requeue { tag: 3, issue: 7 } => Answered::GivenBack,
        _ => Answered::OtherWork,
    }
}

// Asks that again of an image of these bytes, and tells what is answered.
fn again<I: Image>(image: &mut I, bytes: &[u8], alloc: Global, told: Told) -> Told {
    match told {
        Told::Work(op, start, count, _) if image.faults() < 1 << 63 => {
            let rest = bytes
                .get(start.saturating_mul(512) as usize..)
                .unwrap_or(&[]);
            match work_once(alloc, image, &work(op, start, count)) {
                Ok(call) => Told::Work(op, start, count, answer_of(&call, rest)),
                Err(_) => Told::Work(op, start, count, Answered::NoMemory),
            }
        }
        Told::Work(op, start, count, _) => Told::Work(op, start, count, Answered::TooManyFaults),
        Told::Faults(_) => Told::Faults(image.faults()),
        Told::Reads(_) | Told::NotCounted => Told::NotCounted,
    }
}

// All of that is answered again, in this order.
fn expect<I: Image>(rt: &(impl Abort + AllocGlobal), image: &mut I, bytes: &[u8], all: &[Told]) {
    for told in all {
        assert_eq!(rt; again(image, bytes, rt.alloc(), *told), *told);
    }
}

const ONE: Answered = Answered::Fetched(512);

const SHORT: Answered = Answered::Failed(FailKind::Short);

const FAULT: Answered = Answered::Failed(FailKind::Fault);

// How a scripted image is read: in pieces of so many bytes, where the read of one number fails, if that is not 0.
#[derive(Clone, Copy, Debug)]
struct Reading {
    piece: usize,
    fails_at: u64,
    fault: ImageFault,
}

// Each read gives what there is.
const WHOLE: Reading = Reading {
    piece: usize::MAX,
    fails_at: 0,
    fault: ImageFault::Device,
};

// All of that is answered again by an image of these bytes that is read so.
fn expect_read(rt: &(impl Abort + AllocGlobal), bytes: &[u8], reading: Reading, all: &[Told]) {
    let mut image = Scripted::new(bytes);
    image.piece = reading.piece;
    image.fails_at = reading.fails_at;
    image.fault = reading.fault;
    for told in all {
        let seen = match *told {
            Told::Reads(_) => Told::Reads(image.reads),
            told => again(&mut image, bytes, rt.alloc(), told),
        };
        assert_eq!(rt; seen, *told, "{reading:?}");
    }
}

#[test]
fn fetches_of_one_sector(rt: HostRuntime) {
    for all in [
        // What is there; past the end, over the end, and past every byte, where no read is made.
        [fetch(0, 1, ONE)].as_slice(),
        [fetch(1, 1, SHORT)].as_slice(),
        [fetch(0, 2, SHORT)].as_slice(),
        [fetch((1 << 55) - 1, 1, SHORT), Told::Reads(0)].as_slice(),
        // A store reads nothing, and a discard neither.
        [
            Told::Work(Op::Store, 0, 1, Answered::Stored),
            Told::Reads(0),
        ]
        .as_slice(),
        [
            Told::Work(Op::Discard, 0, 1, Answered::Stored),
            Told::Reads(0),
        ]
        .as_slice(),
    ] {
        expect_read(&rt, &BYTES, WHOLE, all);
    }
}

#[test]
fn fetch_in_pieces(rt: HostRuntime) {
    let mut bytes = [0; 1536];
    for (i, byte) in bytes.iter_mut().enumerate() {
        *byte = (i % 251) as u8;
    }
    let pieces = Reading {
        piece: 100,
        fails_at: 0,
        fault: ImageFault::Device,
    };
    let all = [fetch(1, 2, Answered::Fetched(1024)), Told::Reads(11)];
    expect_read(&rt, &bytes, pieces, &all);
}

// A read that is busy gives the work back, at the first read or in mid-stream, and then it is done. One that fails is told.
#[test]
fn reads_that_fail(rt: HostRuntime) {
    for (piece, fails_at, fault, all) in [
        (
            usize::MAX,
            1,
            ImageFault::Busy,
            [fetch(0, 1, Answered::GivenBack), fetch(0, 1, ONE)].as_slice(),
        ),
        (
            100,
            3,
            ImageFault::Device,
            [fetch(0, 1, FAULT), Told::Reads(3)].as_slice(),
        ),
        (
            100,
            3,
            ImageFault::Busy,
            [
                fetch(0, 1, Answered::GivenBack),
                Told::Reads(3),
                fetch(0, 1, ONE),
            ]
            .as_slice(),
        ),
    ] {
        let reading = Reading {
            piece,
            fails_at,
            fault,
        };
        expect_read(&rt, &BYTES, reading, all);
    }
}

// One sector, told as two.
fn one_of_two() -> MemoryImage {
    MemoryImage::new(Bytes::from_static(&BYTES), 2)
}

// It ends before the sectors that it tells.
#[test]
fn memory_image_is_fetched(rt: HostRuntime) {
    for told in [fetch(0, 1, ONE), fetch(1, 1, SHORT), fetch(0, 2, SHORT)] {
        expect(&rt, &mut one_of_two(), &BYTES, &[told]);
    }
}

// It is busy once, or fails after a store, which reads nothing.
#[test]
fn failing_image(rt: HostRuntime) {
    for (fault, all) in [
        (
            ImageFault::Busy,
            [fetch(0, 1, Answered::GivenBack), fetch(0, 1, ONE)].as_slice(),
        ),
        (
            ImageFault::Device,
            [
                Told::Work(Op::Store, 0, 1, Answered::Stored),
                Told::Work(Op::Discard, 0, 1, Answered::Stored),
                Told::Faults(0),
                fetch(0, 1, FAULT),
            ]
            .as_slice(),
        ),
    ] {
        let mut image = FailingImage::new(one_of_two(), 1, fault);
        expect(&rt, &mut image, &BYTES, all);
    }
}
