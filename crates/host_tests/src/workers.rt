// A core, a worker and a client, each in a thread of its own.
ghost use Rattle.std.specs.Prelude.{IfOk};
ghost use Rattle.std.specs.Thread.{IsSync};
ghost use Rattle.host_core.specs.Opening.{IsIdle, AreIdle};

use crate::opening::usual;
use base_image::{FailingImage, ImageFault, MemoryImage};
use bytes::Bytes;
use host_calls::{ClientCall, OperatorCall};
use host_paths::{WorkerEnd, run_worker};
use host_rings::{Caller, Core, DeviceSeat, OperatorSeat, host};
use plain::{Answer, Reply};
use sector_core::{BioResult, Class, FailKind, Op, Range};
use std::alloc::Global;
use std::sync::Wait;
use std::test::Fail;
use std::thread::{self, Threads};
use std::time::Clock;

// The image has these bytes in six of its 64 sectors.
const BYTES: [u8; 3072] = [7; 3072];

// What a client hears of its read.
#[derive(Clone, Copy, Debug, PartialEq, Eq)]
enum Heard {
    // So many bytes, of which so many are as in the image.
    Bytes(usize, usize),
    Failed(FailKind),
    Other,
}

// How a host ended: what its client heard, and why its worker ended.
#[derive(Clone, Copy, Debug, PartialEq, Eq)]
struct Ended {
    heard: Heard,
    worker: WorkerEnd,
}

// The seats of a host at work.
#[derive(Drop)]
struct Seats {
    client: Caller,
    device: DeviceSeat,
    operator: OperatorSeat,
}

// A host of 64 sectors with one worker, and its seats. Of what it promises stands here what its tests need.
pub fn opened(alloc: Global) -> Result<(Core, Vec<Caller>, Vec<DeviceSeat>, OperatorSeat), Fail>
    ensures idle { IfOk result (λ r. AreIdle r.1.items × AreIdle r.2.items × IsIdle r.3) }
{
    match host(alloc, usual()?, 64, 1) {
        Ok(made) => Ok(made),
        Err(_) => Err(Fail::from("a host")),
    }
}

// The last of these, to which nothing has come.
pub fn last_client(clients: &mut Vec<Caller>) -> Result<Caller, Fail>
    requires { AreIdle clients.old.items }
    ensures { IfOk result (λ s. IsIdle s) }
{
    match clients.pop() {
        Some(seat) => Ok(seat),
        None => Err(Fail::from("a client's seat")),
    }
}

pub fn last_device(devices: &mut Vec<DeviceSeat>) -> Result<DeviceSeat, Fail>
    requires { AreIdle devices.old.items }
    ensures { IfOk result (λ s. IsIdle s) }
{
    match devices.pop() {
        Some(seat) => Ok(seat),
        None => Err(Fail::from("a device's seat")),
    }
}

// A read of this sector and the next.
fn read(sector: u64) -> ClientCall {
    ClientCall::Submit {
        session: 1,
        op: Op::Fetch,
        range: Range {
            start: sector,
            count: 2,
        },
        payload: Bytes::new(),
    }
}

fn told(answer: &Answer) -> Heard {
    match answer {
        Answer::Accepted(
            Reply::Completed {
                result: BioResult::Read(bytes),
                ..
            },
        ) => Heard::Bytes(bytes.len(), sevens(bytes.as_slice())),
        Answer::Accepted(
            Reply::Completed {
                result: BioResult::IoError(kind),
                ..
            },
        ) => Heard::Failed(*kind),
        _ => Heard::Other,
    }
}

// How many of these are as in the image.
fn sevens(bytes: &[u8]) -> usize {
    let mut count = 0usize;
    for byte in bytes {
        if *byte == 7 {
            count = count.wrapping_add(1);
        }
    }
    count
}

// A client that sits down, reads two sectors and waits for them.
fn read_two<R: Wait>(rt: &R, mut seat: Caller, sector: u64) -> Heard
    requires { IsIdle seat }
{
    let Ok(_attached) = seat.ask(
        rt,
        ClientCall::Attach {
            group: 0,
            prio: 4,
            class: Class::BestEffort,
        },
    ) else {
        return Heard::Other;
    };
    let Ok(_queued) = seat.ask(rt, read(sector)) else {
        return Heard::Other;
    };
    match seat.ask(rt, ClientCall::Reap { session: 1 }) {
        Ok(answer) => told(&answer),
        Err(_) => Heard::Other,
    }
}

// The client reads, and then the operator asks for the end.
fn read_and_stop<R: Wait>(rt: &R, client: Caller, operator: OperatorSeat, sector: u64) -> Heard
    requires { IsIdle client × IsIdle operator }
{
    let mut operator = operator;
    let heard = read_two(rt, client, sector);
    let _ended = operator.ask(rt, OperatorCall::Stop);
    heard
}

pub fn work<R: Wait + Clock>(
    rt: &R,
    alloc: Global,
    mut device: DeviceSeat,
    mut image: FailingImage<MemoryImage>,
) -> WorkerEnd
    requires { IsIdle device }
{
    run_worker(rt, alloc, &mut device, &mut image, 0)
}

// The worker, and the client with the operator, in two threads.
fn asked<R: Threads + Sync + Wait + Clock>(
    rt: &R,
    alloc: Global,
    seats: Seats,
    image: FailingImage<MemoryImage>,
    sector: u64,
) -> Ended
    requires { IsIdle seats.client × IsIdle seats.device × IsIdle seats.operator }
{
    let Seats {
        client,
        device,
        operator,
    } = seats;
    let (worker, heard) = thread::join(
        rt,
        move || -> WorkerEnd
            requires { IsIdle device }
        { work(rt, alloc, device, image) },
        move || -> Heard
            requires { IsIdle client × IsIdle operator }
        { read_and_stop(rt, client, operator, sector) },
    );
    Ended { heard, worker }
}

pub fn run<R: Wait>(rt: &R, alloc: Global, mut core: Core) {
    core.run(rt, alloc);
}

// All that: what comes of a read of this sector and the next, where the image's read of this number fails so.
fn served<R: Threads + Sync + Wait + Clock>(
    rt: &R,
    alloc: Global,
    sector: u64,
    failing: (u64, ImageFault),
) -> Result<Ended, Fail> {
    let (core, mut clients, mut devices, operator) = opened(alloc)?;
    let client = last_client(&mut clients)?;
    let device = last_device(&mut devices)?;
    let image = MemoryImage::new(Bytes::from_static(&BYTES), 64);
    let image = FailingImage::new(image, failing.0, failing.1);
    let seats = Seats {
        client,
        device,
        operator,
    };
    let (_core, ended) = thread::join(
        rt,
        move || { run(rt, alloc, core) },
        move || -> Ended
            requires { IsSync R.row × IsIdle seats.client × IsIdle seats.device × IsIdle seats.operator }
        { asked(rt, alloc, seats, image, sector) },
    );
    Ok(ended)
}

// A busy image is read again; a fault and an early end are told to the client. The worker hears of the end.
#[test]
fn reads_by_a_worker(rt: HostRuntime) -> Result<(), Fail> {
    for (sector, failing, heard) in [
        (1, (0, ImageFault::Device), Heard::Bytes(1024, 1024)),
        (4, (1, ImageFault::Busy), Heard::Bytes(1024, 1024)),
        (1, (1, ImageFault::Device), Heard::Failed(FailKind::Fault)),
        (5, (0, ImageFault::Device), Heard::Failed(FailKind::Short)),
    ] {
        let ended = served(&rt, rt.alloc(), sector, failing)?;
        let worker = WorkerEnd::Closed;
        assert_eq!(rt; ended, Ended { heard, worker }, "{sector}");
    }
    Ok(())
}
