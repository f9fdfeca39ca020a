// The steps of the lines that submit a bio.
ghost use Rattle.std.specs.Prelude.{◌≡◌, [], IfOk};
ghost use Rattle.host_console.specs.Printed.{payload_of};

use crate::filled::payload;
use bytes::Bytes;
use plain::Step;
use sector_core::{Op, OutOfMemory, Range};
use std::alloc::Global;

/// The step of a `read` line.
pub fn fetch(seat: u8, session: u64, start: u64, count: u16) -> Step
    ensures { result ≡ Step.Submit seat session Op.Fetch (record { start = start; count = count }) [] }
{
    Step::Submit {
        seat,
        session,
        op: Op::Fetch,
        range: range(start, count),
        payload: Bytes::new(),
    }
}

/// The step of a `write` line whose bytes are alike.
pub fn store(
    alloc: Global,
    seat: u8,
    session: u64,
    start: u64,
    count: u16,
    byte: u8,
) -> Result<Step, OutOfMemory>
    ensures { IfOk result (λ step. step ≡ Step.Submit seat session Op.Store (record { start = start; count = count }) (payload_of count byte)) }
{
    let payload = payload(alloc, count, byte)?;
    Ok(store_of(seat, session, start, count, payload))
}

/// The step of a write of these bytes.
pub fn store_of(seat: u8, session: u64, start: u64, count: u16, payload: Bytes) -> Step
    ensures { result ≡ Step.Submit seat session Op.Store (record { start = start; count = count }) payload }
{
    Step::Submit {
        seat,
        session,
        op: Op::Store,
        range: range(start, count),
        payload,
    }
}

/// The step of a `discard` line.
pub fn discard(seat: u8, session: u64, start: u64, count: u16) -> Step
    ensures { result ≡ Step.Submit seat session Op.Discard (record { start = start; count = count }) [] }
{
    Step::Submit {
        seat,
        session,
        op: Op::Discard,
        range: range(start, count),
        payload: Bytes::new(),
    }
}

fn range(start: u64, count: u16) -> Range
    ensures { result ≡ record { start = start; count = count } }
{
    Range {
        start,
        count: u32::from(count),
    }
}
