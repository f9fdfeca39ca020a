// A session over a keeper, and a stream in pieces.
use crate::digest::Digest;
use crate::hosts::usual;
use crate::prepared::is_lacking;
use crate::told::add_call;
use crate::verdict::{Broken, Met, Mode, Verdict, breaks, ended};
use bytes::Bytes;
use history::Keeper;
use host_calls::ClientCall;
use plain::{Answer, Call, Code, Reply, Step};
use sector_core::{Class, Op, Range, Scheduler};
use session_proto::{Client, ClientFeeder, EndCause, Feeder, Operator, SessionEnd, Version, serve};
use session_solo::Solo;
use std::alloc::{AllocError, Global};

// Attach in the root, of priority 4; a fetch of sectors 4 and 5 by session 1; and its Reap.
const SESSION: &[u8] = &[
    0, 0, 0, 3, 1, 0, 4, //
    0, 0, 0, 19, 2, 0, 0, 0, 0, 0, 0, 0, 1, 0, 0, 0, 0, 0, 0, 0, 4, 0, 2, //
    0, 0, 0, 9, 4, 0, 0, 0, 0, 0, 0, 0, 1,
];

// Attached 1, Queued 2, NotYet 44.
const CLEAN: &[u8] = &[
    0, 0, 0, 9, 0x81, 0, 0, 0, 0, 0, 0, 0, 1, //
    0, 0, 0, 9, 0x82, 0, 0, 0, 0, 0, 0, 0, 2, //
    0, 0, 0, 2, 0xe1, 44,
];

// The Attach finds no memory (34), and so there is no session (3).
const UNATTACHED: &[u8] = &[
    0, 0, 0, 2, 0xe0, 34, 0, 0, 0, 2, 0xe0, 3, 0, 0, 0, 2, 0xe0, 3,
];

// The fetch finds no memory (34), and so nothing is owed (16).
const UNQUEUED: &[u8] = &[
    0, 0, 0, 9, 0x81, 0, 0, 0, 0, 0, 0, 0, 1, //
    0, 0, 0, 2, 0xe0, 34, 0, 0, 0, 2, 0xe0, 16,
];

const LIMIT: u32 = 1_048_576;

/// A session, whose writer has room for all answers.
pub fn serve_row(alloc: Global, mode: Mode) -> Verdict {
    let Ok((mut solo, mut written)) = opened(alloc) else {
        return Verdict::Unprepared;
    };
    let end = serve(alloc, &mut { SESSION }, &mut written, &mut solo, LIMIT);
    ended(judge(mode, &end, written.as_slice(), &solo.0))
}

fn opened(alloc: Global) -> Result<(Solo, Vec<u8>), AllocError> {
    let Ok(keeper) = Keeper::new(alloc, usual()?, 1024) else {
        return Err(AllocError);
    };
    Ok((Solo(keeper), Vec::with_capacity(alloc, 256)?))
}

fn judge(mode: Mode, end: &SessionEnd, written: &[u8], keeper: &Keeper) -> Result<Met, Broken> {
    let mut met = Met::new();
    if !is_whole(written) || end.written != written.len() as u64 {
        return breaks("whole replies are written, and no more", "");
    }
    match end.why {
        EndCause::OutOfMemory => {
            met.note(mode)?;
            if end.left.is_some() || has_left(keeper) {
                return breaks("a session that finds no memory itself asks no Leave", "");
            }
            if mode == Mode::Once && !is_front(written, CLEAN) {
                return breaks("the replies are those of a run without a refusal", "");
            }
            Ok(met)
        }
        EndCause::Ended => {
            let Some(left) = &end.left else {
                return breaks("a session that ends asks one Leave", "");
            };
            judge_ended(mode, written, left, met)
        }
        _ => breaks("a session ends with its input, or for want of memory", ""),
    }
}

// A session that came to its end, where one call at most found no memory.
fn judge_ended(mode: Mode, written: &[u8], left: &Answer, mut met: Met) -> Result<Met, Broken> {
    if written != CLEAN {
        met.note(mode)?;
    }
    if is_lacking(left) {
        met.note(mode)?;
    }
    if mode == Mode::Always {
        return Ok(met);
    }
    let is_right = if written == UNATTACHED {
        matches!(left, Answer::Refused(Code::NoSession))
    } else {
        (written == CLEAN || written == UNQUEUED)
            && (is_lacking(left) || matches!(left, Answer::Accepted(Reply::Left)))
    };
    if is_right {
        Ok(met)
    } else {
        breaks("the replies are those of a run without a refusal", "")
    }
}

/// Whether bytes are whole frames.
pub fn is_whole(bytes: &[u8]) -> bool {
    let mut rest = bytes;
    for _ in 0..bytes.len() {
        let [_, _, high, low, left @ ..] = rest else {
            break;
        };
        let size = usize::from(u16::from_be_bytes([*high, *low]));
        match left.get(size..) {
            Some(behind) => rest = behind,
            None => return false,
        }
    }
    rest.is_empty()
}

/// Whether these are the first of those.
pub fn is_front(bytes: &[u8], all: &[u8]) -> bool {
    match all.get(..bytes.len()) {
        Some(front) => front == bytes,
        None => false,
    }
}

fn has_left(keeper: &Keeper) -> bool {
    for at in 0..keeper.journal_len() {
        if let Some(Call::Do(Step::Leave { .. })) = keeper.entry(at) {
            return true;
        }
    }
    false
}

// The bytes of a stream, and what its values are as calls of seat 0.
#[derive(Drop)]
struct Stream {
    bytes: Vec<u8>,
    values: Digest,
}

// That the stream is of version 2; Attach in the root, of priority 4 and of real time; and a discard of sectors 4 and 5.
const OPENED: &[u8] = &[
    0, 0, 0, 2, 7, 2, //
    0, 0, 0, 4, 8, 0, 4, 1, //
    0, 0, 0, 19, 6, 0, 0, 0, 0, 0, 0, 0, 1, 0, 0, 0, 0, 0, 0, 0, 4, 0, 2,
];

// The session from above, with a store of a sector before its Reap. In version 2 it begins as above.
fn stream_of(alloc: Global, version: Version) -> Result<Stream, AllocError> {
    let (front, reap) = SESSION.split_at(30);
    let (front, class, op) = match version {
        Version::One => (front, Class::BestEffort, Op::Fetch),
        Version::Two => (OPENED, Class::RealTime, Op::Discard),
    };
    let mut bytes = Vec::new(alloc);
    bytes.extend_from_slice(front)?;
    bytes.extend_from_slice(&[0, 0, 2, 19, 3, 0, 0, 0, 0, 0, 0, 0, 1])?;
    bytes.extend_from_slice(&[0, 0, 0, 0, 0, 0, 0, 9, 0, 1])?;
    bytes.extend_from_slice(&[7; 512])?;
    bytes.extend_from_slice(reap)?;
    let mut values = Digest::new();
    add_call(
        &mut values,
        &ClientCall::Attach {
            group: 0,
            prio: 4,
            class,
        }
        .of_seat(0),
    );
    let first = submit(op, Range { start: 4, count: 2 }, Bytes::new());
    add_call(&mut values, &first);
    let payload = Bytes::from_vec(vec![in alloc; 7u8; 512]?)?;
    let store = submit(Op::Store, Range { start: 9, count: 1 }, payload);
    add_call(&mut values, &store);
    add_call(&mut values, &ClientCall::Reap { session: 1 }.of_seat(0));
    Ok(Stream { bytes, values })
}

fn submit(op: Op, range: Range, payload: Bytes) -> Call {
    let call = ClientCall::Submit {
        session: 1,
        op,
        range,
        payload,
    };
    call.of_seat(0)
}

/// A stream of this version in four pieces, which are cut inside of frames, the first frame too. A piece that finds no memory is fed again.
pub fn feed_row(alloc: Global, mode: Mode, version: Version) -> Verdict {
    match stream_of(alloc, version) {
        Ok(stream) => ended(feed_all(alloc, mode, &stream)),
        Err(_) => Verdict::Unprepared,
    }
}

fn feed_all(alloc: Global, mode: Mode, stream: &Stream) -> Result<Met, Broken> {
    let mut met = Met::new();
    let mut values = Digest::new();
    let mut feeder = ClientFeeder::new(alloc);
    let bytes = stream.bytes.as_slice();
    for (from, to) in [(0, 3), (3, 20), (20, 300), (300, bytes.len())] {
        let piece = bytes.get(from..to).unwrap_or(&[]);
        if feed_one(alloc, &mut feeder, piece, &mut values) {
            continue;
        }
        met.note(mode)?;
        if mode == Mode::Always {
            return Ok(met);
        }
        if !feed_one(alloc, &mut feeder, piece, &mut values) {
            return breaks("the same piece, fed again, goes on", "");
        }
    }
    if values == stream.values && feeder.is_between() {
        Ok(met)
    } else {
        breaks("the values are those of the stream", "")
    }
}

// Feeds a piece, and adds its values. Gives whether there was memory for it.
fn feed_one(alloc: Global, feeder: &mut ClientFeeder, piece: &[u8], values: &mut Digest) -> bool {
    match feeder.feed(alloc, piece) {
        Ok(fed) => {
            for Client(call) in fed.values {
                add_call(values, &call.of_seat(0));
            }
            if fed.fault.is_some() {
                values.add(0);
            }
            true
        }
        Err(_) => false,
    }
}

// Freeze, Undo of three steps, Switch to BFQ, Tick: the operator's.
const OPERATED: &[u8] = &[
    0, 0, 0, 1, 0x14, //
    0, 0, 0, 5, 0x1a, 0, 0, 0, 3, //
    0, 0, 0, 2, 0x16, 1, //
    0, 0, 0, 1, 0x17,
];

/// A stream of the operator in three pieces, which are cut inside of frames. A piece that finds no memory is fed again.
pub fn feed_operator_row(alloc: Global, mode: Mode) -> Verdict {
    ended(feed_operator(alloc, mode))
}

fn feed_operator(alloc: Global, mode: Mode) -> Result<Met, Broken> {
    let mut met = Met::new();
    let mut values = Digest::new();
    let mut feeder = Feeder::<Operator>::new(alloc);
    for (from, to) in [(0, 3), (3, 12), (12, OPERATED.len())] {
        let piece = OPERATED.get(from..to).unwrap_or(&[]);
        if feed_operated(alloc, &mut feeder, piece, &mut values) {
            continue;
        }
        met.note(mode)?;
        if mode == Mode::Always {
            return Ok(met);
        }
        if !feed_operated(alloc, &mut feeder, piece, &mut values) {
            return breaks("the same piece, fed again, goes on", "");
        }
    }
    if values == operated() && feeder.is_between() {
        Ok(met)
    } else {
        breaks("the values are those of the stream", "")
    }
}

// What the operator's stream asks.
fn operated() -> Digest {
    let mut values = Digest::new();
    add_call(&mut values, &Call::Do(Step::Freeze));
    add_call(&mut values, &Call::Undo { k: 3 });
    let scheduler = Scheduler::Bfq;
    add_call(&mut values, &Call::Do(Step::Switch { scheduler }));
    add_call(&mut values, &Call::Do(Step::Tick));
    values
}

// Feeds a piece of the operator's, and adds its values. Gives whether there was memory for it.
fn feed_operated(
    alloc: Global,
    feeder: &mut Feeder<Operator>,
    piece: &[u8],
    values: &mut Digest,
) -> bool {
    match feeder.feed(alloc, piece) {
        Ok(fed) => {
            for Operator(call) in fed.values {
                match call.into_call() {
                    Some(call) => add_call(values, &call),
                    None => values.add(0),
                }
            }
            if fed.fault.is_some() {
                values.add(0);
            }
            true
        }
        Err(_) => false,
    }
}
