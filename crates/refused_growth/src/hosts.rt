// A host and its turns.
use crate::calls::unchanged;
use crate::digest::Digest;
use crate::prepared::{is_accepted, is_lacking};
use crate::seen::{Seen, difference, look_at};
use crate::told::answer_number;
use crate::verdict::{Broken, Met, Mode, Verdict, breaks, ended};
use bytes::Bytes;
use host_calls::{ClientCall, OperatorCall, RingReply};
use host_rings::{Caller, Core, DeviceSeat, HostFault, OperatorSeat, host, view};
use plain::DeviceCall;
use sector_core::{Class, Config, ConfigDraft, Op, Outcome, Range};
use std::alloc::{AllocError, Global};

/// So many sectors a host has.
pub const SECTORS: u64 = 1024;

/// The usual configuration. This has no clauses, so that nothing carries the limits of its numbers.
pub fn usual() -> Result<Config, AllocError> {
    match Config::check(ConfigDraft::default()) {
        Ok(config) => Ok(config),
        Err(_) => Err(AllocError),
    }
}

/// Makes a host; if there is no memory for it, once more.
pub fn host_row(alloc: Global, mode: Mode) -> Verdict {
    ended(make_host(alloc, mode))
}

fn make_host(alloc: Global, mode: Mode) -> Result<Met, Broken> {
    let mut met = Met::new();
    if made(alloc, 5) != Some(HostFault::BadWorkers) {
        return breaks("five workers are too many, whatever memory does", "");
    }
    let mut fault = made(alloc, 2);
    if fault == Some(HostFault::OutOfMemory) {
        met.note(mode)?;
        fault = made(alloc, 2);
    }
    match fault {
        None => Ok(met),
        Some(HostFault::OutOfMemory) if mode == Mode::Always => Ok(met),
        _ => breaks("a host of two workers is made, if memory is there", ""),
    }
}

// Why a host of so many workers is not made, if it is not.
fn made(alloc: Global, workers: u8) -> Option<HostFault> {
    match usual() {
        Ok(config) => host(alloc, config, SECTORS, workers).err(),
        Err(_) => None,
    }
}

/// A host of two devices; those who play are client 0, device 0 and the operator.
#[derive(Drop)]
pub struct Host {
    /// Its core.
    pub core: Core,
    callers: Vec<Caller>,
    devices: Vec<DeviceSeat>,
    operator: OperatorSeat,
}

/// The call of a seat.
#[derive(Drop)]
pub enum Act {
    Client(ClientCall),
    Device(DeviceCall),
    Operator(OperatorCall),
}

/// What a turn came to: the reply, whether that call found no memory, whether it was accepted, and whether a request was dispatched.
#[derive(Clone, Copy)]
pub struct Played {
    reply: Digest,
    is_lacking: bool,
    /// Whether it was accepted.
    pub is_accepted: bool,
    dispatched: bool,
}

/// A turn with ample memory, and what is seen behind it.
#[derive(Clone, Copy)]
pub struct Wanted {
    played: Played,
    look: Seen,
}

/// A new host.
pub fn opened(alloc: Global) -> Result<Host, AllocError> {
    let Ok((core, callers, devices, operator)) = host(alloc, usual()?, SECTORS, 2) else {
        return Err(AllocError);
    };
    Ok(Host {
        core,
        callers,
        devices,
        operator,
    })
}

// A sector of so many bytes of this kind.
fn sector_of(alloc: Global, byte: u8) -> Result<Bytes, AllocError> {
    Ok(Bytes::from_vec(vec![in alloc; byte; 512]?)?)
}

fn submit(op: Op, payload: Bytes) -> Act {
    Act::Client(ClientCall::Submit {
        session: 1,
        op,
        range: Range { start: 5, count: 1 },
        payload,
    })
}

fn finish(issue: u64, outcome: Outcome) -> Act {
    Act::Device(DeviceCall::Finish {
        tag: 0,
        issue,
        outcome,
    })
}

/// A store is sent in the turn of its submit, and taken, done and reaped; so is a fetch. Then the operator goes back and forth.
pub fn acts(alloc: Global) -> Result<Vec<Act>, AllocError> {
    let mut acts = Vec::new(alloc);
    acts.push(Act::Client(ClientCall::Attach {
        group: 0,
        prio: 4,
        class: Class::BestEffort,
    }))?;
    acts.push(submit(Op::Store, sector_of(alloc, 7)?))?;
    acts.push(Act::Device(DeviceCall::Take { worker: 0 }))?;
    acts.push(finish(3, Outcome::Stored))?;
    acts.push(Act::Client(ClientCall::Reap { session: 1 }))?;
    acts.push(submit(Op::Fetch, Bytes::new()))?;
    acts.push(finish(7, Outcome::Fetched(sector_of(alloc, 0)?)))?;
    acts.push(Act::Client(ClientCall::Reap { session: 1 }))?;
    for call in [
        OperatorCall::Hold,
        OperatorCall::Undo { k: 6 },
        OperatorCall::Redo { k: 6 },
        OperatorCall::Undo { k: 1 },
        OperatorCall::Release,
        OperatorCall::GroupMake {
            parent: 0,
            weight: 100,
        },
    ] {
        acts.push(Act::Operator(call))?;
    }
    Ok(acts)
}

/// Plays turns, each with one call. One that finds no memory is staged again.
pub fn turn_row(alloc: Global, mode: Mode) -> Verdict {
    let Ok(ready) = get_ready(alloc) else {
        return Verdict::Unprepared;
    };
    let Ready {
        mut host,
        acts,
        mut spares,
        wanted,
    } = ready;
    let mut met = Met::new();
    for (at, (act, turn)) in acts.into_iter().zip(wanted.iter()).enumerate() {
        let spare = spares.pop();
        match play_one(alloc, mode, &mut host, act, spare, *turn, &mut met) {
            Ok(()) => {}
            Err(fault) => return Verdict::Broken(fault, at.saturating_add(1)),
        }
    }
    Verdict::Kept(met)
}

/// A host before its first turn, the calls, these once more from the last to the first, and what the turns come to with ample memory.
#[derive(Drop)]
pub struct Ready {
    pub host: Host,
    pub acts: Vec<Act>,
    pub spares: Vec<Act>,
    pub wanted: Vec<Wanted>,
}

/// A host, and all that stands before its turns.
pub fn get_ready(alloc: Global) -> Result<Ready, AllocError> {
    let mut first = opened(alloc)?;
    let mut wanted = Vec::new(alloc);
    for act in acts(alloc)? {
        let played = play(alloc, &mut first, act);
        if !played.is_accepted {
            return Err(AllocError);
        }
        wanted.push(Wanted {
            played,
            look: look_at(&view(&first.core)),
        })?;
    }
    let mut spares = acts(alloc)?;
    spares.reverse();
    Ok(Ready {
        host: opened(alloc)?,
        acts: acts(alloc)?,
        spares,
        wanted,
    })
}

/// Stages a call, has the core take a turn, and collects the reply.
pub fn play(alloc: Global, host: &mut Host, act: Act) -> Played {
    stage(host, act);
    let report = host.core.turn(alloc);
    let mut played = Played {
        reply: Digest::new(),
        is_lacking: false,
        is_accepted: false,
        dispatched: report.dispatched,
    };
    if let Some(RingReply::Answer(answer)) = collected(host) {
        played.reply = answer_number(&answer);
        played.is_lacking = is_lacking(&answer);
        played.is_accepted = is_accepted(&answer);
    }
    played
}

// Each ring has a place, as each reply is collected.
fn stage(host: &mut Host, act: Act) {
    match act {
        Act::Client(call) => {
            if let Some(seat) = host.callers.first_mut() {
                let _ = seat.stage(call);
            }
        }
        Act::Device(call) => {
            if let Some(seat) = host.devices.first_mut() {
                let _ = seat.stage(call);
            }
        }
        Act::Operator(call) => {
            let _ = host.operator.stage(call);
        }
    }
}

// A turn answers one seat at most.
fn collected(host: &mut Host) -> Option<RingReply> {
    if let Some(seat) = host.callers.first_mut() {
        if let Some(reply) = seat.collect() {
            return Some(reply);
        }
    }
    if let Some(seat) = host.devices.first_mut() {
        if let Some(reply) = seat.collect() {
            return Some(reply);
        }
    }
    host.operator.collect()
}

// Whether a call is an Undo that may be made.
fn may_undo(host: &Host, act: &Act) -> bool {
    match act {
        Act::Operator(OperatorCall::Undo { k }) => {
            let look = view(&host.core);
            look.held() && *k <= look.cursor()
        }
        _ => false,
    }
}

/// Plays a turn with a call, and compares what comes of it. If it finds no memory the spare is staged, if one request alone is refused.
pub fn play_one(
    alloc: Global,
    mode: Mode,
    host: &mut Host,
    act: Act,
    spare: Option<Act>,
    wanted: Wanted,
    met: &mut Met,
) -> Result<(), Broken> {
    let before = look_at(&view(&host.core));
    let undoes = may_undo(host, &act);
    let played = play(alloc, host, act);
    if undoes && !played.is_accepted {
        return breaks(
            "an Undo that may be made is accepted, whatever memory does",
            "",
        );
    }
    if !played.is_lacking {
        return judge(alloc, mode, host, played, wanted, met);
    }
    met.note(mode)?;
    unchanged(before, &view(&host.core))?;
    match spare {
        Some(spare) if mode == Mode::Once => {
            let again = play(alloc, host, spare);
            if again.is_lacking {
                return breaks("the same call, staged again, is accepted", "");
            }
            judge(alloc, mode, host, again, wanted, met)
        }
        _ => Ok(()),
    }
}

// Whether a turn came to what it comes to with ample memory. A Dispatch that found none is tried in the next turn.
fn judge(
    alloc: Global,
    mode: Mode,
    host: &mut Host,
    played: Played,
    wanted: Wanted,
    met: &mut Met,
) -> Result<(), Broken> {
    if mode == Mode::Always && met.lacking > 0 {
        return Ok(());
    }
    if played.reply != wanted.played.reply {
        return breaks("the reply is that of a run without a refusal", "");
    }
    if wanted.played.dispatched && !played.dispatched {
        met.note(mode)?;
        let report = host.core.turn(alloc);
        if mode == Mode::Always {
            return Ok(());
        }
        if !report.dispatched || report.answered.is_some() {
            return breaks("a Dispatch without memory is made in the next turn", "");
        }
    }
    match difference(&wanted.look, &look_at(&view(&host.core))) {
        Some(by) => breaks("the keeper is that of a run without a refusal", by),
        None => Ok(()),
    }
}
