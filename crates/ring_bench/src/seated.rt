// A host and its seats, which play a script, with the calls that its lines spell.
use bytes::Bytes;
use host_calls::{ClientCall, OperatorCall};
use host_rings::{Caller, Core, DeviceSeat, OperatorSeat, host};
use plain::{DeviceCall, Why};
use script_line::{Ending, Line, line_of, number};
use sector_core::{Class, Config, ConfigDraft, FailKind, Op, Outcome, Range};
use std::alloc::{AllocError, Global};

/// Its core and its seats.
#[derive(Drop)]
pub struct Host {
    /// The core.
    pub core: Core,
    /// The clients' seats, by their numbers.
    pub callers: Vec<Caller>,
    /// The devices' seats, by their numbers.
    pub devices: Vec<DeviceSeat>,
    /// The operator's.
    pub operator: OperatorSeat,
    /// Which clients play, as they have staged a call.
    pub callers_play: [bool; 16],
    /// Which devices do.
    pub devices_play: [bool; 4],
    /// The device whose calls the next lines are.
    pub device: u8,
    /// How many sectors the work has that a device took last.
    pub sectors: u32,
}

// The call of a seat.
#[derive(Drop)]
enum Staged {
    Client(u8, ClientCall),
    Device(DeviceCall),
    Operator(OperatorCall),
}

// The usual configuration, which is within its limits. This has no clauses, so that nothing carries the limits of its numbers.
fn usual() -> Result<Config, AllocError> {
    match Config::check(ConfigDraft::default()) {
        Ok(config) => Ok(config),
        Err(_) => Err(AllocError),
    }
}

/// A host of 1,024 sectors, with so many workers, 1 to 4. Its device 1 plays first.
pub fn opened(alloc: Global, workers: u8) -> Result<Host, AllocError> {
    let Ok((core, callers, devices, operator)) = host(alloc, usual()?, 1024, workers) else {
        return Err(AllocError);
    };
    Ok(Host {
        core,
        callers,
        devices,
        operator,
        callers_play: [false; 16],
        devices_play: [false; 4],
        device: 1,
        sectors: 0,
    })
}

/// Stages the call of a line, if it spells one. Gives whether there was a place for it.
pub fn stage(alloc: Global, host: &mut Host, text: &[u8]) -> Result<bool, AllocError> {
    if let Some(device) = number_after(b"device ", text) {
        host.device = device;
        return Ok(true);
    }
    match call_of(alloc, text, host.sectors)? {
        Some(Staged::Client(seat, call)) => Ok(stage_client(host, usize::from(seat), call)),
        Some(Staged::Device(call)) => Ok(stage_device(host, usize::from(host.device), call)),
        Some(Staged::Operator(call)) => Ok(host.operator.stage(call).is_ok()),
        None => Ok(true),
    }
}

// At a number that no seat has there is no place.
fn stage_client(host: &mut Host, number: usize, call: ClientCall) -> bool {
    if let Some(plays) = host.callers_play.get_mut(number) {
        *plays = true;
    }
    match host.callers.get_mut(number) {
        Some(caller) => caller.stage(call).is_ok(),
        None => false,
    }
}

fn stage_device(host: &mut Host, number: usize, call: DeviceCall) -> bool {
    if let Some(plays) = host.devices_play.get_mut(number) {
        *plays = true;
    }
    match host.devices.get_mut(number) {
        Some(device) => device.stage(call).is_ok(),
        None => false,
    }
}

fn call_of(alloc: Global, text: &[u8], sectors: u32) -> Result<Option<Staged>, AllocError> {
    if text == b"stop".as_slice() {
        return Ok(Some(Staged::Operator(OperatorCall::Stop)));
    }
    if let Some(worker) = number_after(b"take ", text) {
        return Ok(Some(Staged::Device(DeviceCall::Take { worker })));
    }
    let Some(line) = line_of(text) else {
        return Ok(None);
    };
    if let Some(call) = operator_call(line) {
        return Ok(Some(Staged::Operator(call)));
    }
    if let Some(call) = device_call(alloc, line, sectors)? {
        return Ok(Some(Staged::Device(call)));
    }
    Ok(client_call(alloc, line)?.map(|(seat, call)| Staged::Client(seat, call)))
}

// The number of a line that is a word and a number.
fn number_after(word: &[u8], text: &[u8]) -> Option<u8> {
    u8::try_from(number(text.strip_prefix(word)?)?).ok()
}

// The number of a client's seat, and its call.
fn client_call(alloc: Global, line: Line) -> Result<Option<(u8, ClientCall)>, AllocError> {
    Ok(match line {
        Line::Attach { seat, group, prio } => Some((seat, attach(group, prio, Class::BestEffort))),
        Line::ClassAttach {
            seat,
            group,
            prio,
            class,
        } => Some((seat, attach(group, prio, class))),
        Line::Read {
            seat,
            session,
            start,
            count,
        } => Some((
            seat,
            submit(session, Op::Fetch, range_of(start, count), Bytes::new()),
        )),
        Line::Write {
            seat,
            session,
            start,
            count,
            byte,
        } => {
            let range = range_of(start, count);
            let payload = filled(alloc, range.count, byte)?;
            Some((seat, submit(session, Op::Store, range, payload)))
        }
        Line::Discard {
            seat,
            session,
            start,
            count,
        } => Some((
            seat,
            submit(session, Op::Discard, range_of(start, count), Bytes::new()),
        )),
        Line::Reap { seat, session } => Some((seat, ClientCall::Reap { session })),
        Line::Leave { seat } => Some((seat, ClientCall::Leave { why: Why::Ended })),
        _ => None,
    })
}

fn attach(group: u8, prio: u8, class: Class) -> ClientCall {
    ClientCall::Attach { group, prio, class }
}

fn range_of(start: u64, count: u16) -> Range {
    Range {
        start,
        count: u32::from(count),
    }
}

fn submit(session: u64, op: Op, range: Range, payload: Bytes) -> ClientCall {
    ClientCall::Submit {
        session,
        op,
        range,
        payload,
    }
}

fn device_call(alloc: Global, line: Line, sectors: u32) -> Result<Option<DeviceCall>, AllocError> {
    Ok(match line {
        Line::Requeue { tag, issue } => Some(DeviceCall::Requeue { tag, issue }),
        Line::Finish { tag, issue, ending } => Some(DeviceCall::Finish {
            tag,
            issue,
            outcome: match ending {
                Ending::Stored => Outcome::Stored,
                Ending::Fill(byte) => Outcome::Fetched(filled(alloc, sectors, byte)?),
                Ending::Short => Outcome::Failed(FailKind::Short),
                Ending::Fault => Outcome::Failed(FailKind::Fault),
            },
        }),
        _ => None,
    })
}

fn operator_call(line: Line) -> Option<OperatorCall> {
    match line {
        Line::Hold => Some(OperatorCall::Hold),
        Line::Release => Some(OperatorCall::Release),
        Line::Undo { k } => Some(OperatorCall::Undo { k }),
        Line::Redo { k } => Some(OperatorCall::Redo { k }),
        Line::Group { parent, weight } => Some(OperatorCall::GroupMake { parent, weight }),
        Line::Drop { group } => Some(OperatorCall::GroupDrop { group }),
        Line::Weight { group, weight } => Some(OperatorCall::SetWeight { group, weight }),
        Line::Freeze => Some(OperatorCall::Freeze),
        Line::Thaw => Some(OperatorCall::Thaw),
        Line::Switch { scheduler } => Some(OperatorCall::Switch { scheduler }),
        Line::Tick => Some(OperatorCall::Tick),
        _ => None,
    }
}

// So many sectors of this byte.
fn filled(alloc: Global, count: u32, byte: u8) -> Result<Bytes, AllocError> {
    let bytes = vec![in alloc; byte; 512 * count as usize]?;
    match Bytes::from_vec(bytes) {
        Ok(bytes) => Ok(bytes),
        Err(_) => Err(AllocError),
    }
}
