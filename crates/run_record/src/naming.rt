// The entry of a call under the name of its seat, and back.
ghost use Rattle.std.specs.Prelude.{◌≡◌, ◌<◌, IfOk, IfSome, IfNone, IsTrue, IsFalse};
ghost use Rattle.run_record.specs.Naming.{parts_of, IsEntryOf, HasNoEntry};
ghost use Rattle.plain.specs.declared.call.Call.TheVariants.{Do};
ghost use Rattle.plain.specs.declared.step.Step.TheVariants as step;
ghost use Rattle.host_calls.specs.declared.seat.SeatName.TheVariants as seat_name;
ghost use Rattle.run_record.specs.declared.entry.Entry.TheVariants as entry;
ghost use Rattle.run_record.specs.Entry.{OutcomeFits};

use crate::entry::Entry;
use bytes::Bytes;
use host_calls::{ClientCall, OperatorCall, SeatName};
use plain::{Call, Step, Why};
use sector_core::{Op, Outcome, Range};
use session_proto::{Client, Operator};
use std::alloc::AllocError;

// How many clients a host has, and how many devices at most.
const CLIENTS: u8 = 16;

const WORKERS: u8 = 4;

// The most bytes of a store, those of 64 sectors, and of a fetch of a device, those of 256.
const MOST_PAYLOAD: usize = 32_768;

const MOST_FETCHED: usize = 131_072;

// A count of sectors has two bytes.
const MOST_COUNT: u32 = 65_535;

impl Entry {
    /// The entry of a call under this name. None only if no entry is that: no call that a host's journal has under its seat's name. A payload
    /// is shared and not copied.
    ///
    /// # Errors
    ///
    /// A payload is shared too often to count.
    pub fn of(name: SeatName, call: &Call) -> Result<Option<Entry>, AllocError>
        ensures found { IfOk result (λ found. IfSome found (IsEntryOf name call.now)) }
        ensures none { IfOk result (λ found. IfNone found (HasNoEntry name call.now)) }
    {
        match call {
            Call::Do(step) => of_step(name, step),
            Call::Hold => Ok(of_history(name, OperatorCall::Hold)),
            Call::Release => Ok(of_history(name, OperatorCall::Release)),
            Call::Undo { k } => Ok(of_history(name, OperatorCall::Undo { k: *k })),
            Call::Redo { k } => Ok(of_history(name, OperatorCall::Redo { k: *k })),
        }
    }

    /// Whose entry it is, and the call; none for Stop, which has no entry.
    pub fn into_parts(self) -> Option<(SeatName, Call)>
        ensures { result ≡ parts_of self }
    {
        match self {
            Entry::Client { seat, call } => Some((SeatName::Client(seat), call.0.of_seat(seat))),
            Entry::Leave { seat, why } => {
                Some((SeatName::Client(seat), Call::Do(Step::Leave { seat, why })))
            }
            Entry::Finish {
                worker,
                tag,
                issue,
                outcome,
            } => Some((
                SeatName::Device(worker),
                Call::Do(Step::Finish {
                    tag,
                    issue,
                    outcome,
                }),
            )),
            Entry::Requeue { worker, tag, issue } => Some((
                SeatName::Device(worker),
                Call::Do(Step::Requeue { tag, issue }),
            )),
            Entry::Operator(call) => match call.0.into_call() {
                Some(call) => Some((SeatName::Operator, call)),
                None => None,
            },
            Entry::Dispatch => Some((SeatName::Core, Call::Do(Step::Dispatch))),
        }
    }
}

// The entry of a step.
fn of_step(name: SeatName, step: &Step) -> Result<Option<Entry>, AllocError>
    ensures found { IfOk result (λ found. IfSome found (IsEntryOf name (Do step.now))) }
    ensures none { IfOk result (λ found. IfNone found (HasNoEntry name (Do step.now))) }
{
    match name {
        SeatName::Client(seat) => of_client(seat, step),
        SeatName::Device(worker) => of_device(worker, step),
        SeatName::Operator => Ok(of_setting(step)),
        SeatName::Core => match step {
            Step::Dispatch => Ok(Some(Entry::Dispatch)),
            _ => Ok(None),
        },
    }
}

// The entry of a client's step.
fn of_client(seat: u8, step: &Step) -> Result<Option<Entry>, AllocError>
    ensures found { IfOk result (λ found. IfSome found (IsEntryOf (seat_name.Client seat) (Do step.now))) }
    ensures none { IfOk result (λ found. IfNone found (HasNoEntry (seat_name.Client seat) (Do step.now))) }
{
    if seat >= CLIENTS {
        return Ok(None);
    }
    match step {
        Step::Attach {
            seat: own,
            group,
            prio,
            class,
        } if *own == seat => {
            let call = Client(ClientCall::Attach {
                group: *group,
                prio: *prio,
                class: *class,
            });
            Ok(Some(Entry::Client { seat, call }))
        }
        Step::Submit {
            seat: own,
            session,
            op,
            range,
            payload,
        } if *own == seat => submit(seat, *session, *op, *range, payload),
        Step::Reap { seat: own, session } if *own == seat => {
            let call = Client(ClientCall::Reap { session: *session });
            Ok(Some(Entry::Client { seat, call }))
        }
        Step::Leave { seat: own, why } if *own == seat => Ok(Some(leave(seat, *why))),
        _ => Ok(None),
    }
}

// A Leave: of a client that has ended as its socket has it.
#[tactic(auto, unfolding(crate::specs::Entry::why_of_number))]
fn leave(seat: u8, why: Why) -> Entry
    requires { seat < 16 }
    ensures { IsEntryOf (seat_name.Client seat) (Do (step.Leave seat why)) result }
{
    match why {
        Why::Ended => Entry::Client {
            seat,
            call: Client(ClientCall::Leave { why }),
        },
        Why::ReadFault | Why::WriteFault | Why::BadFrame | Why::FrameLimit => {
            Entry::Leave { seat, why }
        }
    }
}

// A Submit whose count fits two bytes; a fetch or a discard has no payload, and a store that of 64 sectors at most.
fn submit(
    seat: u8,
    session: u64,
    op: Op,
    range: Range,
    payload: &Bytes,
) -> Result<Option<Entry>, AllocError>
    requires { seat < 16 }
    ensures found { IfOk result (λ found. IfSome found (IsEntryOf (seat_name.Client seat) (Do (step.Submit seat session op range payload.now)))) }
    ensures none { IfOk result (λ found. IfNone found (HasNoEntry (seat_name.Client seat) (Do (step.Submit seat session op range payload.now)))) }
{
    let most = match op {
        Op::Fetch | Op::Discard => 0,
        Op::Store => MOST_PAYLOAD,
    };
    if range.count > MOST_COUNT || payload.len() > most {
        return Ok(None);
    }
    let payload = payload.clone()?;
    let call = Client(ClientCall::Submit {
        session,
        op,
        range,
        payload,
    });
    Ok(Some(Entry::Client { seat, call }))
}

// The entry of a device's step.
fn of_device(worker: u8, step: &Step) -> Result<Option<Entry>, AllocError>
    ensures found { IfOk result (λ found. IfSome found (IsEntryOf (seat_name.Device worker) (Do step.now))) }
    ensures none { IfOk result (λ found. IfNone found (HasNoEntry (seat_name.Device worker) (Do step.now))) }
{
    if worker >= WORKERS {
        return Ok(None);
    }
    match step {
        Step::Finish {
            tag,
            issue,
            outcome,
        } => {
            if !is_short(outcome) {
                return Ok(None);
            }
            Ok(Some(Entry::Finish {
                worker,
                tag: *tag,
                issue: *issue,
                outcome: outcome.clone()?,
            }))
        }
        Step::Requeue { tag, issue } => Ok(Some(Entry::Requeue {
            worker,
            tag: *tag,
            issue: *issue,
        })),
        _ => Ok(None),
    }
}

// Whether the bytes that were fetched are at most those of 256 sectors.
fn is_short(outcome: &Outcome) -> bool
    ensures fits { IsTrue result → OutcomeFits outcome.now }
    ensures not { IsFalse result → OutcomeFits outcome.now → ⊥ }
{
    match outcome {
        Outcome::Fetched(bytes) => bytes.len() <= MOST_FETCHED,
        Outcome::Stored | Outcome::Failed(_) => true,
    }
}

// The entry of a step of the operator.
fn of_setting(step: &Step) -> Option<Entry>
    ensures found { IfSome result (IsEntryOf seat_name.Operator (Do step.now)) }
    ensures none { IfNone result (HasNoEntry seat_name.Operator (Do step.now)) }
{
    let call = match step {
        Step::GroupMake { parent, weight } => OperatorCall::GroupMake {
            parent: *parent,
            weight: *weight,
        },
        Step::GroupDrop { group } => OperatorCall::GroupDrop { group: *group },
        Step::SetWeight { group, weight } => OperatorCall::SetWeight {
            group: *group,
            weight: *weight,
        },
        Step::Freeze => OperatorCall::Freeze,
        Step::Thaw => OperatorCall::Thaw,
        Step::Switch { scheduler } => OperatorCall::Switch {
            scheduler: *scheduler,
        },
        Step::Tick => OperatorCall::Tick,
        _ => return None,
    };
    Some(Entry::Operator(Operator(call)))
}

// The entry of a call that goes along the line, if it is the operator's.
fn of_history(name: SeatName, call: OperatorCall) -> Option<Entry>
    ensures found { IfSome result (λ found. (name ≡ seat_name.Operator) × (found ≡ entry.Operator (record { 0 = call }))) }
    ensures none { IfNone result (name ≡ seat_name.Operator → ⊥) }
{
    match name {
        SeatName::Operator => Some(Entry::Operator(Operator(call))),
        SeatName::Client(_) | SeatName::Device(_) | SeatName::Core => None,
    }
}
