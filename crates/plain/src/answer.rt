// What a call is answered.
ghost use Rattle.std.specs.Prelude.{◌≡◌, IfSome};
ghost use Rattle.plain.specs.Numbers.{code_number, code_of_number, cause_number, cause_of_number};
ghost use Rattle.plain.specs.declared.answer.Code.{Code};
ghost use Rattle.plain.specs.declared.answer.Cause.{Cause};

use sector_core::{BioResult, Op, Range};

/// Why a call is refused; nothing has changed then.
#[derive(Clone, Copy, Debug, PartialEq, Eq)]
pub enum Code {
    /// There is no such seat.
    BadSeat,
    /// The seat is taken.
    SeatTaken,
    /// No session there makes calls.
    NoSession,
    /// Another session sits there.
    StaleSession,
    /// There is no such group.
    NoGroup,
    /// The root cannot be dropped or weighed.
    RootGroup,
    /// A weight is 1 to 1000.
    BadWeight,
    /// A priority is 0 to 7.
    BadPrio,
    /// Groups are four levels deep at most.
    TooDeep,
    /// There are 32 groups.
    GroupsFull,
    /// The group has a child or a taken seat.
    GroupInUse,
    /// A bio has 1 to 64 sectors.
    BadCount,
    /// A store has 512 bytes for each sector, a fetch or a discard has none.
    BadLength,
    /// The range ends past the image.
    OutOfRange,
    /// The session has 32 bios not yet reaped.
    TooManyBios,
    /// The session has no bio left to reap.
    NothingOwed,
    /// No request waits.
    NothingQueued,
    /// Every tag bears an issue.
    NoTag,
    /// There is no such tag.
    BadTag,
    /// The tag is free or bears another issue.
    NotInFlight,
    /// The outcome is not one of the request's operation and length.
    BadOutcome,
    /// The host is frozen.
    AlreadyFrozen,
    /// The host is not frozen.
    NotFrozen,
    /// The host has a request.
    NotDrained,
    /// The scheduler is that one already.
    SameScheduler,
    /// No queue is in service.
    NoneInService,
    /// A virtual time would pass its limit.
    VtimeFull,
    /// The host is not held.
    NotHeld,
    /// The host is held.
    AlreadyHeld,
    /// There is nothing to do for a count of zero.
    ZeroCount,
    /// So many steps do not stand.
    NothingToUndo,
    /// So many steps were not undone.
    NothingToRedo,
    /// The history holds no further call.
    HistoryFull,
    /// A growth was refused.
    OutOfMemory,
    /// The worker is not the seat's own.
    BadWorker,
}

/// Why a call is not yet accepted; nothing has changed, and the same call may succeed later.
#[derive(Clone, Copy, Debug, PartialEq, Eq)]
pub enum Cause {
    /// The host is held.
    Held,
    /// The host is frozen.
    Frozen,
    /// Every request is queued, in the dispatch list or in flight.
    RequestsFull,
    /// No bio of the session is completed.
    NotCompleted,
    /// Nothing is in flight for the worker.
    NothingToTake,
}

/// A request in flight, as a device worker takes it.
#[derive(Clone, Copy, Debug, PartialEq, Eq)]
pub struct Work {
    /// Its tag.
    pub tag: u8,
    /// The serial of its dispatch.
    pub issue: u64,
    /// What it asks for.
    pub op: Op,
    /// Its sectors.
    pub range: Range,
}

/// What an accepted call gives.
#[derive(Debug, Drop)]
pub enum Reply {
    /// The session, named by the serial of its attach.
    Attached {
        session: u64,
    },
    /// The bio, named by the serial of its submit.
    Queued {
        bio: u64,
    },
    /// A completed bio and what became of it.
    Completed {
        bio: u64,
        result: BioResult,
    },
    /// The session has left.
    Left,
    /// What was sent to the device.
    Issued {
        tag: u8,
        issue: u64,
        op: Op,
        range: Range,
    },
    /// How many bios were completed.
    Finished {
        bios: u32,
    },
    /// The request waits in the dispatch list.
    Requeued,
    /// A group's number.
    Group {
        number: u8,
    },
    /// It is done.
    Done,
    /// How many steps stand, and how many the line has.
    Moved {
        cursor: u32,
        length: u32,
    },
    /// Work for a device.
    Taken(Work),
}

/// The answer to a call.
#[derive(Debug, Drop)]
pub enum Answer {
    /// The call is an entry of the journal now.
    Accepted(Reply),
    /// Nothing has changed.
    Refused(Code),
    /// Nothing has changed, and the call may succeed later.
    NotYet(Cause),
}

impl Code {
    /// Its number, 1 to 35.
    pub fn number(self) -> u8
        ensures { result ≡ code_number self }
    {
        match self {
            Code::BadSeat => 1,
            Code::SeatTaken => 2,
            Code::NoSession => 3,
            Code::StaleSession => 4,
            Code::NoGroup => 5,
            Code::RootGroup => 6,
            Code::BadWeight => 7,
            Code::BadPrio => 8,
            Code::TooDeep => 9,
            Code::GroupsFull => 10,
            Code::GroupInUse => 11,
            Code::BadCount => 12,
            Code::BadLength => 13,
            Code::OutOfRange => 14,
            Code::TooManyBios => 15,
            Code::NothingOwed => 16,
            Code::NothingQueued => 17,
            Code::NoTag => 18,
            Code::BadTag => 19,
            Code::NotInFlight => 20,
            Code::BadOutcome => 21,
            Code::AlreadyFrozen => 22,
            Code::NotFrozen => 23,
            Code::NotDrained => 24,
            Code::SameScheduler => 25,
            Code::NoneInService => 26,
            Code::VtimeFull => 27,
            Code::NotHeld => 28,
            Code::AlreadyHeld => 29,
            Code::ZeroCount => 30,
            Code::NothingToUndo => 31,
            Code::NothingToRedo => 32,
            Code::HistoryFull => 33,
            Code::OutOfMemory => 34,
            Code::BadWorker => 35,
        }
    }

    /// The code whose number it is, or none.
    pub fn of_number(number: u8) -> Option<Code>
        ensures is { result ≡ code_of_number number }
        ensures found { IfSome result (λ code. code_number code ≡ number) }
        ensures only { (code : Code) → code_number code ≡ number → result ≡ Some code }
    {
        code_of(number)
    }
}

impl Cause {
    /// Its number, 41 to 45.
    pub fn number(self) -> u8
        ensures { result ≡ cause_number self }
    {
        match self {
            Cause::Held => 41,
            Cause::Frozen => 42,
            Cause::RequestsFull => 43,
            Cause::NotCompleted => 44,
            Cause::NothingToTake => 45,
        }
    }

    /// The cause whose number it is, or none.
    pub fn of_number(number: u8) -> Option<Cause>
        ensures is { result ≡ cause_of_number number }
        ensures found { IfSome result (λ cause. cause_number cause ≡ number) }
        ensures only { (cause : Cause) → cause_number cause ≡ number → result ≡ Some cause }
    {
        cause_of(number)
    }
}

// The code whose number it is, by cases.
#[tactic(auto, unfolding(crate::specs::Numbers::code_of_number))]
fn code_of(number: u8) -> Option<Code>
    ensures { result ≡ code_of_number number }
{
    match number {
        1 => Some(Code::BadSeat),
        2 => Some(Code::SeatTaken),
        3 => Some(Code::NoSession),
        4 => Some(Code::StaleSession),
        5 => Some(Code::NoGroup),
        6 => Some(Code::RootGroup),
        7 => Some(Code::BadWeight),
        8 => Some(Code::BadPrio),
        9 => Some(Code::TooDeep),
        10 => Some(Code::GroupsFull),
        11 => Some(Code::GroupInUse),
        12 => Some(Code::BadCount),
        13 => Some(Code::BadLength),
        14 => Some(Code::OutOfRange),
        15 => Some(Code::TooManyBios),
        16 => Some(Code::NothingOwed),
        17 => Some(Code::NothingQueued),
        18 => Some(Code::NoTag),
        19 => Some(Code::BadTag),
        20 => Some(Code::NotInFlight),
        21 => Some(Code::BadOutcome),
        22 => Some(Code::AlreadyFrozen),
        23 => Some(Code::NotFrozen),
        24 => Some(Code::NotDrained),
        25 => Some(Code::SameScheduler),
        26 => Some(Code::NoneInService),
        27 => Some(Code::VtimeFull),
        28 => Some(Code::NotHeld),
        29 => Some(Code::AlreadyHeld),
        30 => Some(Code::ZeroCount),
        31 => Some(Code::NothingToUndo),
        32 => Some(Code::NothingToRedo),
        33 => Some(Code::HistoryFull),
        34 => Some(Code::OutOfMemory),
        35 => Some(Code::BadWorker),
        0 | 36.. => None,
    }
}

// The cause whose number it is, by cases.
#[tactic(auto, unfolding(crate::specs::Numbers::cause_of_number))]
fn cause_of(number: u8) -> Option<Cause>
    ensures { result ≡ cause_of_number number }
{
    match number {
        41 => Some(Cause::Held),
        42 => Some(Cause::Frozen),
        43 => Some(Cause::RequestsFull),
        44 => Some(Cause::NotCompleted),
        45 => Some(Cause::NothingToTake),
        0..=40 | 46.. => None,
    }
}
