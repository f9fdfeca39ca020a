// A session over a keeper, and what came of it.
use crate::heard::Heard;
use failing_io::{Narrow, Pieces};
use history::Keeper;
use host_calls::ClientCall;
use plain::{Answer, Call, Reply, Why};
use sector_core::{Class, Config, ConfigDraft};
use session_proto::{EndCause, SessionEnd, serve};
use std::alloc::Global;
use std::test::Fail;

/// How many frames a session may have, where a test does not want fewer.
pub const LIMIT: u32 = 1_048_576;

/// How a session's reader, writer and host are.
#[derive(Clone, Copy, Debug, PartialEq, Eq)]
pub struct Setup {
    /// How many bytes a read gives at most, and the read that fails, or 0 for none.
    pub step: usize,
    pub fails_at: usize,
    /// How many bytes the writer takes in all, the write that fails, or 0 for none, and whether it takes nothing in place of failing.
    pub room: usize,
    pub write_fails_at: usize,
    pub is_silent: bool,
    /// How many frames the session may have, and how many calls the history holds.
    pub limit: u32,
    pub history: u64,
    /// Whether a session sits at the seat already, whether the host is held, and the call that finds it ended, or 0 for none.
    pub is_seated: bool,
    pub is_held: bool,
    pub closes_at: u32,
}

/// What a session came to.
#[derive(Clone, Copy, Debug, PartialEq, Eq)]
pub struct Outcome {
    pub why: EndCause,
    pub calls: u32,
    pub written: u64,
    /// What the Leave at its end was answered, as `told` tells it.
    pub left: u8,
    /// How many Leaves were asked, and the cause of the last.
    pub leaves: u32,
    pub cause: Option<Why>,
    /// How many calls were asked, and how many the keeper accepted.
    pub asked: u32,
    pub accepted: usize,
    /// How many reads were made.
    pub reads: usize,
}

/// Byte by byte, with all the room there is.
pub fn plain() -> Setup {
    Setup {
        step: 1,
        fails_at: 0,
        room: 65_536,
        write_fails_at: 0,
        is_silent: false,
        limit: LIMIT,
        history: 65_536,
        is_seated: false,
        is_held: false,
        closes_at: 0,
    }
}

/// The first bytes, so many of them.
pub fn front(bytes: &[u8], count: usize) -> &[u8] {
    match bytes.get(..count) {
        Some(front) => front,
        None => bytes,
    }
}

// The configuration of a draft. This has no clauses, so that nothing carries the limits of its numbers.
// A match costs a proof less than `?`, which makes a text of the fault.
pub fn checked(draft: ConfigDraft) -> Result<Config, Fail> {
    match Config::check(draft) {
        Ok(config) => Ok(config),
        Err(_) => Err(Fail::from("a configuration within its limits")),
    }
}

// A keeper of 1,024 sectors.
fn opened(alloc: Global, setup: &Setup) -> Result<Heard, Fail> {
    let draft = ConfigDraft {
        history_max: setup.history,
        ..ConfigDraft::default()
    };
    let mut keeper = Keeper::new(alloc, checked(draft)?, 1024)?;
    if setup.is_seated {
        let attach = ClientCall::Attach {
            group: 0,
            prio: 4,
            class: Class::BestEffort,
        };
        keeper.call(alloc, &attach.of_seat(0));
    }
    if setup.is_held {
        keeper.call(alloc, &Call::Hold);
    }
    Ok(Heard::of(keeper, setup.closes_at))
}

// 0 if the Leave was accepted, its number if it was refused or has to wait, and 99 if it was not answered.
fn told(left: &Option<Answer>) -> u8 {
    match left {
        Some(Answer::Accepted(Reply::Left)) => 0,
        Some(Answer::Accepted(_)) => 98,
        Some(Answer::Refused(code)) => code.number(),
        Some(Answer::NotYet(cause)) => cause.number(),
        None => 99,
    }
}

fn outcome_of(end: &SessionEnd, asker: &Heard, reads: usize) -> Outcome {
    Outcome {
        why: end.why,
        calls: end.calls,
        written: end.written,
        left: told(&end.left),
        leaves: asker.leaves,
        cause: asker.why,
        asked: asker.asked,
        accepted: asker.solo.0.journal_len(),
        reads,
    }
}

/// What comes of a session of these bytes, and what was written.
pub fn session(alloc: Global, bytes: &[u8], setup: &Setup) -> Result<(Outcome, Vec<u8>), Fail> {
    let mut asker = opened(alloc, setup)?;
    let mut reader = Pieces::of(bytes, setup.step);
    reader.fails_at = setup.fails_at;
    let mut writer = Narrow::new(alloc, setup.room);
    writer.is_silent = setup.is_silent;
    writer.fails_at = setup.write_fails_at;
    let end = serve(alloc, &mut reader, &mut writer, &mut asker, setup.limit);
    Ok((outcome_of(&end, &asker, reader.calls), writer.taken))
}
