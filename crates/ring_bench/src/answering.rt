// A core that answers each call at once.
ghost use Rattle.std.specs.Prelude.{◌≡◌, length};
ghost use Rattle.host_calls.specs.Frames.{ResultHasFrame};
ghost use Rattle.host_core.specs.Rules.{IsForClients};
ghost use Rattle.host_calls.specs.declared.ring.RingReply.TheVariants.{Answer as Answered};

use bytes::Bytes;
use host_calls::ClientCall;
use host_core::{Asked, Bell, ClientReplies, Desk, IDLE_TURNS, Patience};
use plain::{Answer, Call, Code, Reply, Step};
use sector_core::BioResult;
use std::sync::Wait;

// What a read gives: 8 sectors.
const ZEROS: [u8; 4096] = [0; 4096];

/// Answers each call of the seats at once, and never ends. It waits as the core of a host does.
pub fn answer_all<R: Wait>(
    rt: &R,
    bell: &Bell,
    mut desks: Vec<Desk<ClientCall, ClientReplies>>,
    writes: bool,
) {
    let mut patience = Patience::new(IDLE_TURNS);
    for _ in rt.forever() {
        let mut is_idle = true;
        for at in 0..desks.len() {
            if visit(&mut desks[at], writes) {
                is_idle = false;
            }
        }
        if is_idle {
            patience.rest(rt, bell);
        } else {
            patience.found();
        }
    }
}

// Whether a call was answered.
fn visit(desk: &mut Desk<ClientCall, ClientReplies>, writes: bool) -> bool {
    desk.take();
    if desk.is_closed() {
        return false;
    }
    let answer = match desk.waiting() {
        Some(asked) => answer_to(asked, writes),
        None => return false,
    };
    desk.answer(answer);
    true
}

// The fixed answer to a call of this kind.
fn answer_to(asked: &Asked, writes: bool) -> Answer
    ensures { IsForClients (Answered result) }
{
    match asked {
        Asked::Ask(Call::Do(Step::Attach { .. })) => {
            Answer::Accepted(Reply::Attached { session: 1 })
        }
        Asked::Ask(Call::Do(Step::Submit { .. })) => Answer::Accepted(Reply::Queued { bio: 2 }),
        Asked::Ask(Call::Do(Step::Reap { .. })) => {
            let result = if writes { BioResult::Written } else { read() };
            Answer::Accepted(Reply::Completed { bio: 2, result })
        }
        Asked::Ask(Call::Do(Step::Leave { .. })) => Answer::Accepted(Reply::Left),
        _ => Answer::Refused(Code::NoSession),
    }
}

// What a read gives.
fn read() -> BioResult
    ensures { ResultHasFrame result }
{
    BioResult::Read(zeros())
}

fn zeros() -> Bytes
    ensures { length result ≡ 4096 }
{
    Bytes::from_static(&ZEROS)
}
