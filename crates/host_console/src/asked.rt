// The calls that lines make.
ghost use Rattle.std.specs.Prelude.{◌≡◌, Ok, Some, IfOk};
ghost use Rattle.host_console.specs.Printed.{asked};

use crate::group::{make, unmake, weigh};
use crate::source::bytes_from;
use crate::steps::{attach, freeze, leave, requeue, switch, thaw, tick};
use crate::submit::{discard, fetch, store, store_of};
use bytes::Bytes;
use plain::{Call, Step};
use script_line::Line;
use sector_core::{Class, OutOfMemory};
use std::alloc::Global;

/// The call that a line makes over a payload, whatever the keeper is. There is none where the line asks the keeper or the device first,
/// or only looks, or asks for bytes that the payload has not. Each line asks here once, and a call is wide: where it is made it need not
/// be moved.
#[inline(always)]
pub fn call_of(
    alloc: Global,
    line: Line,
    payload: &Option<Bytes>,
) -> Result<Option<Call>, OutOfMemory>
    ensures { IfOk result (λ call. call ≡ asked payload.now line) }
{
    match line {
        Line::Attach { seat, group, prio } => done(attach(seat, group, prio, Class::BestEffort)),
        Line::ClassAttach {
            seat,
            group,
            prio,
            class,
        } => done(attach(seat, group, prio, class)),
        Line::Read {
            seat,
            session,
            start,
            count,
        } => done(fetch(seat, session, start, count)),
        Line::Write {
            seat,
            session,
            start,
            count,
            byte,
        } => done(store(alloc, seat, session, start, count, byte)?),
        Line::WriteFrom {
            seat,
            session,
            start,
            count,
            from,
        } => match bytes_from(payload, from, count)? {
            Some(bytes) => done(store_of(seat, session, start, count, bytes)),
            None => Ok(None),
        },
        Line::Discard {
            seat,
            session,
            start,
            count,
        } => done(discard(seat, session, start, count)),
        Line::Reap { seat, session } => done(Step::Reap { seat, session }),
        Line::Leave { seat } => done(leave(seat)),
        Line::Dispatch => done(Step::Dispatch),
        Line::Requeue { tag, issue } => done(requeue(tag, issue)),
        Line::Hold => Ok(Some(Call::Hold)),
        Line::Release => Ok(Some(Call::Release)),
        Line::Undo { k } => Ok(Some(Call::Undo { k })),
        Line::Redo { k } => Ok(Some(Call::Redo { k })),
        Line::Group { parent, weight } => done(make(parent, weight)),
        Line::Drop { group } => done(unmake(group)),
        Line::Weight { group, weight } => done(weigh(group, weight)),
        Line::Freeze => done(freeze()),
        Line::Thaw => done(thaw()),
        Line::Switch { scheduler } => done(switch(scheduler)),
        Line::Tick => done(tick()),
        Line::Finish { .. } => Ok(None),
        Line::Work { .. } => Ok(None),
        Line::Sector { .. } => Ok(None),
        Line::Queue { .. } => Ok(None),
        Line::Cursor => Ok(None),
        Line::Vtime { .. } => Ok(None),
        Line::ClassVtime { .. } => Ok(None),
        Line::Entity { .. } => Ok(None),
        Line::Class { .. } => Ok(None),
        Line::Show { .. } => Ok(None),
    }
}

// The call that makes a step.
fn done(step: Step) -> Result<Option<Call>, OutOfMemory>
    ensures { result ≡ Ok (Some (Call.Do step)) }
{
    Ok(Some(Call::Do(step)))
}
