// The calls of a script, each made of a keeper while memory is refused.
use crate::digest::Digest;
use crate::prepared::{Prepared, is_accepted, is_lacking};
use crate::seen::{Seen, difference, look_at};
use crate::told::answer_number;
use crate::verdict::{Broken, Met, Mode, Verdict, breaks};
use history::{Keeper, KeeperView};
use plain::{Answer, Call, Step};
use std::alloc::Global;

// What is seen before a call; what that is answered with ample memory, and what is seen then.
#[derive(Clone, Copy)]
struct Wanted {
    before: Seen,
    answer: Digest,
    look: Seen,
}

/// Makes the calls one after the other. One that finds no memory is made again, if one request alone is refused.
pub fn make_calls(alloc: Global, mode: Mode, most: u32, prepared: &mut Prepared) -> Verdict {
    let Prepared {
        calls,
        answers,
        looks,
        keeper,
        ..
    } = prepared;
    let mut met = Met::new();
    let mut now = look_at(&keeper.view());
    for (at, call) in calls.iter().enumerate() {
        let (Some(answer), Some(look)) = (answers.get(at), looks.get(at.saturating_add(1))) else {
            return Verdict::BadWords;
        };
        let wanted = Wanted {
            before: now,
            answer: *answer,
            look: *look,
        };
        match make_call(alloc, mode, most, keeper, call, wanted, &mut met) {
            Ok(seen) => now = seen,
            Err(fault) => return Verdict::Broken(fault, at.saturating_add(1)),
        }
    }
    match undo_all(alloc, mode, most, keeper, looks.first(), &mut met) {
        Ok(()) => Verdict::Kept(met),
        Err(fault) => Verdict::Broken(fault, calls.len().saturating_add(1)),
    }
}

// Makes a call, and compares the answer and the keeper. Gives what is seen then.
fn make_call(
    alloc: Global,
    mode: Mode,
    most: u32,
    keeper: &mut Keeper,
    call: &Call,
    wanted: Wanted,
    met: &mut Met,
) -> Result<Seen, Broken> {
    let turns = keeper.view().machine().turns();
    let undoes = may_undo(&keeper.view(), most, call);
    let answer = keeper.call(alloc, call);
    if undoes && !is_accepted(&answer) {
        return breaks(
            "an Undo that may be made is accepted, whatever memory does",
            "",
        );
    }
    if !is_lacking(&answer) {
        return judge(keeper, &answer, wanted, *met, mode);
    }
    met.note(mode)?;
    if is_redo(call) && keeper.view().machine().turns() != turns {
        met.is_half_way = true;
    }
    unchanged(wanted.before, &keeper.view())?;
    if mode == Mode::Always {
        return Ok(wanted.before);
    }
    let then = keeper.view().machine().turns();
    let again = keeper.call(alloc, call);
    if is_lacking(&again) {
        return breaks("the same call, made again, is accepted", "");
    }
    let made = keeper.view().machine().turns().wrapping_sub(then);
    turned_back(call, then.wrapping_sub(turns), made)?;
    judge(keeper, &again, wanted, *met, mode)
}

// Whether a call that found no memory has made as many exchanges as it turned back, `turned` in all, where the call made again makes
// `made`. A Finish and a Redo may find none half way. Any other call finds none before its first exchange, or behind its last.
fn turned_back(call: &Call, turned: u64, made: u64) -> Result<(), Broken> {
    let twice = made.wrapping_mul(2);
    let is_so = match call {
        Call::Redo { .. } | Call::Do(Step::Finish { .. }) => turned % 2 == 0 && turned <= twice,
        _ => turned == 0 || turned == twice,
    };
    if is_so {
        return Ok(());
    }
    breaks(
        "a call that finds no memory turns back what it has made",
        "",
    )
}

// Whether an answer and the keeper are what they are with ample memory, or may be once calls were left out; and whether a call that was
// not accepted has changed nothing.
fn judge(
    keeper: &Keeper,
    answer: &Answer,
    wanted: Wanted,
    met: Met,
    mode: Mode,
) -> Result<Seen, Broken> {
    let now = look_at(&keeper.view());
    if !is_accepted(answer) {
        same(wanted.before, now)?;
    }
    if mode == Mode::Always && met.lacking > 0 {
        return Ok(now);
    }
    if answer_number(answer) != wanted.answer {
        return breaks("the answer is that of a run without a refusal", "");
    }
    match difference(&wanted.look, &now) {
        Some(by) => breaks("the keeper is that of a run without a refusal", by),
        None => Ok(now),
    }
}

/// Whether a keeper is as it was.
pub fn unchanged(before: Seen, view: &KeeperView<'_>) -> Result<(), Broken> {
    same(before, look_at(view))
}

fn same(before: Seen, now: Seen) -> Result<(), Broken> {
    match difference(&before, &now) {
        Some(by) => breaks("a call that is not accepted changes nothing", by),
        None => Ok(()),
    }
}

fn is_redo(call: &Call) -> bool {
    match call {
        Call::Redo { .. } => true,
        _ => false,
    }
}

// Whether a call is an Undo that may be made.
fn may_undo(view: &KeeperView<'_>, most: u32, call: &Call) -> bool {
    match call {
        Call::Undo { k } => {
            view.held() && *k > 0 && *k <= view.cursor() && view.journal_len() < most as usize
        }
        _ => false,
    }
}

// Holds the keeper, if it can be held, and undoes all steps.
fn undo_all(
    alloc: Global,
    mode: Mode,
    most: u32,
    keeper: &mut Keeper,
    opening: Option<&Seen>,
    met: &mut Met,
) -> Result<(), Broken> {
    if !hold(alloc, mode, keeper, met)? {
        return Ok(());
    }
    let undo = Call::Undo {
        k: keeper.view().cursor(),
    };
    if !may_undo(&keeper.view(), most, &undo) {
        return Ok(());
    }
    if !is_accepted(&keeper.call(alloc, &undo)) {
        return breaks(
            "an Undo that may be made is accepted, whatever memory does",
            "",
        );
    }
    match opening {
        Some(opening) if !is_machine_of(opening, &look_at(&keeper.view())) => {
            breaks(
                "an Undo of all steps leaves the machine before the first",
                "",
            )
        }
        _ => Ok(()),
    }
}

// Whether a keeper is held now.
fn hold(alloc: Global, mode: Mode, keeper: &mut Keeper, met: &mut Met) -> Result<bool, Broken> {
    if keeper.view().held() {
        return Ok(true);
    }
    if is_lacking(&keeper.call(alloc, &Call::Hold)) {
        met.note(mode)?;
        if is_lacking(&keeper.call(alloc, &Call::Hold)) {
            met.note(mode)?;
        }
    }
    Ok(keeper.view().held())
}

// Whether two looks show one machine.
fn is_machine_of(one: &Seen, other: &Seen) -> bool {
    let line = Seen {
        queues: one.queues,
        requeued: one.requeued,
        flight: one.flight,
        outboxes: one.outboxes,
        overlay: one.overlay,
        entities: one.entities,
        modes: one.modes,
        ..*other
    };
    difference(&line, other).is_none()
}
