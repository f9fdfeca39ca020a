// The calls of a script as one run.
use crate::digest::Digest;
use crate::prepared::{Prepared, is_lacking};
use crate::seen::{Seen, difference, look_at};
use crate::told::answer_number;
use crate::verdict::{Broken, Met, Mode, Verdict, breaks, ended};
use history::{Keeper, RunStop};
use plain::{Answer, Call};
use std::alloc::Global;

/// Makes the calls by [`Keeper::run`]. If that stops for want of memory, those that are left are made by another run.
pub fn run_calls(alloc: Global, mode: Mode, prepared: &mut Prepared) -> Verdict {
    ended(run_all(alloc, mode, prepared))
}

fn run_all(alloc: Global, mode: Mode, prepared: &mut Prepared) -> Result<Met, Broken> {
    let Prepared {
        calls,
        answers,
        looks,
        keeper,
        other,
        ..
    } = prepared;
    let mut met = Met::new();
    match keeper.run(alloc, calls.as_slice()) {
        Ok(made) => follow(
            alloc,
            mode,
            calls.as_slice(),
            made.as_slice(),
            other,
            &mut met,
        )?,
        Err(
            RunStop {
                answers: made,
                made: number,
            },
        ) => {
            met.note(mode)?;
            if number != made.len() {
                return breaks(
                    "a run that stops has made as many calls as it has answers",
                    "",
                );
            }
            if mode == Mode::Always {
                return Ok(met);
            }
            same_front(made.as_slice(), answers.as_slice())?;
            same_look(keeper, looks.get(number))?;
            let rest = calls.get(number..).unwrap_or(&[]);
            let Ok(others) = keeper.run(alloc, rest) else {
                return breaks("the calls that are left are made by another run", "");
            };
            same_front(others.as_slice(), answers.get(number..).unwrap_or(&[]))?;
            return same_look(keeper, looks.last()).map(|_| met);
        }
    }
    match difference(&look_at(&keeper.view()), &look_at(&other.view())) {
        Some(by) if mode == Mode::Once => breaks("a run is its calls, one after the other", by),
        _ => Ok(met),
    }
}

// Makes the calls of another keeper, but for those that found no memory, and compares the answers.
fn follow(
    alloc: Global,
    mode: Mode,
    calls: &[Call],
    made: &[Answer],
    other: &mut Keeper,
    met: &mut Met,
) -> Result<(), Broken> {
    if made.len() != calls.len() {
        return breaks("a run has an answer for each call", "");
    }
    for (call, answer) in calls.iter().zip(made) {
        if is_lacking(answer) {
            met.note(mode)?;
            continue;
        }
        if mode == Mode::Always {
            continue;
        }
        let mut wanted = other.call(alloc, call);
        if is_lacking(&wanted) {
            // The one refusal may come here, behind the run.
            met.note(mode)?;
            wanted = other.call(alloc, call);
        }
        if answer_number(&wanted) != answer_number(answer) {
            return breaks("a run is its calls, one after the other", "an answer");
        }
    }
    Ok(())
}

// Whether these answers are the first of those.
fn same_front(made: &[Answer], wanted: &[Digest]) -> Result<(), Broken> {
    for (answer, number) in made.iter().zip(wanted) {
        if answer_number(answer) != *number {
            return breaks("the answer is that of a run without a refusal", "");
        }
    }
    Ok(())
}

fn same_look(keeper: &Keeper, wanted: Option<&Seen>) -> Result<(), Broken> {
    let Some(wanted) = wanted else {
        return breaks("a run stops before its last call", "");
    };
    match difference(wanted, &look_at(&keeper.view())) {
        Some(by) => breaks("a run that stops leaves the keeper of its calls", by),
        None => Ok(()),
    }
}
