// A step as a line of a script spells it.
ghost use Rattle.std.specs.Prelude.{◌≡◌, ◌++◌, Some, OnOk};
ghost use Rattle.sector_text.specs.Hex.{all_are};
ghost use Rattle.host_console.specs.Views.{scheduler_text};
ghost use Rattle.host_console.specs.Looks.{fill_text, outcome_text, class_end, line_text, step_look, IsSetting};

use dispatch_core::Step;
use history::StampedStep;
use sector_core::{Class, FailKind, Op, Outcome, Range, Scheduler};
use std::io::{self, Write};

/// Appends a step of the line under its number. It fails only for want of memory.
pub fn put_numbered(number: u32, stamped: &StampedStep<'_>, out: &mut Vec<u8>) -> io::Result<()>
    ensures { OnOk result (out.new.items ≡ out.old.items ++ step_look number (Some stamped.now)) }
{
    let serial = stamped.serial();
    write!(out, "step {number} {serial} ")?;
    put_step(stamped.step(), out)
}

/// Appends the line of a step: bytes that are not all alike are two dots. It fails only for want of memory.
pub fn put_step(step: &Step, out: &mut Vec<u8>) -> io::Result<()>
    ensures { OnOk result (out.new.items ≡ out.old.items ++ line_text step.now) }
{
    match step {
        Step::Attach {
            seat,
            group,
            prio,
            class,
        } => {
            let end = class_end(*class);
            write!(out, "attach {seat} {group} {prio}{end}")
        }
        Step::Submit {
            seat,
            session,
            op,
            range,
            payload,
        } => put_submit(*seat, *session, *op, *range, payload.as_slice(), out),
        Step::Reap { seat, session } => write!(out, "reap {seat} {session}"),
        Step::Leave { seat, .. } => write!(out, "leave {seat}"),
        Step::Dispatch => write!(out, "dispatch"),
        Step::Finish {
            tag,
            issue,
            outcome,
        } => {
            write!(out, "finish {tag} {issue} ")?;
            put_outcome(outcome, out)
        }
        Step::Requeue { tag, issue } => write!(out, "requeue {tag} {issue}"),
        _ => put_setting(step, out),
    }
}

// What follows the numbers of an `attach` line: the class, if it is not best effort.
fn class_end(class: Class) -> &'static str
    ensures { result.now ≡ class_end class }
{
    match class {
        Class::RealTime => " rt",
        Class::BestEffort => "",
        Class::Idle => " idle",
    }
}

// Appends the line of a step of the operator, or of the clock.
fn put_setting(step: &Step, out: &mut Vec<u8>) -> io::Result<()>
    requires { IsSetting step.now }
    ensures { OnOk result (out.new.items ≡ out.old.items ++ line_text step.now) }
{
    match step {
        Step::GroupMake { parent, weight } => write!(out, "group {parent} {weight}"),
        Step::GroupDrop { group } => write!(out, "drop {group}"),
        Step::SetWeight { group, weight } => write!(out, "weight {group} {weight}"),
        Step::Freeze => write!(out, "freeze"),
        Step::Thaw => write!(out, "thaw"),
        Step::Switch { scheduler } => {
            let word = scheduler_word(*scheduler);
            write!(out, "switch {word}")
        }
        Step::Tick => write!(out, "tick"),
        _ => unreachable!(),
    }
}

// Appends a read, a write or a discard.
fn put_submit(
    seat: u8,
    session: u64,
    op: Op,
    range: Range,
    payload: &[u8],
    out: &mut Vec<u8>,
) -> io::Result<()>
    ensures { OnOk result (out.new.items ≡ out.old.items ++ line_text (Step.Submit seat session op range payload.now)) }
{
    let Range { start, count } = range;
    match op {
        Op::Fetch => write!(out, "read {seat} {session} {start} {count}"),
        Op::Store => {
            write!(out, "write {seat} {session} {start} {count} ")?;
            put_fill(payload, out)
        }
        Op::Discard => write!(out, "discard {seat} {session} {start} {count}"),
    }
}

// Appends how the device ended a request.
fn put_outcome(outcome: &Outcome, out: &mut Vec<u8>) -> io::Result<()>
    ensures { OnOk result (out.new.items ≡ out.old.items ++ outcome_text outcome.now) }
{
    match outcome {
        Outcome::Fetched(bytes) => {
            write!(out, "fill ")?;
            put_fill(bytes.as_slice(), out)
        }
        Outcome::Stored => write!(out, "stored"),
        Outcome::Failed(FailKind::Short) => write!(out, "short"),
        Outcome::Failed(FailKind::Fault) => write!(out, "fault"),
    }
}

// Appends the byte that all of these are, or that they are not alike.
fn put_fill(bytes: &[u8], out: &mut Vec<u8>) -> io::Result<()>
    ensures { OnOk result (out.new.items ≡ out.old.items ++ fill_text bytes.now) }
{
    match bytes.split_first() {
        Some((byte, others)) if are_all(others, *byte) => write!(out, "{byte}"),
        _ => write!(out, ".."),
    }
}

// Whether all of these are this byte.
fn are_all(bytes: &[u8], byte: u8) -> bool
    ensures { result ≡ all_are byte bytes.now }
{
    let mut same = true;
    for other in bytes {
        same &= *other == byte;
    }
    same
}

/// The word for a scheduler.
pub fn scheduler_word(scheduler: Scheduler) -> &'static str
    ensures { result.now ≡ scheduler_text scheduler }
{
    match scheduler {
        Scheduler::Plain => "none",
        Scheduler::Bfq => "bfq",
    }
}
