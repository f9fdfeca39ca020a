// Calls and answers, each told apart from every other by a digest.
use crate::digest::Digest;
use plain::{Answer, Call, Reply, Step, Why, Work};
use sector_core::{Class, Scheduler};

/// Adds a call.
pub fn add_call(to: &mut Digest, call: &Call) {
    match call {
        Call::Do(step) => {
            to.add(1);
            add_step(to, step);
        }
        Call::Hold => to.add(2),
        Call::Release => to.add(3),
        Call::Undo { k } => add_numbers(to, &[4, u64::from(*k)]),
        Call::Redo { k } => add_numbers(to, &[5, u64::from(*k)]),
    }
}

/// Adds a step. Its bytes are never changed, and a line has many, so some of them are taken.
pub fn add_step(to: &mut Digest, step: &Step) {
    match step {
        Step::Submit {
            seat,
            session,
            op,
            range,
            payload,
        } => {
            add_numbers(to, &[1, u64::from(*seat), *session]);
            to.add_op(*op);
            to.add_range(*range);
            to.add_some_bytes(payload.as_slice());
        }
        Step::Finish {
            tag,
            issue,
            outcome,
        } => {
            add_numbers(to, &[2, u64::from(*tag), *issue]);
            to.add_outcome(outcome);
        }
        _ => add_numbers(to, &numbers_of(step)),
    }
}

// A step that is numbers alone.
fn numbers_of(step: &Step) -> [u64; 5] {
    match step {
        Step::Attach {
            seat,
            group,
            prio,
            class,
        } => [
            3,
            u64::from(*seat),
            u64::from(*group),
            u64::from(*prio),
            class_number(*class),
        ],
        Step::Reap { seat, session } => [4, u64::from(*seat), *session, 0, 0],
        Step::Leave { seat, why } => [5, u64::from(*seat), why_number(*why), 0, 0],
        Step::Dispatch => [6, 0, 0, 0, 0],
        Step::Requeue { tag, issue } => [7, u64::from(*tag), *issue, 0, 0],
        Step::GroupMake { parent, weight } => [8, u64::from(*parent), u64::from(*weight), 0, 0],
        Step::GroupDrop { group } => [9, u64::from(*group), 0, 0, 0],
        Step::SetWeight { group, weight } => [10, u64::from(*group), u64::from(*weight), 0, 0],
        Step::Freeze => [11, 0, 0, 0, 0],
        Step::Thaw => [12, 0, 0, 0, 0],
        Step::Switch { scheduler } => [13, scheduler_number(*scheduler), 0, 0, 0],
        Step::Tick => [14, 0, 0, 0, 0],
        // These have bytes, too.
        Step::Submit { .. } => [1, 0, 0, 0, 0],
        Step::Finish { .. } => [2, 0, 0, 0, 0],
    }
}

/// Adds an answer.
pub fn add_answer(to: &mut Digest, answer: &Answer) {
    match answer {
        Answer::Accepted(reply) => {
            to.add(1);
            add_reply(to, reply);
        }
        Answer::Refused(code) => add_numbers(to, &[2, u64::from(code.number())]),
        Answer::NotYet(cause) => add_numbers(to, &[3, u64::from(cause.number())]),
    }
}

fn add_reply(to: &mut Digest, reply: &Reply) {
    match reply {
        Reply::Attached { session } => add_numbers(to, &[1, *session]),
        Reply::Queued { bio } => add_numbers(to, &[2, *bio]),
        Reply::Completed { bio, result } => {
            add_numbers(to, &[3, *bio]);
            to.add_result(result);
        }
        Reply::Left => to.add(4),
        Reply::Issued {
            tag,
            issue,
            op,
            range,
        } => add_work(
            to,
            Work {
                tag: *tag,
                issue: *issue,
                op: *op,
                range: *range,
            },
        ),
        Reply::Finished { bios } => add_numbers(to, &[6, u64::from(*bios)]),
        Reply::Requeued => to.add(7),
        Reply::Group { number } => add_numbers(to, &[8, u64::from(*number)]),
        Reply::Done => to.add(9),
        Reply::Moved { cursor, length } => {
            add_numbers(to, &[10, u64::from(*cursor), u64::from(*length)])
        }
        Reply::Taken(work) => {
            to.add(11);
            add_work(to, *work);
        }
    }
}

/// Adds what a request in flight asks for.
pub fn add_work(to: &mut Digest, work: Work) {
    add_numbers(to, &[5, u64::from(work.tag), work.issue]);
    to.add_op(work.op);
    to.add_range(work.range);
}

/// Adds numbers, and how many there are.
pub fn add_numbers(to: &mut Digest, numbers: &[u64]) {
    to.add(numbers.len() as u64);
    for number in numbers {
        to.add(*number);
    }
}

/// A class as a number.
pub fn class_number(class: Class) -> u64 {
    match class {
        Class::RealTime => 0,
        Class::BestEffort => 1,
        Class::Idle => 2,
    }
}

/// A scheduler as a number.
pub fn scheduler_number(scheduler: Scheduler) -> u64 {
    match scheduler {
        Scheduler::Plain => 0,
        Scheduler::Bfq => 1,
    }
}

fn why_number(why: Why) -> u64 {
    match why {
        Why::Ended => 0,
        Why::ReadFault => 1,
        Why::WriteFault => 2,
        Why::BadFrame => 3,
        Why::FrameLimit => 4,
    }
}

/// An answer as one number.
pub fn answer_number(answer: &Answer) -> Digest {
    let mut digest = Digest::new();
    add_answer(&mut digest, answer);
    digest
}
