// The keeper in examples: its calls are proved, and these say what they mean, and that a call succeeds while memory is left.
use crate::host::checked;
use bytes::Bytes;
use dispatch_core::{Answer, Cause, Code, Reply, SectorView, Step};
use history::{Call, Keeper};
use plain_laws::{redo_gives_back, two_undos_are_one};
use sector_core::{Class, ConfigDraft, Op, Outcome, Range};
use std::alloc::Global;
use std::process::Abort;
use std::test::Fail;

const ONE: Range = Range { start: 5, count: 1 };

// A call in short: the first session sits at seat 0.
#[derive(Clone, Copy, Debug, PartialEq, Eq)]
enum Act {
    Attach(u8),
    Store,
    Dispatch,
    Finish(u64),
    Hold,
    Release,
    Undo(u32),
    Redo(u32),
}

// What a keeper is called with, or shows, together with what comes of it.
#[derive(Clone, Copy, Debug, PartialEq, Eq)]
enum Told {
    // A call and its answer: the number of what was accepted, or of a refusal after 100, or of a wait after 200. And then the
    // cursor, the length of the line, and whether the block is stored.
    Call(Act, u64, (u32, u32, bool)),
    LastSerial(u64),
    Held(bool),
    IsInFlight(bool),
    Outbox(usize),
    // How many exchanges were made, and how long the journal is.
    Turns(u64),
    Journal(usize),
}

// What was answered.
fn number_of(answer: &Answer) -> u64 {
    match answer {
        Answer::Accepted(Reply::Attached { session }) => *session,
        Answer::Accepted(Reply::Queued { bio }) => *bio,
        Answer::Accepted(Reply::Completed { bio, .. }) => *bio,
        Answer::Accepted(Reply::Issued { issue, .. }) => *issue,
        Answer::Accepted(Reply::Finished { bios }) => *bios as u64,
        Answer::Accepted(Reply::Moved { cursor, length }) => *cursor as u64 * 10 + *length as u64,
        Answer::Accepted(_) => 0,
        Answer::Refused(code) => refused(*code),
        Answer::NotYet(cause) => 200 + cause.number() as u64,
    }
}

// A keeper before its first call. No function here has clauses, so that no test carries what is promised.
fn opened(alloc: Global, draft: ConfigDraft) -> Result<Keeper, Fail> {
    Ok(Keeper::new(alloc, checked(draft)?, 8)?)
}

fn refused(code: Code) -> u64 {
    100 + code.number() as u64
}

fn call_of(act: Act) -> Call {
    match act {
        Act::Attach(seat) => Call::Do(Step::Attach {
            seat,
            group: 0,
            prio: 4,
            class: Class::BestEffort,
        }),
        Act::Store => Call::Do(Step::Submit {
            seat: 0,
            session: 1,
            op: Op::Store,
            range: ONE,
            payload: Bytes::from_static(&[65; 512]),
        }),
        Act::Dispatch => Call::Do(Step::Dispatch),
        Act::Finish(issue) => Call::Do(Step::Finish {
            tag: 0,
            issue,
            outcome: Outcome::Stored,
        }),
        Act::Hold => Call::Hold,
        Act::Release => Call::Release,
        Act::Undo(k) => Call::Undo { k },
        Act::Redo(k) => Call::Redo { k },
    }
}

fn is_stored(keeper: &Keeper) -> bool {
    match keeper.view().machine().sector(5) {
        SectorView::Outside => false,
        SectorView::Base => false,
        SectorView::Stored(_) => true,
    }
}

// The cursor, the length of the line, and whether the block is stored.
fn line_of(keeper: &Keeper) -> (u32, u32, bool) {
    let view = keeper.view();
    (view.cursor(), view.length(), is_stored(keeper))
}

// Does that again, and tells what came of it.
fn again(keeper: &mut Keeper, alloc: Global, told: Told) -> Told {
    match told {
        Told::Call(act, ..) => {
            let answer = number_of(&keeper.call(alloc, &call_of(act)));
            Told::Call(act, answer, line_of(keeper))
        }
        Told::LastSerial(_) => Told::LastSerial(keeper.view().last_serial()),
        Told::Held(_) => Told::Held(keeper.view().held()),
        Told::IsInFlight(_) => Told::IsInFlight(keeper.view().machine().in_flight(0).is_some()),
        Told::Outbox(_) => Told::Outbox(keeper.view().machine().outbox_len(0)),
        Told::Turns(_) => Told::Turns(keeper.view().machine().turns()),
        Told::Journal(_) => Told::Journal(keeper.journal_len()),
    }
}

// All of that comes again at a new keeper of this draft, in this order.
fn expect(rt: &(impl Abort + AllocGlobal), draft: ConfigDraft, all: &[Told]) -> Result<(), Fail> {
    let mut keeper = opened(rt.alloc(), draft)?;
    for told in all {
        assert_eq!(rt; again(&mut keeper, rt.alloc(), *told), *told);
    }
    Ok(())
}

// A store is undone and redone; then its dispatch is undone, and another one made, whose serial is new. After each call it is
// told where the line stands.
#[test]
fn undone_and_redone(rt: HostRuntime) -> Result<(), Fail> {
    let held = 200 + Cause::Held.number() as u64;
    let all = [
        Told::Call(Act::Attach(0), 1, (1, 1, false)),
        Told::Call(Act::Store, 2, (2, 2, false)),
        Told::Call(Act::Dispatch, 3, (3, 3, false)),
        Told::Call(Act::Finish(3), 1, (4, 4, true)),
        Told::Call(Act::Release, refused(Code::NotHeld), (4, 4, true)),
        Told::Call(Act::Hold, 44, (4, 4, true)),
        Told::Call(Act::Hold, refused(Code::AlreadyHeld), (4, 4, true)),
        Told::Call(Act::Attach(1), held, (4, 4, true)),
        Told::Call(Act::Undo(0), refused(Code::ZeroCount), (4, 4, true)),
        Told::Call(Act::Undo(5), refused(Code::NothingToUndo), (4, 4, true)),
        Told::Call(Act::Undo(1), 34, (3, 4, false)),
        Told::Call(Act::Redo(1), 44, (4, 4, true)),
        Told::Call(Act::Redo(1), refused(Code::NothingToRedo), (4, 4, true)),
        // Another future: the two last steps are cut off by the next one.
        Told::Call(Act::Undo(2), 24, (2, 4, false)),
        Told::Call(Act::Release, 0, (2, 4, false)),
        Told::Call(Act::Dispatch, 5, (3, 3, false)),
        Told::Call(Act::Finish(3), refused(Code::NotInFlight), (3, 3, false)),
        Told::LastSerial(5),
        Told::Held(false),
        Told::IsInFlight(true),
        Told::Outbox(0),
        // The steps make 6, 5, 10 and 5 exchanges, the Undo and the Redo of one step 5 each, the Undo of two 15, the Dispatch 10.
        Told::Turns(61),
        // Four steps, a hold, an undo, a redo, an undo, a release and a step.
        Told::Journal(10),
    ];
    expect(&rt, ConfigDraft::default(), &all)
}

fn calls_of(alloc: Global, acts: &[Act]) -> Result<Vec<Call>, Fail> {
    let mut calls = Vec::new(alloc);
    for act in acts {
        calls.push(call_of(*act))?;
    }
    Ok(calls)
}

fn numbers_of(alloc: Global, answers: &[Answer]) -> Result<Vec<u64>, Fail> {
    let mut numbers = Vec::new(alloc);
    for answer in answers {
        numbers.push(number_of(answer))?;
    }
    Ok(numbers)
}

// What these calls, made in one run, are answered.
fn run(keeper: &mut Keeper, alloc: Global, acts: &[Act]) -> Result<Vec<u64>, Fail> {
    let calls = calls_of(alloc, acts)?;
    match keeper.run(alloc, calls.as_slice()) {
        Ok(answers) => numbers_of(alloc, answers.as_slice()),
        Err(_) => Err(Fail::from("memory for each answer")),
    }
}

// A run of no calls, and then one of these: what they are answered.
fn runs(alloc: Global, acts: &[Act]) -> Result<(Vec<u64>, Vec<u64>), Fail> {
    let mut keeper = opened(alloc, ConfigDraft::default())?;
    let none = run(&mut keeper, alloc, &[])?;
    let all = run(&mut keeper, alloc, acts)?;
    Ok((none, all))
}

#[test]
fn run_of_calls(rt: HostRuntime) -> Result<(), Fail> {
    let calls = [Act::Attach(0), Act::Attach(0), Act::Store, Act::Hold];
    let wanted = [1, refused(Code::SeatTaken), 2, 22];
    let (none, all) = runs(rt.alloc(), &calls)?;
    assert_eq!(rt; none.len(), 0);
    assert_eq!(rt; all.as_slice(), wanted.as_slice());
    Ok(())
}

// A history for one call: the next is refused, and an Undo too.
#[test]
fn full_history(rt: HostRuntime) -> Result<(), Fail> {
    let mut draft = ConfigDraft::default();
    draft.history_max = 2;
    let all = [
        Told::Call(Act::Attach(0), 1, (1, 1, false)),
        Told::Call(Act::Hold, 11, (1, 1, false)),
        Told::Call(Act::Undo(1), refused(Code::HistoryFull), (1, 1, false)),
        Told::Call(Act::Release, refused(Code::HistoryFull), (1, 1, false)),
    ];
    two_undos_are_one(1, 2);
    redo_gives_back(1);
    expect(&rt, draft, &all)
}
