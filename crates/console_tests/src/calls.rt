// Calls made one after the other, with no script.
use crate::host::opened;
use bytes::Bytes;
use history::RunStop;
use host_console::put_answer;
use plain::{Call, Step};
use sector_core::{Class, Op, Outcome, Range};
use std::alloc::Global;
use std::test::Fail;

// The answers of a new keeper to these calls, as they are printed, each on a line.
fn printed(alloc: Global, calls: &[Call]) -> Result<Vec<u8>, Fail> {
    let mut keeper = opened(alloc, 1024)?;
    let answers = match keeper.run(alloc, calls) {
        Ok(answers) => answers,
        Err(RunStop { .. }) => return Err(Fail::from("memory for each answer")),
    };
    let mut printed = Vec::new(alloc);
    for answer in answers.iter() {
        put_answer(answer, &mut printed)?;
        printed.push(b'\n')?;
    }
    Ok(printed)
}

fn dispatch() -> Call {
    Call::Do(Step::Dispatch)
}

fn stored(issue: u64) -> Call {
    let outcome = Outcome::Stored;
    Call::Do(Step::Finish {
        tag: 0,
        issue,
        outcome,
    })
}

fn write() -> Call {
    Call::Do(Step::Submit {
        seat: 0,
        session: 1,
        op: Op::Store,
        range: Range { start: 0, count: 1 },
        payload: Bytes::from_static(&[7; 512]),
    })
}

#[test]
fn no_calls(rt: HostRuntime) -> Result<(), Fail> {
    let none = printed(rt.alloc(), &[])?;
    assert!(rt; none.is_empty());
    Ok(())
}

#[test]
fn stale_finish_after_undo(rt: HostRuntime) -> Result<(), Fail> {
    let calls = [
        Call::Do(Step::Attach {
            seat: 0,
            group: 0,
            prio: 4,
            class: Class::BestEffort,
        }),
        write(),
        dispatch(),
        Call::Hold,
        stored(3),
        Call::Undo { k: 1 },
        Call::Release,
        dispatch(),
        stored(3),
        stored(4),
    ];
    let text = b"attached 1
queued 2
issued 0 3 store 0 1
moved 3 3
notyet 41
moved 2 3
done
issued 0 4 store 0 1
refused 20
finished 1
";
    let seen = printed(rt.alloc(), calls.as_slice())?;
    assert_eq!(rt; seen.as_slice(), text.as_slice());
    Ok(())
}
