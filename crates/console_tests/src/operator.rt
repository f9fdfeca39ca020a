// The operator's calls, read from words.
use host_calls::OperatorCall;
use operator_words::{WordFault, words_to_call};
use sector_core::Scheduler;
use std::alloc::{AllocError, Global};
use std::test::Fail;

// The words of a line, which single spaces part.
fn words_of<'a>(alloc: Global, line: &'a str) -> Result<Vec<&'a str>, AllocError> {
    let mut words = Vec::new(alloc);
    for word in line.split(' ') {
        words.push(word)?;
    }
    Ok(words)
}

// Each call, by its words.
const CALLS: [(&str, OperatorCall); 16] = [
    (
        "group-make 0 200",
        OperatorCall::GroupMake {
            parent: 0,
            weight: 200,
        },
    ),
    (
        "group-make 255 65535",
        OperatorCall::GroupMake {
            parent: 255,
            weight: 65535,
        },
    ),
    ("group-drop 31", OperatorCall::GroupDrop { group: 31 }),
    (
        "set-weight 1 7",
        OperatorCall::SetWeight {
            group: 1,
            weight: 7,
        },
    ),
    ("freeze", OperatorCall::Freeze),
    ("thaw", OperatorCall::Thaw),
    (
        "switch none",
        OperatorCall::Switch {
            scheduler: Scheduler::Plain,
        },
    ),
    (
        "switch bfq",
        OperatorCall::Switch {
            scheduler: Scheduler::Bfq,
        },
    ),
    ("tick", OperatorCall::Tick),
    ("hold", OperatorCall::Hold),
    ("release", OperatorCall::Release),
    ("undo 2", OperatorCall::Undo { k: 2 }),
    ("undo 4294967295", OperatorCall::Undo { k: u32::MAX }),
    ("redo 0", OperatorCall::Redo { k: 0 }),
    ("redo 10", OperatorCall::Redo { k: 10 }),
    ("stop", OperatorCall::Stop),
];

#[test]
fn words_of_each_call(rt: HostRuntime) -> Result<(), Fail> {
    for (line, call) in CALLS {
        let words = words_of(rt.alloc(), line)?;
        assert_eq!(rt; words_to_call(words.as_slice()), Ok(call), "{line}");
    }
    Ok(())
}

// Words of no call. The first line is one empty word.
const OTHERS: &str = "
undo
undo x
undo 02
undo +2
undo -2
undo 4294967296
undo 2 3
undo 2 3 4
undo  2
thaw now
THAW
freez
switch
switch cfq
switch bfq none
group-make 1
group-make 256 1
group-make 1 65536
group-drop
set-weight 0 1 2
stop 0
attach 0 0 4";

#[test]
fn words_of_no_call(rt: HostRuntime) -> Result<(), Fail> {
    assert_eq!(rt; words_to_call(&[]), Err(WordFault::Usage), "no words");
    for line in OTHERS.lines() {
        let words = words_of(rt.alloc(), line)?;
        assert_eq!(rt;
            words_to_call(words.as_slice()),
            Err(WordFault::Usage),
            "{line}"
        );
    }
    Ok(())
}
