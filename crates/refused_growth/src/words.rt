// The operator's words.
use crate::verdict::{Broken, Met, Verdict};
use host_calls::OperatorCall;
use operator_words::words_to_call;
use sector_core::Scheduler;

/// Each command, read from its words. None takes memory.
pub fn words_row() -> Verdict {
    if with_words() && without_words() {
        Verdict::Kept(Met::new())
    } else {
        let fault = Broken {
            promise: "words are read, whatever memory does",
            by: "",
        };
        Verdict::Broken(fault, 0)
    }
}

fn is_read(words: &[&str], wanted: OperatorCall) -> bool {
    match words_to_call(words) {
        Ok(call) => call == wanted,
        Err(_) => false,
    }
}

fn with_words() -> bool {
    let make = OperatorCall::GroupMake {
        parent: 0,
        weight: 100,
    };
    let weigh = OperatorCall::SetWeight {
        group: 1,
        weight: 200,
    };
    let switch = OperatorCall::Switch {
        scheduler: Scheduler::Plain,
    };
    is_read(&["group-make", "0", "100"], make)
        && is_read(&["group-drop", "1"], OperatorCall::GroupDrop { group: 1 })
        && is_read(&["set-weight", "1", "200"], weigh)
        && is_read(&["switch", "none"], switch)
        && is_read(&["undo", "2"], OperatorCall::Undo { k: 2 })
        && is_read(&["redo", "2"], OperatorCall::Redo { k: 2 })
        && words_to_call(&["undo", "x"]).is_err()
}

fn without_words() -> bool {
    is_read(&["freeze"], OperatorCall::Freeze)
        && is_read(&["thaw"], OperatorCall::Thaw)
        && is_read(&["tick"], OperatorCall::Tick)
        && is_read(&["hold"], OperatorCall::Hold)
        && is_read(&["release"], OperatorCall::Release)
        && is_read(&["stop"], OperatorCall::Stop)
}
