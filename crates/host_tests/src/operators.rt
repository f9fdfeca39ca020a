// A connection of the operator, which ends at its limit of frames.
ghost use Rattle.host_core.specs.Opening.{IsIdle};

use crate::opening::opened;
use failing_io::Pieces;
use host_calls::OperatorCall;
use host_paths::serve_operator;
use host_rings::{Core, OperatorSeat};
use plain::{Answer, Reply};
use std::alloc::Global;
use std::sync::Wait;
use std::test::Fail;
use std::thread::{self, Threads};

// Freeze twice, and then Thaw: asked in another order they have other answers.
const ASKED: [u8; 15] = [0, 0, 0, 1, 0x14, 0, 0, 0, 1, 0x14, 0, 0, 0, 1, 0x15];

// Done, and refused as the host is frozen already.
const ANSWERED: [u8; 11] = [0, 0, 0, 1, 0x92, 0, 0, 0, 2, 0xe0, ALREADY_FROZEN];

// The number of AlreadyFrozen.
const ALREADY_FROZEN: u8 = 22;

// Whether of three frames on a connection just the first two are answered if two may be, whether the host is frozen then, and how many reads
// were made, of at most so many bytes each. Stops the host.
fn served<R: Wait>(
    rt: &R,
    alloc: Global,
    mut seat: OperatorSeat,
    step: usize,
) -> (bool, bool, usize)
    requires { IsIdle seat }
{
    let mut written = Vec::new(alloc);
    let mut reader = Pieces::of(&ASKED, step);
    serve_operator(rt, alloc, &mut reader, &mut written, &mut seat, 2);
    let is_frozen = match seat.ask(rt, OperatorCall::Thaw) {
        Ok(answer) => matches!(answer, Answer::Accepted(Reply::Done)),
        Err(_) => false,
    };
    let _closed = seat.ask(rt, OperatorCall::Stop);
    (
        written.as_slice() == ANSWERED.as_slice(),
        is_frozen,
        reader.calls,
    )
}

// The same of a host whose core runs in another thread.
fn limited<R: Threads + Sync + Wait>(
    rt: &R,
    alloc: Global,
    step: usize,
) -> Result<(bool, bool, usize), Fail> {
    let (mut core, _callers, _devices, operator) = opened(alloc, 1)?;
    let (_core, found) = thread::join(
        rt,
        move || -> Core {
            core.run(rt, alloc);
            core
        },
        move || -> (bool, bool, usize)
            requires { IsIdle operator }
        { served(rt, alloc, operator, step) },
    );
    Ok(found)
}

#[test]
fn an_operator_has_so_many_answers(rt: HostRuntime) -> Result<(), Fail> {
    // All frames come at one read, or each at a read of its own: then the third is not read.
    assert_eq!(rt; limited(&rt, rt.alloc(), 15)?, (true, true, 1));
    assert_eq!(rt; limited(&rt, rt.alloc(), 5)?, (true, true, 2));
    Ok(())
}
