// A client's path, and what its connections ask at the seat.
ghost use Rattle.std.specs.Prelude.{IfOk};
ghost use Rattle.host_core.specs.Opening.{IsIdle, AreIdle};

use crate::opening::usual;
use crate::peer::{Frame, Talk, answers, connected};
use crate::workers::last_client;
use host_calls::{OperatorCall, SeatName};
use host_core::{Caller, Core, Judges, OperatorSeat, open_core};
use host_paths::start_client;
use host_rings::Book;
use plain::{Answer, Call, Step};
use std::alloc::Global;
use std::net::Net;
use std::os::unix::net::UnixListener;
use std::sync::Wait;
use std::test::Fail;
use std::thread::{self, Threads};
use std::time::Clock;
use std::{fs, process};

// A book that counts the calls to leave that come from clients.
#[derive(Drop)]
struct Counting {
    book: Book,
    leaves: u64,
}

impl Judges for Counting {
    ghost pages = { λ counting. counting.book };

    fn judge(&mut self, alloc: Global, name: SeatName, call: &Call) -> Answer {
        if matches!(call, Call::Do(Step::Leave { .. })) && matches!(name, SeatName::Client(_)) {
            self.leaves = self.leaves.saturating_add(1);
        }
        self.book.judge(alloc, name, call)
    }

    fn take(&self, lasts: &[Option<u64>], own: u8, worker: u8) -> Answer {
        self.book.take(lasts, own, worker)
    }

    fn entry(&self, at: usize) -> Option<(SeatName, &Call)> {
        self.book.entry(at)
    }
}

// A client comes.
const COMES: Frame = Frame("00000003 01 00 04", None);

// Three connections, one after the other: each session has the serial of its Attach, behind the Leave of the one before.
const THREE: [Talk; 3] = [
    Talk(0, COMES, Frame("00000009 81 0000000000000001", None)),
    Talk(0, COMES, Frame("00000009 81 0000000000000003", None)),
    Talk(0, COMES, Frame("00000009 81 0000000000000005", None)),
];

// A core over such a book, of 64 sectors, and its seats.
fn counted(alloc: Global) -> Result<(Core<Counting>, Vec<Caller>, OperatorSeat), Fail>
    ensures { IfOk result (λ r. AreIdle r.1.items × IsIdle r.2) }
{
    let book = Book::new(alloc, usual()?, 64)?;
    let counting = Counting { book, leaves: 0 };
    let (core, callers, _devices, operator) = open_core(alloc, counting, 1)?;
    Ok((core, callers, operator))
}

// Whether each client is told what it must be, and the host then stops while the last one is still there.
fn come_and_go<R: Net + Clock + Wait>(
    rt: &R,
    alloc: Global,
    path: &str,
    mut operator: OperatorSeat,
) -> bool
    requires { IsIdle operator }
{
    let mut last = None;
    for talk in &THREE {
        // The one before goes away first: else the path meets nobody.
        drop(last);
        let Ok(stream) = connected(rt, path) else {
            return false;
        };
        if !answers(alloc, &stream, *talk) {
            return false;
        }
        last = Some(stream);
    }
    operator.ask(rt, OperatorCall::Stop).is_err()
}

// How many calls to leave a client's path makes, while two of three clients go away; none if one is told something else.
fn leaves<R: Threads + Sync + Wait + Clock + Net + Copy + Drop + Send + 'static>(
    rt: R,
    alloc: Global,
    path: &str,
    listener: UnixListener,
) -> Result<Option<u64>, Fail> {
    let (mut core, mut callers, operator) = counted(alloc)?;
    let seat = last_client(&mut callers)?;
    start_client(rt, alloc, seat, listener)?;
    let (core, is_told) = thread::join(
        &rt,
        move || -> Core<Counting> {
            core.run(&rt, alloc);
            core
        },
        move || -> bool
            requires { IsIdle operator }
        { come_and_go(&rt, alloc, path, operator) },
    );
    Ok(if is_told {
        Some(core.book().leaves)
    } else {
        None
    })
}

// Each session that ends leaves once. One Leave more would be refused, and nobody would be told.
#[test]
fn each_session_leaves_once(rt: HostRuntime) -> Result<(), Fail> {
    let process = process::id(rt.process());
    let path = format!(in rt.alloc(); "/tmp/bfq-path-{process}")?;
    let listener = UnixListener::bind(&rt, path.as_str())?;
    let leaves = leaves(rt, rt.alloc(), path.as_str(), listener)?;
    fs::remove_file(&rt, path.as_str())?;
    assert_eq!(rt; leaves, Some(2));
    Ok(())
}
