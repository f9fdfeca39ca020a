// A host that serves clients and the operator over sockets.
ghost use Rattle.std.specs.Prelude.{◌≡◌, length, IfOk};

use crate::gate::Gated;
use crate::opening::usual;
use crate::peer::{Frame, Talk, answers, connected, has_ended};
use host_calls::{OperatorCall, RingReply};
use host_rings::{ServeEnd, ServeOptions, run_server};
use operator_asking::ask_host;
use plain::{Answer, Reply};
use std::alloc::Global;
use std::os::unix::net::UnixStream;
use std::test::Fail;
use std::{fs, process, thread};

// The place of the operator, behind those of the two clients.
const OPERATOR: usize = 2;

// Client 0 writes sector 5 and reads it, client 1 reads sector 9. Both reads are asked before one is reaped: neither ends until the other
// has begun.
const AT_ONCE: [Talk; 8] = [
    Talk(
        0,
        Frame("00000003 01 00 04", None),
        Frame("00000009 81 0000000000000001", None),
    ),
    Talk(
        1,
        Frame("00000003 01 00 04", None),
        Frame("00000009 81 0000000000000002", None),
    ),
    Talk(
        0,
        Frame(
            "00000213 03 0000000000000001 0000000000000005 0001",
            Some(0x41),
        ),
        Frame("00000009 82 0000000000000003", None),
    ),
    Talk(
        0,
        Frame("00000009 04 0000000000000001", None),
        Frame("00000009 84 0000000000000003", None),
    ),
    Talk(
        0,
        Frame("00000013 02 0000000000000001 0000000000000005 0001", None),
        Frame("00000009 82 0000000000000007", None),
    ),
    Talk(
        1,
        Frame("00000013 02 0000000000000002 0000000000000009 0001", None),
        Frame("00000009 82 0000000000000009", None),
    ),
    Talk(
        0,
        Frame("00000009 04 0000000000000001", None),
        Frame("00000209 83 0000000000000007", Some(0x41)),
    ),
    Talk(
        1,
        Frame("00000009 04 0000000000000002", None),
        Frame("00000209 83 0000000000000009", Some(9)),
    ),
];

// Serves two clients in a folder.
fn two_in(dir: &str) -> ServeOptions<'_>
    ensures { result.clients ≡ 2 }
{
    ServeOptions {
        dir,
        clients: 2,
        delay: 0,
    }
}

// A new folder for sockets.
fn folder(rt: HostRuntime) -> Result<String, Fail> {
    let process = process::id(rt.process());
    let path = format!(in rt.alloc(); "/tmp/bfq-server-{process}")?;
    fs::create_dir(&rt, path.as_str())?;
    Ok(path)
}

// Connections of both clients and the operator to the host that serves in a folder.
fn peers(rt: HostRuntime, dir: &str) -> Result<[UnixStream; 3], Fail> {
    // The operator's path is there first, and a client's may be not there yet.
    let zero = connected(&rt, format!(in rt.alloc(); "{dir}/client0")?.as_str())?;
    let one = connected(&rt, format!(in rt.alloc(); "{dir}/client1")?.as_str())?;
    let operator = connected(&rt, format!(in rt.alloc(); "{dir}/operator")?.as_str())?;
    Ok([zero, one, operator])
}

// How many steps are made by then: two clients come, three requests are asked, sent, answered and reaped.
const STEPS: u32 = 14;

// What is heard of a call, by the way of the operator's command. This has no clauses, so that nothing carries what an ask promises.
fn heard(alloc: Global, stream: &UnixStream, call: OperatorCall) -> Option<RingReply> {
    let mut peer = stream;
    ask_host(alloc, &mut &*stream, &mut peer, call).ok()
}

// Whether so many steps stand after a call, of all that were made.
fn leaves(alloc: Global, stream: &UnixStream, call: OperatorCall, standing: u32) -> bool {
    match heard(alloc, stream, call) {
        Some(RingReply::Answer(Answer::Accepted(Reply::Moved { cursor, length }))) => {
            cursor == standing && length == STEPS
        }
        _ => false,
    }
}

// Whether a call is accepted, and nothing more is told.
fn is_done(alloc: Global, stream: &UnixStream, call: OperatorCall) -> bool {
    matches!(
        heard(alloc, stream, call),
        Some(RingReply::Answer(Answer::Accepted(Reply::Done)))
    )
}

// Whether the host is held, goes a step back and forth, goes on, freezes, and then says that it has ended.
fn goes_back_and_stops(alloc: Global, stream: &UnixStream) -> bool {
    leaves(alloc, stream, OperatorCall::Hold, STEPS)
        && leaves(alloc, stream, OperatorCall::Undo { k: 1 }, STEPS - 1)
        && leaves(alloc, stream, OperatorCall::Redo { k: 1 }, STEPS)
        && is_done(alloc, stream, OperatorCall::Release)
        && is_done(alloc, stream, OperatorCall::Freeze)
        && matches!(
            heard(alloc, stream, OperatorCall::Stop),
            Some(RingReply::Closed)
        )
}

// Two images at one gate.
fn images_of(alloc: Global) -> Result<Vec<Gated>, Fail>
    ensures { IfOk result (λ images. length images.items ≡ 2) }
{
    let (first, second) = Gated::two(alloc)?;
    Ok(vec![in alloc; first, second]?)
}

// Whether each talk goes as it is wanted, and the host then does what the operator asks, and stops.
fn all_answer(alloc: Global, peers: &[UnixStream; 3]) -> bool {
    for talk in &AT_ONCE {
        if !answers(alloc, &peers[talk.0.min(OPERATOR)], *talk) {
            return false;
        }
    }
    goes_back_and_stops(alloc, &peers[OPERATOR]) && has_ended(&peers[OPERATOR])
}

// Two clients are served at once, by two workers at once.
#[test]
fn clients_and_the_operator(rt: HostRuntime) -> Result<(), Fail> {
    let dir = folder(rt)?;
    let images = images_of(rt.alloc())?;
    let config = usual()?;
    let theirs = format!(in rt.alloc(); "{dir}")?;
    let serving = thread::spawn(
        &rt,
        move || -> ServeEnd
            requires { length images.items ≡ 2 }
        {
            run_server(
                rt,
                rt.alloc(),
                config,
                images,
                two_in(theirs.as_str()),
                &mut None,
            )
        },
    )?;
    let peers = peers(rt, dir.as_str())?;
    // Nobody but clients and the operator has a path.
    let inspect = format!(in rt.alloc(); "{dir}/inspect")?;
    assert!(rt; fs::symlink_metadata(&rt, inspect.as_str()).is_err());
    assert!(rt; all_answer(rt.alloc(), &peers));
    assert_eq!(rt; serving.join(&rt), ServeEnd::Stopped);
    // The sockets are gone, so the folder is empty.
    fs::remove_dir(&rt, dir.as_str())?;
    Ok(())
}
