// From the words of the command line to the status.
ghost use Rattle.std.specs.Prelude.{◌≡◌};
ghost use Rattle.bfqctl.specs.Status.{IsStatus};
ghost use Rattle.operator_asking.specs.Ending.{status_of};

use crate::help::{help_text, version_line};
use crate::looking::ask_look;
use crate::words::{Reason, Request, request_of};
use host_calls::OperatorCall;
use host_options::meaning_of;
use operator_asking::{CallEnd, run_call, status, write_flushed};
use std::env;
use std::io::{self, ErrorKind, Write};
use std::net::Net;
use std::os::unix::net::UnixStream;
use std::rt::Env;

const REFUSED: u8 = 2;

// The longest answer is 'moved' with two numbers of at most ten digits.
const ANSWER_BYTES: usize = 64;

/// Does what the words ask for, and gives the status. At a terminal a fault and a refusal are told to a person, too.
pub fn start(rt: &(impl Env + Net + AllocGlobal + Print + Eprint), at_terminal: bool) -> u8
    ensures { IsStatus result }
{
    match asked(rt) {
        Ok(Request::Help) => print(rt, help_text()),
        Ok(Request::Version) => print(rt, version_line()),
        Ok(Request::Call { socket, call }) => call_at(rt, socket.as_str(), call, at_terminal),
        Ok(Request::Look { socket, line }) => {
            look_at(rt, socket.as_str(), line.as_bytes(), at_terminal)
        }
        Err(Reason::OutOfMemory) => tell(rt, CallEnd::OutOfMemory),
        Err(reason) => {
            let _ = rt.eprintln("words: refused");
            if at_terminal {
                say_why(rt, &reason);
            }
            REFUSED
        }
    }
}

// What the words ask for. A word that is no text asks for nothing.
fn asked(rt: &(impl Env + AllocGlobal)) -> Result<Request, Reason> {
    let given = match env::args(rt) {
        Ok(given) => given,
        Err(error) if error.kind() == ErrorKind::OutOfMemory => return Err(Reason::OutOfMemory),
        Err(_) => return Err(Reason::NoText),
    };
    let words: Vec<String> = match given.collect(rt.alloc()) {
        Ok(words) => words,
        Err(_) => return Err(Reason::OutOfMemory),
    };
    request_of(rt.alloc(), words.as_slice())
}

// Tells a person why the words ask for nothing.
fn say_why(rt: &(impl AllocGlobal + Eprint), reason: &Reason) {
    if let Ok(text) = reason.text(rt.alloc()) {
        let _ = eprintln!(rt; "{text}; see bfqctl --help");
    }
}

fn print(rt: &impl Print, text: &str) -> u8
    ensures { IsStatus result }
{
    if write_flushed(&mut io::writer(rt), text.as_bytes()) {
        status(CallEnd::Done)
    } else {
        status(CallEnd::WriteFault)
    }
}

// Looks at the host whose socket for looks is at the path, prints what it tells, and gives the status.
fn look_at(
    rt: &(impl Net + AllocGlobal + Print + Eprint),
    path: &str,
    line: &[u8],
    at_terminal: bool,
) -> u8
    ensures { IsStatus result }
{
    let stream = match UnixStream::connect(rt, path) {
        Ok(stream) => stream,
        Err(error) if error.kind() == ErrorKind::OutOfMemory => return tell(
            rt,
            CallEnd::OutOfMemory,
        ),
        Err(error) => {
            let status = tell(rt, CallEnd::Socket);
            if at_terminal {
                say_no_inspect(rt, path, error);
            }
            return status;
        }
    };
    let mut answer = Vec::new(rt.alloc());
    let end = ask_look(&mut &stream, &mut &stream, line, &mut answer);
    if !answer.is_empty() && !write_flushed(&mut io::writer(rt), answer.as_slice()) {
        return tell(rt, CallEnd::WriteFault);
    }
    tell(rt, end)
}

// Tells a person why nobody can look there.
fn say_no_inspect(rt: &impl Eprint, path: &str, error: io::Error) {
    let _ = match error.kind() {
        ErrorKind::NotFound => eprintln!(rt;
            "{path}: there is no inspect: no host serves there, or it is an older one or has --no-inspect"
        ),
        _ => eprintln!(rt; "{path}: {error}"),
    };
}

// Makes the call to the host whose socket is at the path, prints its answer, and gives the status.
fn call_at(
    rt: &(impl Net + AllocGlobal + Print + Eprint),
    path: &str,
    call: OperatorCall,
    at_terminal: bool,
) -> u8
    ensures { IsStatus result }
{
    let stream = match UnixStream::connect(rt, path) {
        Ok(stream) => stream,
        Err(error) if error.kind() == ErrorKind::OutOfMemory => return tell(
            rt,
            CallEnd::OutOfMemory,
        ),
        Err(error) => {
            let status = tell(rt, CallEnd::Socket);
            if at_terminal {
                let _ = eprintln!(rt; "{path}: {error}");
            }
            return status;
        }
    };
    // The answer is kept, as its number is looked up once it is printed.
    let Ok(mut answer) = Vec::with_capacity(rt.alloc(), ANSWER_BYTES) else {
        return tell(rt, CallEnd::OutOfMemory);
    };
    let end = run_call(rt.alloc(), &mut &stream, &mut &stream, &mut answer, call);
    if !answer.is_empty() && !write_flushed(&mut io::writer(rt), answer.as_slice()) {
        return tell(rt, CallEnd::WriteFault);
    }
    if at_terminal {
        say_meaning(rt, answer.as_slice());
    }
    tell(rt, end)
}

// Tells a person what the number of a refusal, or of why a call has to wait, means.
fn say_meaning(rt: &impl Eprint, answer: &[u8]) {
    let Ok(line) = str::from_utf8(answer) else {
        return;
    };
    match line.trim_end().split_once(' ') {
        Some(("refused" | "notyet", number)) => {
            if let Some(meaning) = meaning_of(number) {
                let _ = rt.eprintln(meaning);
            }
        }
        _ => {}
    }
}

// The status of an end. What no answer's text tells stands on standard error.
fn tell(rt: &impl Eprint, end: CallEnd) -> u8
    ensures { result ≡ status_of end }
{
    let _ = match end {
        CallEnd::Socket => rt.eprintln("socket: failed"),
        CallEnd::Frame => rt.eprintln("frame: bad"),
        CallEnd::OutOfMemory => rt.eprintln("memory: none"),
        CallEnd::Done | CallEnd::Refused | CallEnd::WriteFault => Ok(()),
    };
    status(end)
}
