// A client's stream that comes in pieces.
ghost use Rattle.std.specs.Prelude.{◌≡◌, ℕ, ◌<◌, ◌≤◌, ◌↔◌, ◌⊎◌, List, [], ◌++◌, length, drop, Some, None, IfOk, OnErr, IsSome, IsTrue, IsOkAnd};
ghost use Rattle.session_proto.specs.Opened.{HaveCome, HasGrown, IsCallsIn, IsSplit, KeepsVersion};
ghost use Rattle.session_proto.specs.declared.client.Client.{Client};
ghost use Rattle.session_proto.specs.declared.fault.Fault.{Fault};

use super::client::Client;
use super::fault::Fault;
use super::feeder::{Fed, let_go};
use super::next::Next;
use super::opening::opening;
use super::split::split_frames;
use super::version::Version;
use std::alloc::{AllocError, Global};
use std::marker::Model;

/// Takes a client's stream in pieces, and gives its calls. If its first frame says version 2 they are read as those of version 2, and else as
/// those of version 1.
#[derive(Drop)]
pub struct ClientFeeder {
    // The bytes after the last whole frame. Once they begin with a fault no more are held.
    held: Vec<u8>,
    fault: Option<Fault>,
    // None before the first frame is whole.
    version: Option<Version>,
}

impl Model for ClientFeeder {
    ghost use Rattle.session_proto.specs.Opened.{HeldCalls};

    ghost Value = { HeldCalls };

    ghost view = { λ f. record { bytes = f.held.items; fault = f.fault; version = f.version } };
}

// The calls that are whole, how many bytes their frames take, the fault that stands after them, and the version, if it is known.
#[derive(Drop)]
struct Found {
    calls: Vec<Client>,
    size: usize,
    fault: Option<Fault>,
    version: Option<Version>,
}

// No call is whole: the first frame is not, or it is none.
fn none_found(alloc: Global, fault: Option<Fault>) -> Found
    ensures calls { result.calls.items ≡ [] }
    ensures size { result.size ≡ 0 }
    ensures fault { result.fault ≡ fault }
    ensures version { result.version ≡ None }
{
    Found {
        calls: Vec::new(alloc),
        size: 0,
        fault,
        version: None,
    }
}

// The calls of a version that are whole behind so many bytes.
fn found_behind(
    alloc: Global,
    version: Version,
    bytes: &[u8],
    front: usize,
) -> Result<Found, AllocError>
    requires { front ≤ length bytes.now }
    ensures size { IfOk result (λ f. f.size ≤ length bytes.now) }
    ensures read { IfOk result (λ f. IsCallsIn version (drop front bytes.now) f.calls.items (drop f.size bytes.now) f.fault) }
    ensures short { IfOk result (λ f. f.fault ≡ None → length (drop f.size bytes.now) < 32791) }
    ensures version { IfOk result (λ f. f.version ≡ Some version) }
    ensures none { IfOk result (λ f. f.calls.items ≡ [] → f.size ≡ front) }
{
    let (_, rest) = bytes.split_at(front);
    let split = split_frames(alloc, version, rest)?;
    Ok(Found {
        calls: split.values,
        size: front + split.size,
        fault: split.fault,
        version: Some(version),
    })
}

// The calls that are whole in bytes, where this version is known of their stream.
fn found_in(alloc: Global, version: Option<Version>, bytes: &[u8]) -> Result<Found, AllocError>
    ensures size { IfOk result (λ f. f.size ≤ length bytes.now) }
    ensures read { IfOk result (λ f. IsSplit version bytes.now f.calls.items (drop f.size bytes.now) f.fault f.version) }
    ensures short { IfOk result (λ f. f.fault ≡ None → length (drop f.size bytes.now) < 32791) }
    ensures grown { IfOk result (λ f. f.calls.items ≡ [] → f.fault ≡ None → ((f.size ≡ 0) × (f.version ≡ version)) ⊎ ((version ≡ None) × IsSome f.version)) }
{
    if let Some(known) = version {
        return found_behind(alloc, known, bytes, 0);
    }
    match opening(bytes) {
        Next::More => Ok(none_found(alloc, None)),
        Next::Bad(fault) => Ok(none_found(alloc, Some(fault))),
        Next::Whole(Version::One, _) => found_behind(alloc, Version::One, bytes, 0),
        // The frame that says version 2 is no call.
        Next::Whole(Version::Two, size) => found_behind(alloc, Version::Two, bytes, size),
    }
}

impl ClientFeeder {
    /// A feeder to which no byte has come.
    pub fn new(alloc: Global) -> ClientFeeder
        ensures new { result ≡ record { bytes = []; fault = None; version = None } }
        ensures none_came { HaveCome result [] [] }
    {
        ClientFeeder {
            held: Vec::new(alloc),
            fault: None,
            version: None,
        }
    }

    /// Takes the next piece of the stream.
    ///
    /// After a fault each call gives the same fault and no value.
    ///
    /// # Errors
    ///
    /// A growth was refused. Then nothing has changed, and the same piece can be fed again.
    pub fn feed(&mut self, alloc: Global, piece: &[u8]) -> Result<Fed<Client>, AllocError>
        // However the stream is cut: if these bytes and calls came so far, then now the piece and its calls too.
        ensures came { IfOk result (λ fed. (stream : List ℕ) (calls : List Client)
            → HaveCome self.old stream calls → HaveCome self.new (stream ++ piece.now) (calls ++ fed.values.items)) }
        ensures fault { IfOk result (λ fed. fed.fault ≡ self.new.fault) }
        ensures again { (f : Fault) → self.old.fault ≡ Some f
            → (self.new ≡ self.old) × IsOkAnd result (λ fed. (fed.values.items ≡ []) × (fed.fault ≡ Some f)) }
        ensures short { IfOk result (λ fed. fed.fault ≡ None → length self.new.bytes < 32791) }
        ensures grows { IfOk result (λ fed. fed.values.items ≡ [] → fed.fault ≡ None → HasGrown self.old piece.now self.new) }
        ensures versed { IfOk result (λ fed. KeepsVersion self.old self.new) }
        ensures err { OnErr result (self.new ≡ self.old) }
    {
        if let Some(fault) = self.fault {
            return Ok(Fed {
                values: Vec::new(alloc),
                fault: Some(fault),
            });
        }
        let before = self.held.len();
        self.held.extend_from_slice(piece)?;
        match found_in(alloc, self.version, &self.held) {
            Ok(found) => {
                let_go(&mut self.held, found.size);
                self.fault = found.fault;
                self.version = found.version;
                Ok(Fed {
                    values: found.calls,
                    fault: found.fault,
                })
            }
            Err(refused) => {
                self.held.truncate(before);
                Err(refused)
            }
        }
    }

    /// Whether the bytes so far end where a frame ends: nothing is held.
    pub fn is_between(&self) -> bool
        ensures { IsTrue result ↔ self.now.bytes ≡ [] }
    {
        self.held.is_empty()
    }
}
