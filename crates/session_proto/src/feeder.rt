// A stream that comes in pieces.
ghost use Rattle.std.specs.Prelude.{◌≡◌, ℕ, ◌+◌, ◌<◌, ◌≤◌, ◌↔◌, List, [], ◌++◌, length, drop, Some, None, IfOk, OnErr, IsTrue, IsOkAnd};
ghost use Rattle.session_proto.specs.Stream.{IsStream, HasCome};
ghost use Rattle.session_proto.specs.declared.fault.Fault.{Fault};
ghost use Rattle.session_proto.specs.declared.version.Version.TheVariants.{One};

use super::fault::Fault;
use super::side::Side;
use super::split::split_frames;
use super::version::Version;
use std::alloc::{AllocError, Global};
use std::marker::{Model, PhantomData};

/// Takes a stream of version 1 in pieces, and gives the values of its frames. A client's stream, which may say version 2, has a
/// [`ClientFeeder`](crate::ClientFeeder).
#[derive(Drop)]
pub struct Feeder<S: Side> {
    // The bytes after the last whole frame. Once they begin with a fault no more are held.
    held: Vec<u8>,
    fault: Option<Fault>,
    of: PhantomData<S>,
}

impl<S: Side> Model for Feeder<S> {
    ghost use Rattle.session_proto.specs.Stream.{Held};

    ghost Value = { Held };

    ghost view = { λ f. record { bytes = f.held.items; fault = f.fault } };
}

/// What a piece brought.
#[derive(Debug, Drop)]
pub struct Fed<S> {
    /// The values of the frames that are whole with this piece, in their order.
    pub values: Vec<S>,
    /// The fault that stands after the last whole frame, if one does.
    pub fault: Option<Fault>,
}

/// Lets go of so many bytes at the front.
pub fn let_go(held: &mut Vec<u8>, size: usize)
    requires { size ≤ length held.old.items }
    ensures { held.new.items ≡ drop size held.old.items }
{
    // Where no frame was whole nothing moves: a long frame in small pieces costs its bytes.
    if size > 0 {
        held.drain(..size);
    }
}

impl<S: Side> Feeder<S> {
    /// A feeder to which no byte has come.
    pub fn new(alloc: Global) -> Feeder<S>
        ensures new { result ≡ record { bytes = []; fault = None } }
        ensures none_came { HasCome S.body (S.fits One) (S.body_at One) S.MOST result [] [] }
    {
        Feeder {
            held: Vec::new(alloc),
            fault: None,
            of: PhantomData,
        }
    }

    /// Takes the next piece of the stream.
    ///
    /// After a fault each call gives the same fault and no value.
    ///
    /// # Errors
    ///
    /// A growth was refused. Then nothing has changed, and the same piece can be fed again.
    pub fn feed(&mut self, alloc: Global, piece: &[u8]) -> Result<Fed<S>, AllocError>
        // However the stream is cut: if these bytes and values came so far, then now the piece and its values too.
        ensures came { IfOk result (λ fed. (stream : List ℕ) (values : List S)
            → HasCome S.body (S.fits One) (S.body_at One) S.MOST self.old stream values
            → HasCome S.body (S.fits One) (S.body_at One) S.MOST self.new (stream ++ piece.now) (values ++ fed.values.items)) }
        ensures read { IfOk result (λ fed. self.old.fault ≡ None
            → IsStream S.body (S.fits One) (S.body_at One) S.MOST (self.old.bytes ++ piece.now) fed.values.items self.new.bytes fed.fault) }
        ensures fault { IfOk result (λ fed. fed.fault ≡ self.new.fault) }
        ensures again { (f : Fault) → self.old.fault ≡ Some f
            → (self.new ≡ self.old) × IsOkAnd result (λ fed. (fed.values.items ≡ []) × (fed.fault ≡ Some f)) }
        ensures short { IfOk result (λ fed. fed.fault ≡ None → length self.new.bytes < 4 + S.MOST) }
        ensures grows { IfOk result (λ fed. fed.values.items ≡ [] → fed.fault ≡ None
            → self.new.bytes ≡ self.old.bytes ++ piece.now) }
        ensures err { OnErr result (self.new ≡ self.old) }
    {
        if let Some(fault) = self.fault {
            return Ok(Fed {
                values: Vec::new(alloc),
                fault: Some(fault),
            });
        }
        let before = self.held.len();
        self.held.extend_from_slice(piece)?;
        match split_frames(alloc, Version::One, &self.held) {
            Ok(found) => {
                let_go(&mut self.held, found.size);
                self.fault = found.fault;
                Ok(Fed {
                    values: found.values,
                    fault: found.fault,
                })
            }
            Err(refused) => {
                self.held.truncate(before);
                Err(refused)
            }
        }
    }

    /// Whether the bytes so far end where a frame ends: nothing is held.
    pub fn is_between(&self) -> bool
        ensures { IsTrue result ↔ self.now.bytes ≡ [] }
    {
        self.held.is_empty()
    }
}
