// What bytes begin with.
ghost use Rattle.std.specs.Prelude.{◌≡◌, ◌≤◌, length, IfOk};
ghost use Rattle.session_proto.specs.Frame.{length_field};
ghost use Rattle.session_proto.specs.Reading.{next_of};

use super::fault::{Fault, ReadError};
use super::side::Side;
use super::version::Version;
use std::alloc::{AllocError, Global};

/// What bytes begin with.
#[derive(Drop)]
pub enum Next<S> {
    /// No byte, or a frame that is not whole.
    More,
    /// A fault.
    Bad(Fault),
    /// The frame of a value, and its length with the length's own four bytes.
    Whole(S, usize),
}

/// The length that the first four bytes spell.
#[tactic(auto, unfolding(crate::specs::Frame::length_field))]
pub fn length_at(bytes: &[u8]) -> u32
    requires { 4 ≤ length bytes.now }
    ensures { result ≡ length_field bytes.now }
{
    let (front, _) = bytes.split_at(4);
    u32::from_be_bytes([front[0], front[1], front[2], front[3]])
}

/// What the bytes of a stream of a version begin with.
///
/// # Errors
///
/// A growth was refused.
#[tactic(auto, unfolding(crate::specs::Reading::next_of))]
pub fn next_in<S: Side>(
    alloc: Global,
    version: Version,
    bytes: &[u8],
) -> Result<Next<S>, AllocError>
    ensures { IfOk result (λ next. next ≡ next_of (S.body_at version) S.MOST bytes.now) }
{
    if bytes.len() < 4 {
        return Ok(Next::More);
    }
    let length = length_at(bytes);
    if length == 0 || length > S::MOST {
        return Ok(Next::Bad(Fault::BadLengthField));
    }
    let length = length as usize;
    let (_, rest) = bytes.split_at(4);
    if rest.len() < length {
        return Ok(Next::More);
    }
    let (body, _) = rest.split_at(length);
    match S::read_body(alloc, version, body) {
        Ok(value) => Ok(Next::Whole(value, 4 + length)),
        Err(ReadError::Fault(fault)) => Ok(Next::Bad(fault)),
        Err(ReadError::OutOfMemory) => Err(AllocError),
    }
}
