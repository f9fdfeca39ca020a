// The value of one frame.
ghost use Rattle.std.specs.Prelude.{Ok, IfOk, length};
ghost use Rattle.session_proto.specs.Frame.{IsFrame};
ghost use Rattle.session_proto.specs.Reading.{Gives, next_of, whole_of};

use super::fault::{Fault, ReadError};
use super::next::{Next, next_in};
use super::side::Side;
use super::version::Version;
use std::alloc::Global;

// The value of one whole frame, by what the bytes begin with.
fn value_of<S: Side>(alloc: Global, version: Version, bytes: &[u8]) -> Result<S, ReadError>
    ensures { Gives result (whole_of (length bytes.now) (next_of (S.body_at version) S.MOST bytes.now)) }
{
    match next_in(alloc, version, bytes)? {
        Next::More => Err(ReadError::Fault(Fault::BadLengthField)),
        Next::Bad(fault) => Err(ReadError::Fault(fault)),
        Next::Whole(value, size) => {
            if size == bytes.len() {
                Ok(value)
            } else {
                Err(ReadError::Fault(Fault::BadLengthField))
            }
        }
    }
}

/// The value whose frame in a version the bytes are, all of them.
///
/// # Errors
///
/// The fault that the bytes begin with. If they begin with none, but are not one whole frame, it is `BadLengthField`.
/// Or a growth was refused.
pub fn decode<S: Side>(alloc: Global, version: Version, bytes: &[u8]) -> Result<S, ReadError>
    ensures found { IfOk result (λ v. IsFrame S.body (S.fits version) v bytes.now) }
    ensures only { (v : S) → IsFrame S.body (S.fits version) v bytes.now → Gives result (Ok v) }
    ensures fault { Gives result (whole_of (length bytes.now) (next_of (S.body_at version) S.MOST bytes.now)) }
{
    value_of(alloc, version, bytes)
}
