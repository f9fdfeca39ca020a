// The frames that are whole at the front of bytes.
ghost use Rattle.std.specs.Prelude.{◌≡◌, ◌+◌, ◌<◌, ◌≤◌, length, drop, None, IfOk};
ghost use Rattle.session_proto.specs.Stream.{IsStream};

use super::fault::Fault;
use super::next::{Next, next_in};
use super::side::Side;
use super::version::Version;
use std::alloc::{AllocError, Global};

/// The values of frames, how many bytes these take, and the fault that stands after them, if one does.
#[derive(Drop)]
pub struct Split<S> {
    pub values: Vec<S>,
    pub size: usize,
    pub fault: Option<Fault>,
}

/// The values of the frames of a version that are whole.
///
/// # Errors
///
/// A growth was refused.
#[tactic(auto, using(crate::proofs::Nexts::more_short))]
pub fn split_frames<S: Side>(
    alloc: Global,
    version: Version,
    bytes: &[u8],
) -> Result<Split<S>, AllocError>
    ensures size { IfOk result (λ s. s.size ≤ length bytes.now) }
    ensures read { IfOk result (λ s.
        IsStream S.body (S.fits version) (S.body_at version) S.MOST bytes.now s.values.items (drop s.size bytes.now) s.fault) }
    ensures short { IfOk result (λ s. s.fault ≡ None → length (drop s.size bytes.now) < 4 + S.MOST) }
{
    let mut values = Vec::new(alloc);
    let mut size = 0;
    'frames: loop {
        let (_, rest) = bytes.split_at(size);
        match next_in(alloc, version, rest)? {
            Next::More => {
                return Ok(Split {
                    values,
                    size,
                    fault: None,
                });
            }
            Next::Bad(fault) => {
                return Ok(Split {
                    values,
                    size,
                    fault: Some(fault),
                });
            }
            Next::Whole(value, more) => {
                values.push(value)?;
                size += more;
            }
        }
    }
}
