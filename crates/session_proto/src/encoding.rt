// The frame of a value.
ghost use Rattle.std.specs.Prelude.{◌≡◌, ◌+◌, ◌<◌, ◌≤◌, ◌^◌, length, drop, IfOk};
ghost use Rattle.session_proto.specs.Frame.{IsFrame, framed};

use super::side::Side;
use super::version::Version;
use std::alloc::{AllocError, Global};

/// The frame of a value in a version: four bytes of length, the most significant first, and its body.
///
/// # Errors
///
/// A growth was refused.
#[tactic(auto, using(crate::proofs::Frames::frame_put))]
pub fn encode<S: Side>(alloc: Global, version: Version, value: &S) -> Result<Vec<u8>, AllocError>
    requires { S.fits version value.now }
    ensures { IfOk result (λ frame. IsFrame S.body (S.fits version) value.now frame.items) }
{
    let mut frame = Vec::new(alloc);
    // The length is known once the body is there, which so is written in its place and not copied.
    frame.extend_from_slice(&[0; 4])?;
    value.put_body(version, &mut frame)?;
    put_length(&mut frame);
    Ok(frame)
}

// Writes the length of what follows the first four bytes into these.
#[tactic(auto, unfolding(crate::specs::Frame::framed))]
fn put_length(frame: &mut [u8])
    requires field { 4 ≤ length frame.old }
    requires few { length frame.old < 4 + 2 ^ 32 }
    ensures { frame.new ≡ framed (drop 4 frame.old) }
{
    let length = (frame.len() - 4) as u32;
    let (field, _) = frame.split_at_mut(4);
    field.copy_from_slice(&length.to_be_bytes());
}
