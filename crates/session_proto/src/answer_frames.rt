// The frame of an answer.
ghost use Rattle.std.specs.Prelude.{◌≡◌, ◌≤◌, length, IfOk};
ghost use Rattle.host_calls.specs.Frames.{AnswerHasFrame};
ghost use Rattle.session_proto.specs.Asked.{frame_of};

use crate::encoding::encode;
use crate::host::Host;
use crate::version::Version;
use host_calls::RingReply;
use plain::Answer;
use std::alloc::{AllocError, Global};

/// The frame of the host that answers a client so. It has at most 32,791 bytes.
///
/// # Errors
///
/// A growth was refused.
#[tactic(auto, using(crate::proofs::FrameLengths::few_bytes))]
pub fn answer_frame(alloc: Global, answer: Answer) -> Result<Vec<u8>, AllocError>
    requires { AnswerHasFrame answer }
    ensures frame { IfOk result (λ frame. frame.items ≡ frame_of answer) }
    ensures few { IfOk result (λ frame. length frame.items ≤ 32791) }
{
    let frame = encode(alloc, Version::One, &Host(RingReply::Answer(answer)))?;
    Ok(frame)
}
