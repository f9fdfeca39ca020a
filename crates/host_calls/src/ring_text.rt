// The texts of what a seat is answered.
ghost use Rattle.std.specs.Prelude.{◌≡◌, ◌++◌, OnOk};
ghost use Rattle.host_calls.specs.Texts.{ring_text};

use crate::answer::put_answer;
use crate::ring::RingReply;
use sector_core::OutOfMemory;

/// Appends the text of what a seat is answered: that of the keeper's answer, or `closed`.
pub fn put_ring_reply(reply: &RingReply, out: &mut Vec<u8>) -> Result<(), OutOfMemory>
    ensures { OnOk result (out.new.items ≡ out.old.items ++ ring_text reply.now) }
{
    match reply {
        RingReply::Answer(answer) => put_answer(answer, out).map_err(|_| OutOfMemory),
        RingReply::Closed => {
            out.extend_from_slice(b"closed")?;
            Ok(())
        }
    }
}
