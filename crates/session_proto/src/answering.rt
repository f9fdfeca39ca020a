// The calls of whole frames, asked and answered.
ghost use Rattle.std.specs.Prelude.{◌≡◌, ℕ, ◌+◌, ◌-◌, ◌*◌, ◌<◌, ◌≤◌, ◌^◌, List, ◌∷◌, [], length, IfNone};
ghost use Rattle.session_proto.specs.Opened.{HeldCalls};
ghost use Rattle.session_proto.specs.declared.client.Client.{Client};
ghost use Rattle.session_proto.specs.Asked.{Known};
ghost use Rattle.session_proto.specs.SoFar.{SoFar, Serves, Standing};

use crate::answer_frames::answer_frame;
use crate::asks::Asks;
use crate::client::Client;
use crate::end::EndCause;
use byte_writing::write_front;
use std::alloc::Global;
use std::io::Write;

/// How far a session is.
#[derive(Clone, Copy)]
pub struct Counts {
    /// How many calls were asked.
    pub calls: u32,
    /// How many bytes were written.
    pub written: u64,
}

/// Asks the call of a frame, and writes the answer's frame. Gives why the session ends with it, if it does.
pub fn answer_one<W: Write, A: Asks>(
    alloc: Global,
    writer: &mut W,
    asker: &mut A,
    call: Client,
    counts: &mut Counts,
) -> Option<EndCause>
    requires few { counts.old.calls < 2 ^ 32 - 1 }
    requires small { counts.old.written ≤ counts.old.calls * 32791 }
    ensures served { (start : Standing A) (input : Known) (limit : ℕ) (held : HeldCalls) (waiting : List Client)
        → SoFar A.asks limit start (record { input = input; output = W.contents writer.old; asker = asker.old }) held (call ∷ waiting)
        counts.old.calls counts.old.written
        → Serves A.asks limit start (record { input = input; output = W.contents writer.new; asker = asker.new }) held waiting
        counts.new.calls counts.new.written result }
    ensures counted { counts.new.calls ≡ counts.old.calls + 1 }
    ensures small { counts.new.written ≤ counts.new.calls * 32791 }
{
    // A call that finds the host ended is counted too.
    counts.calls += 1;
    let Ok(answer) = asker.ask(alloc, call.0) else {
        return Some(EndCause::Closed);
    };
    let Ok(frame) = answer_frame(alloc, answer) else {
        return Some(EndCause::OutOfMemory);
    };
    let written = write_front(writer, frame.as_slice());
    counts.written += written as u64;
    if written < frame.len() {
        return Some(EndCause::WriteFault);
    }
    None
}

/// Asks the calls of frames one after the other, and answers each before the next is asked. Gives why the session ends with
/// them, if it does: the limit is looked at before each.
pub fn answer_all<W: Write, A: Asks>(
    alloc: Global,
    writer: &mut W,
    asker: &mut A,
    frame_limit: u32,
    calls: Vec<Client>,
    counts: &mut Counts,
) -> Option<EndCause>
    requires within { counts.old.calls ≤ frame_limit }
    requires small { counts.old.written ≤ counts.old.calls * 32791 }
    ensures served { (start : Standing A) (input : Known) (held : HeldCalls)
        → SoFar A.asks frame_limit start (record { input = input; output = W.contents writer.old; asker = asker.old }) held calls.items
        counts.old.calls counts.old.written
        → Serves A.asks frame_limit start (record { input = input; output = W.contents writer.new; asker = asker.new }) held []
        counts.new.calls counts.new.written result }
    ensures counted { IfNone result (counts.new.calls ≡ counts.old.calls + length calls.items) }
    ensures within { counts.new.calls ≤ frame_limit }
    ensures small { counts.new.written ≤ counts.new.calls * 32791 }
{
    for call in calls {
        if counts.calls == frame_limit {
            return Some(EndCause::FrameLimit);
        }
        if let Some(cause) = answer_one(alloc, writer, asker, call, counts) {
            return Some(cause);
        }
    }
    None
}
