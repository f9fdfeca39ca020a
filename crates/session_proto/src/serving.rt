// A session over a reader and a writer.
ghost use Rattle.std.specs.Prelude.{◌≡◌, ℕ, ◌*◌, ◌<◌, ◌≤◌, ◌^◌, List, [], length, None, IfOk};
ghost use Rattle.session_proto.specs.declared.client.Client.{Client};
ghost use Rattle.session_proto.specs.Opened.{HasRoomLess, KeepsVersion};
ghost use Rattle.session_proto.specs.Asked.{Known};
ghost use Rattle.session_proto.specs.Served.{HasServed, IsServed};
ghost use Rattle.session_proto.specs.SoFar.{ReadSoFar, Reads};

use crate::answering::{Counts, answer_all};
use crate::asks::Asks;
use crate::client::Client;
use crate::client_feeder::ClientFeeder;
use crate::end::{EndCause, SessionEnd};
use crate::feeder::Fed;
use host_calls::ClientCall;
use std::alloc::Global;
use std::io::{Read, Write};

// A read takes at most this many bytes, so that few calls wait at a time. A write of eight sectors comes whole, and its Reap with it.
const PIECE_BYTES: usize = 8192;

// Reads a piece and takes it apart. Gives its calls and its fault, or why the session ends there.
fn read_calls<R: Read>(
    alloc: Global,
    reader: &mut R,
    piece: &mut [u8],
    feeder: &mut ClientFeeder,
) -> Result<Fed<Client>, EndCause>
    requires some { 0 < length piece.old }
    requires few { length piece.old ≤ 8192 }
    requires sound { feeder.old.fault ≡ None }
    ensures reads { (start : Known) (limit : ℕ) (calls : List Client) → length calls < limit
        → ReadSoFar limit (length calls) start (R.remaining reader.old) feeder.old calls
        → Reads limit start (R.remaining reader.new) feeder.new calls result }
    ensures fault { IfOk result (λ fed. fed.fault ≡ feeder.new.fault) }
    ensures versed { IfOk result (λ fed. KeepsVersion feeder.old feeder.new) }
    ensures short { IfOk result (λ fed. fed.fault ≡ None → length feeder.new.bytes < 32791) }
    ensures grows { IfOk result (λ fed. fed.values.items ≡ [] → fed.fault ≡ None → HasRoomLess feeder.old feeder.new) }
    ensures length { length piece.new ≡ length piece.old }
{
    let Ok(count) = reader.read(piece) else {
        return Err(EndCause::ReadFault);
    };
    if count == 0 {
        if feeder.is_between() {
            return Err(EndCause::Ended);
        }
        return Err(EndCause::BadFrame);
    }
    match feeder.feed(alloc, &piece[..count]) {
        Ok(fed) => Ok(fed),
        Err(_) => Err(EndCause::OutOfMemory),
    }
}

// The frames of a session, until it ends for a cause.
fn serve_frames<R: Read, W: Write, A: Asks>(
    alloc: Global,
    reader: &mut R,
    writer: &mut W,
    asker: &mut A,
    frame_limit: u32,
    counts: &mut Counts,
) -> EndCause
    requires unasked { counts.old.calls ≡ 0 }
    requires unwritten { counts.old.written ≡ 0 }
    ensures served { HasServed A.asks frame_limit (R.remaining reader.old) (R.remaining reader.new) (W.contents writer.old)
        (W.contents writer.new) asker.old asker.new result counts.new.calls counts.new.written }
    ensures within { counts.new.calls ≤ frame_limit }
    ensures small { counts.new.written ≤ counts.new.calls * 32791 }
{
    let mut feeder = ClientFeeder::new(alloc);
    let mut piece = [0u8; PIECE_BYTES];
    let mut is_bad = false;
    'pieces: loop {
        // The limit comes first: at it not even a fault that has come is looked at.
        if counts.calls == frame_limit {
            return EndCause::FrameLimit;
        }
        if is_bad {
            return EndCause::BadFrame;
        }
        let fed = match read_calls(alloc, reader, &mut piece, &mut feeder) {
            Ok(fed) => fed,
            Err(cause) => return cause,
        };
        is_bad = fed.fault.is_some();
        if let Some(cause) = answer_all(alloc, writer, asker, frame_limit, fed.values, counts) {
            return cause;
        }
    }
}

/// Serves a client's session: reads its frames, asks their calls one after the other, and writes each answer's frame before the
/// next call is asked. At most `frame_limit` frames are answered.
///
/// At the end one Leave with the cause is asked, whose answer is kept and not written. None is made where the asker's host has
/// ended, or the session itself found no memory. A keeper refuses that Leave (3) where no session sits at the seat, as after one of
/// the client's own. It may refuse it for want of memory or a full history too, or be held: then the session stands.
///
/// A piece is read once all calls that came before it are answered, 8,192 bytes at most. Of the last piece, what is behind the last
/// frame that was answered is lost. The writer is not flushed, so it should keep nothing back.
pub fn serve<R: Read, W: Write, A: Asks>(
    alloc: Global,
    reader: &mut R,
    writer: &mut W,
    asker: &mut A,
    frame_limit: u32,
) -> SessionEnd
    ensures served { IsServed A.asks frame_limit (R.remaining reader.old) (R.remaining reader.new) (W.contents writer.old)
        (W.contents writer.new) asker.old asker.new result }
    ensures within { result.calls ≤ frame_limit }
    ensures small { result.written < 2 ^ 48 }
{
    let mut counts = Counts {
        calls: 0,
        written: 0,
    };
    let why = serve_frames(alloc, reader, writer, asker, frame_limit, &mut counts);
    let left = match why.leave() {
        Some(why) => asker.ask(alloc, ClientCall::Leave { why }).ok(),
        None => None,
    };
    SessionEnd {
        why,
        calls: counts.calls,
        written: counts.written,
        left,
    }
}
