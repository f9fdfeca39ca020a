// The texts of answers.
ghost use Rattle.std.specs.Prelude.{◌≡◌, ◌∷◌, ◌++◌, [], OnOk};
ghost use Rattle.host_calls.specs.Texts.{op_text, text_of, reply_text, result_text, sent_text};

use crate::words::{put_number, put_numbered};
use plain::{Answer, Reply};
use sector_core::{BioResult, FailKind, Op, Range};
use sector_text::put_hex_words;
use std::alloc::AllocError;
use std::io;

/// Appends the text of an answer. It fails only for want of memory.
pub fn put_answer(answer: &Answer, out: &mut Vec<u8>) -> io::Result<()>
    ensures { OnOk result (out.new.items ≡ out.old.items ++ text_of answer.now) }
{
    match answer {
        Answer::Accepted(reply) => Ok(put_reply(reply, out)?),
        Answer::Refused(code) => {
            let number = code.number();
            Ok(put_numbered(b"refused ", u64::from(number), out)?)
        }
        Answer::NotYet(cause) => {
            let number = cause.number();
            Ok(put_numbered(b"notyet ", u64::from(number), out)?)
        }
    }
}

fn put_reply(reply: &Reply, out: &mut Vec<u8>) -> Result<(), AllocError>
    ensures { OnOk result (out.new.items ≡ out.old.items ++ reply_text reply.now) }
{
    match reply {
        Reply::Attached { session } => put_numbered(b"attached ", *session, out),
        Reply::Queued { bio } => put_numbered(b"queued ", *bio, out),
        Reply::Completed { bio, result: what } => {
            put_numbered(b"completed ", *bio, out)?;
            out.extend_from_slice(b" ")?;
            put_result(what, out)
        }
        Reply::Left => out.extend_from_slice(b"left"),
        Reply::Issued {
            tag,
            issue,
            op,
            range,
        } => {
            out.extend_from_slice(b"issued ")?;
            put_sent(*tag, *issue, *op, *range, out)
        }
        Reply::Finished { bios } => put_numbered(b"finished ", u64::from(*bios), out),
        Reply::Requeued => out.extend_from_slice(b"requeued"),
        Reply::Group { number } => put_numbered(b"group ", u64::from(*number), out),
        Reply::Done => out.extend_from_slice(b"done"),
        Reply::Moved { cursor, length } => {
            put_numbered(b"moved ", u64::from(*cursor), out)?;
            put_numbered(b" ", u64::from(*length), out)
        }
        Reply::Taken(work) => {
            out.extend_from_slice(b"taken ")?;
            put_sent(work.tag, work.issue, work.op, work.range, out)
        }
    }
}

fn put_result(what: &BioResult, out: &mut Vec<u8>) -> Result<(), AllocError>
    ensures { OnOk result (out.new.items ≡ out.old.items ++ result_text what.now) }
{
    match what {
        BioResult::Read(bytes) => {
            out.extend_from_slice(b"read")?;
            put_hex_words(out, bytes.as_slice())
        }
        BioResult::Written => out.extend_from_slice(b"written"),
        BioResult::Discarded => out.extend_from_slice(b"discarded"),
        BioResult::IoError(FailKind::Short) => out.extend_from_slice(b"error short"),
        BioResult::IoError(FailKind::Fault) => out.extend_from_slice(b"error fault"),
    }
}

fn put_sent(tag: u8, issue: u64, op: Op, range: Range, out: &mut Vec<u8>) -> Result<(), AllocError>
    ensures { OnOk result (out.new.items ≡ out.old.items ++ sent_text tag issue op range) }
{
    put_number(u64::from(tag), out)?;
    put_numbered(b" ", issue, out)?;
    put_numbered(op_word(op), range.start, out)?;
    put_numbered(b" ", u64::from(range.count), out)
}

// The word of an operation, between its two spaces.
fn op_word(op: Op) -> &'static [u8]
    ensures { result.now ≡ 32 ∷ (op_text op ++ 32 ∷ []) }
{
    match op {
        Op::Fetch => b" fetch ",
        Op::Store => b" store ",
        Op::Discard => b" discard ",
    }
}
