// What the host sends.
ghost use Rattle.std.specs.Prelude.{◌≡◌, ◌∷◌, ◌++◌, OnOk};
ghost use Rattle.std.specs.Int.{w64};
ghost use Rattle.std.proofs.Common.{rules};
ghost use Rattle.session_proto.specs.Reading.{Gives};
ghost use Rattle.session_proto.specs.Fields.{big_endian};
ghost use Rattle.session_proto.specs.Kinds.{read_by};
ghost use Rattle.session_proto.specs.Host.{host_body, reply_body, result_body, HostFits, host_kinds, host_at, accepted, is_sectors, fail_number, fail_of_number, attached_at, queued_at, read_at, written_at, error_at, discarded_at, group_at, moved_at, refused_at, not_yet_at};
ghost use Rattle.session_proto.specs.HostLaws.{host_in_limits, host_again, host_spelled};
ghost use Rattle.plain.specs.declared.answer.Reply.TheVariants.{Completed};

use super::fault::{Fault, ReadError};
use super::fields::{BAD_BODY, ended, named, put_u8, put_u32, put_u64, u8_of, u32_of, u64_of};
use super::side::Side;
use super::version::Version;
use bytes::Bytes;
use host_calls::RingReply;
use plain::{Answer, Cause, Code, Reply};
use sector_core::{BioResult, FailKind, SECTOR_BYTES};
use std::alloc::{AllocError, Global};

// The bytes of 64 sectors.
const MOST_READ: usize = 32_768;

/// The side of the host: what it sends to a client or to the operator, the same in each version.
///
/// A reply to the dispatcher or to a device has no frame, nor has a read whose bytes are not those of 1 to 64 sectors.
#[derive(Debug, Drop)]
pub struct Host(pub RingReply);

impl Side for Host {
    ghost MOST = { 32787 };

    ghost body = { λ r. host_body r.0 };

    ghost fits = { λ _ r. HostFits r.0 };

    ghost body_at = { λ _. host_at };

    ghost few = { Prim.search rules };

    ghost in_limits = { λ _. host_in_limits };

    ghost again = { λ _. host_again };

    ghost spelled = { λ _. host_spelled };

    // That of all sides, though a read of 64 sectors is 10 bytes shorter than a store of as many.
    const MOST: u32 = 32_787;

    fn put_body(&self, _version: Version, out: &mut Vec<u8>) -> Result<(), AllocError> {
        put_answered(out, &self.0)
    }

    #[tactic(auto, unfolding(crate::specs::Host::host_at))]
    fn read_body(alloc: Global, _version: Version, bytes: &[u8]) -> Result<Host, ReadError> {
        Ok(Host(reply_of(alloc, bytes)?))
    }
}

// Appends the body of a reply.
fn put_answered(out: &mut Vec<u8>, reply: &RingReply) -> Result<(), AllocError>
    requires { HostFits reply.now }
    ensures { OnOk result (out.new.items ≡ out.old.items ++ host_body reply.now) }
{
    match reply {
        RingReply::Answer(Answer::Accepted(reply)) => put_reply(out, reply)?,
        RingReply::Answer(Answer::Refused(code)) => {
            out.push(0xe0)?;
            put_u8(out, code.number())?;
        }
        RingReply::Answer(Answer::NotYet(cause)) => {
            out.push(0xe1)?;
            put_u8(out, cause.number())?;
        }
        RingReply::Closed => out.push(0x9f)?,
    }
    Ok(())
}

// The reply that a body says, by its kind.
fn reply_of(alloc: Global, bytes: &[u8]) -> Result<RingReply, ReadError>
    ensures { Gives result (read_by host_kinds bytes.now) }
{
    let Some((kind, fields)) = bytes.split_first() else {
        return Err(ReadError::Fault(Fault::BadKind));
    };
    match *kind {
        0x81 => attached_of(fields),
        0x82 => queued_of(fields),
        0x83 => read_of(alloc, fields),
        0x84 => written_of(fields),
        0x85 => error_of(fields),
        0x86 => ended(accepted(Reply::Left), fields),
        0x87 => discarded_of(fields),
        0x91 => group_of(fields),
        0x92 => ended(accepted(Reply::Done), fields),
        0x93 => moved_of(fields),
        0x9f => ended(RingReply::Closed, fields),
        0xe0 => refused_of(fields),
        0xe1 => not_yet_of(fields),
        _ => Err(ReadError::Fault(Fault::BadKind)),
    }
}

fn accepted(reply: Reply) -> RingReply
    ensures { result ≡ accepted reply }
{
    RingReply::Answer(Answer::Accepted(reply))
}

// Appends a kind and the name of a session or of a bio.
fn put_name(out: &mut Vec<u8>, kind: u8, name: u64) -> Result<(), AllocError>
    ensures { OnOk result (out.new.items ≡ out.old.items ++ kind ∷ big_endian w64 name) }
{
    out.push(kind)?;
    put_u64(out, name)
}

// Appends the body of what an accepted call gives, or nothing if that has no frame.
fn put_reply(out: &mut Vec<u8>, reply: &Reply) -> Result<(), AllocError>
    ensures { OnOk result (out.new.items ≡ out.old.items ++ reply_body reply.now) }
{
    match reply {
        Reply::Attached { session } => put_name(out, 0x81, *session)?,
        Reply::Queued { bio } => put_name(out, 0x82, *bio)?,
        Reply::Completed { bio, result } => put_result(out, *bio, result)?,
        Reply::Left => out.push(0x86)?,
        Reply::Group { number } => {
            out.push(0x91)?;
            put_u8(out, *number)?;
        }
        Reply::Done => out.push(0x92)?,
        Reply::Moved { cursor, length } => {
            out.push(0x93)?;
            put_u32(out, *cursor)?;
            put_u32(out, *length)?;
        }
        Reply::Issued { .. } | Reply::Finished { .. } | Reply::Requeued | Reply::Taken(_) => {}
    }
    Ok(())
}

// Appends the body of what became of a bio.
fn put_result(out: &mut Vec<u8>, bio: u64, what: &BioResult) -> Result<(), AllocError>
    ensures { OnOk result (out.new.items ≡ out.old.items ++ result_body bio what.now) }
{
    match what {
        BioResult::Read(bytes) => {
            put_name(out, 0x83, bio)?;
            // The bytes go out by this one copy.
            out.extend_from_slice(bytes)
        }
        BioResult::Written => put_name(out, 0x84, bio),
        BioResult::Discarded => put_name(out, 0x87, bio),
        BioResult::IoError(kind) => {
            put_name(out, 0x85, bio)?;
            put_u8(out, number_of(*kind))
        }
    }
}

fn number_of(kind: FailKind) -> u8
    ensures { result ≡ fail_number kind }
{
    match kind {
        FailKind::Short => 1,
        FailKind::Fault => 2,
    }
}

#[tactic(auto, unfolding(crate::specs::Host::fail_of_number))]
fn fail_of(number: u8) -> Option<FailKind>
    ensures { result ≡ fail_of_number number }
{
    match number {
        1 => Some(FailKind::Short),
        2 => Some(FailKind::Fault),
        _ => None,
    }
}

// The readers of kinds: each reads its kind's fields, to the end of the body.

#[tactic(auto, unfolding(crate::specs::Host::attached_at))]
fn attached_of(fields: &[u8]) -> Result<RingReply, ReadError>
    ensures { Gives result (attached_at fields.now) }
{
    let (session, fields) = u64_of(fields)?;
    ended(accepted(Reply::Attached { session }), fields)
}

#[tactic(auto, unfolding(crate::specs::Host::queued_at))]
fn queued_of(fields: &[u8]) -> Result<RingReply, ReadError>
    ensures { Gives result (queued_at fields.now) }
{
    let (bio, fields) = u64_of(fields)?;
    ended(accepted(Reply::Queued { bio }), fields)
}

fn completed(bio: u64, what: BioResult) -> RingReply
    ensures { result ≡ accepted (Completed bio what) }
{
    accepted(Reply::Completed { bio, result: what })
}

// Whether these are the bytes of 1 to 64 sectors.
#[tactic(auto, unfolding(crate::specs::Host::is_sectors))]
fn are_sectors(bytes: &[u8]) -> bool
    ensures { result ≡ is_sectors bytes.now }
{
    !bytes.is_empty() && bytes.len() <= MOST_READ && bytes.len() % SECTOR_BYTES == 0
}

#[tactic(auto, unfolding(crate::specs::Host::read_at))]
fn read_of(alloc: Global, fields: &[u8]) -> Result<RingReply, ReadError>
    ensures { Gives result (read_at fields.now) }
{
    let (bio, bytes) = u64_of(fields)?;
    if !are_sectors(bytes) {
        return Err(BAD_BODY);
    }
    Ok(completed(bio, BioResult::Read(Bytes::copy_from_slice(alloc, bytes)?)))
}

#[tactic(auto, unfolding(crate::specs::Host::written_at))]
fn written_of(fields: &[u8]) -> Result<RingReply, ReadError>
    ensures { Gives result (written_at fields.now) }
{
    let (bio, fields) = u64_of(fields)?;
    ended(completed(bio, BioResult::Written), fields)
}

#[tactic(auto, unfolding(crate::specs::Host::error_at))]
fn error_of(fields: &[u8]) -> Result<RingReply, ReadError>
    ensures { Gives result (error_at fields.now) }
{
    let (bio, fields) = u64_of(fields)?;
    let (number, fields) = u8_of(fields)?;
    let kind = named(fail_of(number))?;
    ended(completed(bio, BioResult::IoError(kind)), fields)
}

#[tactic(auto, unfolding(crate::specs::Host::discarded_at))]
fn discarded_of(fields: &[u8]) -> Result<RingReply, ReadError>
    ensures { Gives result (discarded_at fields.now) }
{
    let (bio, fields) = u64_of(fields)?;
    ended(completed(bio, BioResult::Discarded), fields)
}

#[tactic(auto, unfolding(crate::specs::Host::group_at))]
fn group_of(fields: &[u8]) -> Result<RingReply, ReadError>
    ensures { Gives result (group_at fields.now) }
{
    let (number, fields) = u8_of(fields)?;
    ended(accepted(Reply::Group { number }), fields)
}

#[tactic(auto, unfolding(crate::specs::Host::moved_at))]
fn moved_of(fields: &[u8]) -> Result<RingReply, ReadError>
    ensures { Gives result (moved_at fields.now) }
{
    let (cursor, fields) = u32_of(fields)?;
    let (length, fields) = u32_of(fields)?;
    ended(accepted(Reply::Moved { cursor, length }), fields)
}

#[tactic(auto, unfolding(crate::specs::Host::refused_at))]
fn refused_of(fields: &[u8]) -> Result<RingReply, ReadError>
    ensures { Gives result (refused_at fields.now) }
{
    let (number, fields) = u8_of(fields)?;
    let code = named(Code::of_number(number))?;
    ended(RingReply::Answer(Answer::Refused(code)), fields)
}

#[tactic(auto, unfolding(crate::specs::Host::not_yet_at))]
fn not_yet_of(fields: &[u8]) -> Result<RingReply, ReadError>
    ensures { Gives result (not_yet_at fields.now) }
{
    let (number, fields) = u8_of(fields)?;
    let cause = named(Cause::of_number(number))?;
    ended(RingReply::Answer(Answer::NotYet(cause)), fields)
}
