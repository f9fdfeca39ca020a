// A submit's session and its sectors, as they are spelled.
ghost use Rattle.std.specs.Prelude.{◌≡◌, ◌<◌, ◌^◌, ◌++◌, OnOk};
ghost use Rattle.session_proto.specs.Fields.{Reads};
ghost use Rattle.session_proto.specs.Client.{span_bytes, span_at};

use super::fault::ReadError;
use super::fields::{put_u16, put_u64, u16_of, u64_of};
use sector_core::Range;
use std::alloc::AllocError;

/// Appends a submit's session and sectors.
#[tactic(auto, unfolding(crate::specs::Client::span_bytes))]
pub fn put_span(out: &mut Vec<u8>, session: u64, range: Range) -> Result<(), AllocError>
    requires { range.count < 2 ^ 16 }
    ensures { OnOk result (out.new.items ≡ out.old.items ++ span_bytes session range) }
{
    put_u64(out, session)?;
    put_u64(out, range.start)?;
    put_u16(out, range.count as u16)
}

/// A submit's session and sectors, and what follows them.
///
/// # Errors
///
/// The fields end before they do.
#[tactic(auto, unfolding(crate::specs::Client::span_at))]
pub fn span_of(fields: &[u8]) -> Result<(u64, Range, &[u8]), ReadError>
    ensures { Reads (λ x. (x.0, x.1, x.2.now)) result (span_at fields.now) }
{
    let (session, fields) = u64_of(fields)?;
    let (start, fields) = u64_of(fields)?;
    let (count, fields) = u16_of(fields)?;
    let count = u32::from(count);
    Ok((session, Range { start, count }, fields))
}
