// The fields of a body: numbers, the most significant byte first.
ghost use Rattle.std.specs.Prelude.{◌≡◌, ◌++◌, OnOk};
ghost use Rattle.std.specs.Int.{w8, w16, w32, w64};
ghost use Rattle.session_proto.specs.Reading.{Gives};
ghost use Rattle.session_proto.specs.Fields.{Reads, big_endian, number_at, ended, named};

use super::fault::{Fault, ReadError};
use std::alloc::AllocError;

/// The body's kind has no such fields.
pub const BAD_BODY: ReadError = ReadError::Fault(Fault::BadBody);

/// Reads a byte, and gives what follows.
#[tactic(auto, unfolding(crate::specs::Fields::number_at))]
pub fn u8_of(fields: &[u8]) -> Result<(u8, &[u8]), ReadError>
    ensures { Reads (λ x. (x.0, x.1.now)) result (number_at w8 fields.now) }
{
    match fields {
        [] => Err(BAD_BODY),
        [number, rest @ ..] => Ok((*number, rest)),
    }
}

/// Reads a number of two bytes, and gives what follows.
#[tactic(auto, unfolding(crate::specs::Fields::number_at))]
pub fn u16_of(fields: &[u8]) -> Result<(u16, &[u8]), ReadError>
    ensures { Reads (λ x. (x.0, x.1.now)) result (number_at w16 fields.now) }
{
    if fields.len() < 2 {
        return Err(BAD_BODY);
    }
    let (front, rest) = fields.split_at(2);
    Ok((u16::from_be_bytes([front[0], front[1]]), rest))
}

/// Reads a number of four bytes, and gives what follows.
#[tactic(auto, unfolding(crate::specs::Fields::number_at))]
pub fn u32_of(fields: &[u8]) -> Result<(u32, &[u8]), ReadError>
    ensures { Reads (λ x. (x.0, x.1.now)) result (number_at w32 fields.now) }
{
    if fields.len() < 4 {
        return Err(BAD_BODY);
    }
    let (front, rest) = fields.split_at(4);
    let number = u32::from_be_bytes([front[0], front[1], front[2], front[3]]);
    Ok((number, rest))
}

/// Reads a number of eight bytes, and gives what follows.
#[tactic(auto, unfolding(crate::specs::Fields::number_at))]
pub fn u64_of(fields: &[u8]) -> Result<(u64, &[u8]), ReadError>
    ensures { Reads (λ x. (x.0, x.1.now)) result (number_at w64 fields.now) }
{
    if fields.len() < 8 {
        return Err(BAD_BODY);
    }
    let (front, rest) = fields.split_at(8);
    let number = u64::from_be_bytes([
        front[0], front[1], front[2], front[3], front[4], front[5], front[6], front[7],
    ]);
    Ok((number, rest))
}

/// Gives the value, as its fields have ended.
#[tactic(auto, unfolding(crate::specs::Fields::ended))]
pub fn ended<T: Drop>(value: T, fields: &[u8]) -> Result<T, ReadError>
    ensures { Gives result (ended value fields.now) }
{
    if fields.is_empty() {
        Ok(value)
    } else {
        Err(BAD_BODY)
    }
}

/// Gives the value that a field names.
pub fn named<T: Drop>(value: Option<T>) -> Result<T, ReadError>
    ensures { Gives result (named value) }
{
    value.ok_or(BAD_BODY)
}

/// Appends a byte.
#[tactic(auto, unfolding(crate::specs::Fields::big_endian))]
pub fn put_u8(out: &mut Vec<u8>, number: u8) -> Result<(), AllocError>
    ensures { OnOk result (out.new.items ≡ out.old.items ++ big_endian w8 number) }
{
    out.extend_from_slice(&number.to_be_bytes())
}

/// Appends a number of two bytes.
#[tactic(auto, unfolding(crate::specs::Fields::big_endian))]
pub fn put_u16(out: &mut Vec<u8>, number: u16) -> Result<(), AllocError>
    ensures { OnOk result (out.new.items ≡ out.old.items ++ big_endian w16 number) }
{
    out.extend_from_slice(&number.to_be_bytes())
}

/// Appends a number of four bytes.
#[tactic(auto, unfolding(crate::specs::Fields::big_endian))]
pub fn put_u32(out: &mut Vec<u8>, number: u32) -> Result<(), AllocError>
    ensures { OnOk result (out.new.items ≡ out.old.items ++ big_endian w32 number) }
{
    out.extend_from_slice(&number.to_be_bytes())
}

/// Appends a number of eight bytes.
#[tactic(auto, unfolding(crate::specs::Fields::big_endian))]
pub fn put_u64(out: &mut Vec<u8>, number: u64) -> Result<(), AllocError>
    ensures { OnOk result (out.new.items ≡ out.old.items ++ big_endian w64 number) }
{
    out.extend_from_slice(&number.to_be_bytes())
}
