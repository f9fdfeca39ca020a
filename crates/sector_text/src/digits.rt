// Bytes as two hexadecimal digits each.
ghost use Rattle.std.specs.Prelude.{◌≡◌, ◌++◌, ◌<◌, OnOk, false, flat_map};
ghost use Rattle.std.specs.Fmt.{digit_glyph};
ghost use Rattle.sector_text.specs.Hex.{hex_byte};

use hex::encode_to_slice;
use std::alloc::AllocError;

// The digit of a number below 16, in lower case.
fn digit(n: u8) -> u8
    requires { n < 16 }
    ensures { result ≡ digit_glyph false n }
{
    if n < 10 { b'0' + n } else { b'a' + (n - 10) }
}

/// Appends the two digits of a byte.
pub fn put_byte(out: &mut Vec<u8>, byte: u8) -> Result<(), AllocError>
    ensures { OnOk result (out.new.items ≡ out.old.items ++ hex_byte byte) }
{
    let pair = [digit(byte / 16), digit(byte % 16)];
    out.extend_from_slice(pair.as_slice())
}

// Appends the two digits of each byte, a byte at a time.
fn put_each(out: &mut Vec<u8>, bytes: &[u8]) -> Result<(), AllocError>
    ensures { OnOk result (out.new.items ≡ out.old.items ++ flat_map hex_byte bytes.now) }
{
    for byte in bytes {
        put_byte(out, *byte)?;
    }
    Ok(())
}

// Appends the 64 digits of 32 bytes, so that room is asked for once and not at each byte.
fn put_block(out: &mut Vec<u8>, block: &[u8; 32]) -> Result<(), AllocError>
    ensures { OnOk result (out.new.items ≡ out.old.items ++ flat_map hex_byte block.now) }
{
    let mut digits = [0; 64];
    match encode_to_slice(block.as_slice(), &mut digits) {
        Ok(()) => out.extend_from_slice(digits.as_slice()),
        // It refuses only another number of digits than two for each byte.
        Err(_) => unreachable!(),
    }
}

/// Appends the two digits of each byte, 32 bytes at a time. A sector is 16 such blocks, and bytes past the last block go
/// one by one.
pub fn put_bytes(out: &mut Vec<u8>, bytes: &[u8]) -> Result<(), AllocError>
    ensures { OnOk result (out.new.items ≡ out.old.items ++ flat_map hex_byte bytes.now) }
{
    let mut rest = bytes;
    while let Some((block, others)) = rest.split_first_chunk::<32>() {
        put_block(out, block)?;
        rest = others;
    }
    put_each(out, rest)
}
