// The texts of several sectors.
ghost use Rattle.std.specs.Prelude.{◌≡◌, ◌++◌, ◌/◌, OnOk, length};
ghost use Rattle.sector_text.specs.Hex.{hex_words};

use crate::put_hex;
use std::alloc::AllocError;

/// Appends a space and the text of each sector, in order. Bytes past the last whole sector are left out.
pub fn put_hex_words(out: &mut Vec<u8>, bytes: &[u8]) -> Result<(), AllocError>
    ensures { OnOk result (out.new.items ≡ out.old.items ++ hex_words (length bytes.now / 512) bytes.now) }
{
    let mut rest = bytes;
    while rest.len() >= 512 {
        let (sector, others) = rest.split_at(512);
        out.push(b' ')?;
        put_hex(out, sector)?;
        rest = others;
    }
    Ok(())
}
