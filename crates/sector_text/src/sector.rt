// The text of a sector.
ghost use Rattle.std.specs.Prelude.{◌≡◌, ◌++◌, OnOk};
ghost use Rattle.sector_text.specs.Hex.{all_are, hex_of};

use crate::digits::{put_byte, put_bytes};
use std::alloc::AllocError;

/// Appends the text of the bytes: the two digits of one of them where all are equal, else the two digits of
/// each, and nothing where there are none.
#[tactic(auto, unfolding(crate::specs::Hex::hex_of))]
pub fn put_hex(out: &mut Vec<u8>, sector: &[u8]) -> Result<(), AllocError>
    ensures { OnOk result (out.new.items ≡ out.old.items ++ hex_of sector.now) }
{
    match sector.split_first() {
        None => Ok(()),
        Some((first, others)) => {
            if is_all(*first, others) {
                put_byte(out, *first)
            } else {
                put_bytes(out, sector)
            }
        }
    }
}

// Every one of the bytes is this one. No early end, so that many are compared at a time.
fn is_all(byte: u8, others: &[u8]) -> bool
    ensures { result ≡ all_are byte others.now }
{
    let mut same = true;
    for other in others {
        same &= *other == byte;
    }
    same
}
