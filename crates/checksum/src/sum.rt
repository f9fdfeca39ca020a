// The sum of bytes.
ghost use Rattle.std.specs.Prelude.{◌≡◌, ◌*◌, ◌/◌, [], ◌∷◌, drop, length};
ghost use Rattle.checksum.specs.Crc.{crc32, with_byte, with_bytes};

use super::table::{before_one, before_three, before_two, entry};

/// The sum of the bytes.
pub fn crc32(bytes: &[u8]) -> u32
    ensures { result ≡ crc32 bytes.now }
{
    // Four at once take half the time.
    let done = bytes.len() / 4 * 4;
    with_rest(with_fours(u32::MAX, bytes), &bytes[done..]) ^ u32::MAX
}

// A sum with as many of these bytes more as are four, and four, and so on.
fn with_fours(sum: u32, bytes: &[u8]) -> u32
    ensures { with_bytes result (drop (length bytes.now / 4 * 4) bytes.now) ≡ with_bytes sum bytes.now }
{
    let mut sum = sum;
    for four in 0..bytes.len() / 4 {
        let at = four * 4;
        sum = with_four(sum, bytes[at], bytes[at + 1], bytes[at + 2], bytes[at + 3]);
    }
    sum
}

// A sum with these bytes more, one after the other.
fn with_rest(sum: u32, bytes: &[u8]) -> u32
    ensures { result ≡ with_bytes sum bytes.now }
{
    let mut sum = sum;
    for byte in bytes {
        sum = with_byte(sum, *byte);
    }
    sum
}

// A sum with one byte more.
fn with_byte(sum: u32, byte: u8) -> u32
    ensures { result ≡ with_byte sum byte }
{
    let low = (sum ^ u32::from(byte)) % 256;
    entry(low as u8) ^ (sum / 256)
}

// A sum with four bytes more: each goes with one byte of the sum, and has as many zeros behind it as bytes come after it.
fn with_four(sum: u32, first: u8, second: u8, third: u8, fourth: u8) -> u32
    ensures { result ≡ with_bytes sum (first ∷ second ∷ third ∷ fourth ∷ []) }
{
    let low = (sum % 256) ^ u32::from(first);
    let second_of = sum / 256;
    let next = (second_of % 256) ^ u32::from(second);
    let third_of = second_of / 256;
    let high = (third_of % 256) ^ u32::from(third);
    let highest = (third_of / 256) ^ u32::from(fourth);
    before_three(low as u8) ^ before_two(next as u8) ^ before_one(high as u8) ^ entry(highest as u8)
}
