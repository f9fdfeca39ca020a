// A sum as text.
ghost use Rattle.std.specs.Prelude.{◌≡◌, ◌++◌, ◌<◌, OnOk, false};
ghost use Rattle.std.specs.Fmt.{digit_glyph};
ghost use Rattle.checksum.specs.Crc.{digit, sum_digits};

use std::io::{self, Write};

/// Appends a sum as eight hexadecimal digits, the highest first. It fails only for want of memory.
pub fn put_sum(sum: u32, out: &mut Vec<u8>) -> io::Result<()>
    ensures { OnOk result (out.new.items ≡ out.old.items ++ sum_digits sum) }
{
    let text = [
        lowest(sum >> 28),
        lowest(sum >> 24),
        lowest(sum >> 20),
        lowest(sum >> 16),
        lowest(sum >> 12),
        lowest(sum >> 8),
        lowest(sum >> 4),
        lowest(sum),
    ];
    out.write_all(&text)
}

// The digit of the lowest four bits.
fn lowest(bits: u32) -> u8
    ensures { result ≡ digit bits }
{
    digit_of((bits % 16) as u8)
}

// The digit of a number below 16, in lower case.
fn digit_of(n: u8) -> u8
    requires { n < 16 }
    ensures { result ≡ digit_glyph false n }
{
    if n < 10 { b'0' + n } else { b'a' + (n - 10) }
}
