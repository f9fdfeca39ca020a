// Bios without their serials, and bytes by their sum.
ghost use Rattle.std.specs.Prelude.{◌≡◌, ◌++◌, OnOk};
ghost use Rattle.host_console.specs.State.{became_text, bio_text, bytes_text, done_text};

use crate::seats::result_word;
use checksum::{crc32, put_sum};
use sector_core::{BioFields, BioResult, Range};
use std::io::{self, Write};

/// Appends a bio: its sectors, and the sum of the bytes that it stores. It fails only for want of memory.
pub fn put_bio(bio: &BioFields, out: &mut Vec<u8>) -> io::Result<()>
    ensures { OnOk result (out.new.items ≡ out.old.items ++ bio_text bio.now) }
{
    let Range { start, count } = bio.range;
    write!(out, "{start}+{count}")?;
    put_bytes(bio.payload.as_slice(), out)
}

// Appends the sum of bytes, if there are any.
fn put_bytes(bytes: &[u8], out: &mut Vec<u8>) -> io::Result<()>
    ensures { OnOk result (out.new.items ≡ out.old.items ++ bytes_text bytes.now) }
{
    if bytes.is_empty() {
        return Ok(());
    }
    write!(out, "=")?;
    put_sum(crc32(bytes), out)
}

/// Appends a completed bio after one space: what became of it, with the sum of the bytes that it read. It fails only for want of memory.
pub fn put_done(bio: &BioFields, out: &mut Vec<u8>) -> io::Result<()>
    ensures { OnOk result (out.new.items ≡ out.old.items ++ done_text bio.now) }
{
    write!(out, " ")?;
    put_bio(bio, out)?;
    write!(out, ":")?;
    put_became(bio, out)
}

// Appends what became of a bio.
fn put_became(bio: &BioFields, out: &mut Vec<u8>) -> io::Result<()>
    ensures { OnOk result (out.new.items ≡ out.old.items ++ became_text bio.now.result) }
{
    let word = result_word(bio);
    write!(out, "{word}")?;
    match &bio.result {
        Some(BioResult::Read(bytes)) => put_bytes(bytes.as_slice(), out),
        _ => Ok(()),
    }
}
