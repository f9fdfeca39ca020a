// The payload of a script: a file that is read whole.
ghost use Rattle.std.specs.Prelude.{◌≡◌, ◌≤◌, None, IfOk, IfErr, IfSome, IsOk, length};
ghost use Rattle.bfqhost.specs.Status.{IsStatus};

use crate::faults::{no_memory, no_payload};
use bytes::Bytes;
use std::alloc::Global;
use std::fs::{self, File};
use std::io::{self, ErrorKind, Read};
use std::rt::Files;

// A payload has at most 64 MiB.
const MOST_BYTES: u64 = 67_108_864;

/// The bytes of the file that is named, or none if none is. If it cannot be had, that is told, and the status is given.
pub fn payload_of(
    rt: &(impl Files<File = File> + AllocGlobal + Eprint),
    path: Option<&str>,
    at_terminal: bool,
) -> Result<Option<Bytes>, u8>
    ensures none { path.entry ≡ None → IsOk result }
    ensures status { IfErr result (λ status. IsStatus status) }
{
    let Some(path) = path else {
        return Ok(None);
    };
    match read_file(rt, path) {
        Ok(payload) => Ok(Some(payload)),
        Err(error) if error.kind() == ErrorKind::OutOfMemory => Err(no_memory(rt)),
        Err(error) => Err(no_payload(rt, path, error, at_terminal)),
    }
}

// The bytes of a regular file. It is looked at before it is opened, since the open of a FIFO waits.
fn read_file(rt: &(impl Files<File = File> + AllocGlobal), path: &str) -> io::Result<Bytes> {
    if !fs::metadata(rt, path)?.file_type().is_file() {
        return Err(ErrorKind::InvalidInput.into());
    }
    let file = File::open(rt, path)?;
    let bytes = read_whole(rt.alloc(), file)?;
    Ok(Bytes::from_vec(bytes)?)
}

// All that a reader has, if it is not more than a payload may have.
fn read_whole<R: Read + Drop>(alloc: Global, reader: R) -> io::Result<Vec<u8>>
    ensures few { IfOk result (λ bytes. length bytes.items ≤ MOST_BYTES) }
    ensures whole { IfOk result (λ bytes. IfSome (R.remaining reader) (λ all. bytes.items ≡ all)) }
{
    let mut bytes = Vec::new(alloc);
    reader.take(MOST_BYTES + 1).read_to_end(&mut bytes)?;
    if bytes.len() as u64 > MOST_BYTES {
        return Err(ErrorKind::FileTooLarge.into());
    }
    Ok(bytes)
}
