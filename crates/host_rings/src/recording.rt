// The record of a host on file.

use run_record::Header;
use run_recording::Recorder;
use std::alloc::Global;
use std::fs::{self, OpenOptions};
use std::io::{self, BufWriter, ErrorKind, Write};
use std::os::unix::fs::OpenOptionsExt;
use std::rt::Files;

// A record is written in pieces of this size.
const PIECE_BYTES: usize = 65_536;

// Who made a record may use it, and nobody else.
const OWNER_ALONE: u32 = 0o600;

/// Makes the file of a record, which must not be there, and writes the first line. Its owner alone may read it, as the clients' bytes are
/// in it.
///
/// # Errors
///
/// Something is there, or the file cannot be made or written; or there is no memory. Then no file is left that was not there.
pub fn open_record<R: Files>(
    rt: &R,
    alloc: Global,
    path: &str,
    header: &Header,
) -> io::Result<Recorder<BufWriter<R::File>>>
where
    R::File: Write + Drop,
{
    let file = match OpenOptions::new()
        .write(true)
        .create_new(true)
        .mode(OWNER_ALONE)
        .open(rt, path)
    {
        Ok(file) => file,
        // Of a folder the system does not always say that it is there.
        Err(_) if fs::symlink_metadata(rt, path).is_ok() => {
            return Err(ErrorKind::AlreadyExists.into());
        }
        Err(error) => return Err(error),
    };
    let begun = begin(alloc, file, header);
    if begun.is_err() {
        drop_record(rt, path);
    }
    begun
}

// Writes the first line. It is to be on the way before the host serves.
fn begin<W: Write + Drop>(
    alloc: Global,
    file: W,
    header: &Header,
) -> io::Result<Recorder<BufWriter<W>>> {
    let writer = BufWriter::with_capacity(alloc, PIECE_BYTES, file)?;
    let Some(mut recorder) = Recorder::new(alloc, writer, header) else {
        return Err(ErrorKind::OutOfMemory.into());
    };
    recorder.writer.flush()?;
    Ok(recorder)
}

/// Removes the record of a host that did not come to serve.
pub fn drop_record(rt: &impl Files, path: &str) {
    // A file that is gone already is as it should be.
    let _ = fs::remove_file(rt, path);
}
