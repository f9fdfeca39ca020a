// A look at a host, over a connection.

use operator_asking::{CallEnd, write_flushed};
use std::io::{Read, Write};

// A read takes at most this many bytes.
const PIECE_BYTES: usize = 4096;

// So many reads are made at most: no text of a look is as long as 4,096 bytes that come one by one.
const MOST_PIECES: u32 = 65_536;

/// Sends the line, which has its end, and keeps the one that comes back, with its end. Of one that is not whole nothing is kept.
pub fn ask_look<R: Read, W: Write>(
    reader: &mut R,
    writer: &mut W,
    line: &[u8],
    answer: &mut Vec<u8>,
) -> CallEnd {
    if !write_flushed(writer, line) {
        return CallEnd::Socket;
    }
    match receive_line(reader, answer) {
        // What the host does not know of is no line there.
        CallEnd::Done if answer.starts_with(b"bad line ".as_slice()) => CallEnd::Refused,
        CallEnd::Done => CallEnd::Done,
        end => {
            answer.clear();
            end
        }
    }
}

// Reads up to the end of a line, and keeps the line. What came behind it is dropped.
fn receive_line<R: Read>(reader: &mut R, answer: &mut Vec<u8>) -> CallEnd {
    let mut piece = [0u8; PIECE_BYTES];
    for _ in 0..MOST_PIECES {
        let count = match reader.read(&mut piece) {
            Ok(count) => count,
            Err(_) => return CallEnd::Socket,
        };
        let found = &piece[..count];
        let (kept, is_whole) = match found.iter().position(|byte| *byte == b'\n') {
            Some(place) => (&found[..place + 1], true),
            None => (found, false),
        };
        if answer.extend_from_slice(kept).is_err() {
            return CallEnd::OutOfMemory;
        }
        if is_whole {
            return CallEnd::Done;
        }
        if count == 0 {
            return CallEnd::Frame;
        }
    }
    CallEnd::Frame
}
