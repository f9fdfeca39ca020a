// A peer of a host that serves: it writes bytes to a socket, and reads what comes.
use std::alloc::{AllocError, Global};
use std::io::{self, Read, Write};
use std::net::Net;
use std::os::unix::net::UnixStream;
use std::thread;
use std::time::{Clock, Duration};

// So often a connection is tried, a millisecond apart.
const TRIES: u32 = 20_000;

// Bytes in hexadecimal, two digits each, with spaces between some; and behind them a sector of one byte, if there is one.
#[derive(Clone, Copy)]
pub struct Frame(pub &'static str, pub Option<u8>);

// The place of a peer, what it sends, and what must come back.
#[derive(Clone, Copy)]
pub struct Talk(pub usize, pub Frame, pub Frame);

// A connection to the path, once somebody listens there.
pub fn connected(rt: &(impl Net + Clock), path: &str) -> io::Result<UnixStream> {
    for _ in 0..TRIES {
        if let Ok(stream) = UnixStream::connect(rt, path) {
            return Ok(stream);
        }
        thread::sleep(rt, Duration::from_millis(1));
    }
    UnixStream::connect(rt, path)
}

// Whether just the wanted bytes come back for those that are sent.
pub fn answers(alloc: Global, stream: &UnixStream, talk: Talk) -> bool {
    let mut stream = stream;
    let (Ok(asked), Ok(wanted)) = (bytes_of(alloc, talk.1), bytes_of(alloc, talk.2)) else {
        return false;
    };
    if stream.write_all(asked.as_slice()).is_err() {
        return false;
    }
    for byte in wanted {
        let mut found = [0u8; 1];
        if stream.read_exact(&mut found).is_err() || found[0] != byte {
            return false;
        }
    }
    true
}

// The bytes of a frame, or of frames.
pub fn bytes_of(alloc: Global, frame: Frame) -> Result<Vec<u8>, AllocError> {
    let Frame(text, sector) = frame;
    let mut bytes = Vec::new(alloc);
    let mut high = None;
    for digit in text.bytes() {
        let Some(value) = (digit as char).to_digit(16) else {
            continue;
        };
        match high {
            None => high = Some(value as u8),
            Some(found) => {
                bytes.push(found.wrapping_mul(16) | value as u8)?;
                high = None;
            }
        }
    }
    if let Some(byte) = sector {
        bytes.extend_from_slice(&[byte; 512])?;
    }
    Ok(bytes)
}

// Whether it has ended, with no byte more.
pub fn has_ended(stream: &UnixStream) -> bool {
    let mut stream = stream;
    matches!(stream.read(&mut [0u8; 1]), Ok(0))
}
