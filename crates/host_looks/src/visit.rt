// A connection of who looks, read so that it keeps nobody out.
ghost use Rattle.std.specs.Prelude.{◌≤◌, length};

use std::alloc::Global;
use std::io::{self, BufRead, BufReader, ErrorKind, Read};
use std::os::unix::net::{UnixListener, UnixStream};
use std::time::{Clock, Duration, Instant};

// Who asks nothing for so many milliseconds, or takes nothing, is not waited for.
const IDLE: u64 = 1000;

// Who has been met for so many makes room if another one waits. A write may take IDLE besides, and the next is to be met within two seconds.
const SHARE: u64 = 500;

// A read waits for so many, and so often: then who waits is looked for again. Together that is longer than IDLE.
const PATIENCE: u64 = 100;

const TRIES: u32 = 11;

// What is read at once. Most of it may be lines that are not asked yet.
const PIECE_BYTES: usize = 4096;

/// A connection, one line of which is read at a time.
#[derive(Drop)]
pub struct Visit<'a, R: Clock> {
    clock: &'a R,
    listener: &'a UnixListener,
    reader: BufReader<&'a UnixStream>,
    begun: Instant,
    // When the host was ready for the next line.
    ready: Instant,
    is_answered: bool,
    next: Option<UnixStream>,
}

impl<'a, R: Clock> Visit<'a, R> {
    /// A connection from which nothing was read, of a listener that makes nobody wait.
    ///
    /// # Errors
    ///
    /// There is no memory or no clock, or the system gives no limit of time.
    pub fn new(
        clock: &'a R,
        alloc: Global,
        listener: &'a UnixListener,
        stream: &'a UnixStream,
    ) -> io::Result<Visit<'a, R>> {
        stream.set_read_timeout(Some(Duration::from_millis(PATIENCE)))?;
        stream.set_write_timeout(Some(Duration::from_millis(IDLE)))?;
        let reader = BufReader::with_capacity(alloc, PIECE_BYTES, stream)?;
        let begun = Instant::now(clock)?;
        Ok(Visit {
            clock,
            listener,
            reader,
            begun,
            ready: begun,
            is_answered: false,
            next: None,
        })
    }

    /// Who was met meanwhile.
    pub fn next(self) -> Option<UnixStream> {
        self.next
    }

    // Whether it asked nothing for too long, or makes room for another one.
    fn is_over(&mut self) -> io::Result<bool> {
        let now = Instant::now(self.clock)?;
        if self.is_answered {
            self.ready = now;
            self.is_answered = false;
        }
        if now.saturating_duration_since(self.ready) >= Duration::from_millis(IDLE) {
            return Ok(true);
        }
        if now.saturating_duration_since(self.begun) < Duration::from_millis(SHARE) {
            return Ok(false);
        }
        match self.listener.accept() {
            Ok((stream, _)) => {
                self.next = Some(stream);
                Ok(true)
            }
            Err(_) => Ok(false),
        }
    }

    // Waits until something was read, or the input has ended. An end that is made here for who is over would let a line run of which only a
    // front was read.
    fn wait(&mut self) -> io::Result<()> {
        for _ in 0..TRIES {
            if self.is_over()? {
                break;
            }
            match self.reader.fill_buf() {
                // The write of an answer may take as long as a read, so who waits is looked for behind the read too.
                Ok(_) => {
                    if self.is_over()? {
                        break;
                    }
                    return Ok(());
                }
                Err(error) if error.kind() == ErrorKind::WouldBlock => {}
                Err(error) => return Err(error),
            }
        }
        Err(ErrorKind::TimedOut.into())
    }
}

impl<'a, R: Clock> Read for Visit<'a, R> {
    fn read(&mut self, buf: &mut [u8]) -> io::Result<usize> {
        self.wait()?;
        let held = self.reader.buffer();
        let count = line_length(held).min(buf.len());
        buf[..count].copy_from_slice(&held[..count]);
        self.is_answered = held[..count].last() == Some(&b'\n');
        self.reader.consume(count);
        Ok(count)
    }
}

// How many bytes these have up to the first 0A, with it, or all.
fn line_length(bytes: &[u8]) -> usize
    ensures { result ≤ length bytes.now }
{
    match bytes.iter().position(|byte| *byte == b'\n') {
        Some(place) => place + 1,
        None => bytes.len(),
    }
}
