// What is held between two bytes of a script.

use arrayvec::ArrayVec;

/// A line has at most this many bytes, without its 0A.
pub const MOST_BYTES: usize = 256;

/// A script has at most this many lines.
pub const MOST_LINES: u64 = 1_048_576;

/// The lines that have run, the line that has begun, and room for what a line prints.
#[derive(Drop)]
pub struct Held {
    pub count: u64,
    pub begun: ArrayVec<u8, MOST_BYTES>,
    pub text: Vec<u8>,
}
