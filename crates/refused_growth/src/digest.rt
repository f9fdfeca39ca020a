// Numbers and bytes told apart by one number.
use sector_core::{BioResult, FailKind, Op, Outcome, Range};

/// A number made of all numbers that were added, in their order. If two runs add as many and differ in one alone, so do their digests.
#[derive(Clone, Copy, Debug, PartialEq, Eq)]
pub struct Digest(u64);

impl Digest {
    /// Nothing was added.
    pub fn new() -> Digest {
        Digest(0xcbf2_9ce4_8422_2325)
    }

    /// Adds a number. For each number this is one-to-one on what was there before.
    pub fn add(&mut self, number: u64) {
        let mixed = (self.0 ^ number).wrapping_mul(0x9e37_79b9_7f4a_7c15);
        self.0 = mixed ^ (mixed >> 32);
    }

    /// Adds bytes, and how many there are.
    pub fn add_bytes(&mut self, bytes: &[u8]) {
        self.add(bytes.len() as u64);
        let mut rest = bytes;
        for _ in 0..bytes.len() {
            if rest.len() < 8 {
                break;
            }
            let (front, left) = rest.split_at(8);
            self.add(u64::from_be_bytes([
                front[0], front[1], front[2], front[3], front[4], front[5], front[6], front[7],
            ]));
            rest = left;
        }
        for byte in rest {
            self.add(u64::from(*byte));
        }
    }

    /// Adds how many bytes there are, and one of each 64.
    pub fn add_some_bytes(&mut self, bytes: &[u8]) {
        self.add(bytes.len() as u64);
        for at in 0..bytes.len() / 64 {
            if let Some(byte) = bytes.get(at * 64) {
                self.add(u64::from(*byte));
            }
        }
    }

    /// Adds a range.
    pub fn add_range(&mut self, range: Range) {
        self.add(range.start);
        self.add(u64::from(range.count));
    }

    /// Adds an operation.
    pub fn add_op(&mut self, op: Op) {
        self.add(match op {
            Op::Fetch => 0,
            Op::Store => 1,
            Op::Discard => 2,
        });
    }

    /// Adds how a device failed.
    pub fn add_kind(&mut self, kind: FailKind) {
        self.add(match kind {
            FailKind::Short => 0,
            FailKind::Fault => 1,
        });
    }

    /// Adds what became of a bio.
    pub fn add_result(&mut self, became: &BioResult) {
        match became {
            BioResult::Read(bytes) => {
                self.add(1);
                self.add_bytes(bytes.as_slice());
            }
            BioResult::Written => self.add(2),
            BioResult::Discarded => self.add(4),
            BioResult::IoError(kind) => {
                self.add(3);
                self.add_kind(*kind);
            }
        }
    }

    /// Adds what a device says, with some of its bytes.
    pub fn add_outcome(&mut self, outcome: &Outcome) {
        match outcome {
            Outcome::Fetched(bytes) => {
                self.add(1);
                self.add_some_bytes(bytes.as_slice());
            }
            Outcome::Stored => self.add(2),
            Outcome::Failed(kind) => {
                self.add(3);
                self.add_kind(*kind);
            }
        }
    }
}
