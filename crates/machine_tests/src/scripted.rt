// An image of which a test says how it is read.
ghost use Rattle.std.specs.Prelude.{◌≡◌, None, true};

use base_image::{Image, ImageFault, LoggedRead, ReadLog};

// It has these bytes, gives at most `piece` of them a read, and the read with one number fails, if that is not 0.
#[derive(Drop)]
pub struct Scripted<'a> {
    pub bytes: &'a [u8],
    pub piece: usize,
    pub fails_at: u64,
    pub fault: ImageFault,
    pub reads: u64,
    pub faults: u64,
    pub last: Option<ImageFault>,
    pub log: ReadLog,
}

impl<'a> Scripted<'a> {
    // No read of it fails, and each gives what there is.
    pub fn new(bytes: &'a [u8]) -> Scripted<'a>
        ensures { result.faults ≡ 0 }
    {
        Scripted {
            bytes,
            piece: usize::MAX,
            fails_at: 0,
            fault: ImageFault::Device,
            reads: 0,
            faults: 0,
            last: None,
            log: ReadLog::new(),
        }
    }
}

impl Image for Scripted<'_> {
    ghost disk = { λ image. record { sectors = 2; bytes = None; may_fail = true; faults = image.faults; last = image.last } };

    ghost log = { λ image. image.log.reads };

    fn sectors(&self) -> u64 {
        2
    }

    fn read_at(&mut self, offset: u64, buffer: &mut [u8]) -> Result<usize, ImageFault> {
        self.reads = self.reads.saturating_add(1);
        let read = if self.reads == self.fails_at {
            self.faults += 1;
            self.last = Some(self.fault);
            Err(self.fault)
        } else {
            let rest = self.bytes.get(offset as usize..).unwrap_or(&[]);
            let count = rest.len().min(buffer.len()).min(self.piece);
            buffer[..count].copy_from_slice(&rest[..count]);
            Ok(count)
        };
        self.log = self.log.then(&LoggedRead {
            offset,
            asked: buffer.len(),
            outcome: read,
        });
        read
    }

    fn faults(&self) -> u64 {
        self.faults
    }
}
