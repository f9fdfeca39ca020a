// A run of sectors.
ghost use Rattle.std.specs.Prelude.{◌≡◌, ◌+◌, ◌<◌, ◌^◌};

/// `count` sectors from sector `start` on. A bio has 1 to 64 of them, a request 1 to 256.
#[derive(Clone, Copy, Debug, PartialEq, Eq)]
pub struct Range {
    /// The first sector.
    pub start: u64,
    /// How many sectors.
    pub count: u32,
}

impl Range {
    /// The sector after the last one.
    pub fn end(&self) -> u64
        requires { self.now.start + self.now.count < 2 ^ 64 }
        ensures { result ≡ self.now.start + self.now.count }
    {
        self.start + u64::from(self.count)
    }
}
