// One read of an image.
use crate::image::ImageFault;

/// A read that was made of an image.
#[derive(Clone, Copy)]
pub struct LoggedRead {
    /// The byte from which it was made.
    pub offset: u64,
    /// How many bytes were asked for.
    pub asked: usize,
    /// How many came, or why none did.
    pub outcome: Result<usize, ImageFault>,
}
