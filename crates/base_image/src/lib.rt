#![tactic(auto)]
//! Images: read-only bytes under the host, in sectors of 512, from memory or from a file.
//!
//! | call | rule that it meets |
//! |---|---|
//! | `Image::read_at` | bytes of the image, or a failure that is counted; nothing only at the image's end. It is one read, and logged |
//! | `MemoryImage` | tells the bytes that it was given, and so many sectors as it was told |
//! | `ZeroImage` | so many sectors of zeros, without their memory |
//! | `FileImage` | reads a file; of its bytes no contract can speak |
//! | `file_image`, `file_images` | the image in a file, opened once or by each of so many workers |
//! | `are_alike` | whether images tell as many sectors as the first |
//! | `FailingImage` | another image, of which the read with one number fails, and no other; it passes on each other read once |
//! | `ReadLog` | the reads of an image, for proofs alone |

mod failing;
mod file;
mod files;
mod image;
mod log;
mod memory;
mod read;
mod zero;

pub use failing::FailingImage;
pub use file::FileImage;
pub use files::{are_alike, file_image, file_images};
pub use image::{Image, ImageFault};
pub use log::ReadLog;
pub use memory::MemoryImage;
pub use read::LoggedRead;
pub use zero::ZeroImage;
