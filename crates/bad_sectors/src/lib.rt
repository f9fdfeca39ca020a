#![tactic(auto)]
//! Bad sectors: an image around another, of which each read that touches one of them fails.
//!
//! | call | rule that it meets |
//! |---|---|
//! | [`touch`] | whether some bytes have a sector of these ranges |
//! | [`BadSectors`] | a read that touches a bad sector fails, and does not reach the image inside; each other read is passed on once |
//!
//! ```text
//! let mut image = BadSectors::new(ZeroImage::new(64), bad);    // bad: 8+2
//! image.read_at(4608, &mut buffer)                             // Err(Device): the buffer has 512 bytes, those of sector 9
//! image.read_at(5120, &mut buffer)                             // Ok(512): sector 10
//! ```

mod bad;

pub use bad::{BadSectors, touch};
