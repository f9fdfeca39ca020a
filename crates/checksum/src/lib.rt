#![tactic(auto)]
//! The sum CRC-32 of bytes, as zip, PNG and Ethernet have it.
//!
//! | call | rule that it meets |
//! |---|---|
//! | [`crc32`] | the sum of RFC 1952 |
//! | [`put_sum`] | a sum as eight hexadecimal digits |
//!
//! ```text
//! crc32(b"123456789")    // 0xcbf43926
//! crc32(b"")             // 0
//! ```

mod digits;
mod sum;
mod table;

pub use digits::put_sum;
pub use sum::crc32;
