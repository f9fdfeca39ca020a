#![tactic(auto)]
//! Sectors in hexadecimal text.
//!
//! | call | rule that it meets |
//! |---|---|
//! | `put_hex` | appends the text of the bytes: the two digits of one of them where all are equal, else the two digits of each |
//! | `put_hex_words` | appends a space and the text of each sector, in order |
//!
//! A sector has 512 bytes, so its text has 2 digits or 1,024, all in lower case.
//!
//! ```text
//! put_hex(out, &[65; 512])    // 41
//! put_hex(out, &[0, 10])      // 000a
//! ```

mod digits;
mod sector;
mod words;

pub use sector::put_hex;
pub use words::put_hex_words;
