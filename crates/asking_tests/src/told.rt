// Bytes by their digits.
use std::alloc::Global;
use std::test::Fail;

/// The bytes of hexadecimal digits, two for each; other signs are left out.
pub fn bytes_of(alloc: Global, text: &str) -> Result<Vec<u8>, Fail> {
    let mut bytes = Vec::new(alloc);
    let mut high = None;
    for sign in text.as_bytes() {
        let digit = match *sign {
            b'0'..=b'9' => *sign - b'0',
            b'a'..=b'f' => *sign - b'a' + 10,
            _ => continue,
        };
        high = match high {
            None => Some(digit),
            Some(first) => {
                bytes.push((first << 4) | digit)?;
                None
            }
        };
    }
    Ok(bytes)
}
