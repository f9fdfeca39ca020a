// Frames read and written, and streams fed, a line of digits at a time.
use session_proto::{
    Client, ClientFeeder, Fed, Feeder, Host, Operator, ReadError, Side, Version, decode, encode,
};
use std::alloc::{AllocError, Global};
use std::fmt::Debug;

/// What is printed for a line: that of its frame, or that of its stream if it has pieces.
pub fn told(alloc: Global, text: &str) -> Result<String, AllocError> {
    match text.split_once(' ') {
        Some(("client", digits)) if digits.contains('/') => fed_client(alloc, digits),
        Some(("client", digits)) => read::<Client>(alloc, Version::One, digits),
        Some(("client2", digits)) => read::<Client>(alloc, Version::Two, digits),
        Some(("operator", digits)) => told_of::<Operator>(alloc, digits),
        Some(("host", digits)) => told_of::<Host>(alloc, digits),
        _ => format!(in alloc; "no side"),
    }
}

fn told_of<S: Side + Debug>(alloc: Global, digits: &str) -> Result<String, AllocError> {
    if digits.contains('/') {
        fed::<S>(alloc, digits)
    } else {
        read::<S>(alloc, Version::One, digits)
    }
}

// The value of a frame, and whether that has another frame; or the fault.
fn read<S: Side + Debug>(
    alloc: Global,
    version: Version,
    digits: &str,
) -> Result<String, AllocError> {
    let bytes = bytes_of(alloc, digits)?;
    match decode::<S>(alloc, version, &bytes) {
        Ok(value) => {
            let frame = encode(alloc, version, &value)?;
            let told = format!(in alloc; "{value:?}")?;
            if frame.as_slice() == bytes.as_slice() {
                Ok(told)
            } else {
                format!(in alloc; "{told} of another frame")
            }
        }
        Err(ReadError::Fault(fault)) => format!(in alloc; "{fault:?}"),
        Err(ReadError::OutOfMemory) => Err(AllocError),
    }
}

// For each piece of a stream, the values that it brings, the fault, and a point if the feeder stands between two frames then.
fn fed<S: Side + Debug>(alloc: Global, digits: &str) -> Result<String, AllocError> {
    let mut feeder = Feeder::<S>::new(alloc);
    let mut told = String::new(alloc);
    for piece in digits.split('/') {
        let fed = feeder.feed(alloc, &bytes_of(alloc, piece)?)?;
        put_fed(alloc, &mut told, &fed, feeder.is_between())?;
    }
    Ok(told)
}

// The same of a client's stream, which may say version 2.
fn fed_client(alloc: Global, digits: &str) -> Result<String, AllocError> {
    let mut feeder = ClientFeeder::new(alloc);
    let mut told = String::new(alloc);
    for piece in digits.split('/') {
        let fed = feeder.feed(alloc, &bytes_of(alloc, piece)?)?;
        put_fed(alloc, &mut told, &fed, feeder.is_between())?;
    }
    Ok(told)
}

// Appends what a piece brought.
fn put_fed<S: Debug>(
    alloc: Global,
    told: &mut String,
    fed: &Fed<S>,
    is_between: bool,
) -> Result<(), AllocError> {
    for value in &fed.values {
        let text = format!(in alloc; "{value:?} ")?;
        told.push_str(&text)?;
    }
    if let Some(fault) = fed.fault {
        let text = format!(in alloc; "{fault:?} ")?;
        told.push_str(&text)?;
    }
    told.push_str(if is_between { "./" } else { "/" })
}

// The bytes of hexadecimal digits, two for each; other signs are left out.
fn bytes_of(alloc: Global, text: &str) -> Result<Vec<u8>, AllocError> {
    let mut bytes = Vec::new(alloc);
    let mut high = None;
    for sign in text.as_bytes() {
        let digit = match *sign {
            b'0'..=b'9' => *sign - b'0',
            b'a'..=b'f' => *sign - b'a' + 10,
            _ => continue,
        };
        high = match high {
            None => Some(digit),
            Some(first) => {
                bytes.push((first << 4) | digit)?;
                None
            }
        };
    }
    Ok(bytes)
}
