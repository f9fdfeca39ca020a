#![tactic(auto)]
//! Device work: what a device answers for one request in flight, from an image.
//!
//! | call | rule that it meets |
//! |---|---|
//! | [`work_once`] | a store or a discard is stored, and nothing is read; a fetch gives the image's bytes, or how the read ended |
//!
//! A fetch reads until its range is full. Where the image ends before, it failed short; where the device fails, it failed by
//! a fault; where the device is busy, the request is given back. Each read asks for what is left, behind what came so far, and
//! none is made behind the last byte or a read that failed.

mod fill;
mod work;

pub use work::work_once;
