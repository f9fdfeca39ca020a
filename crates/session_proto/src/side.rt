// One side of a protocol.
ghost use Rattle.std.specs.Prelude.{◌≡◌, ℕ, ◌<◌, ◌≤◌, ◌^◌, List, ◌++◌, length, Result, Ok, OnOk};
ghost use Rattle.session_proto.specs.Frame.{IsBytes};
ghost use Rattle.session_proto.specs.Reading.{Gives};
ghost use Rattle.session_proto.specs.declared.fault.Fault.{Fault};
ghost use Rattle.session_proto.specs.declared.version.Version.{Version};

use super::fault::ReadError;
use super::version::Version;
use std::alloc::{AllocError, Global};

/// What one side of a protocol sends: a type whose values have frames, in one of its versions or in both.
///
/// A body is the bytes of a value without its length: mostly a kind byte and then the fields.
pub trait Side: Drop {
    /// The greatest length of a body, in bytes. In the host's protocol it is 32,787.
    ghost MOST: { ℕ };

    /// The body of a value, in each version in which it has one.
    ghost body: { Self → List ℕ };

    /// Holds of the values that have a frame in a version.
    ghost fits: { Version → Self → Type 0 };

    /// The value that a body says in a version, or the fault: `BadKind` or `BadBody`.
    ghost body_at: { Version → List ℕ → Result Self Fault };

    /// The greatest length of a body, in bytes.
    const MOST: u32;

    /// Appends the body of a value that has a frame in a version.
    ///
    /// # Errors
    ///
    /// A growth was refused. Then any part of the body may have been appended.
    fn put_body(&self, version: Version, out: &mut Vec<u8>) -> Result<(), AllocError>
        requires { fits version self.now }
        ensures { OnOk result (out.new.items ≡ out.old.items ++ body self.now) };

    /// Reads a body of a version, all of its bytes.
    ///
    /// # Errors
    ///
    /// The body says no value, or a growth was refused.
    fn read_body(alloc: Global, version: Version, bytes: &[u8]) -> Result<Self, ReadError>
    where
        Self: Sized,
        ensures { Gives result (body_at version bytes.now) };

    /// A greatest length fits the four bytes of a length.
    ghost few: { MOST < 2 ^ 32 };

    /// The body of a value that fits has a length from 1 to the greatest.
    ghost in_limits: { (n : Version) (v : Self) → fits n v → (0 < length (body v)) × (length (body v) ≤ MOST) };

    /// A value that fits is read again.
    ghost again: { (n : Version) (v : Self) → fits n v → body_at n (body v) ≡ Ok v };

    /// What is read is a value that fits, and the bytes are its body: there is one spelling.
    ghost spelled: { (n : Version) (bytes : List ℕ) (v : Self) → IsBytes bytes → length bytes ≤ MOST → body_at n bytes ≡ Ok v
        → fits n v × (bytes ≡ body v) };
}
