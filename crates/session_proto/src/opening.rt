// What a client's stream begins with.
ghost use Rattle.std.specs.Prelude.{◌≡◌};
ghost use Rattle.session_proto.specs.Opened.{first_at, opening_of};

use super::client::Client;
use super::fault::Fault;
use super::next::{Next, length_at};
use super::side::Side;
use super::version::Version;

// The version that the body of a stream's first frame says.
fn version_of_first(body: &[u8]) -> Result<Version, Fault>
    ensures { result ≡ first_at body.now }
{
    let Some((kind, fields)) = body.split_first() else {
        return Err(Fault::BadKind);
    };
    if *kind != 0x07 {
        return Ok(Version::One);
    }
    match fields {
        [2] => Ok(Version::Two),
        _ => Err(Fault::BadBody),
    }
}

/// What a client's stream begins with: the version of its calls, once its first frame is whole, and the length of that frame.
#[tactic(auto, unfolding(crate::specs::Reading::next_of))]
pub fn opening(bytes: &[u8]) -> Next<Version>
    ensures { result ≡ opening_of bytes.now }
{
    if bytes.len() < 4 {
        return Next::More;
    }
    let length = length_at(bytes);
    if length == 0 || length > Client::MOST {
        return Next::Bad(Fault::BadLengthField);
    }
    let length = length as usize;
    let (_, rest) = bytes.split_at(4);
    if rest.len() < length {
        return Next::More;
    }
    let (body, _) = rest.split_at(length);
    match version_of_first(body) {
        Ok(version) => Next::Whole(version, 4 + length),
        Err(fault) => Next::Bad(fault),
    }
}
