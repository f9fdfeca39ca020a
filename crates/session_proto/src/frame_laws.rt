// What holds of all frames and streams.
ghost use Rattle.std.specs.Prelude.{◌≡◌, ℕ, List, [], ◌++◌, Option};
ghost use Rattle.session_proto.specs.Frame.{IsFrame};
ghost use Rattle.session_proto.specs.Stream.{IsStream};
ghost use Rattle.session_proto.specs.declared.fault.Fault.{Fault};
ghost use Rattle.session_proto.specs.declared.version.Version.{Version};

use super::side::Side;

/// In a version a value has at most one frame, no two values share one, and no frame is a proper prefix of another.
pub fn one_frame<S: Side>()
    ensures one { (n : Version) (v : S) (x y : List ℕ) → IsFrame S.body (S.fits n) v x → IsFrame S.body (S.fits n) v y → x ≡ y }
    ensures apart { (n : Version) (v w : S) (x : List ℕ) → IsFrame S.body (S.fits n) v x → IsFrame S.body (S.fits n) w x → v ≡ w }
    ensures prefix { (n : Version) (v w : S) (x rest : List ℕ) → IsFrame S.body (S.fits n) v x → IsFrame S.body (S.fits n) w (x ++ rest) → rest ≡ [] }
{}

/// A stream of a version is cut in one way: into the same values, the same rest and the same fault.
pub fn one_reading<S: Side>()
    ensures { (n : Version) (stream : List ℕ) (values others : List S) (x y : List ℕ) (f g : Option Fault)
        → IsStream S.body (S.fits n) (S.body_at n) S.MOST stream values x f
        → IsStream S.body (S.fits n) (S.body_at n) S.MOST stream others y g
        → (values ≡ others) × (x ≡ y) × (f ≡ g) }
{}
