// What holds of the kinds of all sides.
ghost use Rattle.std.specs.Prelude.{◌≡◌, ℕ, List, ◌∷◌, Option, ◌↔◌, Err};
ghost use Rattle.session_proto.specs.declared.fault.Fault.{Fault};
ghost use Rattle.session_proto.specs.declared.fault.Fault.TheVariants.{BadKind};
ghost use Rattle.host_calls.specs.declared.client.ClientCall.{ClientCall};
ghost use Rattle.host_calls.specs.declared.operator.OperatorCall.{OperatorCall};
ghost use Rattle.host_calls.specs.declared.ring.RingReply.{RingReply};
ghost use Rattle.session_proto.specs.declared.version.Version.{Version};
ghost use Rattle.session_proto.specs.declared.version.Version.TheVariants.{One, Two};
ghost use Rattle.session_proto.specs.declared.client.Client.{Client};
ghost use Rattle.session_proto.specs.Opened.{BeginsWithVersion, IsCalls, IsCallsIn};
ghost use Rattle.session_proto.specs.Client.{client_body, client_at};
ghost use Rattle.session_proto.specs.Operator.{operator_body, operator_at};
ghost use Rattle.session_proto.specs.Host.{host_body, host_at};

/// No two sides have a kind in common: on the socket of one side, what another side sends is `BadKind`, in each version. The body is empty:
/// the contract is the law.
pub fn sides_are_apart()
    ensures client_of_operator { (n : Version) (call : OperatorCall) → client_at n (operator_body call) ≡ Err BadKind }
    ensures client_of_host { (n : Version) (reply : RingReply) → client_at n (host_body reply) ≡ Err BadKind }
    ensures operator_of_client { (call : ClientCall) → operator_at (client_body call) ≡ Err BadKind }
    ensures operator_of_host { (reply : RingReply) → operator_at (host_body reply) ≡ Err BadKind }
    ensures host_of_client { (call : ClientCall) → host_at (client_body call) ≡ Err BadKind }
    ensures host_of_operator { (call : OperatorCall) → host_at (operator_body call) ≡ Err BadKind }
{}

/// A client's stream that does not begin with a frame of kind 07 has the calls, the rest and the fault of version 1, whole: nothing of it is
/// read as by version 2. The body is empty: the contract is the law.
pub fn streams_of_version_one()
    ensures { (bytes : List ℕ) (calls : List Client) (rest : List ℕ) (fault : Option Fault) → (BeginsWithVersion bytes → ⊥)
        → IsCalls bytes calls rest fault ↔ IsCallsIn One bytes calls rest fault }
{}

/// A client's stream that begins with the frame `00000002 07 02` has the calls, the rest and the fault of version 2, from behind that frame
/// on. The body is empty: the contract is the law.
pub fn streams_of_version_two()
    ensures { (bytes : List ℕ) (calls : List Client) (rest : List ℕ) (fault : Option Fault)
        → IsCalls (0 ∷ 0 ∷ 0 ∷ 2 ∷ 0x07 ∷ 2 ∷ bytes) calls rest fault ↔ IsCallsIn Two bytes calls rest fault }
{}
