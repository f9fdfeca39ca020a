// What holds of all calls.
ghost use Rattle.std.specs.Prelude.{◌≡◌};
ghost use Rattle.operator_words.specs.Words.{words_of, Fits};
ghost use Rattle.host_calls.specs.declared.operator.OperatorCall.{OperatorCall};

/// Two calls that have the same words are equal, so words are at most one call.
pub fn one_call()
    ensures { (c d : OperatorCall) → Fits c → Fits d → words_of c ≡ words_of d → c ≡ d }
{}
