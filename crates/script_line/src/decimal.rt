// Numbers in decimal.
ghost use Rattle.std.specs.Prelude.{◌≡◌, ℕ, ◌+◌, ◌*◌, ◌<◌, ◌^◌, ◌↔◌, IsTrue, IfSome, IfNone};
ghost use Rattle.std.specs.Char.{digit_value};
ghost use Rattle.std.specs.Fmt.{decimal};
ghost use Rattle.std.specs.Option.{SomeIff};
ghost use Rattle.script_line.specs.Words.{IsPlain};

/// The number that the word spells in decimal, without a sign and without a leading zero.
pub fn number(word: &[u8]) -> Option<u64>
    ensures fits { IfSome result (λ n. n < 2 ^ 64) }
    ensures found { IfSome result (λ n. word.now ≡ decimal n) }
    ensures none { IfNone result ((n : ℕ) → n < 2 ^ 64 → word.now ≡ decimal n → ⊥) }
{
    if !is_plain(word) {
        return None;
    }
    let mut n: u64 = 0;
    for byte in word {
        n = with_digit(n, *byte)?;
    }
    Some(n)
}

// The number with one digit more at its end, if the byte is a digit and the number then fits.
fn with_digit(n: u64, byte: u8) -> Option<u64>
    ensures { SomeIff result ((digit_value byte < 10) × (n * 10 + digit_value byte < 2 ^ 64)) (n * 10 + digit_value byte) }
{
    if !byte.is_ascii_digit() {
        return None;
    }
    n.checked_mul(10)?.checked_add((byte - b'0') as u64)
}

// No sign, and no leading zero.
fn is_plain(word: &[u8]) -> bool
    ensures { IsTrue result ↔ IsPlain word.now }
{
    if word.is_empty() {
        return false;
    }
    if word[0] == b'+' {
        return false;
    }
    word[0] != b'0' || word.len() == 1
}
