// A line cut into its words.
ghost use Rattle.std.specs.Prelude.{◌≡◌, ℕ, ◌<◌, ◌≤◌, ◌^◌, List, ◌∷◌, ◌++◌, length, IfSome, IfNone};
ghost use Rattle.std.specs.Fmt.{decimal};
ghost use Rattle.script_line.specs.Words.{HasNoSpace, IsTail, AreNumbers, numbers};

use super::decimal::number;
use arrayvec::ArrayVec;

/// The most numbers that a line has.
pub const MOST_NUMBERS: usize = 5;

/// The bytes before the first space, and the rest with that space.
pub fn cut(text: &[u8]) -> (&[u8], &[u8])
    ensures whole { text.now ≡ result.0.now ++ result.1.now }
    ensures word { HasNoSpace result.0.now }
    ensures tail { IsTail result.1.now }
{
    for (i, byte) in text.iter().enumerate() {
        if *byte == b' ' {
            return text.split_at(i);
        }
    }
    text.split_at(text.len())
}

/// A space and then a number, and what stands after it.
pub fn number_field(text: &[u8]) -> Option<(u64, &[u8])>
    ensures fits { IfSome result (λ f. f.0 < 2 ^ 64) }
    ensures found { IfSome result (λ f. text.now ≡ 32 ∷ (decimal f.0 ++ f.1.now)) }
    ensures tail { IfSome result (λ f. IsTail f.1.now) }
    ensures none { IfNone result ((n : ℕ) (rest : List ℕ) → n < 2 ^ 64 → IsTail rest
        → text.now ≡ 32 ∷ (decimal n ++ rest) → ⊥) }
{
    let (space, after) = text.split_first()?;
    if *space != b' ' {
        return None;
    }
    let (word, rest) = cut(after);
    match number(word) {
        Some(n) => Some((n, rest)),
        None => None,
    }
}

/// Nothing but numbers, each after one space.
pub fn number_fields(text: &[u8]) -> Option<ArrayVec<u64, MOST_NUMBERS>>
    requires { IsTail text.now }
    ensures fits { IfSome result (λ v. AreNumbers v.items) }
    ensures found { IfSome result (λ v. text.now ≡ numbers v.items) }
    ensures none { IfNone result ((ns : List ℕ) → AreNumbers ns → length ns ≤ 5
        → text.now ≡ numbers ns → ⊥) }
{
    let mut found = ArrayVec::new();
    let mut rest = text;
    while !rest.is_empty() {
        let (n, after) = match number_field(rest) {
            Some(field) => field,
            None => return None,
        };
        if found.is_full() {
            return None;
        }
        found.push(n);
        rest = after;
    }
    Some(found)
}
