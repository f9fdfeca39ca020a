// Numbers in decimal that fit their types.
ghost use Rattle.std.specs.Prelude.{◌^◌};
ghost use Rattle.operator_words.specs.Reading.{IsNumberBelow};

use script_line::number;

/// The number of a group.
pub fn byte(word: &[u8]) -> Option<u8>
    ensures { IsNumberBelow (2 ^ 8) word.now result }
{
    match u8::try_from(number(word)?) {
        Ok(n) => Some(n),
        Err(_) => None,
    }
}

/// A weight.
pub fn weight(word: &[u8]) -> Option<u16>
    ensures { IsNumberBelow (2 ^ 16) word.now result }
{
    match u16::try_from(number(word)?) {
        Ok(n) => Some(n),
        Err(_) => None,
    }
}

/// A number of steps.
pub fn count(word: &[u8]) -> Option<u32>
    ensures { IsNumberBelow (2 ^ 32) word.now result }
{
    match u32::try_from(number(word)?) {
        Ok(n) => Some(n),
        Err(_) => None,
    }
}
