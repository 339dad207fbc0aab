//! Numbers as words of a script.
ghost use Rattle.std.specs.Prelude.{◌≡◌, ◌≤◌, IfSome};
ghost use Rattle.pc_text.specs.ScriptWords.{number_of};

use crate::limits::GREATEST_NUMBER;

/// The number that a word is, if it is one. It is too large as soon as its digits so far are.
pub fn read_number(word: &[u8]) -> Option<u64>
    ensures number { result ≡ number_of word.now }
    ensures in_range { IfSome result (λ n. n ≤ GREATEST_NUMBER) }
{
    if word.len() == 0 {
        return None;
    }
    let mut value = 0;
    for byte in word {
        if !byte.is_ascii_digit() {
            return None;
        }
        value = value * 10 + u64::from(*byte - b'0');
        if value > GREATEST_NUMBER {
            return None;
        }
    }
    Some(value)
}
