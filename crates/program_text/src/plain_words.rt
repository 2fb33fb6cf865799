//! Words between blanks, without comments, and the numbers among them.
ghost use Rattle.std.specs.Prelude.{◌≡◌, ◌≤◌};
ghost use Rattle.program_text.specs.declared.limits.TheConstants.{LARGEST_READABLE};
ghost use Rattle.program_text.specs.PlainWords.{number_in_word};

pub use crate::scanner::is_blank;
use crate::words::{is_number, value_within};

/// The number that a word writes: digits only, leading zeros allowed, and at most `most`.
pub fn read_number(word: &[u8], most: u64) -> Option<u64>
    requires { most ≤ LARGEST_READABLE }
    ensures { result ≡ number_in_word most word.now }
{
    if is_number(word) {
        value_within(word, most)
    } else {
        None
    }
}
