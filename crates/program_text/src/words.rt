//! The words and numbers of the grammar.
ghost use Rattle.std.specs.Prelude.{◌≡◌, ◌≤◌, ◌∷◌, [], true};
ghost use Rattle.std.specs.Option.{SomeIff};
ghost use Rattle.std.specs.List.{list_all};
ghost use Rattle.std.specs.Char.{is_ascii_digit};
ghost use Rattle.program_text.specs.Words.{is_sign, is_run, begins_with_digit, is_number};
ghost use Rattle.program_text.specs.Words.{value_of};
ghost use Rattle.program_text.specs.declared.limits.TheConstants.{LARGEST_READABLE};

use crate::scanner::Token;

/// Whether the first byte is a digit.
pub fn begins_with_digit(text: &[u8]) -> bool
    ensures { result ≡ begins_with_digit text.now }
{
    match text {
        [] => false,
        [first, ..] => first.is_ascii_digit(),
    }
}

/// A number: digits, one at least.
pub fn is_number(text: &[u8]) -> bool
    ensures { result ≡ is_number text.now }
{
    begins_with_digit(text) && are_digits(text)
}

fn are_digits(text: &[u8]) -> bool
    ensures { result ≡ list_all is_ascii_digit text.now }
{
    text.iter().all(|byte| byte.is_ascii_digit())
}

/// The value of a number, if it is at most this.
pub fn value_within(digits: &[u8], most: u64) -> Option<u64>
    requires digits { is_number digits.now ≡ true }
    requires most { most ≤ LARGEST_READABLE }
    ensures { SomeIff result (value_of digits.now ≤ most) (value_of digits.now) }
{
    let mut value: u64 = 0;
    for digit in digits {
        value = 10 * value + u64::from(*digit - b'0');
        if value > most {
            return None;
        }
    }
    Some(value)
}

/// The signs of version 1: `(` `)` `{` `}` `:` `,`.
pub fn is_sign(token: Token<'_>) -> bool
    ensures { result ≡ is_sign token.entry.text.now }
{
    match token.text {
        [byte] => is_sign_byte(*byte),
        _ => false,
    }
}

fn is_sign_byte(byte: u8) -> bool
    ensures { result ≡ is_sign (byte ∷ []) }
{
    ((byte == b'(' || byte == b')') || (byte == b'{' || byte == b'}'))
        || (byte == b':' || byte == b',')
}

/// A run as a text.
pub fn text_of(run: &[u8]) -> &str
    requires { is_run run.now ≡ true }
    ensures { result.now ≡ run.now }
{
    match std::str::from_utf8(run) {
        Ok(text) => text,
        Err(_) => unreachable!(),
    }
}
