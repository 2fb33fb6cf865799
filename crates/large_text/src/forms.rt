//! What is wrong with a token by itself.
ghost use Rattle.std.specs.Prelude.{◌≡◌, ◌≤◌};
ghost use Rattle.large_text.specs.declared.limits.TheConstants.{MOST_LARGE_TOKEN_BYTES};
ghost use Rattle.large_text.specs.LargeFaults.{large_form_fault};

use crate::limits::MOST_LARGE_TOKEN_BYTES;
use program_text::scanner::Token;
use program_text::words::{begins_with_digit, is_sign};
use task_program::fault::ReadKind;
use task_program::limits::MOST_WORD_BYTES;

/// What is wrong with a token by itself, after so many bytes of tokens.
pub(crate) fn form_fault(bytes: u64, token: Token<'_>) -> Option<ReadKind>
    requires { bytes ≤ MOST_LARGE_TOKEN_BYTES }
    ensures { result ≡ large_form_fault bytes token.entry.text.now }
{
    if !(token.is_run() || is_sign(token)) {
        Some(ReadKind::BadByte)
    } else if begins_with_digit(token.text) && !token.is_number() {
        Some(ReadKind::BadNumber)
    } else if token.text.len() > MOST_WORD_BYTES && token.is_word() {
        Some(ReadKind::BadWord)
    } else if token.text.len() as u64 > MOST_LARGE_TOKEN_BYTES - bytes {
        Some(ReadKind::TooLong)
    } else {
        None
    }
}
