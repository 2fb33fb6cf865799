//! What is wrong with a token of version 2 by itself.
ghost use Rattle.std.specs.Prelude.{◌≡◌};
ghost use Rattle.loop_text.specs.LoopTokens as tokens;
ghost use Rattle.loop_text.specs.LoopTokens.{is_loop_sign};

use program_text::fault::ReadKind;
use program_text::limits::MOST_WORD_BYTES;
use program_text::scanner::Token;
use program_text::words::{begins_with_digit, is_sign};

/// The signs of version 2.
fn is_loop_sign(token: Token<'_>) -> bool
    ensures { result ≡ is_loop_sign token.entry.text.now }
{
    is_sign(token) || ((token.is(b"[") || token.is(b"]")) || (token.is(b"+") || token.is(b"-")))
}

/// What is wrong with a token of version 2 by itself.
pub(crate) fn loop_form_fault(token: Token<'_>) -> Option<ReadKind>
    ensures { result ≡ tokens.form_fault token.entry.text.now }
{
    if !(token.is_run() || is_loop_sign(token)) {
        Some(ReadKind::BadByte)
    } else if begins_with_digit(token.text) && !token.is_number() {
        Some(ReadKind::BadNumber)
    } else if token.text.len() > MOST_WORD_BYTES && token.is_word() {
        Some(ReadKind::BadWord)
    } else {
        None
    }
}
