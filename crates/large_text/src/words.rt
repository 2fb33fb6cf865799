//! The words that most tokens are compared with. A slice is compared byte by byte here, since a call
//! takes longer than the comparison.
ghost use Rattle.std.specs.Prelude.{◌≡◌, ◌∷◌, [], codes};
ghost use Rattle.program_text.specs.Words.{is_text};

use program_text::scanner::Token;

/// Whether the token is this byte.
pub(crate) fn is_sign(token: Token<'_>, sign: u8) -> bool
    ensures { result ≡ is_text token.entry.text.now (sign ∷ []) }
{
    match token.text {
        [byte] => *byte == sign,
        _ => false,
    }
}

/// Whether the token is `work`.
pub(crate) fn is_work(token: Token<'_>) -> bool
    ensures { result ≡ is_text token.entry.text.now (codes "work") }
{
    matches!(token.text, [b'w', b'o', b'r', b'k'])
}

/// Whether the token is `task`.
pub(crate) fn is_task(token: Token<'_>) -> bool
    ensures { result ≡ is_text token.entry.text.now (codes "task") }
{
    matches!(token.text, [b't', b'a', b's', b'k'])
}
