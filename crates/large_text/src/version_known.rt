//! What the first lines of a text say about its version.
ghost use Rattle.std.specs.Prelude.{◌≤◌, ◌+◌, ◌<◌, ◌^◌, IsTrue, length};
ghost use Rattle.program_text.specs.Tokens.{tokens_of};
ghost use Rattle.program_text.specs.declared.limits.TheConstants.{MOST_TEXT_BYTES};
ghost use Rattle.large_text.specs.Streamed.{IsNeverTwo};

use crate::large_texts::is_large_two;
use crate::plain_stream::whole_lines;
use program_text::scanner::Scanner;

/// Whether a text that begins with these bytes is never of version 2: their whole lines have a header,
/// and it is another.
pub(crate) fn is_never_two(bytes: &[u8]) -> bool
    requires { length bytes.now ≤ MOST_TEXT_BYTES }
    ensures { IsTrue result → IsNeverTwo bytes.now }
{
    let (lines, _) = bytes.split_at(whole_lines(bytes));
    has_two_tokens(lines) && !is_large_two(lines)
}

fn has_two_tokens(text: &[u8]) -> bool
    requires { length text.now + 1 < 2 ^ 32 }
    ensures { IsTrue result → 2 ≤ length (tokens_of text.now) }
{
    let mut scanner = Scanner::new(text);
    match scanner.next_token() {
        Some(_) => scanner.next_token().is_some(),
        None => false,
    }
}
