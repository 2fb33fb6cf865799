//! How much more of a text may come.
ghost use Rattle.std.specs.Prelude.{◌≡◌, ◌+◌, ◌<◌, ◌≤◌, ◌^◌, [], ◌++◌, List, ℕ, MatchOption};
ghost use Rattle.std.specs.Prelude.{length, not, reverse};
ghost use Rattle.std.specs.List.{prefix_len};
ghost use Rattle.program_text.specs.Tokens.{is_line_feed};
ghost use Rattle.large_text.specs.declared.limits.TheConstants.{LARGEST_LINE, LARGEST_PIECE};
ghost use Rattle.large_command.specs.Lengths.{IsTooLong};
ghost use Rattle.large_command.specs.TextInput.{EndsInLine, HasRoom};

use large_text::limits::{LARGEST_LINE, LARGEST_TEXT};

/// How much room a text has left that comes in pieces. It is counted whatever the text holds, also
/// where its fault is known: so which text is too long depends on its bytes and its lines alone.
#[derive(Clone, Copy, Debug)]
pub(crate) struct Room {
    /// How many bytes more may come.
    pub(crate) left: usize,
    /// How many came behind the last LF.
    line: usize,
}

impl Room {
    /// The room of a text of which nothing has come.
    pub(crate) fn new() -> Room
        ensures { HasRoom [] result }
    {
        Room {
            left: LARGEST_TEXT,
            line: 0,
        }
    }

    /// The room behind these bytes, unless the text is too long with them.
    pub(crate) fn after(self, bytes: &[u8]) -> Option<Room>
        requires line { self.line ≤ LARGEST_LINE }
        requires piece { length bytes.now ≤ LARGEST_PIECE }
        ensures { MatchOption result
            ((text : List ℕ) → HasRoom text self → IsTooLong (text ++ bytes.now))
            (λ room. (text : List ℕ) → HasRoom text self → HasRoom (text ++ bytes.now) room) }
    {
        if bytes.len() > self.left {
            return None;
        }
        if first_stretch(bytes) > LARGEST_LINE - self.line {
            return None;
        }
        Some(Room {
            left: self.left - bytes.len(),
            line: line_after(self.line, bytes),
        })
    }
}

/// How many bytes the last line of a text has that had so many, once these follow.
fn line_after(line: usize, bytes: &[u8]) -> usize
    requires { line + length bytes.now < 2 ^ 64 }
    ensures { (text : List ℕ) → EndsInLine text line → EndsInLine (text ++ bytes.now) result }
{
    let last = last_stretch(bytes);
    if last < bytes.len() {
        last
    } else {
        line + bytes.len()
    }
}

/// How many bytes stand before the first LF, or all where there is none.
fn first_stretch(bytes: &[u8]) -> usize
    ensures { result ≡ prefix_len (λ byte. not (is_line_feed byte)) bytes.now }
{
    bytes.iter().take_while(|byte| **byte != b'\n').count()
}

/// How many bytes stand behind the last LF, or all where there is none.
fn last_stretch(bytes: &[u8]) -> usize
    ensures { result ≡ prefix_len (λ byte. not (is_line_feed byte)) (reverse bytes.now) }
{
    bytes
        .iter()
        .rev()
        .take_while(|byte| **byte != b'\n')
        .count()
}
