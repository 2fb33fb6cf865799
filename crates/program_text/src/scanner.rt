//! The tokens of a text, one after another.
ghost use Rattle.std.specs.Prelude.{◌≡◌, ◌+◌, ◌<◌, ◌≤◌, ◌^◌, ◌∷◌, [], length, not};
ghost use Rattle.std.specs.List.{prefix_len};
ghost use Rattle.program_text.specs.Tokens.{is_blank, is_run_byte};
ghost use Rattle.program_text.specs.Tokens.{line_after, is_line_feed};
ghost use Rattle.program_text.specs.Tokens.{StandsAtToken};
ghost use Rattle.program_text.specs.Words.{is_number, is_run};

use crate::fault::{ReadFault, ReadKind};
use crate::words::{begins_with_digit, is_number};

/// A token: its bytes, and the line of the first. What kind of token it is was found once.
#[derive(Clone, Copy, Debug)]
pub struct Token<'a> {
    pub text: &'a [u8],
    pub line: u32,
    pub(crate) run: bool,
    pub(crate) number: bool,
    ghost run_is_told: { run ≡ is_run text.now },
    ghost number_is_told: { number ≡ is_number text.now },
}

impl<'a> Token<'a> {
    ghost use Rattle.program_text.specs.Words.{is_text, is_word};

    /// Whether it is a run: run bytes, one at least.
    pub fn is_run(self) -> bool
        ensures { result ≡ is_run self.entry.text.now }
    {
        self.run
    }

    /// Whether it is a word: a run that does not begin with a digit.
    pub fn is_word(self) -> bool
        ensures { result ≡ is_word self.entry.text.now }
    {
        self.run && !begins_with_digit(self.text)
    }

    /// Whether it is this text.
    pub fn is(self, word: &[u8]) -> bool
        ensures { result ≡ is_text self.entry.text.now word.now }
    {
        self.text.len() == word.len() && self.text == word
    }

    /// Whether it is a number.
    pub fn is_number(self) -> bool
        ensures { result ≡ is_number self.entry.text.now }
    {
        self.number
    }

    /// This fault, on the line of the token.
    pub fn fault(self, kind: ReadKind) -> ReadFault
        ensures { result ≡ record { kind = kind; line = self.entry.line } }
    {
        ReadFault {
            kind,
            line: self.line,
        }
    }
}

/// What is left of a text, and the line on which it begins.
#[derive(Clone, Copy)]
pub struct Scanner<'a> {
    pub(crate) rest: &'a [u8],
    pub line: u32,
    ghost lines_fit: { line + length rest.now < 2 ^ 32 },
}

impl<'a> Scanner<'a> {
    ghost use Rattle.std.specs.Prelude.{MatchOption};
    ghost use Rattle.program_text.specs.ScannerSeen.{tokens_left, end_line, token_seen};

    /// The whole of a text.
    pub fn new(text: &'a [u8]) -> Scanner<'a>
        requires { length text.now + 1 < 2 ^ 32 }
        ensures rest { result.rest.now ≡ text.now }
        ensures line { result.line ≡ 1 }
    {
        Scanner {
            rest: text,
            line: 1,
        }
    }

    /// The next token, and the scanner goes past it.
    pub fn next_token(&mut self) -> Option<Token<'a>>
        ensures first { MatchOption result (tokens_left self.old ≡ [])
            (λ token. tokens_left self.old ≡ token_seen token ∷ tokens_left self.new) }
        ensures line { end_line self.new ≡ end_line self.old }
        ensures at_end { MatchOption result (self.new.line ≡ end_line self.old)
            (λ token. length self.new.rest.now < length self.old.rest.now) }
    {
        self.skip_gap();
        if self.rest.is_empty() {
            return None;
        }
        let run = run_length(self.rest);
        let length = run.max(1);
        let (text, rest) = self.rest.split_at(length);
        self.rest = rest;
        Some(Token {
            text,
            line: self.line,
            run: run > 0,
            number: is_number(text),
        })
    }

    /// Goes past blanks and comments.
    fn skip_gap(&mut self)
        ensures same { tokens_left self.new ≡ tokens_left self.old }
        ensures line { end_line self.new ≡ end_line self.old }
        ensures stops { StandsAtToken self.new.rest.now }
        ensures shrinks { length self.new.rest.now ≤ length self.old.rest.now }
    {
        'gap: while let [byte, rest @ ..] = self.rest {
            if *byte == b' ' {
                self.rest = rest;
            } else if *byte == b'#' {
                self.rest = &rest[comment_length(rest)..];
            } else if is_blank(*byte) {
                self.rest = rest;
                self.line = line_after(*byte, self.line);
            } else {
                return;
            }
        }
    }
}

/// How many bytes stand before the next LF, or before the end of the text where there is none.
fn comment_length(bytes: &[u8]) -> usize
    ensures comment { result ≡ prefix_len (λ byte. not (is_line_feed byte)) bytes.now }
    ensures within { result ≤ length bytes.now }
{
    bytes.iter().take_while(|byte| **byte != b'\n').count()
}

/// How many run bytes the text begins with.
fn run_length(bytes: &[u8]) -> usize
    ensures { result ≡ prefix_len is_run_byte bytes.now }
{
    bytes.iter().take_while(|byte| is_run_byte(**byte)).count()
}

fn line_after(byte: u8, line: u32) -> u32
    requires { line + 1 < 2 ^ 32 }
    ensures { result ≡ line_after byte line }
{
    if byte == b'\n' { line + 1 } else { line }
}

/// Space, tab, CR and LF.
pub fn is_blank(byte: u8) -> bool
    ensures { result ≡ is_blank byte }
{
    byte == b' ' || byte == b'\t' || byte == b'\r' || byte == b'\n'
}

// 1 at each letter, digit and `_`
#[rattlefmt::skip]
static RUN_BYTES: [u8; 256] = [
    0, 0, 0, 0, 0, 0, 0, 0, 0, 0, 0, 0, 0, 0, 0, 0,
    0, 0, 0, 0, 0, 0, 0, 0, 0, 0, 0, 0, 0, 0, 0, 0,
    0, 0, 0, 0, 0, 0, 0, 0, 0, 0, 0, 0, 0, 0, 0, 0,
    1, 1, 1, 1, 1, 1, 1, 1, 1, 1, 0, 0, 0, 0, 0, 0,
    0, 1, 1, 1, 1, 1, 1, 1, 1, 1, 1, 1, 1, 1, 1, 1,
    1, 1, 1, 1, 1, 1, 1, 1, 1, 1, 1, 0, 0, 0, 0, 1,
    0, 1, 1, 1, 1, 1, 1, 1, 1, 1, 1, 1, 1, 1, 1, 1,
    1, 1, 1, 1, 1, 1, 1, 1, 1, 1, 1, 0, 0, 0, 0, 0,
    0, 0, 0, 0, 0, 0, 0, 0, 0, 0, 0, 0, 0, 0, 0, 0,
    0, 0, 0, 0, 0, 0, 0, 0, 0, 0, 0, 0, 0, 0, 0, 0,
    0, 0, 0, 0, 0, 0, 0, 0, 0, 0, 0, 0, 0, 0, 0, 0,
    0, 0, 0, 0, 0, 0, 0, 0, 0, 0, 0, 0, 0, 0, 0, 0,
    0, 0, 0, 0, 0, 0, 0, 0, 0, 0, 0, 0, 0, 0, 0, 0,
    0, 0, 0, 0, 0, 0, 0, 0, 0, 0, 0, 0, 0, 0, 0, 0,
    0, 0, 0, 0, 0, 0, 0, 0, 0, 0, 0, 0, 0, 0, 0, 0,
    0, 0, 0, 0, 0, 0, 0, 0, 0, 0, 0, 0, 0, 0, 0, 0,
];

fn is_run_byte(byte: u8) -> bool
    ensures { result ≡ is_run_byte byte }
{
    RUN_BYTES[usize::from(byte)] == 1
}
