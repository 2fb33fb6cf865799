//! Which tokens the grammar has at a place.
ghost use Rattle.std.specs.Prelude.{◌≡◌};
ghost use Rattle.program_text.specs.Words.{is_statement_word, is_type};
ghost use Rattle.task_program.specs.Faults.{is_header, is_allowed};
ghost use Rattle.large_text.specs.LargeFaults.{closes_no_block, grammar_fault, is_inside_at, items_coming};

use crate::words::{is_sign, is_task, is_work};
use program_text::scanner::Token;
use task_program::fault::ReadKind;
use task_program::place::Place;
use task_program::version::{Version, is_header_word};

/// Why the grammar has not the token at this place, if so.
pub(crate) fn grammar_fault(
    place: Place,
    has_if: bool,
    depth: usize,
    token: Token<'_>,
) -> Option<ReadKind>
    ensures { result ≡ grammar_fault place has_if depth token.entry.text.now }
{
    if !is_header(place, token) {
        Some(ReadKind::BadHeader)
    } else if closes_no_block(place, depth, token) {
        Some(ReadKind::Unopened)
    } else if !is_allowed(place, has_if, token) {
        Some(ReadKind::BadWord)
    } else {
        None
    }
}

fn is_header(place: Place, token: Token<'_>) -> bool
    ensures { result ≡ is_header place token.entry.text.now }
{
    match place {
        Place::Header => is_header_word(token),
        Place::Version => Version::One.is_named_by(token),
        _ => true,
    }
}

fn closes_no_block(place: Place, depth: usize, token: Token<'_>) -> bool
    ensures { result ≡ closes_no_block place depth token.entry.text.now }
{
    match place {
        Place::Statement => depth == 0 && is_sign(token, b'}'),
        _ => false,
    }
}

fn is_allowed(place: Place, has_if: bool, token: Token<'_>) -> bool
    ensures { result ≡ is_allowed place has_if token.entry.text.now }
{
    match place {
        Place::Header | Place::Version => true,
        Place::Statement => is_statement_word(token) || is_sign(token, b'}'),
        Place::WorkNumber | Place::IfNumber => token.is_number(),
        Place::GroupBrace => is_sign(token, b'{'),
        Place::Clause => {
            (is_sign(token, b'{') || token.is(b"depend")) || (token.is(b"if") && !has_if)
        }
        Place::IfOpens | Place::DependOpens => is_sign(token, b'('),
        Place::IfCloses => is_sign(token, b')'),
        Place::DependType => is_type(token),
        Place::DependColon(_) => is_sign(token, b':'),
        Place::DependName(_) => token.is_word(),
        Place::DependMore(_) => is_sign(token, b',') || is_sign(token, b')'),
    }
}

fn is_statement_word(token: Token<'_>) -> bool
    ensures { result ≡ is_statement_word token.entry.text.now }
{
    (is_work(token) || is_task(token)) || (token.is(b"taskwait") || token.is(b"taskgroup"))
}

fn is_type(token: Token<'_>) -> bool
    ensures { result ≡ is_type token.entry.text.now }
{
    (token.is(b"in") || token.is(b"out")) || (token.is(b"inout") || token.is(b"inoutset"))
}

/// Whether a `(` is open at this place.
pub(crate) fn is_inside(place: Place) -> bool
    ensures { result ≡ is_inside_at place }
{
    match place {
        Place::IfNumber | Place::IfCloses | Place::DependType => true,
        Place::DependColon(_) | Place::DependName(_) | Place::DependMore(_) => true,
        _ => false,
    }
}

/// How many depend items come with the next token: one, or none.
pub(crate) fn items_coming(place: Place) -> u32
    ensures { result ≡ items_coming place }
{
    match place {
        Place::DependName(_) => 1,
        _ => 0,
    }
}
