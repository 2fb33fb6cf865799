//! What the words of the program for texts of any size ask for.
ghost use Rattle.std.specs.Prelude.{◌≡◌, map, option_map, string_bytes};
ghost use Rattle.clap.specs.Words.{found_of, rows_of, subcommand_rows_of};
ghost use Rattle.command_words.specs.LargeWords.{account_in, asked_by, is_set, large_request_by};
ghost use Rattle.command_words.specs.LargeWords.{changes_asked, large_request_in, list_asked};
ghost use Rattle.command_words.specs.LargeWords.{request_behind};
ghost use Rattle.command_words.specs.LargeWords.{large_request_named, large_request_of, what_if_in};
ghost use Rattle.command_words.specs.Reading.{Gives};

use crate::changes::{Changes, read_changes};
use crate::large_program::large_program;
use crate::number::read_u32;
use crate::request::{WordsFault, number_at};
use clap::ArgMatches;
use clap::error::ErrorKind;
use std::alloc::Global;

/// What is asked of a text of any size.
#[derive(Drop)]
pub enum LargeRequest {
    /// Answered as the text comes.
    OfMeter(MeterRequest),
    /// Answered from its table.
    OfTable(TableRequest),
    /// What is written with its canonical text.
    OfText(TextRequest),
    /// Answered from a document: a text, a divider, and the rest.
    OfDocument(DocumentRequest),
}

/// The questions that are answered as a text comes.
#[derive(Clone, Copy, Debug, PartialEq, Eq)]
pub enum MeterRequest {
    /// How many tasks and segments it has, its work and its span.
    Numbers,
    /// The bounds of its schedules on one thread, two, and so on up to this number.
    Bounds { upto: u32 },
}

/// What is asked of the table of a text, as the commands of the same names ask.
#[derive(Drop)]
pub enum TableRequest {
    /// The earliest start and the slack of each segment.
    Slack,
    /// Its greedy run on so many threads.
    Greedy { threads: u32 },
    /// The ends of its greedy runs on one thread, two, and so on up to this number.
    Curve { upto: u32 },
    /// The work and the span after these changes of costs, and the span before them.
    WhatIf { changes: Changes },
    /// Each segment with its task, its cost and its kept predecessors.
    Graph,
}

/// What is written with the canonical text of a program, as by the commands of the same names.
#[derive(Clone, Copy, Debug, PartialEq, Eq)]
pub enum TextRequest {
    /// The canonical text.
    Show,
    /// The certificate of its span.
    Certify,
}

/// What is asked of a document: of a text and what stands behind it.
#[derive(Clone, Copy, Debug, PartialEq, Eq)]
pub enum DocumentRequest {
    /// Where the time of a run's threads went, by the times of its segments.
    Account(AccountRequest),
    /// What a run records, by its events.
    Replay,
    /// Whether the claim of a certificate holds.
    Check,
    /// The work and the span after the changes of costs that a list names, and the span before them.
    WhatIf,
    /// The sums of each place, by the places of its segments.
    Places,
    /// Whether the text behind the divider waits for no more.
    Relaxation,
}

/// What is asked of the times of a run.
#[derive(Clone, Copy, Debug, PartialEq, Eq)]
pub enum AccountRequest {
    /// The sums of what the threads did.
    Sums,
    /// For each segment when it became ready, began and ended.
    Rows,
    /// The run's own path.
    Path,
}

/// Reads the words of `spanprof_large`, of which the first is the program's name: a command, or
/// none. Without one, `--upto P` asks for bounds, and no word for what `span` asks. Words about the
/// program itself ([`read_about`](crate::about::read_about)) are wrong arguments.
pub fn read_large_words(alloc: Global, words: &[String]) -> Result<LargeRequest, WordsFault>
    ensures { Gives (large_request_of (map string_bytes words.now)) result }
{
    let Ok(program) = large_program(alloc) else {
        return Err(WordsFault::OutOfMemory);
    };
    match program.try_get_matches_from(words) {
        Ok(matches) => large_request_in(alloc, &matches),
        Err(error) if error.kind() == ErrorKind::OutOfMemory => Err(WordsFault::OutOfMemory),
        Err(_) => Err(WordsFault::WrongWords),
    }
}

fn large_request_in(alloc: Global, matches: &ArgMatches<'_>) -> Result<LargeRequest, WordsFault>
    ensures { Gives (large_request_in (rows_of (found_of matches.now))
        (subcommand_rows_of matches.now)) result }
{
    large_request_by(alloc, matches.get_str("upto"), matches)
}

/// What the option before a command, and the command, ask for.
fn large_request_by(
    alloc: Global,
    upto: Option<&str>,
    matches: &ArgMatches<'_>,
) -> Result<LargeRequest, WordsFault>
    ensures { Gives (large_request_by (option_map (λ text. text.now) upto.entry)
        (subcommand_rows_of matches.now)) result }
{
    match matches.subcommand() {
        None => asked_by(upto),
        Some((name, values)) => request_behind(alloc, upto, name, values),
    }
}

/// What a command asks for, before which the option may not stand.
fn request_behind(
    alloc: Global,
    upto: Option<&str>,
    name: &str,
    values: &ArgMatches<'_>,
) -> Result<LargeRequest, WordsFault>
    ensures { Gives (request_behind (option_map (λ text. text.now) upto.entry) name.now
        (rows_of (found_of values.now))) result }
{
    match upto {
        None => large_request_named(alloc, name, values),
        Some(_) => Err(WordsFault::WrongWords),
    }
}

/// What words without a command ask for.
fn asked_by(upto: Option<&str>) -> Result<LargeRequest, WordsFault>
    ensures { Gives (asked_by (option_map (λ text. text.now) upto.entry)) result }
{
    match upto {
        None => Ok(LargeRequest::OfMeter(MeterRequest::Numbers)),
        Some(value) => Ok(LargeRequest::OfMeter(MeterRequest::Bounds {
            upto: read_u32(value.as_bytes()).ok_or(WordsFault::WrongWords)?,
        })),
    }
}

fn large_request_named(
    alloc: Global,
    name: &str,
    values: &ArgMatches<'_>,
) -> Result<LargeRequest, WordsFault>
    ensures { Gives (large_request_named name.now (rows_of (found_of values.now))) result }
{
    match name {
        "span" => Ok(LargeRequest::OfMeter(MeterRequest::Numbers)),
        "bounds" => Ok(LargeRequest::OfMeter(MeterRequest::Bounds {
            upto: number_at(values, "upto").ok_or(WordsFault::WrongWords)?,
        })),
        "slack" => Ok(LargeRequest::OfTable(TableRequest::Slack)),
        "greedy" => Ok(LargeRequest::OfTable(TableRequest::Greedy {
            threads: number_at(values, "threads").ok_or(WordsFault::WrongWords)?,
        })),
        "curve" => Ok(LargeRequest::OfTable(TableRequest::Curve {
            upto: number_at(values, "upto").ok_or(WordsFault::WrongWords)?,
        })),
        "whatif" => what_if_in(alloc, values),
        "graph" => Ok(LargeRequest::OfTable(TableRequest::Graph)),
        "show" => Ok(LargeRequest::OfText(TextRequest::Show)),
        "certify" => Ok(LargeRequest::OfText(TextRequest::Certify)),
        "account" => Ok(LargeRequest::OfDocument(DocumentRequest::Account(account_in(values).ok_or(
            WordsFault::WrongWords,
        )?))),
        "replay" => Ok(LargeRequest::OfDocument(DocumentRequest::Replay)),
        "check" => Ok(LargeRequest::OfDocument(DocumentRequest::Check)),
        "places" => Ok(LargeRequest::OfDocument(DocumentRequest::Places)),
        "relaxation" => Ok(LargeRequest::OfDocument(DocumentRequest::Relaxation)),
        _ => Err(WordsFault::WrongWords),
    }
}

/// What the words of `whatif` ask for: of changes, or of a list of them, and not of both.
fn what_if_in(alloc: Global, values: &ArgMatches<'_>) -> Result<LargeRequest, WordsFault>
    ensures { Gives (what_if_in (rows_of (found_of values.now))) result }
{
    let listed = is_set(values, "listed");
    match values.get_raw("changes") {
        None => list_asked(listed),
        Some(words) => changes_asked(alloc, listed, words),
    }
}

/// Without changes there has to be the flag.
fn list_asked(listed: bool) -> Result<LargeRequest, WordsFault>
    ensures { Gives (list_asked listed) result }
{
    if listed {
        Ok(LargeRequest::OfDocument(DocumentRequest::WhatIf))
    } else {
        Err(WordsFault::WrongWords)
    }
}

/// With changes there may not be the flag.
fn changes_asked(alloc: Global, listed: bool, words: &[&str]) -> Result<LargeRequest, WordsFault>
    ensures { Gives (changes_asked listed (map (λ word. word.now) words.now)) result }
{
    if listed {
        return Err(WordsFault::WrongWords);
    }
    Ok(LargeRequest::OfTable(TableRequest::WhatIf {
        changes: read_changes(alloc, words)?,
    }))
}

/// What the flags of `account` ask for: none of them the sums, and not both anything.
fn account_in(values: &ArgMatches<'_>) -> Option<AccountRequest>
    ensures { result ≡ account_in (rows_of (found_of values.now)) }
{
    match (is_set(values, "rows"), is_set(values, "path")) {
        (false, false) => Some(AccountRequest::Sums),
        (true, false) => Some(AccountRequest::Rows),
        (false, true) => Some(AccountRequest::Path),
        (true, true) => None,
    }
}

/// Whether a flag stands among the words.
fn is_set(values: &ArgMatches<'_>, flag: &str) -> bool
    ensures { result ≡ is_set flag.now (rows_of (found_of values.now)) }
{
    match values.get_str(flag) {
        Some(text) => text == "true",
        None => false,
    }
}
