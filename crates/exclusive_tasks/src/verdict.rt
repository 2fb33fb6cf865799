//! The verdict on a log, and its words.
ghost use Rattle.std.specs.Prelude.{◌≡◌, IfOk, string_bytes};
ghost use Rattle.program_text.specs.Document.{lines_of};
ghost use Rattle.exclusive_tasks.specs.Verdicts.{IsVerdict, overlap_text, verdict_text};

use crate::claim::Overlap;
use crate::log::{Reading, read_log};
use crate::overlap::first_overlap;
use std::alloc::{AllocError, Global};

/// What is said of a log.
#[derive(Clone, Copy, Debug, PartialEq, Eq)]
pub enum Verdict {
    /// No two tasks that exclude one another were under way at any moment.
    Apart,
    /// The first that were.
    Overlapping(Overlap),
    /// It is no log: its first wrong line, by its index from 0.
    BadForm { line: usize },
}

/// Judges a log. The error is that memory ran out.
pub fn judge(alloc: Global, text: &[u8]) -> Result<Verdict, AllocError>
    ensures { IfOk result (IsVerdict (lines_of text.now)) }
{
    match read_log(alloc, text)? {
        Reading::Log(log) => {
            match first_overlap(alloc, log.claims.as_slice(), log.events.as_slice())? {
                None => Ok(Verdict::Apart),
                Some(overlap) => Ok(Verdict::Overlapping(overlap)),
            }
        }
        Reading::BadForm { line } => Ok(Verdict::BadForm { line }),
    }
}

/// The line that reports a verdict: `apart`; or `overlap`, the event, the claim of the task that
/// begins and the claim that it breaks, by their indexes from 0; or the first wrong line.
pub fn verdict_text(alloc: Global, verdict: Verdict) -> Result<String, AllocError>
    ensures { IfOk result (λ text. string_bytes text ≡ verdict_text verdict) }
{
    match verdict {
        Verdict::Apart => String::from_str(alloc, "apart\n"),
        Verdict::Overlapping(overlap) => overlap_text(alloc, overlap),
        Verdict::BadForm { line } => format!(in alloc; "error: line {line}: BadForm\n"),
    }
}

fn overlap_text(alloc: Global, overlap: Overlap) -> Result<String, AllocError>
    ensures { IfOk result (λ text. string_bytes text ≡ overlap_text overlap) }
{
    let event = overlap.event;
    let begins = overlap.begins;
    let under_way = overlap.under_way;
    format!(in alloc; "overlap {event} {begins} {under_way}\n")
}
