//! Why a call is not answered, and the number that says so.
ghost use Rattle.std.specs.Prelude.{◌≡◌, ◌≤◌, MatchResult};
ghost use Rattle.spanprof_c.specs.Refusals.{kind_number, nowhere, number_of, place_of};
ghost use Rattle.spanprof_c.specs.Steps.{refusal_of_text};

use crate::told::{Place, put_place};
use large_text::fault::LargeFault;
use task_program::fault::ReadKind;
use thiserror::Error;

/// Why a call is not answered.
#[derive(Clone, Copy, Debug, PartialEq, Eq, Drop, Error)]
pub enum Refusal {
    /// The text is no program.
    #[error("line {line}: {kind:?}")]
    Text { kind: ReadKind, line: u64 },
    /// The number of threads is not 1 to 1,024.
    #[error("the number of threads is not 1 to 1,024")]
    ThreadCount,
    /// Costs are given, and not one for each segment.
    #[error("there is not one cost for each segment")]
    CostCount,
    /// The costs that are given are more than `MOST_WORK` together.
    #[error("the costs are too large")]
    CostsTooLarge,
    /// A list to be filled has not one place for each segment.
    #[error("a list has not one place for each segment")]
    WrongLength,
    /// An allocation failed.
    #[error("out of memory")]
    OutOfMemory,
}

/// Why a call about a text is not answered where the text is not read.
pub(crate) fn text_refusal(fault: LargeFault) -> Refusal
    ensures { result ≡ refusal_of_text fault }
{
    if fault.kind == ReadKind::OutOfMemory {
        Refusal::OutOfMemory
    } else {
        Refusal::Text {
            kind: fault.kind,
            line: fault.line,
        }
    }
}

/// The number that a call answers: 0 where the answer is there. The place is the line of a text's
/// fault, and else nothing.
pub(crate) fn tell(outcome: Result<(), Refusal>, place: &mut Place) -> u32
    ensures told { MatchResult outcome
        (λ _. result ≡ 0)
        (λ why. (1 ≤ result) × (result ≡ number_of why) × (place.new ≡ place_of why)) }
    ensures nowhere { result ≡ 0 → place.new ≡ nowhere }
{
    match outcome {
        Ok(()) => {
            put_place(place, 0, 0, 0);
            0
        }
        Err(why) => {
            put_why(place, why);
            number_of(why)
        }
    }
}

fn put_why(place: &mut Place, why: Refusal)
    ensures { place.new ≡ place_of why }
{
    match why {
        Refusal::Text { line, .. } => put_place(place, line, 0, 0),
        Refusal::ThreadCount => put_place(place, 0, 0, 0),
        Refusal::CostCount => put_place(place, 0, 0, 0),
        Refusal::CostsTooLarge => put_place(place, 0, 0, 0),
        Refusal::WrongLength => put_place(place, 0, 0, 0),
        Refusal::OutOfMemory => put_place(place, 0, 0, 0),
    }
}

fn number_of(why: Refusal) -> u32
    ensures number { result ≡ number_of why }
    ensures some { 1 ≤ result }
{
    match why {
        Refusal::Text { kind, .. } => kind_number(kind),
        Refusal::OutOfMemory => 13,
        Refusal::ThreadCount => 15,
        Refusal::CostCount => 16,
        Refusal::CostsTooLarge => 17,
        Refusal::WrongLength => 18,
    }
}

pub(crate) fn kind_number(kind: ReadKind) -> u32
    ensures number { result ≡ kind_number kind }
    ensures some { 1 ≤ result }
{
    match kind {
        ReadKind::TooLong => 1,
        ReadKind::BadHeader => 2,
        ReadKind::BadByte => 3,
        ReadKind::BadWord => 4,
        ReadKind::BadNumber => 5,
        ReadKind::Unclosed => 6,
        ReadKind::Unopened => 7,
        ReadKind::TooDeep => 8,
        ReadKind::TooManyTasks => 9,
        ReadKind::TooManySegments => 10,
        ReadKind::TooManyItems => 11,
        ReadKind::WorkTooLarge => 12,
        ReadKind::OutOfMemory => 13,
        ReadKind::TooManyTurns => 14,
    }
}
