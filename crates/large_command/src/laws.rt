//! Laws of the definitions.
ghost use Rattle.std.specs.Prelude.{ℕ, ◌≡◌, ◌⊎◌, ◌<◌, ◌≤◌, ◌++◌, List};
ghost use Rattle.greedy_sim.specs.Greedy.{IsGreedy, IsLegalOn};
ghost use Rattle.large_command.specs.Lengths.{IsTooLong};
ghost use Rattle.large_command.specs.OneReport.{HasOneReport, HasReport};
ghost use Rattle.large_text.specs.LargeTexts.{FitsText};
ghost use Rattle.online_span.specs.Spans.{IsSpanOf};
ghost use Rattle.spanprof_command.specs.GreedyRuns.{bound_of, least_of};
ghost use Rattle.task_program.specs.Limits.{work_of};
ghost use Rattle.task_program.specs.Marks.{Mark};
ghost use Rattle.task_program.specs.Nested.{IsNested};
ghost use Rattle.task_segments.specs.Moments.{last_moment};
ghost use Rattle.task_segments.specs.Precedence.{MustPrecede};
ghost use Rattle.task_segments.specs.Schedule.{end_of};
ghost use Rattle.task_segments.specs.Table.{costs_of, table_of};
ghost use Rattle.large_command.specs.declared.text_input.TheConstants.{PIECE};

/// At most so many bytes are read at once.
pub fn limits()
    ensures piece { PIECE ≡ 65_536 }
{}

/// What work and span say of p threads, for nested marks of any number. No legal schedule ends
/// before the greater of the span and of work / p rounded up (`least`). No greedy one ends after
/// (work + (p - 1) * span) / p rounded down, in whatever order it takes what is ready (`bound`):
/// Graham 1969, Brent 1974.
pub fn bounds_hold()
    ensures least { (body : List Mark) (p span : ℕ) (starts : List ℕ) → IsNested body → 0 < p
        → IsSpanOf body span
        → IsLegalOn (costs_of (table_of body)) (MustPrecede (table_of body)) p starts
        → least_of (work_of (last_moment body)) span p ≤ end_of (costs_of (table_of body)) starts }
    ensures bound { (body : List Mark) (p span : ℕ) (starts : List ℕ) → IsNested body → 0 < p
        → IsSpanOf body span
        → IsGreedy (costs_of (table_of body)) (MustPrecede (table_of body)) p starts
        → end_of (costs_of (table_of body)) starts ≤ bound_of (work_of (last_moment body)) span p }
{}

/// The span is no more than the work.
pub fn span_within_work()
    ensures { (body : List Mark) (span : ℕ) → IsNested body → IsSpanOf body span
        → span ≤ work_of (last_moment body) }
{}

/// Each text fits or is too long, and none is both. One that is too long is so whatever follows it,
/// so it may be refused before its end.
pub fn fits_or_too_long()
    ensures one { (text : List ℕ) → FitsText text ⊎ IsTooLong text }
    ensures not_both { (text : List ℕ) → FitsText text → IsTooLong text → ⊥ }
    ensures stays { (text later : List ℕ) → IsTooLong text → IsTooLong (text ++ later) }
{}

/// For given words and a given input there is only one text that the program writes, and one
/// status, wherever it stops reading a text that is too long.
pub fn one_report()
    ensures { (words : List (List ℕ)) (input : List ℕ) → HasOneReport words input }
{}

/// All words and every input have a report.
pub fn some_report()
    ensures { (words : List (List ℕ)) (input : List ℕ) → HasReport words input }
{}
