//! What holds of the span of every program.
ghost use Rattle.std.specs.Prelude.{ℕ, ◌≡◌, List};
ghost use Rattle.task_program.specs.Limits.{work_of};
ghost use Rattle.task_program.specs.Marks.{Mark};
ghost use Rattle.task_program.specs.Nested.{IsNested};
ghost use Rattle.task_segments.specs.Moments.{last_moment};
ghost use Rattle.task_segments.specs.Precedence.{IsSegment, MustPrecede};
ghost use Rattle.task_segments.specs.Schedule.{IsSpan};
ghost use Rattle.task_segments.specs.Table.{costs_of, table_of};
ghost use Rattle.online_span.specs.Awaiting.{end_of};
ghost use Rattle.online_span.specs.LeastEnds.{IsLeastEndOf};
ghost use Rattle.online_span.specs.Masked.{IsMasked, ShowsPath};
ghost use Rattle.online_span.specs.Spans.{IsSpanOf};

/// There is one span: what `Meter::span` answers for a program is what any other call finds as the
/// greatest sum of a chain of its table, such as the analysis of its graph.
pub fn one_span()
    ensures { (body : List Mark) (span other : ℕ) → IsSpanOf body span
        → IsSpan (costs_of (table_of body)) (MustPrecede (table_of body)) other → span ≡ other }
{}

/// Each list of nested marks has a span.
pub fn some_span()
    ensures { (body : List Mark) → IsNested body → (span : ℕ) × IsSpanOf body span }
{}

/// What the pass over the marks finds as an end is what legal schedules say: each segment ends there
/// where it starts as early as in any legal schedule.
pub fn ends_are_least()
    ensures { (body : List Mark) (s : ℕ) → IsNested body → IsSegment (table_of body) s
        → IsLeastEndOf (table_of body) s (end_of (last_moment body) s) }
{}

/// A critical path of a program of any size can be shown by the same program with some costs
/// hidden: where its span is all its work, and the span of the whole program, the costs that it
/// shows are those of a critical path.
pub fn path_by_masking()
    ensures { (body masked : List Mark) (span : ℕ) → IsNested body
        → IsMasked body masked → IsSpanOf body span → IsSpanOf masked span
        → work_of masked ≡ span → ShowsPath body masked span }
{}

/// Each program has such a masking: all costs but those of one critical path are hidden.
pub fn some_masking()
    ensures { (body : List Mark) (span : ℕ) → IsNested body → IsSpanOf body span
        → (masked : List Mark) × IsMasked body masked × IsSpanOf masked span
        × (work_of masked ≡ span) }
{}
