//! What a meter answers about the marks so far.
ghost use Rattle.std.specs.Prelude.{◌≡◌, ◌+◌, List, sum};
ghost use Rattle.task_program.specs.Limits.{work_of};
ghost use Rattle.task_program.specs.Marks.{Mark};
ghost use Rattle.task_program.specs.Nested.{IsNested};
ghost use Rattle.task_segments.specs.Moments.{last_moment, segments_so_far, tasks_so_far};
ghost use Rattle.online_span.specs.Spans.{IsSpanAt, IsSpanOf, costs_at};
ghost use Rattle.online_span.specs.Measuring.{Measures};

use crate::meter::Meter;

impl Meter {
    /// The work so far: the costs of all segments together.
    pub fn total_work(&self) -> u64
        ensures marks { (moment : List Mark) → Measures self.now moment
            → result ≡ work_of moment }
        ensures costs { (moment : List Mark) → Measures self.now moment
            → result ≡ sum (costs_at moment) }
    {
        self.work
    }

    /// The span so far: the greatest sum of costs along a chain of segments of which each awaits the
    /// one before it. No legal schedule ends sooner. Where the marks are those of a whole program,
    /// this is the span of its table.
    pub fn span(&self) -> u64
        ensures so_far { (moment : List Mark) → Measures self.now moment
            → IsSpanAt moment result }
        ensures whole { (body : List Mark) → IsNested body
            → Measures self.now (last_moment body) → IsSpanOf body result }
    {
        self.span
    }

    /// How many segments have opened.
    pub fn segments(&self) -> u64
        ensures { (moment : List Mark) → Measures self.now moment
            → result ≡ segments_so_far moment }
    {
        self.segments
    }

    /// How many tasks have begun besides the root.
    pub fn tasks(&self) -> u64
        ensures { (moment : List Mark) → Measures self.now moment
            → result + 1 ≡ tasks_so_far moment }
    {
        self.tasks
    }
}
