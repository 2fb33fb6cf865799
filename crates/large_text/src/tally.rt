//! What is kept of the marks of a text: its work and its span, and its rows and its canonical text,
//! where they are wanted.
ghost use Rattle.std.specs.Prelude.{◌≡◌, ◌≤◌, ◌∷◌, [], IfOk, OnOk, IsTrue, List};
ghost use Rattle.std.specs.Option.{IfSome, is_some};
ghost use Rattle.program_text.specs.Marks.{Mark};
ghost use Rattle.task_segments.specs.MarkCutting.{AreWithin, Tables};
ghost use Rattle.task_segments.specs.MarksTable.{IsReading};
ghost use Rattle.online_span.specs.Measuring.{Measures, CanTake};
ghost use Rattle.large_text.specs.LargeReading.{mark_seen};
ghost use Rattle.large_text.specs.Printed.{PrintsIn, PrintsMark};
ghost use Rattle.large_text.specs.Tallied.{keeps_rows, Tallies, CanTally, CanEnter, HasRowsOf, IsBegun, IsBegunIn, IsWholeTally};
ghost use Rattle.large_text.specs.Tallied.{keeps_text};
ghost use Rattle.std.specs.Prelude.{ℕ};
ghost use Rattle.std.specs.String.{string_bytes};
ghost use Rattle.large_text.specs.declared.printer.Printer.{Printer};
ghost use Rattle.program_text.specs.Limits.{work_of};
ghost use Rattle.program_text.specs.declared.limits.TheConstants.{MOST_WORK};
ghost use Rattle.task_program.specs.Nested.{IsNested};
ghost use Rattle.task_program.specs.declared.version.Version.TheVariants.{Two};
ghost use Rattle.task_segments.specs.Moments.{last_moment};
ghost use Rattle.task_segments.specs.Table.{table_of};

use crate::marks::TextMark;
use crate::printer::Printer;
use online_span::Meter;
use std::alloc::Global;
use task_program::AllocFault;
use task_program::limits::MOST_WORK;
use task_program::version::Version;
use task_segments::mark_cutter::MarkCutter;
use task_segments::table::LargeTable;

/// The work and the span of the marks so far, and the rows and the canonical text, where they are
/// kept.
#[derive(Drop)]
pub struct Tally {
    pub meter: Meter,
    pub rows: Option<MarkCutter>,
    pub printer: Option<Printer>,
}

impl Tally {
    /// The tally of a text of which no mark has come: work and span alone.
    pub fn new(alloc: Global) -> Tally
        ensures { IsBegun result }
    {
        Tally {
            meter: Meter::new(alloc),
            rows: None,
            printer: None,
        }
    }

    /// The same with rows.
    pub fn with_rows(alloc: Global) -> Result<Tally, AllocFault>
        ensures begun { IfOk result IsBegun }
        ensures rows { IfOk result (λ tally. IsTrue (keeps_rows tally)) }
    {
        Ok(Tally {
            meter: Meter::new(alloc),
            rows: Some(MarkCutter::new(alloc)?),
            printer: None,
        })
    }

    /// The same with the canonical text.
    pub(crate) fn with_text(alloc: Global) -> Result<Tally, AllocFault>
        ensures begun { IfOk result IsBegun }
        ensures text { IfOk result (λ tally. IsTrue (keeps_text tally)) }
    {
        Ok(Tally {
            meter: Meter::new(alloc),
            rows: None,
            printer: Some(Printer::new(alloc, Version::One)?),
        })
    }

    /// The same with rows and the canonical text.
    pub(crate) fn with_rows_and_text(alloc: Global) -> Result<Tally, AllocFault>
        ensures begun { IfOk result IsBegun }
        ensures rows { IfOk result (λ tally. IsTrue (keeps_rows tally)) }
        ensures text { IfOk result (λ tally. IsTrue (keeps_text tally)) }
    {
        Ok(Tally {
            meter: Meter::new(alloc),
            rows: Some(MarkCutter::new(alloc)?),
            printer: Some(Printer::new(alloc, Version::One)?),
        })
    }
}

impl Tally {
    /// The same at its beginning, for a text of version 2.
    pub(crate) fn for_loops(self, alloc: Global) -> Result<Tally, AllocFault>
        requires { IsBegun self }
        ensures begun { IfOk result (IsBegunIn Two) }
        ensures rows { IfOk result (λ tally. keeps_rows tally ≡ keeps_rows self) }
        ensures text { IfOk result (λ tally. keeps_text tally ≡ keeps_text self) }
    {
        let Tally {
            meter,
            rows,
            printer,
        } = self;
        let printer = printer_for_loops(alloc, printer.is_some())?;
        Ok(Tally {
            meter,
            rows,
            printer,
        })
    }

    /// The table of the marks, where rows were kept and the numbers of the table fit.
    pub fn into_table(self) -> Option<LargeTable>
        requires { IsWholeTally self }
        ensures table { IfSome result (λ table. (marks : List Mark) → IsNested marks
            → Tallies self (last_moment marks) → table ≡ table_of marks) }
        ensures some { IsTrue (keeps_rows self) → (marks : List Mark) → IsReading marks
            → Tallies self (last_moment marks) → IsTrue (is_some result) }
    {
        let Tally { meter, rows, .. } = self;
        let within = meter.total_work() <= MOST_WORK;
        match rows {
            Some(rows) => table_within(rows, within),
            None => None,
        }
    }

    /// The canonical text, where it was kept, and the table as of `into_table`.
    pub(crate) fn into_text(self) -> (Option<Vec<u8>>, Option<LargeTable>)
        requires { IsWholeTally self }
        ensures text { IfSome result.0 (λ text. (wanted : List ℕ)
            → IfSome self.printer (λ (printer : Printer). string_bytes printer.text ≡ wanted)
            → text.items ≡ wanted) }
        ensures some_text { is_some result.0 ≡ keeps_text self }
        ensures table { IfSome result.1 (λ table. (marks : List Mark) → IsNested marks
            → Tallies self (last_moment marks) → table ≡ table_of marks) }
        ensures some_table { IsTrue (keeps_rows self) → (marks : List Mark) → IsReading marks
            → Tallies self (last_moment marks) → IsTrue (is_some result.1) }
    {
        let Tally {
            meter,
            rows,
            printer,
        } = self;
        let text = bytes_of(printer);
        let rest = Tally {
            meter,
            rows,
            printer: None,
        };
        (text, rest.into_table())
    }

    /// The meter alone.
    pub fn into_meter(self) -> Meter
        ensures { result ≡ self.meter }
    {
        let Tally { meter, .. } = self;
        meter
    }
}

/// The printer of a text of version 2, where its text is kept.
fn printer_for_loops(alloc: Global, keeps_text: bool) -> Result<Option<Printer>, AllocFault>
    ensures prints { IfOk result (λ printer. (names : List (List ℕ))
        → PrintsIn Two printer names [] []) }
    ensures text { IfOk result (λ printer. is_some printer ≡ keeps_text) }
{
    if keeps_text {
        Ok(Some(Printer::new(alloc, Version::Two)?))
    } else {
        Ok(None)
    }
}

fn bytes_of(printer: Option<Printer>) -> Option<Vec<u8>>
    ensures text { IfSome result (λ text. (wanted : List ℕ)
        → IfSome printer (λ (printer : Printer). string_bytes printer.text ≡ wanted)
        → text.items ≡ wanted) }
    ensures some { is_some result ≡ is_some printer }
{
    match printer {
        Some(printer) => Some(printer.into_bytes()),
        None => None,
    }
}

// The table of these rows, where they and the work are within the limits.
fn table_within(rows: MarkCutter, within: bool) -> Option<LargeTable>
    requires { HasRowsOf rows within }
    ensures some { IsTrue within → AreWithin rows → IsTrue (is_some result) }
    ensures table { IfSome result (λ table. (marks : List Mark) → IsNested marks
        → Tables rows (last_moment marks) → (IsTrue within → work_of marks ≤ MOST_WORK)
        → table ≡ table_of marks) }
{
    if within && rows.is_within() {
        Some(rows.finish())
    } else {
        None
    }
}

/// Takes the next mark. There is no room for it where memory runs out, or numbers do.
pub(crate) fn take_mark(tally: &mut Tally, mark: TextMark) -> Result<(), AllocFault>
    requires { CanTally tally.old (mark_seen mark) }
    ensures rows { keeps_rows tally.new ≡ keeps_rows tally.old }
    ensures text { keeps_text tally.new ≡ keeps_text tally.old }
    ensures prints { OnOk result (PrintsMark tally.old.printer tally.new.printer (mark_seen mark)) }
    ensures takes { OnOk result ((moment : List Mark) → Tallies tally.old moment
        → Tallies tally.new (mark_seen mark ∷ moment)) }
{
    print_mark(&mut tally.printer, &mark)?;
    measure_mark(&mut tally.meter, &mark)?;
    match &mut tally.rows {
        Some(rows) => enter(rows, mark),
        None => Ok(()),
    }
}

fn print_mark(printer: &mut Option<Printer>, mark: &TextMark) -> Result<(), AllocFault>
    ensures text { is_some printer.new ≡ is_some printer.old }
    ensures prints { OnOk result (PrintsMark printer.old printer.new (mark_seen mark.now)) }
{
    match printer {
        Some(printer) => printer.put_mark(mark),
        None => Ok(()),
    }
}

fn measure_mark(meter: &mut Meter, mark: &TextMark) -> Result<(), AllocFault>
    requires { CanTake meter.old (mark_seen mark.now) }
    ensures { OnOk result ((moment : List Mark) → Measures meter.old moment
        → Measures meter.new (mark_seen mark.now ∷ moment)) }
{
    match mark {
        TextMark::TaskBegins { undeferred, items } => {
            meter.begin_task(*undeferred, items.as_slice())
        }
        TextMark::TaskEnds => meter.end_task(),
        TextMark::Work(cost) => {
            meter.work(*cost);
            Ok(())
        }
        TextMark::Wait => {
            meter.wait();
            Ok(())
        }
        TextMark::GroupOpens => meter.begin_group(),
        TextMark::GroupCloses => {
            meter.end_group();
            Ok(())
        }
    }
}

// Enters a mark into the rows.
#[tactic(auto, using(crate::proofs::Tallying::can_enter))]
fn enter(rows: &mut MarkCutter, mark: TextMark) -> Result<(), AllocFault>
    requires { CanEnter rows.old (mark_seen mark) }
    ensures { OnOk result ((moment : List Mark) → Tables rows.old moment
        → Tables rows.new (mark_seen mark ∷ moment)) }
{
    if !rows.has_room() {
        return Err(AllocFault);
    }
    match mark {
        TextMark::TaskBegins { undeferred, items } => rows.begin_task(undeferred, items),
        TextMark::TaskEnds => rows.end_task(),
        TextMark::Work(cost) => {
            rows.work(cost);
            Ok(())
        }
        TextMark::Wait => rows.wait(),
        TextMark::GroupOpens => rows.begin_group(),
        TextMark::GroupCloses => rows.end_group(),
    }
}
