//! The marks of an expansion, entered one after another.
ghost use Rattle.std.specs.Prelude.{◌≡◌, ◌≢◌, ◌≤◌, ◌<◌, ◌+◌, ◌∷◌, [], reverse, map, OnOk, IfErr, IfOk, length};
ghost use Rattle.std.specs.Option.{is_some};
ghost use Rattle.program_text.specs.ScannerSeen.{tokens_left, end_line};
ghost use Rattle.program_text.specs.declared.fault.ReadKind.TheVariants.{OutOfMemory, TooLong};
ghost use Rattle.loop_text.specs.Loops.{Tree};
ghost use Rattle.loop_text.specs.LoopsSeen.{tree_of};
ghost use Rattle.task_program.specs.Expanded.{empty_expansion};
ghost use Rattle.task_program.specs.Expansion.{item_comes, task_pieces};
ghost use Rattle.task_program.specs.Expansion.Piece.{TurnBegins, TaskOpens, GroupComes, GroupOpens};
ghost use Rattle.task_program.specs.Expansion.Piece.{BlockEnds, WorkIs, WaitIs};
ghost use Rattle.task_program.specs.FirstLoopFault.{IsTreeOf};
ghost use Rattle.task_program.specs.Walks.{IsSomewhere, IsInside, TakesSo};
ghost use Rattle.task_program.specs.declared.version.Version.TheVariants.{Two};
ghost use Rattle.task_program.specs.TreeSoFar.{end_mark_of};
ghost use Rattle.large_text.specs.LargeReading.{block_seen, mark_seen};
ghost use Rattle.large_text.specs.LoopFaults.{is_full, large_fault_of};
ghost use Rattle.large_text.specs.LoopMarked.{HasEntered, HasKept, IsRefusedWith};
ghost use Rattle.large_text.specs.LoopTallied.{HasLoopFaultOf, TalliesTree};
ghost use Rattle.large_text.specs.Printed.{PrintsNamed};
ghost use Rattle.large_text.specs.Tallied.{IsBegunIn, keeps_rows, keeps_text};
ghost use Rattle.large_text.specs.declared.limits.TheConstants.{MOST_LARGE_LINES};

use crate::fault::LargeFault;
use crate::limits::{MOST_LARGE_ITEMS, MOST_LARGE_LINES, MOST_LARGE_TURNS, MOST_TASK_ITEMS};
use crate::marks::TextMark;
use crate::printer::Printer;
use crate::reader::OpenBlock;
use crate::tally::{Tally, take_mark};
use loop_text::first_pass::read_loops;
use loop_text::loops::{LoopItem, LoopStmt, LoopTask};
use program_text::scanner::Scanner;
use std::alloc::Global;
use std::mem::replace;
use task_program::AllocFault;
use task_program::fault::{ReadFault, ReadKind};
use task_program::limits::MOST_WORK;
use task_program::name_key::NameKey;
use task_program::names::Names;
use task_program::statement::{DependKind, Item, Items};
use task_program::subscripts::{index_fits, index_line, location};
use task_program::walk::{TakesPieces, take_all};

/// What was expanded: its marks are entered into the tally.
#[derive(Drop)]
pub struct LoopMarks {
    /// The iterations of all loops.
    turns: u32,
    /// The lines of the canonical text so far, with a `}` for each open block.
    lines: u32,
    work: u64,
    names: Names,
    /// The items so far of the task that comes.
    items: Items,
    /// The innermost last.
    blocks: Vec<OpenBlock>,
    tally: Tally,
}

fn fault(kind: ReadKind, line: u32) -> ReadFault
    ensures { result ≡ record { kind = kind; line = line } }
{
    ReadFault { kind, line }
}

/// The mark with which a block ends.
fn end_of(block: OpenBlock) -> TextMark
    ensures { mark_seen result ≡ end_mark_of (block_seen block) }
{
    match block {
        OpenBlock::OpenTask(_) => TextMark::TaskEnds,
        OpenBlock::OpenGroup(_) => TextMark::GroupCloses,
    }
}

impl LoopMarks {
    /// The taker of an expansion of which nothing has come.
    pub(crate) fn new(alloc: Global, key: NameKey, tally: Tally) -> LoopMarks
        requires { IsBegunIn Two tally }
        ensures entered { HasEntered result empty_expansion }
        ensures tally { result.tally ≡ tally }
    {
        LoopMarks {
            turns: 0,
            lines: 0,
            work: 0,
            names: Names::new(alloc, key),
            items: Items::new(alloc),
            blocks: Vec::new(alloc),
            tally,
        }
    }

    pub(crate) fn into_tally(self) -> Tally
        ensures { result ≡ self.tally }
    {
        let LoopMarks { tally, .. } = self;
        tally
    }

    /// So many lines more.
    fn add_lines(&mut self, more: u32, line: u32) -> Result<(), ReadFault>
        requires few { more ≤ 2 }
        requires lines { self.old.lines ≤ MOST_LARGE_LINES }
        ensures ok { OnOk result ((self.old.lines + more ≤ MOST_LARGE_LINES)
            × (self.new ≡ record self.old { lines = self.old.lines + more })) }
        ensures err { IfErr result (λ fault. (MOST_LARGE_LINES < self.old.lines + more)
            × (fault ≡ record { kind = TooLong; line = line })) }
    {
        if self.lines > MOST_LARGE_LINES - more {
            return Err(fault(ReadKind::TooLong, line));
        }
        self.lines += more;
        Ok(())
    }

    /// Whether no item can follow.
    fn is_full(&self) -> bool
        ensures { result ≡ is_full (length self.now.items) (length self.now.names) }
    {
        self.items.len() >= MOST_TASK_ITEMS || self.names.len() >= MOST_LARGE_ITEMS
    }

    fn item(&mut self, alloc: Global, values: &[u32], item: &LoopItem) -> Result<(), ReadFault>
        requires { IsSomewhere (HasEntered self.old) }
        ensures takes { TakesSo large_fault_of (item_comes (reverse values.now) item.now ∷ [])
            (HasEntered self.old) (HasEntered self.new) result }
        ensures rows { OnOk result (keeps_rows self.new.tally ≡ keeps_rows self.old.tally) }
        ensures text { OnOk result (keeps_text self.new.tally ≡ keeps_text self.old.tally) }
    {
        if self.is_full() {
            return Err(fault(ReadKind::TooManyItems, item.line));
        }
        if !index_fits(values, item.index) {
            return Err(fault(ReadKind::BadNumber, index_line(item.index)));
        }
        let location = location(alloc, values, item)?;
        print_item(&mut self.tally.printer, item.kind, location.as_str())?;
        let name = self.names.number_of(alloc, location.as_str())?;
        self.items.push(Item {
            kind: item.kind,
            name,
        })?;
        Ok(())
    }

    fn items(&mut self, alloc: Global, values: &[u32], items: &[LoopItem]) -> Result<(), ReadFault>
        requires { IsSomewhere (HasEntered self.old) }
        ensures takes { TakesSo large_fault_of (map (item_comes (reverse values.now)) items.now)
            (HasEntered self.old) (HasEntered self.new) result }
        ensures rows { OnOk result (keeps_rows self.new.tally ≡ keeps_rows self.old.tally) }
        ensures text { OnOk result (keeps_text self.new.tally ≡ keeps_text self.old.tally) }
    {
        'items: for item in items {
            self.item(alloc, values, item)?;
        }
        Ok(())
    }

    fn task_brace(&mut self, alloc: Global, undeferred: bool, line: u32) -> Result<(), ReadFault>
        requires { IsSomewhere (HasEntered self.old) }
        ensures takes { TakesSo large_fault_of (TaskOpens undeferred line ∷ []) (HasEntered self.old)
            (HasEntered self.new) result }
        ensures rows { OnOk result (keeps_rows self.new.tally ≡ keeps_rows self.old.tally) }
        ensures text { OnOk result (keeps_text self.new.tally ≡ keeps_text self.old.tally) }
    {
        self.add_lines(2, line)?;
        let items = replace(&mut self.items, Items::new(alloc));
        self.blocks.push(OpenBlock::OpenTask(u64::from(line)))?;
        take_mark(&mut self.tally, TextMark::TaskBegins { undeferred, items })?;
        Ok(())
    }

    /// A turn of a loop begins.
    #[tactic(auto, using(crate::proofs::LoopMarking::turn_leads, crate::proofs::LoopMarking::turn_stops))]
    fn turn(&mut self, line: u32) -> Result<(), ReadFault>
        requires { IsSomewhere (HasEntered self.old) }
        ensures takes { TakesSo large_fault_of (TurnBegins line ∷ [])
            (HasEntered self.old) (HasEntered self.new) result }
        ensures rows { OnOk result (keeps_rows self.new.tally ≡ keeps_rows self.old.tally) }
        ensures text { OnOk result (keeps_text self.new.tally ≡ keeps_text self.old.tally) }
    {
        if self.turns >= MOST_LARGE_TURNS {
            return Err(fault(ReadKind::TooManyTurns, line));
        }
        self.turns += 1;
        Ok(())
    }

    /// A task up to its `{`.
    fn task(
        &mut self,
        alloc: Global,
        values: &[u32],
        in_final: bool,
        task: &LoopTask,
    ) -> Result<(), ReadFault>
        requires { IsSomewhere (HasEntered self.old) }
        ensures takes { TakesSo large_fault_of (task_pieces (reverse values.now) in_final task.now)
            (HasEntered self.old) (HasEntered self.new) result }
        ensures rows { OnOk result (keeps_rows self.new.tally ≡ keeps_rows self.old.tally) }
        ensures text { OnOk result (keeps_text self.new.tally ≡ keeps_text self.old.tally) }
    {
        self.items(alloc, values, task.items.as_slice())?;
        self.task_brace(alloc, task.undeferred || in_final, task.brace_line)
    }

    /// A group up to its `{`.
    fn group(&mut self, line: u32, brace_line: u32) -> Result<(), ReadFault>
        requires { IsSomewhere (HasEntered self.old) }
        ensures takes { TakesSo large_fault_of (GroupComes line ∷ GroupOpens brace_line ∷ [])
            (HasEntered self.old) (HasEntered self.new) result }
        ensures rows { OnOk result (keeps_rows self.new.tally ≡ keeps_rows self.old.tally) }
        ensures text { OnOk result (keeps_text self.new.tally ≡ keeps_text self.old.tally) }
    {
        self.add_lines(2, brace_line)?;
        self.blocks
            .push(OpenBlock::OpenGroup(u64::from(brace_line)))?;
        take_mark(&mut self.tally, TextMark::GroupOpens)?;
        Ok(())
    }

    /// The innermost block ends.
    fn close(&mut self) -> Result<(), ReadFault>
        requires { IsInside (HasEntered self.old) }
        ensures takes { TakesSo large_fault_of (BlockEnds ∷ [])
            (HasEntered self.old) (HasEntered self.new) result }
        ensures rows { OnOk result (keeps_rows self.new.tally ≡ keeps_rows self.old.tally) }
        ensures text { OnOk result (keeps_text self.new.tally ≡ keeps_text self.old.tally) }
    {
        match self.blocks.pop() {
            Some(block) => {
                take_mark(&mut self.tally, end_of(block))?;
                Ok(())
            }
            None => Ok(()),
        }
    }

    fn work(&mut self, cost: u64, line: u32) -> Result<(), ReadFault>
        requires { IsSomewhere (HasEntered self.old) }
        ensures takes { TakesSo large_fault_of (WorkIs cost line ∷ [])
            (HasEntered self.old) (HasEntered self.new) result }
        ensures rows { OnOk result (keeps_rows self.new.tally ≡ keeps_rows self.old.tally) }
        ensures text { OnOk result (keeps_text self.new.tally ≡ keeps_text self.old.tally) }
    {
        if cost > MOST_WORK - self.work {
            return Err(fault(ReadKind::WorkTooLarge, line));
        }
        self.add_lines(1, line)?;
        self.work += cost;
        take_mark(&mut self.tally, TextMark::Work(cost))?;
        Ok(())
    }

    fn wait(&mut self, line: u32) -> Result<(), ReadFault>
        requires { IsSomewhere (HasEntered self.old) }
        ensures takes { TakesSo large_fault_of (WaitIs line ∷ [])
            (HasEntered self.old) (HasEntered self.new) result }
        ensures rows { OnOk result (keeps_rows self.new.tally ≡ keeps_rows self.old.tally) }
        ensures text { OnOk result (keeps_text self.new.tally ≡ keeps_text self.old.tally) }
    {
        self.add_lines(1, line)?;
        take_mark(&mut self.tally, TextMark::Wait)?;
        Ok(())
    }
}

fn print_item(printer: &mut Option<Printer>, kind: DependKind, name: &str) -> Result<(), AllocFault>
    ensures text { is_some printer.new ≡ is_some printer.old }
    ensures prints { OnOk result (PrintsNamed kind name.now printer.old printer.new) }
{
    match printer {
        Some(printer) => printer.put_item(kind, name),
        None => Ok(()),
    }
}

/// The same, where it is known whether the tally keeps rows, and whether it keeps the text.
#[derive(Drop)]
struct KeptMarks<const ROWS: bool, const TEXT: bool> {
    marks: LoopMarks,
}

impl<const ROWS: bool, const TEXT: bool> TakesPieces for KeptMarks<ROWS, TEXT> {
    ghost test = { large_fault_of };

    ghost stands_at = { λ taker state. HasKept ROWS TEXT taker.marks state };

    fn turn(&mut self, line: u32) -> Result<(), ReadFault> {
        self.marks.turn(line)
    }

    fn task(
        &mut self,
        alloc: Global,
        values: &[u32],
        in_final: bool,
        task: &LoopTask,
    ) -> Result<(), ReadFault> {
        self.marks.task(alloc, values, in_final, task)
    }

    fn group(&mut self, alloc: Global, line: u32, brace_line: u32) -> Result<(), ReadFault> {
        self.marks.group(line, brace_line)
    }

    fn close(&mut self, alloc: Global) -> Result<(), ReadFault> {
        self.marks.close()
    }

    fn work(&mut self, alloc: Global, cost: u64, line: u32) -> Result<(), ReadFault> {
        self.marks.work(cost, line)
    }

    fn wait(&mut self, alloc: Global, line: u32) -> Result<(), ReadFault> {
        self.marks.wait(line)
    }
}

/// The tally of the expansion of these statements, where it is known what is kept.
fn tally_kept<const ROWS: bool, const TEXT: bool>(
    alloc: Global,
    statements: &[LoopStmt],
    key: NameKey,
    tally: Tally,
) -> Result<Tally, ReadFault>
    requires begun { IsBegunIn Two tally }
    requires rows { keeps_rows tally ≡ ROWS }
    requires text { keeps_text tally ≡ TEXT }
    ensures tallied { IfOk result (TalliesTree (tree_of statements.now)) }
    ensures refused { IfErr result (IsRefusedWith (tree_of statements.now)) }
    ensures rows { IfOk result (λ done. keeps_rows done ≡ ROWS) }
    ensures text { IfOk result (λ done. keeps_text done ≡ TEXT) }
{
    let mut taker: KeptMarks<ROWS, TEXT> = KeptMarks {
        marks: LoopMarks::new(alloc, key, tally),
    };
    take_all(&mut taker, alloc, statements)?;
    Ok(taker.marks.into_tally())
}

/// The tally of the expansion of these statements.
fn tally_statements(
    alloc: Global,
    statements: &[LoopStmt],
    key: NameKey,
    tally: Tally,
) -> Result<Tally, ReadFault>
    requires { IsBegunIn Two tally }
    ensures tallied { IfOk result (TalliesTree (tree_of statements.now)) }
    ensures refused { IfErr result (IsRefusedWith (tree_of statements.now)) }
    ensures rows { IfOk result (λ done. keeps_rows done ≡ keeps_rows tally) }
    ensures text { IfOk result (λ done. keeps_text done ≡ keeps_text tally) }
{
    match (tally.rows.is_some(), tally.printer.is_some()) {
        (false, false) => tally_kept::<false, false>(alloc, statements, key, tally),
        (false, true) => tally_kept::<false, true>(alloc, statements, key, tally),
        (true, false) => tally_kept::<true, false>(alloc, statements, key, tally),
        (true, true) => tally_kept::<true, true>(alloc, statements, key, tally),
    }
}

/// The tally of the marks of a whole text, of which this follows the header of version 2.
pub(crate) fn tally_loops(
    alloc: Global,
    after_header: Scanner<'_>,
    key: NameKey,
    tally: Tally,
) -> Result<Tally, LargeFault>
    requires { IsBegunIn Two tally }
    ensures tallied { IfOk result (λ done. (tree : Tree)
        × IsTreeOf (tokens_left after_header.entry) tree × TalliesTree tree done) }
    ensures refused { IfErr result (λ fault. fault.kind ≢ OutOfMemory
        → HasLoopFaultOf (tokens_left after_header.entry) (end_line after_header.entry) fault) }
    ensures memory { IfErr result (λ fault. fault.kind ≡ OutOfMemory → fault.line ≡ 0) }
    ensures rows { IfOk result (λ done. keeps_rows done ≡ keeps_rows tally) }
    ensures text { IfOk result (λ done. keeps_text done ≡ keeps_text tally) }
{
    let body = match read_loops(alloc, after_header) {
        Ok(body) => body,
        Err(fault) => return Err(large_fault(fault)),
    };
    match tally_statements(alloc, body.as_slice(), key, tally) {
        Ok(tally) => Ok(tally),
        Err(fault) => Err(large_fault(fault)),
    }
}

fn large_fault(fault: ReadFault) -> LargeFault
    ensures { result ≡ fault }
{
    LargeFault {
        kind: fault.kind,
        line: u64::from(fault.line),
    }
}
