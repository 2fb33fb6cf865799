//! What a segment may have to wait for, as far as its own row shows.
ghost use Rattle.std.specs.Prelude.{◌<◌, ◌↔◌, IfOk, IsTrue};
ghost use Rattle.task_segments.specs.Precedence.{IsSegment, MustPrecede};
ghost use Rattle.span_cert.specs.NameMarks.{AreMarkedFor, IsCut, IsOpening};

use crate::name_marks::NameMarks;
use task_program::AllocFault;
use task_segments::table::{BoundedTable, Closing};

/// Where a segment opens.
#[derive(Clone, Copy, Debug, PartialEq, Eq)]
pub enum OpensAt {
    /// With its task: it can wait for its creator and for siblings of its task that conflict.
    First,
    /// Where its task goes on after it created another: it can wait for a segment of its task and
    /// for the one before it.
    AfterChild,
    /// After a `taskwait` or the end of a `taskgroup`: it can wait for any.
    AfterCut,
}

/// Where a segment opens; where that is with its task, the task's items are marked.
pub(crate) fn opening_of<const SEGMENTS: u32, const TASKS: u32>(
    table: &BoundedTable<SEGMENTS, TASKS>,
    marks: &mut NameMarks,
    t: u32,
) -> Result<OpensAt, AllocFault>
    requires { IsSegment table.now t }
    ensures opening { IfOk result (IsOpening table.now t) }
    ensures marks { IfOk result (AreMarkedFor table.now marks.new t) }
{
    task_segments::laws::nests(table);
    let task = table.task_of(t);
    if table.first(task) == t {
        marks.put(t, table.items(task))?;
        return Ok(OpensAt::First);
    }
    if t > 0 && is_cut(table.closing(t - 1)) {
        Ok(OpensAt::AfterCut)
    } else {
        Ok(OpensAt::AfterChild)
    }
}

/// Whether a segment ends at a `taskwait` or at the end of a `taskgroup`.
fn is_cut(closing: Closing) -> bool
    ensures { IsTrue result ↔ IsCut closing }
{
    closing == Closing::Waits || closing == Closing::EndsGroup
}

/// Whether t may have to wait for s. Of a pair for which it is false, t does not.
pub(crate) fn may_wait<const SEGMENTS: u32, const TASKS: u32>(
    table: &BoundedTable<SEGMENTS, TASKS>,
    marks: &NameMarks,
    opening: OpensAt,
    s: u32,
    t: u32,
) -> bool
    requires from { IsSegment table.now s }
    requires to { IsSegment table.now t }
    requires before { s < t }
    requires opening { IsOpening table.now t opening }
    requires marks { AreMarkedFor table.now marks.now t opening }
    ensures { MustPrecede table.now s t → IsTrue result }
{
    task_segments::laws::nests(table);
    let task = table.task_of(t);
    let other = table.task_of(s);
    match opening {
        OpensAt::First => table.creator(task) == Some(s) || marks.meet(t, table.items(other)),
        OpensAt::AfterChild => t - s == 1 || other == task,
        OpensAt::AfterCut => true,
    }
}
