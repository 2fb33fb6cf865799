//! The span of a text that is gone through once.
ghost use Rattle.std.specs.Prelude.{IfErr, IfOk, ◌+◌, ◌<◌, ◌^◌, ◌≢◌, length};
ghost use Rattle.large_text.specs.LargeTexts.{IsLargeFault, StandsForLarge};
ghost use Rattle.online_span.specs.Spans.{IsSpanOf};
ghost use Rattle.task_program.specs.ProgramMarks.{ProgramMarks};

use large_text::fault::LargeFault;
use large_text::measure_text;
use std::alloc::Global;
use task_program::fault::ReadKind;

/// The span of a text's program, which may have any number of tasks, or the text's first fault.
pub fn span_of(alloc: Global, text: &[u8]) -> Result<u64, LargeFault>
    requires { length text.now + 1 < 2 ^ 32 }
    ensures span { IfOk result (λ span. (program : ProgramMarks)
        × StandsForLarge text.now program × IsSpanOf program.marks span) }
    ensures refused { IfErr result (λ fault. fault.kind ≢ ReadKind.OutOfMemory
        → IsLargeFault text.now fault) }
{
    let meter = measure_text(alloc, text)?;
    Ok(meter.span())
}
