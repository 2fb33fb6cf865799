//! Reading a program, and printing it.
ghost use Rattle.std.specs.Prelude.{IfErr, IfOk, ◌≡◌, ◌≢◌};
ghost use Rattle.task_program.specs.Canonical.{canonical_text};
ghost use Rattle.task_program.specs.ProgramMarks.{ProgramMarks};
ghost use Rattle.task_program.specs.Readings.{HasFirstFault};
ghost use Rattle.task_program.specs.Trees.{HasTree};

use std::alloc::Global;
use task_program::fault::{ReadFault, ReadKind};
use task_program::print::print_program;
use task_program::read::read_program;

/// The canonical text of a program, from any text of it. Both texts have one tree.
pub fn reprint(alloc: Global, text: &[u8]) -> Result<Vec<u8>, ReadFault>
    ensures same { IfOk result (λ printed. (program : ProgramMarks)
        × HasTree text.now program × HasTree printed.items program
        × (printed.items ≡ canonical_text program)) }
    ensures refused { IfErr result (λ fault. fault.kind ≢ ReadKind.OutOfMemory
        → HasFirstFault text.now fault) }
{
    let program = read_program(alloc, text)?;
    let printed = print_program(alloc, &program)?;
    Ok(printed)
}
