//! The table of a text of any size.
ghost use Rattle.std.specs.Prelude.{◌≡◌, ◌≢◌, ◌≤◌, IfErr, IfOk, length, true};
ghost use Rattle.large_text.specs.Streamed.{HasTaken};
ghost use Rattle.large_text.specs.declared.limits.TheConstants.{LARGEST_LINE};
ghost use Rattle.program_text.specs.declared.fault.ReadKind.TheVariants.{OutOfMemory};
ghost use Rattle.spanprof_c.specs.Programs.{IsFaultOf, OfText, source};

use large_text::TextMeter;
use large_text::fault::LargeFault;
use large_text::limits::LARGEST_LINE;
use std::alloc::Global;
use task_program::AllocFault;
use task_program::fault::ReadKind;
use task_program::name_key::NameKey;
use task_segments::table::LargeTable;

/// How many bytes of a text its meter gets at once.
const PIECE: usize = 65_536;

/// The table of a text of any size.
#[tactic(auto, using(crate::proofs::Taking::table_there))]
pub(crate) fn large_table(alloc: Global, text: &[u8]) -> Result<LargeTable, LargeFault>
    ensures found { IfOk result (λ table.
        OfText (source true text.now) (λ other. other ≡ table)) }
    ensures refused { IfErr result (λ fault.
        fault.kind ≢ OutOfMemory → IsFaultOf true text.now fault) }
{
    if text.len() > LARGEST_LINE {
        return Err(LargeFault {
            kind: ReadKind::TooLong,
            line: 1,
        });
    }
    let meter = take_text(alloc, text)?;
    match meter.finish_table()? {
        Some(table) => Ok(table),
        // There are more rows than are numbered.
        None => Err(LargeFault {
            kind: ReadKind::OutOfMemory,
            line: 0,
        }),
    }
}

/// The meter that has taken a text, piece by piece.
fn take_text(alloc: Global, text: &[u8]) -> Result<TextMeter, AllocFault>
    requires { length text.now ≤ LARGEST_LINE }
    ensures { IfOk result (λ meter. HasTaken text.now meter) }
{
    let mut meter = TextMeter::with_rows(alloc, NameKey::of_text(text))?;
    let mut left = text;
    'pieces: while !left.is_empty() {
        let (piece, rest) = left.split_at(left.len().min(PIECE));
        meter.take(piece)?;
        left = rest;
    }
    Ok(meter)
}
