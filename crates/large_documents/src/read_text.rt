//! A text in memory, and its table.
ghost use Rattle.std.specs.Prelude.{[], IfOk, MatchResult, OnOk};
ghost use Rattle.large_text.specs.LargeTexts.{FitsText, IsLargeFault};
ghost use Rattle.large_text.specs.Measured.{IsTableOfText};
ghost use Rattle.large_text.specs.Streamed.{HasTaken};

use large_text::TextMeter;
use large_text::fault::LargeFault;
use std::alloc::Global;
use task_program::AllocFault;
use task_program::fault::ReadKind;
use task_program::name_key::NameKey;
use task_segments::table::LargeTable;

/// How many bytes are handed to a meter at once.
const PIECE: usize = 65_536;

/// The table of a text, or its first fault. Its names are hashed under this key.
pub fn read_table(
    alloc: Global,
    key: NameKey,
    text: &[u8],
) -> Result<Result<LargeTable, LargeFault>, AllocFault>
    requires { FitsText text.now }
    ensures { IfOk result (λ read.
        MatchResult read (IsTableOfText text.now) (IsLargeFault text.now)) }
{
    let mut meter = TextMeter::with_rows(alloc, key)?;
    take_text(&mut meter, text)?;
    match meter.finish_table() {
        // Without a table there are more rows than are numbered.
        Ok(table) => Ok(Ok(table.ok_or(AllocFault)?)),
        Err(fault) if fault.kind == ReadKind::OutOfMemory => Err(AllocFault),
        Err(fault) => Ok(Err(fault)),
    }
}

/// Hands a text to a meter, piece by piece.
fn take_text(meter: &mut TextMeter, text: &[u8]) -> Result<(), AllocFault>
    requires fits { FitsText text.now }
    requires first { HasTaken [] meter.old }
    ensures { OnOk result (HasTaken text.now meter.new) }
{
    let mut rest = text;
    'pieces: while !rest.is_empty() {
        let (piece, later) = rest.split_at(rest.len().min(PIECE));
        meter.take(piece)?;
        rest = later;
    }
    Ok(())
}
