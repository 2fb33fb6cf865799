//! Texts of either version, of any size.
ghost use Rattle.std.specs.Prelude.{◌≡◌, ◌≢◌, true, IfOk, IfErr};
ghost use Rattle.program_text.specs.declared.fault.ReadKind.TheVariants.{OutOfMemory};
ghost use Rattle.large_text.specs.LargeTexts.{is_large_two, IsLargeFault};
ghost use Rattle.large_text.specs.Measured.{TalliesText};
ghost use Rattle.large_text.specs.Tallied.{IsBegun, keeps_rows, keeps_text};

use crate::fault::LargeFault;
use crate::loop_marks::tally_loops;
use crate::tally::Tally;
use program_text::scanner::Scanner;
use std::alloc::Global;
use task_program::fault::ReadKind;
use task_program::limits::MOST_TEXT_BYTES;
use task_program::name_key::NameKey;
use task_program::read::takes_header_two;

/// Whether the text is of version 2: that header stands in its first `MOST_TEXT_BYTES`.
pub(crate) fn is_large_two(text: &[u8]) -> bool
    ensures { result ≡ is_large_two text.now }
{
    let (head, _) = text.split_at(MOST_TEXT_BYTES.min(text.len()));
    takes_header_two(&mut Scanner::new(head))
}

/// The tally of a text of version 2, in two passes.
pub(crate) fn tally_two(
    alloc: Global,
    key: NameKey,
    text: &[u8],
    tally: Tally,
) -> Result<Tally, LargeFault>
    requires two { is_large_two text.now ≡ true }
    requires begun { IsBegun tally }
    ensures measured { IfOk result (TalliesText text.now) }
    ensures rows { IfOk result (λ done. keeps_rows done ≡ keeps_rows tally) }
    ensures text { IfOk result (λ done. keeps_text done ≡ keeps_text tally) }
    ensures refused { IfErr result (λ fault. fault.kind ≢ OutOfMemory → IsLargeFault text.now fault) }
    ensures memory { IfErr result (λ fault. fault.kind ≡ OutOfMemory → fault.line ≡ 0) }
{
    if text.len() > MOST_TEXT_BYTES {
        return Err(LargeFault {
            kind: ReadKind::TooLong,
            line: 1,
        });
    }
    let mut after_header = Scanner::new(text);
    takes_header_two(&mut after_header);
    let tally = tally.for_loops(alloc)?;
    tally_loops(alloc, after_header, key, tally)
}
