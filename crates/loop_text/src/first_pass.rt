//! The first pass over a text of version 2: what follows the header, as a tree with loops.
ghost use Rattle.program_text.specs.Answers.{Gives};
ghost use Rattle.loop_text.specs.FirstPass as first;
ghost use Rattle.loop_text.specs.FirstPass.{first_pass};
ghost use Rattle.program_text.specs.ScannerSeen.{tokens_left, end_line};

use crate::loop_place::LoopPlace;
use crate::loop_reader::LoopReader;
use crate::loops::LoopBody;
use program_text::fault::ReadFault;
use program_text::scanner::Scanner;
use std::alloc::Global;

/// The first pass.
pub fn read_loops(alloc: Global, after_header: Scanner<'_>) -> Result<LoopBody, ReadFault>
    ensures { Gives (λ body. body) result (first_pass (tokens_left after_header.entry)
        (end_line after_header.entry) first.after_header) }
{
    let mut scanner = after_header;
    let mut reader = LoopReader::new(alloc);
    let mut next = LoopPlace::Statement;
    'tokens: while let Some(token) = scanner.next_token() {
        next = reader.take(next, token)?;
    }
    reader.finish(next, scanner.line)
}
