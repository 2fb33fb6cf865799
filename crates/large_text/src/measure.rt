//! Work and span of a text of any size.
ghost use Rattle.std.specs.Prelude.{ℕ, ◌≡◌, ◌≢◌, ◌+◌, ◌<◌, ◌≤◌, ◌^◌, [], ◌∷◌, ◌++◌, List, IfOk, IfErr, OnOk};
ghost use Rattle.std.specs.Prelude.{length, false};
ghost use Rattle.program_text.specs.declared.fault.ReadKind.TheVariants.{OutOfMemory};
ghost use Rattle.program_text.specs.Tokens as tokens;
ghost use Rattle.program_text.specs.Tokens.{tokens_from, line_at_end};
ghost use Rattle.large_text.specs.declared.limits.TheConstants.{LARGEST_TEXT};
ghost use Rattle.large_text.specs.LargeReading.{token_on};
ghost use Rattle.large_text.specs.LargeTexts.{is_large_two, IsLargeFault};
ghost use Rattle.large_text.specs.LargeTrees.{IsLargeFirstFault};
ghost use Rattle.large_text.specs.Measured.{MeasuresText, MeasuresSoFar, CanMeasure};
ghost use Rattle.large_text.specs.Printed.{IsNameAt, PrintsItem};
ghost use Rattle.large_text.specs.Tallied.{keeps_rows, keeps_text};
ghost use Rattle.std.specs.Option.{is_some};
ghost use Rattle.std.specs.Prelude.{Some};

use crate::fault::LargeFault;
use crate::large_texts::{is_large_two, tally_two};
use crate::marks::TextMark;
use crate::printer::Printer;
use crate::reader::MarkReader;
use crate::tally::{Tally, take_mark};
use online_span::Meter;
use program_text::scanner::{Scanner, Token};
use program_text::words::text_of;
use std::alloc::Global;
use task_program::AllocFault;
use task_program::name_key::NameKey;
use task_program::place::Place;

/// The meter that has taken all marks of a text. The fault is the text's first, or out of memory, on
/// line 0.
pub fn measure_text(alloc: Global, text: &[u8]) -> Result<Meter, LargeFault>
    requires { length text.now + 1 < 2 ^ 32 }
    ensures measured { IfOk result (MeasuresText text.now) }
    ensures refused { IfErr result (λ fault. fault.kind ≢ OutOfMemory → IsLargeFault text.now fault) }
    ensures memory { IfErr result (λ fault. fault.kind ≡ OutOfMemory → fault.line ≡ 0) }
{
    let key = NameKey::of_text(text);
    if is_large_two(text) {
        let tally = tally_two(alloc, key, text, Tally::new(alloc))?;
        return Ok(tally.into_meter());
    }
    measure_plain(alloc, key, text)
}

// The same of a text of version 1, which is gone through once.
fn measure_plain(alloc: Global, key: NameKey, text: &[u8]) -> Result<Meter, LargeFault>
    requires short { length text.now + 1 < 2 ^ 32 }
    requires not_two { is_large_two text.now ≡ false }
    ensures measured { IfOk result (MeasuresText text.now) }
    ensures refused { IfErr result (λ fault. fault.kind ≢ OutOfMemory → IsLargeFault text.now fault) }
    ensures memory { IfErr result (λ fault. fault.kind ≡ OutOfMemory → fault.line ≡ 0) }
{
    let mut reader = MarkReader::new(alloc, key);
    let mut meter = Tally::new(alloc);
    let line = take_tokens(&mut reader, &mut meter, text, 0)?;
    reader.finish(line)?;
    Ok(meter.into_meter())
}

// Takes the tokens of these bytes, which begin behind so many lines, outside a comment. The result is
// the line on which they end.
pub(crate) fn take_tokens(
    reader: &mut MarkReader,
    meter: &mut Tally,
    text: &[u8],
    lines: u64,
) -> Result<u64, LargeFault>
    requires taken { CanMeasure reader.old meter.old }
    requires few { lines ≤ LARGEST_TEXT }
    requires short { length text.now + 1 < 2 ^ 32 }
    ensures reads { OnOk result ((before : List tokens.Token)
        → MeasuresSoFar before reader.old meter.old
        → MeasuresSoFar (before ++ tokens_from false (lines + 1) text.now) reader.new meter.new) }
    ensures line { IfOk result (λ end. end ≡ line_at_end (lines + 1) text.now) }
    ensures refused { IfErr result (λ fault. fault.kind ≢ OutOfMemory
        → (before later : List tokens.Token) (end_line : ℕ)
        → MeasuresSoFar before reader.old meter.old
        → IsLargeFirstFault (before ++ (tokens_from false (lines + 1) text.now ++ later)) end_line
        fault) }
    ensures memory { IfErr result (λ fault. fault.kind ≡ OutOfMemory → fault.line ≡ 0) }
    ensures rows { keeps_rows meter.new ≡ keeps_rows meter.old }
    ensures text { keeps_text meter.new ≡ keeps_text meter.old }
{
    let mut scanner = Scanner::new(text);
    'tokens: while let Some(token) = scanner.next_token() {
        take_token(reader, meter, token, lines + token.line as u64)?;
    }
    Ok(lines + scanner.line as u64)
}

// Takes the next token, which begins on this line, and the mark that is whole with it, if one is.
fn take_token(
    reader: &mut MarkReader,
    meter: &mut Tally,
    token: Token<'_>,
    line: u64,
) -> Result<(), LargeFault>
    requires { CanMeasure reader.old meter.old }
    ensures reads { OnOk result ((before : List tokens.Token)
        → MeasuresSoFar before reader.old meter.old
        → MeasuresSoFar (before ++ token_on token.entry line ∷ []) reader.new meter.new) }
    ensures refused { IfErr result (λ fault. fault.kind ≢ OutOfMemory
        → (before later : List tokens.Token) (end_line : ℕ)
        → MeasuresSoFar before reader.old meter.old
        → IsLargeFirstFault (before ++ token_on token.entry line ∷ later) end_line fault) }
    ensures memory { IfErr result (λ fault. fault.kind ≡ OutOfMemory → fault.line ≡ 0) }
    ensures rows { keeps_rows meter.new ≡ keeps_rows meter.old }
    ensures text { keeps_text meter.new ≡ keeps_text meter.old }
{
    let place = reader.place();
    let mark = reader.take(token, line)?;
    print_item(&mut meter.printer, place, token)?;
    match mark {
        Some(mark) => Ok(take_mark(meter, mark)?),
        None => Ok(()),
    }
}

// Prints the depend item that this token ends, if it ends one at this place.
fn print_item(
    printer: &mut Option<Printer>,
    place: Place,
    token: Token<'_>,
) -> Result<(), AllocFault>
    requires { IsNameAt place token.text.now }
    ensures text { is_some printer.new ≡ is_some printer.old }
    ensures prints { OnOk result (PrintsItem place token.entry.text.now printer.old printer.new) }
{
    match printer {
        Some(printer) => put_item(printer, place, token),
        None => Ok(()),
    }
}

fn put_item(printer: &mut Printer, place: Place, token: Token<'_>) -> Result<(), AllocFault>
    requires { IsNameAt place token.text.now }
    ensures { OnOk result (PrintsItem place token.entry.text.now (Some printer.old)
        (Some printer.new)) }
{
    match place {
        Place::DependName(kind) => printer.put_item(kind, text_of(token.text)),
        _ => Ok(()),
    }
}
