//! Work and span of a text of version 1 that comes in pieces.
ghost use Rattle.std.specs.Prelude.{◌≡◌, ◌≢◌, ◌<◌, ◌≤◌, [], List, ℕ, IfOk, IfErr};
ghost use Rattle.std.specs.Prelude.{OnOk, None, length, take, drop};
ghost use Rattle.program_text.specs.declared.fault.ReadKind.TheVariants.{OutOfMemory};
ghost use Rattle.program_text.specs.Tokens.{tokens_of, line_at_end};
ghost use Rattle.large_text.specs.declared.limits.TheConstants.{LARGEST_PIECE};
ghost use Rattle.large_text.specs.LargeTrees.{IsLargeFirstFault};
ghost use Rattle.large_text.specs.LargeTexts.{HasNoLineFeed};
ghost use Rattle.large_text.specs.Measured.{TalliesPlain};
ghost use Rattle.large_text.specs.PlainStreamed.{CanTakePlain, EndsLine, HasTakenPlain, TakesPlain};
ghost use Rattle.large_text.specs.Tallied.{IsBegun, keeps_rows, keeps_text};

use crate::fault::LargeFault;
use crate::measure::take_tokens;
use crate::reader::MarkReader;
use crate::tally::Tally;
use std::alloc::Global;
use task_program::AllocFault;
use task_program::fault::ReadKind;
use task_program::name_key::NameKey;

/// Takes the bytes of a text piece by piece, however it is cut, and measures what it says. Besides the
/// names and what the nesting takes, only the last line is kept, as far as it has come.
#[derive(Drop)]
pub struct PlainMeter {
    reader: MarkReader,
    meter: Tally,
    /// What came behind the last LF.
    tail: Vec<u8>,
    /// How many lines came before it.
    lines: u64,
    /// The first fault of the text, once it is known.
    fault: Option<LargeFault>,
}

impl PlainMeter {
    /// The meter of a text of which nothing has come, whose names are hashed under this key.
    pub(crate) fn new(alloc: Global, key: NameKey, meter: Tally) -> PlainMeter
        requires { IsBegun meter }
        ensures taken { HasTakenPlain [] result }
        ensures meter { result.meter ≡ meter }
    {
        PlainMeter {
            reader: MarkReader::new(alloc, key),
            meter,
            tail: Vec::new(alloc),
            lines: 0,
            fault: None,
        }
    }

    /// Takes the next bytes of the text, at most `LARGEST_PIECE`. After an `Err` the meter can take no
    /// more.
    pub(crate) fn take(&mut self, bytes: &[u8]) -> Result<(), AllocFault>
        requires room { CanTakePlain bytes.now self.old }
        requires piece { length bytes.now ≤ LARGEST_PIECE }
        ensures takes { OnOk result (TakesPlain bytes.now self.old self.new) }
        ensures rows { keeps_rows self.new.meter ≡ keeps_rows self.old.meter }
        ensures text { keeps_text self.new.meter ≡ keeps_text self.old.meter }
    {
        if self.fault.is_some() {
            return Ok(());
        }
        let end = whole_lines(bytes);
        if end == 0 {
            return self.keep(bytes);
        }
        let (lines, tail) = bytes.split_at(end);
        self.take_lines(lines)?;
        self.keep(tail)
    }

    // Keeps bytes of a line that may go on.
    fn keep(&mut self, bytes: &[u8]) -> Result<(), AllocFault>
        requires { HasNoLineFeed bytes.now }
        ensures takes { OnOk result (TakesPlain bytes.now self.old self.new) }
        ensures rows { self.new.meter ≡ self.old.meter }
    {
        self.tail.extend_from_slice(bytes)
    }

    // Takes the tokens of these lines, the first of which goes on from the tail.
    fn take_lines(&mut self, lines: &[u8]) -> Result<(), AllocFault>
        requires taken { CanTakePlain lines.now self.old }
        requires piece { length lines.now ≤ LARGEST_PIECE }
        requires no_fault { self.old.fault ≡ None }
        requires ends { EndsLine lines.now }
        ensures takes { OnOk result (TakesPlain lines.now self.old self.new) }
        ensures rows { keeps_rows self.new.meter ≡ keeps_rows self.old.meter }
        ensures text { keeps_text self.new.meter ≡ keeps_text self.old.meter }
    {
        self.tail.extend_from_slice(lines)?;
        let taken = take_tokens(
            &mut self.reader,
            &mut self.meter,
            self.tail.as_slice(),
            self.lines,
        );
        self.tail.clear();
        match taken {
            Ok(line) => {
                self.lines = line - 1;
                Ok(())
            }
            Err(fault) => {
                if fault.kind == ReadKind::OutOfMemory {
                    return Err(AllocFault);
                }
                self.fault = Some(fault);
                Ok(())
            }
        }
    }

    /// What is kept of the marks so far.
    pub(crate) fn into_tally(self) -> Tally
        ensures { result ≡ self.meter }
    {
        let PlainMeter { meter, .. } = self;
        meter
    }

    // The tally of the whole text.
    pub(crate) fn whole(mut self) -> Result<Tally, LargeFault>
        requires { CanTakePlain [] self }
        ensures measured { IfOk result (λ tally. (text : List ℕ) → HasTakenPlain text self
            → TalliesPlain (tokens_of text) tally) }
        ensures rows { IfOk result (λ tally. keeps_rows tally ≡ keeps_rows self.meter) }
        ensures text { IfOk result (λ tally. keeps_text tally ≡ keeps_text self.meter) }
        ensures refused { IfErr result (λ fault. fault.kind ≢ OutOfMemory
            → (text : List ℕ) → HasTakenPlain text self
            → IsLargeFirstFault (tokens_of text) (line_at_end 1 text) fault) }
        ensures memory { IfErr result (λ fault. fault.kind ≡ OutOfMemory → fault.line ≡ 0) }
    {
        self.end()?;
        let PlainMeter { meter, .. } = self;
        Ok(meter)
    }

    // What `finish` does before it hands on the meter.
    fn end(&mut self) -> Result<(), LargeFault>
        requires { CanTakePlain [] self.old }
        ensures measured { OnOk result ((text : List ℕ) → HasTakenPlain text self.old
            → TalliesPlain (tokens_of text) self.new.meter) }
        ensures rows { keeps_rows self.new.meter ≡ keeps_rows self.old.meter }
        ensures text { keeps_text self.new.meter ≡ keeps_text self.old.meter }
        ensures refused { IfErr result (λ fault. fault.kind ≢ OutOfMemory
            → (text : List ℕ) → HasTakenPlain text self.old
            → IsLargeFirstFault (tokens_of text) (line_at_end 1 text) fault) }
        ensures memory { IfErr result (λ fault. fault.kind ≡ OutOfMemory → fault.line ≡ 0) }
    {
        if let Some(fault) = self.fault {
            return Err(fault);
        }
        let line = take_tokens(
            &mut self.reader,
            &mut self.meter,
            self.tail.as_slice(),
            self.lines,
        )?;
        self.reader.finish(line)
    }
}

// How many bytes the whole lines have with which these bytes begin.
pub(crate) fn whole_lines(bytes: &[u8]) -> usize
    ensures within { result ≤ length bytes.now }
    ensures ends { 0 < result → EndsLine (take result bytes.now) }
    ensures last { HasNoLineFeed (drop result bytes.now) }
{
    let mut end = bytes.len();
    'back: while end > 0 && bytes[end - 1] != b'\n' {
        end -= 1;
    }
    end
}
