//! Work and span of a text that comes in pieces, in either version.
ghost use Rattle.std.specs.Prelude.{◌≡◌, ◌≢◌, ◌≤◌, ◌<◌, ◌-◌, [], List, ℕ, IfOk, IfErr, IsTrue, OnOk};
ghost use Rattle.std.specs.Prelude.{length, Err, OnErr, is_ok, false};
ghost use Rattle.std.specs.Option.{IfSome, is_some};
ghost use Rattle.program_text.specs.declared.fault.ReadKind.TheVariants.{OutOfMemory};
ghost use Rattle.program_text.specs.declared.limits.TheConstants.{MOST_TEXT_BYTES};
ghost use Rattle.large_text.specs.declared.limits.TheConstants.{LARGEST_PIECE};
ghost use Rattle.large_text.specs.LargeTexts.{IsLargeFault};
ghost use Rattle.large_text.specs.Measured.{FitsTable, IsCanonicalOf, IsTableOfText, MeasuresText, TalliesText};
ghost use Rattle.large_text.specs.PlainStreamed.{HasTakenPlain};
ghost use Rattle.large_text.specs.Streamed.{CanTakeBytes, HasTaken, IsNeverTwo, KeepsRows, KeepsText, TakesBytes};
ghost use Rattle.large_text.specs.Streamed.{IsSpent, KeepsBytes};
ghost use Rattle.large_text.specs.Tallied.{IsBegun, keeps_rows, keeps_text};
ghost use Rattle.large_text.specs.declared.stream.Stage.TheVariants.{Kept};

use crate::fault::LargeFault;
use crate::large_texts::{is_large_two, tally_two};
use crate::plain_stream::PlainMeter;
use crate::tally::Tally;
use crate::version_known::is_never_two;
use online_span::Meter;
use std::alloc::Global;
use std::mem::replace;
use task_program::AllocFault;
use task_program::fault::ReadKind;
use task_program::limits::MOST_TEXT_BYTES;
use task_program::name_key::NameKey;
use task_segments::table::LargeTable;

/// What is known of the version of a text.
#[derive(Clone, Copy, Debug, PartialEq, Eq)]
enum Stage {
    /// It may be of either: all that has come is kept.
    Kept,
    /// It is not of version 2.
    Plain,
    /// It is of version 2, and too long.
    TooLong,
    /// Memory ran out.
    Spent,
}

/// Takes the bytes of a text piece by piece, however it is cut, and measures what it says. A text of
/// version 2 is kept whole. Of any other the first lines are, until the version is known, and then
/// only the last line, as far as it has come, besides the names and what the nesting takes.
#[derive(Drop)]
pub struct TextMeter {
    alloc: Global,
    key: NameKey,
    stage: Stage,
    /// All that has come, while it is kept.
    head: Vec<u8>,
    plain: PlainMeter,
}

impl TextMeter {
    /// The meter of a text of which nothing has come. Its names are hashed under this key: who knows
    /// it can make up a text that takes time quadratic in its names.
    pub fn new(alloc: Global, key: NameKey) -> TextMeter
        ensures { HasTaken [] result }
    {
        TextMeter::of_tally(alloc, key, Tally::new(alloc))
    }

    /// The same, where the rows of its table are kept.
    pub fn with_rows(alloc: Global, key: NameKey) -> Result<TextMeter, AllocFault>
        ensures taken { IfOk result (λ made. HasTaken [] made) }
        ensures rows { IfOk result KeepsRows }
    {
        Ok(TextMeter::of_tally(alloc, key, Tally::with_rows(alloc)?))
    }

    /// The same, where its canonical text is kept.
    pub fn with_text(alloc: Global, key: NameKey) -> Result<TextMeter, AllocFault>
        ensures taken { IfOk result (λ made. HasTaken [] made) }
        ensures text { IfOk result KeepsText }
    {
        Ok(TextMeter::of_tally(alloc, key, Tally::with_text(alloc)?))
    }

    /// The same, where both are kept.
    pub fn with_rows_and_text(alloc: Global, key: NameKey) -> Result<TextMeter, AllocFault>
        ensures taken { IfOk result (λ made. HasTaken [] made) }
        ensures rows { IfOk result KeepsRows }
        ensures text { IfOk result KeepsText }
    {
        Ok(TextMeter::of_tally(alloc, key, Tally::with_rows_and_text(alloc)?))
    }

    fn of_tally(alloc: Global, key: NameKey, tally: Tally) -> TextMeter
        requires { IsBegun tally }
        ensures taken { HasTaken [] result }
        ensures tally { result.plain.meter ≡ tally }
    {
        TextMeter {
            alloc,
            key,
            stage: Stage::Kept,
            head: Vec::new(alloc),
            plain: PlainMeter::new(alloc, key, tally),
        }
    }

    /// Takes the next bytes of the text, at most `LARGEST_PIECE`. After an `Err` the meter is spent: it
    /// answers every later call with out of memory.
    pub fn take(&mut self, bytes: &[u8]) -> Result<(), AllocFault>
        requires room { CanTakeBytes bytes.now self.old }
        requires piece { length bytes.now ≤ LARGEST_PIECE }
        ensures takes { OnOk result (TakesBytes bytes.now self.old self.new) }
        ensures refused { OnErr result (IsSpent self.new) }
        ensures kept { OnErr result (KeepsBytes self.old self.new) }
        ensures spent { IsSpent self.old → is_ok result ≡ false }
        ensures rows { KeepsRows self.old → KeepsRows self.new }
        ensures text { KeepsText self.old → KeepsText self.new }
    {
        match self.take_next(bytes) {
            Ok(()) => Ok(()),
            Err(fault) => {
                self.stage = Stage::Spent;
                Err(fault)
            }
        }
    }

    // What `take` does while there is memory.
    fn take_next(&mut self, bytes: &[u8]) -> Result<(), AllocFault>
        requires room { CanTakeBytes bytes.now self.old }
        requires piece { length bytes.now ≤ LARGEST_PIECE }
        ensures takes { OnOk result (TakesBytes bytes.now self.old self.new) }
        ensures spent { IsSpent self.old → is_ok result ≡ false }
        ensures rows { KeepsRows self.old → KeepsRows self.new }
        ensures text { KeepsText self.old → KeepsText self.new }
    {
        match self.stage {
            Stage::Kept => self.take_first(bytes),
            Stage::Plain => self.plain.take(bytes),
            Stage::TooLong => Ok(()),
            Stage::Spent => Err(AllocFault),
        }
    }

    // The bytes are kept, as long as they are few.
    fn take_first(&mut self, bytes: &[u8]) -> Result<(), AllocFault>
        requires room { CanTakeBytes bytes.now self.old }
        requires piece { length bytes.now ≤ LARGEST_PIECE }
        requires kept { self.old.stage ≡ Kept }
        ensures takes { OnOk result (TakesBytes bytes.now self.old self.new) }
        ensures rows { KeepsRows self.old → KeepsRows self.new }
        ensures text { KeepsText self.old → KeepsText self.new }
    {
        let room = MOST_TEXT_BYTES - self.head.len();
        if bytes.len() <= room {
            return self.keep(bytes);
        }
        let (first, rest) = bytes.split_at(room);
        self.head.extend_from_slice(first)?;
        self.leave_head(rest)
    }

    // These are kept behind those before them, unless the version is known and is not 2. It is looked
    // for where the bytes have one binary digit more: so all looks take no longer than two of them.
    fn keep(&mut self, bytes: &[u8]) -> Result<(), AllocFault>
        requires room { CanTakeBytes bytes.now self.old }
        requires few { length bytes.now ≤ MOST_TEXT_BYTES - length self.old.head.items }
        requires kept { self.old.stage ≡ Kept }
        ensures takes { OnOk result (TakesBytes bytes.now self.old self.new) }
        ensures rows { KeepsRows self.old → KeepsRows self.new }
        ensures text { KeepsText self.old → KeepsText self.new }
    {
        let before = self.head.len();
        self.head.extend_from_slice(bytes)?;
        let looks = self.head.len().leading_zeros() < before.leading_zeros();
        if looks && is_never_two(self.head.as_slice()) {
            return self.hand_on();
        }
        Ok(())
    }

    // No text that begins with the bytes that are kept is of version 2.
    fn hand_on(&mut self) -> Result<(), AllocFault>
        requires room { CanTakeBytes [] self.old }
        requires kept { self.old.stage ≡ Kept }
        requires never_two { IsNeverTwo self.old.head.items }
        ensures takes { OnOk result (TakesBytes [] self.old self.new) }
        ensures rows { KeepsRows self.old → KeepsRows self.new }
        ensures text { KeepsText self.old → KeepsText self.new }
    {
        let head = replace(&mut self.head, Vec::new(self.alloc));
        self.stage = Stage::Plain;
        self.plain.take(head.as_slice())
    }

    // As many bytes are kept as a text of version 2 may have, and these come behind them.
    fn leave_head(&mut self, rest: &[u8]) -> Result<(), AllocFault>
        requires room { CanTakeBytes rest.now self.old }
        requires piece { length rest.now ≤ LARGEST_PIECE }
        requires kept { self.old.stage ≡ Kept }
        requires full { length self.old.head.items ≡ MOST_TEXT_BYTES }
        requires more { 0 < length rest.now }
        ensures takes { OnOk result (TakesBytes rest.now self.old self.new) }
        ensures rows { KeepsRows self.old → KeepsRows self.new }
        ensures text { KeepsText self.old → KeepsText self.new }
    {
        let head = replace(&mut self.head, Vec::new(self.alloc));
        if is_large_two(head.as_slice()) {
            self.stage = Stage::TooLong;
            return Ok(());
        }
        self.stage = Stage::Plain;
        self.plain.take(head.as_slice())?;
        self.plain.take(rest)
    }

    /// The text ends here. The meter has taken all of its marks; or the fault is its first, or out of
    /// memory, on line 0.
    pub fn finish(self) -> Result<Meter, LargeFault>
        requires { CanTakeBytes [] self }
        ensures measured { IfOk result (λ meter. (text : List ℕ) → HasTaken text self
            → MeasuresText text meter) }
        ensures refused { IfErr result (λ fault. fault.kind ≢ OutOfMemory
            → (text : List ℕ) → HasTaken text self → IsLargeFault text fault) }
        ensures memory { IfErr result (λ fault. fault.kind ≡ OutOfMemory → fault.line ≡ 0) }
        ensures spent { IsSpent self → result ≡ Err (record { kind = OutOfMemory; line = 0 }) }
    {
        Ok(self.whole()?.into_meter())
    }

    /// The same, with the table of the text, where its rows were kept and its numbers fit a table.
    pub fn finish_table(self) -> Result<Option<LargeTable>, LargeFault>
        requires { CanTakeBytes [] self }
        ensures table { IfOk result (λ table. (text : List ℕ) → HasTaken text self
            → IfSome table (IsTableOfText text)) }
        ensures some { IfOk result (λ table. KeepsRows self → (text : List ℕ)
            → HasTaken text self → FitsTable text → IsTrue (is_some table)) }
        ensures refused { IfErr result (λ fault. fault.kind ≢ OutOfMemory
            → (text : List ℕ) → HasTaken text self → IsLargeFault text fault) }
        ensures memory { IfErr result (λ fault. fault.kind ≡ OutOfMemory → fault.line ≡ 0) }
        ensures spent { IsSpent self → result ≡ Err (record { kind = OutOfMemory; line = 0 }) }
    {
        Ok(self.whole()?.into_table())
    }

    /// The same, with the canonical text, where it was kept, and the table as of `finish_table`.
    pub fn finish_text(self) -> Result<(Option<Vec<u8>>, Option<LargeTable>), LargeFault>
        requires { CanTakeBytes [] self }
        ensures text { IfOk result (λ found. (text : List ℕ) → HasTaken text self
            → IfSome found.0 (λ written. IsCanonicalOf text written.items)) }
        ensures some_text { IfOk result (λ found. KeepsText self → IsTrue (is_some found.0)) }
        ensures table { IfOk result (λ found. (text : List ℕ) → HasTaken text self
            → IfSome found.1 (IsTableOfText text)) }
        ensures some_table { IfOk result (λ found. KeepsRows self → (text : List ℕ)
            → HasTaken text self → FitsTable text → IsTrue (is_some found.1)) }
        ensures refused { IfErr result (λ fault. fault.kind ≢ OutOfMemory
            → (text : List ℕ) → HasTaken text self → IsLargeFault text fault) }
        ensures memory { IfErr result (λ fault. fault.kind ≡ OutOfMemory → fault.line ≡ 0) }
        ensures spent { IsSpent self → result ≡ Err (record { kind = OutOfMemory; line = 0 }) }
    {
        Ok(self.whole()?.into_text())
    }

    // The tally of the whole text.
    fn whole(self) -> Result<Tally, LargeFault>
        requires { CanTakeBytes [] self }
        ensures measured { IfOk result (λ tally. (text : List ℕ) → HasTaken text self
            → TalliesText text tally) }
        ensures rows { IfOk result (λ tally. keeps_rows tally ≡ keeps_rows self.plain.meter) }
        ensures text { IfOk result (λ tally. keeps_text tally ≡ keeps_text self.plain.meter) }
        ensures refused { IfErr result (λ fault. fault.kind ≢ OutOfMemory
            → (text : List ℕ) → HasTaken text self → IsLargeFault text fault) }
        ensures memory { IfErr result (λ fault. fault.kind ≡ OutOfMemory → fault.line ≡ 0) }
        ensures spent { IsSpent self → result ≡ Err (record { kind = OutOfMemory; line = 0 }) }
    {
        let TextMeter {
            alloc,
            key,
            stage,
            head,
            plain,
        } = self;
        match stage {
            Stage::Kept => tally_kept(alloc, key, head.as_slice(), plain),
            Stage::Plain => plain.whole(),
            Stage::TooLong => Err(LargeFault {
                kind: ReadKind::TooLong,
                line: 1,
            }),
            Stage::Spent => Err(LargeFault {
                kind: ReadKind::OutOfMemory,
                line: 0,
            }),
        }
    }
}

// The tally of a text that was kept whole.
fn tally_kept(
    alloc: Global,
    key: NameKey,
    text: &[u8],
    mut plain: PlainMeter,
) -> Result<Tally, LargeFault>
    requires few { length text.now ≤ MOST_TEXT_BYTES }
    requires taken { HasTakenPlain [] plain }
    requires begun { IsBegun plain.meter }
    ensures measured { IfOk result (TalliesText text.now) }
    ensures rows { IfOk result (λ tally. keeps_rows tally ≡ keeps_rows plain.meter) }
    ensures text { IfOk result (λ tally. keeps_text tally ≡ keeps_text plain.meter) }
    ensures refused { IfErr result (λ fault. fault.kind ≢ OutOfMemory → IsLargeFault text.now fault) }
    ensures memory { IfErr result (λ fault. fault.kind ≡ OutOfMemory → fault.line ≡ 0) }
{
    if is_large_two(text) {
        return tally_two(alloc, key, text, plain.into_tally());
    }
    plain.take(text)?;
    plain.whole()
}
