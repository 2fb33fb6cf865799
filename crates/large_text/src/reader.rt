//! Reading a text of version 1 token by token, without keeping its statements.
ghost use Rattle.std.specs.Prelude.{ℕ, ◌≡◌, ◌≢◌, ◌+◌, ◌<◌, ◌≤◌, ◌^◌, [], ◌∷◌, ◌++◌, List, IfOk, IfErr};
ghost use Rattle.std.specs.Prelude.{OnOk, true, length, nat_lt, ◌||◌};
ghost use Rattle.program_text.specs.declared.fault.ReadKind.TheVariants.{OutOfMemory};
ghost use Rattle.program_text.specs.Answers.{Gives};
ghost use Rattle.program_text.specs.Limits.{work_of};
ghost use Rattle.program_text.specs.Marks.{Mark};
ghost use Rattle.program_text.specs.Tokens as tokens;
ghost use Rattle.program_text.specs.Tokens.{texts};
ghost use Rattle.program_text.specs.Words.{is_number, is_word, value_of, type_of};
ghost use Rattle.program_text.specs.declared.limits.TheConstants.{LARGEST_COST, MOST_WORK};
ghost use Rattle.large_text.specs.declared.limits.TheConstants.{MOST_LARGE_ITEMS};
ghost use Rattle.large_text.specs.declared.limits.TheConstants.{MOST_TASK_ITEMS};
ghost use Rattle.task_program.specs.Faults.{after_at, after_statement, after_clause, end_at, at};
ghost use Rattle.task_program.specs.Faults.{line_of_block, start};
ghost use Rattle.task_program.specs.TokenCounts.{is_value_too_large, is_work_past};
ghost use Rattle.task_program.specs.TreeSoFar.{without_innermost};
ghost use Rattle.large_text.specs.LargeFaults.{large_limit_by, is_inside_at, items_coming};
ghost use Rattle.large_text.specs.LargeReading.{state_of, marks_after, large_step, with_task};
ghost use Rattle.large_text.specs.LargeReading.{IsLargeWithin, IsReadSoFar, CanGoOn, CountsOn, HasValue};
ghost use Rattle.large_text.specs.LargeReading.{block_seen, token_on};
ghost use Rattle.large_text.specs.LargeReading.{GoesTo, HasNoItems};
ghost use Rattle.large_text.specs.LargeTrees.{HasLargeProgram, IsLargeRightWhole, IsLargeFirstFault};
ghost use Rattle.large_text.specs.LargeTrees.{plain_program};

use crate::fault::LargeFault;
use crate::forms::form_fault;
use crate::limits::{MOST_LARGE_ITEMS, MOST_LARGE_NESTING, MOST_TASK_ITEMS};
use crate::marks::TextMark;
use crate::place_tests::{grammar_fault, is_inside, items_coming};
use crate::words::{is_sign, is_task, is_work};
use program_text::scanner::Token;
use program_text::words::{text_of, value_within};
use std::alloc::Global;
use std::mem::replace;
use task_program::fault::ReadKind;
use task_program::limits::{LARGEST_COST, MOST_WORK};
use task_program::name_key::NameKey;
use task_program::names::Names;
use task_program::place::Place;
use task_program::statement::{DependKind, Item, Items};

/// An open block, by the line of its `{`.
#[derive(Clone, Copy, Debug)]
pub(crate) enum OpenBlock {
    OpenTask(u64),
    OpenGroup(u64),
}

/// Takes the tokens of a text one by one, and hands on its marks. What it keeps are the names, the
/// open blocks, and the clauses of the task that is being read.
#[derive(Drop)]
pub struct MarkReader {
    alloc: Global,
    place: Place,
    /// How many bytes the tokens have.
    bytes: u64,
    names: Names,
    /// How many depend items all tasks have.
    all_items: u32,
    has_if: bool,
    undeferred: bool,
    items: Items,
    /// The innermost last.
    blocks: Vec<OpenBlock>,
    work: u64,
}

impl MarkReader {
    /// The reader where a text begins, whose names are hashed under this key.
    pub fn new(alloc: Global, key: NameKey) -> MarkReader
        ensures read { IsReadSoFar [] [] result }
        ensures items { HasNoItems result }
    {
        MarkReader::fresh(alloc, key)
    }

    // What `new` makes. It stands apart for the prover's sake: the proof of `new` cites its clauses.
    fn fresh(alloc: Global, key: NameKey) -> MarkReader
        ensures state { state_of result [] ≡ start }
        ensures work { result.work ≡ 0 }
        ensures all_items { result.all_items ≡ 0 }
    {
        MarkReader {
            alloc,
            place: Place::Header,
            bytes: 0,
            names: Names::new(alloc, key),
            all_items: 0,
            has_if: false,
            undeferred: false,
            items: Items::new(alloc),
            blocks: Vec::new(alloc),
            work: 0,
        }
    }

    /// Takes the next token, which begins on this line of the text, whatever its own line says. It
    /// hands on the mark that is whole with it, if one is. The fault is the first of every text that
    /// begins so, or out of memory, on line 0; no more tokens can be taken after it.
    pub fn take(&mut self, token: Token<'_>, line: u64) -> Result<Option<TextMark>, LargeFault>
        requires { CanGoOn self.old }
        ensures reads { IfOk result (λ mark. (before : List tokens.Token) (marks : List Mark)
            → IsReadSoFar before marks self.old
            → IsReadSoFar (before ++ token_on token.entry line ∷ []) (marks_after marks mark)
            self.new) }
        ensures goes { IfOk result (GoesTo self.old self.new (token_on token.entry line)) }
        ensures refused { IfErr result (λ fault. fault.kind ≢ OutOfMemory
            → (before later : List tokens.Token) (marks : List Mark) (end_line : ℕ)
            → IsReadSoFar before marks self.old
            → IsLargeFirstFault (before ++ token_on token.entry line ∷ later) end_line fault) }
        ensures memory { IfErr result (λ fault. fault.kind ≡ OutOfMemory → fault.line ≡ 0) }
    {
        self.take_any(token, line)
    }

    /// Where the reading stands: which token may come next.
    pub(crate) fn place(&self) -> Place
        ensures { result ≡ self.now.place }
    {
        self.place
    }

    /// The text ends here, on this line: it is whole, or the fault is its first.
    pub fn finish(&self, line: u64) -> Result<(), LargeFault>
        ensures whole { OnOk result ((before : List tokens.Token) (marks : List Mark)
            → IsReadSoFar before marks self.now
            → HasLargeProgram (texts before) (plain_program self.now.names marks)
            × IsLargeRightWhole before) }
        ensures early { IfErr result (λ fault. (before : List tokens.Token) (marks : List Mark)
            → IsReadSoFar before marks self.now → IsLargeFirstFault before line fault) }
    {
        match self.end_fault(line) {
            Some(fault) => Err(fault),
            None => Ok(()),
        }
    }

    // What `take` does, said of the one token. It stands apart for the prover's sake: the proof of
    // `take` cites its clauses.
    fn take_any(&mut self, token: Token<'_>, line: u64) -> Result<Option<TextMark>, LargeFault>
        requires { IsLargeWithin self.old }
        ensures step { (marks : List Mark)
            → Gives (λ mark. state_of self.new (marks_after marks mark)) result
            (large_step self.old.work self.old.all_items (state_of self.old marks)
            (token_on token.entry line)) }
        ensures work { IfOk result (λ mark. self.new.work
            ≡ self.old.work + work_of (marks_after [] mark)) }
        ensures all_items { OnOk result (self.new.all_items
            ≡ self.old.all_items + items_coming self.old.place) }
    {
        if let Some(kind) = form_fault(self.bytes, token) {
            return Err(LargeFault { kind, line });
        }
        if let Some(kind) = grammar_fault(self.place, self.has_if, self.blocks.len(), token) {
            return Err(LargeFault { kind, line });
        }
        if let Some(kind) = self.limit_fault(token) {
            return Err(LargeFault { kind, line });
        }
        self.bytes += token.text.len() as u64;
        self.all_items += items_coming(self.place);
        self.take_right(token, line)
    }

    fn limit_fault(&self, token: Token<'_>) -> Option<ReadKind>
        requires { IsLargeWithin self.now }
        ensures { result ≡ large_limit_by (is_inside_at self.now.place) self.now.work
            (self.now.all_items + items_coming self.now.place) (length self.now.items + items_coming self.now.place) (length self.now.blocks.items)
            token.entry.text.now }
    {
        let inside = is_inside(self.place);
        if is_value_too_large(inside, token) {
            Some(ReadKind::BadNumber)
        } else if is_sign(token, b'{') && self.blocks.len() >= MOST_LARGE_NESTING {
            Some(ReadKind::TooDeep)
        } else if self.is_item_too_many() {
            Some(ReadKind::TooManyItems)
        } else if is_work_past(inside, self.work, token) {
            Some(ReadKind::WorkTooLarge)
        } else {
            None
        }
    }

    // The item that comes, if one does, is too many for its task or for all.
    fn is_item_too_many(&self) -> bool
        requires { IsLargeWithin self.now }
        ensures { result ≡ nat_lt MOST_LARGE_ITEMS (self.now.all_items + items_coming self.now.place)
            || nat_lt MOST_TASK_ITEMS (length self.now.items + items_coming self.now.place) }
    {
        let coming = items_coming(self.place);
        u64::from(self.all_items) + u64::from(coming) > u64::from(MOST_LARGE_ITEMS)
            || self.items.len() + coming as usize > MOST_TASK_ITEMS
    }

    // The token is one of the grammar, and passes no limit.
    fn take_right(&mut self, token: Token<'_>, line: u64) -> Result<Option<TextMark>, LargeFault>
        requires names { length self.old.names + 1 < 2 ^ 32 }
        requires value { HasValue self.old token.text.now }
        ensures step { (marks : List Mark)
            → Gives (λ mark. state_of self.new (marks_after marks mark)) result
            (Ok (after_at self.old.place (state_of self.old marks) token.entry.text.now line)) }
        ensures counts { IfOk result (λ mark. CountsOn self.old self.new mark) }
    {
        match self.place {
            Place::Header => Ok(self.go_to(Place::Version)),
            Place::Version => Ok(self.go_to(Place::Statement)),
            Place::Statement => Ok(self.statement(token)),
            Place::WorkNumber => Ok(self.work_number(token)),
            Place::GroupBrace => self.group_brace(token, line),
            Place::Clause => self.clause(token, line),
            Place::IfOpens => Ok(self.go_to(Place::IfNumber)),
            Place::IfNumber => Ok(self.if_number(token)),
            Place::IfCloses => Ok(self.go_to(Place::Clause)),
            Place::DependOpens => Ok(self.go_to(Place::DependType)),
            Place::DependType => Ok(self.go_to(Place::DependColon(type_of(token)))),
            Place::DependColon(kind) => Ok(self.go_to(Place::DependName(kind))),
            Place::DependName(kind) => self.depend_name(kind, token),
            Place::DependMore(kind) => Ok(self.depend_more(kind, token)),
        }
    }

    fn go_to(&mut self, place: Place) -> Option<TextMark>
        ensures none { result ≡ None }
        ensures there { self.new ≡ record self.old { place = place } }
    {
        self.place = place;
        None
    }

    fn statement(&mut self, token: Token<'_>) -> Option<TextMark>
        ensures state { (marks : List Mark) → state_of self.new (marks_after marks result)
            ≡ after_statement (state_of self.old marks) token.entry.text.now }
        ensures counts { CountsOn self.old self.new result }
    {
        if is_work(token) {
            self.go_to(Place::WorkNumber)
        } else if is_task(token) {
            self.go_to(Place::Clause)
        } else if token.is(b"taskwait") {
            self.place = Place::Statement;
            Some(TextMark::Wait)
        } else if token.is(b"taskgroup") {
            self.go_to(Place::GroupBrace)
        } else {
            self.close()
        }
    }

    // The innermost block ends.
    fn close(&mut self) -> Option<TextMark>
        ensures state { (marks : List Mark) → state_of self.new (marks_after marks result)
            ≡ at (record (state_of self.old marks)
            { tree = without_innermost (state_of self.old marks).tree }) Place.Statement }
        ensures counts { CountsOn self.old self.new result }
    {
        self.place = Place::Statement;
        match self.blocks.pop() {
            Some(OpenBlock::OpenTask(_)) => Some(TextMark::TaskEnds),
            Some(OpenBlock::OpenGroup(_)) => Some(TextMark::GroupCloses),
            None => None,
        }
    }

    fn work_number(&mut self, token: Token<'_>) -> Option<TextMark>
        requires number { is_number token.text.now ≡ true }
        requires value { value_of token.text.now ≤ LARGEST_COST }
        requires work { self.old.work + value_of token.text.now ≤ MOST_WORK }
        ensures state { (marks : List Mark) → state_of self.new (marks_after marks result)
            ≡ after_at Place.WorkNumber (state_of self.old marks) token.entry.text.now
            token.entry.line }
        ensures counts { CountsOn self.old self.new result }
    {
        let cost = value_within(token.text, LARGEST_COST).unwrap();
        self.work += cost;
        self.place = Place::Statement;
        Some(TextMark::Work(cost))
    }

    fn group_brace(&mut self, token: Token<'_>, line: u64) -> Result<Option<TextMark>, LargeFault>
        ensures state { (marks : List Mark)
            → Gives (λ mark. state_of self.new (marks_after marks mark)) result
            (Ok (after_at Place.GroupBrace (state_of self.old marks) token.entry.text.now line)) }
        ensures counts { IfOk result (λ mark. CountsOn self.old self.new mark) }
    {
        self.blocks.push(OpenBlock::OpenGroup(line))?;
        self.place = Place::Statement;
        Ok(Some(TextMark::GroupOpens))
    }

    fn clause(&mut self, token: Token<'_>, line: u64) -> Result<Option<TextMark>, LargeFault>
        ensures state { (marks : List Mark)
            → Gives (λ mark. state_of self.new (marks_after marks mark)) result
            (Ok (after_clause (state_of self.old marks) token.entry.text.now line)) }
        ensures counts { IfOk result (λ mark. CountsOn self.old self.new mark) }
    {
        if is_sign(token, b'{') {
            self.open_task(line)
        } else if token.is(b"if") {
            Ok(self.go_to(Place::IfOpens))
        } else {
            Ok(self.go_to(Place::DependOpens))
        }
    }

    fn open_task(&mut self, line: u64) -> Result<Option<TextMark>, LargeFault>
        ensures state { (marks : List Mark)
            → Gives (λ mark. state_of self.new (marks_after marks mark)) result
            (Ok (with_task (state_of self.old marks) line)) }
        ensures counts { IfOk result (λ mark. CountsOn self.old self.new mark) }
    {
        self.blocks.push(OpenBlock::OpenTask(line))?;
        let undeferred = self.undeferred;
        let items = replace(&mut self.items, Items::new(self.alloc));
        self.has_if = false;
        self.undeferred = false;
        self.place = Place::Statement;
        Ok(Some(TextMark::TaskBegins { undeferred, items }))
    }

    fn if_number(&mut self, token: Token<'_>) -> Option<TextMark>
        requires number { is_number token.text.now ≡ true }
        ensures state { (marks : List Mark) → state_of self.new (marks_after marks result)
            ≡ after_at Place.IfNumber (state_of self.old marks) token.entry.text.now
            token.entry.line }
        ensures counts { CountsOn self.old self.new result }
    {
        self.has_if = true;
        self.undeferred = value_within(token.text, 0) == Some(0);
        self.go_to(Place::IfCloses)
    }

    fn depend_name(
        &mut self,
        kind: DependKind,
        token: Token<'_>,
    ) -> Result<Option<TextMark>, LargeFault>
        requires names { length self.old.names + 1 < 2 ^ 32 }
        requires word { is_word token.text.now ≡ true }
        ensures state { (marks : List Mark)
            → Gives (λ mark. state_of self.new (marks_after marks mark)) result
            (Ok (after_at (Place.DependName kind) (state_of self.old marks) token.entry.text.now
            token.entry.line)) }
        ensures counts { IfOk result (λ mark. CountsOn self.old self.new mark) }
    {
        let name = self.names.number_of(self.alloc, text_of(token.text))?;
        self.items.push(Item { kind, name })?;
        Ok(self.go_to(Place::DependMore(kind)))
    }

    fn depend_more(&mut self, kind: DependKind, token: Token<'_>) -> Option<TextMark>
        ensures state { (marks : List Mark) → state_of self.new (marks_after marks result)
            ≡ after_at (Place.DependMore kind) (state_of self.old marks) token.entry.text.now
            token.entry.line }
        ensures counts { CountsOn self.old self.new result }
    {
        if is_sign(token, b',') {
            self.go_to(Place::DependName(kind))
        } else {
            self.go_to(Place::Clause)
        }
    }

    // What is wrong where the text ends on this line.
    fn end_fault(&self, line: u64) -> Option<LargeFault>
        ensures { result ≡ end_at self.now.place (state_of self.now []).tree.blocks line }
    {
        match self.place {
            Place::Header | Place::Version => Some(LargeFault {
                kind: ReadKind::BadHeader,
                line,
            }),
            Place::Statement => Some(LargeFault {
                kind: ReadKind::Unclosed,
                line: line_of(*self.blocks.last()?),
            }),
            _ => Some(LargeFault {
                kind: ReadKind::BadWord,
                line,
            }),
        }
    }
}

fn line_of(block: OpenBlock) -> u64
    ensures { result ≡ line_of_block (block_seen block) }
{
    match block {
        OpenBlock::OpenTask(line) => line,
        OpenBlock::OpenGroup(line) => line,
    }
}

fn type_of(token: Token<'_>) -> DependKind
    ensures { result ≡ type_of token.entry.text.now }
{
    if token.is(b"in") {
        DependKind::DependIn
    } else if token.is(b"out") {
        DependKind::DependOut
    } else if token.is(b"inout") {
        DependKind::DependInOut
    } else {
        DependKind::DependInOutSet
    }
}

fn is_value_too_large(inside: bool, token: Token<'_>) -> bool
    ensures { result ≡ is_value_too_large inside token.entry.text.now }
{
    let most = if inside { 1 } else { LARGEST_COST };
    token.is_number() && value_within(token.text, most).is_none()
}

fn is_work_past(inside: bool, work: u64, token: Token<'_>) -> bool
    requires { work ≤ MOST_WORK }
    ensures { result ≡ is_work_past inside work token.entry.text.now }
{
    !inside && token.is_number() && value_within(token.text, MOST_WORK - work).is_none()
}
