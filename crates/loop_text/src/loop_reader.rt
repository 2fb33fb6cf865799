//! The first pass over a text of version 2, token by token.
ghost use Rattle.std.specs.Prelude.{◌≡◌, ◌<◌, ◌+◌, true, false, codes};
ghost use Rattle.std.specs.Prelude.{Some, None, Ok};
ghost use Rattle.program_text.specs.Answers.{Gives};
ghost use Rattle.program_text.specs.Words.{is_number};
ghost use Rattle.program_text.specs.ScannerSeen.{token_seen};
ghost use Rattle.loop_text.specs.FirstPass.{no_index, bound_of, zero_or_one_of};
ghost use Rattle.loop_text.specs.Parts.{step_of};

use crate::loop_forms::loop_form_fault;
use crate::loop_place::LoopPlace;
use crate::loops::{Index, LoopBody, LoopItem, LoopItems, LoopTask, Word};
use crate::open_loops::{LoopOpening, OpenLoops};
use program_text::AllocFault;
use program_text::fault::{ReadFault, ReadKind};
use program_text::limits::{LARGEST_BOUND, LARGEST_COST, LARGEST_STEP, MOST_NESTING};
use program_text::scanner::Token;
use program_text::statement::DependKind;
use program_text::words::{text_of, value_within};
use std::alloc::Global;
use std::mem;

/// The clauses so far of a task.
#[derive(Drop)]
pub struct LoopHead {
    has_if: bool,
    undeferred: bool,
    has_final: bool,
    is_final: bool,
    items: LoopItems,
}

/// The item that is being read.
#[derive(Drop)]
pub struct Pending {
    name: Word,
    line: u32,
    index: Index,
}

/// The loop that is being read, up to its `{`.
#[derive(Drop)]
pub struct Bounds {
    variable: Word,
    from: u32,
    to: u32,
}

/// What was read so far: the line of the word with which the statement begins, its parts, the open
/// blocks, the innermost last, and the statements of the innermost.
#[derive(Drop)]
pub(crate) struct LoopReader {
    alloc: Global,
    word_line: u32,
    head: LoopHead,
    pending: Pending,
    bounds: Bounds,
    tree: OpenLoops,
}

impl LoopHead {
    ghost use Rattle.loop_text.specs.Parts.{no_clauses};

    fn new(alloc: Global) -> LoopHead
        ensures { result ≡ no_clauses }
    {
        LoopHead {
            has_if: false,
            undeferred: false,
            has_final: false,
            is_final: false,
            items: LoopItems::new(alloc),
        }
    }
}

impl Pending {
    ghost use Rattle.loop_text.specs.FirstPass.{nothing_pending};

    fn new(alloc: Global) -> Pending
        ensures { result ≡ nothing_pending }
    {
        Pending {
            name: Word::empty(alloc),
            line: 0,
            index: no_index(),
        }
    }
}

impl Bounds {
    ghost use Rattle.loop_text.specs.FirstPass.{no_bounds};

    fn new(alloc: Global) -> Bounds
        ensures { result ≡ no_bounds }
    {
        Bounds {
            variable: Word::empty(alloc),
            from: 0,
            to: 0,
        }
    }
}

fn no_index() -> Index
    ensures { result ≡ no_index }
{
    Index {
        variable: None,
        is_minus: false,
        by: 0,
        line: 0,
    }
}

/// A number of a `for`.
fn bound(token: Token<'_>) -> Result<u32, ReadFault>
    ensures { Gives (λ value. value) result (bound_of (token_seen token.entry)) }
{
    if !token.is_number() {
        return Err(token.fault(ReadKind::BadWord));
    }
    match value_within(token.text, LARGEST_BOUND) {
        Some(value) => Ok(value as u32),
        None => Err(token.fault(ReadKind::BadNumber)),
    }
}

/// The number of an `if` or `final`.
fn zero_or_one(token: Token<'_>) -> Result<u64, ReadFault>
    ensures { Gives (λ value. value) result (zero_or_one_of (token_seen token.entry)) }
{
    if !token.is_number() {
        return Err(token.fault(ReadKind::BadWord));
    }
    match value_within(token.text, 1) {
        Some(value) => Ok(value),
        None => Err(token.fault(ReadKind::BadNumber)),
    }
}

/// The number of an index, or the least that is too large for one.
fn step_of(digits: &[u8]) -> u32
    requires { is_number digits.now ≡ true }
    ensures { result ≡ step_of digits.now }
{
    match value_within(digits, u64::from(LARGEST_STEP)) {
        Some(value) => value as u32,
        None => LARGEST_STEP,
    }
}

impl LoopReader {
    ghost use Rattle.program_text.specs.Words.{is_text};
    ghost use Rattle.loop_text.specs.FirstPass.{after_header, step};
    ghost use Rattle.loop_text.specs.FirstPass.{tree_or_fault, end_at, at, with_item, open_step};
    ghost use Rattle.loop_text.specs.LoopReaderSeen.{loop_state_of, StepsAt};
    ghost use Rattle.program_text.specs.ScannerSeen.{token_seen};

    /// A block begins.
    fn open(&mut self, token: Token<'_>, opening: LoopOpening) -> Result<(), ReadFault>
        ensures { Gives (λ _. loop_state_of self.new LoopPlace.Statement) result
            (open_step (loop_state_of self.old LoopPlace.Statement) opening
            (token_seen token.entry)) }
    {
        if self.tree.depth() >= MOST_NESTING {
            return Err(token.fault(ReadKind::TooDeep));
        }
        self.word_line = 0;
        self.tree.begin(self.alloc, opening)?;
        Ok(())
    }

    /// The item that is being read is a whole item, and what comes next is this.
    fn item_ends(
        &mut self,
        kind: DependKind,
        index: Option<Index>,
        next: LoopPlace,
    ) -> Result<LoopPlace, ReadFault>
        ensures { Gives (loop_state_of self.new) result (Ok (at
            (with_item (loop_state_of self.old next) kind index) next)) }
    {
        let pending = mem::replace(&mut self.pending, Pending::new(self.alloc));
        self.head.items.push(LoopItem {
            kind,
            name: pending.name,
            line: pending.line,
            index,
        })?;
        Ok(next)
    }

    fn statement(&mut self, token: Token<'_>) -> Result<LoopPlace, ReadFault>
        ensures { StepsAt LoopPlace.Statement token.entry self.old self.new result }
    {
        if token.is(b"work") {
            Ok(LoopPlace::WorkNumber)
        } else if token.is(b"task") {
            self.word_line = token.line;
            Ok(LoopPlace::Clause)
        } else if token.is(b"taskwait") {
            self.tree.add_wait(token.line)?;
            Ok(LoopPlace::Statement)
        } else if token.is(b"taskgroup") {
            self.word_line = token.line;
            Ok(LoopPlace::GroupBrace)
        } else if token.is(b"for") {
            self.word_line = token.line;
            Ok(LoopPlace::ForVariable)
        } else if token.is(b"}") {
            self.close(token)
        } else {
            Err(token.fault(ReadKind::BadWord))
        }
    }

    fn close(&mut self, token: Token<'_>) -> Result<LoopPlace, ReadFault>
        requires word { is_text token.text.now (codes "}") ≡ true }
        ensures { StepsAt LoopPlace.Statement token.entry self.old self.new result }
    {
        if self.tree.depth() == 0 {
            return Err(token.fault(ReadKind::Unopened));
        }
        self.tree.close()?;
        Ok(LoopPlace::Statement)
    }

    fn work_number(&mut self, token: Token<'_>) -> Result<LoopPlace, ReadFault>
        ensures { StepsAt LoopPlace.WorkNumber token.entry self.old self.new result }
    {
        if !token.is_number() {
            return Err(token.fault(ReadKind::BadWord));
        }
        let Some(cost) = value_within(token.text, LARGEST_COST) else {
            return Err(token.fault(ReadKind::BadNumber));
        };
        self.tree.add_work(cost, token.line)?;
        Ok(LoopPlace::Statement)
    }

    fn group_brace(&mut self, token: Token<'_>) -> Result<LoopPlace, ReadFault>
        ensures { StepsAt LoopPlace.GroupBrace token.entry self.old self.new result }
    {
        if !token.is(b"{") {
            return Err(token.fault(ReadKind::BadWord));
        }
        let line = self.word_line;
        self.open(
            token,
            LoopOpening::GroupOpening {
                line,
                brace_line: token.line,
            },
        )?;
        Ok(LoopPlace::Statement)
    }

    fn for_variable(&mut self, token: Token<'_>) -> Result<LoopPlace, ReadFault>
        ensures { StepsAt LoopPlace.ForVariable token.entry self.old self.new result }
    {
        if !token.is_word() || self.tree.variable(token).is_some() {
            return Err(token.fault(ReadKind::BadWord));
        }
        self.bounds.variable = Word::new(self.alloc, text_of(token.text))?;
        Ok(LoopPlace::ForFrom)
    }

    fn for_from(&mut self, token: Token<'_>) -> Result<LoopPlace, ReadFault>
        ensures { StepsAt LoopPlace.ForFrom token.entry self.old self.new result }
    {
        self.bounds.from = bound(token)?;
        Ok(LoopPlace::ForTo)
    }

    fn for_to(&mut self, token: Token<'_>) -> Result<LoopPlace, ReadFault>
        ensures { StepsAt LoopPlace.ForTo token.entry self.old self.new result }
    {
        self.bounds.to = bound(token)?;
        Ok(LoopPlace::ForBrace)
    }

    fn for_brace(&mut self, token: Token<'_>) -> Result<LoopPlace, ReadFault>
        ensures { StepsAt LoopPlace.ForBrace token.entry self.old self.new result }
    {
        if !token.is(b"{") {
            return Err(token.fault(ReadKind::BadWord));
        }
        let line = self.word_line;
        let Bounds { variable, from, to } = mem::replace(&mut self.bounds, Bounds::new(self.alloc));
        self.open(
            token,
            LoopOpening::ForOpening {
                variable,
                from,
                to,
                line,
                brace_line: token.line,
            },
        )?;
        Ok(LoopPlace::Statement)
    }

    fn clause(&mut self, token: Token<'_>) -> Result<LoopPlace, ReadFault>
        ensures { StepsAt LoopPlace.Clause token.entry self.old self.new result }
    {
        if token.is(b"{") {
            self.task_brace(token)
        } else if token.is(b"if") && !self.head.has_if {
            Ok(LoopPlace::IfOpens)
        } else if token.is(b"final") && !self.head.has_final {
            Ok(LoopPlace::FinalOpens)
        } else if token.is(b"depend") {
            Ok(LoopPlace::DependOpens)
        } else {
            Err(token.fault(ReadKind::BadWord))
        }
    }

    fn task_brace(&mut self, token: Token<'_>) -> Result<LoopPlace, ReadFault>
        requires word { is_text token.text.now (codes "{") ≡ true }
        ensures { StepsAt LoopPlace.Clause token.entry self.old self.new result }
    {
        let head = mem::replace(&mut self.head, LoopHead::new(self.alloc));
        let task = LoopTask {
            undeferred: head.undeferred,
            is_final: head.is_final,
            items: head.items,
            line: self.word_line,
            brace_line: token.line,
        };
        self.open(token, LoopOpening::TaskOpening { task })?;
        Ok(LoopPlace::Statement)
    }

    fn if_opens(&self, token: Token<'_>) -> Result<LoopPlace, ReadFault>
        ensures { StepsAt LoopPlace.IfOpens token.entry self.now self.now result }
    {
        if !token.is(b"(") {
            return Err(token.fault(ReadKind::BadWord));
        }
        Ok(LoopPlace::IfNumber)
    }

    fn if_number(&mut self, token: Token<'_>) -> Result<LoopPlace, ReadFault>
        ensures { StepsAt LoopPlace.IfNumber token.entry self.old self.new result }
    {
        let number = zero_or_one(token)?;
        self.head.has_if = true;
        self.head.undeferred = number == 0;
        Ok(LoopPlace::IfCloses)
    }

    fn if_closes(&self, token: Token<'_>) -> Result<LoopPlace, ReadFault>
        ensures { StepsAt LoopPlace.IfCloses token.entry self.now self.now result }
    {
        if !token.is(b")") {
            return Err(token.fault(ReadKind::BadWord));
        }
        Ok(LoopPlace::Clause)
    }

    fn final_opens(&self, token: Token<'_>) -> Result<LoopPlace, ReadFault>
        ensures { StepsAt LoopPlace.FinalOpens token.entry self.now self.now result }
    {
        if !token.is(b"(") {
            return Err(token.fault(ReadKind::BadWord));
        }
        Ok(LoopPlace::FinalNumber)
    }

    fn final_number(&mut self, token: Token<'_>) -> Result<LoopPlace, ReadFault>
        ensures { StepsAt LoopPlace.FinalNumber token.entry self.old self.new result }
    {
        let number = zero_or_one(token)?;
        self.head.has_final = true;
        self.head.is_final = number == 1;
        Ok(LoopPlace::FinalCloses)
    }

    fn final_closes(&self, token: Token<'_>) -> Result<LoopPlace, ReadFault>
        ensures { StepsAt LoopPlace.FinalCloses token.entry self.now self.now result }
    {
        if !token.is(b")") {
            return Err(token.fault(ReadKind::BadWord));
        }
        Ok(LoopPlace::Clause)
    }

    fn depend_opens(&self, token: Token<'_>) -> Result<LoopPlace, ReadFault>
        ensures { StepsAt LoopPlace.DependOpens token.entry self.now self.now result }
    {
        if !token.is(b"(") {
            return Err(token.fault(ReadKind::BadWord));
        }
        Ok(LoopPlace::DependType)
    }

    fn depend_type(&self, token: Token<'_>) -> Result<LoopPlace, ReadFault>
        ensures { StepsAt LoopPlace.DependType token.entry self.now self.now result }
    {
        let kind = if token.is(b"in") {
            DependKind::DependIn
        } else if token.is(b"out") {
            DependKind::DependOut
        } else if token.is(b"inout") {
            DependKind::DependInOut
        } else if token.is(b"inoutset") {
            DependKind::DependInOutSet
        } else {
            return Err(token.fault(ReadKind::BadWord));
        };
        Ok(LoopPlace::DependColon(kind))
    }

    fn depend_colon(&self, kind: DependKind, token: Token<'_>) -> Result<LoopPlace, ReadFault>
        ensures { StepsAt (LoopPlace.DependColon kind) token.entry self.now self.now result }
    {
        if !token.is(b":") {
            return Err(token.fault(ReadKind::BadWord));
        }
        Ok(LoopPlace::DependName(kind))
    }

    fn depend_name(&mut self, kind: DependKind, token: Token<'_>) -> Result<LoopPlace, ReadFault>
        ensures { StepsAt (LoopPlace.DependName kind) token.entry self.old self.new result }
    {
        if !token.is_word() {
            return Err(token.fault(ReadKind::BadWord));
        }
        self.pending = Pending {
            name: Word::new(self.alloc, text_of(token.text))?,
            line: token.line,
            index: no_index(),
        };
        Ok(LoopPlace::Subscript(kind))
    }

    fn subscript(&mut self, kind: DependKind, token: Token<'_>) -> Result<LoopPlace, ReadFault>
        ensures { StepsAt (LoopPlace.Subscript kind) token.entry self.old self.new result }
    {
        if token.is(b"[") {
            Ok(LoopPlace::IndexStart(kind))
        } else if token.is(b",") {
            self.item_ends(kind, None, LoopPlace::DependName(kind))
        } else if token.is(b")") {
            self.item_ends(kind, None, LoopPlace::Clause)
        } else {
            Err(token.fault(ReadKind::BadWord))
        }
    }

    fn index_start(&mut self, kind: DependKind, token: Token<'_>) -> Result<LoopPlace, ReadFault>
        ensures { StepsAt (LoopPlace.IndexStart kind) token.entry self.old self.new result }
    {
        if token.is_number() {
            self.pending.index = Index {
                by: step_of(token.text),
                line: token.line,
                ..no_index()
            };
            Ok(LoopPlace::IndexCloses(kind))
        } else if token.is(b"-") {
            self.pending.index = Index {
                is_minus: true,
                line: token.line,
                ..no_index()
            };
            Ok(LoopPlace::IndexNumber(kind))
        } else {
            self.index_variable(kind, token)
        }
    }

    fn index_variable(&mut self, kind: DependKind, token: Token<'_>) -> Result<LoopPlace, ReadFault>
        requires number { is_number token.text.now ≡ false }
        requires minus { is_text token.text.now (codes "-") ≡ false }
        ensures { StepsAt (LoopPlace.IndexStart kind) token.entry self.old self.new result }
    {
        let variable = self.tree.variable(token);
        if !token.is_word() || variable.is_none() {
            return Err(token.fault(ReadKind::BadWord));
        }
        self.pending.index = Index {
            variable,
            line: token.line,
            ..no_index()
        };
        Ok(LoopPlace::IndexSign(kind))
    }

    fn index_number(&mut self, kind: DependKind, token: Token<'_>) -> Result<LoopPlace, ReadFault>
        ensures { StepsAt (LoopPlace.IndexNumber kind) token.entry self.old self.new result }
    {
        if !token.is_number() {
            return Err(token.fault(ReadKind::BadWord));
        }
        self.pending.index.by = step_of(token.text);
        Ok(LoopPlace::IndexCloses(kind))
    }

    fn index_sign(&mut self, kind: DependKind, token: Token<'_>) -> Result<LoopPlace, ReadFault>
        ensures { StepsAt (LoopPlace.IndexSign kind) token.entry self.old self.new result }
    {
        if token.is(b"]") {
            let index = self.pending.index;
            return self.item_ends(kind, Some(index), LoopPlace::DependMore(kind));
        }
        if !token.is(b"+") && !token.is(b"-") {
            return Err(token.fault(ReadKind::BadWord));
        }
        self.pending.index.is_minus = token.is(b"-");
        Ok(LoopPlace::IndexNumber(kind))
    }

    fn index_closes(&mut self, kind: DependKind, token: Token<'_>) -> Result<LoopPlace, ReadFault>
        ensures { StepsAt (LoopPlace.IndexCloses kind) token.entry self.old self.new result }
    {
        if !token.is(b"]") {
            return Err(token.fault(ReadKind::BadWord));
        }
        let index = self.pending.index;
        self.item_ends(kind, Some(index), LoopPlace::DependMore(kind))
    }

    fn depend_more(&self, kind: DependKind, token: Token<'_>) -> Result<LoopPlace, ReadFault>
        ensures { StepsAt (LoopPlace.DependMore kind) token.entry self.now self.now result }
    {
        if token.is(b",") {
            Ok(LoopPlace::DependName(kind))
        } else if token.is(b")") {
            Ok(LoopPlace::Clause)
        } else {
            Err(token.fault(ReadKind::BadWord))
        }
    }

    pub(crate) fn new(alloc: Global) -> LoopReader
        ensures { loop_state_of result LoopPlace.Statement ≡ after_header }
    {
        LoopReader {
            alloc,
            word_line: 0,
            head: LoopHead::new(alloc),
            pending: Pending::new(alloc),
            bounds: Bounds::new(alloc),
            tree: OpenLoops::new(alloc),
        }
    }

    /// Takes the token at this place, and answers the next place.
    pub(crate) fn take(
        &mut self,
        place: LoopPlace,
        token: Token<'_>,
    ) -> Result<LoopPlace, ReadFault>
        ensures { Gives (loop_state_of self.new) result (step (loop_state_of self.old place)
            (token_seen token.entry)) }
    {
        if let Some(kind) = loop_form_fault(token) {
            return Err(token.fault(kind));
        }
        self.take_formed(place, token)
    }

    /// The same for a token that is well formed by itself.
    fn take_formed(&mut self, place: LoopPlace, token: Token<'_>) -> Result<LoopPlace, ReadFault>
        ensures { StepsAt place token.entry self.old self.new result }
    {
        match place {
            LoopPlace::Statement => self.statement(token),
            LoopPlace::WorkNumber => self.work_number(token),
            LoopPlace::GroupBrace => self.group_brace(token),
            LoopPlace::ForVariable => self.for_variable(token),
            LoopPlace::ForFrom => self.for_from(token),
            LoopPlace::ForTo => self.for_to(token),
            LoopPlace::ForBrace => self.for_brace(token),
            LoopPlace::Clause => self.clause(token),
            LoopPlace::IfOpens => self.if_opens(token),
            LoopPlace::IfNumber => self.if_number(token),
            LoopPlace::IfCloses => self.if_closes(token),
            LoopPlace::FinalOpens => self.final_opens(token),
            LoopPlace::FinalNumber => self.final_number(token),
            LoopPlace::FinalCloses => self.final_closes(token),
            LoopPlace::DependOpens => self.depend_opens(token),
            LoopPlace::DependType => self.depend_type(token),
            LoopPlace::DependColon(kind) => self.depend_colon(kind, token),
            LoopPlace::DependName(kind) => self.depend_name(kind, token),
            LoopPlace::Subscript(kind) => self.subscript(kind, token),
            LoopPlace::IndexStart(kind) => self.index_start(kind, token),
            LoopPlace::IndexNumber(kind) => self.index_number(kind, token),
            LoopPlace::IndexSign(kind) => self.index_sign(kind, token),
            LoopPlace::IndexCloses(kind) => self.index_closes(kind, token),
            LoopPlace::DependMore(kind) => self.depend_more(kind, token),
        }
    }

    /// The text ends here, on this line.
    pub(crate) fn finish(self, place: LoopPlace, line: u32) -> Result<LoopBody, ReadFault>
        ensures { Gives (λ body. body) result (tree_or_fault (end_at place self.tree.blocks line)
            (loop_state_of self place)) }
    {
        if place != LoopPlace::Statement {
            return Err(ReadFault {
                kind: ReadKind::BadWord,
                line,
            });
        }
        match self.tree.innermost_line() {
            Some(line) => Err(ReadFault {
                kind: ReadKind::Unclosed,
                line,
            }),
            None => Ok(self.tree.into_body()),
        }
    }
}
