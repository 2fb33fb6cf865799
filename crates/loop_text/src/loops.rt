//! A text of version 2 as a tree in which loops stand as loops. Contracts see a body as a tree of
//! the definitions.
ghost use Rattle.std.specs.Prelude.{◌≡◌, [], ◌∷◌, ◌++◌, OnOk, IfOk};
ghost use Rattle.std.specs.String.{string_bytes};

use program_text::AllocFault;
use program_text::statement::DependKind;
use std::alloc::Global;
use std::marker::Model;

/// A word of the text, kept.
#[derive(Drop)]
pub struct Word {
    text: String,
}

impl Model for Word {
    ghost use Rattle.std.specs.Prelude.{List, ℕ};
    ghost use Rattle.std.specs.String.{string_bytes};

    ghost Value = { List ℕ };

    ghost view = { λ a. string_bytes a.text };
}

impl Word {
    pub(crate) fn empty(alloc: Global) -> Word
        ensures { result ≡ [] }
    {
        Word {
            text: String::new(alloc),
        }
    }

    pub(crate) fn new(alloc: Global, text: &str) -> Result<Word, AllocFault>
        ensures { IfOk result (λ word. word ≡ text.now) }
    {
        Ok(Word {
            text: String::from_str(alloc, text)?,
        })
    }

    /// Its text.
    pub fn as_str(&self) -> &str
        ensures { result.now ≡ self.now }
    {
        self.text.as_str()
    }
}

/// An index: a number that is added to the value of a variable, or taken from it; without a
/// variable, to or from 0. A variable is the number of loops that stand between its own loop and
/// the index. The line is that of the first token.
#[derive(Clone, Copy, Debug, PartialEq, Eq)]
pub struct Index {
    pub variable: Option<u32>,
    pub is_minus: bool,
    pub by: u32,
    pub line: u32,
}

/// A name with its type and its line, and its index if it has one.
#[derive(Drop)]
pub struct LoopItem {
    pub kind: DependKind,
    pub name: Word,
    pub line: u32,
    pub index: Option<Index>,
}

/// The items of a task, in the order of the text.
#[derive(Drop)]
pub struct LoopItems {
    items: Vec<LoopItem>,
}

impl Model for LoopItems {
    ghost use Rattle.std.specs.Prelude.{List};
    ghost use Rattle.loop_text.specs.declared.loops.LoopItem.{LoopItem};

    ghost Value = { List LoopItem };

    ghost view = { λ a. a.items.items };
}

impl LoopItems {
    pub(crate) fn new(alloc: Global) -> LoopItems
        ensures { result ≡ [] }
    {
        LoopItems {
            items: Vec::new(alloc),
        }
    }

    pub(crate) fn push(&mut self, item: LoopItem) -> Result<(), AllocFault>
        ensures { OnOk result (self.new ≡ self.old ++ item ∷ []) }
    {
        self.items.push(item)?;
        Ok(())
    }

    /// All of them, in their order.
    pub fn as_slice(&self) -> &[LoopItem]
        ensures { result.now ≡ self.now }
    {
        self.items.as_slice()
    }
}

/// A task up to its body, with the lines of the word `task` and of the `{`.
#[derive(Drop)]
pub struct LoopTask {
    pub undeferred: bool,
    pub is_final: bool,
    pub items: LoopItems,
    pub line: u32,
    pub brace_line: u32,
}

/// A statement. The line of a work is that of its number, and each other that of the first word.
#[derive(Drop)]
#[cycle(loops)]
pub enum LoopStmt {
    Work {
        cost: u64,
        line: u32,
    },
    Wait {
        line: u32,
    },
    Group {
        line: u32,
        brace_line: u32,
        body: LoopBody,
    },
    Task {
        task: LoopTask,
        body: LoopBody,
    },
    For {
        from: u32,
        to: u32,
        line: u32,
        body: LoopBody,
    },
}

/// The statements of a block. Contracts see their tree.
#[derive(Drop)]
#[cycle(loops)]
pub struct LoopBody {
    statements: Vec<LoopStmt>,
}

impl Model for LoopBody {
    ghost use Rattle.loop_text.specs.Loops.{Tree, size_of_tree};

    ghost Value = { Tree };

    ghost use Rattle.loop_text.specs.TreeCode.{tree_code};

    ghost coded = { tree_code };

    ghost use Rattle.loop_text.specs.LoopsSeen.{tree_of};

    ghost view = { λ a. tree_of a.statements.items };

    ghost size = { size_of_tree };

    ghost use Rattle.loop_text.specs.LoopsShrink.{tree_shrinks};

    ghost size_decreases = { λ a h. tree_shrinks a.statements.items };
}

impl LoopBody {
    ghost use Rattle.loop_text.specs.Loops.Tree.{NoStatement};
    ghost use Rattle.loop_text.specs.LoopsSeen.{tree_of, with_statement};

    pub(crate) fn new(alloc: Global) -> LoopBody
        ensures { result ≡ NoStatement }
    {
        LoopBody {
            statements: Vec::new(alloc),
        }
    }

    pub(crate) fn push(&mut self, statement: LoopStmt) -> Result<(), AllocFault>
        ensures { OnOk result (self.new ≡ with_statement self.old statement) }
    {
        self.statements.push(statement)?;
        Ok(())
    }

    /// All of them, in their order.
    pub fn as_slice(&self) -> &[LoopStmt]
        ensures { self.now ≡ tree_of result.now }
    {
        self.statements.as_slice()
    }
}
