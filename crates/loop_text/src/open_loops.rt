//! The open blocks of a text of version 2, and the statements of the innermost.
ghost use Rattle.std.specs.Prelude.{◌≡◌, ◌≤◌, ◌<◌, [], length, OnOk};
ghost use Rattle.loop_text.specs.OpenBlocks.{with_statements, with_open_block, without_innermost};
ghost use Rattle.loop_text.specs.OpenBlocks.{brace_of, innermost_brace, variables_of};
ghost use Rattle.loop_text.specs.OpenBlocks.{variable_number};
ghost use Rattle.loop_text.specs.Loops.Tree.{NoStatement, ThenWork, ThenWait};
ghost use Rattle.program_text.specs.declared.limits.TheConstants.{MOST_NESTING};

use crate::loops::{LoopBody, LoopStmt, LoopTask, Word};
use program_text::AllocFault;
use program_text::scanner::Token;
use std::alloc::Global;
use std::marker::Model;
use std::mem;

/// How an open block began, with the lines of its first word and of its `{`.
#[derive(Drop)]
pub enum LoopOpening {
    TaskOpening {
        task: LoopTask,
    },
    GroupOpening {
        line: u32,
        brace_line: u32,
    },
    ForOpening {
        variable: Word,
        from: u32,
        to: u32,
        line: u32,
        brace_line: u32,
    },
}

/// An open block, and what stands before it in the block around it.
#[derive(Drop)]
pub struct LoopBlock {
    before: LoopBody,
    opening: LoopOpening,
}

/// The open blocks, the innermost last, and the statements of the innermost.
#[derive(Drop)]
pub(crate) struct OpenLoops {
    blocks: Vec<LoopBlock>,
    statements: LoopBody,
}

impl Model for OpenLoops {
    ghost use Rattle.std.specs.Prelude.{reverse};
    ghost use Rattle.loop_text.specs.OpenBlocks.{OpenBlocks};

    ghost Value = { OpenBlocks };

    ghost use Rattle.loop_text.specs.contracts.loops.LoopBody as body;
    ghost use Rattle.std.specs.Coded.{codes};

    ghost coded = { Prim.hlevel (codes, body.the_row.coded) };

    ghost use Rattle.std.specs.Prelude.{◌≤◌, length};
    ghost use Rattle.program_text.specs.declared.limits.TheConstants.{MOST_NESTING};

    ghost view = { λ a. record { blocks = reverse a.blocks.items; statements = a.statements } };

    ghost invariant = { λ a. length a.blocks.items ≤ MOST_NESTING };
}

impl LoopOpening {
    fn brace_line(&self) -> u32
        ensures { result ≡ brace_of self.now }
    {
        match self {
            LoopOpening::TaskOpening { task } => task.brace_line,
            LoopOpening::GroupOpening {
                line: _,
                brace_line,
            } => *brace_line,
            LoopOpening::ForOpening {
                variable: _,
                from: _,
                to: _,
                line: _,
                brace_line,
            } => *brace_line,
        }
    }
}

impl OpenLoops {
    pub(crate) fn new(alloc: Global) -> OpenLoops
        ensures { result ≡ record { blocks = []; statements = NoStatement } }
    {
        OpenLoops {
            blocks: Vec::new(alloc),
            statements: LoopBody::new(alloc),
        }
    }

    /// How many blocks are open.
    pub(crate) fn depth(&self) -> usize
        ensures { result ≡ length self.now.blocks }
    {
        self.blocks.len()
    }

    /// The loops between this variable's own and this place, if a loop around this place has that
    /// variable.
    pub(crate) fn variable(&self, token: Token<'_>) -> Option<u32>
        ensures { result ≡ variable_number (variables_of self.now.blocks) token.entry.text.now }
    {
        let mut blocks = self.blocks.as_slice();
        let mut number = 0;
        'variables: while let [around @ .., block] = blocks {
            if let LoopOpening::ForOpening { variable, .. } = &block.opening {
                if token.is(variable.as_str().as_bytes()) {
                    return Some(number);
                }
                number += 1;
            }
            blocks = around;
        }
        None
    }

    pub(crate) fn add_work(&mut self, cost: u64, line: u32) -> Result<(), AllocFault>
        ensures { OnOk result (self.new
            ≡ with_statements self.old (ThenWork self.old.statements cost line)) }
    {
        self.statements.push(LoopStmt::Work { cost, line })
    }

    pub(crate) fn add_wait(&mut self, line: u32) -> Result<(), AllocFault>
        ensures { OnOk result (self.new
            ≡ with_statements self.old (ThenWait self.old.statements line)) }
    {
        self.statements.push(LoopStmt::Wait { line })
    }

    /// A block begins.
    pub(crate) fn begin(&mut self, alloc: Global, opening: LoopOpening) -> Result<(), AllocFault>
        requires { length self.old.blocks < MOST_NESTING }
        ensures { OnOk result (self.new ≡ with_open_block self.old opening) }
    {
        self.blocks.reserve(1)?;
        let before = mem::replace(&mut self.statements, LoopBody::new(alloc));
        self.blocks.push(LoopBlock { before, opening })?;
        Ok(())
    }

    /// The innermost block ends. A loop that has no turn stands for nothing, and is left out.
    pub(crate) fn close(&mut self) -> Result<(), AllocFault>
        requires { 0 < length self.old.blocks }
        ensures { OnOk result (self.new ≡ without_innermost self.old) }
    {
        if let Some(LoopBlock { before, opening }) = self.blocks.pop() {
            let body = mem::replace(&mut self.statements, before);
            match opening {
                LoopOpening::TaskOpening { task } => {
                    self.statements.push(LoopStmt::Task { task, body })?;
                }
                LoopOpening::GroupOpening { line, brace_line } => {
                    self.statements.push(LoopStmt::Group {
                        line,
                        brace_line,
                        body,
                    })?;
                }
                LoopOpening::ForOpening {
                    variable: _,
                    from,
                    to,
                    line,
                    brace_line: _,
                } => {
                    if from <= to {
                        self.statements.push(LoopStmt::For {
                            from,
                            to,
                            line,
                            body,
                        })?;
                    }
                }
            }
        }
        Ok(())
    }

    /// The line of the `{` of the innermost open block.
    pub(crate) fn innermost_line(&self) -> Option<u32>
        ensures { result ≡ innermost_brace self.now.blocks }
    {
        Some(self.blocks.last()?.opening.brace_line())
    }

    /// The statements of the whole, where no block is open.
    pub(crate) fn into_body(self) -> LoopBody
        ensures { result ≡ self.statements }
    {
        self.statements
    }
}
