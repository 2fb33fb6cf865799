//! A tree with loops is walked through as it expands, piece by piece.
ghost use Rattle.std.specs.Prelude.{◌≡◌, ◌∷◌, [], false, ◌||◌, length, reverse, OnOk};
ghost use Rattle.task_program.specs.Expanded.{ExpansionState};
ghost use Rattle.task_program.specs.Expansion.{expansion, task_pieces};
ghost use Rattle.task_program.specs.Expansion.{turns_of, values_between};
ghost use Rattle.task_program.specs.Expansion.Piece.{TurnBegins, GroupComes, GroupOpens};
ghost use Rattle.task_program.specs.Expansion.Piece.{BlockEnds, WorkIs, WaitIs};
ghost use Rattle.task_program.specs.SecondPass.{PieceTest};
ghost use Rattle.task_program.specs.Walks.{IsSomewhere, IsInside, TakesSo};
ghost use Rattle.loop_text.specs.LoopsSeen.{tree_of, with_statement};
ghost use Rattle.loop_text.specs.Loops.Tree.{NoStatement};

use loop_text::loops::{LoopStmt, LoopTask};
use program_text::fault::ReadFault;
use std::alloc::Global;

/// What takes the pieces of an expansion one after another, up to the first that its test refuses.
pub trait TakesPieces {
    /// What is wrong with a piece where those before it led so far.
    ghost test: { PieceTest };
    /// Whether it has taken pieces that amount to this.
    ghost stands_at: { Self → ExpansionState → Type 0 };

    /// A turn of a loop begins.
    fn turn(&mut self, line: u32) -> Result<(), ReadFault>
        requires { IsSomewhere (stands_at self.old) }
        ensures { TakesSo test (TurnBegins line ∷ []) (stands_at self.old) (stands_at self.new)
            result };

    /// A task up to its `{`.
    fn task(
        &mut self,
        alloc: Global,
        values: &[u32],
        in_final: bool,
        task: &LoopTask,
    ) -> Result<(), ReadFault>
        requires { IsSomewhere (stands_at self.old) }
        ensures { TakesSo test (task_pieces (reverse values.now) in_final task.now)
            (stands_at self.old) (stands_at self.new) result };

    /// A group up to its `{`.
    fn group(&mut self, alloc: Global, line: u32, brace_line: u32) -> Result<(), ReadFault>
        requires { IsSomewhere (stands_at self.old) }
        ensures { TakesSo test (GroupComes line ∷ GroupOpens brace_line ∷ [])
            (stands_at self.old) (stands_at self.new) result };

    /// The innermost block ends.
    fn close(&mut self, alloc: Global) -> Result<(), ReadFault>
        requires { IsInside (stands_at self.old) }
        ensures { TakesSo test (BlockEnds ∷ []) (stands_at self.old) (stands_at self.new) result };

    fn work(&mut self, alloc: Global, cost: u64, line: u32) -> Result<(), ReadFault>
        requires { IsSomewhere (stands_at self.old) }
        ensures { TakesSo test (WorkIs cost line ∷ []) (stands_at self.old) (stands_at self.new)
            result };

    fn wait(&mut self, alloc: Global, line: u32) -> Result<(), ReadFault>
        requires { IsSomewhere (stands_at self.old) }
        ensures { TakesSo test (WaitIs line ∷ []) (stands_at self.old) (stands_at self.new)
            result };
}

// This and the next stand apart for the prover's sake: their caller has many ways out already.
fn how_many(values: &[u32]) -> usize
    ensures { result ≡ length values.now }
{
    values.len()
}

pub(crate) fn is_either(one: bool, other: bool) -> bool
    ensures { result ≡ (one || other) }
{
    one || other
}

/// Takes the expansion of these statements.
pub fn take_all<T: TakesPieces>(
    taker: &mut T,
    alloc: Global,
    statements: &[LoopStmt],
) -> Result<(), ReadFault>
    requires { IsSomewhere (T.stands_at taker.old) }
    ensures { TakesSo T.test (expansion [] false (tree_of statements.now)) (T.stands_at taker.old) (T.stands_at taker.new) result }
{
    let mut values = Vec::new(alloc);
    expand(taker, alloc, &mut values, false, statements)
}

/// The statements, inside a task with `final(1)` or outside.
#[cycle(expanding)]
fn expand<T: TakesPieces>(
    taker: &mut T,
    alloc: Global,
    values: &mut Vec<u32>,
    in_final: bool,
    statements: &[LoopStmt],
) -> Result<(), ReadFault>
    requires { IsSomewhere (T.stands_at taker.old) }
    ensures takes { TakesSo T.test (expansion (reverse values.old.items) in_final (tree_of statements.now)) (T.stands_at taker.old) (T.stands_at taker.new) result }
    ensures values { OnOk result (values.new.items ≡ values.old.items) }
{
    'statements: for statement in statements {
        expand_one(taker, alloc, values, in_final, statement)?;
    }
    Ok(())
}

#[cycle(expanding)]
fn expand_one<T: TakesPieces>(
    taker: &mut T,
    alloc: Global,
    values: &mut Vec<u32>,
    in_final: bool,
    statement: &LoopStmt,
) -> Result<(), ReadFault>
    requires { IsSomewhere (T.stands_at taker.old) }
    ensures takes { TakesSo T.test (expansion (reverse values.old.items) in_final
        (with_statement NoStatement statement.now)) (T.stands_at taker.old) (T.stands_at taker.new) result }
    ensures values { OnOk result (values.new.items ≡ values.old.items) }
{
    match statement {
        LoopStmt::Work { cost, line } => taker.work(alloc, *cost, *line),
        LoopStmt::Wait { line } => taker.wait(alloc, *line),
        LoopStmt::Group {
            line,
            brace_line,
            body,
        } => {
            taker.group(alloc, *line, *brace_line)?;
            expand(taker, alloc, values, in_final, body.as_slice())?;
            taker.close(alloc)
        }
        LoopStmt::Task { task, body } => {
            taker.task(alloc, values.as_slice(), in_final, task)?;
            expand(
                taker,
                alloc,
                values,
                is_either(task.is_final, in_final),
                body.as_slice(),
            )?;
            taker.close(alloc)
        }
        LoopStmt::For {
            from,
            to,
            line,
            body,
        } => expand_turns(
            taker,
            alloc,
            values,
            in_final,
            *from,
            *to,
            *line,
            body.as_slice(),
        ),
    }
}

/// The iterations of a loop.
#[cycle(expanding)]
fn expand_turns<T: TakesPieces>(
    taker: &mut T,
    alloc: Global,
    values: &mut Vec<u32>,
    in_final: bool,
    from: u32,
    to: u32,
    line: u32,
    body: &[LoopStmt],
) -> Result<(), ReadFault>
    requires { IsSomewhere (T.stands_at taker.old) }
    ensures takes { TakesSo T.test (turns_of (reverse values.old.items) in_final line (tree_of body.now)
        (values_between from to)) (T.stands_at taker.old) (T.stands_at taker.new) result }
    ensures values { OnOk result (values.new.items ≡ values.old.items) }
{
    let around = how_many(values.as_slice());
    let mut value = u64::from(from);
    'turns: while value <= u64::from(to) {
        taker.turn(line)?;
        values.push(value as u32)?;
        expand(taker, alloc, values, in_final, body)?;
        values.truncate(around);
        value += 1;
    }
    Ok(())
}
