//! The meter over the statements of a program.
ghost use Rattle.std.specs.Prelude.{List, OnOk, IfOk};
ghost use Rattle.program_text.specs.Statements.{marks_of, marks_of_one};
ghost use Rattle.task_program.specs.Marks.{Mark};
ghost use Rattle.task_segments.specs.Moments.{last_moment};
ghost use Rattle.online_span.specs.Measuring.{Measures};
ghost use Rattle.task_segments.specs.Cutting.{group_marks, task_marks};
ghost use Rattle.online_span.specs.Taking.{HasRoom, HasTaken};

use crate::meter::Meter;
use std::alloc::Global;
use task_program::AllocFault;
use task_program::program::Program;
use task_program::statement::{Body, Stmt, TaskStmt};

/// The meter that has taken all marks of a program. The error is out of memory.
pub fn measure(alloc: Global, program: &Program) -> Result<Meter, AllocFault>
    ensures { IfOk result (λ meter. Measures meter (last_moment program.now.marks)) }
{
    let statements = program.body();
    let mut meter = Meter::new(alloc);
    take_all(&mut meter, statements)?;
    Ok(meter)
}

// Takes the statements of the running task.
#[cycle(take)]
fn take_all(meter: &mut Meter, statements: &[Stmt]) -> Result<(), AllocFault>
    requires { HasRoom meter.old (marks_of statements.now) }
    ensures { OnOk result ((moment : List Mark) → Measures meter.old moment
        → HasTaken meter.new moment (marks_of statements.now)) }
{
    for statement in statements {
        take_one(meter, statement)?;
    }
    Ok(())
}

#[cycle(take)]
fn take_one(meter: &mut Meter, statement: &Stmt) -> Result<(), AllocFault>
    requires { HasRoom meter.old (marks_of_one statement.now) }
    ensures { OnOk result ((moment : List Mark) → Measures meter.old moment
        → HasTaken meter.new moment (marks_of_one statement.now)) }
{
    match statement {
        Stmt::Work(cost) => {
            meter.work(*cost);
            Ok(())
        }
        Stmt::Task(task) => take_task(meter, task),
        Stmt::Wait => {
            meter.wait();
            Ok(())
        }
        Stmt::Group(body) => take_group(meter, body),
    }
}

// Takes a child of the running task.
#[cycle(take)]
fn take_task(meter: &mut Meter, task: &TaskStmt) -> Result<(), AllocFault>
    requires { HasRoom meter.old (task_marks task.now) }
    ensures { OnOk result ((moment : List Mark) → Measures meter.old moment
        → HasTaken meter.new moment (task_marks task.now)) }
{
    meter.begin_task(task.undeferred, task.items.as_slice())?;
    take_all(meter, task.body.as_slice())?;
    meter.end_task()
}

// Takes a group of the running task.
#[cycle(take)]
fn take_group(meter: &mut Meter, body: &Body) -> Result<(), AllocFault>
    requires { HasRoom meter.old (group_marks body.now) }
    ensures { OnOk result ((moment : List Mark) → Measures meter.old moment
        → HasTaken meter.new moment (group_marks body.now)) }
{
    meter.begin_group()?;
    take_all(meter, body.as_slice())?;
    meter.end_group();
    Ok(())
}
