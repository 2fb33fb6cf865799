//! Programs of any size, in one pass: over statements, over a text, over a text in two pieces, and
//! with the table of a text.
ghost use Rattle.std.specs.Prelude.{◌+◌, ◌<◌, ◌≤◌, ◌^◌, length};
ghost use Rattle.large_text.specs.Streamed.{CanTakeBytes};
ghost use Rattle.large_text.specs.declared.limits.TheConstants.{LARGEST_PIECE};

use super::supply::Supply;
use super::texts::program_of;
use large_text::fault::LargeFault;
use large_text::{TextMeter, measure_text};
use online_span::{Meter, measure};
use std::alloc::{AllocGlobal, Global};
use std::process::Abort;
use std::test::Fail;
use task_program::AllocFault;
use task_program::fault::ReadKind;
use task_program::name_key::NameKey;
use task_program::program::Program;

/// Six tasks are open at once, and six names are mentioned.
const DEEP: &[u8] = b"omptasks 1\nwork 1\ntask depend(in: a, b, c) depend(out: d, e, f) {\n\
    taskgroup { task if(0) { work 2 } }\n\
    task { work 3 task { work 4 task { task { taskgroup { work 5 } } } } }\n\
    work 13\n}\ntask depend(in: d) { work 1 }\ntaskwait\n";

/// Three iterations of a loop, each of three tasks.
const LOOPS: &[u8] = b"omptasks 2\nfor i 1 3 {\n\
    task depend(inout: a[i], b[i-1]) { task final(1) { task { taskgroup { work 2 } } } }\n}\ntaskwait\n";

/// Tasks, segments, work and span.
type Numbers = (u64, u64, u64, u64);

const NUMBERS: Numbers = (7, 18, 29, 17);

const NUMBERS_OF_LOOPS: Numbers = (9, 23, 6, 2);

fn numbers_of(meter: &Meter) -> Numbers {
    (
        meter.tasks(),
        meter.segments(),
        meter.total_work(),
        meter.span(),
    )
}

fn of_program(alloc: Global, program: &Program) -> Result<Numbers, AllocFault> {
    let meter = measure(alloc, program)?;
    Ok(numbers_of(&meter))
}

/// The numbers of a program that is read whole.
pub(super) fn program<H: AllocGlobal + Abort>(rt: &H, supply: &mut Supply) -> Result<(), Fail> {
    let program = program_of(rt, supply, DEEP)?;
    supply.before_call();
    let numbers = match of_program(rt.alloc(), &program) {
        Ok(numbers) => numbers,
        Err(_) => {
            supply.refused();
            of_program(rt.alloc(), &program)?
        }
    };
    assert_eq!(rt; numbers, NUMBERS);
    Ok(())
}

fn of_text(alloc: Global, text: &[u8]) -> Result<Numbers, LargeFault>
    requires { length text.now + 1 < 2 ^ 32 }
{
    let meter = measure_text(alloc, text)?;
    Ok(numbers_of(&meter))
}

fn has_numbers<H: AllocGlobal + Abort>(
    rt: &H,
    supply: &mut Supply,
    text: &[u8],
    wanted: Numbers,
) -> Result<(), Fail>
    requires { length text.now + 1 < 2 ^ 32 }
{
    supply.before_call();
    let numbers = match of_text(rt.alloc(), text) {
        Ok(numbers) => numbers,
        Err(fault) => {
            supply.refused();
            assert_eq!(rt; fault.kind, ReadKind::OutOfMemory);
            of_text(rt.alloc(), text)?
        }
    };
    assert_eq!(rt; numbers, wanted);
    Ok(())
}

/// The numbers of a text.
pub(super) fn text<H: AllocGlobal + Abort>(rt: &H, supply: &mut Supply) -> Result<(), Fail> {
    has_numbers(rt, supply, DEEP, NUMBERS)
}

/// The numbers of a text with loops.
pub(super) fn loops<H: AllocGlobal + Abort>(rt: &H, supply: &mut Supply) -> Result<(), Fail> {
    has_numbers(rt, supply, LOOPS, NUMBERS_OF_LOOPS)
}

fn of_pieces(alloc: Global, supply: &mut Supply, text: &[u8]) -> Result<Numbers, LargeFault>
    requires { length text.now ≤ LARGEST_PIECE }
{
    let (first, rest) = text.split_at(text.len() / 2);
    let mut pieces = TextMeter::new(alloc, NameKey::fixed());
    supply.before_call();
    match pieces.take(first) {
        Ok(()) => {}
        Err(_) => {
            supply.refused();
            return of_spent(pieces, first);
        }
    }
    supply.before_call();
    pieces.take(rest)?;
    supply.before_call();
    let meter = pieces.finish()?;
    Ok(numbers_of(&meter))
}

/// What comes of a meter that was refused a piece, with memory again: it takes no piece, and its end
/// is out of memory.
fn of_spent(mut pieces: TextMeter, piece: &[u8]) -> Result<Numbers, LargeFault>
    requires room { CanTakeBytes piece.now pieces }
    requires piece { length piece.now ≤ LARGEST_PIECE }
{
    match pieces.take(piece) {
        Ok(()) => Ok((0, 0, 0, 0)),
        Err(_) => {
            let meter = pieces.finish()?;
            Ok(numbers_of(&meter))
        }
    }
}

/// The numbers of a text in pieces. A refused piece spends its meter, so that the text is begun anew.
pub(super) fn pieces<H: AllocGlobal + Abort>(rt: &H, supply: &mut Supply) -> Result<(), Fail> {
    let numbers = match of_pieces(rt.alloc(), supply, DEEP) {
        Ok(numbers) => numbers,
        Err(fault) => {
            supply.refused();
            assert_eq!(rt; fault.kind, ReadKind::OutOfMemory);
            of_pieces(rt.alloc(), supply, DEEP)?
        }
    };
    assert_eq!(rt; numbers, NUMBERS);
    Ok(())
}

/// Tasks, with the root, and segments.
fn rows_of(alloc: Global, supply: &mut Supply, text: &[u8]) -> Result<(u32, u32), LargeFault>
    requires { length text.now ≤ LARGEST_PIECE }
{
    supply.before_call();
    let mut pieces = TextMeter::with_rows(alloc, NameKey::fixed())?;
    supply.before_call();
    pieces.take(text)?;
    supply.before_call();
    match pieces.finish_table()? {
        Some(table) => Ok((table.tasks(), table.len())),
        None => Ok((0, 0)),
    }
}

/// The rows of a text's table. Where the meter was refused anything, the text is begun anew.
pub(super) fn table<H: AllocGlobal + Abort>(rt: &H, supply: &mut Supply) -> Result<(), Fail> {
    let rows = match rows_of(rt.alloc(), supply, DEEP) {
        Ok(rows) => rows,
        Err(fault) => {
            supply.refused();
            assert_eq!(rt; fault.kind, ReadKind::OutOfMemory);
            rows_of(rt.alloc(), supply, DEEP)?
        }
    };
    assert_eq!(rt; rows, (8, 18));
    Ok(())
}

/// The canonical text of `DEEP`.
const SHOWN: &[u8] = b"omptasks 1\nwork 1\n\
    task depend(in: a, b, c) depend(out: d, e, f) {\ntaskgroup {\ntask if(0) {\nwork 2\n}\n}\n\
    task {\nwork 3\ntask {\nwork 4\ntask {\ntask {\ntaskgroup {\nwork 5\n}\n}\n}\n}\n}\n\
    work 13\n}\ntask depend(in: d) {\nwork 1\n}\ntaskwait\n";

fn text_of(alloc: Global, supply: &mut Supply, text: &[u8]) -> Result<Option<Vec<u8>>, LargeFault>
    requires { length text.now ≤ LARGEST_PIECE }
{
    supply.before_call();
    let mut pieces = TextMeter::with_rows_and_text(alloc, NameKey::fixed())?;
    supply.before_call();
    pieces.take(text)?;
    supply.before_call();
    let (text, _) = pieces.finish_text()?;
    Ok(text)
}

/// A text that is written anew. Where the meter was refused anything, the text is begun anew too.
pub(super) fn shown<H: AllocGlobal + Abort>(rt: &H, supply: &mut Supply) -> Result<(), Fail> {
    let text = match text_of(rt.alloc(), supply, DEEP) {
        Ok(text) => text,
        Err(fault) => {
            supply.refused();
            assert_eq!(rt; fault.kind, ReadKind::OutOfMemory);
            text_of(rt.alloc(), supply, DEEP)?
        }
    };
    match text {
        Some(text) => assert!(rt; text.as_slice() == SHOWN),
        None => assert!(rt; false),
    }
    Ok(())
}
