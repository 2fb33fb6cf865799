//! Texts: programs, words, inputs and rows.
use super::made_again;
use super::supply::Supply;
use command_words::request::{Request, WordsFault, read_words};
use counted_io::{Counted, InputFault, LARGEST_INPUT, read_input};
use csv_table::Table;
use std::alloc::{AllocGlobal, Global};
use std::process::Abort;
use std::test::Fail;
use task_program::AllocFault;
use task_program::fault::{ReadFault, ReadKind};
use task_program::print::print_program;
use task_program::program::Program;
use task_program::read::read_program;
use task_program::statement::{Items, Stmt};

const TEXT: &[u8] =
    b"omptasks 1 work 1 task depend(in: a, b, c) depend(out: d, e, f) { taskgroup { taskwait \
    taskwait taskwait taskwait taskwait } work 12 } task if(0) { }";

const CANONICAL: &[u8] =
    b"omptasks 1\nwork 1\ntask depend(in: a, b, c) depend(out: d, e, f) {\ntaskgroup {\ntaskwait\n\
    taskwait\ntaskwait\ntaskwait\ntaskwait\n}\nwork 12\n}\ntask if(0) {\n}\n";

/// A text of version 2, and a text with a fault on line 3.
const LOOPS: &[u8] =
    b"omptasks 2 for i 1 3 { task depend(in: x[i-1]) depend(out: x[i]) { work 2 } }";

const UNOPENED: &[u8] = b"omptasks 1\ntask depend(in: a, b) { work 1 }\n}";

fn read(alloc: Global, text: &[u8]) -> Result<Program, ReadFault> {
    read_program(alloc, text)
}

/// The program of a text that has one.
pub(super) fn program_of<H: AllocGlobal + Abort>(
    rt: &H,
    supply: &mut Supply,
    text: &[u8],
) -> Result<Program, Fail> {
    supply.before_call();
    match read(rt.alloc(), text) {
        Ok(program) => Ok(program),
        Err(fault) => {
            assert_eq!(rt; (fault.kind, fault.line), (ReadKind::OutOfMemory, 0));
            supply.refused();
            Ok(read(rt.alloc(), text)?)
        }
    }
}

fn print(alloc: Global, program: &Program) -> Result<Vec<u8>, AllocFault> {
    print_program(alloc, program)
}

fn printed<H: AllocGlobal>(
    rt: &H,
    supply: &mut Supply,
    program: &Program,
) -> Result<Vec<u8>, Fail> {
    supply.before_call();
    match print(rt.alloc(), program) {
        Ok(text) => Ok(text),
        Err(_) => {
            supply.refused();
            Ok(print(rt.alloc(), program)?)
        }
    }
}

fn copied(supply: &mut Supply, items: &Items) -> Result<Items, Fail> {
    supply.before_call();
    match items.copy() {
        Ok(copy) => Ok(copy),
        Err(_) => {
            supply.refused();
            Ok(items.copy()?)
        }
    }
}

/// The fault of a text that has one.
fn fault_of(alloc: Global, text: &[u8]) -> Result<ReadFault, Fail> {
    match read(alloc, text) {
        Ok(_) => Err("a program".into()),
        Err(fault) => Ok(fault),
    }
}

/// A program is printed.
fn assert_printed<H: AllocGlobal + Abort>(
    rt: &H,
    supply: &mut Supply,
    program: &Program,
) -> Result<(), Fail> {
    let text = printed(rt, supply, program)?;
    assert_eq!(rt; text.as_slice(), CANONICAL);
    Ok(())
}

/// The items of a program's first task are copied.
fn assert_copied(rt: &impl Abort, supply: &mut Supply, program: &Program) -> Result<(), Fail> {
    let [Stmt::Work(1), Stmt::Task(task), Stmt::Task(_)] = program.body() else {
        return Err(Fail::new("work and two tasks"));
    };
    let copy = copied(supply, &task.items)?;
    assert_eq!(rt;
        (program.names(), copy.as_slice()),
        (6, task.items.as_slice())
    );
    Ok(())
}

/// A program of version 1 is read and printed, and a list of its items is copied.
fn assert_read<H: AllocGlobal + Abort>(rt: &H, supply: &mut Supply) -> Result<(), Fail> {
    let program = program_of(rt, supply, TEXT)?;
    assert_printed(rt, supply, &program)?;
    assert_copied(rt, supply, &program)
}

/// A program of version 2 is read.
fn assert_looped<H: AllocGlobal + Abort>(rt: &H, supply: &mut Supply) -> Result<(), Fail> {
    let looped = program_of(rt, supply, LOOPS)?;
    assert_eq!(rt; (looped.names(), looped.body().len()), (4, 3));
    Ok(())
}

/// A fault is reported.
fn assert_unopened<H: AllocGlobal + Abort>(rt: &H, supply: &mut Supply) -> Result<(), Fail> {
    supply.before_call();
    let mut fault = fault_of(rt.alloc(), UNOPENED)?;
    if fault.kind == ReadKind::OutOfMemory {
        supply.refused();
        fault = fault_of(rt.alloc(), UNOPENED)?;
    }
    assert_eq!(rt; (fault.kind, fault.line), (ReadKind::Unopened, 3));
    Ok(())
}

/// Programs of both versions are read and printed, a list of items is copied, and a fault is
/// reported.
pub(super) fn program<H: AllocGlobal + Abort>(rt: &H, supply: &mut Supply) -> Result<(), Fail> {
    assert_read(rt, supply)?;
    assert_looped(rt, supply)?;
    assert_unopened(rt, supply)
}

fn words_of(alloc: Global, words: &[&str]) -> Result<Vec<String>, AllocFault> {
    let mut list = Vec::new(alloc);
    for word in words {
        list.push(String::from_str(alloc, word)?)?;
    }
    Ok(list)
}

/// The words of a command line.
pub(super) fn command_line(
    alloc: Global,
    supply: &mut Supply,
    words: &[&str],
) -> Result<Vec<String>, Fail> {
    match words_of(alloc, words) {
        Ok(list) => Ok(list),
        Err(_) => {
            supply.refused();
            Ok(words_of(alloc, words)?)
        }
    }
}

fn request_of(alloc: Global, words: &[String]) -> Result<Request, WordsFault> {
    read_words(alloc, words)
}

fn request<H: AllocGlobal>(
    rt: &H,
    supply: &mut Supply,
    words: &[&str],
) -> Result<Result<Request, WordsFault>, Fail> {
    let alloc = rt.alloc();
    let list = command_line(alloc, supply, words)?;
    supply.before_call();
    match request_of(alloc, list.as_slice()) {
        Err(WordsFault::OutOfMemory) => {
            supply.refused();
            Ok(request_of(alloc, list.as_slice()))
        }
        answer => Ok(answer),
    }
}

/// Arguments that ask for something, and wrong ones.
pub(super) fn words<H: AllocGlobal + Abort>(rt: &H, supply: &mut Supply) -> Result<(), Fail> {
    match request(rt, supply, &["spanprof", "whatif", "2=4", "1=5", "0=1"])? {
        Ok(Request::WhatIf { changes }) => assert_eq!(rt; changes.as_slice().len(), 3),
        _ => assert!(rt; false),
    }
    let run = request(rt, supply, &["spanprof", "run", "--workers", "2"])?;
    assert!(rt; matches!(run, Ok(Request::Run { workers: 2 })));
    let wrong = request(rt, supply, &["spanprof", "whatif", "2=4", "1"])?;
    assert!(rt; matches!(wrong, Err(WordsFault::WrongWords)));
    Ok(())
}

/// Longer than one read asks for.
const LONG: &[u8] = &[b' '; 10_000];

/// What a read of the input answers, and how many of its calls were faults.
fn read_long(alloc: Global) -> (Result<Vec<u8>, InputFault>, u64) {
    let mut reader = Counted::new(LONG);
    let answer = read_input(alloc, &mut reader, LARGEST_INPUT, &mut 0);
    (answer, reader.faults())
}

/// An input is read to its end.
pub(super) fn input<H: AllocGlobal + Abort>(rt: &H, supply: &mut Supply) -> Result<(), Fail> {
    supply.before_call();
    let bytes = match read_long(rt.alloc()) {
        (Ok(bytes), _) => bytes,
        (Err(fault), faults) => {
            assert_eq!(rt; (fault, faults), (InputFault::OutOfMemory, 0));
            supply.refused();
            made_again(read_long(rt.alloc()).0)?
        }
    };
    assert!(rt; bytes.as_slice() == LONG);
    Ok(())
}

fn table_text(alloc: Global) -> Result<Vec<u8>, AllocFault> {
    Table::new(alloc, &["threads", "end"])?
        .with_row(&[Some(1), None])?
        .with_row(&[Some(u64::MAX), Some(0)])?
        .with_list(alloc, &[Some(3)], &[1, 22])?
        .into_text()
}

/// Rows of a table. A refused call spends the table, so that it is made anew.
pub(super) fn rows<H: AllocGlobal + Abort>(rt: &H, supply: &mut Supply) -> Result<(), Fail> {
    let alloc = rt.alloc();
    supply.before_call();
    let text = match table_text(alloc) {
        Ok(text) => text,
        Err(_) => {
            supply.refused();
            table_text(alloc)?
        }
    };
    assert_eq!(rt;
        text.as_slice(),
        b"threads,end\n1,\n18446744073709551615,0\n3,1 22\n".as_slice()
    );
    Ok(())
}
