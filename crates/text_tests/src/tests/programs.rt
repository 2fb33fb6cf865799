//! The worked texts, by the reader and the printer themselves.
use std::alloc::Global;
use std::process::Abort;
use std::test::Fail;
use task_program::AllocFault;
use task_program::fault::ReadKind;
use task_program::print::print_program;
use task_program::read::read_program;

mod any_bytes;
mod calls;
mod limits;
mod long_texts;
mod loops;
mod name_keys;
mod printed;
mod refused;

/// The fault of a text and its line; none where it is a program.
fn fault_of(alloc: Global, text: &[u8]) -> Option<(ReadKind, u32)> {
    match read_program(alloc, text) {
        Ok(_) => None,
        Err(fault) => Some((fault.kind, fault.line)),
    }
}

/// Asserts that this is the fault of a text and its line; none where it is a program.
fn assert_fault(rt: &impl Abort, alloc: Global, text: &str, wanted: Option<(ReadKind, u32)>) {
    assert_eq!(rt; fault_of(alloc, text.as_bytes()), wanted, "{text}");
}

/// Asserts that each text has its fault, on its line.
fn assert_faults(rt: &impl Abort, alloc: Global, rows: &[(&str, ReadKind, u32)]) {
    for (text, kind, line) in rows {
        assert_fault(rt, alloc, text, Some((*kind, *line)));
    }
}

/// The canonical text of a text.
fn shown(alloc: Global, text: &[u8]) -> Result<Vec<u8>, Fail> {
    let program = read_program(alloc, text)?;
    Ok(print_program(alloc, &program)?)
}

/// Asserts that a text has this canonical text, and that this has itself.
fn assert_shown(rt: &impl Abort, alloc: Global, text: &str, wanted: &str) -> Result<(), Fail> {
    for text in [text, wanted] {
        assert_eq!(rt;
            shown(alloc, text.as_bytes())?.as_slice(),
            wanted.as_bytes(),
            "{text}"
        );
    }
    Ok(())
}

/// How many names the program of a text has.
fn names_of(alloc: Global, text: &str) -> Result<u32, Fail> {
    Ok(read_program(alloc, text.as_bytes())?.names())
}

/// Whether the program of a text has this name under this number, or no name.
fn is_named(alloc: Global, text: &str, number: u32, name: Option<&str>) -> Result<bool, Fail> {
    Ok(read_program(alloc, text.as_bytes())?.name(number) == name)
}

/// Asserts that a text has so many names.
fn assert_names(rt: &impl Abort, alloc: Global, text: &str, wanted: u32) -> Result<(), Fail> {
    assert_eq!(rt; names_of(alloc, text)?, wanted);
    Ok(())
}

/// Asserts that the program of a text has this name under this number, or no name.
fn assert_named(
    rt: &impl Abort,
    alloc: Global,
    text: &str,
    number: u32,
    name: Option<&str>,
) -> Result<(), Fail> {
    assert!(rt; is_named(alloc, text, number, name)?, "{number} {text}");
    Ok(())
}

/// A text that begins with this, goes on with so many zeros, and ends with that.
fn zeros(alloc: Global, before: &str, count: u32, after: &str) -> Result<String, AllocFault> {
    let mut text = String::from_str(alloc, before)?;
    for _ in 0..count {
        text.push('0')?;
    }
    text.push_str(after)?;
    Ok(text)
}

/// A header, and then each of these lines so many times.
fn lines(alloc: Global, parts: &[(&str, u32)]) -> Result<String, AllocFault> {
    let mut text = String::from_str(alloc, "omptasks 1\n")?;
    for (line, count) in parts {
        for _ in 0..*count {
            text.push_str(line)?;
            text.push('\n')?;
        }
    }
    Ok(text)
}
