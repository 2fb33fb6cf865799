//! Documents of the worked program, and the reports on them.
mod changed;
mod checks;
mod lists;
mod long;
mod places;
mod replays;
mod rows;

use crate::tests::rows::{BEGUN, FAULTS, REPORTS, WORDS};
use counted_io::Counted;
use large_command::command;
use spanprof_command::Status;
use std::alloc::{AllocGlobal, Global};
use std::process::Abort;
use std::test::Fail;
use std::thread::Threads;
use task_program::name_key::NameKey;

/// The words of a command line.
fn words_of(alloc: Global, command: &str, words: &[&str]) -> Result<Vec<String>, Fail> {
    let mut list = Vec::new(alloc);
    list.push(String::from_str(alloc, "spanprof_large")?)?;
    list.push(String::from_str(alloc, command)?)?;
    for word in words {
        list.push(String::from_str(alloc, word)?)?;
    }
    Ok(list)
}

/// Whether `account` with these words gives this text and status on a document.
fn gives<H: AllocGlobal + Threads + Sync>(
    rt: &H,
    words: &[&str],
    document: &str,
    text: &str,
    status: Status,
) -> Result<bool, Fail> {
    command_gives(rt, "account", words, document, text, status)
}

/// The same of any command.
fn command_gives<H: AllocGlobal + Threads + Sync>(
    rt: &H,
    asked: &str,
    words: &[&str],
    document: &str,
    text: &str,
    status: Status,
) -> Result<bool, Fail> {
    let alloc = rt.alloc();
    let words = words_of(alloc, asked, words)?;
    let mut reader = Counted::new(document.as_bytes());
    let mut writer = Counted::new(Vec::new(alloc));
    let got = command(
        rt,
        NameKey::fixed(),
        words.as_slice(),
        &mut reader,
        &mut writer,
    );
    Ok(got == status && writer.into_inner().as_slice() == text.as_bytes())
}

#[test]
fn reports(rt: HostRuntime) -> Result<(), Fail> {
    for (words, text) in REPORTS {
        let document = format!(in rt.alloc();
            "{BEGUN}times 2 0 14\n0 0 0 5\n1 0 6 9\n2 0 9 11\n3 1 12 13\n"
        )?;
        assert!(&rt;
            gives(&rt, words, document.as_str(), text, Status::Done)?,
            "{text}"
        );
    }
    Ok(())
}

#[test]
fn faults(rt: HostRuntime) -> Result<(), Fail> {
    for (lines, fault) in FAULTS {
        let document = format!(in rt.alloc(); "{BEGUN}{lines}")?;
        let text = format!(in rt.alloc(); "error: {fault}\n")?;
        assert!(&rt;
            gives(&rt, &[], document.as_str(), text.as_str(), Status::Refused)?,
            "{fault}"
        );
    }
    Ok(())
}

#[test]
fn no_divider(rt: HostRuntime) -> Result<(), Fail> {
    let text = "error: BadForm\n";
    assert!(&rt; gives(&rt, &[], "omptasks 1\nwork 1\n", text, Status::Refused)?);
    Ok(())
}

#[test]
fn no_program(rt: HostRuntime) -> Result<(), Fail> {
    let text = "error: line 2: Unclosed\n";
    let document = "omptasks 1\ntask {\n---\ntimes 0 0 0\n";
    assert!(&rt; gives(&rt, &["--rows"], document, text, Status::Refused)?);
    Ok(())
}

#[test]
fn wrong_words(rt: HostRuntime) -> Result<(), Fail> {
    for words in WORDS {
        let text = "error: wrong words\n";
        assert!(&rt; gives(&rt, words, "", text, Status::Usage)?, "{text}");
    }
    Ok(())
}
