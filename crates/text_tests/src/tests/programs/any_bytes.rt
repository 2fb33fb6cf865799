//! Any bytes get their fault.
use super::{fault_of, shown};
use std::alloc::Global;
use std::process::Abort;
use std::test::Fail;
use task_program::AllocFault;
use task_program::fault::ReadKind;

/// This text with a byte between its halves.
fn with_byte(alloc: Global, before: &[u8], byte: u8, after: &[u8]) -> Result<Vec<u8>, AllocFault> {
    let mut text = Vec::new(alloc);
    text.extend_from_slice(before)?;
    text.push(byte)?;
    text.extend_from_slice(after)?;
    Ok(text)
}

/// Asserts the fault of this text with a byte between its halves, and its line.
fn assert_with_byte(
    rt: &impl Abort,
    alloc: Global,
    halves: (&[u8], &[u8]),
    byte: u8,
    wanted: Option<(ReadKind, u32)>,
) -> Result<(), Fail> {
    let text = with_byte(alloc, halves.0, byte, halves.1)?;
    assert_eq!(rt; fault_of(alloc, &text), wanted, "byte {byte}");
    Ok(())
}

/// What a single byte is where a statement may stand.
fn fault_of_byte(byte: u8) -> Option<ReadKind> {
    match byte {
        b' ' | b'\t' | b'\r' | b'\n' | b'#' => None,
        b'}' => Some(ReadKind::Unopened),
        b'(' | b')' | b'{' | b':' | b',' | b'_' => Some(ReadKind::BadWord),
        b'0'..=b'9' | b'a'..=b'z' | b'A'..=b'Z' => Some(ReadKind::BadWord),
        _ => Some(ReadKind::BadByte),
    }
}

#[test]
fn each_byte_after_the_header(rt: HostRuntime) -> Result<(), Fail> {
    for byte in 0..=255u8 {
        let wanted = fault_of_byte(byte).map(|kind| (kind, 2));
        assert_with_byte(&rt, rt.alloc(), (b"omptasks 1\n", b""), byte, wanted)?;
    }
    Ok(())
}

#[test]
fn each_byte_in_a_comment(rt: HostRuntime) -> Result<(), Fail> {
    for byte in 0..=255u8 {
        let wanted = if byte == b'\n' {
            Some((ReadKind::Unopened, 2))
        } else {
            None
        };
        assert_with_byte(&rt, rt.alloc(), (b"omptasks 1 # ", b" }"), byte, wanted)?;
    }
    Ok(())
}

/// What a byte between two statements is: a blank parts them, a letter or a digit joins them.
fn fault_between(byte: u8) -> Option<(ReadKind, u32)> {
    match byte {
        b' ' | b'\t' | b'\r' | b'\n' | b'#' => None,
        b'0'..=b'9' | b'a'..=b'z' | b'A'..=b'Z' | b'_' => Some((ReadKind::BadNumber, 1)),
        b'}' => Some((ReadKind::Unopened, 1)),
        b'(' | b')' | b'{' | b':' | b',' => Some((ReadKind::BadWord, 1)),
        _ => Some((ReadKind::BadByte, 1)),
    }
}

#[test]
fn each_byte_between_tokens(rt: HostRuntime) -> Result<(), Fail> {
    for byte in 0..=255u8 {
        assert_with_byte(
            &rt,
            rt.alloc(),
            (b"omptasks 1 work 1", b"taskwait"),
            byte,
            fault_between(byte),
        )?;
    }
    Ok(())
}

/// A text, its fault, and the line.
const NO_TEXTS: &[(&[u8], ReadKind, u32)] = &[
    (b"\xff\xfe", ReadKind::BadByte, 1),
    (
        b"omptasks 1\ntask depend(in: caf\xc3\xa9) { }",
        ReadKind::BadByte,
        2,
    ),
    (b"omptasks 1\nwork \x00", ReadKind::BadByte, 2),
    (b"\xef\xbb\xbfomptasks 1", ReadKind::BadByte, 1),
    (b"omptasks 1\nwork 1\x0bwork 2", ReadKind::BadByte, 2),
];

#[test]
fn not_a_text(rt: HostRuntime) -> Result<(), Fail> {
    for (text, kind, line) in NO_TEXTS {
        assert_eq!(rt; fault_of(rt.alloc(), *text), Some((*kind, *line)));
    }
    let text = b"omptasks\t1\r\n# \xff\x00}\nwork\t7#\xfe\r\n\r\ntaskwait\r";
    assert_eq!(rt;
        shown(rt.alloc(), text)?.as_slice(),
        b"omptasks 1\nwork 7\ntaskwait\n".as_slice()
    );
    Ok(())
}
