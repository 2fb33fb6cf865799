//! Texts of very many bytes.
use super::{fault_of, shown, zeros};
use std::alloc::Global;
use std::process::Abort;
use std::test::Fail;
use task_program::AllocFault;
use task_program::fault::ReadKind;

/// A byte, how many of it, the fault, and the line.
const OF_ONE_BYTE: &[(u8, usize, ReadKind, u32)] = &[
    (b' ', 4_194_304, ReadKind::BadHeader, 1),
    (b' ', 4_194_305, ReadKind::TooLong, 1),
    (b'\n', 4_194_304, ReadKind::BadHeader, 4_194_305),
    (b'\n', 4_194_305, ReadKind::TooLong, 1),
    (b';', 4_194_304, ReadKind::BadByte, 1),
    (b';', 4_194_305, ReadKind::TooLong, 1),
    (b'0', 1_048_576, ReadKind::BadHeader, 1),
    (b'0', 1_048_577, ReadKind::TooLong, 1),
];

/// Asserts the fault of a text of so many of one byte.
fn assert_of_one_byte(
    rt: &impl Abort,
    alloc: Global,
    byte: u8,
    count: usize,
    wanted: (ReadKind, u32),
) -> Result<(), Fail> {
    let text = vec![in alloc; byte; count]?;
    assert_eq!(rt; fault_of(alloc, &text), Some(wanted), "{count} of {byte}");
    Ok(())
}

#[test]
fn bytes_of_a_text(rt: HostRuntime) -> Result<(), Fail> {
    for (byte, count, kind, line) in OF_ONE_BYTE {
        assert_of_one_byte(&rt, rt.alloc(), *byte, *count, (*kind, *line))?;
    }
    Ok(())
}

/// A `work` of value 0 and so many digits, and what follows.
fn work_of_zeros(alloc: Global, count: u32, after: &str) -> Result<String, AllocFault> {
    zeros(alloc, "omptasks 1\nwork ", count, after)
}

/// How many zeros, what follows them, and the fault with its line.
const OF_ZEROS: &[(u32, &str, Option<(ReadKind, u32)>)] = &[
    (1_048_563, "\n # more\n ", None),
    (1_048_564, "", Some((ReadKind::TooLong, 2))),
    (1_048_564, "x", Some((ReadKind::BadNumber, 2))),
    (1_048_563, "\n}", Some((ReadKind::TooLong, 3))),
    (1_048_563, "\ntaskw", Some((ReadKind::TooLong, 3))),
    (1_048_563, "\n;", Some((ReadKind::BadByte, 3))),
    (1_048_563, "\n1x", Some((ReadKind::BadNumber, 3))),
    (
        1_048_563,
        "\na2345678901234567890123456789012",
        Some((ReadKind::BadWord, 3)),
    ),
    (1_048_562, "\n}", Some((ReadKind::Unopened, 3))),
];

/// Asserts the fault of a `work` of so many zeros, and of what follows.
fn assert_zeros(
    rt: &impl Abort,
    alloc: Global,
    count: u32,
    after: &str,
    wanted: Option<(ReadKind, u32)>,
) -> Result<(), Fail> {
    let text = work_of_zeros(alloc, count, after)?;
    assert_eq!(rt; fault_of(alloc, text.as_bytes()), wanted, "{count}{after}");
    Ok(())
}

/// The header, the word `work` and the zeros are just as many bytes as the tokens may have.
#[test]
fn bytes_of_the_tokens(rt: HostRuntime) -> Result<(), Fail> {
    let most = work_of_zeros(rt.alloc(), 1_048_563, "")?;
    assert_eq!(rt;
        shown(rt.alloc(), most.as_bytes())?.as_slice(),
        b"omptasks 1\nwork 0\n".as_slice()
    );
    for (count, after, wanted) in OF_ZEROS {
        assert_zeros(&rt, rt.alloc(), *count, after, *wanted)?;
    }
    Ok(())
}
