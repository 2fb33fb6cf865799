//! Documents in their two parts, and the words and numbers of what follows a program text.
use std::test::*;
use task_program::document::split_document;
use task_program::plain_words::{is_blank, read_number};

/// The program of a document, and what follows it.
fn parts_of(document: &[u8]) -> (&[u8], Option<&[u8]>) {
    let parts = split_document(document);
    (parts.program, parts.rest)
}

/// A document, its program, and what follows it.
const DOCUMENTS: &[(&[u8], &[u8], Option<&[u8]>)] = &[
    (b"", b"", None),
    (b"omptasks 1\n", b"omptasks 1\n", None),
    (
        b"omptasks 1\n---\nstart 0 0\n",
        b"omptasks 1\n",
        Some(b"start 0 0\n"),
    ),
    (
        b"omptasks 1\r\n---\r\nstart 0 0\r\n",
        b"omptasks 1\r\n",
        Some(b"start 0 0\r\n"),
    ),
    (b"a\n---", b"a\n", Some(b"")),
    (b"a\n---\r", b"a\n", Some(b"")),
    (b"a\n---\n", b"a\n", Some(b"")),
    (b"---\nb", b"", Some(b"b")),
    (b"a\n---\nb\n---\nc", b"a\n", Some(b"b\n---\nc")),
    (b"a\n----\nb", b"a\n----\nb", None),
    (b"a\n--- \nb", b"a\n--- \nb", None),
    (b"a\n ---\nb", b"a\n ---\nb", None),
    (b"a\n---\r\r\nb", b"a\n---\r\r\nb", None),
];

#[test]
fn documents_split(rt: HostRuntime) {
    for (document, program, rest) in DOCUMENTS {
        assert_eq!(rt; parts_of(*document), (*program, *rest));
    }
}

/// A word, and its number up to 2^32 - 1.
const NUMBERS: &[(&[u8], Option<u64>)] = &[
    (b"0", Some(0)),
    (b"00042", Some(42)),
    (b"4294967295", Some(4_294_967_295)),
    (b"4294967296", None),
    (b"99999999999999999999999999", None),
    (b"", None),
    (b"7x", None),
    (b"-1", None),
];

/// A word, and its number up to 10^18.
const LARGE_NUMBERS: &[(&[u8], Option<u64>)] = &[
    (b"1000000000000000000", Some(1_000_000_000_000_000_000)),
    (b"1000000000000000001", None),
];

#[test]
fn numbers_read(rt: HostRuntime) {
    for (word, number) in NUMBERS {
        assert_eq!(rt; read_number(*word, 4_294_967_295), *number);
    }
    for (word, number) in LARGE_NUMBERS {
        assert_eq!(rt; read_number(*word, 1_000_000_000_000_000_000), *number);
    }
    assert!(rt; is_blank(b' ') && is_blank(b'\r') && !is_blank(b'_'));
}
