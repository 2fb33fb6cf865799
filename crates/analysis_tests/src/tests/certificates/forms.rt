//! Documents of other forms, and the worked certificate cut short.
use super::{ACCEPTED, Answer, answer_to, assert_answer, assert_claims, worked};
use span_cert::{CheckFault, Checked};
use std::alloc::Global;
use std::process::Abort;
use std::test::Fail;
use std::thread::Threads;
use task_program::fault::{ReadFault, ReadKind};

const OTHER_FORMS: &[&str] = &[
    "",
    "end\n",
    "end 9\n",
    "end 9 start 0 0 start 1 5 start 2 5 start 3 8",
    "end 9 start 0 0 start 1 5 start 2 5 start 3 8 chain",
    "end 9 end 9 start 0 0 start 1 5 start 2 5 start 3 8 chain 0 1 3",
    "---\nend 9 start 0 0 start 1 5 start 2 5 start 3 8 chain 0 1 3",
    "start 0 0 start 1 5 start 2 5 start 3 8 end 9 chain 0 1 3",
    "end 9 chain 0 1 3 start 0 0 start 1 5 start 2 5 start 3 8",
    "end 9 start 0 0 start 1 5 start 2 5 start 3 8 chain 0 chain 1 3",
    "end 9 start 0 start 1 5 start 2 5 start 3 8 chain 0 1 3",
    "end 9 start 0 0 0 start 1 5 start 2 5 start 3 8 chain 0 1 3",
    "end 9 start 0 0 start 1 5 start 2 5 start 3 8 chain 0 1 3 # no comments",
    "end 9 start 0 0 start 1 5 start 2 5 start 3 8 chain 0, 1, 3",
    "end 9 start 0 -0 start 1 5 start 2 5 start 3 8 chain 0 1 3",
    "End 9 start 0 0 start 1 5 start 2 5 start 3 8 chain 0 1 3",
    "end 9 start 0 0 start 1 5 start 2 5 start 3 8 chain 0 1 99999999999999999999",
];

#[test]
fn claims_have_one_form(rt: HostRuntime) -> Result<(), Fail> {
    assert_claims(&rt, rt.alloc(), OTHER_FORMS, Err(CheckFault::BadForm))
}

const SAME_CLAIMS: &[&str] = &[
    "end 9 start 0 0 start 1 5 start 2 5 start 3 8 chain 0 1 3",
    "\t end\r\n0009  start 0 0 start 1 5\tstart 002 5 start 3 8\r\nchain 0 1 3 \n",
];

#[test]
fn blanks_and_leading_zeros_do_not_count(rt: HostRuntime) -> Result<(), Fail> {
    assert_claims(&rt, rt.alloc(), SAME_CLAIMS, ACCEPTED)
}

/// Asserts what is answered for a claim of so many blanks and 23 bytes.
fn assert_blanks(
    rt: &(impl Threads + Abort + Sync),
    alloc: Global,
    blanks: usize,
    wanted: Answer,
) -> Result<(), Fail> {
    let mut text = Vec::new(alloc);
    text.extend_from_slice(b"omptasks 1\n---\n")?;
    text.extend_from_slice(&vec![in alloc; b' '; blanks]?)?;
    text.extend_from_slice(b"end 0 start 0 0 chain 0")?;
    assert_eq!(rt; answer_to(rt, alloc, &text), wanted, "{blanks} blanks");
    Ok(())
}

/// A claim may have 4,194,304 bytes.
#[test]
fn claims_have_a_greatest_length(rt: HostRuntime) -> Result<(), Fail> {
    let holds = Ok(Checked {
        segments: 1,
        ends_at: 0,
    });
    assert_blanks(&rt, rt.alloc(), 4_194_304 - 23, holds)?;
    assert_blanks(&rt, rt.alloc(), 4_194_305 - 23, Err(CheckFault::BadForm))
}

/// By how many bytes the worked certificate is cut short, and what is answered.
const CUT_SHORT: &[(usize, Answer)] = &[
    // without the last LF, after `chain 0 1`, after `chain`, after `end 9`
    (1, ACCEPTED),
    (3, Err(CheckFault::ChainSum)),
    (7, Err(CheckFault::BadForm)),
    (52, Err(CheckFault::BadForm)),
    // after `---`, after `--`, before `---`, after `task {`
    (58, Err(CheckFault::BadForm)),
    (
        60,
        Err(CheckFault::BadProgram(ReadFault {
            kind: ReadKind::BadByte,
            line: 9,
        })),
    ),
    (62, Err(CheckFault::BadForm)),
    (
        62 + 32,
        Err(CheckFault::BadProgram(ReadFault {
            kind: ReadKind::Unclosed,
            line: 3,
        })),
    ),
];

/// Asserts what is answered for a document without so many of its bytes.
fn assert_cut_short(
    rt: &(impl Threads + Abort + Sync),
    alloc: Global,
    document: &[u8],
    less: usize,
    wanted: Answer,
) {
    let kept = document.len().saturating_sub(less);
    assert_eq!(rt;
        answer_to(rt, alloc, &document[..kept]),
        wanted,
        "{less} bytes less"
    );
}

/// The worked certificate as far as it goes, and no claim on a program that is none.
#[test]
fn certificates_cut_short(rt: HostRuntime) -> Result<(), Fail> {
    let text = worked(rt.alloc())?;
    for (less, wanted) in CUT_SHORT {
        assert_cut_short(&rt, rt.alloc(), text.as_bytes(), *less, *wanted);
    }
    Ok(())
}

/// A document, and what is answered.
const DOCUMENTS: &[(&str, Answer)] = &[
    (
        "omptasks 3\nwork 5\ntask {\nwork 3\n}\nwork 2\ntaskwait\nwork 1\n---\nend 9\n\
            start 0 0\nstart 1 5\nstart 2 5\nstart 3 8\nchain 0 1 3\n",
        Err(CheckFault::BadProgram(ReadFault {
            kind: ReadKind::BadHeader,
            line: 1,
        })),
    ),
    (
        "omptasks 3\n---\nend 9",
        Err(CheckFault::BadProgram(ReadFault {
            kind: ReadKind::BadHeader,
            line: 1,
        })),
    ),
    (
        "",
        Err(CheckFault::BadProgram(ReadFault {
            kind: ReadKind::BadHeader,
            line: 1,
        })),
    ),
    (
        "omptasks 1\ntask {\n---\nend",
        Err(CheckFault::BadProgram(ReadFault {
            kind: ReadKind::Unclosed,
            line: 2,
        })),
    ),
    ("omptasks 1\n", Err(CheckFault::BadForm)),
];

/// The fault of the program comes before all that is wrong with the claim.
#[test]
fn programs_come_first(rt: HostRuntime) -> Result<(), Fail> {
    for (text, wanted) in DOCUMENTS {
        assert_answer(&rt, rt.alloc(), text, *wanted);
    }
    Ok(())
}
