//! Certificates that are written, changed, tampered with and cut short.

use super::examples::{WORKED, WORKED_BEGUN};
use super::{all_give, gives};
use spanprof_command::Status;
use std::test::Fail;

const CHECK: [&str; 2] = ["spanprof", "check"];

const ACCEPTED: &str = "accepted\nsegments 4\nend 9\n";

/// A claim, and the report.
const CHANGED_CLAIMS: &[(&str, &str)] = &[
    (
        "end 9\nstart 0 0 start 1 5 start 2 5 start 3 7\nchain 0 1 3\n",
        "error: Broken 1 3\n",
    ),
    (
        "end 10\nstart 0 0 start 1 5 start 2 5 start 3 8\nchain 0 1 3\n",
        "error: EndWrong\n",
    ),
    (
        "end 9\nstart 0 0 start 1 5 start 2 5 start 3 9\nchain 0 1 3\n",
        "error: EndWrong\n",
    ),
    (
        "end 9\nstart 0 0 start 1 5 start 2 5 start 3 8\nchain 0 3\n",
        "error: ChainStep 0 3\n",
    ),
    (
        "end 9\nstart 0 0 start 1 5 start 2 5 start 3 8\nchain 0 2 3\n",
        "error: ChainSum\n",
    ),
    (
        "end 9\nstart 0 0 start 1 5 start 2 5 start 3 8\nchain 1 3\n",
        "error: ChainSum\n",
    ),
    (
        "end 9\nstart 0 0 start 1 5 start 2 5 start 3 8\nchain 0 1 4\n",
        "error: WrongCount\n",
    ),
    (
        "end 9\nstart 0 0 start 1 5 start 3 8\nchain 0 1 3\n",
        "error: WrongCount\n",
    ),
    (
        "end 9\nstart 0 0 start 1 5 start 2 5 start 3 8 start 3 8\nchain 0 1 3\n",
        "error: WrongCount\n",
    ),
    (
        "end 9\nstart 0 0 start 1 0 start 2 5 start 3 8\nchain 0 1 3\n",
        "error: Broken 0 1\n",
    ),
    (
        "end 9\nstart 0 1 start 1 5 start 2 5 start 3 8\nchain 0 1 3\n",
        "error: Broken 0 1\n",
    ),
    (
        "end 9\nstart 0 0 start 1 5 start 2 7 start 3 8\nchain 0 1 3\n",
        "error: Broken 2 3\n",
    ),
    (
        "end 9 end 9\nstart 0 0 start 1 5 start 2 5 start 3 8\nchain 0 1 3\n",
        "error: BadForm\n",
    ),
    (
        "end 9\n--- start 0 0 start 1 5 start 2 5 start 3 8\nchain 0 1 3\n",
        "error: BadForm\n",
    ),
    (
        "end 9\nstart 0 0 start 1 5 start 2 5 start 3 1000000000000000000\nchain 0 1 3\n",
        "error: EndWrong\n",
    ),
    (
        "end 9\nstart 0 0 start 1 5 start 2 5 start 3 1000000000000000001\nchain 0 1 3\n",
        "error: BadForm\n",
    ),
];

/// Each with a change in the claim.
#[test]
fn changed_claims(rt: HostRuntime) -> Result<(), Fail> {
    all_give(&rt, &CHECK, WORKED_BEGUN, CHANGED_CLAIMS, Status::Refused)?;
    // A legal schedule that is not the earliest.
    let later = "end 9 start 0 0 start 1 5 start 2 6 start 3 8 chain 0 1 3";
    all_give(
        &rt,
        &CHECK,
        WORKED_BEGUN,
        &[(later, ACCEPTED)],
        Status::Done,
    )?;
    Ok(())
}

/// What is left of a certificate, and the report.
const CUT_CERTIFICATES: &[(&str, &str)] = &[
    (
        "---\nend 9\nstart 0 0\nstart 1 5\nstart 2 5\nstart 3 8\nchain 0 1",
        "error: ChainSum\n",
    ),
    (
        "---\nend 9\nstart 0 0\nstart 1 5\nstart 2 5\nstart 3 8\nchain",
        "error: BadForm\n",
    ),
    ("---\nend 9", "error: BadForm\n"),
    ("--", "error: line 9: BadByte\n"),
    ("", "error: BadForm\n"),
];

/// What is left of it, after the program or within.
#[test]
fn cut_certificates(rt: HostRuntime) -> Result<(), Fail> {
    let program = "omptasks 1\nwork 5\ntask {\nwork 3\n}\nwork 2\ntaskwait\nwork 1\n";
    let whole = "---\nend 9\nstart 0 0\nstart 1 5\nstart 2 5\nstart 3 8\nchain 0 1 3";
    all_give(&rt, &CHECK, program, &[(whole, ACCEPTED)], Status::Done)?;
    all_give(&rt, &CHECK, program, CUT_CERTIFICATES, Status::Refused)?;
    let begun = [("omptasks 1\nwork 5\ntask {", "error: line 3: Unclosed\n")];
    all_give(&rt, &CHECK, "", &begun, Status::Refused)?;
    Ok(())
}

/// A document, and the report.
const REFUSED_PROGRAMS: &[(&str, &str)] = &[
    ("omptasks 3\n---\nend", "error: line 1: BadHeader\n"),
    (
        "omptasks 1\n}\n---\nend 0 start 0 0 chain 0\n",
        "error: line 2: Unopened\n",
    ),
    (WORKED, "error: BadForm\n"),
];

/// The program's own fault comes first.
#[test]
fn refused_programs(rt: HostRuntime) -> Result<(), Fail> {
    all_give(&rt, &CHECK, "", REFUSED_PROGRAMS, Status::Refused)?;
    Ok(())
}

/// One empty segment.
#[test]
fn least_certificate(rt: HostRuntime) -> Result<(), Fail> {
    let words = ["spanprof", "certify"];
    let certificate = "omptasks 1\n---\nend 0\nstart 0 0\nchain 0\n";
    assert!(rt; gives(&rt, &words, "omptasks 1", certificate, Status::Done)?);
    let accepted = "accepted\nsegments 1\nend 0\n";
    assert!(rt; gives(&rt, &CHECK, certificate, accepted, Status::Done)?);
    let line = "error: line 2: Unclosed\n";
    assert!(rt; gives(&rt, &words, "omptasks 1\ntask {", line, Status::Refused)?);
    Ok(())
}
