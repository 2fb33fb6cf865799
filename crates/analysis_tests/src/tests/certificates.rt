//! Worked certificates, changed in one place each, and cut short.
use span_cert::{CheckFault, Checked, check};
use std::alloc::Global;
use std::process::Abort;
use std::test::Fail;
use std::thread::Threads;

mod changed;
mod forms;
mod relation;
mod written;

/// The worked certificate, in the lines of its program, its schedule and its chain.
const PROGRAM: &str = "omptasks 1\nwork 5\ntask {\nwork 3\n}\nwork 2\ntaskwait\nwork 1\n";

const SCHEDULE: &str = "end 9\nstart 0 0\nstart 1 5\nstart 2 5\nstart 3 8\n";

const CHAIN: &str = "chain 0 1 3\n";

/// The worked certificate, with this claim after its divider.
fn document(alloc: Global, claim: &str) -> Result<String, Fail> {
    Ok(format!(in alloc; "{PROGRAM}---\n{claim}")?)
}

/// The worked certificate.
fn worked(alloc: Global) -> Result<String, Fail> {
    Ok(format!(in alloc; "{PROGRAM}---\n{SCHEDULE}{CHAIN}")?)
}

/// What `check` answers.
type Answer = Result<Checked, CheckFault>;

fn answer_to(rt: &(impl Threads + Sync), alloc: Global, document: &[u8]) -> Answer {
    check(rt, alloc, document)
}

/// What `check` answers for the worked certificate.
const ACCEPTED: Answer = Ok(Checked {
    segments: 4,
    ends_at: 9,
});

/// Asserts what `check` answers for a document.
fn assert_answer(
    rt: &(impl Threads + Abort + Sync),
    alloc: Global,
    document: &str,
    wanted: Answer,
) {
    assert_eq!(rt;
        answer_to(rt, alloc, document.as_bytes()),
        wanted,
        "{document}"
    );
}

/// Asserts what `check` answers for the worked program with this claim.
fn assert_claim(
    rt: &(impl Threads + Abort + Sync),
    alloc: Global,
    claim: &str,
    wanted: Answer,
) -> Result<(), Fail> {
    let text = document(alloc, claim)?;
    assert_answer(rt, alloc, text.as_str(), wanted);
    Ok(())
}

/// Asserts that `check` answers the same for the worked program with each of these claims.
fn assert_claims(
    rt: &(impl Threads + Abort + Sync),
    alloc: Global,
    claims: &[&str],
    wanted: Answer,
) -> Result<(), Fail> {
    for claim in claims {
        assert_claim(rt, alloc, claim, wanted)?;
    }
    Ok(())
}

#[test]
fn worked_certificates_hold(rt: HostRuntime) -> Result<(), Fail> {
    let alloc = rt.alloc();
    let text = worked(alloc)?;
    assert_answer(&rt, alloc, text.as_str(), ACCEPTED);
    let empty = "omptasks 1\n---\nend 0\nstart 0 0\nchain 0\n";
    assert_answer(
        &rt,
        alloc,
        empty,
        Ok(Checked {
            segments: 1,
            ends_at: 0,
        }),
    );
    Ok(())
}
