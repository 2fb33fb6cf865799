//! Certificates of the worked program, by hand, and of a program of three tasks that depend on each
//! other, of which the first and the last are no kept pair.
use crate::tests::command_gives;
use spanprof_command::Status;
use std::process::Abort;
use std::test::Fail;

/// The worked program and the divider.
const PROGRAM: &str = "omptasks 1\nwork 5 task { work 3 } work 2 taskwait work 1\n---\n";

/// Segments 1, 3 and 5 are those of the tasks.
const THREE: &str = "omptasks 1\ntask depend(out: x) { work 1 }\ntask depend(out: x) { work 1 }\n\
                     task depend(out: x) { work 1 }\n---\n";

/// A program, a claim, and what is wrong with it.
const REFUSED: &[(&str, &str, &str)] = &[
    (PROGRAM, "", "BadForm"),
    (
        PROGRAM,
        "end 9 start 0 0 start 1 5 start 2 5 start 3 8 chain",
        "BadForm",
    ),
    (
        PROGRAM,
        "end 9 start 0 0 start 1 5 start 2 5 chain 0 1 3",
        "WrongCount",
    ),
    (
        PROGRAM,
        "end 9 start 0 0 start 1 5 start 2 5 start 3 8 chain 0 1 4",
        "WrongCount",
    ),
    (
        PROGRAM,
        "end 9 start 0 0 start 1 5 start 2 4 start 3 7 chain 0 1 3",
        "Broken 0 2",
    ),
    (
        THREE,
        "end 3 start 0 0 start 1 0 start 2 0 start 3 1 start 4 0 start 5 0 start 6 0 chain 1",
        "Broken 1 5",
    ),
    (
        PROGRAM,
        "end 8 start 0 0 start 1 5 start 2 5 start 3 8 chain 0 1 3",
        "EndWrong",
    ),
    (
        PROGRAM,
        "end 9 start 0 0 start 1 5 start 2 5 start 3 8 chain 0 3",
        "ChainStep 0 3",
    ),
    (
        PROGRAM,
        "end 9 start 0 0 start 1 5 start 2 5 start 3 8 chain 0 2 3",
        "ChainSum",
    ),
];

#[test]
fn accepted(rt: HostRuntime) -> Result<(), Fail> {
    let claim = "end 9\nstart 0 0\nstart 1 5\nstart 2 5\nstart 3 8\nchain 0 1 3\n";
    let document = format!(in rt.alloc(); "{PROGRAM}{claim}")?;
    let text = "accepted\nsegments 4\nend 9\n";
    assert!(&rt; command_gives(&rt, "check", &[], document.as_str(), text, Status::Done)?);
    Ok(())
}

#[test]
fn refused(rt: HostRuntime) -> Result<(), Fail> {
    for (program, claim, fault) in REFUSED {
        let document = format!(in rt.alloc(); "{program}{claim}\n")?;
        let text = format!(in rt.alloc(); "error: {fault}\n")?;
        assert!(&rt;
            command_gives(
                &rt,
                "check",
                &[],
                document.as_str(),
                text.as_str(),
                Status::Refused
            )?,
            "{fault}"
        );
    }
    Ok(())
}
