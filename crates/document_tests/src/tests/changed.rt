//! A program with a changed one behind it.

use super::command_gives;
use spanprof_command::Status;
use std::process::Abort;
use std::test::Fail;

/// Programs, and others that wait for no more: a wait that is dropped, an undeferred task that is
/// deferred, dependences that are dropped, `in` for `inout`, and a wait for children alone.
const RELAXED: &[(&str, &str)] = &[
    (
        "task { work 3 } work 2 taskwait work 1",
        "task { work 3 } work 2 taskgroup { } work 1",
    ),
    ("task if(0) { work 3 } work 2", "task { work 3 } work 2"),
    (
        "task depend(out: a, b) { work 3 } task depend(inout: a) { work 2 } taskwait",
        "task depend(out: x) { work 3 } task { work 2 } taskwait",
    ),
    (
        "task depend(inout: a) { work 3 } task depend(inout: a) { work 2 }",
        "task depend(in: a) { work 3 } task depend(in: a) { work 2 }",
    ),
    (
        "taskgroup { task { task { work 3 } } }",
        "task { task { work 3 } } taskwait",
    ),
];

const OLD: &str = "omptasks 1\ntask { work 3 } work 2 taskwait work 1\n";

/// Changed programs, and what is reported of each. The segments of the old one have costs 0, 3, 2 and
/// 1, and 3 waits for 1.
const REFUSED: &[(&str, &str)] = &[
    (
        "omptasks 1\ntask { work 3 } work 2 work 1\n",
        "error: WrongCount\n",
    ),
    (
        "omptasks 1\ntask { work 3 } work 4 taskwait work 1\n",
        "error: OtherSegment 2\n",
    ),
    (
        "omptasks 1\ntask if(0) { work 3 } work 2 taskwait work 1\n",
        "error: NewPair 1 2\n",
    ),
    ("omptasks 1\ntask {\n", "error: line 5: Unclosed\n"),
    ("", "error: line 4: BadHeader\n"),
];

#[test]
fn less_to_wait_for(rt: HostRuntime) -> Result<(), Fail> {
    for (old, new) in RELAXED {
        let document = format!(in rt.alloc(); "omptasks 1\n{old}\n---\nomptasks 1\n{new}\n")?;
        let text = "accepted\n";
        assert!(&rt;
            command_gives(
                &rt,
                "relaxation",
                &[],
                document.as_str(),
                text,
                Status::Done
            )?,
            "{new}"
        );
    }
    Ok(())
}

#[test]
fn refused(rt: HostRuntime) -> Result<(), Fail> {
    for (new, text) in REFUSED {
        let document = format!(in rt.alloc(); "{OLD}---\n{new}")?;
        assert!(&rt;
            command_gives(
                &rt,
                "relaxation",
                &[],
                document.as_str(),
                text,
                Status::Refused
            )?,
            "{text}"
        );
    }
    Ok(())
}

#[test]
fn no_divider(rt: HostRuntime) -> Result<(), Fail> {
    let text = "error: BadForm\n";
    assert!(&rt; command_gives(&rt, "relaxation", &[], OLD, text, Status::Refused)?);
    Ok(())
}
