//! Texts of version 2: what they are read as, and what is wrong with them.
use super::{assert_fault, assert_named, assert_names, assert_shown, zeros};
use std::alloc::Global;
use std::process::Abort;
use std::test::Fail;
use task_program::AllocFault;
use task_program::fault::ReadKind;
use task_program::read::read_program;

/// A body on the line after the header.
fn with_header(alloc: Global, body: &str) -> Result<String, AllocFault> {
    let mut text = String::from_str(alloc, "omptasks 2\n")?;
    text.push_str(body)?;
    Ok(text)
}

/// Asserts that this is the fault of a body on the line after the header; none where the text is a
/// program.
fn assert_body(
    rt: &impl Abort,
    alloc: Global,
    body: &str,
    wanted: Option<(ReadKind, u32)>,
) -> Result<(), Fail> {
    let text = with_header(alloc, body)?;
    assert_fault(rt, alloc, text.as_str(), wanted);
    Ok(())
}

/// A body, and the canonical text after its header.
const SHOWN: &[(&str, &str)] = &[
    (
        "for i 1 3 { task depend(in: x[i-1]) depend(out: x[i]) { work 2 } }",
        "task depend(in: x[0]) depend(out: x[1]) {\nwork 2\n}\n\
        task depend(in: x[1]) depend(out: x[2]) {\nwork 2\n}\n\
        task depend(in: x[2]) depend(out: x[3]) {\nwork 2\n}\n",
    ),
    ("for i 3 1 { work 5 }", ""),
    ("for i 0 65535 { }", ""),
    ("", ""),
    (
        "task final(1) { task { work 3 } work 1 } work 2",
        "task {\ntask if(0) {\nwork 3\n}\nwork 1\n}\nwork 2\n",
    ),
    (
        "task final(0) { task { work 3 } work 1 } work 2",
        "task {\ntask {\nwork 3\n}\nwork 1\n}\nwork 2\n",
    ),
    (
        "task final(1) { task if(1) { task { work 1 } work 1 } work 1 }",
        "task {\ntask if(0) {\ntask if(0) {\nwork 1\n}\nwork 1\n}\nwork 1\n}\n",
    ),
    (
        "task if(1) final(1) depend(out: x[-1]) { }",
        "task depend(out: x[-1]) {\n}\n",
    ),
    (
        "task depend(in: x, x[0], x[-0], x[007]) { }",
        "task depend(in: x, x[0], x[0], x[7]) {\n}\n",
    ),
    (
        "for i 1 1 { task { for j 2 3 { task depend(in: x[i+10], y[j], x[j-5]) { } } } }",
        "task {\ntask depend(in: x[11], y[2], x[-3]) {\n}\ntask depend(in: x[11], y[3], x[-2]) {\n\
        }\n}\n",
    ),
    ("for i 1 0 { task depend(in: x[9999999]) { } work 1 }", ""),
    (
        "for for 1 2 { taskgroup { taskwait } } for for 0 0 { task depend(in: a[for]) { } }",
        "taskgroup {\ntaskwait\n}\ntaskgroup {\ntaskwait\n}\ntask depend(in: a[0]) {\n}\n",
    ),
];

/// A body, its fault, and the line.
const REFUSED: &[(&str, ReadKind, u32)] = &[
    ("for i 0 65536 { }", ReadKind::TooManyTurns, 2),
    (
        "for i 1 256\n{ for j 1 256 { } }",
        ReadKind::TooManyTurns,
        3,
    ),
    ("for i 1 4097 { task { } }", ReadKind::TooManyTasks, 2),
    ("for i 1 16384 { taskwait }", ReadKind::TooManySegments, 2),
    (
        "for i 1 40 { work 1000000000000 } for i 1 961 {\nwork 1000000000000 }",
        ReadKind::WorkTooLarge,
        3,
    ),
    (
        "for i 1 60000 {\nwork 1000000000 work 1000000000 work 1 }",
        ReadKind::TooLong,
        3,
    ),
    ("for i 0 1000001 { }", ReadKind::BadNumber, 2),
    ("for i 1000001 0 { }", ReadKind::BadNumber, 2),
    ("for i 1 2 { for i 1 2 { } }", ReadKind::BadWord, 2),
    (
        "for i 1 2 { task { taskgroup { for i 1 2 { } } } }",
        ReadKind::BadWord,
        2,
    ),
    ("for 1 2 { }", ReadKind::BadWord, 2),
    ("for i 1 { }", ReadKind::BadWord, 2),
    ("for i 1 2 work 1", ReadKind::BadWord, 2),
    ("for i 1\n\n", ReadKind::BadWord, 4),
    ("for i 1 2\n{ work 1", ReadKind::Unclosed, 3),
    ("task depend(in: x[j]) { }", ReadKind::BadWord, 2),
    (
        "for j 1 1 { } task depend(in: x[j]) { }",
        ReadKind::BadWord,
        2,
    ),
    ("task depend(in: x[]) { }", ReadKind::BadWord, 2),
    ("task depend(in: x[+1]) { }", ReadKind::BadWord, 2),
    ("task depend(in: x[1+1]) { }", ReadKind::BadWord, 2),
    (
        "for i 1 1 { task depend(in: x[i+i]) { } }",
        ReadKind::BadWord,
        2,
    ),
    ("task depend(in: x[0][0]) { }", ReadKind::BadWord, 2),
    (
        "task depend(in: x[-1000000],\n x[1000001]) { }",
        ReadKind::BadNumber,
        3,
    ),
    (
        "for i 1000000 1000000 {\ntask depend(in: x[\ni+1]) { } }",
        ReadKind::BadNumber,
        4,
    ),
    ("task depend(in: x[\n-1000001]) { }", ReadKind::BadNumber, 3),
    ("task final(2) { }", ReadKind::BadNumber, 2),
    ("task final(0) final(0) { }", ReadKind::BadWord, 2),
    ("task final { }", ReadKind::BadWord, 2),
    ("taskwait final(0)", ReadKind::BadWord, 2),
    ("}", ReadKind::Unopened, 2),
    ("for i 1 1 { } }", ReadKind::Unopened, 2),
    (";", ReadKind::BadByte, 2),
];

#[test]
fn loops_shown(rt: HostRuntime) -> Result<(), Fail> {
    for (body, wanted) in SHOWN {
        let alloc = rt.alloc();
        let text = with_header(alloc, body)?;
        let wanted = with_header(alloc, wanted)?;
        assert_shown(&rt, alloc, text.as_str(), wanted.as_str())?;
    }
    Ok(())
}

#[test]
fn loops_refused(rt: HostRuntime) -> Result<(), Fail> {
    for (body, kind, line) in REFUSED {
        assert_body(&rt, rt.alloc(), body, Some((*kind, *line)))?;
    }
    Ok(())
}

/// So many groups in one another, in a loop.
fn groups_in_a_loop(alloc: Global, groups: u32) -> Result<String, AllocFault> {
    let mut text = with_header(alloc, "for i 1 1 { ")?;
    for _ in 0..groups {
        text.push_str("taskgroup { ")?;
    }
    text.push_str("} ")?;
    for _ in 0..groups {
        text.push_str("} ")?;
    }
    Ok(text)
}

/// A loop in a text of version 1, and 65 blocks of which one is a loop.
#[test]
fn version_and_depth(rt: HostRuntime) -> Result<(), Fail> {
    let alloc = rt.alloc();
    let one = "omptasks 1\nfor i 1 3 { task depend(in: x[i-1]) depend(out: x[i]) { work 2 } }";
    assert_fault(&rt, alloc, one, Some((ReadKind::BadWord, 2)));
    let bracket = "omptasks 1\ntask depend(in: x[0]) { }";
    assert_fault(&rt, alloc, bracket, Some((ReadKind::BadByte, 2)));
    for (more, wanted) in [(1, None), (2, Some((ReadKind::TooDeep, 2)))] {
        let text = groups_in_a_loop(alloc, 62 + more)?;
        assert_fault(&rt, alloc, text.as_str(), wanted);
    }
    Ok(())
}

/// The tokens of a text that needs them all, but one.
const TOKENS: [&str; 29] = [
    "for", "i", "1", "3", "{", "task", "depend", "(", "in", ":", "x", "[", "i", "-", "1", "]", ")",
    "depend", "(", "out", ":", "x", "[", "i", "]", ")", "{", "work", "2",
];

/// The tokens before which a statement may stand inside a block.
fn stands_in_a_block(count: usize) -> bool {
    count == 5 || count == 27 || count >= 29
}

/// What is wrong with a text that ends after so many of its tokens.
fn fault_of_cut(count: usize) -> Option<(ReadKind, u32)> {
    if count == 0 {
        None
    } else if stands_in_a_block(count) {
        Some((ReadKind::Unclosed, 2))
    } else {
        Some((ReadKind::BadWord, 2))
    }
}

/// Writes a token and a blank.
fn push_token(text: &mut String, token: &str) -> Result<(), AllocFault> {
    text.push_str(token)?;
    text.push(' ')?;
    Ok(())
}

/// A text that ends after each of its tokens in turn.
#[test]
fn cut_at_each_token(rt: HostRuntime) -> Result<(), Fail> {
    let alloc = rt.alloc();
    let mut text = with_header(alloc, "")?;
    for (count, token) in TOKENS.iter().enumerate() {
        assert_fault(&rt, alloc, text.as_str(), fault_of_cut(count));
        push_token(&mut text, *token)?;
    }
    assert_fault(&rt, alloc, text.as_str(), Some((ReadKind::Unclosed, 2)));
    push_token(&mut text, "}")?;
    assert_fault(&rt, alloc, text.as_str(), Some((ReadKind::Unclosed, 2)));
    text.push_str("}")?;
    assert_fault(&rt, alloc, text.as_str(), None);
    Ok(())
}

/// The text without one of its tokens.
fn without_token(alloc: Global, left_out: usize) -> Result<String, AllocFault> {
    let mut text = with_header(alloc, "")?;
    for (count, token) in TOKENS.iter().enumerate() {
        if count != left_out {
            push_token(&mut text, *token)?;
        }
    }
    text.push_str("} }")?;
    Ok(text)
}

/// A text that lacks each of its tokens in turn. Without its variable the first index is -1.
#[test]
fn each_token_left_out(rt: HostRuntime) -> Result<(), Fail> {
    for left_out in 0..TOKENS.len() {
        let text = without_token(rt.alloc(), left_out)?;
        let wanted = if left_out == 12 {
            None
        } else {
            Some((ReadKind::BadWord, 2))
        };
        assert_fault(&rt, rt.alloc(), text.as_str(), wanted);
    }
    Ok(())
}

/// A body at a limit, and one past it.
const LIMITS: &[(&str, &str, ReadKind)] = &[
    (
        "for i 1 256 { for j 1 255 { } }",
        "for i 1 256 { for j 1 255 { } } for k 0 0 { }",
        ReadKind::TooManyTurns,
    ),
    (
        "for i 1 4096 { task { } }",
        "for i 0 4096 { task { } }",
        ReadKind::TooManyTasks,
    ),
    (
        "for i 1 16383 { taskgroup { } }",
        "for i 0 16383 { taskgroup { } }",
        ReadKind::TooManySegments,
    ),
    (
        "for i 1 1000 { work 1000000000000 }",
        "for i 1 1000 { work 1000000000000 } work 1",
        ReadKind::WorkTooLarge,
    ),
    (
        "for i 1000000 1000000 { }",
        "for i 1000000 1000001 { }",
        ReadKind::BadNumber,
    ),
    (
        "for i 999999 999999 { task depend(in: x[i+1], x[i-1999999]) { } }",
        "for i 999999 999999 { task depend(in: x[i+1], x[i-2000000]) { } }",
        ReadKind::BadNumber,
    ),
    (
        "for a234567890123456789012345678901 1 1 { }",
        "for a2345678901234567890123456789012 1 1 { }",
        ReadKind::BadWord,
    ),
    (
        "task depend(in: a234567890123456789012345678901[-1000000]) { }",
        "task depend(in: a2345678901234567890123456789012[-1000000]) { }",
        ReadKind::BadWord,
    ),
    (
        "task depend(in: a[0], a[1], a[2], a[3], a[4], a[5], a[6], a[7], a[8], a[9], a[10], a[11], \
        a[12], a[13], a[14], a[15], a[0], a[1], a[2], a[3], a[4], a[5], a[6], a[7], a[8], a[9], \
        a[10], a[11], a[12], a[13], a[14], a[15]) { }",
        "task depend(in: a[0], a[1], a[2], a[3], a[4], a[5], a[6], a[7], a[8], a[9], a[10], a[11], \
        a[12], a[13], a[14], a[15], a[0], a[1], a[2], a[3], a[4], a[5], a[6], a[7], a[8], a[9], \
        a[10], a[11], a[12], a[13], a[14], a[15], a[9999999]) { }",
        ReadKind::TooManyItems,
    ),
    (
        "for i 1 32768 { work 1 work 1 work 1 work 1 work 1 work 1 } for i 1 13104 { work 1 } work \
        100",
        "for i 1 32768 { work 1 work 1 work 1 work 1 work 1 work 1 } for i 1 13104 { work 1 } work \
        1000",
        ReadKind::TooLong,
    ),
];

#[test]
fn limits_of_loops(rt: HostRuntime) -> Result<(), Fail> {
    for (most, more, kind) in LIMITS {
        assert_body(&rt, rt.alloc(), most, None)?;
        assert_body(&rt, rt.alloc(), more, Some((*kind, 2)))?;
    }
    Ok(())
}

/// A body with a fault of its text on its second line, and one of its expansion before.
const TWO_FAULTS: &[(&str, ReadKind)] = &[
    ("for i 0 65536 { }\n;", ReadKind::BadByte),
    ("task depend(in: x[1000001]) { }\n}", ReadKind::Unopened),
    ("for i 1 4097 { task { } }\nwait", ReadKind::BadWord),
    (
        "for i 1 16384 { taskwait }\nfor i 1 1x",
        ReadKind::BadNumber,
    ),
    (
        "for i 1 1001 { work 1000000000000 }\ntask final(2)",
        ReadKind::BadNumber,
    ),
];

/// What is wrong with the text is reported before what is wrong with its expansion.
#[test]
fn text_before_expansion(rt: HostRuntime) -> Result<(), Fail> {
    for (body, kind) in TWO_FAULTS {
        assert_body(&rt, rt.alloc(), body, Some((*kind, 3)))?;
    }
    Ok(())
}

/// A few bytes that ask for very many turns are refused at once.
#[test]
fn very_many_turns(rt: HostRuntime) -> Result<(), Fail> {
    let alloc = rt.alloc();
    let text = with_header(
        alloc,
        "for i 1 1000000 { for j 1 1000000 { for k 1 1000000 { work 1 } } }",
    )?;
    assert_fault(&rt, alloc, text.as_str(), Some((ReadKind::TooManyTurns, 2)));
    Ok(())
}

/// The limit on the bytes of the tokens of version 1 is not one of version 2.
#[test]
fn zeros_of_a_header(rt: HostRuntime) -> Result<(), Fail> {
    for (digit, wanted) in [("1", Some((ReadKind::TooLong, 1))), ("2", None)] {
        let alloc = rt.alloc();
        let text = zeros(alloc, "omptasks ", 1_048_568, digit)?;
        assert_fault(&rt, alloc, text.as_str(), wanted);
    }
    Ok(())
}

/// The version of a text.
fn version_of(alloc: Global, text: &str) -> Result<u32, Fail> {
    Ok(read_program(alloc, text.as_bytes())?.version())
}

/// A text and its version.
const VERSIONS: &[(&str, u32)] = &[("omptasks 1", 1), ("omptasks 2", 2), ("omptasks 0002", 2)];

#[test]
fn versions(rt: HostRuntime) -> Result<(), Fail> {
    for (text, version) in VERSIONS {
        assert_eq!(rt; version_of(rt.alloc(), text)?, *version);
    }
    let text = "omptasks 2 task depend(in: x, x[3]) depend(out: x[-1]) { }";
    assert_names(&rt, rt.alloc(), text, 3)?;
    assert_named(&rt, rt.alloc(), text, 1, Some("x[3]"))?;
    assert_named(&rt, rt.alloc(), text, 2, Some("x[-1]"))
}
