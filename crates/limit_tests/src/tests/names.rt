//! As many names as a text can have.
use super::assert_report;
use std::alloc::Global;
use std::test::Fail;

/// The canonical text of 4,096 tasks, each with 32 items on names of their own: 1.1 MB, near the
/// limit on its tokens.
fn distinct_names(alloc: Global) -> Result<String, Fail> {
    let mut text = String::from_str(alloc, "omptasks 1\n")?;
    for task in 0..4096u32 {
        text.push_str(&format!(in alloc; "task depend(in: a{}", 10000 + 32 * task)?)?;
        for item in 1..32u32 {
            text.push_str(&format!(in alloc; ", a{}", 10000 + 32 * task + item)?)?;
        }
        text.push_str(") {\n}\n")?;
    }
    Ok(text)
}

#[test]
fn names(rt: HostRuntime) -> Result<(), Fail> {
    let text = distinct_names(rt.alloc())?;
    assert_report(&rt, &["show"], text.as_bytes(), text.as_bytes())?;
    let wanted = b"segments 8193\nwork 0\nspan 0\n";
    assert_report(&rt, &["span"], text.as_bytes(), wanted)
}
