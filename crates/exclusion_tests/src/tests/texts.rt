//! The lines that report verdicts.
use exclusive_tasks::{Overlap, Verdict, verdict_text};
use std::test::Fail;

const TEXTS: &[(Verdict, &str)] = &[
    (Verdict::Apart, "apart\n"),
    (
        Verdict::Overlapping(Overlap {
            event: 6,
            begins: 1,
            under_way: 0,
        }),
        "overlap 6 1 0\n",
    ),
    (
        Verdict::Overlapping(Overlap {
            event: 0,
            begins: 10,
            under_way: usize::MAX,
        }),
        "overlap 0 10 18446744073709551615\n",
    ),
    (Verdict::BadForm { line: 0 }, "error: line 0: BadForm\n"),
    (
        Verdict::BadForm { line: usize::MAX },
        "error: line 18446744073709551615: BadForm\n",
    ),
];

#[test]
fn texts(rt: HostRuntime) -> Result<(), Fail> {
    for (verdict, wanted) in TEXTS {
        assert_eq!(rt; verdict_text(rt.alloc(), *verdict)?.as_str(), *wanted);
    }
    Ok(())
}
