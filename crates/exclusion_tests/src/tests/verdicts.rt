//! The verdicts on logs.
use exclusive_tasks::{Overlap, Verdict, judge};
use std::alloc::Global;
use std::test::Fail;

/// At event 1 the task of claim 1 begins while that of claim 0 is under way.
const AT_EVENT_1: Verdict = Verdict::Overlapping(Overlap {
    event: 1,
    begins: 1,
    under_way: 0,
});

const AT_EVENT_2: Verdict = Verdict::Overlapping(Overlap {
    event: 2,
    begins: 1,
    under_way: 0,
});

const VERDICTS: &[(&str, Verdict)] = &[
    ("", Verdict::Apart),
    ("\n \n", Verdict::Apart),
    (
        "exclusive 0 0 1 2\nexclusive 0 0 4 4\nstart 0 1\nfinish 0 2\nstart 1 4\n",
        Verdict::Apart,
    ),
    (
        "exclusive 0 0 1 2\nexclusive 0 0 4 4\nstart 1 1\nfinish 1 1\nstart 2 4\n",
        AT_EVENT_2,
    ),
    // the last line without its end
    (
        "exclusive 0 0 1 2\nexclusive 0 0 4 4\nstart 0 1\nstart 1 4",
        AT_EVENT_1,
    ),
    // claims behind events, and lines without words, which count as no events
    (
        "start 0 1\n\nstart 1 4\nexclusive 0 0 1 2\n\nexclusive 0 0 4 4",
        AT_EVENT_1,
    ),
    // a thread decides nothing
    (
        "exclusive 0 0 1 2\nexclusive 0 0 4 4\nstart 0 1\nstart 0 4",
        AT_EVENT_1,
    ),
    (
        "exclusive 0 0 1 2\nexclusive 1 0 4 4\nstart 0 1\nstart 1 4",
        Verdict::Apart,
    ),
    (
        "exclusive 0 0 1 2\nexclusive 0 1 4 4\nstart 0 1\nstart 1 4",
        Verdict::Apart,
    ),
    // a wrong line counts before an overlap
    (
        "exclusive 0 0 1 2\nexclusive 0 0 4 4\nstart 0 1\nstart 1 4\nstop",
        Verdict::BadForm { line: 4 },
    ),
    ("exclusive 0 0 1\nstop", Verdict::BadForm { line: 0 }),
];

/// The verdict on a log.
fn judged(alloc: Global, text: &str) -> Result<Verdict, Fail> {
    Ok(judge(alloc, text.as_bytes())?)
}

#[test]
fn verdicts(rt: HostRuntime) -> Result<(), Fail> {
    for (text, wanted) in VERDICTS {
        assert_eq!(rt; judged(rt.alloc(), text)?, *wanted, "{text}");
    }
    Ok(())
}
