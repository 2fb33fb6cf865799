//! The worked program with times behind it, by hand.

/// The worked program and the divider: times begin on line 4.
pub(super) const BEGUN: &str = "omptasks 1\nwork 5 task { work 3 } work 2 taskwait work 1\n---\n";

/// The arguments, and the report on the worked run.
pub(super) const REPORTS: &[(&[&str], &str)] = &[
    (
        &[],
        "threads 2\nelapsed 14\nbusy 11\ndelayed 7\nstarved 8\noutside 2\n",
    ),
    (
        &["--rows"],
        "segment,thread,ready,begin,end\n0,0,0,0,5\n1,0,5,6,9\n2,0,5,9,11\n3,1,11,12,13\n",
    ),
    (&["--path"], "segment,wait,duration\n0,0,5\n2,4,2\n3,1,1\n"),
];

/// Lines of times, and what is wrong with them.
pub(super) const FAULTS: &[(&str, &str)] = &[
    ("", "line 4: BadForm"),
    ("\n \t\r\n", "line 6: BadForm"),
    ("0 0 0 5\n", "line 4: BadForm"),
    ("times 2 0\n", "line 4: BadForm"),
    ("times 2 0 9 9\n", "line 4: BadForm"),
    ("times 2 0 x\n", "line 4: BadForm"),
    ("times 4294967296 0 9\n", "line 4: BadForm"),
    (
        "times 2 0 9\n\n0 0 0 1000000000000000001\n",
        "line 6: BadForm",
    ),
    ("times 2 0 9\n0 0 0 5\n---\n", "line 6: BadForm"),
    ("times 2 0 9\ntimes 2 0 9\n", "line 5: BadForm"),
    ("times 2 0 9\n4 0 0 5\n", "line 5: UnknownSegment"),
    ("times 2 0 9\n1 0 0 5\n1 0 0 5\n", "line 6: TimedTwice"),
    ("times 2 0 9\n3 0 0 5\n0 0 0 5\n", "NotTimed 1"),
    (
        "times 0 0 14\n0 0 0 5\n1 0 6 9\n2 0 9 11\n3 1 12 13\n",
        "ThreadCount",
    ),
    (
        "times 1025 0 14\n0 0 0 5\n1 0 6 9\n2 0 9 11\n3 1 12 13\n",
        "ThreadCount",
    ),
    (
        "times 2 14 13\n0 0 0 5\n1 0 6 9\n2 0 9 11\n3 1 12 13\n",
        "Moments",
    ),
    (
        "times 2 0 1000000000000001\n0 0 0 5\n1 0 6 9\n2 0 9 11\n3 1 12 13\n",
        "Moments",
    ),
    (
        "times 2 0 14\n0 0 0 5\n1 2 6 9\n2 0 9 11\n3 1 12 13\n",
        "NoThread 1",
    ),
    (
        "times 2 0 14\n0 0 0 5\n1 0 9 6\n2 0 9 11\n3 1 12 13\n",
        "EndsEarly 1",
    ),
    (
        "times 2 0 12\n0 0 0 5\n1 0 6 9\n2 0 9 11\n3 1 12 13\n",
        "OutOfTime 3",
    ),
    (
        "times 2 0 14\n0 0 0 5\n1 0 6 9\n2 0 9 11\n3 1 8 13\n",
        "TooSoon 3 1",
    ),
    (
        "times 2 0 14\n0 0 0 5\n1 0 6 9\n2 0 8 11\n3 1 12 13\n",
        "NotApart 2",
    ),
];

/// Words that ask for nothing.
pub(super) const WORDS: &[&[&str]] = &[
    &["--row"],
    &["--rows", "--path"],
    &["--rows", "--rows"],
    &["--help"],
    &[""],
];
