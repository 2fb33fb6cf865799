//! Each command on the worked program.

use super::{gives, words_of};
use command_words::request::{Request, read_words};
use spanprof_command::Status;
use std::alloc::Global;
use std::test::Fail;

/// The words of a command, its input, and what it writes.
#[derive(Clone, Copy)]
pub(super) struct Example {
    pub(super) words: &'static [&'static str],
    pub(super) input: &'static str,
    pub(super) text: &'static str,
}

pub(super) const WORKED: &str = "omptasks 1\nwork 5 task { work 3 } work 2 taskwait work 1\n";

/// The worked program, and the line after which a claim or the events come.
pub(super) const WORKED_BEGUN: &str =
    "omptasks 1\nwork 5 task { work 3 } work 2 taskwait work 1\n---\n";

pub(super) const CERTIFICATE: &str =
    "omptasks 1\nwork 5\ntask {\nwork 3\n}\nwork 2\ntaskwait\nwork 1\n---\nend 9\nstart 0 0\n\
    start 1 5\nstart 2 5\nstart 3 8\nchain 0 1 3\n";

const LOGGED: &str =
    "omptasks 1\nwork 5 task { work 3 } work 2 taskwait work 1\n---\nstart 0 0\nfinish 0 0\n\
    start 0 2\nfinish 0 2\nstart 1 1\nfinish 1 1\nstart 0 3\nfinish 0 3\n";

/// An example of each command, at the place that `place_of` gives it.
pub(super) const EXAMPLES: &[Example] = &[
    Example {
        words: &["spanprof", "span"],
        input: WORKED,
        text: "segments 4\nwork 11\nspan 9\n",
    },
    Example {
        words: &["spanprof", "show"],
        input: WORKED,
        text: "omptasks 1\nwork 5\ntask {\nwork 3\n}\nwork 2\ntaskwait\nwork 1\n",
    },
    Example {
        words: &["spanprof", "replay"],
        input: LOGGED,
        text: "events 8\nfinished 4\npreds 0\npreds 1 0\npreds 2 0\npreds 3 1 2\n",
    },
    Example {
        words: &["spanprof", "run", "--workers", "2"],
        input: WORKED,
        text: "segments 4\nedges 4\ndigest 704969\npreds 0\npreds 1 0\npreds 2 0\n\
                preds 3 1 2\n",
    },
    Example {
        words: &["spanprof", "slack"],
        input: WORKED,
        text: "segment,task,cost,start,slack,chain\n0,0,5,0,0,1\n1,1,3,5,0,1\n2,0,2,5,1,0\n\
                3,0,1,8,0,1\n",
    },
    Example {
        words: &["spanprof", "certify"],
        input: WORKED,
        text: CERTIFICATE,
    },
    Example {
        words: &["spanprof", "check"],
        input: CERTIFICATE,
        text: "accepted\nsegments 4\nend 9\n",
    },
    Example {
        words: &["spanprof", "greedy", "--threads", "2"],
        input: WORKED,
        text: "segment,start,end,thread\n0,0,5,0\n1,5,8,0\n2,5,7,1\n3,8,9,0\n",
    },
    Example {
        words: &["spanprof", "curve", "--upto", "2"],
        input: WORKED,
        text: "threads,end,least,bound\n1,11,11,11\n2,9,9,10\n",
    },
    Example {
        words: &["spanprof", "whatif", "2=4"],
        input: WORKED,
        text: "work 13\nspan 10\nwas 9\n",
    },
];

/// A command that is added has no place here until it has an example.
fn place_of(request: &Request) -> usize {
    match request {
        Request::Span => 0,
        Request::Show => 1,
        Request::Replay => 2,
        Request::Run { .. } => 3,
        Request::Slack => 4,
        Request::Certify => 5,
        Request::Check => 6,
        Request::Greedy { .. } => 7,
        Request::Curve { .. } => 8,
        Request::WhatIf { .. } => 9,
    }
}

/// The place of the command that the words ask for, if they ask for one.
pub(super) fn place_asked(alloc: Global, words: &[&str]) -> Result<Option<usize>, Fail> {
    let list = words_of(alloc, words)?;
    Ok(match read_words(alloc, list.as_slice()) {
        Ok(request) => Some(place_of(&request)),
        Err(_) => None,
    })
}

#[test]
fn each_command(rt: HostRuntime) -> Result<(), Fail> {
    assert_eq!(rt; EXAMPLES.len(), 10);
    for (place, example) in EXAMPLES.iter().enumerate() {
        let Example { words, input, text } = example;
        assert!(rt; place_asked(rt.alloc(), words)? == Some(place), "{place}");
        assert!(rt; gives(&rt, words, input, text, Status::Done)?, "{place}");
    }
    Ok(())
}
