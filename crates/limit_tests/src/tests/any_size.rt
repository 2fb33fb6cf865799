//! The program for texts of any size.
use super::{Sink, line_of};
use counted_io::Counted;
use large_command::command;
use spanprof_command::Status;
use std::alloc::{AllocGlobal, Global};
use std::process::Abort;
use std::test::Fail;
use std::thread::Threads;
use task_program::name_key::NameKey;

/// These words write this text with this status.
fn assert_ends<H: AllocGlobal + Threads + Abort + Sync>(
    rt: &H,
    words: &[&str],
    input: &[u8],
    wanted: (Status, &[u8]),
) -> Result<(), Fail> {
    let alloc = rt.alloc();
    let line = line_of(alloc, words)?;
    let mut reader = Counted::new(input);
    let mut writer = Counted::new(Sink {
        taken: Vec::new(alloc),
    });
    let status = command(
        rt,
        NameKey::fixed(),
        line.as_slice(),
        &mut reader,
        &mut writer,
    );
    let Sink { taken } = writer.into_inner();
    let (wanted_status, text) = wanted;
    assert!(rt; taken.as_slice() == text, "{words:?}");
    assert!(rt; status == wanted_status, "{words:?}");
    Ok(())
}

/// So many children, each with a location of its own.
fn children(alloc: Global, count: u32) -> Result<String, Fail> {
    let mut text = String::from_str(alloc, "omptasks 1\n")?;
    for name in 0..count {
        text.push_str(&format!(in alloc; "task depend(inout: a{name}) {{ work 2 }}\n")?)?;
    }
    text.push_str("taskwait work 3\n")?;
    Ok(text)
}

/// More tasks, lines, names and items than 16 bits can number, and a fault behind them.
#[test]
fn many_tasks(rt: HostRuntime) -> Result<(), Fail> {
    let mut text = children(rt.alloc(), 70_000)?;
    let numbers = b"tasks 70000\nsegments 140002\nwork 140003\nspan 5\n";
    assert_ends(&rt, &[], text.as_bytes(), (Status::Done, numbers))?;
    text.push_str("}\n")?;
    let fault = b"error: line 70003: Unopened\n";
    assert_ends(&rt, &[], text.as_bytes(), (Status::Refused, fault))
}

/// A segment with many predecessors, in a row of its own.
#[test]
fn graph(rt: HostRuntime) -> Result<(), Fail> {
    let alloc = rt.alloc();
    let mut input = String::from_str(alloc, "omptasks 1\n")?;
    let mut rows = String::from_str(alloc, "segment,task,cost,predecessors\n0,0,0,\n")?;
    let mut last = String::from_str(alloc, "")?;
    for task in 1..3_000u32 {
        input.push_str("task { work 2 }\n")?;
        let (child, next, before) = (2 * task - 1, 2 * task, 2 * task - 2);
        rows.push_str(&format!(in alloc; "{child},{task},2,{before}\n{next},0,0,{before}\n")?)?;
        last.push_str(&format!(in alloc; "{child} ")?)?;
    }
    input.push_str("taskwait\n")?;
    rows.push_str(&format!(in alloc; "5999,0,0,{last}5998\n")?)?;
    let wanted = (Status::Done, rows.as_bytes());
    assert_ends(&rt, &["graph"], input.as_bytes(), wanted)
}

/// Tasks in one another, behind a line that comes in several pieces.
#[test]
fn deep_tasks(rt: HostRuntime) -> Result<(), Fail> {
    let alloc = rt.alloc();
    let mut text = String::from_str(alloc, "omptasks 1 # ")?;
    add(&mut text, "long ", 40_000)?;
    add(&mut text, "\ntask {", 5_000)?;
    text.push_str("\nwork 7\n")?;
    add(&mut text, "}\n", 5_000)?;
    let numbers = b"tasks 5000\nsegments 10001\nwork 7\nspan 7\n";
    assert_ends(&rt, &[], text.as_bytes(), (Status::Done, numbers))
}

/// Adds a piece so many times.
fn add(text: &mut String, piece: &str, times: u32) -> Result<(), Fail> {
    for _ in 0..times {
        text.push_str(piece)?;
    }
    Ok(())
}

/// Words, a text, and the status and what is written.
const ENDS: &[(&[&str], &str, (Status, &str))] = &[
    (
        &[],
        "omptasks 1\nwork 5 task { work 3 } work 2 taskwait work 1",
        (Status::Done, "tasks 1\nsegments 4\nwork 11\nspan 9\n"),
    ),
    (
        &[],
        "omptasks 1\nwork 1\n}\n",
        (Status::Refused, "error: line 3: Unopened\n"),
    ),
    (
        &[],
        "omptasks 1\ntask {\nwork 1\n",
        (Status::Refused, "error: line 2: Unclosed\n"),
    ),
    (
        &[],
        "omptasks 3\n",
        (Status::Refused, "error: line 1: BadHeader\n"),
    ),
    (
        &[],
        "omptasks 2\nfor i 1 3 { task { work 4 } } taskwait\n",
        (Status::Done, "tasks 3\nsegments 8\nwork 12\nspan 4\n"),
    ),
    (
        &["show"],
        "omptasks 2\nfor i 1 2 { task depend(out: a[i]) { } }\n",
        (
            Status::Done,
            "omptasks 2\ntask depend(out: a[1]) {\n}\ntask depend(out: a[2]) {\n}\n",
        ),
    ),
    (
        &[],
        "omptasks 2\nfor i 0 65536 { }",
        (Status::Done, "tasks 0\nsegments 1\nwork 0\nspan 0\n"),
    ),
    (
        &[],
        "omptasks 2\nfor i 1 2 {\nfor i 1 2 { } }\n",
        (Status::Refused, "error: line 3: BadWord\n"),
    ),
    (
        &["--upto", "3"],
        "omptasks 1\nwork 1\n}\n",
        (Status::Refused, "error: line 3: Unopened\n"),
    ),
];

#[test]
fn ends(rt: HostRuntime) -> Result<(), Fail> {
    for (words, input, (status, text)) in ENDS {
        assert_ends(&rt, *words, input.as_bytes(), (*status, text.as_bytes()))?;
    }
    Ok(())
}

/// Words, and what is written.
const BOUNDS: &[(&[&str], &str)] = &[
    (
        &["--upto", "3"],
        "threads,least,bound\n1,10,10\n2,5,7\n3,4,6\n",
    ),
    (
        &["--upto=03"],
        "threads,least,bound\n1,10,10\n2,5,7\n3,4,6\n",
    ),
    (&["--upto", "1"], "threads,least,bound\n1,10,10\n"),
    (
        &["bounds", "--upto", "2"],
        "threads,least,bound\n1,10,10\n2,5,7\n",
    ),
    (&[], "tasks 2\nsegments 5\nwork 10\nspan 4\n"),
    (&["span"], "tasks 2\nsegments 5\nwork 10\nspan 4\n"),
];

#[test]
fn bounds(rt: HostRuntime) -> Result<(), Fail> {
    let input = b"omptasks 1\ntask { work 4 } task { work 4 } work 2";
    for (words, text) in BOUNDS {
        assert_ends(&rt, *words, input, (Status::Done, text.as_bytes()))?;
    }
    Ok(())
}

/// Words, and the status and what is written.
const OF_TABLES: &[(&[&str], (Status, &str))] = &[
    (
        &["slack"],
        (
            Status::Done,
            "segment,task,cost,start,slack,chain\n0,0,5,0,0,1\n1,1,3,5,0,1\n2,0,2,5,1,0\n\
            3,0,1,8,0,1\n",
        ),
    ),
    (
        &["greedy", "--threads", "2"],
        (
            Status::Done,
            "segment,start,end,thread\n0,0,5,0\n1,5,8,0\n2,5,7,1\n3,8,9,0\n",
        ),
    ),
    (
        &["curve", "--upto=2"],
        (
            Status::Done,
            "threads,end,least,bound\n1,11,11,11\n2,9,9,10\n",
        ),
    ),
    (
        &["whatif", "2=4", "1=5"],
        (Status::Done, "work 15\nspan 11\nwas 9\n"),
    ),
    (
        &["whatif", "2=4", "4=1"],
        (Status::Refused, "error: UnknownSegment\n"),
    ),
    (
        &["whatif", "2=1000000000000000"],
        (Status::Refused, "error: WorkTooLarge\n"),
    ),
];

/// The answers are those of the commands of the same names.
#[test]
fn tables(rt: HostRuntime) -> Result<(), Fail> {
    let input = b"omptasks 1\nwork 5 task { work 3 } work 2 taskwait work 1";
    for (words, (status, text)) in OF_TABLES {
        assert_ends(&rt, *words, input, (*status, text.as_bytes()))?;
    }
    Ok(())
}

/// A text with a fault has no table.
#[test]
fn no_tables(rt: HostRuntime) -> Result<(), Fail> {
    for (words, _) in OF_TABLES {
        let fault = (Status::Refused, b"error: line 3: Unopened\n".as_slice());
        assert_ends(&rt, *words, b"omptasks 1\nwork 1\n}\n", fault)?;
    }
    Ok(())
}

/// A text, and as it is written anew.
const SHOWN: &[(&str, &str)] = &[
    ("omptasks 01", "omptasks 1\n"),
    (
        "omptasks 1 # as it was\nwork 007 task depend(in: a) depend(in:b) depend(out: a) if(0) {\
        taskgroup { task depend(inoutset: c) depend(inout: b , a) {} } } taskwait\n\
        task if(1) { work 0 }",
        "omptasks 1\nwork 7\ntask if(0) depend(in: a, b) depend(out: a) {\ntaskgroup {\n\
        task depend(inoutset: c) depend(inout: b, a) {\n}\n}\n}\ntaskwait\n\
        task {\nwork 0\n}\n",
    ),
];

#[test]
fn shows(rt: HostRuntime) -> Result<(), Fail> {
    for (input, text) in SHOWN {
        assert_ends(
            &rt,
            &["show"],
            input.as_bytes(),
            (Status::Done, text.as_bytes()),
        )?;
        // What was written anew stays as it is.
        assert_ends(
            &rt,
            &["show"],
            text.as_bytes(),
            (Status::Done, text.as_bytes()),
        )?;
    }
    Ok(())
}

/// The certificate of the worked program.
#[test]
fn certifies(rt: HostRuntime) -> Result<(), Fail> {
    let input = b"omptasks 1 work 5 task { work 3 } work 2 taskwait work 1";
    let text = b"omptasks 1\nwork 5\ntask {\nwork 3\n}\nwork 2\ntaskwait\nwork 1\n---\n\
        end 9\nstart 0 0\nstart 1 5\nstart 2 5\nstart 3 8\nchain 0 1 3\n";
    assert_ends(&rt, &["certify"], input, (Status::Done, text))?;
    let verdict = b"accepted\nsegments 4\nend 9\n";
    assert_ends(&rt, &["check"], text, (Status::Done, verdict))?;
    let fault = (Status::Refused, b"error: line 3: Unopened\n".as_slice());
    assert_ends(&rt, &["certify"], b"omptasks 1\nwork 1\n}\n", fault)
}

/// More tasks and names than the commands take.
#[test]
fn shows_many_tasks(rt: HostRuntime) -> Result<(), Fail> {
    let alloc = rt.alloc();
    let mut text = children(alloc, 70_000)?;
    let mut wanted = String::from_str(alloc, "omptasks 1\n")?;
    for name in 0..70_000 {
        wanted.push_str(&format!(in alloc; "task depend(inout: a{name}) {{\nwork 2\n}}\n")?)?;
    }
    wanted.push_str("taskwait\nwork 3\n")?;
    assert_ends(
        &rt,
        &["show"],
        text.as_bytes(),
        (Status::Done, wanted.as_bytes()),
    )?;
    text.push_str("}\n")?;
    let fault = b"error: line 70003: Unopened\n";
    assert_ends(&rt, &["show"], text.as_bytes(), (Status::Refused, fault))
}

/// More rows than 16 bits can number: the last child takes 3 in place of 2.
#[test]
fn large_table(rt: HostRuntime) -> Result<(), Fail> {
    let text = children(rt.alloc(), 70_000)?;
    let spans = b"work 140004\nspan 6\nwas 5\n";
    let words = ["whatif", "139999=3"];
    assert_ends(&rt, &words, text.as_bytes(), (Status::Done, spans))
}

/// A change of each child, more than a command line may hold.
#[test]
fn large_list(rt: HostRuntime) -> Result<(), Fail> {
    let alloc = rt.alloc();
    let mut document = children(alloc, 70_000)?;
    document.push_str("---\n")?;
    for child in 0..70_000u32 {
        let segment = 2 * child + 1;
        document.push_str(&format!(in alloc; "{segment}=3\n")?)?;
    }
    let spans = b"work 210003\nspan 6\nwas 5\n";
    let words = ["whatif", "--listed"];
    assert_ends(&rt, &words, document.as_bytes(), (Status::Done, spans))
}

const WRONG_WORDS: (Status, &str) = (Status::Usage, "error: wrong words\n");

const THREAD_COUNT: (Status, &str) = (Status::Refused, "error: ThreadCount\n");

/// Words, and the status and what is written.
const WORDS: &[(&[&str], (Status, &str))] = &[
    (&["shows"], WRONG_WORDS),
    (&["show", "1"], WRONG_WORDS),
    (&["help", "1"], WRONG_WORDS),
    (&["--help", "slack"], WRONG_WORDS),
    (&["--upto=3", "slack"], WRONG_WORDS),
    (&["slack", "--upto=3"], WRONG_WORDS),
    (&["greedy"], WRONG_WORDS),
    (&["bounds"], WRONG_WORDS),
    (&["whatif", "1"], WRONG_WORDS),
    (&["whatif"], WRONG_WORDS),
    (&["whatif", "--listed", "1=1"], WRONG_WORDS),
    (&["whatif", "--listed", "--listed"], WRONG_WORDS),
    (&["--upto"], WRONG_WORDS),
    (&["--upto=4294967296"], WRONG_WORDS),
    (&["--upto=1", "--upto=1"], WRONG_WORDS),
    (&["--upto", "0"], THREAD_COUNT),
    (&["--upto", "1025"], THREAD_COUNT),
    (&["--upto", "4294967295"], THREAD_COUNT),
    (&["bounds", "--upto", "0"], THREAD_COUNT),
    (&["greedy", "--threads", "1025"], THREAD_COUNT),
    (&["curve", "--upto", "0"], THREAD_COUNT),
];

#[test]
fn words_before_the_text(rt: HostRuntime) -> Result<(), Fail> {
    for (words, (status, text)) in WORDS {
        // The text is wrong too, and nobody reads it.
        assert_ends(&rt, *words, b"omptasks 2\n", (*status, text.as_bytes()))?;
    }
    Ok(())
}

#[test]
fn as_many_rows_as_there_may_be(rt: HostRuntime) -> Result<(), Fail> {
    let alloc = rt.alloc();
    let mut wanted = String::from_str(alloc, "threads,least,bound\n")?;
    for threads in 1..1_025 {
        wanted.push_str(&format!(in alloc; "{threads},0,0\n")?)?;
    }
    let ends = (Status::Done, wanted.as_bytes());
    assert_ends(&rt, &["--upto", "1024"], b"omptasks 1\n", ends)
}
