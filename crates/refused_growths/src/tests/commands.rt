//! The ten commands, and the program for a text of any size, over devices that take no memory.
use super::certificates::{CERTIFICATE, Room, empty_room};
use super::supply::Supply;
use super::texts::command_line;
use counted_io::Counted;
use spanprof_command::{Status, command};
use std::alloc::AllocGlobal;
use std::io;
use std::io::Read;
use std::process::Abort;
use std::sync::Wait;
use std::test::Fail;
use std::thread::Threads;
use task_program::name_key::NameKey;

/// The words of a command, its input, and what it writes.
#[derive(Clone, Copy)]
struct Example {
    words: &'static [&'static str],
    input: &'static str,
    text: &'static str,
}

/// Its tasks have names and a group.
const NAMED: &str = "omptasks 1\ntask depend(out: a) { taskgroup { work 3 } }\n\
    task depend(in: a) { work 2 }\n";

const WORKED: &str = "omptasks 1\nwork 5 task { work 3 } work 2 taskwait work 1\n";

const LOGGED: &str =
    "omptasks 1\nwork 5 task { work 3 } work 2 taskwait work 1\n---\nstart 0 0\nfinish 0 0\n\
    start 0 2\nfinish 0 2\nstart 1 1\nfinish 1 1\nstart 0 3\nfinish 0 3\n";

const LISTED: &str = "omptasks 1\nwork 5 task { work 3 } work 2 taskwait work 1\n---\n2=4\n1=5\n";

const SLACKS: &str = "segment,task,cost,start,slack,chain\n0,0,5,0,0,1\n1,1,3,5,0,1\n2,0,2,5,1,0\n\
    3,0,1,8,0,1\n";

const GREEDY_RUN: &str = "segment,start,end,thread\n0,0,5,0\n1,5,8,0\n2,5,7,1\n3,8,9,0\n";

const CURVE: &str = "threads,end,least,bound\n1,11,11,11\n2,9,9,10\n";

const CHANGED: &str = "work 15\nspan 11\nwas 9\n";

/// Each command, and those of the program for a text of any size.
#[derive(Clone, Copy)]
pub(super) enum Command {
    Span,
    Show,
    Slack,
    Greedy,
    Curve,
    WhatIf,
    Certify,
    Run,
    Check,
    Replay,
    AnySize(AnySize),
}

/// What the program for a text of any size is asked.
#[derive(Clone, Copy)]
pub(super) enum AnySize {
    Numbers,
    Bounds,
    Slack,
    Greedy,
    Curve,
    WhatIf,
    Graph,
    Listed,
    Replay,
    Version,
}

fn on_worked(words: &'static [&'static str], text: &'static str) -> Example {
    Example {
        words,
        input: WORKED,
        text,
    }
}

fn on_log(words: &'static [&'static str]) -> Example {
    Example {
        words,
        input: LOGGED,
        text: "events 8\nfinished 4\npreds 0\npreds 1 0\npreds 2 0\npreds 3 1 2\n",
    }
}

fn example_of(command: Command) -> Example {
    match command {
        Command::Span => on_worked(&["spanprof", "span"], "segments 4\nwork 11\nspan 9\n"),
        Command::Show => on_worked(
            &["spanprof", "show"],
            "omptasks 1\nwork 5\ntask {\nwork 3\n}\nwork 2\ntaskwait\nwork 1\n",
        ),
        Command::Slack => on_worked(&["spanprof", "slack"], SLACKS),
        Command::Greedy => on_worked(&["spanprof", "greedy", "--threads", "2"], GREEDY_RUN),
        Command::Curve => on_worked(&["spanprof", "curve", "--upto", "2"], CURVE),
        Command::WhatIf => on_worked(&["spanprof", "whatif", "2=4", "1=5"], CHANGED),
        Command::Certify => on_worked(&["spanprof", "certify"], CERTIFICATE),
        Command::Run => on_worked(
            &["spanprof", "run", "--workers", "2"],
            "segments 4\nedges 4\ndigest 704969\npreds 0\npreds 1 0\npreds 2 0\npreds 3 1 2\n",
        ),
        Command::Check => Example {
            words: &["spanprof", "check"],
            input: CERTIFICATE,
            text: "accepted\nsegments 4\nend 9\n",
        },
        Command::Replay => on_log(&["spanprof", "replay"]),
        Command::AnySize(asked) => large_example_of(asked),
    }
}

fn large_example_of(asked: AnySize) -> Example {
    match asked {
        AnySize::Numbers => Example {
            words: &["spanprof_large"],
            input: NAMED,
            text: "tasks 2\nsegments 6\nwork 5\nspan 5\n",
        },
        AnySize::Bounds => on_worked(
            &["spanprof_large", "--upto", "2"],
            "threads,least,bound\n1,11,11\n2,9,10\n",
        ),
        AnySize::Slack => on_worked(&["spanprof_large", "slack"], SLACKS),
        AnySize::Greedy => on_worked(&["spanprof_large", "greedy", "--threads", "2"], GREEDY_RUN),
        AnySize::Curve => on_worked(&["spanprof_large", "curve", "--upto", "2"], CURVE),
        AnySize::WhatIf => on_worked(&["spanprof_large", "whatif", "2=4", "1=5"], CHANGED),
        AnySize::Graph => on_worked(
            &["spanprof_large", "graph"],
            "segment,task,cost,predecessors\n0,0,5,\n1,1,3,0\n2,0,2,0\n3,0,1,1 2\n",
        ),
        AnySize::Version => on_worked(
            &["spanprof_large", "--version"],
            "spanprof_large 0.1.0 (logic dac8208d650f15bf)\n",
        ),
        AnySize::Listed => Example {
            words: &["spanprof_large", "whatif", "--listed"],
            input: LISTED,
            text: CHANGED,
        },
        AnySize::Replay => on_log(&["spanprof_large", "replay"]),
    }
}

/// Gives an input. Memory may be taken before the first read.
#[derive(Drop)]
struct Taking<'a> {
    left: &'a [u8],
    supply: &'a mut Supply,
}

impl Read for Taking<'_> {
    fn read(&mut self, buffer: &mut [u8]) -> io::Result<usize> {
        if !self.left.is_empty() {
            self.supply.before_call();
        }
        let given = buffer.len().min(self.left.len());
        buffer[..given].copy_from_slice(&self.left[..given]);
        self.left = &self.left[given..];
        Ok(given)
    }
}

/// What a command answers and writes.
fn answer_to<H: AllocGlobal + Threads + Wait + Abort + Sync>(
    rt: &H,
    supply: &mut Supply,
    asked: Command,
    line: &[String],
    input: &str,
) -> (Status, Room) {
    supply.before_call();
    let left = input.as_bytes();
    let mut reader = Counted::new(Taking { left, supply });
    let mut writer = empty_room();
    let status = match asked {
        Command::AnySize(_) => {
            large_command::command(rt, NameKey::fixed(), line, &mut reader, &mut writer)
        }
        _ => command(rt, line, &mut reader, &mut writer),
    };
    (status, writer.into_inner())
}

/// A command writes its text, or the one line that says out of memory.
pub(super) fn report<H: AllocGlobal + Threads + Wait + Abort + Sync>(
    rt: &H,
    supply: &mut Supply,
    asked: Command,
) -> Result<(), Fail> {
    let Example { words, input, text } = example_of(asked);
    let line = command_line(rt.alloc(), supply, words)?;
    let (status, room) = answer_to(rt, supply, asked, line.as_slice(), input);
    if status == Status::Done {
        assert!(rt; room.taken() == text.as_bytes(), "{text}");
        return Ok(());
    }
    supply.refused();
    assert!(rt; status == Status::Fault, "{text}");
    assert!(rt;
        room.taken() == b"error: out of memory\n".as_slice(),
        "{text}"
    );
    let (status, room) = answer_to(rt, supply, asked, line.as_slice(), input);
    assert!(rt; status == Status::Done, "{text}");
    assert!(rt; room.taken() == text.as_bytes(), "{text}");
    Ok(())
}
