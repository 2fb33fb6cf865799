//! Calls the libraries: reads a program and prints it, prints what each segment must wait for,
//! replays a log, and measures a text. After that it makes the calls that no command makes.
#![tactic(auto)]

mod analysing;
mod measuring;
mod printing;
mod recording;
mod replaying;
mod waiting;

use analysing::{certify, spans_of_trial};
use counted_io::Counted;
use dispatch_core::event::Event;
use dispatch_core::graph::Graph;
use measuring::span_of;
use printing::reprint;
use recording::{graph_of_log, kept_after};
use replaying::record_of;
use span_analysis::legal::is_legal;
use std::alloc::Global;
use std::{io, str};
use task_program::fault::ReadFault;
use task_program::read::read_program;
use task_program::statement::{DependKind, Item};
use task_segments::cut;
use task_segments::table::SegTable;
use waiting::waits_of;

const PROGRAM: &[u8] = b"omptasks 1\nwork 5 task { work 3 } work 2 taskwait work 1\n";

/// Two workers run the first segment and the child.
const LOG: [Event; 4] = [
    Event::Start {
        worker: 0,
        segment: 0,
    },
    Event::Finish {
        worker: 0,
        segment: 0,
    },
    Event::Start {
        worker: 1,
        segment: 1,
    },
    Event::Finish {
        worker: 1,
        segment: 1,
    },
];

const WRITES: [Item; 1] = [Item {
    kind: DependKind::DependOut,
    name: 0,
}];

const READS: [Item; 1] = [Item {
    kind: DependKind::DependIn,
    name: 0,
}];

fn main(rt: HostRuntime) -> io::Result<()> {
    tell_text(&rt, rt.alloc())?;
    tell_waits(&rt, rt.alloc())?;
    tell_record(&rt, rt.alloc(), 2)?;
    tell_record(&rt, rt.alloc(), 3)?;
    tell_span(&rt, rt.alloc())?;
    tell_kept(&rt, rt.alloc())?;
    tell_graph(&rt, rt.alloc())?;
    tell_certificate(&rt, rt.alloc())
}

fn tell_text(rt: &impl Print, alloc: Global) -> io::Result<()> {
    match reprint(alloc, PROGRAM) {
        Ok(printed) => match str::from_utf8(&printed) {
            Ok(text) => print!(rt; "{text}"),
            Err(fault) => println!(rt; "{fault}"),
        },
        Err(fault) => println!(rt; "{fault:?}"),
    }
}

fn table_of(alloc: Global) -> Result<SegTable, ReadFault> {
    let program = read_program(alloc, PROGRAM)?;
    let table = cut(alloc, &program)?;
    Ok(table)
}

fn tell_waits(rt: &impl Print, alloc: Global) -> io::Result<()> {
    let table = match table_of(alloc) {
        Ok(table) => table,
        Err(fault) => return println!(rt; "{fault:?}"),
    };
    for segment in 0..table.len() {
        match waits_of(alloc, &table, segment) {
            Ok(waits) => println!(rt; "{segment} waits for {:?}", waits.as_slice())?,
            Err(_) => println!(rt; "out of memory")?,
        }
    }
    Ok(())
}

fn tell_record(rt: &impl Print, alloc: Global, segment: u32) -> io::Result<()> {
    let table = match table_of(alloc) {
        Ok(table) => table,
        Err(fault) => return println!(rt; "{fault:?}"),
    };
    match record_of(alloc, table, &LOG, segment) {
        Ok(Some(preds)) => println!(rt; "{segment} was recorded after {:?}", preds.as_slice()),
        Ok(None) => println!(rt; "{segment} is not open"),
        Err(fault) => println!(rt; "{fault:?}"),
    }
}

fn tell_span(rt: &impl Print, alloc: Global) -> io::Result<()> {
    match span_of(alloc, PROGRAM) {
        Ok(span) => println!(rt; "no schedule ends before {span}"),
        Err(fault) => println!(rt; "{fault:?}"),
    }
}

fn tell_kept(rt: &impl Print, alloc: Global) -> io::Result<()> {
    match kept_after(alloc, &WRITES, &READS) {
        Ok(kept) => println!(rt; "a reader is kept after {:?}", kept.as_slice()),
        Err(_) => println!(rt; "out of memory"),
    }
}

fn start(worker: u32, segment: u32) -> Event {
    Event::Start { worker, segment }
}

fn finish(worker: u32, segment: u32) -> Event {
    Event::Finish { worker, segment }
}

fn tell_graph(rt: &impl Print, alloc: Global) -> io::Result<()> {
    let table = match table_of(alloc) {
        Ok(table) => table,
        Err(fault) => return println!(rt; "{fault:?}"),
    };
    let events = [
        start(0, 0),
        finish(0, 0),
        start(1, 1),
        finish(1, 1),
        start(0, 2),
        finish(0, 2),
        start(1, 3),
        finish(1, 3),
    ];
    match graph_of_log(alloc, table, &events) {
        Some(graph) => tell_trial(rt, alloc, graph),
        None => println!(rt; "no finished run"),
    }
}

fn tell_trial(rt: &impl Print, alloc: Global, graph: Graph) -> io::Result<()> {
    for last in [7, 8] {
        let is_legal = is_legal(&graph, &[0, 5, 5, last]);
        println!(rt; "a start at {last} is legal: {is_legal}")?;
    }
    match spans_of_trial(alloc, graph, 2, 4) {
        Ok((changed, own)) => println!(rt;
            "the span is {changed} with a cost of 4, and {own} again"
        ),
        Err(fault) => println!(rt; "{fault:?}"),
    }
}

fn tell_certificate(rt: &impl Print, alloc: Global) -> io::Result<()> {
    let program = match read_program(alloc, PROGRAM) {
        Ok(program) => program,
        Err(fault) => return println!(rt; "{fault:?}"),
    };
    match certify(alloc, &program, &mut Counted::new(io::writer(rt))) {
        Ok(()) => Ok(()),
        Err(fault) => println!(rt; "{fault:?}"),
    }
}
