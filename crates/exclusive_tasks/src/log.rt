//! A log: claims and events, read line by line.
ghost use Rattle.std.specs.Prelude.{◌≡◌, ◌++◌, IfOk, OnOk, Some};
ghost use Rattle.program_text.specs.Document.{lines_of};
ghost use Rattle.exclusive_tasks.specs.Lines.{IsReading, claims_in, events_in};

use crate::claim::{Claim, Event};
use crate::line::{Said, read_line};
use std::alloc::{AllocError, Global};

/// The claims of tasks, and the events of a run.
#[derive(Drop)]
pub struct Log {
    pub claims: Vec<Claim>,
    pub events: Vec<Event>,
}

/// What a text says: a log, or else the first wrong line, by its index from 0.
#[derive(Drop)]
pub enum Reading {
    Log(Log),
    BadForm { line: usize },
}

/// Reads a log. A line `exclusive PARENT LOCATION FIRST LAST` says that a task excludes its
/// siblings at a location: the task that creates it, the location, its first segment and its last.
/// The lines `start THREAD SEGMENT` and `finish THREAD SEGMENT` are the events, in their order.
/// Lines without words say nothing. The error is that memory ran out.
pub fn read_log(alloc: Global, text: &[u8]) -> Result<Reading, AllocError>
    ensures { IfOk result (IsReading (lines_of text.now)) }
{
    let mut claims = Vec::new(alloc);
    let mut events = Vec::new(alloc);
    let mut number = 0;
    for line in text.split(|byte| *byte == b'\n') {
        match read_line(alloc, line)? {
            Some(said) => keep(&mut claims, &mut events, said)?,
            None => return Ok(Reading::BadForm { line: number }),
        }
        number += 1;
    }
    Ok(Reading::Log(Log { claims, events }))
}

/// Keeps what a line says.
fn keep(claims: &mut Vec<Claim>, events: &mut Vec<Event>, said: Said) -> Result<(), AllocError>
    ensures claims { OnOk result (claims.new.items ≡ claims.old.items ++ claims_in (Some said)) }
    ensures events { OnOk result (events.new.items ≡ events.old.items ++ events_in (Some said)) }
{
    match said {
        Said::Blank => {}
        Said::Claim(claim) => claims.push(claim)?,
        Said::Event(event) => events.push(event)?,
    }
    Ok(())
}
