//! Texts of events.
use super::repeated;
use dispatch_core::event::Event;
use spanprof_command::{EventsFault, read_events};
use std::alloc::Global;
use std::test::*;

/// The fault of a text, or its number of events.
fn outcome(alloc: Global, text: &[u8]) -> (Option<EventsFault>, usize) {
    match read_events(alloc, text) {
        Ok(events) => (None, events.len()),
        Err(fault) => (Some(fault), 0),
    }
}

#[test]
fn events_in_order(rt: HostRuntime) {
    let text = b"start 0 0\nfinish 0 0\r\n\tstart 63 0004294967295 finish 4294967295 16383";
    let wanted = [
        Event::Start {
            worker: 0,
            segment: 0,
        },
        Event::Finish {
            worker: 0,
            segment: 0,
        },
        Event::Start {
            worker: 63,
            segment: 4_294_967_295,
        },
        Event::Finish {
            worker: 4_294_967_295,
            segment: 16_383,
        },
    ];
    match read_events(rt.alloc(), text) {
        Ok(events) => assert_eq!(rt; events.as_slice(), wanted.as_slice()),
        Err(fault) => assert_eq!(rt; Some(fault), None),
    }
}

/// A text, its fault, and its number of events.
const FORMS: &[(&[u8], Option<EventsFault>, usize)] = &[
    (b"", None, 0),
    (b" \t\r\n", None, 0),
    (b"start 0 0", None, 1),
    (b"start 0 0 finish 0 0", None, 2),
    (b"start", Some(EventsFault::BadForm), 0),
    (b"start 0", Some(EventsFault::BadForm), 0),
    (b"start 0 0 0", Some(EventsFault::BadForm), 0),
    (b"start 0 finish 0 0", Some(EventsFault::BadForm), 0),
    (b"start 0 0 finish", Some(EventsFault::BadForm), 0),
    (b"0 start 0", Some(EventsFault::BadForm), 0),
    (b"go", Some(EventsFault::BadForm), 0),
    (b"Start 0 0", Some(EventsFault::BadForm), 0),
    (b"start 0 4294967296", Some(EventsFault::BadForm), 0),
    (b"start 4294967296 0", Some(EventsFault::BadForm), 0),
    (b"start 0 -1", Some(EventsFault::BadForm), 0),
    (b"start 0 0 # later", Some(EventsFault::BadForm), 0),
    (b"start 0,0", Some(EventsFault::BadForm), 0),
    (
        b"start 0 99999999999999999999999",
        Some(EventsFault::BadForm),
        0,
    ),
];

#[test]
fn forms(rt: HostRuntime) {
    for (text, fault, events) in FORMS {
        assert_eq!(rt; outcome(rt.alloc(), *text), (*fault, *events));
    }
}

#[test]
fn most_events(rt: HostRuntime) -> Result<(), Fail> {
    let alloc = rt.alloc();
    let most = repeated(alloc, "start 0 0\n", 65_536)?;
    assert_eq!(rt; outcome(alloc, most.as_bytes()), (None, 65_536));
    let more = repeated(alloc, "start 0 0\n", 65_537)?;
    assert_eq!(rt;
        outcome(alloc, more.as_bytes()),
        (Some(EventsFault::BadForm), 0)
    );
    Ok(())
}
