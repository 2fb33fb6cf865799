//! The first overlap of claims and events.
use exclusive_tasks::Event::{Finish, Start};
use exclusive_tasks::{Claim, Event, Overlap, first_overlap};
use std::alloc::Global;
use std::test::Fail;

/// The parent, the location, the first segment and the last one of a claim.
type ClaimRow = (u32, u32, u32, u32);

/// A task of segments 10 to 12 under task 7, at location 3.
const LONG: ClaimRow = (7, 3, 10, 12);

/// Its sibling of one segment at the same location.
const SHORT: ClaimRow = (7, 3, 20, 20);

/// Claims and events, and the event, the claim that begins and the claim under way that are wanted.
type Row = (
    &'static [ClaimRow],
    &'static [Event],
    Option<(usize, usize, usize)>,
);

/// The claims of these rows.
fn claims_of(alloc: Global, rows: &[ClaimRow]) -> Result<Vec<Claim>, Fail> {
    let mut claims = Vec::new(alloc);
    for (parent, location, first, last) in rows {
        claims.push(Claim {
            parent: *parent,
            location: *location,
            first: *first,
            last: *last,
        })?;
    }
    Ok(claims)
}

/// What is found, as a row has it.
fn found(
    alloc: Global,
    rows: &[ClaimRow],
    events: &[Event],
) -> Result<Option<(usize, usize, usize)>, Fail> {
    let claims = claims_of(alloc, rows)?;
    match first_overlap(alloc, claims.as_slice(), events)? {
        None => Ok(None),
        Some(
            Overlap {
                event,
                begins,
                under_way,
            },
        ) => Ok(Some((event, begins, under_way))),
    }
}

const APART: &[Row] = &[
    (&[], &[], None),
    (&[LONG, SHORT], &[], None),
    (&[], &[Start(10), Start(20)], None),
    (&[LONG], &[Start(10), Finish(10), Start(20)], None),
    (
        &[LONG, SHORT],
        &[
            Start(10),
            Finish(10),
            Start(12),
            Finish(12),
            Start(20),
            Finish(20),
        ],
        None,
    ),
    (
        &[LONG, SHORT],
        &[Start(20), Finish(20), Start(10), Finish(12)],
        None,
    ),
    // no task of these claims begins with segment 12 or 11
    (&[LONG, SHORT], &[Start(12), Start(11), Start(20)], None),
];

const OVERLAPPING: &[Row] = &[
    (&[LONG, SHORT], &[Start(10), Start(20)], Some((1, 1, 0))),
    (&[LONG, SHORT], &[Start(20), Start(10)], Some((1, 0, 1))),
    (&[SHORT, LONG], &[Start(10), Start(20)], Some((1, 0, 1))),
    // it is under way where it is suspended, until its last segment is finished
    (
        &[LONG, SHORT],
        &[Start(10), Finish(10), Start(20), Finish(20), Start(12)],
        Some((2, 1, 0)),
    ),
    (
        &[LONG, SHORT],
        &[
            Start(10),
            Finish(10),
            Start(11),
            Finish(11),
            Start(12),
            Start(20),
        ],
        Some((5, 1, 0)),
    ),
    // the first of two
    (
        &[LONG, SHORT],
        &[Start(10), Start(20), Finish(20), Start(20)],
        Some((1, 1, 0)),
    ),
    // other segments count as events
    (
        &[LONG, SHORT],
        &[Start(1), Finish(1), Start(10), Start(2), Start(20)],
        Some((4, 1, 0)),
    ),
];

const SOME_AT_OTHERS: &[Row] = &[
    // at another location
    (
        &[LONG, (7, 4, 20, 20)],
        &[Start(10), Start(20), Finish(20), Finish(12)],
        None,
    ),
    // of another parent
    (
        &[LONG, (8, 3, 20, 20)],
        &[Start(10), Start(20), Finish(20), Finish(12)],
        None,
    ),
    // of the second's two locations the first has one
    (
        &[(7, 4, 20, 20), LONG, SHORT],
        &[Start(10), Start(20)],
        Some((1, 2, 1)),
    ),
    // of the first's two locations the second has one
    (
        &[(7, 4, 10, 12), LONG, SHORT],
        &[Start(10), Start(20)],
        Some((1, 2, 1)),
    ),
    // both have both locations
    (
        &[LONG, (7, 4, 10, 12), SHORT, (7, 4, 20, 20)],
        &[Start(10), Start(20)],
        Some((1, 2, 0)),
    ),
    (
        &[(7, 4, 20, 20), SHORT, LONG, (7, 4, 10, 12)],
        &[Start(10), Start(20)],
        Some((1, 0, 3)),
    ),
    // the third begins against two others, which are apart from each other
    (
        &[(7, 4, 30, 30), (7, 3, 30, 30), LONG, (7, 4, 20, 20)],
        &[Start(10), Start(20), Start(30)],
        Some((2, 0, 3)),
    ),
    // one claim twice: the least of both
    (
        &[SHORT, SHORT, LONG, LONG],
        &[Start(10), Start(20)],
        Some((1, 0, 2)),
    ),
];

const OUT_OF_ORDER: &[Row] = &[
    // a finish before the start ends nothing
    (
        &[LONG, SHORT],
        &[Finish(12), Start(10), Start(20)],
        Some((2, 1, 0)),
    ),
    (
        &[LONG, SHORT],
        &[Finish(20), Start(20), Finish(20), Start(10)],
        None,
    ),
    // a task does not exclude itself, nor another claim that begins with its first segment
    (&[LONG], &[Start(10), Start(10)], None),
    (
        &[LONG, (7, 3, 10, 11)],
        &[Start(10), Start(10), Finish(11), Start(10)],
        None,
    ),
    // one finish ends what began twice
    (
        &[LONG, SHORT],
        &[Start(10), Start(10), Finish(12), Start(20)],
        None,
    ),
    // what begins again is under way again
    (
        &[LONG, SHORT],
        &[Start(10), Finish(12), Start(10), Start(20)],
        Some((3, 1, 0)),
    ),
    (
        &[LONG, SHORT],
        &[Start(10), Finish(12), Start(20), Start(10)],
        Some((3, 0, 1)),
    ),
];

/// The largest numbers.
const LAST: ClaimRow = (u32::MAX, u32::MAX, u32::MAX, u32::MAX);

const AT_LIMITS: &[Row] = &[
    (
        &[LAST, (u32::MAX, u32::MAX, 0, 0)],
        &[Start(u32::MAX), Start(0)],
        Some((1, 1, 0)),
    ),
    (
        &[LAST, (u32::MAX, u32::MAX, 0, 0)],
        &[Start(u32::MAX), Finish(u32::MAX), Start(0)],
        None,
    ),
    (
        &[LAST, (0, u32::MAX, 0, 0)],
        &[Start(u32::MAX), Start(0)],
        None,
    ),
    (
        &[LAST, (u32::MAX, 0, 0, 0)],
        &[Start(u32::MAX), Start(0)],
        None,
    ),
];

const TABLES: &[&[Row]] = &[APART, OVERLAPPING, SOME_AT_OTHERS, OUT_OF_ORDER, AT_LIMITS];

#[test]
fn first_overlaps(rt: HostRuntime) -> Result<(), Fail> {
    for (table, rows) in TABLES.iter().enumerate() {
        for (row, (claims, events, wanted)) in rows.iter().enumerate() {
            assert_eq!(rt;
                found(rt.alloc(), claims, events)?,
                *wanted,
                "table {table}, row {row}"
            );
        }
    }
    Ok(())
}
