//! The worked program with the places of its segments behind it.

use super::command_gives;
use super::rows::BEGUN;
use spanprof_command::Status;
use std::alloc::AllocGlobal;
use std::process::Abort;
use std::test::Fail;
use std::thread::Threads;

/// Places, and the rows of each. The segments have costs 5, 3, 2 and 1, and 2 alone is not on the
/// path, with a slack of 1.
const PLACES: &[(&str, &str)] = &[
    (
        "0 1 2 3",
        "0,1,5,1,5,0\n1,1,3,1,3,0\n2,1,2,0,0,1\n3,1,1,1,1,0\n",
    ),
    ("0\n0\n1\n0\n", "0,3,9,3,9,0\n1,1,2,0,0,1\n"),
    ("\r\n1 0\t1  001", "0,1,3,1,3,0\n1,3,8,2,6,0\n"),
    ("2 0 2 2\n", "0,1,3,1,3,0\n1,0,0,0,0,\n2,3,8,2,6,0\n"),
    ("0 0 0 0", "0,4,11,3,9,0\n"),
];

/// The times of a run, by hand: at 5 segments 1 and 2 become ready.
const TIMES: &str = "times 2 0 14\n0 0 0 5\n1 0 6 9\n2 0 9 11\n3 1 12 13\n";

/// Places, and the rows of each with these times. From 5 on two threads are delayed at segment 1, from
/// 6 on one at 2, and from 11 on two at 3; one starves while 0, 2 and 3 run.
const TIMED: &[(&str, &str)] = &[
    (
        "0 1 2 3\n",
        "0,1,5,1,5,0,5,0,5\n1,1,3,1,3,0,3,2,0\n2,1,2,0,0,1,2,3,2\n3,1,1,1,1,0,1,2,1\n",
    ),
    ("0 0 0 0\n", "0,4,11,3,9,0,11,7,8\n"),
    (
        "\n2 0\n2 2\r\n",
        "0,1,3,1,3,0,3,2,0\n1,0,0,0,0,,0,0,0\n2,3,8,2,6,0,8,5,8\n",
    ),
];

/// What stands behind four places, and why it is refused.
const FAULTS: &[(&str, &str)] = &[
    ("", "error: line 6: BadForm\n"),
    ("times 2 0 14\n0 0 0 5\n---\n", "error: line 8: BadForm\n"),
    ("times 2 0 14\n4 0 0 5\n", "error: line 7: UnknownSegment\n"),
    ("times 2 0 14\n0 0 0 5\n", "error: NotTimed 1\n"),
    (
        "times 2 0 14\n0 0 0 5\n1 0 4 9\n2 0 9 11\n3 1 12 13\n",
        "error: TooSoon 1 0\n",
    ),
];

/// Places, and why they are refused.
const REFUSED: &[(&str, &str)] = &[
    ("", "error: Count\n"),
    ("0 0 0", "error: Count\n"),
    ("0 0 0 0 0", "error: Count\n"),
    ("0 0 0 4", "error: BadForm\n"),
    ("0 0 0 0 0 4", "error: BadForm\n"),
    ("0 0 0 18446744073709551616", "error: BadForm\n"),
    ("0 0 0 -1", "error: BadForm\n"),
    ("0 0 0 0 # later", "error: BadForm\n"),
    ("0 0 0\n---\n", "error: Count\n"),
    ("0 0 0 x\n---\n", "error: BadForm\n"),
];

/// Whether each list of places behind the worked program gives its text.
fn gives<H: AllocGlobal + Threads + Abort + Sync>(
    rt: &H,
    places: &str,
    text: &str,
    status: Status,
) -> Result<(), Fail> {
    let document = format!(in rt.alloc(); "{BEGUN}{places}")?;
    assert!(rt;
        command_gives(rt, "places", &[], document.as_str(), text, status)?,
        "{places}"
    );
    Ok(())
}

#[test]
fn tables(rt: HostRuntime) -> Result<(), Fail> {
    for (places, rows) in PLACES {
        let text = format!(in rt.alloc(); "place,segments,work,on_path,path,slack\n{rows}")?;
        gives(&rt, places, text.as_str(), Status::Done)?;
    }
    Ok(())
}

#[test]
fn timed_tables(rt: HostRuntime) -> Result<(), Fail> {
    for (places, rows) in TIMED {
        let document = format!(in rt.alloc(); "{places}---\n{TIMES}")?;
        let text = format!(in rt.alloc();
            "place,segments,work,on_path,path,slack,busy,delayed,starved\n{rows}"
        )?;
        gives(&rt, document.as_str(), text.as_str(), Status::Done)?;
    }
    Ok(())
}

#[test]
fn refused_times(rt: HostRuntime) -> Result<(), Fail> {
    for (times, text) in FAULTS {
        let document = format!(in rt.alloc(); "0 0 0 0\n---\n{times}")?;
        gives(&rt, document.as_str(), text, Status::Refused)?;
    }
    Ok(())
}

#[test]
fn refused_places(rt: HostRuntime) -> Result<(), Fail> {
    for (places, text) in REFUSED {
        gives(&rt, places, text, Status::Refused)?;
    }
    Ok(())
}

#[test]
fn no_divider(rt: HostRuntime) -> Result<(), Fail> {
    let text = "error: BadForm\n";
    assert!(&rt; command_gives(&rt, "places", &[], "omptasks 1\n", text, Status::Refused)?);
    Ok(())
}
