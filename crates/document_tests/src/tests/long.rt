//! Documents and texts of 5,000 tasks: more tasks and segments than the ten commands take, and
//! reports that are longer than what is put together before it is written.
use crate::tests::command_gives;
use spanprof_command::Status;
use std::alloc::Global;
use std::process::Abort;
use std::test::Fail;

/// Segment 2k + 1 is a task, the others are of the root.
fn program(alloc: Global) -> Result<String, Fail> {
    let mut text = String::from_str(alloc, "omptasks 1\n")?;
    for _ in 0..5_000 {
        text.push_str("task { work 1 }\n")?;
    }
    Ok(text)
}

/// The program and the divider.
fn begun(alloc: Global) -> Result<String, Fail> {
    let mut document = program(alloc)?;
    document.push_str("---\n")?;
    Ok(document)
}

/// One thread runs the segments in order, each for a moment.
fn add_times(document: &mut String) -> Result<(), Fail> {
    document.push_str("times 1 0 10001\n")?;
    for segment in 0..10_001 {
        let end = segment + 1;
        write!(document, "{segment} 0 {segment} {end}\n")?;
    }
    Ok(())
}

/// The program and the times of that run.
fn timed_run(alloc: Global) -> Result<String, Fail> {
    let mut document = begun(alloc)?;
    add_times(&mut document)?;
    Ok(document)
}

/// The events of that run.
fn replayed_run(alloc: Global) -> Result<String, Fail> {
    let mut document = begun(alloc)?;
    for segment in 0..10_001 {
        write!(document, "start 0 {segment}\nfinish 0 {segment}\n")?;
    }
    Ok(document)
}

/// Each task begins behind the segment before it, and the root goes on behind that segment too.
fn replay_report(alloc: Global) -> Result<String, Fail> {
    let mut text = String::from_str(alloc, "events 20002\nfinished 10001\npreds 0\n")?;
    for task in 0..5_000u32 {
        let before = 2 * task;
        let (first, next) = (before + 1, before + 2);
        write!(text, "preds {first} {before}\npreds {next} {before}\n")?;
    }
    Ok(text)
}

/// All segments can start at once, since the root works nothing.
fn claimed(alloc: Global) -> Result<String, Fail> {
    let mut document = begun(alloc)?;
    document.push_str("end 1\n")?;
    for segment in 0..10_001 {
        write!(document, "start {segment} 0\n")?;
    }
    document.push_str("chain 0 1\n")?;
    Ok(document)
}

/// Each task works two moments more.
fn changed(alloc: Global) -> Result<String, Fail> {
    let mut document = begun(alloc)?;
    for task in 0..5_000u32 {
        let segment = 2 * task + 1;
        write!(document, "{segment}=3\n")?;
    }
    Ok(document)
}

#[test]
fn whatif(rt: HostRuntime) -> Result<(), Fail> {
    let document = changed(rt.alloc())?;
    let (words, text) = (&["--listed"], "work 15000\nspan 3\nwas 1\n");
    assert!(&rt; command_gives(&rt, "whatif", words, document.as_str(), text, Status::Done)?);
    Ok(())
}

/// The root at place 0, and each task at one of two others.
fn placed(alloc: Global) -> Result<String, Fail> {
    let mut document = begun(alloc)?;
    for task in 0..5_000u32 {
        let place = 1 + task % 2;
        write!(document, "0 {place}\n")?;
    }
    document.push_str("0\n")?;
    Ok(document)
}

#[test]
fn places(rt: HostRuntime) -> Result<(), Fail> {
    let document = placed(rt.alloc())?;
    let text =
        "place,segments,work,on_path,path,slack\n0,5001,0,1,0,0\n1,2500,2500,1,1,0\n2,2500,2500,0,0,0\n";
    assert!(&rt; command_gives(&rt, "places", &[], document.as_str(), text, Status::Done)?);
    Ok(())
}

#[test]
fn timed_places(rt: HostRuntime) -> Result<(), Fail> {
    let mut document = placed(rt.alloc())?;
    document.push_str("---\n")?;
    add_times(&mut document)?;
    let text = "place,segments,work,on_path,path,slack,busy,delayed,starved\n\
        0,5001,0,1,0,0,5001,0,0\n1,2500,2500,1,1,0,2500,0,0\n2,2500,2500,0,0,0,2500,0,0\n";
    assert!(&rt; command_gives(&rt, "places", &[], document.as_str(), text, Status::Done)?);
    Ok(())
}

#[test]
fn account(rt: HostRuntime) -> Result<(), Fail> {
    let document = timed_run(rt.alloc())?;
    let text = "threads 1\nelapsed 10001\nbusy 10001\ndelayed 0\nstarved 0\noutside 0\n";
    assert!(&rt; command_gives(&rt, "account", &[], document.as_str(), text, Status::Done)?);
    Ok(())
}

#[test]
fn replay(rt: HostRuntime) -> Result<(), Fail> {
    let alloc = rt.alloc();
    let (document, text) = (replayed_run(alloc)?, replay_report(alloc)?);
    let (document, text) = (document.as_str(), text.as_str());
    assert!(&rt; command_gives(&rt, "replay", &[], document, text, Status::Done)?);
    Ok(())
}

#[test]
fn check(rt: HostRuntime) -> Result<(), Fail> {
    let document = claimed(rt.alloc())?;
    let text = "accepted\nsegments 10001\nend 1\n";
    assert!(&rt; command_gives(&rt, "check", &[], document.as_str(), text, Status::Done)?);
    Ok(())
}

/// Each task can begin at once and ends last, and so only the root's last segment has a slack.
fn slack_report(alloc: Global) -> Result<String, Fail> {
    let mut text = String::from_str(alloc, "segment,task,cost,start,slack,chain\n")?;
    text.push_str("0,0,0,0,0,1\n1,1,1,0,0,1\n")?;
    for task in 2..5_001u32 {
        let segment = 2 * task - 1;
        let before = segment - 1;
        write!(text, "{before},0,0,0,0,0\n{segment},{task},1,0,0,0\n")?;
    }
    text.push_str("10000,0,0,0,1,0\n")?;
    Ok(text)
}

#[test]
fn slack(rt: HostRuntime) -> Result<(), Fail> {
    let alloc = rt.alloc();
    let (program, text) = (program(alloc)?, slack_report(alloc)?);
    let (program, text) = (program.as_str(), text.as_str());
    assert!(&rt; command_gives(&rt, "slack", &[], program, text, Status::Done)?);
    Ok(())
}

/// On 64 threads: the root's segments take no time, and each moment has the next 64 tasks.
fn greedy_report(alloc: Global) -> Result<String, Fail> {
    let mut text = String::from_str(alloc, "segment,start,end,thread\n")?;
    for task in 0..5_000u32 {
        let (before, segment) = (2 * task, 2 * task + 1);
        let (start, thread) = (task / 64, task % 64);
        let end = start + 1;
        write!(text, "{before},0,0,\n{segment},{start},{end},{thread}\n")?;
    }
    text.push_str("10000,0,0,\n")?;
    Ok(text)
}

#[test]
fn greedy(rt: HostRuntime) -> Result<(), Fail> {
    let alloc = rt.alloc();
    let (program, text) = (program(alloc)?, greedy_report(alloc)?);
    let words = &["--threads", "64"];
    let (program, text) = (program.as_str(), text.as_str());
    assert!(&rt; command_gives(&rt, "greedy", words, program, text, Status::Done)?);
    Ok(())
}
