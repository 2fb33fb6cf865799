//! The count of news on which a worker sleeps, in one thread: nobody is there to wake it.
use std::process::Abort;
use std::sync::Wait;
use std::test::Fail;
use worker_run::news_count::NewsCount;

/// News since a read is distinguished from none.
fn check_read(rt: &impl Abort, count: &NewsCount) {
    let before = count.read();
    assert_eq!(rt; count.read(), before);
    count.add();
    assert_ne!(rt; count.read(), before);
}

/// A sleep on what was read before there was news ends, by itself.
fn sleep_on_old_news<R: Wait + Abort>(rt: &R, count: &NewsCount) {
    let seen = count.read();
    let same = count.read();
    count.add();
    assert_eq!(rt; count.sleep(rt, seen), same);
}

#[test]
fn news_is_not_slept_through(rt: HostRuntime) -> Result<(), Fail> {
    let count = NewsCount::new();
    for _ in 0..3 {
        check_read(&rt, &count);
        sleep_on_old_news(&rt, &count);
    }
    Ok(())
}
