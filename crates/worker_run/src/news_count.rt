//! How often there was news, and the sleep of a thread until there is more.
ghost use Rattle.std.specs.Prelude.{◌≡◌};

use std::sync::Wait;
use std::sync::atomic::{AtomicU64, Ordering};

/// How often there was news, as it was read. Only [`NewsCount::read`] makes it.
#[derive(Debug, PartialEq, Eq, Drop)]
pub struct News {
    count: u64,
}

/// How often there was news so far.
#[derive(Drop)]
pub struct NewsCount {
    count: AtomicU64,
}

impl NewsCount {
    /// The count where there was no news yet.
    pub fn new() -> NewsCount {
        NewsCount {
            count: AtomicU64::new(0),
        }
    }

    /// How often there was news so far.
    pub fn read(&self) -> News {
        News {
            count: self.count.load(Ordering::SeqCst),
        }
    }

    /// Counts news. No sleeper is woken by that alone.
    pub fn add(&self) {
        self.count.fetch_add(1, Ordering::SeqCst);
    }

    pub(crate) fn wake_one(&self) {
        self.count.wake_one();
    }

    pub(crate) fn wake_all(&self) {
        self.count.wake_all();
    }

    /// Sleeps until it is woken, and not at all where there was news since this was read. It may
    /// also return for no reason. It hands back what it slept on.
    pub fn sleep<R: Wait>(&self, rt: &R, seen: News) -> News
        ensures { result ≡ seen }
    {
        self.count.park(rt, (seen.count % (1 << 32)) as u32);
        seen
    }
}
