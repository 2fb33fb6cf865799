//! That workers overlap, and that gate and kernel are called with no lock held: a run in one
//! thread, or one that calls them behind the dispatcher's lock, gives up at the limit and fails.
use super::answer_of;
use dispatch_core::kernel::{Kernel, KernelFault, MixKernel};
use std::alloc::Global;
use std::fmt::Write;
use std::process::Abort;
use std::sync::Wait;
use std::sync::atomic::{AtomicBool, AtomicU64, Ordering};
use std::test::Fail;
use std::thread::Threads;
use task_program::AllocFault;
use worker_run::gate::{Gate, OpenGate};
use worker_run::run::digest;

/// How often a flag or a counter is read at most.
const LIMIT: u64 = 1_000_000_000;

/// Two children, which are segments 1 and 3.
const TWO_TASKS: &str = "task { work 1 } task { work 1 }";

/// One segment waits until another is there.
#[derive(Drop)]
struct Meeting {
    waits: u32,
    tells: u32,
    told: AtomicBool,
    seen: AtomicBool,
}

impl Meeting {
    fn new(waits: u32, tells: u32) -> Meeting {
        Meeting {
            waits,
            tells,
            told: AtomicBool::new(false),
            seen: AtomicBool::new(false),
        }
    }

    fn reach(&self, segment: u32) {
        if segment == self.tells {
            self.told.store(true, Ordering::SeqCst);
        }
        if segment != self.waits {
            return;
        }
        for _ in 0..LIMIT {
            if self.told.load(Ordering::SeqCst) {
                self.seen.store(true, Ordering::SeqCst);
                return;
            }
        }
    }

    fn was_seen(&self) -> bool {
        self.seen.load(Ordering::SeqCst)
    }
}

/// A meeting before two segments, and how often each call was made.
#[derive(Drop)]
struct MeetingGate {
    meeting: Meeting,
    before: AtomicU64,
    after: AtomicU64,
}

impl Gate for MeetingGate {
    fn before(&self, segment: u32) {
        self.before.fetch_add(1, Ordering::SeqCst);
        self.meeting.reach(segment);
    }

    fn after(&self, _segment: u32) {
        self.after.fetch_add(1, Ordering::SeqCst);
    }
}

/// The meeting took place, and both calls were made for each of the five segments.
fn check_gate(rt: &impl Abort, gate: &MeetingGate) {
    assert!(rt; gate.meeting.was_seen(), "the other segment came in time");
    let before = gate.before.load(Ordering::SeqCst);
    assert_eq!(rt; (before, gate.after.load(Ordering::SeqCst)), (5, 5));
}

fn meet_at_the_gate<R: Threads + Wait + Abort + Sync>(
    rt: &R,
    alloc: Global,
    waits: u32,
    tells: u32,
) -> Result<(), Fail> {
    let gate = MeetingGate {
        meeting: Meeting::new(waits, tells),
        before: AtomicU64::new(0),
        after: AtomicU64::new(0),
    };
    let made = answer_of(rt, alloc, TWO_TASKS, &MixKernel, &gate, 2)??;
    check_gate(rt, &gate);
    let sizes = (made.graph.len(), made.graph.edges());
    assert_eq!(rt; (sizes, digest(made.values.as_slice())), ((5, 4), 40));
    Ok(())
}

#[test]
fn two_workers_overlap(rt: HostRuntime) -> Result<(), Fail> {
    meet_at_the_gate(&rt, rt.alloc(), 1, 3)
}

#[test]
fn two_workers_overlap_the_other_way(rt: HostRuntime) -> Result<(), Fail> {
    meet_at_the_gate(&rt, rt.alloc(), 3, 1)
}

/// The mixing kernel, with a meeting in two segments.
#[derive(Drop)]
struct MeetingKernel {
    meeting: Meeting,
}

impl Kernel for MeetingKernel {
    ghost use Rattle.std.specs.Prelude.{false};
    ghost use Rattle.dispatch_core.specs.Mix.{mix_value};

    ghost value_of = { mix_value };

    ghost may_fault = { λ segment cost input. false };

    fn run(&self, segment: u32, cost: u64, input: u64) -> Result<u64, KernelFault> {
        self.meeting.reach(segment);
        MixKernel.run(segment, cost, input)
    }
}

fn meet_in_the_kernel<R: Threads + Wait + Abort + Sync>(
    rt: &R,
    alloc: Global,
    waits: u32,
    tells: u32,
) -> Result<(), Fail> {
    let kernel = MeetingKernel {
        meeting: Meeting::new(waits, tells),
    };
    let made = answer_of(rt, alloc, TWO_TASKS, &kernel, &OpenGate, 2)??;
    assert!(rt; kernel.meeting.was_seen(), "the other segment came in time");
    assert_eq!(rt; digest(made.values.as_slice()), 40);
    Ok(())
}

#[test]
fn two_kernels_overlap(rt: HostRuntime) -> Result<(), Fail> {
    meet_in_the_kernel(&rt, rt.alloc(), 1, 3)
}

#[test]
fn two_kernels_overlap_the_other_way(rt: HostRuntime) -> Result<(), Fail> {
    meet_in_the_kernel(&rt, rt.alloc(), 3, 1)
}

/// So many children, which are the segments of odd number, wait for each other.
#[derive(Drop)]
struct Gathering {
    size: u64,
    here: AtomicU64,
    in_time: AtomicU64,
}

impl Gate for Gathering {
    fn before(&self, segment: u32) {
        if segment % 2 == 0 {
            return;
        }
        self.here.fetch_add(1, Ordering::SeqCst);
        for _ in 0..LIMIT {
            if self.here.load(Ordering::SeqCst) == self.size {
                self.in_time.fetch_add(1, Ordering::SeqCst);
                return;
            }
        }
    }

    fn after(&self, _segment: u32) {}
}

/// A program of as many empty tasks.
fn empty_tasks(alloc: Global, count: u32) -> Result<String, AllocFault> {
    let mut body = String::new(alloc);
    for _ in 0..count {
        write!(body, "task {{ }} ")?;
    }
    Ok(body)
}

#[test]
fn all_workers_overlap(rt: HostRuntime) -> Result<(), Fail> {
    let alloc = rt.alloc();
    for workers in 2..9u32 {
        let body = empty_tasks(alloc, workers)?;
        let gate = Gathering {
            size: u64::from(workers),
            here: AtomicU64::new(0),
            in_time: AtomicU64::new(0),
        };
        let made = answer_of(&rt, alloc, body.as_str(), &MixKernel, &gate, workers)?;
        assert!(rt; made.is_ok(), "{workers} workers");
        assert_eq!(rt; gate.in_time.load(Ordering::SeqCst), u64::from(workers));
    }
    Ok(())
}

/// A writer and three readers of what it writes, which are segments 1, 3, 5 and 7. Segment 8 is the
/// root's last.
const READERS: &str = "task depend(out: a) { } task depend(in: a) { } task depend(in: a) { } task \
    depend(in: a) { }";

/// How often the writer reads a flag, so that workers without a token fall asleep.
const PAUSE: u64 = 10_000_000;

/// The writer waits for the end of the root and a while longer, and then the readers for each other.
#[derive(Drop)]
struct WriterFirst {
    root: Meeting,
    readers: Gathering,
}

impl Gate for WriterFirst {
    fn before(&self, segment: u32) {
        self.root.reach(segment);
        if segment != 1 {
            self.readers.before(segment);
            return;
        }
        for _ in 0..PAUSE {
            self.root.was_seen();
        }
    }

    fn after(&self, _segment: u32) {}
}

/// Three readers become ready by the end of one writer, and each is run by another worker.
#[test]
fn readers_overlap(rt: HostRuntime) -> Result<(), Fail> {
    let gate = WriterFirst {
        root: Meeting::new(1, 8),
        readers: Gathering {
            size: 3,
            here: AtomicU64::new(0),
            in_time: AtomicU64::new(0),
        },
    };
    let made = answer_of(&rt, rt.alloc(), READERS, &MixKernel, &gate, 3)?;
    assert!(rt; made.is_ok() && gate.root.was_seen());
    assert_eq!(rt; gate.readers.in_time.load(Ordering::SeqCst), 3);
    Ok(())
}
