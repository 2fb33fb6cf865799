//! What the workers of a run leave: the core, and how each of them ended.
ghost use Rattle.std.specs.Prelude.{◌≡◌, ◌↔◌, IsTrue, IfOk, OnOk, IfErr, IfSome, MatchOption, map};
ghost use Rattle.std.specs.Prelude.{length, IsOk};
ghost use Rattle.worker_run.specs.Answer.{IsWorkerCount, MayAnswer};
ghost use Rattle.worker_run.specs.WorkerEnds.{AreNumbered, Tells, TellNothing, IsFirstTold};
ghost use Rattle.worker_run.specs.Jobs.{AreFinishedBefore, IsJobOf};
ghost use Rattle.worker_run.specs.Workers.{AreBelow, worker_of};

use crate::closing::Leftover;
use crate::counted::Job;
use crate::record::RunFault;
use crate::rest::input_of;
use crate::worker::{Ending, WorkerEnd};
use dispatch_core::dispatch::Core;
use dispatch_core::event::Event;
use dispatch_core::kernel::Kernel;
use task_program::AllocFault;
use task_segments::table::SegTable;

/// The core after all workers have ended, how they did, in their order, and what is left in their
/// lanes. The core can be had only where no end counts as a fault.
#[derive(Drop)]
pub struct Worked<K: Kernel> {
    core: Core<K>,
    ends: Vec<WorkerEnd<K>>,
    left: Leftover,
}

impl<K: Kernel> Worked<K> {
    pub(crate) fn new(core: Core<K>, ends: Vec<WorkerEnd<K>>, left: Leftover) -> Worked<K>
        ensures { (result.core ≡ core) × (result.ends ≡ ends) × (result.left ≡ left) }
    {
        Worked { core, ends, left }
    }

    /// The same, where its core has this table and its workers are below this number. No clause says
    /// what comes out of a lock, so the core that did is compared with a copy of its table.
    pub(crate) fn fitting(self, table: &SegTable, workers: u32) -> Result<Worked<K>, AllocFault>
        ensures same { IfOk result (λ worked. worked ≡ self) }
        ensures table { OnOk result (self.core.table ≡ table.now) }
        ensures below { OnOk result (AreBelow workers self.core.history) }
        ensures kept { self.core.table ≡ table.now → AreBelow workers self.core.history
            → IsOk result }
    {
        if !self.core.table().same(table) || !are_below(self.core.history(), workers) {
            return Err(AllocFault);
        }
        Ok(self)
    }

    /// The core, where no end counts as a fault, and otherwise the first fault that counts.
    pub(crate) fn into_core(self, workers: u32) -> Result<Core<K>, RunFault>
        requires count { IsWorkerCount workers }
        requires each { length self.ends.items ≡ workers }
        requires numbers { AreNumbered (λ end. end.worker) self.ends.items }
        ensures core { IfOk result (λ core. core ≡ self.core) }
        ensures none { OnOk result (TellNothing self.core.table self.core.history K.value_of
            (map (λ end. end.how) self.ends.items)) }
        ensures first { IfErr result (IsFirstTold self.core.table self.core.history K.value_of
            (map (λ end. end.how) self.ends.items)) }
        ensures err { IfErr result (MayAnswer self.core.table K.value_of K.may_fault workers) }
    {
        let Worked { core, ends, left } = self;
        drop(left);
        match first_fault(&core, ends.as_slice(), workers) {
            Some(fault) => Err(fault),
            None => Ok(core),
        }
    }
}

/// Whether all events are of workers below a number.
fn are_below(history: &[Event], workers: u32) -> bool
    ensures { IsTrue result ↔ AreBelow workers history.now }
{
    for event in history {
        if worker_of(*event) >= workers {
            return false;
        }
    }
    true
}

/// The worker of an event.
fn worker_of(event: Event) -> u32
    ensures { result ≡ worker_of event }
{
    match event {
        Event::Start { worker, segment: _ } => worker,
        Event::Finish { worker, segment: _ } => worker,
    }
}

/// The first fault that counts, in the order of the workers.
fn first_fault<K: Kernel>(core: &Core<K>, ends: &[WorkerEnd<K>], workers: u32) -> Option<RunFault>
    requires { IsWorkerCount workers }
    ensures may { IfSome result (MayAnswer core.now.table K.value_of K.may_fault workers) }
    ensures first { MatchOption result
        (TellNothing core.now.table core.now.history K.value_of (map (λ end. end.how) ends.now))
        (IsFirstTold core.now.table core.now.history K.value_of (map (λ end. end.how) ends.now)) }
{
    for end in ends {
        if let Some(fault) = fault_of(core, end, workers) {
            return Some(fault);
        }
    }
    None
}

/// The fault of one worker's end, if it counts.
fn fault_of<K: Kernel>(core: &Core<K>, end: &WorkerEnd<K>, workers: u32) -> Option<RunFault>
    requires { IsWorkerCount workers }
    ensures may { IfSome result (MayAnswer core.now.table K.value_of K.may_fault workers) }
    ensures told { MatchOption result
        ((fault : RunFault) → ¬ Tells core.now.table core.now.history K.value_of end.now.how fault)
        (Tells core.now.table core.now.history K.value_of end.now.how) }
{
    match end.how {
        Ending::Over => None,
        Ending::NoMemory => Some(RunFault::OutOfMemory),
        Ending::Faulted(job) => {
            if !is_job_of(core, job) {
                return None;
            }
            Some(RunFault::Kernel {
                segment: job.segment,
            })
        }
    }
}

/// Whether the kernel was called with the segment's cost and input, all that must precede it being
/// finished.
fn is_job_of<K: Kernel>(core: &Core<K>, job: Job) -> bool
    ensures { IsTrue result ↔ AreFinishedBefore core.now.table core.now.history job.segment
        × IsJobOf core.now.table K.value_of job }
{
    if job.segment >= core.table().len() {
        return false;
    }
    match input_of(core, job.segment) {
        Some(input) => input == job.input && core.table().cost(job.segment) == job.cost,
        None => false,
    }
}
