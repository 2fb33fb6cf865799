//! Segments that are started, and the kernel's calls for them, which are counted.
ghost use Rattle.std.specs.Prelude.{◌≡◌, ◌+◌, ◌<◌, ◌^◌, ◌++◌, ◌∷◌, [], MatchOption, IfSome, IfOk};
ghost use Rattle.std.specs.Prelude.{OnErr, IsTrue};
ghost use Rattle.dispatch_core.specs.Refusals.{RefusesStart};
ghost use Rattle.dispatch_core.specs.Run.{MayStart, Runs};

use crate::desk::Desk;
use crate::gate::Gate;
use dispatch_core::dispatch::Core;
use dispatch_core::event::{Event, StartRefusal};
use dispatch_core::kernel::{Kernel, KernelFault, SegResult};

/// A segment that was started, with the cost and the input that its kernel is called with.
#[derive(Clone, Copy, Debug, PartialEq, Eq)]
pub struct Job {
    pub segment: u32,
    pub cost: u64,
    pub input: u64,
}

/// A segment that the core let a worker start. Only [`Started::start`] makes it, and it cannot be
/// dropped: it is computed, or given up where the run is over.
pub(crate) struct Started {
    job: Job,
}

impl Started {
    ghost use Rattle.worker_run.specs.Jobs.{IsJobOf};

    /// Starts a segment where the core lets the worker start it.
    pub(crate) fn start<K: Kernel>(core: &mut Core<K>, worker: u32, segment: u32) -> Option<Started>
        ensures started { MatchOption result ((core.new ≡ core.old)
            × ((why : StartRefusal) × RefusesStart core.old.table core.old.history
            worker segment why))
            (λ started. (started.job.segment ≡ segment)
            × IsJobOf core.old.table K.value_of started.job
            × (core.new ≡ record {
              table = core.old.table;
              history = core.old.history ++ Event.Start worker segment ∷ [];
            })) }
        ensures may { IfSome result (λ _. MayStart core.old.table core.old.history worker segment) }
        ensures runs { IfSome result (λ started. Runs core.new.history worker started.job.segment
            × IsJobOf core.new.table K.value_of started.job) }
    {
        dispatch_core::laws::legal_history(core);
        match core.start(worker, segment) {
            Ok(input) => Some(Started {
                job: Job {
                    segment,
                    cost: core.table().cost(segment),
                    input,
                },
            }),
            Err(_) => None,
        }
    }

    pub(crate) fn segment(&self) -> u32
        ensures { result ≡ self.now.job.segment }
    {
        self.job.segment
    }

    /// Gives the segment up, where the run is over.
    pub(crate) fn give_up<K: Kernel>(self, desk: &Desk<K>)
        requires { IsTrue desk.now.over }
    {
        prove!(desk.is_over());
        let Started { job: _ } = self;
    }
}

/// A segment between the gate's two calls, and how often the kernel was called for it. It cannot be
/// dropped.
pub(crate) struct UnderWay<'a, G: Gate> {
    gate: &'a G,
    job: Job,
    calls: u32,
    ghost before: { IsTrue (G.is_before gate.now job.segment) },
}

impl<'a, G: Gate> UnderWay<'a, G> {
    /// A started segment, once the gate was called before it.
    pub(crate) fn new(gate: &'a G, started: Started) -> UnderWay<'a, G>
        requires { IsTrue (G.is_before gate.now started.job.segment) }
        ensures gate { result.gate.now ≡ gate.now }
        ensures job { result.job ≡ started.job }
        ensures calls { result.calls ≡ 0 }
    {
        let Started { job } = started;
        UnderWay {
            gate,
            job,
            calls: 0,
        }
    }

    /// Calls the gate after the kernel's only call. It answers what the kernel was called with, and
    /// how often.
    pub(crate) fn leave(self) -> (Job, u32)
        requires { self.calls ≡ 1 }
        ensures after { IsTrue (G.is_after self.entry.gate.now self.entry.job.segment) }
        ensures job { result.0 ≡ self.entry.job }
        ensures calls { result.1 ≡ self.entry.calls }
    {
        let UnderWay { gate, job, calls } = self;
        gate.after(job.segment);
        (job, calls)
    }
}

/// A kernel whose calls are counted. Nothing else in a run has the kernel.
#[derive(Drop)]
pub(crate) struct CountedKernel<'a, K: Kernel> {
    kernel: &'a K,
}

impl<'a, K: Kernel> CountedKernel<'a, K> {
    pub(crate) fn new(kernel: &'a K) -> CountedKernel<'a, K> {
        CountedKernel { kernel }
    }

    /// Calls the kernel for a segment that is under way, and counts the call.
    pub(crate) fn call<G: Gate>(
        &self,
        under_way: &mut UnderWay<'_, G>,
    ) -> Result<SegResult<K>, KernelFault>
        requires { under_way.old.calls + 1 < 2 ^ 32 }
        ensures counted { under_way.new.calls ≡ under_way.old.calls + 1 }
        ensures job { under_way.new.job ≡ under_way.old.job }
        ensures gate { under_way.new.gate.now ≡ under_way.old.gate.now }
        ensures ok { IfOk result (λ outcome. (outcome.segment ≡ under_way.old.job.segment)
            × (outcome.cost ≡ under_way.old.job.cost)
            × (outcome.input ≡ under_way.old.job.input)) }
        ensures err { OnErr result (IsTrue (K.may_fault under_way.old.job.segment
            under_way.old.job.cost under_way.old.job.input)) }
    {
        under_way.calls += 1;
        let job = under_way.job;
        SegResult::compute(self.kernel, job.segment, job.cost, job.input)
    }
}
