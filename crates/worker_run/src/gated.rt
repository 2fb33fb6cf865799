//! The kernel of a run under its gate, and what comes of a call of it.
ghost use Rattle.std.specs.Prelude.{◌≡◌, ◌++◌, ◌∷◌, [], IfOk, IfErr, OnOk, OnErr, IsTrue, MatchResult};
ghost use Rattle.depend_table.specs.Lists.{Lists};
ghost use Rattle.dispatch_core.specs.Refusals.{IsIdle, MayFinish, RefusesFinish};
ghost use Rattle.dispatch_core.specs.Run.{BecomesReady};

use crate::counted::{CountedKernel, Started, UnderWay};
use crate::gate::Gate;
use crate::worker::Fault;
use dispatch_core::dispatch::Core;
use dispatch_core::event::{Event, FinishKind};
use dispatch_core::kernel::{Kernel, SegResult};

/// What the one call of the kernel for a segment computed. It cannot be dropped: it is finished.
pub(crate) struct Computed<K: Kernel> {
    outcome: SegResult<K>,
    calls: u32,
    ghost once: { calls ≡ 1 },
}

impl<K: Kernel> Computed<K> {
    /// Finishes the segment where the core lets the worker finish it so, and answers the segments
    /// that become ready by it, or else why it does not.
    pub(crate) fn finish(self, core: &mut Core<K>, worker: u32) -> Result<Vec<u32>, FinishKind>
        ensures legal { OnOk result (MayFinish core.old.table core.old.history K.value_of worker
            self.outcome) }
        ensures next { OnOk result (core.new ≡ record {
          table = core.old.table;
          history = core.old.history ++ Event.Finish worker self.outcome.segment ∷ [];
        }) }
        ensures ready { IfOk result (λ ready.
            Lists (BecomesReady core.old.table core.old.history core.new.history) ready.items) }
        ensures refused { IfErr result (RefusesFinish core.old.table core.old.history K.value_of
            worker self.outcome) }
        ensures same { OnErr result (core.new ≡ core.old) }
        ensures rest { OnOk result (IsIdle core.new.history worker) }
    {
        dispatch_core::laws::legal_history(core);
        let Computed { outcome, calls: _ } = self;
        match core.finish(worker, outcome) {
            Ok(ready) => Ok(ready),
            Err(refusal) => Err(refusal.kind),
        }
    }
}

/// The kernel of a run under its gate. All that calls the kernel has nothing but this.
#[derive(Drop)]
pub(crate) struct GatedKernel<'a, K: Kernel, G: Gate> {
    kernel: CountedKernel<'a, K>,
    gate: &'a G,
}

impl<'a, K: Kernel, G: Gate> GatedKernel<'a, K, G> {
    pub(crate) fn new(kernel: &'a K, gate: &'a G) -> GatedKernel<'a, K, G> {
        GatedKernel {
            kernel: CountedKernel::new(kernel),
            gate,
        }
    }

    /// Calls the kernel once for a started segment, and the gate before and after it, also where the
    /// kernel faults.
    pub(crate) fn call(&self, started: Started) -> Result<Computed<K>, Fault<K>>
        ensures ok { IfOk result (λ computed. (computed.outcome.segment ≡ started.job.segment)
            × (computed.outcome.cost ≡ started.job.cost)
            × (computed.outcome.input ≡ started.job.input)) }
        ensures err { IfErr result (λ fault. fault.job ≡ started.job) }
        ensures once { MatchResult result (λ computed. computed.calls ≡ 1)
            (λ fault. fault.calls ≡ 1) }
        ensures before { IsTrue (G.is_before self.now.gate.now started.job.segment) }
        ensures after { IsTrue (G.is_after self.now.gate.now started.job.segment) }
    {
        self.gate.before(started.segment());
        let mut under_way = UnderWay::new(self.gate, started);
        let called = self.kernel.call(&mut under_way);
        let (job, calls) = under_way.leave();
        match called {
            Ok(outcome) => Ok(Computed { outcome, calls }),
            Err(_) => Err(Fault::new(job, calls)),
        }
    }
}
