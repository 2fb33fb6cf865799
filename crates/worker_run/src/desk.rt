//! What the workers share behind the dispatcher's lock.
ghost use Rattle.std.specs.Prelude.{◌≡◌, ◌≢◌, ◌↔◌, ◌⊎◌, ◌++◌, ◌∷◌, [], MatchOption, IfOk, IfErr, OnOk, OnErr};
ghost use Rattle.std.specs.Prelude.{IsTrue, None, false, true};
ghost use Rattle.depend_table.specs.Lists.{Lists};
ghost use Rattle.dispatch_core.specs.Refusals.{IsIdle, MayFinish, RefusesStart};
ghost use Rattle.dispatch_core.specs.Run.{BecomesReady, IsFinished};
ghost use Rattle.worker_run.specs.Jobs.{IsJobOf, started_by};

use crate::counted::Started;
use crate::gated::Computed;
use crate::signal::Signal;
use crate::worker::{Ending, Fault, WorkerEnd};
use dispatch_core::dispatch::Core;
use dispatch_core::event::{Event, StartRefusal};
use dispatch_core::kernel::Kernel;

/// The core of a run, and whether the run is over: only the last finish, a finish that is refused, a
/// fault of the kernel and out of memory end it.
#[derive(Drop)]
pub(crate) struct Desk<K: Kernel> {
    core: Core<K>,
    over: bool,
}

impl<K: Kernel> Desk<K> {
    pub(crate) fn new(core: Core<K>) -> Desk<K>
        ensures { result ≡ record { core = core; over = false } }
    {
        Desk { core, over: false }
    }

    pub(crate) fn into_core(self) -> Core<K>
        ensures { result ≡ self.core }
    {
        let Desk { core, over: _ } = self;
        core
    }

    /// Whether the run is over.
    pub(crate) fn is_over(&self) -> bool
        ensures { result ≡ self.now.over }
    {
        self.over
    }

    /// Ends all workers, and so the run.
    fn end(&mut self, signal: &Signal)
        ensures { self.new ≡ record self.old { over = true } }
    {
        self.over = true;
        signal.end();
    }

    /// Ends the run early, where a worker ends by a fault or out of memory.
    pub(crate) fn end_by(&mut self, signal: &Signal, end: WorkerEnd<K>) -> WorkerEnd<K>
        requires { end.how ≢ Ending.Over }
        ensures desk { self.new ≡ record self.old { over = true } }
        ensures end { result ≡ end }
    {
        self.end(signal);
        end
    }

    /// Ends the run early as out of memory, where the worker gives up what it has started.
    pub(crate) fn give_up(
        &mut self,
        signal: &Signal,
        worker: u32,
        started: Option<Started>,
    ) -> WorkerEnd<K>
        ensures desk { self.new ≡ record self.old { over = true } }
        ensures worker { result.worker ≡ worker }
        ensures how { result.how ≡ Ending.NoMemory }
    {
        self.end(signal);
        match started {
            Some(started) => started.give_up(self),
            None => {}
        }
        WorkerEnd::no_memory(worker)
    }

    /// Ends the run early by a fault of the worker's kernel.
    pub(crate) fn end_by_fault(
        &mut self,
        signal: &Signal,
        worker: u32,
        fault: Fault<K>,
    ) -> WorkerEnd<K>
        ensures desk { self.new ≡ record self.old { over = true } }
        ensures worker { result.worker ≡ worker }
        ensures how { result.how ≡ Ending.Faulted fault.job }
    {
        self.end(signal);
        WorkerEnd::faulted(worker, fault, self)
    }

    /// Starts a segment where the core lets the worker start it.
    pub(crate) fn start(&mut self, worker: u32, segment: u32) -> Option<Started>
        ensures over { self.new.over ≡ self.old.over }
        ensures started { MatchOption result ((self.new.core ≡ self.old.core)
            × ((why : StartRefusal) × RefusesStart self.old.core.table self.old.core.history
            worker segment why))
            (λ started. (started.job.segment ≡ segment)
            × IsJobOf self.old.core.table K.value_of started.job
            × (self.new.core ≡ record {
              table = self.old.core.table;
              history = self.old.core.history
                  ++ Event.Start worker segment ∷ [];
            })) }
    {
        Started::start(&mut self.core, worker, segment)
    }

    /// Finishes a segment, and starts the next one if there is one and the run goes on. It answers
    /// the segments that become ready by the finish, and what was started. The run is over where it
    /// is finished by it, and where it is refused, which ends the worker by the error: out of memory
    /// exactly where it may finish so.
    pub(crate) fn hand_over(
        &mut self,
        signal: &Signal,
        worker: u32,
        computed: Computed<K>,
        next: Option<u32>,
    ) -> Result<(Vec<u32>, Option<Started>), WorkerEnd<K>>
        ensures next { IfOk result (λ given. self.new.core ≡ record {
          table = self.old.core.table;
          history = (self.old.core.history ++ Event.Finish worker computed.outcome.segment ∷ [])
              ++ started_by worker given.1;
        }) }
        ensures over { OnOk result (IsTrue self.new.over → IsTrue self.old.over
            ⊎ IsFinished self.new.core.table self.new.core.history) }
        ensures ready { IfOk result (λ given. Lists (BecomesReady self.old.core.table
            self.old.core.history (self.old.core.history ++ Event.Finish worker computed.outcome.segment ∷ []))
            given.0.items) }
        ensures rest { IfOk result (λ given. given.1 ≡ None → IsIdle self.new.core.history worker) }
        ensures same { OnErr result (self.new.core ≡ self.old.core) }
        ensures worker { IfErr result (λ end. end.worker ≡ worker) }
        ensures memory { IfErr result (λ end. end.how ≡ Ending.NoMemory
            ↔ MayFinish self.old.core.table self.old.core.history K.value_of worker computed.outcome) }
    {
        let ready = match computed.finish(&mut self.core, worker) {
            Ok(ready) => ready,
            Err(kind) => {
                self.end(signal);
                return Err(WorkerEnd::refused(worker, kind, self));
            }
        };
        if self.core.is_finished() {
            self.end(signal);
        }
        match next {
            Some(segment) if !self.over => Ok((ready, self.start(worker, segment))),
            _ => Ok((ready, None)),
        }
    }
}
