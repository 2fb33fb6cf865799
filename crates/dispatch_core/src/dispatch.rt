//! The core: starts and finishes are accepted exactly where they are legal, and the record is kept.
ghost use Rattle.std.specs.Prelude.{ℕ, Option, Some, None, ◌≡◌, ◌<◌, ◌≤◌, ◌↔◌, ◌++◌};
ghost use Rattle.std.specs.Prelude.{◌∷◌, ◌*◌, [], length, IsTrue, IfOk, IfErr};
ghost use Rattle.std.specs.Prelude.{OnErr, OnOk, MatchOption, MatchResult};
ghost use Rattle.task_segments.specs.Precedence.{MustPrecede};
ghost use Rattle.depend_table.specs.KeptEdges.{IsKeptEdge};
ghost use Rattle.depend_table.specs.Lists.{Lists};
ghost use Rattle.dispatch_core.specs.Run.{Run, HasStarted, HasFinished, Runs, MayStart, MayFollow};
ghost use Rattle.dispatch_core.specs.Run.{IsLegalRun, IsFinished, IsOpen, IsReady};
ghost use Rattle.dispatch_core.specs.Values.{IsValue, IsInput};
ghost use Rattle.dispatch_core.specs.Run.{BecomesReady};
ghost use Rattle.dispatch_core.specs.Refusals.{RefusesStart, RefusesFinish, MayFinish, IsCost};
ghost use Rattle.dispatch_core.specs.Refusals.{IsFirstUnfinished};
ghost use Rattle.dispatch_core.specs.Graph.{IsGraphOf};

use crate::event::{Event, FinishKind, FinishRefusal, MOST_WORKERS, StartRefusal};
use crate::graph::Graph;
use crate::kernel::{Kernel, SegResult};
use crate::run_state::{first_state, flag, sum_at, worker_entry};
use crate::waiting::{freed, lower, waits_for};
use open_segments::entries::value_entry;
use open_segments::flat_lists::FlatLists;
use open_segments::opener::opener;
use open_segments::picked::push_if;
use std::alloc::Global;
use std::marker::{Model, PhantomData};
use task_program::AllocFault;
use task_program::limits::MOST_SEGMENTS;
use task_segments::limits::MOST_TASKS_WITH_ROOT;
use task_segments::table::BoundedTable;

/// A run of a program's segments by workers, with kernel K: which segments have started and
/// finished, what each computed, and the record of it. Contracts see the program's table and the
/// history, the accepted events in order. An event is accepted exactly where it may follow those
/// before it.
#[derive(Drop)]
pub struct BoundedCore<K: Kernel, const SEGMENTS: u32, const TASKS: u32> {
    alloc: Global,
    table: BoundedTable<SEGMENTS, TASKS>,
    history: Vec<Event>,
    started: Vec<bool>,
    running: Vec<Option<u32>>,
    values: Vec<Option<u64>>,
    // The costs and the kept predecessors of all segments, open or not.
    graph: Graph,
    // For each segment those that it is a kept predecessor of.
    successors: FlatLists,
    // How many of each segment's kept predecessors are not finished.
    counts: Vec<u32>,
    by: PhantomData<K>,
}

/// A run of a program within the limits.
pub type Core<K> = BoundedCore<K, MOST_SEGMENTS, MOST_TASKS_WITH_ROOT>;

impl<K: Kernel, const SEGMENTS: u32, const TASKS: u32> Model for BoundedCore<K, SEGMENTS, TASKS> {
    ghost use Rattle.std.specs.Prelude.{vec_capacity};
    ghost use Rattle.dispatch_core.specs.Run.{Run};
    ghost use Rattle.dispatch_core.specs.Sound.{IsSound};

    ghost Value = { Run };

    ghost view = { λ a. record { table = a.table; history = a.history.items } };

    ghost invariant = { λ a. IsSound K.value_of a.table a.history.items (vec_capacity a.history)
        a.started.items a.running.items a.values.items a.graph a.successors a.counts.items };
}

impl<K: Kernel, const SEGMENTS: u32, const TASKS: u32> BoundedCore<K, SEGMENTS, TASKS> {
    /// A core at the start of a run, with room for the whole history, which is two events for each
    /// segment. It is refused only when memory runs out, and then the table comes back.
    pub fn new(
        alloc: Global,
        table: BoundedTable<SEGMENTS, TASKS>,
    ) -> Result<BoundedCore<K, SEGMENTS, TASKS>, BoundedNewFault<SEGMENTS, TASKS>>
        ensures ok { IfOk result (λ core. core ≡ record { table = table.entry; history = [] }) }
        ensures err { IfErr result (λ fault. fault.table ≡ table.entry) }
    {
        match first_state(alloc, &table) {
            Ok(state) => {
                open_segments::laws::serves_runs(&table);
                Ok(BoundedCore {
                    alloc,
                    table,
                    history: state.history,
                    started: state.started,
                    running: state.running,
                    values: state.values,
                    graph: state.graph,
                    successors: state.successors,
                    counts: state.counts,
                    by: PhantomData,
                })
            }
            Err(_) => Err(BoundedNewFault { table }),
        }
    }

    /// The program's segments and tasks.
    pub fn table(&self) -> &BoundedTable<SEGMENTS, TASKS>
        ensures { result.now ≡ self.now.table }
    {
        &self.table
    }

    /// The accepted events, in order. Its other clauses say that they are legal, and at most two
    /// for each segment.
    pub fn history(&self) -> &[Event]
        ensures events { result.now ≡ self.now.history }
        ensures legal { IsLegalRun self.now.table self.now.history }
        ensures short { length self.now.history ≤ 2 * length self.now.table.segments }
    {
        self.history.as_slice()
    }

    /// The segment that the worker runs, if any: one that it has started and that is not finished.
    /// Any number may be asked for.
    pub fn running(&self, worker: u32) -> Option<u32>
        ensures { (segment : ℕ) → (result ≡ Some segment) ↔ Runs self.now.history worker segment }
    {
        worker_entry(self.running.as_slice(), worker)
    }

    /// Whether every segment is finished.
    pub fn is_finished(&self) -> bool
        ensures { IsTrue result ↔ IsFinished self.now.table self.now.history }
    {
        // A segment has one start and one finish.
        self.history.len() == 2 * self.table.len() as usize
    }

    /// The kept predecessors of a segment, ascending, once it is open: where it is the first of
    /// all, or the one before it in its task, or the one that creates its task, is finished. Any
    /// number may be asked for.
    pub fn preds_of(&self, segment: u32) -> Option<&[u32]>
        ensures { MatchOption result (¬ IsOpen self.now.table self.now.history segment)
            (λ preds. IsOpen self.now.table self.now.history segment
            × Lists (λ p. IsKeptEdge self.now.table p segment) preds.now) }
    {
        if segment >= self.table.len() {
            return None;
        }
        if !self.is_open(segment) {
            return None;
        }
        Some(self.graph.preds(segment))
    }

    fn is_open(&self, segment: u32) -> bool
        requires { segment < length self.now.table.segments }
        ensures { IsTrue result ↔ IsOpen self.now.table self.now.history segment }
    {
        match opener(&self.table, segment) {
            Some(before) => self.has_finished(before),
            None => true,
        }
    }

    /// The history, and the program's graph: its costs and kept edges. There is one exactly where
    /// every segment is finished. If not, the core comes back.
    pub fn into_record(self) -> Result<(Vec<Event>, Graph), BoundedUnfinished<K, SEGMENTS, TASKS>>
        ensures history { IfOk result (λ made. made.0.items ≡ self.history) }
        ensures graph { IfOk result (λ made. IsGraphOf self.table made.1) }
        ensures finished { OnOk result (IsFinished self.table self.history) }
        ensures err { OnErr result (¬ IsFinished self.table self.history) }
        ensures back { IfErr result (λ unfinished. unfinished.core ≡ self) }
    {
        if !self.is_finished() {
            return Err(BoundedUnfinished { core: self });
        }
        Ok((self.history, self.graph))
    }

    /// The program's graph, exactly where every segment is finished. If not, the core comes back.
    pub fn into_graph(self) -> Result<Graph, BoundedUnfinished<K, SEGMENTS, TASKS>>
        ensures ok { IfOk result (IsGraphOf self.table) }
        ensures finished { OnOk result (IsFinished self.table self.history) }
        ensures err { OnErr result (¬ IsFinished self.table self.history) }
        ensures back { IfErr result (λ unfinished. unfinished.core ≡ self) }
    {
        match self.into_record() {
            Ok((_, graph)) => Ok(graph),
            Err(unfinished) => Err(unfinished),
        }
    }

    /// The program's table, given back.
    pub(crate) fn into_table(self) -> BoundedTable<SEGMENTS, TASKS>
        ensures { result ≡ self.table }
    {
        self.table
    }

    /// The segment's value, once it is finished: what the kernel gives for it, its cost and its
    /// input. Any number may be asked for.
    pub fn value(&self, segment: u32) -> Option<u64>
        ensures { MatchOption result (¬ HasFinished self.now.history segment)
            (λ value.
            HasFinished self.now.history segment
            × IsValue self.now.table K.value_of segment value) }
    {
        value_entry(self.values.as_slice(), segment)
    }

    fn is_busy(&self, worker: u32) -> bool
        ensures { IsTrue result ↔ ((segment : ℕ) × Runs self.now.history worker segment) }
    {
        worker_entry(self.running.as_slice(), worker).is_some()
    }

    fn runs(&self, worker: u32, segment: u32) -> bool
        ensures { IsTrue result ↔ Runs self.now.history worker segment }
    {
        match self.running(worker) {
            Some(one) => one == segment,
            None => false,
        }
    }

    /// The cost and the input of the segment that the worker runs, if it runs this one.
    pub(crate) fn cost_and_input(&self, worker: u32, segment: u32) -> Option<(u64, u64)>
        ensures { MatchOption result (¬ Runs self.now.history worker segment)
            (λ task. Runs self.now.history worker segment
            × IsCost self.now.table segment task.0
            × IsInput self.now.table K.value_of segment task.1) }
    {
        if !self.runs(worker, segment) {
            return None;
        }
        Some((self.table.cost(segment), self.input_of(segment)))
    }

    fn has_started(&self, segment: u32) -> bool
        requires { segment < length self.now.table.segments }
        ensures { IsTrue result ↔ HasStarted self.now.history segment }
    {
        flag(self.started.as_slice(), segment)
    }

    fn has_finished(&self, segment: u32) -> bool
        ensures { IsTrue result ↔ HasFinished self.now.history segment }
    {
        value_entry(self.values.as_slice(), segment).is_some()
    }

    /// Starts a segment on a worker, both any numbers, and answers the segment's input: the sum of
    /// the values of its kept predecessors, modulo 2^64. A refusal is the first reason that holds,
    /// and then nothing is changed.
    pub fn start(&mut self, worker: u32, segment: u32) -> Result<u64, StartRefusal>
        ensures legal { OnOk result (MayFollow self.old.table self.old.history
            (Event.Start worker segment)) }
        ensures input { IfOk result (λ input. IsInput self.old.table K.value_of segment input) }
        ensures next { OnOk result (self.new
            ≡ record {
              table = self.old.table;
              history = self.old.history ++ Event.Start worker segment ∷ [];
            }) }
        ensures refused { IfErr result (RefusesStart self.old.table self.old.history worker
            segment) }
        ensures same { OnErr result (self.new ≡ self.old) }
    {
        self.may_start(worker, segment)?;
        let input = self.input_of(segment);
        self.enter_start(worker, segment);
        Ok(input)
    }

    /// Whether the worker may start the segment, or why not.
    fn may_start(&self, worker: u32, segment: u32) -> Result<(), StartRefusal>
        ensures { MatchResult result
            (λ _. MayStart self.now.table self.now.history worker segment)
            (RefusesStart self.now.table self.now.history worker segment) }
    {
        if worker >= MOST_WORKERS {
            return Err(StartRefusal::UnknownWorker);
        }
        if segment >= self.table.len() {
            return Err(StartRefusal::UnknownSegment);
        }
        if self.is_busy(worker) {
            return Err(StartRefusal::WorkerBusy);
        }
        if self.has_started(segment) {
            return Err(StartRefusal::AlreadyStarted);
        }
        match self.first_unfinished(segment) {
            Some(pred) => Err(StartRefusal::NotReady { pred }),
            None => Ok(()),
        }
    }

    /// The smallest segment that must precede this one and is not finished.
    fn first_unfinished(&self, segment: u32) -> Option<u32>
        requires { segment < length self.now.table.segments }
        ensures { MatchOption result
            ((pred : ℕ) → MustPrecede self.now.table pred segment
            → HasFinished self.now.history pred)
            (IsFirstUnfinished self.now.table self.now.history segment) }
    {
        if self.is_free(segment) {
            return None;
        }
        for pred in 0..segment {
            if !self.has_finished(pred) && self.table.must_precede(pred, segment) {
                return Some(pred);
            }
        }
        None
    }

    /// Whether all that must precede the segment is finished: then none of its kept predecessors is
    /// counted.
    fn is_free(&self, segment: u32) -> bool
        requires { segment < length self.now.table.segments }
        ensures { IsTrue result
            ↔ ((pred : ℕ) → MustPrecede self.now.table pred segment
            → HasFinished self.now.history pred) }
    {
        waits_for(self.counts.as_slice(), segment, 0)
    }

    /// The sum of the values of the segment's kept predecessors.
    fn input_of(&self, segment: u32) -> u64
        requires known { segment < length self.now.table.segments }
        requires after { (pred : ℕ) → MustPrecede self.now.table pred segment
            → HasFinished self.now.history pred }
        ensures { IsInput self.now.table K.value_of segment result }
    {
        sum_at(self.graph.preds(segment), self.values.as_slice())
    }

    fn enter_start(&mut self, worker: u32, segment: u32)
        requires { MayStart self.old.table self.old.history worker segment }
        ensures { self.new
            ≡ record {
              table = self.old.table;
              history = self.old.history ++ Event.Start worker segment ∷ [];
            } }
    {
        self.running[worker as usize] = Some(segment);
        self.started[segment as usize] = true;
        self.history.push_reserved(Event::Start { worker, segment });
    }

    /// The segments that are not started and of which all that must precede them are finished,
    /// ascending. It is refused only when memory runs out.
    pub fn ready(&self) -> Result<Vec<u32>, AllocFault>
        ensures { IfOk result (λ ready.
            Lists (IsReady self.now.table self.now.history) ready.items) }
    {
        let mut ready = Vec::new(self.alloc);
        for segment in 0..self.table.len() {
            push_if(&mut ready, segment, self.is_ready(segment))?;
        }
        Ok(ready)
    }

    fn is_ready(&self, segment: u32) -> bool
        requires { segment < length self.now.table.segments }
        ensures { IsTrue result ↔ IsReady self.now.table self.now.history segment }
    {
        if self.has_started(segment) {
            return false;
        }
        self.is_free(segment)
    }

    /// Finishes the segment that the worker runs, with its result, and answers the segments that
    /// become ready by it, ascending. A refusal is the first reason that holds; then nothing is
    /// changed, and the result comes back.
    pub fn finish(
        &mut self,
        worker: u32,
        outcome: SegResult<K>,
    ) -> Result<Vec<u32>, FinishRefusal<K>>
        ensures legal { OnOk result (MayFinish self.old.table self.old.history K.value_of worker
            outcome) }
        ensures next { OnOk result (self.new
            ≡ record {
              table = self.old.table;
              history = self.old.history ++ Event.Finish worker outcome.segment ∷ [];
            }) }
        ensures ready { IfOk result (λ ready.
            Lists (BecomesReady self.old.table self.old.history self.new.history) ready.items) }
        ensures refused { IfErr result (λ refusal.
            RefusesFinish self.old.table self.old.history K.value_of worker outcome refusal.kind) }
        ensures back { IfErr result (λ refusal. refusal.result ≡ outcome) }
        ensures same { OnErr result (self.new ≡ self.old) }
    {
        if let Err(kind) = self.may_finish(worker, &outcome) {
            return Err(FinishRefusal {
                kind,
                result: outcome,
            });
        }
        match self.enter_finish(worker, &outcome) {
            Ok(ready) => Ok(ready),
            Err(_) => Err(FinishRefusal {
                kind: FinishKind::OutOfMemory,
                result: outcome,
            }),
        }
    }

    /// Whether the worker may finish with this result, or why not.
    fn may_finish(&self, worker: u32, outcome: &SegResult<K>) -> Result<(), FinishKind>
        ensures { MatchResult result
            (λ _. MayFinish self.now.table self.now.history K.value_of worker outcome.now)
            (RefusesFinish self.now.table self.now.history K.value_of worker outcome.now) }
    {
        let segment = outcome.segment();
        if !self.runs(worker, segment) {
            return Err(FinishKind::NotRunning);
        }
        if self.table.cost(segment) != outcome.cost() {
            return Err(FinishKind::WrongCost);
        }
        if self.input_of(segment) != outcome.input() {
            return Err(FinishKind::WrongInput);
        }
        Ok(())
    }

    /// Enters a finish, and answers the segments that become ready by it. The allocations come before
    /// the first change.
    fn enter_finish(&mut self, worker: u32, outcome: &SegResult<K>) -> Result<Vec<u32>, AllocFault>
        requires { MayFinish self.old.table self.old.history K.value_of worker outcome.now }
        ensures next { OnOk result (self.new
            ≡ record {
              table = self.old.table;
              history = self.old.history ++ Event.Finish worker outcome.now.segment ∷ [];
            }) }
        ensures ready { IfOk result (λ ready. Lists
            (BecomesReady self.old.table self.old.history (self.old.history
            ++ Event.Finish worker outcome.now.segment ∷ []))
            ready.items) }
        ensures same { OnErr result (self.new ≡ self.old) }
    {
        let segment = outcome.segment();
        let value = outcome.value();
        let ready = freed(
            self.alloc,
            self.counts.as_slice(),
            self.successors.list(segment),
        )?;
        self.values[segment as usize] = Some(value);
        lower(&mut self.counts, self.successors.list(segment));
        self.running[worker as usize] = None;
        self.history
            .push_reserved(Event::Finish { worker, segment });
        Ok(ready)
    }
}

/// Out of memory for a core: the table comes back.
#[derive(Drop)]
pub struct BoundedNewFault<const SEGMENTS: u32, const TASKS: u32> {
    pub table: BoundedTable<SEGMENTS, TASKS>,
}

/// The same for a program within the limits.
pub type NewFault = BoundedNewFault<MOST_SEGMENTS, MOST_TASKS_WITH_ROOT>;

/// A run that is not finished: the core comes back.
#[derive(Drop)]
pub struct BoundedUnfinished<K: Kernel, const SEGMENTS: u32, const TASKS: u32> {
    pub core: BoundedCore<K, SEGMENTS, TASKS>,
}

/// The same for a program within the limits.
pub type Unfinished<K> = BoundedUnfinished<K, MOST_SEGMENTS, MOST_TASKS_WITH_ROOT>;
