//! The graph of a program, and runs that are given as a list of events.
ghost use Rattle.std.specs.Prelude.{Some, ◌≡◌, ◌<◌, ◌+◌, ◌++◌, ◌∷◌, [], IfOk};
ghost use Rattle.std.specs.Prelude.{IfErr, OnOk, OnErr, false};
ghost use Rattle.dispatch_core.specs.Run.{Runs, IsLegalRun};
ghost use Rattle.dispatch_core.specs.Values.{IsInput};
ghost use Rattle.dispatch_core.specs.Refusals.{IsCost};
ghost use Rattle.dispatch_core.specs.Graph.{IsGraphOf};
ghost use Rattle.dispatch_core.specs.Replays.{RefusesStep, RefusesReplay, fault_at};

use crate::dispatch::{BoundedCore, BoundedNewFault};
use crate::event::{Event, FinishKind, StartRefusal};
use crate::graph::{Graph, graph_of};
use crate::kernel::{Kernel, MixKernel, SegResult};
use std::alloc::Global;
use task_program::AllocFault;
use task_segments::table::BoundedTable;

/// Why an event is refused.
#[derive(Clone, Copy, Debug, PartialEq, Eq)]
pub enum ReplayRefusal {
    /// It is a start, refused for this reason.
    OfStart(StartRefusal),
    /// It is a finish, and its worker does not run that segment, or there is none of that number.
    NotRunning,
}

/// Why a list of events is refused: its first refused event, by its index from 0.
#[derive(Clone, Copy, Debug, PartialEq, Eq)]
pub enum ReplayFault {
    /// The event of this index is the first that may not follow those before it.
    At {
        index: usize,
        refusal: ReplayRefusal,
    },
    /// An allocation failed.
    OutOfMemory,
}

/// Why one event was not made.
#[derive(Clone, Copy, Debug, PartialEq, Eq)]
enum StepFault {
    Refused(ReplayRefusal),
    NoMemory,
}

/// The program's graph. It fails only if memory runs out, and then the table comes back.
pub fn in_order<const SEGMENTS: u32, const TASKS: u32>(
    alloc: Global,
    table: BoundedTable<SEGMENTS, TASKS>,
) -> Result<Graph, BoundedNewFault<SEGMENTS, TASKS>>
    ensures ok { IfOk result (IsGraphOf table.entry) }
    ensures err { IfErr result (λ fault. fault.table ≡ table.entry) }
{
    match graph_of(alloc, &table) {
        Ok(graph) => Ok(graph),
        Err(_) => Err(BoundedNewFault { table }),
    }
}

/// Finishes a running segment with the value of a kernel that cannot fault on it. It fails only if
/// memory runs out, and then nothing is changed.
fn finish_computed<K: Kernel, const SEGMENTS: u32, const TASKS: u32>(
    core: &mut BoundedCore<K, SEGMENTS, TASKS>,
    kernel: &K,
    worker: u32,
    segment: u32,
    cost: u64,
    input: u64,
) -> Result<(), AllocFault>
    requires never { K.may_fault segment cost input ≡ false }
    requires runs { Runs core.old.history worker segment }
    requires cost { IsCost core.old.table segment cost }
    requires input { IsInput core.old.table K.value_of segment input }
    ensures ok { OnOk result (core.new
        ≡ record {
          table = core.old.table;
          history = core.old.history ++ Event.Finish worker segment ∷ [];
        }) }
    ensures same { OnErr result (core.new ≡ core.old) }
{
    let kind = match core.finish(worker, computed(kernel, segment, cost, input)) {
        Ok(_) => return Ok(()),
        Err(refusal) => refusal.kind,
    };
    match kind {
        FinishKind::OutOfMemory => Err(AllocFault),
        _ => unreachable!(),
    }
}

/// The result of a kernel that cannot fault on the segment.
fn computed<K: Kernel>(kernel: &K, segment: u32, cost: u64, input: u64) -> SegResult<K>
    requires never { K.may_fault segment cost input ≡ false }
    ensures { result
        ≡ record {
          segment = segment;
          cost = cost;
          input = input;
          value = K.value_of segment cost input;
        } }
{
    match SegResult::compute(kernel, segment, cost, input) {
        Ok(outcome) => outcome,
        Err(_) => unreachable!(),
    }
}

/// The core after a list of events, run with the mixing kernel, or the first of them that may not
/// follow those before it. Where it is refused, for that or when memory runs out, the table comes
/// back.
pub fn replay<const SEGMENTS: u32, const TASKS: u32>(
    alloc: Global,
    table: BoundedTable<SEGMENTS, TASKS>,
    events: &[Event],
) -> Result<BoundedCore<MixKernel, SEGMENTS, TASKS>, (ReplayFault, BoundedTable<SEGMENTS, TASKS>)>
    ensures ok { IfOk result (λ core. core ≡ record { table = table.entry; history = events.now }) }
    ensures legal { OnOk result (IsLegalRun table.entry events.now) }
    ensures refused { IfErr result (λ fault. RefusesReplay table.entry events.now fault.0) }
    ensures back { IfErr result (λ fault. fault.1 ≡ table.entry) }
{
    let mut core = match BoundedCore::<MixKernel, SEGMENTS, TASKS>::new(alloc, table) {
        Ok(core) => core,
        Err(fault) => return Err((ReplayFault::OutOfMemory, fault.table)),
    };
    for index in 0..events.len() {
        crate::laws::legal_history(&core);
        match make_event(&mut core, events[index]) {
            Ok(()) => {}
            Err(fault) => return Err((replay_fault(index, fault), core.into_table())),
        }
    }
    crate::laws::legal_history(&core);
    Ok(core)
}

fn replay_fault(index: usize, fault: StepFault) -> ReplayFault
    ensures { result ≡ fault_at index fault }
{
    match fault {
        StepFault::Refused(refusal) => ReplayFault::At { index, refusal },
        StepFault::NoMemory => ReplayFault::OutOfMemory,
    }
}

/// Makes one event.
fn make_event<const SEGMENTS: u32, const TASKS: u32>(
    core: &mut BoundedCore<MixKernel, SEGMENTS, TASKS>,
    event: Event,
) -> Result<(), StepFault>
    ensures next { OnOk result (core.new
        ≡ record { table = core.old.table; history = core.old.history ++ event ∷ [] }) }
    ensures refused { IfErr result (RefusesStep core.old.table core.old.history event) }
    ensures same { OnErr result (core.new ≡ core.old) }
{
    match event {
        Event::Start { worker, segment } => match core.start(worker, segment) {
            Ok(_) => Ok(()),
            Err(refusal) => Err(StepFault::Refused(ReplayRefusal::OfStart(refusal))),
        },
        Event::Finish { worker, segment } => make_finish(core, worker, segment),
    }
}

fn make_finish<const SEGMENTS: u32, const TASKS: u32>(
    core: &mut BoundedCore<MixKernel, SEGMENTS, TASKS>,
    worker: u32,
    segment: u32,
) -> Result<(), StepFault>
    ensures next { OnOk result (core.new
        ≡ record {
          table = core.old.table;
          history = core.old.history ++ Event.Finish worker segment ∷ [];
        }) }
    ensures refused { IfErr result (RefusesStep core.old.table core.old.history
        (Event.Finish worker segment)) }
    ensures same { OnErr result (core.new ≡ core.old) }
{
    match core.cost_and_input(worker, segment) {
        None => Err(StepFault::Refused(ReplayRefusal::NotRunning)),
        Some((cost, input)) => {
            match finish_computed(core, &MixKernel, worker, segment, cost, input) {
                Ok(()) => Ok(()),
                Err(_) => Err(StepFault::NoMemory),
            }
        }
    }
}
