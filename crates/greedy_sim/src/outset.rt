//! What each run of a graph begins with, made once for all its runs.
ghost use Rattle.std.specs.Prelude.{◌≡◌, ◌<◌, [], IfOk, length, slice_index_or};
ghost use Rattle.greedy_sim.specs.Simulation.{IsOutset};

use dispatch_core::graph::Graph;
use dispatch_core::successors::successors_of;
use open_segments::flat_lists::FlatLists;
use std::alloc::Global;
use std::marker::Model;
use task_program::AllocFault;

/// For each segment those that wait for it, which are its successors, and for how many it waits.
/// The first segment, which has no predecessor, waits for the beginning of the run.
#[derive(Drop)]
pub struct Outset {
    waiting: FlatLists,
    waits: Vec<usize>,
}

impl Model for Outset {
    ghost use Rattle.greedy_sim.specs.Simulation.{Waits};

    ghost Value = { Waits };

    ghost view = { λ o. record { waiting = o.waiting; left = o.waits.items } };
}

impl Outset {
    /// What the runs of a graph begin with.
    pub fn new(alloc: Global, graph: &Graph) -> Result<Outset, AllocFault>
        ensures { IfOk result (IsOutset graph.now) }
    {
        let count = graph.len();
        let waiting = successors_of(alloc, graph)?;
        let mut waits = Vec::with_capacity(alloc, count as usize)?;
        for segment in 0..count {
            waits.push(graph.preds(segment).len())?;
        }
        waits[0] = 1;
        Ok(Outset { waiting, waits })
    }

    /// Those that wait for a segment.
    pub fn waiting_for(&self, segment: u32) -> &[u32]
        requires { segment < length self.now.waiting }
        ensures { result.now ≡ slice_index_or self.now.waiting segment [] }
    {
        self.waiting.list(segment)
    }

    /// For how many each segment waits.
    pub fn waits(&self) -> &[usize]
        ensures { result.now ≡ self.now.left }
    {
        self.waits.as_slice()
    }
}
