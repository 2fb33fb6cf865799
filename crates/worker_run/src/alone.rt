//! A run with one worker: the calling thread works at a lane of its own, and needs no lock.
ghost use Rattle.std.specs.Prelude.{ℕ, ◌≡◌, ◌<◌, ◌+◌, All, length, slice_index_or, IfOk, IfErr};
ghost use Rattle.std.specs.Prelude.{OnOk};
ghost use Rattle.worker_run.specs.Answer.{MayAnswer};
ghost use Rattle.worker_run.specs.AtRest.{IsAtRest};
ghost use Rattle.worker_run.specs.NewLanes.{lanes_of};

use crate::closing::{Leftover, close_all};
use crate::counted::Started;
use crate::crew::new_lanes;
use crate::gate::Gate;
use crate::gated::GatedKernel;
use crate::lane_names::Lanes;
use crate::new_lane::NewLane;
use crate::record::RunFault;
use crate::rest::finish_job;
use crate::station::Station;
use crate::stations::open_stations;
use dispatch_core::dispatch::Core;
use dispatch_core::kernel::Kernel;
use std::alloc::Global;
use std::marker::Brand;

/// Lets this thread work on the core as worker 0, until its lane is empty.
pub(crate) fn work_alone<K: Kernel, G: Gate>(
    alloc: Global,
    core: &mut Core<K>,
    gated: &GatedKernel<'_, K, G>,
) -> Result<(), RunFault>
    requires { IsAtRest core.old.history }
    ensures table { OnOk result (core.new.table ≡ core.old.table) }
    ensures rest { OnOk result (IsAtRest core.new.history) }
    ensures err { IfErr result (MayAnswer core.old.table K.value_of K.may_fault 1) }
{
    let lanes = new_lanes(alloc, core.table(), 1)?;
    work_at::<Brand, K, G>(alloc, core, gated, lanes)?;
    Ok(())
}

/// Works at this one lane until it is empty, and closes it.
fn work_at<J: Lanes, K: Kernel, G: Gate>(
    alloc: Global,
    core: &mut Core<K>,
    gated: &GatedKernel<'_, K, G>,
    lanes: Vec<NewLane>,
) -> Result<Leftover, RunFault>
    requires named { (i : ℕ) → i < length lanes.items
        → slice_index_or (lanes_of lanes.items) i (0, 0) ≡ J.lane_of i }
    requires one { length lanes.items ≡ 1 }
    requires thieves { All (λ l. length l.thieves.items + 1 ≡ 1) lanes.items }
    requires rest { IsAtRest core.old.history }
    ensures left { IfOk result (λ left. length left.counts.items ≡ 1) }
    ensures table { OnOk result (core.new.table ≡ core.old.table) }
    ensures rest { OnOk result (IsAtRest core.new.history) }
    ensures err { IfErr result (MayAnswer core.old.table K.value_of K.may_fault 1) }
{
    let mut stations = open_stations::<J>(alloc, lanes)?;
    run_tokens(alloc, core, gated, &mut stations[0])?;
    Ok(close_all(alloc, stations)?)
}

/// Runs the segments of the lane's tokens, and puts those that become ready by each into the lane,
/// until it is empty.
fn run_tokens<J: Lanes, K: Kernel, G: Gate>(
    alloc: Global,
    core: &mut Core<K>,
    gated: &GatedKernel<'_, K, G>,
    station: &mut Station<J>,
) -> Result<(), RunFault>
    requires { IsAtRest core.old.history }
    ensures table { OnOk result (core.new.table ≡ core.old.table) }
    ensures rest { OnOk result (IsAtRest core.new.history) }
    ensures err { IfErr result (MayAnswer core.old.table K.value_of K.may_fault 1) }
{
    for _ in 0..core.table().len() {
        let Some(segment) = station.take() else {
            return Ok(());
        };
        let ready = run_segment(alloc, core, gated, segment)?;
        if !station.put_all(ready.as_slice()) {
            return Ok(());
        }
    }
    Ok(())
}

/// Runs a segment as worker 0, and answers the segments that become ready by it. One that may not
/// start is left as it is.
fn run_segment<K: Kernel, G: Gate>(
    alloc: Global,
    core: &mut Core<K>,
    gated: &GatedKernel<'_, K, G>,
    segment: u32,
) -> Result<Vec<u32>, RunFault>
    requires { IsAtRest core.old.history }
    ensures table { OnOk result (core.new.table ≡ core.old.table) }
    ensures rest { OnOk result (IsAtRest core.new.history) }
    ensures err { IfErr result (MayAnswer core.old.table K.value_of K.may_fault 1) }
{
    match Started::start(core, 0, segment) {
        Some(started) => finish_job(core, gated, started),
        None => Ok(Vec::new(alloc)),
    }
}
