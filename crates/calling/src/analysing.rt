//! What follows from a graph: a certificate, and the spans of a trial.
ghost use Rattle.std.specs.Prelude.{◌<◌, ◌^◌, IfOk};
ghost use Rattle.counted_io.specs.Counted.{faults_of};
ghost use Rattle.span_cert.specs.Analysed.{IsAnalysisOf};

use counted_io::Counted;
use dispatch_core::graph::Graph;
use dispatch_core::replay::in_order;
use span_analysis::analysis::{Analysis, analyse};
use span_cert::{WriteFault, write_certificate};
use std::alloc::Global;
use std::io::Write;
use task_program::AllocFault;
use task_program::program::Program;
use task_segments::cut;
use whatif_costs::fault::WhatFault;
use whatif_costs::what_if::WhatIf;

/// The analysis of a program.
fn analysis_of(alloc: Global, program: &Program) -> Result<Analysis, AllocFault>
    ensures { IfOk result (λ analysis. IsAnalysisOf program.now analysis) }
{
    let graph = match in_order(alloc, cut(alloc, program)?) {
        Ok(graph) => graph,
        Err(_) => return Err(AllocFault),
    };
    analyse(alloc, &graph)
}

/// Writes the certificate of a program's span.
pub fn certify<W: Write>(
    alloc: Global,
    program: &Program,
    writer: &mut Counted<W>,
) -> Result<(), WriteFault>
    requires { faults_of writer.old < 2 ^ 63 }
{
    let analysis = analysis_of(alloc, program)?;
    write_certificate(alloc, program, &analysis, writer)
}

/// The span of a graph with another cost of one segment, and then with its own costs again.
pub fn spans_of_trial(
    alloc: Global,
    graph: Graph,
    segment: u32,
    cost: u64,
) -> Result<(u64, u64), WhatFault> {
    match WhatIf::new(alloc, graph) {
        Ok(mut trial) => {
            let changed = trial.set(segment, cost)?;
            let own = trial.reset()?;
            Ok((changed, own))
        }
        Err(_) => Err(WhatFault::OutOfMemory),
    }
}
