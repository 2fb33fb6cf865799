//! Kernels that fault.
use super::{WORKED, answer_of, made_by};
use dispatch_core::kernel::{Kernel, KernelFault, MixKernel};
use std::alloc::Global;
use std::process::Abort;
use std::sync::Wait;
use std::test::Fail;
use std::thread::Threads;
use worker_run::gate::OpenGate;
use worker_run::record::RunFault;
use worker_run::run::digest;

/// The mixing kernel, with a fault at each of these segments.
#[derive(Drop)]
struct FaultyKernel {
    at: [bool; 4],
}

impl Kernel for FaultyKernel {
    ghost use Rattle.std.specs.Prelude.{true};
    ghost use Rattle.dispatch_core.specs.Mix.{mix_value};

    ghost value_of = { mix_value };

    ghost may_fault = { λ segment cost input. true };

    fn run(&self, segment: u32, cost: u64, input: u64) -> Result<u64, KernelFault> {
        match self.at.get(segment as usize) {
            Some(true) => Err(KernelFault),
            _ => MixKernel.run(segment, cost, input),
        }
    }
}

/// The segment at which a run of the worked program has its fault; after it a new table runs to
/// its end.
fn fault_of<R: Threads + Wait + Abort + Sync>(
    rt: &R,
    alloc: Global,
    at: [bool; 4],
    workers: u32,
) -> Result<u32, Fail> {
    let kernel = FaultyKernel { at };
    let told = answer_of(rt, alloc, WORKED, &kernel, &OpenGate, workers)?;
    let made = made_by(rt, alloc, WORKED, workers)?;
    assert_eq!(rt; digest(made.values.as_slice()), 704969);
    match told {
        Err(RunFault::Kernel { segment }) => Ok(segment),
        Err(_) => Err("another fault".into()),
        Ok(_) => Err("a record".into()),
    }
}

#[test]
fn faults_are_told(rt: HostRuntime) -> Result<(), Fail> {
    for workers in [1, 2] {
        for segment in 0..4u32 {
            let at = [segment == 0, segment == 1, segment == 2, segment == 3];
            assert_eq!(rt;
                fault_of(&rt, rt.alloc(), at, workers)?,
                segment,
                "{workers} workers"
            );
        }
    }
    let one_of_two = fault_of(&rt, rt.alloc(), [false, true, true, false], 2)?;
    assert!(rt; one_of_two == 1 || one_of_two == 2);
    Ok(())
}
