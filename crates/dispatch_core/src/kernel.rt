//! Kernels, and the results of segments that were computed by one.
ghost use Rattle.std.specs.Prelude.{ℕ, Bool, ◌≡◌, ◌<◌, IsTrue, IfOk, OnErr, IsOk, false};
ghost use Rattle.dispatch_core.specs.Result.{Computation};
ghost use Rattle.dispatch_core.specs.Mix.{mix_value};

use std::marker::{Model, PhantomData};
use thiserror::Error;

/// A kernel could not compute its value.
#[derive(Clone, Copy, Debug, PartialEq, Eq, Drop, Error)]
#[error("the kernel faulted")]
pub struct KernelFault;

/// What segments compute: one value for each segment, cost and input.
pub trait Kernel: Send + Sync {
    // The one value for a segment, its cost and its input.
    ghost value_of: { ℕ → ℕ → ℕ → ℕ };

    // Where it may fault.
    ghost may_fault: { ℕ → ℕ → ℕ → Bool };

    /// The value for a segment, its cost and its input, or a fault where there may be one.
    fn run(&self, segment: u32, cost: u64, input: u64) -> Result<u64, KernelFault>
        ensures ok { IfOk result (λ value. value ≡ value_of segment cost input) }
        ensures err { OnErr result (IsTrue (may_fault segment cost input)) };
}

/// The most turns that the mixing kernel makes, however great the cost.
pub const MOST_MIX_TURNS: u64 = 4096;

/// A kernel that begins with segment + input and makes a turn of x = 5 * x + 1 for each unit of the
/// cost, up to [`MOST_MIX_TURNS`], all modulo 2^64. It never faults.
#[derive(Clone, Copy, Debug, PartialEq, Eq)]
pub struct MixKernel;

impl Kernel for MixKernel {
    ghost value_of = { mix_value };

    ghost may_fault = { λ segment cost input. false };

    fn run(&self, segment: u32, cost: u64, input: u64) -> Result<u64, KernelFault>
        ensures ok { IfOk result (λ value. value ≡ mix_value segment cost input) }
        ensures never { IsOk result }
    {
        let mut x = input.wrapping_add(segment as u64);
        for _ in 0..cost.min(MOST_MIX_TURNS) {
            x = x.wrapping_mul(5).wrapping_add(1);
        }
        Ok(x)
    }
}

/// What kernel K computed for a segment: the value is K's for the segment, the cost and the input.
/// Contracts see these four numbers.
#[derive(Drop)]
pub struct SegResult<K: Kernel> {
    segment: u32,
    cost: u64,
    input: u64,
    value: u64,
    by: PhantomData<K>,
}

impl<K: Kernel> Model for SegResult<K> {
    ghost use Rattle.std.specs.Prelude.{◌≡◌};
    ghost use Rattle.dispatch_core.specs.Result.{Computation};

    ghost Value = { Computation };

    ghost view = { λ a. record {
      segment = a.segment;
      cost = a.cost;
      input = a.input;
      value = a.value;
    } };

    ghost invariant = { λ a. a.value ≡ K.value_of a.segment a.cost a.input };
}

impl<K: Kernel> SegResult<K> {
    /// The kernel's value, or its fault.
    pub fn compute(
        kernel: &K,
        segment: u32,
        cost: u64,
        input: u64,
    ) -> Result<SegResult<K>, KernelFault>
        ensures ok { IfOk result (λ r. r
            ≡ record {
              segment = segment;
              cost = cost;
              input = input;
              value = K.value_of segment cost input;
            }) }
        ensures err { OnErr result (IsTrue (K.may_fault segment cost input)) }
    {
        let value = kernel.run(segment, cost, input)?;
        Ok(SegResult {
            segment,
            cost,
            input,
            value,
            by: PhantomData,
        })
    }

    /// The segment that it is for.
    pub fn segment(&self) -> u32
        ensures { result ≡ self.now.segment }
    {
        self.segment
    }

    /// The cost that it was computed for.
    pub fn cost(&self) -> u64
        ensures { result ≡ self.now.cost }
    {
        self.cost
    }

    /// The input that it was computed on.
    pub fn input(&self) -> u64
        ensures { result ≡ self.now.input }
    {
        self.input
    }

    /// The kernel's value for them.
    pub fn value(&self) -> u64
        ensures value { result ≡ self.now.value }
        ensures computed { result ≡ K.value_of self.now.segment self.now.cost self.now.input }
    {
        self.value
    }
}
