//! How many runs there are, and which combination of values each has.
ghost use Rattle.std.specs.Prelude.{◌≡◌, ◌≤◌, ◌<◌, ◌*◌, ◌^◌, nat_le, nat_lt, Some, None, if◌then◌else◌};
ghost use Rattle.nl_experiment_sweep.specs.Varied.{AllHaveValues};
ghost use Rattle.nl_experiment_sweep.specs.Sweep.{IsRun, IsSweep, combination_of, combinations, most_runs, runs_of};

use crate::varied::{Varies, Vary};

/// An experiment has at most so many runs.
pub const MOST_RUNS: u64 = 100_000;

/// How runs follow each other.
#[derive(Clone, Copy, Debug, PartialEq, Eq)]
pub struct Order {
    /// So many runs have the same combination of values.
    pub repetitions: u64,
    /// Whether they come together. Else each repetition goes through all combinations.
    pub sequential: bool,
}

// So many times the number of combinations, where that fits.
fn times_combinations(times: u64, varies: &[Vary]) -> Option<u64>
    requires { AllHaveValues varies.now }
    ensures { result ≡ (if nat_lt (times * combinations varies.now) (2 ^ 64)
        then Some (times * combinations varies.now) else None) }
{
    let mut product = times;
    let mut left = varies;
    'varied: while let Some((vary, behind)) = left.split_first() {
        left = behind;
        match product.checked_mul(vary.choice.count()) {
            Some(more) => product = more,
            None => return None,
        }
    }
    Some(product)
}

/// How many runs there are, where they are at most 100,000.
pub fn runs(order: Order, varies: &Varies) -> Option<u64>
    requires { AllHaveValues varies.now }
    ensures { result ≡ (if nat_le (runs_of order varies.now) most_runs
        then Some (runs_of order varies.now) else None) }
{
    match times_combinations(order.repetitions, varies.as_slice()) {
        Some(runs) => { if runs <= MOST_RUNS { Some(runs) } else { None } }
        None => None,
    }
}

/// How many combinations of values there are.
pub(crate) fn combination_count(varies: &[Vary]) -> u64
    requires values { AllHaveValues varies.now }
    requires few { combinations varies.now ≤ most_runs }
    ensures { result ≡ combinations varies.now }
{
    match times_combinations(1, varies) {
        Some(count) => count,
        None => unreachable!(),
    }
}

/// The combination of a run, from 0; runs count from 1.
pub(crate) fn combination(order: Order, varies: &[Vary], run: u64) -> u64
    requires sweep { IsSweep order varies.now }
    requires run { IsRun order varies.now run }
    ensures value { result ≡ combination_of order varies.now run }
    ensures below { result < combinations varies.now }
{
    if order.sequential {
        (run - 1) / order.repetitions
    } else {
        (run - 1) % combination_count(varies)
    }
}
