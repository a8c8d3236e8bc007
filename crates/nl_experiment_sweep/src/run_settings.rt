//! The settings and the seed of a run.
ghost use Rattle.std.specs.Prelude.{◌≡◌, ◌≤◌, ◌<◌, IfOk};
ghost use Rattle.std.specs.Str.{bytes_eq};
ghost use Rattle.nl_experiment_sweep.specs.Varied.{AllHaveValues, number_among, whole_among, random_seed};
ghost use Rattle.nl_experiment_sweep.specs.Sweep.{IsRun, IsSweep, combinations, most_runs, seed_of, settings_in, settings_of};

use crate::order::{Order, combination, combination_count};
use crate::varied::{Setting, Settings, Varies, Vary};
use nl_fixed::{NoMemory, Num};
use std::alloc::Global;

// The varied variables with the values of a combination.
fn settings_at(alloc: Global, varies: &[Vary], combination: u64) -> Result<Settings, NoMemory>
    requires values { AllHaveValues varies.now }
    requires few { combinations varies.now ≤ most_runs }
    requires below { combination < combinations varies.now }
    ensures { IfOk result (λ settings. settings ≡ settings_in combination varies.now) }
{
    let mut settings = Settings::empty(alloc);
    let mut others = combination_count(varies);
    let mut left = varies;
    'varied: while let Some((vary, behind)) = left.split_first() {
        left = behind;
        others /= vary.choice.count();
        let index = combination / others % vary.choice.count();
        let value = vary.choice.value(alloc, index)?;
        let name = vary.name.copy(alloc)?;
        settings.push(alloc, Setting { name, value })?;
    }
    Ok(settings)
}

pub(crate) fn is_named(name: &[u8], other: &[u8]) -> bool
    ensures { result ≡ bytes_eq name.now other.now }
{
    name == other
}

// The number that a variable has in a combination, where it is varied over numbers.
pub(crate) fn number_at(varies: &[Vary], name: &[u8], combination: u64) -> Option<Num>
    requires values { AllHaveValues varies.now }
    requires few { combinations varies.now ≤ most_runs }
    requires below { combination < combinations varies.now }
    ensures { result ≡ number_among name.now (settings_in combination varies.now) }
{
    let mut others = combination_count(varies);
    let mut left = varies;
    'varied: while let Some((vary, behind)) = left.split_first() {
        left = behind;
        others /= vary.choice.count();
        if is_named(vary.name.as_bytes(), name) {
            let index = combination / others % vary.choice.count();
            return vary.choice.number(index);
        }
    }
    None
}

/// The settings of a run: the varied variables in order.
#[tactic(auto, unfolding(crate::specs::Sweep::settings_of))]
pub fn settings(
    alloc: Global,
    order: Order,
    varies: &Varies,
    run: u64,
) -> Result<Settings, NoMemory>
    requires sweep { IsSweep order varies.now }
    requires run { IsRun order varies.now run }
    ensures { IfOk result (λ settings. settings ≡ settings_of order varies.now run) }
{
    let varies = varies.as_slice();
    settings_at(alloc, varies, combination(order, varies, run))
}

/// The seed of a run: that of the first run is given, each further run has the next one, unless the seed itself is varied.
#[tactic(auto, unfolding(crate::specs::Sweep::settings_of, crate::specs::Sweep::seed_of))]
pub fn seed(order: Order, varies: &Varies, first: u64, run: u64) -> u64
    requires sweep { IsSweep order varies.now }
    requires run { IsRun order varies.now run }
    ensures { result ≡ seed_of order varies.now first run }
{
    let varies = varies.as_slice();
    match number_at(varies, b"random-seed", combination(order, varies, run)) {
        Some(number) => number.whole_part().unsigned_abs(),
        None => first.wrapping_add(run - 1),
    }
}
