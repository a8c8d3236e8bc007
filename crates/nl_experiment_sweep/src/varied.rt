//! What an experiment varies, and settings.
ghost use Rattle.std.specs.Prelude.{◌≡◌, ◌<◌, ◌≤◌, pos, ◌+ℤ◌, ◌*ℤ◌};
ghost use Rattle.nl_fixed.specs.Numbers.{IsInRange, number_at};
ghost use Rattle.nl_experiment_sweep.specs.Sweep.{most_runs};
ghost use Rattle.nl_experiment_sweep.specs.Varied.{HasValues};
ghost use Rattle.nl_experiment_sweep.specs.declared.varied.Choice.TheVariants as Choice;

use nl_fixed::{NoMemory, Num, Str};
use nl_value::{Items, Value};
use std::alloc::Global;
use std::marker::Model;

/// A name with a value.
#[derive(Drop)]
pub struct Setting {
    pub name: Str,
    pub value: Value,
}

/// Settings, in order.
#[derive(Drop)]
pub struct Settings {
    list: Vec<Setting>,
}

impl Model for Settings {
    ghost use Rattle.std.specs.Prelude.{List, map};
    ghost use Rattle.std.specs.Coded.{coded_list};
    ghost use Rattle.nl_experiment_sweep.specs.Varied.{PlainSetting, plain_setting};
    ghost use Rattle.nl_experiment_sweep.specs.inner.Codes.{setting_code};

    ghost Value = { List PlainSetting };

    ghost coded = { coded_list setting_code };

    ghost view = { λ settings. map plain_setting settings.list.items };
}

impl Settings {
    ghost use Rattle.std.specs.Prelude.{◌≡◌, [], ◌∷◌, ◌++◌, map, OnOk, OnErr};
    ghost use Rattle.nl_experiment_sweep.specs.Varied.{plain_setting};

    /// No settings.
    pub fn empty(alloc: Global) -> Settings
        ensures { result ≡ [] }
    {
        Settings {
            list: Vec::new(alloc),
        }
    }

    /// The settings, in order.
    pub fn as_slice(&self) -> &[Setting]
        ensures { map plain_setting result.now ≡ self.now }
    {
        self.list.as_slice()
    }

    /// Appends a setting, or leaves the list as it was.
    pub fn push(&mut self, _alloc: Global, setting: Setting) -> Result<(), NoMemory>
        ensures ok { OnOk result (self.new ≡ self.old ++ plain_setting setting ∷ []) }
        ensures err { OnErr result (self.new ≡ self.old) }
    {
        self.list.push(setting)?;
        Ok(())
    }
}

/// The values that a variable takes in turn.
#[derive(Drop)]
pub enum Choice {
    /// These values.
    Listed(Items),
    /// So many numbers, from one on, each greater than the one before by the step.
    Stepped { from: Num, step: Num, count: u64 },
}

impl Choice {
    ghost use Rattle.std.specs.Prelude.{◌≡◌, ◌<◌, ◌≤◌, IfOk};
    ghost use Rattle.nl_value.specs.Views.{plain};
    ghost use Rattle.nl_experiment_sweep.specs.Sweep.{most_runs};
    ghost use Rattle.nl_experiment_sweep.specs.Varied.{HasValues, count_in, count_of, value_of};

    /// How many values there are.
    pub fn count(&self) -> u64
        ensures { result ≡ count_of self.now }
    {
        match self {
            Choice::Listed(values) => values.len() as u64,
            Choice::Stepped { count, .. } => *count,
        }
    }

    /// The value at an index, from 0.
    pub fn value(&self, alloc: Global, index: u64) -> Result<Value, NoMemory>
        requires values { HasValues self.now }
        requires below { index < count_of self.now }
        requires few { index ≤ most_runs }
        ensures { IfOk result (λ value. plain value ≡ value_of self.now index) }
    {
        match self {
            Choice::Listed(values) => match values.get(index as usize) {
                Some(value) => value.copy(alloc),
                None => unreachable!(),
            },
            Choice::Stepped { from, step, count } => {
                Ok(Value::Number(stepped(*from, *step, *count, index)))
            }
        }
    }

    /// The number at an index, where the value there is one.
    pub fn number(&self, index: u64) -> Option<Num>
        requires values { HasValues self.now }
        requires below { index < count_of self.now }
        requires few { index ≤ most_runs }
        ensures { result ≡ count_in (value_of self.now index) }
    {
        match self {
            Choice::Listed(values) => match values.get(index as usize) {
                Some(Value::Number(number)) => Some(*number),
                _ => None,
            },
            Choice::Stepped { from, step, count } => Some(stepped(*from, *step, *count, index)),
        }
    }
}

// How many millionths lie so many steps above a number.
pub(crate) fn millionths_at(from: Num, step: Num, index: u64) -> i128
    requires { index ≤ most_runs }
    ensures sum { result ≡ from +ℤ (pos index *ℤ step) }
    ensures bound { IsInRange from }
{
    let times = index as i64;
    i128::from(from.millionths()) + i128::from(times) * i128::from(step.millionths())
}

// The number of a stepped choice at an index.
fn stepped(from: Num, step: Num, count: u64, index: u64) -> Num
    requires values { HasValues (Choice.Stepped from step count) }
    requires below { index < count }
    requires few { index ≤ most_runs }
    ensures { result ≡ from +ℤ (pos index *ℤ step) }
{
    match number_of(millionths_at(from, step, index)) {
        Some(number) => number,
        None => unreachable!(),
    }
}

// The number of so many millionths, where it is in range.
pub(crate) fn number_of(count: i128) -> Option<Num>
    ensures { result ≡ number_at count }
{
    match i64::try_from(count) {
        Ok(count) => Num::new(count),
        Err(_) => None,
    }
}

/// A variable and the values that it takes in turn. Its name is in lower case.
#[derive(Drop)]
pub struct Vary {
    pub name: Str,
    pub choice: Choice,
}

/// What is varied, in order: the first variable is the slowest.
#[derive(Drop)]
pub struct Varies {
    list: Vec<Vary>,
}

impl Model for Varies {
    ghost use Rattle.std.specs.Prelude.{List};
    ghost use Rattle.std.specs.Coded.{coded_list};
    ghost use Rattle.nl_experiment_sweep.specs.declared.varied.Vary.{Vary};
    ghost use Rattle.nl_experiment_sweep.specs.inner.Codes.{vary_code};

    ghost Value = { List Vary };

    ghost coded = { coded_list vary_code };

    ghost view = { λ varies. varies.list.items };
}

impl Varies {
    ghost use Rattle.std.specs.Prelude.{◌≡◌, [], ◌∷◌, ◌++◌, OnOk, OnErr};

    /// Nothing is varied.
    pub fn empty(alloc: Global) -> Varies
        ensures { result ≡ [] }
    {
        Varies {
            list: Vec::new(alloc),
        }
    }

    /// What is varied, in order.
    pub fn as_slice(&self) -> &[Vary]
        ensures { result.now ≡ self.now }
    {
        self.list.as_slice()
    }

    /// Appends a variable, or leaves the list as it was.
    pub fn push(&mut self, _alloc: Global, vary: Vary) -> Result<(), NoMemory>
        ensures ok { OnOk result (self.new ≡ self.old ++ vary ∷ []) }
        ensures err { OnErr result (self.new ≡ self.old) }
    {
        self.list.push(vary)?;
        Ok(())
    }
}
