//! What a run is made of.
ghost use Rattle.std.specs.Prelude.{◌≡◌, ◌≤◌, true, IfOk};
ghost use Rattle.nl_experiment_fields.specs.Written.{all_written};

use crate::rows::{Row, RunEnd};
use nl_experiment_sweep::{Setting, Settings};
use nl_fixed::{Cells, Names, NoMemory, Str};
use nl_grid::Shape;
use nl_tree::{Program, Tree, Trees};
use std::alloc::Global;

/// A text of the experiment, and the tree that it is beside the program.
#[derive(Clone, Copy)]
pub struct LoneText<'a> {
    pub text: &'a Str,
    pub tree: &'a Tree,
}

/// A run: all that its course rests on.
#[derive(Drop)]
pub struct Plan<'a> {
    pub program: &'a Program,
    /// The model's code part, in which places of errors of procedures are counted.
    pub source: &'a [u8],
    pub shape: Shape,
    /// What the experiment is called.
    pub name: &'a Str,
    /// The number of the run, counted from 1.
    pub number: u64,
    pub seed: u64,
    /// The global variables that the experiment sets.
    pub globals: &'a Settings,
    /// The varied variables, in order.
    pub settings: Settings,
    /// The commands that the run begins with.
    pub setup: LoneText<'a>,
    /// The commands of each step.
    pub go: LoneText<'a>,
    /// What is true where the run has to end.
    pub until: Option<LoneText<'a>>,
    /// What is true where the metrics are measured; without it they are at the end.
    pub when: Option<LoneText<'a>>,
    /// What is measured, and the trees of that.
    pub metrics: &'a Names,
    pub trees: &'a Trees,
    /// The most steps; 0 is no limit.
    pub steps: u64,
    /// The units of the run.
    pub budget: u64,
    pub ghost few: { number ≤ 100000 },
    pub ghost globals_fit: { all_written globals.now ≡ true },
    pub ghost settings_fit: { all_written settings ≡ true },
}

// The same settings again.
fn copied(alloc: Global, settings: &Settings) -> Result<Settings, NoMemory>
    ensures { IfOk result (λ again. again ≡ settings.now) }
{
    let mut again = Settings::empty(alloc);
    let list = settings.as_slice();
    'settings: for setting in list {
        let name = setting.name.copy(alloc)?;
        let value = setting.value.copy(alloc)?;
        again.push(alloc, Setting { name, value })?;
    }
    Ok(again)
}

#[tactic(auto, unfolding(crate::specs::Plans::job_in))]
impl<'a> Plan<'a> {
    ghost use Rattle.std.specs.Prelude.{◌≡◌, ◌+◌, ◌≤◌, ◌<◌, ◌^◌, true, [], ◌∷◌, drop, IfOk, IfSome, MatchOption};
    ghost use Rattle.std.specs.Option.{option_map};
    ghost use Rattle.nl_run.specs.Plans.{job_in, lone_seen};
    ghost use Rattle.nl_run.specs.Rows.{further, measure};
    ghost use Rattle.nl_experiment_fields.specs.Written.{all_written};

    /// The model's program.
    pub fn program(&self) -> &'a Program
        ensures { result.now ≡ (job_in self.now).program }
    {
        self.program
    }

    /// The model's code part.
    pub fn source(&self) -> &'a [u8]
        ensures { result.now ≡ (job_in self.now).source }
    {
        self.source
    }

    /// The shape of the world.
    pub fn shape(&self) -> Shape
        ensures { result ≡ (job_in self.now).shape }
    {
        self.shape
    }

    /// The seed of the random stream.
    pub fn seed(&self) -> u64
        ensures { result ≡ (job_in self.now).seed }
    {
        self.seed
    }

    /// What the experiment is called.
    pub fn name(&self) -> &'a Str
        ensures { result.now ≡ (job_in self.now).experiment }
    {
        self.name
    }

    /// The number of the run, counted from 1.
    pub fn number(&self) -> u64
        ensures value { result ≡ (job_in self.now).number }
        ensures few { result ≤ 100000 }
    {
        self.number
    }

    /// The global variables that the experiment sets.
    pub fn globals(&self) -> &'a Settings
        ensures value { result.now ≡ (job_in self.now).globals }
        ensures written { all_written result.now ≡ true }
    {
        self.globals
    }

    /// The varied variables, in order.
    pub fn settings(&self) -> &Settings
        ensures value { result.now ≡ (job_in self.now).settings }
        ensures written { all_written result.now ≡ true }
    {
        &self.settings
    }

    /// The most steps; 0 is no limit.
    pub fn steps(&self) -> u64
        ensures { result ≡ (job_in self.now).steps }
    {
        self.steps
    }

    /// The units of the run.
    pub fn budget(&self) -> u64
        ensures { result ≡ (job_in self.now).budget }
    {
        self.budget
    }

    /// The commands that the run begins with.
    pub fn setup(&self) -> LoneText<'a>
        ensures { lone_seen result ≡ (job_in self.now).setup }
    {
        self.setup
    }

    /// The commands of each step.
    pub fn go(&self) -> LoneText<'a>
        ensures { lone_seen result ≡ (job_in self.now).go }
    {
        self.go
    }

    /// What is true where the run has to end, if there is such a text.
    pub fn until(&self) -> Option<LoneText<'a>>
        ensures { option_map lone_seen result ≡ (job_in self.now).until }
    {
        self.until
    }

    /// What is true where the metrics are measured, if there is such a text.
    pub fn when(&self) -> Option<LoneText<'a>>
        ensures { option_map lone_seen result ≡ (job_in self.now).when }
    {
        self.when
    }

    /// The metric of an index, counted from 0.
    pub fn metric(&self, index: usize) -> Option<LoneText<'a>>
        ensures rest { MatchOption result
            (drop index (job_in self.now).metrics ≡ [])
            (λ metric. drop index (job_in self.now).metrics
            ≡ lone_seen metric ∷ drop (index + 1) (job_in self.now).metrics) }
        ensures few { IfSome result (λ metric. index + 1 < 2 ^ 64) }
    {
        let texts = self.metrics.as_slice();
        if index >= texts.len() {
            return None;
        }
        let tree = self.trees.get(index)?;
        Some(LoneText {
            text: &texts[index],
            tree,
        })
    }

    /// A row that measures.
    pub fn measure(&self, alloc: Global, step: u64, cells: Cells) -> Result<Row, NoMemory>
        ensures { IfOk result (λ row. row ≡ measure (job_in self.now) step cells) }
    {
        let settings = copied(alloc, &self.settings)?;
        Ok(Row {
            number: self.number,
            settings,
            step,
            cells: Some(cells),
            end: RunEnd::Open,
        })
    }

    /// A row that only ends.
    pub fn further(&self, alloc: Global, step: u64, how: RunEnd) -> Result<Row, NoMemory>
        ensures { IfOk result (λ row. row ≡ further (job_in self.now) step how) }
    {
        let settings = copied(alloc, &self.settings)?;
        Ok(Row {
            number: self.number,
            settings,
            step,
            cells: None,
            end: how,
        })
    }
}
