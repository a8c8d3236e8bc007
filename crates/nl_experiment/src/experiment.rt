//! An experiment: the fields of its file, its runs and its widgets.
ghost use Rattle.std.specs.Prelude.{◌≡◌, ◌<◌};
ghost use Rattle.nl_experiment_sweep.specs.Varied.{AllHaveValues};
ghost use Rattle.nl_experiment_fields.specs.Written.{AreWritten};
ghost use Rattle.nl_experiment.specs.Plan as spec;
ghost use Rattle.nl_experiment.specs.Plan.{Says, experiment_says};

use crate::faults::{PlanRefusal, of_keys};
use crate::numbers::run_among;
use crate::texts::Texts;
use crate::widgets::widgets_of;
use nl_experiment_fields::{Fields, fields_of};
use nl_experiment_keys::PlanKind;
use nl_experiment_keys::faults::fault_at;
use nl_experiment_sweep::{Order, Settings, World, all_have_worlds, runs};
use nl_fixed::{Names, NoMemory};
use nl_grid::Shape;
use nl_tree::Program;
use std::alloc::Global;
use std::marker::Model;

// A model has fewer widgets. A file isn't long enough for so many.
const MOST_WIDGETS: usize = 1 << 24;

/// What an experiment says, seen by contracts as its fields. Its runs are not too many, each has a world, and its values are
/// written down.
#[derive(Drop)]
pub struct Experiment {
    fields: Fields,
    widgets: Names,
    runs: u64,
}

impl Model for Experiment {
    ghost use Rattle.std.specs.Prelude.{◌≡◌};
    ghost use Rattle.nl_tree.specs.Names.{AreWidgets};
    ghost use Rattle.nl_experiment_sweep.specs.Sweep.{runs_of};
    ghost use Rattle.nl_experiment_fields.specs.declared.fields.Fields.{Fields};
    ghost use Rattle.nl_experiment_fields.specs.Written.{AreWritten};
    ghost use Rattle.nl_experiment.specs.Plan.{IsPlan, order_of};
    ghost use Rattle.nl_experiment.specs.Widgets.{widgets_of};
    ghost use Rattle.std.specs.Coded.{codes};
    ghost use Rattle.nl_value.specs.inner.Codes.{plain_code};
    ghost use Rattle.nl_experiment_sweep.specs.inner.Codes.{setting_code, vary_code};

    ghost Value = { Fields };

    ghost coded = { Prim.hlevel (codes, plain_code, setting_code, vary_code) };

    ghost view = { λ e. e.fields };

    ghost invariant = { λ e. IsPlan e.fields × (e.widgets ≡ widgets_of e.fields)
        × AreWidgets e.widgets × (e.runs ≡ runs_of (order_of e.fields) e.fields.vary) × AreWritten e.fields };
}

// How the runs of an experiment follow each other.
fn order_of(fields: &Fields) -> Order
    ensures { result ≡ spec.order_of fields.now }
{
    Order {
        repetitions: fields.repetitions,
        sequential: fields.sequential,
    }
}

// The world that four bounds and two truths are.
fn world_by(bounds: [i64; 4], wrap_x: bool, wrap_y: bool) -> World
    ensures { result ≡ spec.world_by bounds wrap_x wrap_y }
{
    World {
        min_x: bounds[0],
        max_x: bounds[1],
        min_y: bounds[2],
        max_y: bounds[3],
        wrap_x,
        wrap_y,
    }
}

// The world of an experiment.
fn world_of(fields: &Fields) -> World
    ensures { result ≡ spec.world_of fields.now }
{
    world_by(fields.bounds, fields.wrap_x, fields.wrap_y)
}

// The experiment that fields are, where their runs are not too many and each has a world.
fn judged(alloc: Global, fields: Fields) -> Result<Experiment, PlanRefusal>
    requires values { AllHaveValues fields.vary }
    requires repeated { 0 < fields.repetitions }
    requires written { AreWritten fields }
    ensures { Says (spec.judged fields) result }
{
    let order = order_of(&fields);
    let Some(runs) = runs(order, &fields.vary) else {
        return Err(of_keys(fault_at(alloc, "", "vary", PlanKind::TooManyRuns)));
    };
    if !all_have_worlds(order, &fields.vary, world_of(&fields)) {
        return Err(of_keys(fault_at(alloc, "", "world", PlanKind::BadWorld)));
    }
    let widgets = widgets_of(alloc, &fields)?;
    if widgets.as_slice().len() >= MOST_WIDGETS {
        return Err(PlanRefusal::NoMemory);
    }
    Ok(Experiment {
        fields,
        widgets,
        runs,
    })
}

impl Experiment {
    ghost use Rattle.std.specs.Prelude.{◌≡◌, ◌<◌, ◌≤◌, IfOk, IfErr, is_some};
    ghost use Rattle.nl_tree.specs.Names.{AreWidgets};
    ghost use Rattle.nl_experiment_sweep.specs.Sweep.{IsRun, plane_of_run, runs_of, seed_of, settings_of};
    ghost use Rattle.nl_experiment_fields.specs.Written.{AreWritten};
    ghost use Rattle.nl_experiment.specs.Numbers.{AreDigits, number_of, run_among};
    ghost use Rattle.nl_experiment.specs.Plan.{Says, experiment_says, order_of, world_of};
    ghost use Rattle.nl_experiment.specs.Texts.{AreTreesFor, RefusesTexts, texts_of, trees_of};
    ghost use Rattle.nl_experiment.specs.Widgets.{widgets_of};

    /// The experiment that a file is, or its first fault. Its texts are not looked at.
    pub fn read(alloc: Global, file: &[u8]) -> Result<Experiment, PlanRefusal>
        ensures { Says (experiment_says file.now) result }
    {
        match fields_of(alloc, file) {
            Ok(fields) => judged(alloc, fields),
            Err(refusal) => Err(of_keys(refusal)),
        }
    }

    /// The names that the model knows beside its own: those of the globals that are set, and then of what is varied, each once. They differ,
    /// no built-in word is among them, and they are fewer than 2^24.
    pub fn widgets(&self) -> &Names
        ensures names { result.now ≡ widgets_of self.now }
        ensures right { AreWidgets result.now }
    {
        &self.widgets
    }

    /// How many runs there are.
    pub fn runs(&self) -> u64
        ensures count { result ≡ runs_of (order_of self.now) self.now.vary }
        ensures few { result ≤ 100000 }
    {
        self.runs
    }

    /// The fields of the file.
    pub fn fields(&self) -> &Fields
        ensures same { result.now ≡ self.now }
        ensures written { AreWritten self.now }
    {
        &self.fields
    }

    /// The trees of the texts beside a program, or the first fault of a text in the order of their keys: `setup`, `go`, `until`,
    /// `measure-when`, `metric 1` and so on. The line and the column of a fault are those in its own text.
    pub fn texts(&self, alloc: Global, program: &Program) -> Result<Texts, PlanRefusal>
        ensures trees { IfOk result (λ texts.
            AreTreesFor program.now (texts_of self.now) (trees_of texts)) }
        ensures fault { IfErr result (RefusesTexts program.now (texts_of self.now)) }
        ensures until { IfOk result (λ texts. is_some texts.until ≡ is_some self.now.until) }
        ensures when { IfOk result (λ texts. is_some texts.measure_when ≡ is_some self.now.measure_when) }
    {
        crate::texts::texts_of(alloc, &self.fields, program)
    }

    /// The settings of a run: the varied variables in order.
    pub fn settings(&self, alloc: Global, run: u64) -> Result<Settings, NoMemory>
        requires { IsRun (order_of self.now) self.now.vary run }
        ensures { IfOk result (λ settings.
            settings ≡ settings_of (order_of self.now) self.now.vary run) }
    {
        nl_experiment_sweep::settings(alloc, order_of(&self.fields), &self.fields.vary, run)
    }

    /// The seed of a run.
    pub fn seed(&self, run: u64) -> u64
        requires { IsRun (order_of self.now) self.now.vary run }
        ensures { result ≡ seed_of (order_of self.now) self.now.vary self.now.seed run }
    {
        nl_experiment_sweep::seed(
            order_of(&self.fields),
            &self.fields.vary,
            self.fields.seed,
            run,
        )
    }

    /// The shape of the world of a run.
    pub fn shape(&self, run: u64) -> Shape
        requires { IsRun (order_of self.now) self.now.vary run }
        ensures { result ≡ plane_of_run (world_of self.now) (order_of self.now) self.now.vary run }
    {
        let fields = &self.fields;
        match nl_experiment_sweep::shape(order_of(fields), &fields.vary, world_of(fields), run) {
            Some(shape) => shape,
            None => unreachable!(),
        }
    }

    /// The number of the run that a word of digits names; NoSuchRun where there is no such run.
    pub fn run_number(&self, word: &str) -> Result<u64, PlanKind>
        requires { AreDigits word.now }
        ensures { result ≡ run_among (runs_of (order_of self.now) self.now.vary) (number_of word.now) }
    {
        run_among(self.runs, word.as_bytes())
    }
}
