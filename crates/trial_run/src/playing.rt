//! Runs of experiments beside models.
ghost use Rattle.std.specs.Prelude.{◌≡◌, IfOk, IfSome};
ghost use Rattle.nl_tree.specs.Names.{AreWidgets};
ghost use Rattle.nl_run.specs.Runs.{HasEnded};

use crate::lines::have_lines;
use crate::rows::{Trial, Way};
use nl_agents::Store;
use nl_check_model::read_model;
use nl_experiment::{Experiment, Texts};
use nl_fixed::{Names, NoMemory};
use nl_plain::Plain;
use nl_run::{Run, RunTurn};
use nl_scan::code_part;
use nl_store::Indexed;
use nl_tree::Program;
use std::alloc::Global;

// More slices than a run wants.
const AMPLE: u64 = 10_000_000;

/// Lets go of a thing by one call: what ends inside of a function is walked there, once on each way out.
pub(crate) fn let_go<T: Drop>(_thing: T) {}

// ---- inputs

// The experiment that a file is; none where that has a fault.
fn experiment_of(alloc: Global, file: &[u8]) -> Option<Experiment> {
    match Experiment::read(alloc, file) {
        Ok(experiment) => Some(experiment),
        Err(_) => None,
    }
}

// The same names again.
fn copied(alloc: Global, names: &Names) -> Result<Names, NoMemory>
    ensures { IfOk result (λ copy. copy ≡ names.now) }
{
    let mut copy = Names::empty(alloc);
    let all = names.as_slice();
    'names: for name in all {
        let name = name.copy(alloc)?;
        copy.push(alloc, name)?;
    }
    Ok(copy)
}

// The program that a file is beside widgets; none where that has a fault.
fn program_of(alloc: Global, file: &[u8], widgets: &Names) -> Option<Program>
    requires { AreWidgets widgets.now }
{
    let Ok(widgets) = copied(alloc, widgets) else {
        return None;
    };
    read_model(alloc, file, widgets).ok()
}

// ---- runs

// Whether a run ends, in slices of so many units.
fn ends_in_slices<S: Store>(alloc: Global, run: &mut Run<'_, S>, units: u64) -> bool
    requires { HasEnded run.old → ⊥ }
{
    for _ in 0..AMPLE {
        match run.advance(alloc, units) {
            Ok(RunTurn::Ended) => return true,
            Ok(RunTurn::More) => {}
            Err(_) => return false,
        }
    }
    false
}

// Whether a run ends.
fn ends<S: Store>(alloc: Global, run: &mut Run<'_, S>, way: Way) -> bool
    requires { HasEnded run.old → ⊥ }
{
    match way {
        Way::Whole => run.finish(alloc).is_ok(),
        Way::Slices(units) => ends_in_slices(alloc, run, units),
    }
}

// An experiment with the program and the trees that it is beside, all lent for one time, as a run holds them.
#[derive(Clone, Copy)]
struct Job<'a> {
    experiment: &'a Experiment,
    program: &'a Program,
    texts: &'a Texts,
}

// The run of a number, counted from 1; none where the experiment has no such run.
fn run_of<'a, S: Store>(
    alloc: Global,
    job: Job<'a>,
    source: &'a [u8],
    number: u64,
) -> Option<Run<'a, S>>
    ensures { IfSome result (λ run. HasEnded run → ⊥) }
{
    if number < 1 {
        return None;
    }
    if number > job.experiment.runs() {
        return None;
    }
    let Job {
        experiment,
        program,
        texts,
    } = job;
    Run::new(alloc, program, source, experiment, texts, number).ok()
}

// Whether a trial's run has its lines over a store.
fn plays<S: Store>(alloc: Global, job: Job<'_>, trial: &Trial<'_>, way: Way) -> bool {
    let source = code_part(trial.model.as_bytes());
    let Some(mut run) = run_of::<S>(alloc, job, source, trial.number) else {
        return false;
    };
    let metrics = job.experiment.fields().metrics.as_slice().len();
    let right = ends(alloc, &mut run, way)
        && have_lines(alloc, run.rows().as_slice(), metrics, trial.lines);
    let_go(run);
    right
}

// The first of these ways in which a trial's run over a store doesn't have its lines.
fn wrong_way<S: Store>(
    alloc: Global,
    job: Job<'_>,
    trial: &Trial<'_>,
    ways: &[Way],
) -> Option<Way> {
    for way in ways {
        if !plays::<S>(alloc, job, trial, *way) {
            return Some(*way);
        }
    }
    None
}

// ---- trials

// The same beside a program; the first way where the texts have a fault.
fn wrong_beside<S: Store>(
    alloc: Global,
    experiment: &Experiment,
    program: &Program,
    trial: &Trial<'_>,
    ways: &[Way],
) -> Option<Way> {
    let Ok(texts) = experiment.texts(alloc, program) else {
        return Some(Way::Whole);
    };
    let job = Job {
        experiment,
        program,
        texts: &texts,
    };
    let wrong = wrong_way::<S>(alloc, job, trial, ways);
    let_go(texts);
    wrong
}

// The same of an experiment; the first way where the model has a fault.
fn wrong_with<S: Store>(
    alloc: Global,
    experiment: &Experiment,
    trial: &Trial<'_>,
    ways: &[Way],
) -> Option<Way> {
    let Some(program) = program_of(alloc, trial.model.as_bytes(), experiment.widgets()) else {
        return Some(Way::Whole);
    };
    let wrong = wrong_beside::<S>(alloc, experiment, &program, trial, ways);
    let_go(program);
    wrong
}

// The same; the first way where the experiment has a fault.
fn wrong_of<S: Store>(alloc: Global, trial: &Trial<'_>, ways: &[Way]) -> Option<Way> {
    let Some(experiment) = experiment_of(alloc, trial.plan.as_bytes()) else {
        return Some(Way::Whole);
    };
    let wrong = wrong_with::<S>(alloc, &experiment, trial, ways);
    let_go(experiment);
    wrong
}

/// The first of these trials whose run over a store doesn't have its lines, or whose inputs have a fault, and the way.
pub(crate) fn wrong_over<'a, S: Store>(
    alloc: Global,
    trials: &[Trial<'a>],
    ways: &[Way],
) -> Option<(&'a str, Way)> {
    for trial in trials {
        if let Some(way) = wrong_of::<S>(alloc, trial, ways) {
            return Some((trial.plan, way));
        }
    }
    None
}

/// The same over each store that there is.
pub(crate) fn wrong_in<'a>(
    alloc: Global,
    trials: &[Trial<'a>],
    ways: &[Way],
) -> Option<(&'a str, Way)> {
    let wrong = wrong_over::<Plain>(alloc, trials, ways);
    if wrong.is_some() {
        return wrong;
    }
    wrong_over::<Indexed>(alloc, trials, ways)
}
