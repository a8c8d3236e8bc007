//! What the inputs say.
ghost use Rattle.std.specs.Prelude.{◌≡◌, ◌≤◌, true, IfOk};
ghost use Rattle.nl_bench.specs.Texts.{experiment_text, model_text};
ghost use Rattle.nl_tree.specs.Names.{AreWidgets};
ghost use Rattle.nl_cli.specs.Limits.{most_size};
ghost use Rattle.nl_cli.specs.Outcome.{asked};
ghost use Rattle.nl_cli.specs.inner.Stages.{ExperimentSays, Gathers, Judges, Makes, ProgramSays, Reads, TreesSay};
ghost use Rattle.nl_cli.specs.Words.{PathsServed, paths_in};

use crate::FILE_LIMIT;
use crate::ends::End;
use crate::words::{Paths, Role};
use nl_check_model::{ModelRefusal, read_model};
use nl_experiment::{Experiment, PlanRefusal, Texts};
use nl_fixed::{Names, NoMemory};
use nl_outer::{Files, ReadFail};
use nl_scan::code_part;
use nl_tree::Program;
use std::alloc::Global;

/// An experiment with the program that it is beside, and what a run needs of both. Its inputs have no fault.
#[derive(Drop)]
pub struct Job {
    /// The bytes of the model's file.
    pub model: Vec<u8>,
    pub experiment: Experiment,
    pub program: Program,
    pub texts: Texts,
}

impl Job {
    ghost use Rattle.std.specs.Prelude.{◌≡◌};
    ghost use Rattle.nl_scan.specs.CodePart.{code_of};

    /// The code of the model, in which its places count.
    pub fn source(&self) -> &[u8]
        ensures { result.now ≡ code_of self.now.model.items }
    {
        code_part(self.model.as_slice())
    }
}

// The bytes of one input, or one more than the limit.
fn read_input<F: Files>(
    alloc: Global,
    files: &mut F,
    role: Role,
    path: &str,
) -> Result<Vec<u8>, End>
    requires { F.serves files.old path.now ≡ true }
    ensures outcome { Reads role path.now
        (asked F.faults F.last_fault F.folder files.old files.new) result }
    ensures later { F.faults files.old ≤ F.faults files.new }
    ensures same_folder { F.folder files.new ≡ F.folder files.old }
    ensures same_paths { F.serves files.new ≡ F.serves files.old }
{
    match files.read_file(alloc, path, FILE_LIMIT) {
        Ok(bytes) => Ok(bytes),
        Err(ReadFail::Failed) => Err(End::Read(role)),
        Err(ReadFail::NoMemory) => Err(End::Memory),
    }
}

// The experiment that a file is.
fn experiment_of(alloc: Global, file: &[u8]) -> Result<Experiment, End>
    ensures { ExperimentSays file.now result }
{
    match Experiment::read(alloc, file) {
        Ok(experiment) => Ok(experiment),
        Err(PlanRefusal::Fault(fault)) => Err(End::Plan(fault)),
        Err(PlanRefusal::NoMemory) => Err(End::Memory),
    }
}

// The same names again.
fn copied(alloc: Global, names: &Names) -> Result<Names, NoMemory>
    ensures { IfOk result (λ copy. copy ≡ names.now) }
{
    let mut copy = Names::empty(alloc);
    let all = names.as_slice();
    'names: for name in all {
        let name = name.copy(alloc)?;
        copy.push(alloc, name)?;
    }
    Ok(copy)
}

// The program that a file is beside these widgets.
fn program_of(alloc: Global, file: &[u8], widgets: &Names) -> Result<Program, End>
    requires { AreWidgets widgets.now }
    ensures { ProgramSays widgets.now file.now result }
{
    let Ok(widgets) = copied(alloc, widgets) else {
        return Err(End::Memory);
    };
    match read_model(alloc, file, widgets) {
        Ok(program) => Ok(program),
        Err(ModelRefusal::Fault(fault)) => Err(End::Model(fault)),
        Err(ModelRefusal::NoMemory) => Err(End::Memory),
    }
}

// The trees of the texts of an experiment beside a program.
fn trees_of(alloc: Global, experiment: &Experiment, program: &Program) -> Result<Texts, End>
    ensures { TreesSay experiment.now program.now result }
{
    match experiment.texts(alloc, program) {
        Ok(texts) => Ok(texts),
        Err(PlanRefusal::Fault(fault)) => Err(End::Plan(fault)),
        Err(PlanRefusal::NoMemory) => Err(End::Memory),
    }
}

// What the bytes of a model and those of an experiment say: the experiment's file first, then the model, and then the
// experiment's texts.
fn judged(alloc: Global, model: Vec<u8>, experiment: &[u8]) -> Result<Job, End>
    ensures { Judges model.items experiment.now result }
{
    let experiment = experiment_of(alloc, experiment)?;
    let program = program_of(alloc, model.as_slice(), experiment.widgets())?;
    let texts = trees_of(alloc, &experiment, &program)?;
    Ok(Job {
        model,
        experiment,
        program,
        texts,
    })
}

/// Reads the inputs, and says what they say.
pub fn gather<F: Files>(alloc: Global, paths: &Paths<'_>, files: &mut F) -> Result<Job, End>
    requires { PathsServed (F.serves files.old) (paths_in paths.now) }
    ensures { Gathers (paths_in paths.now)
        (asked F.faults F.last_fault F.folder files.old files.new) result }
{
    let model = read_input(alloc, files, Role::Model, paths.model)?;
    let experiment = read_input(alloc, files, Role::Experiment, paths.experiment)?;
    judged(alloc, model, experiment.as_slice())
}

// The model of the measure of a size.
fn measure_model(alloc: Global, size: u64) -> Result<Vec<u8>, NoMemory>
    requires { size ≤ most_size }
    ensures { IfOk result (λ bytes. bytes.items ≡ model_text) }
{
    let text = nl_bench::model(alloc, size)?;
    let bytes = text.as_bytes().to_vec(alloc)?;
    Ok(bytes)
}

/// Makes the inputs of the measure of a size, and says what they say.
pub fn made(alloc: Global, size: u64) -> Result<Job, End>
    requires { size ≤ most_size }
    ensures { Makes size result }
{
    let Ok(model) = measure_model(alloc, size) else {
        return Err(End::Memory);
    };
    let Ok(experiment) = nl_bench::experiment(alloc, size) else {
        return Err(End::Memory);
    };
    judged(alloc, model, experiment.as_bytes())
}
