//! A run, in slices of units.
ghost use Rattle.std.specs.Prelude.{◌≡◌, OnOk};
ghost use Rattle.std.specs.Option.{option_map};
ghost use Rattle.nl_tree.specs.Views.{plain};
ghost use Rattle.nl_run.specs.Job.{maybe_lone};
ghost use Rattle.nl_run.specs.Plans.{lone_seen};
ghost use Rattle.nl_run.specs.Going.{BudgetIn, CourseIn, ReadyIn};
ghost use Rattle.nl_run.specs.Plans.{job_in};
ghost use Rattle.nl_run.specs.Rows.{closed_by};
ghost use Rattle.nl_run.specs.inner.Moves.{ended_by};
ghost use Rattle.nl_run.specs.inner.Once.{course_once, ready_once};

use crate::phase::{Open, Phase};
use crate::plan::{LoneText, Plan};
use crate::progress::Progress;
use crate::rows::{Rows, RunEnd};
use crate::start::started;
use crate::work::work;
use nl_agents::Store;
use nl_experiment::{Experiment, Texts};
use nl_fixed::{NoMemory, Str};
use nl_tree::{Program, Tree};
use std::alloc::Global;

/// How a slice of a run ends.
#[derive(Clone, Copy, PartialEq, Eq, Debug)]
pub enum RunTurn {
    /// The units are spent, and a further one is wanted.
    More,
    /// The run has ended.
    Ended,
}

/// One run of an experiment, over a store. It can be stopped at any unit.
///
/// Once memory was wanting in `advance` or `finish`, each of these answers so from then on.
#[derive(Drop)]
pub struct Run<'a, S: Store> {
    plan: Plan<'a>,
    progress: Progress<'a, S>,
    phase: Phase<'a>,
    ghost ready: { ReadyIn phase (job_in plan) progress } by { ready_once phase (job_in plan) progress },
    ghost budget: { BudgetIn phase (job_in plan) progress },
    ghost course: { CourseIn phase (job_in plan) progress } by { course_once phase (job_in plan) progress },
}

// The rows have the end.
fn close<S: Store>(
    alloc: Global,
    plan: &Plan<'_>,
    progress: &mut Progress<'_, S>,
    how: RunEnd,
) -> Result<(), NoMemory>
    ensures rows { OnOk result
        (progress.new.rows ≡ closed_by (job_in plan.now) progress.old.step how progress.old.rows) }
    ensures machine { progress.new.machine ≡ progress.old.machine }
{
    match how {
        RunEnd::Open => Ok(()),
        RunEnd::Steps | RunEnd::Condition | RunEnd::Stop => {
            let row = plan.further(alloc, progress.step, how)?;
            progress.rows.close(alloc, row)
        }
        RunEnd::Budget | RunEnd::Error(_) => {
            let row = plan.further(alloc, progress.step, how)?;
            progress.rows.push(alloc, row)
        }
    }
}

// How a run ends that has stopped so, or where it goes on: one that wants the unit of a step ends where all are spent.
fn ended_by<'a>(phase: Phase<'a>, spent: bool) -> Result<RunEnd, Phase<'a>>
    ensures { result ≡ ended_by spent phase.entry }
{
    match phase {
        Phase::Over(how) => Ok(how),
        Phase::Wanting => {
            if spent {
                Ok(RunEnd::Budget)
            } else {
                Err(Phase::Wanting)
            }
        }
        phase => Err(phase),
    }
}

// A condition with its tree, if there is one.
fn condition_in<'a>(text: &'a Option<Str>, tree: &'a Option<Tree>) -> Option<LoneText<'a>>
    ensures { option_map lone_seen result ≡ maybe_lone text.now (option_map plain tree.now) }
{
    match (text, tree) {
        (Some(text), Some(tree)) => Some(LoneText { text, tree }),
        _ => None,
    }
}

impl<'a, S: Store> Run<'a, S> {
    ghost use Rattle.std.specs.Prelude.{◌≡◌, ℕ, ◌+◌, ◌<◌, [], IfOk, IsErr, OnOk, Ok};
    ghost use Rattle.nl_experiment_sweep.specs.Sweep.{IsRun};
    ghost use Rattle.nl_experiment.specs.Plan.{order_of};
    ghost use Rattle.nl_run.specs.Experiments.{job_by, trees_seen};
    ghost use Rattle.nl_run.specs.Course.{course, course_within, rows_of};
    ghost use Rattle.nl_run.specs.Runs.{HasEnded, HasFailed, job_of, left_more, rows_in, spent_in};
    ghost use Rattle.nl_run.specs.declared.rows.RunEnd.TheVariants.{Budget};
    ghost use Rattle.nl_run.specs.declared.run.RunTurn.TheVariants.{More, Ended};

    /// The run of a number of an experiment, counted from 1. `source` is the model's code part, in which places of errors are counted.
    #[tactic(auto, using(crate::proofs::Writing::settings_are_written), unfolding(crate::specs::Plans::job_in))]
    pub fn new(
        alloc: Global,
        program: &'a Program,
        source: &'a [u8],
        experiment: &'a Experiment,
        texts: &'a Texts,
        number: u64,
    ) -> Result<Run<'a, S>, NoMemory>
        requires { IsRun (order_of experiment.now) experiment.now.vary number }
        ensures job { IfOk result (λ run.
            job_of run ≡ job_by program.now source.now experiment.now (trees_seen texts.now) number) }
        ensures going { IfOk result (λ run. HasEnded run → ⊥) }
        ensures spent { IfOk result (λ run. spent_in run ≡ 0) }
        ensures rows { IfOk result (λ run. rows_in run ≡ []) }
    {
        let _runs = experiment.runs();
        let fields = experiment.fields();
        let settings = experiment.settings(alloc, number)?;
        let plan = Plan {
            program,
            source,
            shape: experiment.shape(number),
            name: &fields.name,
            number,
            seed: experiment.seed(number),
            globals: &fields.globals,
            settings,
            setup: LoneText {
                text: &fields.setup,
                tree: &texts.setup,
            },
            go: LoneText {
                text: &fields.go,
                tree: &texts.go,
            },
            until: condition_in(&fields.until, &texts.until),
            when: condition_in(&fields.measure_when, &texts.measure_when),
            metrics: &fields.metrics,
            trees: &texts.metrics,
            steps: fields.steps,
            budget: fields.budget,
        };
        Run::begin(alloc, plan)
    }

    // The run of a plan.
    fn begin(alloc: Global, plan: Plan<'a>) -> Result<Run<'a, S>, NoMemory>
        ensures job { IfOk result (λ run. job_of run ≡ job_in plan.entry) }
        ensures going { IfOk result (λ run. HasEnded run → ⊥) }
        ensures spent { IfOk result (λ run. spent_in run ≡ 0) }
        ensures rows { IfOk result (λ run. rows_in run ≡ []) }
    {
        let progress = started(alloc, &plan)?;
        Ok(Run {
            plan,
            progress,
            phase: Phase::Text(Open::Setup),
        })
    }

    /// Works until the run ends, or until a unit is wanted and these units were spent.
    pub fn advance(&mut self, alloc: Global, units: u64) -> Result<RunTurn, NoMemory>
        requires { HasEnded self.old → ⊥ }
        // More: the rows are those of the units spent so far, and a further unit is wanted.
        ensures rows { result ≡ Ok More →
            rows_in self.new ≡ (course_within (job_of self.old) (spent_in self.old + units)).rows }
        ensures cut { result ≡ Ok More →
            (course_within (job_of self.old) (spent_in self.old + units)).how ≡ Budget }
        ensures spends { result ≡ Ok More → spent_in self.new ≡ spent_in self.old + units }
        ensures further { result ≡ Ok More → spent_in self.new < (job_of self.old).budget }
        ensures going { result ≡ Ok More → HasEnded self.new → ⊥ }
        // Ended: the rows are those of the whole run.
        ensures whole { result ≡ Ok Ended → rows_in self.new ≡ rows_of (job_of self.old) }
        ensures ended { result ≡ Ok Ended → HasEnded self.new }
        ensures spent { result ≡ Ok Ended →
            spent_in self.new + (course (job_of self.old)).left ≡ (job_of self.old).budget }
        // Where fewer units were asked for than there are, the run itself has ended: it leaves all further units.
        ensures over { result ≡ Ok Ended → spent_in self.old + units < (job_of self.old).budget → (n : ℕ) →
            course_within (job_of self.old) (spent_in self.old + units + n)
            ≡ left_more n (course_within (job_of self.old) (spent_in self.old + units)) }
        ensures job { job_of self.new ≡ job_of self.old }
        // After a want of memory it stays so.
        ensures failed { IsErr result → HasFailed self.new }
        ensures stays { HasFailed self.old → IsErr result }
    {
        let phase = std::mem::replace(&mut self.phase, Phase::Failed);
        if !phase.is_going() {
            return Err(NoMemory);
        }
        let all = self.plan.budget() - self.progress.machine.spent();
        let (phase, _left) = work(alloc, &self.plan, &mut self.progress, phase, units.min(all))?;
        let spent = self.progress.machine.spent() == self.plan.budget();
        match ended_by(phase, spent) {
            Ok(how) => {
                close(alloc, &self.plan, &mut self.progress, how)?;
                self.phase = Phase::Ended;
                Ok(RunTurn::Ended)
            }
            Err(phase) => {
                self.phase = phase;
                Ok(RunTurn::More)
            }
        }
    }

    /// Works until the run ends.
    pub fn finish(&mut self, alloc: Global) -> Result<(), NoMemory>
        requires { HasEnded self.old → ⊥ }
        ensures rows { OnOk result (rows_in self.new ≡ rows_of (job_of self.old)) }
        ensures ended { OnOk result (HasEnded self.new) }
        ensures spent { OnOk result
            (spent_in self.new + (course (job_of self.old)).left ≡ (job_of self.old).budget) }
        ensures job { job_of self.new ≡ job_of self.old }
        ensures failed { IsErr result → HasFailed self.new }
        ensures stays { HasFailed self.old → IsErr result }
    {
        // What rules More out: the budget is a number of 64 bits.
        let _budget = self.plan.budget();
        match self.advance(alloc, u64::MAX)? {
            RunTurn::Ended => Ok(()),
            RunTurn::More => unreachable!(),
        }
    }

    /// The rows so far. A run that has ended has all of them, and the last one has the end.
    pub fn rows(&self) -> &Rows
        ensures { result.now ≡ rows_in self.now }
    {
        &self.progress.rows
    }
}
