//! What is done with a job.
ghost use Rattle.std.specs.Prelude.{[]};
ghost use Rattle.nl_experiment.specs.Numbers.{AreDigits};
ghost use Rattle.nl_cli.specs.Outcome.{given};
ghost use Rattle.nl_cli.specs.inner.Stages.{Does, IsNoRun, IsSound, Puts, job_in};
ghost use Rattle.nl_cli.specs.Answer.{checked_text, done_by};
ghost use Rattle.nl_cli.specs.Words as spec;
ghost use Rattle.nl_cli.specs.Words.{IsRightTask, task_in};

use crate::ends::End;
use crate::job::Job;
use crate::table::{put, put_run, put_table};
use crate::words::Task;
use nl_agents::Store;
use nl_experiment::{PlanFault, PlanKind};
use nl_fixed::{NoMemory, Str};
use nl_outer::Sink;
use std::alloc::Global;

// The end where no run has the number that was asked for, or want of memory for it.
fn no_run(alloc: Global, kind: PlanKind) -> End
    ensures { IsNoRun kind result }
{
    match Str::of(alloc, b"run") {
        Ok(key) => End::Plan(PlanFault {
            kind,
            key,
            inner: None,
        }),
        Err(NoMemory) => End::Memory,
    }
}

// Puts the rows of the run that digits name.
fn rerun<S: Store, O: Sink>(alloc: Global, job: &Job, digits: &str, out: &mut O) -> Result<(), End>
    requires sound { IsSound (job_in job.now) }
    requires digits { AreDigits digits.now }
    ensures { Does (done_by [] (spec.rerun digits.now) (job_in job.now))
        (given O.faults O.written out.old out.new) result }
{
    match job.experiment.run_number(digits) {
        Ok(number) => put_run::<S, O>(alloc, job, number, out),
        Err(kind) => Err(no_run(alloc, kind)),
    }
}

// Puts how many runs there are.
fn check<O: Sink>(alloc: Global, job: &Job, out: &mut O) -> Result<(), End>
    ensures { Puts (checked_text (job_in job.now)) (given O.faults O.written out.old out.new) result }
{
    match format!(in alloc; "ok {}\n", job.experiment.runs()) {
        Ok(line) => put(out, line.as_bytes()),
        Err(_) => Err(End::Memory),
    }
}

/// Does a task over a job whose model is called so.
pub fn done<S: Store, O: Sink>(
    alloc: Global,
    model: &str,
    task: &Task<'_>,
    job: &Job,
    out: &mut O,
) -> Result<(), End>
    requires sound { IsSound (job_in job.now) }
    requires right { IsRightTask (task_in task.now) }
    ensures { Does (done_by model.now (task_in task.now) (job_in job.now))
        (given O.faults O.written out.old out.new) result }
{
    match task {
        Task::Table => put_table::<S, O>(alloc, model, job, out),
        Task::Rerun(digits) => rerun::<S, O>(alloc, job, *digits, out),
        Task::Check => check(alloc, job, out),
    }
}
