//! The table is put piece by piece: its header, and the rows of each run.
ghost use Rattle.std.specs.Prelude.{◌≡◌, map, IfOk};
ghost use Rattle.nl_table.specs.Header.{columns};
ghost use Rattle.nl_table.specs.Lines.{line_text};
ghost use Rattle.nl_cli.specs.Outcome.{given};
ghost use Rattle.nl_cli.specs.inner.Stages.{IsRunIn, IsSound, Puts, job_in, rows_among};
ghost use Rattle.nl_cli.specs.Table.{header_of, rows_text, run_numbers, table_text};

use crate::ends::End;
use crate::job::Job;
use crate::rows::run_rows;
use nl_agents::Store;
use nl_experiment_sweep::Vary;
use nl_fixed::{Names, NoMemory, Str};
use nl_outer::{Sink, WriteFail};
use nl_table::{Record, header};
use std::alloc::Global;

/// What is varied, by name.
pub fn names_of(alloc: Global, varied: &[Vary]) -> Result<Names, NoMemory>
    ensures { IfOk result (λ names. names ≡ map (λ v. v.name) varied.now) }
{
    let mut names = Names::empty(alloc);
    'varied: for vary in varied {
        let name = vary.name.copy(alloc)?;
        names.push(alloc, name)?;
    }
    Ok(names)
}

/// The header of the table of a job, whose model is called so.
pub fn header_text(alloc: Global, model: &str, job: &Job) -> Result<Str, NoMemory>
    ensures { IfOk result (λ header. header ≡ header_of model.now (job_in job.now)) }
{
    let fields = job.experiment.fields();
    let names = names_of(alloc, fields.vary.as_slice())?;
    header(
        alloc,
        model,
        &fields.name,
        fields.bounds,
        &names,
        &fields.metrics,
    )
}

/// The line of the columns of a table, which is the last one of its header.
pub fn columns_line(alloc: Global, variables: &Names, metrics: &Names) -> Result<Str, NoMemory>
    ensures { IfOk result (λ line. line ≡ line_text (columns variables.now metrics.now)) }
{
    let mut record = Record::empty(alloc);
    record.push(alloc, b"[run number]")?;
    record.extend(alloc, variables)?;
    record.push(alloc, b"[step]")?;
    record.extend(alloc, metrics)?;
    record.push(alloc, b"[end]")?;
    record.text(alloc)
}

/// Puts a piece.
pub fn put<O: Sink>(out: &mut O, piece: &[u8]) -> Result<(), End>
    ensures { Puts piece.now (given O.faults O.written out.old out.new) result }
{
    match out.put(piece) {
        Ok(()) => Ok(()),
        Err(WriteFail) => Err(End::Write),
    }
}

#[tactic(auto, using(crate::proofs::PutSteps::put_steps))]
fn put_header<O: Sink>(alloc: Global, model: &str, job: &Job, out: &mut O) -> Result<(), End>
    ensures { Puts (header_of model.now (job_in job.now)) (given O.faults O.written out.old out.new) result }
{
    match header_text(alloc, model, job) {
        Ok(header) => put(out, header.as_bytes()),
        Err(NoMemory) => Err(End::Memory),
    }
}

/// Puts the rows of a run as one piece.
#[tactic(auto, using(crate::proofs::PutSteps::put_steps))]
pub fn put_run<S: Store, O: Sink>(
    alloc: Global,
    job: &Job,
    number: u64,
    out: &mut O,
) -> Result<(), End>
    requires sound { IsSound (job_in job.now) }
    requires run { IsRunIn (job_in job.now) number }
    ensures { Puts (rows_text (job_in job.now) number) (given O.faults O.written out.old out.new) result }
{
    match run_rows::<S>(alloc, job, number) {
        Ok(rows) => put(out, rows.text.as_bytes()),
        Err(NoMemory) => Err(End::Memory),
    }
}

// Puts the rows of all runs, one after another.
fn put_runs<S: Store, O: Sink>(alloc: Global, job: &Job, out: &mut O) -> Result<(), End>
    requires { IsSound (job_in job.now) }
    ensures { Puts (rows_among (job_in job.now) (run_numbers (job_in job.now)))
        (given O.faults O.written out.old out.new) result }
{
    'runs: for done in 0..job.experiment.runs() {
        put_run::<S, O>(alloc, job, done + 1, out)?;
    }
    Ok(())
}

/// Puts the table of a job: its header, and the rows of its runs.
pub fn put_table<S: Store, O: Sink>(
    alloc: Global,
    model: &str,
    job: &Job,
    out: &mut O,
) -> Result<(), End>
    requires { IsSound (job_in job.now) }
    ensures { Puts (table_text model.now (job_in job.now)) (given O.faults O.written out.old out.new) result }
{
    put_header(alloc, model, job, out)?;
    put_runs::<S, O>(alloc, job, out)
}
