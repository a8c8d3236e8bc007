//! A table in short. Nothing of it is kept but how many bytes it has and its last line.
ghost use Rattle.std.specs.Prelude.{◌≡◌, ◌+◌, IfOk};
ghost use Rattle.nl_table.specs.Lines.{line_text};
ghost use Rattle.nl_cli.specs.Outcome.{given};
ghost use Rattle.nl_cli.specs.inner.Stages.{IsSound, IsTotal, Puts, columns_in, job_in};
ghost use Rattle.nl_cli.specs.Table.{summary_text};

use crate::ends::End;
use crate::job::Job;
use crate::rows::run_rows;
use crate::table::{columns_line, header_text, names_of, put};
use nl_agents::Store;
use nl_fixed::{NoMemory, Str};
use nl_outer::Sink;
use nl_run::laws::rows_say_one_run;
use std::alloc::Global;

// How many bytes a table has so far, and its last line.
#[derive(Drop)]
struct Total {
    bytes: u64,
    last: Str,
}

// More bytes, where they can be counted.
fn counted(bytes: u64, more: usize) -> Result<u64, NoMemory>
    ensures { IfOk result (λ count. count ≡ bytes + more) }
{
    match bytes.checked_add(more as u64) {
        Some(count) => Ok(count),
        None => Err(NoMemory),
    }
}

// The last line of the header, which a table has where it has no further one.
fn first_last(alloc: Global, job: &Job) -> Result<Str, NoMemory>
    ensures { IfOk result (λ line. line ≡ line_text (columns_in (job_in job.now))) }
{
    let fields = job.experiment.fields();
    let names = names_of(alloc, fields.vary.as_slice())?;
    columns_line(alloc, &names, &fields.metrics)
}

// All runs, one after another, behind a header of so many bytes. Each of them has a row.
fn counted_runs<S: Store>(alloc: Global, job: &Job, header: usize) -> Result<Total, NoMemory>
    requires { IsSound (job_in job.now) }
    ensures { IfOk result (IsTotal (job_in job.now) header) }
{
    rows_say_one_run();
    let mut bytes = header as u64;
    let mut last = first_last(alloc, job)?;
    'runs: for done in 0..job.experiment.runs() {
        let rows = run_rows::<S>(alloc, job, done + 1)?;
        bytes = counted(bytes, rows.text.as_bytes().len())?;
        last = rows.last;
    }
    Ok(Total { bytes, last })
}

// The table in short.
fn summary<S: Store>(alloc: Global, model: &str, job: &Job) -> Result<Str, NoMemory>
    requires { IsSound (job_in job.now) }
    ensures { IfOk result (λ text. text ≡ summary_text model.now (job_in job.now)) }
{
    let header = header_text(alloc, model, job)?;
    let total = counted_runs::<S>(alloc, job, header.as_bytes().len())?;
    let head = format!(in alloc; "runs {}\nbytes {}\n", job.experiment.runs(), total.bytes)?;
    let mut text = Str::of(alloc, head.as_bytes())?;
    text.append(alloc, total.last.as_bytes())?;
    Ok(text)
}

/// Puts the table of a job in short, as one piece.
#[tactic(auto, using(crate::proofs::PutSteps::put_steps))]
pub fn put_summary<S: Store, O: Sink>(
    alloc: Global,
    model: &str,
    job: &Job,
    out: &mut O,
) -> Result<(), End>
    requires { IsSound (job_in job.now) }
    ensures { Puts (summary_text model.now (job_in job.now)) (given O.faults O.written out.old out.new) result }
{
    match summary::<S>(alloc, model, job) {
        Ok(text) => put(out, text.as_bytes()),
        Err(NoMemory) => Err(End::Memory),
    }
}
