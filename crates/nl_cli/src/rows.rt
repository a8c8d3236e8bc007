//! The rows of a run, as lines of a table.
ghost use Rattle.std.specs.Prelude.{◌≡◌, ◌≤◌, ◌++◌, [], map, length, replicate, true, false, IfOk, OnOk};
ghost use Rattle.std.specs.Fmt.{decimal};
ghost use Rattle.std.specs.List.{list_all};
ghost use Rattle.nl_value.specs.Limits.{most_bytes};
ghost use Rattle.nl_value.specs.Living.{no_life};
ghost use Rattle.nl_value.specs.Text.{text_of};
ghost use Rattle.nl_value.specs.Views.{plain};
ghost use Rattle.nl_experiment_sweep.specs.Varied.{plain_setting};
ghost use Rattle.nl_table.specs.Lines.{line_text, lines_text};
ghost use Rattle.nl_cli.specs.Table.{last_line, metric_texts, rows_text, run_lines, setting_text};
ghost use Rattle.nl_cli.specs.inner.Stages.{IsHead, IsRunIn, IsSound, cells_behind, is_short, job_in};

use crate::job::Job;
use nl_agents::Store;
use nl_experiment_sweep::{Setting, Settings};
use nl_fixed::{Cells, NoMemory, Str};
use nl_run::{Row, Run};
use nl_table::Record;
use nl_value::texts::{TextFail, text};
use nl_value::{NoLife, Value};
use std::alloc::Global;

/// Lines of a table, and the last of them once more.
#[derive(Drop)]
pub struct Lines {
    pub text: Str,
    pub last: Str,
}

/// A number in digits.
pub fn decimal_text(alloc: Global, value: u64) -> Result<Str, NoMemory>
    ensures { IfOk result (λ text. text ≡ decimal value) }
{
    let text = value.to_string(alloc)?;
    Str::of(alloc, text.as_bytes())
}

// The text of a value that is no number, and not too long.
fn value_cell(alloc: Global, value: &Value) -> Result<Str, NoMemory>
    requires { length (text_of no_life false (plain value.now)) ≤ most_bytes }
    ensures { IfOk result (λ cell. cell ≡ text_of no_life false (plain value.now)) }
{
    match text(alloc, value, false, &NoLife) {
        Ok(cell) => Ok(cell),
        Err(TextFail::TooLarge) => unreachable!(),
        Err(TextFail::NoMemory) => Err(NoMemory),
    }
}

// The value of a setting, whose text is not too long.
fn setting_cell(alloc: Global, setting: &Setting) -> Result<Str, NoMemory>
    requires { is_short (plain_setting setting.now) ≡ true }
    ensures { IfOk result (λ cell. cell ≡ setting_text (plain_setting setting.now)) }
{
    match &setting.value {
        Value::Number(number) => number.text(alloc),
        value => value_cell(alloc, value),
    }
}

// The values of settings.
fn setting_cells(alloc: Global, settings: &[Setting]) -> Result<Cells, NoMemory>
    requires { list_all is_short (map plain_setting settings.now) ≡ true }
    ensures { IfOk result (λ cells. cells ≡ map setting_text (map plain_setting settings.now)) }
{
    let mut cells = Cells::empty(alloc);
    let mut left = settings;
    'settings: while let Some((setting, behind)) = left.split_first() {
        left = behind;
        let cell = setting_cell(alloc, setting)?;
        cells.push(alloc, cell)?;
    }
    Ok(cells)
}

// Appends so many empty cells.
fn add_empty<'a>(alloc: Global, line: &mut Record<'a>, count: usize) -> Result<(), NoMemory>
    ensures { OnOk result (line.new ≡ line.old ++ replicate count []) }
{
    let mut left = count;
    'cells: while left != 0 {
        line.push(alloc, b"")?;
        left -= 1;
    }
    Ok(())
}

// Appends the texts of the metrics, of which there are so many; each is empty where nothing was measured.
fn add_metrics<'a>(
    alloc: Global,
    line: &mut Record<'a>,
    metrics: usize,
    texts: &'a Option<Cells>,
) -> Result<(), NoMemory>
    ensures { OnOk result (line.new ≡ line.old ++ metric_texts metrics texts.now) }
{
    match texts {
        Some(texts) => line.extend(alloc, texts),
        None => add_empty(alloc, line, metrics),
    }
}

// The cells that each row of a run begins with, and how many metrics there are.
#[derive(Drop)]
struct Head {
    number: Str,
    settings: Cells,
    metrics: usize,
}

// The line of a row.
fn row_line(alloc: Global, head: &Head, row: &Row) -> Result<Str, NoMemory>
    ensures { IfOk result (λ line. line ≡ line_text (cells_behind head.now row.now)) }
{
    let step = decimal_text(alloc, row.step)?;
    let mut record = Record::empty(alloc);
    record.push(alloc, head.number.as_bytes())?;
    record.extend(alloc, &head.settings)?;
    record.push(alloc, step.as_bytes())?;
    add_metrics(alloc, &mut record, head.metrics, &row.cells)?;
    record.push(alloc, row.end.as_bytes())?;
    record.text(alloc)
}

// The lines of rows.
fn row_lines(alloc: Global, head: &Head, rows: &[Row]) -> Result<Lines, NoMemory>
    ensures text { IfOk result (λ lines. lines.text ≡ lines_text (map (cells_behind head.now) rows.now)) }
    ensures last { IfOk result (λ lines. lines.last ≡ last_line (map (cells_behind head.now) rows.now)) }
{
    let mut text = Str::of_vec(Vec::new(alloc));
    let mut last = Str::of_vec(Vec::new(alloc));
    let mut left = rows;
    'rows: while let Some((row, behind)) = left.split_first() {
        left = behind;
        last = row_line(alloc, head, row)?;
        text.append(alloc, last.as_bytes())?;
    }
    Ok(Lines { text, last })
}

// What the rows of a run begin with.
fn head_of(alloc: Global, job: &Job, number: u64) -> Result<Head, NoMemory>
    requires sound { IsSound (job_in job.now) }
    requires run { IsRunIn (job_in job.now) number }
    ensures { IfOk result (IsHead (job_in job.now) number) }
{
    let settings = job.experiment.settings(alloc, number)?;
    let settings = setting_cells(alloc, settings.as_slice())?;
    let number = decimal_text(alloc, number)?;
    let metrics = job.experiment.fields().metrics.as_slice().len();
    Ok(Head {
        number,
        settings,
        metrics,
    })
}

/// Runs the run of a number, counted from 1, and gives its rows. Nothing of other runs matters to it, and nothing of it is kept.
pub fn run_rows<S: Store>(alloc: Global, job: &Job, number: u64) -> Result<Lines, NoMemory>
    requires sound { IsSound (job_in job.now) }
    requires run { IsRunIn (job_in job.now) number }
    ensures text { IfOk result (λ lines. lines.text ≡ rows_text (job_in job.now) number) }
    ensures last { IfOk result (λ lines. lines.last ≡ last_line (run_lines (job_in job.now) number)) }
{
    let head = head_of(alloc, job, number)?;
    let source = job.source();
    let mut run: Run<'_, S> = Run::new(
        alloc,
        &job.program,
        source,
        &job.experiment,
        &job.texts,
        number,
    )?;
    run.finish(alloc)?;
    row_lines(alloc, &head, run.rows().as_slice())
}
