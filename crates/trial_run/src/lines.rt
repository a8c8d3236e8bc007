//! The rows of a run, as lines of a table.

use nl_experiment_sweep::Setting;
use nl_fixed::{Cells, NoMemory, Str};
use nl_run::Row;
use nl_table::Record;
use nl_value::NoLife;
use nl_value::texts::{TextFail, text};
use std::alloc::Global;

// A number in digits.
fn decimal(alloc: Global, value: u64) -> Result<Str, NoMemory> {
    let text = value.to_string(alloc)?;
    Str::of(alloc, text.as_bytes())
}

// The text of a setting's value.
fn setting_cell(alloc: Global, setting: &Setting) -> Result<Str, NoMemory> {
    match text(alloc, &setting.value, false, &NoLife) {
        Ok(cell) => Ok(cell),
        Err(TextFail::TooLarge | TextFail::NoMemory) => Err(NoMemory),
    }
}

// The texts of the values of settings.
fn setting_cells(alloc: Global, settings: &[Setting]) -> Result<Cells, NoMemory> {
    let mut cells = Cells::empty(alloc);
    for setting in settings {
        let cell = setting_cell(alloc, setting)?;
        cells.push(alloc, cell)?;
    }
    Ok(cells)
}

// Appends the texts of the metrics, of which there are so many; each is empty where nothing was measured.
fn add_metrics<'a>(
    alloc: Global,
    line: &mut Record<'a>,
    metrics: usize,
    texts: &'a Option<Cells>,
) -> Result<(), NoMemory> {
    if let Some(texts) = texts {
        return line.extend(alloc, texts);
    }
    for _ in 0..metrics {
        line.push(alloc, b"")?;
    }
    Ok(())
}

/// The line of a row, where so many metrics are measured.
pub(crate) fn row_line(alloc: Global, row: &Row, metrics: usize) -> Result<Str, NoMemory> {
    let number = decimal(alloc, row.number)?;
    let settings = setting_cells(alloc, row.settings.as_slice())?;
    let step = decimal(alloc, row.step)?;
    let mut line = Record::empty(alloc);
    line.push(alloc, number.as_bytes())?;
    line.extend(alloc, &settings)?;
    line.push(alloc, step.as_bytes())?;
    add_metrics(alloc, &mut line, metrics, &row.cells)?;
    line.push(alloc, row.end.as_bytes())?;
    line.text(alloc)
}

// The lines of rows.
fn row_lines(alloc: Global, rows: &[Row], metrics: usize) -> Result<Str, NoMemory> {
    let mut lines = Str::of_vec(Vec::new(alloc));
    for row in rows {
        let line = row_line(alloc, row, metrics)?;
        lines.append(alloc, line.as_bytes())?;
    }
    Ok(lines)
}

/// Whether rows have these lines, where so many metrics are measured.
pub(crate) fn have_lines(alloc: Global, rows: &[Row], metrics: usize, lines: &str) -> bool {
    match row_lines(alloc, rows, metrics) {
        Ok(text) => text.as_bytes() == lines.as_bytes(),
        Err(_) => false,
    }
}
