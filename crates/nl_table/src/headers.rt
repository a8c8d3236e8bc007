//! The header of a table, in six lines. Its form is BehaviorSpace's; what the title says is this project's own choice.
ghost use Rattle.std.specs.Prelude.{◌≡◌, ◌∷◌, ◌++◌, [], map, IfOk, OnOk};
ghost use Rattle.std.specs.Fmt.{signed_decimal};
ghost use Rattle.nl_table.specs.Lines.{line_text};
ghost use Rattle.nl_table.specs.Header.{columns, header_text, names_of_bounds};

use crate::lines::{Record, line};
use nl_fixed::{Cells, Names, NoMemory, Str};
use std::alloc::Global;

// Which kind of table it is, and that its numbers are fixed-point ones.
const TITLE: &[u8] = b"BehaviorSpace results (fixed-point profile)";

// A bound in digits.
fn digits(alloc: Global, bound: i64) -> Result<Str, NoMemory>
    ensures { IfOk result (λ text. text ≡ signed_decimal bound) }
{
    let text = bound.to_string(alloc)?;
    Str::of(alloc, text.as_bytes())
}

// The bounds in digits.
fn all_digits(alloc: Global, bounds: [i64; 4]) -> Result<Cells, NoMemory>
    ensures { IfOk result (λ cells. cells ≡ map signed_decimal bounds) }
{
    let mut cells = Cells::empty(alloc);
    for bound in &bounds {
        let text = digits(alloc, *bound)?;
        cells.push(alloc, text)?;
    }
    Ok(cells)
}

// Appends the line of one cell.
fn add_cell(alloc: Global, text: &mut Str, cell: &[u8]) -> Result<(), NoMemory>
    ensures { OnOk result (text.new ≡ text.old ++ line_text (cell.now ∷ [])) }
{
    let mut record = Record::empty(alloc);
    record.push(alloc, cell)?;
    let bytes = record.text(alloc)?;
    text.append(alloc, bytes.as_bytes())
}

// Appends the line of the names of the bounds.
fn add_names_of_bounds(alloc: Global, text: &mut Str) -> Result<(), NoMemory>
    ensures { OnOk result (text.new ≡ text.old ++ line_text names_of_bounds) }
{
    let mut record = Record::empty(alloc);
    record.push(alloc, b"min-pxcor")?;
    record.push(alloc, b"max-pxcor")?;
    record.push(alloc, b"min-pycor")?;
    record.push(alloc, b"max-pycor")?;
    let bytes = record.text(alloc)?;
    text.append(alloc, bytes.as_bytes())
}

// Appends the line of the bounds.
fn add_bounds(alloc: Global, text: &mut Str, bounds: [i64; 4]) -> Result<(), NoMemory>
    ensures { OnOk result (text.new ≡ text.old ++ line_text (map signed_decimal bounds)) }
{
    let cells = all_digits(alloc, bounds)?;
    let line = line(alloc, &cells)?;
    text.append(alloc, line.as_bytes())
}

// Appends the line of the columns.
fn add_columns(
    alloc: Global,
    text: &mut Str,
    variables: &Names,
    metrics: &Names,
) -> Result<(), NoMemory>
    ensures { OnOk result (text.new ≡ text.old ++ line_text (columns variables.now metrics.now)) }
{
    let mut record = Record::empty(alloc);
    record.push(alloc, b"[run number]")?;
    record.extend(alloc, variables)?;
    record.push(alloc, b"[step]")?;
    record.extend(alloc, metrics)?;
    record.push(alloc, b"[end]")?;
    let bytes = record.text(alloc)?;
    text.append(alloc, bytes.as_bytes())
}

/// The header of a table, in six lines: the title, the model's name, the experiment's name, the names of the four bounds of the world,
/// the bounds (`min-pxcor`, `max-pxcor`, `min-pycor`, `max-pycor`), and the columns: the number of the run, the varied variables, the
/// count of steps, the metrics and the end.
pub fn header(
    alloc: Global,
    model: &str,
    name: &Str,
    bounds: [i64; 4],
    variables: &Names,
    metrics: &Names,
) -> Result<Str, NoMemory>
    ensures { IfOk result (λ header. header ≡ header_text model.now name.now bounds variables.now metrics.now) }
{
    let mut text = Str::of_vec(Vec::new(alloc));
    add_cell(alloc, &mut text, TITLE)?;
    add_cell(alloc, &mut text, model.as_bytes())?;
    add_cell(alloc, &mut text, name.as_bytes())?;
    add_names_of_bounds(alloc, &mut text)?;
    add_bounds(alloc, &mut text, bounds)?;
    add_columns(alloc, &mut text, variables, metrics)?;
    Ok(text)
}
