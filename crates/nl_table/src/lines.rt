//! Lines of a table, written by the crate `csv`. That every cell is quoted is the form of BehaviorSpace's tables.
ghost use Rattle.std.specs.Prelude.{◌≡◌, ◌<◌, map, length, IfOk};
ghost use Rattle.csv.specs.Writing.{row_text as csv_text};
ghost use Rattle.nl_table.specs.Lines.{always_quoted, line_text};

use csv::{QuoteStyle, WriterBuilder};
use nl_fixed::{Cells, NoMemory, Str};
use std::alloc::Global;
use std::marker::Model;

/// The cells of one line, in order, which are borrowed.
#[derive(Drop)]
pub struct Record<'a> {
    cells: Vec<&'a [u8]>,
}

impl<'a> Model for Record<'a> {
    ghost use Rattle.std.specs.Prelude.{map};
    ghost use Rattle.nl_fixed.specs.Nouns.{Texts};

    ghost Value = { Texts };

    ghost view = { λ line. map (λ cell. cell.now) line.cells.items };
}

impl<'a> Record<'a> {
    ghost use Rattle.std.specs.Prelude.{◌≡◌, ◌<◌, ◌++◌, [], ◌∷◌, length, IfOk, OnOk};
    ghost use Rattle.nl_table.specs.Lines.{line_text};

    /// No cells.
    pub fn empty(alloc: Global) -> Record<'a>
        ensures { result ≡ [] }
    {
        Record {
            cells: Vec::new(alloc),
        }
    }

    /// Appends a cell.
    pub fn push(&mut self, _alloc: Global, cell: &'a [u8]) -> Result<(), NoMemory>
        ensures { OnOk result (self.new ≡ self.old ++ cell.now ∷ []) }
    {
        self.cells.push(cell)?;
        Ok(())
    }

    /// Appends these cells.
    pub fn extend(&mut self, alloc: Global, cells: &'a Cells) -> Result<(), NoMemory>
        ensures { OnOk result (self.new ≡ self.old ++ cells.now) }
    {
        for cell in cells.as_slice() {
            self.push(alloc, cell.as_bytes())?;
        }
        Ok(())
    }

    /// The bytes of the line, of which a cell is there at least: each cell between quotes, a quote inside doubled, commas between them,
    /// and a line feed.
    pub fn text(&self, alloc: Global) -> Result<Str, NoMemory>
        requires { 0 < length self.now }
        ensures { IfOk result (λ text. text ≡ line_text self.now) }
    {
        let bytes = record_bytes(alloc, self.cells.as_slice())?;
        Ok(Str::of_vec(bytes))
    }
}

// The bytes of one record, as the crate `csv` writes them.
fn record_bytes(alloc: Global, cells: &[&[u8]]) -> Result<Vec<u8>, NoMemory>
    ensures { IfOk result (λ bytes.
        bytes.items ≡ csv_text always_quoted (map (λ cell. cell.now) cells.now)) }
{
    let mut writer = WriterBuilder::new()
        .quote_style(QuoteStyle::Always)
        .from_writer(Vec::new(alloc));
    if writer.write_fields(cells).is_err() {
        return Err(NoMemory);
    }
    match writer.into_inner() {
        Ok(bytes) => Ok(bytes),
        Err(_) => Err(NoMemory),
    }
}

/// The line of these cells, of which there is one at least: `Record::text` says how they are written.
pub fn line(alloc: Global, cells: &Cells) -> Result<Str, NoMemory>
    requires { 0 < length cells.now }
    ensures { IfOk result (λ line. line ≡ line_text cells.now) }
{
    let mut record = Record::empty(alloc);
    record.extend(alloc, cells)?;
    record.text(alloc)
}
