//! The cells of which a piece is the line, read by the crate `csv`.
ghost use Rattle.std.specs.Prelude.{◌≡◌, ◌++◌, ◌∷◌, [], true, Some, IfOk, OnOk, IsTrue, ◌↔◌, option_map, option_to_list, MatchBool, MatchOption};
ghost use Rattle.csv.specs.Reading.{ReadRecord, Ready, reader_trim, took_first};
ghost use Rattle.csv.specs.Records.{field_at, fields_of};
ghost use Rattle.csv.specs.declared.reader.Trim.TheVariants as trim;
ghost use Rattle.nl_fixed.specs.Nouns.{Bytes};
ghost use Rattle.nl_table.specs.Lines.{cell_text, doubled};
ghost use Rattle.nl_table.specs.Reading.{IsLineOf, IsNoLine, StandsBefore, behind, behind_line};

use csv::{ByteRecord, Reader, ReaderBuilder};
use nl_fixed::{Cells, NoMemory, Str};
use std::alloc::Global;

// What is left behind a byte, where the bytes begin with it.
fn behind_byte(bytes: &[u8], byte: u8) -> Option<&[u8]>
    ensures { option_map (λ left. left.now) result ≡ behind (byte ∷ []) bytes.now }
{
    let (first, left) = bytes.split_first()?;
    if *first == byte { Some(left) } else { None }
}

// What is left behind a byte of a cell, which stands twice where it is a quote.
fn behind_doubled(bytes: &[u8], byte: u8) -> Option<&[u8]>
    ensures { option_map (λ left. left.now) result ≡ behind (doubled (byte ∷ [])) bytes.now }
{
    let left = behind_byte(bytes, byte)?;
    if byte == b'"' {
        behind_byte(left, byte)
    } else {
        Some(left)
    }
}

// What is left behind a cell between its quotes.
fn behind_cell<'a>(bytes: &'a [u8], cell: &[u8]) -> Option<&'a [u8]>
    ensures { option_map (λ left. left.now) result ≡ behind (cell_text cell.now) bytes.now }
{
    let mut left = behind_byte(bytes, b'"')?;
    for byte in cell {
        left = behind_doubled(left, *byte)?;
    }
    behind_byte(left, b'"')
}

// What is left behind the line of a record's fields.
fn behind_fields<'a>(bytes: &'a [u8], row: &ByteRecord) -> Option<&'a [u8]>
    ensures { option_map (λ left. left.now) result ≡ behind_line (fields_of row.now) bytes.now }
{
    let first = row.get(0)?;
    let mut left = behind_cell(bytes, first)?;
    for place in 1..row.len() {
        let cell = row.get(place)?;
        left = behind_byte(left, b',')?;
        left = behind_cell(left, cell)?;
    }
    behind_byte(left, b'\n')
}

// Whether a piece is the line of a record's fields.
fn is_line_of(piece: &[u8], row: &ByteRecord) -> bool
    ensures { IsTrue result ↔ IsLineOf (fields_of row.now) piece.now }
{
    match behind_fields(piece, row) {
        Some(left) => left.is_empty(),
        None => false,
    }
}

// A reader of records of any lengths, the first of which is one as the others.
pub(crate) fn reader_of(alloc: Global, bytes: &[u8]) -> Reader<&[u8]>
    ensures { StandsBefore result bytes.now }
{
    ReaderBuilder::new()
        .has_headers(false)
        .flexible(true)
        .from_reader(alloc, bytes)
}

// Reads the next record, if there is one.
fn next_record(reader: &mut Reader<&[u8]>, row: &mut ByteRecord) -> Result<bool, NoMemory>
    ensures first { (reader_trim reader.old ≡ trim.None) → OnOk result (took_first reader.new ≡ true) }
    ensures reads { IfOk result (λ found. (reader_trim reader.old ≡ trim.None) → Ready reader.old
        → ReadRecord (λ slice. Some slice.now) reader.old reader.new found (fields_of row.new)) }
{
    match reader.read_byte_record(row) {
        Ok(found) => Ok(found),
        Err(_) => Err(NoMemory),
    }
}

// Reads a record, and tells whether the next piece is the line of its fields.
pub(crate) fn reads_line(
    reader: &mut Reader<&[u8]>,
    row: &mut ByteRecord,
    piece: &[u8],
) -> Result<bool, NoMemory>
    ensures { (rest : Bytes) → StandsBefore reader.old (piece.now ++ rest) → IfOk result (λ is_line.
        MatchBool is_line (IsLineOf (fields_of row.new) piece.now × StandsBefore reader.new rest) (IsNoLine piece.now)) }
{
    let found = next_record(reader, row)?;
    if !found {
        return Ok(false);
    }
    let is_line = is_line_of(piece, row);
    Ok(is_line)
}

// Appends the field at a place, if there is one.
fn push_field(
    alloc: Global,
    cells: &mut Cells,
    row: &ByteRecord,
    place: usize,
) -> Result<(), NoMemory>
    ensures { OnOk result (cells.new ≡ cells.old ++ option_to_list (field_at (fields_of row.now) place)) }
{
    let Some(field) = row.get(place) else {
        return Ok(());
    };
    let cell = Str::of(alloc, field)?;
    cells.push(alloc, cell)
}

// The fields of a record, as cells.
fn cells_of(alloc: Global, row: &ByteRecord) -> Result<Cells, NoMemory>
    ensures { IfOk result (λ cells. cells ≡ fields_of row.now) }
{
    let mut cells = Cells::empty(alloc);
    for place in 0..row.len() {
        push_field(alloc, &mut cells, row, place)?;
    }
    Ok(cells)
}

/// The cells of which a piece is the line. None where it is the line of no list of one or more cells.
pub fn cells(alloc: Global, piece: &[u8]) -> Result<Option<Cells>, NoMemory>
    ensures { IfOk result (λ found. MatchOption found (IsNoLine piece.now) (λ cells. IsLineOf cells piece.now)) }
{
    let mut reader = reader_of(alloc, piece);
    let mut row = ByteRecord::new(alloc);
    let is_line = reads_line(&mut reader, &mut row, piece)?;
    if !is_line {
        return Ok(None);
    }
    let cells = cells_of(alloc, &row)?;
    Ok(Some(cells))
}
