//! How far the part of a table behind its header reaches, by its bytes alone. That rows are numbered by their runs, and that the last cell is
//! empty in each row of a run but its last, is this project's own choice.
ghost use Rattle.std.specs.Prelude.{◌≡◌, ◌+◌, ◌++◌, ◌^◌, ◌<◌, ◌↔◌, ℕ, Some, None, IfOk, OnOk, IsTrue, MatchBool, MatchOption, length};
ghost use Rattle.std.specs.Fmt.{decimal};
ghost use Rattle.csv.specs.Records.{fields_of};
ghost use Rattle.nl_fixed.specs.Nouns.{Bytes};
ghost use Rattle.nl_table.specs.Pieces.{first_end};
ghost use Rattle.nl_table.specs.Reading.{IsLineOf, StandsBefore};
ghost use Rattle.nl_table.specs.Reach.{IsNumbered, Reaches, has_end};
ghost use Rattle.nl_table.specs.inner.Passed.{Judged};

use crate::pieces::piece_end;
use crate::reading::{reader_of, reads_line};
use csv::{ByteRecord, Reader};
use nl_fixed::{NoMemory, Str};
use std::alloc::Global;

/// What the whole pieces of the bytes behind a header say.
#[derive(Clone, Copy, Debug, Drop, PartialEq, Eq)]
pub enum Reach {
    /// Each is a row that is due. So many of them end their run, and the rows of the last run that is ended begin at a place of these bytes,
    /// which is 0 where there is none.
    Rows { ended: u64, begin: usize },
    /// The piece that begins at this place is the first that isn't a row that is due.
    Misfit(usize),
}

// The first piece of bytes, and what is behind it.
fn first_piece(bytes: &[u8]) -> Option<(&[u8], &[u8])>
    ensures { MatchOption result (first_end bytes.now ≡ None) (λ parts.
        (bytes.now ≡ parts.0.now ++ parts.1.now) × (first_end parts.0.now ≡ Some (length parts.0.now))) }
{
    let end = piece_end(bytes, 0)?;
    Some(bytes.split_at(end))
}

// The number of the run behind so many, where it can be told.
fn number_behind(alloc: Global, ended: u64) -> Result<Str, NoMemory>
    ensures { IfOk result (λ text. ended + 1 < 2 ^ 64 → text ≡ decimal (ended + 1)) }
{
    let number = ended.saturating_add(1);
    let text = number.to_string(alloc)?;
    Str::of(alloc, text.as_bytes())
}

// Whether a record has so many fields, and a text in the first of them.
fn is_numbered(row: &ByteRecord, columns: usize, number: &[u8]) -> bool
    ensures { IsTrue result ↔ IsNumbered columns number.now (fields_of row.now) }
{
    if row.len() != columns {
        return false;
    }
    match row.get(0) {
        Some(first) => *first == *number,
        None => false,
    }
}

// Whether the last field of a record isn't empty.
fn has_end(row: &ByteRecord) -> bool
    ensures { result ≡ has_end (fields_of row.now) }
{
    let columns = row.len();
    if columns == 0 {
        return false;
    }
    match row.get(columns - 1) {
        Some(last) => !last.is_empty(),
        None => false,
    }
}

// Reads a record, and tells whether the next piece is the line of its fields, with so many columns and this number.
fn reads_row(
    reader: &mut Reader<&[u8]>,
    row: &mut ByteRecord,
    piece: &[u8],
    columns: usize,
    number: &[u8],
) -> Result<bool, NoMemory>
    ensures { (behind : Bytes) → StandsBefore reader.old (piece.now ++ behind)
        → IfOk result (Judged reader.new behind (fields_of row.new) piece.now columns number.now) }
{
    let is_line = reads_line(reader, row, piece)?;
    if !is_line {
        return Ok(false);
    }
    let is_row = is_numbered(row, columns, number);
    Ok(is_row)
}

/// How far the bytes behind the header of a table reach, by themselves: their pieces are judged in order, each by the pieces before it. The
/// table has so many columns, and rows of so many runs.
pub fn reach_of(alloc: Global, rest: &[u8], columns: usize, runs: u64) -> Result<Reach, NoMemory>
    ensures { IfOk result (Reaches columns runs rest.now) }
{
    let mut reader = reader_of(alloc, rest);
    let mut row = ByteRecord::new(alloc);
    let mut number = number_behind(alloc, 0)?;
    let mut left = rest;
    let mut ended: u64 = 0;
    // where the rows of the last run that is ended begin, and where they end
    let mut begin = 0;
    let mut behind = 0;
    'pieces: while let Some((piece, further)) = first_piece(left) {
        let misfit = Reach::Misfit(rest.len() - left.len());
        if ended == runs {
            return Ok(misfit);
        }
        let is_due = reads_row(&mut reader, &mut row, piece, columns, number.as_bytes())?;
        if !is_due {
            return Ok(misfit);
        }
        left = further;
        if has_end(&row) {
            ended += 1;
            begin = behind;
            behind = rest.len() - left.len();
            number = number_behind(alloc, ended)?;
        }
    }
    Ok(Reach::Rows { ended, begin })
}
