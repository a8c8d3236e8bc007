//! The rows that a run gives.
ghost use Rattle.std.specs.Prelude.{◌≡◌, ◌++◌, ◌==◌, OnOk};
ghost use Rattle.nl_run.specs.Rows.{closing, with_end};

use nl_experiment_sweep::Settings;
use nl_fixed::{Cells, NoMemory, Str};
use std::alloc::Global;
use std::marker::Model;

/// How a row ends its run. A run has one row with an end, its last one; all others are open.
#[derive(Drop)]
pub enum RunEnd {
    /// The run goes on behind this row.
    Open,
    /// All steps are done.
    Steps,
    /// The condition of `until` is met.
    Condition,
    /// The go text was stopped.
    Stop,
    /// A unit was wanted, and the budget was spent.
    Budget,
    /// A text had an error: `error`, its kind, and where it stands.
    Error(Str),
}

impl RunEnd {
    ghost use Rattle.std.specs.Prelude.{◌≡◌};
    ghost use Rattle.nl_run.specs.Rows.{end_text};

    /// What the column of ends says: nothing where the row is open.
    pub fn as_bytes(&self) -> &[u8]
        ensures { result.now ≡ end_text self.now }
    {
        match self {
            RunEnd::Open => b"",
            RunEnd::Steps => b"steps",
            RunEnd::Condition => b"condition",
            RunEnd::Stop => b"stop",
            RunEnd::Budget => b"budget",
            RunEnd::Error(text) => text.as_bytes(),
        }
    }
}

/// A row of a run.
#[derive(Drop)]
pub struct Row {
    /// The number of the run, counted from 1.
    pub number: u64,
    /// The varied variables, in order.
    pub settings: Settings,
    /// The count of steps.
    pub step: u64,
    /// The texts of the metrics. None where the row measures nothing.
    pub cells: Option<Cells>,
    pub end: RunEnd,
}

/// The rows of a run, in order.
#[derive(Drop)]
pub struct Rows {
    list: Vec<Row>,
}

impl Model for Rows {
    ghost use Rattle.std.specs.Prelude.{List};
    ghost use Rattle.std.specs.Coded.{coded_list};
    ghost use Rattle.nl_run.specs.declared.rows.Row.{Row};
    ghost use Rattle.nl_run.specs.inner.Codes.{row_code};

    ghost Value = { List Row };

    ghost coded = { coded_list row_code };

    ghost view = { λ rows. rows.list.items };
}

impl Rows {
    ghost use Rattle.std.specs.Prelude.{◌≡◌, [], ◌∷◌, ◌++◌, OnOk, OnErr};
    ghost use Rattle.nl_run.specs.Rows.{closing};

    /// No rows.
    pub fn empty(alloc: Global) -> Rows
        ensures { result ≡ [] }
    {
        Rows {
            list: Vec::new(alloc),
        }
    }

    /// The rows, in order.
    pub fn as_slice(&self) -> &[Row]
        ensures { result.now ≡ self.now }
    {
        self.list.as_slice()
    }

    /// Appends a row, or leaves the rows as they were.
    pub fn push(&mut self, _alloc: Global, row: Row) -> Result<(), NoMemory>
        ensures ok { OnOk result (self.new ≡ self.old ++ row ∷ []) }
        ensures err { OnErr result (self.new ≡ self.old) }
    {
        self.list.push(row)?;
        Ok(())
    }

    /// Ends the rows by one that only ends: the last row carries its end where both are of the same count of steps; else it comes behind.
    pub fn close(&mut self, _alloc: Global, last: Row) -> Result<(), NoMemory>
        ensures { OnOk result (self.new ≡ closing last self.old) }
    {
        close_in(&mut self.list, last)
    }
}

// Ends these rows by one that only ends.
fn close_in(rows: &mut Vec<Row>, last: Row) -> Result<(), NoMemory>
    ensures { OnOk result (rows.new.items ≡ closing last rows.old.items) }
{
    let Some(row) = rows.pop() else {
        rows.push(last)?;
        return Ok(());
    };
    put_with_end(rows, row, last)
}

// Appends a row, with the end of the one behind it if that is of the same count of steps; else both.
fn put_with_end(rows: &mut Vec<Row>, row: Row, last: Row) -> Result<(), NoMemory>
    ensures { OnOk result (rows.new.items ≡ rows.old.items ++ with_end (row.step == last.step) last row) }
{
    if row.step == last.step {
        rows.push(row.ended(last.end))?;
        return Ok(());
    }
    rows.push(row)?;
    rows.push(last)?;
    Ok(())
}

impl Row {
    ghost use Rattle.std.specs.Prelude.{◌≡◌};
    ghost use Rattle.nl_run.specs.Rows.{ended};

    /// The same row with another end.
    pub fn ended(self, how: RunEnd) -> Row
        ensures { result ≡ ended how self }
    {
        Row {
            number: self.number,
            settings: self.settings,
            step: self.step,
            cells: self.cells,
            end: how,
        }
    }
}
