//! How far partial tables reach, by the bytes behind their header.

use nl_fixed::{Cells, NoMemory, Str};
use nl_table::lines::line;
use nl_table::reach::{Reach, reach_of};
use std::alloc::Global;

/// Bytes of a table with three columns, how many runs it has, and how far they reach.
type Row = (&'static [u8], u64, Reach);

const REACHES: &[Row] = &[
    // nothing, what is left over alone, and pieces that end no run
    (b"", 3, Reach::Rows { ended: 0, begin: 0 }),
    (b"\"1\",\"0\"", 3, Reach::Rows { ended: 0, begin: 0 }),
    (b"\"1\",\"0\",\"\"\n", 3, Reach::Rows { ended: 0, begin: 0 }),
    (
        b"\"1\",\"0\",\"\"\n\"1\",\"1\",\"\"\n\"1\",\"",
        3,
        Reach::Rows { ended: 0, begin: 0 },
    ),
    // one run that is ended, two and three, with one row each or two
    (
        b"\"1\",\"1\",\"steps\"\n",
        3,
        Reach::Rows { ended: 1, begin: 0 },
    ),
    (
        b"\"1\",\"0\",\"\"\n\"1\",\"1\",\"steps\"\n",
        3,
        Reach::Rows { ended: 1, begin: 0 },
    ),
    (
        b"\"1\",\"0\",\"\"\n\"1\",\"1\",\"steps\"\n\"2\",\"0\",\"\"\n",
        3,
        Reach::Rows { ended: 1, begin: 0 },
    ),
    (
        b"\"1\",\"1\",\"stop\"\n\"2\",\"1\",\"stop\"\n",
        3,
        Reach::Rows {
            ended: 2,
            begin: 15,
        },
    ),
    (
        b"\"1\",\"0\",\"\"\n\"1\",\"1\",\"steps\"\n\"2\",\"0\",\"\"\n\"2\",\"1\",\"steps\"\n",
        2,
        Reach::Rows {
            ended: 2,
            begin: 27,
        },
    ),
    (
        b"\"1\",\"1\",\"stop\"\n\"2\",\"1\",\"stop\"\n\"3\",\"1\",\"stop\"\n\"",
        3,
        Reach::Rows {
            ended: 3,
            begin: 30,
        },
    ),
    // an end of any text, cells with quotes and line feeds, and bytes that are no text
    (
        b"\"1\",\"\xff\",\"\n\"\"\"\n\"2\",\"a\nb\",\"\"\n",
        2,
        Reach::Rows { ended: 1, begin: 0 },
    ),
    (
        b"\"1\",\"a\",\"b\"\n\"2\",\",\",\"\"\"\"\n",
        2,
        Reach::Rows {
            ended: 2,
            begin: 12,
        },
    ),
    // a number that is skipped, one that comes again, one in another form, none
    (b"\"2\",\"0\",\"\"\n", 3, Reach::Misfit(0)),
    (
        b"\"1\",\"1\",\"stop\"\n\"3\",\"0\",\"\"\n",
        3,
        Reach::Misfit(15),
    ),
    (
        b"\"1\",\"1\",\"stop\"\n\"1\",\"0\",\"\"\n",
        3,
        Reach::Misfit(15),
    ),
    (
        b"\"1\",\"0\",\"\"\n\"2\",\"0\",\"\"\n",
        3,
        Reach::Misfit(11),
    ),
    (b"\"01\",\"0\",\"\"\n", 3, Reach::Misfit(0)),
    (b"\" 1\",\"0\",\"\"\n", 3, Reach::Misfit(0)),
    (b"\"\",\"0\",\"\"\n", 3, Reach::Misfit(0)),
    // one past the runs, also where there are none
    (
        b"\"1\",\"1\",\"stop\"\n\"2\",\"1\",\"stop\"\n\"3\",\"0\",\"\"\n",
        2,
        Reach::Misfit(30),
    ),
    (b"\"1\",\"0\",\"\"\n", 0, Reach::Misfit(0)),
    (b"\"1\",\"0\",\"", 0, Reach::Rows { ended: 0, begin: 0 }),
    // a column too few and too many
    (b"\"1\",\"0\"\n", 3, Reach::Misfit(0)),
    (
        b"\"1\",\"0\",\"\"\n\"1\",\"0\",\"\",\"\"\n",
        3,
        Reach::Misfit(11),
    ),
    // a piece that is no line, before and behind those that are, and what `csv` reads besides
    (b"\n\"1\",\"0\",\"\"\n", 3, Reach::Misfit(0)),
    (
        b"\"1\",\"0\",\"\"\n\n\"1\",\"0\",\"\"\n",
        3,
        Reach::Misfit(11),
    ),
    (b"1,0,\n", 3, Reach::Misfit(0)),
    (b"\"1\",\"0\",\"\"\r\n", 3, Reach::Misfit(0)),
    (b"\xef\xbb\xbf\"1\",\"0\",\"\"\n", 3, Reach::Misfit(0)),
    (
        b"\"1\",\"0\",\"\"\n\"1\",\"a\"b\"\",\"\"\n",
        3,
        Reach::Misfit(11),
    ),
];

fn reaches(alloc: Global, bytes: &[u8], runs: u64, wanted: Reach) -> bool {
    match reach_of(alloc, bytes, 3, runs) {
        Ok(found) => found == wanted,
        Err(_) => false,
    }
}

#[test]
fn a_table_reaches_as_far_as_its_rows_are_due(rt: HostRuntime) {
    for (bytes, runs, wanted) in REACHES {
        assert!(rt;
            reaches(rt.alloc(), bytes, *runs, *wanted),
            "{bytes:?} {runs}"
        );
    }
}

// Appends a run's only row.
fn add_row(alloc: Global, table: &mut Str, number: u64) -> Result<(), NoMemory> {
    let number = number.to_string(alloc)?;
    let mut cells = Cells::empty(alloc);
    cells.push(alloc, Str::of(alloc, number.as_bytes())?)?;
    cells.push(alloc, Str::of(alloc, b"steps")?)?;
    let line = line(alloc, &cells)?;
    table.append(alloc, line.as_bytes())
}

// The rows of so many runs, with two columns, and where the last row begins.
fn many_rows(alloc: Global, runs: u64) -> Result<(Str, usize), NoMemory> {
    let mut table = Str::of(alloc, b"")?;
    let mut begin = 0;
    for number in 0..runs {
        begin = table.as_bytes().len();
        add_row(alloc, &mut table, number + 1)?;
    }
    Ok((table, begin))
}

// Whether all rows of so many runs are due, and the last one is not where there is a run less.
fn all_are_due(alloc: Global, runs: u64) -> bool {
    let Some(fewer) = runs.checked_sub(1) else {
        return false;
    };
    let Ok((table, begin)) = many_rows(alloc, runs) else {
        return false;
    };
    let whole = reach_of(alloc, table.as_bytes(), 2, runs);
    let less = reach_of(alloc, table.as_bytes(), 2, fewer);
    match (whole, less) {
        (Ok(whole), Ok(less)) => whole == Reach::Rows { ended: runs, begin }
            && less == Reach::Misfit(begin),
        _ => false,
    }
}

#[test]
fn many_runs_are_due(rt: HostRuntime) {
    assert!(rt; all_are_due(rt.alloc(), 10_000));
}
