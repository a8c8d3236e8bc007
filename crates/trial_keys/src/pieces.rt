//! Pieces of tables and the cells that are read from them, byte by byte.

use crate::tables::many_cells;
use nl_fixed::Cells;
use nl_table::lines::line;
use nl_table::pieces::piece_end;
use nl_table::reading::cells;
use std::alloc::Global;

/// Bytes, a place in them, and where the piece from there on ends.
type Row = (&'static [u8], usize, Option<usize>);

const ENDS: &[Row] = &[
    // no line feed
    (b"", 0, None),
    (b"abc", 0, None),
    (b"\"1\",\"2\"", 0, None),
    // one at the place itself, and one before it
    (b"\n", 0, Some(1)),
    (b"\n", 1, None),
    (b"a\nb\n", 1, Some(2)),
    (b"a\nb\n", 2, Some(4)),
    // at the end
    (b"\"1\"\n", 4, None),
    // inside of quotes, and behind two of them
    (b"\"a\nb\"\n", 0, Some(6)),
    (b"\"\"\n", 0, Some(3)),
    (b"\"a\"\"\n\"\n", 0, Some(7)),
    // behind a quote that stays open
    (b"\"a\n\n\n", 0, None),
    // a place behind a quote counts from itself on
    (b"\"a\nb\"\n", 1, Some(3)),
    (b"\"a\nb\"\n", 3, None),
    (b"\"1\"\n\"2\"\n", 4, Some(8)),
    // quotes within a cell that isn't between quotes
    (b"a\"b\n\"c\n", 0, Some(7)),
    (b"\r\n\xff\n", 0, Some(2)),
];

fn ends_at(bytes: &[u8], from: usize, wanted: Option<usize>) -> bool {
    from <= bytes.len() && piece_end(bytes, from) == wanted
}

#[test]
fn a_piece_ends_behind_a_line_feed_outside_of_quotes(rt: HostRuntime) {
    for (bytes, from, wanted) in ENDS {
        assert!(rt; ends_at(bytes, *from, *wanted), "{bytes:?} {from}");
    }
}

/// A piece, and its cells where it is a line.
type Line = (&'static [u8], Option<&'static [&'static [u8]]>);

const CELLS: &[Line] = &[
    (b"\"\"\n", Some(&[b""])),
    (b"\"1\",\"\",\"steps\"\n", Some(&[b"1", b"", b"steps"])),
    (b"\"a,b\",\"c\nd\"\n", Some(&[b"a,b", b"c\nd"])),
    (
        b"\"\"\"\",\"say \"\"go\"\"\"\n",
        Some(&[b"\"", b"say \"go\""]),
    ),
    (b"\"\"\"\"\"\",\",\"\n", Some(&[b"\"\"", b","])),
    (b"\"\r\n\"\n", Some(&[b"\r\n"])),
    (b"\"\xff\x00\xc3\"\n", Some(&[b"\xff\x00\xc3"])),
    // what `csv` reads, and no line has
    (b"1,2\n", None),
    (b"\"1\"\r\n", None),
    (b"\"1\", \"2\"\n", None),
    (b"\"a\"b\"\n", None),
    (b"\"a\"", None),
    (b"\n", None),
    (b"", None),
    (b"\"1\"\n\"2\"\n", None),
    (b"\n\"1\"\n", None),
    (b"\"1\",\n", None),
    (b",\"1\"\n", None),
    (b"\"a\n", None),
    (b"\xef\xbb\xbf\"1\"\n", None),
    (b"\"\xef\xbb\xbf1\"\n", Some(&[b"\xef\xbb\xbf1"])),
];

fn are(found: &Cells, wanted: &[&[u8]]) -> bool {
    if found.as_slice().len() != wanted.len() {
        return false;
    }
    for place in 0..wanted.len() {
        if found.as_slice()[place].as_bytes() != wanted[place] {
            return false;
        }
    }
    true
}

fn has_cells(alloc: Global, piece: &[u8], wanted: Option<&[&[u8]]>) -> bool {
    match (cells(alloc, piece), wanted) {
        (Ok(Some(found)), Some(wanted)) => are(&found, wanted),
        (Ok(None), None) => true,
        _ => false,
    }
}

#[test]
fn a_piece_has_cells_where_it_is_their_line(rt: HostRuntime) {
    for (piece, wanted) in CELLS {
        assert!(rt; has_cells(rt.alloc(), piece, *wanted), "{piece:?}");
    }
}

// Whether so many cells of so many bytes each are read back from their line.
fn are_read_back(alloc: Global, count: usize, bytes: usize, byte: u8) -> bool {
    let Some(written) = many_cells(alloc, count, bytes, byte) else {
        return false;
    };
    if written.as_slice().is_empty() {
        return false;
    }
    let Ok(line) = line(alloc, &written) else {
        return false;
    };
    let Ok(Some(found)) = cells(alloc, line.as_bytes()) else {
        return false;
    };
    same_cells(&found, &written)
}

fn same_cells(found: &Cells, wanted: &Cells) -> bool {
    if found.as_slice().len() != wanted.as_slice().len() {
        return false;
    }
    for place in 0..wanted.as_slice().len() {
        if found.as_slice()[place].as_bytes() != wanted.as_slice()[place].as_bytes() {
            return false;
        }
    }
    true
}

#[test]
fn cells_far_past_the_usual_are_read(rt: HostRuntime) {
    let alloc = rt.alloc();
    assert!(rt; are_read_back(alloc, 1, 100_000, b'"'));
    assert!(rt; are_read_back(alloc, 2_000, 3, b'x'));
}
