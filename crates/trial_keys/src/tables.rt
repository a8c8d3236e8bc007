//! Lines and headers, byte by byte.

use nl_fixed::{Cells, Names, Str};
use nl_table::headers::header;
use nl_table::lines::line;
use std::alloc::Global;

/// Texts, as they stand in a table of tests.
type Texts = &'static [&'static [u8]];

fn cells_of(alloc: Global, texts: Texts) -> Option<Cells> {
    let mut cells = Cells::empty(alloc);
    for text in texts {
        let cell = Str::of(alloc, text).ok()?;
        cells.push(alloc, cell).ok()?;
    }
    Some(cells)
}

fn is_line(alloc: Global, texts: Texts, wanted: &[u8]) -> bool {
    let Some(cells) = cells_of(alloc, texts) else {
        return false;
    };
    if cells.as_slice().is_empty() {
        return false;
    }
    match line(alloc, &cells) {
        Ok(line) => line.as_bytes() == wanted,
        Err(_) => false,
    }
}

const LINES: &[(Texts, &[u8])] = &[
    (&[b""], b"\"\"\n"),
    (&[b"1", b"", b"steps"], b"\"1\",\"\",\"steps\"\n"),
    (&[b"a,b", b"c\nd"], b"\"a,b\",\"c\nd\"\n"),
    (&[b"\"", b"say \"go\""], b"\"\"\"\",\"say \"\"go\"\"\"\n"),
    (&[b"\"\"", b","], b"\"\"\"\"\"\",\",\"\n"),
    (&[b"\r\n"], b"\"\r\n\"\n"),
    (&[b"\xff\x00\xc3"], b"\"\xff\x00\xc3\"\n"),
];

#[test]
fn cells_stand_between_quotes(rt: HostRuntime) {
    for (texts, wanted) in LINES {
        assert!(rt; is_line(rt.alloc(), texts, wanted), "{texts:?}");
    }
}

fn is_header(
    alloc: Global,
    names: (&str, &[u8]),
    bounds: [i64; 4],
    variables: Texts,
    metrics: Texts,
    wanted: &[u8],
) -> bool {
    let Some(variables) = cells_of(alloc, variables) else {
        return false;
    };
    let Some(metrics) = cells_of(alloc, metrics) else {
        return false;
    };
    let Ok(name) = Str::of(alloc, names.1) else {
        return false;
    };
    match header(alloc, names.0, &name, bounds, &variables, &metrics) {
        Ok(header) => header.as_bytes() == wanted,
        Err(_) => false,
    }
}

const OF_A_GRID: &[u8] = b"\"BehaviorSpace results (fixed-point profile)\"
\"m.nlogo\"
\"grid\"
\"min-pxcor\",\"max-pxcor\",\"min-pycor\",\"max-pycor\"
\"-16\",\"16\",\"-16\",\"16\"
\"[run number]\",\"a\",\"b\",\"[step]\",\"a * 10 + b\",\"[end]\"
";

const OF_NOTHING: &[u8] = b"\"BehaviorSpace results (fixed-point profile)\"
\"\"
\"\"
\"min-pxcor\",\"max-pxcor\",\"min-pycor\",\"max-pycor\"
\"-9223372036854775808\",\"9223372036854775807\",\"0\",\"-1\"
\"[run number]\",\"[step]\",\"[end]\"
";

const OF_QUOTES: &[u8] = b"\"BehaviorSpace results (fixed-point profile)\"
\"a,\"\"b\"\"\"
\"two
lines\"
\"min-pxcor\",\"max-pxcor\",\"min-pycor\",\"max-pycor\"
\"0\",\"0\",\"0\",\"0\"
\"[run number]\",\"[step]\",\"[end]\",\"word \"\"x\"\" \"\"y\"\"\",\"[end]\"
";

#[test]
fn a_header_has_six_lines(rt: HostRuntime) {
    let alloc = rt.alloc();
    assert_eq!(rt; OF_A_GRID.len(), 186);
    assert!(rt;
        is_header(
            alloc,
            ("m.nlogo", b"grid"),
            [-16, 16, -16, 16],
            &[b"a", b"b"],
            &[b"a * 10 + b"],
            OF_A_GRID,
        )
    );
    assert!(rt;
        is_header(
            alloc,
            ("", b""),
            [i64::MIN, i64::MAX, 0, -1],
            &[],
            &[],
            OF_NOTHING,
        )
    );
    assert!(rt;
        is_header(
            alloc,
            ("a,\"b\"", b"two\nlines"),
            [0, 0, 0, 0],
            &[],
            &[b"[end]", b"word \"x\" \"y\""],
            OF_QUOTES,
        )
    );
}

// A list of so many cells of so many bytes each. None at want of memory.
pub(crate) fn many_cells(alloc: Global, count: usize, bytes: usize, byte: u8) -> Option<Cells> {
    let mut cells = Cells::empty(alloc);
    for _ in 0..count {
        let mut cell = Str::of(alloc, b"").ok()?;
        for _ in 0..bytes {
            cell.append(alloc, &[byte]).ok()?;
        }
        cells.push(alloc, cell).ok()?;
    }
    Some(cells)
}

// How many bytes the line of such cells has. None at want of memory.
fn length_of_line(alloc: Global, count: usize, bytes: usize, byte: u8) -> Option<usize> {
    let cells = many_cells(alloc, count, bytes, byte)?;
    if cells.as_slice().is_empty() {
        return None;
    }
    let line = line(alloc, &cells).ok()?;
    Some(line.as_bytes().len())
}

#[test]
fn lines_far_past_the_usual_are_written(rt: HostRuntime) {
    let alloc = rt.alloc();
    assert_eq!(rt; length_of_line(alloc, 1, 100_000, b'x'), Some(100_003));
    assert_eq!(rt; length_of_line(alloc, 1, 100_000, b'"'), Some(200_003));
    assert_eq!(rt; length_of_line(alloc, 2_000, 3, b'x'), Some(12_000));
}

// How many bytes a header has that names so many variables, and as many metrics.
fn length_of_header(alloc: Global, count: usize) -> Option<usize> {
    let variables: Names = many_cells(alloc, count, 4, b'v')?;
    let metrics: Names = many_cells(alloc, count, 4, b'm')?;
    let name = Str::of(alloc, b"many").ok()?;
    let header = header(alloc, "m", &name, [0, 0, 0, 0], &variables, &metrics).ok()?;
    Some(header.as_bytes().len())
}

#[test]
fn headers_far_past_the_usual_are_written(rt: HostRuntime) {
    // 153 bytes without a variable or a metric, and seven for each
    assert_eq!(rt; length_of_header(rt.alloc(), 0), Some(153));
    assert_eq!(rt; length_of_header(rt.alloc(), 1_000), Some(14_153));
}
