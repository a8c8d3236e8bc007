//! Values and faults at keys of small documents, and files of many keys.

use nl_experiment_keys::rows::{maybe_text_at, required_text_at, text_at, truth_at, whole_at};
use nl_experiment_keys::tables::{all_known, texts_at};
use nl_experiment_keys::{FILE_LIMIT, KeyRefusal, PlanKind, TextKey, TruthKey, WholeKey, table_of};
use nl_fixed::{Names, NoMemory, Str};
use std::alloc::Global;
use toml::Table;

const COUNT: WholeKey = WholeKey {
    name: "count",
    least: 1,
    most: 100,
    usual: 7,
};

const WIDE: WholeKey = WholeKey {
    name: "wide",
    least: 0,
    most: i64::MAX,
    usual: 0,
};

const YES: TruthKey = TruthKey {
    name: "yes",
    usual: true,
};

const GO: TextKey = TextKey {
    name: "go",
    usual: "go",
};

const KNOWN: [&str; 6] = ["count", "wide", "yes", "go", "until", "list"];

// What a document comes to.
#[derive(Clone, Copy, Debug, PartialEq, Eq)]
enum Said {
    /// So many texts and numbers together, which tells one document from another.
    Read(i64),
    Fault(PlanKind, &'static str),
    NoMemory,
}

// A reading as one number: the numbers, 1,000 for a truth, and the lengths of the texts.
fn sum_of(alloc: Global, table: &Table) -> Result<i64, KeyRefusal> {
    all_known(alloc, "t.", &KNOWN, table)?;
    let count = whole_at(alloc, "t.", &COUNT, table)?;
    let wide = whole_at(alloc, "", &WIDE, table)?;
    let yes = truth_at(alloc, "t.", &YES, table)?;
    let go = text_at(alloc, &GO, table)?;
    let until = maybe_text_at(alloc, "until", table)?;
    let list = texts_at(alloc, "list", table)?;
    Ok(sum(count, wide, yes, &go, until.is_some(), &list))
}

fn sum(count: i64, wide: i64, yes: bool, go: &Str, until: bool, list: &Names) -> i64 {
    let mut sum = count.wrapping_add(wide);
    if yes {
        sum = sum.wrapping_add(1_000);
    }
    if until {
        sum = sum.wrapping_add(10_000);
    }
    let texts = list.as_slice().len() as i64;
    sum.wrapping_add((go.as_bytes().len() as i64).wrapping_mul(100_000))
        .wrapping_add(texts.wrapping_mul(10_000_000))
}

fn is_fault(refusal: &KeyRefusal, kind: PlanKind, key: &str) -> bool {
    match refusal {
        KeyRefusal::Fault(fault) => fault.kind == kind && fault.key.as_bytes() == key.as_bytes(),
        KeyRefusal::NoMemory => false,
    }
}

fn says(alloc: Global, document: &str, wanted: Said) -> bool {
    let read = match table_of(alloc, document.as_bytes()) {
        Ok(table) => sum_of(alloc, &table),
        Err(refusal) => Err(refusal),
    };
    match (read, wanted) {
        (Ok(sum), Said::Read(other)) => sum == other,
        (Err(refusal), Said::Fault(kind, key)) => is_fault(&refusal, kind, key),
        _ => false,
    }
}

const DOCUMENTS: &[(&str, Said)] = &[
    ("", Said::Read(201_007)),
    ("count = 1", Said::Read(201_001)),
    ("count = 100", Said::Read(201_100)),
    ("count = 0", Said::Fault(PlanKind::BadLiteral, "t.count")),
    ("count = 101", Said::Fault(PlanKind::BadLiteral, "t.count")),
    ("count = 1.0", Said::Fault(PlanKind::FloatValue, "t.count")),
    ("count = true", Said::Fault(PlanKind::WrongKind, "t.count")),
    (
        "count = 1979-05-27",
        Said::Fault(PlanKind::WrongKind, "t.count"),
    ),
    ("wide = -1", Said::Fault(PlanKind::BadLiteral, "wide")),
    (
        "wide = 9223372036854775807",
        Said::Read(-9_223_372_036_854_574_802),
    ),
    (
        "wide = 9223372036854775808",
        Said::Fault(PlanKind::NotToml, ""),
    ),
    ("yes = false", Said::Read(200_007)),
    ("yes = 1", Said::Fault(PlanKind::WrongKind, "t.yes")),
    ("yes = nan", Said::Fault(PlanKind::FloatValue, "t.yes")),
    ("go = \"\"", Said::Read(1_007)),
    ("go = \"abc\"", Said::Read(301_007)),
    ("go = []", Said::Fault(PlanKind::WrongKind, "go")),
    ("until = \"\"", Said::Read(211_007)),
    ("until = inf", Said::Fault(PlanKind::FloatValue, "until")),
    ("list = []", Said::Read(201_007)),
    ("list = [\"a\", \"\"]", Said::Read(20_201_007)),
    (
        "list = [\"a\", 1]",
        Said::Fault(PlanKind::WrongKind, "list"),
    ),
    ("list = [1, 1.5]", Said::Fault(PlanKind::FloatValue, "list")),
    ("list = \"a\"", Said::Fault(PlanKind::WrongKind, "list")),
    ("list = 1e3", Said::Fault(PlanKind::FloatValue, "list")),
    (
        "b = 1\nB = 1\ncount = 0",
        Said::Fault(PlanKind::UnknownKey, "t.B"),
    ),
    (
        "count = 0\nwide = 1.5",
        Said::Fault(PlanKind::BadLiteral, "t.count"),
    ),
    ("[count]", Said::Fault(PlanKind::WrongKind, "t.count")),
    ("name = \"x", Said::Fault(PlanKind::NotToml, "")),
    ("count = 1\ncount = 1", Said::Fault(PlanKind::NotToml, "")),
];

#[test]
fn documents_have_values_or_faults_at_their_keys(rt: HostRuntime) {
    for (document, wanted) in DOCUMENTS {
        assert!(rt; says(rt.alloc(), document, *wanted), "{document}");
    }
}

fn is_required(alloc: Global, document: &str, wanted: PlanKind) -> bool {
    let Ok(table) = table_of(alloc, document.as_bytes()) else {
        return false;
    };
    match required_text_at(alloc, "name", &table) {
        Ok(name) => name.as_bytes() == b"x".as_slice(),
        Err(refusal) => is_fault(&refusal, wanted, "name"),
    }
}

#[test]
fn a_required_text_is_missed(rt: HostRuntime) {
    assert!(rt; is_required(rt.alloc(), "", PlanKind::MissingKey));
    assert!(rt; is_required(rt.alloc(), "name = 3", PlanKind::WrongKind));
    assert!(rt; is_required(rt.alloc(), "name = \"x\"", PlanKind::BadText));
}

// So many times one text between two others.
fn repeated(
    alloc: Global,
    first: &[u8],
    text: &[u8],
    times: usize,
    last: &[u8],
) -> Result<Str, NoMemory> {
    let mut whole = Str::of(alloc, first)?;
    for _ in 0..times {
        whole.append(alloc, text)?;
    }
    whole.append(alloc, last)?;
    Ok(whole)
}

// How many texts the array at `list` has; None where there is a fault.
fn texts_of(alloc: Global, first: &[u8], text: &[u8], times: usize, last: &[u8]) -> Option<usize> {
    let whole = repeated(alloc, first, text, times, last).ok()?;
    let table = table_of(alloc, whole.as_bytes()).ok()?;
    let texts = texts_at(alloc, "list", &table).ok()?;
    Some(texts.as_slice().len())
}

// The length of the text at `go`.
fn length_of(alloc: Global, times: usize) -> Option<usize> {
    let whole = repeated(alloc, b"go = \"", b"x", times, b"\"").ok()?;
    let table = table_of(alloc, whole.as_bytes()).ok()?;
    let go = text_at(alloc, &GO, &table).ok()?;
    Some(go.as_bytes().len())
}

#[test]
fn long_arrays_and_texts_are_read(rt: HostRuntime) {
    assert_eq!(rt;
        texts_of(rt.alloc(), b"list = [", b"\"a\", ", 5_000, b"]"),
        Some(5_000)
    );
    assert_eq!(rt; length_of(rt.alloc(), 100_000), Some(100_000));
}

fn is_too_long(alloc: Global, first: &[u8], bytes: usize) -> Option<bool> {
    let whole = repeated(alloc, first, b" ", bytes.saturating_sub(1), b"").ok()?;
    match table_of(alloc, whole.as_bytes()) {
        Ok(_) => Some(false),
        Err(refusal) => Some(is_fault(&refusal, PlanKind::TooLong, "")),
    }
}

// A file that is too long is told so, be it TOML or not.
#[test]
fn files_have_at_most_so_many_bytes(rt: HostRuntime) {
    assert_eq!(rt; is_too_long(rt.alloc(), b"#", FILE_LIMIT), Some(false));
    assert_eq!(rt; is_too_long(rt.alloc(), b"#", FILE_LIMIT + 1), Some(true));
    assert_eq!(rt; is_too_long(rt.alloc(), b"[", FILE_LIMIT + 1), Some(true));
}

// The length of the text at `until`, and whether it may be the required one.
fn other_lengths_of(alloc: Global, times: usize) -> Option<(usize, usize)> {
    let whole = repeated(alloc, b"until = \"", b"x", times, b"\"").ok()?;
    let table = table_of(alloc, whole.as_bytes()).ok()?;
    let until = maybe_text_at(alloc, "until", &table).ok()??;
    let required = required_text_at(alloc, "until", &table).ok()?;
    Some((until.as_bytes().len(), required.as_bytes().len()))
}

// The kind of the fault of the one key of a document, and how long that is as it is told.
fn unknown_length_of(alloc: Global, before: &str, times: usize) -> Option<(PlanKind, usize)> {
    let whole = repeated(alloc, b"", b"z", times, b" = 1\ncount = 1\n").ok()?;
    let table = table_of(alloc, whole.as_bytes()).ok()?;
    match all_known(alloc, before, &KNOWN, &table) {
        Err(KeyRefusal::Fault(fault)) => Some((fault.kind, fault.key.as_bytes().len())),
        _ => None,
    }
}

#[test]
fn long_texts_and_long_keys_are_told_whole(rt: HostRuntime) {
    assert_eq!(rt;
        other_lengths_of(rt.alloc(), 100_000),
        Some((100_000, 100_000))
    );
    assert_eq!(rt;
        unknown_length_of(rt.alloc(), "world.", 100_000),
        Some((PlanKind::UnknownKey, 100_006))
    );
}
