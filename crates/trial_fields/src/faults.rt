//! Each fault of each key, and which of two faults is told.

use crate::documents::{Said, says};
use nl_experiment_keys::PlanKind;
use nl_fixed::{NoMemory, Str};
use std::alloc::Global;

// Lines of a document, and the key of their fault.
type Row = (&'static str, &'static str);

// At each key what holds a floating-point number. A list that holds one is told so before all else of it.
const FLOATS: &[Row] = &[
    ("format = 1.0", "format"),
    ("seed = 1.5", "seed"),
    ("repetitions = 1e3", "repetitions"),
    ("sequential = nan", "sequential"),
    ("setup = 1.5", "setup"),
    ("go = inf", "go"),
    ("until = -0.0", "until"),
    ("steps = 2.0", "steps"),
    ("every-step = 0.5", "every-step"),
    ("format = 2\nmeasure-when = 0.5", "measure-when"),
    ("budget = 1e6", "budget"),
    ("metrics = 1.5", "metrics"),
    ("metrics = [\"a\", 1.5]", "metrics"),
    ("world = 1.5", "world"),
    ("world.min-pxcor = -1.5", "world.min-pxcor"),
    ("world.max-pxcor = 1.5", "world.max-pxcor"),
    ("world.min-pycor = -1.5", "world.min-pycor"),
    ("world.max-pycor = 1.5", "world.max-pycor"),
    ("world.wrap-x = 1.0", "world.wrap-x"),
    ("world.wrap-y = 0.0", "world.wrap-y"),
    ("globals = 1.5", "globals"),
    ("globals.a = 1.5", "globals.a"),
    ("globals.size = 1.5", "globals.size"),
    ("vary = 1.5", "vary"),
    ("vary = [{}, 1.5]", "vary"),
    ("vary = [{name = 1.5}]", "vary 1.name"),
    ("vary = [{name = \"a\", values = 1.5}]", "vary 1.values"),
    (
        "vary = [{name = \"a\", values = [[1], 1.5]}]",
        "vary 1.values",
    ),
    (
        "vary = [{name = \"a\", values = [\"x y\", 1.5]}]",
        "vary 1.values",
    ),
    (
        "vary = [{name = \"a\", values = 1.5, from = 1}]",
        "vary 1.values",
    ),
    (
        "vary = [{name = \"a\", from = 1.5, step = 1, to = 2}]",
        "vary 1.from",
    ),
    (
        "vary = [{name = \"a\", from = 1, step = 1.5, to = 2}]",
        "vary 1.step",
    ),
    (
        "vary = [{name = \"a\", from = 1, step = 1, to = 2.5}]",
        "vary 1.to",
    ),
];

// At each key what is of another kind.
const WRONG_KINDS: &[Row] = &[
    ("format = \"1\"", "format"),
    ("seed = \"1\"", "seed"),
    ("repetitions = true", "repetitions"),
    ("sequential = 1", "sequential"),
    ("setup = 1", "setup"),
    ("go = [\"go\"]", "go"),
    ("until = {}", "until"),
    ("steps = 1979-05-27", "steps"),
    ("every-step = \"true\"", "every-step"),
    ("format = 2\nmeasure-when = true", "measure-when"),
    ("budget = [1]", "budget"),
    ("metrics = \"count turtles\"", "metrics"),
    ("metrics = [\"a\", [\"b\"]]", "metrics"),
    ("world = []", "world"),
    ("world.min-pxcor = \"-1\"", "world.min-pxcor"),
    ("world.max-pxcor = true", "world.max-pxcor"),
    ("world.min-pycor = []", "world.min-pycor"),
    ("world.max-pycor = {}", "world.max-pycor"),
    ("world.wrap-x = 1", "world.wrap-x"),
    ("world.wrap-y = \"true\"", "world.wrap-y"),
    ("globals = [1]", "globals"),
    ("globals.a = [1]", "globals.a"),
    ("globals.a = {b = 1}", "globals.a"),
    ("globals.size = 1979-05-27", "globals.size"),
    ("vary = {}", "vary"),
    ("vary = [{}, 1]", "vary"),
    ("vary = [[]]", "vary"),
    ("vary = [{name = 1}]", "vary 1.name"),
    ("vary = [{name = [\"a\"]}]", "vary 1.name"),
    ("vary = [{name = \"a\", values = 1}]", "vary 1.values"),
    ("vary = [{name = \"a\", values = {}}]", "vary 1.values"),
    (
        "vary = [{name = \"a\", values = [\"x y\", [1]]}]",
        "vary 1.values",
    ),
    (
        "vary = [{name = \"a\", values = [1, 1979-05-27]}]",
        "vary 1.values",
    ),
    (
        "vary = [{name = \"a\", values = 1, from = 1}]",
        "vary 1.values",
    ),
    (
        "vary = [{name = \"a\", from = true, step = 1, to = 2}]",
        "vary 1.from",
    ),
    (
        "vary = [{name = \"a\", from = 1, step = [1], to = 2}]",
        "vary 1.step",
    ),
    (
        "vary = [{name = \"a\", from = 1, step = 1, to = {}}]",
        "vary 1.to",
    ),
];

// At each key what lies beyond its range or has no right form, and names that stand twice.
const BAD_LITERALS: &[Row] = &[
    ("format = 0", "format"),
    ("format = 3", "format"),
    ("seed = -1", "seed"),
    ("repetitions = 0", "repetitions"),
    ("repetitions = 100001", "repetitions"),
    ("steps = -1", "steps"),
    ("budget = 0", "budget"),
    ("budget = 1000000001", "budget"),
    ("globals.Size = 3", "globals.size"),
    ("globals.random-seed = 3", "globals.random-seed"),
    ("globals.MAX-PXCOR = 3", "globals.max-pxcor"),
    ("globals.red = 3", "globals.red"),
    ("globals.1e2 = 3", "globals.1e2"),
    ("globals.\"-.5\" = 3", "globals.-.5"),
    ("globals.\"a,b\" = 3", "globals.a,b"),
    ("globals = {b = 2, B = 1}", "globals.b"),
    ("globals.a = 9000000000001", "globals.a"),
    ("globals.a = -9000000000001", "globals.a"),
    ("globals.a = \"9000000000000.000001\"", "globals.a"),
    ("globals.a = \"-1e13\"", "globals.a"),
    ("globals.a = \"1e100\"", "globals.a"),
    ("globals.a = \"1 2\"", "globals.a"),
    ("globals.a = \"- 1\"", "globals.a"),
    ("globals.a = \"1.2.3\"", "globals.a"),
    ("globals.a = \"purple\"", "globals.a"),
    ("globals.a = \"turtles\"", "globals.a"),
    ("globals.a = \"pi\"", "globals.a"),
    ("globals.a = '\"dry'", "globals.a"),
    ("globals.a = '\"a\\q\"'", "globals.a"),
    ("globals.a = '\"a\" \"b\"'", "globals.a"),
    ("globals.a = \"[1\"", "globals.a"),
    ("globals.a = \"[1] ]\"", "globals.a"),
    ("globals.a = \"[1 (2)]\"", "globals.a"),
    ("globals.a = \"[foo]\"", "globals.a"),
    ("globals.a = \"[1e13]\"", "globals.a"),
    ("globals.a = \"(1)\"", "globals.a"),
    ("globals.a = \"\"", "globals.a"),
    ("globals.a = \"; 3\"", "globals.a"),
    ("globals.a = \"{\"", "globals.a"),
];

// What is no name or literal of a variable that is varied.
const BAD_ENTRIES: &[Row] = &[
    ("vary = [{name = \"\", values = [1]}]", "vary 1.name"),
    ("vary = [{name = \"a b\", values = [1]}]", "vary 1.name"),
    ("vary = [{name = \"Size\", values = [1]}]", "vary 1.name"),
    ("vary = [{name = \"5\", values = [1]}]", "vary 1.name"),
    (
        "vary = [{name = \"world-width\", values = [1]}]",
        "vary 1.name",
    ),
    (
        "vary = [{name = \"a\", values = [1]}, {name = \"A\", values = [1]}]",
        "vary 2.name",
    ),
    (
        "vary = [{name = \"random-seed\", values = [1]}, {name = \"Random-Seed\", values = [1]}]",
        "vary 2.name",
    ),
    (
        "vary = [{name = \"min-pycor\", values = [0]}, {name = \"MIN-PYCOR\", values = [0]}]",
        "vary 2.name",
    ),
    ("vary = [{name = \"a\"}]", "vary 1.values"),
    ("vary = [{name = \"a\", from = 1}]", "vary 1.values"),
    ("vary = [{name = \"a\", step = 1, to = 1}]", "vary 1.values"),
    ("vary = [{name = \"a\", from = 1, to = 1}]", "vary 1.values"),
    (
        "vary = [{name = \"a\", values = [1], from = 1}]",
        "vary 1.values",
    ),
    (
        "vary = [{name = \"a\", values = [1], step = 1}]",
        "vary 1.values",
    ),
    (
        "vary = [{name = \"a\", values = [1], to = 1}]",
        "vary 1.values",
    ),
    (
        "vary = [{name = \"a\", values = [], from = 1, step = 1, to = 1}]",
        "vary 1.values",
    ),
    ("vary = [{name = \"a\", values = []}]", "vary 1.values"),
    (
        "vary = [{name = \"a\", values = [1, \"x y\"]}]",
        "vary 1.values",
    ),
    (
        "vary = [{name = \"a\", values = [9000000000001]}]",
        "vary 1.values",
    ),
    (
        "vary = [{name = \"a\", from = \"red x\", step = 1, to = 2}]",
        "vary 1.from",
    ),
    (
        "vary = [{name = \"a\", from = \"true\", step = 1, to = 2}]",
        "vary 1.from",
    ),
    (
        "vary = [{name = \"a\", from = 9000000000001, step = 1, to = 2}]",
        "vary 1.from",
    ),
    (
        "vary = [{name = \"a\", from = 1, step = 0, to = 2}]",
        "vary 1.step",
    ),
    (
        "vary = [{name = \"a\", from = 1, step = -1, to = 0}]",
        "vary 1.step",
    ),
    (
        "vary = [{name = \"a\", from = 1, step = \"0.0000001\", to = 2}]",
        "vary 1.step",
    ),
    (
        "vary = [{name = \"a\", from = 1, step = \"nobody\", to = 2}]",
        "vary 1.step",
    ),
    (
        "vary = [{name = \"a\", from = 1, step = 1, to = \"\"}]",
        "vary 1.to",
    ),
    (
        "vary = [{name = \"a\", from = 1, step = 1, to = \"0.999999\"}]",
        "vary 1.to",
    ),
    (
        "vary = [{name = \"min-pxcor\", from = \"-0.5\", step = 1, to = 0}]",
        "vary 1.from",
    ),
    (
        "vary = [{name = \"max-pxcor\", from = 1, step = \"0.5\", to = 2}]",
        "vary 1.step",
    ),
    (
        "vary = [{name = \"min-pycor\", from = -1, step = 1, to = \"0.5\"}]",
        "vary 1.to",
    ),
    (
        "vary = [{name = \"max-pycor\", values = [1, \"1.5\"]}]",
        "vary 1.values",
    ),
    (
        "vary = [{name = \"max-pycor\", values = [1, \"nobody\"]}]",
        "vary 1.values",
    ),
    (
        "vary = [{name = \"random-seed\", values = [1, -1]}]",
        "vary 1.values",
    ),
    (
        "vary = [{name = \"random-seed\", values = [\"0.5\"]}]",
        "vary 1.values",
    ),
    (
        "vary = [{name = \"random-seed\", values = [true]}]",
        "vary 1.values",
    ),
    (
        "vary = [{name = \"random-seed\", from = -1, step = 1, to = 2}]",
        "vary 1.from",
    ),
];

// Keys that are none, each the least of its table.
const UNKNOWN_KEYS: &[Row] = &[
    ("Seed = 1", "Seed"),
    ("\"\" = 1", ""),
    ("b = 1\nB = 1", "B"),
    ("step = 1", "step"),
    ("world.Wrap-x = true", "world.Wrap-x"),
    ("world = {wrap = 1, min-pxcor = 0.5}", "world.wrap"),
    ("vary = [{values = 1.5, Name = \"a\"}]", "vary 1.Name"),
    (
        "vary = [{name = \"a\", values = [1], zz = 1, b = 2}]",
        "vary 1.b",
    ),
    (
        "vary = [{name = \"a\", values = [1]}, {other = 1}]",
        "vary 2.other",
    ),
];

// Entries without a name.
const MISSING_KEYS: &[Row] = &[
    ("vary = [{}]", "vary 1.name"),
    ("vary = [{values = 1.5}]", "vary 1.name"),
    (
        "vary = [{name = \"a\", values = [1]}, {from = 1}]",
        "vary 2.name",
    ),
];

// What is read: the ends of ranges, literals of each kind, and names in other cases.
const READ: &[&str] = &[
    "format = 1",
    "seed = 0",
    "seed = 9223372036854775807",
    "repetitions = 1",
    "repetitions = 100000",
    "sequential = false",
    "setup = \"\"",
    "go = \"\"",
    "until = \"\"",
    "steps = 0",
    "steps = 9223372036854775807",
    "every-step = true",
    "budget = 1",
    "budget = 1000000000",
    "metrics = []",
    "world = {}",
    "world.wrap-x = false",
    "world.min-pxcor = -9223372036854775808",
    "globals = {}",
    "vary = []",
    "globals.a = 9000000000000",
    "globals.a = -9000000000000",
    "globals.a = \"9000000000000.0000004\"",
    "globals.a = \"-9e12\"",
    "globals.a = \".5\"",
    "globals.a = \"5.\"",
    "globals.a = \"-0.0000004\"",
    "globals.a = true",
    "globals.a = \"FALSE\"",
    "globals.a = \"Nobody\"",
    "globals.a = \"Sky\"",
    "globals.a = '\"dry; \\\"\\n\"'",
    "globals.a = '\"\"'",
    "globals.a = \"[]\"",
    "globals.a = \"[ 1 [ true nobody ] red \\\"x\\\" ] ; a list\"",
    "globals.A = 1",
    "globals.\"a?\" = 1",
    "globals.x-1 = 1",
    "globals.a = 1\nvary = [{name = \"A\", values = [1]}]",
    "vary = [{name = \"a\", values = [1, true, \"nobody\", \"[1]\"]}]",
    "vary = [{name = \"a\", values = [1, 1]}]",
    "vary = [{name = \"Random-Seed\", values = [0, 9000000000000]}]",
    "vary = [{name = \"a\", from = 1, step = 5, to = 1}]",
    "vary = [{name = \"a\", from = \"sky\", step = \"0.5\", to = \"blue\"}]",
    "vary = [{name = \"a\", from = -9000000000000, step = 9000000000000, to = 9000000000000}]",
    "vary = [{name = \"MIN-PXCOR\", from = -2, step = 1, to = 0}]",
];
// What lines behind a name come to.
fn line_says(alloc: Global, line: &str, wanted: Said) -> bool {
    match format!(in alloc; "name = \"x\"\n{line}\n") {
        Ok(document) => says(alloc, document.as_bytes(), wanted),
        Err(_) => false,
    }
}

// The first row that has another fault.
fn first_other(alloc: Global, rows: &[Row], kind: PlanKind) -> Option<&'static str> {
    for (line, key) in rows {
        if !line_says(alloc, line, Said::Fault(kind, *key)) {
            return Some(*line);
        }
    }
    None
}

#[test]
fn a_floating_point_number_is_told_at_each_key(rt: HostRuntime) {
    assert_eq!(rt; first_other(rt.alloc(), FLOATS, PlanKind::FloatValue), None);
}

#[test]
fn another_kind_is_told_at_each_key(rt: HostRuntime) {
    assert_eq!(rt;
        first_other(rt.alloc(), WRONG_KINDS, PlanKind::WrongKind),
        None
    );
}

#[test]
fn a_bad_literal_is_told_at_each_key(rt: HostRuntime) {
    assert_eq!(rt;
        first_other(rt.alloc(), BAD_LITERALS, PlanKind::BadLiteral),
        None
    );
}

#[test]
fn a_bad_literal_is_told_in_each_entry(rt: HostRuntime) {
    assert_eq!(rt;
        first_other(rt.alloc(), BAD_ENTRIES, PlanKind::BadLiteral),
        None
    );
}

#[test]
fn an_unknown_key_is_told_at_each_place(rt: HostRuntime) {
    assert_eq!(rt;
        first_other(rt.alloc(), UNKNOWN_KEYS, PlanKind::UnknownKey),
        None
    );
}

#[test]
fn a_missing_key_is_told(rt: HostRuntime) {
    assert_eq!(rt;
        first_other(rt.alloc(), MISSING_KEYS, PlanKind::MissingKey),
        None
    );
}

#[test]
fn the_ends_of_ranges_are_read(rt: HostRuntime) {
    for line in READ {
        assert!(rt; line_says(rt.alloc(), line, Said::Read), "{line}");
    }
}

// Lines of a document, and the key and the kind of their fault.
type Faulty = (&'static str, &'static str, PlanKind);

// A fault of each of the first keys, in the order in which they are told.
const FIRST_KEYS: &[Faulty] = &[
    ("zz = 1", "zz", PlanKind::UnknownKey),
    ("format = 0", "format", PlanKind::BadLiteral),
    ("name = 1", "name", PlanKind::WrongKind),
    ("seed = 1.5", "seed", PlanKind::FloatValue),
];

// And of the others, in their order, where there is a name.
const KEYS: &[Faulty] = &[
    ("seed = 1.5", "seed", PlanKind::FloatValue),
    ("repetitions = 0", "repetitions", PlanKind::BadLiteral),
    ("sequential = 1", "sequential", PlanKind::WrongKind),
    ("setup = 1.5", "setup", PlanKind::FloatValue),
    ("go = 1", "go", PlanKind::WrongKind),
    ("until = 1.5", "until", PlanKind::FloatValue),
    ("steps = -1", "steps", PlanKind::BadLiteral),
    ("every-step = 1", "every-step", PlanKind::WrongKind),
    ("budget = 0", "budget", PlanKind::BadLiteral),
    ("metrics = [1.5]", "metrics", PlanKind::FloatValue),
    ("world.wrap = 1", "world.wrap", PlanKind::UnknownKey),
    ("globals = [1]", "globals", PlanKind::WrongKind),
    ("vary = [{}]", "vary 1.name", PlanKind::MissingKey),
];

// Of each key of a world.
const WORLD_KEYS: &[Faulty] = &[
    ("other = 1", "world.other", PlanKind::UnknownKey),
    ("min-pxcor = 0.5", "world.min-pxcor", PlanKind::FloatValue),
    ("max-pxcor = true", "world.max-pxcor", PlanKind::WrongKind),
    ("min-pycor = 0.5", "world.min-pycor", PlanKind::FloatValue),
    ("max-pycor = []", "world.max-pycor", PlanKind::WrongKind),
    ("wrap-x = 1.5", "world.wrap-x", PlanKind::FloatValue),
    ("wrap-y = 1", "world.wrap-y", PlanKind::WrongKind),
];

// Of names that are set, in byte order as they are written.
const GLOBAL_KEYS: &[Faulty] = &[
    ("B = 1.5", "globals.b", PlanKind::FloatValue),
    ("\"a b\" = 1", "globals.a b", PlanKind::BadLiteral),
    ("b = []", "globals.b", PlanKind::WrongKind),
    ("size = 1", "globals.size", PlanKind::BadLiteral),
    ("zoo = 1.5", "globals.zoo", PlanKind::FloatValue),
];

// Of two faults the one that is told, in what is varied and before it.
const ENTRIES: &[Faulty] = &[
    ("vary = [{}, 1]", "vary", PlanKind::WrongKind),
    (
        "vary = [{name = \"a\", values = []}, {other = 1}]",
        "vary 1.values",
        PlanKind::BadLiteral,
    ),
    (
        "vary = [{name = \"a\", values = 1}, {name = 1}]",
        "vary 1.values",
        PlanKind::WrongKind,
    ),
    (
        "vary = [{name = 1, zz = 1}]",
        "vary 1.zz",
        PlanKind::UnknownKey,
    ),
    ("vary = [{values = 1}]", "vary 1.name", PlanKind::MissingKey),
    (
        "vary = [{name = 1.5, values = 1}]",
        "vary 1.name",
        PlanKind::FloatValue,
    ),
    (
        "vary = [{name = \"size\", values = 1.5}]",
        "vary 1.name",
        PlanKind::BadLiteral,
    ),
    (
        "vary = [{name = \"a\", values = [\"x y\"], from = 1.5}]",
        "vary 1.values",
        PlanKind::BadLiteral,
    ),
    (
        "vary = [{name = \"a\", from = 1.5, to = 1}]",
        "vary 1.values",
        PlanKind::BadLiteral,
    ),
    (
        "vary = [{name = \"a\", from = true, step = 1.5, to = 1.5}]",
        "vary 1.from",
        PlanKind::WrongKind,
    ),
    (
        "vary = [{name = \"a\", from = \"x y\", step = 1.5, to = 1.5}]",
        "vary 1.from",
        PlanKind::BadLiteral,
    ),
    (
        "vary = [{name = \"a\", from = 3, step = true, to = 2.5}]",
        "vary 1.step",
        PlanKind::WrongKind,
    ),
    (
        "vary = [{name = \"a\", from = 3, step = 0, to = 2}]",
        "vary 1.step",
        PlanKind::BadLiteral,
    ),
    (
        "vary = [{name = \"random-seed\", from = -1, step = 0, to = -2}]",
        "vary 1.from",
        PlanKind::BadLiteral,
    ),
    (
        "globals.a = []\nvary = [{}]",
        "globals.a",
        PlanKind::WrongKind,
    ),
    (
        "world.wrap-y = 1\nglobals.a = 1.5",
        "world.wrap-y",
        PlanKind::WrongKind,
    ),
    ("world = 1\nworlds = 1", "worlds", PlanKind::UnknownKey),
];
// Lines behind a head, the last ones first.
fn turned(alloc: Global, head: &str, rows: &[Faulty]) -> Result<Str, NoMemory> {
    let mut document = Str::of(alloc, head.as_bytes())?;
    for behind in 0..rows.len() {
        let row = rows[rows.len() - 1 - behind];
        document.append(alloc, row.0.as_bytes())?;
        document.append(alloc, b"\n")?;
    }
    Ok(document)
}

// Whether the first of these rows is told before all behind it.
fn is_first(alloc: Global, head: &str, first: Faulty, rows: &[Faulty]) -> bool {
    match turned(alloc, head, rows) {
        Ok(document) => says(alloc, document.as_bytes(), Said::Fault(first.2, first.1)),
        Err(NoMemory) => false,
    }
}

// The first row that isn't told before all behind it.
fn first_late(alloc: Global, head: &str, rows: &[Faulty]) -> Option<&'static str> {
    for at in 1..rows.len() {
        let row = rows[at - 1];
        if !is_first(alloc, head, row, &rows[at - 1..]) {
            return Some(row.0);
        }
    }
    None
}

#[test]
fn earlier_keys_are_told_first(rt: HostRuntime) {
    let alloc = rt.alloc();
    assert_eq!(rt; first_late(alloc, "", FIRST_KEYS), None);
    assert_eq!(rt; first_late(alloc, "name = \"x\"\n", KEYS), None);
    assert_eq!(rt;
        first_late(alloc, "name = \"x\"\n[world]\n", WORLD_KEYS),
        None
    );
    assert_eq!(rt;
        first_late(alloc, "name = \"x\"\n[globals]\n", GLOBAL_KEYS),
        None
    );
    for (line, key, kind) in ENTRIES {
        assert!(rt; line_says(alloc, line, Said::Fault(*kind, *key)), "{line}");
    }
}

// Which keys each format has, and what is told first where a format is none.
const FORMATS: &[(&str, Said)] = &[
    ("every-step = true", Said::Read),
    ("format = 1\nevery-step = false", Said::Read),
    ("format = 2", Said::Read),
    ("format = 2\nmeasure-when = \"\"", Said::Read),
    ("measure-when = \"true\"\nformat = 2", Said::Read),
    (
        "measure-when = \"true\"",
        Said::Fault(PlanKind::UnknownKey, "measure-when"),
    ),
    (
        "format = 1\nmeasure-when = 1.5",
        Said::Fault(PlanKind::UnknownKey, "measure-when"),
    ),
    (
        "format = 2\nevery-step = true",
        Said::Fault(PlanKind::UnknownKey, "every-step"),
    ),
    (
        "format = 2\nevery-step = true\nafter = 1",
        Said::Fault(PlanKind::UnknownKey, "after"),
    ),
    (
        "format = 2\nmeasure-when = 1",
        Said::Fault(PlanKind::WrongKind, "measure-when"),
    ),
    (
        "format = 2\nmeasure-when = 1.5",
        Said::Fault(PlanKind::FloatValue, "measure-when"),
    ),
    (
        "format = 2\nmeasure-when = []",
        Said::Fault(PlanKind::WrongKind, "measure-when"),
    ),
    (
        "budget = 0\nformat = 2\nmeasure-when = 1",
        Said::Fault(PlanKind::WrongKind, "measure-when"),
    ),
    (
        "steps = -1\nformat = 2\nmeasure-when = 1",
        Said::Fault(PlanKind::BadLiteral, "steps"),
    ),
    (
        "format = 0\nevery-step = true\nmeasure-when = \"true\"",
        Said::Fault(PlanKind::BadLiteral, "format"),
    ),
    (
        "format = 3\nevery-step = 1\nmeasure-when = 1",
        Said::Fault(PlanKind::BadLiteral, "format"),
    ),
    (
        "format = \"2\"\nevery-step = true\nmeasure-when = \"true\"",
        Said::Fault(PlanKind::WrongKind, "format"),
    ),
    (
        "format = 2.0\nevery-step = true\nmeasure-when = \"true\"",
        Said::Fault(PlanKind::FloatValue, "format"),
    ),
    (
        "format = true\nevery-step = true\nmeasure-when = \"true\"",
        Said::Fault(PlanKind::WrongKind, "format"),
    ),
    (
        "format = 3\nother = 1",
        Said::Fault(PlanKind::UnknownKey, "other"),
    ),
    (
        "format = 2.0\nother = 1",
        Said::Fault(PlanKind::UnknownKey, "other"),
    ),
];

#[test]
fn each_format_has_its_keys(rt: HostRuntime) {
    for (lines, said) in FORMATS {
        assert!(rt; line_says(rt.alloc(), lines, *said), "{lines}");
    }
}
