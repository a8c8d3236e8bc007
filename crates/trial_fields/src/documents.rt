//! Documents and their first faults, fields that are left out, and files of many entries.

use nl_experiment_fields::{Fields, fields_of};
use nl_experiment_keys::{KeyRefusal, PlanKind};
use nl_experiment_sweep::Choice;
use nl_fixed::{NoMemory, Str};
use nl_value::Value;
use std::alloc::Global;

// What a document comes to.
#[derive(Clone, Copy, Debug, PartialEq, Eq)]
pub(crate) enum Said {
    Read,
    Fault(PlanKind, &'static str),
}

fn is_fault(refusal: &KeyRefusal, kind: PlanKind, key: &str) -> bool {
    match refusal {
        KeyRefusal::Fault(fault) => fault.kind == kind && fault.key.as_bytes() == key.as_bytes(),
        KeyRefusal::NoMemory => false,
    }
}

pub(crate) fn says(alloc: Global, document: &[u8], wanted: Said) -> bool {
    match (fields_of(alloc, document), wanted) {
        (Ok(_), Said::Read) => true,
        (Err(refusal), Said::Fault(kind, key)) => is_fault(&refusal, kind, key),
        _ => false,
    }
}

const DOCUMENTS: &[(&str, Said)] = &[
    ("", Said::Fault(PlanKind::MissingKey, "name")),
    ("name = \"x\"", Said::Read),
    (
        "name = \"x\"\nformat = 3",
        Said::Fault(PlanKind::BadLiteral, "format"),
    ),
    (
        "name = \"x\"\nseed = -1",
        Said::Fault(PlanKind::BadLiteral, "seed"),
    ),
    (
        "name = \"x\"\nrepetitions = 100001",
        Said::Fault(PlanKind::BadLiteral, "repetitions"),
    ),
    (
        "name = \"x\"\nsequential = 1",
        Said::Fault(PlanKind::WrongKind, "sequential"),
    ),
    (
        "name = \"x\"\nsetup = 1",
        Said::Fault(PlanKind::WrongKind, "setup"),
    ),
    (
        "name = \"x\"\ngo = 1.5",
        Said::Fault(PlanKind::FloatValue, "go"),
    ),
    (
        "name = \"x\"\nuntil = []",
        Said::Fault(PlanKind::WrongKind, "until"),
    ),
    (
        "name = \"x\"\nsteps = -1",
        Said::Fault(PlanKind::BadLiteral, "steps"),
    ),
    (
        "name = \"x\"\nevery-step = \"no\"",
        Said::Fault(PlanKind::WrongKind, "every-step"),
    ),
    (
        "name = \"x\"\nbudget = 0",
        Said::Fault(PlanKind::BadLiteral, "budget"),
    ),
    (
        "name = \"x\"\nmetrics = [1, 1.5]",
        Said::Fault(PlanKind::FloatValue, "metrics"),
    ),
    (
        "name = \"x\"\nmetrics = [\"a\", 1]",
        Said::Fault(PlanKind::WrongKind, "metrics"),
    ),
    (
        "name = \"x\"\nworld = 1",
        Said::Fault(PlanKind::WrongKind, "world"),
    ),
    (
        "name = \"x\"\nglobals = 1.5",
        Said::Fault(PlanKind::FloatValue, "globals"),
    ),
    (
        "name = \"x\"\nvary = 1",
        Said::Fault(PlanKind::WrongKind, "vary"),
    ),
    (
        "name = \"x\"\nvary = [1]",
        Said::Fault(PlanKind::WrongKind, "vary"),
    ),
    (
        "name = \"x\"\nvary = [{}, 1.5]",
        Said::Fault(PlanKind::FloatValue, "vary"),
    ),
    (
        "name = \"x\"\nzz = 1\nb = 1\nseed = -1",
        Said::Fault(PlanKind::UnknownKey, "b"),
    ),
    (
        "name = \"x\"\n[world]\nwrap = true\nmin-pxcor = 0.5",
        Said::Fault(PlanKind::UnknownKey, "world.wrap"),
    ),
    (
        "name = \"x\"\n[world]\nmax-pycor = \"1\"",
        Said::Fault(PlanKind::WrongKind, "world.max-pycor"),
    ),
    ("name = \"x\"\n[world]\nmin-pxcor = 1", Said::Read),
    (
        "name = \"x\"\n[world]\nwrap-x = 1\nwrap-y = 1.5",
        Said::Fault(PlanKind::WrongKind, "world.wrap-x"),
    ),
    (
        "name = \"x\"\n[world]\nmax-pxcor = 1000\nmin-pxcor = 0\nmin-pycor = 0\nmax-pycor = 260",
        Said::Read,
    ),
    (
        "name = \"x\"\n[world]\nmax-pxcor = 511\nmin-pxcor = 0\nmin-pycor = 0\nmax-pycor = 511",
        Said::Read,
    ),
    (
        "name = \"x\"\n[world]\nmax-pxcor = 511\nmin-pxcor = 0\nmin-pycor = 0\nmax-pycor = 512",
        Said::Read,
    ),
    (
        "name = \"x\"\n[globals]\nB = 1\nb = 2",
        Said::Fault(PlanKind::BadLiteral, "globals.b"),
    ),
    (
        "name = \"x\"\n[globals]\nSize = 3",
        Said::Fault(PlanKind::BadLiteral, "globals.size"),
    ),
    (
        "name = \"x\"\n[globals]\n\"a b\" = 3",
        Said::Fault(PlanKind::BadLiteral, "globals.a b"),
    ),
    (
        "name = \"x\"\n[globals]\n\"1\" = 3",
        Said::Fault(PlanKind::BadLiteral, "globals.1"),
    ),
    (
        "name = \"x\"\n[globals]\n\"\" = 3",
        Said::Fault(PlanKind::BadLiteral, "globals."),
    ),
    (
        "name = \"x\"\n[globals]\na = 1.5",
        Said::Fault(PlanKind::FloatValue, "globals.a"),
    ),
    (
        "name = \"x\"\n[globals]\nsize = []",
        Said::Fault(PlanKind::WrongKind, "globals.size"),
    ),
    (
        "name = \"x\"\n[globals]\na = \"x y\"",
        Said::Fault(PlanKind::BadLiteral, "globals.a"),
    ),
    ("name = \"x\"\n[globals]\na = \"; c\\n 3\"", Said::Read),
    (
        "name = \"x\"\n[globals]\na = \"\"",
        Said::Fault(PlanKind::BadLiteral, "globals.a"),
    ),
    (
        "name = \"x\"\n[globals]\na = 9000000000001",
        Said::Fault(PlanKind::BadLiteral, "globals.a"),
    ),
    (
        "name = \"x\"\n[globals]\na = \"[1 [red nobody] \\\"t\\\"]\"",
        Said::Read,
    ),
    (
        "name = \"x\"\n[globals]\nmin-pxcor = 1",
        Said::Fault(PlanKind::BadLiteral, "globals.min-pxcor"),
    ),
    (
        "name = \"x\"\n[[vary]]\n",
        Said::Fault(PlanKind::MissingKey, "vary 1.name"),
    ),
    (
        "name = \"x\"\n[[vary]]\nname = 1",
        Said::Fault(PlanKind::WrongKind, "vary 1.name"),
    ),
    (
        "name = \"x\"\n[[vary]]\nname = \"a\"",
        Said::Fault(PlanKind::BadLiteral, "vary 1.values"),
    ),
    (
        "name = \"x\"\n[[vary]]\nname = \"a\"\nvalues = []",
        Said::Fault(PlanKind::BadLiteral, "vary 1.values"),
    ),
    (
        "name = \"x\"\n[[vary]]\nname = \"a\"\nvalues = [1, 1.5]",
        Said::Fault(PlanKind::FloatValue, "vary 1.values"),
    ),
    (
        "name = \"x\"\n[[vary]]\nname = \"a\"\nvalues = [\"x y\", [1]]",
        Said::Fault(PlanKind::WrongKind, "vary 1.values"),
    ),
    (
        "name = \"x\"\n[[vary]]\nname = \"a\"\nvalues = 1",
        Said::Fault(PlanKind::WrongKind, "vary 1.values"),
    ),
    (
        "name = \"x\"\n[[vary]]\nname = \"a\"\nvalues = [1]\nfrom = 1.5",
        Said::Fault(PlanKind::BadLiteral, "vary 1.values"),
    ),
    (
        "name = \"x\"\n[[vary]]\nname = \"a\"\nfrom = 1\nstep = 1",
        Said::Fault(PlanKind::BadLiteral, "vary 1.values"),
    ),
    (
        "name = \"x\"\n[[vary]]\nname = \"a\"\nfrom = 1\nstep = 0\nto = \"x\"",
        Said::Fault(PlanKind::BadLiteral, "vary 1.step"),
    ),
    (
        "name = \"x\"\n[[vary]]\nname = \"a\"\nfrom = true\nstep = 1\nto = 2",
        Said::Fault(PlanKind::WrongKind, "vary 1.from"),
    ),
    (
        "name = \"x\"\n[[vary]]\nname = \"a\"\nfrom = \"red\"\nstep = 1\nto = 14",
        Said::Fault(PlanKind::BadLiteral, "vary 1.to"),
    ),
    (
        "name = \"x\"\n[[vary]]\nname = \"a\"\nfrom = \"red\"\nstep = 1\nto = 16",
        Said::Read,
    ),
    (
        "name = \"x\"\n[[vary]]\nname = \"a\"\nfrom = 3\nstep = 1\nto = 2",
        Said::Fault(PlanKind::BadLiteral, "vary 1.to"),
    ),
    (
        "name = \"x\"\n[[vary]]\nname = \"a\"\nfrom = 1\nstep = 1\nto = 100000",
        Said::Read,
    ),
    (
        "name = \"x\"\n[[vary]]\nname = \"a\"\nfrom = 1\nstep = 1\nto = 100001",
        Said::Read,
    ),
    (
        "name = \"x\"\n[[vary]]\nname = \"a\"\nfrom = 1\nstep = \"0.000001\"\nto = \"1.09\"",
        Said::Read,
    ),
    (
        "name = \"x\"\n[[vary]]\nname = \"max-pxcor\"\nvalues = [\"0.5\"]",
        Said::Fault(PlanKind::BadLiteral, "vary 1.values"),
    ),
    (
        "name = \"x\"\n[[vary]]\nname = \"MAX-PXCOR\"\nvalues = [1, \"2\"]",
        Said::Read,
    ),
    (
        "name = \"x\"\n[[vary]]\nname = \"max-pxcor\"\nvalues = [true]",
        Said::Fault(PlanKind::BadLiteral, "vary 1.values"),
    ),
    (
        "name = \"x\"\n[[vary]]\nname = \"random-seed\"\nvalues = [-1]",
        Said::Fault(PlanKind::BadLiteral, "vary 1.values"),
    ),
    (
        "name = \"x\"\n[[vary]]\nname = \"random-seed\"\nfrom = 0\nstep = \"0.5\"\nto = 1",
        Said::Fault(PlanKind::BadLiteral, "vary 1.step"),
    ),
    (
        "name = \"x\"\n[[vary]]\nname = \"min-pxcor\"\nvalues = [0, 1]",
        Said::Read,
    ),
    (
        "name = \"x\"\n[[vary]]\nname = \"size\"\nvalues = [1]",
        Said::Fault(PlanKind::BadLiteral, "vary 1.name"),
    ),
    (
        "name = \"x\"\n[[vary]]\nname = \"a\"\nvalues = [1]\nother = 2",
        Said::Fault(PlanKind::UnknownKey, "vary 1.other"),
    ),
    (
        "name = \"x\"\n[[vary]]\nname = \"a\"\nvalues = [1]\n[[vary]]\nname = \"A\"\nvalues = [2]",
        Said::Fault(PlanKind::BadLiteral, "vary 2.name"),
    ),
    (
        "name = \"x\"\n[[vary]]\nname = \"a\"\nvalues = [1]\n[[vary]]\nname = \"max-pxcor\"\nvalues = [2]\n[[vary]]\nname = \"Max-pxcor\"\nvalues = [2]",
        Said::Fault(PlanKind::BadLiteral, "vary 3.name"),
    ),
    (
        "name = \"x\"\n[[vary]]\nname = \"a\"\nvalues = [1,2]\n[globals]\na = 3",
        Said::Read,
    ),
    (
        "name = \"x\"\n[[vary]]\nname = \"a\"\nfrom = -9000000000000\nstep = \"0.000001\"\nto = 9000000000000",
        Said::Read,
    ),
];

#[test]
fn documents_are_read_or_have_a_first_fault(rt: HostRuntime) {
    for (document, wanted) in DOCUMENTS {
        assert!(rt;
            says(rt.alloc(), document.as_bytes(), *wanted),
            "{document}"
        );
    }
}

// Whether all that is left out has its usual value.
fn is_usual(fields: &Fields) -> bool {
    fields.name.as_bytes() == b"x".as_slice()
        && fields.seed == 0
        && fields.repetitions == 1
        && fields.sequential
        && fields.setup.as_bytes() == b"setup".as_slice()
        && fields.go.as_bytes() == b"go".as_slice()
        && fields.until.is_none()
        && fields.steps == 0
        && fields.measure_when.is_none()
        && fields.budget == 10_000_000
        && fields.metrics.as_slice().is_empty()
        && fields.bounds == [-16, 16, -16, 16]
        && fields.wrap_x
        && fields.wrap_y
        && fields.globals.as_slice().is_empty()
        && fields.vary.as_slice().is_empty()
}

#[test]
fn what_is_left_out_is_usual(rt: HostRuntime) {
    match fields_of(rt.alloc(), b"name = \"x\"") {
        Ok(fields) => assert!(rt; is_usual(&fields)),
        Err(_) => assert!(rt; false),
    }
}

const WHOLE: &str =
    "format = 1\nname = \"fire\"\nseed = 9223372036854775807\nrepetitions = 2\nsequential = false\nsetup = \"s\"\ngo = \"g\"\nuntil = \"u\"\nsteps = 3\nevery-step = true\nbudget = 1000000000\nmetrics = [\"a\", \"b\"]\n[world]\nmin-pxcor = -1\nmax-pxcor = 2\nmin-pycor = -3\nmax-pycor = 4\nwrap-x = false\nwrap-y = false\n[globals]\nZ = 1\nb = true\n[[vary]]\nname = \"Speed\"\nvalues = [1, \"red\"]\n[[vary]]\nname = \"c\"\nfrom = 1\nstep = \"0.5\"\nto = 3\n";

// Every step is where `true` is true.
fn is_always(text: &Option<Str>) -> bool {
    match text {
        Some(text) => text.as_bytes() == b"true".as_slice(),
        None => false,
    }
}

fn is_head(fields: &Fields) -> bool {
    fields.name.as_bytes() == b"fire".as_slice()
        && fields.seed == 9_223_372_036_854_775_807
        && fields.repetitions == 2
        && !fields.sequential
        && fields.setup.as_bytes() == b"s".as_slice()
        && fields.go.as_bytes() == b"g".as_slice()
        && fields.until.is_some()
        && fields.steps == 3
        && is_always(&fields.measure_when)
        && fields.budget == 1_000_000_000
        && fields.metrics.as_slice().len() == 2
        && fields.bounds == [-1, 2, -3, 4]
        && !fields.wrap_x
        && !fields.wrap_y
}

// The globals come in byte order of their keys, and names are in lower case.
fn are_globals(fields: &Fields) -> bool {
    match fields.globals.as_slice() {
        [first, second] => {
            first.name.as_bytes() == b"z".as_slice() && second.name.as_bytes() == b"b".as_slice()
        }
        _ => false,
    }
}

fn is_red(choice: &Choice) -> bool {
    match choice {
        Choice::Listed(values) => match values.get(1) {
            Some(Value::Number(number)) => values.len() == 2 && number.millionths() == 15_000_000,
            _ => false,
        },
        Choice::Stepped { .. } => false,
    }
}

fn is_stepped(choice: &Choice) -> bool {
    match choice {
        Choice::Listed(_) => false,
        Choice::Stepped { from, step, count } => {
            from.millionths() == 1_000_000 && step.millionths() == 500_000 && *count == 5
        }
    }
}

fn are_varied(fields: &Fields) -> bool {
    match fields.vary.as_slice() {
        [first, second] => {
            first.name.as_bytes() == b"speed".as_slice()
                && is_red(&first.choice)
                && second.name.as_bytes() == b"c".as_slice()
                && is_stepped(&second.choice)
        }
        _ => false,
    }
}

#[test]
fn all_keys_are_read(rt: HostRuntime) {
    match fields_of(rt.alloc(), WHOLE.as_bytes()) {
        Ok(fields) => assert!(rt; is_head(&fields) && are_globals(&fields) && are_varied(&fields)),
        Err(_) => assert!(rt; false),
    }
}

// A document of so many globals that are varied too.
fn many(alloc: Global, count: usize) -> Result<Str, NoMemory> {
    let mut text = Str::of(alloc, b"name = \"x\"\n[globals]\n")?;
    for n in 0..count {
        let line = format!(in alloc; "g{n} = {n}\n")?;
        text.append(alloc, line.as_bytes())?;
    }
    for n in 0..count {
        let entry = format!(in alloc; "[[vary]]\nname = \"G{n}\"\nvalues = [{n}]\n")?;
        text.append(alloc, entry.as_bytes())?;
    }
    Ok(text)
}

fn counts(alloc: Global, count: usize) -> Option<(usize, usize)> {
    let text = many(alloc, count).ok()?;
    let fields = fields_of(alloc, text.as_bytes()).ok()?;
    Some((
        fields.globals.as_slice().len(),
        fields.vary.as_slice().len(),
    ))
}

#[test]
fn many_globals_and_entries_are_read(rt: HostRuntime) {
    assert_eq!(rt; counts(rt.alloc(), 2_000), Some((2_000, 2_000)));
}

// So many times one text between two others.
fn repeated(
    alloc: Global,
    first: &[u8],
    text: &[u8],
    times: usize,
    last: &[u8],
) -> Result<Str, NoMemory> {
    let mut whole = Str::of(alloc, first)?;
    for _ in 0..times {
        whole.append(alloc, text)?;
    }
    whole.append(alloc, last)?;
    Ok(whole)
}

// What a global is told whose text has so many letters.
fn letters_say(alloc: Global, times: usize, wanted: Said) -> bool {
    match repeated(
        alloc,
        b"name = \"x\"\nglobals.a = '\"",
        b"x",
        times,
        b"\"'\n",
    ) {
        Ok(document) => says(alloc, document.as_bytes(), wanted),
        Err(_) => false,
    }
}

// And one whose lists nest so often.
fn lists_say(alloc: Global, times: usize, wanted: Said) -> bool {
    let Ok(opened) = repeated(alloc, b"name = \"x\"\nglobals.a = \"", b"[", times, b"") else {
        return false;
    };
    match repeated(alloc, opened.as_bytes(), b"]", times, b"\"\n") {
        Ok(document) => says(alloc, document.as_bytes(), wanted),
        Err(_) => false,
    }
}

#[test]
fn literals_are_read_up_to_the_limits_on_values(rt: HostRuntime) {
    let alloc = rt.alloc();
    let bad = Said::Fault(PlanKind::BadLiteral, "globals.a");
    assert!(rt; letters_say(alloc, 999_999, Said::Read));
    assert!(rt; letters_say(alloc, 1_000_000, bad));
    assert!(rt; lists_say(alloc, 200, Said::Read));
    assert!(rt; lists_say(alloc, 201, bad));
}

// The lengths of the text at `setup` and of the list of metrics.
fn lengths(alloc: Global, document: &Str) -> Option<(usize, usize)> {
    let fields = fields_of(alloc, document.as_bytes()).ok()?;
    Some((
        fields.setup.as_bytes().len(),
        fields.metrics.as_slice().len(),
    ))
}

// A text of so many letters, and as many metrics.
fn long(alloc: Global, letters: usize, metrics: usize) -> Option<(usize, usize)> {
    let text = repeated(
        alloc,
        b"name = \"x\"\nsetup = \"",
        b"x",
        letters,
        b"\"\nmetrics = [",
    )
    .ok()?;
    let document = repeated(alloc, text.as_bytes(), b"\"ticks\", ", metrics, b"]\n").ok()?;
    lengths(alloc, &document)
}

#[test]
fn long_texts_and_many_metrics_are_read(rt: HostRuntime) {
    assert_eq!(rt;
        long(rt.alloc(), 1_000_000, 20_000),
        Some((1_000_000, 20_000))
    );
}
