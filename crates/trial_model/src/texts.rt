//! Texts beside a program that declares nothing: each kind of fault at each key, and which of them is told.
ghost use Rattle.std.specs.Prelude.{◌≡◌, ◌<◌, []};
ghost use Rattle.nl_tree.specs.Names.{IsDeclared};

use nl_check::{CheckRefusal, check};
use nl_experiment::{Experiment, InnerKind, PlanKind, PlanRefusal, Texts};
use nl_fixed::{Names, NoMemory, Str};
use nl_tree::{Breeds, Declared, NamedWords, Procedures, Program, Trees};
use std::alloc::Global;

// Lets go of a thing by one call: a tree that ends inside of a function is walked there, variant by variant.
fn let_go<T: Drop>(_thing: T) {}

fn nothing(alloc: Global) -> Declared
    ensures names { IsDeclared result }
    ensures procedures { result.procedures ≡ [] }
{
    Declared {
        widgets: Names::empty(alloc),
        globals: Names::empty(alloc),
        turtles_own: Names::empty(alloc),
        patches_own: Names::empty(alloc),
        links_own: Names::empty(alloc),
        breeds: Breeds::empty(alloc),
        procedures: Procedures::empty(alloc),
        index: NamedWords::new(Vec::new(alloc)),
    }
}

fn empty_program(alloc: Global) -> Result<Program, CheckRefusal> {
    check(alloc, nothing(alloc), Trees::empty(alloc))
}

// The first fault of texts: its key, its kind, its line and its column.
#[derive(Clone, Copy, Debug, PartialEq, Eq)]
struct Told {
    key: &'static str,
    kind: InnerKind,
    line: u64,
    column: u64,
}

fn is_told(refusal: &PlanRefusal, wanted: Told) -> bool {
    let PlanRefusal::Fault(fault) = refusal else {
        return false;
    };
    match fault.inner {
        Some(inner) => {
            fault.kind == PlanKind::BadText
                && fault.key.as_bytes() == wanted.key.as_bytes()
                && inner.kind == wanted.kind
                && inner.line == wanted.line
                && inner.column == wanted.column
        }
        None => false,
    }
}

// How many trees there are: those of the metrics, one more for a condition, and two more.
fn tree_count(texts: &Texts) -> usize {
    let metrics = texts.metrics.as_slice().len();
    if texts.until.is_some() {
        metrics.wrapping_add(3)
    } else {
        metrics.wrapping_add(2)
    }
}

// So many trees.
fn has_trees(answer: Result<Texts, PlanRefusal>, count: usize) -> bool {
    match answer {
        Ok(texts) => {
            let found = tree_count(&texts);
            let_go(texts);
            found == count
        }
        Err(_) => false,
    }
}

fn has_fault(answer: Result<Texts, PlanRefusal>, wanted: Told) -> bool {
    match answer {
        Ok(texts) => {
            let_go(texts);
            false
        }
        Err(refusal) => is_told(&refusal, wanted),
    }
}

fn texts_of(alloc: Global, program: &Program, document: &[u8]) -> Result<Texts, PlanRefusal> {
    let experiment = Experiment::read(alloc, document)?;
    experiment.texts(alloc, program)
}

// A text, and the kind, the line and the column of its fault.
type Bad = (&'static str, InnerKind, u64, u64);

// More brackets than a text may nest.
const DEEP: &str =
    "((((((((((((((((((((((((((((((((((((((((((((((((((((((((((((((((((((((((((((((((((((((((((((((((((((((((((((((((((((((((((((((((((((((((((((((((((((((((((((((((((((((((((((((((((((((((((((((((((((((((((((((((((((((((((((((((((((((((((((((((((((((((((((((((((((((((((((((((((((((((((((((((((((((((((((";

// Bad commands: each kind of fault that a text of a document can have, and two faults in one text. A document is UTF-8 and short enough,
// so `NotText` and `TooLong` are no faults of its texts.
const COMMANDS: &[Bad] = &[
    ("cro 1 {", InnerKind::BadChar, 1, 7),
    ("show \"a", InnerKind::OpenText, 1, 6),
    ("show \"\\u\"", InnerKind::BadEscape, 1, 7),
    ("cro 1e99", InnerKind::BadNumber, 1, 5),
    ("cro 1\n  foo 2", InnerKind::UnknownName, 2, 3),
    ("cro 1 ]", InnerKind::Unexpected, 1, 7),
    (DEEP, InnerKind::TooDeep, 1, 199),
    ("cro 1\n fd 1", InnerKind::WrongContext, 2, 2),
    ("ask turtles [ set who 1 ]", InnerKind::NotSettable, 1, 19),
    ("cro 1 report 1", InnerKind::NoReport, 1, 7),
    ("fd 1 foo {", InnerKind::BadChar, 1, 10),
    ("fd 1 foo", InnerKind::UnknownName, 1, 6),
    ("report 1 fd 1", InnerKind::NoReport, 1, 1),
    ("fd 1 report 1", InnerKind::WrongContext, 1, 1),
];

// Bad reporters; no word in one sets or reports.
const REPORTERS: &[Bad] = &[
    ("1 {", InnerKind::BadChar, 1, 3),
    ("\"a", InnerKind::OpenText, 1, 1),
    ("\"\\u\"", InnerKind::BadEscape, 1, 2),
    ("1 + 1e99", InnerKind::BadNumber, 1, 5),
    ("1 +\n  foo", InnerKind::UnknownName, 2, 3),
    ("count", InnerKind::Unexpected, 1, 6),
    ("", InnerKind::Unexpected, 1, 1),
    ("cro 1", InnerKind::Unexpected, 1, 1),
    (DEEP, InnerKind::TooDeep, 1, 200),
    ("ticks + who", InnerKind::WrongContext, 1, 9),
];
// The keys of texts, in the order in which their faults are told.
const KEYS: [&str; 5] = ["setup", "go", "until", "metric 1", "metric 2"];

// The text of a key: good before the one that is looked at, and bad behind it.
fn text_at(place: usize, at: usize, text: &'static str) -> &'static str {
    if place == at {
        text
    } else if at < place {
        "foo {"
    } else if place < 2 {
        "cro 1"
    } else {
        "ticks"
    }
}

// A document in which the later keys come first.
fn document(alloc: Global, at: usize, text: &'static str) -> Result<String, NoMemory> {
    let setup = text_at(0, at, text);
    let go = text_at(1, at, text);
    let until = text_at(2, at, text);
    let first = text_at(3, at, text);
    let second = text_at(4, at, text);
    Ok(format!(in alloc;
        "metrics = ['''{first}''', '''{second}''']\nuntil = '''{until}'''\ngo = '''{go}'''\nsetup = '''{setup}'''\nname = \"x\"\n"
    )?)
}

fn tells(alloc: Global, program: &Program, at: usize, bad: Bad) -> bool
    requires { at < 5 }
{
    let (text, kind, line, column) = bad;
    let wanted = Told {
        key: KEYS[at],
        kind,
        line,
        column,
    };
    match document(alloc, at, text) {
        Ok(document) => has_fault(texts_of(alloc, program, document.as_bytes()), wanted),
        Err(NoMemory) => false,
    }
}

// The first text whose fault isn't told at a key.
fn first_other(alloc: Global, program: &Program, at: usize, bads: &[Bad]) -> Option<&'static str>
    requires { at < 5 }
{
    for bad in bads {
        if !tells(alloc, program, at, *bad) {
            return Some(bad.0);
        }
    }
    None
}

// The same beside a program that declares nothing; None at want of memory.
fn first_untold(alloc: Global, at: usize, bads: &[Bad]) -> Option<Option<&'static str>>
    requires { at < 5 }
{
    let program = empty_program(alloc).ok()?;
    let first = first_other(alloc, &program, at, bads);
    let_go(program);
    Some(first)
}

#[test]
fn each_text_has_its_faults_before_those_of_later_keys(rt: HostRuntime) {
    for at in 0..2 {
        let other = first_untold(rt.alloc(), at, COMMANDS);
        assert!(rt; other == Some(None), "{at}: {other:?}");
    }
    for at in 2..5 {
        let other = first_untold(rt.alloc(), at, REPORTERS);
        assert!(rt; other == Some(None), "{at}: {other:?}");
    }
}

// Documents whose texts are good, and how many trees they have.
const GOOD: &[(&[u8], usize)] = &[
    (b"name = \"x\"\nsetup = \"\"\ngo = \"\"", 2),
    (
        b"name = \"x\"\nsetup = \"stop\"\ngo = \"; nothing\\n\"\nuntil = \"true\"",
        3,
    ),
    (
        b"name = \"x\"\nsetup = \"cro 1\"\ngo = \"tick\"\nuntil = \"ticks > 3\"\nmetrics = [\"count turtles\", \"ticks\"]",
        5,
    ),
];

// Where a text is left out, the usual one is read, which is the name of a procedure.
const USUAL: &[(&[u8], &str)] = &[
    (b"name = \"x\"", "setup"),
    (b"name = \"x\"\nsetup = \"\"", "go"),
];

// Whether the texts of the document have so many trees.
fn is_good(alloc: Global, document: &[u8], count: usize) -> bool {
    let Ok(program) = empty_program(alloc) else {
        return false;
    };
    let answer = has_trees(texts_of(alloc, &program, document), count);
    let_go(program);
    answer
}

// Whether this is the first fault of the document's texts.
fn is_bad(alloc: Global, document: &[u8], wanted: Told) -> bool {
    let Ok(program) = empty_program(alloc) else {
        return false;
    };
    let answer = has_fault(texts_of(alloc, &program, document), wanted);
    let_go(program);
    answer
}

// An unknown name in the first line of a key's text.
fn unknown_at(key: &'static str, column: u64) -> Told {
    Told {
        key,
        kind: InnerKind::UnknownName,
        line: 1,
        column,
    }
}

#[test]
fn good_texts_have_trees_and_usual_ones_want_procedures(rt: HostRuntime) {
    for (document, count) in GOOD {
        assert!(rt; is_good(rt.alloc(), document, *count), "{count}");
    }
    for (document, key) in USUAL {
        assert!(rt; is_bad(rt.alloc(), document, unknown_at(key, 1)), "{key}");
    }
}

// A document of a long text and many metrics, with one behind them.
fn long_document(
    alloc: Global,
    lines: usize,
    metrics: usize,
    last: &[u8],
) -> Result<Str, NoMemory> {
    let mut document = Str::of(alloc, b"name = \"x\"\ngo = \"\"\nsetup = '''")?;
    for _ in 0..lines {
        document.append(alloc, b"cro 1 ; births on a line\n")?;
    }
    document.append(alloc, b"'''\nmetrics = [")?;
    for _ in 0..metrics {
        document.append(alloc, b"\"count turtles\", ")?;
    }
    document.append(alloc, last)?;
    Ok(document)
}

// Whether a long document has so many trees.
fn is_long_and_good(alloc: Global, last: &[u8], count: usize) -> bool {
    match long_document(alloc, 5_000, 3_000, last) {
        Ok(document) => is_good(alloc, document.as_bytes(), count),
        Err(_) => false,
    }
}

// Whether this is the first fault of a long document.
fn is_long_and_bad(alloc: Global, last: &[u8], wanted: Told) -> bool {
    match long_document(alloc, 5_000, 3_000, last) {
        Ok(document) => is_bad(alloc, document.as_bytes(), wanted),
        Err(_) => false,
    }
}

#[test]
fn long_texts_and_many_metrics_are_read_to_their_end(rt: HostRuntime) {
    let alloc = rt.alloc();
    assert!(rt; is_long_and_good(alloc, b"\"ticks\"]\n", 3_003));
    let late = unknown_at("metric 3001", 3);
    assert!(rt; is_long_and_bad(alloc, b"\"  foo\"]\n", late));
}
