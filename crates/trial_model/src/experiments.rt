//! Experiments with too many runs or without a world, and the runs, widgets and numbers of those that are read.
ghost use Rattle.nl_experiment.specs.Numbers.{AreDigits};

use nl_experiment::{Experiment, PlanKind, PlanRefusal};
use nl_experiment_sweep::Setting;
use nl_fixed::{NoMemory, Str};
use nl_value::Value;
use std::alloc::Global;

// What a document comes to.
#[derive(Clone, Copy, Debug, PartialEq, Eq)]
enum Said {
    Read,
    Fault(PlanKind, &'static str),
}

fn is_fault(refusal: &PlanRefusal, kind: PlanKind, key: &str) -> bool {
    match refusal {
        PlanRefusal::Fault(fault) => {
            fault.kind == kind && fault.key.as_bytes() == key.as_bytes() && fault.inner.is_none()
        }
        PlanRefusal::NoMemory => false,
    }
}

fn says(alloc: Global, document: &str, wanted: Said) -> bool {
    match (Experiment::read(alloc, document.as_bytes()), wanted) {
        (Ok(_), Said::Read) => true,
        (Err(refusal), Said::Fault(kind, key)) => is_fault(&refusal, kind, key),
        _ => false,
    }
}

const DOCUMENTS: &[(&str, Said)] = &[
    ("name = \"x", Said::Fault(PlanKind::NotToml, "")),
    ("", Said::Fault(PlanKind::MissingKey, "name")),
    (
        "name = \"x\"\nseed = 1.5",
        Said::Fault(PlanKind::FloatValue, "seed"),
    ),
    ("name = \"x\"", Said::Read),
    (
        "name = \"x\"\n[[vary]]\nname = \"a\"\nfrom = 1\nstep = 1\nto = 100000",
        Said::Read,
    ),
    (
        "name = \"x\"\n[[vary]]\nname = \"a\"\nfrom = 1\nstep = 1\nto = 100001",
        Said::Fault(PlanKind::TooManyRuns, "vary"),
    ),
    (
        "name = \"x\"\nrepetitions = 2\n[[vary]]\nname = \"a\"\nfrom = 1\nstep = 1\nto = 50001",
        Said::Fault(PlanKind::TooManyRuns, "vary"),
    ),
    (
        "name = \"x\"\n[[vary]]\nname = \"a\"\nfrom = -9000000000000\nstep = \"0.000001\"\nto = 9000000000000",
        Said::Fault(PlanKind::TooManyRuns, "vary"),
    ),
    (
        "name = \"x\"\n[world]\nmin-pxcor = 1\n[[vary]]\nname = \"a\"\nfrom = 1\nstep = 1\nto = 100001",
        Said::Fault(PlanKind::TooManyRuns, "vary"),
    ),
    (
        "name = \"x\"\n[[vary]]\nname = \"a\"\nfrom = 1\nstep = 1\nto = 100001\n[[vary]]\nname = \"b\"",
        Said::Fault(PlanKind::BadLiteral, "vary 2.values"),
    ),
    (
        "name = \"x\"\nrepetitions = 100000\n[[vary]]\nname = \"a\"\nvalues = [1]",
        Said::Read,
    ),
    (
        "name = \"x\"\nrepetitions = 100000\n[[vary]]\nname = \"a\"\nvalues = [1, 1]",
        Said::Fault(PlanKind::TooManyRuns, "vary"),
    ),
    (
        "name = \"x\"\n[world]\nmin-pxcor = 1",
        Said::Fault(PlanKind::BadWorld, "world"),
    ),
    (
        "name = \"x\"\n[world]\nmax-pxcor = 9223372036854775807",
        Said::Fault(PlanKind::BadWorld, "world"),
    ),
    (
        "name = \"x\"\n[world]\nmin-pxcor = 0\nmax-pxcor = 511\nmin-pycor = 0\nmax-pycor = 511",
        Said::Read,
    ),
    (
        "name = \"x\"\n[world]\nmin-pxcor = 0\nmax-pxcor = 544\nmin-pycor = 0\nmax-pycor = 480",
        Said::Fault(PlanKind::BadWorld, "world"),
    ),
    (
        "name = \"x\"\n[world]\nmin-pxcor = 0\n[[vary]]\nname = \"max-pxcor\"\nvalues = [1, 2, 1000]",
        Said::Read,
    ),
    (
        "name = \"x\"\n[world]\nmin-pxcor = 0\n[[vary]]\nname = \"max-pxcor\"\nvalues = [1, 2, 1001]",
        Said::Fault(PlanKind::BadWorld, "world"),
    ),
    (
        "name = \"x\"\n[[vary]]\nname = \"min-pxcor\"\nvalues = [0, 1]",
        Said::Fault(PlanKind::BadWorld, "world"),
    ),
];

#[test]
fn experiments_are_read_or_have_a_first_fault(rt: HostRuntime) {
    for (document, wanted) in DOCUMENTS {
        assert!(rt; says(rt.alloc(), document, *wanted), "{document}");
    }
}

const GRID: &str =
    "name = \"grid\"\nrepetitions = 2\n[[vary]]\nname = \"a\"\nvalues = [1, 2]\n[[vary]]\nname = \"b\"\nvalues = [1, 2]\n";

const GRID_APART: &str =
    "name = \"grid\"\nrepetitions = 2\nsequential = false\n[[vary]]\nname = \"a\"\nvalues = [1, 2]\n[[vary]]\nname = \"b\"\nvalues = [1, 2]\n";

const TOGETHER: &[(i64, i64)] = &[
    (1, 1),
    (1, 1),
    (1, 2),
    (1, 2),
    (2, 1),
    (2, 1),
    (2, 2),
    (2, 2),
];

const APART: &[(i64, i64)] = &[
    (1, 1),
    (1, 2),
    (2, 1),
    (2, 2),
    (1, 1),
    (1, 2),
    (2, 1),
    (2, 2),
];

fn number(setting: &Setting) -> i64 {
    match &setting.value {
        Value::Number(number) => number.whole_part(),
        _ => -1,
    }
}

// The numbers of a and b in a run.
fn pair(alloc: Global, experiment: &Experiment, run: u64) -> Option<(i64, i64)> {
    if run < 1 || experiment.runs() < run {
        return None;
    }
    let settings = experiment.settings(alloc, run).ok()?;
    match settings.as_slice() {
        [a, b] => Some((number(a), number(b))),
        _ => None,
    }
}

fn goes(alloc: Global, document: &str, wanted: &[(i64, i64)]) -> bool {
    let Ok(experiment) = Experiment::read(alloc, document.as_bytes()) else {
        return false;
    };
    let mut run = 0u64;
    for numbers in wanted {
        run = run.wrapping_add(1);
        if pair(alloc, &experiment, run) != Some(*numbers) {
            return false;
        }
    }
    experiment.runs() == run
}

#[test]
fn repetitions_come_together_or_apart(rt: HostRuntime) {
    assert!(rt; goes(rt.alloc(), GRID, TOGETHER));
    assert!(rt; goes(rt.alloc(), GRID_APART, APART));
}

const SEEDS: &str = "name = \"x\"\nseed = 9223372036854775807\nrepetitions = 3\n";

const VARIED_SEEDS: &str =
    "name = \"x\"\nseed = 5\n[[vary]]\nname = \"Random-Seed\"\nvalues = [7, 3]\n";

fn seed_of(alloc: Global, document: &str, run: u64) -> Option<u64> {
    let experiment = Experiment::read(alloc, document.as_bytes()).ok()?;
    if run < 1 || experiment.runs() < run {
        return None;
    }
    Some(experiment.seed(run))
}

#[test]
fn seeds_count_up_unless_they_are_varied(rt: HostRuntime) {
    assert!(rt; seed_of(rt.alloc(), SEEDS, 1) == Some(9_223_372_036_854_775_807));
    assert!(rt; seed_of(rt.alloc(), SEEDS, 3) == Some(9_223_372_036_854_775_809));
    assert!(rt; seed_of(rt.alloc(), VARIED_SEEDS, 1) == Some(7));
    assert!(rt; seed_of(rt.alloc(), VARIED_SEEDS, 2) == Some(3));
}

const BOUNDS: &str =
    "name = \"x\"\n[world]\nmin-pxcor = -1\nwrap-y = false\n[globals]\nB = 1\n[[vary]]\nname = \"A\"\nvalues = [1]\n[[vary]]\nname = \"b\"\nvalues = [1]\n[[vary]]\nname = \"max-pxcor\"\nvalues = [2, 4]\n";

fn widths(alloc: Global) -> Option<(u32, u32)> {
    let experiment = Experiment::read(alloc, BOUNDS.as_bytes()).ok()?;
    if experiment.runs() < 2 {
        return None;
    }
    Some((experiment.shape(1).width(), experiment.shape(2).width()))
}

#[test]
fn bounds_are_those_of_the_run(rt: HostRuntime) {
    assert!(rt; widths(rt.alloc()) == Some((4, 6)));
}

// The widgets are those that are set, and then those that are varied, each once and in lower case.
fn are_widgets(experiment: &Experiment) -> bool {
    match experiment.widgets().as_slice() {
        [first, second] => {
            first.as_bytes() == b"b".as_slice() && second.as_bytes() == b"a".as_slice()
        }
        _ => false,
    }
}

// Whether an experiment named x has these widgets.
fn bounds_are_left_out(alloc: Global) -> bool {
    match Experiment::read(alloc, BOUNDS.as_bytes()) {
        Ok(experiment) => {
            are_widgets(&experiment) && experiment.fields().name.as_bytes() == b"x".as_slice()
        }
        Err(_) => false,
    }
}

#[test]
fn bounds_are_no_widgets(rt: HostRuntime) {
    assert!(rt; bounds_are_left_out(rt.alloc()));
}

// The run that digits name in an experiment of eight.
fn named(alloc: Global, word: &str) -> Option<Result<u64, PlanKind>>
    requires { AreDigits word.now }
{
    let experiment = Experiment::read(alloc, GRID.as_bytes()).ok()?;
    Some(experiment.run_number(word))
}

#[test]
fn runs_are_named_by_their_numbers(rt: HostRuntime) {
    assert!(rt; named(rt.alloc(), "0") == Some(Err(PlanKind::NoSuchRun)));
    assert!(rt; named(rt.alloc(), "1") == Some(Ok(1)));
    assert!(rt; named(rt.alloc(), "8") == Some(Ok(8)));
    assert!(rt; named(rt.alloc(), "9") == Some(Err(PlanKind::NoSuchRun)));
    assert!(rt; named(rt.alloc(), "18446744073709551617") == Some(Err(PlanKind::NoSuchRun)));
}

const MOST: &str =
    "name = \"x\"\n[[vary]]\nname = \"a\"\nfrom = 1\nstep = 1\nto = 1000\n[[vary]]\nname = \"b\"\nfrom = 1\nstep = 1\nto = 100\n";

fn last(alloc: Global) -> Option<(i64, i64)> {
    let experiment = Experiment::read(alloc, MOST.as_bytes()).ok()?;
    pair(alloc, &experiment, 100_000)
}

#[test]
fn the_last_of_many_runs_has_the_last_values(rt: HostRuntime) {
    assert!(rt; last(rt.alloc()) == Some((1_000, 100)));
}

// A document of so many globals and as many other names that are varied.
fn many(alloc: Global, count: usize) -> Result<Str, NoMemory> {
    let mut text = Str::of(alloc, b"name = \"x\"\n[globals]\n")?;
    for n in 0..count {
        let line = format!(in alloc; "g{n} = {n}\n")?;
        text.append(alloc, line.as_bytes())?;
    }
    for n in 0..count {
        let entry = format!(in alloc; "[[vary]]\nname = \"v{n}\"\nvalues = [{n}]\n")?;
        text.append(alloc, entry.as_bytes())?;
    }
    Ok(text)
}

// How many widgets there are, and how many settings the first run has.
fn counts(alloc: Global, count: usize) -> Option<(usize, usize)> {
    let text = many(alloc, count).ok()?;
    let experiment = Experiment::read(alloc, text.as_bytes()).ok()?;
    if experiment.runs() < 1 {
        return None;
    }
    let settings = experiment.settings(alloc, 1).ok()?;
    Some((
        experiment.widgets().as_slice().len(),
        settings.as_slice().len(),
    ))
}

#[test]
fn many_names_are_widgets_and_settings(rt: HostRuntime) {
    assert!(rt; counts(rt.alloc(), 2_000) == Some((4_000, 2_000)));
}

#[test]
fn the_laws_are_stated() {
    nl_experiment::laws::experiments_say_one_thing();
    nl_experiment::laws::names_are_widgets();
}
