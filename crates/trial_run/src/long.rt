//! Runs far past the usual: none of them is a want of memory.
use crate::playing::{wrong_in, wrong_over};
use crate::rows::{FEW_WAYS, Trial, Way};
use nl_fixed::NoMemory;
use nl_store::Indexed;
use std::alloc::Global;

// Whether a run of an experiment beside no code has these lines, if both could be made.
fn has_lines(
    alloc: Global,
    plan: Result<String, NoMemory>,
    lines: Result<String, NoMemory>,
) -> bool {
    let (Ok(plan), Ok(lines)) = (plan, lines) else {
        return false;
    };
    let trial = Trial {
        model: "",
        plan: plan.as_str(),
        number: 1,
        lines: lines.as_str(),
    };
    wrong_in(alloc, &[trial], FEW_WAYS).is_none()
}

// ---- many rows

// An experiment of so many steps that measures nothing.
fn steps(alloc: Global, count: u64) -> Result<String, NoMemory> {
    Ok(format!(in alloc;
        "name = \"x\"\nsetup = \"\"\ngo = \"\"\nsteps = {count}\nevery-step = true\n"
    )?)
}

// A row for each of so many steps and for what stands before the first.
fn rows(alloc: Global, count: u64) -> Result<String, NoMemory> {
    let mut lines = String::new(alloc);
    for step in 0..count {
        let line = format!(in alloc; "\"1\",\"{step}\",\"\"\n")?;
        lines.push_str(line.as_str())?;
    }
    let last = format!(in alloc; "\"1\",\"{count}\",\"steps\"\n")?;
    lines.push_str(last.as_str())?;
    Ok(lines)
}

#[test]
fn a_run_has_many_rows(rt: HostRuntime) {
    let alloc = rt.alloc();
    assert!(rt; has_lines(alloc, steps(alloc, 200_000), rows(alloc, 200_000)));
}

// ---- many metrics

// An experiment of so many metrics.
fn metrics(alloc: Global, count: usize) -> Result<String, NoMemory> {
    let metrics = "\"1 + 1\", ".repeat(alloc, count)?;
    Ok(format!(in alloc;
        "name = \"x\"\nsetup = \"\"\ngo = \"\"\nsteps = 1\nmetrics = [{metrics}]\n"
    )?)
}

// The row of so many metrics.
fn cells(alloc: Global, count: usize) -> Result<String, NoMemory> {
    let cells = "\"2\",".repeat(alloc, count)?;
    Ok(format!(in alloc; "\"1\",\"1\",{cells}\"steps\"\n")?)
}

#[test]
fn a_run_has_many_metrics(rt: HostRuntime) {
    let alloc = rt.alloc();
    assert!(rt; has_lines(alloc, metrics(alloc, 2_000), cells(alloc, 2_000)));
}

// ---- long values

// An experiment of one setting, a list of so many numbers, that measures it.
fn setting(alloc: Global, count: usize) -> Result<String, NoMemory> {
    let numbers = "1 ".repeat(alloc, count)?;
    Ok(format!(in alloc;
        "name = \"x\"\nsetup = \"\"\ngo = \"\"\nsteps = 1\nmetrics = [\"length a\", \"a\"]\n\
[[vary]]\nname = \"a\"\nvalues = [\"[{numbers}]\"]\n"
    )?)
}

// The row of one setting, a list of so many numbers and one more.
fn set(alloc: Global, count: usize) -> Result<String, NoMemory> {
    let numbers = "1 ".repeat(alloc, count)?;
    let length = count.saturating_add(1);
    Ok(format!(in alloc; "\"1\",\"[{numbers}1]\",\"1\",\"{length}\",\"[{numbers}1]\",\"steps\"\n")?)
}

#[test]
fn a_run_has_long_settings(rt: HostRuntime) {
    let alloc = rt.alloc();
    assert!(rt; has_lines(alloc, setting(alloc, 20_000), set(alloc, 19_999)));
}

// ---- long texts

const TEXTS: &[Trial<'static>] = &[
    // The text of a metric may be long within its reporter.
    Trial {
        model: "",
        plan: "name = \"x\"\nsteps = 1\nsetup = \"\"\ngo = \"\"\nmetrics = [\"length (word range 30000)\"]\n",
        number: 1,
        lines: "\"1\",\"1\",\"168891\",\"steps\"\n",
    },
];

#[test]
fn a_run_measures_long_texts(rt: HostRuntime) {
    let wrong = wrong_in(rt.alloc(), TEXTS, FEW_WAYS);
    assert!(rt; wrong.is_none(), "{wrong:?}");
}

// ---- many turtles

const CROWD: &[Trial<'static>] = &[
    // Two hundred thousand turtles ask four times who else stands on their patch. A store that looks at each turtle for each of these
    // 800,000 questions doesn't come to an end in the time of a test.
    Trial {
        model: "",
        plan: "name = \"x\"\nseed = 42\nsteps = 4\nbudget = 3600009\n\
setup = \"cro 200000 [ setxy random-xcor random-ycor ]\"\n\
go = \"ask turtles [ if any? other turtles-here [ fd 1 ] ]\"\nmetrics = [\"count turtles\"]\n\
[world]\nmin-pxcor = -250\nmax-pxcor = 250\nmin-pycor = -250\nmax-pycor = 250\n",
        number: 1,
        lines: "\"1\",\"4\",\"200000\",\"steps\"\n",
    },
];

#[test]
fn a_crowd_asks_who_stands_beside_each_of_it(rt: HostRuntime) {
    let wrong = wrong_over::<Indexed>(rt.alloc(), CROWD, &[Way::Whole]);
    assert!(rt; wrong.is_none(), "{wrong:?}");
}
