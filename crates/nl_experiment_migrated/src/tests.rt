//! Documents in format 2, beside what they were.

use crate::migrated;
use nl_experiment::{PlanKind, PlanRefusal};
use std::alloc::Global;

// A document, and its text in format 2.
const DOCUMENTS: &[(&str, &str)] = &[
    ("name = \"x\"", "format = 2\nname = \"x\"\n"),
    (
        "# a comment\nname = 'x'\nformat = 1\n",
        "format = 2\nname = \"x\"\n",
    ),
    (
        "name = \"x\"\nevery-step = true",
        "format = 2\nmeasure-when = \"true\"\nname = \"x\"\n",
    ),
    (
        "name = \"x\"\nevery-step = false\nsteps = 3",
        "format = 2\nname = \"x\"\nsteps = 3\n",
    ),
    (
        "format = 2\nname = \"x\"\nmeasure-when = \"ticks = 1\"\ngo = 'cro 1'",
        "format = 2\ngo = \"cro 1\"\nmeasure-when = \"ticks = 1\"\nname = \"x\"\n",
    ),
    (
        "name = \"x\"\nmetrics = [ 'a', 'b' ]\nworld.wrap-x = false",
        "format = 2\nmetrics = [\"a\", \"b\"]\nname = \"x\"\n\n[world]\nwrap-x = false\n",
    ),
    (
        "name = \"x\"\nvary = [{ name = \"a\", values = [1, true] }]",
        "format = 2\nname = \"x\"\n\n[[vary]]\nname = \"a\"\nvalues = [1, true]\n",
    ),
];

fn is_text(alloc: Global, document: &[u8], text: &[u8]) -> bool {
    match migrated(alloc, document) {
        Ok(written) => written.as_bytes() == text,
        Err(_) => false,
    }
}

#[test]
fn documents_have_their_text(rt: HostRuntime) {
    let alloc = rt.alloc();
    for (document, text) in DOCUMENTS {
        assert!(rt; is_text(alloc, document.as_bytes(), text.as_bytes()));
        assert!(rt; is_text(alloc, text.as_bytes(), text.as_bytes()));
    }
}

// A document, and the first fault by which it is refused.
const FAULTS: &[(&str, PlanKind, &str)] = &[
    ("name =", PlanKind::NotToml, ""),
    ("seed = 1", PlanKind::MissingKey, "name"),
    ("name = \"x\"\nformat = 3", PlanKind::BadLiteral, "format"),
    (
        "name = \"x\"\nformat = 2\nevery-step = true",
        PlanKind::UnknownKey,
        "every-step",
    ),
    (
        "name = \"x\"\nmeasure-when = \"true\"",
        PlanKind::UnknownKey,
        "measure-when",
    ),
    (
        "name = \"x\"\nrepetitions = 100000\nvary = [{ name = \"a\", values = [1, 2] }]",
        PlanKind::TooManyRuns,
        "vary",
    ),
    (
        "name = \"x\"\nworld.min-pxcor = 1",
        PlanKind::BadWorld,
        "world",
    ),
];

fn is_refused(alloc: Global, document: &[u8], kind: PlanKind, key: &str) -> bool {
    match migrated(alloc, document) {
        Err(PlanRefusal::Fault(fault)) => {
            fault.kind == kind && fault.key.as_bytes() == key.as_bytes()
        }
        _ => false,
    }
}

#[test]
fn faults_of_the_file_are_told(rt: HostRuntime) {
    let alloc = rt.alloc();
    for (document, kind, key) in FAULTS {
        assert!(rt; is_refused(alloc, document.as_bytes(), *kind, key));
    }
}
