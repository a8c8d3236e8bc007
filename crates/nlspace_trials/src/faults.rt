//! Models, and texts of experiments, with their first faults.

use crate::calls::{Call, empty_call};
use crate::report::{Answer, Report};
use crate::values::{items_at, text_at, text_in};
use std::alloc::Global;
use toml::{Table, Value};

/// In rows of faults: the model has none.
pub const FAULTLESS: &str = "none";

/// An experiment beside which every model is judged by itself.
const BARE: &str = "name = \"x\"\nsetup = \"\"\ngo = \"\"\n";

/// The words of a check.
const CHECK: [&str; 3] = ["check", "m.nlogo", "e.toml"];

/// How many bytes a sink of a check has room for.
const ROOM: usize = 10_000;

// Makes it a check of a model beside an experiment.
fn fill(alloc: Global, call: &mut Call, files: (&str, &str)) -> Option<()> {
    for word in &CHECK {
        call.words.push(alloc, *word).ok()?;
    }
    let (model, experiment) = files;
    call.add_at(alloc, 1, model.as_bytes())?;
    call.add_at(alloc, 2, experiment.as_bytes())
}

// Tries a check, and tells of it by this text.
fn try_check(
    report: &mut Report,
    case: &str,
    files: (&str, &str),
    wanted: Answer<'_>,
) -> Option<()> {
    let alloc = report.alloc;
    let mut call = empty_call(alloc, ROOM)?;
    fill(alloc, &mut call, files)?;
    let found = call.answer(alloc);
    report.compare(case, wanted, found)
}

// The answer to a check of one run: this status and line, or none of them where there is no fault.
fn answer_of<'a>(status: u64, fault: &str, line: &'a [u8]) -> Answer<'a> {
    if fault == FAULTLESS {
        Answer {
            status: 0,
            out: b"ok 1\n",
            err: b"",
        }
    } else {
        Answer {
            status,
            out: b"",
            err: line,
        }
    }
}

/// A model that has this fault, as `1:10: UnknownName`, or none.
pub fn try_model(report: &mut Report, model: &str, fault: &str) -> Option<()> {
    let line = format!(in report.alloc; "m.nlogo:{fault}\n").ok()?;
    let wanted = answer_of(2, fault, line.as_bytes());
    try_check(report, model, (model, BARE), wanted)
}

/// A model whose fault is of this kind and stands at the mark `~`, or which has none (then the mark says nothing). The mark belongs to the row and not to the model.
pub fn try_marked(report: &mut Report, marked: &str, kind: &str) -> Option<()> {
    let (front, rest) = marked.split_once('~')?;
    let model = format!(in report.alloc; "{front}{rest}").ok()?;
    if kind == FAULTLESS {
        return try_model(report, model.as_str(), kind);
    }
    let (line, column) = place_behind(front);
    let fault = format!(in report.alloc; "{line}:{column}: {kind}").ok()?;
    try_model(report, model.as_str(), fault.as_str())
}

// Line and column of what stands behind a text.
fn place_behind(text: &str) -> (usize, usize) {
    let mut line = 1usize;
    let mut column = 1usize;
    for byte in text.bytes() {
        if byte == b'\n' {
            line = line.saturating_add(1);
            column = 1;
        } else {
            column = column.saturating_add(1);
        }
    }
    (line, column)
}

/// Marked models with the kinds of their faults, also with each of the fillings for `@`.
pub fn try_faults(report: &mut Report, trial: &Table) -> Option<()> {
    let rows = items_at(trial, "faults");
    let fillings = items_at(trial, "fillings");
    if fillings.is_empty() {
        return try_rows(report, rows, "");
    }
    for filling in fillings {
        try_rows(report, rows, filling.as_str()?)?;
    }
    Some(())
}

fn try_rows(report: &mut Report, rows: &[Value], filling: &str) -> Option<()> {
    for row in rows {
        try_row(report, row, filling)?;
    }
    Some(())
}

fn try_row(report: &mut Report, row: &Value, filling: &str) -> Option<()> {
    let marked = text_in(row, 0)?.replace(report.alloc, '@', filling).ok()?;
    try_marked(report, marked.as_str(), text_in(row, 1)?)
}

/// Marked texts of an experiment with the kinds of their faults. A text stands for `@` there, and its fault is told with the key of the trial.
pub fn try_texts(report: &mut Report, trial: &Table) -> Option<()> {
    for row in items_at(trial, "texts") {
        try_text(report, trial, text_in(row, 0)?, text_in(row, 1)?)?;
    }
    Some(())
}

fn try_text(report: &mut Report, trial: &Table, marked: &str, kind: &str) -> Option<()> {
    let alloc = report.alloc;
    let (front, rest) = marked.split_once('~')?;
    let (key, model) = (text_at(trial, "key")?, text_at(trial, "model")?);
    let around = text_at(trial, "experiment")?;
    let line = line_of(alloc, key, kind, front)?;
    let text = format!(in alloc; "{front}{rest}").ok()?;
    let experiment = around.replace(alloc, '@', text.as_str()).ok()?;
    let files = (model, experiment.as_str());
    let wanted = answer_of(3, kind, line.as_bytes());
    try_check(report, text.as_str(), files, wanted)
}

// What is told of a text with a fault behind its front.
fn line_of(alloc: Global, key: &str, kind: &str, front: &str) -> Option<String> {
    let (line, column) = place_behind(front);
    format!(in alloc; "e.toml: {key}: BadText {kind} {line}:{column}\n").ok()
}
