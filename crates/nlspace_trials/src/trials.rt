//! The trials of a file, and calls that are written whole.

use crate::calls::{Call, empty_call};
use crate::changes::try_exchanges;
use crate::cuts::try_cuts;
use crate::faults::{try_faults, try_texts};
use crate::places::try_places;
use crate::report::{Answer, Report};
use crate::texts::bytes_at;
use crate::values::{items, items_at, number, number_at, text_at};
use nl_cli::Status;
use std::alloc::Global;
use toml::{Table, Value};

/// How many bytes a sink of a call has room for.
const ROOM: usize = 4_000_000;

/// Tries all that a file has; none where it can't be read on.
pub fn try_document(report: &mut Report, file: &str, document: &Table) -> Option<()> {
    for value in items_at(document, "trial") {
        let trial = value.as_table()?;
        try_one(report, document, trial)?;
        report.end(file, text_at(trial, "name")?)?;
    }
    Some(())
}

// Which kind a trial is of is told by the key of its rows.
fn try_one(report: &mut Report, document: &Table, trial: &Table) -> Option<()> {
    if trial.contains_key("faults") {
        try_faults(report, trial)
    } else if trial.contains_key("texts") {
        try_texts(report, trial)
    } else if trial.contains_key("places") {
        try_places(report, trial)
    } else if trial.contains_key("exchanges") {
        try_exchanges(report, text_at(document, "model")?, trial)
    } else if trial.contains_key("cuts") {
        try_cuts(report, items_at(trial, "cuts"))
    } else if trial.contains_key("codes") {
        try_codes(report, items_at(trial, "codes"))
    } else if trial.contains_key("commands") {
        try_calls(report, trial, items_at(trial, "commands"))
    } else {
        try_calls(report, trial, items_at(document, "commands"))
    }
}

// Each command gives what the trial says.
fn try_calls(report: &mut Report, trial: &Table, commands: &[Value]) -> Option<()> {
    for words in commands {
        try_call(report, trial, items(words)?)?;
    }
    Some(())
}

fn try_call(report: &mut Report, trial: &Table, words: &[Value]) -> Option<()> {
    let alloc = report.alloc;
    let mut call = empty_call(alloc, ROOM)?;
    fill(alloc, &mut call, trial, words)?;
    let found = call.answer(alloc);
    compare_with(report, trial, found)
}

// Compares an answer with that which the trial says.
fn compare_with(report: &mut Report, trial: &Table, found: Answer<'_>) -> Option<()> {
    let name = text_at(trial, "name")?;
    let out = bytes_at(report.alloc, trial, "out")?;
    let err = bytes_at(report.alloc, trial, "err")?;
    let wanted = Answer {
        status: number_at(trial, "status").unwrap_or(0),
        out: out.as_slice(),
        err: err.as_slice(),
    };
    let shown = shown(found, out.len(), number_at(trial, "bytes"));
    report.compare(name, wanted, shown)
}

// Of an output of as many bytes as a trial says that it has, only the end is compared.
fn shown(found: Answer<'_>, len: usize, all: Option<u64>) -> Answer<'_> {
    if all != Some(found.out.len() as u64) {
        return found;
    }
    let out = &found.out[found.out.len().saturating_sub(len)..];
    Answer { out, ..found }
}

// Makes it the call of these words, with the files and the faults that the trial says.
fn fill(alloc: Global, call: &mut Call, trial: &Table, words: &[Value]) -> Option<()> {
    for word in words {
        call.push(alloc, word)?;
    }
    add_file(alloc, call, trial, ("model", 1))?;
    add_file(alloc, call, trial, ("experiment", 2))?;
    add_faults(alloc, call, trial)
}

fn add_file(alloc: Global, call: &mut Call, trial: &Table, file: (&str, usize)) -> Option<()> {
    let (key, index) = file;
    if !trial.contains_key(key) {
        return Some(());
    }
    let bytes = bytes_at(alloc, trial, key)?;
    call.add_at(alloc, index, bytes.as_slice())
}

// The read, the put and the line that are to fail: their number, and of a put and a line also how many bytes are kept.
fn add_faults(alloc: Global, call: &mut Call, trial: &Table) -> Option<()> {
    if let Some(read) = number_at(trial, "failing-read") {
        call.files.fail_call(alloc, read).ok()?;
    }
    if let [put, kept] = items_at(trial, "failing-put") {
        call.out.fail_call(alloc, number(put)?, number(kept)?).ok()?;
    }
    if let [put, kept] = items_at(trial, "failing-line") {
        call.err.fail_call(alloc, number(put)?, number(kept)?).ok()?;
    }
    Some(())
}

const STATUSES: [Status; 8] = [
    Status::Done,
    Status::Usage,
    Status::Model,
    Status::Plan,
    Status::Read,
    Status::Write,
    Status::Memory,
    Status::NotPartial,
];

// Each status has the code of its place.
fn try_codes(report: &mut Report, codes: &[Value]) -> Option<()> {
    for (status, code) in STATUSES.iter().zip(codes.iter()) {
        report.compare(
            "a status",
            code_alone(number(code)?),
            code_alone(u64::from(status.code())),
        )?;
    }
    Some(())
}

fn code_alone(status: u64) -> Answer<'static> {
    Answer {
        status,
        out: b"",
        err: b"",
    }
}
