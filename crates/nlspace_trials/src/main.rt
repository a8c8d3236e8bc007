//! Models and experiments with what the program shall answer to them, as data: each is run over files in memory, and its answer is compared with the one that stands
//! beside it. Each word that this program is given names a file of trials; `docs/TRIALS.md` says what such a file has.
#![tactic(auto)]

mod calls;
mod changes;
mod cuts;
mod faults;
mod places;
mod report;
mod texts;
mod trials;
mod values;

use crate::report::Report;
use crate::trials::try_document;
use nl_outer::{Files, HostFiles, HostOut, Sink};
use std::alloc::Global;
use std::process::ExitCode;
use std::{env, rt};
use toml::Table;

/// A file of trials of more bytes isn't read whole.
const FILE_LIMIT: u64 = 1_000_000;

// The document that a file of trials is.
fn document<R: rt::Files>(
    alloc: Global,
    files: &mut HostFiles<'_, R>,
    path: &str,
) -> Option<Table> {
    let bytes = files.read_file(alloc, path, FILE_LIMIT).ok()?;
    let text = str::from_utf8(bytes.as_slice()).ok()?;
    toml::table_from_str(alloc, text).ok()
}

// The report on a file of trials, with a last line where it can't be read to its end.
fn report_on<R: rt::Files>(alloc: Global, files: &mut HostFiles<'_, R>, path: &str) -> Report {
    let mut report = Report::new(alloc);
    let tried = match document(alloc, files, path) {
        Some(document) => try_document(&mut report, path, &document),
        None => None,
    };
    if tried.is_none() {
        report.give_up(path);
    }
    report
}

fn main(rt: HostRuntime) -> ExitCode {
    let mut files = HostFiles::new(&rt);
    let mut out = HostOut::new(rt.stdout());
    let Ok(words) = env::args(&rt) else {
        return ExitCode::FAILURE;
    };
    for word in words.skip(1) {
        let report = report_on(rt.alloc(), &mut files, word.as_str());
        if out.put(report.lines()).is_err() {
            return ExitCode::FAILURE;
        }
    }
    ExitCode::SUCCESS
}
