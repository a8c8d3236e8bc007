//! Words at places of a body, and who may run them there.

use crate::faults::{FAULTLESS, try_marked};
use crate::report::Report;
use crate::values::{items_at, text_at, text_in, text_or_empty};
use toml::{Table, Value};

/// Each word at each place, with each filling. A place is the body of a procedure, in which a filling stands for `@` and a word for `#`. Fillings and words have letters: where
/// they share one, the word has no fault, or that which its row says; else it has the fault of the trial.
pub fn try_places(report: &mut Report, trial: &Table) -> Option<()> {
    for place in items_at(trial, "places") {
        try_fillings(report, trial, place.as_str()?)?;
    }
    Some(())
}

fn try_fillings(report: &mut Report, trial: &Table, place: &str) -> Option<()> {
    for filling in items_at(trial, "fillings") {
        try_filling(report, trial, place, filling)?;
    }
    Some(())
}

fn try_filling(report: &mut Report, trial: &Table, place: &str, filling: &Value) -> Option<()> {
    let letters = text_in(filling, 1)?;
    let body = place.replace(report.alloc, '@', text_in(filling, 0)?).ok()?;
    try_words(report, trial, body.as_str(), letters)
}

fn try_words(report: &mut Report, trial: &Table, body: &str, letters: &str) -> Option<()> {
    for word in items_at(trial, "words") {
        let kind = if is_any_among(text_in(word, 1)?, letters) {
            text_in(word, 2).unwrap_or(FAULTLESS)
        } else {
            text_at(trial, "fault")?
        };
        try_word(report, trial, body, text_in(word, 0)?, kind)?;
    }
    Some(())
}

fn try_word(report: &mut Report, trial: &Table, body: &str, word: &str, kind: &str) -> Option<()> {
    let head = text_at(trial, "head")?;
    let declared = text_or_empty(trial, "declared");
    let (front, back) = body.split_once('#')?;
    let marked = format!(in report.alloc; "{head} go {front}~{word}{back} end {declared}").ok()?;
    try_marked(report, marked.as_str(), kind)
}

// Whether one of these letters is one of the others.
fn is_any_among(letters: &str, others: &str) -> bool {
    letters
        .bytes()
        .any(|letter| others.bytes().any(|other| letter == other))
}
