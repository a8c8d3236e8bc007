//! A model of which a body is cut short.

use crate::faults::{FAULTLESS, try_marked};
use crate::report::Report;
use crate::values::text_in;
use toml::Value;

/// Each part of the model is a text without a body, and the body that follows it. In a body `|` stands before each token before which it may end, and `~` before each other
/// one; neither mark belongs to the model. A body ends at each mark in turn.
pub fn try_cuts(report: &mut Report, parts: &[Value]) -> Option<()> {
    for (body, part) in parts.iter().enumerate() {
        try_body(report, parts, body, text_in(part, 1)?)?;
    }
    Some(())
}

fn try_body(report: &mut Report, parts: &[Value], body: usize, marked: &str) -> Option<()> {
    for (at, mark) in marked.bytes().enumerate() {
        if mark == b'|' || mark == b'~' {
            try_cut(report, parts, (body, at), mark == b'|')?;
        }
    }
    Some(())
}

// Where the body may end there, the model has no fault; else the `end` behind it is unexpected.
fn try_cut(report: &mut Report, parts: &[Value], cut: (usize, usize), good: bool) -> Option<()> {
    let mut text = String::new(report.alloc);
    push_parts(&mut text, parts, cut)?;
    let kind = if good { FAULTLESS } else { "Unexpected" };
    try_marked(report, text.as_str(), kind)
}

// The model, of which one body ends before a byte of it: the rest of that body is left out.
fn push_parts(text: &mut String, parts: &[Value], cut: (usize, usize)) -> Option<()> {
    let (body, most) = cut;
    for (place, part) in parts.iter().enumerate() {
        text.push_str(text_in(part, 0)?).ok()?;
        push_body(text, text_in(part, 1)?, (place == body).then_some(most))?;
    }
    Some(())
}

// A body. Where it is cut, a mark stands in front of what follows, which goes on with an `end`.
fn push_body(text: &mut String, marked: &str, cut: Option<usize>) -> Option<()> {
    match cut {
        Some(most) => {
            push_unmarked(text, marked, most)?;
            text.push_str(" ~").ok()
        }
        None => push_unmarked(text, marked, usize::MAX),
    }
}

// The first characters of a marked text, so many of them, without marks.
fn push_unmarked(text: &mut String, marked: &str, most: usize) -> Option<()> {
    for character in marked.chars().take(most) {
        if character != '|' && character != '~' {
            text.push(character).ok()?;
        }
    }
    Some(())
}
