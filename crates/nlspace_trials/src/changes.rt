//! A model of which a part is exchanged.

use crate::faults::try_model;
use crate::report::Report;
use crate::values::{items_at, text_in};
use toml::{Table, Value};

/// Each row is a part of the model that stands in it once, what stands there instead, and the fault of the model that this makes.
pub fn try_exchanges(report: &mut Report, model: &str, trial: &Table) -> Option<()> {
    for row in items_at(trial, "exchanges") {
        try_exchange(report, model, row)?;
    }
    Some(())
}

fn try_exchange(report: &mut Report, model: &str, row: &Value) -> Option<()> {
    let old = text_in(row, 0)?;
    let new = text_in(row, 1)?;
    let fault = text_in(row, 2)?;
    let (front, rest) = model.split_once(old)?;
    if rest.find(old).is_some() {
        return None;
    }
    let text = format!(in report.alloc; "{front}{new}{rest}").ok()?;
    try_model(report, text.as_str(), fault)
}
