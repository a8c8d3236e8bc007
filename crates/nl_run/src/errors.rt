//! The texts of errors: what went wrong, and where.
ghost use Rattle.std.specs.Prelude.{◌≡◌, ◌<◌, ◌+◌, ◌^◌, IfOk, string_bytes};
ghost use Rattle.nl_run.specs.Course as spec;
ghost use Rattle.nl_run.specs.Calls.{called_name};
ghost use Rattle.nl_run.specs.Plans.{job_in};
ghost use Rattle.nl_scan.specs.Tokens.{tokens_of};
ghost use Rattle.nl_run.specs.Rows as rows;

use crate::plan::Plan;
use nl_exec_acts::ErrorKind;
use nl_fixed::{NoMemory, Str};
use nl_scan::{ScanRefusal, Source, line_column, scan};
use std::alloc::Global;

/// What a text of an experiment is called.
#[derive(Clone, Copy, PartialEq, Eq, Debug)]
pub enum Called {
    Setup,
    Go,
    Until,
    When,
    /// The metric of a number, counted from 1.
    Metric(usize),
}

// What a metric is called: its number counts from 1.
fn metric_name(alloc: Global, number: usize) -> Result<String, NoMemory>
    ensures { IfOk result (λ name. string_bytes name ≡ spec.metric_name number) }
{
    Ok(format!(in alloc; "metric {number}")?)
}

// What a text is called in the text of an error.
fn name_of(alloc: Global, called: Called) -> Result<Str, NoMemory>
    ensures { IfOk result (λ name. name ≡ called_name called) }
{
    match called {
        Called::Setup => Str::of(alloc, b"setup"),
        Called::Go => Str::of(alloc, b"go"),
        Called::Until => Str::of(alloc, b"until"),
        Called::When => Str::of(alloc, b"measure-when"),
        Called::Metric(number) => {
            let name = metric_name(alloc, number)?;
            Str::of(alloc, name.as_bytes())
        }
    }
}

// The name of a kind of error.
fn kind_name(kind: ErrorKind) -> &'static [u8]
    ensures { result.now ≡ rows.kind_name kind }
{
    match kind {
        ErrorKind::WrongType => b"WrongType",
        ErrorKind::Overflow => b"Overflow",
        ErrorKind::ZeroDivide => b"ZeroDivide",
        ErrorKind::Domain => b"Domain",
        ErrorKind::NoAgent => b"NoAgent",
        ErrorKind::NoVariable => b"NoVariable",
        ErrorKind::WrongContext => b"WrongContext",
        ErrorKind::OutOfList => b"OutOfList",
        ErrorKind::OutOfWorld => b"OutOfWorld",
        ErrorKind::SamePoint => b"SamePoint",
        ErrorKind::TicksOff => b"TicksOff",
        ErrorKind::TooFew => b"TooFew",
        ErrorKind::LinkFault => b"LinkFault",
        ErrorKind::TooLarge => b"TooLarge",
        ErrorKind::TooMany => b"TooMany",
        ErrorKind::TooNested => b"TooNested",
        ErrorKind::NoReport => b"NoReport",
    }
}

// The text of an error at a line and a column of a place.
fn error_text(alloc: Global, kind: ErrorKind, place: &[u8], at: (u64, u64)) -> Result<Str, NoMemory>
    ensures { IfOk result (λ text. text ≡ rows.error_text kind place.now at) }
{
    let line = at.0.to_string(alloc)?;
    let column = at.1.to_string(alloc)?;
    let mut text = Str::of(alloc, b"error ")?;
    text.append(alloc, kind_name(kind))?;
    text.append(alloc, b" ")?;
    text.append(alloc, place)?;
    text.append(alloc, b":")?;
    text.append(alloc, line.as_bytes())?;
    text.append(alloc, b":")?;
    text.append(alloc, column.as_bytes())?;
    Ok(text)
}

// The place of the first word of a text.
fn first_place(alloc: Global, text: &[u8]) -> Result<u32, NoMemory>
    ensures { IfOk result (λ place. place ≡ spec.place_by text.now (tokens_of text.now)) }
{
    match scan(alloc, text) {
        Ok(tokens) => Ok(Source::new(text, tokens.as_slice()).start_of(0)),
        Err(ScanRefusal::Fault { .. }) => Ok(0),
        Err(ScanRefusal::NoMemory) => Err(NoMemory),
    }
}

/// The text of an error of a text at a byte of a body: body 0 is the text itself, and the others are those of procedures, which are in the
/// model's code.
pub fn fault_at(
    alloc: Global,
    plan: &Plan<'_>,
    called: Called,
    text: &[u8],
    kind: ErrorKind,
    place: u32,
    body: u64,
) -> Result<Str, NoMemory>
    ensures { IfOk result (λ fault.
        fault ≡ spec.fault_by (job_in plan.now) (called_name called) text.now kind place body) }
{
    if body == 0 {
        let name = name_of(alloc, called)?;
        return error_text(alloc, kind, name.as_bytes(), line_column(text, place));
    }
    error_text(alloc, kind, b"model", line_column(plan.source(), place))
}

/// The text of an error that stands at the first word of a text.
pub fn fault_at_first(
    alloc: Global,
    plan: &Plan<'_>,
    called: Called,
    text: &[u8],
    kind: ErrorKind,
) -> Result<Str, NoMemory>
    ensures { IfOk result (λ fault.
        fault ≡ spec.first_fault (job_in plan.now) (called_name called) text.now kind) }
{
    let place = first_place(alloc, text)?;
    fault_at(alloc, plan, called, text, kind, place, 0)
}
