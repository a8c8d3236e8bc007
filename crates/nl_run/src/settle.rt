//! What comes once a text has ended.
ghost use Rattle.std.specs.Prelude.{◌≡◌, ℕ, ◌+◌, ◌≤◌, ◌<◌, ◌*◌, ◌^◌, ◌++◌, ◌∷◌, [], Bool, Result, IsTrue, IfOk, length};
ghost use Rattle.nl_value.specs.Plain.{Plain};
ghost use Rattle.nl_value.specs.Views.{plain};
ghost use Rattle.nl_exec_acts.specs.declared.fail.ErrorKind.TheVariants.{WrongType};
ghost use Rattle.nl_exec_meaning.specs.Ground.{Ground, fits, ground_of};
ghost use Rattle.nl_exec.specs.Endings.{EndFits, end_seen};
ghost use Rattle.nl_exec.specs.Machines.{IsClosed, program_of, spent_of, world_of};
ghost use Rattle.nl_run.specs.Calls.{called_name};
ghost use Rattle.nl_run.specs.Course.{Finish, Standing, after_until, commands_by, ends_as, fails_at_first, metric_name, put_back, steps, truth_by, value_by, with_cell};
ghost use Rattle.nl_run.specs.Job.{Job};
ghost use Rattle.nl_run.specs.Left.{IsReady, SpendsNone, cells_from, moves, moves_behind, rest_by, settled, stands};
ghost use Rattle.nl_run.specs.Plans.{job_in, lone_seen};
ghost use Rattle.nl_run.specs.declared.phase.Open.TheVariants as open_;
ghost use Rattle.nl_run.specs.inner.Cells as spec;
ghost use Rattle.nl_run.specs.inner.Cells.{GivesValue, goes_or_ends, truth_or, value_or_ends};

use crate::errors::{Called, fault_at, fault_at_first};
use crate::measures::{cell_of, measure_on_the_way, measure_or_step, next_metric, regular_end};
use crate::phase::{Behind, Measuring, Phase, Regular};
use crate::plan::{LoneText, Plan};
use crate::progress::Progress;
use crate::rows::RunEnd;
use nl_agents::Store;
use nl_draw::Mark;
use nl_exec::End;
use nl_exec_acts::ErrorKind;
use nl_fixed::{Cells, NoMemory};
use nl_value::Value;
use std::alloc::Global;

// Whether commands were stopped, or how they end the run.
fn commands_end(
    alloc: Global,
    plan: &Plan<'_>,
    called: Called,
    text: LoneText<'_>,
    end: End,
) -> Result<Result<bool, RunEnd>, NoMemory>
    ensures { IfOk result (λ r. (s : Standing) (next : Bool → Standing → Finish) →
        goes_or_ends r s next
        ≡ commands_by (job_in plan.now) (called_name called) (lone_seen text.entry) (end_seen end) s next) }
{
    match end {
        End::Done | End::Reported(_) => Ok(Ok(false)),
        End::Stopped => Ok(Ok(true)),
        End::Budget => Ok(Err(RunEnd::Budget)),
        End::Error { kind, span, body } => {
            let fault = fault_at(
                alloc,
                plan,
                called,
                text.text.as_bytes(),
                kind,
                span.start,
                body,
            )?;
            Ok(Err(RunEnd::Error(fault)))
        }
    }
}

// The end of a run by an error at the first word of a text.
fn error_at_first(
    alloc: Global,
    plan: &Plan<'_>,
    called: Called,
    text: LoneText<'_>,
    kind: ErrorKind,
) -> Result<RunEnd, NoMemory>
    ensures { IfOk result (λ end. (s : Standing) →
        ends_as end s
        ≡ fails_at_first (job_in plan.now) (called_name called) (lone_seen text.entry) kind s) }
{
    let fault = fault_at_first(alloc, plan, called, text.text.as_bytes(), kind)?;
    Ok(RunEnd::Error(fault))
}

// A reporter without a value ends the run.
fn no_value(
    alloc: Global,
    plan: &Plan<'_>,
    called: Called,
    text: LoneText<'_>,
) -> Result<Result<Value, RunEnd>, NoMemory>
    ensures value { IfOk result (λ r. (s : Standing) (next : Plain → Standing → Finish) →
        value_or_ends r s next
        ≡ fails_at_first (job_in plan.now) (called_name called) (lone_seen text.entry) WrongType s) }
    ensures fits { IfOk result (λ r. (g : Ground) → GivesValue g r) }
{
    let end = error_at_first(alloc, plan, called, text, ErrorKind::WrongType)?;
    Ok(Err(end))
}

// The value of a reporter, or how it ends the run.
fn value_end(
    alloc: Global,
    plan: &Plan<'_>,
    called: Called,
    text: LoneText<'_>,
    end: End,
) -> Result<Result<Value, RunEnd>, NoMemory>
    ensures value { IfOk result (λ r. (s : Standing) (next : Plain → Standing → Finish) →
        value_or_ends r s next
        ≡ value_by (job_in plan.now) (called_name called) (lone_seen text.entry) (end_seen end) s next) }
    ensures fits { IfOk result (λ r. (g : Ground) → EndFits g end → GivesValue g r) }
{
    match end {
        End::Reported(value) => Ok(Ok(value)),
        End::Done => no_value(alloc, plan, called, text),
        End::Stopped => no_value(alloc, plan, called, text),
        End::Budget => Ok(Err(RunEnd::Budget)),
        End::Error { kind, span, body } => {
            let fault = fault_at(
                alloc,
                plan,
                called,
                text.text.as_bytes(),
                kind,
                span.start,
                body,
            )?;
            Ok(Err(RunEnd::Error(fault)))
        }
    }
}

/// What comes behind the setup text. A `stop` ends that text alone.
pub fn settle_setup<'a, S: Store>(
    alloc: Global,
    plan: &Plan<'a>,
    progress: &mut Progress<'a, S>,
    end: End,
) -> Result<Phase<'a>, NoMemory>
    requires closed { IsClosed progress.old.machine }
    requires program { program_of progress.old.machine ≡ (job_in plan.now).program }
    requires steps { progress.old.step ≤ progress.old.begun }
    requires begun { progress.old.begun ≤ spent_of progress.old.machine }
    ensures rest { IfOk result (λ phase. (n : ℕ) →
        rest_by phase (job_in plan.now) progress.new n
        ≡ settled open_.Setup (job_in plan.now) (end_seen end) (stands progress.old n)) }
    ensures ready { IfOk result (λ phase. IsReady phase (job_in plan.now) progress.new) }
    ensures units { SpendsNone progress.new progress.old }
    ensures moves { IfOk result (λ phase.
        moves (length (job_in plan.now).metrics) phase < 2 * length (job_in plan.now).metrics + 7) }
{
    match commands_end(alloc, plan, Called::Setup, plan.setup(), end)? {
        Err(how) => Ok(Phase::Over(how)),
        Ok(_) => measure_on_the_way(alloc, plan, progress),
    }
}

/// What comes behind the text of a step: the step counts where it wasn't stopped.
pub fn settle_go<'a, S: Store>(
    alloc: Global,
    plan: &Plan<'a>,
    progress: &mut Progress<'a, S>,
    end: End,
) -> Result<Phase<'a>, NoMemory>
    requires closed { IsClosed progress.old.machine }
    requires program { program_of progress.old.machine ≡ (job_in plan.now).program }
    requires steps { progress.old.step < progress.old.begun }
    requires begun { progress.old.begun ≤ spent_of progress.old.machine }
    ensures rest { IfOk result (λ phase. (n : ℕ) →
        rest_by phase (job_in plan.now) progress.new n
        ≡ settled open_.Go (job_in plan.now) (end_seen end) (stands progress.old n)) }
    ensures ready { IfOk result (λ phase. IsReady phase (job_in plan.now) progress.new) }
    ensures units { SpendsNone progress.new progress.old }
    ensures moves { IfOk result (λ phase.
        moves (length (job_in plan.now).metrics) phase < 2 * length (job_in plan.now).metrics + 7) }
{
    match commands_end(alloc, plan, Called::Go, plan.go(), end)? {
        Err(how) => Ok(Phase::Over(how)),
        Ok(true) => regular_end(alloc, plan, progress, Regular::Stop),
        Ok(false) => {
            // What the sum rests on: each step has spent a unit.
            let _begun = progress.begun;
            progress.step += 1;
            measure_on_the_way(alloc, plan, progress)
        }
    }
}

// The truth that a value is.
fn truth_in(value: &Value) -> Option<bool>
    ensures { result ≡ spec.truth_in (plain value.now) }
{
    match value {
        Value::Truth(truth) => Some(*truth),
        _ => None,
    }
}

// What comes by the truth of the value of a condition: that truth, or how it ends the run.
fn judge(
    alloc: Global,
    plan: &Plan<'_>,
    called: Called,
    text: LoneText<'_>,
    truth: Option<bool>,
) -> Result<Result<bool, RunEnd>, NoMemory>
    ensures { IfOk result (λ r. (s : Standing) (next : Bool → Standing → Finish) →
        goes_or_ends r s next
        ≡ truth_or truth (job_in plan.now) (called_name called) (lone_seen text.entry) s next) }
{
    match truth {
        Some(truth) => Ok(Ok(truth)),
        None => {
            let end = error_at_first(alloc, plan, called, text, ErrorKind::WrongType)?;
            Ok(Err(end))
        }
    }
}

// Whether a condition is true, or how it ends the run. What comes next does so where the stream is put back to a mark.
fn truth_end(
    alloc: Global,
    plan: &Plan<'_>,
    called: Called,
    text: LoneText<'_>,
    end: End,
) -> Result<Result<bool, RunEnd>, NoMemory>
    ensures { IfOk result (λ r. (mark : ℕ) (s : Standing) (next : Bool → Standing → Finish) →
        goes_or_ends r (put_back mark s) next
        ≡ value_by (job_in plan.now) (called_name called) (lone_seen text.entry) (end_seen end) s (λ v s1.
        truth_by (job_in plan.now) (called_name called) (lone_seen text.entry) v (put_back mark s1) next)) }
{
    match value_end(alloc, plan, called, text, end)? {
        Err(how) => Ok(Err(how)),
        Ok(value) => {
            let judged = judge(alloc, plan, called, text, truth_in(&value))?;
            Ok(judged)
        }
    }
}

// What comes by the condition of the end: the end, or a step.
fn end_or_step<'a, S: Store>(
    alloc: Global,
    plan: &Plan<'a>,
    progress: &mut Progress<'a, S>,
    met: bool,
) -> Result<Phase<'a>, NoMemory>
    requires closed { IsClosed progress.old.machine }
    requires program { program_of progress.old.machine ≡ (job_in plan.now).program }
    requires steps { progress.old.step ≤ progress.old.begun }
    requires begun { progress.old.begun ≤ spent_of progress.old.machine }
    ensures rest { IfOk result (λ phase. (n : ℕ) →
        rest_by phase (job_in plan.now) progress.new n
        ≡ after_until (job_in plan.now) (steps (job_in plan.now)) met (stands progress.old n)) }
    ensures ready { IfOk result (λ phase. IsReady phase (job_in plan.now) progress.new) }
    ensures units { SpendsNone progress.new progress.old }
    ensures moves { IfOk result (λ phase.
        moves (length (job_in plan.now).metrics) phase < length (job_in plan.now).metrics + 3) }
{
    if met {
        regular_end(alloc, plan, progress, Regular::Condition)
    } else {
        Ok(Phase::Wanting)
    }
}

/// What comes behind the condition of the end.
pub fn settle_until<'a, S: Store>(
    alloc: Global,
    plan: &Plan<'a>,
    progress: &mut Progress<'a, S>,
    until: LoneText<'a>,
    before: Mark,
    end: End,
) -> Result<Phase<'a>, NoMemory>
    requires closed { IsClosed progress.old.machine }
    requires program { program_of progress.old.machine ≡ (job_in plan.now).program }
    requires steps { progress.old.step ≤ progress.old.begun }
    requires begun { progress.old.begun ≤ spent_of progress.old.machine }
    ensures rest { IfOk result (λ phase. (n : ℕ) →
        rest_by phase (job_in plan.now) progress.new n
        ≡ settled (open_.Until until.entry before) (job_in plan.now) (end_seen end) (stands progress.old n)) }
    ensures ready { IfOk result (λ phase. IsReady phase (job_in plan.now) progress.new) }
    ensures units { SpendsNone progress.new progress.old }
    ensures moves { IfOk result (λ phase.
        moves (length (job_in plan.now).metrics) phase < length (job_in plan.now).metrics + 3) }
{
    match truth_end(alloc, plan, Called::Until, until, end)? {
        Err(how) => Ok(Phase::Over(how)),
        Ok(met) => {
            progress.machine.put_back(before);
            let phase = end_or_step(alloc, plan, progress, met)?;
            Ok(phase)
        }
    }
}

/// What comes behind the condition of the measures.
pub fn settle_when<'a, S: Store>(
    alloc: Global,
    plan: &Plan<'a>,
    progress: &mut Progress<'a, S>,
    when: LoneText<'a>,
    asked_at: Mark,
    end: End,
) -> Result<Phase<'a>, NoMemory>
    requires closed { IsClosed progress.old.machine }
    requires program { program_of progress.old.machine ≡ (job_in plan.now).program }
    requires steps { progress.old.step ≤ progress.old.begun }
    requires begun { progress.old.begun ≤ spent_of progress.old.machine }
    ensures rest { IfOk result (λ phase. (n : ℕ) →
        rest_by phase (job_in plan.now) progress.new n
        ≡ settled (open_.When when.entry asked_at) (job_in plan.now) (end_seen end) (stands progress.old n)) }
    ensures ready { IfOk result (λ phase. IsReady phase (job_in plan.now) progress.new) }
    ensures units { SpendsNone progress.new progress.old }
    ensures moves { IfOk result (λ phase.
        moves (length (job_in plan.now).metrics) phase < 2 * length (job_in plan.now).metrics + 6) }
{
    match truth_end(alloc, plan, Called::When, when, end)? {
        Err(how) => Ok(Phase::Over(how)),
        Ok(truth) => {
            progress.machine.put_back(asked_at);
            let phase = measure_or_step(alloc, plan, progress, truth)?;
            Ok(phase)
        }
    }
}

// What comes by the value of a metric: the next one, where its text isn't too large.
fn take_cell<'a, S: Store>(
    alloc: Global,
    plan: &Plan<'a>,
    progress: &mut Progress<'a, S>,
    index: usize,
    metric: LoneText<'a>,
    mut cells: Cells,
    behind: Behind,
    value: &Value,
) -> Result<Phase<'a>, NoMemory>
    requires closed { IsClosed progress.old.machine }
    requires program { program_of progress.old.machine ≡ (job_in plan.now).program }
    requires steps { progress.old.step ≤ progress.old.begun }
    requires begun { progress.old.begun ≤ spent_of progress.old.machine }
    requires there { index < length (job_in plan.now).metrics }
    requires few { index + 1 < 2 ^ 64 }
    requires fits { IsTrue (fits (ground_of (world_of progress.old.machine).rest) (plain value.now)) }
    ensures rest { IfOk result (λ phase. (n : ℕ) →
        rest_by phase (job_in plan.now) progress.new n
        ≡ with_cell (job_in plan.now) (metric_name (index + 1)) (lone_seen metric.entry) (plain value.now)
        (stands progress.old n) (λ cell s. cells_from (job_in plan.now) (index + 1) (cells ++ cell ∷ []) behind s)) }
    ensures ready { IfOk result (λ phase. IsReady phase (job_in plan.now) progress.new) }
    ensures units { SpendsNone progress.new progress.old }
    ensures moves { IfOk result (λ phase.
        moves (length (job_in plan.now).metrics) phase
        < moves_behind (length (job_in plan.now).metrics) behind index) }
{
    match cell_of(alloc, &progress.machine, value)? {
        None => {
            let named = Called::Metric(index + 1);
            let end = error_at_first(alloc, plan, named, metric, ErrorKind::TooLarge)?;
            Ok(Phase::Over(end))
        }
        Some(cell) => {
            cells.push(alloc, cell)?;
            let phase = next_metric(alloc, plan, progress, index + 1, cells, behind)?;
            Ok(phase)
        }
    }
}

/// What comes behind a metric.
pub fn settle_metric<'a, S: Store>(
    alloc: Global,
    plan: &Plan<'a>,
    progress: &mut Progress<'a, S>,
    measuring: Measuring<'a>,
    end: End,
) -> Result<Phase<'a>, NoMemory>
    requires closed { IsClosed progress.old.machine }
    requires program { program_of progress.old.machine ≡ (job_in plan.now).program }
    requires steps { progress.old.step ≤ progress.old.begun }
    requires begun { progress.old.begun ≤ spent_of progress.old.machine }
    requires there { measuring.index < length (job_in plan.now).metrics }
    requires fits { EndFits (ground_of (world_of progress.old.machine).rest) end }
    ensures rest { IfOk result (λ phase. (n : ℕ) →
        rest_by phase (job_in plan.now) progress.new n
        ≡ settled (open_.Metric measuring.entry) (job_in plan.now) (end_seen end) (stands progress.old n)) }
    ensures ready { IfOk result (λ phase. IsReady phase (job_in plan.now) progress.new) }
    ensures units { SpendsNone progress.new progress.old }
    ensures moves { IfOk result (λ phase.
        moves (length (job_in plan.now).metrics) phase
        < moves_behind (length (job_in plan.now).metrics) measuring.entry.behind measuring.entry.index) }
{
    let Measuring {
        index,
        metric,
        cells,
        mark,
        behind,
    } = measuring;
    let called = Called::Metric(index + 1);
    match value_end(alloc, plan, called, metric, end)? {
        Err(how) => Ok(Phase::Over(how)),
        Ok(value) => {
            progress.machine.put_back(mark);
            let phase = take_cell(alloc, plan, progress, index, metric, cells, behind, &value)?;
            Ok(phase)
        }
    }
}
