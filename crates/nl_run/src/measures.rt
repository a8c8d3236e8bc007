//! Metrics, and what comes behind them.
ghost use Rattle.std.specs.Prelude.{◌≡◌, ℕ, ◌+◌, ◌*◌, ◌≤◌, ◌<◌, ◌^◌, IsTrue, IfOk, false, length, []};
ghost use Rattle.nl_value.specs.Text.{text_of};
ghost use Rattle.nl_value.specs.Views.{plain};
ghost use Rattle.nl_agents.specs.Names.{living_of};
ghost use Rattle.nl_exec_meaning.specs.Ground.{fits, ground_of};
ghost use Rattle.nl_exec.specs.Machines.{IsClosed, program_of, spent_of, world_of};
ghost use Rattle.nl_run.specs.Course.{after_when, regular_end, steps, when};
ghost use Rattle.nl_run.specs.Job.{Job};
ghost use Rattle.nl_run.specs.Left.{IsReady, SpendsNone, behind_measure, cells_from, end_of, moves, moves_behind, rest_by, stands};
ghost use Rattle.nl_run.specs.Plans.{job_in};
ghost use Rattle.nl_run.specs.declared.phase.Behind.TheVariants.{Step, End};
ghost use Rattle.nl_run.specs.inner.Cells.{CellOf};

use crate::phase::{Behind, Measuring, Open, Phase, Regular};
use crate::plan::Plan;
use crate::progress::Progress;
use crate::rows::RunEnd;
use nl_agents::{Store, View};
use nl_exec::Machine;
use nl_fixed::{Cells, NoMemory, Str};
use nl_tree::Form;
use nl_value::Value;
use nl_value::texts::{TextFail, text};
use std::alloc::Global;

// The end of a run.
fn end_of(end: Regular) -> RunEnd
    ensures { result ≡ end_of end }
{
    match end {
        Regular::Steps => RunEnd::Steps,
        Regular::Condition => RunEnd::Condition,
        Regular::Stop => RunEnd::Stop,
    }
}

// What comes once the metrics are measured.
fn behind_measure<'a, S: Store>(behind: Behind, progress: &Progress<'_, S>) -> Phase<'a>
    ensures rest { (j : Job) (n : ℕ) →
        rest_by result j progress.now n ≡ behind_measure behind j (stands progress.now n) }
    ensures moves { (metrics index : ℕ) → moves metrics result ≤ moves_behind metrics behind index }
    ensures ready { (j : Job) → program_of progress.now.machine ≡ j.program
        → IsClosed progress.now.machine → progress.now.step ≤ progress.now.begun
        → progress.now.begun ≤ spent_of progress.now.machine → IsReady result j progress.now }
{
    match behind {
        Behind::Step => Phase::Step,
        Behind::End(end) => Phase::Over(end_of(end)),
    }
}

/// Begins the metric of an index; where there is none, the cells are a row.
pub fn next_metric<'a, S: Store>(
    alloc: Global,
    plan: &Plan<'a>,
    progress: &mut Progress<'a, S>,
    index: usize,
    cells: Cells,
    behind: Behind,
) -> Result<Phase<'a>, NoMemory>
    requires closed { IsClosed progress.old.machine }
    requires program { program_of progress.old.machine ≡ (job_in plan.now).program }
    requires steps { progress.old.step ≤ progress.old.begun }
    requires begun { progress.old.begun ≤ spent_of progress.old.machine }
    ensures rest { IfOk result (λ phase. (n : ℕ) →
        rest_by phase (job_in plan.now) progress.new n
        ≡ cells_from (job_in plan.now) index cells behind (stands progress.old n)) }
    ensures ready { IfOk result (λ phase. IsReady phase (job_in plan.now) progress.new) }
    ensures units { SpendsNone progress.new progress.old }
    ensures moves { IfOk result (λ phase.
        moves (length (job_in plan.now).metrics) phase
        ≤ moves_behind (length (job_in plan.now).metrics) behind index) }
{
    let Some(metric) = plan.metric(index) else {
        let row = plan.measure(alloc, progress.step, cells)?;
        progress.rows.push(alloc, row)?;
        return Ok(behind_measure(behind, progress));
    };
    let mark = progress.machine.mark();
    progress.open(alloc, metric, Form::Reporter)?;
    Ok(Phase::Text(Open::Metric(Measuring {
        index,
        metric,
        cells,
        mark,
        behind,
    })))
}

/// Measures before the next step, if the condition of the measures is true.
pub fn measure_or_step<'a, S: Store>(
    alloc: Global,
    plan: &Plan<'a>,
    progress: &mut Progress<'a, S>,
    truth: bool,
) -> Result<Phase<'a>, NoMemory>
    requires closed { IsClosed progress.old.machine }
    requires program { program_of progress.old.machine ≡ (job_in plan.now).program }
    requires steps { progress.old.step ≤ progress.old.begun }
    requires begun { progress.old.begun ≤ spent_of progress.old.machine }
    ensures rest { IfOk result (λ phase. (n : ℕ) →
        rest_by phase (job_in plan.now) progress.new n
        ≡ after_when (job_in plan.now) (steps (job_in plan.now)) truth (stands progress.old n)) }
    ensures ready { IfOk result (λ phase. IsReady phase (job_in plan.now) progress.new) }
    ensures units { SpendsNone progress.new progress.old }
    ensures moves { IfOk result (λ phase.
        moves (length (job_in plan.now).metrics) phase
        ≤ moves_behind (length (job_in plan.now).metrics) Step 0) }
{
    if truth {
        next_metric(alloc, plan, progress, 0, Cells::empty(alloc), Behind::Step)
    } else {
        Ok(Phase::Step)
    }
}

/// Sees whether the metrics are measured before the next step: begins the condition of the measures, if there is one.
pub fn measure_on_the_way<'a, S: Store>(
    alloc: Global,
    plan: &Plan<'a>,
    progress: &mut Progress<'a, S>,
) -> Result<Phase<'a>, NoMemory>
    requires closed { IsClosed progress.old.machine }
    requires program { program_of progress.old.machine ≡ (job_in plan.now).program }
    requires steps { progress.old.step ≤ progress.old.begun }
    requires begun { progress.old.begun ≤ spent_of progress.old.machine }
    ensures rest { IfOk result (λ phase. (n : ℕ) →
        rest_by phase (job_in plan.now) progress.new n
        ≡ when (job_in plan.now) (job_in plan.now).when (stands progress.old n) (steps (job_in plan.now))) }
    ensures ready { IfOk result (λ phase. IsReady phase (job_in plan.now) progress.new) }
    ensures units { SpendsNone progress.new progress.old }
    ensures moves { IfOk result (λ phase.
        moves (length (job_in plan.now).metrics) phase ≤ 2 * length (job_in plan.now).metrics + 6) }
{
    let Some(when) = plan.when() else {
        return Ok(Phase::Step);
    };
    let mark = progress.machine.mark();
    progress.open(alloc, when, Form::Reporter)?;
    Ok(Phase::Text(Open::When(when, mark)))
}

/// Ends the run, and measures first where no condition tells when it does.
pub fn regular_end<'a, S: Store>(
    alloc: Global,
    plan: &Plan<'a>,
    progress: &mut Progress<'a, S>,
    end: Regular,
) -> Result<Phase<'a>, NoMemory>
    requires closed { IsClosed progress.old.machine }
    requires program { program_of progress.old.machine ≡ (job_in plan.now).program }
    requires steps { progress.old.step ≤ progress.old.begun }
    requires begun { progress.old.begun ≤ spent_of progress.old.machine }
    ensures rest { IfOk result (λ phase. (n : ℕ) →
        rest_by phase (job_in plan.now) progress.new n
        ≡ regular_end (end_of end) (job_in plan.now) (stands progress.old n)) }
    ensures ready { IfOk result (λ phase. IsReady phase (job_in plan.now) progress.new) }
    ensures units { SpendsNone progress.new progress.old }
    ensures moves { IfOk result (λ phase.
        moves (length (job_in plan.now).metrics) phase
        ≤ moves_behind (length (job_in plan.now).metrics) (End end) 0) }
{
    let Some(_) = plan.when() else {
        let cells = Cells::empty(alloc);
        return next_metric(alloc, plan, progress, 0, cells, Behind::End(end));
    };
    Ok(Phase::Over(end_of(end)))
}

/// The text of a metric's value as the world stands; None where it is too large.
#[tactic(auto, using(nl_exec_meaning::proofs::Grounds::fits_is))]
pub fn cell_of<S: Store>(
    alloc: Global,
    machine: &Machine<'_, S>,
    value: &Value,
) -> Result<Option<Str>, NoMemory>
    requires { IsTrue (fits (ground_of (world_of machine.now).rest) (plain value.now)) }
    ensures { IfOk result (CellOf (text_of (living_of (world_of machine.now).rest) false (plain value.now))) }
{
    match text(
        alloc,
        value,
        false,
        &View::new(machine.world(), machine.layout()),
    ) {
        Ok(text) => Ok(Some(text)),
        Err(TextFail::TooLarge) => Ok(None),
        Err(TextFail::NoMemory) => Err(NoMemory),
    }
}
