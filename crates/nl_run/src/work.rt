//! The work of a run, phase by phase, in slices of units.
ghost use Rattle.std.specs.Prelude.{◌≡◌, ℕ, ◌+◌, ◌*◌, ◌≤◌, ◌<◌, ◌&&◌, ◌==◌, not, nat_lt, length, IfOk};
ghost use Rattle.nl_exec_meaning.specs.Ground.{ground_of};
ghost use Rattle.nl_exec.specs.Endings.{EndFits, end_seen};
ghost use Rattle.nl_exec.specs.Machines.{IsClosed, program_of, spent_of, units_left, world_of};
ghost use Rattle.nl_run.specs.Course.{after_go, commands, go_name, steps};
ghost use Rattle.nl_run.specs.Left.{IsReady, IsThere, SpendsNone, moves, moves_in, rest_by, settled, stands, steps_in};
ghost use Rattle.nl_run.specs.Plans.{job_in};
ghost use Rattle.nl_run.specs.inner.Moves.{Allows, Falls, HasStopped, Spends, StopsAt, phase_of};
ghost use Rattle.nl_run.specs.declared.phase.Phase.TheVariants as phases;

use crate::measures::regular_end;
use crate::phase::{Open, Phase, Regular};
use crate::plan::Plan;
use crate::progress::Progress;
use crate::settle::{settle_go, settle_metric, settle_setup, settle_until, settle_when};
use nl_agents::Store;
use nl_exec::{End, Turn};
use nl_fixed::NoMemory;
use nl_tree::Form;
use std::alloc::Global;

/// What one move of a run comes to.
#[derive(Drop)]
pub enum Move<'a> {
    /// The run goes on.
    On(Phase<'a>),
    /// The units are spent and a further one is wanted, or the run is over.
    Stop(Phase<'a>),
}

// Whether all steps are done.
fn is_reached(steps: u64, step: u64) -> bool
    ensures { result ≡ (not (steps == 0) && not (nat_lt step steps)) }
{
    steps != 0 && step >= steps
}

// Sees whether a step comes: begins the condition, if there is one.
fn step_or_end<'a, S: Store>(
    alloc: Global,
    plan: &Plan<'a>,
    progress: &mut Progress<'a, S>,
) -> Result<Phase<'a>, NoMemory>
    requires { IsReady phases.Step (job_in plan.now) progress.old }
    ensures rest { IfOk result (λ phase. (n : ℕ) →
        rest_by phase (job_in plan.now) progress.new n
        ≡ steps (job_in plan.now) (stands progress.old n)) }
    ensures ready { IfOk result (λ phase. IsReady phase (job_in plan.now) progress.new) }
    ensures units { SpendsNone progress.new progress.old }
    ensures moves { IfOk result (λ phase.
        moves (length (job_in plan.now).metrics) phase
        < moves (length (job_in plan.now).metrics) phases.Step) }
{
    if is_reached(plan.steps(), progress.step) {
        return regular_end(alloc, plan, progress, Regular::Steps);
    }
    let Some(until) = plan.until() else {
        return Ok(Phase::Wanting);
    };
    let mark = progress.machine.mark();
    progress.open(alloc, until, Form::Reporter)?;
    Ok(Phase::Text(Open::Until(until, mark)))
}

// Begins the text of a step, whose unit is spent.
fn begin_step<'a, S: Store>(
    alloc: Global,
    plan: &Plan<'a>,
    progress: &mut Progress<'a, S>,
) -> Result<Phase<'a>, NoMemory>
    requires closed { IsClosed progress.old.machine }
    requires program { program_of progress.old.machine ≡ (job_in plan.now).program }
    requires steps { progress.old.step < progress.old.begun }
    requires begun { progress.old.begun ≤ spent_of progress.old.machine }
    ensures rest { IfOk result (λ phase. (n : ℕ) →
        rest_by phase (job_in plan.now) progress.new n
        ≡ commands (job_in plan.now) go_name (job_in plan.now).go (stands progress.old n)
        (after_go (job_in plan.now) (steps (job_in plan.now)))) }
    ensures ready { IfOk result (λ phase. IsReady phase (job_in plan.now) progress.new) }
    ensures units { SpendsNone progress.new progress.old }
    ensures moves { IfOk result (λ phase.
        moves (length (job_in plan.now).metrics) phase ≡ 2 * length (job_in plan.now).metrics + 7) }
{
    progress.open(alloc, plan.go(), Form::Commands)?;
    Ok(Phase::Text(Open::Go))
}

// What comes once the open text has ended.
fn settle<'a, S: Store>(
    alloc: Global,
    plan: &Plan<'a>,
    progress: &mut Progress<'a, S>,
    text: Open<'a>,
    end: End,
) -> Result<Phase<'a>, NoMemory>
    requires closed { IsClosed progress.old.machine }
    requires program { program_of progress.old.machine ≡ (job_in plan.now).program }
    requires there { IsThere text (job_in plan.now) }
    requires steps { progress.old.step + steps_in text ≤ progress.old.begun }
    requires begun { progress.old.begun ≤ spent_of progress.old.machine }
    requires fits { EndFits (ground_of (world_of progress.old.machine).rest) end }
    ensures rest { IfOk result (λ phase. (n : ℕ) →
        rest_by phase (job_in plan.now) progress.new n
        ≡ settled text.entry (job_in plan.now) (end_seen end) (stands progress.old n)) }
    ensures ready { IfOk result (λ phase. IsReady phase (job_in plan.now) progress.new) }
    ensures units { SpendsNone progress.new progress.old }
    ensures moves { IfOk result (λ phase.
        moves (length (job_in plan.now).metrics) phase
        < moves_in (length (job_in plan.now).metrics) text.entry) }
{
    match text {
        Open::Setup => settle_setup(alloc, plan, progress, end),
        Open::Go => settle_go(alloc, plan, progress, end),
        Open::Until(until, mark) => settle_until(alloc, plan, progress, until, mark, end),
        Open::When(when, mark) => settle_when(alloc, plan, progress, when, mark, end),
        Open::Metric(measuring) => settle_metric(alloc, plan, progress, measuring, end),
    }
}

// Works on the open text.
fn run_text<'a, S: Store>(
    alloc: Global,
    plan: &Plan<'a>,
    progress: &mut Progress<'a, S>,
    text: Open<'a>,
    left: &mut u64,
) -> Result<Move<'a>, NoMemory>
    requires ready { IsReady (phases.Text text) (job_in plan.now) progress.old }
    requires within { left.old ≤ units_left progress.old.machine }
    ensures rest { IfOk result (λ m. (n : ℕ) → Allows left.old (units_left progress.old.machine) n →
        rest_by (phase_of m) (job_in plan.now) progress.new (left.new + n)
        ≡ rest_by (phases.Text text.entry) (job_in plan.now) progress.old (left.old + n)) }
    ensures ready { IfOk result (λ m. IsReady (phase_of m) (job_in plan.now) progress.new) }
    ensures units { IfOk result (λ m. Spends progress.new progress.old left.new left.old) }
    ensures stop { IfOk result (StopsAt (job_in plan.now) progress.new left.new) }
    ensures falls { IfOk result (λ m. Falls (job_in plan.now) m progress.new (phases.Text text.entry) progress.old) }
{
    let spent = progress.machine.spent();
    match progress.machine.advance(alloc, *left)? {
        Turn::More => {
            *left = 0;
            Ok(Move::Stop(Phase::Text(text)))
        }
        Turn::Ended(end) => {
            let now = progress.machine.spent();
            *left = spent + *left - now;
            progress.begun = now;
            let phase = settle(alloc, plan, progress, text, end)?;
            Ok(Move::On(phase))
        }
    }
}

// Spends the unit of a step and begins its text, if there is a unit.
fn take_step<'a, S: Store>(
    alloc: Global,
    plan: &Plan<'a>,
    progress: &mut Progress<'a, S>,
    left: &mut u64,
) -> Result<Move<'a>, NoMemory>
    requires ready { IsReady phases.Wanting (job_in plan.now) progress.old }
    requires within { left.old ≤ units_left progress.old.machine }
    ensures rest { IfOk result (λ m. (n : ℕ) →
        rest_by (phase_of m) (job_in plan.now) progress.new (left.new + n)
        ≡ rest_by phases.Wanting (job_in plan.now) progress.old (left.old + n)) }
    ensures ready { IfOk result (λ m. IsReady (phase_of m) (job_in plan.now) progress.new) }
    ensures units { IfOk result (λ m. Spends progress.new progress.old left.new left.old) }
    ensures stop { IfOk result (StopsAt (job_in plan.now) progress.new left.new) }
    ensures falls { IfOk result (λ m. Falls (job_in plan.now) m progress.new phases.Wanting progress.old) }
{
    if *left == 0 {
        return Ok(Move::Stop(Phase::Wanting));
    }
    if !progress.machine.spend_one() {
        unreachable!();
    }
    *left -= 1;
    progress.begun = progress.machine.spent();
    let phase = begin_step(alloc, plan, progress)?;
    Ok(Move::On(phase))
}

// One move.
fn go_on<'a, S: Store>(
    alloc: Global,
    plan: &Plan<'a>,
    progress: &mut Progress<'a, S>,
    phase: Phase<'a>,
    left: &mut u64,
) -> Result<Move<'a>, NoMemory>
    requires ready { IsReady phase (job_in plan.now) progress.old }
    requires within { left.old ≤ units_left progress.old.machine }
    ensures rest { IfOk result (λ m. (n : ℕ) → Allows left.old (units_left progress.old.machine) n →
        rest_by (phase_of m) (job_in plan.now) progress.new (left.new + n)
        ≡ rest_by phase.entry (job_in plan.now) progress.old (left.old + n)) }
    ensures ready { IfOk result (λ m. IsReady (phase_of m) (job_in plan.now) progress.new) }
    ensures units { IfOk result (λ m. Spends progress.new progress.old left.new left.old) }
    ensures stop { IfOk result (StopsAt (job_in plan.now) progress.new left.new) }
    ensures falls { IfOk result (λ m. Falls (job_in plan.now) m progress.new phase.entry progress.old) }
{
    match phase {
        Phase::Text(text) => run_text(alloc, plan, progress, text, left),
        Phase::Step => {
            let next = step_or_end(alloc, plan, progress)?;
            Ok(Move::On(next))
        }
        Phase::Wanting => take_step(alloc, plan, progress, left),
        Phase::Over(how) => Ok(Move::Stop(Phase::Over(how))),
        Phase::Ended | Phase::Failed => Err(NoMemory),
    }
}

/// Works so many units, or until the run is over. The units are no more than the machine has; what is left of them comes back too.
pub fn work<'a, S: Store>(
    alloc: Global,
    plan: &Plan<'a>,
    progress: &mut Progress<'a, S>,
    begun: Phase<'a>,
    units: u64,
) -> Result<(Phase<'a>, u64), NoMemory>
    requires ready { IsReady begun (job_in plan.now) progress.old }
    requires within { units ≤ units_left progress.old.machine }
    // Where the units are all that there are, nothing is said of further ones.
    ensures rest { IfOk result (λ r. (n : ℕ) → Allows units (units_left progress.old.machine) n →
        rest_by r.0 (job_in plan.now) progress.new (r.1 + n)
        ≡ rest_by begun.entry (job_in plan.now) progress.old (units + n)) }
    ensures ready { IfOk result (λ r. IsReady r.0 (job_in plan.now) progress.new) }
    ensures stop { IfOk result (λ r. HasStopped r.0 (job_in plan.now) progress.new r.1) }
    ensures units { IfOk result (λ r. Spends progress.new progress.old r.1 units) }
{
    let mut phase = begun;
    let mut left = units;
    'moves: loop {
        match go_on(alloc, plan, progress, phase, &mut left)? {
            Move::On(next) => phase = next,
            Move::Stop(next) => return Ok((next, left)),
        }
    }
}
