//! What a run begins with.
ghost use Rattle.std.specs.Prelude.{◌≡◌, ℕ, ◌≤◌, true, [], IfOk, OnOk};
ghost use Rattle.nl_value.specs.Views.{plain};
ghost use Rattle.nl_exec.specs.Machines.{IsClosed, program_of, spent_of, units_left};
ghost use Rattle.nl_experiment_fields.specs.Written.{all_written, is_written};
ghost use Rattle.nl_run.specs.Course.{course_within};
ghost use Rattle.nl_run.specs.Job as spec;
ghost use Rattle.nl_run.specs.Left.{IsReady, rest_by};
ghost use Rattle.nl_run.specs.Plans.{job_in};
ghost use Rattle.nl_run.specs.declared.phase.Open.TheVariants.{Setup};
ghost use Rattle.nl_run.specs.declared.phase.Phase.TheVariants.{Text};
ghost use Rattle.nl_run.specs.inner.Starting.{HasSet};

use crate::plan::Plan;
use crate::progress::Progress;
use crate::rows::Rows;
use nl_agents::Store;
use nl_exec::Machine;
use nl_experiment_sweep::Settings;
use nl_fixed::{NoMemory, Num};
use nl_tree::{Form, Program};
use nl_value::Value;
use std::alloc::Global;

// The global variable of a name has a value, if the program has one.
#[tactic(auto, using(crate::proofs::Settings::fits_each), unfolding(nl_agents_layout::specs::Layouts::layout_of))]
fn set_named<S: Store>(machine: &mut Machine<'_, S>, program: &Program, name: &[u8], value: Value)
    requires closed { IsClosed machine.old }
    requires program { program_of machine.old ≡ program.now }
    requires written { is_written (plain value) ≡ true }
    ensures { HasSet machine.new machine.old (spec.set_named program.now name.now (plain value)) }
{
    // What the slot and the value rest on: the layout is the program's.
    let _layout = machine.layout();
    if let Some(slot) = program.global(name) {
        machine.set_global(slot, value);
    }
}

// The global variables of these settings have their values.
fn set_all<S: Store>(
    alloc: Global,
    machine: &mut Machine<'_, S>,
    program: &Program,
    settings: &Settings,
) -> Result<(), NoMemory>
    requires closed { IsClosed machine.old }
    requires program { program_of machine.old ≡ program.now }
    requires written { all_written settings.now ≡ true }
    ensures { OnOk result (HasSet machine.new machine.old (spec.set_all program.now settings.now)) }
{
    let mut left = settings.as_slice();
    'settings: while let Some((setting, behind)) = left.split_first() {
        left = behind;
        let value = setting.value.copy(alloc)?;
        set_named(machine, program, setting.name.as_bytes(), value);
    }
    Ok(())
}

// The number of a run, as a value.
fn number_of(number: u64) -> Value
    requires { number ≤ 100000 }
    ensures { plain result ≡ spec.whole number }
{
    Value::Number(Num::whole(number as i64).unwrap())
}

// The variables of a run have the run's number and the experiment's name.
fn set_called<S: Store>(
    alloc: Global,
    machine: &mut Machine<'_, S>,
    plan: &Plan<'_>,
) -> Result<(), NoMemory>
    requires closed { IsClosed machine.old }
    requires program { program_of machine.old ≡ (job_in plan.now).program }
    ensures { OnOk result (HasSet machine.new machine.old (spec.called (job_in plan.now))) }
{
    set_named(
        machine,
        plan.program(),
        b"behaviorspace-run-number",
        number_of(plan.number()),
    );
    let name = plan.name().copy(alloc)?;
    set_named(
        machine,
        plan.program(),
        b"behaviorspace-experiment-name",
        Value::words(alloc, name)?,
    );
    Ok(())
}

/// A run whose setup text is open, and has not begun.
pub fn started<'a, S: Store>(alloc: Global, plan: &Plan<'a>) -> Result<Progress<'a, S>, NoMemory>
    ensures rest { IfOk result (λ progress. (n : ℕ) →
        rest_by (Text Setup) (job_in plan.now) progress n ≡ course_within (job_in plan.now) n) }
    ensures ready { IfOk result (IsReady (Text Setup) (job_in plan.now)) }
    ensures spent { IfOk result (λ progress. spent_of progress.machine ≡ 0) }
    ensures left { IfOk result (λ progress. units_left progress.machine ≡ (job_in plan.now).budget) }
    ensures rows { IfOk result (λ progress. progress.rows ≡ []) }
{
    let program = plan.program();
    let mut machine = Machine::new(alloc, program, plan.shape(), plan.seed(), plan.budget())?;
    set_called(alloc, &mut machine, plan)?;
    set_all(alloc, &mut machine, program, plan.globals())?;
    set_all(alloc, &mut machine, program, plan.settings())?;
    let mut progress = Progress {
        machine,
        step: 0,
        rows: Rows::empty(alloc),
        begun: 0,
    };
    progress.open(alloc, plan.setup(), Form::Commands)?;
    Ok(progress)
}
