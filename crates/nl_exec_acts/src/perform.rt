//! Acts, over a stage.
ghost use Rattle.std.specs.Prelude.{map, IsTrue};
ghost use Rattle.nl_value.specs.Views.{plain};
ghost use Rattle.nl_agentset_query.specs.Inputs.{inputs_fit};
ghost use Rattle.nl_exec_acts.specs.Stage.{scene, stage_of};
ghost use Rattle.nl_exec_acts.specs.Acts.{value_told, whom_told, is_link_told, move_told, look_told, clock_told, clear_told, seed_told, spot_told, bound_told, run_told};
ghost use Rattle.nl_exec_acts.specs.Performing.{owner_fits, Performs};

use crate::acts::move_by;
use crate::fail::{ActFail, ErrorKind};
use crate::spots::seed_of;
use crate::stage::Stage;
use crate::values::value_of;
use crate::whom::is_link;
use crate::words::{Bound, Clear, Clock, Look, Move, OfRun, Spot, Whom};
use nl_agents::view::View;
use nl_agents::{Owner, Steps, Store};
use nl_agentset_query::inputs::number_at;
use nl_draw::Stream;
use nl_listops::ValueWord;
use nl_value::Value;
use std::alloc::Global;
use std::sync::ledger::Ledger;

/// What a word of values answers, and draws of the stream.
pub fn values<S: Store, L: Ledger>(
    alloc: Global,
    which: ValueWord,
    inputs: &[Value],
    stage: &mut Stage<S>,
    steps: &mut Steps<L>,
) -> Result<Value, ActFail>
    requires { IsTrue (inputs_fit (S.world stage.old.store).rest (map plain inputs.now)) }
    ensures { let before = scene (S.world stage.old.store) stage.old.ticks stage.old.stream in
        Performs result before (scene (S.world stage.new.store) stage.new.ticks stage.new.stream)
        (value_told which (map plain inputs.now) (stage_of before)) }
{
    let view = View::new(&stage.store, &stage.layout);
    value_of(alloc, which, inputs, &view, &mut stage.stream, steps)
}

/// The agent that a word tells of who runs and who asked.
pub fn told_whom<S: Store>(
    which: Whom,
    agent: Owner,
    asker: Owner,
    stage: &Stage<S>,
) -> Result<Value, ActFail>
    requires agent { IsTrue (owner_fits (S.world stage.now.store).rest agent) }
    requires asker { IsTrue (owner_fits (S.world stage.now.store).rest asker) }
    ensures { let now = scene (S.world stage.now.store) stage.now.ticks stage.now.stream in
        Performs result now now (whom_told which agent asker (stage_of now)) }
{
    match which.of(agent, asker, &stage.store) {
        Ok(value) => Ok(value),
        Err(error) => Err(ActFail::Error(error)),
    }
}

/// Whether an input is a living link with a direction, or one without.
pub fn told_link<S: Store>(
    directed: bool,
    inputs: &[Value],
    stage: &Stage<S>,
) -> Result<Value, ActFail>
    ensures { let now = scene (S.world stage.now.store) stage.now.ticks stage.now.stream in
        Performs result now now (is_link_told directed (map plain inputs.now) (stage_of now)) }
{
    match inputs.get(0) {
        Some(value) => Ok(Value::Truth(is_link(directed, value, &stage.store))),
        None => Err(ActFail::Error(ErrorKind::WrongType)),
    }
}

/// Where a turtle goes, and where it looks.
pub fn moves<S: Store>(
    which: Move,
    agent: Owner,
    inputs: &[Value],
    stage: &mut Stage<S>,
) -> Result<Value, ActFail>
    requires { IsTrue (inputs_fit (S.world stage.old.store).rest (map plain inputs.now)) }
    ensures { let before = scene (S.world stage.old.store) stage.old.ticks stage.old.stream in
        Performs result before (scene (S.world stage.new.store) stage.new.ticks stage.new.stream)
        (move_told which agent (map plain inputs.now) (stage_of before)) }
{
    match move_by(which, agent, inputs, &mut stage.store) {
        Ok(()) => Ok(Value::Nobody),
        Err(fail) => Err(fail),
    }
}

/// How an agent is drawn.
pub fn looks<S: Store>(
    alloc: Global,
    which: Look,
    agent: Owner,
    stage: &mut Stage<S>,
) -> Result<Value, ActFail>
    ensures { let before = scene (S.world stage.old.store) stage.old.ticks stage.old.stream in
        Performs result before (scene (S.world stage.new.store) stage.new.ticks stage.new.stream)
        (look_told which agent (stage_of before)) }
{
    match which.perform(alloc, agent, &mut stage.store) {
        Ok(()) => Ok(Value::Nobody),
        Err(fail) => Err(fail),
    }
}

/// What becomes of the clock, and what it tells.
pub fn clocks<S: Store>(
    which: Clock,
    inputs: &[Value],
    stage: &mut Stage<S>,
) -> Result<Value, ActFail>
    ensures { let before = scene (S.world stage.old.store) stage.old.ticks stage.old.stream in
        Performs result before (scene (S.world stage.new.store) stage.new.ticks stage.new.stream)
        (clock_told which (map plain inputs.now) (stage_of before)) }
{
    match which.perform(inputs, &mut stage.ticks) {
        Ok(value) => Ok(value),
        Err(error) => Err(ActFail::Error(error)),
    }
}

/// What becomes of agents.
pub fn clears<S: Store>(which: Clear, stage: &mut Stage<S>) -> Result<Value, ActFail>
    ensures { let before = scene (S.world stage.old.store) stage.old.ticks stage.old.stream in
        Performs result before (scene (S.world stage.new.store) stage.new.ticks stage.new.stream)
        (clear_told which (stage_of before)) }
{
    which.perform(&mut stage.store);
    Ok(Value::Nobody)
}

/// The stream begins anew, from a seed.
pub fn seeds<S: Store>(inputs: &[Value], stage: &mut Stage<S>) -> Result<Value, ActFail>
    ensures { let before = scene (S.world stage.old.store) stage.old.ticks stage.old.stream in
        Performs result before (scene (S.world stage.new.store) stage.new.ticks stage.new.stream)
        (seed_told (map plain inputs.now) (stage_of before)) }
{
    match number_at(inputs, 0) {
        Ok(number) => {
            stage.stream = Stream::new(seed_of(number));
            Ok(Value::Nobody)
        }
        Err(fail) => Err(ActFail::Error(ErrorKind::from(fail))),
    }
}

/// A random coordinate.
pub fn spots<S: Store>(which: Spot, stage: &mut Stage<S>) -> Result<Value, ActFail>
    ensures { let before = scene (S.world stage.old.store) stage.old.ticks stage.old.stream in
        Performs result before (scene (S.world stage.new.store) stage.new.ticks stage.new.stream)
        (spot_told which (stage_of before)) }
{
    let shape = stage.store.shape();
    Ok(Value::Number(which.draw(&shape, &mut stage.stream)))
}

/// A bound of the world, or a count of its patches along an axis.
pub fn told_bound<S: Store>(which: Bound, stage: &Stage<S>) -> Result<Value, ActFail>
    ensures { let now = scene (S.world stage.now.store) stage.now.ticks stage.now.stream in
        Performs result now now (bound_told which (stage_of now)) }
{
    Ok(Value::Number(which.of(&stage.store.shape())))
}

/// The number of the run, or the name of its experiment.
pub fn told_run<S: Store>(alloc: Global, which: OfRun, stage: &Stage<S>) -> Result<Value, ActFail>
    ensures { let now = scene (S.world stage.now.store) stage.now.ticks stage.now.stream in
        Performs result now now (run_told which (stage_of now)) }
{
    which.of(alloc, stage)
}
