//! Acts: what a word does that takes no block and wants no unit.
ghost use Rattle.std.specs.Prelude.{◌≡◌, map, IsTrue};
ghost use Rattle.nl_value.specs.Views.{plain};
ghost use Rattle.nl_agents.specs.Changes.{OwnerLives};
ghost use Rattle.nl_agentset.specs.Queries.{word_breed_fits};
ghost use Rattle.nl_agentset_query.specs.Inputs.{inputs_fit};
ghost use Rattle.nl_exec_acts.specs.Stage.{scene, stage_of};
ghost use Rattle.nl_exec_acts.specs.Acts.{value_told};
ghost use Rattle.nl_exec_acts.specs.Performing.{owner_fits, Performs};
ghost use Rattle.nl_exec_meaning.specs.Acting.{performed, query_told, who_asks};
ghost use Rattle.nl_exec_meaning.specs.Sound.{ActStands};

use nl_agents::view::View;
use nl_agents::{Owner, Steps, Store};
use nl_agentset::answer;
use nl_agentset_query::QueryWord;
use nl_exec_acts::perform::{
    clears, clocks, looks, moves, seeds, spots, told_bound, told_link, told_run, told_whom, values,
};
use nl_exec_acts::{Act, ActFail, Stage};
use nl_exec_meaning::Site;
use nl_listops::ValueWord;
use nl_value::Value;
use std::alloc::Global;
use std::sync::ledger::Ledger;

// Who asks a query: a dead agent has no place of its own, and asks as the observer does.
fn who_asks<S: Store>(agent: Owner, store: &S) -> Owner
    requires { IsTrue (owner_fits (S.world store.now).rest agent) }
    ensures asks { result ≡ who_asks (S.world store.now).rest agent }
    ensures lives { OwnerLives result (S.world store.now) }
{
    let lives = match agent {
        Owner::Turtle(turtle) => store.turtle_lives(turtle),
        Owner::Link(link) => store.link_lives(link),
        Owner::Observer | Owner::Patch(_) => true,
    };
    if lives { agent } else { Owner::Observer }
}

// What a query answers, and draws of the stream.
#[inline(never)]
fn query<S: Store, L: Ledger>(
    alloc: Global,
    which: QueryWord,
    breed: Option<u32>,
    agent: Owner,
    inputs: &[Value],
    stage: &mut Stage<S>,
    steps: &mut Steps<L>,
) -> Result<Value, ActFail>
    requires breed { IsTrue (word_breed_fits (S.world stage.old.store).rest.layout which breed) }
    requires inputs { IsTrue (inputs_fit (S.world stage.old.store).rest (map plain inputs.now)) }
    requires agent { IsTrue (owner_fits (S.world stage.old.store).rest agent) }
    ensures { let before = scene (S.world stage.old.store) stage.old.ticks stage.old.stream in
        Performs result before (scene (S.world stage.new.store) stage.new.ticks stage.new.stream)
        (query_told which breed agent (map plain inputs.now) (stage_of before)) }
{
    let who = who_asks(agent, &stage.store);
    let view = View::new(&stage.store, &stage.layout);
    match answer(
        alloc,
        which,
        breed,
        who,
        inputs,
        &view,
        &mut stage.stream,
        steps,
    ) {
        Ok(value) => Ok(value),
        Err(fail) => Err(ActFail::from(fail)),
    }
}

// What a word of values answers. It stands apart, so that an act sets no room aside for the others.
#[inline(never)]
fn of_values<S: Store, L: Ledger>(
    alloc: Global,
    which: ValueWord,
    inputs: &[Value],
    stage: &mut Stage<S>,
    steps: &mut Steps<L>,
) -> Result<Value, ActFail>
    requires { IsTrue (inputs_fit (S.world stage.old.store).rest (map plain inputs.now)) }
    ensures { let before = scene (S.world stage.old.store) stage.old.ticks stage.old.stream in
        Performs result before (scene (S.world stage.new.store) stage.new.ticks stage.new.stream)
        (value_told which (map plain inputs.now) (stage_of before)) }
{
    values(alloc, which, inputs, stage, steps)
}

// What any act answers, and changes of the stage, apart from those that come often.
#[inline(never)]
fn perform_any<S: Store, L: Ledger>(
    alloc: Global,
    act: Act,
    breed: Option<u32>,
    site: Site,
    inputs: &[Value],
    stage: &mut Stage<S>,
    steps: &mut Steps<L>,
) -> Result<Value, ActFail>
    requires breed { ActStands (S.world stage.old.store).rest.layout act breed }
    requires inputs { IsTrue (inputs_fit (S.world stage.old.store).rest (map plain inputs.now)) }
    requires agent { IsTrue (owner_fits (S.world stage.old.store).rest site.agent) }
    requires asker { IsTrue (owner_fits (S.world stage.old.store).rest site.asker) }
    ensures { let before = scene (S.world stage.old.store) stage.old.ticks stage.old.stream in
        Performs result before (scene (S.world stage.new.store) stage.new.ticks stage.new.stream)
        (performed act breed site.agent site.asker (map plain inputs.now) (stage_of before)) }
{
    match act {
        Act::Value(which) => values(alloc, which, inputs, stage, steps),
        Act::Query(which) => query(alloc, which, breed, site.agent, inputs, stage, steps),
        Act::Whom(which) => told_whom(which, site.agent, site.asker, stage),
        Act::IsLink { directed } => told_link(directed, inputs, stage),
        Act::Move(which) => moves(which, site.agent, inputs, stage),
        Act::Look(which) => looks(alloc, which, site.agent, stage),
        Act::Clock(which) => clocks(which, inputs, stage),
        Act::Clear(which) => clears(which, stage),
        Act::Seed => seeds(inputs, stage),
        Act::Spot(which) => spots(which, stage),
        Act::Bound(which) => told_bound(which, stage),
        Act::OfRun(which) => told_run(alloc, which, stage),
        Act::Idle => Ok(Value::Nobody),
    }
}

/// What an act answers, and changes of the stage. An error leaves the stage as it was.
pub fn perform<S: Store, L: Ledger>(
    alloc: Global,
    act: Act,
    breed: Option<u32>,
    site: Site,
    inputs: &[Value],
    stage: &mut Stage<S>,
    steps: &mut Steps<L>,
) -> Result<Value, ActFail>
    requires breed { ActStands (S.world stage.old.store).rest.layout act breed }
    requires inputs { IsTrue (inputs_fit (S.world stage.old.store).rest (map plain inputs.now)) }
    requires agent { IsTrue (owner_fits (S.world stage.old.store).rest site.agent) }
    requires asker { IsTrue (owner_fits (S.world stage.old.store).rest site.asker) }
    ensures { let before = scene (S.world stage.old.store) stage.old.ticks stage.old.stream in
        Performs result before (scene (S.world stage.new.store) stage.new.ticks stage.new.stream)
        (performed act breed site.agent site.asker (map plain inputs.now) (stage_of before)) }
{
    match act {
        Act::Value(which) => of_values(alloc, which, inputs, stage, steps),
        Act::Query(which) => query(alloc, which, breed, site.agent, inputs, stage, steps),
        act => perform_any(alloc, act, breed, site, inputs, stage, steps),
    }
}
