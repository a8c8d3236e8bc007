//! Acts as plain data, each made in a world of its own. Numbers and coordinates are in millionths.
ghost use Rattle.std.specs.Prelude.{◌≡◌, map, IfSome, IsTrue};
ghost use Rattle.nl_value.specs.Views.{plain};
ghost use Rattle.nl_agentset_query.specs.Inputs.{inputs_fit};
ghost use Rattle.nl_exec_acts.specs.Performing.{owner_fits};

use crate::given::{Given, values_of};
use crate::told::{After, Told, is_answer, is_left};
use nl_agents::{Owner, Steps, Store};
use nl_draw::Stream;
use nl_exec_acts::perform::{
    clears, clocks, looks, moves, seeds, spots, told_bound, told_link, told_run, told_whom, values,
};
use nl_exec_acts::{ActFail, Bound, Clear, Clock, ErrorKind, Look, Move, OfRun, Spot, Stage, Whom};
use nl_fixed::Num;
use nl_listops::ValueWord;
use nl_plain::Plain;
use nl_store::Indexed;
use nl_value::Value;
use std::alloc::Global;
use std::marker::Brand;
use std::sync::ledger::{Blank, Ledger};
use trial_stores::trial_model::{FOXES, ROPES, WIRES, program};
use trial_stores::trials::{Scene, Step, Tried, Wanted, played};

/// An act.
#[derive(Clone, Copy)]
pub(crate) enum Deed {
    Values(ValueWord),
    Whom(Whom),
    IsLink(bool),
    Moves(Move),
    Looks(Look),
    /// Of the clock, with the ticks before it.
    Clocks(Clock, Option<i64>),
    Clears(Clear),
    Seeds,
    Spots(Spot),
    Bound(Bound),
    Run(OfRun),
}

/// The act, who runs it and who asked, the inputs, the answer, and what is left.
pub(crate) type Row = (Deed, Owner, Owner, &'static [Given], Told, &'static [After]);

/// Who runs most acts, and who asks for them.
pub(crate) const ME: Owner = Owner::Turtle(2);

pub(crate) const NO_ONE: Owner = Owner::Observer;

pub(crate) const DONE: Told = Told::Nobody;

pub(crate) const WRONG: Told = Told::Fails(ErrorKind::WrongType);

pub(crate) const OUTSIDE: Told = Told::Fails(ErrorKind::OutOfWorld);

pub(crate) const OVERFLOW: Told = Told::Fails(ErrorKind::Overflow);

pub(crate) const NO_AGENT: Told = Told::Fails(ErrorKind::NoAgent);

pub(crate) const NOT_ALLOWED: Told = Told::Fails(ErrorKind::WrongContext);

pub(crate) const DOMAIN: Told = Told::Fails(ErrorKind::Domain);

pub(crate) const TICKS_OFF: Told = Told::Fails(ErrorKind::TicksOff);

/// The seed of the stream before each act.
pub(crate) const SEED: u64 = 42;

// Turtle 0 has the serial 2, since two were born and cleared before it; 4 has died.
const WORLD: &[Scene] = &[(
    &[
        Step::Bear(0, (0, 0), None, 0),
        Step::Bear(0, (0, 0), None, 1),
        Step::ClearTurtles,
        Step::Bear(0, (20, 0), None, 2),
        Step::Set(Owner::Turtle(2), "heading", 900, Wanted::Number(0)),
        Step::Bear(FOXES, (-20, 0), None, 3),
        Step::Bear(FOXES, (0, 0), None, 4),
        Step::Bear(FOXES, (4, -12), None, 5),
        Step::Kill(4),
        Step::Tie(WIRES, true, 5, 2, 0),
        Step::Tie(WIRES, true, 2, 5, 1),
        Step::Tie(ROPES, false, 2, 3, 2),
        Step::Tie(0, false, 2, 3, 3),
    ],
    &[],
)];

fn ticks_before(deed: Deed) -> Option<Num> {
    match deed {
        Deed::Clocks(_, Some(ticks)) => Num::new(ticks),
        _ => None,
    }
}

/// The stage on which an act is made.
pub(crate) fn staged<S: Store>(tried: Tried<S>, ticks: Option<Num>) -> Option<Stage<S>>
    ensures { IfSome result (λ stage. S.world stage.store ≡ S.world tried.store) }
{
    let layout = tried.layout;
    let experiment = layout.globals.checked_add(1)?;
    Some(Stage {
        store: tried.store,
        layout,
        ticks,
        stream: Stream::new(SEED),
        experiment,
    })
}

// Makes the act.
fn perform<S: Store, L: Ledger>(
    alloc: Global,
    deed: Deed,
    agent: Owner,
    asker: Owner,
    inputs: &[Value],
    stage: &mut Stage<S>,
    steps: &mut Steps<L>,
) -> Result<Value, ActFail>
    requires fit { IsTrue (inputs_fit (S.world stage.old.store).rest (map plain inputs.now)) }
    requires agent { IsTrue (owner_fits (S.world stage.old.store).rest agent) }
    requires asker { IsTrue (owner_fits (S.world stage.old.store).rest asker) }
{
    match deed {
        Deed::Values(which) => values(alloc, which, inputs, stage, steps),
        Deed::Whom(which) => told_whom(which, agent, asker, stage),
        Deed::IsLink(directed) => told_link(directed, inputs, stage),
        Deed::Moves(which) => moves(which, agent, inputs, stage),
        Deed::Looks(which) => looks(alloc, which, agent, stage),
        Deed::Clocks(which, _) => clocks(which, inputs, stage),
        Deed::Clears(which) => clears(which, stage),
        Deed::Seeds => seeds(inputs, stage),
        Deed::Spots(which) => spots(which, stage),
        Deed::Bound(which) => told_bound(which, stage),
        Deed::Run(which) => told_run(alloc, which, stage),
    }
}

// Whether an agent may stand for who runs or asked: a patch has to be one of the world.
fn may_run<S: Store>(agent: Owner, store: &S) -> bool
    ensures { IsTrue result → IsTrue (owner_fits (S.world store.now).rest agent) }
{
    match agent {
        Owner::Patch(patch) => patch < store.shape().patches(),
        _ => true,
    }
}

// Makes the act where its conditions hold.
fn counted<S: Store, L: Ledger>(
    alloc: Global,
    deed: Deed,
    agent: Owner,
    asker: Owner,
    inputs: &[Value],
    stage: &mut Stage<S>,
    blank: Blank,
) -> Option<Result<Value, ActFail>>
    requires name { blank.name ≡ L.name }
    requires parts { blank.parts ≡ L.parts }
    requires one { blank.parts ≡ 1 }
    requires fit { IsTrue (inputs_fit (S.world stage.old.store).rest (map plain inputs.now)) }
{
    if !may_run(agent, &stage.store) || !may_run(asker, &stage.store) {
        return None;
    }
    let mut steps = Steps::<L>::new(blank);
    Some(perform(alloc, deed, agent, asker, inputs, stage, &mut steps))
}

// Whether all of this is left.
fn are_left<S: Store>(stage: &Stage<S>, after: &[After]) -> bool {
    for left in after {
        if !is_left(stage, *left) {
            return false;
        }
    }
    true
}

// Lets go of a thing by one call: what ends inside of a function is walked there, once on each way out.
fn let_go<T: Drop>(_thing: T) {}

/// Whether the act, made on the stage, answers and leaves what the row says.
pub(crate) fn is_done<S: Store>(
    alloc: Global,
    row: &Row,
    inputs: &[Value],
    stage: &mut Stage<S>,
) -> bool
    requires { IsTrue (inputs_fit (S.world stage.old.store).rest (map plain inputs.now)) }
{
    let (deed, agent, asker, _, told, after) = *row;
    let blank = Blank::new(1);
    let Some(answer) = counted::<S, Brand>(alloc, deed, agent, asker, inputs, stage, blank) else {
        return false;
    };
    let answered = is_answer(&answer, told);
    let_go(answer);
    answered && are_left(stage, after)
}

/// Whether the act, made in the world, answers and leaves what the row says; not where memory is wanted.
pub(crate) fn is_right<S: Store>(alloc: Global, tried: Tried<S>, row: &Row) -> bool {
    let Some(inputs) = values_of(alloc, &tried, row.3) else {
        return false;
    };
    let Some(mut stage) = staged(tried, ticks_before(row.0)) else {
        return false;
    };
    is_done(alloc, row, &inputs, &mut stage)
}

fn world<S: Store>(alloc: Global) -> Option<Tried<S>> {
    let model = program(alloc)?;
    played::<S>(alloc, model, WORLD).ok()
}

// The same in a world of its own.
fn is_right_over<S: Store>(alloc: Global, row: &Row) -> bool {
    match world::<S>(alloc) {
        Some(tried) => is_right(alloc, tried, row),
        None => false,
    }
}

/// The first row whose act answers or leaves something else over one of the stores. Each is made in a world of its own.
pub(crate) fn wrong_in(alloc: Global, rows: &[Row]) -> Option<usize> {
    for (at, row) in rows.iter().enumerate() {
        if !is_right_over::<Plain>(alloc, row) {
            return Some(at);
        }
        if !is_right_over::<Indexed>(alloc, row) {
            return Some(at);
        }
    }
    None
}
