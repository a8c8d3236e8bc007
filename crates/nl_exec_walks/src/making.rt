//! Words that make agents, and the block that the new ones may run.
ghost use Rattle.std.specs.Prelude.{◌≡◌, ◌<◌, ◌+◌, ℕ, List, All, IsTrue, IfOk, not, slice_get};
ghost use Rattle.nl_value.specs.Views.{plain};
ghost use Rattle.nl_tree.specs.Tree.{parts};
ghost use Rattle.nl_agents_layout.specs.Layouts.{is_turtle_breed, is_link_breed};
ghost use Rattle.nl_agents.specs.Changes.{OwnerLives, TurtleLives, turtle_of};
ghost use Rattle.nl_agents.specs.Standing.{fits_rest};
ghost use Rattle.nl_agentset.specs.Queries.{is_breed_or_none};
ghost use Rattle.nl_exec_acts.specs.Stage.{Gives};
ghost use Rattle.nl_exec_meaning.specs.Code.{node_at};
ghost use Rattle.nl_exec_meaning.specs.declared.words.Making.TheVariants as the_making;
ghost use Rattle.nl_exec_meaning.specs.Makings.{born_of, bred_as, kind_made, linked_by, made_of, making_case, run_by_new, targets_in, turtles_in};
ghost use Rattle.nl_exec_meaning.specs.Frames.{resumed};
ghost use Rattle.nl_exec_meaning.specs.Ground.{Ground, fits};
ghost use Rattle.nl_exec_meaning.specs.Means.{Means, Stands};
ghost use Rattle.nl_exec_meaning.specs.Seen.{ended, ground};
ghost use Rattle.nl_exec_meaning.specs.Sound.{MakingStands};
ghost use Rattle.nl_exec_meaning.specs.Standing.{ExitFits, HandsFit, MembersFit, NextFits};
ghost use Rattle.nl_exec_meaning.specs.Weight.{weights};
ghost use Rattle.nl_exec_meaning.specs.Work.{frame_work, next_work};
ghost use Rattle.nl_exec_meaning.specs.declared.frames.Frame.TheVariants as frame;
ghost use Rattle.nl_exec_walks.specs.Births.{as_told, Makes};

use crate::agents::{members, mixed};
use crate::walking::next_turn;
use nl_agents::{Owner, Store};
use nl_agentset_query::agents::breed_or_none;
use nl_agentset_query::inputs::as_agent;
use nl_birth::{BirthFail, Way, create, hatch, link, sprout};
use nl_exec_acts::{ActFail, ErrorKind};
use nl_exec_meaning::ends::{fault, left, number_of};
use nl_exec_meaning::{BoxedTurns, Code, Exit, Frame, Hands, Making, Next, Turns};
use nl_fixed::{NoMemory, Num};
use nl_value::{AgentKind, AgentSet, Serials, Value};
use nl_words::Kinds;
use std::alloc::Global;

/// What the word takes comes first: a number, or with whom links are to be made.
#[inline]
pub fn enter_making<S: Store>(
    code: &Code,
    hands: &Hands<S>,
    node: u32,
    runs: Kinds,
    breed: Option<u32>,
    word: Making,
) -> Next
    requires { MakingStands (ground hands.now).layout runs breed word }
    ensures meaning { Means code.now result hands.now hands.now
        (λ prev s. making_case word breed runs prev (node_at code.now node) s) }
    ensures falls { next_work code.now result < 6 + weights (parts (node_at code.now node)) }
    ensures fits { NextFits (ground hands.now) result }
{
    let frame = Frame::MakingInput {
        node,
        word,
        breed,
        runs,
    };
    match code.part(node, 0) {
        Some(child) => Next::Go(frame, child),
        None => Next::Answer(fault(ErrorKind::WrongType, code.span(node), hands.site)),
    }
}

// ---- births

// What a call gives, with its refusal as an error.
fn told(births: Result<Serials, BirthFail>) -> Result<Serials, ActFail>
    ensures { result ≡ as_told births }
{
    match births {
        Ok(made) => Ok(made),
        Err(BirthFail::TooMany) => Err(ActFail::Error(ErrorKind::TooMany)),
        Err(BirthFail::LinkFault) => Err(ActFail::Error(ErrorKind::LinkFault)),
        Err(BirthFail::NoMemory) => Err(ActFail::NoMemory),
    }
}

// Turtles at the point 0 0.
fn create_turtles<S: Store>(
    alloc: Global,
    hands: &mut Hands<S>,
    ordered: bool,
    breed: Option<u32>,
    number: Num,
) -> Result<Serials, ActFail>
    requires breed { IsTrue (is_breed_or_none (is_turtle_breed (ground hands.old).layout) breed) }
    requires fit { HandsFit hands.old }
    ensures told { Makes result hands.new hands.old (born_of (the_making.Create ordered) breed number) }
    ensures stands { Stands hands.new hands.old }
{
    let breed = breed_or_none(breed);
    let stage = &mut hands.stage;
    told(create(
        alloc,
        &mut stage.store,
        &mut stage.stream,
        breed,
        number,
        ordered,
    ))
}

// The breed of those that a turtle hatches: that of the word, or its own.
fn breed_of_hatched<S: Store>(store: &S, parent: u64, breed: Option<u32>) -> u32
    requires lives { TurtleLives parent (S.world store.now) }
    requires breed { IsTrue (is_breed_or_none (is_turtle_breed (S.world store.now).rest.layout) breed) }
    ensures breed { result ≡ bred_as (turtle_of parent (S.world store.now).rest) breed }
    ensures stands { IsTrue (is_turtle_breed (S.world store.now).rest.layout result) }
{
    match breed {
        Some(breed) => breed,
        None => store.breed_of(parent),
    }
}

// Turtles of the one that runs.
fn hatch_turtles<S: Store>(
    alloc: Global,
    hands: &mut Hands<S>,
    breed: Option<u32>,
    number: Num,
) -> Result<Serials, ActFail>
    requires lives { OwnerLives hands.old.site.agent (S.world hands.old.stage.store) }
    requires breed { IsTrue (is_breed_or_none (is_turtle_breed (ground hands.old).layout) breed) }
    requires fit { HandsFit hands.old }
    ensures told { Makes result hands.new hands.old (born_of the_making.Hatch breed number) }
    ensures stands { Stands hands.new hands.old }
{
    let Owner::Turtle(parent) = hands.site.agent else {
        return Err(ActFail::Error(ErrorKind::WrongContext));
    };
    let breed = breed_of_hatched(&hands.stage.store, parent, breed);
    told(hatch(alloc, &mut hands.stage.store, parent, breed, number))
}

// Turtles on the patch that runs.
fn sprout_turtles<S: Store>(
    alloc: Global,
    hands: &mut Hands<S>,
    breed: Option<u32>,
    number: Num,
) -> Result<Serials, ActFail>
    requires lives { OwnerLives hands.old.site.agent (S.world hands.old.stage.store) }
    requires breed { IsTrue (is_breed_or_none (is_turtle_breed (ground hands.old).layout) breed) }
    requires fit { HandsFit hands.old }
    ensures told { Makes result hands.new hands.old (born_of the_making.Sprout breed number) }
    ensures stands { Stands hands.new hands.old }
{
    let Owner::Patch(patch) = hands.site.agent else {
        return Err(ActFail::Error(ErrorKind::WrongContext));
    };
    let breed = breed_or_none(breed);
    let stage = &mut hands.stage;
    told(sprout(
        alloc,
        &mut stage.store,
        &mut stage.stream,
        patch,
        breed,
        number,
    ))
}

// So many turtles, as the word says.
fn born<S: Store>(
    alloc: Global,
    hands: &mut Hands<S>,
    word: Making,
    breed: Option<u32>,
    runs: Kinds,
    number: Num,
) -> Result<Serials, ActFail>
    requires lives { IsTrue (not runs.observer) →
        OwnerLives hands.old.site.agent (S.world hands.old.stage.store) }
    requires word { MakingStands (ground hands.old).layout runs breed word }
    requires fit { HandsFit hands.old }
    ensures told { Makes result hands.new hands.old (born_of word breed number) }
    ensures stands { Stands hands.new hands.old }
{
    match word {
        Making::Create { ordered } => create_turtles(alloc, hands, ordered, breed, number),
        Making::Hatch => hatch_turtles(alloc, hands, breed, number),
        Making::Sprout => sprout_turtles(alloc, hands, breed, number),
        Making::Link { .. } => Err(ActFail::Error(ErrorKind::WrongType)),
    }
}

// ---- links

// The turtles of a set of them.
fn turtles_in<S: Store>(alloc: Global, store: &S, value: &Value) -> Result<Serials, ActFail>
    requires { IsTrue (fits_rest (S.world store.now).rest (plain value.now)) }
    ensures told { let r = (S.world store.now).rest in
        Gives {X = List ℕ} (λ targets. targets) result (turtles_in r (plain value.now)) }
    ensures live { IfOk result (All (λ target. TurtleLives target (S.world store.now))) }
{
    let Value::Set(set) = value else {
        return Err(ActFail::Error(ErrorKind::WrongType));
    };
    let set: &AgentSet = set;
    match set.kind() {
        AgentKind::Turtle => {
            // What the serials rest on: the store stands for a world.
            let _stands = store.shape();
            let turtles = members(alloc, set, store)?;
            Ok(turtles)
        }
        AgentKind::Patch | AgentKind::Link => Err(ActFail::Error(ErrorKind::WrongType)),
    }
}

// With whom links are to be made: one turtle, or those of a set of turtles.
fn targets_in<S: Store>(
    alloc: Global,
    store: &S,
    one: bool,
    value: &Value,
) -> Result<Serials, ActFail>
    requires { IsTrue (fits_rest (S.world store.now).rest (plain value.now)) }
    ensures told { let r = (S.world store.now).rest in
        Gives {X = List ℕ} (λ targets. targets) result (targets_in r one (plain value.now)) }
    ensures live { IfOk result (All (λ target. TurtleLives target (S.world store.now))) }
{
    if !one {
        return turtles_in(alloc, store, value);
    }
    let Owner::Turtle(turtle) = as_agent(value, store)? else {
        return Err(ActFail::Error(ErrorKind::WrongType));
    };
    let mut targets = Serials::empty(alloc);
    targets.push(alloc, turtle)?;
    Ok(targets)
}

// Links of the turtle that runs.
fn link_turtles<S: Store>(
    alloc: Global,
    hands: &mut Hands<S>,
    way: Way,
    one: bool,
    breed: Option<u32>,
    value: &Value,
) -> Result<Serials, ActFail>
    requires lives { OwnerLives hands.old.site.agent (S.world hands.old.stage.store) }
    requires breed { IsTrue (is_breed_or_none (is_link_breed (ground hands.old).layout) breed) }
    requires value { IsTrue (fits (ground hands.old) (plain value.now)) }
    requires fit { HandsFit hands.old }
    ensures told { Makes result hands.new hands.old (linked_by way one breed (plain value.now)) }
    ensures stands { Stands hands.new hands.old }
{
    let Owner::Turtle(caller) = hands.site.agent else {
        return Err(ActFail::Error(ErrorKind::WrongContext));
    };
    let targets = targets_in(alloc, &hands.stage.store, one, value)?;
    let breed = breed_or_none(breed);
    told(link(alloc, &mut hands.stage.store, breed, way, caller, &targets))
}

// ---- the words

// What is made of the input.
fn made_of<S: Store>(
    alloc: Global,
    hands: &mut Hands<S>,
    word: Making,
    breed: Option<u32>,
    runs: Kinds,
    value: Value,
) -> Result<Serials, ActFail>
    requires lives { IsTrue (not runs.observer) →
        OwnerLives hands.old.site.agent (S.world hands.old.stage.store) }
    requires word { MakingStands (ground hands.old).layout runs breed word }
    requires value { IsTrue (fits (ground hands.old) (plain value)) }
    requires fit { HandsFit hands.old }
    ensures told { Makes result hands.new hands.old (made_of word breed (plain value)) }
    ensures stands { Stands hands.new hands.old }
{
    if let Making::Link { way, one } = word {
        return link_turtles(alloc, hands, way, one, breed, &value);
    }
    match number_of(value) {
        Some(number) => born(alloc, hands, word, breed, runs, number),
        None => Err(ActFail::Error(ErrorKind::WrongType)),
    }
}

// Whom a word makes.
fn kind_made(word: Making) -> AgentKind
    ensures kind { result ≡ kind_made word }
    ensures fits { (g : Ground) (numbers : List ℕ) → MembersFit g result numbers }
{
    match word {
        Making::Link { .. } => AgentKind::Link,
        _ => AgentKind::Turtle,
    }
}

// The new ones run the block, where there is one, in random order.
fn run_by_new<S: Store>(
    alloc: Global,
    code: &Code,
    hands: &mut Hands<S>,
    node: u32,
    which: AgentKind,
    made: Serials,
) -> Result<Next, NoMemory>
    requires made { (numbers : List ℕ) → MembersFit (ground hands.old) which numbers }
    requires fit { HandsFit hands.old }
    ensures meaning { let t = node_at code.now node in
        IfOk result (λ next. Means code.now next hands.new hands.old
        (λ prev s. run_by_new prev t 1 which made (slice_get (parts t) 1) s)) }
    ensures falls { IfOk result (λ next. next_work code.now next ≡ 0) }
    ensures fits { IfOk result (λ next. NextFits (ground hands.new) next) }
    ensures stands { IfOk result (λ next. Stands hands.new hands.old) }
{
    let Some(_block) = code.part(node, 1) else {
        return Ok(Next::Answer(Exit::Gives(Value::Nobody)));
    };
    let list = made.into_vec();
    let members = mixed(hands, list);
    let turns = Turns {
        which,
        members,
        at: 0,
        site: hands.site,
    };
    let turns = BoxedTurns::new(alloc, turns)?;
    Ok(next_turn(code, hands, node, 1, turns))
}

/// A dead agent leaves; else the agents are made, all of them before the block is run.
#[inline]
pub fn resume_making<S: Store>(
    alloc: Global,
    code: &Code,
    hands: &mut Hands<S>,
    node: u32,
    word: Making,
    breed: Option<u32>,
    runs: Kinds,
    exit: Exit,
) -> Result<Next, NoMemory>
    requires word { MakingStands (ground hands.old).layout runs breed word }
    requires fit { HandsFit hands.old }
    requires value { ExitFits (ground hands.old) exit }
    ensures meaning { IfOk result (λ next. Means code.now next hands.new hands.old
        (λ prev s. resumed code.now prev (frame.MakingInput node word breed runs) (ended exit s))) }
    ensures falls { IfOk result (λ next.
        next_work code.now next < frame_work code.now (frame.MakingInput node word breed runs)) }
    ensures fits { IfOk result (λ next. NextFits (ground hands.new) next) }
    ensures stands { IfOk result (λ next. Stands hands.new hands.old) }
{
    let value = match exit {
        Exit::Gives(value) => value,
        exit => return Ok(Next::Answer(exit)),
    };
    if let Some(exit) = left(hands, runs) {
        return Ok(Next::Answer(exit));
    }
    match made_of(alloc, hands, word, breed, runs, value) {
        Ok(made) => run_by_new(alloc, code, hands, node, kind_made(word), made),
        Err(ActFail::Error(kind)) => { Ok(Next::Answer(fault(kind, code.span(node), hands.site))) }
        Err(ActFail::NoMemory) => Err(NoMemory),
    }
}
