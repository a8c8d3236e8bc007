//! How many members a set has that a node gives, without the set being made.
ghost use Rattle.std.specs.Prelude.{◌≡◌, ◌==◌, ◌∷◌, [], None, true, filter, length, not, IfSome};
ghost use Rattle.nl_value.specs.declared.sets.AgentKind.TheVariants as kind;
ghost use Rattle.nl_tree.specs.Tree.{label};
ghost use Rattle.nl_agents.specs.Changes.{OwnerLives, TurtleLives};
ghost use Rattle.nl_agents.specs.Standing.{IsWorld};
ghost use Rattle.nl_agentset_query.specs.Agents.{own_patch};
ghost use Rattle.nl_agentset_query.specs.declared.words.OfSet.TheVariants as of_set;
ghost use Rattle.nl_agentset_query.specs.declared.words.QueryWord.TheVariants as query;
ghost use Rattle.nl_agentset_query.specs.declared.words.Side.TheVariants as side;
ghost use Rattle.nl_agentset.specs.Links.{links_at};
ghost use Rattle.nl_agentset.specs.Places.{turtles_on};
ghost use Rattle.nl_agentset.specs.Sets.{is_caller};
ghost use Rattle.nl_exec_acts.specs.declared.words.Act.TheVariants as act;
ghost use Rattle.nl_exec_meaning.specs.declared.words.Built.TheVariants as built;
ghost use Rattle.nl_exec_meaning.specs.Cases as case;
ghost use Rattle.nl_exec_meaning.specs.Cases.{case_of};
ghost use Rattle.nl_exec_meaning.specs.Code.{node_at};
ghost use Rattle.nl_exec_meaning.specs.Standing.{HandsFit};
ghost use Rattle.nl_exec_short.specs.Had.{GivesCounted, GivesHere, GivesOne, GivesSoMany, TellsSet};

use crate::numbers::one_part;
use crate::running::lives_and_may_run;
use nl_agents::{Owner, Steps, Store};
use nl_agentset_query::agents::own_patch;
use nl_agentset_query::words::{OfSet, QueryWord, Side, Standing};
use nl_exec_acts::Act;
use nl_exec_meaning::{Built, Code, Hands, Op};
use nl_value::Serials;
use nl_words::Kinds;
use std::alloc::Global;
use std::marker::Brand;
use std::sync::ledger::{Blank, Ledger};

// ---- the counts of the store

// How many turtles stand on the patch of a living agent. They are read with this counter.
fn turtles_counted<S: Store, L: Ledger>(blank: Blank, agent: Owner, store: &S) -> usize
    requires name { blank.name ≡ L.name }
    requires parts { blank.parts ≡ L.parts }
    requires some { blank.parts ≡ 1 }
    requires lives { OwnerLives agent (S.world store.now) }
    ensures { let r = (S.world store.now).rest in
        result ≡ length (turtles_on r None (own_patch r agent ∷ [])) }
{
    let mut steps = Steps::<L>::new(blank);
    store.count_on(own_patch(agent, store), &mut steps)
}

// How many turtles stand on the patch of a living agent.
#[inline(always)]
fn turtles_here<S: Store>(agent: Owner, store: &S) -> usize
    requires { OwnerLives agent (S.world store.now) }
    ensures { let r = (S.world store.now).rest in
        result ≡ length (turtles_on r None (own_patch r agent ∷ [])) }
{
    turtles_counted::<S, Brand>(Blank::new(1), agent, store)
}

// How many links a living turtle has. They are read with this counter.
fn links_counted<S: Store, L: Ledger>(blank: Blank, turtle: u64, store: &S) -> usize
    requires name { blank.name ≡ L.name }
    requires parts { blank.parts ≡ L.parts }
    requires some { blank.parts ≡ 1 }
    requires lives { TurtleLives turtle (S.world store.now) }
    ensures { result ≡ length (links_at (S.world store.now).rest side.Any None turtle) }
{
    let mut steps = Steps::<L>::new(blank);
    store.count_links_of(turtle, &mut steps)
}

// How many links a living turtle has.
#[inline(always)]
fn links_of_own<S: Store>(turtle: u64, store: &S) -> usize
    requires { TurtleLives turtle (S.world store.now) }
    ensures { result ≡ length (links_at (S.world store.now).rest side.Any None turtle) }
{
    links_counted::<S, Brand>(Blank::new(1), turtle, store)
}

// ---- the members of a node's set

/// How many living members a set has.
#[derive(Clone, Copy, Debug)]
struct Counted {
    all: usize,
    /// All but the agent that runs.
    but_own: usize,
}

// How many turtles stand on the patch of a living agent, and how many of them are others.
fn counted_here<S: Store>(agent: Owner, store: &S) -> Counted
    requires { OwnerLives agent (S.world store.now) }
    ensures all { let r = (S.world store.now).rest in
        result.all ≡ length (turtles_on r None (own_patch r agent ∷ [])) }
    ensures but_own { let r = (S.world store.now).rest in
        let here = turtles_on r None (own_patch r agent ∷ []) in
        result.but_own ≡ length (filter (λ number. not (is_caller agent kind.Turtle number)) here) }
{
    // What the order of the turtles rests on.
    let _stands = store.shape();
    let all = turtles_here(agent, store);
    match agent {
        // A turtle is one of those on its patch.
        Owner::Turtle(_) => Counted {
            all,
            but_own: all - 1,
        },
        _ => Counted { all, but_own: all },
    }
}

// How many members the set has that a query of no breed gives without inputs.
fn counted_told<S: Store>(hands: &Hands<S>, which: QueryWord) -> Option<Counted>
    requires { OwnerLives hands.now.site.agent (S.world hands.now.stage.store) }
    ensures told { let w = S.world hands.now.stage.store in
        IfSome result (λ many. TellsSet w hands.now.site.agent which many.all many.but_own) }
    ensures stands { IsWorld (S.world hands.now.stage.store) }
{
    // What the order of the members rests on.
    let _stands = hands.stage.store.shape();
    match which {
        QueryWord::Standing(place) => {
            let Standing::Here = place else {
                return None;
            };
            Some(counted_here(hands.site.agent, &hands.stage.store))
        }
        QueryWord::MyLinks(side) => {
            let Side::Any = side else {
                return None;
            };
            let Owner::Turtle(turtle) = hands.site.agent else {
                return None;
            };
            let all = links_of_own(turtle, &hands.stage.store);
            Some(Counted { all, but_own: all })
        }
        _ => None,
    }
}

// How many members the set has that a word of no breed gives without inputs.
fn counted_by_word<S: Store>(code: &Code, hands: &Hands<S>, node: u32) -> Option<Counted>
    requires { HandsFit hands.now }
    ensures given { IfSome result (λ many. GivesCounted code.now hands.now node 0 many.all many.but_own) }
    ensures stands { IfSome result (λ many. IsWorld (S.world hands.now.stage.store)) }
{
    let Op::Word {
        runs,
        breed: None,
        word: Built::Act(Act::Query(which)),
    } = code.op(node)
    else {
        return None;
    };
    if code.count(node) != 0 || !lives_and_may_run(hands, runs) {
        return None;
    }
    counted_told(hands, which)
}

// ---- `other`

// How many members there are but the agent that runs, of the set that `other` takes.
fn count_but_own<S: Store>(
    code: &Code,
    hands: &Hands<S>,
    node: u32,
    runs: Kinds,
    breed: Option<u32>,
) -> Option<usize>
    requires fit { HandsFit hands.now }
    requires is { case_of code.now.program.declared (label (node_at code.now node))
        ≡ case.Word runs breed (built.Act (act.Query (query.OfSet of_set.Other))) }
    ensures { IfSome result (λ many. GivesSoMany code.now hands.now node 1 many) }
{
    if !lives_and_may_run(hands, runs) {
        return None;
    }
    let Some(part) = one_part(code, node) else {
        return None;
    };
    match counted_by_word(code, hands, part) {
        Some(counted) => Some(counted.but_own),
        None => None,
    }
}

/// How many living members the set has that a node gives, where it is one of the turtles on the own patch or of the own links, or all of it
/// but the agent that runs. It takes no memory.
pub fn count<S: Store>(code: &Code, hands: &Hands<S>, node: u32) -> Option<usize>
    requires { HandsFit hands.now }
    ensures { IfSome result (λ many. GivesSoMany code.now hands.now node 1 many) }
{
    match code.op(node) {
        Op::Word {
            runs,
            breed,
            word: Built::Act(Act::Query(QueryWord::OfSet(OfSet::Other))),
        } => count_but_own(code, hands, node, runs, breed),
        _ => match counted_by_word(code, hands, node) {
            Some(counted) => Some(counted.all),
            None => None,
        },
    }
}

// ---- the only member

// The turtles on the patch of a living agent, ascending, which are read with this counter. None where memory is refused.
fn turtles_listed<S: Store, L: Ledger>(
    alloc: Global,
    blank: Blank,
    agent: Owner,
    store: &S,
) -> Option<Serials>
    requires name { blank.name ≡ L.name }
    requires parts { blank.parts ≡ L.parts }
    requires some { blank.parts ≡ 1 }
    requires lives { OwnerLives agent (S.world store.now) }
    ensures { let r = (S.world store.now).rest in
        IfSome result (λ turtles. turtles ≡ turtles_on r None (own_patch r agent ∷ [])) }
{
    let mut steps = Steps::<L>::new(blank);
    let mut turtles = Serials::empty(alloc);
    let patch = own_patch(agent, store);
    match store.members_on(alloc, patch, &mut turtles, &mut steps) {
        Ok(()) => Some(turtles),
        Err(_) => None,
    }
}

// The one of two numbers that isn't this one, where the other is.
#[inline(always)]
fn other_of_two(numbers: &[u64], own: u64) -> Option<u64>
    ensures { IfSome result (λ other. filter (λ number. not (number == own)) numbers.now ≡ other ∷ []) }
{
    if numbers.len() != 2 {
        return None;
    }
    let first = numbers[0];
    let second = numbers[1];
    if first == own && second != own {
        Some(second)
    } else if second == own && first != own {
        Some(first)
    } else {
        None
    }
}

// The other turtle on the patch of a living one, where there is just one other.
#[inline(always)]
fn other_here<S: Store>(alloc: Global, agent: Owner, store: &S) -> Option<u64>
    requires { OwnerLives agent (S.world store.now) }
    ensures { let r = (S.world store.now).rest in
        let here = turtles_on r None (own_patch r agent ∷ []) in
        IfSome result (λ other. filter (λ number. not (is_caller agent kind.Turtle number)) here ≡ other ∷ []) }
{
    let Owner::Turtle(turtle) = agent else {
        return None;
    };
    if turtles_here(agent, store) != 2 {
        return None;
    }
    let Some(here) = turtles_listed::<S, Brand>(alloc, Blank::new(1), agent, store) else {
        return None;
    };
    other_of_two(here.as_slice(), turtle)
}

// Whether a node gives the turtles on the patch of the agent that runs.
#[inline(always)]
fn gives_here<S: Store>(code: &Code, hands: &Hands<S>, node: u32) -> bool
    requires fit { HandsFit hands.now }
    requires stands { IsWorld (S.world hands.now.stage.store) }
    ensures { result ≡ true → GivesHere code.now hands.now node 0 }
{
    let Op::Word {
        runs,
        breed: None,
        word: Built::Act(Act::Query(which)),
    } = code.op(node)
    else {
        return false;
    };
    if code.count(node) != 0 || !lives_and_may_run(hands, runs) {
        return false;
    }
    let QueryWord::Standing(place) = which else {
        return false;
    };
    let Standing::Here = place else {
        return false;
    };
    true
}

/// The only living member of the set that a node gives, where these are the turtles on the patch of the agent that runs but itself, and it
/// is a turtle. None where that isn't so, or memory is refused.
#[inline(never)]
pub fn only_other<S: Store>(alloc: Global, code: &Code, hands: &Hands<S>, node: u32) -> Option<u64>
    requires { HandsFit hands.now }
    ensures gives { IfSome result (λ other. GivesOne code.now hands.now node 1 other) }
    ensures lives { IfSome result (λ other. TurtleLives other (S.world hands.now.stage.store)) }
{
    let Op::Word {
        runs,
        breed,
        word: Built::Act(Act::Query(QueryWord::OfSet(OfSet::Other))),
    } = code.op(node)
    else {
        return None;
    };
    if !lives_and_may_run(hands, runs) {
        return None;
    }
    let Some(part) = one_part(code, node) else {
        return None;
    };
    // What the order of the turtles rests on.
    let _stands = hands.stage.store.shape();
    if !gives_here(code, hands, part) {
        return None;
    }
    other_here(alloc, hands.site.agent, &hands.stage.store)
}
