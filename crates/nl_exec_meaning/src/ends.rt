//! How cases end, and who may go on.
ghost use Rattle.std.specs.Prelude.{◌≡◌, ℕ, ℤ, Bool, None, IfSome, IsTrue, not};
ghost use Rattle.nl_fixed.specs.declared.span.Span.{Span as Place};
ghost use Rattle.nl_value.specs.Views.{plain};
ghost use Rattle.nl_exec_acts.specs.Acts.{is_gone};
ghost use Rattle.nl_exec_acts.specs.declared.fail.ErrorKind.TheVariants.{WrongType};
ghost use Rattle.nl_exec_meaning.specs.State.{State, Outcome, found, with_number, with_truth};
ghost use Rattle.nl_tree.specs.Context.{allows};
ghost use Rattle.nl_exec_meaning.specs.Running.{allowed, staying, kind_of};
ghost use Rattle.nl_agents.specs.Changes.{OwnerLives};
ghost use Rattle.nl_exec_meaning.specs.Ground.{SiteFits};
ghost use Rattle.nl_exec_meaning.specs.Seen.{ground, state_of};
ghost use Rattle.nl_exec_meaning.specs.Standing.{ExitFits};
ghost use Rattle.nl_exec_meaning.specs.Means.{unless_ended};
ghost use Rattle.nl_exec_meaning.specs.declared.exits.Exit.TheVariants.{Error};
ghost use Rattle.nl_exec_meaning.specs.Code.{Code as Nodes};

use crate::Site;
use crate::exits::Exit;
use crate::hands::Hands;
use nl_agents::{Owner, Store};
use nl_exec_acts::ErrorKind;
use nl_fixed::{Num, Span};
use nl_value::Value;
use nl_words::Kinds;

/// An error at a place of the body that runs.
#[inline(never)]
pub fn fault(kind: ErrorKind, place: Span, site: Site) -> Exit
    ensures { result ≡ Error kind place site.body }
{
    Exit::Error(kind, place, site.body)
}

// ---- what a value is taken for

/// The number that a value is.
#[inline(always)]
pub fn number_of(value: Value) -> Option<Num>
    ensures { (place : Place) (s : State) (next : ℤ → Outcome) →
        with_number (plain value) place s next ≡ found result WrongType place s next }
{
    match value {
        Value::Number(number) => Some(number),
        _ => None,
    }
}

/// The truth that a value is.
#[inline(always)]
pub fn truth_of(value: Value) -> Option<bool>
    ensures { (place : Place) (s : State) (next : Bool → Outcome) →
        with_truth (plain value) place s next ≡ found result WrongType place s next }
{
    match value {
        Value::Truth(truth) => Some(truth),
        _ => None,
    }
}

// ---- who may go on

/// Whether the agent that runs has died.
#[inline(always)]
pub fn is_dead<S: Store>(hands: &Hands<S>) -> bool
    ensures { result ≡ is_gone (S.world hands.now.stage.store).rest hands.now.site.agent }
{
    match hands.site.agent {
        Owner::Observer => false,
        Owner::Turtle(turtle) => !hands.stage.store.turtle_lives(turtle),
        Owner::Patch(_) => false,
        Owner::Link(link) => !hands.stage.store.link_lives(link),
    }
}

/// How a word ends before it acts where its agent has died. A word that the observer runs too goes on.
#[inline(always)]
#[tactic(auto, using(crate::proofs::Living::owner_lives))]
pub fn left<S: Store>(hands: &Hands<S>, runs: Kinds) -> Option<Exit>
    ensures ends { (c : Nodes) (units : ℕ) (next : Outcome) → let s = state_of c.names hands.now units in
        staying runs s next ≡ unless_ended result s next }
    ensures lives { result ≡ None → IsTrue (not runs.observer) → SiteFits (ground hands.now) hands.now.site →
        OwnerLives hands.now.site.agent (S.world hands.now.stage.store) }
    ensures fits { IfSome result (ExitFits (ground hands.now)) }
{
    if runs.observer {
        return None;
    }
    if is_dead(hands) {
        Some(Exit::Left)
    } else {
        None
    }
}

// Whether an agent of this kind may run a word of these kinds.
#[inline(always)]
fn allows(runs: Kinds, agent: Owner) -> bool
    ensures { result ≡ allows runs (kind_of agent) }
{
    match agent {
        Owner::Observer => runs.observer,
        Owner::Turtle(_) => runs.turtle,
        Owner::Patch(_) => runs.patch,
        Owner::Link(_) => runs.link,
    }
}

/// How a word ends before its inputs: where its agent has died, and where it is of a kind that may not run the word.
#[inline(always)]
pub fn barred<S: Store>(hands: &Hands<S>, runs: Kinds, place: Span) -> Option<Exit>
    ensures ends { (c : Nodes) (units : ℕ) (next : Outcome) → let s = state_of c.names hands.now units in
        allowed runs place s next ≡ unless_ended result s next }
    ensures lives { result ≡ None → IsTrue (not runs.observer) → SiteFits (ground hands.now) hands.now.site →
        OwnerLives hands.now.site.agent (S.world hands.now.stage.store) }
    ensures fits { IfSome result (ExitFits (ground hands.now)) }
{
    if let Some(exit) = left(hands, runs) {
        return Some(exit);
    }
    if allows(runs, hands.site.agent) {
        None
    } else {
        Some(fault(ErrorKind::WrongContext, place, hands.site))
    }
}
