//! Who may run a word.
ghost use Rattle.std.specs.Prelude.{◌≡◌, ℕ, true};
ghost use Rattle.nl_fixed.specs.declared.span.Span.{Span as Place};
ghost use Rattle.nl_agents.specs.Changes.{OwnerLives};
ghost use Rattle.nl_exec_meaning.specs.Code.{Code as Nodes};
ghost use Rattle.nl_exec_meaning.specs.Seen.{state_of};
ghost use Rattle.nl_exec_meaning.specs.Standing.{HandsFit};
ghost use Rattle.nl_exec_meaning.specs.Running.{allowed, staying};
ghost use Rattle.nl_exec_meaning.specs.State.{Outcome};

use nl_agents::{Owner, Store};
use nl_exec_meaning::Hands;
use nl_words::Kinds;

/// Whether the agent that runs may run a word of these kinds. A word that the observer may run needs no living agent.
#[inline(always)]
pub fn may_run<S: Store>(hands: &Hands<S>, runs: Kinds) -> bool
    ensures allowed { result ≡ true → (c : Nodes) (n : ℕ) (place : Place) (next : Outcome) →
        allowed runs place (state_of c.names hands.now n) next ≡ next }
    ensures stays { result ≡ true → (c : Nodes) (n : ℕ) (next : Outcome) →
        staying runs (state_of c.names hands.now n) next ≡ next }
{
    match hands.site.agent {
        Owner::Observer => runs.observer,
        Owner::Turtle(turtle) => {
            runs.turtle && (runs.observer || hands.stage.store.turtle_lives(turtle))
        }
        Owner::Patch(_) => runs.patch,
        Owner::Link(link) => runs.link && (runs.observer || hands.stage.store.link_lives(link)),
    }
}

/// Whether the agent that runs lives, and may run a word of these kinds.
#[inline(always)]
pub fn lives_and_may_run<S: Store>(hands: &Hands<S>, runs: Kinds) -> bool
    requires { HandsFit hands.now }
    ensures allowed { result ≡ true → (c : Nodes) (n : ℕ) (place : Place) (next : Outcome) →
        allowed runs place (state_of c.names hands.now n) next ≡ next }
    ensures stays { result ≡ true → (c : Nodes) (n : ℕ) (next : Outcome) →
        staying runs (state_of c.names hands.now n) next ≡ next }
    ensures lives { result ≡ true → OwnerLives hands.now.site.agent (S.world hands.now.stage.store) }
{
    match hands.site.agent {
        Owner::Observer => runs.observer,
        Owner::Turtle(turtle) => runs.turtle && hands.stage.store.turtle_lives(turtle),
        Owner::Patch(_) => runs.patch,
        Owner::Link(link) => runs.link && hands.stage.store.link_lives(link),
    }
}
