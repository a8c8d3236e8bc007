//! What each act does.
ghost use Rattle.std.specs.Prelude.{◌≡◌, map, Ok, IsTrue, IfOk, OnErr};
ghost use Rattle.nl_value.specs.Views.{plain};
ghost use Rattle.nl_agents.specs.Changes.{TurtleLives};
ghost use Rattle.nl_agentset_query.specs.Inputs.{inputs_fit};
ghost use Rattle.nl_exec_acts.specs.Stage.{changed_rest, left_by, Leaves};
ghost use Rattle.nl_exec_acts.specs.Acts.{living_turtle, moved_by, cleared};

use crate::fail::{ActFail, ErrorKind};
use crate::words::{Clear, Move};
use nl_agents::{Owner, Store};
use nl_value::Value;

/// The turtle that an agent is, where it lives.
fn living_turtle<S: Store>(agent: Owner, store: &S) -> Result<u64, ErrorKind>
    ensures turtle { result ≡ living_turtle (S.world store.now).rest agent }
    ensures lives { IfOk result (λ turtle. TurtleLives turtle (S.world store.now)) }
{
    match agent {
        Owner::Turtle(turtle) if store.turtle_lives(turtle) => Ok(turtle),
        _ => Err(ErrorKind::WrongContext),
    }
}

/// What a turtle does by a word of motion.
pub(crate) fn move_by<S: Store>(
    which: Move,
    agent: Owner,
    inputs: &[Value],
    store: &mut S,
) -> Result<(), ActFail>
    requires { IsTrue (inputs_fit (S.world store.old).rest (map plain inputs.now)) }
    ensures answer { let w = S.world store.old in
        Leaves result w (S.world store.new) (moved_by which agent (map plain inputs.now) w.rest) }
    ensures kept { OnErr result (S.world store.new ≡ S.world store.old) }
{
    let turtle = living_turtle(agent, store)?;
    which.perform(turtle, inputs, store)?;
    Ok(())
}

impl Clear {
    /// What becomes of agents.
    pub(crate) fn perform<S: Store>(self, store: &mut S)
        ensures { let w = S.world store.old in
            S.world store.new ≡ left_by w (Ok (changed_rest (cleared self) w.rest)) }
    {
        match self {
            Clear::Turtles => store.clear_turtles(),
            Clear::Links => store.clear_links(),
            Clear::Patches => store.clear_patches(),
        }
    }
}
