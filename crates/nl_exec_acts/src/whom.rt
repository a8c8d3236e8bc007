//! Agents that the caller has from who runs and who asked, and the directions of links.
ghost use Rattle.std.specs.Prelude.{◌≡◌, IsTrue, IfOk};
ghost use Rattle.nl_value.specs.Views.{plain};
ghost use Rattle.nl_agents.specs.Changes.{link_of};
ghost use Rattle.nl_agents.specs.Standing.{fits_rest};
ghost use Rattle.nl_exec_acts.specs.Stage.{outcome_map};
ghost use Rattle.nl_exec_acts.specs.Acts.{agent_or_none, end_beside, other_end, whom, link_is, is_link};
ghost use Rattle.nl_exec_acts.specs.Performing.{owner_fits};

use crate::fail::ErrorKind;
use crate::words::Whom;
use nl_agents::{Owner, Store};
use nl_value::Value;

/// An agent as a value. The observer is none.
fn agent_or_none<S: Store>(agent: Owner, store: &S) -> Result<Value, ErrorKind>
    requires { IsTrue (owner_fits (S.world store.now).rest agent) }
    ensures value { outcome_map plain result ≡ agent_or_none agent }
    ensures fit { IfOk result (λ value. IsTrue (fits_rest (S.world store.now).rest (plain value))) }
{
    let _store = store;
    match agent {
        Owner::Observer => Err(ErrorKind::NoAgent),
        Owner::Turtle(turtle) => Ok(Value::Turtle(turtle)),
        Owner::Patch(patch) => Ok(Value::Patch(patch)),
        Owner::Link(link) => Ok(Value::Link(link)),
    }
}

/// The end of a link that isn't the turtle, where the turtle is an end of it.
fn end_beside<S: Store>(turtle: u64, link: u64, store: &S) -> Result<Value, ErrorKind>
    ensures value { outcome_map plain result ≡ end_beside turtle (link_of link (S.world store.now).rest) }
    ensures fit { IfOk result (λ value. IsTrue (fits_rest (S.world store.now).rest (plain value))) }
{
    if !store.link_lives(link) {
        return Err(ErrorKind::NoAgent);
    }
    let (end1, end2) = store.ends(link);
    if end1 == turtle {
        Ok(Value::Turtle(end2))
    } else if end2 == turtle {
        Ok(Value::Turtle(end1))
    } else {
        Err(ErrorKind::NoAgent)
    }
}

/// Of a turtle that its link asked, or a link that its end asked: the other end.
fn other_end<S: Store>(agent: Owner, asker: Owner, store: &S) -> Result<Value, ErrorKind>
    ensures value { outcome_map plain result ≡ other_end (S.world store.now).rest agent asker }
    ensures fit { IfOk result (λ value. IsTrue (fits_rest (S.world store.now).rest (plain value))) }
{
    match (agent, asker) {
        (Owner::Turtle(turtle), Owner::Link(link)) => end_beside(turtle, link, store),
        (Owner::Link(link), Owner::Turtle(turtle)) => end_beside(turtle, link, store),
        _ => Err(ErrorKind::NoAgent),
    }
}

impl Whom {
    /// The agent that the word tells.
    pub(crate) fn of<S: Store>(
        self,
        agent: Owner,
        asker: Owner,
        store: &S,
    ) -> Result<Value, ErrorKind>
        requires agent { IsTrue (owner_fits (S.world store.now).rest agent) }
        requires asker { IsTrue (owner_fits (S.world store.now).rest asker) }
        ensures value { outcome_map plain result ≡ whom (S.world store.now).rest agent asker self }
        ensures fit { IfOk result (λ value. IsTrue (fits_rest (S.world store.now).rest (plain value))) }
    {
        match self {
            Whom::Caller => agent_or_none(agent, store),
            Whom::Asker => agent_or_none(asker, store),
            Whom::OtherEnd => other_end(agent, asker, store),
        }
    }
}

/// Whether a link lives and has a direction, or has none.
fn link_is<S: Store>(directed: bool, link: u64, store: &S) -> bool
    ensures { result ≡ link_is directed (link_of link (S.world store.now).rest) }
{
    if !store.link_lives(link) {
        return false;
    }
    let (_, own) = store.link_breed(link);
    own == directed
}

/// Whether a value is a living link with a direction, or one without.
pub(crate) fn is_link<S: Store>(directed: bool, value: &Value, store: &S) -> bool
    ensures { result ≡ is_link (S.world store.now).rest directed (plain value.now) }
{
    match value {
        Value::Link(link) => link_is(directed, *link, store),
        _ => false,
    }
}
