//! How agents are drawn.
ghost use Rattle.std.specs.Prelude.{◌≡◌, Some, true, IfOk, IsTrue, OnErr};
ghost use Rattle.nl_value.specs.Views.{plain};
ghost use Rattle.nl_agents_layout.specs.BuiltIn.{slot_of_code};
ghost use Rattle.nl_agents.specs.Changes.{OwnerLives, value_of};
ghost use Rattle.nl_agents.specs.Standing.{MayHold};
ghost use Rattle.nl_exec_acts.specs.Stage.{Leaves};
ghost use Rattle.nl_exec_acts.specs.Acts.{is_drawn, set_owned, look_code, look_value, looks};

use crate::fail::{ActFail, ErrorKind};
use crate::words::Look;
use nl_agents::{Owner, Store};
use nl_agents_layout::built_in::{HIDDEN, PEN_MODE};
use nl_fixed::{NoMemory, Str};
use nl_value::Value;
use std::alloc::Global;

/// A living turtle or link; no other agent is drawn.
fn is_drawn<S: Store>(agent: Owner, store: &S) -> bool
    ensures { result ≡ is_drawn (S.world store.now).rest agent }
{
    match agent {
        Owner::Turtle(turtle) => store.turtle_lives(turtle),
        Owner::Link(link) => store.link_lives(link),
        Owner::Observer | Owner::Patch(_) => false,
    }
}

/// The variable becomes the value, where the agent owns it.
fn set_owned<S: Store>(agent: Owner, slot: u32, value: Value, store: &mut S)
    requires lives { OwnerLives agent (S.world store.old) }
    requires holds { MayHold (S.world store.old).rest agent slot (plain value) }
    ensures { S.world store.new ≡ set_owned agent slot (plain value) (S.world store.old) }
{
    let _kept = store.set_var(agent, slot, value);
}

impl Look {
    /// The slot of the variable that is set.
    fn slot(self) -> u32
        ensures { slot_of_code (look_code self) ≡ Some result }
    {
        match self {
            Look::Hide | Look::Show => HIDDEN,
            Look::PenUp | Look::PenDown | Look::PenErase => PEN_MODE,
        }
    }

    /// What the variable becomes.
    fn value(self, alloc: Global) -> Result<Value, NoMemory>
        ensures { IfOk result (λ value. plain value ≡ look_value self) }
    {
        match self {
            Look::Hide => Ok(Value::Truth(true)),
            Look::Show => Ok(Value::Truth(false)),
            Look::PenUp => Ok(Value::words(alloc, Str::of(alloc, b"up")?)?),
            Look::PenDown => Ok(Value::words(alloc, Str::of(alloc, b"down")?)?),
            Look::PenErase => Ok(Value::words(alloc, Str::of(alloc, b"erase")?)?),
        }
    }

    /// What an agent does by the word.
    pub(crate) fn perform<S: Store>(
        self,
        alloc: Global,
        agent: Owner,
        store: &mut S,
    ) -> Result<(), ActFail>
        ensures answer { let w = S.world store.old in
            Leaves result w (S.world store.new) (looks self agent w.rest) }
        ensures kept { OnErr result (S.world store.new ≡ S.world store.old) }
    {
        if !is_drawn(agent, store) {
            return Err(ActFail::Error(ErrorKind::WrongContext));
        }
        let value = self.value(alloc)?;
        set_owned(agent, self.slot(), value, store);
        Ok(())
    }
}
