//! Numbers among the variables of agents.
ghost use Rattle.std.specs.Prelude.{◌≡◌};
ghost use Rattle.nl_agents.specs.Changes.{OwnerLives, value_of};
ghost use Rattle.nl_motion.specs.Motion.{held_number};

use nl_agents::{Owner, Store};
use nl_fixed::Num;
use nl_value::Value;

/// The number of a variable: none where the value is no number, or where its owner doesn't own it.
pub(crate) fn number_of<S: Store>(store: &S, owner: Owner, slot: u32) -> Option<Num>
    requires { OwnerLives owner (S.world store.now) }
    ensures { result ≡ held_number (value_of owner slot (S.world store.now)) }
{
    match store.var(owner, slot) {
        Some(Value::Number(number)) => Some(*number),
        _ => None,
    }
}
