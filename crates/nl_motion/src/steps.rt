//! Turtles go to a point.
ghost use Rattle.std.specs.Prelude.{◌≡◌};
ghost use Rattle.nl_grid.specs.Geometry.{wrapped_point};
ghost use Rattle.nl_agents.specs.Changes.{TurtleLives, turtle_of, value_of};
ghost use Rattle.nl_agents_layout.specs.BuiltIn.{heading_slot};
ghost use Rattle.nl_motion.specs.Motion.{or_zero, held_number, step_end, step_answer, stepped, place_answer, placed};

use crate::faults::MoveFault;
use crate::numbers::number_of;
use nl_agents::{HEADING, Owner, Store};
use nl_fixed::Num;

/// The heading of a turtle, in degrees.
fn heading_of<S: Store>(store: &S, turtle: u64) -> Num
    requires { TurtleLives turtle (S.world store.now) }
    ensures { result ≡ or_zero (held_number (value_of (Owner.Turtle turtle) heading_slot (S.world store.now))) }
{
    match number_of(store, Owner::Turtle(turtle), HEADING) {
        Some(heading) => heading,
        None => Num::whole(0).unwrap(),
    }
}

/// A turtle makes one step by its heading, backwards by a negative distance: to `x + by * sin heading` and `y + by * cos heading`, each
/// product rounded. `false` where that point is outside on an axis that doesn't wrap, and `Overflow`, which comes first, where a sum is
/// out of the range of numbers; the turtle stays then.
pub fn step<S: Store>(store: &mut S, turtle: u64, by: Num) -> Result<bool, MoveFault>
    requires { TurtleLives turtle (S.world store.old) }
    ensures world { S.world store.new ≡ stepped turtle by (S.world store.old) }
    ensures answer { result ≡ step_answer (step_end turtle by (S.world store.old)) }
{
    let shape = store.shape();
    let at = store.at(turtle);
    let heading = heading_of(store, turtle);
    match shape.ahead(at, heading, by) {
        Ok(Some(to)) => {
            store.shift(turtle, to);
            Ok(true)
        }
        Ok(None) => Ok(false),
        Err(_) => Err(MoveFault::Overflow),
    }
}

/// A turtle stands at the point of these coordinates, each moved by whole sides where its axis wraps. `OutOfWorld` where one is outside
/// on an axis that doesn't; the turtle stays then.
pub fn place<S: Store>(store: &mut S, turtle: u64, x: Num, y: Num) -> Result<(), MoveFault>
    requires { TurtleLives turtle (S.world store.old) }
    ensures world { S.world store.new ≡ placed turtle x y (S.world store.old) }
    ensures answer { result ≡ place_answer (wrapped_point (S.world store.old).rest.shape x y) }
{
    match store.shape().wrap(x, y) {
        Some(to) => {
            store.shift(turtle, to);
            Ok(())
        }
        None => Err(MoveFault::OutOfWorld),
    }
}
