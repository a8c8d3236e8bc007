//! What agents and global variables hold at first.
ghost use Rattle.std.specs.Prelude.{◌≡◌, replicate, IfSome, IfOk};
ghost use Rattle.nl_agents_layout.specs.BuiltIn.{zero_value};
ghost use Rattle.nl_plain.specs.Lists.{TurtlesAscend, HasTurtle, KeepAll, birth_vars_among};

use crate::finding::turtle_in;
use nl_agents::{Layout, Turtle, Variables};
use nl_fixed::{NoMemory, Num};
use nl_value::Items;
use std::alloc::Global;

/// The number 0, so many times.
pub(crate) fn zeros(alloc: Global, count: usize) -> Result<Items, NoMemory>
    ensures { IfOk result (λ items. items ≡ replicate count zero_value) }
{
    let zero = Num::whole(0).unwrap();
    Items::filled(alloc, zero, count)
}

/// What a turtle of a breed keeps at its birth: first values, or those of its parent.
pub(crate) fn birth_vars(
    alloc: Global,
    layout: &Layout,
    turtles: &[Turtle],
    breed: u32,
    parent: Option<u64>,
) -> Result<Variables, NoMemory>
    requires order { TurtlesAscend turtles.now }
    requires many { KeepAll layout.now turtles.now }
    requires lives { IfSome parent (λ serial. HasTurtle serial turtles.now) }
    ensures { IfOk result (λ vars. vars ≡ birth_vars_among layout.now breed parent turtles.now) }
{
    match parent {
        None => Variables::first_of_turtle(alloc, layout, breed),
        Some(serial) => turtle_in(turtles, serial)
            .vars
            .hatched(alloc, layout, breed),
    }
}
