//! What a turtle keeps at its birth.
ghost use Rattle.std.specs.Prelude.{◌≡◌, IfSome, IfOk, IsSome, find};
ghost use Rattle.nl_agents.specs.Changes.{is_turtle};
ghost use Rattle.nl_store_files.specs.Agents.{KeepAll};
ghost use Rattle.nl_store.specs.Worlds.{birth_vars_among};

use nl_agents::{Layout, Variables};
use nl_fixed::NoMemory;
use nl_store_files::Registry;
use std::alloc::Global;

/// First values of a turtle of the breed, or copies of a parent's, by the rule on a change of breed.
pub(crate) fn birth_vars(
    alloc: Global,
    layout: &Layout,
    files: &Registry,
    breed: u32,
    parent: Option<u64>,
) -> Result<Variables, NoMemory>
    requires many { KeepAll layout.now files.now.turtles }
    requires lives { IfSome parent (λ serial. IsSome (find (is_turtle serial) files.now.turtles)) }
    ensures { IfOk result (λ vars. vars ≡ birth_vars_among layout.now breed parent files.now.turtles) }
{
    match parent {
        None => Variables::first_of_turtle(alloc, layout, breed),
        Some(serial) => files.turtle_vars(serial).hatched(alloc, layout, breed),
    }
}
