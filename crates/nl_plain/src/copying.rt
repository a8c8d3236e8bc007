//! Copies of the lists of agents.
ghost use Rattle.std.specs.Prelude.{◌≡◌, IfOk};

use nl_agents::{Link, Turtle, Variables};
use nl_fixed::NoMemory;
use std::alloc::Global;

/// The same turtles again.
pub(crate) fn copy_turtles(alloc: Global, turtles: &[Turtle]) -> Result<Vec<Turtle>, NoMemory>
    ensures { IfOk result (λ again. again.items ≡ turtles.now) }
{
    let mut copied = Vec::with_capacity(alloc, turtles.len())?;
    for turtle in turtles {
        copied.push(Turtle {
            serial: turtle.serial,
            breed: turtle.breed,
            at: turtle.at,
            vars: turtle.vars.copy(alloc)?,
        })?;
    }
    Ok(copied)
}

/// The same patches again.
pub(crate) fn copy_patches(alloc: Global, patches: &[Variables]) -> Result<Vec<Variables>, NoMemory>
    ensures { IfOk result (λ again. again.items ≡ patches.now) }
{
    let mut copied = Vec::with_capacity(alloc, patches.len())?;
    for vars in patches {
        copied.push(vars.copy(alloc)?)?;
    }
    Ok(copied)
}

/// The same links again.
pub(crate) fn copy_links(alloc: Global, links: &[Link]) -> Result<Vec<Link>, NoMemory>
    ensures { IfOk result (λ again. again.items ≡ links.now) }
{
    let mut copied = Vec::with_capacity(alloc, links.len())?;
    for link in links {
        copied.push(Link {
            serial: link.serial,
            breed: link.breed,
            directed: link.directed,
            end1: link.end1,
            end2: link.end2,
            vars: link.vars.copy(alloc)?,
        })?;
    }
    Ok(copied)
}
