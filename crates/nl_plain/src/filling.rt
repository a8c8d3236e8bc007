//! Lists of serials: those of the agents that pass a test.
ghost use Rattle.std.specs.Prelude.{◌≡◌, ◌==◌, map, filter, length, All, OnOk};
ghost use Rattle.nl_grid.specs.Geometry.{IsPointOf, patch_at};
ghost use Rattle.nl_agents.specs.Changes.{has_end};
ghost use Rattle.nl_agents.specs.Members.{is_of_breed};
ghost use Rattle.nl_plain.specs.Lists.{TurtlesAscend, LinksAscend};

use nl_agents::{Link, Turtle};
use nl_fixed::NoMemory;
use nl_grid::Shape;
use nl_value::Serials;
use std::alloc::Global;

/// Fills the list with the serials of all turtles.
pub(crate) fn fill_turtles(
    alloc: Global,
    turtles: &[Turtle],
    into: &mut Serials,
) -> Result<(), NoMemory>
    requires { TurtlesAscend turtles.now }
    ensures { OnOk result (into.new ≡ map (λ t. t.serial) turtles.now) }
{
    into.clear();
    for turtle in turtles {
        into.push(alloc, turtle.serial)?;
    }
    Ok(())
}

/// Fills the list with the serials of all links.
pub(crate) fn fill_links(alloc: Global, links: &[Link], into: &mut Serials) -> Result<(), NoMemory>
    requires { LinksAscend links.now }
    ensures { OnOk result (into.new ≡ map (λ l. l.serial) links.now) }
{
    into.clear();
    for link in links {
        into.push(alloc, link.serial)?;
    }
    Ok(())
}

/// Fills the list with the serials of the turtles of a breed.
pub(crate) fn fill_breed(
    alloc: Global,
    turtles: &[Turtle],
    breed: u32,
    into: &mut Serials,
) -> Result<(), NoMemory>
    requires { TurtlesAscend turtles.now }
    ensures { OnOk result (into.new ≡ map (λ t. t.serial) (filter (is_of_breed breed) turtles.now)) }
{
    into.clear();
    for turtle in turtles {
        if turtle.breed == breed {
            into.push(alloc, turtle.serial)?;
        }
    }
    Ok(())
}

/// Fills the list with the serials of the turtles on a patch.
pub(crate) fn fill_on(
    alloc: Global,
    turtles: &[Turtle],
    shape: Shape,
    patch: u32,
    into: &mut Serials,
) -> Result<(), NoMemory>
    requires order { TurtlesAscend turtles.now }
    requires inside { All (λ t. IsPointOf shape t.at) turtles.now }
    ensures { OnOk result (into.new
        ≡ map (λ t. t.serial) (filter (λ t. patch_at shape t.at == patch) turtles.now)) }
{
    into.clear();
    for turtle in turtles {
        if shape.patch_of(turtle.at) == patch {
            into.push(alloc, turtle.serial)?;
        }
    }
    Ok(())
}

// Whether the turtle is an end of the link.
fn has_end(link: &Link, turtle: u64) -> bool
    ensures { result ≡ has_end turtle link.now }
{
    link.end1 == turtle || link.end2 == turtle
}

/// Fills the list with the serials of the links that have a turtle as an end.
pub(crate) fn fill_links_of(
    alloc: Global,
    links: &[Link],
    turtle: u64,
    into: &mut Serials,
) -> Result<(), NoMemory>
    requires { LinksAscend links.now }
    ensures { OnOk result (into.new ≡ map (λ l. l.serial) (filter (has_end turtle) links.now)) }
{
    into.clear();
    for link in links {
        if has_end(link, turtle) {
            into.push(alloc, link.serial)?;
        }
    }
    Ok(())
}

/// How many turtles stand on a patch.
pub(crate) fn count_on(turtles: &[Turtle], shape: Shape, patch: u32) -> usize
    requires { All (λ t. IsPointOf shape t.at) turtles.now }
    ensures { result ≡ length (map (λ t. t.serial) (filter (λ t. patch_at shape t.at == patch) turtles.now)) }
{
    let mut count = 0;
    for turtle in turtles {
        if shape.patch_of(turtle.at) == patch {
            count += 1;
        }
    }
    count
}

/// How many links have a turtle as an end.
pub(crate) fn count_links_of(links: &[Link], turtle: u64) -> usize
    ensures { result ≡ length (map (λ l. l.serial) (filter (has_end turtle) links.now)) }
{
    let mut count = 0;
    for link in links {
        if has_end(link, turtle) {
            count += 1;
        }
    }
    count
}

/// How many turtles are of a breed.
pub(crate) fn count_breed(turtles: &[Turtle], breed: u32) -> usize
    ensures { result ≡ length (map (λ t. t.serial) (filter (is_of_breed breed) turtles.now)) }
{
    let mut count = 0;
    for turtle in turtles {
        if turtle.breed == breed {
            count += 1;
        }
    }
    count
}
