//! Agents that are made again, under the serials that they have.
ghost use Rattle.std.specs.Prelude.{◌≡◌, ◌+◌, ◌<◌, ◌≤◌, ◌∷◌, ◌++◌, [], find, length, map, Some, IsSome, IfOk, OnOk};
ghost use Rattle.nl_agents.specs.Changes.{is_turtle, is_link};
ghost use Rattle.nl_agents.specs.declared.agents.Turtle as living;
ghost use Rattle.nl_agents.specs.declared.agents.Link as tie;
ghost use Rattle.nl_store_files.specs.Agents.{link_serial, turtle_serial};
ghost use Rattle.nl_store.specs.Sound.{AreSound, IsLinkAmong, IsTurtleAmong};

use crate::roster::Roster;
use nl_agents::Steps;
use nl_fixed::NoMemory;
use nl_store_files::Registry;
use nl_value::Serials;
use std::alloc::Global;
use std::marker::Brand;
use std::sync::ledger::{Blank, Ledger};

/// The serials of the turtles, read with this counter.
fn turtles_counted<L: Ledger>(
    blank: Blank,
    alloc: Global,
    files: &Registry,
) -> Result<Serials, NoMemory>
    requires name { blank.name ≡ L.name }
    requires parts { blank.parts ≡ L.parts }
    requires one { blank.parts ≡ 1 }
    ensures { IfOk result (λ serials. serials ≡ map turtle_serial files.now.turtles) }
{
    let mut steps = Steps::<L>::new(blank);
    let mut serials = Serials::empty(alloc);
    files.turtles(alloc, &mut serials, &mut steps)?;
    Ok(serials)
}

/// The serials of the links, read with this counter.
fn links_counted<L: Ledger>(
    blank: Blank,
    alloc: Global,
    files: &Registry,
) -> Result<Serials, NoMemory>
    requires name { blank.name ≡ L.name }
    requires parts { blank.parts ≡ L.parts }
    requires one { blank.parts ≡ 1 }
    ensures { IfOk result (λ serials. serials ≡ map link_serial files.now.links) }
{
    let mut steps = Steps::<L>::new(blank);
    let mut serials = Serials::empty(alloc);
    files.links(alloc, &mut serials, &mut steps)?;
    Ok(serials)
}

/// The turtle of a serial is added.
fn copy_turtle(
    alloc: Global,
    from: &Registry,
    serial: u64,
    into: &mut Roster,
) -> Result<(), NoMemory>
    requires few { length into.old.turtles < 200_000 }
    requires lives { IsSome (find (is_turtle serial) from.now.turtles) }
    requires next { into.old.turtles_given ≤ serial }
    requires given { serial < 9_000_000_000_000 }
    requires among { (t : living.Turtle) → find (is_turtle serial) from.now.turtles ≡ Some t →
        IsTurtleAmong from.now t }
    requires shape { into.old.shape ≡ from.now.shape }
    requires breeds { into.old.breeds ≡ from.now.breeds }
    ensures { OnOk result ((t : living.Turtle) → find (is_turtle serial) from.now.turtles ≡ Some t →
        into.new ≡ record into.old { turtles = into.old.turtles ++ t ∷ []; turtles_given = serial + 1 }) }
{
    let vars = from.turtle_vars(serial).copy(alloc)?;
    into.skip_turtles(serial);
    into.add_turtle(alloc, from.breed_of(serial), from.at(serial), vars)?;
    Ok(())
}

/// The link of a serial is added.
fn copy_link(alloc: Global, from: &Registry, serial: u64, into: &mut Roster) -> Result<(), NoMemory>
    requires few { length into.old.links < 400_000 }
    requires lives { IsSome (find (is_link serial) from.now.links) }
    requires next { into.old.links_given ≤ serial }
    requires given { serial < 9_000_000_000_000 }
    requires among { (l : tie.Link) → find (is_link serial) from.now.links ≡ Some l →
        IsLinkAmong from.now l }
    requires turtles { into.old.turtles ≡ from.now.turtles }
    ensures { OnOk result ((l : tie.Link) → find (is_link serial) from.now.links ≡ Some l →
        into.new ≡ record into.old { links = into.old.links ++ l ∷ []; links_given = serial + 1 }) }
{
    let vars = from.link_vars(serial).copy(alloc)?;
    let (breed, directed) = from.link_breed(serial);
    let (end1, end2) = from.ends(serial);
    into.skip_links(serial);
    into.add_link(alloc, breed, directed, end1, end2, vars)?;
    Ok(())
}

/// All turtles are added to none, under the serials that they have, and as many serials are given.
pub(crate) fn copy_turtles(
    alloc: Global,
    from: &Registry,
    into: &mut Roster,
) -> Result<(), NoMemory>
    requires sound { AreSound from.now }
    requires none { into.old
        ≡ record from.now { turtles = []; links = []; turtles_given = 0; links_given = 0 } }
    ensures { OnOk result (into.new ≡ record from.now { links = []; links_given = 0 }) }
{
    let serials = turtles_counted::<Brand>(Blank::new(1), alloc, from)?;
    for serial in serials.as_slice() {
        copy_turtle(alloc, from, *serial, into)?;
    }
    into.skip_turtles(from.turtles_given());
    Ok(())
}

/// All links are added between the same turtles, under the serials that they have, and as many serials are given.
pub(crate) fn copy_links(alloc: Global, from: &Registry, into: &mut Roster) -> Result<(), NoMemory>
    requires sound { AreSound from.now }
    requires none { into.old ≡ record from.now { links = []; links_given = 0 } }
    ensures { OnOk result (into.new ≡ from.now) }
{
    let serials = links_counted::<Brand>(Blank::new(1), alloc, from)?;
    for serial in serials.as_slice() {
        copy_link(alloc, from, *serial, into)?;
    }
    into.skip_links(from.links_given());
    Ok(())
}
