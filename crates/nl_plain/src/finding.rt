//! Agents of a serial, in a list that is in the order of serials, by a search of halves.
ghost use Rattle.std.specs.Prelude.{◌≡◌, ◌<◌, length, find, slice_get, Some, None, MatchOption};
ghost use Rattle.nl_agents.specs.Changes.{is_turtle, is_link};
ghost use Rattle.nl_plain.specs.Lists.{StandsAt, TurtlesAscend, LinksAscend, HasTurtle, HasLink};

use nl_agents::{Link, Turtle, Variables};

/// The index of the turtle of a serial.
pub(crate) fn turtle_place(turtles: &[Turtle], serial: u64) -> Option<usize>
    requires { TurtlesAscend turtles.now }
    ensures { MatchOption result (find (is_turtle serial) turtles.now ≡ None)
        (StandsAt (is_turtle serial) turtles.now) }
{
    turtles.binary_search_by(|t| t.serial.cmp(&serial)).ok()
}

/// The index of the link of a serial.
pub(crate) fn link_place(links: &[Link], serial: u64) -> Option<usize>
    requires { LinksAscend links.now }
    ensures { MatchOption result (find (is_link serial) links.now ≡ None)
        (StandsAt (is_link serial) links.now) }
{
    links.binary_search_by(|l| l.serial.cmp(&serial)).ok()
}

/// The living turtle of a serial.
pub(crate) fn turtle_in(turtles: &[Turtle], serial: u64) -> &Turtle
    requires order { TurtlesAscend turtles.now }
    requires lives { HasTurtle serial turtles.now }
    ensures { find (is_turtle serial) turtles.now ≡ Some result.now }
{
    let at = turtle_place(turtles, serial).unwrap();
    &turtles[at]
}

/// The living link of a serial.
pub(crate) fn link_in(links: &[Link], serial: u64) -> &Link
    requires order { LinksAscend links.now }
    requires lives { HasLink serial links.now }
    ensures { find (is_link serial) links.now ≡ Some result.now }
{
    let at = link_place(links, serial).unwrap();
    &links[at]
}

/// What the patch of a number keeps.
pub(crate) fn patch_in(patches: &[Variables], patch: u32) -> &Variables
    requires { patch < length patches.now }
    ensures { slice_get patches.now patch ≡ Some result.now }
{
    &patches[patch as usize]
}
