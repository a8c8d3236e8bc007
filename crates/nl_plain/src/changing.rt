//! Changes of one agent in a list that is in the order of serials.
ghost use Rattle.std.specs.Prelude.{◌≡◌, ◌<◌, filter, length, not, None, Some, IfOk, IfErr, OnErr};
ghost use Rattle.nl_value.specs.Views.{plain};
ghost use Rattle.nl_agents.specs.Changes.{is_turtle};
ghost use Rattle.nl_plain.specs.Lists.{TurtlesAscend, LinksAscend, HasTurtle, HasLink, KeepAll};
ghost use Rattle.nl_plain.specs.Lists.{turtles_moved, turtles_rebred, turtles_set, links_set, patches_set};
ghost use Rattle.nl_plain.specs.Lists.{turtle_entry, link_entry, patch_entry};

use crate::finding::{link_place, turtle_place};
use nl_agents::{Layout, Link, Slots, Turtle, Variables};
use nl_grid::Point;
use nl_value::Value;

/// Takes the turtle of a serial away.
pub(crate) fn remove_turtle(turtles: &mut Vec<Turtle>, serial: u64)
    requires order { TurtlesAscend turtles.old.items }
    requires lives { HasTurtle serial turtles.old.items }
    ensures { turtles.new.items ≡ filter (λ t. not (is_turtle serial t)) turtles.old.items }
{
    let at = turtle_place(turtles, serial).unwrap();
    let _ = turtles.remove(at);
}

/// Has the turtle of a serial stand at a point.
pub(crate) fn move_turtle(turtles: &mut Vec<Turtle>, serial: u64, to: Point)
    requires order { TurtlesAscend turtles.old.items }
    requires lives { HasTurtle serial turtles.old.items }
    ensures { turtles.new.items ≡ turtles_moved serial to turtles.old.items }
{
    let at = turtle_place(turtles, serial).unwrap();
    turtles[at].at = to;
}

/// Has the turtle of a serial be of a breed.
pub(crate) fn rebreed_turtle(turtles: &mut Vec<Turtle>, layout: &Layout, serial: u64, breed: u32)
    requires order { TurtlesAscend turtles.old.items }
    requires lives { HasTurtle serial turtles.old.items }
    requires many { KeepAll layout.now turtles.old.items }
    ensures { turtles.new.items ≡ turtles_rebred layout.now serial breed turtles.old.items }
{
    let at = turtle_place(turtles, serial).unwrap();
    let turtle = &mut turtles[at];
    turtle.breed = breed;
    turtle.vars.rebreed(layout, breed);
}

/// Sets a variable of the turtle of a serial, where its breed owns it.
pub(crate) fn set_turtle(
    turtles: &mut Vec<Turtle>,
    slots: &Slots,
    serial: u64,
    slot: u32,
    value: Value,
) -> Result<Value, Value>
    requires order { TurtlesAscend turtles.old.items }
    requires lives { HasTurtle serial turtles.old.items }
    ensures old { IfOk result (λ old.
        turtle_entry slots.now slot serial turtles.old.items ≡ Some (plain old)) }
    ensures back { IfErr result (λ back. plain back ≡ plain value) }
    ensures not_owned { OnErr result (turtle_entry slots.now slot serial turtles.old.items ≡ None) }
    ensures new { turtles.new.items ≡ turtles_set slots.now slot (plain value) serial turtles.old.items }
    ensures kept { OnErr result (turtles.new.items ≡ turtles.old.items) }
{
    let at = turtle_place(turtles, serial).unwrap();
    turtles[at].vars.set(slots, slot, value)
}

/// Sets a variable of the link of a serial, where its breed owns it.
pub(crate) fn set_link(
    links: &mut Vec<Link>,
    slots: &Slots,
    serial: u64,
    slot: u32,
    value: Value,
) -> Result<Value, Value>
    requires order { LinksAscend links.old.items }
    requires lives { HasLink serial links.old.items }
    ensures old { IfOk result (λ old. link_entry slots.now slot serial links.old.items ≡ Some (plain old)) }
    ensures back { IfErr result (λ back. plain back ≡ plain value) }
    ensures not_owned { OnErr result (link_entry slots.now slot serial links.old.items ≡ None) }
    ensures new { links.new.items ≡ links_set slots.now slot (plain value) serial links.old.items }
    ensures kept { OnErr result (links.new.items ≡ links.old.items) }
{
    let at = link_place(links, serial).unwrap();
    links[at].vars.set(slots, slot, value)
}

/// Sets a variable of a patch, where patches own it.
pub(crate) fn set_patch(
    patches: &mut Vec<Variables>,
    slots: &Slots,
    patch: u32,
    slot: u32,
    value: Value,
) -> Result<Value, Value>
    requires { patch < length patches.old.items }
    ensures old { IfOk result (λ old. patch_entry slots.now slot patch patches.old.items ≡ Some (plain old)) }
    ensures back { IfErr result (λ back. plain back ≡ plain value) }
    ensures not_owned { OnErr result (patch_entry slots.now slot patch patches.old.items ≡ None) }
    ensures new { patches.new.items ≡ patches_set slots.now slot (plain value) patch patches.old.items }
    ensures kept { OnErr result (patches.new.items ≡ patches.old.items) }
{
    patches[patch as usize].set(slots, slot, value)
}
