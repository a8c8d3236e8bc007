//! Births of turtles.
//!
//! A number of turtles is cut toward 0, and below 1 none is born. Where one more would not fit, those that were born before it stay,
//! and so they do where memory is refused. Which looks are drawn, and in which order, is this project's own choice; what the words do
//! is the NetLogo Dictionary's.
ghost use Rattle.std.specs.Prelude.{◌≡◌, ◌<◌, ◌≤◌, ◌↔◌, ℕ, Some, None, Err, min, IsTrue, IfOk, OnOk, OnErr};
ghost use Rattle.nl_fixed.specs.Numbers.{whole_limit};
ghost use Rattle.nl_grid.specs.Geometry.{IsPointOf, center_of, patches_of};
ghost use Rattle.nl_agents_layout.specs.Layouts.{is_turtle_breed};
ghost use Rattle.nl_agents.specs.Changes.{TurtleLives, AreTurtlesFull};
ghost use Rattle.nl_birth.specs.Looks.{drawn_looks, born_with};
ghost use Rattle.nl_birth.specs.Births.{Scene, count_of, turtle_room, drawn_births, ordered_births, hatchings, turtles_born, creations, created, sproutings, sprouted, hatched, birthplace, origin};
ghost use Rattle.nl_birth.specs.Outcomes.{IsOutcome};
ghost use Rattle.nl_birth.specs.Keeping.{Keeps};

use crate::failing::BirthFail;
use crate::looks::{Looks, draw_looks, dress, looks_in_order};
use nl_agents::{BearFail, Store};
use nl_draw::Stream;
use nl_fixed::Num;
use nl_grid::Point;
use nl_value::Serials;
use std::alloc::Global;

/// How many agents a number makes.
fn count_of(number: Num) -> u64
    ensures count { result ≡ count_of number }
    ensures few { result ≤ whole_limit }
{
    let whole = number.whole_part();
    if whole < 0 { 0 } else { whole as u64 }
}

/// The point 0 0.
fn origin() -> Point
    ensures { result ≡ origin }
{
    Point {
        x: Num::whole(0).unwrap(),
        y: Num::whole(0).unwrap(),
    }
}

/// The same point again.
fn copy_of(at: &Point) -> Point
    ensures { result ≡ at.now }
{
    Point { x: at.x, y: at.y }
}

/// One turtle is born at a point and draws its looks.
fn bear_drawn<S: Store>(
    alloc: Global,
    store: &mut S,
    stream: &mut Stream,
    breed: u32,
    at: &Point,
) -> Result<u64, BearFail>
    requires breed { IsTrue (is_turtle_breed (S.world store.old).rest.layout breed) }
    requires at { IsPointOf (S.world store.old).rest.shape at.now }
    ensures serial { IfOk result (λ serial. serial ≡ (S.world store.old).rest.turtles_given) }
    ensures born { let looks = (drawn_looks stream.old).0 in
        OnOk result (S.world store.new ≡ born_with breed at.now looks (S.world store.old)) }
    ensures drawn { OnOk result (stream.new ≡ (drawn_looks stream.old).1) }
    ensures kept { OnErr result (S.world store.new ≡ S.world store.old) }
    ensures undrawn { OnErr result (stream.new ≡ stream.old) }
    ensures full { (result ≡ Err BearFail.Full) ↔ AreTurtlesFull (S.world store.old) }
{
    let turtle = store.bear(alloc, breed, copy_of(at), None)?;
    let looks = draw_looks(stream);
    dress(store, turtle, looks);
    Ok(turtle)
}

/// One turtle is born at a point with these looks.
fn bear_with<S: Store>(
    alloc: Global,
    store: &mut S,
    breed: u32,
    at: Point,
    looks: Looks,
) -> Result<u64, BearFail>
    requires breed { IsTrue (is_turtle_breed (S.world store.old).rest.layout breed) }
    requires at { IsPointOf (S.world store.old).rest.shape at }
    ensures serial { IfOk result (λ serial. serial ≡ (S.world store.old).rest.turtles_given) }
    ensures born { OnOk result (S.world store.new ≡ born_with breed at looks (S.world store.old)) }
    ensures kept { OnErr result (S.world store.new ≡ S.world store.old) }
    ensures full { (result ≡ Err BearFail.Full) ↔ AreTurtlesFull (S.world store.old) }
{
    let turtle = store.bear(alloc, breed, at, None)?;
    dress(store, turtle, looks);
    Ok(turtle)
}

/// So many turtles are born at a point, each of which draws its looks before the next one is born.
fn bear_all_drawn<S: Store>(
    alloc: Global,
    store: &mut S,
    stream: &mut Stream,
    breed: u32,
    at: &Point,
    count: u64,
) -> Result<Serials, BirthFail>
    requires breed { IsTrue (is_turtle_breed (S.world store.old).rest.layout breed) }
    requires at { IsPointOf (S.world store.old).rest.shape at.now }
    ensures { let scene : Scene = record { world = S.world store.old; stream = stream.old } in
        let now : Scene = record { world = S.world store.new; stream = stream.new } in
        let after = drawn_births breed at.now scene in
        let w = scene.world in
        IsOutcome (turtles_born after w count) after (min count (turtle_room w)) result now }
{
    let mut made = Serials::empty(alloc);
    for _index in 0..count {
        let turtle = bear_drawn(alloc, store, stream, breed, at)?;
        made.push(alloc, turtle)?;
    }
    Ok(made)
}

/// So many turtles are born at the point 0 0, with looks in order.
fn bear_all_in_order<S: Store>(
    alloc: Global,
    store: &mut S,
    breed: u32,
    count: u64,
) -> Result<Serials, BirthFail>
    requires breed { IsTrue (is_turtle_breed (S.world store.old).rest.layout breed) }
    requires few { count ≤ whole_limit }
    requires at { IsPointOf (S.world store.old).rest.shape origin }
    ensures { let w = S.world store.old in
        let after = ordered_births breed count w in
        IsOutcome (turtles_born after w count) after (min count (turtle_room w)) result (S.world store.new) }
{
    let mut made = Serials::empty(alloc);
    for index in 0..count {
        let looks = looks_in_order(count, index);
        let turtle = bear_with(alloc, store, breed, origin(), looks)?;
        made.push(alloc, turtle)?;
    }
    Ok(made)
}

/// So many turtles are born of a parent at a point.
fn bear_all_of<S: Store>(
    alloc: Global,
    store: &mut S,
    parent: u64,
    at: &Point,
    breed: u32,
    count: u64,
) -> Result<Serials, BirthFail>
    requires breed { IsTrue (is_turtle_breed (S.world store.old).rest.layout breed) }
    requires at { IsPointOf (S.world store.old).rest.shape at.now }
    requires parent { TurtleLives parent (S.world store.old) }
    ensures { let w = S.world store.old in
        let after = hatchings breed parent at.now w in
        IsOutcome (turtles_born after w count) after (min count (turtle_room w)) result (S.world store.new) }
{
    let mut made = Serials::empty(alloc);
    for _index in 0..count {
        let turtle = store.bear(alloc, breed, copy_of(at), Some(parent))?;
        made.push(alloc, turtle)?;
    }
    Ok(made)
}

/// So many turtles are born at the point 0 0. Each draws its color and then its heading before the next one is born; ordered ones take
/// the primary colors in turn, and headings that are spread over a turn, and draw nothing. Their serials are given.
pub fn create<S: Store>(
    alloc: Global,
    store: &mut S,
    stream: &mut Stream,
    breed: u32,
    count: Num,
    ordered: bool,
) -> Result<Serials, BirthFail>
    requires { IsTrue (is_turtle_breed (S.world store.old).rest.layout breed) }
    ensures outcome { let scene : Scene = record { world = S.world store.old; stream = stream.old } in
        let now : Scene = record { world = S.world store.new; stream = stream.new } in
        IsOutcome (created ordered breed count scene) (creations ordered breed (count_of count) scene)
        (min (count_of count) (turtle_room scene.world)) result now }
    ensures keeps { Keeps (S.world store.old) (S.world store.new) }
{
    let _shape = store.shape();
    let count = count_of(count);
    if ordered {
        bear_all_in_order(alloc, store, breed, count)
    } else {
        bear_all_drawn(alloc, store, stream, breed, &origin(), count)
    }
}

/// So many turtles are born at the center of a patch, with colors and headings that are drawn as those of created ones. Their serials
/// are given.
pub fn sprout<S: Store>(
    alloc: Global,
    store: &mut S,
    stream: &mut Stream,
    patch: u32,
    breed: u32,
    count: Num,
) -> Result<Serials, BirthFail>
    requires patch { patch < patches_of (S.world store.old).rest.shape }
    requires breed { IsTrue (is_turtle_breed (S.world store.old).rest.layout breed) }
    ensures outcome { let scene : Scene = record { world = S.world store.old; stream = stream.old } in
        let now : Scene = record { world = S.world store.new; stream = stream.new } in
        IsOutcome (sprouted patch breed count scene) (sproutings patch breed scene)
        (min (count_of count) (turtle_room scene.world)) result now }
    ensures keeps { Keeps (S.world store.old) (S.world store.new) }
{
    let at = store.shape().center(patch);
    bear_all_drawn(alloc, store, stream, breed, &at, count_of(count))
}

/// So many turtles are born where their parent stands, with its variables, by the rule on a change of breed where the breed is another
/// one. Their serials are given.
pub fn hatch<S: Store>(
    alloc: Global,
    store: &mut S,
    parent: u64,
    breed: u32,
    count: Num,
) -> Result<Serials, BirthFail>
    requires parent { TurtleLives parent (S.world store.old) }
    requires breed { IsTrue (is_turtle_breed (S.world store.old).rest.layout breed) }
    ensures outcome { let w = S.world store.old in
        IsOutcome (hatched parent breed count w) (hatchings breed parent (birthplace parent w) w)
        (min (count_of count) (turtle_room w)) result (S.world store.new) }
    ensures keeps { Keeps (S.world store.old) (S.world store.new) }
{
    let at = store.at(parent);
    bear_all_of(alloc, store, parent, &at, breed, count_of(count))
}

#[cfg(test)]
mod tests {
    use super::*;

    #[test]
    fn numbers_are_cut_toward_zero_and_none_is_below_one(rt: HostRuntime) {
        let rows = [
            (0, 0),
            (-1_000_000, 0),
            (900_000, 0),
            (2_900_000, 2),
            (-2_900_000, 0),
            (9_000_000_000_000_000_000, 9_000_000_000_000),
        ];
        for (millionths, count) in rows {
            assert_eq!(rt;
                count_of(Num::new(millionths).unwrap()),
                count,
                "of {millionths}"
            );
        }
    }
}
