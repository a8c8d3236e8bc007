//! Turtles that go to the neighbor with the greatest number, or the least.
ghost use Rattle.std.specs.Prelude.{◌≡◌, ◌<◌, ◌≤◌, ◌↔◌, length, map, take, IfSome};
ghost use Rattle.nl_grid.specs.Geometry.{patches_of, ArePatchesOf, center_of, heading_between};
ghost use Rattle.nl_agents.specs.Changes.{TurtleLives, turtle_of};
ghost use Rattle.nl_motion.specs.Climbing.{patch_number, surpasses, is_best, best_of, home_of, choice_around, climb_end, centered, faced, climbed, state_climbed};

use crate::numbers::number_of;
use crate::ring::Ring;
use nl_agents::{HEADING, Owner, Store};
use nl_draw::Stream;
use nl_fixed::Num;
use nl_grid::Shape;
use nl_value::Value;

/// Are both numbers, and is the first one above the second, or below it where the way is down?
pub(crate) fn surpasses(up: bool, one: Option<Num>, other: Option<Num>) -> bool
    ensures { result ≡ surpasses up one other }
{
    match (one, other) {
        (Some(one), Some(other)) => {
            if up {
                other.millionths() < one.millionths()
            } else {
                one.millionths() < other.millionths()
            }
        }
        _ => false,
    }
}

/// Is it a number that none of the others surpasses?
pub(crate) fn is_best(up: bool, others: &[Option<Num>], number: Option<Num>) -> bool
    ensures { result ≡ is_best up others.now number }
{
    if number.is_none() {
        return false;
    }
    for other in others {
        if surpasses(up, *other, number) {
            return false;
        }
    }
    true
}

/// The numbers that some patches keep under a slot, in order at the front of the array.
fn numbers_on<S: Store>(store: &S, patches: &[u32], slot: u32) -> [Option<Num>; 8]
    requires world { ArePatchesOf (S.world store.now).rest.shape patches.now }
    requires few { length patches.now ≤ 8 }
    ensures { take (length patches.now) result ≡ map (patch_number (S.world store.now) slot) patches.now }
{
    let mut numbers = [None; 8];
    for (index, patch) in patches.iter().enumerate() {
        numbers[index] = number_of(store, Owner::Patch(*patch), slot);
    }
    numbers
}

/// Those of some patches whose number none of these patches' numbers surpasses.
fn best_of<S: Store>(store: &S, ring: &Ring, slot: u32, up: bool) -> Ring
    requires { ArePatchesOf (S.world store.now).rest.shape ring.now }
    ensures best { result ≡ best_of up (patch_number (S.world store.now) slot) ring.now }
    ensures world { ArePatchesOf (S.world store.now).rest.shape result }
{
    let patches = ring.as_slice();
    let numbers = numbers_on(store, patches, slot);
    let others = &numbers[..patches.len()];
    let mut best = Ring::empty();
    for (index, patch) in patches.iter().enumerate() {
        if is_best(up, others, others[index]) {
            best.push(*patch);
        }
    }
    best
}

/// A turtle stands at the center of a patch.
fn center<S: Store>(store: &mut S, turtle: u64, patch: u32)
    requires lives { TurtleLives turtle (S.world store.old) }
    requires patch { patch < patches_of (S.world store.old).rest.shape }
    ensures world { S.world store.new ≡ centered turtle patch (S.world store.old) }
    ensures lives { TurtleLives turtle (S.world store.new) }
{
    let to = store.shape().center(patch);
    store.shift(turtle, to);
}

/// A turtle turns from the center of one patch to that of another one.
fn face<S: Store>(store: &mut S, turtle: u64, from: u32, to: u32)
    requires lives { TurtleLives turtle (S.world store.old) }
    requires from { from < patches_of (S.world store.old).rest.shape }
    requires to { to < patches_of (S.world store.old).rest.shape }
    ensures world { S.world store.new ≡ faced turtle from to (S.world store.old) }
    ensures lives { TurtleLives turtle (S.world store.new) }
{
    let shape = store.shape();
    let here = shape.center(from);
    let there = shape.center(to);
    if let Ok(heading) = shape.towards(here, there) {
        // a turtle that owns no heading hands the number back
        let _kept = store.set_var(Owner::Turtle(turtle), HEADING, Value::Number(heading));
    }
}

/// The patch on which a turtle stands.
fn home<S: Store>(store: &S, turtle: u64) -> u32
    requires { TurtleLives turtle (S.world store.now) }
    ensures patch { result ≡ home_of turtle (S.world store.now) }
    ensures below { result < patches_of (S.world store.now).rest.shape }
{
    let at = store.at(turtle);
    store.shape().patch_of(at)
}

/// Where a climb from a patch leads, if anywhere: one of the best neighbors is drawn, and then its number is compared.
fn destination<S: Store>(
    store: &S,
    stream: &mut Stream,
    from: u32,
    slot: u32,
    up: bool,
    four: bool,
) -> Option<u32>
    requires { from < patches_of (S.world store.now).rest.shape }
    ensures end { let choice = choice_around up four slot from (S.world store.now) stream.old in
        result ≡ climb_end up (patch_number (S.world store.now) slot) from choice.0 }
    ensures stream { stream.new ≡ (choice_around up four slot from (S.world store.now) stream.old).1 }
    ensures below { IfSome result (λ to. to < patches_of (S.world store.now).rest.shape) }
{
    let shape = store.shape();
    let ring = Ring::around(&shape, from, four);
    let best = best_of(store, &ring, slot, up);
    let to = stream.choose(best.as_slice())?;
    let there = number_of(store, Owner::Patch(to), slot);
    let here = number_of(store, Owner::Patch(from), slot);
    surpasses(up, there, here).then_some(to)
}

/// A turtle goes uphill, or downhill: to the center of its patch, and then, of the neighbors with the greatest number under a slot, or the
/// least, to the center of one that is drawn, to which it turns, if that number is greater, or less, than that of its own patch. The
/// neighbors are all, or the four that are one step away on one axis. Where none has a number nothing is drawn; the draw is made before
/// its own patch is looked at.
pub fn climb<S: Store>(
    store: &mut S,
    stream: &mut Stream,
    turtle: u64,
    slot: u32,
    up: bool,
    four: bool,
)
    requires { TurtleLives turtle (S.world store.old) }
    ensures world { S.world store.new ≡ climbed turtle slot up four (S.world store.old) stream.old }
    ensures stream { stream.new ≡ state_climbed turtle slot up four (S.world store.old) stream.old }
{
    let from = home(store, turtle);
    center(store, turtle, from);
    if let Some(to) = destination(store, stream, from, slot, up, four) {
        face(store, turtle, from, to);
        center(store, turtle, to);
    }
}
