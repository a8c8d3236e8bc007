//! A turtle at the origin of a world, and what the patches of that world keep. Numbers and coordinates are in millionths.
ghost use Rattle.std.specs.Prelude.{◌<◌, IfSome};
ghost use Rattle.nl_value.specs.Views.{plain};
ghost use Rattle.nl_grid.specs.Geometry.{patches_of};
ghost use Rattle.nl_agents.specs.Standing.{MayHold};

use nl_agents::{HEADING, Owner, Store};
use nl_fixed::{Num, Str};
use nl_grid::Shape;
use nl_motion::{MoveFault, place};
use nl_value::{Items, Value};
use std::alloc::Global;
use std::process::Abort;
use trial_stores::trial_model::program;
use trial_stores::trials::{Scene, Step, Tried, proceed};

/// A point, each coordinate in millionths.
pub(crate) type Spot = (i64, i64);

/// Patches by `pxcor` and `pycor`, each with the number that it keeps; all others keep 0.
pub(crate) type Field = &'static [(i32, i32, i64)];

/// Patches by `pxcor` and `pycor` that keep what is no number.
pub(crate) type Others = &'static [(i32, i32, Other)];

/// The outermost coordinates of a world in x and then in y, and whether it goes on behind its sides.
pub(crate) type Sides = (i32, i32, i32, i32, bool, bool);

/// What is no number.
#[derive(Clone, Copy, Debug)]
pub(crate) enum Other {
    Truth,
    Text,
    List,
}

/// Five by five patches that go on in x behind their sides.
pub(crate) const WIDE: Sides = (-2, 2, -2, 2, true, false);

/// Five by five patches with walls around them.
pub(crate) const BOX: Sides = (-2, 2, -2, 2, false, false);

/// The serial of the turtle.
pub(crate) const TURTLE: u64 = 0;

const BIRTH: &[Scene] = &[(&[Step::Bear(0, (0, 0), None, TURTLE)], &[])];

fn shape_of(sides: Sides) -> Option<Shape> {
    let (min_x, max_x, min_y, max_y, wrap_x, wrap_y) = sides;
    Shape::new(min_x, max_x, min_y, max_y, wrap_x, wrap_y)
}

/// A store in which a turtle stands at the origin, with the slot of `p`.
pub(crate) fn ground<S: Store>(rt: &impl Abort, alloc: Global, sides: Sides) -> (S, u32) {
    let Some(shape) = shape_of(sides) else {
        panic!(rt);
    };
    let Some(model) = program(alloc) else {
        panic!(rt);
    };
    let Some(mut tried) = Tried::<S>::of(alloc, model, shape) else {
        panic!(rt);
    };
    if let Some(wrong) = proceed(alloc, &mut tried, BIRTH) {
        panic!(rt; "{wrong:?}");
    }
    let Some(slot) = tried.slot("p") else {
        panic!(rt);
    };
    (tried.store, slot)
}

/// Places the turtle. None where it doesn't live.
pub(crate) fn jump<S: Store>(store: &mut S, to: Spot) -> Option<Result<(), MoveFault>> {
    let x = Num::new(to.0)?;
    let y = Num::new(to.1)?;
    if !store.turtle_lives(TURTLE) {
        return None;
    }
    Some(place(store, TURTLE, x, y))
}

/// Whether the turtle stands there.
pub(crate) fn stands<S: Store>(store: &S, spot: Spot) -> bool {
    if !store.turtle_lives(TURTLE) {
        return false;
    }
    let at = store.at(TURTLE);
    (at.x.millionths(), at.y.millionths()) == spot
}

/// Whether the turtle has this heading.
pub(crate) fn heads<S: Store>(store: &S, heading: i64) -> bool {
    if !store.turtle_lives(TURTLE) {
        return false;
    }
    match store.var(Owner::Turtle(TURTLE), HEADING) {
        Some(Value::Number(number)) => number.millionths() == heading,
        _ => false,
    }
}

fn patch_at<S: Store>(store: &S, x: i32, y: i32) -> Option<u32>
    ensures { IfSome result (λ patch. patch < patches_of (S.world store.now).rest.shape) }
{
    let patch = store.shape().patch_at(x, y)?;
    if patch < store.shape().patches() {
        Some(patch)
    } else {
        None
    }
}

fn keep<S: Store>(store: &mut S, patch: u32, slot: u32, value: Value) -> bool
    requires patch { patch < patches_of (S.world store.old).rest.shape }
    requires holds { MayHold (S.world store.old).rest (Owner.Patch patch) slot (plain value) }
{
    let old = store.set_var(Owner::Patch(patch), slot, value);
    old.is_ok()
}

fn keep_text<S: Store>(store: &mut S, alloc: Global, patch: u32, slot: u32) -> bool
    requires { patch < patches_of (S.world store.old).rest.shape }
{
    let Ok(text) = Str::of(alloc, b"8") else {
        return false;
    };
    match Value::words(alloc, text) {
        Ok(text) => keep(store, patch, slot, text),
        Err(_) => false,
    }
}

/// The patches keep these numbers.
pub(crate) fn fill<S: Store>(store: &mut S, slot: u32, field: Field) -> bool {
    for (x, y, count) in field {
        let Some(number) = Num::new(*count) else {
            return false;
        };
        let Some(patch) = patch_at(store, *x, *y) else {
            return false;
        };
        if !keep(store, patch, slot, Value::Number(number)) {
            return false;
        }
    }
    true
}

/// The patches keep these, which are no numbers.
pub(crate) fn fill_with<S: Store>(store: &mut S, alloc: Global, slot: u32, others: Others) -> bool {
    for (x, y, other) in others {
        let Some(patch) = patch_at(store, *x, *y) else {
            return false;
        };
        let kept = match other {
            Other::Truth => keep(store, patch, slot, Value::Truth(true)),
            Other::Text => keep_text(store, alloc, patch, slot),
            Other::List => match Value::items(alloc, Items::empty(alloc)) {
                Ok(list) => keep(store, patch, slot, list),
                Err(_) => false,
            },
        };
        if !kept {
            return false;
        }
    }
    true
}

// The count of a patch. None where it keeps no number.
fn count_on<S: Store>(store: &S, slot: u32, patch: u32) -> Option<i64> {
    if store.shape().patches() <= patch {
        return None;
    }
    match store.var(Owner::Patch(patch), slot) {
        Some(Value::Number(number)) => Some(number.millionths()),
        _ => None,
    }
}

fn is_on<S: Store>(store: &S, slot: u32, x: i32, y: i32, count: i64) -> bool {
    match patch_at(store, x, y) {
        Some(patch) => count_on(store, slot, patch) == Some(count),
        None => false,
    }
}

// Whether so many patches keep something other than 0.
fn are_set<S: Store>(store: &S, slot: u32, many: usize) -> bool {
    let mut found: usize = 0;
    for patch in 0..store.shape().patches() {
        if count_on(store, slot, patch) != Some(0) {
            found = found.saturating_add(1);
        }
    }
    found == many
}

/// Whether the patches keep these numbers, and so many more keep what is no number.
pub(crate) fn is_field<S: Store>(store: &S, slot: u32, field: Field, others: usize) -> bool {
    for (x, y, count) in field {
        if !is_on(store, slot, *x, *y, *count) {
            return false;
        }
    }
    are_set(store, slot, field.len().saturating_add(others))
}
