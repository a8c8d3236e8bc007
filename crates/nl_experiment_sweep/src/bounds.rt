//! Whether each run has a world, by the choices of the bounds alone: what else is varied doesn't matter.
ghost use Rattle.std.specs.Prelude.{◌≡◌, ◌↔◌, ◌<◌, ◌≤◌, IsTrue, IfSome};
ghost use Rattle.nl_experiment_sweep.specs.Varied.{AllHaveValues};
ghost use Rattle.nl_grid.specs.Geometry.{IsWithinLimits};
ghost use Rattle.nl_experiment_sweep.specs.Sweep.{IsSweep, all_have_worlds, plane_of_world};
ghost use Rattle.nl_experiment_sweep.specs.inner.Bounds as spec;
ghost use Rattle.nl_experiment_sweep.specs.inner.Bounds.{EachMaxX, EachMaxY, EachMinX, EachMinY, IsFew, bound_at, bound_count, choice_among, held};

use crate::order::Order;
use crate::run_settings::is_named;
use crate::varied::{Choice, Varies, Vary};
use crate::worlds::{World, shape_of};

// The choice of a variable, where it is varied.
fn choice_of<'a>(varies: &'a [Vary], name: &[u8]) -> Option<&'a Choice>
    ensures { held result ≡ choice_among name.now varies.now }
{
    let mut left = varies;
    'varied: while let Some((vary, behind)) = left.split_first() {
        left = behind;
        if is_named(vary.name.as_bytes(), name) {
            return Some(&vary.choice);
        }
    }
    None
}

// How many values a bound has over all runs.
fn count(choice: Option<&Choice>) -> u64
    ensures { result ≡ bound_count (held choice.entry) }
{
    match choice {
        Some(choice) => choice.count(),
        None => 1,
    }
}

// The value of a bound at an index.
fn value(usual: i64, choice: Option<&Choice>, index: u64) -> i64
    requires few { IfSome (held choice) IsFew }
    requires below { index < bound_count (held choice) }
    ensures { result ≡ bound_at usual (held choice.entry) index }
{
    match choice {
        Some(choice) => match choice.number(index) {
            Some(number) => number.whole_part(),
            None => usual,
        },
        None => usual,
    }
}

// Whether bounds are those of a world.
fn is_world(world: World) -> bool
    ensures { IsTrue result ↔ IsWithinLimits (plane_of_world world) }
{
    shape_of(world).is_some()
}

fn with_min_x(world: World, choice: Option<&Choice>, index: u64) -> World
    requires few { IfSome (held choice) IsFew }
    requires below { index < bound_count (held choice) }
    ensures { result ≡ spec.with_min_x world (held choice.entry) index }
{
    World {
        min_x: value(world.min_x, choice, index),
        ..world
    }
}

fn with_max_x(world: World, choice: Option<&Choice>, index: u64) -> World
    requires few { IfSome (held choice) IsFew }
    requires below { index < bound_count (held choice) }
    ensures { result ≡ spec.with_max_x world (held choice.entry) index }
{
    World {
        max_x: value(world.max_x, choice, index),
        ..world
    }
}

fn with_min_y(world: World, choice: Option<&Choice>, index: u64) -> World
    requires few { IfSome (held choice) IsFew }
    requires below { index < bound_count (held choice) }
    ensures { result ≡ spec.with_min_y world (held choice.entry) index }
{
    World {
        min_y: value(world.min_y, choice, index),
        ..world
    }
}

fn with_max_y(world: World, choice: Option<&Choice>, index: u64) -> World
    requires few { IfSome (held choice) IsFew }
    requires below { index < bound_count (held choice) }
    ensures { result ≡ spec.with_max_y world (held choice.entry) index }
{
    World {
        max_y: value(world.max_y, choice, index),
        ..world
    }
}

fn each_max_y(world: World, max_y: Option<&Choice>) -> bool
    requires { IfSome (held max_y) IsFew }
    ensures { IsTrue result ↔ EachMaxY world (held max_y.entry) }
{
    'values: for index in 0..count(max_y) {
        let one = with_max_y(world, max_y, index);
        if !is_world(one) {
            return false;
        }
    }
    true
}

fn each_min_y(world: World, min_y: Option<&Choice>, max_y: Option<&Choice>) -> bool
    requires first { IfSome (held min_y) IsFew }
    requires second { IfSome (held max_y) IsFew }
    ensures { IsTrue result
        ↔ EachMinY world (held min_y.entry)
        (held max_y.entry) }
{
    'values: for index in 0..count(min_y) {
        let one = with_min_y(world, min_y, index);
        if !each_max_y(one, max_y) {
            return false;
        }
    }
    true
}

fn each_max_x(
    world: World,
    max_x: Option<&Choice>,
    min_y: Option<&Choice>,
    max_y: Option<&Choice>,
) -> bool
    requires first { IfSome (held max_x) IsFew }
    requires second { IfSome (held min_y) IsFew }
    requires third { IfSome (held max_y) IsFew }
    ensures { IsTrue result
        ↔ EachMaxX world (held max_x.entry) (held min_y.entry) (held max_y.entry) }
{
    'values: for index in 0..count(max_x) {
        let one = with_max_x(world, max_x, index);
        if !each_min_y(one, min_y, max_y) {
            return false;
        }
    }
    true
}

fn each_min_x(
    world: World,
    min_x: Option<&Choice>,
    max_x: Option<&Choice>,
    min_y: Option<&Choice>,
    max_y: Option<&Choice>,
) -> bool
    requires first { IfSome (held min_x) IsFew }
    requires second { IfSome (held max_x) IsFew }
    requires third { IfSome (held min_y) IsFew }
    requires fourth { IfSome (held max_y) IsFew }
    ensures { IsTrue result
        ↔ EachMinX world (held min_x.entry) (held max_x.entry) (held min_y.entry)
        (held max_y.entry) }
{
    'values: for index in 0..count(min_x) {
        let one = with_min_x(world, min_x, index);
        if !each_max_x(one, max_x, min_y, max_y) {
            return false;
        }
    }
    true
}

/// Whether each run has a world. Only the values of the bounds are gone through, so that runs that differ in other variables take no time.
pub fn all_have_worlds(order: Order, varies: &Varies, world: World) -> bool
    requires { IsSweep order varies.now }
    ensures { result ≡ all_have_worlds world order varies.now }
{
    let varies = varies.as_slice();
    each_min_x(
        world,
        choice_of(varies, b"min-pxcor"),
        choice_of(varies, b"max-pxcor"),
        choice_of(varies, b"min-pycor"),
        choice_of(varies, b"max-pycor"),
    )
}
