//! The world of a run.
ghost use Rattle.std.specs.Prelude.{◌≡◌, ◌↔◌, ◌≤◌, ◌<◌, ℕ, IsTrue, IsSome, IfSome, option_map, unwrap_or, pos, neg_ℤ, ◌≤ℤ◌};
ghost use Rattle.nl_grid.specs.Geometry.{IsWithinLimits};
ghost use Rattle.nl_experiment_sweep.specs.Varied.{AllHaveValues, min_pxcor, max_pxcor, min_pycor, max_pycor};
ghost use Rattle.nl_experiment_sweep.specs.Sweep.{IsRun, IsSweep, all_have_worlds, bound_or, combinations, most_runs, plane_of_run, plane_of_world, settings_in, world_in};
ghost use Rattle.nl_experiment_sweep.specs.inner.Bounds.{bound_at, bound_count, choice_among};

use crate::order::{Order, combination};
use crate::run_settings::{is_named, number_at};
use crate::varied::{Choice, Varies, Vary};
use nl_grid::Shape;

/// The outermost coordinates of a world, and whether it goes on behind its sides.
#[derive(Clone, Copy, Debug, PartialEq, Eq)]
pub struct World {
    pub min_x: i64,
    pub max_x: i64,
    pub min_y: i64,
    pub max_y: i64,
    pub wrap_x: bool,
    pub wrap_y: bool,
}

// A bound in the type that a shape wants. All bounds of worlds fit.
fn narrow(bound: i64) -> Option<i32>
    ensures same { IfSome result (λ narrow. narrow ≡ bound) }
    ensures near { neg_ℤ (pos 1000) ≤ℤ bound → bound ≤ℤ pos 1000 → IsSome result }
{
    match i32::try_from(bound) {
        Ok(bound) => Some(bound),
        Err(_) => None,
    }
}

// The shape of a world, where it is one.
pub(crate) fn shape_of(world: World) -> Option<Shape>
    ensures within { IsSome result ↔ IsWithinLimits (plane_of_world world) }
    ensures shape { IfSome result (λ shape. shape ≡ plane_of_world world) }
{
    let min_x = narrow(world.min_x)?;
    let max_x = narrow(world.max_x)?;
    let min_y = narrow(world.min_y)?;
    let max_y = narrow(world.max_y)?;
    Shape::new(min_x, max_x, min_y, max_y, world.wrap_x, world.wrap_y)
}

// A bound in a combination.
fn bound_in(varies: &[Vary], name: &[u8], usual: i64, combination: u64) -> i64
    requires values { AllHaveValues varies.now }
    requires few { combinations varies.now ≤ most_runs }
    requires below { combination < combinations varies.now }
    ensures { result ≡ bound_or usual name.now (settings_in combination varies.now) }
{
    match number_at(varies, name, combination) {
        Some(number) => number.whole_part(),
        None => usual,
    }
}

// The world in a combination.
fn world_at(world: World, varies: &[Vary], combination: u64) -> World
    requires values { AllHaveValues varies.now }
    requires few { combinations varies.now ≤ most_runs }
    requires below { combination < combinations varies.now }
    ensures { result ≡ world_in world (settings_in combination varies.now) }
{
    World {
        min_x: bound_in(varies, b"min-pxcor", world.min_x, combination),
        max_x: bound_in(varies, b"max-pxcor", world.max_x, combination),
        min_y: bound_in(varies, b"min-pycor", world.min_y, combination),
        max_y: bound_in(varies, b"max-pycor", world.max_y, combination),
        wrap_x: world.wrap_x,
        wrap_y: world.wrap_y,
    }
}

/// The shape of the world of a run, where its bounds are those of one.
#[tactic(auto, unfolding(crate::specs::Sweep::settings_of, crate::specs::Sweep::plane_of_run))]
pub fn shape(order: Order, varies: &Varies, world: World, run: u64) -> Option<Shape>
    requires sweep { IsSweep order varies.now }
    requires run { IsRun order varies.now run }
    ensures within { IsSome result ↔ IsWithinLimits (plane_of_run world order varies.now run) }
    ensures shape { IfSome result (λ shape. shape ≡ plane_of_run world order varies.now run) }
{
    let varies = varies.as_slice();
    let world = world_at(world, varies, combination(order, varies, run));
    shape_of(world)
}
