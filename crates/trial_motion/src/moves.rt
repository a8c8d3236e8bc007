//! Steps and places of a turtle over stores. Each table runs over every store that there is.
//!
//! Numbers and coordinates are in millionths.

use crate::fields::{BOX, Sides, Spot, TURTLE, WIDE, ground, jump, stands};
use nl_agents::{HEADING, Owner, Store};
use nl_fixed::Num;
use nl_motion::{MoveFault, step};
use nl_plain::Plain;
use nl_store::Indexed;
use nl_value::Value;
use std::alloc::Global;
use std::process::Abort;

/// What the turtle does, with the answer.
#[derive(Clone, Copy, Debug)]
enum Motion {
    /// It turns to a heading.
    Turn(i64),
    Step(i64, Result<bool, MoveFault>),
    Place(Spot, Result<(), MoveFault>),
}

fn turn<S: Store>(store: &mut S, heading: i64) -> bool {
    let Some(heading) = Num::new(heading) else {
        return false;
    };
    if !store.turtle_lives(TURTLE) {
        return false;
    }
    let old = store.set_var(Owner::Turtle(TURTLE), HEADING, Value::Number(heading));
    old.is_ok()
}

fn walk<S: Store>(store: &mut S, by: i64) -> Option<Result<bool, MoveFault>> {
    let by = Num::new(by)?;
    if !store.turtle_lives(TURTLE) {
        return None;
    }
    Some(step(store, TURTLE, by))
}

// Makes a motion where its conditions hold. False where they don't, and where the answer is another one.
fn makes<S: Store>(store: &mut S, motion: Motion) -> bool {
    match motion {
        Motion::Turn(heading) => turn(store, heading),
        Motion::Step(by, answer) => walk(store, by) == Some(answer),
        Motion::Place(to, answer) => jump(store, to) == Some(answer),
    }
}

/// Motions, one after the other, and where the turtle stands after each.
type Way = &'static [(Motion, Spot)];

fn go<S: Store>(rt: &impl Abort, alloc: Global, sides: Sides, way: Way) {
    let (mut store, _) = ground::<S>(rt, alloc, sides);
    for (motion, spot) in way {
        assert!(rt; makes(&mut store, *motion), "{motion:?}");
        assert!(rt; stands(&store, *spot), "{motion:?}");
    }
}

fn go_over_each(rt: &impl Abort, alloc: Global, sides: Sides, way: Way) {
    go::<Plain>(rt, alloc, sides, way);
    go::<Indexed>(rt, alloc, sides, way);
}

const EAST: Motion = Motion::Turn(90_000_000);

const STEPS: Way = &[
    (Motion::Step(1_500_000, Ok(true)), (0, 1_500_000)),
    (Motion::Step(-3_000_000, Ok(true)), (0, -1_500_000)),
    (EAST, (0, -1_500_000)),
    (Motion::Step(2_000_000, Ok(true)), (2_000_000, -1_500_000)),
    (Motion::Step(750_000, Ok(true)), (-2_250_000, -1_500_000)),
    (Motion::Step(-500_000, Ok(true)), (2_250_000, -1_500_000)),
    (Motion::Step(0, Ok(true)), (2_250_000, -1_500_000)),
    // Once around, and on.
    (Motion::Step(5_000_000, Ok(true)), (2_250_000, -1_500_000)),
    (Motion::Turn(30_000_000), (2_250_000, -1_500_000)),
    (Motion::Step(1_000_000, Ok(true)), (-2_250_000, -633_975)),
];

#[test]
fn a_turtle_steps_by_its_heading_and_around_the_world(rt: HostRuntime) {
    go_over_each(&rt, rt.alloc(), WIDE, STEPS);
}

// The sides are at 2.5, and the lower one belongs to the world.
const SIDES: Way = &[
    (Motion::Step(2_499_999, Ok(true)), (0, 2_499_999)),
    (Motion::Step(1, Ok(false)), (0, 2_499_999)),
    (Motion::Step(-4_999_999, Ok(true)), (0, -2_500_000)),
    (Motion::Step(-1, Ok(false)), (0, -2_500_000)),
    (Motion::Step(5_000_000, Ok(false)), (0, -2_500_000)),
    (
        Motion::Step(9_000_000_000_000_000_000, Ok(false)),
        (0, -2_500_000),
    ),
    (
        Motion::Step(-9_000_000_000_000_000_000, Err(MoveFault::Overflow)),
        (0, -2_500_000),
    ),
];

#[test]
fn a_turtle_stays_where_a_step_leads_out(rt: HostRuntime) {
    go_over_each(&rt, rt.alloc(), WIDE, SIDES);
}

const PLACES: Way = &[
    (
        Motion::Place((1_250_000, -2_500_000), Ok(())),
        (1_250_000, -2_500_000),
    ),
    (Motion::Place((2_500_000, 0), Ok(())), (-2_500_000, 0)),
    (Motion::Place((-13_000_000, 1), Ok(())), (2_000_000, 1)),
    (
        Motion::Place((0, 2_500_000), Err(MoveFault::OutOfWorld)),
        (2_000_000, 1),
    ),
    (
        Motion::Place((0, -2_500_001), Err(MoveFault::OutOfWorld)),
        (2_000_000, 1),
    ),
];

#[test]
fn a_turtle_is_placed_in_the_world_alone(rt: HostRuntime) {
    go_over_each(&rt, rt.alloc(), WIDE, PLACES);
}

const IN_A_BOX: Way = &[
    (Motion::Turn(45_000_000), (0, 0)),
    (Motion::Step(1_000_000, Ok(true)), (707_107, 707_107)),
    (
        Motion::Place((2_500_000, 0), Err(MoveFault::OutOfWorld)),
        (707_107, 707_107),
    ),
    (
        Motion::Place((-2_500_001, 0), Err(MoveFault::OutOfWorld)),
        (707_107, 707_107),
    ),
    (
        Motion::Place((-2_500_000, 2_499_999), Ok(())),
        (-2_500_000, 2_499_999),
    ),
    (
        Motion::Step(-9_000_000_000_000_000_000, Ok(false)),
        (-2_500_000, 2_499_999),
    ),
];

#[test]
fn a_turtle_goes_at_a_slant_and_stays_in_a_box(rt: HostRuntime) {
    go_over_each(&rt, rt.alloc(), BOX, IN_A_BOX);
}

// The one patch is all of the world, and a turtle that leaves it comes back on its other side.
const ON_ONE_PATCH: Way = &[
    (Motion::Step(700_000, Ok(true)), (0, -300_000)),
    (EAST, (0, -300_000)),
    (Motion::Step(500_000, Ok(true)), (-500_000, -300_000)),
    (Motion::Place((1_000_000_499_999, 0), Ok(())), (499_999, 0)),
];

#[test]
fn a_turtle_goes_around_one_patch(rt: HostRuntime) {
    go_over_each(&rt, rt.alloc(), (0, 0, 0, 0, true, true), ON_ONE_PATCH);
}
