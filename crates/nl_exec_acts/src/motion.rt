//! Where a turtle goes, and where it looks.
ghost use Rattle.std.specs.Prelude.{◌≡◌, map, pos, Some, IsTrue, IfOk};
ghost use Rattle.std.specs.Int.{int_rem_euclid};
ghost use Rattle.nl_fixed.specs.Sines.{degrees};
ghost use Rattle.nl_value.specs.Views.{plain};
ghost use Rattle.nl_grid.specs.Geometry.{IsPointOf, heading_between};
ghost use Rattle.nl_agents.specs.Changes.{TurtleLives, turtle_of};
ghost use Rattle.nl_agents.specs.declared.agents.Owner.TheVariants as owner;
ghost use Rattle.nl_agentset_query.specs.Agents.{place_of};
ghost use Rattle.nl_agentset_query.specs.Inputs.{inputs_fit};
ghost use Rattle.nl_motion.specs.Climbing.{headed};
ghost use Rattle.nl_exec_acts.specs.Stage.{left_by, done_or_not};
ghost use Rattle.nl_exec_acts.specs.Acts.{jumped, point_inside, faced, turned_to, turned, moves};

use crate::fail::ErrorKind;
use crate::words::Move;
use nl_agents::{HEADING, Owner, Store};
use nl_agentset_query::agents::{heading_in, place_of};
use nl_agentset_query::inputs::{number_at, point_at};
use nl_fixed::{Num, NumFault};
use nl_grid::Point;
use nl_motion::step;
use nl_value::Value;

/// A turn, in millionths of a degree.
const FULL_TURN: i64 = 360_000_000;

/// The angle, less whole turns.
fn within_turn(angle: Num) -> Num
    ensures { result ≡ int_rem_euclid angle (degrees (pos 360)) }
{
    Num::new(angle.millionths().rem_euclid(FULL_TURN)).unwrap()
}

/// The point of these coordinates, moved inside where the world wraps.
pub(crate) fn point_inside<S: Store>(x: Num, y: Num, store: &S) -> Result<Point, ErrorKind>
    ensures at { result ≡ point_inside (S.world store.now).rest x y }
    ensures inside { IfOk result (IsPointOf (S.world store.now).rest.shape) }
{
    match store.shape().wrap(x, y) {
        Some(at) => Ok(at),
        None => Err(ErrorKind::OutOfWorld),
    }
}

/// A turtle makes one step. One that the world forbids isn't made.
fn jump<S: Store>(turtle: u64, by: Num, store: &mut S) -> Result<(), ErrorKind>
    requires { TurtleLives turtle (S.world store.old) }
    ensures world { let w = S.world store.old in S.world store.new ≡ left_by w (jumped turtle w.rest by) }
    ensures answer { result ≡ done_or_not (jumped turtle (S.world store.old).rest by) }
{
    match step(store, turtle, by) {
        Ok(_) => Ok(()),
        Err(_) => Err(ErrorKind::Overflow),
    }
}

/// A turtle has the heading, where it owns one.
fn head<S: Store>(turtle: u64, heading: Num, store: &mut S)
    requires { TurtleLives turtle (S.world store.old) }
    ensures { S.world store.new ≡ headed turtle (Some heading) (S.world store.old) }
{
    // a turtle that owns no heading hands the number back
    let _kept = store.set_var(Owner::Turtle(turtle), HEADING, Value::Number(heading));
}

/// A turtle looks at a point. At its own point its heading stays.
fn face<S: Store>(turtle: u64, at: Point, store: &mut S)
    requires lives { TurtleLives turtle (S.world store.old) }
    requires at { IsPointOf (S.world store.old).rest.shape at }
    ensures { let w = S.world store.old in S.world store.new ≡ left_by w (faced turtle w.rest at) }
{
    let here = place_of(Owner::Turtle(turtle), store);
    if let Ok(heading) = store.shape().towards(here, at) {
        head(turtle, heading, store);
    }
}

/// A turtle has the angle as its heading, less whole turns.
fn turn_to<S: Store>(turtle: u64, angle: Num, store: &mut S)
    requires { TurtleLives turtle (S.world store.old) }
    ensures { let w = S.world store.old in S.world store.new ≡ left_by w (turned_to turtle w.rest angle) }
{
    head(turtle, within_turn(angle), store);
}

/// The same, where the angle is in range.
fn turn<S: Store>(turtle: u64, angle: Result<Num, NumFault>, store: &mut S) -> Result<(), ErrorKind>
    requires { TurtleLives turtle (S.world store.old) }
    ensures world { let w = S.world store.old in
        S.world store.new ≡ left_by w (turned turtle w.rest angle) }
    ensures answer { result ≡ done_or_not (turned turtle (S.world store.old).rest angle) }
{
    turn_to(turtle, angle?, store);
    Ok(())
}

impl Move {
    /// What a living turtle does by the word.
    pub(crate) fn perform<S: Store>(
        self,
        turtle: u64,
        inputs: &[Value],
        store: &mut S,
    ) -> Result<(), ErrorKind>
        requires fit { IsTrue (inputs_fit (S.world store.old).rest (map plain inputs.now)) }
        requires lives { TurtleLives turtle (S.world store.old) }
        ensures world { let w = S.world store.old in
            S.world store.new ≡ left_by w (moves self turtle (map plain inputs.now) w.rest) }
        ensures answer { let r = (S.world store.old).rest in
            result ≡ done_or_not (moves self turtle (map plain inputs.now) r) }
    {
        match self {
            Move::Jump => jump(turtle, number_at(inputs, 0)?, store),
            Move::SetXy => {
                let x = number_at(inputs, 0)?;
                let y = number_at(inputs, 1)?;
                store.shift(turtle, point_inside(x, y, store)?);
                Ok(())
            }
            Move::Home => {
                let zero = Num::whole(0).unwrap();
                store.shift(turtle, point_inside(zero, zero, store)?);
                Ok(())
            }
            Move::MoveTo => {
                store.shift(turtle, point_at(inputs, 0, store)?);
                Ok(())
            }
            Move::Face => {
                face(turtle, point_at(inputs, 0, store)?, store);
                Ok(())
            }
            Move::FaceXy => {
                let x = number_at(inputs, 0)?;
                let y = number_at(inputs, 1)?;
                face(turtle, point_inside(x, y, store)?, store);
                Ok(())
            }
            Move::Right => {
                let by = number_at(inputs, 0)?;
                turn(
                    turtle,
                    heading_in(Owner::Turtle(turtle), store).add(by),
                    store,
                )
            }
            Move::Left => {
                let by = number_at(inputs, 0)?;
                turn(
                    turtle,
                    heading_in(Owner::Turtle(turtle), store).sub(by),
                    store,
                )
            }
        }
    }
}
