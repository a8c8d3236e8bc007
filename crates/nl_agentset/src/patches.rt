//! Patches by their way from the caller, and what a turtle's heading gives.
ghost use Rattle.std.specs.Prelude.{◌≡◌, ◌<◌, map, IfOk, IfSome};
ghost use Rattle.nl_value.specs.Views.{plain};
ghost use Rattle.nl_grid.specs.Geometry.{patches_of, FindsPointOf};
ghost use Rattle.nl_agents.specs.Changes.{OwnerLives};
ghost use Rattle.nl_agentset_query.specs.Outcomes.{outcome_map, summed};
ghost use Rattle.nl_agentset.specs.Places.{patch_found, patch_beside, patch_ahead, patches_around, patch_reached, one_patch, faced, turned_by, turned_ahead};

use nl_agents::{Owner, Store};
use nl_agentset_query::agents::{heading_in, own_patch, place_of};
use nl_agentset_query::fail::QueryFail;
use nl_agentset_query::inputs::number_at;
use nl_agentset_query::orders::of_patches;
use nl_agentset_query::words::{Around, Facing, PatchBy};
use nl_fixed::{NoMemory, Num, NumFault};
use nl_grid::{Point, Shape};
use nl_value::{AgentSet, Value};
use std::alloc::Global;

/// The patch of a point that was found by sums, where it is one of the world. A sum that is out of range is Overflow.
fn patch_found(
    found: Result<Option<Point>, NumFault>,
    shape: &Shape,
) -> Result<Option<u32>, QueryFail>
    requires { FindsPointOf shape.now found }
    ensures patch { result ≡ outcome_map (patch_found shape.now) (summed found) }
    ensures below { IfOk result (λ patch. IfSome patch (λ one. one < patches_of shape.now)) }
{
    match found {
        Ok(Some(at)) => Ok(Some(shape.patch_of(at))),
        Ok(None) => Ok(None),
        Err(_) => Err(QueryFail::Overflow),
    }
}

/// The patch at an offset from the caller, where it isn't outside.
pub(crate) fn patch_beside<S: Store>(
    caller: Owner,
    dx: Num,
    dy: Num,
    store: &S,
) -> Result<Option<u32>, QueryFail>
    requires { OwnerLives caller (S.world store.now) }
    ensures patch { result ≡ patch_beside (S.world store.now).rest caller dx dy }
    ensures below { let r = (S.world store.now).rest in
        IfOk result (λ patch. IfSome patch (λ one. one < patches_of r.shape)) }
{
    let shape = store.shape();
    let at = place_of(caller, store);
    patch_found(shape.beside(at, dx, dy), &shape)
}

/// The patch so far ahead of the caller under a heading, where it isn't outside.
fn patch_ahead<S: Store>(
    caller: Owner,
    heading: Num,
    distance: Num,
    store: &S,
) -> Result<Option<u32>, QueryFail>
    requires { OwnerLives caller (S.world store.now) }
    ensures { result ≡ patch_ahead (S.world store.now).rest caller heading distance }
{
    let shape = store.shape();
    let at = place_of(caller, store);
    patch_found(shape.ahead(at, heading, distance), &shape)
}

/// `neighbors` and `neighbors4`: the patches around the caller.
pub fn patches_around<S: Store>(
    alloc: Global,
    which: Around,
    caller: Owner,
    store: &S,
) -> Result<Value, NoMemory>
    requires { OwnerLives caller (S.world store.now) }
    ensures { let r = (S.world store.now).rest in
        IfOk result (λ value. plain value ≡ patches_around r caller which) }
{
    let shape = store.shape();
    let patch = own_patch(caller, store);
    let numbers = match which {
        Around::Neighbors => {
            let mut out = [0; 8];
            let count = shape.neighbors(patch, &mut out);
            of_patches(alloc, &out[..count])?
        }
        Around::Neighbors4 => {
            let mut out = [0; 4];
            let count = shape.neighbors4(patch, &mut out);
            of_patches(alloc, &out[..count])?
        }
    };
    Ok(Value::set(alloc, AgentSet::SomePatches(numbers))?)
}

/// The caller's heading, turned to the left or to the right.
fn turned<S: Store>(caller: Owner, to_left: bool, angle: Num, store: &S) -> Result<Num, QueryFail>
    requires { OwnerLives caller (S.world store.now) }
    ensures { result ≡ turned_by (S.world store.now).rest caller to_left angle }
{
    let heading = heading_in(caller, store);
    let turned = if to_left {
        heading.sub(angle)
    } else {
        heading.add(angle)
    };
    turned.map_err(|_| QueryFail::Overflow)
}

/// The patch of the word, where it isn't outside.
fn patch_reached<S: Store>(
    which: PatchBy,
    caller: Owner,
    inputs: &[Value],
    store: &S,
) -> Result<Option<u32>, QueryFail>
    requires { OwnerLives caller (S.world store.now) }
    ensures { result ≡ patch_reached (S.world store.now).rest caller which (map plain inputs.now) }
{
    match which {
        PatchBy::Here => Ok(Some(own_patch(caller, store))),
        PatchBy::At => {
            let dx = number_at(inputs, 0)?;
            let dy = number_at(inputs, 1)?;
            patch_beside(caller, dx, dy, store)
        }
        PatchBy::Ahead => {
            let distance = number_at(inputs, 0)?;
            patch_ahead(caller, heading_in(caller, store), distance, store)
        }
        PatchBy::LeftAndAhead => turned_ahead(caller, true, inputs, store),
        PatchBy::RightAndAhead => turned_ahead(caller, false, inputs, store),
        PatchBy::HeadingAndDistance => {
            let heading = number_at(inputs, 0)?;
            let distance = number_at(inputs, 1)?;
            patch_ahead(caller, heading, distance, store)
        }
    }
}

/// `patch-here` and its kin: nobody outside.
pub fn one_patch<S: Store>(
    which: PatchBy,
    caller: Owner,
    inputs: &[Value],
    store: &S,
) -> Result<Value, QueryFail>
    requires { OwnerLives caller (S.world store.now) }
    ensures { let r = (S.world store.now).rest in
        outcome_map plain result ≡ one_patch r caller which (map plain inputs.now) }
{
    match patch_reached(which, caller, inputs, store)? {
        Some(patch) => Ok(Value::Patch(patch)),
        None => Ok(Value::Nobody),
    }
}

/// The patch ahead of the caller, whose heading is turned first by an angle.
fn turned_ahead<S: Store>(
    caller: Owner,
    to_left: bool,
    inputs: &[Value],
    store: &S,
) -> Result<Option<u32>, QueryFail>
    requires { OwnerLives caller (S.world store.now) }
    ensures { result ≡ turned_ahead (S.world store.now).rest caller to_left (map plain inputs.now) }
{
    let angle = number_at(inputs, 0)?;
    let distance = number_at(inputs, 1)?;
    let heading = turned(caller, to_left, angle, store)?;
    patch_ahead(caller, heading, distance, store)
}

/// `can-move?`, `dx` and `dy`.
pub fn faced<S: Store>(
    which: Facing,
    caller: Owner,
    inputs: &[Value],
    store: &S,
) -> Result<Value, QueryFail>
    requires { OwnerLives caller (S.world store.now) }
    ensures { let r = (S.world store.now).rest in
        outcome_map plain result ≡ faced r caller which (map plain inputs.now) }
{
    let heading = heading_in(caller, store);
    match which {
        Facing::CanMove => {
            let distance = number_at(inputs, 0)?;
            let found = patch_ahead(caller, heading, distance, store)?;
            Ok(Value::Truth(found.is_some()))
        }
        Facing::Dx => Ok(Value::Number(heading.sin())),
        Facing::Dy => Ok(Value::Number(heading.cos())),
    }
}
