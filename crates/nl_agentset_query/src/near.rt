//! The members of sets of turtles or patches that stand near a point.
ghost use Rattle.std.specs.Prelude.{◌≡◌, ◌≤◌, ◌<◌, ◌≤ℤ◌, ◌+◌, ◌*◌, ◌-ℤ◌, neg_ℤ, unsigned_abs, Some, pos, filter, All, IfOk, IsTrue};
ghost use Rattle.nl_fixed.specs.Numbers.{limit};
ghost use Rattle.nl_fixed.specs.Headings.{within_half_turn};
ghost use Rattle.nl_value.specs.Sets.{set_kind};
ghost use Rattle.nl_value.specs.declared.sets.AgentKind.TheVariants as the_kind;
ghost use Rattle.nl_grid.specs.Geometry.{IsPointOf, heading_between, patches_of};
ghost use Rattle.nl_agents.specs.Changes.{turtle_of};
ghost use Rattle.nl_agents.specs.Members.{members_of};
ghost use Rattle.nl_agents.specs.Names.{set_fits};
ghost use Rattle.nl_agentset_query.specs.Near.{is_within, is_off_by, stands_where, members_where, members_within, members_in_cone, turtles_in_box, box_reads, near_reads};
ghost use Rattle.nl_agentset_query.specs.inner.Regions.{holds, is_in_directions, is_toward, is_bred, is_kept};

use crate::choosing::living;
use nl_agents::{Steps, Store};
use nl_fixed::{NoMemory, Num};
use nl_grid::{Point, Shape};
use nl_value::{AgentKind, AgentSet, Serials};
use std::alloc::Global;
use std::sync::ledger::Ledger;

/// Half of a turn, in millionths of a degree.
const HALF_TURN: i128 = 180_000_000;

/// The angle moved by whole turns, so that it is above -180 and up to 180 degrees. It may be out of the range of numbers.
#[tactic(auto, unfolding(nl_fixed::specs::Headings::within_half_turn))]
fn within_half_turn(angle: i128) -> i128
    requires low { neg_ℤ (pos 20_000_000_000_000_000_000) ≤ℤ angle }
    requires high { angle ≤ℤ pos 20_000_000_000_000_000_000 }
    ensures value { result ≡ within_half_turn angle }
    ensures small { unsigned_abs result ≤ 180_000_000 }
{
    HALF_TURN - (HALF_TURN - angle).rem_euclid(2 * HALF_TURN)
}

/// The directions of a cone: at most half of the angle off the heading, in degrees.
#[derive(Clone, Copy)]
pub struct Cone {
    pub heading: Num,
    pub angle: Num,
}

/// Where members are sought: at most a radius from a point, and in a cone where there is one.
#[derive(Clone, Copy)]
pub struct Region {
    pub at: Point,
    pub radius: Num,
    pub cone: Option<Cone>,
}

/// The number of so many millionths, which are in range.
fn number(millionths: i64) -> Num
    requires { unsigned_abs millionths ≤ limit }
    ensures { result ≡ millionths }
{
    Num::new(millionths).unwrap()
}

/// From a heading to a direction, in millionths of a degree.
fn turn_between(heading: Num, direction: Num) -> i128
    ensures value { result ≡ (direction -ℤ heading) }
    ensures low { neg_ℤ (pos 20_000_000_000_000_000_000) ≤ℤ result }
    ensures high { result ≤ℤ pos 20_000_000_000_000_000_000 }
{
    i128::from(direction.millionths()) - i128::from(heading.millionths())
}

/// Twice as much as a turn is, by the shorter way.
fn both_sides(turn: i128) -> Num
    requires low { neg_ℤ (pos 20_000_000_000_000_000_000) ≤ℤ turn }
    requires high { turn ≤ℤ pos 20_000_000_000_000_000_000 }
    ensures { result ≡ pos (2 * unsigned_abs (within_half_turn turn)) }
{
    let off = within_half_turn(turn).unsigned_abs();
    number((2 * off) as i64)
}

/// Whether a direction is at most half of an angle off a heading.
fn is_off_by(heading: Num, angle: Num, direction: Num) -> bool
    ensures { result ≡ is_off_by heading angle (Some direction) }
{
    both_sides(turn_between(heading, direction)) <= angle
}

impl Region {
    /// Whether a point lies in the region.
    fn holds(&self, shape: &Shape, to: &Point) -> bool
        requires from { IsPointOf shape.now self.now.at }
        requires to { IsPointOf shape.now to.now }
        ensures { result ≡ holds shape.now self.now to.now }
    {
        let within = shape.distance(self.at, *to) <= self.radius;
        within && self.has_in_directions(shape, to)
    }

    /// Whether a point lies in the cone of the region, where there is one.
    fn has_in_directions(&self, shape: &Shape, to: &Point) -> bool
        requires from { IsPointOf shape.now self.now.at }
        requires to { IsPointOf shape.now to.now }
        ensures { result ≡ is_in_directions shape.now self.now to.now }
    {
        match shape.towards(self.at, *to) {
            Ok(direction) => self.is_toward(direction),
            Err(_) => true,
        }
    }

    /// Whether a direction is one of the cone of the region, where there is one.
    fn is_toward(&self, direction: Num) -> bool
        ensures { result ≡ is_toward self.now.cone (Some direction) }
    {
        match self.cone {
            None => true,
            Some(cone) => is_off_by(cone.heading, cone.angle, direction),
        }
    }

    /// Whether a turtle lives and stands in the region.
    fn has_turtle<S: Store>(&self, turtle: u64, store: &S) -> bool
        requires { IsPointOf (S.world store.now).rest.shape self.now.at }
        ensures { let r = (S.world store.now).rest in
            result ≡ stands_where (holds r.shape self.now) r the_kind.Turtle turtle }
    {
        store.turtle_lives(turtle) && self.holds(&store.shape(), &store.at(turtle))
    }

    /// Whether the center of a patch lies in the region.
    fn has_patch<S: Store>(&self, patch: u64, store: &S) -> bool
        requires at { IsPointOf (S.world store.now).rest.shape self.now.at }
        requires patch { patch < patches_of (S.world store.now).rest.shape }
        ensures { let r = (S.world store.now).rest in
            result ≡ stands_where (holds r.shape self.now) r the_kind.Patch patch }
    {
        let shape = store.shape();
        self.holds(&shape, &shape.center(patch as u32))
    }
}

/// The turtles on the patches of the box of a radius, ascending. What is read is one record for each of them and one for each patch.
pub fn turtles_in_box<S: Store, L: Ledger>(
    alloc: Global,
    at: Point,
    radius: Num,
    store: &S,
    steps: &mut Steps<L>,
) -> Result<Serials, NoMemory>
    requires { IsPointOf (S.world store.now).rest.shape at }
    ensures list { IfOk result (λ turtles. turtles ≡ turtles_in_box (S.world store.now).rest at radius) }
    ensures reads { steps.new ≤ steps.old + box_reads (S.world store.now).rest at radius }
{
    let around = store.shape().box_of(at, radius);
    let mut found = Vec::new(alloc);
    let mut here = Serials::empty(alloc);
    let mut next = around.first();
    while let Some(patch) = next {
        store.members_on(alloc, patch, &mut here, steps)?;
        found.extend_from_slice(here.as_slice())?;
        next = around.next(patch);
    }
    found.sort_unstable();
    found.dedup();
    Ok(Serials::of_vec(found))
}

impl Region {
    /// The turtles of a list that live, are of the breed where there is one, and stand in the region.
    fn turtles_of<S: Store>(
        &self,
        alloc: Global,
        list: &Serials,
        breed: Option<u32>,
        store: &S,
    ) -> Result<Serials, NoMemory>
        requires { IsPointOf (S.world store.now).rest.shape self.now.at }
        ensures { let r = (S.world store.now).rest in
            IfOk result (λ kept. kept ≡ filter (is_kept r self.now breed) list.now) }
    {
        let mut kept = Vec::new(alloc);
        let numbers = list.as_slice();
        for number in numbers {
            if is_bred(*number, breed, store) && self.has_turtle(*number, store) {
                kept.push(*number)?;
            }
        }
        Ok(Serials::of_vec(kept))
    }

    /// The patches of a list whose center lies in the region.
    fn patches_of<S: Store>(
        &self,
        alloc: Global,
        list: &Serials,
        store: &S,
    ) -> Result<Serials, NoMemory>
        requires at { IsPointOf (S.world store.now).rest.shape self.now.at }
        requires inside { All (λ patch. patch < patches_of (S.world store.now).rest.shape) list.now }
        ensures { let r = (S.world store.now).rest in
            IfOk result (λ kept. kept ≡ filter (stands_where (holds r.shape self.now) r the_kind.Patch) list.now) }
    {
        let mut kept = Vec::new(alloc);
        let numbers = list.as_slice();
        for number in numbers {
            if self.has_patch(*number, store) {
                kept.push(*number)?;
            }
        }
        Ok(Serials::of_vec(kept))
    }

    /// The members of a set that stand in the region. Links stand nowhere.
    fn members<S: Store, L: Ledger>(
        &self,
        alloc: Global,
        set: &AgentSet,
        store: &S,
        steps: &mut Steps<L>,
    ) -> Result<Serials, NoMemory>
        requires at { IsPointOf (S.world store.now).rest.shape self.now.at }
        requires fit { IsTrue (set_fits (S.world store.now).rest set.now) }
        ensures list { let r = (S.world store.now).rest in
            IfOk result (λ members. members ≡ members_where (holds r.shape self.now) r set.now) }
        ensures reads { let r = (S.world store.now).rest in
            steps.new ≤ steps.old + near_reads r set.now self.now.at self.now.radius }
    {
        // What the order of the members rests on: the store stands for a world.
        let _stands = store.shape();
        match set {
            AgentSet::Turtles => {
                let around = turtles_in_box(alloc, self.at, self.radius, store, steps)?;
                self.turtles_of(alloc, &around, None, store)
            }
            AgentSet::Breed(breed) => {
                let around = turtles_in_box(alloc, self.at, self.radius, store, steps)?;
                self.turtles_of(alloc, &around, Some(*breed), store)
            }
            AgentSet::SomeTurtles(_) => {
                let all = living(alloc, set, store, steps)?;
                self.turtles_of(alloc, &all, None, store)
            }
            AgentSet::Patches => {
                let all = living(alloc, set, store, steps)?;
                self.patches_of(alloc, &all, store)
            }
            AgentSet::SomePatches(_) => {
                let all = living(alloc, set, store, steps)?;
                self.patches_of(alloc, &all, store)
            }
            AgentSet::Links => Ok(Serials::empty(alloc)),
            AgentSet::LinkBreed(_) => Ok(Serials::empty(alloc)),
            AgentSet::SomeLinks(_) => Ok(Serials::empty(alloc)),
        }
    }
}

/// Whether a turtle lives and is of the breed, where there is one.
fn is_bred<S: Store>(turtle: u64, breed: Option<u32>, store: &S) -> bool
    ensures { result ≡ is_bred breed (turtle_of turtle (S.world store.now).rest) }
{
    match breed {
        None => true,
        Some(breed) => store.turtle_lives(turtle) && store.breed_of(turtle) == breed,
    }
}

/// The living members of a set of turtles or patches at most a radius from a point, ascending. At just the radius they are within it; a
/// negative radius has no members. For all turtles and for a breed the patches of the box of the radius are walked.
pub fn in_radius<S: Store, L: Ledger>(
    alloc: Global,
    set: &AgentSet,
    at: Point,
    radius: Num,
    store: &S,
    steps: &mut Steps<L>,
) -> Result<Serials, NoMemory>
    requires at { IsPointOf (S.world store.now).rest.shape at }
    requires fit { IsTrue (set_fits (S.world store.now).rest set.now) }
    ensures list { IfOk result (λ members. members ≡ members_within (S.world store.now).rest set.now at radius) }
    ensures reads { steps.new ≤ steps.old + near_reads (S.world store.now).rest set.now at radius }
{
    let region = Region {
        at,
        radius,
        cone: None,
    };
    region.members(alloc, set, store, steps)
}

/// The living members of a set of turtles or patches in a cone: within the radius, and at the very point or in a direction at most half of
/// the angle off the heading, in degrees. They are read as `in_radius` reads them.
pub fn in_cone<S: Store, L: Ledger>(
    alloc: Global,
    set: &AgentSet,
    at: Point,
    heading: Num,
    radius: Num,
    angle: Num,
    store: &S,
    steps: &mut Steps<L>,
) -> Result<Serials, NoMemory>
    requires at { IsPointOf (S.world store.now).rest.shape at }
    requires fit { IsTrue (set_fits (S.world store.now).rest set.now) }
    ensures list { IfOk result (λ members. members ≡ members_in_cone (S.world store.now).rest set.now at heading radius angle) }
    ensures reads { steps.new ≤ steps.old + near_reads (S.world store.now).rest set.now at radius }
{
    let region = Region {
        at,
        radius,
        cone: Some(Cone { heading, angle }),
    };
    region.members(alloc, set, store, steps)
}
