//! Agents by where they stand: on patches, at offsets, within a radius, in a cone.
ghost use Rattle.std.specs.Prelude.{◌≡◌, ◌≤◌, ◌<◌, ◌+◌, [], ◌∷◌, None, map, filter, length, All, IsTrue, IfOk, IfSome};
ghost use Rattle.std.specs.List.{flat_map};
ghost use Rattle.nl_value.specs.Views.{plain};
ghost use Rattle.nl_value.specs.Sets.{set_kind};
ghost use Rattle.nl_value.specs.declared.sets.AgentKind.TheVariants as the_kind;
ghost use Rattle.nl_grid.specs.Geometry.{patches_of};
ghost use Rattle.nl_agents.specs.Changes.{OwnerLives, TurtleLives, turtle_of};
ghost use Rattle.nl_agents.specs.declared.agents.Owner.TheVariants as owner;
ghost use Rattle.nl_agentset_query.specs.declared.words.Standing.TheVariants as standing;
ghost use Rattle.nl_agents.specs.Members.{members_of, most_reads, turtles_where, is_on};
ghost use Rattle.nl_agents.specs.Names.{set_fits};
ghost use Rattle.nl_agents.specs.Standing.{fits_rest};
ghost use Rattle.nl_agentset_query.specs.Near.{stands_where, members_where, members_in_cone, near_reads};
ghost use Rattle.nl_agentset_query.specs.Inputs.{inputs_fit};
ghost use Rattle.nl_agentset_query.specs.Outcomes.{Gives, outcome_map};
ghost use Rattle.nl_agentset_query.specs.Reads.{members_reads};
ghost use Rattle.nl_agentset_query.specs.Agents.{own_patch, place_of, heading_in, listed_value, is_of, turtle_passes};
ghost use Rattle.nl_agentset.specs.Places.{turtles_on, bred_on, some_patch, patches_under, patches_of_agent, patches_of_value, offset_in, as_offset, offsets_in, patches_at, is_on_one, near_caller, in_cone_of_caller, standing_by};
ghost use Rattle.nl_agentset.specs.Reads.{patch_reads, patches_reads, reads_at, standing_reads};

use crate::patches::patch_beside;
use nl_agents::{Owner, Steps, Store};
use nl_agentset_query::agents::{heading_in, is_turtle_of, listed, own_patch, place_of};
use nl_agentset_query::fail::QueryFail;
use nl_agentset_query::inputs::{
    as_agent, as_list, as_number, fitting_at, list_at, number_at, standing_at, standing_set,
    standing_set_at,
};
use nl_agentset_query::orders::in_order;
use nl_agentset_query::words::Standing;
use nl_agentset_query::{in_cone, in_radius, living};
use nl_fixed::{NoMemory, Num};
use nl_value::{AgentKind, AgentSet, Serials, Value};
use std::alloc::Global;
use std::sync::ledger::Ledger;

// ---- turtles on patches

/// The turtles of a list that live and are of the word's breed.
fn bred<S: Store>(
    alloc: Global,
    list: &Serials,
    breed: Option<u32>,
    store: &S,
) -> Result<Serials, NoMemory>
    ensures { let r = (S.world store.now).rest in
        let kept = filter (λ turtle. turtle_passes (λ t. is_of breed t.breed) (turtle_of turtle r)) list.now in
        IfOk result (λ some. some ≡ kept) }
{
    let mut kept = Vec::new(alloc);
    let numbers = list.as_slice();
    for number in numbers {
        if is_turtle_of(*number, breed, store) {
            kept.push(*number)?;
        }
    }
    Ok(Serials::of_vec(kept))
}

/// The turtles of the word's breed on a patch. What is read is one record for each turtle on it, and one more.
fn turtles_on_patch<S: Store, L: Ledger>(
    alloc: Global,
    breed: Option<u32>,
    patch: u32,
    store: &S,
    steps: &mut Steps<L>,
) -> Result<Serials, NoMemory>
    requires { patch < patches_of (S.world store.now).rest.shape }
    ensures list { let r = (S.world store.now).rest in
        IfOk result (λ turtles. turtles ≡ turtles_on r breed (patch ∷ [])) }
    ensures reads { steps.new ≤ steps.old + patch_reads (S.world store.now).rest patch }
{
    // What the order of the turtles rests on: the store stands for a world.
    let _stands = store.shape();
    let mut here = Serials::empty(alloc);
    store.members_on(alloc, patch, &mut here, steps)?;
    bred(alloc, &here, breed, store)
}

/// The turtles of the word's breed on a patch that was found, and none outside.
fn turtles_found<S: Store, L: Ledger>(
    alloc: Global,
    breed: Option<u32>,
    found: Option<u32>,
    store: &S,
    steps: &mut Steps<L>,
) -> Result<Serials, NoMemory>
    requires { IfSome found (λ patch. patch < patches_of (S.world store.now).rest.shape) }
    ensures list { let r = (S.world store.now).rest in
        IfOk result (λ turtles. turtles ≡ turtles_on r breed (some_patch found)) }
    ensures reads { steps.new ≤ steps.old + reads_at (S.world store.now).rest found }
{
    match found {
        Some(patch) => turtles_on_patch(alloc, breed, patch, store, steps),
        None => Ok(Serials::empty(alloc)),
    }
}

/// The turtles on some patches, patch by patch. What is read is one record for each of them, and one for each patch.
fn turtles_gathered<S: Store, L: Ledger>(
    alloc: Global,
    patches: &Serials,
    store: &S,
    steps: &mut Steps<L>,
) -> Result<Vec<u64>, NoMemory>
    requires { All (λ patch. patch < patches_of (S.world store.now).rest.shape) patches.now }
    ensures turtles { let r = (S.world store.now).rest in
        let each = flat_map (λ patch. turtles_where (is_on r patch) r) patches.now in
        IfOk result (λ turtles. turtles.items ≡ each) }
    ensures reads { let r = (S.world store.now).rest in
        let each = flat_map (λ patch. turtles_where (is_on r patch) r) patches.now in
        steps.new ≤ steps.old + (length each + length patches.now) }
{
    // What the range of patches rests on: the store stands for a world.
    let _stands = store.shape();
    let mut found = Vec::new(alloc);
    let mut here = Serials::empty(alloc);
    let numbers = patches.as_slice();
    for patch in numbers {
        store.members_on(alloc, *patch as u32, &mut here, steps)?;
        found.extend_from_slice(here.as_slice())?;
    }
    Ok(found)
}

/// The turtles of the word's breed on some patches, which may stand in any order and more than once.
fn turtles_on<S: Store, L: Ledger>(
    alloc: Global,
    breed: Option<u32>,
    patches: Vec<u64>,
    store: &S,
    steps: &mut Steps<L>,
) -> Result<Serials, NoMemory>
    requires { All (λ patch. patch < patches_of (S.world store.now).rest.shape) patches.items }
    ensures list { let r = (S.world store.now).rest in
        IfOk result (λ turtles. turtles ≡ turtles_on r breed patches.items) }
    ensures reads { steps.new ≤ steps.old + patches_reads (S.world store.now).rest patches.items }
{
    // What the order of the turtles rests on: the store stands for a world.
    let _stands = store.shape();
    let each = in_order(patches);
    let found = turtles_gathered(alloc, &each, store, steps)?;
    let all = in_order(found);
    bred(alloc, &all, breed, store)
}

/// The patches on which the turtles of a list stand, turtle by turtle.
fn patches_under_turtles<S: Store>(
    alloc: Global,
    list: &Serials,
    store: &S,
) -> Result<Vec<u64>, NoMemory>
    requires { All (λ turtle. TurtleLives turtle (S.world store.now)) list.now }
    ensures patches { let r = (S.world store.now).rest in
        IfOk result (λ patches. patches.items ≡ patches_under r the_kind.Turtle list.now) }
    ensures inside { let r = (S.world store.now).rest in
        IfOk result (λ patches. All (λ patch. patch < patches_of r.shape) patches.items) }
{
    let mut patches = Vec::new(alloc);
    let numbers = list.as_slice();
    for number in numbers {
        let patch = own_patch(Owner::Turtle(*number), store);
        patches.push(u64::from(patch))?;
    }
    Ok(patches)
}

/// The numbers of a set, as a vector.
fn numbers_of(alloc: Global, list: &Serials) -> Result<Vec<u64>, NoMemory>
    ensures { IfOk result (λ numbers. numbers.items ≡ list.now) }
{
    let mut numbers = Vec::new(alloc);
    numbers.extend_from_slice(list.as_slice())?;
    Ok(numbers)
}

/// The patches of a set, or those on which its turtles stand. Links stand nowhere.
fn patches_under<S: Store, L: Ledger>(
    alloc: Global,
    set: &AgentSet,
    store: &S,
    steps: &mut Steps<L>,
) -> Result<Vec<u64>, NoMemory>
    requires { IsTrue (set_fits (S.world store.now).rest set.now) }
    ensures patches { let r = (S.world store.now).rest in
        let under = patches_under r (set_kind set.now) (members_of r set.now) in
        IfOk result (λ patches. patches.items ≡ under) }
    ensures inside { let r = (S.world store.now).rest in
        IfOk result (λ patches. All (λ patch. patch < patches_of r.shape) patches.items) }
    ensures reads { steps.new ≤ steps.old + most_reads (S.world store.now).rest set.now }
{
    // What the members rest on: the store stands for a world.
    let _stands = store.shape();
    let members = living(alloc, set, store, steps)?;
    match set.kind() {
        AgentKind::Turtle => patches_under_turtles(alloc, &members, store),
        AgentKind::Patch => numbers_of(alloc, &members),
        AgentKind::Link => Ok(Vec::new(alloc)),
    }
}

/// The patch on which one agent stands.
fn patches_of_agent<S: Store>(
    alloc: Global,
    value: &Value,
    store: &S,
) -> Result<Vec<u64>, QueryFail>
    requires { IsTrue (fits_rest (S.world store.now).rest (plain value.now)) }
    ensures patches { let r = (S.world store.now).rest in
        Gives (outcome_map (λ patches. patches.items) result) (patches_of_agent r (plain value.now)) }
    ensures inside { let r = (S.world store.now).rest in
        IfOk result (λ patches. All (λ patch. patch < patches_of r.shape) patches.items) }
{
    let agent = as_agent(value, store)?;
    let _at = standing_at(agent, store)?;
    let mut patches = Vec::new(alloc);
    patches.push(u64::from(own_patch(agent, store)))?;
    Ok(patches)
}

/// The patches of a set or of one agent; links stand nowhere.
fn patches_of_value<S: Store, L: Ledger>(
    alloc: Global,
    value: &Value,
    store: &S,
    steps: &mut Steps<L>,
) -> Result<Vec<u64>, QueryFail>
    requires { IsTrue (fits_rest (S.world store.now).rest (plain value.now)) }
    ensures patches { let r = (S.world store.now).rest in
        Gives (outcome_map (λ patches. patches.items) result) (patches_of_value r (plain value.now)) }
    ensures inside { let r = (S.world store.now).rest in
        IfOk result (λ patches. All (λ patch. patch < patches_of r.shape) patches.items) }
    ensures reads { steps.new ≤ steps.old + members_reads (S.world store.now).rest (plain value.now) }
{
    match value {
        Value::Set(set) => {
            let some = standing_set(set)?;
            Ok(patches_under(alloc, some, store, steps)?)
        }
        _ => patches_of_agent(alloc, value, store),
    }
}

// ---- members at offsets

/// Two numbers in a list.
fn offset_in(items: &[Value]) -> Result<(Num, Num), QueryFail>
    ensures { result ≡ offset_in (map plain items.now) }
{
    if items.len() != 2 {
        return Err(QueryFail::WrongType);
    }
    let x = as_number(&items[0])?;
    let y = as_number(&items[1])?;
    Ok((x, y))
}

/// The value as an offset.
fn as_offset(value: &Value) -> Result<(Num, Num), QueryFail>
    ensures { result ≡ as_offset (plain value.now) }
{
    let items = as_list(value)?;
    offset_in(items.as_slice())
}

/// All items as offsets.
fn offsets_in(alloc: Global, values: &[Value]) -> Result<Vec<(Num, Num)>, QueryFail>
    ensures { Gives (outcome_map (λ offsets. offsets.items) result) (offsets_in (map plain values.now)) }
{
    let mut offsets = Vec::new(alloc);
    for value in values {
        offsets.push(as_offset(value)?)?;
    }
    Ok(offsets)
}

/// The patches at these offsets from the caller, those outside passed over.
fn patches_at<S: Store>(
    alloc: Global,
    caller: Owner,
    offsets: &[(Num, Num)],
    store: &S,
) -> Result<Vec<u64>, QueryFail>
    requires { OwnerLives caller (S.world store.now) }
    ensures { let r = (S.world store.now).rest in
        Gives (outcome_map (λ patches. patches.items) result) (patches_at r caller offsets.now) }
{
    let mut patches = Vec::new(alloc);
    for offset in offsets {
        let found = patch_beside(caller, offset.0, offset.1, store)?;
        if let Some(patch) = found {
            patches.push(u64::from(patch))?;
        }
    }
    Ok(patches)
}

/// Whether a member of a set stands on one of the patches.
fn is_on_one<S: Store>(kind: AgentKind, number: u64, patches: &Serials, store: &S) -> bool
    requires { kind ≡ the_kind.Patch → number < patches_of (S.world store.now).rest.shape }
    ensures { let r = (S.world store.now).rest in
        result ≡ stands_where (is_on_one r.shape patches.now) r kind number }
{
    // What the range of patches rests on: the store stands for a world.
    let shape = store.shape();
    match kind {
        AgentKind::Turtle => {
            store.turtle_lives(number)
                && patches.contains(u64::from(shape.patch_of(store.at(number))))
        }
        AgentKind::Patch => {
            patches.contains(u64::from(shape.patch_of(shape.center(number as u32))))
        }
        AgentKind::Link => false,
    }
}

/// The members of a set that stand on one of the patches.
fn members_on<S: Store, L: Ledger>(
    alloc: Global,
    set: &AgentSet,
    patches: &Serials,
    store: &S,
    steps: &mut Steps<L>,
) -> Result<Serials, NoMemory>
    requires { IsTrue (set_fits (S.world store.now).rest set.now) }
    ensures list { let r = (S.world store.now).rest in
        IfOk result (λ members. members ≡ members_where (is_on_one r.shape patches.now) r set.now) }
    ensures reads { steps.new ≤ steps.old + most_reads (S.world store.now).rest set.now }
{
    let members = living(alloc, set, store, steps)?;
    let mut kept = Vec::new(alloc);
    let numbers = members.as_slice();
    for number in numbers {
        if is_on_one(set.kind(), *number, patches, store) {
            kept.push(*number)?;
        }
    }
    Ok(Serials::of_vec(kept))
}

// ---- the words

/// `turtles-on`
fn on<S: Store, L: Ledger>(
    alloc: Global,
    breed: Option<u32>,
    inputs: &[Value],
    store: &S,
    steps: &mut Steps<L>,
) -> Result<Value, QueryFail>
    requires { IsTrue (inputs_fit (S.world store.now).rest (map plain inputs.now)) }
    ensures answer { let r = (S.world store.now).rest in
        let told = standing_by r breed owner.Observer standing.On (map plain inputs.now) in
        Gives (outcome_map plain result) told }
    ensures reads { let r = (S.world store.now).rest in
        steps.new ≤ steps.old + standing_reads r owner.Observer standing.On (map plain inputs.now) }
{
    let value = fitting_at(inputs, 0, store)?;
    let patches = patches_of_value(alloc, value, store, steps)?;
    let turtles = turtles_on(alloc, breed, patches, store, steps)?;
    Ok(Value::set(alloc, AgentSet::SomeTurtles(turtles))?)
}

/// `turtles-here`
fn here<S: Store, L: Ledger>(
    alloc: Global,
    breed: Option<u32>,
    caller: Owner,
    store: &S,
    steps: &mut Steps<L>,
) -> Result<Value, NoMemory>
    requires { OwnerLives caller (S.world store.now) }
    ensures answer { let r = (S.world store.now).rest in
        IfOk result (λ value. plain value ≡ bred_on r breed (own_patch r caller ∷ [])) }
    ensures reads { let r = (S.world store.now).rest in
        steps.new ≤ steps.old + patch_reads r (own_patch r caller) }
{
    let turtles = turtles_on_patch(alloc, breed, own_patch(caller, store), store, steps)?;
    Ok(Value::set(alloc, AgentSet::SomeTurtles(turtles))?)
}

/// `turtles-at`
fn at<S: Store, L: Ledger>(
    alloc: Global,
    breed: Option<u32>,
    caller: Owner,
    inputs: &[Value],
    store: &S,
    steps: &mut Steps<L>,
) -> Result<Value, QueryFail>
    requires { OwnerLives caller (S.world store.now) }
    ensures answer { let r = (S.world store.now).rest in
        Gives (outcome_map plain result) (standing_by r breed caller standing.At (map plain inputs.now)) }
    ensures reads { let r = (S.world store.now).rest in
        steps.new ≤ steps.old + standing_reads r caller standing.At (map plain inputs.now) }
{
    let dx = number_at(inputs, 0)?;
    let dy = number_at(inputs, 1)?;
    let found = patch_beside(caller, dx, dy, store)?;
    let turtles = turtles_found(alloc, breed, found, store, steps)?;
    Ok(Value::set(alloc, AgentSet::SomeTurtles(turtles))?)
}

/// `at-points`
fn at_points<S: Store, L: Ledger>(
    alloc: Global,
    caller: Owner,
    inputs: &[Value],
    store: &S,
    steps: &mut Steps<L>,
) -> Result<Value, QueryFail>
    requires fit { IsTrue (inputs_fit (S.world store.now).rest (map plain inputs.now)) }
    requires lives { OwnerLives caller (S.world store.now) }
    ensures answer { let r = (S.world store.now).rest in
        let told = standing_by r None caller standing.AtPoints (map plain inputs.now) in
        Gives (outcome_map plain result) told }
    ensures reads { let r = (S.world store.now).rest in
        steps.new ≤ steps.old + standing_reads r caller standing.AtPoints (map plain inputs.now) }
{
    let set = standing_set_at(inputs, 0, store)?;
    let items = list_at(inputs, 1)?;
    let offsets = offsets_in(alloc, items.as_slice())?;
    let patches = in_order(patches_at(alloc, caller, &offsets, store)?);
    let members = members_on(alloc, set, &patches, store, steps)?;
    Ok(Value::set(alloc, listed(set.kind(), members))?)
}

/// The members of a set within a radius of the caller.
fn near_caller<S: Store, L: Ledger>(
    alloc: Global,
    caller: Owner,
    set: &AgentSet,
    radius: Num,
    store: &S,
    steps: &mut Steps<L>,
) -> Result<Value, QueryFail>
    requires fit { IsTrue (set_fits (S.world store.now).rest set.now) }
    requires lives { OwnerLives caller (S.world store.now) }
    ensures answer { let r = (S.world store.now).rest in
        Gives (outcome_map plain result) (near_caller r caller set.now radius) }
    ensures reads { let r = (S.world store.now).rest in
        steps.new ≤ steps.old + near_reads r set.now (place_of r caller) radius }
{
    if radius.millionths() < 0 {
        return Err(QueryFail::Domain);
    }
    let at = place_of(caller, store);
    let members = in_radius(alloc, set, at, radius, store, steps)?;
    Ok(Value::set(alloc, listed(set.kind(), members))?)
}

/// The members of a set in the caller's cone of a radius and an angle.
fn in_cone_ahead<S: Store, L: Ledger>(
    alloc: Global,
    caller: Owner,
    set: &AgentSet,
    radius: Num,
    angle: Num,
    store: &S,
    steps: &mut Steps<L>,
) -> Result<Value, NoMemory>
    requires fit { IsTrue (set_fits (S.world store.now).rest set.now) }
    requires lives { OwnerLives caller (S.world store.now) }
    ensures answer { let r = (S.world store.now).rest in
        let seen = members_in_cone r set.now (place_of r caller) (heading_in r caller) radius angle in
        IfOk result (λ value. plain value ≡ listed_value (set_kind set.now) seen) }
    ensures reads { let r = (S.world store.now).rest in
        steps.new ≤ steps.old + near_reads r set.now (place_of r caller) radius }
{
    let at = place_of(caller, store);
    let heading = heading_in(caller, store);
    let members = in_cone(alloc, set, at, heading, radius, angle, store, steps)?;
    Ok(Value::set(alloc, listed(set.kind(), members))?)
}

/// The same, where the radius and the angle aren't below 0.
fn in_cone_of_caller<S: Store, L: Ledger>(
    alloc: Global,
    caller: Owner,
    set: &AgentSet,
    radius: Num,
    angle: Num,
    store: &S,
    steps: &mut Steps<L>,
) -> Result<Value, QueryFail>
    requires fit { IsTrue (set_fits (S.world store.now).rest set.now) }
    requires lives { OwnerLives caller (S.world store.now) }
    ensures answer { let r = (S.world store.now).rest in
        Gives (outcome_map plain result) (in_cone_of_caller r caller set.now radius angle) }
    ensures reads { let r = (S.world store.now).rest in
        steps.new ≤ steps.old + near_reads r set.now (place_of r caller) radius }
{
    if radius.millionths() < 0 || angle.millionths() < 0 {
        return Err(QueryFail::Domain);
    }
    Ok(in_cone_ahead(alloc, caller, set, radius, angle, store, steps)?)
}

/// `in-radius`
fn within<S: Store, L: Ledger>(
    alloc: Global,
    caller: Owner,
    inputs: &[Value],
    store: &S,
    steps: &mut Steps<L>,
) -> Result<Value, QueryFail>
    requires fit { IsTrue (inputs_fit (S.world store.now).rest (map plain inputs.now)) }
    requires lives { OwnerLives caller (S.world store.now) }
    ensures answer { let r = (S.world store.now).rest in
        let told = standing_by r None caller standing.InRadius (map plain inputs.now) in
        Gives (outcome_map plain result) told }
    ensures reads { let r = (S.world store.now).rest in
        steps.new ≤ steps.old + standing_reads r caller standing.InRadius (map plain inputs.now) }
{
    let set = standing_set_at(inputs, 0, store)?;
    let radius = number_at(inputs, 1)?;
    near_caller(alloc, caller, set, radius, store, steps)
}

/// `in-cone`
fn in_sight<S: Store, L: Ledger>(
    alloc: Global,
    caller: Owner,
    inputs: &[Value],
    store: &S,
    steps: &mut Steps<L>,
) -> Result<Value, QueryFail>
    requires fit { IsTrue (inputs_fit (S.world store.now).rest (map plain inputs.now)) }
    requires lives { OwnerLives caller (S.world store.now) }
    ensures answer { let r = (S.world store.now).rest in
        Gives (outcome_map plain result) (standing_by r None caller standing.InCone (map plain inputs.now)) }
    ensures reads { let r = (S.world store.now).rest in
        steps.new ≤ steps.old + standing_reads r caller standing.InCone (map plain inputs.now) }
{
    let set = standing_set_at(inputs, 0, store)?;
    let radius = number_at(inputs, 1)?;
    let angle = number_at(inputs, 2)?;
    in_cone_of_caller(alloc, caller, set, radius, angle, store, steps)
}

/// `turtles-on`, `turtles-here`, `turtles-at` and the forms of breeds, `at-points`, `in-radius` and `in-cone`.
pub fn standing_by<S: Store, L: Ledger>(
    alloc: Global,
    which: Standing,
    breed: Option<u32>,
    caller: Owner,
    inputs: &[Value],
    store: &S,
    steps: &mut Steps<L>,
) -> Result<Value, QueryFail>
    requires fit { IsTrue (inputs_fit (S.world store.now).rest (map plain inputs.now)) }
    requires lives { OwnerLives caller (S.world store.now) }
    ensures answer { let r = (S.world store.now).rest in
        Gives (outcome_map plain result) (standing_by r breed caller which (map plain inputs.now)) }
    ensures reads { let r = (S.world store.now).rest in
        steps.new ≤ steps.old + standing_reads r caller which (map plain inputs.now) }
{
    match which {
        Standing::On => on(alloc, breed, inputs, store, steps),
        Standing::Here => Ok(here(alloc, breed, caller, store, steps)?),
        Standing::At => at(alloc, breed, caller, inputs, store, steps),
        Standing::AtPoints => at_points(alloc, caller, inputs, store, steps),
        Standing::InRadius => within(alloc, caller, inputs, store, steps),
        Standing::InCone => in_sight(alloc, caller, inputs, store, steps),
    }
}
