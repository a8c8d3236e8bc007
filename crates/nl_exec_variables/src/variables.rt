//! Variables that are read.
ghost use Rattle.std.specs.Prelude.{◌≡◌, ◌<◌, ◌*◌, IsTrue, IfOk, IfSome, not, option_map, slice_get};
ghost use Rattle.std.specs.Option.{option_copied};
ghost use Rattle.nl_value.specs.Views.{plain};
ghost use Rattle.nl_agents.specs.Changes.{OwnerLives};
ghost use Rattle.nl_exec_meaning.specs.Code.{IsOneToOne, name_of};
ghost use Rattle.nl_exec_meaning.specs.Variables.{owner_by, local_value, read_local, read_global, read_owned};
ghost use Rattle.nl_exec_meaning.specs.Ground.{fits};
ghost use Rattle.nl_exec_meaning.specs.Kept.{all_held};
ghost use Rattle.nl_exec_meaning.specs.Means.{EndsAs};
ghost use Rattle.nl_exec_meaning.specs.Seen.{ground};
ghost use Rattle.nl_exec_meaning.specs.Standing.{ExitFits, HandsFit};

use nl_agents::{Owner, Store};
use nl_agentset_query::agents::own_patch;
use nl_exec_acts::ErrorKind;
use nl_exec_meaning::ends::{barred, fault};
use nl_exec_meaning::{Code, Exit, Hands};
use nl_fixed::{NoMemory, Span};
use nl_value::Value;
use nl_words::Kinds;
use std::alloc::Global;

// ---- locals and global variables

// The same value again. A number, which comes most often, is had at once.
#[inline(always)]
fn again(alloc: Global, value: &Value) -> Result<Value, NoMemory>
    ensures { IfOk result (λ again. plain again ≡ plain value.now) }
{
    match value {
        Value::Number(number) => Ok(Value::Number(*number)),
        value => value.copy(alloc),
    }
}

// The value of the newest local whose name has this number.
#[inline(always)]
pub fn local<'a, S: Store>(code: &Code, hands: &'a Hands<S>, id: u32) -> Option<&'a Value>
    requires apart { IsOneToOne code.now.names }
    requires fit { HandsFit hands.now }
    ensures value { option_map plain (option_copied result)
        ≡ local_value (name_of code.now.names id) (all_held code.now.names hands.now.locals) }
    ensures fits { IfSome result (λ value. IsTrue (fits (ground hands.now) (plain value.now))) }
{
    match hands.locals.find(id) {
        Some(at) => match hands.locals.value(at) {
            Some(value) => Some(value),
            None => None,
        },
        None => None,
    }
}

/// The newest local whose name has this number.
#[inline(always)]
pub fn read_local<S: Store>(
    alloc: Global,
    code: &Code,
    hands: &Hands<S>,
    id: u32,
    place: Span,
) -> Result<Exit, NoMemory>
    requires apart { IsOneToOne code.now.names }
    requires fit { HandsFit hands.now }
    ensures meaning { IfOk result (λ exit. EndsAs code.now exit hands.now hands.now
        (λ s. read_local (name_of code.now.names id) place s)) }
    ensures fits { IfOk result (λ exit. ExitFits (ground hands.now) exit) }
{
    match local(code, hands, id) {
        Some(value) => Ok(Exit::Gives(again(alloc, value)?)),
        None => Ok(fault(ErrorKind::WrongType, place, hands.site)),
    }
}

// The value of a global variable. Behind those of the model the store keeps what tells of the run.
#[inline(always)]
#[tactic(auto, using(nl_exec_meaning::proofs::Grounds::fits_is))]
pub fn global<S: Store>(hands: &Hands<S>, slot: u32) -> Option<&Value>
    ensures value { option_map plain (option_copied result)
        ≡ slice_get (S.world hands.now.stage.store).globals slot }
    ensures fits { IfSome result (λ value. IsTrue (fits (ground hands.now) (plain value.now))) }
{
    let _stands = hands.stage.store.shape();
    if slot >= hands.stage.layout.globals {
        return None;
    }
    match hands.stage.store.var(Owner::Observer, slot) {
        Some(value) => Some(value),
        None => None,
    }
}

/// A global variable.
#[inline(always)]
pub fn read_global<S: Store>(
    alloc: Global,
    code: &Code,
    hands: &Hands<S>,
    slot: u32,
    place: Span,
) -> Result<Exit, NoMemory>
    ensures meaning { IfOk result (λ exit. EndsAs code.now exit hands.now hands.now
        (λ s. read_global slot place s)) }
    ensures fits { IfOk result (λ exit. ExitFits (ground hands.now) exit) }
{
    match global(hands, slot) {
        Some(value) => Ok(Exit::Gives(again(alloc, value)?)),
        None => Ok(fault(ErrorKind::WrongType, place, hands.site)),
    }
}

// ---- variables of agents under slots

/// Whose variable it is: a turtle has the variables of patches from the patch on which it stands.
#[inline]
pub fn owner_of<S: Store>(hands: &Hands<S>, slot: u32) -> Owner
    requires lives { OwnerLives hands.now.site.agent (S.world hands.now.stage.store) }
    ensures owner { result ≡ owner_by (S.world hands.now.stage.store).rest slot hands.now.site.agent }
    ensures lives { OwnerLives result (S.world hands.now.stage.store) }
{
    let agent = hands.site.agent;
    match agent {
        Owner::Turtle(_) if hands.stage.layout.every_patch.contains(slot) => {
            Owner::Patch(own_patch(agent, &hands.stage.store))
        }
        _ => agent,
    }
}

/// A variable of agents that is kept under a slot.
#[inline]
#[tactic(auto, using(nl_exec_meaning::proofs::Grounds::fits_is))]
pub fn read_owned<S: Store>(
    alloc: Global,
    code: &Code,
    hands: &Hands<S>,
    runs: Kinds,
    slot: u32,
    place: Span,
) -> Result<Exit, NoMemory>
    requires agents { IsTrue (not runs.observer) }
    requires fit { HandsFit hands.now }
    ensures meaning { IfOk result (λ exit. EndsAs code.now exit hands.now hands.now
        (λ s. read_owned runs slot place s)) }
    ensures fits { IfOk result (λ exit. ExitFits (ground hands.now) exit) }
{
    if let Some(exit) = barred(hands, runs, place) {
        return Ok(exit);
    }
    match hands.stage.store.var(owner_of(hands, slot), slot) {
        Some(value) => Ok(Exit::Gives(again(alloc, value)?)),
        None => Ok(fault(ErrorKind::NoVariable, place, hands.site)),
    }
}
