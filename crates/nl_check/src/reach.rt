//! Which kinds may run each procedure: a fixed point over who calls whom.
ghost use Rattle.std.specs.Prelude.{◌≡◌, ◌∷◌, [], ◌++◌, ◌<◌, All, IfOk, OnOk, length, if◌then◌else◌};
ghost use Rattle.nl_check.specs.inner.Kinds.{count};
ghost use Rattle.nl_check.specs.inner.Reach.{ArePlaces, AreSettled, CountUp, passed_kinds, passed_work};

use crate::calls::Places;
use crate::kinds::{count, meet};
use nl_fixed::NoMemory;
use nl_words::Kinds;
use std::alloc::Global;

/// The kinds that may run each procedure, from those that the words of its own text allow and from who calls whom.
///
/// A procedure is looked at once at first, and again each time when its kinds have become fewer, which is at most four times.
pub(crate) fn settle(
    alloc: Global,
    own: Vec<Kinds>,
    callers: &[Places],
) -> Result<Vec<Kinds>, NoMemory>
    requires many { length callers.now ≡ length own.items }
    requires places { ArePlaces (length own.items) callers.now }
    ensures many { IfOk result (λ kinds. length kinds.items ≡ length own.items) }
    ensures settled { IfOk result (λ kinds. AreSettled own.items callers.now kinds.items) }
{
    let mut kinds = own;
    let mut work = all_places(alloc, kinds.len())?;
    while let Some(place) = work.pop() {
        let given = kinds[place];
        pass_on(callers[place].as_slice(), given, &mut kinds, &mut work)?;
    }
    Ok(kinds)
}

// The places below a number.
fn all_places(alloc: Global, count: usize) -> Result<Vec<usize>, NoMemory>
    ensures many { IfOk result (λ places. length places.items ≡ count) }
    ensures each { IfOk result (λ places. CountUp places.items count) }
{
    let mut places = Vec::new(alloc);
    for place in 0..count {
        places.push(place)?;
    }
    Ok(places)
}

// Appends a place where it has changed.
fn put_if(changed: bool, place: usize, work: &mut Vec<usize>) -> Result<(), NoMemory>
    ensures { OnOk result
        (work.new.items ≡ (if changed then work.old.items ++ place ∷ [] else work.old.items)) }
{
    if changed {
        work.push(place)?;
    }
    Ok(())
}

// Leaves each caller no kind that isn't given, and puts those that changed among the work.
fn pass_on(
    callers: &[usize],
    given: Kinds,
    kinds: &mut Vec<Kinds>,
    work: &mut Vec<usize>,
) -> Result<(), NoMemory>
    requires { All (λ i. i < length kinds.old.items) callers.now }
    ensures kinds { OnOk result
        (kinds.new.items ≡ passed_kinds given callers.now kinds.old.items) }
    ensures work { OnOk result
        (work.new.items ≡ passed_work given callers.now kinds.old.items work.old.items) }
{
    for caller in callers {
        let old = kinds[*caller];
        let new = meet(old, given);
        kinds[*caller] = new;
        put_if(count(new) < count(old), *caller, work)?;
    }
    Ok(())
}
