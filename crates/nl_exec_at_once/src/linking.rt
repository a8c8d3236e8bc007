//! Links that are made at once.
ghost use Rattle.std.specs.Prelude.{◌≡◌, ◌<◌, ℕ, None, true, false};
ghost use Rattle.nl_exec_meaning.specs.Code.{node_at};
ghost use Rattle.nl_exec_meaning.specs.declared.words.Making.TheVariants as the_making;
ghost use Rattle.nl_exec_meaning.specs.Makings.{making_case};
ghost use Rattle.nl_exec_meaning.specs.Meaning.{evaluator};
ghost use Rattle.nl_exec_meaning.specs.State.{goes_on};
ghost use Rattle.nl_exec_meaning.specs.Means.{Stands};
ghost use Rattle.nl_exec_meaning.specs.Seen.{state_of};
ghost use Rattle.nl_exec_meaning.specs.Standing.{HandsFit};
ghost use Rattle.nl_exec_at_once.specs.AtOnce.{IsAsBefore};

use nl_agents::{Owner, Store};
use nl_birth::{Way, link_one};
use nl_exec_meaning::{Code, Hands};
use nl_exec_short::members::only_other;
use nl_exec_short::running::lives_and_may_run;
use nl_words::Kinds;
use std::alloc::Global;

/// The turtle that runs is linked with the only other one on its patch, by a word of no breed that takes a set and runs no block, where that
/// is done at once; else nothing is changed.
#[inline(never)]
pub fn do_link<S: Store>(
    alloc: Global,
    code: &Code,
    hands: &mut Hands<S>,
    node: u32,
    runs: Kinds,
    way: Way,
) -> bool
    requires fit { HandsFit hands.old }
    ensures done { result ≡ true → (room n : ℕ) → 6 < room →
        making_case (the_making.Link way false) None runs (evaluator code.now.program room) (node_at code.now node)
        (state_of code.now.names hands.old n) ≡ goes_on (state_of code.now.names hands.new n) }
    ensures not { result ≡ false → IsAsBefore hands.new hands.old }
    ensures stands { Stands hands.new hands.old }
{
    if code.count(node) != 1 || !lives_and_may_run(hands, runs) {
        return false;
    }
    let Owner::Turtle(caller) = hands.site.agent else {
        return false;
    };
    let Some(part) = code.part(node, 0) else {
        return false;
    };
    let Some(target) = only_other(alloc, code, hands, part) else {
        return false;
    };
    match link_one(alloc, &mut hands.stage.store, 0, way, caller, target) {
        Ok(()) => true,
        Err(_) => false,
    }
}
