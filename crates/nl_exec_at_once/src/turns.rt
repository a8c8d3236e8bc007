//! Turns of agents whose block is done at once.
ghost use Rattle.std.specs.Prelude.{◌≡◌, ◌+◌, ◌<◌, ◌≤◌, ℕ, suc, Some, slice_get, true, false};
ghost use Rattle.nl_tree.specs.Tree.{label, parts};
ghost use Rattle.nl_exec_meaning.specs.Cases.{case_of};
ghost use Rattle.nl_exec_meaning.specs.Cases as case;
ghost use Rattle.nl_exec_meaning.specs.Code.{node_at};
ghost use Rattle.nl_exec_meaning.specs.Meaning.{evaluator};
ghost use Rattle.nl_exec_meaning.specs.State.{Eval, at_site};
ghost use Rattle.nl_exec_meaning.specs.Walks.{turn_over};
ghost use Rattle.nl_exec_meaning.specs.Frames.{walked_on};
ghost use Rattle.nl_exec_meaning.specs.Means.{Stands};
ghost use Rattle.nl_exec_meaning.specs.Seen.{ground, state_of};
ghost use Rattle.nl_exec_meaning.specs.Standing.{HandsFit, TurnsFit};
ghost use Rattle.nl_exec_at_once.specs.AtOnce.{block_left};
ghost use Rattle.nl_exec_at_once.specs.declared.statements.TheConstants.{MOST_NESTED as most_nested};

use crate::statements::{Far, do_statements};
use nl_agents::Store;
use nl_exec_meaning::{BoxedTurns, Code, Hands, Site};
use nl_exec_walks::living::{first_living, member_at, owner_of};
use std::alloc::Global;

/// A block that isn't over: how far its statements were done, and how many locals are known around it.
#[derive(Clone, Copy)]
pub struct Midway {
    pub far: Far,
    pub kept: usize,
}

/// The statements of a block are done, each for a unit, so far as that is done at once. None where the block
/// is over.
#[inline(always)]
pub fn do_block<S: Store>(
    alloc: Global,
    code: &Code,
    hands: &mut Hands<S>,
    block: u32,
    units: &mut u64,
) -> Option<Midway>
    requires fit { HandsFit hands.old }
    requires block { case_of code.now.program.declared (label (node_at code.now block)) ≡ case.Statements }
    ensures done { (room n : ℕ) → suc most_nested < room →
        evaluator code.now.program room (node_at code.now block)
        (state_of code.now.names hands.old (units.old + n))
        ≡ block_left code.now room block result (state_of code.now.names hands.new (units.new + n)) }
    ensures left { units.new ≤ units.old }
    ensures stands { Stands hands.new hands.old }
{
    let kept = hands.locals.len();
    let far = do_statements(alloc, code, hands, block, 0, units);
    if let Some(_) = far.inside {
        return Some(Midway { far, kept });
    }
    let Some(_) = code.part(block, far.at) else {
        hands.locals.truncate(kept);
        return None;
    };
    Some(Midway { far, kept })
}

// A turn is over. The next member runs, for a unit, if there are both; else all is as it was.
#[inline(always)]
fn next_member<S: Store>(
    code: &Code,
    hands: &mut Hands<S>,
    ask: u32,
    index: u32,
    block: u32,
    turns: &mut BoxedTurns,
    units: &mut u64,
) -> bool
    requires fit { HandsFit hands.old }
    requires turns { TurnsFit (ground hands.old) turns.old }
    requires block { slice_get (parts (node_at code.now ask)) index ≡ Some (node_at code.now block) }
    ensures next { result ≡ true → (prev : Eval) (n : ℕ) →
        walked_on prev (node_at code.now ask) index turns.old
        (at_site turns.old.site (state_of code.now.names hands.old (units.old + n)))
        ≡ turn_over turns.new.site
        (prev (node_at code.now block) (state_of code.now.names hands.new (units.new + n)))
        (walked_on prev (node_at code.now ask) index turns.new) }
    ensures not { result ≡ false →
        (hands.new ≡ hands.old) × (units.new ≡ units.old) × (turns.new ≡ turns.old) }
    ensures turns { TurnsFit (ground hands.new) turns.new }
    ensures left { units.new ≤ units.old }
    ensures fewer { result ≡ true → units.new < units.old }
    ensures stands { Stands hands.new hands.old }
{
    if *units == 0 {
        return false;
    }
    // What the numbers of patches rest on: the store stands for a world.
    let _stands = hands.stage.store.shape();
    let all = turns.get();
    let members = all.members.as_slice();
    let Some(at) = first_living(&hands.stage.store, all.which, members, all.at) else {
        return false;
    };
    let Some(member) = member_at(members, at) else {
        return false;
    };
    let site = Site {
        agent: owner_of(all.which, member),
        asker: all.site.agent,
        body: all.site.body,
    };
    turns.go_to(at + 1);
    hands.site = site;
    *units -= 1;
    true
}

/// Turns are taken, of which the first one has its unit, so far as that is done at once. None where the last
/// one that was taken is over.
pub fn do_turns<S: Store>(
    alloc: Global,
    code: &Code,
    hands: &mut Hands<S>,
    ask: u32,
    index: u32,
    block: u32,
    turns: &mut BoxedTurns,
    units: &mut u64,
) -> Option<Midway>
    requires fit { HandsFit hands.old }
    requires turns { TurnsFit (ground hands.old) turns.old }
    requires block { slice_get (parts (node_at code.now ask)) index ≡ Some (node_at code.now block) }
    requires is { case_of code.now.program.declared (label (node_at code.now block)) ≡ case.Statements }
    ensures done { (room n : ℕ) → suc most_nested < room → let prev = evaluator code.now.program room in
        turn_over turns.old.site
        (prev (node_at code.now block) (state_of code.now.names hands.old (units.old + n)))
        (walked_on prev (node_at code.now ask) index turns.old)
        ≡ turn_over turns.new.site
        (block_left code.now room block result (state_of code.now.names hands.new (units.new + n)))
        (walked_on prev (node_at code.now ask) index turns.new) }
    ensures turns { TurnsFit (ground hands.new) turns.new }
    ensures left { units.new ≤ units.old }
    ensures stands { Stands hands.new hands.old }
{
    'turns: loop {
        if let Some(midway) = do_block(alloc, code, hands, block, units) {
            return Some(midway);
        }
        if !next_member(code, hands, ask, index, block, turns, units) {
            return None;
        }
    }
}
