//! Turns of `repeat` whose block is done at once.
ghost use Rattle.std.specs.Prelude.{◌≡◌, ◌+◌, ◌<◌, ◌≤◌, ℕ, suc, Some, slice_get};
ghost use Rattle.nl_tree.specs.Tree.{label, parts};
ghost use Rattle.nl_exec_meaning.specs.Cases.{case_of};
ghost use Rattle.nl_exec_meaning.specs.Cases as case;
ghost use Rattle.nl_exec_meaning.specs.Code.{node_at};
ghost use Rattle.nl_exec_meaning.specs.Meaning.{evaluator};
ghost use Rattle.nl_exec_meaning.specs.Means.{Stands};
ghost use Rattle.nl_exec_meaning.specs.Seen.{state_of};
ghost use Rattle.nl_exec_meaning.specs.Standing.{HandsFit};
ghost use Rattle.nl_exec_at_once.specs.AtOnce.{block_left, then_turns};
ghost use Rattle.nl_exec_at_once.specs.declared.statements.TheConstants.{MOST_NESTED as most_nested};

use crate::turns::{Midway, do_block};
use nl_agents::Store;
use nl_exec_meaning::{Code, Hands};
use std::alloc::Global;

/// Turns are taken, of which the first one has its unit, so far as that is done at once. None where the last
/// one that was taken is over.
pub fn do_repeats<S: Store>(
    alloc: Global,
    code: &Code,
    hands: &mut Hands<S>,
    word: u32,
    block: u32,
    left: &mut u64,
    units: &mut u64,
) -> Option<Midway>
    requires fit { HandsFit hands.old }
    requires block { slice_get (parts (node_at code.now word)) 1 ≡ Some (node_at code.now block) }
    requires is { case_of code.now.program.declared (label (node_at code.now block)) ≡ case.Statements }
    ensures done { (room n : ℕ) → suc most_nested < room → let prev = evaluator code.now.program room in
        then_turns left.old prev (node_at code.now word)
        (prev (node_at code.now block) (state_of code.now.names hands.old (units.old + n)))
        ≡ then_turns left.new prev (node_at code.now word)
        (block_left code.now room block result (state_of code.now.names hands.new (units.new + n))) }
    ensures left { units.new ≤ units.old }
    ensures stands { Stands hands.new hands.old }
{
    'turns: loop {
        if let Some(midway) = do_block(alloc, code, hands, block, units) {
            return Some(midway);
        }
        if *left == 0 || *units == 0 {
            return None;
        }
        *left -= 1;
        *units -= 1;
    }
}
