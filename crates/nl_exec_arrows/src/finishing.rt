//! What is made of all turns.
ghost use Rattle.std.specs.Prelude.{◌≡◌, ℕ, true, IfOk, IsTrue};
ghost use Rattle.nl_tree.specs.Tree.{span};
ghost use Rattle.nl_value.specs.Views.{plain};
ghost use Rattle.nl_exec_meaning.specs.Arrows.{by_rank, gives_kept, gives_list};
ghost use Rattle.nl_exec_meaning.specs.Code.{node_at};
ghost use Rattle.nl_exec_meaning.specs.Ground.{all_fit};
ghost use Rattle.nl_exec_meaning.specs.Rounds.{first_of, is_over, items_in, so_far, turns_left};
ghost use Rattle.nl_exec_meaning.specs.Means.{EndsAs};
ghost use Rattle.nl_exec_meaning.specs.Seen.{ground};
ghost use Rattle.nl_exec_meaning.specs.Standing.{ExitFits, RoundsFit};
ghost use Rattle.nl_exec_meaning.specs.State.{Eval, gives};

use crate::giving::handed_on;
use crate::orders::in_order_of_ranks;
use nl_agents::Store;
use nl_exec_acts::ErrorKind;
use nl_exec_meaning::ends::fault;
use nl_exec_meaning::{Arrow, Code, Exit, Hands, Rounds};
use nl_fixed::NoMemory;
use nl_value::{Items, Value};
use std::alloc::Global;

// The list that was kept, unless it passed the limits.
fn kept_list<S: Store>(
    alloc: Global,
    code: &Code,
    hands: &Hands<S>,
    node: u32,
    rounds: Rounds,
) -> Result<Exit, NoMemory>
    ensures meaning { IfOk result (λ exit. EndsAs code.now exit hands.now hands.now
        (λ s. gives_kept (so_far rounds) (span (node_at code.now node)) s)) }
    ensures fits { IsTrue (all_fit (ground hands.now) rounds.made) →
        IfOk result (λ exit. ExitFits (ground hands.now) exit) }
{
    if rounds.past {
        return Ok(fault(ErrorKind::TooLarge, code.span(node), hands.site));
    }
    Ok(Exit::Gives(Value::items(alloc, rounds.made)?))
}

// The items of the one list, in the order of their ranks.
fn sorted_items(alloc: Global, rounds: &Rounds) -> Result<Items, NoMemory>
    ensures { IfOk result (λ items. items ≡ by_rank (items_in rounds.now) rounds.now.ranks) }
{
    match rounds.over.get(0) {
        Some(Value::Items(items)) => in_order_of_ranks(alloc, items, &rounds.ranks),
        _ => Ok(Items::empty(alloc)),
    }
}

/// How a word ends once no turn is left.
pub fn finish<S: Store>(
    alloc: Global,
    code: &Code,
    hands: &Hands<S>,
    node: u32,
    index: u32,
    word: Arrow,
    rounds: Rounds,
) -> Result<Exit, NoMemory>
    requires over { is_over word rounds ≡ true }
    requires rounds { RoundsFit (ground hands.now) word rounds }
    ensures meaning { (prev : Eval) → IfOk result (λ exit. EndsAs code.now exit hands.now hands.now
        (λ s. turns_left word prev (node_at code.now node) index rounds s)) }
    ensures fits { IfOk result (λ exit. ExitFits (ground hands.now) exit) }
{
    match word {
        Arrow::ForEach => Ok(Exit::Gives(Value::Nobody)),
        Arrow::Map | Arrow::NValues => kept_list(alloc, code, hands, node, rounds),
        Arrow::Filter => Ok(Exit::Gives(Value::items(alloc, rounds.made)?)),
        Arrow::Reduce => Ok(Exit::Gives(handed_on(alloc, &rounds)?)),
        Arrow::SortBy => {
            let items = sorted_items(alloc, &rounds)?;
            Ok(Exit::Gives(Value::items(alloc, items)?))
        }
    }
}
