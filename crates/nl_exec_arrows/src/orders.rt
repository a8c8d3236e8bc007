//! Items in an order: members of a set in that of agents, and items by how many others come before them.
ghost use Rattle.std.specs.Prelude.{◌≡◌, ◌<◌, ◌^◌, All, IfOk, IsTrue, map, nat_lt};
ghost use Rattle.nl_value.specs.Sets.{set_kind};
ghost use Rattle.nl_value.specs.Sorting.{sorted_by};
ghost use Rattle.nl_value.specs.declared.sets.AgentKind.TheVariants as the_kind;
ghost use Rattle.nl_agents.specs.Members.{members_of};
ghost use Rattle.nl_agents.specs.Names.{set_fits};
ghost use Rattle.nl_agentset_query.specs.Agents.{agent_value};
ghost use Rattle.nl_exec_acts.specs.Acts.{members_in_order};
ghost use Rattle.nl_exec_meaning.specs.Arrows.{by_rank, ranked};
ghost use Rattle.nl_exec_arrows.specs.Orders.{ranked_seen};

use nl_agents::view::View;
use nl_agents::{Steps, Store};
use nl_agentset_query::agents::agent_value;
use nl_agentset_query::living;
use nl_exec_meaning::{Hands, Numbers};
use nl_fixed::NoMemory;
use nl_value::{AgentKind, AgentSet, Items, Serials, Value};
use std::alloc::Global;
use std::marker::Brand;
use std::sync::ledger::{Blank, Ledger};

// ---- members of a set

fn members_by<S: Store, L: Ledger>(
    alloc: Global,
    blank: Blank,
    set: &AgentSet,
    store: &S,
) -> Result<Serials, NoMemory>
    requires name { blank.name ≡ L.name }
    requires parts { blank.parts ≡ L.parts }
    requires some { 0 < blank.parts }
    requires fit { IsTrue (set_fits (S.world store.now).rest set.now) }
    ensures { IfOk result (λ members. members ≡ members_of (S.world store.now).rest set.now) }
{
    let mut steps = Steps::<L>::new(blank);
    living(alloc, set, store, &mut steps)
}

// The living members of a set, ascending. What the store reads for them is counted by nobody.
fn members<S: Store>(alloc: Global, set: &AgentSet, store: &S) -> Result<Serials, NoMemory>
    requires { IsTrue (set_fits (S.world store.now).rest set.now) }
    ensures { IfOk result (λ members. members ≡ members_of (S.world store.now).rest set.now) }
{
    members_by::<S, Brand>(alloc, Blank::new(1), set, store)
}

// Agents of a kind as values, by their numbers.
fn agents_of(alloc: Global, kind: AgentKind, numbers: &[u64]) -> Result<Items, NoMemory>
    requires { kind ≡ the_kind.Patch → All (λ number. number < 2 ^ 32) numbers.now }
    ensures { IfOk result (λ items. items ≡ map (agent_value kind) numbers.now) }
{
    let mut items = Items::empty(alloc);
    for number in numbers {
        items.push(alloc, agent_value(kind, *number))?;
    }
    Ok(items)
}

// The living members of a set, in the order of agents, where a view tells the order.
fn agents_in_order<S: Store>(
    alloc: Global,
    set: &AgentSet,
    view: &View<S>,
) -> Result<Items, NoMemory>
    requires { IsTrue (set_fits (S.world view.now.store.now).rest set.now) }
    ensures { IfOk result (λ items. items ≡ members_in_order (S.world view.now.store.now).rest set.now) }
{
    // What the numbers of patches rest on: the store stands for a world.
    let _stands = view.store.shape();
    let members = members(alloc, set, view.store)?;
    let mut items = agents_of(alloc, set.kind(), members.as_slice())?;
    items.sort(alloc, view)?;
    Ok(items)
}

/// The living members of a set, in the order of agents.
pub fn members_in_order<S: Store>(
    alloc: Global,
    hands: &Hands<S>,
    set: &AgentSet,
) -> Result<Items, NoMemory>
    requires { IsTrue (set_fits (S.world hands.now.stage.store).rest set.now) }
    ensures { IfOk result (λ items. items ≡ members_in_order (S.world hands.now.stage.store).rest set.now) }
{
    let view = View::new(&hands.stage.store, &hands.stage.layout);
    agents_in_order(alloc, set, &view)
}

// ---- items by ranks

/// An item, and how many others come before it.
#[derive(Drop)]
pub struct Ranked {
    pub value: Value,
    pub rank: u32,
}

// The items with their ranks.
fn with_ranks(alloc: Global, items: &Items, ranks: &Numbers) -> Result<Vec<Ranked>, NoMemory>
    ensures { IfOk result (λ all. map ranked_seen all.items ≡ ranked items.now ranks.now) }
{
    let mut all: Vec<Ranked> = Vec::new(alloc);
    for item in items.as_slice() {
        let Some(rank) = ranks.get(all.len()) else {
            return Ok(all);
        };
        let value = item.copy(alloc)?;
        all.push(Ranked { value, rank })?;
    }
    Ok(all)
}

// Those that fewer come before stand first; where as many do they stay in place.
fn fewest_first(mut all: Vec<Ranked>) -> Result<Vec<Ranked>, NoMemory>
    ensures { IfOk result (λ sorted.
        map ranked_seen sorted.items ≡ sorted_by (λ a b. nat_lt a.rank b.rank) (map ranked_seen all.items)) }
{
    all.sort_by(|a, b| a.rank.cmp(&b.rank))?;
    Ok(all)
}

// The items alone.
fn items_of(alloc: Global, all: Vec<Ranked>) -> Result<Items, NoMemory>
    ensures { IfOk result (λ items. items ≡ map (λ a. a.value) (map ranked_seen all.items)) }
{
    let mut items = Vec::new(alloc);
    for each in all {
        items.push(each.value)?;
    }
    Ok(Items::of_vec(items))
}

/// The items in the order of their ranks.
pub fn in_order_of_ranks(alloc: Global, items: &Items, ranks: &Numbers) -> Result<Items, NoMemory>
    ensures { IfOk result (λ sorted. sorted ≡ by_rank items.now ranks.now) }
{
    let all = with_ranks(alloc, items, ranks)?;
    let sorted = fewest_first(all)?;
    items_of(alloc, sorted)
}
