//! Members in the order of their answers.
ghost use Rattle.std.specs.Prelude.{◌≡◌, ◌<◌, ◌^◌, map, All, IfOk, IsTrue};
ghost use Rattle.std.specs.List.{list_all};
ghost use Rattle.nl_value.specs.Order.{comes_first, have_order, order_kind};
ghost use Rattle.nl_value.specs.Sorting.{sorted_by};
ghost use Rattle.nl_value.specs.declared.sets.AgentKind.TheVariants as the_kind;
ghost use Rattle.nl_agentset_query.specs.Agents.{agent_value};
ghost use Rattle.nl_tree.specs.Tree.{span};
ghost use Rattle.nl_exec_meaning.specs.Code.{node_at};
ghost use Rattle.nl_exec_meaning.specs.Walks.{are_comparable, in_order_of_values, members_kept, sorted_on};
ghost use Rattle.nl_exec_meaning.specs.inner.Seen.{answered};
ghost use Rattle.nl_exec_meaning.specs.Means.{EndsAs, Stands};
ghost use Rattle.nl_exec_meaning.specs.Seen.{ground};
ghost use Rattle.nl_exec_meaning.specs.Standing.{ExitFits, HandsFit, MembersFit};
ghost use Rattle.nl_exec_walks.specs.inner.Passes.{paired, placed, placed_in_order};

use nl_agents::Store;
use nl_agents::view::View;
use nl_agentset_query::agents::agent_value;
use nl_exec_acts::ErrorKind;
use nl_exec_meaning::ends::fault;
use nl_exec_meaning::{Answered, Answers, Code, Exit, Hands};
use nl_fixed::NoMemory;
use nl_value::order::compare;
use nl_value::{AgentKind, Items, Life, OrderKind, Value};
use std::alloc::Global;

/// An agent with what it answered.
#[derive(Drop)]
pub struct Placed {
    pub agent: Value,
    pub value: Value,
}

// Whether values of the two kinds have an order.
fn have_order(a: OrderKind, b: OrderKind) -> bool
    ensures { result ≡ have_order a b }
{
    match a {
        OrderKind::Unordered => false,
        _ => a == b,
    }
}

// Whether all values have an order with those of a kind.
fn all_have_order<L: Life>(kind: OrderKind, answers: &[Answered], life: &L) -> bool
    ensures { let w = L.living life.now in
        result ≡ list_all (λ a. have_order kind (order_kind w a.value)) (map answered answers.now) }
{
    for answer in answers {
        if !have_order(kind, answer.value.order_kind(life)) {
            return false;
        }
    }
    true
}

/// Whether all values have an order with the first one.
pub fn are_comparable<L: Life>(answers: &[Answered], life: &L) -> bool
    ensures { result ≡ are_comparable (L.living life.now) (map answered answers.now) }
{
    match answers {
        [] => true,
        [first, ..] => all_have_order(first.value.order_kind(life), answers, life),
    }
}

// The agents with what they answered.
fn paired(alloc: Global, which: AgentKind, answers: Vec<Answered>) -> Result<Vec<Placed>, NoMemory>
    requires { which ≡ the_kind.Patch →
        All (λ number. number < 2 ^ 32) (members_kept (map answered answers.items)) }
    ensures { IfOk result (λ all. map placed all.items ≡ map (paired which) (map answered answers.items)) }
{
    let mut all = Vec::new(alloc);
    for answer in answers {
        let agent = agent_value(which, answer.member);
        all.push(Placed {
            agent,
            value: answer.value,
        })?;
    }
    Ok(all)
}

// Links in their order: by their ends and breeds, the dead ones last.
fn by_links<L: Life>(mut all: Vec<Placed>, life: &L) -> Result<Vec<Placed>, NoMemory>
    ensures { let w = L.living life.now in
        IfOk result (λ sorted.
        map placed sorted.items ≡ sorted_by (λ a b. comes_first w a.0 b.0) (map placed all.items)) }
{
    all.sort_by(|a, b| compare(&a.agent, &b.agent, life))?;
    Ok(all)
}

// In the order of agents. Turtles and patches stand in it as they answered.
fn in_order_of_agents<L: Life>(
    which: AgentKind,
    all: Vec<Placed>,
    life: &L,
) -> Result<Vec<Placed>, NoMemory>
    ensures { let w = L.living life.now in
        IfOk result (λ sorted. map placed sorted.items ≡ placed_in_order w which (map placed all.items)) }
{
    match which {
        AgentKind::Turtle | AgentKind::Patch => Ok(all),
        AgentKind::Link => by_links(all, life),
    }
}

// In the order of what they answered; those with equal values stay in place.
fn by_values<L: Life>(mut all: Vec<Placed>, life: &L) -> Result<Vec<Placed>, NoMemory>
    ensures { let w = L.living life.now in
        IfOk result (λ sorted.
        map placed sorted.items ≡ sorted_by (λ a b. comes_first w a.1 b.1) (map placed all.items)) }
{
    all.sort_by(|a, b| compare(&a.value, &b.value, life))?;
    Ok(all)
}

// The agents alone.
fn agents_of(alloc: Global, all: Vec<Placed>) -> Result<Items, NoMemory>
    ensures { IfOk result (λ agents. agents ≡ map (λ p. p.0) (map placed all.items)) }
{
    let mut agents = Vec::new(alloc);
    for each in all {
        agents.push(each.agent)?;
    }
    Ok(Items::of_vec(agents))
}

/// The agents in the order of what they answered; those with equal values in the order of agents.
pub fn in_order<L: Life>(
    alloc: Global,
    which: AgentKind,
    answers: Answers,
    life: &L,
) -> Result<Items, NoMemory>
    requires { which ≡ the_kind.Patch → All (λ number. number < 2 ^ 32) (members_kept answers) }
    ensures { let sorted = in_order_of_values (L.living life.now) which answers in
        IfOk result (λ agents. agents ≡ map (λ a. agent_value which a.member) sorted) }
{
    let pairs = paired(alloc, which, answers.into_vec())?;
    let first = in_order_of_agents(which, pairs, life)?;
    let last = by_values(first, life)?;
    agents_of(alloc, last)
}

/// The members sorted by what they answered, ascending. Values without an order are of the wrong kind.
pub fn sorted_on<S: Store>(
    alloc: Global,
    code: &Code,
    hands: &Hands<S>,
    node: u32,
    which: AgentKind,
    answers: Answers,
) -> Result<Exit, NoMemory>
    requires members { MembersFit (ground hands.now) which (members_kept answers) }
    ensures meaning { IfOk result (λ exit. EndsAs code.now exit hands.now hands.now
        (λ s. sorted_on which answers (span (node_at code.now node)) s)) }
    ensures fits { IfOk result (λ exit. ExitFits (ground hands.now) exit) }
{
    // What the numbers of patches rest on: the store stands for a world.
    let _stands = hands.stage.store.shape();
    let view = View::new(&hands.stage.store, &hands.stage.layout);
    if !are_comparable(answers.as_slice(), &view) {
        return Ok(fault(ErrorKind::WrongType, code.span(node), hands.site));
    }
    let agents = in_order(alloc, which, answers, &view)?;
    Ok(Exit::Gives(Value::items(alloc, agents)?))
}
