//! The members whose number is the greatest of all answers, or the least.
ghost use Rattle.std.specs.Prelude.{◌≡◌, ℕ, map, IfOk, IsTrue};
ghost use Rattle.std.specs.List.{list_all};
ghost use Rattle.nl_value.specs.Order.{count_of};
ghost use Rattle.nl_value.specs.Views.{plain};
ghost use Rattle.nl_exec_meaning.specs.Code.{Code as Nodes};
ghost use Rattle.nl_exec_meaning.specs.Walks.{extremes, members_kept, one_extreme};
ghost use Rattle.nl_exec_meaning.specs.inner.Seen.{answered};
ghost use Rattle.nl_exec_meaning.specs.Means.{EndsAs, Stands};
ghost use Rattle.nl_exec_meaning.specs.Seen.{ground};
ghost use Rattle.nl_exec_meaning.specs.Standing.{ExitFits, HandsFit, MembersFit};
ghost use Rattle.nl_exec_walks.specs.Extremes.{beyond, IsBestOf};
ghost use Rattle.nl_exec_walks.specs.inner.Passes.{better};

use nl_agents::Store;
use nl_agentset_query::agents::agent_or_nobody;
use nl_exec_meaning::{Answered, Exit, Hands};
use nl_fixed::{NoMemory, Num};
use nl_value::{AgentKind, Value};
use std::alloc::Global;

/// The number that a value is; what is no number counts as 0.
pub fn count_of(value: &Value) -> Num
    ensures { result ≡ count_of (plain value.now) }
{
    match value {
        Value::Number(number) => *number,
        _ => Num::whole(0).unwrap(),
    }
}

// Whether the second number is above the first, or below it where the least are asked for.
fn beyond(up: bool, a: Num, b: Num) -> bool
    ensures { result ≡ beyond up a b }
{
    if up { a < b } else { b < a }
}

// The better of the best number so far and another one.
fn better(up: bool, known: Option<Num>, count: Num) -> Num
    ensures { result ≡ better up known count }
{
    match known {
        None => count,
        Some(best) => { if beyond(up, best, count) { count } else { best } }
    }
}

// The number that no other is beyond, if there are answers.
fn best_of(up: bool, answers: &[Answered]) -> Option<Num>
    ensures { IsBestOf up result (map answered answers.now) }
{
    let mut best = None;
    for answer in answers {
        best = Some(better(up, best, count_of(&answer.value)));
    }
    best
}

/// The members with the greatest number, or with the least, in the order of the answers.
pub fn extremes(alloc: Global, up: bool, answers: &[Answered]) -> Result<Vec<u64>, NoMemory>
    ensures { IfOk result (λ kept. kept.items ≡ extremes up (map answered answers.now)) }
{
    let mut kept = Vec::new(alloc);
    let Some(best) = best_of(up, answers) else {
        return Ok(kept);
    };
    for answer in answers {
        if !beyond(up, count_of(&answer.value), best) {
            kept.push(answer.member)?;
        }
    }
    Ok(kept)
}

/// One of the members with the greatest number, or with the least, by one draw; nobody where there is none.
pub fn one_extreme<S: Store>(
    alloc: Global,
    hands: &mut Hands<S>,
    which: AgentKind,
    up: bool,
    answers: &[Answered],
) -> Result<Exit, NoMemory>
    requires fit { HandsFit hands.old }
    requires members { MembersFit (ground hands.old) which (members_kept (map answered answers.now)) }
    ensures meaning { IfOk result (λ exit. (c : Nodes) → EndsAs c exit hands.new hands.old
        (λ s. one_extreme up which (map answered answers.now) s)) }
    ensures fits { IfOk result (λ exit. ExitFits (ground hands.new) exit) }
    ensures stands { IfOk result (λ exit. Stands hands.new hands.old) }
{
    // What the numbers of patches rest on: the store stands for a world.
    let _stands = hands.stage.store.shape();
    let members = extremes(alloc, up, answers)?;
    let chosen = hands.stage.stream.choose(&members);
    Ok(Exit::Gives(agent_or_nobody(which, chosen)))
}
