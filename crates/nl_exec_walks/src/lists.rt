//! Members and values of answers, as values.
ghost use Rattle.std.specs.Prelude.{◌≡◌, map, IfOk};
ghost use Rattle.std.specs.List.Sorted.{IsStrictlyIncreasing};
ghost use Rattle.nl_value.specs.Views.{plain};
ghost use Rattle.nl_agentset_query.specs.Agents.{listed_value};
ghost use Rattle.nl_exec_meaning.specs.Walks.{members_kept};
ghost use Rattle.nl_exec_meaning.specs.inner.Seen.{answered};

use nl_agentset_query::agents::listed;
use nl_exec_meaning::Answered;
use nl_fixed::NoMemory;
use nl_value::{AgentKind, Items, Serials, Value};
use std::alloc::Global;

/// The members that answered, in order.
pub fn members_of(alloc: Global, answers: &[Answered]) -> Result<Vec<u64>, NoMemory>
    ensures { IfOk result (λ members. members.items ≡ members_kept (map answered answers.now)) }
{
    let mut members = Vec::new(alloc);
    for answer in answers {
        members.push(answer.member)?;
    }
    Ok(members)
}

/// The set that lists members, which ascend.
pub fn listed_value(alloc: Global, which: AgentKind, members: Vec<u64>) -> Result<Value, NoMemory>
    requires { IsStrictlyIncreasing members.items }
    ensures { IfOk result (λ value. plain value ≡ listed_value which members.items) }
{
    Value::set(alloc, listed(which, Serials::of_vec(members)))
}

/// The values of the answers, in order.
pub fn values_of(alloc: Global, answers: Vec<Answered>) -> Result<Items, NoMemory>
    ensures { IfOk result (λ values. values ≡ map (λ a. a.value) (map answered answers.items)) }
{
    let mut values = Vec::new(alloc);
    for answer in answers {
        values.push(answer.value)?;
    }
    Ok(Items::of_vec(values))
}
