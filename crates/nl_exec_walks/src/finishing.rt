//! What is made of all answers.
ghost use Rattle.std.specs.Prelude.{◌≡◌, map, IfOk, IsTrue};
ghost use Rattle.std.specs.List.{list_all};
ghost use Rattle.std.specs.List.Sorted.{IsStrictlyIncreasing};
ghost use Rattle.nl_tree.specs.Tree.{span};
ghost use Rattle.nl_exec_meaning.specs.Code.{node_at};
ghost use Rattle.nl_exec_meaning.specs.State.{State};
ghost use Rattle.nl_exec_meaning.specs.Walks.{listed_extremes, listed_members, members_kept, value_of_one};
ghost use Rattle.nl_exec_meaning.specs.Frames.{finished};
ghost use Rattle.nl_exec_meaning.specs.Ground.{Ground, fits};
ghost use Rattle.nl_exec_meaning.specs.Means.{EndsAs, Stands};
ghost use Rattle.nl_exec_meaning.specs.Seen.{ended, ground};
ghost use Rattle.nl_exec_meaning.specs.Standing.{ExitFits, HandsFit, MembersAscend, MembersFit};
ghost use Rattle.nl_exec_meaning.specs.declared.turns.Gathered.TheVariants as gathered;

use crate::extremes::{extremes, one_extreme};
use crate::lists::{listed_value, members_of, values_of};
use crate::orders::sorted_on;
use crate::several::some_extremes;
use nl_agents::Store;
use nl_exec_acts::ErrorKind;
use nl_exec_meaning::ends::fault;
use nl_exec_meaning::{Answers, Code, Exit, Gathered, Hands, Over};
use nl_fixed::NoMemory;
use nl_value::{AgentKind, Value};
use std::alloc::Global;

// The set of all members that answered.
fn all_members(alloc: Global, which: AgentKind, made: &Answers) -> Result<Exit, NoMemory>
    requires { IsStrictlyIncreasing (members_kept made.now) }
    ensures meaning { IfOk result (λ exit. (s : State) → ended exit s ≡ listed_members which made.now s) }
    ensures fits { IfOk result (λ exit. (g : Ground) →
        MembersFit g which (members_kept made.now) → ExitFits g exit) }
{
    let members = members_of(alloc, made.as_slice())?;
    Ok(Exit::Gives(listed_value(alloc, which, members)?))
}

// The set of the members with the greatest number, or with the least.
fn all_extremes(alloc: Global, which: AgentKind, up: bool, made: &Answers) -> Result<Exit, NoMemory>
    requires { IsStrictlyIncreasing (members_kept made.now) }
    ensures meaning { IfOk result (λ exit. (s : State) → ended exit s ≡ listed_extremes up which made.now s) }
    ensures fits { IfOk result (λ exit. (g : Ground) →
        MembersFit g which (members_kept made.now) → ExitFits g exit) }
{
    let members = extremes(alloc, up, made.as_slice())?;
    Ok(Exit::Gives(listed_value(alloc, which, members)?))
}

// The value of one agent, which may have died before its turn.
fn one_value<S: Store>(code: &Code, hands: &Hands<S>, node: u32, made: Answers) -> Exit
    requires { IsTrue (list_all (λ a. fits (ground hands.now) a.value) made) }
    ensures meaning { EndsAs code.now result hands.now hands.now
        (λ s. value_of_one made (span (node_at code.now node)) s) }
    ensures fits { ExitFits (ground hands.now) result }
{
    let mut list = made.into_vec();
    if list.is_empty() {
        return fault(ErrorKind::NoAgent, code.span(node), hands.site);
    }
    let first = list.swap_remove(0);
    Exit::Gives(first.value)
}

// What a word of a set makes of all answers.
fn of_set<S: Store>(
    alloc: Global,
    code: &Code,
    hands: &mut Hands<S>,
    node: u32,
    which: AgentKind,
    made: Answers,
    word: Over,
) -> Result<Exit, NoMemory>
    requires fit { HandsFit hands.old }
    requires members { MembersFit (ground hands.old) which (members_kept made) }
    requires ascend { IsStrictlyIncreasing (members_kept made) }
    ensures meaning { IfOk result (λ exit. EndsAs code.now exit hands.new hands.old
        (λ s. finished (gathered.OfSet word) which (span (node_at code.now node)) made s)) }
    ensures fits { IfOk result (λ exit. ExitFits (ground hands.new) exit) }
    ensures stands { IfOk result (λ exit. Stands hands.new hands.old) }
{
    match word {
        Over::With => all_members(alloc, which, &made),
        Over::All => Ok(Exit::Gives(Value::Truth(true))),
        Over::WithMax => all_extremes(alloc, which, true, &made),
        Over::WithMin => all_extremes(alloc, which, false, &made),
        Over::MaxOneOf => one_extreme(alloc, hands, which, true, made.as_slice()),
        Over::MinOneOf => one_extreme(alloc, hands, which, false, made.as_slice()),
        Over::SortOn => sorted_on(alloc, code, hands, node, which, made),
        _ => Ok(fault(ErrorKind::WrongType, code.span(node), hands.site)),
    }
}

/// What is made of all answers: a word of a set has its own answer, `of` takes the values.
pub fn finish<S: Store>(
    alloc: Global,
    code: &Code,
    hands: &mut Hands<S>,
    node: u32,
    which: AgentKind,
    made: Answers,
    gathered: Gathered,
) -> Result<Exit, NoMemory>
    requires fit { HandsFit hands.old }
    requires values { IsTrue (list_all (λ a. fits (ground hands.old) a.value) made) }
    requires members { MembersFit (ground hands.old) which (members_kept made) }
    requires ascend { MembersAscend gathered (members_kept made) }
    ensures meaning { IfOk result (λ exit. EndsAs code.now exit hands.new hands.old
        (λ s. finished gathered which (span (node_at code.now node)) made s)) }
    ensures fits { IfOk result (λ exit. ExitFits (ground hands.new) exit) }
    ensures stands { IfOk result (λ exit. Stands hands.new hands.old) }
{
    match gathered {
        Gathered::OfSet { word } => of_set(alloc, code, hands, node, which, made, word),
        Gathered::Several { up, number } => {
            some_extremes(alloc, code, hands, node, which, up, number, made)
        }
        Gathered::OfAll { several: true } => {
            let values = values_of(alloc, made.into_vec())?;
            Ok(Exit::Gives(Value::items(alloc, values)?))
        }
        Gathered::OfAll { several: false } => Ok(one_value(code, hands, node, made)),
    }
}
