//! Several members with the greatest numbers, or with the least.
ghost use Rattle.std.specs.Prelude.{◌≡◌, ◌<◌, ◌++◌, ℕ, map, filter, int_lt, length, pos, take, true, false, IfOk, IsTrue};
ghost use Rattle.std.specs.List.Sorted.{IsStrictlyIncreasing};
ghost use Rattle.nl_fixed.specs.Nouns.{Names};
ghost use Rattle.nl_value.specs.Sorting.{sorted_by};
ghost use Rattle.nl_value.specs.Views.{plain};
ghost use Rattle.nl_draw.specs.Stream.{shuffled};
ghost use Rattle.nl_agents.specs.Members.{is_listed};
ghost use Rattle.nl_agentset_query.specs.Orders.{SameNumbers};
ghost use Rattle.nl_birth.specs.Births as births;
ghost use Rattle.nl_tree.specs.Tree.{span};
ghost use Rattle.nl_exec_meaning.specs.Code.{Code as Nodes, node_at};
ghost use Rattle.nl_exec_meaning.specs.Walks.{at_stream, first_extremes, in_order_of_numbers, is_number, members_kept, some_extremes};
ghost use Rattle.nl_exec_meaning.specs.inner.Seen.{answered};
ghost use Rattle.nl_exec_meaning.specs.Means.{EndsAs, Stands};
ghost use Rattle.nl_exec_meaning.specs.Seen.{ground, state_of};
ghost use Rattle.nl_exec_meaning.specs.Standing.{ExitFits, HandsFit, MembersFit};
ghost use Rattle.nl_exec_walks.specs.inner.Passes.{outranks, ranked};

use crate::lists::{listed_value, members_of};
use nl_agents::Store;
use nl_agentset_query::orders::in_order;
use nl_exec_acts::ErrorKind;
use nl_exec_meaning::ends::fault;
use nl_exec_meaning::{Answered, Answers, Code, Exit, Hands};
use nl_fixed::{NoMemory, Num};
use nl_value::{AgentKind, Serials, Value};
use std::alloc::Global;

/// A member by the number that it answered, in millionths.
#[derive(Clone, Copy)]
pub struct Ranked {
    pub count: i64,
    pub member: u64,
}

// The members that answered numbers, with these.
fn ranks_of(alloc: Global, answers: &[Answered]) -> Result<Vec<Ranked>, NoMemory>
    ensures { IfOk result (λ ranks. ranks.items ≡ map ranked (filter is_number (map answered answers.now))) }
{
    let mut ranks = Vec::new(alloc);
    for answer in answers {
        if let Value::Number(number) = &answer.value {
            ranks.push(Ranked {
                count: number.millionths(),
                member: answer.member,
            })?;
        }
    }
    Ok(ranks)
}

// The greatest number first; those with equal numbers stay in place.
fn greatest_first(mut ranks: Vec<Ranked>) -> Result<Vec<Ranked>, NoMemory>
    ensures { IfOk result (λ sorted. sorted.items ≡ sorted_by (outranks true) ranks.items) }
{
    ranks.sort_by(|a, b| b.count.cmp(&a.count))?;
    Ok(ranks)
}

// The least number first.
fn least_first(mut ranks: Vec<Ranked>) -> Result<Vec<Ranked>, NoMemory>
    ensures { IfOk result (λ sorted. sorted.items ≡ sorted_by (outranks false) ranks.items) }
{
    ranks.sort_by(|a, b| a.count.cmp(&b.count))?;
    Ok(ranks)
}

// The greatest number first, or the least.
fn sorted(up: bool, ranks: Vec<Ranked>) -> Result<Vec<Ranked>, NoMemory>
    ensures { IfOk result (λ sorted. sorted.items ≡ sorted_by (outranks up) ranks.items) }
{
    if up {
        greatest_first(ranks)
    } else {
        least_first(ranks)
    }
}

// The members of these.
fn members_in(alloc: Global, ranks: &[Ranked]) -> Result<Vec<u64>, NoMemory>
    ensures { IfOk result (λ members. members.items ≡ map (λ r. r.member) ranks.now) }
{
    let mut members = Vec::new(alloc);
    for rank in ranks {
        members.push(rank.member)?;
    }
    Ok(members)
}

/// So many members whose numbers come first, in ascending order.
pub fn first_members(
    alloc: Global,
    up: bool,
    count: usize,
    answers: &[Answered],
) -> Result<Serials, NoMemory>
    ensures { let first = members_kept (take count (in_order_of_numbers up (map answered answers.now))) in
        IfOk result (SameNumbers first) }
{
    let ranks = ranks_of(alloc, answers)?;
    let mut first = sorted(up, ranks)?;
    first.truncate(count);
    let members = members_in(alloc, &first)?;
    Ok(in_order(members))
}

// Those of the members that are listed.
fn members_among(alloc: Global, members: &[u64], list: &Serials) -> Result<Vec<u64>, NoMemory>
    ensures { IfOk result (λ kept. kept.items ≡ filter (is_listed list.now) members.now) }
{
    let mut kept = Vec::new(alloc);
    for member in members {
        if list.contains(*member) {
            kept.push(*member)?;
        }
    }
    Ok(kept)
}

// The answers in a random order: one shuffle of them.
fn mixed<S: Store>(hands: &mut Hands<S>, mut list: Vec<Answered>) -> Vec<Answered>
    requires { HandsFit hands.old }
    ensures order { result.items ≡ (shuffled list.items hands.old.stage.stream).0 }
    ensures state { (names : Names) (units : ℕ) → state_of names hands.new units
        ≡ at_stream (shuffled list.items hands.old.stage.stream).1 (state_of names hands.old units) }
    ensures stands { Stands hands.new hands.old }
{
    hands.stage.stream.shuffle(&mut list);
    list
}

// So many members with the greatest numbers, or with the least, of members in a shuffled order.
fn first_extremes<S: Store>(
    alloc: Global,
    hands: &mut Hands<S>,
    which: AgentKind,
    up: bool,
    count: usize,
    answers: Answers,
) -> Result<Exit, NoMemory>
    requires fit { HandsFit hands.old }
    requires members { MembersFit (ground hands.old) which (members_kept answers) }
    requires ascend { IsStrictlyIncreasing (members_kept answers) }
    ensures meaning { IfOk result (λ exit. (c : Nodes) → EndsAs c exit hands.new hands.old
        (λ s. first_extremes up which count answers s)) }
    ensures fits { IfOk result (λ exit. ExitFits (ground hands.new) exit) }
    ensures stands { IfOk result (λ exit. Stands hands.new hands.old) }
{
    let members = members_of(alloc, answers.as_slice())?;
    let list = mixed(hands, answers.into_vec());
    let first = first_members(alloc, up, count, &list)?;
    let kept = members_among(alloc, &members, &first)?;
    Ok(Exit::Gives(listed_value(alloc, which, kept)?))
}

// How many answers are numbers.
fn numbers_in(answers: &[Answered]) -> usize
    ensures { result ≡ length (filter is_number (map answered answers.now)) }
{
    let mut many = 0;
    for answer in answers {
        if let Value::Number(_) = answer.value {
            many += 1;
        }
    }
    many
}

// How many members a number asks for: it is cut toward 0, and below 1 it asks for none.
fn wanted_of(number: Num) -> u64
    ensures { result ≡ births.count_of number }
{
    let whole = number.whole_part();
    if whole < 0 { 0 } else { whole as u64 }
}

// Whether a number is below 0.
fn is_below_zero(number: Num) -> bool
    ensures { result ≡ int_lt number (pos 0) }
{
    number.millionths() < 0
}

/// So many members with the greatest numbers, or with the least. Too few are told before a number below 0, and both before anything is
/// drawn.
pub fn some_extremes<S: Store>(
    alloc: Global,
    code: &Code,
    hands: &mut Hands<S>,
    node: u32,
    which: AgentKind,
    up: bool,
    number: Num,
    answers: Answers,
) -> Result<Exit, NoMemory>
    requires fit { HandsFit hands.old }
    requires members { MembersFit (ground hands.old) which (members_kept answers) }
    requires ascend { IsStrictlyIncreasing (members_kept answers) }
    ensures meaning { IfOk result (λ exit. EndsAs code.now exit hands.new hands.old
        (λ s. some_extremes up which number answers (span (node_at code.now node)) s)) }
    ensures fits { IfOk result (λ exit. ExitFits (ground hands.new) exit) }
    ensures stands { IfOk result (λ exit. Stands hands.new hands.old) }
{
    let wanted = wanted_of(number);
    if (numbers_in(answers.as_slice()) as u64) < wanted {
        return Ok(fault(ErrorKind::TooFew, code.span(node), hands.site));
    }
    if is_below_zero(number) {
        return Ok(fault(ErrorKind::Domain, code.span(node), hands.site));
    }
    first_extremes(alloc, hands, which, up, wanted as usize, answers)
}
