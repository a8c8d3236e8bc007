//! Truths that are had at once.
ghost use Rattle.std.specs.Prelude.{◌≡◌, ◌<◌, ℕ, ℤ, suc, Bool, Ok, IfSome};
ghost use Rattle.nl_value.specs.Plain.{PlainNumber, PlainTruth};
ghost use Rattle.nl_value.specs.Living.{Living};
ghost use Rattle.nl_tree.specs.Tree.{label};
ghost use Rattle.nl_listops.specs.Truths.{comparison_of};
ghost use Rattle.nl_listops.specs.declared.words.ValueWord.TheVariants as value;
ghost use Rattle.nl_agentset_query.specs.declared.words.OfSet.TheVariants as of_set;
ghost use Rattle.nl_agentset_query.specs.declared.words.QueryWord.TheVariants as query;
ghost use Rattle.nl_exec_acts.specs.declared.words.Act.TheVariants as act;
ghost use Rattle.nl_exec_meaning.specs.declared.words.Built.TheVariants as built;
ghost use Rattle.nl_exec_meaning.specs.declared.words.Control.TheVariants as control;
ghost use Rattle.nl_exec_meaning.specs.Cases as case;
ghost use Rattle.nl_exec_meaning.specs.Cases.{case_of};
ghost use Rattle.nl_exec_meaning.specs.Code.{node_at};
ghost use Rattle.nl_exec_meaning.specs.Meaning.{evaluator};
ghost use Rattle.nl_exec_meaning.specs.State.{State, gives};
ghost use Rattle.nl_exec_meaning.specs.Means.{Stands};
ghost use Rattle.nl_exec_meaning.specs.Seen.{state_of};
ghost use Rattle.nl_exec_meaning.specs.Standing.{HandsFit};
ghost use Rattle.nl_exec_short.specs.Had.{IsDrawn, IsHad, OnlyDraws, two_truths_case};

use crate::draws::drawn;
use crate::members::count;
use crate::numbers::{inside_of, number, one_part, two_parts};
use crate::running::may_run;
use nl_agents::Store;
use nl_agentset_query::words::{OfSet, QueryWord};
use nl_exec_acts::Act;
use nl_exec_meaning::{Built, Code, Control, Hands, Op};
use nl_fixed::Num;
use nl_listops::ValueWord;
use nl_listops::words::Comparison;
use nl_words::Kinds;
use std::alloc::Global;

// ---- comparisons

// How two numbers compare.
#[inline(always)]
fn comparison(which: Comparison, a: Num, b: Num) -> bool
    ensures { (w : Living) → comparison_of w which (PlainNumber a) (PlainNumber b) ≡ Ok result }
{
    match which {
        Comparison::Equal => a == b,
        Comparison::NotEqual => a != b,
        Comparison::Less => a < b,
        Comparison::Greater => a > b,
        Comparison::LessEqual => a <= b,
        Comparison::GreaterEqual => a >= b,
    }
}

/// A word that compares two values, and its parts.
#[derive(Clone, Copy)]
struct Compared {
    which: Comparison,
    left: u32,
    right: u32,
}

// The word that compares which a node is, where the agent that runs may run it.
#[inline(always)]
fn word_that_compares<S: Store>(code: &Code, hands: &Hands<S>, node: u32) -> Option<Compared>
    ensures { IfSome result (λ word. (room n : ℕ) (a b : ℤ) (truth : Bool) →
        let s = state_of code.now.names hands.now n in
        let prev = evaluator code.now.program room in
        prev (node_at code.now word.left) s ≡ gives (PlainNumber a) s →
        prev (node_at code.now word.right) s ≡ gives (PlainNumber b) s →
        ((w : Living) → comparison_of w word.which (PlainNumber a) (PlainNumber b) ≡ Ok truth) →
        evaluator code.now.program (suc room) (node_at code.now node) s ≡ gives (PlainTruth truth) s) }
{
    let Op::Word {
        runs,
        word: Built::Act(Act::Value(ValueWord::Compare(which))),
        ..
    } = code.op(node)
    else {
        return None;
    };
    if !may_run(hands, runs) {
        return None;
    }
    match two_parts(code, node) {
        Some((left, right)) => Some(Compared { which, left, right }),
        None => None,
    }
}

// Whether two numbers that are had at once compare so.
fn compared_at_once<S: Store>(code: &Code, hands: &Hands<S>, node: u32) -> Option<bool>
    requires { HandsFit hands.now }
    ensures { IfSome result (λ truth. IsHad code.now hands.now node 6 (PlainTruth truth)) }
{
    let Some(word) = word_that_compares(code, hands, node) else {
        return None;
    };
    match (
        number(code, hands, word.left),
        number(code, hands, word.right),
    ) {
        (Some(a), Some(b)) => Some(comparison(word.which, a, b)),
        _ => None,
    }
}

// ---- members

// Whether a set has members.
#[inline(never)]
fn has_members<S: Store>(
    code: &Code,
    hands: &Hands<S>,
    node: u32,
    runs: Kinds,
    breed: Option<u32>,
) -> Option<bool>
    requires fit { HandsFit hands.now }
    requires is { case_of code.now.program.declared (label (node_at code.now node))
        ≡ case.Word runs breed (built.Act (act.Query (query.OfSet of_set.Any))) }
    ensures { IfSome result (λ truth. IsHad code.now hands.now node 2 (PlainTruth truth)) }
{
    if !may_run(hands, runs) {
        return None;
    }
    let Some(part) = one_part(code, node) else {
        return None;
    };
    match count(code, hands, part) {
        Some(many) => Some(many != 0),
        None => None,
    }
}

// A comparison of two numbers, or whether a set has members.
fn plain_truth<S: Store>(code: &Code, hands: &Hands<S>, node: u32) -> Option<bool>
    requires { HandsFit hands.now }
    ensures { IfSome result (λ truth. IsHad code.now hands.now node 6 (PlainTruth truth)) }
{
    match code.op(node) {
        Op::Word {
            runs,
            breed,
            word: Built::Act(Act::Query(QueryWord::OfSet(OfSet::Any))),
        } => has_members(code, hands, node, runs, breed),
        _ => compared_at_once(code, hands, node),
    }
}

// The same, which may stand in parentheses.
fn simple_truth<S: Store>(code: &Code, hands: &Hands<S>, node: u32) -> Option<bool>
    requires { HandsFit hands.now }
    ensures { IfSome result (λ truth. IsHad code.now hands.now node 7 (PlainTruth truth)) }
{
    match inside_of(code, node) {
        Some(part) => plain_truth(code, hands, part),
        None => plain_truth(code, hands, node),
    }
}

// ---- words of truths

// What two truths give of which the right one isn't looked at where the left one decides.
fn of_two_truths<S: Store>(code: &Code, hands: &Hands<S>, node: u32, decides: bool) -> Option<bool>
    requires fit { HandsFit hands.now }
    ensures { IfSome result (λ truth. (room n : ℕ) → 7 < room →
        let s = state_of code.now.names hands.now n in
        two_truths_case decides (evaluator code.now.program room) (node_at code.now node) s
        ≡ gives (PlainTruth truth) s) }
{
    let Some(first) = code.part(node, 0) else {
        return None;
    };
    let Some(left) = simple_truth(code, hands, first) else {
        return None;
    };
    if left == decides {
        return Some(decides);
    }
    let Some(second) = code.part(node, 1) else {
        return None;
    };
    simple_truth(code, hands, second)
}

// What `not` gives.
fn negated<S: Store>(
    code: &Code,
    hands: &Hands<S>,
    node: u32,
    runs: Kinds,
    breed: Option<u32>,
) -> Option<bool>
    requires fit { HandsFit hands.now }
    requires is { case_of code.now.program.declared (label (node_at code.now node))
        ≡ case.Word runs breed (built.Act (act.Value value.Not)) }
    ensures { IfSome result (λ truth. IsHad code.now hands.now node 8 (PlainTruth truth)) }
{
    if !may_run(hands, runs) {
        return None;
    }
    let Some(part) = one_part(code, node) else {
        return None;
    };
    match simple_truth(code, hands, part) {
        Some(truth) => Some(!truth),
        None => None,
    }
}

// A simple truth, or what a word makes of such.
fn truth_of_words<S: Store>(code: &Code, hands: &Hands<S>, node: u32) -> Option<bool>
    requires fit { HandsFit hands.now }
    ensures { IfSome result (λ truth. IsHad code.now hands.now node 8 (PlainTruth truth)) }
{
    match code.op(node) {
        Op::Word {
            runs,
            word: Built::Control(Control::And),
            ..
        } => {
            if may_run(hands, runs) {
                of_two_truths(code, hands, node, false)
            } else {
                None
            }
        }
        Op::Word {
            runs,
            word: Built::Control(Control::Or),
            ..
        } => {
            if may_run(hands, runs) {
                of_two_truths(code, hands, node, true)
            } else {
                None
            }
        }
        Op::Word {
            runs,
            breed,
            word: Built::Act(Act::Value(ValueWord::Not)),
        } => negated(code, hands, node, runs, breed),
        _ => simple_truth(code, hands, node),
    }
}

/// The truth that a node gives, where it is had at once: a comparison of two numbers, whether a set has members, or what `and`, `or` and
/// `not` make of such, where each may stand in parentheses.
pub fn truth<S: Store>(code: &Code, hands: &Hands<S>, node: u32) -> Option<bool>
    requires { HandsFit hands.now }
    ensures { IfSome result (λ truth. IsHad code.now hands.now node 9 (PlainTruth truth)) }
{
    match inside_of(code, node) {
        Some(part) => truth_of_words(code, hands, part),
        None => truth_of_words(code, hands, node),
    }
}

// ---- truths that may draw

// Whether two numbers compare so that may be drawn.
fn compared_by_chance<S: Store>(
    alloc: Global,
    code: &Code,
    hands: &mut Hands<S>,
    node: u32,
    runs: Kinds,
    breed: Option<u32>,
    which: Comparison,
) -> Option<bool>
    requires fit { HandsFit hands.old }
    requires is { case_of code.now.program.declared (label (node_at code.now node))
        ≡ case.Word runs breed (built.Act (act.Value (value.Compare which))) }
    ensures drawn { IfSome result (λ truth. IsDrawn code.now hands.new hands.old node 7 (PlainTruth truth)) }
    ensures draws { OnlyDraws hands.new hands.old }
    ensures stands { Stands hands.new hands.old }
{
    if !may_run(hands, runs) {
        return None;
    }
    let Some((left, right)) = two_parts(code, node) else {
        return None;
    };
    let Some(a) = drawn(alloc, code, hands, left) else {
        return None;
    };
    let Some(b) = drawn(alloc, code, hands, right) else {
        return None;
    };
    Some(comparison(which, a, b))
}

/// The same, where numbers that are compared may be drawn. Where it isn't had, draws that were made stay made.
pub fn truth_or_chance<S: Store>(
    alloc: Global,
    code: &Code,
    hands: &mut Hands<S>,
    node: u32,
) -> Option<bool>
    requires fit { HandsFit hands.old }
    ensures drawn { IfSome result (λ truth. IsDrawn code.now hands.new hands.old node 9 (PlainTruth truth)) }
    ensures draws { OnlyDraws hands.new hands.old }
    ensures stands { Stands hands.new hands.old }
{
    match code.op(node) {
        Op::Word {
            runs,
            breed,
            word: Built::Act(Act::Value(ValueWord::Compare(which))),
        } => compared_by_chance(alloc, code, hands, node, runs, breed, which),
        _ => truth(code, hands, node),
    }
}
