//! Numbers that are had at once.
ghost use Rattle.std.specs.Prelude.{◌≡◌, ◌≤◌, ◌*ℤ◌, pos, [], ◌∷◌, ℕ, ℤ, suc, Some, Ok, IfSome, IsSome, option_map};
ghost use Rattle.std.specs.Option.{option_copied};
ghost use Rattle.nl_fixed.specs.Numbers.{one};
ghost use Rattle.nl_fixed.specs.declared.span.Span.{Span as Place};
ghost use Rattle.nl_value.specs.Plain.{Plain, PlainNumber};
ghost use Rattle.nl_value.specs.Views.{plain};
ghost use Rattle.nl_tree.specs.Tree.{label, parts};
ghost use Rattle.nl_agentset_query.specs.declared.words.OfSet.TheVariants as of_set;
ghost use Rattle.nl_agentset_query.specs.declared.words.QueryWord.TheVariants as query;
ghost use Rattle.nl_exec_acts.specs.declared.words.Act.TheVariants as act;
ghost use Rattle.nl_exec_meaning.specs.declared.words.Built.TheVariants as built;
ghost use Rattle.nl_exec_meaning.specs.Cases as case;
ghost use Rattle.nl_exec_meaning.specs.Cases.{case_of};
ghost use Rattle.nl_listops.specs.Arithmetic.{number_of_two};
ghost use Rattle.nl_exec_meaning.specs.Code.{Code as Nodes, node_at};
ghost use Rattle.nl_exec_meaning.specs.Meaning.{evaluator};
ghost use Rattle.nl_exec_meaning.specs.State.{State, gives};
ghost use Rattle.nl_exec_meaning.specs.Variables.{read_owned, read_apart};
ghost use Rattle.nl_exec_meaning.specs.Seen.{state_of};
ghost use Rattle.nl_exec_meaning.specs.Standing.{HandsFit};
ghost use Rattle.nl_exec_variables.specs.Facts.{value_of_fact};
ghost use Rattle.nl_exec_short.specs.Had.{IsHad};

use crate::members::count;
use crate::running::{lives_and_may_run, may_run};
use nl_agents::Store;
use nl_agentset_query::words::{OfSet, QueryWord};
use nl_exec_acts::Act;
use nl_exec_meaning::{Apart, Built, Code, Exit, Hands, Op};
use nl_exec_variables::apart::{Fact, fact_of};
use nl_exec_variables::variables::{global, local, owner_of};
use nl_fixed::{Num, NumFault, Span};
use nl_listops::ValueWord;
use nl_listops::words::OfNumbers;
use nl_value::Value;
use nl_words::Kinds;
use std::alloc::Global;

// ---- variables

// The number that a value is.
#[inline(always)]
fn number_in(value: Option<&Value>) -> Option<Num>
    ensures { IfSome result (λ number.
        option_map plain (option_copied value.entry) ≡ Some (PlainNumber number)) }
{
    match value {
        Some(Value::Number(number)) => Some(*number),
        _ => None,
    }
}

// The number that a variable of agents holds which is kept under a slot.
#[inline(never)]
fn number_owned<S: Store>(hands: &Hands<S>, runs: Kinds, slot: u32) -> Option<Num>
    requires { HandsFit hands.now }
    ensures { IfSome result (λ number. (c : Nodes) (n : ℕ) (place : Place) →
        let s = state_of c.names hands.now n in read_owned runs slot place s ≡ gives (PlainNumber number) s) }
{
    if runs.observer || !lives_and_may_run(hands, runs) {
        return None;
    }
    number_in(hands.stage.store.var(owner_of(hands, slot), slot))
}

// The number that a fact is.
fn number_of_fact(fact: Fact) -> Option<Num>
    ensures { IfSome result (λ number. value_of_fact fact ≡ PlainNumber number) }
{
    match fact {
        Fact::Number(number) => Some(number),
        Fact::Turtle(_) => None,
        Fact::Breed(_) => None,
        Fact::LinkBreed(_) => None,
    }
}

// The number that a variable of agents holds which is kept under no slot.
#[inline(never)]
fn number_apart<S: Store>(hands: &Hands<S>, runs: Kinds, which: Apart) -> Option<Num>
    requires { HandsFit hands.now }
    ensures { IfSome result (λ number. (c : Nodes) (n : ℕ) (place : Place) →
        let s = state_of c.names hands.now n in read_apart runs which place s ≡ gives (PlainNumber number) s) }
{
    if !lives_and_may_run(hands, runs) {
        return None;
    }
    match fact_of(which, &hands.stage.store, hands.site.agent) {
        Some(fact) => number_of_fact(fact),
        None => None,
    }
}

// ---- numbers

// What a word makes of two numbers, where it makes a number.
#[inline(always)]
fn of_two(which: OfNumbers, a: Num, b: Num) -> Option<Num>
    ensures { IfSome result (λ number. number_of_two which a b ≡ Ok number) }
{
    let made: Result<Num, NumFault> = match which {
        OfNumbers::Plus => a.add(b),
        OfNumbers::Minus => a.sub(b),
        OfNumbers::Times => a.mul(b),
        OfNumbers::Divided => a.div(b),
        OfNumbers::Modulo => a.modulo(b),
        _ => return None,
    };
    match made {
        Ok(number) => Some(number),
        Err(_) => None,
    }
}

// A count as a number.
#[inline(always)]
fn whole(many: usize) -> Num
    requires { many ≤ 400_000 }
    ensures { result ≡ (pos many *ℤ pos one) }
{
    Num::whole(many as i64).unwrap()
}

// How many members a set has, as a number.
#[inline(never)]
fn number_of_members<S: Store>(
    code: &Code,
    hands: &Hands<S>,
    node: u32,
    runs: Kinds,
    breed: Option<u32>,
) -> Option<Num>
    requires fit { HandsFit hands.now }
    requires is { case_of code.now.program.declared (label (node_at code.now node))
        ≡ case.Word runs breed (built.Act (act.Query (query.OfSet of_set.Count))) }
    ensures { IfSome result (λ number. IsHad code.now hands.now node 2 (PlainNumber number)) }
{
    // What the number's range rests on: the store stands for a world.
    let _stands = hands.stage.store.shape();
    if !may_run(hands, runs) {
        return None;
    }
    let Some(part) = one_part(code, node) else {
        return None;
    };
    match count(code, hands, part) {
        Some(many) => Some(whole(many)),
        None => None,
    }
}

// The number that the node of a word gives which counts members.
#[inline(always)]
fn count_of_word<S: Store>(code: &Code, hands: &Hands<S>, node: u32) -> Option<Num>
    requires { HandsFit hands.now }
    ensures { IfSome result (λ number. IsHad code.now hands.now node 2 (PlainNumber number)) }
{
    match code.op(node) {
        Op::Word {
            runs,
            breed,
            word: Built::Act(Act::Query(QueryWord::OfSet(OfSet::Count))),
        } => number_of_members(code, hands, node, runs, breed),
        _ => None,
    }
}

// The number that a node gives which has no parts that give numbers: one that is written, that of a variable, or how many members a set
// has.
fn leaf<S: Store>(code: &Code, hands: &Hands<S>, node: u32) -> Option<Num>
    requires { HandsFit hands.now }
    ensures { IfSome result (λ number. IsHad code.now hands.now node 2 (PlainNumber number)) }
{
    match code.op(node) {
        Op::Number(number) => Some(number),
        Op::Local(id) => number_in(local(code, hands, id)),
        Op::Global(slot) => number_in(global(hands, slot)),
        Op::Owned { runs, slot } => number_owned(hands, runs, slot),
        Op::Aside { runs, which } => number_apart(hands, runs, which),
        _ => count_of_word(code, hands, node),
    }
}

// The part of a node that has no others.
#[inline(always)]
pub(crate) fn one_part(code: &Code, node: u32) -> Option<u32>
    ensures { IfSome result (λ part. parts (node_at code.now node) ≡ node_at code.now part ∷ []) }
{
    if code.count(node) != 1 {
        return None;
    }
    code.part(node, 0)
}

// The two parts of a node that has no others.
#[inline(always)]
pub(crate) fn two_parts(code: &Code, node: u32) -> Option<(u32, u32)>
    ensures { IfSome result (λ r.
        parts (node_at code.now node) ≡ node_at code.now r.0 ∷ node_at code.now r.1 ∷ []) }
{
    if code.count(node) != 2 {
        return None;
    }
    match (code.part(node, 0), code.part(node, 1)) {
        (Some(left), Some(right)) => Some((left, right)),
        _ => None,
    }
}

/// A word of two numbers, and its parts.
#[derive(Clone, Copy)]
struct OfTwo {
    which: OfNumbers,
    left: u32,
    right: u32,
}

// The word of two numbers that a node is, where the agent that runs may run it.
#[inline(always)]
fn word_of_two<S: Store>(code: &Code, hands: &Hands<S>, node: u32) -> Option<OfTwo>
    ensures { IfSome result (λ word. (room n : ℕ) (a b number : ℤ) →
        let s = state_of code.now.names hands.now n in
        let prev = evaluator code.now.program room in
        prev (node_at code.now word.left) s ≡ gives (PlainNumber a) s →
        prev (node_at code.now word.right) s ≡ gives (PlainNumber b) s →
        number_of_two word.which a b ≡ Ok number →
        evaluator code.now.program (suc room) (node_at code.now node) s ≡ gives (PlainNumber number) s) }
{
    let Op::Word {
        runs,
        word: Built::Act(Act::Value(ValueWord::OfNumbers(which))),
        ..
    } = code.op(node)
    else {
        return None;
    };
    if !may_run(hands, runs) {
        return None;
    }
    match two_parts(code, node) {
        Some((left, right)) => Some(OfTwo { which, left, right }),
        None => None,
    }
}

// What the word makes of what its parts give.
#[inline(always)]
fn of_both(which: OfNumbers, a: Option<Num>, b: Option<Num>) -> Option<Num>
    ensures made { IfSome result (λ number. (x y : ℤ) →
        a ≡ Some x → b ≡ Some y → number_of_two which x y ≡ Ok number) }
    ensures both { IfSome result (λ number. IsSome a × IsSome b) }
{
    match (a, b) {
        (Some(a), Some(b)) => of_two(which, a, b),
        _ => None,
    }
}

// What stands in parentheses, or in a block of one expression.
#[inline(always)]
pub(crate) fn inside_of(code: &Code, node: u32) -> Option<u32>
    ensures { IfSome result (λ part. (room : ℕ) (s t : State) (value : Plain) →
        evaluator code.now.program room (node_at code.now part) s ≡ gives value t →
        evaluator code.now.program (suc room) (node_at code.now node) s ≡ gives value t) }
{
    match code.op(node) {
        Op::Inside => code.part(node, 0),
        _ => None,
    }
}

// The number of a leaf, of a word of two leaves, or of a leaf in parentheses.
fn number_of_leaves<S: Store>(code: &Code, hands: &Hands<S>, node: u32) -> Option<Num>
    requires { HandsFit hands.now }
    ensures { IfSome result (λ number. IsHad code.now hands.now node 3 (PlainNumber number)) }
{
    if let Some(word) = word_of_two(code, hands, node) {
        return of_both(
            word.which,
            leaf(code, hands, word.left),
            leaf(code, hands, word.right),
        );
    }
    match inside_of(code, node) {
        Some(part) => leaf(code, hands, part),
        None => leaf(code, hands, node),
    }
}

// The same of such numbers again.
fn number_of_words<S: Store>(code: &Code, hands: &Hands<S>, node: u32) -> Option<Num>
    requires { HandsFit hands.now }
    ensures { IfSome result (λ number. IsHad code.now hands.now node 4 (PlainNumber number)) }
{
    if let Some(word) = word_of_two(code, hands, node) {
        return of_both(
            word.which,
            number_of_leaves(code, hands, word.left),
            number_of_leaves(code, hands, word.right),
        );
    }
    match inside_of(code, node) {
        Some(part) => number_of_leaves(code, hands, part),
        None => leaf(code, hands, node),
    }
}

/// The number that a node gives, where it is had at once: a number that is written, that of a variable, how many members a set has, or
/// what words make of two such, at most three in each other, where parentheses count as a word.
pub fn number<S: Store>(code: &Code, hands: &Hands<S>, node: u32) -> Option<Num>
    requires { HandsFit hands.now }
    ensures { IfSome result (λ number. IsHad code.now hands.now node 5 (PlainNumber number)) }
{
    if let Some(word) = word_of_two(code, hands, node) {
        return of_both(
            word.which,
            number_of_words(code, hands, word.left),
            number_of_words(code, hands, word.right),
        );
    }
    match inside_of(code, node) {
        Some(part) => number_of_words(code, hands, part),
        None => leaf(code, hands, node),
    }
}
