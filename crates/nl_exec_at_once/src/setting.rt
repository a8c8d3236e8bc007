//! `set` of a variable to a number.
ghost use Rattle.std.specs.Prelude.{◌≡◌, ℕ, ℤ, Some, true, false};
ghost use Rattle.nl_fixed.specs.declared.span.Span.{Span as Place};
ghost use Rattle.nl_value.specs.Plain.{PlainNumber};
ghost use Rattle.nl_tree.specs.Tree.{label};
ghost use Rattle.nl_exec_meaning.specs.Cases.{case_of};
ghost use Rattle.nl_exec_meaning.specs.Code.{Code as Nodes, IsOneToOne, name_of, node_at};
ghost use Rattle.nl_agents_layout.specs.BuiltIn.{rule_of};
ghost use Rattle.nl_exec_meaning.specs.State.{goes_on};
ghost use Rattle.nl_exec_meaning.specs.Variables.{assign, kept_as, set_local, set_global, set_owned};
ghost use Rattle.nl_exec_meaning.specs.Means.{Stands};
ghost use Rattle.nl_exec_meaning.specs.Seen.{state_of};
ghost use Rattle.nl_exec_meaning.specs.Standing.{HandsFit};
ghost use Rattle.nl_exec_at_once.specs.AtOnce.{IsAsBefore, is_agent};

use nl_agents::{Owner, Store};
use nl_agents_layout::{Rule, rule_of};
use nl_exec_meaning::{Code, Hands, Local, Op};
use nl_exec_short::running::lives_and_may_run;
use nl_exec_short::variables::{global, owner_of};
use nl_fixed::Num;
use nl_value::Value;
use nl_words::Kinds;

// The newest local whose name has this number.
#[inline(always)]
fn set_local<S: Store>(code: &Code, hands: &mut Hands<S>, id: u32, number: Num) -> bool
    requires apart { IsOneToOne code.now.names }
    requires fit { HandsFit hands.old }
    ensures set { result ≡ true → (place : Place) (n : ℕ) →
        set_local (name_of code.now.names id) place (PlainNumber number) (state_of code.now.names hands.old n)
        ≡ goes_on (state_of code.now.names hands.new n) }
    ensures not { result ≡ false → IsAsBefore hands.new hands.old }
    ensures stands { Stands hands.new hands.old }
{
    match hands.locals.find(id) {
        Some(at) => {
            let value = Value::Number(number);
            hands.locals.replace(at, Local { id, value });
            true
        }
        None => false,
    }
}

// A global variable.
#[inline(never)]
fn set_global<S: Store>(hands: &mut Hands<S>, slot: u32, number: Num) -> bool
    requires fit { HandsFit hands.old }
    ensures set { result ≡ true → (c : Nodes) (place : Place) (n : ℕ) →
        set_global slot place (PlainNumber number) (state_of c.names hands.old n)
        ≡ goes_on (state_of c.names hands.new n) }
    ensures not { result ≡ false → IsAsBefore hands.new hands.old }
    ensures stands { Stands hands.new hands.old }
{
    let Some(_) = global(hands, slot) else {
        return false;
    };
    match hands
        .stage
        .store
        .set_var(Owner::Observer, slot, Value::Number(number))
    {
        Ok(_) => true,
        Err(_) => false,
    }
}

// Whether a variable of agents keeps every number as it is.
#[inline(always)]
fn keeps_numbers(slot: u32) -> bool
    ensures { result ≡ true → (number : ℤ) →
        kept_as (rule_of slot) (PlainNumber number) ≡ Some (PlainNumber number) }
{
    match rule_of(slot) {
        Rule::Number | Rule::Anything => true,
        Rule::Color | Rule::Heading | Rule::Truth | Rule::Words => false,
    }
}

// Whether it is an agent that owns variables, and not the observer.
#[inline(always)]
fn is_agent(owner: Owner) -> bool
    ensures { result ≡ is_agent owner }
{
    match owner {
        Owner::Observer => false,
        Owner::Turtle(_) | Owner::Patch(_) | Owner::Link(_) => true,
    }
}

// A variable of agents that is kept under a slot.
#[inline(never)]
fn set_owned<S: Store>(hands: &mut Hands<S>, runs: Kinds, slot: u32, number: Num) -> bool
    requires fit { HandsFit hands.old }
    ensures set { result ≡ true → (c : Nodes) (variable place : Place) (n : ℕ) →
        set_owned runs slot variable place (PlainNumber number) (state_of c.names hands.old n)
        ≡ goes_on (state_of c.names hands.new n) }
    ensures not { result ≡ false → IsAsBefore hands.new hands.old }
    ensures stands { Stands hands.new hands.old }
{
    if !keeps_numbers(slot) || !lives_and_may_run(hands, runs) {
        return false;
    }
    let owner = owner_of(hands, slot);
    if !is_agent(owner) || hands.stage.store.var(owner, slot).is_none() {
        return false;
    }
    match hands
        .stage
        .store
        .set_var(owner, slot, Value::Number(number))
    {
        Ok(_) => true,
        Err(_) => false,
    }
}

/// The variable at a node becomes the number, where that is done at once; else nothing is changed.
#[inline(always)]
pub fn set_number<S: Store>(code: &Code, hands: &mut Hands<S>, variable: u32, number: Num) -> bool
    requires fit { HandsFit hands.old }
    ensures set { result ≡ true → (name place : Place) (n : ℕ) →
        let variable = case_of code.now.program.declared (label (node_at code.now variable)) in
        assign variable name place (PlainNumber number) (state_of code.now.names hands.old n)
        ≡ goes_on (state_of code.now.names hands.new n) }
    ensures not { result ≡ false → IsAsBefore hands.new hands.old }
    ensures stands { Stands hands.new hands.old }
{
    match code.op(variable) {
        Op::Local(id) => set_local(code, hands, id, number),
        Op::Global(slot) => set_global(hands, slot, number),
        Op::Owned { runs, slot } => set_owned(hands, runs, slot, number),
        _ => false,
    }
}
