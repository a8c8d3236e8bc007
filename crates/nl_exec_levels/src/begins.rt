//! The nodes that come most often. Each begins here in a function of its own, with what follows it, so that a step sets no room aside for
//! the others.
ghost use Rattle.std.specs.Prelude.{◌≡◌, suc, ◌+◌, ◌<◌, ◌≤◌, vec_len, IfOk};
ghost use Rattle.nl_value.specs.Plain.{PlainNumber};
ghost use Rattle.nl_tree.specs.Tree.{label};
ghost use Rattle.nl_exec_meaning.specs.Cases.{case_of};
ghost use Rattle.nl_exec_meaning.specs.Cases as case;
ghost use Rattle.nl_exec_meaning.specs.Code.{node_at, name_of, IsOneToOne};
ghost use Rattle.nl_exec_meaning.specs.Meaning.{cases};
ghost use Rattle.nl_exec_meaning.specs.Seen.{ground};
ghost use Rattle.nl_exec_meaning.specs.Weight.{weight};
ghost use Rattle.nl_exec_levels.specs.Steady.{IsSteady, FocusFits};
ghost use Rattle.nl_exec_levels.specs.Work.{levels_work, total_work};
ghost use Rattle.nl_exec_levels.specs.inner.Steps.{ComesTo};

use crate::focus::Focus;
use crate::levels::Level;
use crate::run::follow;
use nl_agents::Store;
use nl_exec_dispatch::blocks::enter_statements;
use nl_exec_dispatch::dispatch::{enter, enter_word};
use nl_exec_dispatch::variables::{read_global, read_local};
use nl_exec_meaning::{Built, Code, Control, Exit, Hands, Next, Op};
use nl_fixed::{NoMemory, Num};
use nl_value::Value;
use nl_words::Kinds;
use std::alloc::Global;

// A number that is written down.
#[inline(always)]
#[tactic(auto, using(crate::proofs::Steadying::steady_on, crate::proofs::Following::comes_to))]
fn begin_number<S: Store>(
    code: &Code,
    hands: &mut Hands<S>,
    levels: &mut Vec<Level>,
    node: u32,
    number: Num,
) -> Result<Focus, NoMemory>
    requires steady { IsSteady code.now hands.old levels.old.items }
    requires is { case.Constant (PlainNumber number)
        ≡ case_of code.now.program.declared (label (node_at code.now node)) }
    ensures rest { IfOk result (λ focus. ComesTo code.now levels.old.items node
        (λ prev s. cases code.now.program prev (node_at code.now node) s)
        levels.new.items focus hands.new hands.old) }
    ensures depth { vec_len levels.new ≤ suc (vec_len levels.old) }
    ensures work { IfOk result (λ focus. total_work code.now levels.new.items focus
        < levels_work code.now levels.old.items + weight (node_at code.now node)) }
    ensures steady { IfOk result (λ focus. IsSteady code.now hands.new levels.new.items) }
    ensures focus { IfOk result (FocusFits (ground hands.new)) }
{
    let next = Next::Answer(Exit::Gives(Value::Number(number)));
    let focus = follow(code, hands, levels, node, next)?;
    Ok(focus)
}

// A local variable.
#[inline(always)]
#[tactic(auto, using(crate::proofs::Steadying::steady_on, crate::proofs::Following::comes_to))]
fn begin_local<S: Store>(
    alloc: Global,
    code: &Code,
    hands: &mut Hands<S>,
    levels: &mut Vec<Level>,
    node: u32,
    id: u32,
) -> Result<Focus, NoMemory>
    requires steady { IsSteady code.now hands.old levels.old.items }
    requires apart { IsOneToOne code.now.names }
    requires is { case.Local (name_of code.now.names id)
        ≡ case_of code.now.program.declared (label (node_at code.now node)) }
    ensures rest { IfOk result (λ focus. ComesTo code.now levels.old.items node
        (λ prev s. cases code.now.program prev (node_at code.now node) s)
        levels.new.items focus hands.new hands.old) }
    ensures depth { vec_len levels.new ≤ suc (vec_len levels.old) }
    ensures work { IfOk result (λ focus. total_work code.now levels.new.items focus
        < levels_work code.now levels.old.items + weight (node_at code.now node)) }
    ensures steady { IfOk result (λ focus. IsSteady code.now hands.new levels.new.items) }
    ensures focus { IfOk result (FocusFits (ground hands.new)) }
{
    let exit = read_local(alloc, code, hands, id, code.span(node))?;
    let next = Next::Answer(exit);
    let focus = follow(code, hands, levels, node, next)?;
    Ok(focus)
}

// A global variable.
#[inline(always)]
#[tactic(auto, using(crate::proofs::Steadying::steady_on, crate::proofs::Following::comes_to))]
fn begin_global<S: Store>(
    alloc: Global,
    code: &Code,
    hands: &mut Hands<S>,
    levels: &mut Vec<Level>,
    node: u32,
    slot: u32,
) -> Result<Focus, NoMemory>
    requires steady { IsSteady code.now hands.old levels.old.items }
    requires is { case.Global slot
        ≡ case_of code.now.program.declared (label (node_at code.now node)) }
    ensures rest { IfOk result (λ focus. ComesTo code.now levels.old.items node
        (λ prev s. cases code.now.program prev (node_at code.now node) s)
        levels.new.items focus hands.new hands.old) }
    ensures depth { vec_len levels.new ≤ suc (vec_len levels.old) }
    ensures work { IfOk result (λ focus. total_work code.now levels.new.items focus
        < levels_work code.now levels.old.items + weight (node_at code.now node)) }
    ensures steady { IfOk result (λ focus. IsSteady code.now hands.new levels.new.items) }
    ensures focus { IfOk result (FocusFits (ground hands.new)) }
{
    let exit = read_global(alloc, code, hands, slot, code.span(node))?;
    let next = Next::Answer(exit);
    let focus = follow(code, hands, levels, node, next)?;
    Ok(focus)
}

// A block, or the body of a procedure.
#[inline(always)]
#[tactic(auto, using(crate::proofs::Steadying::steady_on, crate::proofs::Following::comes_to))]
fn begin_statements<S: Store>(
    code: &Code,
    hands: &mut Hands<S>,
    levels: &mut Vec<Level>,
    node: u32,
) -> Result<Focus, NoMemory>
    requires steady { IsSteady code.now hands.old levels.old.items }
    requires is { case.Statements
        ≡ case_of code.now.program.declared (label (node_at code.now node)) }
    ensures rest { IfOk result (λ focus. ComesTo code.now levels.old.items node
        (λ prev s. cases code.now.program prev (node_at code.now node) s)
        levels.new.items focus hands.new hands.old) }
    ensures depth { vec_len levels.new ≤ suc (vec_len levels.old) }
    ensures work { IfOk result (λ focus. total_work code.now levels.new.items focus
        < levels_work code.now levels.old.items + weight (node_at code.now node)) }
    ensures steady { IfOk result (λ focus. IsSteady code.now hands.new levels.new.items) }
    ensures focus { IfOk result (FocusFits (ground hands.new)) }
{
    let next = enter_statements(code, hands, node);
    let focus = follow(code, hands, levels, node, next)?;
    Ok(focus)
}

// A built-in word. Where it is known which one it is, nothing stays of the others.
#[inline(always)]
#[tactic(auto, using(crate::proofs::Steadying::steady_on, crate::proofs::Following::comes_to))]
fn begin_word<S: Store>(
    alloc: Global,
    code: &Code,
    hands: &mut Hands<S>,
    levels: &mut Vec<Level>,
    node: u32,
    runs: Kinds,
    breed: Option<u32>,
    word: Built,
) -> Result<Focus, NoMemory>
    requires steady { IsSteady code.now hands.old levels.old.items }
    requires is { case.Word runs breed word
        ≡ case_of code.now.program.declared (label (node_at code.now node)) }
    ensures rest { IfOk result (λ focus. ComesTo code.now levels.old.items node
        (λ prev s. cases code.now.program prev (node_at code.now node) s)
        levels.new.items focus hands.new hands.old) }
    ensures depth { vec_len levels.new ≤ suc (vec_len levels.old) }
    ensures work { IfOk result (λ focus. total_work code.now levels.new.items focus
        < levels_work code.now levels.old.items + weight (node_at code.now node)) }
    ensures steady { IfOk result (λ focus. IsSteady code.now hands.new levels.new.items) }
    ensures focus { IfOk result (FocusFits (ground hands.new)) }
{
    let next = enter_word(alloc, code, hands, node, runs, breed, word)?;
    let focus = follow(code, hands, levels, node, next)?;
    Ok(focus)
}

// Any node.
#[inline(always)]
#[tactic(auto, using(crate::proofs::Steadying::steady_on, crate::proofs::Following::comes_to))]
fn begin_any<S: Store>(
    alloc: Global,
    code: &Code,
    hands: &mut Hands<S>,
    levels: &mut Vec<Level>,
    node: u32,
) -> Result<Focus, NoMemory>
    requires steady { IsSteady code.now hands.old levels.old.items }
    ensures rest { IfOk result (λ focus. ComesTo code.now levels.old.items node
        (λ prev s. cases code.now.program prev (node_at code.now node) s)
        levels.new.items focus hands.new hands.old) }
    ensures depth { vec_len levels.new ≤ suc (vec_len levels.old) }
    ensures work { IfOk result (λ focus. total_work code.now levels.new.items focus
        < levels_work code.now levels.old.items + weight (node_at code.now node)) }
    ensures steady { IfOk result (λ focus. IsSteady code.now hands.new levels.new.items) }
    ensures focus { IfOk result (FocusFits (ground hands.new)) }
{
    let next = enter(alloc, code, hands, node)?;
    let focus = follow(code, hands, levels, node, next)?;
    Ok(focus)
}

/// Begins a node, and puts on the stack what its case does next.
#[inline(always)]
#[tactic(auto, using(crate::proofs::Steadying::steady_on, crate::proofs::Following::comes_to))]
pub(crate) fn begin<S: Store>(
    alloc: Global,
    code: &Code,
    hands: &mut Hands<S>,
    levels: &mut Vec<Level>,
    node: u32,
) -> Result<Focus, NoMemory>
    requires steady { IsSteady code.now hands.old levels.old.items }
    ensures rest { IfOk result (λ focus. ComesTo code.now levels.old.items node
        (λ prev s. cases code.now.program prev (node_at code.now node) s)
        levels.new.items focus hands.new hands.old) }
    ensures depth { vec_len levels.new ≤ suc (vec_len levels.old) }
    ensures work { IfOk result (λ focus. total_work code.now levels.new.items focus
        < levels_work code.now levels.old.items + weight (node_at code.now node)) }
    ensures steady { IfOk result (λ focus. IsSteady code.now hands.new levels.new.items) }
    ensures focus { IfOk result (FocusFits (ground hands.new)) }
{
    match code.op(node) {
        Op::Number(number) => begin_number(code, hands, levels, node, number),
        Op::Local(id) => begin_local(alloc, code, hands, levels, node, id),
        Op::Global(slot) => begin_global(alloc, code, hands, levels, node, slot),
        Op::Statements => begin_statements(code, hands, levels, node),
        Op::Word { runs, breed, word } => match word {
            Built::Act(act) => {
                let word = Built::Act(act);
                begin_word(alloc, code, hands, levels, node, runs, breed, word)
            }
            Built::Control(Control::Set) => {
                let word = Built::Control(Control::Set);
                begin_word(alloc, code, hands, levels, node, runs, breed, word)
            }
            Built::Control(Control::If) => {
                let word = Built::Control(Control::If);
                begin_word(alloc, code, hands, levels, node, runs, breed, word)
            }
            _ => begin_any(alloc, code, hands, levels, node),
        },
        _ => begin_any(alloc, code, hands, levels, node),
    }
}
