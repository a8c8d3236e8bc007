//! The machine's steps.
ghost use Rattle.std.specs.Prelude.{◌≡◌, true, IsTrue, ℕ, suc, ◌+◌, ◌-◌, ◌<◌, ◌≤◌, List, [], ◌∷◌, ◌++◌, length, vec_len, IfOk};
ghost use Rattle.nl_value.specs.Limits.{within_limits};
ghost use Rattle.nl_value.specs.Views.{plain};
ghost use Rattle.nl_tree.specs.Tree.{span};
ghost use Rattle.nl_tree.specs.declared.declared.Form.TheVariants.{Commands};
ghost use Rattle.nl_exec_meaning.specs.Code.{Code as Nodes, node_at};
ghost use Rattle.nl_exec_meaning.specs.State.{State, ends};
ghost use Rattle.nl_exec_meaning.specs.Meaning.{evaluator, limited};
ghost use Rattle.nl_exec_meaning.specs.Frames.{going};
ghost use Rattle.nl_exec_meaning.specs.Ground.{Ground, fits};
ghost use Rattle.nl_exec_meaning.specs.Seen.{ended, ground, state_of};
ghost use Rattle.nl_exec_meaning.specs.Standing.{ExitFits, NextFits};
ghost use Rattle.nl_exec_meaning.specs.Work.{frame_work, next_work};
ghost use Rattle.nl_exec_meaning.specs.declared.exits.Exit.TheVariants.{Gives};
ghost use Rattle.nl_exec_levels.specs.Rest.{through, rest, stopped, wished, begun, IsOver, IsSpent, stop_exit};
ghost use Rattle.nl_exec_levels.specs.Steady.{IsSteady, FocusFits, StopFits};
ghost use Rattle.nl_exec_levels.specs.Work.{levels_work, total_work};
ghost use Rattle.nl_exec_levels.specs.declared.focus.Focus.TheVariants.{Start, Enter, Give};

use crate::begins::begin;
use crate::focus::{Focus, Stop, Wish};
use crate::hurry::hurry;
use crate::levels::Level;
use crate::often::go_on;
use nl_agents::Store;
use nl_exec_acts::ErrorKind;
use nl_exec_at_once::values::{VALUE_NESTED, value_of_word};
use nl_exec_dispatch::dispatch::enter_text;
use nl_exec_meaning::{Code, Exit, Hands, Next, Site};
use nl_fixed::NoMemory;
use nl_tree::Form;
use nl_value::Value;
use std::alloc::Global;

// Whether a value is within the limits whatever it is, since it lists nothing.
#[inline(always)]
fn lists_nothing(value: &Value) -> bool
    ensures { result ≡ true → within_limits (plain value.now) ≡ true }
{
    match value {
        Value::Number(_)
        | Value::Truth(_)
        | Value::Blank
        | Value::Turtle(_)
        | Value::Patch(_)
        | Value::Link(_)
        | Value::Nobody => true,
        Value::Words(_) | Value::Items(_) | Value::Set(_) => false,
    }
}

// The same of a value that is looked at whole.
#[inline(never)]
fn limited_value(code: &Code, site: Site, node: u32, value: Value) -> Exit
    ensures meaning { (s : State) → s.site ≡ site →
        ended result s ≡ limited (span (node_at code.now node)) (ended (Gives value) s) }
    ensures fits { (g : Ground) → IsTrue (fits g (plain value)) → ExitFits g result }
{
    if value.is_within_limits() {
        Exit::Gives(value)
    } else {
        Exit::Error(ErrorKind::TooLarge, code.span(node), site.body)
    }
}

// How a node ends whose case ended so: a value that passes the limits on values is an error.
#[inline(always)]
fn limited(code: &Code, site: Site, node: u32, exit: Exit) -> Exit
    ensures meaning { (s : State) → s.site ≡ site →
        ended result s ≡ limited (span (node_at code.now node)) (ended exit s) }
    ensures fits { (g : Ground) → ExitFits g exit → ExitFits g result }
{
    match exit {
        Exit::Gives(value) => {
            if lists_nothing(&value) {
                Exit::Gives(value)
            } else {
                limited_value(code, site, node, value)
            }
        }
        exit => exit,
    }
}

// Puts what a node does next on the stack.
#[inline(always)]
#[tactic(auto, using(crate::proofs::Works::works_push, crate::proofs::Steadying::steady_push))]
pub(crate) fn follow<S: Store>(
    code: &Code,
    hands: &Hands<S>,
    levels: &mut Vec<Level>,
    node: u32,
    next: Next,
) -> Result<Focus, NoMemory>
    requires steady { IsSteady code.now hands.now levels.old.items }
    requires next { NextFits (ground hands.now) next }
    ensures rest { IfOk result (λ focus. (room n : ℕ) → length levels.old.items < room →
        rest code.now room levels.new.items focus (state_of code.now.names hands.now n)
        ≡ through code.now room levels.old.items (limited (span (node_at code.now node))
        (going code.now (evaluator code.now.program (room - suc (length levels.old.items))) next
        (state_of code.now.names hands.now n)))) }
    ensures depth { vec_len levels.new ≤ suc (vec_len levels.old) }
    ensures work { IfOk result (λ focus.
        total_work code.now levels.new.items focus
        ≤ levels_work code.now levels.old.items + next_work code.now next) }
    ensures steady { IfOk result (λ focus. IsSteady code.now hands.now levels.new.items) }
    ensures focus { IfOk result (FocusFits (ground hands.now)) }
{
    match next {
        Next::Answer(exit) => Ok(Focus::Give(limited(code, hands.site, node, exit))),
        Next::Go(frame, child) => {
            levels.push(Level { node, frame })?;
            Ok(Focus::Enter(child))
        }
        Next::Want(frame, child) => {
            levels.push(Level { node, frame })?;
            Ok(Focus::Want(Wish::Node(child)))
        }
        Next::Tick(frame) => {
            levels.push(Level { node, frame })?;
            Ok(Focus::Want(Wish::Tick))
        }
    }
}

// A node is nested too deep.
#[inline(never)]
fn too_nested(code: &Code, site: Site, node: u32) -> Focus
    ensures rest { (limit : ℕ) (levels : List Level) (s : State) → s.site ≡ site → limit ≤ length levels →
        rest code.now limit levels result s ≡ rest code.now limit levels (Enter node) s }
    ensures text { (limit : ℕ) (levels : List Level) (s : State) → s.site ≡ site → limit ≤ length levels →
        rest code.now limit levels result s ≡ rest code.now limit levels (Start Commands node) s }
    ensures work { (levels : List Level) → total_work code.now levels result ≡ levels_work code.now levels }
    ensures fits { (g : Ground) → FocusFits g result }
{
    Focus::Give(Exit::Error(ErrorKind::TooNested, code.span(node), site.body))
}

// Begins a node, where there is room for it, or gives its value, where that is had at once.
#[inline(always)]
#[tactic(auto, using(nl_exec_meaning::proofs::Weights::weight_positive, crate::proofs::Steadying::steady_on))]
fn enter_node<S: Store>(
    alloc: Global,
    code: &Code,
    hands: &mut Hands<S>,
    limit: usize,
    levels: &mut Vec<Level>,
    node: u32,
) -> Result<Focus, NoMemory>
    requires steady { IsSteady code.now hands.old levels.old.items }
    requires depth { vec_len levels.old ≤ limit }
    ensures rest { IfOk result (λ focus. (n : ℕ) →
        rest code.now limit levels.new.items focus (state_of code.now.names hands.new n)
        ≡ rest code.now limit levels.old.items (Enter node) (state_of code.now.names hands.old n)) }
    ensures depth { vec_len levels.new ≤ limit }
    ensures work { IfOk result (λ focus.
        total_work code.now levels.new.items focus < total_work code.now levels.old.items (Enter node)) }
    ensures steady { IfOk result (λ focus. IsSteady code.now hands.new levels.new.items) }
    ensures focus { IfOk result (FocusFits (ground hands.new)) }
{
    if levels.len() >= limit {
        return Ok(too_nested(code, hands.site, node));
    }
    if limit - levels.len() > VALUE_NESTED {
        if let Some(short) = value_of_word(code, hands, node) {
            return Ok(Focus::Give(Exit::Gives(short.value())));
        }
    }
    let focus = begin(alloc, code, hands, levels, node)?;
    Ok(focus)
}

// Begins the statements of a lone text, where there is room for its node.
#[inline]
#[tactic(auto, using(crate::proofs::Steadying::steady_on))]
fn start_text<S: Store>(
    code: &Code,
    hands: &mut Hands<S>,
    limit: usize,
    levels: &mut Vec<Level>,
    node: u32,
) -> Result<Focus, NoMemory>
    requires steady { IsSteady code.now hands.old levels.old.items }
    requires depth { vec_len levels.old ≤ limit }
    ensures rest { IfOk result (λ focus. (n : ℕ) →
        rest code.now limit levels.new.items focus (state_of code.now.names hands.new n)
        ≡ rest code.now limit levels.old.items (Start Commands node) (state_of code.now.names hands.old n)) }
    ensures depth { vec_len levels.new ≤ limit }
    ensures work { IfOk result (λ focus.
        total_work code.now levels.new.items focus
        < total_work code.now levels.old.items (Start Commands node)) }
    ensures steady { IfOk result (λ focus. IsSteady code.now hands.new levels.new.items) }
    ensures focus { IfOk result (FocusFits (ground hands.new)) }
{
    if levels.len() >= limit {
        return Ok(too_nested(code, hands.site, node));
    }
    let next = enter_text(code, hands, node);
    let focus = follow(code, hands, levels, node, next)?;
    Ok(focus)
}

// Hands an end to the level that was the topmost.
#[inline(always)]
#[tactic(auto, using(crate::proofs::Steadying::steady_on, crate::proofs::Steadying::steady_below, crate::proofs::Steadying::steady_top))]
fn resume_level<S: Store>(
    alloc: Global,
    code: &Code,
    hands: &mut Hands<S>,
    limit: usize,
    levels: &mut Vec<Level>,
    level: Level,
    exit: Exit,
) -> Result<Focus, NoMemory>
    requires steady { IsSteady code.now hands.old (levels.old.items ++ level ∷ []) }
    requires exit { ExitFits (ground hands.old) exit }
    requires depth { vec_len levels.old < limit }
    ensures rest { IfOk result (λ focus. (n : ℕ) →
        rest code.now limit levels.new.items focus (state_of code.now.names hands.new n)
        ≡ rest code.now limit (levels.old.items ++ level ∷ []) (Give exit)
        (state_of code.now.names hands.old n)) }
    ensures depth { vec_len levels.new ≤ limit }
    ensures work { IfOk result (λ focus. total_work code.now levels.new.items focus
        < levels_work code.now levels.old.items + frame_work code.now level.frame) }
    ensures steady { IfOk result (λ focus. IsSteady code.now hands.new levels.new.items) }
    ensures focus { IfOk result (FocusFits (ground hands.new)) }
{
    let Level { node, frame } = level;
    let focus = go_on(alloc, code, hands, levels, node, frame, exit)?;
    Ok(focus)
}

// Goes on until a unit is wanted or the text has ended.
#[inline(always)]
#[tactic(auto, using(crate::proofs::Works::works_push, crate::proofs::Stack::rest_reporter))]
fn settle<S: Store>(
    alloc: Global,
    code: &Code,
    hands: &mut Hands<S>,
    limit: usize,
    levels: &mut Vec<Level>,
    start: Focus,
) -> Result<Stop, NoMemory>
    requires steady { IsSteady code.now hands.old levels.old.items }
    requires start { FocusFits (ground hands.old) start }
    requires depth { vec_len levels.old ≤ limit }
    ensures rest { IfOk result (λ stop. (n : ℕ) →
        rest code.now limit levels.new.items (stopped stop) (state_of code.now.names hands.new n)
        ≡ rest code.now limit levels.old.items start (state_of code.now.names hands.old n)) }
    ensures over { IfOk result (λ stop. IsOver levels.new.items stop) }
    ensures depth { vec_len levels.new ≤ limit }
    ensures steady { IfOk result (λ stop. IsSteady code.now hands.new levels.new.items) }
    ensures stop { IfOk result (StopFits (ground hands.new)) }
{
    let mut focus = start;
    loop {
        match focus {
            Focus::Want(wish) => return Ok(Stop::Wanted(wish)),
            Focus::Start(Form::Reporter, node) => focus = Focus::Enter(node),
            Focus::Start(Form::Commands, node) => {
                focus = start_text(code, hands, limit, levels, node)?;
            }
            Focus::Enter(node) => {
                focus = enter_node(alloc, code, hands, limit, levels, node)?;
            }
            Focus::Give(exit) => match levels.pop() {
                None => return Ok(Stop::End(exit)),
                Some(level) => {
                    focus = resume_level(alloc, code, hands, limit, levels, level, exit)?;
                }
            },
        }
    }
}

// What comes where the unit that was wanted is spent.
#[inline(always)]
pub(crate) fn granted(wish: Wish) -> Focus
    ensures meaning { (c : Nodes) (room : ℕ) (s : State) → begun c room result s ≡ wished c room wish s }
    ensures fits { (g : Ground) → FocusFits g result }
{
    match wish {
        Wish::Node(node) => Focus::Enter(node),
        Wish::Tick => Focus::Give(Exit::Gives(Value::Nobody)),
    }
}

/// Goes on until the units are spent and a further one is wanted, or the text has ended. What is left of the units comes back too.
pub fn spend_units<S: Store>(
    alloc: Global,
    code: &Code,
    hands: &mut Hands<S>,
    limit: usize,
    levels: &mut Vec<Level>,
    start: Focus,
    units: u64,
) -> Result<(Stop, u64), NoMemory>
    requires steady { IsSteady code.now hands.old levels.old.items }
    requires start { FocusFits (ground hands.old) start }
    requires depth { vec_len levels.old ≤ limit }
    ensures rest { IfOk result (λ r. (n : ℕ) →
        rest code.now limit levels.new.items (stopped r.0) (state_of code.now.names hands.new (r.1 + n))
        ≡ rest code.now limit levels.old.items start (state_of code.now.names hands.old (units + n))) }
    // With just these units the end is that of the text, or that of the units.
    ensures now { IfOk result (λ r.
        rest code.now limit levels.old.items start (state_of code.now.names hands.old units)
        ≡ ends (stop_exit r.0) (state_of code.now.names hands.new r.1)) }
    ensures over { IfOk result (λ r. IsOver levels.new.items r.0) }
    ensures wanted { IfOk result (λ r. IsSpent r.0 r.1) }
    ensures left { IfOk result (λ r. r.1 ≤ units) }
    ensures depth { vec_len levels.new ≤ limit }
    ensures steady { IfOk result (λ r. IsSteady code.now hands.new levels.new.items) }
    ensures stop { IfOk result (λ r. StopFits (ground hands.new) r.0) }
{
    let mut focus = start;
    let mut left = units;
    'spending: loop {
        match settle(alloc, code, hands, limit, levels, focus)? {
            Stop::End(exit) => return Ok((Stop::End(exit), left)),
            Stop::Wanted(wish) => {
                if left == 0 {
                    return Ok((Stop::Wanted(wish), 0));
                }
                left -= 1;
                focus = hurry(alloc, code, hands, limit, levels, wish, &mut left)?;
            }
        }
    }
}
