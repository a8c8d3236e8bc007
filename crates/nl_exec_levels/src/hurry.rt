//! What a unit is spent for, done at once where that can be.
ghost use Rattle.std.specs.Prelude.{◌≡◌, ℕ, suc, ◌+◌, ◌-◌, ◌<◌, ◌≤◌, ◌∷◌, ◌++◌, [], true, Some, None, drop, length, slice_get, vec_len, IfOk, IfSome};
ghost use Rattle.nl_tree.specs.Tree.{label, parts};
ghost use Rattle.nl_exec_meaning.specs.Cases.{case_of};
ghost use Rattle.nl_exec_meaning.specs.Cases as case;
ghost use Rattle.nl_exec_meaning.specs.Code.{node_at};
ghost use Rattle.nl_exec_meaning.specs.Blocks.{leaving, statements};
ghost use Rattle.nl_exec_meaning.specs.Meaning.{evaluator};
ghost use Rattle.nl_exec_meaning.specs.Means.{Stands};
ghost use Rattle.nl_exec_meaning.specs.Seen.{ground, state_of};
ghost use Rattle.nl_exec_meaning.specs.Standing.{HandsFit};
ghost use Rattle.nl_exec_at_once.specs.AtOnce.{IsAsBefore, far_left};
ghost use Rattle.nl_exec_at_once.specs.declared.statements.TheConstants.{MOST_NESTED as most_nested};
ghost use Rattle.nl_exec_levels.specs.Rest.{rest, through, wished};
ghost use Rattle.nl_exec_levels.specs.Steady.{IsSteady, FocusFits};
ghost use Rattle.nl_exec_levels.specs.declared.focus.Focus.TheVariants.{Enter};
ghost use Rattle.nl_exec_meaning.specs.declared.frames.Frame.TheVariants as frame;
ghost use Rattle.nl_exec_levels.specs.inner.Steps.{BlockGoesOn, ComesTo, FarGoesOn, GoesTo, InsideGoesOn, above};

use crate::focus::{Focus, Wish};
use crate::levels::Level;
use crate::run::{follow, granted};
use nl_agents::Store;
use nl_exec_at_once::answers::do_answers;
use nl_exec_at_once::repeats::do_repeats;
use nl_exec_at_once::statements::{Done, Far, Inside, MOST_NESTED, do_statement, do_statements};
use nl_exec_at_once::turns::{Midway, do_turns};
use nl_exec_dispatch::blocks::next_statement;
use nl_exec_meaning::{BoxedAnswers, BoxedTurns, Code, Exit, Frame, Gathered, Hands, Op, Over};
use nl_fixed::NoMemory;
use nl_value::Value;
use std::alloc::Global;

// A block goes on from where its statements stand.
#[inline(always)]
#[tactic(auto, using(crate::proofs::Steadying::steady_on, crate::proofs::Following::comes_to))]
fn from_statement<S: Store>(
    code: &Code,
    hands: &mut Hands<S>,
    levels: &mut Vec<Level>,
    block: u32,
    at: u32,
    kept: usize,
) -> Result<Focus, NoMemory>
    requires steady { IsSteady code.now hands.old levels.old.items }
    ensures rest { IfOk result (λ focus. ComesTo code.now levels.old.items block
        (λ prev s. statements prev kept (drop at (parts (node_at code.now block))) s)
        levels.new.items focus hands.new hands.old) }
    ensures depth { vec_len levels.new ≤ suc (vec_len levels.old) }
    ensures steady { IfOk result (λ focus. IsSteady code.now hands.new levels.new.items) }
    ensures focus { IfOk result (FocusFits (ground hands.new)) }
{
    let next = next_statement(code, hands, block, at, kept);
    let focus = follow(code, hands, levels, block, next)?;
    Ok(focus)
}

// The block of a word that chose it goes on from where its statements stand.
#[inline(always)]
#[tactic(auto, using(crate::proofs::Steadying::steady_push))]
fn from_inside<S: Store>(
    code: &Code,
    hands: &mut Hands<S>,
    levels: &mut Vec<Level>,
    inside: Inside,
) -> Result<Focus, NoMemory>
    requires steady { IsSteady code.now hands.old levels.old.items }
    ensures rest { IfOk result (λ focus. InsideGoesOn code.now levels.new.items focus hands.new
        levels.old.items inside hands.old) }
    ensures depth { vec_len levels.new ≤ 2 + vec_len levels.old }
    ensures steady { IfOk result (λ focus. IsSteady code.now hands.new levels.new.items) }
    ensures focus { IfOk result (FocusFits (ground hands.new)) }
{
    let frame = Frame::Inside { node: inside.word };
    levels.push(Level {
        node: inside.word,
        frame,
    })?;
    let focus = from_statement(code, hands, levels, inside.block, inside.at, inside.kept)?;
    Ok(focus)
}

// A block goes on from where the block of the statement before stands.
#[inline(always)]
#[tactic(auto, using(crate::proofs::Steadying::steady_push))]
fn from_inner<S: Store>(
    code: &Code,
    hands: &mut Hands<S>,
    levels: &mut Vec<Level>,
    block: u32,
    at: u32,
    kept: usize,
    inside: Inside,
) -> Result<Focus, NoMemory>
    requires steady { IsSteady code.now hands.old levels.old.items }
    ensures rest { IfOk result (λ focus. FarGoesOn code.now levels.new.items focus hands.new
        levels.old.items block kept at (Some inside) hands.old) }
    ensures depth { vec_len levels.new ≤ 3 + vec_len levels.old }
    ensures steady { IfOk result (λ focus. IsSteady code.now hands.new levels.new.items) }
    ensures focus { IfOk result (FocusFits (ground hands.new)) }
{
    let frame = Frame::Statement {
        node: block,
        at,
        kept,
    };
    levels.push(Level { node: block, frame })?;
    let focus = from_inside(code, hands, levels, inside)?;
    Ok(focus)
}

// A block goes on from where it is midway, or it is over.
#[inline(always)]
fn after_block<S: Store>(
    code: &Code,
    hands: &mut Hands<S>,
    limit: usize,
    levels: &mut Vec<Level>,
    block: u32,
    midway: Option<Midway>,
) -> Result<Focus, NoMemory>
    requires steady { IsSteady code.now hands.old levels.old.items }
    requires room { 3 + vec_len levels.old < limit }
    ensures rest { IfOk result (λ focus. BlockGoesOn code.now limit levels.new.items focus hands.new
        levels.old.items block midway hands.old) }
    ensures depth { vec_len levels.new ≤ limit }
    ensures steady { IfOk result (λ focus. IsSteady code.now hands.new levels.new.items) }
    ensures focus { IfOk result (FocusFits (ground hands.new)) }
{
    let Some(midway) = midway else {
        return Ok(Focus::Give(Exit::Gives(Value::Nobody)));
    };
    let at = midway.far.at;
    match midway.far.inside {
        None => from_statement(code, hands, levels, block, at, midway.kept),
        Some(inside) => from_inner(code, hands, levels, block, at, midway.kept, inside),
    }
}

// The level goes back on the stack, and the node is evaluated.
#[inline(always)]
#[tactic(auto, using(crate::proofs::Steadying::steady_push))]
fn put_back<S: Store>(
    code: &Code,
    hands: &Hands<S>,
    limit: usize,
    levels: &mut Vec<Level>,
    level: Level,
    node: u32,
) -> Result<Focus, NoMemory>
    requires steady { IsSteady code.now hands.now (levels.old.items ++ level ∷ []) }
    requires room { vec_len levels.old < limit }
    ensures rest { IfOk result (λ focus. (n : ℕ) →
        rest code.now limit levels.new.items focus (state_of code.now.names hands.now n)
        ≡ rest code.now limit (levels.old.items ++ level ∷ []) (Enter node)
        (state_of code.now.names hands.now n)) }
    ensures depth { vec_len levels.new ≤ limit }
    ensures steady { IfOk result (λ focus. IsSteady code.now hands.now levels.new.items) }
    ensures focus { IfOk result (FocusFits (ground hands.now)) }
{
    levels.push(level)?;
    Ok(Focus::Enter(node))
}

// A statement is done, and those of its block from another one on, so far as that is done at once; else nothing is changed.
#[inline(always)]
fn do_from<S: Store>(
    alloc: Global,
    code: &Code,
    hands: &mut Hands<S>,
    block: u32,
    at: u32,
    node: u32,
    units: &mut u64,
) -> Option<Far>
    requires fit { HandsFit hands.old }
    ensures done { IfSome result (λ far. (room n kept : ℕ) → most_nested < room →
        let prev = evaluator code.now.program room in
        leaving kept (prev (node_at code.now node) (state_of code.now.names hands.old (units.old + n)))
        (λ value s. statements prev kept (drop at (parts (node_at code.now block))) s)
        ≡ far_left code.now room block kept far (state_of code.now.names hands.new (units.new + n))) }
    ensures not { result ≡ None → IsAsBefore hands.new hands.old × (units.new ≡ units.old) }
    ensures left { units.new ≤ units.old }
    ensures stands { Stands hands.new hands.old }
{
    match do_statement(alloc, code, hands, node, units) {
        None => None,
        Some(Done::Whole) => Some(do_statements(alloc, code, hands, block, at, units)),
        Some(Done::UpTo(inside)) => Some(Far {
            at,
            inside: Some(inside),
        }),
    }
}

// A statement of a block is done at once, and with it those behind it.
#[inline(always)]
fn hurry_statement<S: Store>(
    alloc: Global,
    code: &Code,
    hands: &mut Hands<S>,
    limit: usize,
    levels: &mut Vec<Level>,
    top: u32,
    block: u32,
    at: u32,
    kept: usize,
    node: u32,
    units: &mut u64,
) -> Result<Focus, NoMemory>
    requires steady { IsSteady code.now hands.old
        (above levels.old.items top (frame.Statement block at kept)) }
    requires room { suc (suc most_nested) + vec_len levels.old < limit }
    ensures rest { IfOk result (λ focus. GoesTo code.now limit levels.new.items focus hands.new units.new
        (above levels.old.items top (frame.Statement block at kept)) (Enter node) hands.old units.old) }
    ensures left { units.new ≤ units.old }
    ensures depth { vec_len levels.new ≤ limit }
    ensures steady { IfOk result (λ focus. IsSteady code.now hands.new levels.new.items) }
    ensures focus { IfOk result (FocusFits (ground hands.new)) }
{
    let Some(far) = do_from(alloc, code, hands, block, at, node, units) else {
        let frame = Frame::Statement {
            node: block,
            at,
            kept,
        };
        let focus = put_back(code, hands, limit, levels, Level { node: top, frame }, node)?;
        return Ok(focus);
    };
    let frame = Frame::Statement {
        node: block,
        at: far.at,
        kept,
    };
    levels.push(Level { node: top, frame })?;
    match far.inside {
        None => Ok(Focus::Give(Exit::Gives(Value::Nobody))),
        Some(inside) => {
            let focus = from_inside(code, hands, levels, inside)?;
            Ok(focus)
        }
    }
}

// Whether a node is the part of another one at an index.
#[inline(always)]
fn is_part_of(code: &Code, whose: u32, index: u32, node: u32) -> bool
    ensures { result ≡ true →
        slice_get (parts (node_at code.now whose)) index ≡ Some (node_at code.now node) }
{
    match code.part(whose, index) {
        Some(part) => part == node,
        None => false,
    }
}

// Whether a node is the part of another one at an index, and a block.
#[inline(always)]
fn is_block_of(code: &Code, whose: u32, index: u32, node: u32) -> bool
    ensures part { result ≡ true →
        slice_get (parts (node_at code.now whose)) index ≡ Some (node_at code.now node) }
    ensures block { result ≡ true →
        case_of code.now.program.declared (label (node_at code.now node)) ≡ case.Statements }
{
    match code.part(whose, index) {
        Some(part) if part == node => match code.op(node) {
            Op::Statements => true,
            _ => false,
        },
        _ => false,
    }
}

// Turns of an ask are taken at once.
#[inline(always)]
fn hurry_asked<S: Store>(
    alloc: Global,
    code: &Code,
    hands: &mut Hands<S>,
    limit: usize,
    levels: &mut Vec<Level>,
    top: u32,
    ask: u32,
    index: u32,
    turns: BoxedTurns,
    node: u32,
    units: &mut u64,
) -> Result<Focus, NoMemory>
    requires steady { IsSteady code.now hands.old (above levels.old.items top (frame.Asked ask index turns)) }
    requires room { suc (suc most_nested) + vec_len levels.old < limit }
    ensures rest { IfOk result (λ focus. GoesTo code.now limit levels.new.items focus hands.new units.new
        (above levels.old.items top (frame.Asked ask index turns)) (Enter node) hands.old units.old) }
    ensures left { units.new ≤ units.old }
    ensures depth { vec_len levels.new ≤ limit }
    ensures steady { IfOk result (λ focus. IsSteady code.now hands.new levels.new.items) }
    ensures focus { IfOk result (FocusFits (ground hands.new)) }
{
    if !is_block_of(code, ask, index, node) {
        let frame = Frame::Asked {
            node: ask,
            index,
            turns,
        };
        return put_back(code, hands, limit, levels, Level { node: top, frame }, node);
    }
    let mut turns = turns;
    let midway = do_turns(alloc, code, hands, ask, index, node, &mut turns, units);
    let frame = Frame::Asked {
        node: ask,
        index,
        turns,
    };
    levels.push(Level { node: top, frame })?;
    let focus = after_block(code, hands, limit, levels, node, midway)?;
    Ok(focus)
}

// Turns of `repeat` are taken at once.
#[inline(always)]
fn hurry_repeat<S: Store>(
    alloc: Global,
    code: &Code,
    hands: &mut Hands<S>,
    limit: usize,
    levels: &mut Vec<Level>,
    top: u32,
    word: u32,
    left: u64,
    node: u32,
    units: &mut u64,
) -> Result<Focus, NoMemory>
    requires steady { IsSteady code.now hands.old (above levels.old.items top (frame.RepeatTurn word left)) }
    requires room { suc (suc most_nested) + vec_len levels.old < limit }
    ensures rest { IfOk result (λ focus. GoesTo code.now limit levels.new.items focus hands.new units.new
        (above levels.old.items top (frame.RepeatTurn word left)) (Enter node) hands.old units.old) }
    ensures left { units.new ≤ units.old }
    ensures depth { vec_len levels.new ≤ limit }
    ensures steady { IfOk result (λ focus. IsSteady code.now hands.new levels.new.items) }
    ensures focus { IfOk result (FocusFits (ground hands.new)) }
{
    if !is_block_of(code, word, 1, node) {
        let frame = Frame::RepeatTurn { node: word, left };
        return put_back(code, hands, limit, levels, Level { node: top, frame }, node);
    }
    let mut left = left;
    let midway = do_repeats(alloc, code, hands, word, node, &mut left, units);
    let frame = Frame::RepeatTurn { node: word, left };
    levels.push(Level { node: top, frame })?;
    let focus = after_block(code, hands, limit, levels, node, midway)?;
    Ok(focus)
}

// Members answer at once.
#[inline(always)]
fn hurry_answering<S: Store>(
    alloc: Global,
    code: &Code,
    hands: &mut Hands<S>,
    limit: usize,
    levels: &mut Vec<Level>,
    top: u32,
    whose: u32,
    index: u32,
    word: Over,
    member: u64,
    turns: BoxedTurns,
    made: BoxedAnswers,
    gathered: Gathered,
    node: u32,
    units: &mut u64,
) -> Result<Focus, NoMemory>
    requires steady { IsSteady code.now hands.old
        (above levels.old.items top (frame.Answering whose index word member turns made gathered)) }
    requires room { suc (suc most_nested) + vec_len levels.old < limit }
    ensures rest { IfOk result (λ focus. GoesTo code.now limit levels.new.items focus hands.new units.new
        (above levels.old.items top (frame.Answering whose index word member turns made gathered))
        (Enter node) hands.old units.old) }
    ensures left { units.new ≤ units.old }
    ensures depth { vec_len levels.new ≤ limit }
    ensures steady { IfOk result (λ focus. IsSteady code.now hands.new levels.new.items) }
    ensures focus { IfOk result (FocusFits (ground hands.new)) }
{
    if !is_part_of(code, whose, index, node) {
        let frame = Frame::Answering {
            node: whose,
            index,
            word,
            member,
            turns,
            made,
            gathered,
        };
        return put_back(code, hands, limit, levels, Level { node: top, frame }, node);
    }
    let mut member = member;
    let mut turns = turns;
    let mut made = made;
    let value = do_answers(
        alloc,
        code,
        hands,
        whose,
        index,
        node,
        word,
        &mut member,
        &mut turns,
        &mut made,
        units,
    );
    let frame = Frame::Answering {
        node: whose,
        index,
        word,
        member,
        turns,
        made,
        gathered,
    };
    levels.push(Level { node: top, frame })?;
    match value {
        Some(value) => Ok(Focus::Give(Exit::Gives(value))),
        None => Ok(Focus::Enter(node)),
    }
}

// A node under this level is done at once so far as that goes, or is evaluated.
#[inline(always)]
fn hurry_under<S: Store>(
    alloc: Global,
    code: &Code,
    hands: &mut Hands<S>,
    limit: usize,
    levels: &mut Vec<Level>,
    level: Level,
    node: u32,
    units: &mut u64,
) -> Result<Focus, NoMemory>
    requires steady { IsSteady code.now hands.old (levels.old.items ++ level ∷ []) }
    requires room { suc (suc most_nested) + vec_len levels.old < limit }
    ensures rest { IfOk result (λ focus. GoesTo code.now limit levels.new.items focus hands.new units.new
        (levels.old.items ++ level ∷ []) (Enter node) hands.old units.old) }
    ensures left { units.new ≤ units.old }
    ensures depth { vec_len levels.new ≤ limit }
    ensures steady { IfOk result (λ focus. IsSteady code.now hands.new levels.new.items) }
    ensures focus { IfOk result (FocusFits (ground hands.new)) }
{
    let Level { node: top, frame } = level;
    match frame {
        Frame::Statement {
            node: block,
            at,
            kept,
        } => {
            hurry_statement(
                alloc, code, hands, limit, levels, top, block, at, kept, node, units,
            )
        }
        Frame::Asked {
            node: ask,
            index,
            turns,
        } => {
            hurry_asked(
                alloc, code, hands, limit, levels, top, ask, index, turns, node, units,
            )
        }
        Frame::Answering {
            node: whose,
            index,
            word,
            member,
            turns,
            made,
            gathered,
        } => {
            hurry_answering(
                alloc, code, hands, limit, levels, top, whose, index, word, member, turns, made,
                gathered, node, units,
            )
        }
        Frame::RepeatTurn { node: word, left } => {
            hurry_repeat(
                alloc, code, hands, limit, levels, top, word, left, node, units,
            )
        }
        frame => put_back(code, hands, limit, levels, Level { node: top, frame }, node),
    }
}

// Whether what stands on top of the stack may be done at once.
#[inline(always)]
fn may_hurry(levels: &[Level]) -> bool {
    match levels.last() {
        Some(level) => match &level.frame {
            Frame::Statement { .. }
            | Frame::Asked { .. }
            | Frame::RepeatTurn { .. }
            | Frame::Answering { .. } => true,
            _ => false,
        },
        None => false,
    }
}

// A node is done at once so far as that goes, or is evaluated.
#[inline(never)]
fn hurry_node<S: Store>(
    alloc: Global,
    code: &Code,
    hands: &mut Hands<S>,
    limit: usize,
    levels: &mut Vec<Level>,
    node: u32,
    units: &mut u64,
) -> Result<Focus, NoMemory>
    requires steady { IsSteady code.now hands.old levels.old.items }
    requires depth { vec_len levels.old ≤ limit }
    ensures rest { IfOk result (λ focus. GoesTo code.now limit levels.new.items focus hands.new units.new
        levels.old.items (Enter node) hands.old units.old) }
    ensures left { units.new ≤ units.old }
    ensures depth { vec_len levels.new ≤ limit }
    ensures steady { IfOk result (λ focus. IsSteady code.now hands.new levels.new.items) }
    ensures focus { IfOk result (FocusFits (ground hands.new)) }
{
    if limit - levels.len() <= MOST_NESTED + 1 || !may_hurry(levels) {
        return Ok(Focus::Enter(node));
    }
    match levels.pop() {
        Some(level) => hurry_under(alloc, code, hands, limit, levels, level, node, units),
        None => Ok(Focus::Enter(node)),
    }
}

/// What comes where the unit that was wanted is spent: what can be done at once is done, with further units.
#[inline(always)]
pub(crate) fn hurry<S: Store>(
    alloc: Global,
    code: &Code,
    hands: &mut Hands<S>,
    limit: usize,
    levels: &mut Vec<Level>,
    wish: Wish,
    units: &mut u64,
) -> Result<Focus, NoMemory>
    requires steady { IsSteady code.now hands.old levels.old.items }
    requires depth { vec_len levels.old ≤ limit }
    ensures rest { IfOk result (λ focus. (n : ℕ) →
        rest code.now limit levels.new.items focus (state_of code.now.names hands.new (units.new + n))
        ≡ through code.now limit levels.old.items (wished code.now (limit - length levels.old.items) wish
        (state_of code.now.names hands.old (units.old + n)))) }
    ensures left { units.new ≤ units.old }
    ensures depth { vec_len levels.new ≤ limit }
    ensures steady { IfOk result (λ focus. IsSteady code.now hands.new levels.new.items) }
    ensures focus { IfOk result (FocusFits (ground hands.new)) }
{
    match wish {
        Wish::Node(node) => hurry_node(alloc, code, hands, limit, levels, node, units),
        Wish::Tick => Ok(granted(wish)),
    }
}
