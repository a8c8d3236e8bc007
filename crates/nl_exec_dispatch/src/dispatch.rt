//! Which case a node or a frame is.
ghost use Rattle.std.specs.Prelude.{◌≡◌, ◌+◌, ◌<◌, Bool, false, not, IsTrue, IfOk};
ghost use Rattle.nl_tree.specs.Tree.{label, parts, span};
ghost use Rattle.nl_exec_meaning.specs.Cases.{case_of};
ghost use Rattle.nl_exec_meaning.specs.Cases as case;
ghost use Rattle.nl_exec_meaning.specs.Code.{node_at, written};
ghost use Rattle.nl_agents.specs.Changes.{OwnerLives};
ghost use Rattle.nl_exec_meaning.specs.declared.words.Control.TheVariants as control;
ghost use Rattle.nl_exec_meaning.specs.declared.words.Spread.TheVariants as spread;
ghost use Rattle.nl_exec_meaning.specs.declared.words.Built.TheVariants as built;
ghost use Rattle.nl_exec_meaning.specs.Running.{allowed};
ghost use Rattle.nl_exec_meaning.specs.Walks.{over_case};
ghost use Rattle.nl_exec_meaning.specs.Meaning.{built_case, by_case, cases, control_case, spread_case, text_statements};
ghost use Rattle.nl_exec_meaning.specs.State.{Eval};
ghost use Rattle.nl_exec_meaning.specs.Frames.{resumed};
ghost use Rattle.nl_exec_meaning.specs.Means.{EndsAs, Means, Stands};
ghost use Rattle.nl_exec_meaning.specs.Seen.{ended, ground};
ghost use Rattle.nl_exec_meaning.specs.Sound.{IsSound};
ghost use Rattle.nl_exec_meaning.specs.Standing.{ExitFits, FrameFits, HandsFit, NextFits};
ghost use Rattle.nl_exec_meaning.specs.Weight.{weight, weights};
ghost use Rattle.nl_exec_meaning.specs.Work.{frame_work, next_work};

use nl_agents::Store;
use nl_exec_acts::ErrorKind;
use nl_exec_arrows::inputs::{enter_arrow, resume_input};
use nl_exec_arrows::rounds::{resume_round, resume_wanted};
use nl_exec_cases::blocks::{
    enter_inside, enter_negation, enter_statements, next_text_statement, resume_negated,
    resume_statement, resume_text_statement,
};
use nl_exec_cases::calls::{enter_report, resume_body, resume_report};
use nl_exec_cases::choices::{
    enter_and, enter_if, enter_ifelse, enter_ifelse_value, enter_or, resume_and, resume_either,
    resume_if, resume_or, resume_right,
};
use nl_exec_cases::loops::{
    enter_loop, enter_repeat, enter_while, resume_loop, resume_repeat, resume_test, resume_turn,
    resume_while,
};
use nl_exec_cases::moving::{
    enter_clear_all, enter_clear_globals, enter_climb, enter_die, enter_diffuse, enter_walk,
    resume_distance, resume_share, resume_step,
};
use nl_exec_cases::parts::{enter_parts, resume_part};
use nl_exec_meaning::ends::{barred, fault};
use nl_exec_meaning::{Built, Code, Control, Exit, Frame, Hands, Next, Op, Over, Spread};
use nl_exec_variables::apart::read_apart;
use nl_exec_variables::setting::{enter_let, enter_set, resume_let, resume_set};
use nl_exec_variables::variables::{read_global, read_local, read_owned};
use nl_exec_walks::answering::resume_answer;
use nl_exec_walks::making::{enter_making, resume_making};
use nl_exec_walks::{sets, walking};
use nl_fixed::NoMemory;
use nl_value::Value;
use nl_words::Kinds;
use std::alloc::Global;

// ---- nodes

// Begins a word that evaluates its parts in a way of its own. One that only living agents may run has a living one.
#[inline(always)]
fn enter_control<S: Store>(
    code: &Code,
    hands: &mut Hands<S>,
    node: u32,
    runs: Kinds,
    word: Control,
) -> Next
    requires fit { HandsFit hands.old }
    requires lives { IsTrue (not runs.observer) →
        OwnerLives hands.old.site.agent (S.world hands.old.stage.store) }
    requires stands { word ≡ control.Die → IsTrue (not runs.observer) }
    ensures meaning { Means code.now result hands.new hands.old
        (λ prev s. control_case word code.now.program runs prev (node_at code.now node) s) }
    ensures falls { next_work code.now result < 6 + weights (parts (node_at code.now node)) }
    ensures fits { NextFits (ground hands.new) result }
    ensures stands { Stands hands.new hands.old }
{
    match word {
        Control::And => enter_and(code, hands, node),
        Control::Or => enter_or(code, hands, node),
        Control::Let => enter_let(code, hands, node),
        Control::Set => enter_set(code, hands, node),
        Control::Stop => Next::Answer(Exit::Stopped),
        Control::Report => enter_report(code, hands, node),
        Control::Die => Next::Answer(enter_die(code, hands)),
        Control::If => enter_if(code, hands, node),
        Control::IfElse => enter_ifelse(code, hands, node),
        Control::IfElseValue => enter_ifelse_value(code, hands, node),
        Control::Repeat => enter_repeat(code, hands, node),
        Control::While => enter_while(code, hands, node),
        Control::Loop => enter_loop(code, hands, node),
        Control::Forward => enter_walk(code, hands, node, runs, false),
        Control::Back => enter_walk(code, hands, node, runs, true),
        Control::ClearGlobals => Next::Answer(enter_clear_globals(code, hands)),
        Control::ClearAll => Next::Answer(enter_clear_all(code, hands)),
    }
}

// Begins a word of a variable of patches.
#[inline]
fn enter_spread<S: Store>(
    code: &Code,
    hands: &mut Hands<S>,
    node: u32,
    runs: Kinds,
    word: Spread,
) -> Next
    requires fit { HandsFit hands.old }
    requires lives { IsTrue (not runs.observer) →
        OwnerLives hands.old.site.agent (S.world hands.old.stage.store) }
    requires stands { (up four : Bool) → word ≡ spread.Climb up four → IsTrue (not runs.observer) }
    ensures meaning { Means code.now result hands.new hands.old
        (λ prev s. spread_case word code.now.program runs prev (node_at code.now node) s) }
    ensures falls { next_work code.now result < 6 + weights (parts (node_at code.now node)) }
    ensures fits { NextFits (ground hands.new) result }
    ensures stands { Stands hands.new hands.old }
{
    match word {
        Spread::Diffuse { four } => enter_diffuse(code, hands, node, runs, four),
        Spread::Climb { up, four } => Next::Answer(enter_climb(code, hands, node, up, four)),
    }
}

// Begins a word that has the agents of a set run a block.
#[inline]
fn enter_over<S: Store>(code: &Code, hands: &mut Hands<S>, node: u32, word: Over) -> Next
    requires fit { HandsFit hands.old }
    ensures meaning { Means code.now result hands.new hands.old
        (λ prev s. over_case word prev (node_at code.now node) s) }
    ensures falls { next_work code.now result < 6 + weights (parts (node_at code.now node)) }
    ensures fits { NextFits (ground hands.new) result }
    ensures stands { Stands hands.new hands.old }
{
    match word {
        Over::Ask => walking::enter_ask(code, hands, node),
        Over::Of => sets::enter_of(code, hands, node),
        Over::MaxNOf => sets::enter_some(code, hands, node, word, true),
        Over::MinNOf => sets::enter_some(code, hands, node, word, false),
        Over::With
        | Over::All
        | Over::WithMax
        | Over::WithMin
        | Over::MaxOneOf
        | Over::MinOneOf
        | Over::SortOn => sets::enter_set(code, hands, node, word),
    }
}

// Begins a built-in word, where the agent that runs lives and may run it.
#[inline(always)]
fn enter_built<S: Store>(
    alloc: Global,
    code: &Code,
    hands: &mut Hands<S>,
    node: u32,
    runs: Kinds,
    breed: Option<u32>,
    word: Built,
) -> Result<Next, NoMemory>
    requires sound { IsSound code.now.program (ground hands.old).layout }
    requires fit { HandsFit hands.old }
    requires lives { IsTrue (not runs.observer) →
        OwnerLives hands.old.site.agent (S.world hands.old.stage.store) }
    requires is { case_of code.now.program.declared (label (node_at code.now node))
        ≡ case.Word runs breed word }
    ensures meaning { IfOk result (λ next. Means code.now next hands.new hands.old
        (λ prev s. built_case word breed code.now.program runs prev (node_at code.now node) s)) }
    ensures falls { IfOk result (λ next.
        next_work code.now next < 6 + weights (parts (node_at code.now node))) }
    ensures fits { IfOk result (λ next. NextFits (ground hands.new) next) }
    ensures stands { IfOk result (λ next. Stands hands.new hands.old) }
{
    match word {
        Built::Control(word) => Ok(enter_control(code, hands, node, runs, word)),
        Built::Spread(word) => Ok(enter_spread(code, hands, node, runs, word)),
        Built::Act(_) => enter_parts(alloc, code, hands, node),
        Built::Over(word) => Ok(enter_over(code, hands, node, word)),
        Built::Arrow(word) => enter_arrow(alloc, code, hands, node, word),
        Built::Making(word) => Ok(enter_making(code, hands, node, runs, breed, word)),
    }
}

/// Begins a word: a dead agent leaves, and an agent of another kind may not run it.
#[inline(always)]
pub fn enter_word<S: Store>(
    alloc: Global,
    code: &Code,
    hands: &mut Hands<S>,
    node: u32,
    runs: Kinds,
    breed: Option<u32>,
    word: Built,
) -> Result<Next, NoMemory>
    requires sound { IsSound code.now.program (ground hands.old).layout }
    requires fit { HandsFit hands.old }
    requires is { case_of code.now.program.declared (label (node_at code.now node))
        ≡ case.Word runs breed word }
    ensures meaning { IfOk result (λ next. Means code.now next hands.new hands.old (λ prev s.
        allowed runs (span (node_at code.now node)) s
        (built_case word breed code.now.program runs prev (node_at code.now node) s))) }
    ensures falls { IfOk result (λ next.
        next_work code.now next < 6 + weights (parts (node_at code.now node))) }
    ensures fits { IfOk result (λ next. NextFits (ground hands.new) next) }
    ensures stands { IfOk result (λ next. Stands hands.new hands.old) }
{
    if let Some(exit) = barred(hands, runs, code.span(node)) {
        return Ok(Next::Answer(exit));
    }
    let next = enter_built(alloc, code, hands, node, runs, breed, word)?;
    Ok(next)
}

// The text that a node is.
#[inline]
fn read_words<S: Store>(
    alloc: Global,
    code: &Code,
    hands: &Hands<S>,
    node: u32,
) -> Result<Exit, NoMemory>
    ensures meaning { IfOk result (λ exit. (prev : Eval) → EndsAs code.now exit hands.now hands.now (λ s.
        by_case (written (label (node_at code.now node))) code.now.program prev (node_at code.now node) s)) }
    ensures fits { IfOk result (ExitFits (ground hands.now)) }
{
    match code.text(node) {
        Some(text) => Ok(Exit::Gives(Value::words(alloc, text.copy(alloc)?)?)),
        None => Ok(fault(ErrorKind::WrongType, code.span(node), hands.site)),
    }
}

/// Begins a node.
pub fn enter<S: Store>(
    alloc: Global,
    code: &Code,
    hands: &mut Hands<S>,
    node: u32,
) -> Result<Next, NoMemory>
    requires sound { IsSound code.now.program (ground hands.old).layout }
    requires fit { HandsFit hands.old }
    ensures meaning { IfOk result (λ next. Means code.now next hands.new hands.old
        (λ prev s. cases code.now.program prev (node_at code.now node) s)) }
    ensures falls { IfOk result (λ next. next_work code.now next < weight (node_at code.now node)) }
    ensures fits { IfOk result (λ next. NextFits (ground hands.new) next) }
    ensures stands { IfOk result (λ next. Stands hands.new hands.old) }
{
    let place = code.span(node);
    match code.op(node) {
        Op::Number(number) => Ok(Next::Answer(Exit::Gives(Value::Number(number)))),
        Op::Words => Ok(Next::Answer(read_words(alloc, code, hands, node)?)),
        Op::Items => enter_parts(alloc, code, hands, node),
        Op::Procedure(_) => enter_parts(alloc, code, hands, node),
        Op::Negation => Ok(enter_negation(code, hands, node)),
        Op::Inside => Ok(enter_inside(code, hands, node)),
        Op::Statements => Ok(enter_statements(code, hands, node)),
        Op::Local(id) => Ok(Next::Answer(read_local(alloc, code, hands, id, place)?)),
        Op::Global(slot) => Ok(Next::Answer(read_global(alloc, code, hands, slot, place)?)),
        Op::Owned { runs, slot } => {
            Ok(Next::Answer(read_owned(alloc, code, hands, runs, slot, place)?))
        }
        Op::Aside { runs, which } => {
            Ok(Next::Answer(read_apart(alloc, code, hands, runs, which, place)?))
        }
        Op::Word { runs, breed, word } => enter_word(alloc, code, hands, node, runs, breed, word),
        Op::Nothing => Ok(Next::Answer(fault(ErrorKind::WrongType, place, hands.site))),
    }
}

// ---- frames

/// Goes on with a frame, once the child that ran has ended.
pub fn resume<S: Store>(
    alloc: Global,
    code: &Code,
    hands: &mut Hands<S>,
    frame: Frame,
    exit: Exit,
) -> Result<Next, NoMemory>
    requires sound { IsSound code.now.program (ground hands.old).layout }
    requires fit { HandsFit hands.old }
    requires frame { FrameFits (ground hands.old) frame }
    requires value { ExitFits (ground hands.old) exit }
    ensures meaning { IfOk result (λ next. Means code.now next hands.new hands.old
        (λ prev s. resumed code.now prev frame (ended exit s))) }
    ensures falls { IfOk result (λ next. next_work code.now next < frame_work code.now frame) }
    ensures fits { IfOk result (λ next. NextFits (ground hands.new) next) }
    ensures stands { IfOk result (λ next. Stands hands.new hands.old) }
{
    match frame {
        Frame::Part { node, at, made } => resume_part(alloc, code, hands, node, at, made, exit),
        Frame::Inside { .. } => Ok(Next::Answer(exit)),
        Frame::Negated { node } => Ok(resume_negated(code, hands, node, exit)),
        Frame::Statement { node, at, kept } => {
            Ok(resume_statement(code, hands, node, at, kept, exit))
        }
        Frame::TextStatement { node, at, stopped } => {
            Ok(resume_text_statement(code, hands, node, at, stopped, exit))
        }
        Frame::LetValue { node, id } => resume_let(alloc, code, hands, node, id, exit),
        Frame::SetValue { node, variable } => Ok(resume_set(code, hands, node, variable, exit)),
        Frame::ReportValue { node } => Ok(resume_report(code, hands, node, exit)),
        Frame::AndLeft { node } => Ok(resume_and(code, hands, node, exit)),
        Frame::OrLeft { node } => Ok(resume_or(code, hands, node, exit)),
        Frame::RightSide { node } => Ok(resume_right(code, hands, node, exit)),
        Frame::IfTest { node } => Ok(resume_if(code, hands, node, exit)),
        Frame::EitherTest { node, at, valued } => {
            Ok(resume_either(code, hands, node, at, valued, exit))
        }
        Frame::RepeatCount { node } => Ok(resume_repeat(code, hands, node, exit)),
        Frame::RepeatTurn { node, left } => Ok(resume_turn(code, hands, node, left, exit)),
        Frame::WhileTest { node } => Ok(resume_test(code, hands, node, exit)),
        Frame::WhileTurn { node } => Ok(resume_while(code, hands, node, exit)),
        Frame::LoopTurn { node } => Ok(resume_loop(code, hands, node, exit)),
        Frame::Distance { node, runs, back } => {
            Ok(resume_distance(code, hands, node, runs, back, exit))
        }
        Frame::Step {
            node,
            turtle,
            by,
            left,
            rest,
            way,
        } => { Ok(resume_step(code, hands, node, turtle, by, left, rest, way, exit)) }
        Frame::Body {
            node,
            reporter,
            saved,
            site,
        } => { Ok(resume_body(code, hands, node, reporter, saved, site, exit)) }
        Frame::AskWho { node } => walking::resume_ask(alloc, code, hands, node, exit),
        Frame::Asked { node, index, turns } => {
            Ok(walking::resume_turn(code, hands, node, index, turns, exit))
        }
        Frame::SetWho { node, word, index } => {
            sets::resume_set_who(alloc, code, hands, node, word, index, exit)
        }
        Frame::SomeNumber { node, word, up } => {
            Ok(sets::resume_some_number(code, hands, node, word, up, exit))
        }
        Frame::SomeSet {
            node,
            word,
            up,
            number,
        } => { sets::resume_some_set(alloc, code, hands, node, word, up, number, exit) }
        Frame::OfWho { node } => sets::resume_of_who(alloc, code, hands, node, exit),
        Frame::Answering {
            node,
            index,
            word,
            member,
            turns,
            made,
            gathered,
        } => {
            resume_answer(
                alloc, code, hands, node, index, word, member, turns, made, gathered, exit,
            )
        }
        Frame::MakingInput {
            node,
            word,
            breed,
            runs,
        } => { resume_making(alloc, code, hands, node, word, breed, runs, exit) }
        Frame::Share {
            node,
            runs,
            slot,
            four,
        } => { resume_share(alloc, code, hands, node, runs, slot, four, exit) }
        Frame::ArrowInput {
            node,
            word,
            at,
            made,
        } => { resume_input(alloc, code, hands, node, word, at, made, exit) }
        Frame::RoundWanted {
            node,
            index,
            word,
            rounds,
        } => { resume_wanted(alloc, code, hands, node, index, word, rounds, exit) }
        Frame::Round {
            node,
            index,
            word,
            kept,
            rounds,
        } => { resume_round(alloc, code, hands, node, index, word, kept, rounds, exit) }
    }
}

/// Begins the statements of a lone text.
#[inline]
pub fn enter_text<S: Store>(code: &Code, hands: &mut Hands<S>, node: u32) -> Next
    requires fit { HandsFit hands.old }
    ensures meaning { Means code.now result hands.new hands.old
        (λ prev s. text_statements prev (parts (node_at code.now node)) false s) }
    ensures falls { next_work code.now result ≡ 0 }
    ensures fits { NextFits (ground hands.new) result }
    ensures stands { Stands hands.new hands.old }
{
    next_text_statement(code, hands, node, 0, false)
}
