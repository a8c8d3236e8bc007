//! The steps that come most often. Each stands here in a function of its own, with what follows it, so that a step sets no room aside for
//! the others.
ghost use Rattle.std.specs.Prelude.{◌≡◌, suc, ◌+◌, ◌<◌, ◌≤◌, vec_len, IsTrue, IfOk};
ghost use Rattle.nl_exec_meaning.specs.Frames.{resumed};
ghost use Rattle.nl_exec_meaning.specs.Ground.{all_fit};
ghost use Rattle.nl_exec_meaning.specs.Seen.{ended, ground};
ghost use Rattle.nl_exec_meaning.specs.Standing.{ExitFits, FrameFits, TurnsFit};
ghost use Rattle.nl_exec_meaning.specs.Work.{frame_work};
ghost use Rattle.nl_exec_meaning.specs.declared.frames.Frame.TheVariants as frame;
ghost use Rattle.nl_exec_levels.specs.Steady.{IsSteady, FocusFits};
ghost use Rattle.nl_exec_levels.specs.Work.{levels_work, total_work};
ghost use Rattle.nl_exec_levels.specs.inner.Steps.{ComesTo};

use crate::focus::Focus;
use crate::levels::Level;
use crate::run::follow;
use nl_agents::Store;
use nl_exec_dispatch::blocks::resume_statement;
use nl_exec_dispatch::choices::resume_if;
use nl_exec_dispatch::dispatch::resume;
use nl_exec_dispatch::loops::resume_turn;
use nl_exec_dispatch::parts::resume_part;
use nl_exec_dispatch::setting::resume_set;
use nl_exec_dispatch::walking;
use nl_exec_meaning::{BoxedTurns, Code, Exit, Frame, Hands};
use nl_fixed::NoMemory;
use nl_value::Items;
use std::alloc::Global;

// A part of a list, a call or an act has its value.
#[inline(always)]
#[tactic(auto, using(crate::proofs::Steadying::steady_on, crate::proofs::Following::comes_to))]
fn after_part<S: Store>(
    alloc: Global,
    code: &Code,
    hands: &mut Hands<S>,
    levels: &mut Vec<Level>,
    node: u32,
    all: u32,
    at: u32,
    made: Items,
    exit: Exit,
) -> Result<Focus, NoMemory>
    requires steady { IsSteady code.now hands.old levels.old.items }
    requires made { IsTrue (all_fit (ground hands.old) made) }
    requires exit { ExitFits (ground hands.old) exit }
    ensures rest { IfOk result (λ focus. ComesTo code.now levels.old.items node
        (λ prev s. resumed code.now prev (frame.Part all at made) (ended exit s))
        levels.new.items focus hands.new hands.old) }
    ensures depth { vec_len levels.new ≤ suc (vec_len levels.old) }
    ensures work { IfOk result (λ focus. total_work code.now levels.new.items focus
        < levels_work code.now levels.old.items + frame_work code.now (frame.Part all at made)) }
    ensures steady { IfOk result (λ focus. IsSteady code.now hands.new levels.new.items) }
    ensures focus { IfOk result (FocusFits (ground hands.new)) }
{
    let next = resume_part(alloc, code, hands, all, at, made, exit)?;
    let focus = follow(code, hands, levels, node, next)?;
    Ok(focus)
}

// A statement of a block is over.
#[inline(always)]
#[tactic(auto, using(crate::proofs::Steadying::steady_on, crate::proofs::Following::comes_to))]
fn after_statement<S: Store>(
    code: &Code,
    hands: &mut Hands<S>,
    levels: &mut Vec<Level>,
    node: u32,
    block: u32,
    at: u32,
    kept: usize,
    exit: Exit,
) -> Result<Focus, NoMemory>
    requires steady { IsSteady code.now hands.old levels.old.items }
    requires exit { ExitFits (ground hands.old) exit }
    ensures rest { IfOk result (λ focus. ComesTo code.now levels.old.items node
        (λ prev s. resumed code.now prev (frame.Statement block at kept) (ended exit s))
        levels.new.items focus hands.new hands.old) }
    ensures depth { vec_len levels.new ≤ suc (vec_len levels.old) }
    ensures work { IfOk result (λ focus. total_work code.now levels.new.items focus
        < levels_work code.now levels.old.items + frame_work code.now (frame.Statement block at kept)) }
    ensures steady { IfOk result (λ focus. IsSteady code.now hands.new levels.new.items) }
    ensures focus { IfOk result (FocusFits (ground hands.new)) }
{
    let next = resume_statement(code, hands, block, at, kept, exit);
    let focus = follow(code, hands, levels, node, next)?;
    Ok(focus)
}

// The value of `set` is there.
#[inline(always)]
#[tactic(auto, using(crate::proofs::Steadying::steady_on, crate::proofs::Following::comes_to))]
fn after_value<S: Store>(
    code: &Code,
    hands: &mut Hands<S>,
    levels: &mut Vec<Level>,
    node: u32,
    word: u32,
    variable: u32,
    exit: Exit,
) -> Result<Focus, NoMemory>
    requires steady { IsSteady code.now hands.old levels.old.items }
    requires exit { ExitFits (ground hands.old) exit }
    ensures rest { IfOk result (λ focus. ComesTo code.now levels.old.items node
        (λ prev s. resumed code.now prev (frame.SetValue word variable) (ended exit s))
        levels.new.items focus hands.new hands.old) }
    ensures depth { vec_len levels.new ≤ suc (vec_len levels.old) }
    ensures work { IfOk result (λ focus. total_work code.now levels.new.items focus
        < levels_work code.now levels.old.items + frame_work code.now (frame.SetValue word variable)) }
    ensures steady { IfOk result (λ focus. IsSteady code.now hands.new levels.new.items) }
    ensures focus { IfOk result (FocusFits (ground hands.new)) }
{
    let next = resume_set(code, hands, word, variable, exit);
    let focus = follow(code, hands, levels, node, next)?;
    Ok(focus)
}

// The test of `if` has its value.
#[inline(always)]
#[tactic(auto, using(crate::proofs::Steadying::steady_on, crate::proofs::Following::comes_to))]
fn after_test<S: Store>(
    code: &Code,
    hands: &mut Hands<S>,
    levels: &mut Vec<Level>,
    node: u32,
    word: u32,
    exit: Exit,
) -> Result<Focus, NoMemory>
    requires steady { IsSteady code.now hands.old levels.old.items }
    requires exit { ExitFits (ground hands.old) exit }
    ensures rest { IfOk result (λ focus. ComesTo code.now levels.old.items node
        (λ prev s. resumed code.now prev (frame.IfTest word) (ended exit s))
        levels.new.items focus hands.new hands.old) }
    ensures depth { vec_len levels.new ≤ suc (vec_len levels.old) }
    ensures work { IfOk result (λ focus. total_work code.now levels.new.items focus
        < levels_work code.now levels.old.items + frame_work code.now (frame.IfTest word)) }
    ensures steady { IfOk result (λ focus. IsSteady code.now hands.new levels.new.items) }
    ensures focus { IfOk result (FocusFits (ground hands.new)) }
{
    let next = resume_if(code, hands, word, exit);
    let focus = follow(code, hands, levels, node, next)?;
    Ok(focus)
}

// A turn of `repeat` is over.
#[inline(always)]
#[tactic(auto, using(crate::proofs::Steadying::steady_on, crate::proofs::Following::comes_to))]
fn after_repeat<S: Store>(
    code: &Code,
    hands: &mut Hands<S>,
    levels: &mut Vec<Level>,
    node: u32,
    word: u32,
    left: u64,
    exit: Exit,
) -> Result<Focus, NoMemory>
    requires steady { IsSteady code.now hands.old levels.old.items }
    requires exit { ExitFits (ground hands.old) exit }
    ensures rest { IfOk result (λ focus. ComesTo code.now levels.old.items node
        (λ prev s. resumed code.now prev (frame.RepeatTurn word left) (ended exit s))
        levels.new.items focus hands.new hands.old) }
    ensures depth { vec_len levels.new ≤ suc (vec_len levels.old) }
    ensures work { IfOk result (λ focus. total_work code.now levels.new.items focus
        < levels_work code.now levels.old.items + frame_work code.now (frame.RepeatTurn word left)) }
    ensures steady { IfOk result (λ focus. IsSteady code.now hands.new levels.new.items) }
    ensures focus { IfOk result (FocusFits (ground hands.new)) }
{
    let next = resume_turn(code, hands, word, left, exit);
    let focus = follow(code, hands, levels, node, next)?;
    Ok(focus)
}

// A turn of an ask, or of a birth's block, is over.
#[inline(always)]
#[tactic(auto, using(crate::proofs::Steadying::steady_on, crate::proofs::Following::comes_to))]
fn after_asked<S: Store>(
    code: &Code,
    hands: &mut Hands<S>,
    levels: &mut Vec<Level>,
    node: u32,
    word: u32,
    index: u32,
    turns: BoxedTurns,
    exit: Exit,
) -> Result<Focus, NoMemory>
    requires steady { IsSteady code.now hands.old levels.old.items }
    requires turns { TurnsFit (ground hands.old) turns }
    requires exit { ExitFits (ground hands.old) exit }
    ensures rest { IfOk result (λ focus. ComesTo code.now levels.old.items node
        (λ prev s. resumed code.now prev (frame.Asked word index turns) (ended exit s))
        levels.new.items focus hands.new hands.old) }
    ensures depth { vec_len levels.new ≤ suc (vec_len levels.old) }
    ensures work { IfOk result (λ focus. total_work code.now levels.new.items focus
        < levels_work code.now levels.old.items + frame_work code.now (frame.Asked word index turns)) }
    ensures steady { IfOk result (λ focus. IsSteady code.now hands.new levels.new.items) }
    ensures focus { IfOk result (FocusFits (ground hands.new)) }
{
    let next = walking::resume_turn(code, hands, word, index, turns, exit);
    let focus = follow(code, hands, levels, node, next)?;
    Ok(focus)
}

// What stands above a node has ended.
#[inline(always)]
#[tactic(auto, using(crate::proofs::Steadying::steady_on, crate::proofs::Following::comes_to))]
fn after_any<S: Store>(
    alloc: Global,
    code: &Code,
    hands: &mut Hands<S>,
    levels: &mut Vec<Level>,
    node: u32,
    frame: Frame,
    exit: Exit,
) -> Result<Focus, NoMemory>
    requires steady { IsSteady code.now hands.old levels.old.items }
    requires frame { FrameFits (ground hands.old) frame }
    requires exit { ExitFits (ground hands.old) exit }
    ensures rest { IfOk result (λ focus. ComesTo code.now levels.old.items node
        (λ prev s. resumed code.now prev frame (ended exit s))
        levels.new.items focus hands.new hands.old) }
    ensures depth { vec_len levels.new ≤ suc (vec_len levels.old) }
    ensures work { IfOk result (λ focus. total_work code.now levels.new.items focus
        < levels_work code.now levels.old.items + frame_work code.now frame) }
    ensures steady { IfOk result (λ focus. IsSteady code.now hands.new levels.new.items) }
    ensures focus { IfOk result (FocusFits (ground hands.new)) }
{
    let next = resume(alloc, code, hands, frame, exit)?;
    let focus = follow(code, hands, levels, node, next)?;
    Ok(focus)
}

/// Goes on with the frame of a node, once the child that ran has ended, and puts on the stack what its case does next.
#[inline(always)]
#[tactic(auto, using(crate::proofs::Steadying::steady_on, crate::proofs::Following::comes_to))]
pub(crate) fn go_on<S: Store>(
    alloc: Global,
    code: &Code,
    hands: &mut Hands<S>,
    levels: &mut Vec<Level>,
    node: u32,
    frame: Frame,
    exit: Exit,
) -> Result<Focus, NoMemory>
    requires steady { IsSteady code.now hands.old levels.old.items }
    requires frame { FrameFits (ground hands.old) frame }
    requires exit { ExitFits (ground hands.old) exit }
    ensures rest { IfOk result (λ focus. ComesTo code.now levels.old.items node
        (λ prev s. resumed code.now prev frame (ended exit s))
        levels.new.items focus hands.new hands.old) }
    ensures depth { vec_len levels.new ≤ suc (vec_len levels.old) }
    ensures work { IfOk result (λ focus. total_work code.now levels.new.items focus
        < levels_work code.now levels.old.items + frame_work code.now frame) }
    ensures steady { IfOk result (λ focus. IsSteady code.now hands.new levels.new.items) }
    ensures focus { IfOk result (FocusFits (ground hands.new)) }
{
    match frame {
        Frame::Part {
            node: all,
            at,
            made,
        } => { after_part(alloc, code, hands, levels, node, all, at, made, exit) }
        Frame::Statement {
            node: block,
            at,
            kept,
        } => { after_statement(code, hands, levels, node, block, at, kept, exit) }
        Frame::SetValue {
            node: word,
            variable,
        } => { after_value(code, hands, levels, node, word, variable, exit) }
        Frame::IfTest { node: word } => after_test(code, hands, levels, node, word, exit),
        Frame::RepeatTurn { node: word, left } => {
            after_repeat(code, hands, levels, node, word, left, exit)
        }
        Frame::Asked {
            node: word,
            index,
            turns,
        } => { after_asked(code, hands, levels, node, word, index, turns, exit) }
        frame => after_any(alloc, code, hands, levels, node, frame, exit),
    }
}
