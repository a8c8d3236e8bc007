//! Turns, one after another. Each costs a unit, and its values are locals to its end.
ghost use Rattle.std.specs.Prelude.{◌≡◌, ◌<◌, ℕ, false, IfOk, IsTrue, OnOk};
ghost use Rattle.nl_exec_meaning.specs.Arrows.{head_of, with_values};
ghost use Rattle.nl_exec_meaning.specs.Blocks.{cut_to};
ghost use Rattle.nl_exec_meaning.specs.Code.{Code as Nodes, node_at};
ghost use Rattle.nl_exec_meaning.specs.Rounds.{given, is_over, turn_over, turns_left};
ghost use Rattle.nl_exec_meaning.specs.Frames.{resumed};
ghost use Rattle.nl_exec_meaning.specs.Means.{Means, Stands};
ghost use Rattle.nl_exec_meaning.specs.Seen.{ended, ground, state_of};
ghost use Rattle.nl_exec_meaning.specs.Standing.{ExitFits, HandsFit, NextFits, RoundsFit};
ghost use Rattle.nl_exec_meaning.specs.Work.{frame_work, next_work};
ghost use Rattle.nl_exec_meaning.specs.declared.frames.Frame.TheVariants as frame;
ghost use Rattle.nl_value.specs.Views.{plain};
ghost use Rattle.nl_exec_meaning.specs.Ground.{fits};

use crate::finishing::finish;
use crate::giving::name_values;
use crate::telling::tell;
use nl_agents::Store;
use nl_exec_acts::ErrorKind;
use nl_exec_meaning::ends::fault;
use nl_exec_meaning::{Arrow, BoxedRounds, Code, Exit, Frame, Hands, Next, Rounds};
use nl_fixed::NoMemory;
use nl_value::Value;
use std::alloc::Global;

// Whether no turn is left.
#[inline(always)]
fn is_over(word: Arrow, rounds: &Rounds) -> bool
    ensures { result ≡ is_over word rounds.now }
{
    match word {
        Arrow::SortBy => rounds.many <= rounds.place,
        Arrow::ForEach | Arrow::Map | Arrow::Filter | Arrow::Reduce | Arrow::NValues => {
            rounds.many <= rounds.at
        }
    }
}

/// The next turn wants a unit; where none is left the word has its value.
pub fn next_round<S: Store>(
    alloc: Global,
    code: &Code,
    hands: &Hands<S>,
    node: u32,
    index: u32,
    word: Arrow,
    rounds: BoxedRounds,
) -> Result<Next, NoMemory>
    requires rounds { RoundsFit (ground hands.now) word rounds }
    ensures meaning { IfOk result (λ next. Means code.now next hands.now hands.now
        (λ prev s. turns_left word prev (node_at code.now node) index rounds s)) }
    ensures falls { IfOk result (λ next. next_work code.now next ≡ 0) }
    ensures fits { IfOk result (λ next. NextFits (ground hands.now) next) }
{
    if is_over(word, rounds.get()) {
        let rounds = rounds.into_rounds();
        let exit = finish(alloc, code, hands, node, index, word, rounds)?;
        return Ok(Next::Answer(exit));
    }
    match code.part(node, index) {
        Some(_) => {
            let frame = Frame::RoundWanted {
                node,
                index,
                word,
                rounds,
            };
            Ok(Next::Tick(frame))
        }
        None => Ok(Next::Answer(fault(ErrorKind::WrongType, code.span(node), hands.site))),
    }
}

// The values of the next turn become locals, by the names of the block's head.
#[inline(always)]
fn name_all<S: Store>(
    alloc: Global,
    code: &Code,
    hands: &mut Hands<S>,
    block: u32,
    word: Arrow,
    rounds: &Rounds,
) -> Result<(), NoMemory>
    requires fit { HandsFit hands.old }
    requires rounds { RoundsFit (ground hands.old) word rounds.now }
    requires left { is_over word rounds.now ≡ false }
    ensures state { OnOk result ((units : ℕ) → state_of code.now.names hands.new units
        ≡ with_values (head_of (node_at code.now block)) (given word rounds.now)
        (state_of code.now.names hands.old units)) }
    ensures stands { OnOk result (Stands hands.new hands.old) }
{
    name_values(alloc, code, &mut hands.locals, block, word, rounds)?;
    Ok(())
}

/// The unit of a turn is spent: its block runs.
#[inline]
pub fn resume_wanted<S: Store>(
    alloc: Global,
    code: &Code,
    hands: &mut Hands<S>,
    node: u32,
    index: u32,
    word: Arrow,
    rounds: BoxedRounds,
    exit: Exit,
) -> Result<Next, NoMemory>
    requires fit { HandsFit hands.old }
    requires rounds { RoundsFit (ground hands.old) word rounds }
    requires left { is_over word rounds ≡ false }
    requires value { ExitFits (ground hands.old) exit }
    ensures meaning { IfOk result (λ next. Means code.now next hands.new hands.old
        (λ prev s. resumed code.now prev (frame.RoundWanted node index word rounds) (ended exit s))) }
    ensures falls { IfOk result (λ next.
        next_work code.now next < frame_work code.now (frame.RoundWanted node index word rounds)) }
    ensures fits { IfOk result (λ next. NextFits (ground hands.new) next) }
    ensures stands { IfOk result (λ next. Stands hands.new hands.old) }
{
    let _nothing = match exit {
        Exit::Gives(value) => value,
        exit => return Ok(Next::Answer(exit)),
    };
    let Some(block) = code.part(node, index) else {
        return Ok(Next::Answer(fault(ErrorKind::WrongType, code.span(node), hands.site)));
    };
    let kept = hands.locals.len();
    name_all(alloc, code, hands, block, word, rounds.get())?;
    let frame = Frame::Round {
        node,
        index,
        word,
        kept,
        rounds,
    };
    Ok(Next::Go(frame, block))
}

// The locals of a turn are forgotten.
#[inline(always)]
fn cut<S: Store>(hands: &mut Hands<S>, kept: usize)
    requires { HandsFit hands.old }
    ensures state { (c : Nodes) (units : ℕ) →
        state_of c.names hands.new units ≡ cut_to kept (state_of c.names hands.old units) }
    ensures stage { hands.new.stage ≡ hands.old.stage }
    ensures site { hands.new.site ≡ hands.old.site }
    ensures stands { Stands hands.new hands.old }
{
    hands.locals.truncate(kept);
}

// A turn has this value: the next one comes, unless the value is of the wrong kind.
fn round_over<S: Store>(
    alloc: Global,
    code: &Code,
    hands: &Hands<S>,
    node: u32,
    index: u32,
    word: Arrow,
    mut rounds: BoxedRounds,
    value: Value,
) -> Result<Next, NoMemory>
    requires rounds { RoundsFit (ground hands.now) word rounds }
    requires left { is_over word rounds ≡ false }
    requires value { IsTrue (fits (ground hands.now) (plain value)) }
    ensures meaning { IfOk result (λ next. Means code.now next hands.now hands.now
        (λ prev s. turn_over word prev (node_at code.now node) index rounds (plain value) s)) }
    ensures falls { IfOk result (λ next. next_work code.now next ≡ 0) }
    ensures fits { IfOk result (λ next. NextFits (ground hands.now) next) }
{
    if tell(alloc, word, &mut rounds, value)? {
        next_round(alloc, code, hands, node, index, word, rounds)
    } else {
        Ok(Next::Answer(fault(ErrorKind::WrongType, code.span(node), hands.site)))
    }
}

/// A turn is over, and its locals are forgotten, unless the whole text ends.
#[inline]
pub fn resume_round<S: Store>(
    alloc: Global,
    code: &Code,
    hands: &mut Hands<S>,
    node: u32,
    index: u32,
    word: Arrow,
    kept: usize,
    rounds: BoxedRounds,
    exit: Exit,
) -> Result<Next, NoMemory>
    requires fit { HandsFit hands.old }
    requires rounds { RoundsFit (ground hands.old) word rounds }
    requires left { is_over word rounds ≡ false }
    requires value { ExitFits (ground hands.old) exit }
    ensures meaning { IfOk result (λ next. Means code.now next hands.new hands.old
        (λ prev s. resumed code.now prev (frame.Round node index word kept rounds) (ended exit s))) }
    ensures falls { IfOk result (λ next.
        next_work code.now next < frame_work code.now (frame.Round node index word kept rounds)) }
    ensures fits { IfOk result (λ next. NextFits (ground hands.new) next) }
    ensures stands { IfOk result (λ next. Stands hands.new hands.old) }
{
    match exit {
        Exit::Gives(value) => {
            cut(hands, kept);
            round_over(alloc, code, hands, node, index, word, rounds, value)
        }
        Exit::Stopped => {
            cut(hands, kept);
            Ok(Next::Answer(Exit::Stopped))
        }
        Exit::Reported(value) => {
            cut(hands, kept);
            Ok(Next::Answer(Exit::Reported(value)))
        }
        Exit::Left => {
            cut(hands, kept);
            Ok(Next::Answer(Exit::Left))
        }
        exit => Ok(Next::Answer(exit)),
    }
}
