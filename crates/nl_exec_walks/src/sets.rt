//! Whose values a word takes: the members of a set, or one agent.
ghost use Rattle.std.specs.Prelude.{◌≡◌, ◌<◌, ◌+◌, IfOk, IsTrue};
ghost use Rattle.nl_value.specs.Views.{plain};
ghost use Rattle.nl_tree.specs.Tree.{parts, span};
ghost use Rattle.nl_exec_meaning.specs.Code.{node_at};
ghost use Rattle.nl_exec_meaning.specs.State.{come_to};
ghost use Rattle.nl_exec_meaning.specs.Walks.{of_case, over_case, set_in, some_case};
ghost use Rattle.nl_exec_meaning.specs.Frames.{answers_of_set, resumed};
ghost use Rattle.nl_exec_meaning.specs.Ground.{fits};
ghost use Rattle.nl_exec_meaning.specs.Means.{Means, Stands};
ghost use Rattle.nl_exec_meaning.specs.Seen.{ended, ground};
ghost use Rattle.nl_exec_meaning.specs.Standing.{ExitFits, HandsFit, NextFits};
ghost use Rattle.nl_exec_meaning.specs.Weight.{weights};
ghost use Rattle.nl_exec_meaning.specs.Work.{frame_work, next_work};
ghost use Rattle.nl_exec_meaning.specs.declared.frames.Frame.TheVariants as frame;
ghost use Rattle.nl_exec_walks.specs.Turns.{IsOfSet};

use crate::agents::{agents_in, set_in};
use crate::answering::next_answer;
use nl_agents::Store;
use nl_exec_acts::{ActFail, ErrorKind};
use nl_exec_meaning::children::go;
use nl_exec_meaning::ends::{fault, number_of};
use nl_exec_meaning::{
    BoxedAnswers, BoxedTurns, Code, Exit, Frame, Gathered, Hands, HeldValue, Next, Over, Turns,
};
use nl_fixed::NoMemory;
use nl_value::Value;
use std::alloc::Global;

// ---- a set

/// The set comes first: it is the first part, and the second one where `sort-on` stands.
#[inline]
pub fn enter_set<S: Store>(code: &Code, hands: &Hands<S>, node: u32, word: Over) -> Next
    requires { IsOfSet word }
    ensures meaning { Means code.now result hands.now hands.now
        (λ prev s. over_case word prev (node_at code.now node) s) }
    ensures falls { next_work code.now result < 6 + weights (parts (node_at code.now node)) }
    ensures fits { NextFits (ground hands.now) result }
{
    match word {
        Over::SortOn => {
            let frame = Frame::SetWho {
                node,
                word,
                index: 0,
            };
            go(code, hands, node, 1, frame)
        }
        _ => {
            let frame = Frame::SetWho {
                node,
                word,
                index: 1,
            };
            go(code, hands, node, 0, frame)
        }
    }
}

// The members of the set that a value is answer one after another.
fn from_set<S: Store>(
    alloc: Global,
    code: &Code,
    hands: &mut Hands<S>,
    node: u32,
    index: u32,
    word: Over,
    value: &Value,
    gathered: Gathered,
) -> Result<Next, NoMemory>
    requires fit { HandsFit hands.old }
    requires value { IsTrue (fits (ground hands.old) (plain value.now)) }
    ensures meaning { let t = node_at code.now node in
        IfOk result (λ next. Means code.now next hands.new hands.old
        (λ prev s. come_to (set_in (plain value.now)) (span t) s
        (λ set. answers_of_set word prev t index gathered set s))) }
    ensures falls { IfOk result (λ next. next_work code.now next ≡ 0) }
    ensures fits { IfOk result (λ next. NextFits (ground hands.new) next) }
    ensures stands { IfOk result (λ next. Stands hands.new hands.old) }
{
    match set_in(alloc, hands, value) {
        Ok(group) => {
            let turns = Turns {
                which: group.which,
                members: group.members,
                at: 0,
                site: hands.site,
            };
            let turns = BoxedTurns::new(alloc, turns)?;
            let none = BoxedAnswers::empty(alloc)?;
            next_answer(alloc, code, hands, node, index, word, turns, none, gathered)
        }
        Err(ActFail::Error(kind)) => { Ok(Next::Answer(fault(kind, code.span(node), hands.site))) }
        Err(ActFail::NoMemory) => Err(NoMemory),
    }
}

/// The members of the set answer one after another.
pub fn resume_set_who<S: Store>(
    alloc: Global,
    code: &Code,
    hands: &mut Hands<S>,
    node: u32,
    word: Over,
    index: u32,
    exit: Exit,
) -> Result<Next, NoMemory>
    requires fit { HandsFit hands.old }
    requires value { ExitFits (ground hands.old) exit }
    ensures meaning { IfOk result (λ next. Means code.now next hands.new hands.old
        (λ prev s. resumed code.now prev (frame.SetWho node word index) (ended exit s))) }
    ensures falls { IfOk result (λ next.
        next_work code.now next < frame_work code.now (frame.SetWho node word index)) }
    ensures fits { IfOk result (λ next. NextFits (ground hands.new) next) }
    ensures stands { IfOk result (λ next. Stands hands.new hands.old) }
{
    let value = match exit {
        Exit::Gives(value) => value,
        exit => return Ok(Next::Answer(exit)),
    };
    let gathered = Gathered::OfSet { word };
    from_set(alloc, code, hands, node, index, word, &value, gathered)
}

// ---- several extremes of a set

/// The number comes first.
#[inline]
pub fn enter_some<S: Store>(code: &Code, hands: &Hands<S>, node: u32, word: Over, up: bool) -> Next
    ensures meaning { Means code.now result hands.now hands.now
        (λ prev s. some_case word up prev (node_at code.now node) s) }
    ensures falls { next_work code.now result < 6 + weights (parts (node_at code.now node)) }
    ensures fits { NextFits (ground hands.now) result }
{
    go(code, hands, node, 0, Frame::SomeNumber { node, word, up })
}

/// The set comes next, whatever the number is.
#[inline]
pub fn resume_some_number<S: Store>(
    code: &Code,
    hands: &Hands<S>,
    node: u32,
    word: Over,
    up: bool,
    exit: Exit,
) -> Next
    ensures meaning { Means code.now result hands.now hands.now
        (λ prev s. resumed code.now prev (frame.SomeNumber node word up) (ended exit s)) }
    ensures falls { next_work code.now result < frame_work code.now (frame.SomeNumber node word up) }
    ensures fits { ExitFits (ground hands.now) exit → NextFits (ground hands.now) result }
{
    let number = match exit {
        Exit::Gives(value) => HeldValue::new(value),
        exit => return Next::Answer(exit),
    };
    match code.part(node, 1) {
        Some(second) => {
            let frame = Frame::SomeSet {
                node,
                word,
                up,
                number,
            };
            Next::Go(frame, second)
        }
        None => Next::Answer(fault(ErrorKind::WrongType, code.span(node), hands.site)),
    }
}

/// The kinds of both are told now, and the members of the set answer one after another.
pub fn resume_some_set<S: Store>(
    alloc: Global,
    code: &Code,
    hands: &mut Hands<S>,
    node: u32,
    word: Over,
    up: bool,
    number: HeldValue,
    exit: Exit,
) -> Result<Next, NoMemory>
    requires fit { HandsFit hands.old }
    requires value { ExitFits (ground hands.old) exit }
    ensures meaning { IfOk result (λ next. Means code.now next hands.new hands.old
        (λ prev s. resumed code.now prev (frame.SomeSet node word up number) (ended exit s))) }
    ensures falls { IfOk result (λ next.
        next_work code.now next < frame_work code.now (frame.SomeSet node word up number)) }
    ensures fits { IfOk result (λ next. NextFits (ground hands.new) next) }
    ensures stands { IfOk result (λ next. Stands hands.new hands.old) }
{
    let value = match exit {
        Exit::Gives(value) => value,
        exit => return Ok(Next::Answer(exit)),
    };
    let Some(number) = number_of(number.into_value()) else {
        return Ok(Next::Answer(fault(ErrorKind::WrongType, code.span(node), hands.site)));
    };
    let gathered = Gathered::Several { up, number };
    from_set(alloc, code, hands, node, 2, word, &value, gathered)
}

// ---- `of`

/// The agents come first, which are the second part.
#[inline]
pub fn enter_of<S: Store>(code: &Code, hands: &Hands<S>, node: u32) -> Next
    ensures meaning { Means code.now result hands.now hands.now
        (λ prev s. of_case prev (node_at code.now node) s) }
    ensures falls { next_work code.now result < 6 + weights (parts (node_at code.now node)) }
    ensures fits { NextFits (ground hands.now) result }
{
    go(code, hands, node, 1, Frame::OfWho { node })
}

/// One agent answers, or the members of a set in a shuffled order.
pub fn resume_of_who<S: Store>(
    alloc: Global,
    code: &Code,
    hands: &mut Hands<S>,
    node: u32,
    exit: Exit,
) -> Result<Next, NoMemory>
    requires fit { HandsFit hands.old }
    requires value { ExitFits (ground hands.old) exit }
    ensures meaning { IfOk result (λ next. Means code.now next hands.new hands.old
        (λ prev s. resumed code.now prev (frame.OfWho node) (ended exit s))) }
    ensures falls { IfOk result (λ next.
        next_work code.now next < frame_work code.now (frame.OfWho node)) }
    ensures fits { IfOk result (λ next. NextFits (ground hands.new) next) }
    ensures stands { IfOk result (λ next. Stands hands.new hands.old) }
{
    let value = match exit {
        Exit::Gives(value) => value,
        exit => return Ok(Next::Answer(exit)),
    };
    match agents_in(alloc, hands, &value) {
        Ok(group) => {
            let gathered = Gathered::OfAll {
                several: group.several,
            };
            let turns = Turns {
                which: group.which,
                members: group.members,
                at: 0,
                site: hands.site,
            };
            let turns = BoxedTurns::new(alloc, turns)?;
            let none = BoxedAnswers::empty(alloc)?;
            next_answer(alloc, code, hands, node, 0, Over::Of, turns, none, gathered)
        }
        Err(ActFail::Error(kind)) => { Ok(Next::Answer(fault(kind, code.span(node), hands.site))) }
        Err(ActFail::NoMemory) => Err(NoMemory),
    }
}
