//! Inputs of words with an arrow block, from left to right.
ghost use Rattle.std.specs.Prelude.{◌≡◌, ◌+◌, ◌<◌, ◌≤◌, ◌^◌, [], ◌∷◌, IfOk, IfSome, IsTrue, MatchOption, drop, length};
ghost use Rattle.nl_tree.specs.Tree.{parts};
ghost use Rattle.nl_exec_meaning.specs.Arrows.{arrow_case};
ghost use Rattle.nl_exec_meaning.specs.Code.{node_at};
ghost use Rattle.nl_exec_meaning.specs.Frames.{resumed};
ghost use Rattle.nl_exec_meaning.specs.Ground.{all_fit};
ghost use Rattle.nl_exec_meaning.specs.Means.{Means};
ghost use Rattle.nl_exec_meaning.specs.Rounds.{first_input, inputs_end, inputs_from, inputs_in};
ghost use Rattle.nl_exec_meaning.specs.Seen.{ended, ground};
ghost use Rattle.nl_exec_meaning.specs.Standing.{ExitFits, NextFits};
ghost use Rattle.nl_exec_meaning.specs.Weight.{weights};
ghost use Rattle.nl_exec_meaning.specs.Work.{frame_work, next_work};
ghost use Rattle.nl_exec_meaning.specs.declared.frames.Frame.TheVariants as frame;

use crate::beginning::begin;
use nl_agents::Store;
use nl_exec_meaning::{Arrow, Code, Exit, Frame, Hands, Next};
use nl_fixed::NoMemory;
use nl_value::Items;
use std::alloc::Global;

// The index of the first input.
fn first_input(word: Arrow) -> u32
    ensures { result ≡ first_input word }
{
    match word {
        Arrow::ForEach | Arrow::NValues => 0,
        Arrow::Map | Arrow::Filter | Arrow::Reduce | Arrow::SortBy => 1,
    }
}

// The index behind the last input, of so many parts.
fn inputs_end(word: Arrow, many: u32) -> u32
    ensures { result ≡ inputs_end word many }
{
    match word {
        Arrow::ForEach => many.saturating_sub(1),
        Arrow::Map => many,
        Arrow::Filter | Arrow::Reduce | Arrow::SortBy => 2,
        Arrow::NValues => 1,
    }
}

// The input at an index, if the part there is one.
#[inline]
fn input_at(code: &Code, node: u32, word: Arrow, at: u32) -> Option<u32>
    ensures inputs { let ts = parts (node_at code.now node) in MatchOption result
        (drop at (inputs_in word ts) ≡ [])
        (λ i. drop at (inputs_in word ts) ≡ node_at code.now i ∷ drop (at + 1) (inputs_in word ts)) }
    ensures parts { let ts = parts (node_at code.now node) in
        IfSome result (λ i. drop at ts ≡ node_at code.now i ∷ drop (at + 1) ts) }
    ensures within { IfSome result (λ i. at + 1 < 2 ^ 32) }
{
    if at < inputs_end(word, code.count(node)) {
        code.part(node, at)
    } else {
        None
    }
}

// The inputs from an index on, and what the word makes of all of them.
fn next_input<S: Store>(
    alloc: Global,
    code: &Code,
    hands: &Hands<S>,
    node: u32,
    word: Arrow,
    at: u32,
    made: Items,
) -> Result<Next, NoMemory>
    requires made { IsTrue (all_fit (ground hands.now) made) }
    ensures meaning { IfOk result (λ next. Means code.now next hands.now hands.now
        (λ prev s. inputs_from word prev (node_at code.now node) at made s)) }
    ensures falls { IfOk result (λ next.
        next_work code.now next ≤ weights (drop at (parts (node_at code.now node)))) }
    ensures fits { IfOk result (λ next. NextFits (ground hands.now) next) }
{
    match input_at(code, node, word, at) {
        Some(child) => {
            let frame = Frame::ArrowInput {
                node,
                word,
                at: at + 1,
                made,
            };
            Ok(Next::Go(frame, child))
        }
        None => begin(alloc, code, hands, node, word, made),
    }
}

/// The first input comes.
pub fn enter_arrow<S: Store>(
    alloc: Global,
    code: &Code,
    hands: &Hands<S>,
    node: u32,
    word: Arrow,
) -> Result<Next, NoMemory>
    ensures meaning { IfOk result (λ next. Means code.now next hands.now hands.now
        (λ prev s. arrow_case word prev (node_at code.now node) s)) }
    ensures falls { IfOk result (λ next.
        next_work code.now next < 6 + weights (parts (node_at code.now node))) }
    ensures fits { IfOk result (λ next. NextFits (ground hands.now) next) }
{
    next_input(
        alloc,
        code,
        hands,
        node,
        word,
        first_input(word),
        Items::empty(alloc),
    )
}

/// An input has its value.
pub fn resume_input<S: Store>(
    alloc: Global,
    code: &Code,
    hands: &Hands<S>,
    node: u32,
    word: Arrow,
    at: u32,
    mut made: Items,
    exit: Exit,
) -> Result<Next, NoMemory>
    requires made { IsTrue (all_fit (ground hands.now) made) }
    requires value { ExitFits (ground hands.now) exit }
    ensures meaning { IfOk result (λ next. Means code.now next hands.now hands.now
        (λ prev s. resumed code.now prev (frame.ArrowInput node word at made) (ended exit s))) }
    ensures falls { IfOk result (λ next.
        next_work code.now next < frame_work code.now (frame.ArrowInput node word at made)) }
    ensures fits { IfOk result (λ next. NextFits (ground hands.now) next) }
{
    match exit {
        Exit::Gives(value) => {
            made.push(alloc, value)?;
            next_input(alloc, code, hands, node, word, at, made)
        }
        exit => Ok(Next::Answer(exit)),
    }
}
