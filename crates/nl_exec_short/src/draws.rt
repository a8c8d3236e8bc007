//! Numbers that may be drawn.
ghost use Rattle.std.specs.Prelude.{◌≡◌, [], ◌∷◌, Ok, IfSome};
ghost use Rattle.nl_value.specs.Plain.{PlainNumber};
ghost use Rattle.nl_tree.specs.Tree.{label};
ghost use Rattle.nl_listops.specs.declared.words.ValueWord.TheVariants as value;
ghost use Rattle.nl_exec_acts.specs.Acts.{value_told};
ghost use Rattle.nl_exec_acts.specs.Stage.{scene, stage_of};
ghost use Rattle.nl_exec_acts.specs.declared.words.Act.TheVariants as act;
ghost use Rattle.nl_exec_meaning.specs.declared.words.Built.TheVariants as built;
ghost use Rattle.nl_exec_meaning.specs.Cases as case;
ghost use Rattle.nl_exec_meaning.specs.Cases.{case_of};
ghost use Rattle.nl_exec_meaning.specs.Code.{node_at};
ghost use Rattle.nl_exec_meaning.specs.Means.{Stands};
ghost use Rattle.nl_exec_meaning.specs.Standing.{HandsFit};
ghost use Rattle.nl_exec_short.specs.Had.{IsDrawn, OnlyDraws};

use crate::numbers::{number, one_part};
use crate::running::may_run;
use nl_agents::{Steps, Store};
use nl_exec_acts::perform::{spots, values};
use nl_exec_acts::{Act, Spot, Stage};
use nl_exec_meaning::ends::number_of;
use nl_exec_meaning::{Built, Code, Hands, Op};
use nl_fixed::Num;
use nl_listops::ValueWord;
use nl_listops::words::Draw;
use nl_value::Value;
use nl_words::Kinds;
use std::alloc::Global;
use std::marker::Brand;
use std::sync::ledger::{Blank, Ledger};

// What a word draws of a number, with a count of reads that nobody looks at.
fn draw_counted<S: Store, L: Ledger>(
    alloc: Global,
    blank: Blank,
    which: Draw,
    below: Num,
    stage: &mut Stage<S>,
) -> Option<Num>
    requires name { blank.name ≡ L.name }
    requires parts { blank.parts ≡ L.parts }
    requires some { blank.parts ≡ 1 }
    ensures drawn { let before = stage_of (scene (S.world stage.old.store) stage.old.ticks stage.old.stream) in
        let after = stage_of (scene (S.world stage.new.store) stage.new.ticks stage.new.stream) in
        IfSome result (λ number. value_told (value.Draws which) (PlainNumber below ∷ []) before
        ≡ Ok (PlainNumber number, after)) }
    ensures world { S.world stage.new.store ≡ S.world stage.old.store }
    ensures ticks { stage.new.ticks ≡ stage.old.ticks }
{
    let mut steps = Steps::<L>::new(blank);
    let inputs = [Value::Number(below)];
    match values(alloc, ValueWord::Draws(which), &inputs, stage, &mut steps) {
        Ok(value) => number_of(value),
        Err(_) => None,
    }
}

// What a word draws below the number that its part gives.
#[inline(never)]
fn drawn_below<S: Store>(
    alloc: Global,
    code: &Code,
    hands: &mut Hands<S>,
    node: u32,
    runs: Kinds,
    breed: Option<u32>,
    which: Draw,
) -> Option<Num>
    requires fit { HandsFit hands.old }
    requires is { case_of code.now.program.declared (label (node_at code.now node))
        ≡ case.Word runs breed (built.Act (act.Value (value.Draws which))) }
    ensures drawn { IfSome result (λ number.
        IsDrawn code.now hands.new hands.old node 6 (PlainNumber number)) }
    ensures draws { OnlyDraws hands.new hands.old }
    ensures stands { Stands hands.new hands.old }
{
    if !may_run(hands, runs) {
        return None;
    }
    let Some(part) = one_part(code, node) else {
        return None;
    };
    let Some(below) = number(code, hands, part) else {
        return None;
    };
    draw_counted::<S, Brand>(alloc, Blank::new(1), which, below, &mut hands.stage)
}

// A random coordinate.
#[inline(never)]
fn drawn_spot<S: Store>(
    code: &Code,
    hands: &mut Hands<S>,
    node: u32,
    runs: Kinds,
    breed: Option<u32>,
    which: Spot,
) -> Option<Num>
    requires fit { HandsFit hands.old }
    requires is { case_of code.now.program.declared (label (node_at code.now node))
        ≡ case.Word runs breed (built.Act (act.Spot which)) }
    ensures drawn { IfSome result (λ number.
        IsDrawn code.now hands.new hands.old node 0 (PlainNumber number)) }
    ensures draws { OnlyDraws hands.new hands.old }
    ensures stands { Stands hands.new hands.old }
{
    if code.count(node) != 0 || !may_run(hands, runs) {
        return None;
    }
    match spots(which, &mut hands.stage) {
        Ok(value) => number_of(value),
        Err(_) => None,
    }
}

/// The number that a node gives, where it is had at once, or drawn: below a number that is had at once, or as a coordinate. Where it isn't
/// had, a draw that was made stays made.
pub fn drawn<S: Store>(alloc: Global, code: &Code, hands: &mut Hands<S>, node: u32) -> Option<Num>
    requires fit { HandsFit hands.old }
    ensures drawn { IfSome result (λ number.
        IsDrawn code.now hands.new hands.old node 6 (PlainNumber number)) }
    ensures draws { OnlyDraws hands.new hands.old }
    ensures stands { Stands hands.new hands.old }
{
    match code.op(node) {
        Op::Word {
            runs,
            breed,
            word: Built::Act(Act::Value(ValueWord::Draws(which))),
        } => drawn_below(alloc, code, hands, node, runs, breed, which),
        Op::Word {
            runs,
            breed,
            word: Built::Act(Act::Spot(which)),
        } => drawn_spot(code, hands, node, runs, breed, which),
        _ => number(code, hands, node),
    }
}
