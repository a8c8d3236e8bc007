//! `let` and `set`.
ghost use Rattle.std.specs.Prelude.{◌≡◌, ◌+◌, ◌<◌, ◌*◌, pos, IsTrue, IfOk, IfSome, not, option_map};
ghost use Rattle.std.specs.Int.{int_rem_euclid};
ghost use Rattle.std.specs.Option.{unwrap_or};
ghost use Rattle.nl_fixed.specs.Numbers.{one};
ghost use Rattle.nl_fixed.specs.Sines.{degrees};
ghost use Rattle.nl_agents_layout.specs.Layouts.{is_turtle_breed};
ghost use Rattle.nl_exec_acts.specs.Acts.{point_inside};
ghost use Rattle.nl_exec_meaning.specs.State.{rest_of};
ghost use Rattle.nl_value.specs.Views.{plain};
ghost use Rattle.nl_tree.specs.Tree.{label, parts, span};
ghost use Rattle.nl_agents.specs.Changes.{TurtleLives};
ghost use Rattle.nl_exec_meaning.specs.Cases.{case_of};
ghost use Rattle.nl_exec_meaning.specs.Code.{IsOneToOne, name_of, node_at};
ghost use Rattle.nl_exec_meaning.specs.Meaning.{let_case, set_case};
ghost use Rattle.nl_exec_meaning.specs.Variables.{assign, kept_as, set_local, set_global, set_owned, set_apart, set_of_turtle, breed_in, moved_to_point, own_place};
ghost use Rattle.nl_exec_meaning.specs.Frames.{resumed};
ghost use Rattle.nl_exec_meaning.specs.Ground.{Ground, fits};
ghost use Rattle.nl_exec_meaning.specs.Means.{EndsAs, Means, Stands};
ghost use Rattle.nl_exec_meaning.specs.Seen.{ended, ground};
ghost use Rattle.nl_exec_meaning.specs.Sound.{IsSound};
ghost use Rattle.nl_exec_meaning.specs.Standing.{ExitFits, HandsFit, NextFits};
ghost use Rattle.nl_exec_meaning.specs.Weight.{weights};
ghost use Rattle.nl_exec_meaning.specs.Work.{frame_work, next_work};
ghost use Rattle.nl_exec_meaning.specs.declared.frames.Frame.TheVariants as frame;

use crate::variables::{global, owner_of};
use nl_agents::{Owner, Store};
use nl_agents_layout::{Rule, rule_of};
use nl_exec_acts::ErrorKind;
use nl_exec_meaning::children::go;
use nl_exec_meaning::ends::{barred, fault, number_of};
use nl_exec_meaning::{Apart, Code, Exit, Frame, Hands, Local, Next, Op};
use nl_fixed::{NoMemory, Num, Span};
use nl_motion::place as place_turtle;
use nl_value::{AgentSet, Value};
use nl_words::Kinds;
use std::alloc::Global;

// ---- `let`

/// The value comes first.
#[inline(always)]
pub fn enter_let<S: Store>(code: &Code, hands: &Hands<S>, node: u32) -> Next
    ensures meaning { Means code.now result hands.now hands.now
        (λ prev s. let_case code.now.program prev (node_at code.now node) s) }
    ensures falls { next_work code.now result < 6 + weights (parts (node_at code.now node)) }
    ensures fits { NextFits (ground hands.now) result }
{
    let Some(name) = code.part(node, 0) else {
        return Next::Answer(fault(ErrorKind::WrongType, code.span(node), hands.site));
    };
    match code.op(name) {
        Op::Local(id) => go(code, hands, node, 1, Frame::LetValue { node, id }),
        _ => Next::Answer(fault(ErrorKind::WrongType, code.span(node), hands.site)),
    }
}

/// A local is made.
#[inline(always)]
#[tactic(auto, using(nl_exec_meaning::proofs::Newest::held_push, nl_exec_meaning::proofs::Grounds::pass_push))]
pub fn resume_let<S: Store>(
    alloc: Global,
    code: &Code,
    hands: &mut Hands<S>,
    node: u32,
    id: u32,
    exit: Exit,
) -> Result<Next, NoMemory>
    requires fit { HandsFit hands.old }
    requires value { ExitFits (ground hands.old) exit }
    ensures meaning { IfOk result (λ next. Means code.now next hands.new hands.old
        (λ prev s. resumed code.now prev (frame.LetValue node id) (ended exit s))) }
    ensures falls { IfOk result (λ next. next_work code.now next < frame_work code.now (frame.LetValue node id)) }
    ensures fits { IfOk result (λ next. NextFits (ground hands.new) next) }
    ensures stands { Stands hands.new hands.old }
{
    match exit {
        Exit::Gives(value) => {
            hands.locals.push(alloc, Local { id, value })?;
            Ok(Next::Answer(Exit::Gives(Value::Nobody)))
        }
        exit => Ok(Next::Answer(exit)),
    }
}

// ---- `set`

/// The value comes first.
#[inline(always)]
pub fn enter_set<S: Store>(code: &Code, hands: &Hands<S>, node: u32) -> Next
    ensures meaning { Means code.now result hands.now hands.now
        (λ prev s. set_case code.now.program prev (node_at code.now node) s) }
    ensures falls { next_work code.now result < 6 + weights (parts (node_at code.now node)) }
    ensures fits { NextFits (ground hands.now) result }
{
    match code.part(node, 0) {
        Some(variable) => go(code, hands, node, 1, Frame::SetValue { node, variable }),
        None => Next::Answer(fault(ErrorKind::WrongType, code.span(node), hands.site)),
    }
}

// The newest local whose name has this number holds the value.
#[inline]
fn set_local<S: Store>(
    code: &Code,
    hands: &mut Hands<S>,
    id: u32,
    place: Span,
    value: Value,
) -> Exit
    requires apart { IsOneToOne code.now.names }
    requires fit { HandsFit hands.old }
    requires value { IsTrue (fits (ground hands.old) (plain value)) }
    ensures meaning { EndsAs code.now result hands.new hands.old
        (λ s. set_local (name_of code.now.names id) place (plain value) s) }
    ensures fits { ExitFits (ground hands.new) result }
    ensures stands { Stands hands.new hands.old }
{
    match hands.locals.find(id) {
        Some(at) => {
            hands.locals.replace(at, Local { id, value });
            Exit::Gives(Value::Nobody)
        }
        None => fault(ErrorKind::WrongType, place, hands.site),
    }
}

#[inline]
fn set_global<S: Store>(
    code: &Code,
    hands: &mut Hands<S>,
    slot: u32,
    place: Span,
    value: Value,
) -> Exit
    requires fit { HandsFit hands.old }
    requires value { IsTrue (fits (ground hands.old) (plain value)) }
    ensures meaning { EndsAs code.now result hands.new hands.old
        (λ s. set_global slot place (plain value) s) }
    ensures fits { ExitFits (ground hands.new) result }
    ensures stands { Stands hands.new hands.old }
{
    let Some(_) = global(hands, slot) else {
        return fault(ErrorKind::WrongType, place, hands.site);
    };
    match hands.stage.store.set_var(Owner::Observer, slot, value) {
        Ok(_) => Exit::Gives(Value::Nobody),
        Err(_) => fault(ErrorKind::WrongType, place, hands.site),
    }
}

// What a variable keeps of a value, where it may hold it.
#[inline]
fn kept_as(rule: Rule, value: Value) -> Option<Value>
    ensures value { option_map plain result ≡ kept_as rule (plain value) }
    ensures fits { (g : Ground) → IsTrue (fits g (plain value)) → IfSome result (λ kept. IsTrue (fits g (plain kept))) }
{
    match (rule, value) {
        (Rule::Color, Value::Number(number)) => Some(Value::Number(color_kept(number))),
        (Rule::Heading, Value::Number(number)) => Some(Value::Number(heading_kept(number))),
        (Rule::Number, Value::Number(number)) => Some(Value::Number(number)),
        (Rule::Truth, Value::Truth(truth)) => Some(Value::Truth(truth)),
        (Rule::Words, Value::Words(words)) => Some(Value::Words(words)),
        (Rule::Words, Value::Blank) => Some(Value::Blank),
        (Rule::Anything, value) => Some(value),
        _ => None,
    }
}

// The count of millionths less whole 140s, which is from 0 up to below 140.
fn color_kept(number: Num) -> Num
    ensures { result ≡ int_rem_euclid number (pos (140 * one)) }
{
    Num::new(number.millionths().rem_euclid(140_000_000)).unwrap()
}

// The angle less whole turns.
fn heading_kept(angle: Num) -> Num
    ensures { result ≡ int_rem_euclid angle (degrees (pos 360)) }
{
    Num::new(angle.millionths().rem_euclid(360_000_000)).unwrap()
}

#[inline]
fn set_owned<S: Store>(
    code: &Code,
    hands: &mut Hands<S>,
    runs: Kinds,
    slot: u32,
    variable: Span,
    place: Span,
    value: Value,
) -> Exit
    requires agents { IsTrue (not runs.observer) }
    requires fit { HandsFit hands.old }
    requires value { IsTrue (fits (ground hands.old) (plain value)) }
    ensures meaning { EndsAs code.now result hands.new hands.old
        (λ s. set_owned runs slot variable place (plain value) s) }
    ensures fits { ExitFits (ground hands.new) result }
    ensures stands { Stands hands.new hands.old }
{
    if let Some(exit) = barred(hands, runs, variable) {
        return exit;
    }
    let owner = owner_of(hands, slot);
    if hands.stage.store.var(owner, slot).is_none() {
        return fault(ErrorKind::NoVariable, variable, hands.site);
    }
    let Some(kept) = kept_as(rule_of(slot), value) else {
        return fault(ErrorKind::WrongType, place, hands.site);
    };
    match hands.stage.store.set_var(owner, slot, kept) {
        Ok(_) => Exit::Gives(Value::Nobody),
        Err(_) => fault(ErrorKind::NoVariable, variable, hands.site),
    }
}

// ---- variables that are kept apart

// The breed of the set of all turtles, or of all of a breed.
fn breed_in<S: Store>(hands: &Hands<S>, value: &Value) -> Option<u32>
    ensures breed { result ≡ breed_in (S.world hands.now.stage.store).rest (plain value.now) }
    ensures stands { IfSome result (λ breed. IsTrue (is_turtle_breed (S.world hands.now.stage.store).rest.layout breed)) }
{
    let Value::Set(set) = value else {
        return None;
    };
    match &**set {
        AgentSet::Turtles => Some(0),
        AgentSet::Breed(breed) if hands.stage.layout.is_turtle_breed(*breed) => Some(*breed),
        _ => None,
    }
}

// A turtle's place along an axis: the other coordinate stays.
#[inline]
fn set_place<S: Store>(
    code: &Code,
    hands: &mut Hands<S>,
    turtle: u64,
    x: Option<Num>,
    y: Option<Num>,
    place: Span,
) -> Exit
    requires lives { TurtleLives turtle (S.world hands.old.stage.store) }
    requires fit { HandsFit hands.old }
    ensures meaning { EndsAs code.now result hands.new hands.old
        (λ s. let at = own_place s turtle in
        moved_to_point turtle place s (point_inside (rest_of s) (unwrap_or x at.x) (unwrap_or y at.y))) }
    ensures fits { ExitFits (ground hands.new) result }
    ensures stands { Stands hands.new hands.old }
{
    let at = hands.stage.store.at(turtle);
    let x = x.unwrap_or(at.x);
    let y = y.unwrap_or(at.y);
    match place_turtle(&mut hands.stage.store, turtle, x, y) {
        Ok(()) => Exit::Gives(Value::Nobody),
        Err(_) => fault(ErrorKind::OutOfWorld, place, hands.site),
    }
}

#[inline]
fn set_of_turtle<S: Store>(
    code: &Code,
    hands: &mut Hands<S>,
    which: Apart,
    turtle: u64,
    place: Span,
    value: Value,
) -> Exit
    requires lives { TurtleLives turtle (S.world hands.old.stage.store) }
    requires fit { HandsFit hands.old }
    ensures meaning { EndsAs code.now result hands.new hands.old
        (λ s. set_of_turtle which turtle place (plain value) s) }
    ensures fits { ExitFits (ground hands.new) result }
    ensures stands { Stands hands.new hands.old }
{
    match which {
        Apart::Xcor => match number_of(value) {
            Some(x) => set_place(code, hands, turtle, Some(x), None, place),
            None => fault(ErrorKind::WrongType, place, hands.site),
        },
        Apart::Ycor => match number_of(value) {
            Some(y) => set_place(code, hands, turtle, None, Some(y), place),
            None => fault(ErrorKind::WrongType, place, hands.site),
        },
        Apart::Breed => match breed_in(hands, &value) {
            Some(breed) => {
                hands.stage.store.rebreed(turtle, breed);
                Exit::Gives(Value::Nobody)
            }
            None => fault(ErrorKind::WrongType, place, hands.site),
        },
        _ => fault(ErrorKind::WrongType, place, hands.site),
    }
}

#[inline]
fn set_apart<S: Store>(
    code: &Code,
    hands: &mut Hands<S>,
    runs: Kinds,
    which: Apart,
    variable: Span,
    place: Span,
    value: Value,
) -> Exit
    requires agents { IsTrue (not runs.observer) }
    requires fit { HandsFit hands.old }
    ensures meaning { EndsAs code.now result hands.new hands.old
        (λ s. set_apart runs which variable place (plain value) s) }
    ensures fits { ExitFits (ground hands.new) result }
    ensures stands { Stands hands.new hands.old }
{
    if let Some(exit) = barred(hands, runs, variable) {
        return exit;
    }
    match hands.site.agent {
        Owner::Turtle(turtle) => set_of_turtle(code, hands, which, turtle, place, value),
        Owner::Link(_) if which == Apart::Breed => fault(ErrorKind::LinkFault, place, hands.site),
        _ => fault(ErrorKind::WrongType, place, hands.site),
    }
}

// The variable at a node becomes the value.
#[inline]
fn assign<S: Store>(
    code: &Code,
    hands: &mut Hands<S>,
    node: u32,
    variable: u32,
    value: Value,
) -> Exit
    requires sound { IsSound code.now.program (ground hands.old).layout }
    requires fit { HandsFit hands.old }
    requires value { IsTrue (fits (ground hands.old) (plain value)) }
    ensures meaning { EndsAs code.now result hands.new hands.old
        (λ s. assign (case_of code.now.program.declared (label (node_at code.now variable)))
        (span (node_at code.now variable)) (span (node_at code.now node)) (plain value) s) }
    ensures fits { ExitFits (ground hands.new) result }
    ensures stands { Stands hands.new hands.old }
{
    let place = code.span(node);
    match code.op(variable) {
        Op::Local(id) => set_local(code, hands, id, place, value),
        Op::Global(slot) => set_global(code, hands, slot, place, value),
        Op::Owned { runs, slot } => {
            let at = code.span(variable);
            set_owned(code, hands, runs, slot, at, place, value)
        }
        Op::Aside { runs, which } => {
            let at = code.span(variable);
            set_apart(code, hands, runs, which, at, place, value)
        }
        _ => fault(ErrorKind::WrongType, place, hands.site),
    }
}

/// The variable is set.
#[inline(always)]
pub fn resume_set<S: Store>(
    code: &Code,
    hands: &mut Hands<S>,
    node: u32,
    variable: u32,
    exit: Exit,
) -> Next
    requires sound { IsSound code.now.program (ground hands.old).layout }
    requires fit { HandsFit hands.old }
    requires value { ExitFits (ground hands.old) exit }
    ensures meaning { Means code.now result hands.new hands.old
        (λ prev s. resumed code.now prev (frame.SetValue node variable) (ended exit s)) }
    ensures falls { next_work code.now result < frame_work code.now (frame.SetValue node variable) }
    ensures fits { NextFits (ground hands.new) result }
    ensures stands { Stands hands.new hands.old }
{
    match exit {
        Exit::Gives(value) => Next::Answer(assign(code, hands, node, variable, value)),
        exit => Next::Answer(exit),
    }
}
