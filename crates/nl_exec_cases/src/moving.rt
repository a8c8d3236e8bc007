//! Steps of turtles, deaths, clears, and words of a variable of patches.
ghost use Rattle.std.specs.Prelude.{◌≡◌, ◌≢◌, ◌+◌, ◌<◌, ◌≤◌, IfOk};
ghost use Rattle.nl_fixed.specs.Numbers.{one};
ghost use Rattle.nl_tree.specs.Tree.{parts, span};
ghost use Rattle.nl_listops.specs.Answers.{signed_as};
ghost use Rattle.nl_agents_layout.specs.Nouns.{Slot};
ghost use Rattle.nl_agents.specs.Changes.{OwnerLives};
ghost use Rattle.nl_motion.specs.declared.faults.MoveFault.TheVariants as the_fault;
ghost use Rattle.nl_exec_acts.specs.Fails.{error_of_motion};
ghost use Rattle.nl_exec_acts.specs.declared.fail.ErrorKind.TheVariants.{WrongType};
ghost use Rattle.nl_exec_meaning.specs.Code.{node_at};
ghost use Rattle.nl_exec_meaning.specs.State.{Outcome, State, found, goes_on};
ghost use Rattle.nl_exec_meaning.specs.Steps.{steps, walk_case};
ghost use Rattle.nl_exec_meaning.specs.Meaning.{clear_all, clear_globals, climb_case, die_case, diffuse_case, with_slot};
ghost use Rattle.nl_exec_meaning.specs.Frames.{resumed, way_of};
ghost use Rattle.nl_exec_meaning.specs.Means.{EndsAs, Means, Stands};
ghost use Rattle.nl_exec_meaning.specs.Seen.{ended, ground};
ghost use Rattle.nl_exec_meaning.specs.Standing.{ExitFits, HandsFit, NextFits};
ghost use Rattle.nl_exec_meaning.specs.Weight.{weights};
ghost use Rattle.nl_exec_meaning.specs.Work.{frame_work, next_work};
ghost use Rattle.nl_exec_meaning.specs.declared.exits.Exit.TheVariants.{Error};
ghost use Rattle.nl_exec_meaning.specs.declared.frames.Frame.TheVariants as frame;

use nl_agents::{Owner, Store};
use nl_exec_acts::ErrorKind;
use nl_exec_meaning::children::go;
use nl_exec_meaning::ends::{fault, left, number_of};
use nl_exec_meaning::{Code, Exit, Frame, Hands, Next, Op, Site};
use nl_fixed::{NoMemory, Num, Span};
use nl_motion::{MoveFault, climb, diffuse, step};
use nl_value::Value;
use nl_words::Kinds;
use std::alloc::Global;

// ---- `forward` and `back`

/// The distance comes first.
#[inline]
pub fn enter_walk<S: Store>(
    code: &Code,
    hands: &Hands<S>,
    node: u32,
    runs: Kinds,
    back: bool,
) -> Next
    ensures meaning { Means code.now result hands.now hands.now
        (λ prev s. walk_case (way_of back) runs prev (node_at code.now node) s) }
    ensures falls { next_work code.now result < 6 + weights (parts (node_at code.now node)) }
    ensures fits { NextFits (ground hands.now) result }
{
    go(code, hands, node, 0, Frame::Distance { node, runs, back })
}

// So many whole steps in the direction of the number, and then the rest.
#[inline]
fn next_step<S: Store>(
    code: &Code,
    hands: &Hands<S>,
    node: u32,
    turtle: u64,
    left: u64,
    rest: u64,
    way: Num,
) -> Next
    requires few { rest < one }
    ensures meaning { Means code.now result hands.now hands.now
        (λ prev s. steps left turtle rest way (span (node_at code.now node)) s) }
    ensures falls { next_work code.now result ≡ 0 }
    ensures fits { NextFits (ground hands.now) result }
{
    if left > 0 {
        return Next::Tick(Frame::Step {
            node,
            turtle,
            by: signed_as(way, 1_000_000),
            left: left - 1,
            rest,
            way,
        });
    }
    if rest > 0 {
        return Next::Tick(Frame::Step {
            node,
            turtle,
            by: signed_as(way, rest),
            left: 0,
            rest: 0,
            way,
        });
    }
    Next::Answer(Exit::Gives(Value::Nobody))
}

// A count of millionths with the sign of a number.
fn signed_as(number: Num, count: u64) -> Num
    requires { count ≤ one }
    ensures { result ≡ signed_as number count }
{
    let count = count as i64;
    let signed = if number.millionths() < 0 {
        -count
    } else {
        count
    };
    Num::new(signed).unwrap()
}

/// The turtle begins to go, so far as the number says.
#[inline]
pub fn resume_distance<S: Store>(
    code: &Code,
    hands: &Hands<S>,
    node: u32,
    runs: Kinds,
    back: bool,
    exit: Exit,
) -> Next
    ensures meaning { Means code.now result hands.now hands.now
        (λ prev s. resumed code.now prev (frame.Distance node runs back) (ended exit s)) }
    ensures falls { next_work code.now result < frame_work code.now (frame.Distance node runs back) }
    ensures fits { ExitFits (ground hands.now) exit → NextFits (ground hands.now) result }
{
    let value = match exit {
        Exit::Gives(value) => value,
        exit => return Next::Answer(exit),
    };
    if let Some(exit) = left(hands, runs) {
        return Next::Answer(exit);
    }
    let Some(number) = number_of(value) else {
        return Next::Answer(fault(ErrorKind::WrongType, code.span(node), hands.site));
    };
    let way = if back { number.negate() } else { number };
    let Owner::Turtle(turtle) = hands.site.agent else {
        return Next::Answer(fault(ErrorKind::WrongContext, code.span(node), hands.site));
    };
    let size = way.millionths().unsigned_abs();
    next_step(
        code,
        hands,
        node,
        turtle,
        size / 1_000_000,
        size % 1_000_000,
        way,
    )
}

/// A step is made, and ends the walk where the world forbids it.
#[inline]
pub fn resume_step<S: Store>(
    code: &Code,
    hands: &mut Hands<S>,
    node: u32,
    turtle: u64,
    by: Num,
    left: u64,
    rest: u64,
    way: Num,
    exit: Exit,
) -> Next
    requires few { rest < one }
    requires fit { HandsFit hands.old }
    ensures meaning { Means code.now result hands.new hands.old
        (λ prev s. resumed code.now prev (frame.Step node turtle by left rest way) (ended exit s)) }
    ensures falls { next_work code.now result < frame_work code.now (frame.Step node turtle by left rest way) }
    ensures fits { ExitFits (ground hands.old) exit → NextFits (ground hands.new) result }
    ensures stands { Stands hands.new hands.old }
{
    let Exit::Gives(_) = exit else {
        return Next::Answer(exit);
    };
    if !hands.stage.store.turtle_lives(turtle) {
        return Next::Answer(Exit::Gives(Value::Nobody));
    }
    match step(&mut hands.stage.store, turtle, by) {
        Ok(true) => next_step(code, hands, node, turtle, left, rest, way),
        Ok(false) => Next::Answer(Exit::Gives(Value::Nobody)),
        Err(_) => Next::Answer(fault(ErrorKind::Overflow, code.span(node), hands.site)),
    }
}

// ---- deaths and clears

/// The agent that runs dies: a turtle with its links.
#[inline]
pub fn enter_die<S: Store>(code: &Code, hands: &mut Hands<S>) -> Exit
    requires lives { OwnerLives hands.old.site.agent (S.world hands.old.stage.store) }
    requires fit { HandsFit hands.old }
    ensures meaning { EndsAs code.now result hands.new hands.old die_case }
    ensures fits { ExitFits (ground hands.new) result }
    ensures stands { Stands hands.new hands.old }
{
    match hands.site.agent {
        Owner::Turtle(turtle) => hands.stage.store.kill(turtle),
        Owner::Link(link) => hands.stage.store.cut(link),
        Owner::Observer | Owner::Patch(_) => {}
    }
    Exit::Left
}

/// The global variables that the code declares are 0.
#[inline]
pub fn enter_clear_globals<S: Store>(code: &Code, hands: &mut Hands<S>) -> Exit
    requires fit { HandsFit hands.old }
    ensures meaning { EndsAs code.now result hands.new hands.old (λ s. goes_on (clear_globals s)) }
    ensures fits { ExitFits (ground hands.new) result }
    ensures stands { Stands hands.new hands.old }
{
    hands.stage.store.clear_globals();
    Exit::Gives(Value::Nobody)
}

/// Turtles and links, patches and global variables are cleared, and the clock is off.
#[inline]
pub fn enter_clear_all<S: Store>(code: &Code, hands: &mut Hands<S>) -> Exit
    requires fit { HandsFit hands.old }
    ensures meaning { EndsAs code.now result hands.new hands.old (λ s. goes_on (clear_all s)) }
    ensures fits { ExitFits (ground hands.new) result }
    ensures stands { Stands hands.new hands.old }
{
    hands.stage.store.clear_turtles();
    hands.stage.store.clear_links();
    hands.stage.store.clear_patches();
    hands.stage.ticks = None;
    hands.stage.store.clear_globals();
    Exit::Gives(Value::Nobody)
}

// ---- words of a variable of patches

// The slot of the variable that the first part names.
#[inline]
fn slot_of(code: &Code, node: u32) -> Option<u32>
    ensures { (s : State) (next : Slot → Outcome) →
        with_slot code.now.program (node_at code.now node) s next
        ≡ found result WrongType (span (node_at code.now node)) s next }
{
    match code.op(code.part(node, 0)?) {
        Op::Owned { slot, .. } => Some(slot),
        _ => None,
    }
}

/// The turtle goes to the neighbor with the greatest value, or with the least, if it passes that of its own patch.
#[inline]
pub fn enter_climb<S: Store>(
    code: &Code,
    hands: &mut Hands<S>,
    node: u32,
    up: bool,
    four: bool,
) -> Exit
    requires lives { OwnerLives hands.old.site.agent (S.world hands.old.stage.store) }
    requires fit { HandsFit hands.old }
    ensures meaning { EndsAs code.now result hands.new hands.old
        (λ s. climb_case up four code.now.program (node_at code.now node) s) }
    ensures fits { ExitFits (ground hands.new) result }
    ensures stands { Stands hands.new hands.old }
{
    let Some(slot) = slot_of(code, node) else {
        return fault(ErrorKind::WrongType, code.span(node), hands.site);
    };
    let Owner::Turtle(turtle) = hands.site.agent else {
        return fault(ErrorKind::WrongContext, code.span(node), hands.site);
    };
    let stage = &mut hands.stage;
    climb(&mut stage.store, &mut stage.stream, turtle, slot, up, four);
    Exit::Gives(Value::Nobody)
}

/// The share comes first.
#[inline]
pub fn enter_diffuse<S: Store>(
    code: &Code,
    hands: &Hands<S>,
    node: u32,
    runs: Kinds,
    four: bool,
) -> Next
    ensures meaning { Means code.now result hands.now hands.now
        (λ prev s. diffuse_case four code.now.program runs prev (node_at code.now node) s) }
    ensures falls { next_work code.now result < 6 + weights (parts (node_at code.now node)) }
    ensures fits { NextFits (ground hands.now) result }
{
    let Some(slot) = slot_of(code, node) else {
        return Next::Answer(fault(ErrorKind::WrongType, code.span(node), hands.site));
    };
    let frame = Frame::Share {
        node,
        runs,
        slot,
        four,
    };
    go(code, hands, node, 1, frame)
}

/// Each patch gives the share of its value away to its neighbors.
#[inline]
pub fn resume_share<S: Store>(
    alloc: Global,
    code: &Code,
    hands: &mut Hands<S>,
    node: u32,
    runs: Kinds,
    slot: u32,
    four: bool,
    exit: Exit,
) -> Result<Next, NoMemory>
    requires fit { HandsFit hands.old }
    ensures meaning { IfOk result (λ next. Means code.now next hands.new hands.old
        (λ prev s. resumed code.now prev (frame.Share node runs slot four) (ended exit s))) }
    ensures falls { IfOk result (λ next.
        next_work code.now next < frame_work code.now (frame.Share node runs slot four)) }
    ensures fits { ExitFits (ground hands.old) exit → IfOk result (λ next. NextFits (ground hands.new) next) }
    ensures stands { IfOk result (λ next. Stands hands.new hands.old) }
{
    let value = match exit {
        Exit::Gives(value) => value,
        exit => return Ok(Next::Answer(exit)),
    };
    if let Some(exit) = left(hands, runs) {
        return Ok(Next::Answer(exit));
    }
    let Some(share) = number_of(value) else {
        return Ok(Next::Answer(fault(ErrorKind::WrongType, code.span(node), hands.site)));
    };
    match diffuse(alloc, &mut hands.stage.store, slot, share, four) {
        Ok(()) => Ok(Next::Answer(Exit::Gives(Value::Nobody))),
        Err(why) => {
            let exit = refused(why, code.span(node), hands.site)?;
            Ok(Next::Answer(exit))
        }
    }
}

// The error of a text for a refusal of motion, unless memory is wanted.
fn refused(why: MoveFault, place: Span, site: Site) -> Result<Exit, NoMemory>
    ensures error { IfOk result (λ exit. exit ≡ Error (error_of_motion why) place site.body) }
    ensures reason { IfOk result (λ exit. why ≢ the_fault.NoMemory) }
{
    let kind = match why {
        MoveFault::OutOfWorld => ErrorKind::OutOfWorld,
        MoveFault::Overflow => ErrorKind::Overflow,
        MoveFault::WrongType => ErrorKind::WrongType,
        MoveFault::Domain => ErrorKind::Domain,
        MoveFault::NoMemory => return Err(NoMemory),
    };
    Ok(fault(kind, place, site))
}
