//! Turns of agents that run a block of commands.
ghost use Rattle.std.specs.Prelude.{◌≡◌, ◌<◌, ◌+◌, ℕ, IfOk};
ghost use Rattle.nl_fixed.specs.Nouns.{Names};
ghost use Rattle.nl_tree.specs.Tree.{parts};
ghost use Rattle.nl_exec_meaning.specs.Code.{node_at};
ghost use Rattle.nl_exec_meaning.specs.State.{at_site};
ghost use Rattle.nl_exec_meaning.specs.Walks.{ask_case};
ghost use Rattle.nl_exec_meaning.specs.Frames.{resumed, walked_on};
ghost use Rattle.nl_exec_meaning.specs.Ground.{SiteFits};
ghost use Rattle.nl_exec_meaning.specs.Means.{Means, Stands};
ghost use Rattle.nl_exec_meaning.specs.Seen.{ended, ground, state_of};
ghost use Rattle.nl_exec_meaning.specs.Standing.{ExitFits, HandsFit, NextFits, TurnsFit};
ghost use Rattle.nl_exec_meaning.specs.Weight.{weights};
ghost use Rattle.nl_exec_meaning.specs.Work.{frame_work, next_work};
ghost use Rattle.nl_exec_meaning.specs.declared.frames.Frame.TheVariants as frame;

use crate::agents::agents_in;
use crate::living::{first_living, member_at, owner_of};
use nl_agents::Store;
use nl_exec_acts::{ActFail, ErrorKind};
use nl_exec_meaning::children::go;
use nl_exec_meaning::ends::fault;
use nl_exec_meaning::{BoxedTurns, Code, Exit, Frame, Hands, Next, Site, Turns};
use nl_fixed::NoMemory;
use nl_value::Value;
use std::alloc::Global;

// Who runs from here on.
#[inline(always)]
fn run_as<S: Store>(hands: &mut Hands<S>, site: Site)
    requires site { SiteFits (ground hands.old) site }
    requires fit { HandsFit hands.old }
    ensures state { (names : Names) (units : ℕ) →
        state_of names hands.new units ≡ at_site site (state_of names hands.old units) }
    ensures stands { Stands hands.new hands.old }
{
    hands.site = site;
}

/// The next turn costs a unit, and the member runs already; when none is left the word goes on.
pub fn next_turn<S: Store>(
    code: &Code,
    hands: &mut Hands<S>,
    node: u32,
    index: u32,
    mut turns: BoxedTurns,
) -> Next
    requires turns { TurnsFit (ground hands.old) turns }
    requires fit { HandsFit hands.old }
    ensures meaning { Means code.now result hands.new hands.old
        (λ prev s. walked_on prev (node_at code.now node) index turns s) }
    ensures falls { next_work code.now result ≡ 0 }
    ensures fits { NextFits (ground hands.new) result }
    ensures stands { Stands hands.new hands.old }
{
    // What the numbers of patches rest on: the store stands for a world.
    let _stands = hands.stage.store.shape();
    let all = turns.get();
    let members = all.members.as_slice();
    let Some(at) = first_living(&hands.stage.store, all.which, members, all.at) else {
        return Next::Answer(Exit::Gives(Value::Nobody));
    };
    let Some(member) = member_at(members, at) else {
        return Next::Answer(Exit::Gives(Value::Nobody));
    };
    let Some(block) = code.part(node, index) else {
        return Next::Answer(fault(ErrorKind::WrongType, code.span(node), hands.site));
    };
    let site = Site {
        agent: owner_of(all.which, member),
        asker: all.site.agent,
        body: all.site.body,
    };
    turns.go_to(at + 1);
    run_as(hands, site);
    let frame = Frame::Asked { node, index, turns };
    Next::Want(frame, block)
}

/// Who is asked comes first.
#[inline]
pub fn enter_ask<S: Store>(code: &Code, hands: &Hands<S>, node: u32) -> Next
    ensures meaning { Means code.now result hands.now hands.now
        (λ prev s. ask_case prev (node_at code.now node) s) }
    ensures falls { next_work code.now result < 6 + weights (parts (node_at code.now node)) }
    ensures fits { NextFits (ground hands.now) result }
{
    go(code, hands, node, 0, Frame::AskWho { node })
}

/// A set is taken once, and shuffled; one living agent is asked without a draw. Then the first turn comes.
#[inline]
pub fn resume_ask<S: Store>(
    alloc: Global,
    code: &Code,
    hands: &mut Hands<S>,
    node: u32,
    exit: Exit,
) -> Result<Next, NoMemory>
    requires fit { HandsFit hands.old }
    requires value { ExitFits (ground hands.old) exit }
    ensures meaning { IfOk result (λ next. Means code.now next hands.new hands.old
        (λ prev s. resumed code.now prev (frame.AskWho node) (ended exit s))) }
    ensures falls { IfOk result (λ next. next_work code.now next < frame_work code.now (frame.AskWho node)) }
    ensures fits { IfOk result (λ next. NextFits (ground hands.new) next) }
    ensures stands { IfOk result (λ next. Stands hands.new hands.old) }
{
    let value = match exit {
        Exit::Gives(value) => value,
        exit => return Ok(Next::Answer(exit)),
    };
    let group = match agents_in(alloc, hands, &value) {
        Ok(group) => group,
        Err(ActFail::Error(kind)) => {
            return Ok(Next::Answer(fault(kind, code.span(node), hands.site)));
        }
        Err(ActFail::NoMemory) => return Err(NoMemory),
    };
    let turns = Turns {
        which: group.which,
        members: group.members,
        at: 0,
        site: hands.site,
    };
    let turns = BoxedTurns::new(alloc, turns)?;
    Ok(next_turn(code, hands, node, 1, turns))
}

// A turn is over, and who asked runs again until the next one.
#[inline(always)]
fn turn_after<S: Store>(
    code: &Code,
    hands: &mut Hands<S>,
    node: u32,
    index: u32,
    turns: BoxedTurns,
) -> Next
    requires turns { TurnsFit (ground hands.old) turns }
    requires fit { HandsFit hands.old }
    ensures meaning { Means code.now result hands.new hands.old
        (λ prev s. walked_on prev (node_at code.now node) index turns (at_site turns.site s)) }
    ensures falls { next_work code.now result ≡ 0 }
    ensures fits { NextFits (ground hands.new) result }
    ensures stands { Stands hands.new hands.old }
{
    run_as(hands, turns.get().site);
    next_turn(code, hands, node, index, turns)
}

/// A turn is over, and who asked runs again. One that was stopped, or left by an agent that died, goes on with
/// the next one.
#[inline(always)]
pub fn resume_turn<S: Store>(
    code: &Code,
    hands: &mut Hands<S>,
    node: u32,
    index: u32,
    turns: BoxedTurns,
    exit: Exit,
) -> Next
    requires turns { TurnsFit (ground hands.old) turns }
    requires fit { HandsFit hands.old }
    ensures meaning { Means code.now result hands.new hands.old
        (λ prev s. resumed code.now prev (frame.Asked node index turns) (ended exit s)) }
    ensures falls { next_work code.now result < frame_work code.now (frame.Asked node index turns) }
    ensures fits { ExitFits (ground hands.old) exit → NextFits (ground hands.new) result }
    ensures stands { Stands hands.new hands.old }
{
    match exit {
        Exit::Gives(_) => turn_after(code, hands, node, index, turns),
        Exit::Stopped => turn_after(code, hands, node, index, turns),
        Exit::Left => turn_after(code, hands, node, index, turns),
        Exit::Reported(value) => {
            run_as(hands, turns.get().site);
            Next::Answer(Exit::Reported(value))
        }
        exit => Next::Answer(exit),
    }
}
