//! Turns of members that run a block of one expression.
ghost use Rattle.std.specs.Prelude.{◌≡◌, ◌<◌, ◌+◌, ◌∷◌, [], ◌++◌, ℕ, drop, IfOk, IfErr, IsTrue};
ghost use Rattle.std.specs.List.{list_all};
ghost use Rattle.nl_value.specs.Plain.{Plain};
ghost use Rattle.nl_value.specs.Views.{plain};
ghost use Rattle.nl_tree.specs.Tree.{span};
ghost use Rattle.nl_exec_meaning.specs.Code.{Code as Nodes, node_at};
ghost use Rattle.nl_exec_meaning.specs.State.{State, Outcome, at_site};
ghost use Rattle.nl_exec_meaning.specs.Walks.{asked, members_kept, owner_of, replied, reply_to, valued};
ghost use Rattle.nl_exec_meaning.specs.Frames.{gathered_from, resumed};
ghost use Rattle.nl_exec_meaning.specs.Ground.{SiteFits, agent_fits, fits};
ghost use Rattle.nl_exec_meaning.specs.Means.{Means, Stands};
ghost use Rattle.nl_exec_meaning.specs.Seen.{ended, ground, state_of};
ghost use Rattle.nl_exec_meaning.specs.Standing.{AnsweringFits, ExitFits, HandsFit, MembersAscend, MembersFit, NextFits, TurnsFit};
ghost use Rattle.nl_exec_meaning.specs.Work.{frame_work, next_work};
ghost use Rattle.nl_exec_meaning.specs.declared.frames.Frame.TheVariants as frame;
ghost use Rattle.nl_exec_walks.specs.Turns.{value_or_end};

use crate::finishing::finish;
use crate::living::{first_living, owner_of};
use crate::replies::{Reply, reply_to};
use nl_agents::{Owner, Store};
use nl_exec_acts::ErrorKind;
use nl_exec_meaning::ends::fault;
use nl_exec_meaning::{
    Answered, BoxedAnswers, BoxedTurns, Code, Exit, Frame, Gathered, Hands, Next, Over, Site,
};
use nl_fixed::{NoMemory, Span};
use nl_value::{AgentKind, Value};
use std::alloc::Global;

// ---- who runs

// The agent that a member is.
#[inline]
fn agent_of<S: Store>(hands: &Hands<S>, which: AgentKind, member: u64) -> Owner
    requires { MembersFit (ground hands.now) which (member ∷ []) }
    ensures owner { result ≡ owner_of which member }
    ensures fits { IsTrue (agent_fits (ground hands.now) result) }
{
    // What the numbers of patches rest on: the store stands for a world.
    let _stands = hands.stage.store.shape();
    owner_of(which, member)
}

// A member runs, asked by whoever ran before all of them.
#[inline]
fn run_as<S: Store>(hands: &mut Hands<S>, agent: Owner, site: Site)
    requires fit { HandsFit hands.old }
    requires agent { IsTrue (agent_fits (ground hands.old) agent) }
    requires site { SiteFits (ground hands.old) site }
    ensures state { (c : Nodes) (units : ℕ) → state_of c.names hands.new units
        ≡ at_site (record site { agent = agent; asker = site.agent }) (state_of c.names hands.old units) }
    ensures stands { Stands hands.new hands.old }
{
    hands.site = Site {
        agent,
        asker: site.agent,
        body: site.body,
    };
}

// Whoever ran before all of them runs again.
#[inline]
fn back<S: Store>(hands: &mut Hands<S>, site: Site)
    requires fit { HandsFit hands.old }
    requires site { SiteFits (ground hands.old) site }
    ensures state { (c : Nodes) (units : ℕ) →
        state_of c.names hands.new units ≡ at_site site (state_of c.names hands.old units) }
    ensures site { hands.new.site ≡ site }
    ensures stands { Stands hands.new hands.old }
{
    hands.site = site;
}

// ---- the next turn

/// The next turn costs a unit, and the member runs already. When none is left, something is made of all answers.
pub fn next_answer<S: Store>(
    alloc: Global,
    code: &Code,
    hands: &mut Hands<S>,
    node: u32,
    index: u32,
    word: Over,
    mut turns: BoxedTurns,
    made: BoxedAnswers,
    gathered: Gathered,
) -> Result<Next, NoMemory>
    requires fit { HandsFit hands.old }
    requires turns { TurnsFit (ground hands.old) turns }
    requires values { IsTrue (list_all (λ a. fits (ground hands.old) a.value) made) }
    requires members { MembersFit (ground hands.old) turns.which (members_kept made) }
    requires ascend { MembersAscend gathered (members_kept made ++ drop turns.at turns.members) }
    ensures meaning { IfOk result (λ next. Means code.now next hands.new hands.old
        (λ prev s. gathered_from prev (node_at code.now node) index word gathered turns made s)) }
    ensures falls { IfOk result (λ next. next_work code.now next ≡ 0) }
    ensures fits { IfOk result (λ next. NextFits (ground hands.new) next) }
    ensures stands { IfOk result (λ next. Stands hands.new hands.old) }
{
    let all = turns.get();
    let members = all.members.as_slice();
    let Some(at) = first_living(&hands.stage.store, all.which, members, all.at) else {
        let made = made.into_answers();
        let exit = finish(alloc, code, hands, node, all.which, made, gathered)?;
        return Ok(Next::Answer(exit));
    };
    let member = members[at];
    let Some(block) = code.part(node, index) else {
        return Ok(Next::Answer(fault(ErrorKind::WrongType, code.span(node), hands.site)));
    };
    let agent = agent_of(hands, all.which, member);
    run_as(hands, agent, all.site);
    turns.go_to(at + 1);
    let frame = Frame::Answering {
        node,
        index,
        word,
        member,
        turns,
        made,
        gathered,
    };
    Ok(Next::Want(frame, block))
}

// ---- the end of a turn

// The value of a turn, or how all ends. Whoever asked runs again, unless the whole text ends.
#[inline]
fn valued<S: Store>(
    hands: &mut Hands<S>,
    site: Site,
    place: Span,
    exit: Exit,
) -> Result<Value, Exit>
    requires fit { HandsFit hands.old }
    requires site { SiteFits (ground hands.old) site }
    requires value { ExitFits (ground hands.old) exit }
    ensures meaning { (c : Nodes) (units : ℕ) (next : Plain → State → Outcome) →
        valued site place (ended exit (state_of c.names hands.old units)) next
        ≡ value_or_end result (state_of c.names hands.new units) next }
    ensures ok { IfOk result (λ value. IsTrue (fits (ground hands.new) (plain value))) }
    ensures err { IfErr result (λ exit. ExitFits (ground hands.new) exit) }
    ensures stands { Stands hands.new hands.old }
{
    match exit {
        Exit::Gives(value) => {
            back(hands, site);
            Ok(value)
        }
        Exit::Left => {
            back(hands, site);
            Err(fault(ErrorKind::NoAgent, place, site))
        }
        Exit::Stopped => {
            back(hands, site);
            Err(Exit::Stopped)
        }
        Exit::Reported(value) => {
            back(hands, site);
            Err(Exit::Reported(value))
        }
        Exit::Error(kind, at, body) => Err(Exit::Error(kind, at, body)),
    }
}

// What becomes of the answer, and then the next turn.
fn answer_told<S: Store>(
    alloc: Global,
    code: &Code,
    hands: &mut Hands<S>,
    node: u32,
    index: u32,
    word: Over,
    member: u64,
    turns: BoxedTurns,
    mut made: BoxedAnswers,
    gathered: Gathered,
    value: Value,
) -> Result<Next, NoMemory>
    requires fit { HandsFit hands.old }
    requires answering { AnsweringFits (ground hands.old) member turns made }
    requires ascend { MembersAscend gathered (members_kept made ++ member ∷ drop turns.at turns.members) }
    requires value { IsTrue (fits (ground hands.old) (plain value)) }
    ensures meaning { let t = node_at code.now node in
        IfOk result (λ next. Means code.now next hands.new hands.old
        (λ prev s. replied (reply_to word (plain value)) (span t) member (plain value) made s
        (λ more s1. gathered_from prev t index word gathered turns more s1))) }
    ensures falls { IfOk result (λ next. next_work code.now next ≡ 0) }
    ensures fits { IfOk result (λ next. NextFits (ground hands.new) next) }
    ensures stands { IfOk result (λ next. Stands hands.new hands.old) }
{
    match reply_to(word, &value) {
        Reply::Keep => {
            made.push(alloc, Answered { member, value })?;
            next_answer(alloc, code, hands, node, index, word, turns, made, gathered)
        }
        Reply::Pass => next_answer(alloc, code, hands, node, index, word, turns, made, gathered),
        Reply::Decide(truth) => Ok(Next::Answer(Exit::Gives(Value::Truth(truth)))),
        Reply::Refuse => {
            let exit = fault(ErrorKind::WrongType, code.span(node), hands.site);
            Ok(Next::Answer(exit))
        }
    }
}

/// A turn is over.
pub fn resume_answer<S: Store>(
    alloc: Global,
    code: &Code,
    hands: &mut Hands<S>,
    node: u32,
    index: u32,
    word: Over,
    member: u64,
    turns: BoxedTurns,
    made: BoxedAnswers,
    gathered: Gathered,
    exit: Exit,
) -> Result<Next, NoMemory>
    requires fit { HandsFit hands.old }
    requires answering { AnsweringFits (ground hands.old) member turns made }
    requires ascend { MembersAscend gathered (members_kept made ++ member ∷ drop turns.at turns.members) }
    requires value { ExitFits (ground hands.old) exit }
    ensures meaning { let f = frame.Answering node index word member turns made gathered in
        IfOk result (λ next. Means code.now next hands.new hands.old
        (λ prev s. resumed code.now prev f (ended exit s))) }
    ensures falls { let f = frame.Answering node index word member turns made gathered in
        IfOk result (λ next. next_work code.now next < frame_work code.now f) }
    ensures fits { IfOk result (λ next. NextFits (ground hands.new) next) }
    ensures stands { IfOk result (λ next. Stands hands.new hands.old) }
{
    match valued(hands, turns.get().site, code.span(node), exit) {
        Ok(value) => answer_told(
            alloc, code, hands, node, index, word, member, turns, made, gathered, value,
        ),
        Err(exit) => Ok(Next::Answer(exit)),
    }
}
