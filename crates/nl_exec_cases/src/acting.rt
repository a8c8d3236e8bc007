//! Acts of the agent that runs.
ghost use Rattle.std.specs.Prelude.{◌≡◌, ◌<◌, IsTrue, IfOk};
ghost use Rattle.nl_value.specs.Views.{plain};
ghost use Rattle.nl_tree.specs.Tree.{span};
ghost use Rattle.nl_exec_meaning.specs.Code.{node_at};
ghost use Rattle.nl_exec_meaning.specs.State.{come_to, gives, with_stage};
ghost use Rattle.nl_exec_meaning.specs.Running.{staying};
ghost use Rattle.nl_exec_meaning.specs.Acting.{performed};
ghost use Rattle.nl_exec_meaning.specs.Ground.{all_fit};
ghost use Rattle.nl_exec_meaning.specs.Means.{EndsAs, Stands};
ghost use Rattle.nl_exec_meaning.specs.Seen.{ground};
ghost use Rattle.nl_exec_meaning.specs.Sound.{ActStands};
ghost use Rattle.nl_exec_meaning.specs.Standing.{ExitFits, HandsFit};

use crate::performing::perform;
use nl_agents::{Steps, Store};
use nl_exec_acts::{Act, ActFail};
use nl_exec_meaning::ends::{fault, left};
use nl_exec_meaning::{Code, Exit, Hands};
use nl_fixed::NoMemory;
use nl_value::Items;
use nl_words::Kinds;
use std::alloc::Global;
use std::marker::Brand;
use std::sync::ledger::{Blank, Ledger};

// The act itself, with a count of reads that nobody looks at.
fn acted<S: Store, L: Ledger>(
    alloc: Global,
    blank: Blank,
    code: &Code,
    hands: &mut Hands<S>,
    node: u32,
    act: Act,
    breed: Option<u32>,
    made: &Items,
) -> Result<Exit, NoMemory>
    requires name { blank.name ≡ L.name }
    requires parts { blank.parts ≡ L.parts }
    requires some { 0 < blank.parts }
    requires breed { ActStands (ground hands.old).layout act breed }
    requires fit { HandsFit hands.old }
    requires made { IsTrue (all_fit (ground hands.old) made.now) }
    ensures meaning { IfOk result (λ exit. EndsAs code.now exit hands.new hands.old
        (λ s. come_to (performed act breed s.site.agent s.site.asker made.now s.stage) (span (node_at code.now node)) s
        (λ answer. gives answer.0 (with_stage answer.1 s)))) }
    ensures fits { IfOk result (λ exit. ExitFits (ground hands.new) exit) }
    ensures stands { IfOk result (λ exit. Stands hands.new hands.old) }
{
    let mut steps = Steps::<L>::new(blank);
    let site = hands.site;
    match perform(
        alloc,
        act,
        breed,
        site,
        made.as_slice(),
        &mut hands.stage,
        &mut steps,
    ) {
        Ok(value) => Ok(Exit::Gives(value)),
        Err(ActFail::Error(kind)) => Ok(fault(kind, code.span(node), hands.site)),
        Err(ActFail::NoMemory) => Err(NoMemory),
    }
}

// The same, where nobody counts.
fn act_now<S: Store>(
    alloc: Global,
    code: &Code,
    hands: &mut Hands<S>,
    node: u32,
    act: Act,
    breed: Option<u32>,
    made: &Items,
) -> Result<Exit, NoMemory>
    requires breed { ActStands (ground hands.old).layout act breed }
    requires fit { HandsFit hands.old }
    requires made { IsTrue (all_fit (ground hands.old) made.now) }
    ensures meaning { IfOk result (λ exit. EndsAs code.now exit hands.new hands.old
        (λ s. come_to (performed act breed s.site.agent s.site.asker made.now s.stage) (span (node_at code.now node)) s
        (λ answer. gives answer.0 (with_stage answer.1 s)))) }
    ensures fits { IfOk result (λ exit. ExitFits (ground hands.new) exit) }
    ensures stands { IfOk result (λ exit. Stands hands.new hands.old) }
{
    acted::<S, Brand>(alloc, Blank::new(1), code, hands, node, act, breed, made)
}

/// A dead agent leaves; else the act is done.
#[inline]
pub fn finish_act<S: Store>(
    alloc: Global,
    code: &Code,
    hands: &mut Hands<S>,
    node: u32,
    act: Act,
    breed: Option<u32>,
    runs: Kinds,
    made: Items,
) -> Result<Exit, NoMemory>
    requires breed { ActStands (ground hands.old).layout act breed }
    requires fit { HandsFit hands.old }
    requires made { IsTrue (all_fit (ground hands.old) made) }
    ensures meaning { IfOk result (λ exit. EndsAs code.now exit hands.new hands.old
        (λ s. staying runs s (
        come_to (performed act breed s.site.agent s.site.asker made s.stage) (span (node_at code.now node)) s
        (λ answer. gives answer.0 (with_stage answer.1 s))))) }
    ensures fits { IfOk result (λ exit. ExitFits (ground hands.new) exit) }
    ensures stands { IfOk result (λ exit. Stands hands.new hands.old) }
{
    if let Some(exit) = left(hands, runs) {
        return Ok(exit);
    }
    act_now(alloc, code, hands, node, act, breed, &made)
}
