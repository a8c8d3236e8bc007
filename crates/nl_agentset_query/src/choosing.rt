//! Members of sets, and what is drawn among them.
ghost use Rattle.std.specs.Prelude.{◌≡◌, ◌≤◌, ◌+◌, IfOk, OnErr, IsTrue, IsPermutation, MatchOption, Contains, []};
ghost use Rattle.nl_draw.specs.Stream.{shuffled, chosen};
ghost use Rattle.nl_agents.specs.Members.{members_of, most_reads};
ghost use Rattle.nl_agents.specs.Names.{set_fits};

use crate::walk::Walk;
use nl_agents::{Steps, Store, view};
use nl_draw::Stream;
use nl_fixed::NoMemory;
use nl_value::{AgentSet, Serials};
use std::alloc::Global;
use std::sync::ledger::Ledger;

/// The living members of a set, ascending. A listed set may list agents that have died; they are no members.
pub fn living<S: Store, L: Ledger>(
    alloc: Global,
    set: &AgentSet,
    store: &S,
    steps: &mut Steps<L>,
) -> Result<Serials, NoMemory>
    requires { IsTrue (set_fits (S.world store.now).rest set.now) }
    ensures list { IfOk result (λ members. members ≡ members_of (S.world store.now).rest set.now) }
    ensures reads { steps.new ≤ steps.old + most_reads (S.world store.now).rest set.now }
{
    view::members(alloc, set, store, steps)
}

/// The living members of a set in random order: one shuffle of the ascending list. Refused, nothing is drawn.
pub fn snapshot<S: Store, L: Ledger>(
    alloc: Global,
    set: &AgentSet,
    store: &S,
    stream: &mut Stream,
    steps: &mut Steps<L>,
) -> Result<Walk, NoMemory>
    requires { IsTrue (set_fits (S.world store.now).rest set.now) }
    ensures walk { IfOk result (λ walk. walk ≡ (shuffled (members_of (S.world store.now).rest set.now) stream.old).0) }
    ensures state { IfOk result (λ walk. stream.new ≡ (shuffled (members_of (S.world store.now).rest set.now) stream.old).1) }
    ensures members { IfOk result (λ walk. IsPermutation (members_of (S.world store.now).rest set.now) walk) }
    ensures stays { OnErr result (stream.new ≡ stream.old) }
    ensures reads { steps.new ≤ steps.old + most_reads (S.world store.now).rest set.now }
{
    let members = living(alloc, set, store, steps)?;
    let mut list = members.into_vec();
    stream.shuffle(&mut list);
    Ok(Walk::of_vec(list))
}

/// One of a list by one draw, also where there is only one. An empty list gives none, and nothing is drawn.
pub fn one_of(list: &[u64], stream: &mut Stream) -> Option<u64>
    ensures choice { result ≡ (chosen list.now stream.old).0 }
    ensures state { stream.new ≡ (chosen list.now stream.old).1 }
    ensures member { MatchOption result (list.now ≡ []) (Contains list.now) }
{
    stream.choose(list)
}
