//! Whose turn is next.
ghost use Rattle.std.specs.Prelude.{◌≡◌, ◌<◌, ◌+◌, ◌^◌, drop, option_map, slice_get};
ghost use Rattle.nl_value.specs.declared.sets.AgentKind.TheVariants as the_kind;
ghost use Rattle.nl_exec_meaning.specs.Walks.{lives, owner_of};
ghost use Rattle.nl_exec_walks.specs.Turning.{first_of};

use nl_agents::{Owner, Store};
use nl_value::AgentKind;

/// Whether an agent of a kind lives; a patch always does.
#[inline]
pub fn lives<S: Store>(store: &S, which: AgentKind, number: u64) -> bool
    ensures { result ≡ lives (S.world store.now).rest which number }
{
    match which {
        AgentKind::Turtle => store.turtle_lives(number),
        AgentKind::Patch => true,
        AgentKind::Link => store.link_lives(number),
    }
}

/// The place of the first member from a place on that lives.
pub fn first_living<S: Store>(
    store: &S,
    which: AgentKind,
    members: &[u64],
    at: usize,
) -> Option<usize>
    ensures { result
        ≡ option_map (λ i. at + i) (first_of (S.world store.now).rest which (drop at members.now)) }
{
    let mut next = at;
    'members: while next < members.len() {
        if lives(store, which, members[next]) {
            return Some(next);
        }
        next += 1;
    }
    None
}

/// The member at a place.
#[inline]
pub fn member_at(members: &[u64], at: usize) -> Option<u64>
    ensures { result ≡ slice_get members.now at }
{
    members.get(at).copied()
}

/// The agent of a kind with this number.
#[inline]
pub fn owner_of(which: AgentKind, number: u64) -> Owner
    requires { which ≡ the_kind.Patch → number < 2 ^ 32 }
    ensures { result ≡ owner_of which number }
{
    match which {
        AgentKind::Turtle => Owner::Turtle(number),
        AgentKind::Patch => Owner::Patch(number as u32),
        AgentKind::Link => Owner::Link(number),
    }
}
