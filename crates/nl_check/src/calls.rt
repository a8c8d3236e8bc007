//! Which kinds the words of a body's own text allow, and which procedures they call.
ghost use Rattle.std.specs.Prelude.{◌≡◌, ◌∷◌, [], ◌++◌, ◌<◌, ℕ, All, IfOk, OnOk, OnErr, length};
ghost use Rattle.nl_check.specs.inner.Calls.{runs_at, runs_in, callee_at, call_to, calls_in, with_caller, reversed, nobody};

use crate::kinds::{everyone, meet};
use crate::step::Step;
use nl_fixed::NoMemory;
use nl_words::Kinds;
use std::alloc::Global;
use std::marker::Model;

/// A call: who calls, and whom, by the places of the procedures.
#[derive(Clone, Copy, Debug)]
pub(crate) struct Call {
    pub caller: usize,
    pub callee: u32,
}

/// Places of procedures.
#[derive(Drop)]
pub(crate) struct Places {
    list: Vec<usize>,
}

impl Model for Places {
    ghost use Rattle.std.specs.Prelude.{ℕ, List};

    ghost Value = { List ℕ };

    ghost view = { λ places. places.list.items };
}

impl Places {
    /// No places.
    pub(crate) fn empty(alloc: Global) -> Places
        ensures { result ≡ [] }
    {
        Places {
            list: Vec::new(alloc),
        }
    }

    /// The places, in order.
    pub(crate) fn as_slice(&self) -> &[usize]
        ensures { result.now ≡ self.now }
    {
        self.list.as_slice()
    }

    /// Appends a place, or leaves the list as it was.
    pub(crate) fn push(&mut self, place: usize) -> Result<(), NoMemory>
        ensures ok { OnOk result (self.new ≡ self.old ++ place ∷ []) }
        ensures err { OnErr result (self.new ≡ self.old) }
    {
        self.list.push(place)?;
        Ok(())
    }
}

/// The kinds that all words of the text's own site allow by their rows.
pub(crate) fn runs_in(steps: &[Step]) -> Kinds
    ensures { result ≡ runs_in steps.now }
{
    let mut all = everyone();
    for step in steps {
        all = meet(all, runs_at(step));
    }
    all
}

fn runs_at(step: &Step) -> Kinds
    ensures { result ≡ runs_at step.now }
{
    match step {
        Step::Word(word) if !word.inner => word.runs,
        _ => everyone(),
    }
}

/// Appends the calls by the text's own site.
pub(crate) fn put_calls(
    steps: &[Step],
    caller: usize,
    calls: &mut Vec<Call>,
) -> Result<(), NoMemory>
    ensures { OnOk result (calls.new.items ≡ calls.old.items ++ calls_in caller steps.now) }
{
    for step in steps {
        put_call(callee_at(step), caller, calls)?;
    }
    Ok(())
}

fn callee_at(step: &Step) -> Option<u32>
    ensures { result ≡ callee_at step.now }
{
    match step {
        Step::Word(word) if !word.inner => word.calls,
        _ => None,
    }
}

pub(crate) fn put_call(
    callee: Option<u32>,
    caller: usize,
    calls: &mut Vec<Call>,
) -> Result<(), NoMemory>
    ensures { OnOk result (calls.new.items ≡ calls.old.items ++ call_to caller callee) }
{
    if let Some(callee) = callee {
        calls.push(Call { caller, callee })?;
    }
    Ok(())
}

/// Of each of so many procedures the places of those that call it.
pub(crate) fn reversed(alloc: Global, count: usize, calls: &[Call]) -> Result<Vec<Places>, NoMemory>
    requires { All (λ call. call.callee < count) calls.now }
    ensures { IfOk result (λ callers. callers.items ≡ reversed (nobody count) calls.now) }
{
    let mut callers = nobody(alloc, count)?;
    for call in calls {
        put_caller(&mut callers, call)?;
    }
    Ok(callers)
}

fn put_caller(callers: &mut Vec<Places>, call: &Call) -> Result<(), NoMemory>
    requires { call.now.callee < length callers.old.items }
    ensures { OnOk result (callers.new.items ≡ with_caller callers.old.items call.now) }
{
    callers[call.callee as usize].push(call.caller)
}

// So many procedures that nobody calls.
fn nobody(alloc: Global, count: usize) -> Result<Vec<Places>, NoMemory>
    ensures { IfOk result (λ callers. callers.items ≡ nobody count) }
{
    let mut callers = Vec::new(alloc);
    for _ in 0..count {
        callers.push(Places::empty(alloc))?;
    }
    Ok(callers)
}
