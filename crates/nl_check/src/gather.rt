//! What all bodies allow by themselves, and which procedures they call.
ghost use Rattle.std.specs.Prelude.{◌≡◌, ◌∷◌, [], ◌++◌, IfOk, OnOk};
ghost use Rattle.nl_tree.specs.Names.{IsDeclared};
ghost use Rattle.nl_tree.specs.Views.{plain};
ghost use Rattle.nl_tree.specs.Vocabulary.{terms};
ghost use Rattle.nl_check.specs.inner.Calls.{own_of, calls_from, runs_in, calls_in, body_steps};

use crate::body::steps_of;
use crate::calls::{Call, put_calls, runs_in};
use nl_fixed::NoMemory;
use nl_tree::{Declared, Tree, Trees};
use nl_words::Kinds;
use std::alloc::Global;

/// Of each body the kinds that its own words allow, and all calls.
#[derive(Drop)]
pub(crate) struct Gathered {
    pub own: Vec<Kinds>,
    pub calls: Vec<Call>,
}

/// What these bodies allow and call.
pub(crate) fn gather_all(
    alloc: Global,
    declared: &Declared,
    bodies: &Trees,
) -> Result<Gathered, NoMemory>
    requires { IsDeclared declared.now }
    ensures own { IfOk result (λ all. all.own.items ≡ own_of (terms declared.now) bodies.now) }
    ensures calls { IfOk result
        (λ all. all.calls.items ≡ calls_from (terms declared.now) 0 bodies.now) }
{
    let mut own = Vec::new(alloc);
    let mut calls = Vec::new(alloc);
    for (at, body) in bodies.as_slice().iter().enumerate() {
        put_body(alloc, declared, body, at, &mut own, &mut calls)?;
    }
    Ok(Gathered { own, calls })
}

// Appends what a body allows and calls; `at` is its place.
fn put_body(
    alloc: Global,
    declared: &Declared,
    body: &Tree,
    at: usize,
    own: &mut Vec<Kinds>,
    calls: &mut Vec<Call>,
) -> Result<(), NoMemory>
    requires { IsDeclared declared.now }
    ensures own { OnOk result
        (own.new.items
        ≡ own.old.items ++ runs_in (body_steps (terms declared.now) (plain body.now)) ∷ []) }
    ensures calls { OnOk result
        (calls.new.items
        ≡ calls.old.items ++ calls_in at (body_steps (terms declared.now) (plain body.now))) }
{
    let steps = steps_of(alloc, declared, body)?;
    own.push(runs_in(steps.as_slice()))?;
    put_calls(steps.as_slice(), at, calls)
}
