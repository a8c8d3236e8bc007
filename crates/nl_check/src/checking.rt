//! The check of a program, and of a lone text.
ghost use Rattle.std.specs.Prelude.{◌≡◌, ◌<◌, [], IfOk, IfErr, OnOk, length};
ghost use Rattle.nl_tree.specs.BodyFault.{Fits};
ghost use Rattle.nl_tree.specs.Checked.{BodiesFit, BodiesAreRight};
ghost use Rattle.nl_tree.specs.Context.{IsRightText};
ghost use Rattle.nl_tree.specs.Names.{IsDeclared};
ghost use Rattle.nl_tree.specs.Slots.{NamesHaveSlots};
ghost use Rattle.nl_tree.specs.Views.{plain};
ghost use Rattle.nl_tree.specs.Vocabulary.{terms};
ghost use Rattle.nl_check.specs.Answers.{IsModelRefusal, IsTextRefusal};
ghost use Rattle.nl_check.specs.inner.Judged.{IsKindsOf, IsJudged, AreJudged, answered};

use crate::body::steps_of;
use crate::calls::reversed;
use crate::faults::{Wrong, first_wrong};
use crate::gather::gather_all;
use crate::kinds::{everyone, observers};
use crate::reach::settle;
use crate::refusal::CheckRefusal;
use crate::rows::rows_of;
use nl_fixed::NoMemory;
use nl_tree::{Declared, Form, KindsList, Program, Tree, Trees};
use nl_words::Kinds;
use std::alloc::Global;

/// The program of these declarations and bodies, one a procedure, or the first fault by the order of the bodies and of their texts.
///
/// Each word of the bodies is looked up twice, and twice more for each block whose first kinds it helps to tell. So k chained `with` take
/// about k * k further look-ups, where k is below the greatest depth of a tree, 200. The kinds that may run each procedure are found in a
/// time that grows with the calls.
pub fn check(alloc: Global, declared: Declared, bodies: Trees) -> Result<Program, CheckRefusal>
    requires names { IsDeclared declared }
    requires many { length bodies ≡ length declared.procedures }
    requires fit { BodiesFit declared bodies }
    ensures declared { IfOk result (λ p. p.declared ≡ declared) }
    ensures bodies { IfOk result (λ p. p.bodies ≡ bodies) }
    ensures right { OnOk result (BodiesAreRight declared bodies) }
    ensures refused { IfErr result (λ e. IsModelRefusal declared bodies e) }
{
    let kinds = kinds_of(alloc, &declared, &bodies)?;
    check_bodies(alloc, &declared, &bodies, kinds.as_slice())?;
    let rows = rows_of(alloc, &declared)?;
    let program = Program::new(alloc, declared, bodies, kinds, rows)?;
    Ok(program)
}

/// Checks a lone text of this form that the observer runs. It is told as body 0. Each name in a text that is right has a slot or is made there
/// by `let`, so a run meets no other name.
pub fn check_text(
    alloc: Global,
    program: &Program,
    tree: &Tree,
    form: Form,
) -> Result<(), CheckRefusal>
    requires { Fits form [] (terms program.now.declared) (plain tree.now) }
    ensures right { OnOk result
        (IsRightText (terms program.now.declared) program.now.bodies (plain tree.now)) }
    ensures slots { OnOk result (NamesHaveSlots program.now.declared [] (plain tree.now)) }
    ensures refused { IfErr result
        (IsTextRefusal program.now.declared program.now.bodies (plain tree.now)) }
{
    let called = kinds_in(alloc, program)?;
    let steps = steps_of(alloc, program.declared(), tree)?;
    let first = observers();
    let found = first_wrong(alloc, steps.as_slice(), first, called.as_slice(), false)?;
    accept(found, 0)
}

// The kinds that may run each body.
pub(crate) fn kinds_of(
    alloc: Global,
    declared: &Declared,
    bodies: &Trees,
) -> Result<KindsList, NoMemory>
    requires names { IsDeclared declared.now }
    requires many { length bodies.now ≡ length declared.now.procedures }
    ensures { IfOk result (λ ks. IsKindsOf declared.now bodies.now ks) }
{
    let all = gather_all(alloc, declared, bodies)?;
    let callers = reversed(alloc, bodies.len(), all.calls.as_slice())?;
    let settled = settle(alloc, all.own, callers.as_slice())?;
    listed(alloc, settled.as_slice())
}

fn listed(alloc: Global, kinds: &[Kinds]) -> Result<KindsList, NoMemory>
    ensures { IfOk result (λ list. list ≡ kinds.now) }
{
    let mut list = KindsList::empty(alloc);
    for entry in kinds {
        list.push(alloc, *entry)?;
    }
    Ok(list)
}

// Refuses the first body that has a fault.
pub(crate) fn check_bodies(
    alloc: Global,
    declared: &Declared,
    bodies: &Trees,
    called: &[Kinds],
) -> Result<(), CheckRefusal>
    requires { IsKindsOf declared.now bodies.now called.now }
    ensures { AreJudged declared.now bodies.now result }
{
    for at in 0..declared.procedures.as_slice().len() {
        check_body(alloc, declared, bodies, called, at)?;
    }
    Ok(())
}

// Refuses the body at a place where it has a fault.
fn check_body(
    alloc: Global,
    declared: &Declared,
    bodies: &Trees,
    called: &[Kinds],
    at: usize,
) -> Result<(), CheckRefusal>
    requires kinds { IsKindsOf declared.now bodies.now called.now }
    requires within { at < length declared.now.procedures }
    ensures { IsJudged declared.now bodies.now at result }
{
    let procedure = &declared.procedures.as_slice()[at];
    let Some(body) = bodies.get(at) else {
        unreachable!()
    };
    let steps = steps_of(alloc, declared, body)?;
    let first = everyone();
    let found = first_wrong(alloc, steps.as_slice(), first, called, procedure.reporter)?;
    accept(found, at + 1)
}

// Nothing where there is no fault, else the refusal of the body of this number.
fn accept(found: Option<Wrong>, body: usize) -> Result<(), CheckRefusal>
    ensures { result ≡ answered body found }
{
    match found {
        Some(wrong) => Err(CheckRefusal::Fault {
            kind: wrong.kind,
            body,
            span: wrong.span,
        }),
        None => Ok(()),
    }
}

// The kinds that may run each procedure of a program.
fn kinds_in(alloc: Global, program: &Program) -> Result<Vec<Kinds>, NoMemory>
    ensures { IfOk result (λ list. list.items ≡ program.now.kinds) }
{
    let mut list = Vec::new(alloc);
    for at in 0..program.declared().procedures.as_slice().len() {
        let Some(kinds) = program.kinds(at) else {
            unreachable!()
        };
        list.push(kinds)?;
    }
    Ok(list)
}
