//! The first fault of a text, from its steps.
ghost use Rattle.std.specs.Prelude.{◌≡◌, [], ◌∷◌, ◌++◌, IfOk, OnOk};
ghost use Rattle.nl_tree.specs.Context.{is_misplaced};
ghost use Rattle.nl_check.specs.inner.Faults.{called_kinds, allowed, kind_at, placed, wrong_by, left_after, around_after, first_wrong, last_or, front};

use crate::kinds::{everyone, is_none, meet};
use crate::step::{Step, Use};
use nl_fixed::{NoMemory, Span};
use nl_tree::CheckKind;
use nl_words::{Kinds, Leaving};
use std::alloc::Global;

/// A fault and where it stands.
#[derive(Clone, Copy, Debug)]
pub(crate) struct Wrong {
    pub kind: CheckKind,
    pub span: Span,
}

/// The first fault of a text which these kinds run first; `called` has the kinds that may run each procedure, and `reporter` says whether
/// the text is the body of a reporter procedure.
pub(crate) fn first_wrong(
    alloc: Global,
    steps: &[Step],
    first: Kinds,
    called: &[Kinds],
    reporter: bool,
) -> Result<Option<Wrong>, NoMemory>
    ensures { IfOk result (λ found. found ≡ first_wrong called.now reporter [] first steps.now) }
{
    let mut left = first;
    let mut around = Vec::new(alloc);
    for step in steps {
        if let Some(wrong) = take_step(step, called, reporter, &mut left, &mut around)? {
            return Ok(Some(wrong));
        }
    }
    Ok(None)
}

// Takes a step: the fault there, the kinds that are left after it, and those that are left in the texts and blocks around.
fn take_step(
    step: &Step,
    called: &[Kinds],
    reporter: bool,
    left: &mut Kinds,
    around: &mut Vec<Kinds>,
) -> Result<Option<Wrong>, NoMemory>
    ensures found { IfOk result (λ found. found ≡ wrong_by called.now reporter left.old step.now) }
    ensures left { OnOk result
        (left.new ≡ left_after called.now around.old.items left.old step.now) }
    ensures around { OnOk result
        (around.new.items ≡ around_after around.old.items left.old step.now) }
{
    match step {
        Step::Word(word) => {
            let kinds = meet(*left, allowed(called, word));
            *left = kinds;
            Ok(placed(kind_at(reporter, kinds, word), word.span))
        }
        Step::Open(first) => {
            around.push(*left)?;
            *left = *first;
            Ok(None)
        }
        Step::Close => {
            *left = last_or(*left, around);
            Ok(None)
        }
    }
}

// Takes off the last of the kinds, or these where there are none.
fn last_or(left: Kinds, around: &mut Vec<Kinds>) -> Kinds
    ensures is { result ≡ last_or left around.old.items }
    ensures front { around.new.items ≡ front around.old.items }
{
    match around.pop() {
        Some(outer) => outer,
        None => left,
    }
}

fn placed(kind: Option<CheckKind>, span: Span) -> Option<Wrong>
    ensures { result ≡ placed span kind }
{
    match kind {
        Some(kind) => Some(Wrong { kind, span }),
        None => None,
    }
}

// The kinds that the word's row allows, and the procedure that it calls.
fn allowed(called: &[Kinds], word: &Use) -> Kinds
    ensures { result ≡ allowed called.now word.now }
{
    meet(word.runs, called_kinds(called, word.calls))
}

fn called_kinds(called: &[Kinds], place: Option<u32>) -> Kinds
    ensures { result ≡ called_kinds called.now place }
{
    let Some(place) = place else {
        return everyone();
    };
    match called.get(place as usize) {
        Some(kinds) => *kinds,
        None => everyone(),
    }
}

// The fault at a word at which these kinds are left.
fn kind_at(reporter: bool, left: Kinds, word: &Use) -> Option<CheckKind>
    ensures { result ≡ kind_at reporter left word.now }
{
    if is_none(left) {
        return Some(CheckKind::WrongContext);
    }
    if word.unsettable {
        return Some(CheckKind::NotSettable);
    }
    if is_misplaced(reporter, word.inner, word.leaving) {
        return Some(CheckKind::NoReport);
    }
    None
}

// Whether a word with which an agent leaves its procedure may not stand there.
fn is_misplaced(reporter: bool, inner: bool, leaving: Leaving) -> bool
    ensures { result ≡ is_misplaced reporter inner leaving }
{
    match leaving {
        Leaving::Stays => false,
        Leaving::Reports => !reporter || inner,
        Leaving::Stops => reporter && !inner,
    }
}
