//! The reader of a lone text.
ghost use Rattle.std.specs.Prelude.{◌≡◌, ◌≤◌, [], Ok, IfOk, IfErr, OnOk, length};
ghost use Rattle.nl_tree.specs.Slots.{NamesHaveSlots};
ghost use Rattle.nl_tree.specs.Context.{IsRightText};
ghost use Rattle.nl_tree.specs.Views.{plain};
ghost use Rattle.nl_tree.specs.Vocabulary.{terms};
ghost use Rattle.nl_check_model.specs.LoneText.{IsLoneTree, IsTreeOf, RefusesText};

use crate::lone_faults::{LoneRefusal, of_body, of_check, of_scan, told_at};
use nl_check::{CheckRefusal, check_text};
use nl_fixed::{Names, Span};
use nl_parse::{BodyRefusal, read_body};
use nl_scan::{ScanRefusal, Source, scan};
use nl_tree::{Form, Program, Tree};
use std::alloc::Global;

// The tree that the tokens of a text have.
fn read_tree(
    alloc: Global,
    source: &Source<'_>,
    form: Form,
    program: &Program,
) -> Result<Tree, LoneRefusal>
    ensures tree { IfOk result (λ tree.
        IsTreeOf program.now form source.now.text.now source.now.tokens.now (plain tree)) }
    ensures fault { IfErr result (RefusesText program.now form source.now.text.now) }
{
    // what lends the text tells that it isn't longer than the limit
    let text = source.text();
    let end = Span {
        start: text.len() as u32,
        len: 0,
    };
    let inputs = Names::empty(alloc);
    match read_body(
        alloc,
        source.text,
        source.tokens,
        end,
        form,
        &inputs,
        program.declared(),
    ) {
        Ok(tree) => Ok(tree),
        Err(BodyRefusal::Fault { kind, place }) => {
            let start = source.start_of(place);
            Err(LoneRefusal::Fault(told_at(source.text, of_body(kind), start)))
        }
        Err(BodyRefusal::NoMemory) => Err(LoneRefusal::NoMemory),
    }
}

// Refuses a tree that the observer may not run.
fn check_tree(
    alloc: Global,
    source: &Source<'_>,
    form: Form,
    program: &Program,
    tree: &Tree,
) -> Result<(), LoneRefusal>
    requires { IsTreeOf program.now form source.now.text.now source.now.tokens.now
        (plain tree.now) }
    ensures right { OnOk result
        (IsRightText (terms program.now.declared) program.now.bodies (plain tree.now)) }
    ensures slots { OnOk result (NamesHaveSlots program.now.declared [] (plain tree.now)) }
    ensures fault { IfErr result (RefusesText program.now form source.now.text.now) }
{
    match check_text(alloc, program, tree, form) {
        Ok(()) => Ok(()),
        Err(CheckRefusal::Fault { kind, span, .. }) => {
            let inner = told_at(source.text, of_check(kind), span.start);
            Err(LoneRefusal::Fault(inner))
        }
        Err(CheckRefusal::NoMemory) => Err(LoneRefusal::NoMemory),
    }
}

// The tree of a text by its tokens.
fn read_source(
    alloc: Global,
    source: &Source<'_>,
    form: Form,
    program: &Program,
) -> Result<Tree, LoneRefusal>
    ensures tree { IfOk result (λ tree.
        IsLoneTree program.now form source.now.text.now (plain tree)) }
    ensures slots { IfOk result (λ tree. NamesHaveSlots program.now.declared [] (plain tree)) }
    ensures fault { IfErr result (RefusesText program.now form source.now.text.now) }
{
    let tree = read_tree(alloc, source, form, program)?;
    check_tree(alloc, source, form, program, &tree)?;
    Ok(tree)
}

/// The tree of a lone text of this form, which the observer runs beside a checked program. Its first fault is that of its tokens, where it has
/// tokens that of its grammar, and where it can be read that of who may run it, what it sets, and where it reports and stops.
pub fn read_lone(
    alloc: Global,
    text: &[u8],
    form: Form,
    program: &Program,
) -> Result<Tree, LoneRefusal>
    ensures tree { IfOk result (λ tree. IsLoneTree program.now form text.now (plain tree)) }
    ensures slots { IfOk result (λ tree. NamesHaveSlots program.now.declared [] (plain tree)) }
    ensures fault { IfErr result (RefusesText program.now form text.now) }
{
    match scan(alloc, text) {
        Ok(tokens) => read_source(alloc, &Source::new(text, tokens.as_slice()), form, program),
        Err(ScanRefusal::Fault { kind, place }) => {
            Err(LoneRefusal::Fault(told_at(text, of_scan(kind), place)))
        }
        Err(ScanRefusal::NoMemory) => Err(LoneRefusal::NoMemory),
    }
}
