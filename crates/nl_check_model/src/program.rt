//! The checked program that the tokens of a model are, or its first fault.
ghost use Rattle.std.specs.Prelude.{◌≡◌, ◌≤◌, ◌<◌, IfOk, IfErr, OnOk, length};
ghost use Rattle.nl_tree.specs.Checked.{BodiesAreRight, BodiesFit};
ghost use Rattle.nl_tree.specs.Names.{AreWidgets, IsDeclared};
ghost use Rattle.nl_tree.specs.Views.{plain};
ghost use Rattle.nl_tree.specs.Vocabulary.{terms};
ghost use Rattle.nl_decl.specs.Bodies.{BodiesLieIn};
ghost use Rattle.nl_decl.specs.Outcome.{Declares};
ghost use Rattle.nl_parse_grammar.specs.Texts.{lexemes_of};
ghost use Rattle.nl_check_model.specs.ModelFault.{AreBodies, IsBody};
ghost use Rattle.nl_check_model.specs.Verdict.{ModelGives, TokensSay};
ghost use Rattle.nl_check_model.specs.inner.ProgramParts.{IsBodiesRefusal, IsBodyRefusal, IsCheckRefusal, IsCodeRefusal};

use crate::faults::{ModelKind, ModelRefusal, refusal_at};
use nl_check::{CheckRefusal, check};
use nl_decl::{DeclRefusal, declare};
use nl_fixed::Names;
use nl_parse::{BodyRefusal, read_body};
use nl_scan::Source;
use nl_tree::{Declared, Form, Procedure, Program, Tree, Trees};
use std::alloc::Global;

/// The checked program that code is beside widgets with these names, or its first fault: that of its declarations, then that of its bodies in
/// the order of the text, then that of who may run them.
pub fn read_program(
    alloc: Global,
    source: &Source<'_>,
    widgets: Names,
) -> Result<Program, ModelRefusal>
    requires { AreWidgets widgets }
    ensures { ModelGives (TokensSay widgets source.now.text.now source.now.tokens.now) result }
{
    let declared = read_declarations(alloc, source, widgets)?;
    let bodies = read_bodies(alloc, source, &declared)?;
    checked(alloc, source.text, declared, bodies)
}

// What code declares beside these widgets.
fn read_declarations(
    alloc: Global,
    source: &Source<'_>,
    widgets: Names,
) -> Result<Declared, ModelRefusal>
    requires { AreWidgets widgets }
    ensures declared { IfOk result
        (Declares (lexemes_of source.now.text.now source.now.tokens.now) widgets) }
    ensures accepted { IfOk result IsDeclared }
    ensures bodies { IfOk result (BodiesLieIn (lexemes_of source.now.text.now source.now.tokens.now)) }
    ensures fault { IfErr result (IsCodeRefusal widgets source.now.text.now source.now.tokens.now) }
{
    match declare(alloc, source, widgets) {
        Ok(declared) => Ok(declared),
        Err(DeclRefusal::Fault { kind, place }) => {
            let start = source.start_of(place);
            Err(refusal_at(source.text, ModelKind::Declaration(kind), start))
        }
        Err(DeclRefusal::NoMemory) => Err(ModelRefusal::NoMemory),
    }
}

// The trees of the bodies of all procedures, in the order of the text.
fn read_bodies(
    alloc: Global,
    source: &Source<'_>,
    declared: &Declared,
) -> Result<Trees, ModelRefusal>
    requires declared { IsDeclared declared.now }
    requires bodies { BodiesLieIn (lexemes_of source.now.text.now source.now.tokens.now) declared.now }
    ensures ok { IfOk result
        (AreBodies source.now.text.now source.now.tokens.now (terms declared.now) declared.now.procedures) }
    ensures fault { IfErr result
        (IsBodiesRefusal source.now.text.now source.now.tokens.now
        (terms declared.now) declared.now.procedures) }
{
    let mut bodies = Trees::empty(alloc);
    'procedures: for procedure in declared.procedures.as_slice() {
        let body = read_procedure(alloc, source, declared, procedure)?;
        bodies.push(alloc, body)?;
    }
    Ok(bodies)
}

// The tree of the body of a procedure.
fn read_procedure(
    alloc: Global,
    source: &Source<'_>,
    declared: &Declared,
    procedure: &Procedure,
) -> Result<Tree, ModelRefusal>
    requires declared { IsDeclared declared.now }
    requires from { procedure.now.first ≤ procedure.now.after }
    requires to { procedure.now.after < length source.now.tokens.now }
    ensures ok { IfOk result (λ tree.
        IsBody source.now.text.now source.now.tokens.now (terms declared.now) procedure.now (plain tree)) }
    ensures fault { IfErr result
        (IsBodyRefusal source.now.text.now source.now.tokens.now (terms declared.now) procedure.now) }
{
    let body = &source.tokens[procedure.first..procedure.after];
    let end = source.tokens[procedure.after].span;
    match read_body(
        alloc,
        source.text,
        body,
        end,
        Form::Commands,
        &procedure.inputs,
        declared,
    ) {
        Ok(tree) => Ok(tree),
        Err(BodyRefusal::Fault { kind, place }) => {
            let start = source.start_of(procedure.first + place);
            Err(refusal_at(source.text, ModelKind::Body(kind), start))
        }
        Err(BodyRefusal::NoMemory) => Err(ModelRefusal::NoMemory),
    }
}

// The program of these declarations and bodies.
fn checked(
    alloc: Global,
    code: &[u8],
    declared: Declared,
    bodies: Trees,
) -> Result<Program, ModelRefusal>
    requires names { IsDeclared declared }
    requires many { length bodies ≡ length declared.procedures }
    requires fit { BodiesFit declared bodies }
    ensures declared { IfOk result (λ program. program.declared ≡ declared) }
    ensures bodies { IfOk result (λ program. program.bodies ≡ bodies) }
    ensures right { OnOk result (BodiesAreRight declared bodies) }
    ensures refused { IfErr result (IsCheckRefusal code.now declared bodies) }
{
    match check(alloc, declared, bodies) {
        Ok(program) => Ok(program),
        Err(CheckRefusal::Fault { kind, span, .. }) => {
            Err(refusal_at(code, ModelKind::Check(kind), span.start))
        }
        Err(CheckRefusal::NoMemory) => Err(ModelRefusal::NoMemory),
    }
}
