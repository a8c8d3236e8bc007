//! Texts that are read beside what a model declares.
ghost use Rattle.std.specs.Prelude.{IfOk, IfSome};
ghost use Rattle.nl_tree.specs.BodyFault.{Fits};
ghost use Rattle.nl_tree.specs.Names.{IsDeclared};
ghost use Rattle.nl_tree.specs.Views.{plain};
ghost use Rattle.nl_tree.specs.Vocabulary.{terms};

use nl_decl::declare;
use nl_fixed::{Names, Span};
use nl_parse::{BodyRefusal, read_body};
use nl_scan::{Source, scan};
use nl_tree::{Declared, Form, Tree};
use std::alloc::Global;

// Where what ends a lone text stands, in tests that don't ask for it.
pub(crate) const NOWHERE: Span = Span { start: 0, len: 0 };

// What a model declares; none where that has a fault.
pub(crate) fn declared_by(alloc: Global, model: &[u8]) -> Option<Declared>
    ensures { IfSome result IsDeclared }
{
    let Ok(tokens) = scan(alloc, model) else {
        return None;
    };
    match declare(
        alloc,
        &Source::new(model, tokens.as_slice()),
        Names::empty(alloc),
    ) {
        Ok(declared) => Some(declared),
        Err(_) => None,
    }
}

// The tree of a text beside these declarations, where these names are known and what ends the text stands at `end`.
pub(crate) fn read(
    alloc: Global,
    declared: &Declared,
    names: &Names,
    form: Form,
    text: &[u8],
    end: Span,
) -> Result<Tree, BodyRefusal>
    requires { IsDeclared declared.now }
    ensures { IfOk result (λ tree. Fits form names.now (terms declared.now) (plain tree)) }
{
    let Ok(tokens) = scan(alloc, text) else {
        return Err(BodyRefusal::NoMemory);
    };
    read_body(alloc, text, tokens.as_slice(), end, form, names, declared)
}

// The tree of a text where nothing is declared.
pub(crate) fn read_bare(
    alloc: Global,
    form: Form,
    text: &[u8],
    end: Span,
) -> Result<Tree, BodyRefusal> {
    let Some(declared) = declared_by(alloc, b"") else {
        return Err(BodyRefusal::NoMemory);
    };
    read(alloc, &declared, &Names::empty(alloc), form, text, end)
}
