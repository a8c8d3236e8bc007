//! What a model declares, from its tokens.
ghost use Rattle.std.specs.Prelude.{◌≡◌, ◌<◌, ◌^◌, IfOk, IfErr};
ghost use Rattle.std.specs.List.Sorted.{IsPermutation};
ghost use Rattle.nl_tree.specs.Names.{AreWidgets, IsDeclared};
ghost use Rattle.nl_tree.specs.Vocabulary.{own_terms};
ghost use Rattle.nl_decl.specs.declared.refusal.DeclKind.TheVariants as DeclKind;
ghost use Rattle.nl_decl.specs.declared.refusal.DeclRefusal.TheVariants as DeclRefusal;
ghost use Rattle.nl_decl.specs.Bodies.{BodiesLieIn};
ghost use Rattle.nl_decl_outline.specs.Lengths.{total_length};
ghost use Rattle.nl_decl.specs.Gathered.{Gathers};
ghost use Rattle.nl_decl.specs.Outcome.{DeclareFew, Declares, IsRefusedFor};
ghost use Rattle.nl_parse_grammar.specs.Texts.{lexemes_of};

use crate::claims::claims_of;
use crate::gathering::{breeds_of, globals_of, owned_by, procedures_of};
use crate::index_of;
use crate::ledger::first_duplicate;
use crate::refusal::{DeclKind, DeclRefusal};
use nl_decl_outline::{Declaration, Owner, outline};
use nl_fixed::{Names, NoMemory};
use nl_scan::Source;
use nl_tree::{Declared, NamedWords};
use std::alloc::Global;

/// What a text declares, beside widgets with these names, or the first fault.
///
/// Where the tokens are no declarations, the fault is `BadDeclaration` at the first token with which they begin none, or at their number
/// where the text ends within a declaration. Else it is `Duplicate` at the first name that may not stand beside a built-in word, a widget or
/// an earlier name; a word that a breed makes stands at the name that it is made of. Which names may share is this project's own choice: a
/// widget may be declared in `globals` too, a variable may belong to several breeds of turtles, to several breeds of links, and to turtles
/// and links at once, and an input may be called as one of another procedure.
pub fn declare(alloc: Global, source: &Source<'_>, widgets: Names) -> Result<Declared, DeclRefusal>
    requires { AreWidgets widgets }
    ensures declared { IfOk result
        (Declares (lexemes_of source.now.text.now source.now.tokens.now) widgets) }
    ensures accepted { IfOk result IsDeclared }
    ensures bodies { IfOk result (BodiesLieIn (lexemes_of source.now.text.now source.now.tokens.now)) }
    ensures fault { IfErr result
        (IsRefusedFor (lexemes_of source.now.text.now source.now.tokens.now) widgets) }
{
    let declarations = outline(alloc, source.text, source.tokens)?;
    let claims = claims_of(alloc, declarations.as_slice())?;
    if let Some(place) = first_duplicate(alloc, &widgets, claims.as_slice())? {
        return Err(duplicate(place));
    }
    let declared = gather(alloc, widgets, declarations.as_slice())?;
    Ok(declared)
}

fn duplicate(place: usize) -> DeclRefusal
    ensures { result ≡ DeclRefusal.Fault DeclKind.Duplicate place }
{
    DeclRefusal::Fault {
        kind: DeclKind::Duplicate,
        place,
    }
}

// What the declarations declare in all, with its index.
fn gather(alloc: Global, widgets: Names, declarations: &[Declaration]) -> Result<Declared, NoMemory>
    requires within { total_length declarations.now < 2 ^ 62 }
    requires few { DeclareFew widgets declarations.now }
    ensures gathered { IfOk result (Gathers widgets declarations.now) }
    ensures indexed { IfOk result (λ d. IsPermutation (own_terms d) d.index) }
{
    let mut declared = Declared {
        widgets,
        globals: globals_of(alloc, declarations)?,
        turtles_own: owned_by(alloc, Owner::AllTurtles, declarations)?,
        patches_own: owned_by(alloc, Owner::AllPatches, declarations)?,
        links_own: owned_by(alloc, Owner::AllLinks, declarations)?,
        breeds: breeds_of(alloc, declarations)?,
        procedures: procedures_of(alloc, declarations)?,
        index: NamedWords::new(Vec::new(alloc)),
    };
    let index = index_of(alloc, &declared)?;
    declared.index = index;
    Ok(declared)
}
