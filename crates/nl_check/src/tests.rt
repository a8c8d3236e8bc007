//! Faults of small models, whose trees are built by hand, and chains of many procedures.
ghost use Rattle.std.specs.Prelude.{◌≡◌, [], ◌∷◌, ◌++◌, ◌<◌, length, IfOk, OnOk, IfSome};
ghost use Rattle.std.specs.List.Sorted.{IsPermutation};
ghost use Rattle.nl_tree.specs.Names.{IsDeclared};
ghost use Rattle.nl_tree.specs.Views.{plain};
ghost use Rattle.nl_tree.specs.Index.{term_of};
ghost use Rattle.nl_tree.specs.Vocabulary.{counted, procedure_term};
ghost use Rattle.nl_check.specs.inner.Samples.{procedure_named, sample_procedures, model_of, empty_body};

use crate::calls::{put_call, reversed};
use crate::checking::{check, check_bodies, check_text, kinds_of};
use crate::kinds::{everyone, kinds};
use crate::reach::settle;
use crate::refusal::CheckRefusal;
use nl_fixed::{Names, NoMemory, Span, Str};
use nl_tree::{
    Breeds, CheckKind, Declared, Form, Label, NamedWord, NamedWords, Procedure, Procedures,
    Program, Tree, Trees, What, Word,
};
use nl_words::{Kinds, Role, Turns};
use std::alloc::Global;

// Lets go of a thing by one call: a tree that ends inside of a function is walked there, variant by variant.
fn let_go<T: Drop>(_thing: T) {}

fn procedure(alloc: Global, name: &[u8], reporter: bool) -> Result<Procedure, NoMemory>
    ensures { IfOk result (λ p. p ≡ procedure_named name.now reporter) }
{
    Ok(Procedure {
        name: Str::of(alloc, name)?,
        reporter,
        inputs: Names::empty(alloc),
        first: 0,
        after: 0,
    })
}

fn procedure_row(
    alloc: Global,
    name: &[u8],
    reporter: bool,
    place: u32,
) -> Result<NamedWord, NoMemory>
    ensures { IfOk result
        (λ w. term_of w ≡ procedure_term place (procedure_named name.now reporter)) }
{
    let name = Str::of(alloc, name)?;
    let role = if reporter {
        Role::Reporter
    } else {
        Role::Command
    };
    let runs = everyone();
    let gives = kinds(false, false, false, false);
    let word = Word {
        role,
        inputs: &[],
        values: 0,
        many: false,
        turns: Turns::NoTurn,
        runs,
        gives,
        what: What::Procedure(place),
    };
    Ok(NamedWord { name, word })
}

fn push_procedure(
    alloc: Global,
    list: &mut Procedures,
    name: &[u8],
    reporter: bool,
) -> Result<(), NoMemory>
    ensures { OnOk result (list.new ≡ list.old ++ procedure_named name.now reporter ∷ []) }
{
    let procedure = procedure(alloc, name, reporter)?;
    list.push(alloc, procedure)
}

// The procedures `a`, `b` and `c`, and the reporter `r`.
fn procedures(alloc: Global) -> Result<Procedures, NoMemory>
    ensures { IfOk result (λ list. list ≡ sample_procedures) }
{
    let mut list = Procedures::empty(alloc);
    push_procedure(alloc, &mut list, b"a", false)?;
    push_procedure(alloc, &mut list, b"b", false)?;
    push_procedure(alloc, &mut list, b"c", false)?;
    push_procedure(alloc, &mut list, b"r", true)?;
    Ok(list)
}

fn index(alloc: Global) -> Result<NamedWords, NoMemory>
    ensures { IfOk result
        (λ list. IsPermutation (counted procedure_term 0 sample_procedures) list) }
{
    let mut rows = Vec::new(alloc);
    rows.push(procedure_row(alloc, b"a", false, 0)?)?;
    rows.push(procedure_row(alloc, b"b", false, 1)?)?;
    rows.push(procedure_row(alloc, b"c", false, 2)?)?;
    rows.push(procedure_row(alloc, b"r", true, 3)?)?;
    Ok(NamedWords::new(rows))
}

fn model(alloc: Global) -> Result<Declared, NoMemory>
    ensures names { IfOk result (λ d. IsDeclared d) }
    ensures procedures { IfOk result (λ d. d.procedures ≡ sample_procedures) }
{
    let procedures = procedures(alloc)?;
    let index = index(alloc)?;
    Ok(Declared {
        widgets: Names::empty(alloc),
        globals: Names::empty(alloc),
        turtles_own: Names::empty(alloc),
        patches_own: Names::empty(alloc),
        links_own: Names::empty(alloc),
        breeds: Breeds::empty(alloc),
        procedures,
        index,
    })
}

// A body without words.
fn empty(alloc: Global) -> Tree
    ensures { plain result ≡ empty_body }
{
    Tree {
        label: Label::Commands,
        span: Span { start: 0, len: 3 },
        parts: Trees::empty(alloc),
    }
}

fn push_empty(alloc: Global, list: &mut Trees) -> Result<(), NoMemory>
    ensures { OnOk result (list.new ≡ list.old ++ empty_body ∷ []) }
{
    list.push(alloc, empty(alloc))
}

// Bodies of `a`, `b`, `c` and `r` without words.
fn empties(alloc: Global) -> Result<Trees, NoMemory>
    ensures { IfOk result (λ list. list ≡ empty_body ∷ empty_body ∷ empty_body ∷ empty_body ∷ []) }
{
    let mut list = Trees::empty(alloc);
    push_empty(alloc, &mut list)?;
    push_empty(alloc, &mut list)?;
    push_empty(alloc, &mut list)?;
    push_empty(alloc, &mut list)?;
    Ok(list)
}

// The body of `a` with others behind it that have no words.
fn bodies_from(alloc: Global, a: Tree) -> Result<Trees, NoMemory>
    ensures { IfOk result (λ list. length list ≡ 4) }
{
    let mut list = Trees::empty(alloc);
    list.push(alloc, a)?;
    push_empty(alloc, &mut list)?;
    push_empty(alloc, &mut list)?;
    push_empty(alloc, &mut list)?;
    Ok(list)
}

// A node of these parts, at a place.
fn node(label: Label, start: u32, parts: Trees) -> Tree {
    Tree {
        label,
        span: Span { start, len: 1 },
        parts,
    }
}

fn named(alloc: Global, name: &[u8], start: u32, parts: Trees) -> Result<Tree, NoMemory> {
    Ok(node(Label::Named(Str::of(alloc, name)?), start, parts))
}

fn leaf(alloc: Global, name: &[u8], start: u32) -> Result<Tree, NoMemory> {
    named(alloc, name, start, Trees::empty(alloc))
}

fn one(alloc: Global, first: Tree) -> Result<Trees, NoMemory> {
    let mut list = Trees::empty(alloc);
    list.push(alloc, first)?;
    Ok(list)
}

// The first fault of the model with these bodies: its kind, the number of its body, and where it stands.
fn fault(alloc: Global, bodies: Trees) -> Option<(CheckKind, usize, u32)>
    requires { length bodies ≡ 4 }
{
    match judged(alloc, bodies) {
        Err(CheckRefusal::Fault { kind, body, span }) => Some((kind, body, span.start)),
        _ => None,
    }
}

fn judged(alloc: Global, bodies: Trees) -> Result<(), CheckRefusal>
    requires { length bodies ≡ 4 }
{
    let model = model(alloc)?;
    let answer = judged_in(alloc, &model, &bodies);
    let_go(model);
    answer
}

fn judged_in(alloc: Global, model: &Declared, bodies: &Trees) -> Result<(), CheckRefusal>
    requires names { IsDeclared model.now }
    requires many { length bodies.now ≡ length model.now.procedures }
{
    let kinds = kinds_of(alloc, model, bodies)?;
    check_bodies(alloc, model, bodies, kinds.as_slice())
}

// The program of empty bodies.
fn empty_program(alloc: Global) -> Result<Program, CheckRefusal> {
    let model = model(alloc)?;
    let bodies = empties(alloc)?;
    check(alloc, model, bodies)
}

// Whether the program has a procedure `b` and the slots of globals.
fn has_words(program: &Program) -> bool {
    matches!(program.what(b"b"), Some(What::Procedure(1)))
        && program.global(b"behaviorspace-experiment-name") == Some(1)
}

// Whether an empty lone text is right.
fn empty_text_is_right(alloc: Global, program: &Program) -> bool {
    let lone = empty(alloc);
    let answer = check_text(alloc, program, &lone, Form::Commands).is_ok();
    let_go(lone);
    answer
}

// A model of empty bodies is right, and so is an empty lone text.
#[test]
fn empty_model_is_right(rt: HostRuntime) {
    let Ok(program) = empty_program(rt.alloc()) else {
        panic!(rt);
    };
    assert!(rt; has_words(&program));
    assert!(rt; empty_text_is_right(rt.alloc(), &program));
    let_go(program);
}

// The body of `a` that is one word before a leaf, with empty ones behind it.
fn pair_bodies(alloc: Global, word: &[u8], part: &[u8]) -> Result<Trees, NoMemory>
    ensures { IfOk result (λ list. length list ≡ 4) }
{
    let parts = one(alloc, leaf(alloc, part, 14)?)?;
    let pair = named(alloc, word, 10, parts)?;
    bodies_from(alloc, pair)
}

// The first fault of a model whose procedure `a` has such a node, of one word before a leaf, is that word's.
fn pair_fault(
    alloc: Global,
    word: &[u8],
    part: &[u8],
) -> Result<Option<(CheckKind, usize, u32)>, NoMemory> {
    let bodies = pair_bodies(alloc, word, part)?;
    Ok(fault(alloc, bodies))
}

// Each kind of fault is told as itself, at its word.
#[test]
fn each_fault_is_told_at_its_word(rt: HostRuntime) {
    let alloc = rt.alloc();
    let rows: [(&[u8], &[u8], CheckKind, u32); 3] = [
        (b"tick", b"xcor", CheckKind::WrongContext, 14),
        (b"set", b"who", CheckKind::NotSettable, 14),
        (b"report", b"true", CheckKind::NoReport, 10),
    ];
    for (word, part, kind, start) in rows.iter() {
        let Ok(found) = pair_fault(alloc, word, part) else {
            panic!(rt);
        };
        assert!(rt; found == Some((*kind, 1, *start)));
    }
}

fn push_leaf(alloc: Global, parts: &mut Trees, name: &[u8], start: u32) -> Result<(), NoMemory> {
    let leaf = leaf(alloc, name, start)?;
    parts.push(alloc, leaf)
}

// So many statements `home`, and behind them one `report`.
fn statements(alloc: Global, count: u32) -> Result<Tree, NoMemory> {
    let mut parts = Trees::empty(alloc);
    for start in 0..count {
        push_leaf(alloc, &mut parts, b"home", start)?;
    }
    push_leaf(alloc, &mut parts, b"report", count)?;
    Ok(node(Label::Commands, 0, parts))
}

// Bodies of which that of `b` has so many statements, and the others no words.
fn long_bodies(alloc: Global, count: u32) -> Result<Trees, NoMemory>
    ensures { IfOk result (λ list. length list ≡ 4) }
{
    let mut list = Trees::empty(alloc);
    push_empty(alloc, &mut list)?;
    let long = statements(alloc, count)?;
    list.push(alloc, long)?;
    push_empty(alloc, &mut list)?;
    push_empty(alloc, &mut list)?;
    Ok(list)
}

#[test]
fn fault_behind_thousands_of_statements_is_found(rt: HostRuntime) {
    let Ok(bodies) = long_bodies(rt.alloc(), 5000) else {
        panic!(rt);
    };
    assert!(rt; fault(rt.alloc(), bodies) == Some((CheckKind::NoReport, 2, 5000)));
}

// The next procedure in a chain or a ring of so many.
fn next(place: u32, count: u32, ring: bool) -> Option<u32>
    requires { place < count }
    ensures { IfSome result (λ next. next < count) }
{
    if place + 1 < count {
        Some(place + 1)
    } else if ring {
        Some(0)
    } else {
        None
    }
}

// The kinds that may run each of so many procedures, where each calls the next, and the last one the first in a ring. The observer may not
// run the last one.
fn long(alloc: Global, count: u32, ring: bool) -> Result<Vec<Kinds>, NoMemory> {
    let mut own = Vec::new(alloc);
    let mut calls = Vec::new(alloc);
    for place in 0..count {
        own.push(kinds(place + 1 < count, true, true, true))?;
        put_call(next(place, count, ring), place as usize, &mut calls)?;
    }
    let callers = reversed(alloc, count as usize, calls.as_slice())?;
    settle(alloc, own, callers.as_slice())
}

#[test]
fn chain_of_many_procedures_is_settled(rt: HostRuntime) {
    let alloc = rt.alloc();
    for ring in [false, true] {
        let Ok(settled) = long(alloc, 70, ring) else {
            panic!(rt);
        };
        assert!(rt; settled.iter().all(|kinds| !kinds.observer && kinds.turtle));
    }
}
