//! A program of a small model, and what it answers.
ghost use Rattle.std.specs.Prelude.{◌≡◌, [], ◌∷◌, IfOk};
ghost use Rattle.nl_words.specs.Kinds.{everyone};
ghost use Rattle.nl_words.specs.Rows.{rows};
ghost use Rattle.nl_tree.specs.inner.Samples.{declaring, going, going_body, base_whats};
ghost use Rattle.nl_tree.specs.Vocabulary.{counted, procedure_term, whats};

use crate::declared::{
    Breed, Breeds, Declared, KindsList, NamedWhat, NamedWhats, Procedure, Procedures, What,
};
use crate::index::{NamedWord, NamedWords, Word};
use crate::program::Program;
use crate::tree::{Label, Tree, Trees};
use nl_fixed::{Names, NoMemory, Span, Str};
use nl_words::{Kinds, ROWS, Role, Turns, base_words};
use std::alloc::Global;

// Lets go of a thing by one call: a program that ends inside of a function is walked there, list by list.
fn let_go<T: Drop>(_thing: T) {}

fn declared(alloc: Global, procedures: Procedures, index: NamedWords) -> Declared
    requires { index ≡ counted procedure_term 0 procedures }
    ensures { result ≡ declaring procedures }
{
    Declared {
        widgets: Names::empty(alloc),
        globals: Names::empty(alloc),
        turtles_own: Names::empty(alloc),
        patches_own: Names::empty(alloc),
        links_own: Names::empty(alloc),
        breeds: Breeds::empty(alloc),
        procedures,
        index,
    }
}

// An index of no words.
fn no_word(alloc: Global) -> NamedWords
    ensures { result ≡ [] }
{
    let words = NamedWords::new(Vec::new(alloc));
    words
}

// The index of one word, `go`.
fn one_word(alloc: Global) -> Result<NamedWords, NoMemory>
    ensures { IfOk result (λ list. list ≡ counted procedure_term 0 (going ∷ [])) }
{
    let name = Str::of(alloc, b"go")?;
    let mut list = Vec::new(alloc);
    list.push(NamedWord {
        name,
        word: Word {
            role: Role::Command,
            inputs: &[],
            values: 0,
            many: false,
            turns: Turns::NoTurn,
            runs: Kinds {
                observer: true,
                turtle: true,
                patch: true,
                link: true,
            },
            gives: Kinds {
                observer: false,
                turtle: false,
                patch: false,
                link: false,
            },
            what: What::Procedure(0),
        },
    })?;
    let words = NamedWords::new(list);
    Ok(words)
}

fn one_procedure(alloc: Global) -> Result<Procedures, NoMemory>
    ensures { IfOk result (λ list. list ≡ going ∷ []) }
{
    let mut list = Procedures::empty(alloc);
    let procedure = Procedure {
        name: Str::of(alloc, b"go")?,
        reporter: false,
        inputs: Names::empty(alloc),
        first: 2,
        after: 2,
    };
    list.push(alloc, procedure)?;
    Ok(list)
}

fn one_body(alloc: Global) -> Result<Trees, NoMemory>
    ensures { IfOk result (λ list. list ≡ going_body ∷ []) }
{
    let mut list = Trees::empty(alloc);
    let body = Tree {
        label: Label::Commands,
        span: Span { start: 6, len: 3 },
        parts: Trees::empty(alloc),
    };
    list.push(alloc, body)?;
    Ok(list)
}

fn all_kinds(alloc: Global) -> Result<KindsList, NoMemory>
    ensures { IfOk result (λ list. list ≡ everyone ∷ []) }
{
    let mut list = KindsList::empty(alloc);
    let kinds = Kinds {
        observer: true,
        turtle: true,
        patch: true,
        link: true,
    };
    list.push(alloc, kinds)?;
    Ok(list)
}

fn base_rows(alloc: Global) -> Result<NamedWhats, NoMemory>
    ensures { IfOk result (λ list. list ≡ base_whats rows) }
{
    let words = base_words();
    let mut list = NamedWhats::empty(alloc);
    for place in 0..ROWS {
        let Some(entry) = words.row(place as u16) else {
            return Err(NoMemory);
        };
        let name = Str::of(alloc, entry.name.as_bytes())?;
        list.push(
            alloc,
            NamedWhat {
                name,
                what: What::Base(entry.code),
            },
        )?;
    }
    Ok(list)
}

fn all_rows(alloc: Global) -> Result<NamedWhats, NoMemory>
    ensures { IfOk result (λ list. list ≡ whats (declaring (going ∷ []))) }
{
    let mut list = base_rows(alloc)?;
    let name = Str::of(alloc, b"go")?;
    list.push(
        alloc,
        NamedWhat {
            name,
            what: What::Procedure(0),
        },
    )?;
    Ok(list)
}

fn bare_program(alloc: Global) -> Result<Program, NoMemory>
    ensures { IfOk result (λ p. p.declared ≡ declaring []) }
{
    let declared = declared(alloc, Procedures::empty(alloc), no_word(alloc));
    let rows = base_rows(alloc)?;
    let program = Program::new(
        alloc,
        declared,
        Trees::empty(alloc),
        KindsList::empty(alloc),
        rows,
    )?;
    Ok(program)
}

fn going_program(alloc: Global) -> Result<Program, NoMemory>
    ensures { IfOk result (λ p. p.declared ≡ declaring (going ∷ [])) }
{
    let index = one_word(alloc)?;
    let procedures = one_procedure(alloc)?;
    let bodies = one_body(alloc)?;
    let kinds = all_kinds(alloc)?;
    let rows = all_rows(alloc)?;
    let declared = declared(alloc, procedures, index);
    let program = Program::new(alloc, declared, bodies, kinds, rows)?;
    Ok(program)
}

fn foxes(alloc: Global) -> Result<Breed, NoMemory> {
    let plural = Str::of(alloc, b"foxes")?;
    let singular = Str::of(alloc, b"fox")?;
    Ok(Breed {
        plural,
        singular,
        link: false,
        directed: false,
        own: Names::empty(alloc),
    })
}

// The one breed of the list is called so.
fn is_only(breeds: &Breeds, singular: &[u8]) -> bool {
    match breeds.as_slice().get(0) {
        Some(breed) => { breeds.as_slice().len() == 1 && breed.singular.as_bytes() == singular }
        None => false,
    }
}

fn is_appended(alloc: Global) -> Result<bool, NoMemory> {
    let mut breeds = Breeds::empty(alloc);
    let breed = foxes(alloc)?;
    breeds.push(alloc, breed)?;
    let is_there = is_only(&breeds, b"fox");
    let_go(breeds);
    Ok(is_there)
}

// A breed is appended, with its names.
#[test]
fn breed_is_appended(rt: HostRuntime) {
    assert!(rt; matches!(is_appended(rt.alloc()), Ok(true)));
}

fn is_base(program: &Program, name: &[u8], code: u16) -> bool {
    match program.what(name) {
        Some(What::Base(found)) => found == code,
        _ => false,
    }
}

fn has_built_in_words(program: &Program) -> bool {
    is_base(program, b"!=", 0)
        && is_base(program, b"ask", 16)
        && is_base(program, b"yellow", 340)
        && program.what(b"as").is_none()
        && program.what(b"go").is_none()
}

fn has_the_globals_of_a_run(program: &Program) -> bool {
    program.global(b"behaviorspace-run-number") == Some(0)
        && program.global(b"behaviorspace-experiment-name") == Some(1)
        && program.global(b"color").is_none()
        && program.global(b"go").is_none()
}

fn has_no_body(program: &Program) -> bool {
    program.body(0).is_none() && program.kinds(0).is_none()
}

// What a program that declares nothing answers: its words, its globals, its bodies.
fn bare_answers(alloc: Global) -> Result<(bool, bool, bool), NoMemory> {
    let program = bare_program(alloc)?;
    let words = has_built_in_words(&program);
    let globals = has_the_globals_of_a_run(&program);
    let bodies = has_no_body(&program);
    let_go(program);
    Ok((words, globals, bodies))
}

// A model that declares nothing has its built-in words, and no bodies.
#[test]
fn bare_model_has_the_built_in_words(rt: HostRuntime) {
    let Ok((words, globals, bodies)) = bare_answers(rt.alloc()) else {
        panic!(rt);
    };
    assert!(rt; words);
    assert!(rt; globals);
    assert!(rt; bodies);
}

fn has_the_procedure(program: &Program) -> bool {
    matches!(program.what(b"go"), Some(What::Procedure(0)))
        && is_base(program, b"color", 51)
        && program.declared().procedures.as_slice().len() == 1
}

fn is_without_parts(body: &Tree) -> bool {
    matches!(body.label(), Label::Commands)
        && body.span() == Span { start: 6, len: 3 }
        && body.len() == 0
        && body.part(0).is_none()
}

fn has_the_one_body(program: &Program) -> bool {
    match program.body(0) {
        Some(body) => is_without_parts(body) && program.body(1).is_none(),
        None => false,
    }
}

fn is_run_by_all(program: &Program) -> bool {
    match program.kinds(0) {
        Some(kinds) => kinds.observer && kinds.turtle && kinds.patch && kinds.link,
        None => false,
    }
}

// What a program of one procedure answers: its words, its body, and who may run it.
fn going_answers(alloc: Global) -> Result<(bool, bool, bool), NoMemory> {
    let program = going_program(alloc)?;
    let words = has_the_procedure(&program);
    let body = has_the_one_body(&program);
    let kinds = is_run_by_all(&program);
    let_go(program);
    Ok((words, body, kinds))
}

// `to go end` has one body without parts, which all kinds may run.
#[test]
fn procedure_has_its_body_and_kinds(rt: HostRuntime) {
    let Ok((words, body, kinds)) = going_answers(rt.alloc()) else {
        panic!(rt);
    };
    assert!(rt; words);
    assert!(rt; body);
    assert!(rt; kinds);
}
