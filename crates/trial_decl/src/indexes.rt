//! The rows of small models, by tables that were worked out apart from the program.
ghost use Rattle.std.specs.Prelude.{◌+◌, ◌<◌, ◌^◌, length};
ghost use Rattle.nl_tree.specs.Names.{breeds_names, procedures_names};
ghost use Rattle.nl_decl.specs.Rooms.{AreFew};

use Input::{MaybeCommands, Value};
use nl_decl::index::index_of;
use nl_fixed::{Names, NoMemory, Str};
use nl_tree::{Breed, Breeds, Declared, NamedWords, Procedure, Procedures, What, Word};
use nl_words::{Input, Kinds, Role, codes};
use std::alloc::Global;
use std::process::Abort;
use std::test::Fail;

// Which kind of breed.
#[derive(Clone, Copy)]
enum Sort {
    Turtles,
    Undirected,
    Directed,
}

/// Lets go of a thing by one call: what ends inside of a function is walked there, once on each way out.
fn let_go<T: Drop>(_thing: T) {}

fn push_name(alloc: Global, list: &mut Names, name: &[u8]) -> Result<(), NoMemory> {
    let name = Str::of(alloc, name)?;
    list.push(alloc, name)
}

fn names(alloc: Global, texts: &[&str]) -> Result<Names, NoMemory> {
    let mut list = Names::empty(alloc);
    for text in texts {
        push_name(alloc, &mut list, text.as_bytes())?;
    }
    Ok(list)
}

// A breed of these names.
fn breed_of(sort: Sort, plural: Str, singular: Str, own: Names) -> Breed {
    Breed {
        plural,
        singular,
        link: !matches!(sort, Sort::Turtles),
        directed: matches!(sort, Sort::Directed),
        own,
    }
}

fn breed(
    alloc: Global,
    sort: Sort,
    plural: &str,
    singular: &str,
    own: &[&str],
) -> Result<Breed, NoMemory> {
    let plural = Str::of(alloc, plural.as_bytes())?;
    let singular = Str::of(alloc, singular.as_bytes())?;
    let own = names(alloc, own)?;
    Ok(breed_of(sort, plural, singular, own))
}

fn push_breed(
    alloc: Global,
    breeds: &mut Breeds,
    sort: Sort,
    plural: &str,
    singular: &str,
    own: &[&str],
) -> Result<(), NoMemory> {
    let made = breed(alloc, sort, plural, singular, own)?;
    breeds.push(alloc, made)
}

fn push_procedure(
    alloc: Global,
    procedures: &mut Procedures,
    name: &str,
    reporter: bool,
    inputs: &[&str],
) -> Result<(), NoMemory> {
    let inputs = names(alloc, inputs)?;
    let name = Str::of(alloc, name.as_bytes())?;
    let procedure = Procedure {
        name,
        reporter,
        inputs,
        first: 0,
        after: 0,
    };
    procedures.push(alloc, procedure)
}

// The variables that all turtles, all patches and all links own.
#[derive(Drop)]
struct Own {
    turtles: Names,
    patches: Names,
    links: Names,
}

fn none_own(alloc: Global) -> Own {
    Own {
        turtles: Names::empty(alloc),
        patches: Names::empty(alloc),
        links: Names::empty(alloc),
    }
}

// What declares these variables and breeds, and nothing else.
fn with_breeds(alloc: Global, globals: Names, own: Own, breeds: Breeds) -> Declared {
    Declared {
        widgets: Names::empty(alloc),
        globals,
        turtles_own: own.turtles,
        patches_own: own.patches,
        links_own: own.links,
        breeds,
        procedures: Procedures::empty(alloc),
        index: NamedWords::new(Vec::new(alloc)),
    }
}

// What declares these widgets, global variables and procedures, and nothing else.
fn with_procedures(
    alloc: Global,
    widgets: Names,
    globals: Names,
    procedures: Procedures,
) -> Declared {
    Declared {
        widgets,
        globals,
        turtles_own: Names::empty(alloc),
        patches_own: Names::empty(alloc),
        links_own: Names::empty(alloc),
        breeds: Breeds::empty(alloc),
        procedures,
        index: NamedWords::new(Vec::new(alloc)),
    }
}

fn assert_few(rt: &impl Abort, names: &Names)
    ensures { length names.now < 10000 }
{
    assert!(rt; names.as_slice().len() < 10_000);
}

fn assert_few_breeds(rt: &impl Abort, breeds: &[Breed])
    ensures { length (breeds_names breeds.now) + length breeds.now < 2 ^ 30 }
{
    assert!(rt; breeds.len() < 10_000);
    'breeds: for breed in breeds {
        assert_few(rt, &breed.own);
    }
}

fn assert_few_procedures(rt: &impl Abort, procedures: &[Procedure])
    ensures { length (procedures_names procedures.now) + length procedures.now < 2 ^ 29 }
{
    assert!(rt; procedures.len() < 10_000);
    'procedures: for procedure in procedures {
        assert_few(rt, &procedure.inputs);
    }
}

fn assert_small(rt: &impl Abort, declared: &Declared)
    ensures { AreFew declared.now }
{
    assert_few(rt, &declared.widgets);
    assert_few(rt, &declared.globals);
    assert_few(rt, &declared.turtles_own);
    assert_few(rt, &declared.patches_own);
    assert_few(rt, &declared.links_own);
    assert_few_breeds(rt, declared.breeds.as_slice());
    assert_few_procedures(rt, declared.procedures.as_slice());
}

fn index_beside(
    rt: &impl Abort,
    alloc: Global,
    declared: &Declared,
) -> Result<NamedWords, NoMemory> {
    assert_small(rt, declared);
    index_of(alloc, declared)
}

fn indexed(rt: &impl Abort, alloc: Global, declared: Declared) -> Result<NamedWords, NoMemory> {
    let index = index_beside(rt, alloc, &declared);
    let_go(declared);
    index
}

// The word of a name.
fn word_of(index: &NamedWords, name: &str) -> Option<Word> {
    match index.find(name.as_bytes()) {
        Some(row) => Some(row.word),
        None => None,
    }
}

// Whether the name has a word, which is this.
fn is_what(index: &NamedWords, name: &str, what: What) -> bool {
    match word_of(index, name) {
        Some(word) => word.what == what,
        None => false,
    }
}

// Whether the name's word is that of the first breed with this code, and has these inputs.
fn is_made(index: &NamedWords, name: &str, code: u16, inputs: &[Input]) -> bool {
    match word_of(index, name) {
        Some(word) => word.what == What::Made(1, code) && word.inputs == inputs,
        None => false,
    }
}

// Whether the name's word is a variable at this place, which agents of just these kinds may run.
fn is_owned(index: &NamedWords, name: &str, place: u32, runs: Kinds) -> bool {
    match word_of(index, name) {
        Some(word) => word.what == What::Own(place) && word.runs == runs,
        None => false,
    }
}

// Whether the name's word has this role, so many values and no further inputs.
fn is_called(index: &NamedWords, name: &str, role: Role, values: u32) -> bool {
    match word_of(index, name) {
        Some(word) => word.role == role && word.values == values && word.inputs.len() == 0,
        None => false,
    }
}

// The index of a model with one breed.
fn index_of_one(rt: &impl Abort, alloc: Global, sort: Sort) -> Result<NamedWords, NoMemory> {
    let mut breeds = Breeds::empty(alloc);
    push_breed(alloc, &mut breeds, sort, "kin", "one", &[])?;
    let declared = with_breeds(alloc, Names::empty(alloc), none_own(alloc), breeds);
    indexed(rt, alloc, declared)
}

// The breed makes these words and no others, each with the code and the inputs of its built-in word.
fn assert_made(
    rt: &impl Abort,
    alloc: Global,
    sort: Sort,
    wanted: &[(&str, u16, &[Input])],
) -> Result<(), Fail> {
    let index = index_of_one(rt, alloc, sort)?;
    assert!(rt; index.as_slice().len() == wanted.len());
    for (name, code, inputs) in wanted {
        assert!(rt; is_made(&index, name, *code, inputs), "at {name}");
    }
    Ok(())
}

#[test]
fn a_breed_of_turtles_makes_these_words(rt: HostRuntime) -> Result<(), Fail> {
    assert_made(
        &rt,
        rt.alloc(),
        Sort::Turtles,
        &[
            ("kin", codes::TURTLES, &[]),
            ("kin-own", codes::TURTLES_OWN, &[]),
            ("create-kin", codes::CREATE_TURTLES, &[Value, MaybeCommands]),
            (
                "create-ordered-kin",
                codes::CREATE_ORDERED_TURTLES,
                &[Value, MaybeCommands],
            ),
            ("hatch-kin", codes::HATCH, &[Value, MaybeCommands]),
            ("sprout-kin", codes::SPROUT, &[Value, MaybeCommands]),
            ("kin-here", codes::TURTLES_HERE, &[]),
            ("kin-at", codes::TURTLES_AT, &[Value, Value]),
            ("kin-on", codes::TURTLES_ON, &[Value]),
            ("one", codes::TURTLE, &[Value]),
            ("is-one?", codes::IS_TURTLE, &[Value]),
        ],
    )
}

#[test]
fn an_undirected_breed_of_links_makes_these_words(rt: HostRuntime) -> Result<(), Fail> {
    assert_made(
        &rt,
        rt.alloc(),
        Sort::Undirected,
        &[
            ("kin", codes::LINKS, &[]),
            ("kin-own", codes::LINKS_OWN, &[]),
            ("my-kin", codes::MY_LINKS, &[]),
            (
                "create-kin-with",
                codes::CREATE_LINKS_WITH,
                &[Value, MaybeCommands],
            ),
            ("one", codes::LINK, &[Value, Value]),
            ("is-one?", codes::IS_LINK, &[Value]),
            ("one-neighbors", codes::LINK_NEIGHBORS, &[]),
            ("one-neighbor?", codes::LINK_NEIGHBOR, &[Value]),
            ("one-with", codes::LINK_WITH, &[Value]),
            (
                "create-one-with",
                codes::CREATE_LINK_WITH,
                &[Value, MaybeCommands],
            ),
        ],
    )
}

#[test]
fn a_directed_breed_of_links_makes_these_words(rt: HostRuntime) -> Result<(), Fail> {
    assert_made(
        &rt,
        rt.alloc(),
        Sort::Directed,
        &[
            ("kin", codes::LINKS, &[]),
            ("kin-own", codes::LINKS_OWN, &[]),
            ("my-kin", codes::MY_LINKS, &[]),
            (
                "create-kin-to",
                codes::CREATE_LINKS_TO,
                &[Value, MaybeCommands],
            ),
            (
                "create-kin-from",
                codes::CREATE_LINKS_FROM,
                &[Value, MaybeCommands],
            ),
            ("my-in-kin", codes::MY_IN_LINKS, &[]),
            ("my-out-kin", codes::MY_OUT_LINKS, &[]),
            ("one", codes::LINK, &[Value, Value]),
            ("is-one?", codes::IS_LINK, &[Value]),
            ("one-neighbors", codes::LINK_NEIGHBORS, &[]),
            ("one-neighbor?", codes::LINK_NEIGHBOR, &[Value]),
            ("one-with", codes::LINK_WITH, &[Value]),
            (
                "create-one-to",
                codes::CREATE_LINK_TO,
                &[Value, MaybeCommands],
            ),
            (
                "create-one-from",
                codes::CREATE_LINK_FROM,
                &[Value, MaybeCommands],
            ),
            ("in-one-neighbors", codes::IN_LINK_NEIGHBORS, &[]),
            ("out-one-neighbors", codes::OUT_LINK_NEIGHBORS, &[]),
            ("in-one-neighbor?", codes::IN_LINK_NEIGHBOR, &[Value]),
            ("out-one-neighbor?", codes::OUT_LINK_NEIGHBOR, &[Value]),
            ("in-one-from", codes::IN_LINK_FROM, &[Value]),
            ("out-one-to", codes::OUT_LINK_TO, &[Value]),
        ],
    )
}

// What agents own in a model in which owners share variables.
fn shared_own(alloc: Global) -> Result<Own, NoMemory> {
    let turtles = names(alloc, &["energy"])?;
    let patches = names(alloc, &["grass"])?;
    let links = names(alloc, &["weight"])?;
    Ok(Own {
        turtles,
        patches,
        links,
    })
}

// The breeds of a model in which owners share variables.
fn sharing_breeds(alloc: Global) -> Result<Breeds, NoMemory> {
    let mut breeds = Breeds::empty(alloc);
    let wolves = &["age", "weight"];
    push_breed(alloc, &mut breeds, Sort::Turtles, "wolves", "wolf", wolves)?;
    let ties = &["energy", "length-0"];
    push_breed(alloc, &mut breeds, Sort::Directed, "ties", "tie", ties)?;
    Ok(breeds)
}

// The index of a model in which owners share variables.
fn sharing(rt: &impl Abort, alloc: Global) -> Result<NamedWords, NoMemory> {
    let own = shared_own(alloc)?;
    let breeds = sharing_breeds(alloc)?;
    let declared = with_breeds(alloc, Names::empty(alloc), own, breeds);
    indexed(rt, alloc, declared)
}

#[test]
fn a_shared_variable_has_one_row_for_all_its_owners(rt: HostRuntime) {
    let Ok(index) = sharing(&rt, rt.alloc()) else {
        panic!(rt);
    };
    assert!(rt; index.as_slice().len() == 5 + 11 + 20);
    for (name, place, turtle, patch, link) in [
        ("energy", 0, true, false, true),
        ("grass", 1, true, true, false),
        ("weight", 2, true, false, true),
        ("age", 3, true, false, false),
        ("length-0", 4, false, false, true),
    ] {
        let runs = Kinds {
            observer: false,
            turtle,
            patch,
            link,
        };
        assert!(rt; is_owned(&index, name, place, runs), "at {name}");
    }
    assert!(rt; is_what(&index, "tie", What::Made(2, codes::LINK)));
}

// The index of a model that declares a widget too.
fn redeclared(rt: &impl Abort, alloc: Global) -> Result<NamedWords, NoMemory> {
    let widgets = names(alloc, &["speed", "range"])?;
    let globals = names(alloc, &["range", "total"])?;
    let declared = with_procedures(alloc, widgets, globals, Procedures::empty(alloc));
    indexed(rt, alloc, declared)
}

#[test]
fn a_widget_that_is_declared_too_has_one_row(rt: HostRuntime) {
    let Ok(index) = redeclared(&rt, rt.alloc()) else {
        panic!(rt);
    };
    assert!(rt; index.as_slice().len() == 3);
    for (name, place) in [("speed", 0), ("range", 1), ("total", 2)] {
        assert!(rt; is_what(&index, name, What::Global(place)), "at {name}");
    }
}

// The index of a model with a command and a reporter.
fn index_of_two(rt: &impl Abort, alloc: Global) -> Result<NamedWords, NoMemory> {
    let mut procedures = Procedures::empty(alloc);
    push_procedure(alloc, &mut procedures, "go", false, &[])?;
    push_procedure(alloc, &mut procedures, "area", true, &["width", "height"])?;
    let none = Names::empty(alloc);
    let declared = with_procedures(alloc, none, Names::empty(alloc), procedures);
    indexed(rt, alloc, declared)
}

#[test]
fn a_procedure_has_as_many_values_as_inputs(rt: HostRuntime) {
    let Ok(index) = index_of_two(&rt, rt.alloc()) else {
        panic!(rt);
    };
    for (name, place, role, values) in [
        ("go", 0, Role::Command, 0),
        ("area", 1, Role::Reporter, 2),
    ] {
        let is_there = is_what(&index, name, What::Procedure(place));
        assert!(rt;
            is_there && is_called(&index, name, role, values),
            "at {name}"
        );
    }
}

// So many names that begin with a letter, each with a number of four digits.
fn numbered(alloc: Global, letter: u8, count: usize) -> Result<Names, NoMemory> {
    let mut list = Names::empty(alloc);
    for number in 0..count {
        let digit = |power: usize| b'0' + (number / power % 10) as u8;
        let bytes = [letter, digit(1000), digit(100), digit(10), digit(1)];
        push_name(alloc, &mut list, bytes.as_slice())?;
    }
    Ok(list)
}

// A breed of turtles of this name.
fn push_turtles(alloc: Global, breeds: &mut Breeds, plural: &Str) -> Result<(), NoMemory> {
    let plural = plural.copy(alloc)?;
    let singular = Str::of(alloc, b"one")?;
    let made = breed_of(Sort::Turtles, plural, singular, Names::empty(alloc));
    breeds.push(alloc, made)
}

fn breeds_of_turtles(alloc: Global, plurals: &Names) -> Result<Breeds, NoMemory> {
    let mut breeds = Breeds::empty(alloc);
    for plural in plurals.as_slice() {
        push_turtles(alloc, &mut breeds, plural)?;
    }
    Ok(breeds)
}

// The index of a model with 5,000 global variables, 70 of turtles, and 1,000 breeds of turtles.
fn many(rt: &impl Abort, alloc: Global) -> Result<NamedWords, NoMemory> {
    let globals = numbered(alloc, b'g', 5000)?;
    let plurals = numbered(alloc, b'p', 1000)?;
    let breeds = breeds_of_turtles(alloc, &plurals)?;
    let own = Own {
        turtles: numbered(alloc, b'v', 70)?,
        patches: Names::empty(alloc),
        links: Names::empty(alloc),
    };
    let declared = with_breeds(alloc, globals, own, breeds);
    indexed(rt, alloc, declared)
}

// 5,000 global variables and 1,000 breeds of turtles have a row for each of their words.
#[test]
fn many_words_have_rows(rt: HostRuntime) {
    let Ok(index) = many(&rt, rt.alloc()) else {
        panic!(rt);
    };
    assert!(rt; index.as_slice().len() == 5000 + 70 + 1000 * 11);
    assert!(rt; is_what(&index, "g4999", What::Global(4999)));
    assert!(rt; is_what(&index, "v0069", What::Own(69)));
    assert!(rt; is_what(&index, "p0999-here", What::Made(1000, codes::TURTLES_HERE)));
}
