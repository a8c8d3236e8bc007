//! What models declare, and what is refused.
ghost use Rattle.std.specs.Prelude.{IfOk};
ghost use Rattle.nl_tree.specs.Names.{AreWidgets, IsDeclared};

use nl_decl::declaring::declare;
use nl_decl::refusal::{DeclKind, DeclRefusal};
use nl_fixed::{Names, NoMemory, Str};
use nl_scan::{Source, scan};
use nl_tree::{Declared, What, word};
use nl_words::Role;
use std::alloc::Global;

fn one_widget(alloc: Global) -> Result<Names, NoMemory>
    ensures { IfOk result AreWidgets }
{
    let mut names = Names::empty(alloc);
    let name = Str::of(alloc, b"speed")?;
    names.push(alloc, name)?;
    Ok(names)
}

fn no_widgets(alloc: Global) -> Names
    ensures { AreWidgets result }
{
    Names::empty(alloc)
}

// The widget `speed`, or none.
fn widgets(alloc: Global, speed: bool) -> Result<Names, NoMemory>
    ensures { IfOk result AreWidgets }
{
    if speed {
        one_widget(alloc)
    } else {
        Ok(no_widgets(alloc))
    }
}

// What a text declares beside a widget `speed`, or beside none.
fn declared(alloc: Global, text: &[u8], speed: bool) -> Result<Declared, DeclRefusal>
    ensures { IfOk result IsDeclared }
{
    let Ok(tokens) = scan(alloc, text) else {
        return Err(DeclRefusal::NoMemory);
    };
    let widgets = widgets(alloc, speed)?;
    let declared = declare(alloc, &Source::new(text, tokens.as_slice()), widgets)?;
    Ok(declared)
}

// Whether a text has this fault.
fn is_refused(alloc: Global, text: &[u8], speed: bool, kind: DeclKind, place: usize) -> bool {
    match declared(alloc, text, speed) {
        Ok(_) => false,
        Err(refusal) => refusal == DeclRefusal::Fault { kind, place },
    }
}

fn all_are_duplicates(alloc: Global, rows: &[(&str, usize)]) -> bool {
    for (text, place) in rows {
        if !is_refused(alloc, text.as_bytes(), true, DeclKind::Duplicate, *place) {
            return false;
        }
    }
    true
}

fn all_are_accepted(alloc: Global, rows: &[&str]) -> bool {
    for text in rows {
        if declared(alloc, text.as_bytes(), true).is_err() {
            return false;
        }
    }
    true
}

// A name is refused at its later token, whatever it is declared as.
#[test]
fn names_clash_at_the_later_one(rt: HostRuntime) {
    assert!(rt;
        all_are_duplicates(
            rt.alloc(),
            &[
                ("globals [a] globals [A]", 6),
                ("globals [count]", 2),
                ("globals [end]", 2),
                ("globals [speed speed]", 3),
                ("patches-own [speed]", 2),
                ("to speed end", 1),
                ("breed [foxes fox] to create-foxes end", 6),
                ("to create-foxes end breed [foxes fox]", 5),
                ("to fox end breed [foxes fox]", 6),
                ("globals [is-fox?] breed [foxes fox]", 7),
                ("breed [fox fox]", 3),
                (
                    "undirected-link-breed [ties tie] globals [create-ties-with]",
                    7
                ),
                ("directed-link-breed [ties tie] globals [in-tie-from]", 7),
                ("to go end to go end", 4),
                ("to go [x x] end", 4),
                ("to go [x] end globals [x]", 8),
                ("globals [x] to go [x] end", 7),
                ("to go [go] end", 3),
            ]
        )
    );
}

// A variable may belong to several owners, but not to one twice, nor to all turtles or links and to some.
#[test]
fn owners_share_variables(rt: HostRuntime) {
    assert!(rt;
        all_are_accepted(
            rt.alloc(),
            &[
                "globals [speed]",
                "turtles-own [a] links-own [a]",
                "breed [foxes fox] breed [owls owl] foxes-own [a] owls-own [a]",
                "breed [foxes fox] undirected-link-breed [ties tie] foxes-own [a] ties-own [a] links-own [b] turtles-own [b]",
                "to go [x] end to come [x] end",
            ]
        )
    );
    assert!(rt;
        all_are_duplicates(
            rt.alloc(),
            &[
                ("breed [foxes fox] turtles-own [a] foxes-own [a]", 11),
                ("breed [foxes fox] foxes-own [a] turtles-own [a]", 11),
                ("breed [foxes fox] foxes-own [a] foxes-own [a]", 11),
                (
                    "directed-link-breed [ties tie] links-own [a] ties-own [a]",
                    11
                ),
                ("turtles-own [a a]", 3),
                ("patches-own [a] turtles-own [a]", 6),
                ("breed [foxes fox] patches-own [a] foxes-own [a]", 11),
            ]
        )
    );
}

// A text that is no list of declarations is refused for that, whatever is declared twice before.
#[test]
fn bad_declaration_comes_first(rt: HostRuntime) {
    let alloc = rt.alloc();
    assert!(rt;
        is_refused(
            alloc,
            b"globals [a a] breed [foxes]",
            false,
            DeclKind::BadDeclaration,
            8
        )
    );
    assert!(rt; is_refused(alloc, b"to go crt 1", false, DeclKind::BadDeclaration, 4));
    assert!(rt; is_refused(alloc, b"breed [foxes]", false, DeclKind::BadDeclaration, 3));
}

// Whether so many of each are declared.
fn are_so_many(declared: &Declared, globals: usize, breeds: usize, procedures: usize) -> bool {
    declared.globals.as_slice().len() == globals
        && declared.breeds.as_slice().len() == breeds
        && declared.procedures.as_slice().len() == procedures
}

// Whether a word is this construct, or has this role.
fn is_what(declared: &Declared, name: &[u8], what: What) -> bool
    requires { IsDeclared declared.now }
{
    matches!(word(declared, name), Some(found) if found.what == what)
}

fn has_role(declared: &Declared, name: &[u8], role: Role) -> bool
    requires { IsDeclared declared.now }
{
    matches!(word(declared, name), Some(found) if found.role == role)
}

// Each declaration is where it belongs, and words are found by their names.
#[test]
fn declarations_are_kept(rt: HostRuntime) {
    let text = b"globals [a] breed [foxes fox] foxes-own [b] to go [x] fd 1 end";
    let Ok(declared) = declared(rt.alloc(), text, true) else {
        panic!(rt);
    };
    assert!(rt; are_so_many(&declared, 1, 1, 1));
    assert!(rt;
        matches!(declared.breeds.as_slice().first(), Some(breed) if breed.own.as_slice().len() == 1)
    );
    assert!(rt;
        matches!(declared.procedures.as_slice().first(), Some(go) if go.first == 18 && go.after == 20)
    );
    assert!(rt; is_what(&declared, b"a", What::Global(1)));
    assert!(rt; is_what(&declared, b"speed", What::Global(0)));
    assert!(rt; matches!(word(&declared, b"go"), Some(found) if found.values == 1));
    assert!(rt; has_role(&declared, b"ask", Role::Command));
    assert!(rt; word(&declared, b"x").is_none());
}

// Appends a word with a number of four digits behind it, and a space.
fn push_word(text: &mut Vec<u8>, word: &[u8], number: usize) -> Result<(), NoMemory> {
    text.extend_from_slice(word)?;
    text.push(b'0' + (number / 1000 % 10) as u8)?;
    text.push(b'0' + (number / 100 % 10) as u8)?;
    text.push(b'0' + (number / 10 % 10) as u8)?;
    text.push(b'0' + (number % 10) as u8)?;
    text.push(b' ')?;
    Ok(())
}

// 5,000 global variables and procedures, and 1,000 breeds.
fn many_names(alloc: Global) -> Result<Vec<u8>, NoMemory> {
    let mut text = Vec::new(alloc);
    text.extend_from_slice(b"globals [ ")?;
    for number in 0..5000 {
        push_word(&mut text, b"g", number)?;
    }
    text.extend_from_slice(b"] ")?;
    for number in 0..5000 {
        push_word(&mut text, b"to p", number)?;
        text.extend_from_slice(b"end ")?;
    }
    for number in 0..1000 {
        push_word(&mut text, b"breed [b", number)?;
        push_word(&mut text, b"c", number)?;
        text.extend_from_slice(b"] ")?;
    }
    Ok(text)
}

// Thousands of names are told apart and found again.
#[test]
fn many_names_are_declared(rt: HostRuntime) {
    let alloc = rt.alloc();
    let Ok(text) = many_names(alloc) else {
        panic!(rt);
    };
    let Ok(declared) = declared(alloc, text.as_slice(), false) else {
        panic!(rt);
    };
    assert!(rt; are_so_many(&declared, 5000, 1000, 5000));
    assert!(rt; is_what(&declared, b"p4999", What::Procedure(4999)));
    assert!(rt; is_what(&declared, b"g0000", What::Global(0)));
    assert!(rt; has_role(&declared, b"hatch-b0999", Role::Command));
}

// Behind all that is kept, each fault is told as itself.
#[test]
fn faults_are_told_behind_many_names(rt: HostRuntime) {
    let alloc = rt.alloc();
    for (end, kind, place) in [
        ("to p0000 end", DeclKind::Duplicate, 25_004),
        ("to p0000", DeclKind::BadDeclaration, 25_005),
    ] {
        let Ok(mut text) = many_names(alloc) else {
            panic!(rt);
        };
        assert!(rt; text.extend_from_slice(end.as_bytes()).is_ok());
        assert!(rt; is_refused(alloc, text.as_slice(), false, kind, place));
    }
}
