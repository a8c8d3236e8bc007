//! Texts with their declarations and bad tokens, by rows that were worked out apart from the program.

use nl_decl_outline::declaration::{Declaration, Owner, Sort};
use nl_decl_outline::reading::outline;
use nl_decl_outline::refusal::OutlineRefusal;
use nl_fixed::{Names, NoMemory};
use nl_scan::scan;
use std::alloc::Global;
use std::process::Abort;
use std::test::Fail;

// How many names inputs have; 9 where they have no brackets.
fn input_count(inputs: &Option<Names>) -> usize {
    match inputs {
        Some(names) => names.as_slice().len(),
        None => 9,
    }
}

// A declaration with its names left out: its letter and two counts.
fn sign(declaration: &Declaration) -> (u8, usize, usize) {
    match declaration {
        Declaration::Globals(names) => (b'g', names.as_slice().len(), 0),
        Declaration::Own(Owner::AllTurtles, names) => (b't', names.as_slice().len(), 0),
        Declaration::Own(Owner::AllPatches, names) => (b'p', names.as_slice().len(), 0),
        Declaration::Own(Owner::AllLinks, names) => (b'l', names.as_slice().len(), 0),
        Declaration::Own(Owner::BreedAt(place), names) => (b'o', names.as_slice().len(), *place),
        Declaration::Breed(Sort::Turtles, _, _) => (b'b', 0, 0),
        Declaration::Breed(Sort::Directed, _, _) => (b'd', 0, 0),
        Declaration::Breed(Sort::Undirected, _, _) => (b'u', 0, 0),
        Declaration::Procedure(false, _, inputs, tokens) => (b'c', input_count(inputs), *tokens),
        Declaration::Procedure(true, _, inputs, tokens) => (b'r', input_count(inputs), *tokens),
    }
}

// The text has these declarations.
fn assert_read(
    rt: &impl Abort,
    alloc: Global,
    text: &str,
    wanted: &[(u8, usize, usize)],
) -> Result<(), Fail> {
    let text = text.as_bytes();
    let tokens = scan(alloc, text).expect(rt, "tokens");
    let done = outline(alloc, text, tokens.as_slice()).expect(rt, "declarations");
    assert_eq!(rt; done.len(), wanted.len());
    for (declaration, row) in done.as_slice().iter().zip(wanted) {
        assert_eq!(rt; sign(declaration), *row);
    }
    Ok(())
}

// The text has this bad token.
fn assert_bad(rt: &impl Abort, alloc: Global, text: &str, index: usize) {
    let text = text.as_bytes();
    let tokens = scan(alloc, text).expect(rt, "tokens");
    assert!(rt;
        outline(alloc, text, tokens.as_slice()).err() == Some(OutlineRefusal::BadToken(index))
    );
}

#[test]
fn declarations_are_read(rt: HostRuntime) -> Result<(), Fail> {
    let rows: [(&str, &[(u8, usize, usize)]); 9] = [
        ("", &[]),
        ("GLOBALS [a B] globals []", &[(b'g', 2, 0), (b'g', 0, 0)]),
        (
            "turtles-own [a] patches-own [b] links-own [c]",
            &[(b't', 1, 0), (b'p', 1, 0), (b'l', 1, 0)],
        ),
        (
            "breed [foxes fox] foxes-own [a]",
            &[(b'b', 0, 0), (b'o', 1, 0)],
        ),
        (
            "breed [a x] directed-link-breed [b y] undirected-link-breed [a z] b-own [v] a-own []",
            &[
                (b'b', 0, 0),
                (b'd', 0, 0),
                (b'u', 0, 0),
                (b'o', 1, 1),
                (b'o', 0, 0),
            ],
        ),
        ("to end end", &[(b'c', 9, 0)]),
        ("to go [x y] end", &[(b'c', 2, 0)]),
        (
            "to go [] [fd 1] END to-report one report 1 end",
            &[(b'c', 0, 4), (b'r', 9, 2)],
        ),
        (
            "to go crt 1 end breed [to end] to-own [w] to to to end",
            &[(b'c', 9, 2), (b'b', 0, 0), (b'o', 1, 0), (b'c', 9, 1)],
        ),
    ];
    for (text, wanted) in rows {
        assert_read(&rt, rt.alloc(), text, wanted)?;
    }
    Ok(())
}

#[test]
fn tokens_are_bad_at_these_indices(rt: HostRuntime) {
    for (text, index) in [
        ("breed [foxes]", 3),
        ("breed [a b c]", 4),
        ("to go crt 1", 4),
        ("foxes-own [a] breed [foxes fox]", 0),
        ("globals a", 1),
        ("globals [1]", 2),
        ("globals", 1),
        ("globals [a", 3),
        ("to", 1),
        ("to go [x", 4),
        ("to [x] end", 1),
        ("to go end fd", 3),
        ("\"to\" go end", 0),
    ] {
        assert_bad(&rt, rt.alloc(), text, index);
    }
}

#[test]
fn names_are_in_lower_case(rt: HostRuntime) -> Result<(), Fail> {
    let text = b"Breed [FOXES Fox]";
    let tokens = scan(rt.alloc(), text).expect(&rt, "tokens");
    let done = outline(rt.alloc(), text, tokens.as_slice()).expect(&rt, "declarations");
    let [Declaration::Breed(_, plural, singular)] = done.as_slice() else {
        panic!(rt);
    };
    assert!(rt; plural.as_bytes() == b"foxes".as_slice());
    assert!(rt; singular.as_bytes() == b"fox".as_slice());
    Ok(())
}

// Appends the same words so many times.
fn push_words(text: &mut Vec<u8>, words: &[u8], count: usize) -> Result<(), NoMemory> {
    for _ in 0..count {
        text.extend_from_slice(words)?;
    }
    Ok(())
}

// 5,000 global variables, a procedure with 70 inputs and 20,000 tokens in its body, and what stands behind them.
fn long_text(alloc: Global, end: &[u8]) -> Result<Vec<u8>, NoMemory> {
    let mut text = Vec::new(alloc);
    text.extend_from_slice(b"globals [")?;
    push_words(&mut text, b"a ", 5000)?;
    text.extend_from_slice(b"] to go [")?;
    push_words(&mut text, b"b ", 70)?;
    text.extend_from_slice(b"]")?;
    push_words(&mut text, b"fd 1 ", 10_000)?;
    text.extend_from_slice(end)?;
    Ok(text)
}

#[test]
fn long_texts_are_read(rt: HostRuntime) -> Result<(), Fail> {
    let text = long_text(rt.alloc(), b"end")?;
    let tokens = scan(rt.alloc(), text.as_slice()).expect(&rt, "tokens");
    let done = outline(rt.alloc(), text.as_slice(), tokens.as_slice()).expect(&rt, "declarations");
    let [globals, go] = done.as_slice() else {
        panic!(rt);
    };
    assert_eq!(rt; sign(globals), (b'g', 5000, 0));
    assert_eq!(rt; sign(go), (b'c', 70, 20_000));
    Ok(())
}

// Behind all that is kept, a bad token is told as itself.
#[test]
fn a_bad_token_is_told_behind_a_long_text(rt: HostRuntime) -> Result<(), Fail> {
    for (end, index) in [("end 1", 25_078), ("end go", 25_078), ("", 25_077)] {
        let text = long_text(rt.alloc(), end.as_bytes())?;
        let tokens = scan(rt.alloc(), text.as_slice()).expect(&rt, "tokens");
        let refusal = outline(rt.alloc(), text.as_slice(), tokens.as_slice()).err();
        assert!(rt; refusal == Some(OutlineRefusal::BadToken(index)));
    }
    Ok(())
}
