//! Bodies and texts far longer than the usual ones, and more names than usual.

use crate::reading::{program_of, text_of};
use nl_exec_meaning::{Code, Op};
use nl_tree::{Form, Program, Tree};
use std::alloc::Global;

const STATEMENT: &[u8] = b"set total total + 1 ";

const COUNT: u32 = 8_000;

// So many statements between a beginning and an end.
fn repeated(alloc: Global, first: &[u8], last: &[u8]) -> Option<Vec<u8>> {
    let mut text = Vec::new(alloc);
    text.extend_from_slice(first).ok()?;
    for _statement in 0..COUNT {
        text.extend_from_slice(STATEMENT).ok()?;
    }
    text.extend_from_slice(last).ok()?;
    Some(text)
}

fn long_model(alloc: Global) -> Option<Program> {
    let model = repeated(alloc, b"globals [ total ] to go ", b"end")?;
    program_of(alloc, &model)
}

fn long_text(alloc: Global, program: &Program) -> Option<Tree> {
    let text = repeated(alloc, b"", b"")?;
    text_of(alloc, program, Form::Commands, &text)
}

fn is_global(code: &Code, node: Option<u32>) -> bool {
    match node {
        Some(node) => matches!(code.op(node), Op::Global(0)),
        None => false,
    }
}

// Whether the last statement of a text sets the global variable.
fn is_whole(code: &Code, root: u32) -> bool {
    match code.part(root, COUNT - 1) {
        Some(last) => code.count(root) == COUNT && is_global(code, code.part(last, 0)),
        None => false,
    }
}

// Whether the code and a copy of it have the body and the text to their ends.
fn has_both(alloc: Global, code: &Code, root: u32) -> bool {
    match code.copy(alloc) {
        Ok(again) => {
            is_whole(code, 0)
                && is_whole(code, root)
                && is_whole(&again, 0)
                && is_whole(&again, root)
        }
        Err(_) => false,
    }
}

// Whether the text is opened beside the bodies, and then both it and the first body are whole, and copied whole. Program and text are lent
// for one time, as code holds both.
fn opens_both<'a>(alloc: Global, program: &'a Program, text: &'a Tree) -> bool {
    let Ok(mut code) = Code::new(alloc, program) else {
        return false;
    };
    match code.open(alloc, text) {
        Ok(root) => has_both(alloc, &code, root),
        Err(_) => false,
    }
}

#[test]
fn long_texts_are_resolved_and_copied(rt: HostRuntime) {
    let alloc = rt.alloc();
    let Some(program) = long_model(alloc) else {
        panic!(rt);
    };
    let Some(text) = long_text(alloc, &program) else {
        panic!(rt);
    };
    assert!(rt; opens_both(alloc, &program, &text));
}

const PROCEDURES: u32 = 1_000;

// So many procedures, each with an input and a local that have names of their own.
fn many_named(alloc: Global) -> Option<Vec<u8>> {
    let mut text = Vec::new(alloc);
    for n in 0..PROCEDURES {
        let line = format!(in alloc; "to p{n} [ a{n} ] let b{n} a{n} end ").ok()?;
        text.extend_from_slice(line.as_bytes()).ok()?;
    }
    Some(text)
}

fn model_of_many(alloc: Global) -> Option<Program> {
    let model = many_named(alloc)?;
    program_of(alloc, &model)
}

// The local that the first statement of a body makes, and the one that it takes.
fn locals_in(code: &Code, body: u32) -> Option<(Op, Op)> {
    let statement = code.part(body, 0)?;
    let made = code.part(statement, 0)?;
    let taken = code.part(statement, 1)?;
    Some((code.op(made), code.op(taken)))
}

// Whether the input of a procedure has the procedure's number, and its local comes after those of all inputs, in the same order.
fn is_named(code: &Code, procedure: u32) -> bool {
    let Some((Op::Local(made), Op::Local(taken))) = locals_in(code, procedure) else {
        return false;
    };
    code.input(procedure, 0) == Some(procedure)
        && taken == procedure
        && made == PROCEDURES.saturating_add(procedure)
}

fn are_named(code: &Code) -> bool {
    for procedure in 0..PROCEDURES {
        if !is_named(code, procedure) {
            return false;
        }
    }
    true
}

fn copy_is_named(alloc: Global, code: &Code) -> bool {
    match code.copy(alloc) {
        Ok(again) => are_named(&again),
        Err(_) => false,
    }
}

#[test]
fn each_of_many_names_has_its_number(rt: HostRuntime) {
    let alloc = rt.alloc();
    let Some(program) = model_of_many(alloc) else {
        panic!(rt);
    };
    let Ok(code) = Code::new(alloc, &program) else {
        panic!(rt);
    };
    assert!(rt; are_named(&code) && copy_is_named(alloc, &code));
}
