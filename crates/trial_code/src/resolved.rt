//! Texts of a model as nodes whose names were looked up.

use crate::looks::{Kind, Look, wrong_in};
use crate::reading::{program_of, text_of};
use nl_exec_meaning::{Code, Control};
use nl_tree::{Form, Program, Tree};
use std::alloc::Global;

// Two procedures that have inputs and locals of one name, a breed with a variable of its own, and a global variable.
const MODEL: &[u8] = b"breed [ foxes fox ] globals [ total ] foxes-own [ hunger ] \
to go [ n ] let x n set total x create-foxes n [ set hunger (list 2.5 \"a\") ] end \
to-report sum-up [ x n ] report [hunger] of turtle n + red - x end";

// Inputs are numbered first: `n` is 0, and `x` is 1. The node of a body has the number of its procedure.
const BODIES: &[Look] = &[
    Look::Body(0, Some(0)),
    Look::Body(1, Some(1)),
    Look::Body(2, None),
    Look::Behind(1, 0),
    Look::Is(0, &[], Kind::Statements),
    Look::Count(0, 3),
    Look::Is(0, &[0], Kind::Control(Control::Let)),
    Look::Is(0, &[0, 0], Kind::Local(1)),
    Look::Is(0, &[0, 1], Kind::Local(0)),
    Look::Is(0, &[1], Kind::Control(Control::Set)),
    Look::Is(0, &[1, 0], Kind::Global(0)),
    Look::Is(0, &[1, 1], Kind::Local(1)),
    Look::Is(
        0,
        &[2],
        Kind::Create {
            turtle: false,
            breed: Some(1),
        },
    ),
    Look::Is(0, &[2, 0], Kind::Local(0)),
    Look::Is(0, &[2, 1], Kind::Statements),
    Look::Is(0, &[2, 1, 0], Kind::Control(Control::Set)),
    Look::Is(
        0,
        &[2, 1, 0, 0],
        Kind::Owned {
            turtle: true,
            slot: 14,
        },
    ),
    Look::Is(0, &[2, 1, 0, 1], Kind::Inside),
    Look::Is(0, &[2, 1, 0, 1, 0, 0], Kind::Number(2_500_000)),
    Look::Is(0, &[2, 1, 0, 1, 0, 1], Kind::Words),
    Look::Is(1, &[], Kind::Statements),
    Look::Is(1, &[0], Kind::Control(Control::Report)),
];

const INPUTS: &[Look] = &[
    Look::Input(0, 0, Some(0)),
    Look::Input(0, 1, None),
    Look::Input(1, 0, Some(1)),
    Look::Input(1, 1, Some(0)),
    Look::Input(1, 2, None),
    Look::Input(2, 0, None),
];

#[test]
fn names_of_bodies_are_looked_up(rt: HostRuntime) {
    let alloc = rt.alloc();
    let Some(program) = program_of(alloc, MODEL) else {
        panic!(rt);
    };
    let Ok(code) = Code::new(alloc, &program) else {
        panic!(rt);
    };
    let bodies = wrong_in(&code, 0, BODIES);
    let inputs = wrong_in(&code, 0, INPUTS);
    assert!(rt;
        bodies.is_none() && inputs.is_none(),
        "{bodies:?} {inputs:?}"
    );
}

const FIRST: &[Look] = &[
    Look::Is(0, &[], Kind::Statements),
    Look::Count(0, 3),
    Look::Is(0, &[0], Kind::Procedure(0)),
    Look::Is(0, &[0, 0], Kind::Number(3_000_000)),
    Look::Is(0, &[1, 0], Kind::Local(2)),
    Look::Is(0, &[2, 0], Kind::Local(2)),
];

// Where no node is any more, there is a list without items.
const SECOND: &[Look] = &[
    Look::Is(0, &[], Kind::Items),
    Look::Count(0, 1),
    Look::Is(0, &[0], Kind::Words),
    Look::Text(1, b"ab"),
    Look::Is(2, &[], Kind::Items),
    Look::Count(2, 0),
];

// The roots of two texts, one opened after the other. None where one has another answer than it is told, and at want of memory.
fn opened<'a>(
    alloc: Global,
    code: &mut Code<'a>,
    first: &'a Tree,
    second: &'a Tree,
) -> Option<(u32, u32)> {
    let one = code.open(alloc, first).ok()?;
    if wrong_in(code, one, FIRST).is_some() {
        return None;
    }
    let other = code.open(alloc, second).ok()?;
    Some((one, other))
}

// Whether both texts stand at one place, the second in that of the first, and the bodies stay.
fn takes_its_place<'a>(
    alloc: Global,
    code: &mut Code<'a>,
    first: &'a Tree,
    second: &'a Tree,
) -> bool {
    match opened(alloc, code, first, second) {
        Some((one, other)) => {
            one == other
                && wrong_in(code, other, SECOND).is_none()
                && wrong_in(code, 0, BODIES).is_none()
        }
        None => false,
    }
}

// Whether a copy has the same text and the same bodies.
fn copies(alloc: Global, code: &Code, root: u32) -> bool {
    match code.copy(alloc) {
        Ok(again) => {
            wrong_in(&again, root, SECOND).is_none() && wrong_in(&again, 0, BODIES).is_none()
        }
        Err(_) => false,
    }
}

// Whether the second text stands in the place of the first, and a copy has it. All are lent for one time, as code holds them.
fn holds_both<'a>(alloc: Global, program: &'a Program, first: &'a Tree, second: &'a Tree) -> bool {
    let Ok(mut code) = Code::new(alloc, program) else {
        return false;
    };
    if !takes_its_place(alloc, &mut code, first, second) {
        return false;
    }
    match code.open(alloc, second) {
        Ok(root) => copies(alloc, &code, root),
        Err(_) => false,
    }
}

#[test]
fn a_text_stands_in_the_place_of_the_one_before(rt: HostRuntime) {
    let alloc = rt.alloc();
    let Some(program) = program_of(alloc, MODEL) else {
        panic!(rt);
    };
    let Some(first) = text_of(alloc, &program, Form::Commands, b"go 3 let y 2 go y") else {
        panic!(rt);
    };
    let Some(second) = text_of(alloc, &program, Form::Reporter, b"[\"ab\"]") else {
        panic!(rt);
    };
    assert!(rt; holds_both(alloc, &program, &first, &second));
}
